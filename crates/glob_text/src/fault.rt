//! Why the text of a pattern is rejected.

/// What is wrong with the text of a pattern.
#[derive(Clone, Copy, Debug, PartialEq, Eq)]
pub enum FaultKind {
    /// A class has no `]` at its end. The index is that of its `[`.
    UnclosedClass,
    /// The last letter of a range comes before its first, as in `[z-a]`. The index is that of the
    /// range's first letter.
    ReversedRange,
    /// The name of a named class isn't known, as in `[[:foo:]]`. The index is that of the `[`
    /// before its `:`.
    UnknownClassName,
    /// No letter comes after a `\`. The index is that of the `\`.
    DanglingEscape,
    /// Alternatives have no `}` at their end. The index is that of the outermost `{` that isn't
    /// closed.
    UnclosedAlternatives,
    /// A `}` closes no alternatives. The index is its own.
    UnopenedAlternatives,
    /// Written out, the alternatives are more than 1,024 patterns, or several patterns that have
    /// more than 65,536 marks together. A mark is a letter, a wildcard or a class. The index is 0.
    TooManyChoices,
}

/// The first fault of the text of a pattern, and where it is.
#[derive(Clone, Copy, Debug, PartialEq, Eq)]
pub struct PatternFault {
    /// What is wrong.
    pub kind: FaultKind,
    /// The byte index in the pattern.
    pub index: usize,
}
