//! How the text of a pattern is read.
ghost use Rattle.std.specs.Prelude.{◌≡◌};
ghost use Rattle.glob_text.specs.Marks.{is_quoting};

use wildcards::Separators;

/// How the text of a pattern is read.
#[derive(Clone, Copy, PartialEq, Eq)]
pub struct Syntax {
    /// Which letters are separators.
    pub separators: Separators,
    /// Whether a `\` quotes the letter after it, where it isn't a separator.
    pub escapes: bool,
    /// Whether it does so in a class.
    pub class_escapes: bool,
    /// Whether letters that differ in case alone are one: those with the same simple case folding
    /// (The Unicode Standard, 3.13).
    pub case_insensitive: bool,
}

impl Syntax {
    /// Whether a `\` quotes the letter after it.
    pub(crate) fn is_quoting(self) -> bool
        ensures { result ≡ is_quoting self }
    {
        self.escapes && !self.separators.contains(0x5C)
    }
}
