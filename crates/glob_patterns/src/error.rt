//! Why a pattern is rejected.
ghost use Rattle.std.specs.Prelude.{Some};
ghost use Rattle.std.specs.Fmt.{WritesStyledOnOk};
ghost use Rattle.glob_patterns.specs.ErrorText.{kind_text};

use glob_text::{FaultKind, PatternFault};
use os_str_ext::write_number;
use std::alloc::AllocError;
use std::error::Error;
use std::fmt;

/// Why [`Glob::new`](crate::Glob::new) makes no pattern.
///
/// It prints as a message for a person. It has no width: `{:>99}` writes what `{}` does.
///
/// ```
/// use glob_patterns::GlobError;
///
/// let error = GlobError::Memory;
/// assert_eq!(rt; format!(in alloc; "{error}")?.as_str(), "out of memory");
/// ```
#[derive(Clone, Copy, Debug, PartialEq, Eq)]
pub enum GlobError {
    /// The first fault of the pattern, and its byte index.
    Pattern(PatternFault),
    /// An allocation failed.
    Memory,
}

impl fmt::Display for GlobError {
    ghost use Rattle.glob_patterns.specs.ErrorText.{error_text};

    ghost output = { λ error. Some (error_text error) };

    ghost styled_output = { λ error _. Some (error_text error) };

    fn fmt<W: fmt::Write>(&self, f: &mut fmt::Formatter<W>) -> fmt::Result {
        match *self {
            GlobError::Pattern(fault) => {
                write_kind(fault.kind, f)?;
                f.write_str(" at byte ")?;
                write_number(fault.index, f)
            }
            GlobError::Memory => f.write_str("out of memory"),
        }
    }
}

impl Error for GlobError {}

/// Writes what is wrong.
pub(crate) fn write_kind<W: fmt::Write>(kind: FaultKind, f: &mut fmt::Formatter<W>) -> fmt::Result
    ensures { WritesStyledOnOk W.write_str_gives f.old result (kind_text kind) f.new }
{
    match kind {
        FaultKind::UnclosedClass => f.write_str("unclosed class"),
        FaultKind::ReversedRange => f.write_str("reversed range"),
        FaultKind::UnknownClassName => f.write_str("unknown class name"),
        FaultKind::DanglingEscape => f.write_str("dangling escape"),
        FaultKind::UnclosedAlternatives => f.write_str("unclosed alternatives"),
        FaultKind::UnopenedAlternatives => f.write_str("unopened alternatives"),
        FaultKind::TooManyChoices => f.write_str("too many choices"),
    }
}

impl From<AllocError> for GlobError {
    ghost use Rattle.std.specs.Prelude.{◌≡◌};
    ghost use Rattle.glob_patterns.specs.declared.error.GlobError.TheVariants.{Memory};

    ghost from_gives = { λ _ error. error ≡ Memory };

    fn from(_: AllocError) -> GlobError {
        GlobError::Memory
    }
}
