//! Why a set of patterns is rejected.
ghost use Rattle.std.specs.Prelude.{Some};

use crate::error::write_kind;
use glob_text::PatternFault;
use os_str_ext::write_number;
use std::alloc::AllocError;
use std::error::Error;
use std::fmt;

/// Why [`GlobSet::new`](crate::GlobSet::new) makes no set.
///
/// It prints as a message for a person. It has no width: `{:>99}` writes what `{}` does.
///
/// ```
/// use glob_patterns::{FaultKind, GlobSetError, PatternFault};
///
/// let fault = PatternFault { kind: FaultKind::UnclosedClass, index: 1 };
/// let error = GlobSetError::Pattern(2, fault);
/// let text = format!(in alloc; "{error}")?;
/// assert_eq!(rt; text.as_str(), "pattern 2: unclosed class at byte 1");
/// ```
#[derive(Clone, Copy, Debug, PartialEq, Eq)]
pub enum GlobSetError {
    /// The first pattern that has a fault: its index in the list, and its first fault.
    Pattern(usize, PatternFault),
    /// An allocation failed.
    Memory,
}

impl fmt::Display for GlobSetError {
    ghost use Rattle.glob_patterns.specs.ErrorText.{set_error_text};

    ghost output = { λ error. Some (set_error_text error) };

    ghost styled_output = { λ error _. Some (set_error_text error) };

    fn fmt<W: fmt::Write>(&self, f: &mut fmt::Formatter<W>) -> fmt::Result {
        match *self {
            GlobSetError::Pattern(index, fault) => {
                f.write_str("pattern ")?;
                write_number(index, f)?;
                f.write_str(": ")?;
                write_kind(fault.kind, f)?;
                f.write_str(" at byte ")?;
                write_number(fault.index, f)
            }
            GlobSetError::Memory => f.write_str("out of memory"),
        }
    }
}

impl Error for GlobSetError {}

impl From<AllocError> for GlobSetError {
    ghost use Rattle.std.specs.Prelude.{◌≡◌};
    ghost use Rattle.glob_patterns.specs.declared.set_error.GlobSetError.TheVariants.{Memory};

    ghost from_gives = { λ _ error. error ≡ Memory };

    fn from(_: AllocError) -> GlobSetError {
        GlobSetError::Memory
    }
}
