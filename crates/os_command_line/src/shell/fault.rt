//! Why a line isn't words.
use crate::error_text::write_at_byte;
use std::error::Error;
use std::fmt;

/// What begins at the index of a fault.
#[derive(Clone, Copy, Debug, PartialEq, Eq)]
pub enum FaultKind {
    /// A single quote that no other closes.
    UnclosedSingle,
    /// A double quote that no other closes.
    UnclosedDouble,
    /// `$'` that no single quote closes.
    UnclosedDollar,
    /// A backslash outside quotes, after which nothing comes.
    TrailingBackslash,
    /// A byte that some shell gives a meaning of its own ([`Specials::Refused`]).
    ///
    /// [`Specials::Refused`]: crate::shell::Specials::Refused
    Special,
    /// A backslash in `$'..'` that begins none of the escapes that are read there.
    UnknownEscape,
}

/// Why [`Words`](crate::shell::Words) gives no further word.
///
/// It prints as a message for a person: `unclosed single quote`, `unclosed double quote`,
/// `unclosed dollar-single-quote`, `trailing backslash`, `special character` or `unknown escape`,
/// and the index. It has no width: `{:>99}` writes what `{}` does.
///
/// ```
/// use os_command_line::shell::{FaultKind, WordsFault};
///
/// let fault = WordsFault {
///     kind: FaultKind::UnclosedSingle,
///     index: 2,
/// };
/// assert_eq!(rt; format!(in alloc; "{fault}")?.as_str(), "unclosed single quote at byte 2");
/// ```
#[derive(Clone, Copy, Debug, PartialEq, Eq)]
pub struct WordsFault {
    /// What begins at the index.
    pub kind: FaultKind,
    /// The byte index in the line.
    pub index: usize,
}

impl fmt::Display for WordsFault {
    ghost use Rattle.std.specs.Prelude.{Some};
    ghost use Rattle.os_command_line.specs.ErrorText.{fault_text};

    ghost output = { λ fault. Some (fault_text fault) };

    ghost styled_output = { λ fault _. Some (fault_text fault) };

    fn fmt<W: fmt::Write>(&self, f: &mut fmt::Formatter<W>) -> fmt::Result {
        write_at_byte(self.kind.text(), self.index, f)
    }
}

impl Error for WordsFault {}

impl FaultKind {
    ghost use Rattle.std.specs.Prelude.{◌≡◌};
    ghost use Rattle.os_command_line.specs.ErrorText.{kind_text};

    /// What begins there, in words.
    fn text(self) -> &'static str
        ensures { result.now ≡ kind_text self }
    {
        match self {
            FaultKind::UnclosedSingle => "unclosed single quote",
            FaultKind::UnclosedDouble => "unclosed double quote",
            FaultKind::UnclosedDollar => "unclosed dollar-single-quote",
            FaultKind::TrailingBackslash => "trailing backslash",
            FaultKind::Special => "special character",
            FaultKind::UnknownEscape => "unknown escape",
        }
    }
}
