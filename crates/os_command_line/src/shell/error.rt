//! Why a name can't be written as a word.
use crate::error_text::write_at_byte;
use std::alloc::AllocError;
use std::error::Error;
use std::fmt;

/// The index of the first NUL of a name. No argument of a program has one.
///
/// It prints as a message for a person. It has no width: `{:>99}` writes what `{}` does.
///
/// ```
/// use os_command_line::shell::NulError;
///
/// let error = NulError { index: 3 };
/// assert_eq!(rt; format!(in alloc; "{error}")?.as_str(), "NUL at byte 3");
/// ```
#[derive(Clone, Copy, Debug, PartialEq, Eq)]
pub struct NulError {
    /// The byte index.
    pub index: usize,
}

/// Why [`quote`](crate::shell::quote) and the other calls that take memory write no word.
///
/// Its text is `NUL at byte 3` or `out of memory`, at any width.
///
/// ```
/// use os_command_line::shell::ShellError;
///
/// let error = ShellError::Nul(3);
/// assert_eq!(rt; format!(in alloc; "{error}")?.as_str(), "NUL at byte 3");
/// ```
#[derive(Clone, Copy, Debug, PartialEq, Eq)]
pub enum ShellError {
    /// The byte index of the first NUL of the name, or of the first name that has one.
    Nul(usize),
    /// An allocation failed.
    Memory,
}

impl fmt::Display for NulError {
    ghost use Rattle.std.specs.Prelude.{Some};
    ghost use Rattle.os_command_line.specs.ErrorText.{nul_text};

    ghost output = { λ error. Some (nul_text error) };

    ghost styled_output = { λ error _. Some (nul_text error) };

    fn fmt<W: fmt::Write>(&self, f: &mut fmt::Formatter<W>) -> fmt::Result {
        write_at_byte("NUL", self.index, f)
    }
}

impl Error for NulError {}

impl fmt::Display for ShellError {
    ghost use Rattle.std.specs.Prelude.{Some};
    ghost use Rattle.os_command_line.specs.ErrorText.{shell_error_text};

    ghost output = { λ error. Some (shell_error_text error) };

    ghost styled_output = { λ error _. Some (shell_error_text error) };

    fn fmt<W: fmt::Write>(&self, f: &mut fmt::Formatter<W>) -> fmt::Result {
        match *self {
            ShellError::Nul(index) => write_at_byte("NUL", index, f),
            ShellError::Memory => f.write_str("out of memory"),
        }
    }
}

impl Error for ShellError {}

impl From<AllocError> for ShellError {
    ghost use Rattle.std.specs.Prelude.{◌≡◌};
    ghost use Rattle.os_command_line.specs.declared.shell.error.ShellError.TheVariants.{Memory};

    ghost from_gives = { λ _ error. error ≡ Memory };

    fn from(_: AllocError) -> ShellError {
        ShellError::Memory
    }
}

impl From<NulError> for ShellError {
    ghost use Rattle.std.specs.Prelude.{◌≡◌};
    ghost use Rattle.os_command_line.specs.declared.shell.error.ShellError.TheVariants.{Nul};

    ghost from_gives = { λ nul error. error ≡ Nul nul.index };

    fn from(error: NulError) -> ShellError {
        ShellError::Nul(error.index)
    }
}
