//! Why a command line can't be written.
use crate::error_text::write_at_unit;
use std::alloc::AllocError;
use std::error::Error;
use std::fmt;

/// Why [`push_argument`](crate::windows::push_argument) or
/// [`command_line`](crate::windows::command_line) writes no command line.
///
/// Its text is `NUL at unit 3`, `quotation mark in the program's name at unit 3` or `out of
/// memory`, at any width.
///
/// ```
/// use os_command_line::windows::CommandLineError;
///
/// let error = CommandLineError::Nul(3);
/// assert_eq!(rt; format!(in alloc; "{error}")?.as_str(), "NUL at unit 3");
/// ```
#[derive(Clone, Copy, Debug, PartialEq, Eq)]
pub enum CommandLineError {
    /// The index of the first NUL, in units, of the program's name or else of the first argument
    /// that has one. A command line ends at a NUL.
    Nul(usize),
    /// The index of the first quotation mark, in units, of the program's name. In the name nothing
    /// escapes a quotation mark.
    Quote(usize),
    /// An allocation failed.
    Memory,
}

impl fmt::Display for CommandLineError {
    ghost use Rattle.std.specs.Prelude.{Some};
    ghost use Rattle.os_command_line.specs.ErrorText.{command_line_text};

    ghost output = { λ error. Some (command_line_text error) };

    ghost styled_output = { λ error _. Some (command_line_text error) };

    fn fmt<W: fmt::Write>(&self, f: &mut fmt::Formatter<W>) -> fmt::Result {
        match *self {
            CommandLineError::Nul(index) => write_at_unit("NUL", index, f),
            CommandLineError::Quote(index) => {
                write_at_unit("quotation mark in the program's name", index, f)
            }
            CommandLineError::Memory => f.write_str("out of memory"),
        }
    }
}

impl Error for CommandLineError {}

impl From<AllocError> for CommandLineError {
    ghost use Rattle.std.specs.Prelude.{◌≡◌};
    ghost use Rattle.os_command_line.specs.declared.windows.error.CommandLineError.TheVariants.{Memory};

    ghost from_gives = { λ _ error. error ≡ Memory };

    fn from(_: AllocError) -> CommandLineError {
        CommandLineError::Memory
    }
}
