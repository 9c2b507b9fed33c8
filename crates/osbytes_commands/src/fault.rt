//! What keeps the program from its output.
ghost use Rattle.std.specs.Prelude.{◌≡◌, Some};
ghost use Rattle.osbytes_commands.specs.declared.fault.Fault.TheVariants.{Refused, Memory};
ghost use Rattle.osbytes_commands.specs.Fault.{fault_of};

use os_quote::QuoteError;
use os_str_bytes::{EncodingError, write_number};
use program_frame::ended::ProgramFault;
use program_frame::fault::Failure;
use std::alloc::{AllocError, AllocFailed};
use std::fmt;
use std::fmt::Display as _;

/// The reason why a run of the program wrote no output, or not all of it.
///
/// Its text is what the program prints of it: that of `BadLine(2)` is `line 2 is not a unit`. It
/// has no width: `{:>99}` writes what `{}` does.
#[derive(Clone, Copy, PartialEq, Eq)]
pub enum Fault {
    /// The input is not the bytes of a string of the platform.
    Refused(EncodingError),
    /// This line of the input, counted from 1, is the first that isn't a unit's.
    BadLine(usize),
    /// The input isn't the escape of a string of the platform. Out of memory is [`Fault::Memory`],
    /// also in quoting.
    BadQuote(QuoteError),
    /// The arguments name no command.
    Usage,
    /// An allocation failed.
    Memory,
    /// A read of the input failed.
    Read,
    /// A write of the output failed or took nothing, or the flush failed.
    Write,
}

impl fmt::Display for Fault {
    ghost use Rattle.osbytes_commands.specs.Fault.{text_of};

    ghost output = { λ fault. Some (text_of fault) };

    ghost styled_output = { λ fault _. Some (text_of fault) };

    fn fmt<W: fmt::Write>(&self, f: &mut fmt::Formatter<W>) -> fmt::Result {
        match *self {
            Fault::Refused(error) => error.fmt(f),
            Fault::BadLine(number) => {
                f.write_str("line ")?;
                write_number(number, f)?;
                f.write_str(" is not a unit")
            }
            Fault::BadQuote(error) => error.fmt(f),
            Fault::Usage => {
                f.write_str("usage: osbytes units|raw|find|split|chunks unix|windows|wasm [PAT]")
            }
            Fault::Memory => f.write_str("out of memory"),
            Fault::Read => f.write_str("read failed"),
            Fault::Write => f.write_str("write failed"),
        }
    }
}

impl ProgramFault for Fault {
    ghost use Rattle.std.specs.Prelude.{refl};
    ghost use Rattle.osbytes_commands.specs.Fault.{text_of, status_of};

    ghost text_of = { text_of };

    ghost status_of = { status_of };

    ghost printed = { λ _. refl };

    /// The status that the program ends with: 1 for invalid input, 2 for its arguments, 3 if it is
    /// out of memory, and 4 for a failed read or write. That of `BadLine(2)` is 1.
    ///
    /// ```
    /// use program_frame::ended::ProgramFault;
    /// use osbytes_commands::fault::Fault;
    ///
    /// assert_eq!(rt; Fault::BadLine(2).status(), 1);
    /// assert_eq!(rt; Fault::Usage.status(), 2);
    /// ```
    fn status(&self) -> u8 {
        match self {
            Fault::Refused(_) | Fault::BadLine(_) | Fault::BadQuote(_) => 1,
            Fault::Usage => 2,
            Fault::Memory => 3,
            Fault::Read | Fault::Write => 4,
        }
    }
}

impl From<EncodingError> for Fault {
    ghost from_gives = { λ error fault. fault ≡ Refused error };

    fn from(error: EncodingError) -> Fault {
        Fault::Refused(error)
    }
}

impl From<AllocError> for Fault {
    ghost from_gives = { λ _ fault. fault ≡ Memory };

    fn from(_error: AllocError) -> Fault {
        Fault::Memory
    }
}

impl<T: Drop> From<AllocFailed<T>> for Fault {
    ghost from_gives = { λ _ fault. fault ≡ Memory };

    fn from(_error: AllocFailed<T>) -> Fault {
        Fault::Memory
    }
}

impl From<Failure> for Fault {
    ghost from_gives = { λ failure fault. fault ≡ fault_of failure };

    fn from(failure: Failure) -> Fault {
        match failure {
            Failure::Memory => Fault::Memory,
            Failure::Read => Fault::Read,
            Failure::Write => Fault::Write,
        }
    }
}
