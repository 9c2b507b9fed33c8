//! What keeps a run from going on, whatever its input is.
ghost use Rattle.std.specs.Prelude.{◌≡◌};
ghost use Rattle.program_frame.specs.declared.fault.Failure.TheVariants.{Memory};

use crate::ended::ProgramFault;
use std::alloc::{AllocError, AllocFailed};
use std::fmt;

/// What keeps a run from going on, whatever its input is. Its text has no width: `{:>99}` writes
/// what `{}` does.
#[derive(Clone, Copy, PartialEq, Eq)]
pub enum Failure {
    /// An allocation failed.
    Memory,
    /// A read of the input failed.
    Read,
    /// A write of the output failed or took nothing, or the flush failed.
    Write,
}

impl fmt::Display for Failure {
    ghost use Rattle.std.specs.Prelude.{Some};
    ghost use Rattle.program_frame.specs.Fault.{text_of};

    ghost output = { λ failure. Some (text_of failure) };

    ghost styled_output = { λ failure _. Some (text_of failure) };

    fn fmt<W: fmt::Write>(&self, f: &mut fmt::Formatter<W>) -> fmt::Result {
        match *self {
            Failure::Memory => f.write_str("out of memory"),
            Failure::Read => f.write_str("read failed"),
            Failure::Write => f.write_str("write failed"),
        }
    }
}

impl ProgramFault for Failure {
    ghost use Rattle.std.specs.Prelude.{refl};
    ghost use Rattle.program_frame.specs.Fault.{text_of, status_of};

    ghost text_of = { text_of };

    ghost status_of = { status_of };

    ghost printed = { λ _. refl };

    /// The status that the program ends with: 3 if it is out of memory, and 4 for a failed read or
    /// write.
    ///
    /// ```
    /// use program_frame::ended::ProgramFault;
    /// use program_frame::fault::Failure;
    ///
    /// assert!(rt; Failure::Memory.status() == 3 && Failure::Read.status() == 4);
    /// ```
    fn status(&self) -> u8 {
        match self {
            Failure::Memory => 3,
            Failure::Read | Failure::Write => 4,
        }
    }
}

impl From<AllocError> for Failure {
    ghost from_gives = { λ _ failure. failure ≡ Memory };

    fn from(_error: AllocError) -> Failure {
        Failure::Memory
    }
}

impl<T: Drop> From<AllocFailed<T>> for Failure {
    ghost from_gives = { λ _ failure. failure ≡ Memory };

    fn from(_error: AllocFailed<T>) -> Failure {
        Failure::Memory
    }
}
