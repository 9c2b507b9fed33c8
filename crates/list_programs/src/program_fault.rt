//! What keeps a program for lists from its output.
ghost use Rattle.std.specs.Prelude.{◌≡◌, ℕ, List};
ghost use Rattle.std.specs.Fmt.{WritesStyledOnOk};

use crate::fault::{ItemRejection, ListFault};
use program_frame::ended::ProgramFault;
use program_frame::fault::Failure;
use std::alloc::AllocError;
use std::fmt;
use std::fmt::Display as _;

/// Why a program's arguments are rejected.
pub trait WordsRejection: Copy {
    // what the program prints of the reason
    ghost text_of: { Self → List ℕ };

    // the status that the program ends with
    ghost status_of: { Self → ℕ };

    /// The status that the program ends with.
    ///
    /// ```
    /// use names_commands::fault::CommandFault;
    /// use list_programs::program_fault::WordsRejection;
    ///
    /// assert!(rt; CommandFault::Unreadable.status() == 2 && CommandFault::NoFile(1).status() == 4);
    /// ```
    fn status(&self) -> u8
        ensures { result ≡ status_of self.now };

    /// Writes the reason.
    ///
    /// ```
    /// use names_commands::fault::{CommandFault, Fault};
    ///
    /// let fault: Fault = Fault::Words(CommandFault::NoFile(2));
    /// assert_eq!(rt; fault.to_string(alloc)?.as_str(), "ignore file 2: no such file");
    /// ```
    fn write<W: fmt::Write>(&self, f: &mut fmt::Formatter<W>) -> fmt::Result
        ensures { WritesStyledOnOk W.write_str_gives f.old result (text_of self.now) f.new };
}

/// Why a run of a program for lists ended before its input did.
#[derive(Clone, Copy, PartialEq, Eq)]
pub enum Fault<F, U> {
    /// An item is rejected, or something keeps the run from going on.
    List(ListFault<F>),
    /// The arguments are rejected.
    Words(U),
}

impl<F: ItemRejection, U: WordsRejection> fmt::Display for Fault<F, U> {
    ghost use Rattle.std.specs.Prelude.{Some};
    ghost use Rattle.list_programs.specs.ProgramFault.{text_of};

    ghost output = { λ fault. Some (text_of F.item F.text_of U.text_of fault) };

    ghost styled_output = { λ fault _. Some (text_of F.item F.text_of U.text_of fault) };

    fn fmt<W: fmt::Write>(&self, f: &mut fmt::Formatter<W>) -> fmt::Result {
        match *self {
            Fault::List(fault) => fault.fmt(f),
            Fault::Words(why) => why.write(f),
        }
    }
}

impl<F: ItemRejection, U: WordsRejection> ProgramFault for Fault<F, U> {
    ghost use Rattle.std.specs.Prelude.{refl};
    ghost use Rattle.list_programs.specs.ProgramFault.{text_of, status_of};

    ghost text_of = { text_of F.item F.text_of U.text_of };

    ghost status_of = { status_of U.status_of };

    ghost printed = { λ _. refl };

    /// The status that the program ends with: 1 for invalid input, 3 if it is out of memory, and 4
    /// for a failed read or write. For rejected arguments it is the status of their rejection.
    ///
    /// ```
    /// use paths_commands::fault::{CommandFault, Fault};
    /// use program_frame::ended::ProgramFault;
    /// use list_programs::fault::ListFault;
    ///
    /// let fault: Fault = Fault::List(ListFault::TooLong(3, 255));
    /// assert_eq!(rt; fault.status(), 1);
    /// let fault: Fault = Fault::Words(CommandFault::Unreadable);
    /// assert_eq!(rt; fault.status(), 2);
    /// ```
    fn status(&self) -> u8 {
        match self {
            Fault::List(fault) => fault.status(),
            Fault::Words(why) => why.status(),
        }
    }
}

impl<F, U> From<AllocError> for Fault<F, U> {
    ghost use Rattle.program_frame.specs.declared.fault.Failure.TheVariants.{Memory};
    ghost use Rattle.list_programs.specs.declared.fault.ListFault.TheVariants.{Run};
    ghost use Rattle.list_programs.specs.declared.program_fault.Fault.TheVariants.{List as OfList};

    ghost from_gives = { λ _ fault. fault ≡ OfList (Run Memory) };

    fn from(_error: AllocError) -> Fault<F, U> {
        Fault::List(ListFault::Run(Failure::Memory))
    }
}
