//! Why a run over a list ends before the list does.
ghost use Rattle.std.specs.Prelude.{◌≡◌, ℕ, List};
ghost use Rattle.std.specs.Fmt.{WritesStyledOnOk};
ghost use Rattle.list_programs.specs.ListFault.{index_text, unended_text};

use crate::options::ItemEnd;
use os_str_bytes::write_number;
use program_frame::ended::ProgramFault;
use program_frame::fault::Failure;
use std::alloc::AllocError;
use std::fmt;
use std::fmt::Display as _;

/// Why an item is rejected, whatever its number.
pub trait ItemRejection: Copy {
    // what an item is called
    ghost item: { List ℕ };

    // what the program prints of the reason
    ghost text_of: { Self → List ℕ };

    /// What an item is called.
    ///
    /// ```
    /// use names_commands::fault::Rejection;
    /// use list_programs::fault::ItemRejection;
    ///
    /// assert_eq!(rt; Rejection::item(), "name");
    /// ```
    fn item() -> &'static str
        ensures { result.now ≡ item };

    /// Writes the reason.
    ///
    /// ```
    /// use names_commands::fault::Rejection;
    /// use list_programs::fault::ListFault;
    ///
    /// let fault = ListFault::Rejected(2, Rejection::HasNul);
    /// assert_eq!(rt; fault.to_string(alloc)?.as_str(), "name 2: the name has a NUL");
    /// ```
    fn write<W: fmt::Write>(&self, f: &mut fmt::Formatter<W>) -> fmt::Result
        ensures { WritesStyledOnOk W.write_str_gives f.old result (text_of self.now) f.new };
}

/// Why nothing is written for an item.
#[derive(Clone, Copy, PartialEq, Eq)]
pub enum ItemFault<F> {
    /// It is rejected.
    Rejected(F),
    /// It isn't too long, but the name that it encodes is.
    TooLong,
    /// An allocation failed.
    Memory,
}

impl<F> From<AllocError> for ItemFault<F> {
    ghost use Rattle.list_programs.specs.declared.fault.ItemFault.TheVariants.{Memory};

    ghost from_gives = { λ _ fault. fault ≡ Memory };

    fn from(_error: AllocError) -> ItemFault<F> {
        ItemFault::Memory
    }
}

/// Why a run over a list ended before the list did. Items are counted from 1.
#[derive(Clone, Copy, PartialEq, Eq)]
pub enum ListFault<F> {
    /// The item with this number is rejected.
    Rejected(u64, F),
    /// The item with this number, or the name that it encodes, has more than this many bytes.
    TooLong(u64, usize),
    /// The item with this number is the last, and lacks this byte, which has to end it.
    Unended(u64, ItemEnd),
    /// The input has 2^64 - 1 bytes or more.
    TooMuch,
    /// What keeps the run from going on, whatever the items are.
    Run(Failure),
}

impl<F: ItemRejection> fmt::Display for ListFault<F> {
    ghost use Rattle.std.specs.Prelude.{Some};
    ghost use Rattle.list_programs.specs.ListFault.{text_of};

    ghost output = { λ fault. Some (text_of F.item F.text_of fault) };

    ghost styled_output = { λ fault _. Some (text_of F.item F.text_of fault) };

    fn fmt<W: fmt::Write>(&self, f: &mut fmt::Formatter<W>) -> fmt::Result {
        match *self {
            ListFault::Rejected(number, why) => {
                write_index::<F, W>(number, f)?;
                why.write(f)
            }
            ListFault::TooLong(number, most) => {
                write_index::<F, W>(number, f)?;
                f.write_str("longer than ")?;
                write_number(most, f)?;
                f.write_str(" bytes")
            }
            ListFault::Unended(number, end) => write_unended::<F, W>(number, end, f),
            ListFault::TooMuch => f.write_str("2^64 bytes of input or more"),
            ListFault::Run(why) => why.fmt(f),
        }
    }
}

impl<F: ItemRejection> ProgramFault for ListFault<F> {
    ghost use Rattle.std.specs.Prelude.{refl};
    ghost use Rattle.list_programs.specs.ListFault.{text_of, status_of};

    ghost text_of = { text_of F.item F.text_of };

    ghost status_of = { status_of };

    ghost printed = { λ _. refl };

    /// The status that the program ends with: 1 for invalid input, 3 if it is out of memory, and 4
    /// for a failed read or write.
    ///
    /// ```
    /// use names_commands::fault::Rejection;
    /// use program_frame::ended::ProgramFault;
    /// use program_frame::fault::Failure;
    /// use list_programs::fault::ListFault;
    ///
    /// assert_eq!(rt; ListFault::Rejected(2, Rejection::HasNul).status(), 1);
    /// assert_eq!(rt; ListFault::<Rejection>::Run(Failure::Write).status(), 4);
    /// ```
    fn status(&self) -> u8 {
        match self {
            ListFault::Rejected(_, _)
            | ListFault::TooLong(_, _)
            | ListFault::Unended(_, _)
            | ListFault::TooMuch => 1,
            ListFault::Run(why) => why.status(),
        }
    }
}

/// Writes which item is rejected.
fn write_index<F: ItemRejection, W: fmt::Write>(
    number: u64,
    f: &mut fmt::Formatter<W>,
) -> fmt::Result
    ensures { WritesStyledOnOk W.write_str_gives f.old result (index_text F.item number) f.new }
{
    f.write_str(F::item())?;
    f.write_str(" ")?;
    write_number(number as usize, f)?;
    f.write_str(": ")
}

/// Writes which item lacks its end.
fn write_unended<F: ItemRejection, W: fmt::Write>(
    number: u64,
    end: ItemEnd,
    f: &mut fmt::Formatter<W>,
) -> fmt::Result
    ensures { WritesStyledOnOk W.write_str_gives f.old result (unended_text F.item number end)
        f.new }
{
    match end {
        ItemEnd::Nul => {
            f.write_str("no NUL ends ")?;
            f.write_str(F::item())?;
            f.write_str(" ")?;
            write_number(number as usize, f)?;
            f.write_str("; use find -print0 or git ls-files -z")
        }
        ItemEnd::Newline => {
            write_index::<F, W>(number, f)?;
            f.write_str("no newline ends the line")
        }
    }
}
