//! Runs that write the names of the entries of an archive.
ghost use Rattle.std.specs.Prelude.{◌≡◌, ◌∷◌, ◌++◌, [], ℕ, false, IfErr, IfOk, MatchOption, OnErr, OnOk, length};
ghost use Rattle.list_programs.specs.ListOptions.{byte_of};
ghost use Rattle.program_frame.specs.Marked.{has_failed};
ghost use Rattle.list_programs.specs.ProgramFault.{BlamesEnds};
ghost use Rattle.tar_names.specs.Name.{name_bytes};
ghost use Rattle.names_commands.specs.Program.{Did, RunsTar, tar_outcome};
ghost use Rattle.names_commands.specs.Tar.{IsItem, IsNoItem, IsTarOutput, earlier};

use crate::fault::{Fault, Rejection};
use crate::item::unfit;
use list_programs::fault::ListFault;
use list_programs::items::push_ended;
use list_programs::options::ListOptions;
use os_str_bytes::{OsStr, Platform};
use program_frame::fault::Failure;
use program_frame::input::read_all;
use program_frame::marked::Marked;
use program_frame::writing::write_out;
use std::alloc::{AllocError, Allocator};
use std::io::{Read, Write};
use tar_names::{Entries, Name};

/// Reads all of an archive, and writes the names of its entries in their order, each with its end. A
/// name that can't be written is left out. Both marks must be unset (test: [`Marked::failed`]).
///
/// # Errors
///
/// [`Fault::List`] with the first entry that is rejected, by its number. Its name isn't a string of the
/// platform, has the byte that would end it, or is too long. Or the archive has a fault there
/// ([`Rejection::BadArchive`]), after which no entry is read. With `Run`, an allocation, a read or a
/// write failed. Before `Memory` and `Read` nothing is written, and before `Write` a prefix.
///
/// ```
/// use names_commands::tar::run_tar;
/// use os_str_bytes::Unix;
/// use list_programs::options::ListOptions;
/// use program_frame::marked::Marked;
///
/// let mut taken = Vec::new(alloc);
/// let (mut reader, mut writer) = (Marked::new([0; 512].as_slice()), Marked::new(&mut taken));
/// let list = ListOptions::new(255);
/// assert!(rt; run_tar::<Unix, _, _, _>(alloc, list, &mut reader, &mut writer).is_ok());
/// assert!(rt; taken.is_empty());
/// ```
pub fn run_tar<E: Platform, A: Allocator + Copy, R: Read, W: Write>(
    alloc: A,
    list: ListOptions,
    reader: &mut Marked<R>,
    writer: &mut Marked<W>,
) -> Result<(), Fault>
    requires reader_unmarked { has_failed reader.old ≡ false }
    requires writer_unmarked { has_failed writer.old ≡ false }
    ensures run { Did R.remaining W.contents (RunsTar ⟦<E as Platform>⟧ list)
        reader.old reader.new writer.old writer.new result }
    ensures ends { BlamesEnds result (has_failed reader.new) (has_failed writer.new) }
{
    let archive = match read_all(alloc, reader) {
        Ok(archive) => archive,
        Err(failure) => return Err(Fault::List(ListFault::Run(failure))),
    };
    let (output, first) = match names_of::<E, A>(alloc, list, &archive) {
        Ok(made) => made,
        Err(_) => return Err(Fault::List(ListFault::Run(Failure::Memory))),
    };
    match write_out(writer, &output) {
        Ok(()) => outcome_of(first),
        Err(_) => Err(Fault::List(ListFault::Run(Failure::Write))),
    }
}

/// The result where this is the first entry that is rejected, if one is.
fn outcome_of(first: Option<ListFault<Rejection>>) -> Result<(), Fault>
    ensures { result ≡ tar_outcome first }
{
    match first {
        None => Ok(()),
        Some(fault) => Err(Fault::List(fault)),
    }
}

/// The names of an archive's entries, each with its end, and the first entry that is rejected.
fn names_of<E: Platform, A: Allocator + Copy>(
    alloc: A,
    list: ListOptions,
    archive: &[u8],
) -> Result<(Vec<u8, A>, Option<ListFault<Rejection>>), AllocError>
    ensures { IfOk result
        (λ made. IsTarOutput ⟦<E as Platform>⟧ list archive.now made.0.items made.1) }
{
    let mut output = Vec::new(alloc);
    let mut first = None;
    let mut number = 1;
    let mut entries = Entries::new(archive);
    loop {
        match entries.next_name() {
            Ok(None) => return Ok((output, first)),
            Err(fault) => {
                let ended = ListFault::Rejected(number, Rejection::BadArchive(fault));
                return Ok((output, earlier(first, Some(ended))));
            }
            Ok(Some(name)) => {
                let rejected = write_entry::<E, A>(alloc, list, number, name, &mut output)?;
                first = earlier(first, rejected);
                number += 1;
            }
        }
    }
}

/// Of two rejected entries the first.
fn earlier(
    first: Option<ListFault<Rejection>>,
    later: Option<ListFault<Rejection>>,
) -> Option<ListFault<Rejection>>
    ensures { result ≡ earlier first later }
{
    match first {
        None => later,
        Some(fault) => Some(fault),
    }
}

/// Appends the name of the entry with this number and its end, or returns why it is rejected.
fn write_entry<E: Platform, A: Allocator + Copy>(
    alloc: A,
    list: ListOptions,
    number: u64,
    name: Name<'_>,
    output: &mut Vec<u8, A>,
) -> Result<Option<ListFault<Rejection>>, AllocError>
    ensures { IfOk result (λ rejected. MatchOption rejected
        (IsItem ⟦<E as Platform>⟧ list (name_bytes name.entry)
        × (output.new.items
        ≡ output.old.items ++ (name_bytes name.entry ++ byte_of list.end ∷ [])))
        (λ fault. IsNoItem ⟦<E as Platform>⟧ list number (name_bytes name.entry) fault
        × (output.new.items ≡ output.old.items))) }
{
    let mut bytes = Vec::new(alloc);
    name.write_to(&mut bytes)?;
    if bytes.len() > list.max {
        return Ok(Some(ListFault::TooLong(number, list.max)));
    }
    if let Err(error) = OsStr::<E>::checked(&bytes) {
        return Ok(Some(ListFault::Rejected(number, Rejection::NoString(error))));
    }
    if let Some(why) = unfit(&bytes, list.end) {
        return Ok(Some(ListFault::Rejected(number, why)));
    }
    push_ended(&bytes, list.end.byte(), output)?;
    Ok(None)
}
