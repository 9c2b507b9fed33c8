//! Names that an ignore file leaves out, where the one file that there is is a value.
ghost use Rattle.std.specs.Prelude.{◌≡◌, ◌≢◌, ◌∷◌, ◌++◌, [], ℕ, List, false, true, IsOk, OnOk};
ghost use Rattle.std.specs.Io.KnownBytes.{Appends};
ghost use Rattle.std.specs.Process.{exit_status};
ghost use Rattle.list_programs.specs.Items.{Lacks};
ghost use Rattle.program_frame.specs.Marked.{marked_inner, has_failed};
ghost use Rattle.program_frame.specs.Words.{words_after_name};
ghost use Rattle.test_command_uses.specs.OneFile.{explaining, filtering, IsExplainedBy, IsFilteredBy, IsUnread};

use names_commands::fault::Fault;
use names_commands::program::Names;
use os_args::laws::one_outcome;
use program_frame::ends::{Messages, Output};
use program_frame::files::{FileFault, Files};
use program_frame::marked::Marked;
use program_frame::program::execute;
use std::alloc::Allocator;
use std::env::Args;
use std::io::{Eprint, Read};
use std::process::{ExitCode, Termination};

/// One file, and no other.
#[derive(Clone, Copy)]
pub struct OneFile<'a> {
    /// Its name.
    pub name: &'a str,
    /// What is in it.
    pub bytes: &'a [u8],
}

impl<'a> Files for OneFile<'a> {
    ghost use Rattle.test_command_uses.specs.OneFile.{only};

    ghost known = { λ file. only file.name.now file.bytes.now };

    fn read<A: Allocator>(&self, alloc: A, name: &str) -> Result<Vec<u8, A>, FileFault> {
        if name != self.name {
            return Err(FileFault::NoFile);
        }
        match Vec::from_slice(alloc, self.bytes) {
            Ok(bytes) => Ok(bytes),
            Err(_) => Err(FileFault::Memory),
        }
    }
}

/// Filters a list of one name by the file, which is named on the command line: the name is written with
/// NUL exactly where no line of the file ignores it.
pub fn left_out<A: Allocator + Copy, W: Output, E: Messages>(
    alloc: A,
    file: OneFile<'_>,
    arguments: Args,
    name: &[u8],
    names: &[u8],
    writer: &mut Marked<W>,
    errors: &mut E,
) -> Result<(), Fault>
    requires words { words_after_name arguments ≡ filtering false file.name.now }
    requires plain { Lacks 0x3D file.name.now }
    requires whole { Lacks 0 name.now }
    requires ended { names.now ≡ name.now ++ 0 ∷ [] }
    requires unmarked { has_failed writer.old ≡ false }
    ensures { OnOk result ((text : List ℕ) × (IsFilteredBy A false file.entry.bytes.now name.now
        text × Appends (W.contents (marked_inner writer.old))
        (W.contents (marked_inner writer.new)) text)) }
{
    one_outcome();
    let mut reader = Marked::new(names);
    let names = Names::new(file);
    execute(&names, alloc, Ok(arguments), &mut reader, writer, errors).outcome()
}

/// Filters such a list without regard to case: the last word is `-i`.
pub fn left_out_in_either_case<A: Allocator + Copy, W: Output, E: Messages>(
    alloc: A,
    file: OneFile<'_>,
    arguments: Args,
    name: &[u8],
    names: &[u8],
    writer: &mut Marked<W>,
    errors: &mut E,
) -> Result<(), Fault>
    requires words { words_after_name arguments ≡ filtering true file.name.now }
    requires plain { Lacks 0x3D file.name.now }
    requires whole { Lacks 0 name.now }
    requires ended { names.now ≡ name.now ++ 0 ∷ [] }
    requires unmarked { has_failed writer.old ≡ false }
    ensures { OnOk result ((text : List ℕ)
        × (IsFilteredBy A true file.entry.bytes.now name.now text
        × Appends (W.contents (marked_inner writer.old)) (W.contents (marked_inner writer.new))
        text)) }
{
    one_outcome();
    let mut reader = Marked::new(names);
    let names = Names::new(file);
    execute(&names, alloc, Ok(arguments), &mut reader, writer, errors).outcome()
}

/// Writes which line of the file, which is named on the command line, decides the one name of a list:
/// the file's name, the line with its number, and the name, each as its escape, or nothing where no
/// line decides it.
pub fn explained<A: Allocator + Copy, W: Output, E: Messages>(
    alloc: A,
    file: OneFile<'_>,
    arguments: Args,
    name: &[u8],
    names: &[u8],
    writer: &mut Marked<W>,
    errors: &mut E,
) -> Result<(), Fault>
    requires words { words_after_name arguments ≡ explaining file.name.now }
    requires plain { Lacks 0x3D file.name.now }
    requires whole { Lacks 0 name.now }
    requires ended { names.now ≡ name.now ++ 0 ∷ [] }
    requires unmarked { has_failed writer.old ≡ false }
    ensures { OnOk result ((text : List ℕ)
        × (IsExplainedBy A file.entry.name.now file.entry.bytes.now name.now text
        × Appends (W.contents (marked_inner writer.old)) (W.contents (marked_inner writer.new))
        text)) }
{
    one_outcome();
    let mut reader = Marked::new(names);
    let names = Names::new(file);
    execute(&names, alloc, Ok(arguments), &mut reader, writer, errors).outcome()
}

/// Filters a list that no NUL ends by the file, which is named on the command line: it is rejected.
pub fn unended_by_program<A: Allocator + Copy, W: Output, E: Messages>(
    alloc: A,
    file: OneFile<'_>,
    arguments: Args,
    name: &[u8],
    writer: &mut Marked<W>,
    errors: &mut E,
) -> Result<(), Fault>
    requires words { words_after_name arguments ≡ filtering false file.name.now }
    requires plain { Lacks 0x3D file.name.now }
    requires whole { Lacks 0 name.now }
    requires some { name.now ≢ [] }
    requires unmarked { has_failed writer.old ≡ false }
    ensures { ¬ (IsOk result) }
{
    one_outcome();
    let mut reader = Marked::new(name);
    let names = Names::new(file);
    execute(&names, alloc, Ok(arguments), &mut reader, writer, errors).outcome()
}

/// Filters names by a file that doesn't exist: nothing is read or written, and the status reports
/// it.
pub fn unread<P: Eprint, A: Allocator + Copy, R: Read, W: Output, E: Messages>(
    rt: &P,
    alloc: A,
    file: OneFile<'_>,
    arguments: Args,
    other: &str,
    reader: &mut Marked<R>,
    writer: &mut Marked<W>,
    errors: &mut E,
) -> (Result<(), Fault>, ExitCode)
    requires words { words_after_name arguments ≡ filtering false other.now }
    requires plain { Lacks 0x3D other.now }
    requires another { other.now ≢ file.name.now }
    requires reader_unmarked { has_failed reader.old ≡ false }
    requires writer_unmarked { has_failed writer.old ≡ false }
    ensures fault { IsUnread result.0 (exit_status result.1) }
    ensures kept { R.remaining (marked_inner reader.new) ≡ R.remaining (marked_inner reader.old) }
    ensures nothing { W.contents (marked_inner writer.new) ≡ W.contents (marked_inner writer.old) }
{
    one_outcome();
    let names = Names::new(file);
    let ended = execute(&names, alloc, Ok(arguments), reader, writer, errors);
    let outcome = ended.outcome();
    (outcome, ended.report(rt))
}
