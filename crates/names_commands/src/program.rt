//! The whole program, over ends of any kind.
ghost use Rattle.std.specs.Prelude.{◌≡◌, false};
ghost use Rattle.program_frame.specs.Marked.{has_failed};
ghost use Rattle.list_programs.specs.ProgramFault.{BlamesEnds};
ghost use Rattle.names_commands.specs.Command.{requested_of};
ghost use Rattle.names_commands.specs.Program.{Did, Does, DoesWork, RunsLine, UnlessOutOfMemory};

use crate::command::{Command, Line, Request, RequestError, Work};
use crate::fault::{CommandFault, Fault, Rejection, none_for};
use crate::help::{HELP, VERSION};
use crate::option::NamesOption;
use crate::patterns::run_picked;
use crate::reasons::run_why;
use crate::tar::run_tar;
use crate::task::{OnPlatform, Settings};
use list_programs::answers::{run_list, write_help};
use list_programs::arguments::{ReadFault, read_arguments};
use list_programs::fault::ListFault;
use list_programs::misuse::Misuse;
use os_str_bytes::{Platform, Unix, Wasm, Windows};
use program_frame::fault::Failure;
use program_frame::files::Files;
use program_frame::marked::Marked;
use program_frame::os::Os;
use program_frame::program::Program;
use std::alloc::Allocator;
use std::io::{Read, Write};

/// The program `names`: its words are those of a request ([`Request::parse`]).
/// [`program_frame::program::execute`] runs it.
#[derive(Drop)]
pub struct Names<F> {
    files: F,
}

impl<F: Files> Names<F> {
    ghost use Rattle.names_commands.specs.Files.{files_of_program};

    /// The program where ignore files are some of these.
    ///
    /// ```
    /// use names_commands::fault::{CommandFault, Fault};
    /// use names_commands::program::Names;
    /// use program_frame::files::Disk;
    /// use program_frame::program::Program;
    /// use program_frame::marked::Marked;
    ///
    /// let mut taken = Vec::new(alloc);
    /// let (mut reader, mut writer) = (Marked::new(b"a".as_slice()), Marked::new(&mut taken));
    /// let ended = Names::new(Disk::new(&rt)).run_words(alloc, &[], &mut reader, &mut writer);
    /// assert!(rt; matches!(ended, Err(Fault::Words(CommandFault::Misuse(_)))));
    /// ```
    pub fn new(files: F) -> Names<F>
        ensures { files_of_program result ≡ files }
    {
        Names { files }
    }
}

impl<F: Files> Program for Names<F> {
    type Fault = Fault;

    ghost use Rattle.std.specs.Prelude.{codes};
    ghost use Rattle.list_programs.specs.ProgramFault.{DoneBetween};
    ghost use Rattle.list_programs.specs.declared.program_fault.Fault.TheVariants.{List as OfList, Words};
    ghost use Rattle.list_programs.specs.declared.fault.ListFault.TheVariants.{Run};
    ghost use Rattle.program_frame.specs.declared.fault.Failure.TheVariants.{Memory};
    ghost use Rattle.names_commands.specs.Program.{RunsTo};
    ghost use Rattle.names_commands.specs.declared.fault.CommandFault.TheVariants.{Unreadable};

    ghost name = { codes "names" };

    ghost unreadable = { Words Unreadable };

    ghost out_of_memory = { OfList (Run Memory) };

    ghost runs_to = { λ names A words R W remaining contents.
        DoneBetween remaining contents (RunsTo (F.known names.files) A words) };

    fn name() -> &'static str {
        "names"
    }

    fn unreadable() -> Fault {
        Fault::Words(CommandFault::Unreadable)
    }

    fn out_of_memory() -> Fault {
        Fault::List(ListFault::Run(Failure::Memory))
    }

    fn run_words<A: Allocator + Copy, R: Read, W: Write>(
        &self,
        alloc: A,
        words: &[String],
        reader: &mut Marked<R>,
        writer: &mut Marked<W>,
    ) -> Result<(), Fault> {
        match read_arguments::<NamesOption, A>(alloc, words) {
            Ok(given) => run_line(alloc, &self.files, &given, reader, writer),
            Err(ReadFault::Misuse(error)) => {
                let misuse = Misuse::Argument(error);
                Err(Fault::Words(CommandFault::of(alloc, misuse)?))
            }
            Err(ReadFault::Memory) => Err(Fault::List(ListFault::Run(Failure::Memory))),
        }
    }
}

/// Returns the result for options and operands.
fn run_line<F: Files, A: Allocator + Copy, R: Read, W: Write>(
    alloc: A,
    files: &F,
    given: Line<'_, '_>,
    reader: &mut Marked<R>,
    writer: &mut Marked<W>,
) -> Result<(), Fault>
    requires reader_unmarked { has_failed reader.old ≡ false }
    requires writer_unmarked { has_failed writer.old ≡ false }
    ensures run { Did R.remaining W.contents
        (UnlessOutOfMemory (RunsLine (F.known files.now) A given.now))
        reader.old reader.new writer.old writer.new result }
    ensures ends { BlamesEnds result (has_failed reader.new) (has_failed writer.new) }
{
    match Request::parse(alloc, given) {
        Ok(request) => run_request(alloc, files, &request, reader, writer),
        Err(RequestError::Misuse(misuse)) => Err(Fault::Words(CommandFault::of(alloc, misuse)?)),
        Err(RequestError::Memory) => Err(Fault::List(ListFault::Run(Failure::Memory))),
    }
}

/// Returns the result of a request.
fn run_request<F: Files, A: Allocator + Copy, R: Read, W: Write>(
    alloc: A,
    files: &F,
    request: &Request<'_, A>,
    reader: &mut Marked<R>,
    writer: &mut Marked<W>,
) -> Result<(), Fault>
    requires reader_unmarked { has_failed reader.old ≡ false }
    requires writer_unmarked { has_failed writer.old ≡ false }
    ensures run { Did R.remaining W.contents (Does (F.known files.now) A (requested_of request.now))
        reader.old reader.new writer.old writer.new result }
    ensures ends { BlamesEnds result (has_failed reader.new) (has_failed writer.new) }
{
    match request.command {
        Command::Help => write_help(HELP, writer),
        Command::Version => write_help(VERSION, writer),
        Command::On(os, work) => match os {
            Os::Unix => run_on::<Unix, F, A, R, W>(alloc, files, os, work, request, reader, writer),
            Os::Windows => {
                run_on::<Windows, F, A, R, W>(alloc, files, os, work, request, reader, writer)
            }
            Os::Wasm => run_on::<Wasm, F, A, R, W>(alloc, files, os, work, request, reader, writer),
        },
    }
}

/// Returns the result of what is done with a list of names of a platform.
fn run_on<E: Platform, F: Files, A: Allocator + Copy, R: Read, W: Write>(
    alloc: A,
    files: &F,
    os: Os,
    work: Work,
    request: &Request<'_, A>,
    reader: &mut Marked<R>,
    writer: &mut Marked<W>,
) -> Result<(), Fault>
    requires reader_unmarked { has_failed reader.old ≡ false }
    requires writer_unmarked { has_failed writer.old ≡ false }
    ensures run { Did R.remaining W.contents
        (DoesWork (F.known files.now) A ⟦<E as Platform>⟧ (requested_of request.now) os work)
        reader.old reader.new writer.old writer.new result }
    ensures ends { BlamesEnds result (has_failed reader.new) (has_failed writer.new) }
{
    match work {
        Work::Each(task) => {
            let list = request.list;
            let mut each = OnPlatform::<E>::new(Settings { task, list });
            let none = none_for(request.exit_status);
            run_list(alloc, &mut each, none, reader, writer)
        }
        Work::Picked(form) => {
            run_picked::<E, F, A, R, W>(alloc, files, os, form, request, reader, writer)
        }
        Work::Why => run_why::<E, F, A, R, W>(alloc, files, os, request, reader, writer),
        Work::Tar => run_tar::<E, A, R, W>(alloc, request.list, reader, writer),
    }
}
