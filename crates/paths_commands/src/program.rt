//! The whole program, over ends of any kind.
ghost use Rattle.std.specs.Prelude.{◌≡◌, map, string_bytes, false, IfErr};
ghost use Rattle.list_programs.specs.Arguments.{operands_of};
ghost use Rattle.list_programs.specs.ListRun.{Runs};
ghost use Rattle.program_frame.specs.Marked.{marked_inner, has_failed};
ghost use Rattle.list_programs.specs.ProgramFault.{BlamesEnds, EndsRunOf};
ghost use Rattle.list_programs.specs.Rules.{passing};
ghost use Rattle.list_programs.specs.declared.program_fault.Fault.TheVariants.{List as OfList};
ghost use Rattle.paths_commands.specs.Command.{AreAfterEnd};
ghost use Rattle.paths_commands.specs.Program.{Does, IsAfter, RunsEach, RunsLine, RunsOver, RunsPast, RunsTask, UnlessOutOfMemory, rules_on};

use crate::command::{Command, Line};
use crate::common::run_common;
use crate::fault::{CommandFault, Fault, Rejection};
use crate::given::run_given;
use crate::help::{HELP, VERSION};
use crate::option::PathsOption;
use crate::task::{OnPlatform, Task};
use list_programs::answers::{run_list_with, write_help};
use list_programs::arguments::{Given, ReadFault, next_operand, read_arguments};
use list_programs::fault::ListFault;
use list_programs::misuse::Misuse;
use list_programs::options::{ItemEnd, ListOptions};
use list_programs::rejections::{KeepGoing, Rejections, Stop};
use os_str_bytes::{Unix, Wasm, Windows};
use program_frame::fault::Failure;
use program_frame::marked::Marked;
use program_frame::os::Os;
use program_frame::program::Program;
use std::alloc::Allocator;
use std::io::{Eprint, Read, Write};

/// The program `paths`: its arguments are those of a command ([`Command::parse`]).
/// [`program_frame::program::execute`] runs it.
#[derive(Drop)]
pub struct Paths<'a, P> {
    errors: &'a P,
}

impl<'a, P: Eprint> Paths<'a, P> {
    /// The program. With `--keep-going` it prints a line to `errors` for each rejected path.
    ///
    /// ```
    /// use paths_commands::fault::{CommandFault, Fault};
    /// use paths_commands::program::Paths;
    /// use program_frame::program::Program;
    /// use program_frame::marked::Marked;
    ///
    /// let mut taken = Vec::new(alloc);
    /// let (mut reader, mut writer) = (Marked::new(b"a".as_slice()), Marked::new(&mut taken));
    /// let ended = Paths::new(&rt).run_words(alloc, &[], &mut reader, &mut writer);
    /// assert!(rt; matches!(ended, Err(Fault::Words(CommandFault::Misuse(_)))));
    /// ```
    pub fn new(errors: &'a P) -> Paths<'a, P> {
        Paths { errors }
    }
}

impl<'a, P: Eprint> Program for Paths<'a, P> {
    type Fault = Fault;

    ghost use Rattle.std.specs.Prelude.{codes};
    ghost use Rattle.list_programs.specs.ProgramFault.{DoneBetween};
    ghost use Rattle.list_programs.specs.declared.program_fault.Fault.TheVariants.{List as OfList, Words};
    ghost use Rattle.list_programs.specs.declared.fault.ListFault.TheVariants.{Run};
    ghost use Rattle.program_frame.specs.declared.fault.Failure.TheVariants.{Memory};
    ghost use Rattle.paths_commands.specs.Program.{RunsTo};
    ghost use Rattle.paths_commands.specs.declared.fault.CommandFault.TheVariants.{Unreadable};

    ghost name = { codes "paths" };

    ghost unreadable = { Words Unreadable };

    ghost out_of_memory = { OfList (Run Memory) };

    ghost runs_to = { λ _ _ words R W remaining contents.
        DoneBetween remaining contents (RunsTo words) };

    fn name() -> &'static str {
        "paths"
    }

    fn unreadable() -> Fault {
        Fault::Words(CommandFault::Unreadable)
    }

    fn out_of_memory() -> Fault {
        Fault::List(ListFault::Run(Failure::Memory))
    }

    fn run_words<A: Allocator + Copy, R: Read, W: Write>(
        &self,
        alloc: A,
        words: &[String],
        reader: &mut Marked<R>,
        writer: &mut Marked<W>,
    ) -> Result<(), Fault> {
        match read_arguments::<PathsOption, A>(alloc, words) {
            Ok(given) => run_line(alloc, self.errors, &given, after_end(words), reader, writer),
            Err(ReadFault::Misuse(error)) => {
                let misuse = Misuse::Argument(error);
                Err(Fault::Words(CommandFault::of(alloc, misuse)?))
            }
            Err(ReadFault::Memory) => Err(Fault::List(ListFault::Run(Failure::Memory))),
        }
    }
}

/// How many arguments come after the first `--`.
fn after_end(words: &[String]) -> usize
    ensures { AreAfterEnd (map string_bytes words.entry.now) result }
{
    let mut left = words;
    while let Some((word, rest)) = left.split_first() {
        if word.as_str() == "--" {
            return rest.len();
        }
        left = rest;
    }
    0
}

/// Returns the result for options and operands, of which the last come after `--`.
fn run_line<P: Eprint, A: Allocator + Copy, R: Read, W: Write>(
    alloc: A,
    errors: &P,
    given: Line<'_, '_>,
    after_end: usize,
    reader: &mut Marked<R>,
    writer: &mut Marked<W>,
) -> Result<(), Fault>
    requires reader_unmarked { has_failed reader.old ≡ false }
    requires writer_unmarked { has_failed writer.old ≡ false }
    ensures run { UnlessOutOfMemory (RunsLine after_end given.now)
        (R.remaining (marked_inner reader.old)) (R.remaining (marked_inner reader.new))
        (W.contents (marked_inner writer.old)) (W.contents (marked_inner writer.new)) result }
    ensures ends { BlamesEnds result (has_failed reader.new) (has_failed writer.new) }
{
    match Command::parse(given, after_end) {
        Ok(command) => run_command(alloc, errors, command, reader, writer),
        Err(misuse) => Err(Fault::Words(CommandFault::of(alloc, misuse)?)),
    }
}

/// Returns the result of the run of a command.
fn run_command<P: Eprint, A: Allocator + Copy, R: Read, W: Write>(
    alloc: A,
    errors: &P,
    command: Command<'_, '_>,
    reader: &mut Marked<R>,
    writer: &mut Marked<W>,
) -> Result<(), Fault>
    requires reader_unmarked { has_failed reader.old ≡ false }
    requires writer_unmarked { has_failed writer.old ≡ false }
    ensures run { Does command.entry (R.remaining (marked_inner reader.old))
        (R.remaining (marked_inner reader.new)) (W.contents (marked_inner writer.old))
        (W.contents (marked_inner writer.new)) result }
    ensures ends { BlamesEnds result (has_failed reader.new) (has_failed writer.new) }
{
    match command {
        Command::Ask(task, os, list, keeps_going, paths) => run_over(
            alloc,
            errors,
            paths,
            keeps_going,
            os,
            task,
            list,
            reader,
            writer,
        ),
        Command::Help => write_help(HELP, writer),
        Command::Version => write_help(VERSION, writer),
    }
}

/// Returns the result of the run over the paths that are given, or else over those that are read.
fn run_over<P: Eprint, A: Allocator + Copy, R: Read, W: Write>(
    alloc: A,
    errors: &P,
    paths: Line<'_, '_>,
    keeps_going: bool,
    os: Os,
    task: Task<'_>,
    list: ListOptions,
    reader: &mut Marked<R>,
    writer: &mut Marked<W>,
) -> Result<(), Fault>
    requires reader_unmarked { has_failed reader.old ≡ false }
    requires writer_unmarked { has_failed writer.old ≡ false }
    ensures run { RunsOver (operands_of paths.entry.now) keeps_going os task.entry list
        (R.remaining (marked_inner reader.old)) (R.remaining (marked_inner reader.new))
        (W.contents (marked_inner writer.old)) (W.contents (marked_inner writer.new)) result }
    ensures ends { BlamesEnds result (has_failed reader.new) (has_failed writer.new) }
{
    match next_operand(paths) {
        None => run_task(
            alloc,
            errors,
            keeps_going,
            os,
            task,
            list,
            list.end,
            reader,
            writer,
        ),
        Some(_) => run_given(
            alloc,
            errors,
            paths,
            keeps_going,
            os,
            task,
            list.end,
            writer,
        ),
    }
}

/// Returns the result of a command for paths, where rejected paths may be passed over.
pub(crate) fn run_task<P: Eprint, A: Allocator + Copy, R: Read, W: Write>(
    alloc: A,
    errors: &P,
    keeps_going: bool,
    os: Os,
    task: Task<'_>,
    list: ListOptions,
    end: ItemEnd,
    reader: &mut Marked<R>,
    writer: &mut Marked<W>,
) -> Result<(), Fault>
    requires reader_unmarked { has_failed reader.old ≡ false }
    requires writer_unmarked { has_failed writer.old ≡ false }
    ensures run { RunsTask keeps_going os task.entry list end
        (R.remaining (marked_inner reader.old)) (R.remaining (marked_inner reader.new))
        (W.contents (marked_inner writer.old)) (W.contents (marked_inner writer.new)) result }
    ensures ends { BlamesEnds result (has_failed reader.new) (has_failed writer.new) }
{
    match task {
        Task::Common => run_common(alloc, errors, keeps_going, os, list, end, reader, writer),
        _ => run_each(
            alloc,
            errors,
            keeps_going,
            os,
            task,
            list,
            end,
            reader,
            writer,
        ),
    }
}

/// Returns the result of the run of a task for each path, where rejected paths may be passed over.
pub(crate) fn run_each<P: Eprint, A: Allocator, R: Read, W: Write>(
    alloc: A,
    errors: &P,
    keeps_going: bool,
    os: Os,
    task: Task<'_>,
    list: ListOptions,
    end: ItemEnd,
    reader: &mut Marked<R>,
    writer: &mut Marked<W>,
) -> Result<(), Fault>
    requires reader_unmarked { has_failed reader.old ≡ false }
    requires writer_unmarked { has_failed writer.old ≡ false }
    ensures run { RunsEach keeps_going os task.entry list end
        (R.remaining (marked_inner reader.old)) (R.remaining (marked_inner reader.new))
        (W.contents (marked_inner writer.old)) (W.contents (marked_inner writer.new)) result }
    ensures ends { BlamesEnds result (has_failed reader.new) (has_failed writer.new) }
{
    if keeps_going {
        return run_past(alloc, errors, os, task, list, end, reader, writer);
    }
    run_to_rejection(alloc, os, task, list, end, reader, writer)
}

/// Returns the result of the run that ends at the first path that is rejected.
fn run_to_rejection<A: Allocator, R: Read, W: Write>(
    alloc: A,
    os: Os,
    task: Task<'_>,
    list: ListOptions,
    end: ItemEnd,
    reader: &mut Marked<R>,
    writer: &mut Marked<W>,
) -> Result<(), Fault>
    requires reader_unmarked { has_failed reader.old ≡ false }
    requires writer_unmarked { has_failed writer.old ≡ false }
    ensures run { Runs (rules_on os task.entry list end) OfList
        (R.remaining (marked_inner reader.old)) (R.remaining (marked_inner reader.new))
        (W.contents (marked_inner writer.old)) (W.contents (marked_inner writer.new)) result }
    ensures ends { BlamesEnds result (has_failed reader.new) (has_failed writer.new) }
{
    run_on(alloc, os, task, list, end, &mut Stop, reader, writer)
}

/// Returns the result of the run that passes over the paths that are rejected.
fn run_past<P: Eprint, A: Allocator, R: Read, W: Write>(
    alloc: A,
    errors: &P,
    os: Os,
    task: Task<'_>,
    list: ListOptions,
    end: ItemEnd,
    reader: &mut Marked<R>,
    writer: &mut Marked<W>,
) -> Result<(), Fault>
    requires reader_unmarked { has_failed reader.old ≡ false }
    requires writer_unmarked { has_failed writer.old ≡ false }
    ensures run { RunsPast (rules_on os task.entry list end)
        (R.remaining (marked_inner reader.old)) (R.remaining (marked_inner reader.new))
        (W.contents (marked_inner writer.old)) (W.contents (marked_inner writer.new)) result }
    ensures ends { BlamesEnds result (has_failed reader.new) (has_failed writer.new) }
{
    let mut rejections = KeepGoing::new("paths", errors);
    let ran = run_on(alloc, os, task, list, end, &mut rejections, reader, writer);
    after(rejections.count(), ran)
}

/// The result of a run that has passed over this number of paths.
fn after(count: u64, ran: Result<(), Fault>) -> Result<(), Fault>
    ensures { IsAfter count ran result }
{
    match ran {
        Ok(()) => {
            if count == 0 {
                return Ok(());
            }
            Err(Fault::Words(CommandFault::PassedOver(count)))
        }
        Err(fault) => Err(fault),
    }
}

/// Returns the result of the run on a platform.
fn run_on<N: Rejections<Rejection>, A: Allocator, R: Read, W: Write>(
    alloc: A,
    os: Os,
    task: Task<'_>,
    list: ListOptions,
    end: ItemEnd,
    rejections: &mut N,
    reader: &mut Marked<R>,
    writer: &mut Marked<W>,
) -> Result<(), Fault>
    requires reader_unmarked { has_failed reader.old ≡ false }
    requires writer_unmarked { has_failed writer.old ≡ false }
    ensures run { Runs (passing (N.passed rejections.new) (rules_on os task.entry list end))
        OfList
        (R.remaining (marked_inner reader.old)) (R.remaining (marked_inner reader.new))
        (W.contents (marked_inner writer.old)) (W.contents (marked_inner writer.new)) result }
    ensures stops { IfErr result (λ fault. EndsRunOf N.stops fault) }
    ensures ends { BlamesEnds result (has_failed reader.new) (has_failed writer.new) }
{
    match os {
        Os::Unix => run_list_with(
            alloc,
            &mut OnPlatform::<Unix>::ended(task, list, end),
            rejections,
            reader,
            writer,
        ),
        Os::Windows => run_list_with(
            alloc,
            &mut OnPlatform::<Windows>::ended(task, list, end),
            rejections,
            reader,
            writer,
        ),
        Os::Wasm => run_list_with(
            alloc,
            &mut OnPlatform::<Wasm>::ended(task, list, end),
            rejections,
            reader,
            writer,
        ),
    }
}
