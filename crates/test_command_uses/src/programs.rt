//! The whole programs, with arguments and without, and how they end.
ghost use Rattle.std.specs.Prelude.{◌≡◌, ◌<◌, ◌⊎◌, true, false, OnOk, IsOk, Err, codes, length};
ghost use Rattle.std.specs.Io.KnownBytes.{Appends};
ghost use Rattle.std.specs.Process.{exit_status};
ghost use Rattle.osbytes_commands.specs.Program.{AreNoCommand};
ghost use Rattle.program_frame.specs.Ended.{message};
ghost use Rattle.program_frame.specs.Marked.{has_failed, marked_inner};
ghost use Rattle.program_frame.specs.Words.{words_after_name};
ghost use Rattle.program_frame.specs.declared.fault.Failure.{Failure};
ghost use Rattle.program_frame.specs.declared.os.Os.TheVariants.{Unix};
ghost use Rattle.list_programs.specs.declared.program_fault.Fault.TheVariants.{List as OfList, Words};
ghost use Rattle.paths_commands.specs.Command.{RequestNothing};
ghost use Rattle.paths_commands.specs.declared.fault.CommandFault.{CommandFault};
ghost use Rattle.test_command_uses.specs.Requests.{AsksCommon, GivesPaths, RequestsSome, RunsSome, WritesBase};

use list_programs::fault::ListFault;
use list_programs::options::ItemEnd;
use names_commands::fault::Fault as NamesFault;
use names_commands::program::Names;
use osbytes_commands::fault::Fault;
use osbytes_commands::program::OsBytes;
use paths_commands::fault::Fault as PathsFault;
use paths_commands::program::Paths;
use program_frame::ended::{Ended, ProgramFault};
use program_frame::ends::{Messages, Output};
use program_frame::files::Files;
use program_frame::marked::Marked;
use program_frame::program::execute;
use std::alloc::{Allocator, Global};
use std::env::Args;
use std::io;
use std::io::{Eprint, ErrorKind, Read, Write};
use std::process::{ExitCode, Termination};

/// The program where its arguments aren't available: whether it printed why, and its status.
pub fn without_arguments<P: Eprint, A: Allocator + Copy, R: Read, W: Output, E: Messages>(
    rt: &P,
    alloc: A,
    reader: &mut Marked<R>,
    writer: &mut Marked<W>,
    errors: &mut E,
) -> (bool, ExitCode)
    requires reader_unmarked { has_failed reader.old ≡ false }
    requires writer_unmarked { has_failed writer.old ≡ false }
    ensures reported { result.0 ≡ true → Appends (E.contents errors.old) (E.contents errors.new)
        (codes "osbytes: usage: osbytes units|raw|find|split|chunks unix|windows|wasm [PAT]\n") }
    ensures status { exit_status result.1 ≡ 2 }
    ensures kept { writer.new ≡ writer.old }
{
    let arguments = Err(io::Error::from(ErrorKind::InvalidInput));
    let ended = execute(&OsBytes, alloc, arguments, reader, writer, errors);
    let reported = ended.reported();
    (reported, ended.report(rt))
}

/// The program with arguments. The first argument is the program's name.
pub fn with_words<R: Read, W: Output, E: Messages>(
    alloc: Global,
    words: Vec<String>,
    reader: &mut Marked<R>,
    writer: &mut Marked<W>,
    errors: &mut E,
) -> Result<(), Fault>
    requires reader_unmarked { has_failed reader.old ≡ false }
    requires writer_unmarked { has_failed writer.old ≡ false }
    ensures quiet { OnOk result (errors.new ≡ errors.old) }
    ensures too_many { 4 < length words.items → ¬ (IsOk result) }
{
    execute(
        &OsBytes,
        alloc,
        Ok(words.into_iter()),
        reader,
        writer,
        errors,
    )
    .outcome()
}

/// The program with arguments, which are no command's where that is given.
pub fn with_arguments<A: Allocator + Copy, R: Read, W: Output, E: Messages>(
    alloc: A,
    arguments: Args,
    reader: &mut Marked<R>,
    writer: &mut Marked<W>,
    errors: &mut E,
) -> Result<(), Fault>
    requires reader_unmarked { has_failed reader.old ≡ false }
    requires writer_unmarked { has_failed writer.old ≡ false }
    ensures { result ≡ Err Fault.Usage → AreNoCommand (words_after_name arguments) }
{
    execute(&OsBytes, alloc, Ok(arguments), reader, writer, errors).outcome()
}

/// Whether nobody reads the program's output any more; it then has printed no error.
pub fn silent_where_closed<A: Allocator + Copy, R: Read, W: Output, E: Messages>(
    alloc: A,
    arguments: Args,
    reader: &mut Marked<R>,
    writer: &mut Marked<W>,
    errors: &mut E,
) -> bool
    requires reader_unmarked { has_failed reader.old ≡ false }
    requires writer_unmarked { has_failed writer.old ≡ false }
    ensures { result ≡ true → errors.new ≡ errors.old }
{
    let _ = execute(&OsBytes, alloc, Ok(arguments), reader, writer, errors);
    writer.closed()
}

/// Whether nobody reads the output of the program for names any more; it then has printed no error.
pub fn names_silent_where_closed<F: Files, A: Allocator + Copy, R: Read, W: Output, E: Messages>(
    program: &Names<F>,
    alloc: A,
    arguments: Args,
    reader: &mut Marked<R>,
    writer: &mut Marked<W>,
    errors: &mut E,
) -> bool
    requires reader_unmarked { has_failed reader.old ≡ false }
    requires writer_unmarked { has_failed writer.old ≡ false }
    ensures { result ≡ true → errors.new ≡ errors.old }
{
    let _ = execute(program, alloc, Ok(arguments), reader, writer, errors);
    writer.closed()
}

/// The end of a run whose outcome nobody waits for: it is printed nowhere.
pub fn unreported<F: ProgramFault, E: Write>(
    outcome: Result<(), F>,
    errors: &mut E,
) -> Result<(), F>
    ensures outcome { result ≡ outcome }
    ensures quiet { errors.new ≡ errors.old }
{
    Ended::reporting_unless("osbytes", true, outcome, errors).outcome()
}

/// The program for names where its arguments aren't available: whether it printed why, and its
/// status.
pub fn names_without_arguments<
    P: Eprint,
    F: Files,
    A: Allocator + Copy,
    R: Read,
    W: Output,
    E: Messages,
>(
    rt: &P,
    program: &Names<F>,
    alloc: A,
    reader: &mut Marked<R>,
    writer: &mut Marked<W>,
    errors: &mut E,
) -> (bool, ExitCode)
    requires reader_unmarked { has_failed reader.old ≡ false }
    requires writer_unmarked { has_failed writer.old ≡ false }
    ensures reported { result.0 ≡ true → Appends (E.contents errors.old) (E.contents errors.new)
        (codes "names: an argument isn't valid UTF-8\n") }
    ensures status { exit_status result.1 ≡ 2 }
    ensures unread { reader.new ≡ reader.old }
    ensures kept { writer.new ≡ writer.old }
{
    let arguments = Err(io::Error::from(ErrorKind::InvalidInput));
    let ended = execute(program, alloc, arguments, reader, writer, errors);
    let reported = ended.reported();
    (reported, ended.report(rt))
}

/// The program for paths where its arguments aren't available: whether it printed why, and its
/// status.
pub fn paths_without_arguments<P: Eprint, A: Allocator + Copy, R: Read, W: Output, E: Messages>(
    rt: &P,
    alloc: A,
    reader: &mut Marked<R>,
    writer: &mut Marked<W>,
    errors: &mut E,
) -> (bool, ExitCode)
    requires reader_unmarked { has_failed reader.old ≡ false }
    requires writer_unmarked { has_failed writer.old ≡ false }
    ensures reported { result.0 ≡ true → Appends (E.contents errors.old) (E.contents errors.new)
        (codes "paths: an argument isn't valid UTF-8\n") }
    ensures status { exit_status result.1 ≡ 2 }
    ensures unread { reader.new ≡ reader.old }
    ensures kept { writer.new ≡ writer.old }
{
    let arguments = Err(io::Error::from(ErrorKind::InvalidInput));
    let ended = execute(&Paths::new(rt), alloc, arguments, reader, writer, errors);
    let reported = ended.reported();
    (reported, ended.report(rt))
}

/// The program for paths with arguments that request no command: nothing is read or written.
pub fn paths_rejected<P: Eprint, A: Allocator + Copy, R: Read, W: Output, E: Messages>(
    rt: &P,
    alloc: A,
    arguments: Args,
    reader: &mut Marked<R>,
    writer: &mut Marked<W>,
    errors: &mut E,
) -> Result<(), PathsFault>
    requires words { RequestNothing (words_after_name arguments) }
    requires reader_unmarked { has_failed reader.old ≡ false }
    requires writer_unmarked { has_failed writer.old ≡ false }
    ensures rejected { ((why : CommandFault) × (result ≡ Err (Words why)))
        ⊎ (result ≡ Err (OfList (ListFault.Run Failure.Memory))) }
    ensures unread { R.remaining (marked_inner reader.new) ≡ R.remaining (marked_inner reader.old) }
    ensures kept { W.contents (marked_inner writer.new) ≡ W.contents (marked_inner writer.old) }
{
    execute(
        &Paths::new(rt),
        alloc,
        Ok(arguments),
        reader,
        writer,
        errors,
    )
    .outcome()
}

/// The program for paths with arguments that request a command: it runs such a command, unless
/// an allocation fails.
pub fn paths_requested<P: Eprint, A: Allocator + Copy, R: Read, W: Output, E: Messages>(
    rt: &P,
    alloc: A,
    arguments: Args,
    reader: &mut Marked<R>,
    writer: &mut Marked<W>,
    errors: &mut E,
) -> Result<(), PathsFault>
    requires words { RequestsSome (words_after_name arguments) }
    requires reader_unmarked { has_failed reader.old ≡ false }
    requires writer_unmarked { has_failed writer.old ≡ false }
    ensures { RunsSome (words_after_name arguments) (R.remaining (marked_inner reader.old))
        (R.remaining (marked_inner reader.new)) (W.contents (marked_inner writer.old))
        (W.contents (marked_inner writer.new)) result }
{
    execute(
        &Paths::new(rt),
        alloc,
        Ok(arguments),
        reader,
        writer,
        errors,
    )
    .outcome()
}

/// The program for paths with arguments that give paths: it reads nothing.
pub fn paths_given<P: Eprint, A: Allocator + Copy, R: Read, W: Output, E: Messages>(
    rt: &P,
    alloc: A,
    arguments: Args,
    reader: &mut Marked<R>,
    writer: &mut Marked<W>,
    errors: &mut E,
) -> Result<(), PathsFault>
    requires words { GivesPaths (words_after_name arguments) }
    requires reader_unmarked { has_failed reader.old ≡ false }
    requires writer_unmarked { has_failed writer.old ≡ false }
    ensures { R.remaining (marked_inner reader.new) ≡ R.remaining (marked_inner reader.old) }
{
    execute(
        &Paths::new(rt),
        alloc,
        Ok(arguments),
        reader,
        writer,
        errors,
    )
    .outcome()
}

/// The program for paths with arguments that request `common` for paths that are read: if it ends
/// without a fault it wrote the common base of paths.
pub fn paths_common<P: Eprint, A: Allocator + Copy, R: Read, W: Output, E: Messages>(
    rt: &P,
    alloc: A,
    arguments: Args,
    reader: &mut Marked<R>,
    writer: &mut Marked<W>,
    errors: &mut E,
) -> Result<(), PathsFault>
    requires words { AsksCommon Unix (words_after_name arguments) }
    requires reader_unmarked { has_failed reader.old ≡ false }
    requires writer_unmarked { has_failed writer.old ≡ false }
    ensures { OnOk result (WritesBase Unix (W.contents (marked_inner writer.old))
        (W.contents (marked_inner writer.new))) }
{
    execute(
        &Paths::new(rt),
        alloc,
        Ok(arguments),
        reader,
        writer,
        errors,
    )
    .outcome()
}

/// The end of a program after a fault: whether it printed it, and its status.
pub fn after_a_fault<F: ProgramFault, P: Eprint, E: Write>(
    rt: &P,
    program: &str,
    fault: F,
    errors: &mut E,
) -> (bool, ExitCode)
    ensures reported { result.0 ≡ true → Appends (E.contents errors.old) (E.contents errors.new)
        (message program.now (F.text_of fault)) }
    ensures status { exit_status result.1 ≡ F.status_of fault }
{
    let ended = Ended::reporting(program, Err(fault), errors);
    let reported = ended.reported();
    (reported, ended.report(rt))
}

/// The end of a program without a fault: what it returned, and its status.
pub fn after_success<P: Eprint, E: Write>(rt: &P, errors: &mut E) -> (Result<(), Fault>, ExitCode)
    ensures outcome { IsOk result.0 }
    ensures status { exit_status result.1 ≡ 0 }
    ensures quiet { errors.new ≡ errors.old }
{
    let ended = Ended::reporting("osbytes", Ok(()), errors);
    let outcome = ended.outcome();
    (outcome, ended.report(rt))
}

/// The statuses after a bad line, after a name that is too long, and after a line without its end.
pub fn statuses() -> (u8, u8, u8)
    ensures osbytes { result.0 ≡ 1 }
    ensures names { result.1 ≡ 1 }
    ensures unended { result.2 ≡ 1 }
{
    (
        Fault::BadLine(2).status(),
        NamesFault::List(ListFault::TooLong(3, 255)).status(),
        NamesFault::List(ListFault::Unended(3, ItemEnd::Nul)).status(),
    )
}
