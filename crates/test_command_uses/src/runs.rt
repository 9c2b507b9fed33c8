//! Runs of commands.
ghost use Rattle.std.specs.Prelude.{◌≡◌, ◌≢◌, IfErr, OnOk, false, true};
ghost use Rattle.program_frame.specs.Marked.{marked_inner, has_failed};
ghost use Rattle.osbytes_commands.specs.Run.{WritesOutput};

use osbytes_commands::command::Command;
use osbytes_commands::fault::Fault;
use osbytes_commands::run::run;
use program_frame::marked::Marked;
use program_frame::os::Os;
use std::alloc::Allocator;
use std::io::{Read, Write};

/// Whether a run returns a failed read exactly where the reader is marked, and a failed write
/// exactly where the writer is.
pub fn faults_match_marks<A: Allocator, R: Read + Drop, W: Write + Drop>(
    alloc: A,
    command: Command<'_>,
    reader: R,
    writer: W,
) -> bool
    ensures { result ≡ true }
{
    let mut reader = Marked::new(reader);
    let mut writer = Marked::new(writer);
    let answer = run(alloc, command, &mut reader, &mut writer);
    matches!(answer, Err(Fault::Read)) == reader.failed()
        && matches!(answer, Err(Fault::Write)) == writer.failed()
}

/// Runs a command, which writes its whole output, or nothing where no write failed.
pub fn run_once<A: Allocator, R: Read, W: Write>(
    alloc: A,
    command: Command<'_>,
    reader: &mut Marked<R>,
    writer: &mut Marked<W>,
) -> Result<(), Fault>
    requires reader_unmarked { has_failed reader.old ≡ false }
    requires writer_unmarked { has_failed writer.old ≡ false }
    ensures written { OnOk result (WritesOutput command.entry
        (R.remaining (marked_inner reader.old))
        (W.contents (marked_inner writer.old)) (W.contents (marked_inner writer.new))) }
    ensures kept { IfErr result (λ fault. fault ≢ Fault.Write → writer.new ≡ writer.old) }
{
    run(alloc, command, reader, writer)
}

/// Splits at the empty pattern, which is rejected before anything is read.
pub fn split_at_nothing<A: Allocator, R: Read, W: Write>(
    alloc: A,
    os: Os,
    reader: &mut Marked<R>,
    writer: &mut Marked<W>,
) -> Result<(), Fault>
    requires reader_unmarked { has_failed reader.old ≡ false }
    requires writer_unmarked { has_failed writer.old ≡ false }
    ensures rejected { result ≡ Err Fault.Usage }
    ensures unread { reader.new ≡ reader.old }
{
    run(alloc, Command::Split(os, ""), reader, writer)
}
