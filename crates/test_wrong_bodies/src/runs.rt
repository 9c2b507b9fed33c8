//! Runs of commands.
ghost use Rattle.std.specs.Prelude.{◌≡◌, ◌↔◌, false, true, OnOk, Some};
ghost use Rattle.program_frame.specs.Marked.{marked_inner, has_failed};
ghost use Rattle.osbytes_commands.specs.Run.{WritesOutput};

use osbytes_commands::command::Command;
use osbytes_commands::fault::Fault;
use osbytes_commands::run::run;
use program_frame::marked::Marked;
use std::alloc::Allocator;
use std::io::{Read, Write};

/// A run over bytes, which writes the output for them.
pub fn run_over<A: Allocator, W: Write>(
    alloc: A,
    command: Command<'_>,
    input: &[u8],
    writer: &mut Marked<W>,
) -> Result<(), Fault>
    requires { has_failed writer.old ≡ false }
    ensures { OnOk result (WritesOutput command.entry (Some input.now)
        (W.contents (marked_inner writer.old)) (W.contents (marked_inner writer.new))) }
{
    let mut reader = Marked::new(input);
    run(alloc, command, &mut reader, writer)
}

/// A run, which returns a failed read exactly where the reader is marked.
pub fn run_once<A: Allocator, R: Read, W: Write>(
    alloc: A,
    command: Command<'_>,
    reader: &mut Marked<R>,
    writer: &mut Marked<W>,
) -> Result<(), Fault>
    requires reader_unmarked { has_failed reader.old ≡ false }
    requires writer_unmarked { has_failed writer.old ≡ false }
    ensures { (result ≡ Err Fault.Read) ↔ (has_failed reader.new ≡ true) }
{
    run(alloc, command, reader, writer)
}
