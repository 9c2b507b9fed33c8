//! One run: all input read, the whole output made, the output written.
ghost use Rattle.std.specs.Prelude.{◌≡◌, ◌≢◌, ◌↔◌, true, false, IfErr, OnOk, OnErr};
ghost use Rattle.std.specs.Io.KnownBytes.{Appends, IsAtEnd};
ghost use Rattle.osbytes_commands.specs.Command.{IsUnusable};
ghost use Rattle.program_frame.specs.Marked.{marked_inner, has_failed};
ghost use Rattle.osbytes_commands.specs.Output.{IsOfInput};
ghost use Rattle.program_frame.specs.Written.{AppendsBeginning};
ghost use Rattle.osbytes_commands.specs.Run.{WritesOutput, WritesBeginning, RejectsInput, AnswersRejection};

use crate::answer::answer;
use crate::command::Command;
use crate::fault::Fault;
use program_frame::input::read_all;
use program_frame::marked::Marked;
use program_frame::writing::write_out;
use std::alloc::Allocator;
use std::io::{Read, Write};

/// Reads all that the reader has, then writes the command's output for it and flushes. Both marks
/// must be unset (test: [`Marked::failed`]).
///
/// # Errors
///
/// [`Fault::Read`] exactly where a read failed. [`Fault::Write`] exactly where a write or the flush
/// did. [`Fault::Memory`] where an allocation failed. [`Fault::Usage`] exactly where the command
/// can't run ([`Command::is_unusable`]), with nothing read. Every other fault is that of the whole
/// input. Before `Write` a beginning of the output is written. Before any other fault nothing is
/// written.
///
/// ```
/// use osbytes_commands::command::Command;
/// use program_frame::os::Os;
/// use program_frame::marked::Marked;
/// use osbytes_commands::run::run;
///
/// let input: &[u8] = b"\xF0\x90\x80\x80";
/// let mut taken = Vec::new(alloc);
/// let (mut reader, mut writer) = (Marked::new(input), Marked::new(&mut taken));
/// let command = Command::Units(Os::Windows);
/// assert!(rt; run(alloc, command, &mut reader, &mut writer) == Ok(()));
/// assert_eq!(rt; taken.as_slice(), b"d800\ndc00\n".as_slice());
/// ```
pub fn run<A: Allocator, R: Read, W: Write>(
    alloc: A,
    command: Command<'_>,
    reader: &mut Marked<R>,
    writer: &mut Marked<W>,
) -> Result<(), Fault>
    requires reader_unmarked { has_failed reader.old ≡ false }
    requires writer_unmarked { has_failed writer.old ≡ false }

    // The output.
    ensures no_read_failed { OnOk result (has_failed reader.new ≡ false) }
    ensures no_write_failed { OnOk result (has_failed writer.new ≡ false) }
    ensures all_read { OnOk result (IsAtEnd (R.remaining (marked_inner reader.new))) }
    ensures written { OnOk result
        (WritesOutput command.entry (R.remaining (marked_inner reader.old))
        (W.contents (marked_inner writer.old)) (W.contents (marked_inner writer.new))) }

    // When each fault comes.
    ensures of_input { IfErr result (λ fault. IsOfInput fault
        → RejectsInput command.entry (R.remaining (marked_inner reader.old)) fault) }
    ensures rejection { AnswersRejection command.entry (R.remaining (marked_inner reader.old))
        result }
    ensures usage { (result ≡ Err Fault.Usage) ↔ IsUnusable command.entry }
    ensures nothing_read { result ≡ Err Fault.Usage → reader.new ≡ reader.old }
    ensures read { (result ≡ Err Fault.Read) ↔ (has_failed reader.new ≡ true) }
    ensures write { (result ≡ Err Fault.Write) ↔ (has_failed writer.new ≡ true) }

    // What was written before a fault.
    ensures nothing_written { IfErr result
        (λ fault. fault ≢ Fault.Write → writer.new ≡ writer.old) }
    ensures beginning_written { result ≡ Err Fault.Write
        → WritesBeginning command.entry (R.remaining (marked_inner reader.old))
        (W.contents (marked_inner writer.old)) (W.contents (marked_inner writer.new)) }
{
    if command.is_unusable() {
        return Err(Fault::Usage);
    }
    let input = read_all(&alloc, reader)?;
    let output = answer(&alloc, command, &input)?;
    match write_out(writer, &output) {
        Ok(()) => Ok(()),
        Err(_) => Err(Fault::Write),
    }
}
