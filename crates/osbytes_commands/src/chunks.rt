//! The command `chunks`: the bytes of a string to its chunks.
ghost use Rattle.std.specs.Prelude.{◌≡◌, IfOk, IfErr};
ghost use Rattle.osbytes_commands.specs.Lines.{chunk_lines};
ghost use Rattle.osbytes_commands.specs.Output.{IsOutputOn, IsFaultOn, RejectsNoString};
ghost use Rattle.osbytes_commands.specs.declared.command.Command.TheVariants.{Chunks};

use crate::fault::Fault;
use crate::lines::push_piece;
use crate::string::string;
use crate::target::Target;
use os_str_bytes::{OsStrBytesExt, Platform, Utf8Chunks};
use std::alloc::{AllocError, Allocator};

/// The lines of the chunks of a string, or the first fault of its bytes.
///
/// A fault is found before any memory is allocated. For 66 6F 80 FF 6F (hexadecimal) on Unix the
/// lines are `- 666f` and `80ff 6f`.
pub fn chunks<E: Target, A: Allocator>(alloc: A, input: &[u8]) -> Result<Vec<u8, A>, Fault>
    ensures output { IfOk result (λ output. IsOutputOn ⟦<E as Platform>⟧ (Chunks E.os) input.now
        output.items) }
    ensures fault { IfErr result (λ fault. IsFaultOn ⟦<E as Platform>⟧ (Chunks E.os) input.now
        fault) }
    ensures rejected { RejectsNoString ⟦<E as Platform>⟧ input.now result }
{
    let string = string::<E>(input)?;
    Ok(chunk_lines(alloc, string.utf8_chunks())?)
}

/// A line for each chunk.
fn chunk_lines<'a, E: Platform, A: Allocator>(
    alloc: A,
    chunks: Utf8Chunks<'a, E>,
) -> Result<Vec<u8, A>, AllocError>
    ensures { IfOk result (λ output. output.items ≡ chunk_lines chunks.entry) }
{
    let mut output = Vec::new(alloc);
    for (part, text) in chunks {
        push_piece(&mut output, part.as_os_str().as_encoded_bytes())?;
        output.push(b' ')?;
        push_piece(&mut output, text.as_bytes())?;
        output.push(b'\n')?;
    }
    Ok(output)
}
