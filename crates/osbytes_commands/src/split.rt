//! The command `split`: the pieces of a string.
ghost use Rattle.std.specs.Prelude.{◌≡◌, ◌<◌, length, IfOk, IfErr};
ghost use Rattle.osbytes_commands.specs.Lines.{piece_lines};
ghost use Rattle.osbytes_commands.specs.Output.{IsOutputOn, IsFaultOn, RejectsNoString};
ghost use Rattle.osbytes_commands.specs.declared.command.Command.TheVariants.{Split as SplitAt};

use crate::fault::Fault;
use crate::lines::push_piece;
use crate::string::string;
use crate::target::Target;
use os_str_bytes::{OsStrBytesExt, Platform, Split};
use std::alloc::{AllocError, Allocator};

/// The lines of the pieces of a string between the occurrences of a pattern, or the first fault of
/// its bytes. The pattern isn't empty (test: `str::is_empty`).
///
/// A fault is found before any memory is allocated. For F0 90 80 80 61 (hexadecimal) and the
/// pattern `a` on Windows the lines are `f0908080` and `-`.
pub fn split<E: Target, A: Allocator>(
    alloc: A,
    input: &[u8],
    pattern: &str,
) -> Result<Vec<u8, A>, Fault>
    requires { 0 < length pattern.now }
    ensures output { IfOk result (λ output. IsOutputOn ⟦<E as Platform>⟧
        (SplitAt E.os pattern.entry) input.now output.items) }
    ensures fault { IfErr result (λ fault. IsFaultOn ⟦<E as Platform>⟧ (SplitAt E.os pattern.entry)
        input.now fault) }
    ensures rejected { RejectsNoString ⟦<E as Platform>⟧ input.now result }
{
    let pieces = string::<E>(input)?.split(pattern);
    Ok(piece_lines(alloc, pieces)?)
}

/// A line for each piece.
fn piece_lines<E: Platform, A: Allocator>(
    alloc: A,
    pieces: Split<'_, E, &str>,
) -> Result<Vec<u8, A>, AllocError>
    ensures { IfOk result (λ lines. lines.items ≡ piece_lines pieces.entry) }
{
    let mut lines = Vec::new(alloc);
    for piece in pieces {
        push_piece(&mut lines, piece.as_encoded_bytes())?;
        lines.push(b'\n')?;
    }
    Ok(lines)
}
