//! The command `find`: where a pattern first occurs in a string.
ghost use Rattle.std.specs.Prelude.{◌≡◌, IfOk, IfErr};
ghost use Rattle.osbytes_commands.specs.Lines.{index_line};
ghost use Rattle.osbytes_commands.specs.Output.{IsOutputOn, IsFaultOn, RejectsNoString};
ghost use Rattle.osbytes_commands.specs.declared.command.Command.TheVariants.{Find};

use crate::fault::Fault;
use crate::string::string;
use crate::target::Target;
use os_str_bytes::{OsStrBytesExt, Platform};
use std::alloc::{AllocError, Allocator};

/// The line of the first index of a pattern in a string, or the first fault of its bytes.
///
/// A fault is found before any memory is allocated. For F0 90 80 80 61 (hexadecimal) and the
/// pattern `a` on Windows the line is `4`, for `b` it is `none`.
pub fn find<E: Target, A: Allocator>(
    alloc: A,
    input: &[u8],
    pattern: &str,
) -> Result<Vec<u8, A>, Fault>
    ensures output { IfOk result (λ output. IsOutputOn ⟦<E as Platform>⟧ (Find E.os pattern.entry)
        input.now output.items) }
    ensures fault { IfErr result (λ fault. IsFaultOn ⟦<E as Platform>⟧ (Find E.os pattern.entry)
        input.now fault) }
    ensures rejected { RejectsNoString ⟦<E as Platform>⟧ input.now result }
{
    let index = string::<E>(input)?.find(pattern);
    Ok(index_line(alloc, index)?)
}

/// The line of an index, or of none.
fn index_line<A: Allocator>(alloc: A, index: Option<usize>) -> Result<Vec<u8, A>, AllocError>
    ensures { IfOk result (λ line. line.items ≡ index_line index) }
{
    match index {
        Some(index) => Ok(format!(in alloc; "{index}\n")?.into_bytes()),
        None => Ok(Vec::from_slice(alloc, b"none\n")?),
    }
}
