//! The command `units`: the bytes of a string to its units.
ghost use Rattle.std.specs.Prelude.{IfOk, IfErr};
ghost use Rattle.osbytes_commands.specs.Output.{IsOutputOn, IsFaultOn, RejectsNoString};
ghost use Rattle.osbytes_commands.specs.declared.command.Command.TheVariants.{Units};

use crate::fault::Fault;
use crate::string::string;
use crate::target::Target;
use os_str_bytes::Platform;
use std::alloc::Allocator;

/// The lines of the units of a string, or the first fault of its bytes.
///
/// A fault is found before any memory is allocated. For F0 90 80 80 (hexadecimal) on Windows the
/// lines are `d800` and `dc00`.
pub fn units<E: Target, A: Allocator>(alloc: A, input: &[u8]) -> Result<Vec<u8, A>, Fault>
    ensures output { IfOk result (λ output. IsOutputOn ⟦<E as Platform>⟧ (Units E.os) input.now
        output.items) }
    ensures fault { IfErr result (λ fault. IsFaultOn ⟦<E as Platform>⟧ (Units E.os) input.now
        fault) }
    ensures rejected { RejectsNoString ⟦<E as Platform>⟧ input.now result }
{
    let string = string::<E>(input)?;
    Ok(E::lines(alloc, string.as_encoded_bytes())?)
}
