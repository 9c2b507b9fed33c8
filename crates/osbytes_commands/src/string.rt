//! The input of a command as a string.
ghost use Rattle.std.specs.Prelude.{◌≡◌, IfOk, IfErr};
ghost use Rattle.os_str_bytes.specs.EncodingError.{EncodingError};
ghost use Rattle.os_str_bytes.specs.Strings.{bytes};
ghost use Rattle.osbytes_commands.specs.Output.{RejectsNoString};

use crate::fault::Fault;
use os_str_bytes::{OsStr, Platform, laws};

/// The string of the input. It takes no memory.
///
/// # Errors
///
/// [`Fault::Refused`] with the first fault of bytes that aren't a string.
pub fn string<'a, E: Platform>(input: &'a [u8]) -> Result<OsStr<'a, E>, Fault>
    ensures bytes { IfOk result (λ string. bytes string ≡ input.now) }
    ensures formed { IfOk result (λ _. E.well_formed input.now) }
    ensures fault { IfErr result (λ fault. (error : EncodingError) × (fault ≡ Fault.Refused error)
        × E.first_fault input.now error) }
    ensures rejected { RejectsNoString ⟦<E as Platform>⟧ input.now result }
{
    laws::faults::<E>();
    Ok(OsStr::checked(input)?)
}
