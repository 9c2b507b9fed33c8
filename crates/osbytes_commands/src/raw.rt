//! The command `raw`: the units of a string to its bytes.
ghost use Rattle.std.specs.Prelude.{◌≡◌, ◌⊎◌, ℕ, All, map, IfOk, IfErr};
ghost use Rattle.os_str_bytes.specs.EncodingError.{EncodingError};
ghost use Rattle.osbytes_commands.specs.Lines.{IsUnit, AreUnitLines, IsFirstBadLine};
ghost use Rattle.osbytes_commands.specs.Output.{IsOutputOn, IsFaultOn};
ghost use Rattle.osbytes_commands.specs.declared.command.Command.TheVariants.{Raw};

use crate::fault::Fault;
use crate::target::Target;
use os_str_bytes::{Platform, laws};
use std::alloc::Allocator;

/// Returns the bytes of the string whose units are on the lines. The error is the first bad line,
/// or else the first fault of units that aren't those of a string.
///
/// For the lines `d800` and `dc00` on Windows they are F0 90 80 80 (hexadecimal).
pub fn raw<E: Target, A: Allocator + Copy>(alloc: A, input: &[u8]) -> Result<Vec<u8, A>, Fault>
    ensures output { IfOk result (λ output. IsOutputOn ⟦<E as Platform>⟧ (Raw E.os) input.now
        output.items) }
    ensures fault { IfErr result (λ fault. IsFaultOn ⟦<E as Platform>⟧ (Raw E.os) input.now fault) }
{
    let units = read_units::<E, A>(alloc, input)?;
    encode::<E, A>(alloc, &units)
}

/// The units on the lines, or the first bad line.
fn read_units<E: Target, A: Allocator>(alloc: A, input: &[u8]) -> Result<Vec<E::Unit, A>, Fault>
    ensures units { IfOk result (λ units. AreUnitLines E.os input.now (map E.number units.items)) }
    ensures fault { IfErr result (λ fault. (fault ≡ Fault.Memory)
        ⊎ ((number : ℕ) × (fault ≡ Fault.BadLine number) × IsFirstBadLine E.os input.now number)) }
{
    let mut units = Vec::new(alloc);
    let mut rest = input;
    while !rest.is_empty() {
        let Some((unit, after)) = E::leading_unit(rest) else {
            return Err(Fault::BadLine(units.len() + 1));
        };
        units.push(unit)?;
        rest = after;
    }
    Ok(units)
}

/// Returns the bytes of the string that has these units. The error is the first fault of units that
/// aren't those of a string. It is found before any memory is allocated.
fn encode<E: Target, A: Allocator>(alloc: A, units: &[E::Unit]) -> Result<Vec<u8, A>, Fault>
    requires { All (IsUnit E.os) (map E.number units.now) }
    ensures bytes { IfOk result (λ bytes. E.well_formed bytes.items
        × (E.units bytes.items ≡ map E.number units.now)) }
    ensures fault { IfErr result (λ fault. (fault ≡ Fault.Memory)
        ⊎ ((error : EncodingError) × (fault ≡ Fault.Refused error)
        × (¬ (E.is_unit_list (map E.number units.now)))
        × E.first_fault (map E.number units.now) error)) }
    ensures rejected { ¬ (E.is_unit_list (map E.number units.now))
        → (error : EncodingError) → E.first_fault (map E.number units.now) error
        → result ≡ Err (Fault.Refused error) }
{
    laws::faults::<E>();
    E::check_units(units)?;
    Ok(E::encode(alloc, units)?)
}
