//! The platforms that commands name.
ghost use Rattle.std.specs.Prelude.{◌≡◌, ◌++◌, ℕ, All, map, IfSome, IfNone, IfOk, MatchResult};
ghost use Rattle.program_frame.specs.declared.os.Os.{Os};
ghost use Rattle.osbytes_commands.specs.Lines.{IsUnit, unit_line, unit_lines, BeginsWithUnitLine};

use crate::lines::{byte_lines, leading_byte, leading_wide, wide_lines};
use os_str_bytes::{EncodingError, OsStr, OsString, Platform, Unix, Wasm, Windows, laws};
use std::alloc::{AllocError, Allocator};

/// A platform that a command can name, with what commands require of it besides [`Platform`].
pub trait Target: Platform {
    /// A unit: a byte, on Windows a number of 16 bits.
    type Unit: Copy;

    // the platform's name
    ghost os: { Os };

    // the number that a unit is
    ghost number: { Self.Unit → ℕ };

    /// A line for each unit of a string (test: [`Platform::check`]).
    fn lines<A: Allocator>(alloc: A, string: &[u8]) -> Result<Vec<u8, A>, AllocError>
        requires { Self.well_formed string.now }
        ensures { IfOk result (λ output. output.items ≡ unit_lines os (Self.units string.now)) };

    /// The unit whose line comes first, and the bytes after that line. It takes no
    /// memory.
    fn leading_unit(bytes: &[u8]) -> Option<(Self::Unit, &[u8])>
        ensures some { IfSome result (λ prefix. bytes.now ≡ unit_line os (number prefix.0)
            ++ prefix.1.now) }
        ensures unit { IfSome result (λ prefix. IsUnit os (number prefix.0)) }
        ensures none { IfNone result (¬ (BeginsWithUnitLine os bytes.now)) };

    /// `Ok` exactly for the units of a string, else the first fault of the bytes that they would
    /// be. It takes no memory.
    fn check_units(units: &[Self::Unit]) -> Result<(), EncodingError>
        requires { All (IsUnit os) (map number units.now) }
        ensures { MatchResult result (λ _. Self.is_unit_list (map number units.now))
            (λ error. (¬ (Self.is_unit_list (map number units.now)))
            × Self.first_fault (map number units.now) error) };

    /// The bytes of the string that has these units (test: [`Target::check_units`]).
    fn encode<A: Allocator>(alloc: A, units: &[Self::Unit]) -> Result<Vec<u8, A>, AllocError>
        requires { Self.is_unit_list (map number units.now) }
        ensures { IfOk result (λ bytes. Self.well_formed bytes.items
            × (Self.units bytes.items ≡ map number units.now)) };
}

impl Target for Unix {
    type Unit = u8;

    ghost os = { Os.Unix };

    ghost number = { λ unit. unit };

    fn lines<A: Allocator>(alloc: A, string: &[u8]) -> Result<Vec<u8, A>, AllocError> {
        byte_lines(alloc, string)
    }

    fn leading_unit(bytes: &[u8]) -> Option<(u8, &[u8])> {
        leading_byte(bytes)
    }

    fn check_units(units: &[u8]) -> Result<(), EncodingError> {
        check_bytes::<Unix>(units)
    }

    fn encode<A: Allocator>(alloc: A, units: &[u8]) -> Result<Vec<u8, A>, AllocError> {
        units.to_vec(alloc)
    }
}

impl Target for Windows {
    type Unit = u16;

    ghost os = { Os.Windows };

    ghost number = { λ unit. unit };

    fn lines<A: Allocator>(alloc: A, string: &[u8]) -> Result<Vec<u8, A>, AllocError> {
        wide_lines(
            alloc,
            OsStr::<Windows>::from_encoded_bytes_unchecked(string),
        )
    }

    fn leading_unit(bytes: &[u8]) -> Option<(u16, &[u8])> {
        leading_wide(bytes)
    }

    fn check_units(_units: &[u16]) -> Result<(), EncodingError> {
        Ok(())
    }

    fn encode<A: Allocator>(alloc: A, units: &[u16]) -> Result<Vec<u8, A>, AllocError> {
        Ok(OsString::from_wide(alloc, units)?.into_encoded_bytes())
    }
}

// A unit of wasm is a byte, as on Unix. Both impls are written out, since a macro can't write ghost
// members.
impl Target for Wasm {
    type Unit = u8;

    ghost os = { Os.Wasm };

    ghost number = { λ unit. unit };

    fn lines<A: Allocator>(alloc: A, string: &[u8]) -> Result<Vec<u8, A>, AllocError> {
        byte_lines(alloc, string)
    }

    fn leading_unit(bytes: &[u8]) -> Option<(u8, &[u8])> {
        leading_byte(bytes)
    }

    fn check_units(units: &[u8]) -> Result<(), EncodingError> {
        check_bytes::<Wasm>(units)
    }

    fn encode<A: Allocator>(alloc: A, units: &[u8]) -> Result<Vec<u8, A>, AllocError> {
        units.to_vec(alloc)
    }
}

/// `Ok` exactly for the bytes of a string, else their first fault.
fn check_bytes<E: Platform>(bytes: &[u8]) -> Result<(), EncodingError>
    ensures { MatchResult result (λ _. E.well_formed bytes.now)
        (λ error. (¬ (E.well_formed bytes.now)) × E.first_fault bytes.now error) }
{
    laws::faults::<E>();
    E::check(bytes)
}
