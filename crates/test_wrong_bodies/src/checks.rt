//! Checks of bytes.
ghost use Rattle.std.specs.Prelude.{◌≡◌, ◌++◌, ◌↔◌, IfOk, IsOk, MatchResult};
ghost use Rattle.platform_str.specs.Strings.{bytes};
ghost use Rattle.wtf8_core.specs.declared.fault.EncodingError.{EncodingError};
ghost use Rattle.wtf8_core.specs.Checker.{HasFirstFault};
ghost use Rattle.wtf8_core.specs.Wtf8.{IsWtf8};

use platform_str::{EncodingError, OsStr, OsString, OsStringBytes, Platform, Windows};
use std::alloc::{AllocError, Allocator};
use wtf8_core::{Checker, laws};

/// The check of bytes that come in two pieces.
#[tactic(auto, using(crate::proofs::FirstPiece::is_of_both))]
pub fn check_in_two(first: &[u8], second: &[u8]) -> Result<(), EncodingError>
    ensures { MatchResult result (λ _. IsWtf8 (first.now ++ second.now))
        (λ fault. HasFirstFault (first.now ++ second.now) fault) }
{
    laws::fault_stays();
    let mut checker = Checker::new();
    checker.feed(first)?;
    checker.feed(second)?;
    checker.finish()
}

/// The check of a Windows string.
pub fn check_windows(raw: &[u8]) -> Result<(), EncodingError>
    ensures { MatchResult result (λ _. ⟦<Windows as Platform>⟧.well_formed raw.now)
        (λ fault. ⟦<Windows as Platform>⟧.first_fault raw.now fault) }
{
    Windows::check(raw)
}

/// Bytes as a Windows string.
pub fn from_raw_bytes(raw: &[u8]) -> Result<OsStr<'_, Windows>, EncodingError>
    ensures { IfOk result (λ string. bytes string ≡ raw.now) }
{
    OsStr::checked(raw)
}

/// A vector as a string, without memory.
pub fn from_raw_vec<E: Platform, A: Allocator>(
    raw: Vec<u8, A>,
) -> Result<OsString<E, A>, EncodingError>
    ensures { E.well_formed raw.items → IsOk result }
{
    platform_str::laws::faults::<E>();
    OsString::from_raw_vec(raw)
}

/// The bytes of a string in new memory, or their first fault, which allocates nothing. The
/// program's commands read their input in this way.
pub fn copied<E: Platform, A: Allocator>(
    alloc: A,
    raw: &[u8],
) -> Result<Result<Vec<u8, A>, AllocError>, EncodingError>
    ensures { (fault : EncodingError) → E.first_fault raw.now fault → result ≡ Err fault }
{
    platform_str::laws::faults::<E>();
    E::check(raw)?;
    Ok(Vec::from_slice(alloc, raw))
}
