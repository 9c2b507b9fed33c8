//! Bytes as code points, and their faults.
ghost use Rattle.std.specs.Prelude.{◌≡◌, ◌↔◌, ◌⊎◌, ◌<◌, ◌≤◌, ◌++◌, ℕ, List, Err, Some, IfSome, IsTrue, MatchOption, length};
ghost use Rattle.std.specs.Str.{IsUtf8};
ghost use Rattle.wtf8_core.specs.Wtf8.{Encodes, IsWtf8, HasUnits};
ghost use Rattle.wtf8_core.specs.Fault.{IsFirstFault};
ghost use Rattle.wtf8_core.specs.Boundary.{IsBoundary};
ghost use Rattle.wtf8_core.specs.Character.{WholeCharacter};
ghost use Rattle.wtf8_core.specs.Occurrence.{OccursAt};
ghost use Rattle.wtf8_core.specs.UnitsOf.{units_of};
ghost use Rattle.wtf8_core.specs.Utf8.{IsUtf8Fault, part_end};

use platform_str::{EncodingError, Platform, Windows};
use wtf8_core::{
    CodePoints, char_at, ends_with, is_utf8, laws, starts_with, surrogate_fault, utf8_fault,
};

/// Whether bytes are WTF-8.
pub fn is_wtf8(raw: &[u8]) -> bool
    ensures { IsTrue result ↔ IsWtf8 raw.now }
{
    laws::encoded_or_faulty();
    match Windows::check(raw) {
        Ok(()) => true,
        Err(_) => false,
    }
}

/// Checks bytes with a known fault. The result is that fault.
pub fn check_says(
    raw: &[u8],
    code_points: &[u32],
    fault: EncodingError,
) -> Result<(), EncodingError>
    requires { IsFirstFault raw.now code_points.now fault }
    ensures { result ≡ Err fault }
{
    laws::encoded_or_faulty();
    laws::one_first_fault();
    Windows::check(raw)
}

/// Two lists of code points of the same bytes, which are equal.
pub fn encoded_once(raw: &[u8], code_points: &[u32], others: &[u32])
    requires first { Encodes raw.now code_points.now }
    requires second { Encodes raw.now others.now }
    ensures { code_points.now ≡ others.now }
{
    laws::encoded_once();
}

/// Two lists of code points before the first fault of the same bytes, which are equal.
pub fn fault_once(
    raw: &[u8],
    code_points: &[u32],
    others: &[u32],
    fault: EncodingError,
    other: EncodingError,
)
    requires first { IsFirstFault raw.now code_points.now fault }
    requires second { IsFirstFault raw.now others.now other }
    ensures { code_points.now ≡ others.now }
{
    laws::one_first_fault();
}

/// Makes two readers of the same bytes. They are equal.
pub fn read_twice(raw: &[u8]) -> (CodePoints<'_>, CodePoints<'_>)
    ensures { result.0 ≡ result.1 }
{
    laws::one_list_of_items();
    (CodePoints::new(raw), CodePoints::new(raw))
}

/// The fault of bytes that aren't UTF-8, with what is known of each character of theirs.
pub fn parted_by_fault(raw: &[u8]) -> Option<(usize, Option<u8>)>
    ensures { IfSome result (λ fault. (i : ℕ) → (j : ℕ) → WholeCharacter raw.now i j
        → (j ≤ fault.0) ⊎ (part_end raw.now fault.0 fault.1 ≤ i)) }
{
    laws::ill_formed_parts();
    utf8_fault(raw)
}

/// Returns the fault of bytes with a known fault, which is that one.
pub fn utf8_fault_says(
    raw: &[u8],
    valid_up_to: usize,
    error_len: Option<u8>,
) -> Option<(usize, Option<u8>)>
    requires { IsUtf8Fault raw.now valid_up_to error_len }
    ensures { result ≡ Some (valid_up_to, error_len) }
{
    laws::one_utf8_fault();
    utf8_fault(raw)
}

/// The text that bytes are, `None` where they aren't UTF-8.
pub fn text_of(raw: &[u8]) -> Option<&str>
    ensures { MatchOption result (¬ (IsUtf8 raw.now)) (λ text. text.now ≡ raw.now) }
{
    if is_utf8(raw) {
        Some(unsafe { str::from_utf8_unchecked(raw) })
    } else {
        None
    }
}

/// Returns the fault of WTF-8 with a known fault of UTF-8, which is that one.
pub fn surrogate_fault_says(
    raw: &[u8],
    valid_up_to: usize,
    error_len: Option<u8>,
) -> Option<(usize, Option<u8>)>
    requires formed { IsWtf8 raw.now }
    requires fault { IsUtf8Fault raw.now valid_up_to error_len }
    ensures { result ≡ Some (valid_up_to, error_len) }
{
    laws::one_utf8_fault();
    surrogate_fault(raw)
}

/// The fault of a platform's string: `None` just for UTF-8, and else the fault of UTF-8.
pub fn fault_of_string<E: Platform>(raw: &[u8]) -> Option<(usize, Option<u8>)>
    requires { E.well_formed raw.now }
    ensures { MatchOption result (IsUtf8 raw.now)
        (λ fault. IsUtf8Fault raw.now fault.0 fault.1) }
{
    E::utf8_fault(raw)
}

/// Whether a character ends before a later one begins: it always does.
pub fn ends_before(raw: &[u8], first: usize, second: usize) -> Option<bool>
    requires { first < second }
    ensures { IfSome result (λ before. IsTrue before) }
{
    laws::characters();
    let len = char_at(raw, first)?;
    char_at(raw, second)?;
    Some(first + len <= second)
}

/// Whether WTF-8 bytes start with what comes before a boundary of theirs and end with what
/// comes after it, by units: they always do.
pub fn around_boundary(raw: &[u8], at: usize) -> bool
    requires wtf8 { IsWtf8 raw.now }
    requires within { at ≤ length raw.now }
    requires cut { IsBoundary raw.now at }
    ensures { IsTrue result }
{
    laws::cuts();
    let (prefix, suffix) = raw.split_at(at);
    starts_with(raw, prefix) && ends_with(raw, suffix)
}

/// Any 16-bit units, which some bytes have.
pub fn wide_units(units: &[u16])
    ensures { (raw : List ℕ) × HasUnits raw units.now }
{
    laws::encoding();
}

/// Two lists of units of the same bytes, which are equal.
pub fn units_once(raw: &[u8], units: &[u16], others: &[u16])
    requires first { HasUnits raw.now units.now }
    requires second { HasUnits raw.now others.now }
    ensures { units.now ≡ others.now }
{
    laws::encoding();
}

/// A text whose units occur among those of WTF-8 bytes, and which occurs in the bytes too.
pub fn occurs_in_bytes(raw: &[u8], text: &str, before: &[u16], after: &[u16])
    requires wtf8 { IsWtf8 raw.now }
    requires some { 0 < length text.now }
    requires occurs { units_of raw.now ≡ before.now ++ (units_of text.now ++ after.now) }
    ensures { (i : ℕ) × OccursAt text.now raw.now i }
{
    laws::occurrence();
}
