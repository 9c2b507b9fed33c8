//! Prefixes, suffixes and joins of WTF-8 by units, where half of a surrogate pair counts.
#![tactic(auto, using(std::proofs::lemmas::Bool::Decides::nat_tests))]

ghost use Rattle.std.specs.Prelude.{◌≡◌, ◌∷◌, ◌++◌, ◌≤◌, ◌↔◌, ℕ, List, [], IsTrue, MatchOption};
ghost use Rattle.wtf8_core.specs.Surrogate.{IsHigh, IsLow, IsSurrogate};
ghost use Rattle.wtf8_core.specs.{CodePoint.encode, Wtf8.IsWtf8, UnitsOf.units_of, Join.IsPairBetween, Occurrence.IsPrefix, Occurrence.IsSuffix};

use crate::byte::is_continuation;
use crate::encoder::encode_wide;
use crate::surrogate::{is_high, is_low, paired};

/// Whether the units of `string` start with those of `prefix`. Both have to be WTF-8 (test:
/// [`CodePoints`](crate::CodePoints) gives no fault). It doesn't allocate.
///
/// Half of a pair counts: the string of the units D83D, DE00 (hexadecimal; the bytes F0 9F 98 80)
/// starts with that of D83D (ED A0 BD), although its bytes don't. It is the test of std's
/// `str::starts_with`, on units (RFC 2781) instead of characters.
///
/// ```
/// use os_str_bytes::starts_with;
///
/// // The units D83D and DE00, and D83D alone.
/// assert!(rt; starts_with(b"\xF0\x9F\x98\x80", b"\xED\xA0\xBD"));
/// ```
pub fn starts_with(string: &[u8], prefix: &[u8]) -> bool
    requires string { IsWtf8 string.now }
    requires prefix { IsWtf8 prefix.now }
    ensures { IsTrue result ↔ IsPrefix (units_of prefix.now) (units_of string.now) }
{
    let Some((before, high)) = split_last_high(prefix) else {
        return string.starts_with(prefix);
    };
    let Some(rest) = string.strip_prefix(before) else {
        return false;
    };
    begins_with_unit(rest, high)
}

/// Whether the units of `string` end with those of `suffix`. Both have to be WTF-8 (test:
/// [`CodePoints`](crate::CodePoints) gives no fault). It doesn't allocate.
///
/// Half of a pair counts: the string of the units D83D, DE00 (hexadecimal; the bytes F0 9F 98 80)
/// ends with that of DE00 (ED B8 80), although its bytes don't. It is the test of std's
/// `str::ends_with`, on units (RFC 2781) instead of characters.
///
/// ```
/// use os_str_bytes::ends_with;
///
/// // The units D83D and DE00, and DE00 alone.
/// assert!(rt; ends_with(b"\xF0\x9F\x98\x80", b"\xED\xB8\x80"));
/// ```
pub fn ends_with(string: &[u8], suffix: &[u8]) -> bool
    requires string { IsWtf8 string.now }
    requires suffix { IsWtf8 suffix.now }
    ensures { IsTrue result ↔ IsSuffix (units_of suffix.now) (units_of string.now) }
{
    let Some((low, after)) = split_first_low(suffix) else {
        return string.ends_with(suffix);
    };
    let Some(rest) = string.strip_suffix(after) else {
        return false;
    };
    ends_with_low(rest, low)
}

/// The code point of the surrogate pair that arises if `more` is appended to `string`; `None`
/// unless `string` ends with a high surrogate and `more` begins with a low one (this project's own
/// call; WTF-8: concatenation). Both may be any bytes. It doesn't allocate.
///
/// ```
/// use os_str_bytes::pair_between;
///
/// assert_eq!(rt; pair_between(b"a\xED\xA0\xBD", b"\xED\xB8\x80"), Some(0x1F600));
/// assert_eq!(rt; pair_between(b"a", b"\xED\xB8\x80"), None);
/// ```
pub fn pair_between(string: &[u8], more: &[u8]) -> Option<u32>
    ensures { MatchOption result ((c : ℕ) → ¬ (IsPairBetween string.now more.now c))
        (λ c. IsPairBetween string.now more.now c) }
{
    // with `?` a push takes 9.4 ns for 8.7 where both end in halves
    let Some((low, _)) = split_first_low(more) else {
        return None;
    };
    let Some((_, high)) = split_last_high(string) else {
        return None;
    };
    Some(paired(high, low))
}

/// The surrogate whose form is these three bytes.
#[tactic(auto, using(std::proofs::lemmas::Bool::Decides::nat_tests), unfolding(crate::specs::CodePoint::encode))]
fn surrogate(bytes: &[u8; 3]) -> Option<u16>
    ensures { MatchOption result ((c : ℕ) → IsSurrogate c → bytes.now ≡ encode c → ⊥)
        (λ c. IsSurrogate c × (bytes.now ≡ encode c)) }
{
    let [lead, second, third] = *bytes;
    if lead == 0xED && matches!(second, 0xA0..=0xBF) && is_continuation(third) {
        return Some(0xD000 + u16::from(second % 0x40) * 0x40 + u16::from(third % 0x40));
    }
    None
}

/// Splits off the surrogate with which the bytes end: the bytes before it, and the surrogate.
fn split_last_surrogate(string: &[u8]) -> Option<(&[u8], u16)>
    ensures { MatchOption result
        ((prefix : List ℕ) → (c : ℕ) → IsSurrogate c → string.now ≡ prefix ++ encode c → ⊥)
        (λ r. IsSurrogate r.1 × (string.now ≡ r.0.now ++ encode r.1)) }
{
    let (prefix, last) = string.split_last_chunk::<3>()?;
    Some((prefix, surrogate(last)?))
}

/// Splits off the high surrogate with which the bytes end: the bytes before it, and the surrogate.
fn split_last_high(string: &[u8]) -> Option<(&[u8], u16)>
    ensures { MatchOption result
        ((prefix : List ℕ) → (c : ℕ) → IsHigh c → string.now ≡ prefix ++ encode c → ⊥)
        (λ r. IsHigh r.1 × (string.now ≡ r.0.now ++ encode r.1)) }
{
    match split_last_surrogate(string) {
        Some((prefix, c)) if is_high(u32::from(c)) => Some((prefix, c)),
        _ => None,
    }
}

/// Splits off the low surrogate with which the bytes begin: the surrogate, and the bytes after it.
fn split_first_low(string: &[u8]) -> Option<(u16, &[u8])>
    ensures { MatchOption result
        ((c : ℕ) → (rest : List ℕ) → IsLow c → string.now ≡ encode c ++ rest → ⊥)
        (λ r. IsLow r.0 × (string.now ≡ encode r.0 ++ r.1.now)) }
{
    let (first, rest) = string.split_first_chunk::<3>()?;
    match surrogate(first) {
        Some(c) if is_low(u32::from(c)) => Some((c, rest)),
        _ => None,
    }
}

/// Whether this is the first unit of a string.
fn begins_with_unit(string: &[u8], unit: u16) -> bool
    requires { IsWtf8 string.now }
    ensures { IsTrue result ↔ IsPrefix (unit ∷ []) (units_of string.now) }
{
    match encode_wide(string).next() {
        None => false,
        Some(Err(_)) => false,
        Some(Ok(first)) => first == unit,
    }
}

/// The low surrogate of the pair with which a string ends.
#[tactic(auto, using(std::proofs::lemmas::Bool::Decides::nat_tests, crate::proofs::lemmas::units::FirstAndLast::no_past_form, crate::proofs::lemmas::units::FirstAndLast::half_of))]
fn last_half(string: &[u8]) -> Option<u16>
    requires { IsWtf8 string.now }
    ensures { MatchOption result
        ((prefix : List ℕ) → (c : ℕ) → 0x1_0000 ≤ c → string.now ≡ prefix ++ encode c → ⊥)
        (λ low. (us : List ℕ) × (units_of string.now ≡ us ++ low ∷ [])) }
{
    let (_, last) = string.split_last_chunk::<4>()?;
    let [lead, _, third, fourth] = *last;
    if lead < 0xF0 {
        return None;
    }
    Some(0xDC00 + u16::from(third % 0x10) * 0x40 + u16::from(fourth % 0x40))
}

/// Whether this low surrogate is the last unit of a string.
fn ends_with_low(string: &[u8], low: u16) -> bool
    requires string { IsWtf8 string.now }
    requires low { IsLow low }
    ensures { IsTrue result ↔ IsSuffix (low ∷ []) (units_of string.now) }
{
    if let Some((_, c)) = split_last_surrogate(string) {
        return c == low;
    }
    match last_half(string) {
        None => false,
        Some(half) => half == low,
    }
}
