//! Surrogates, as code points and as units, and their pairs.
ghost use Rattle.std.specs.Prelude.{◌≡◌, ◌≤◌, true, MatchOption};
ghost use Rattle.wtf8_core.specs.{FirstPair.BeginsPair, FirstPair.BeginsNoPair, CodePoint.IsCodePoint};
ghost use Rattle.wtf8_core.specs.Surrogate.{is_high, is_low, is_pair, high_unit, low_unit, paired};

/// Whether a code point or a unit is a high surrogate.
#[inline(always)]
pub(crate) fn is_high(code_point: u32) -> bool
    ensures { result ≡ is_high code_point }
{
    matches!(code_point, 0xD800..=0xDBFF)
}

/// Whether a code point or a unit is a low surrogate.
#[inline(always)]
pub(crate) fn is_low(code_point: u32) -> bool
    ensures { result ≡ is_low code_point }
{
    matches!(code_point, 0xDC00..=0xDFFF)
}

/// Whether two units are a pair: a high surrogate and then a low one (RFC 2781, section 2.2; this
/// project's own call).
///
/// ```
/// assert!(rt; wtf8_core::is_pair(0xD83D, 0xDE00) && !wtf8_core::is_pair(0xDE00, 0xD83D));
/// ```
#[inline(always)]
pub fn is_pair(high: u16, low: u16) -> bool
    ensures { result ≡ is_pair high low }
{
    is_high(u32::from(high)) && is_low(u32::from(low))
}

/// The units of a code point past FFFF (hexadecimal), the high surrogate and the low one (RFC 2781,
/// section 2.1; this project's own call).
///
/// They are the two units of `char::encode_utf16`.
///
/// ```
/// assert_eq!(rt; wtf8_core::pair_units(0x1F600), (0xD83D, 0xDE00));
/// ```
#[inline(always)]
pub fn pair_units(code_point: u32) -> (u16, u16)
    requires past { 0x1_0000 ≤ code_point }
    requires code_point { IsCodePoint code_point }
    ensures high { result.0 ≡ high_unit code_point }
    ensures low { result.1 ≡ low_unit code_point }
{
    let offset = code_point - 0x1_0000;
    let high = 0xD800 + offset / 0x400;
    let low = 0xDC00 + offset % 0x400;
    (high as u16, low as u16)
}

/// The code point of a pair (RFC 2781, section 2.2).
#[inline(always)]
pub(crate) fn paired(high: u16, low: u16) -> u32
    requires { is_pair high low ≡ true }
    ensures value { result ≡ paired high low }
    ensures code_point { IsCodePoint result }
{
    0x1_0000 + u32::from(high - 0xD800) * 0x400 + u32::from(low - 0xDC00)
}

/// The code point of the pair with which the units begin, and the units after the pair; `None` if
/// they don't begin with a pair (RFC 2781, section 2.2; this project's own call).
///
/// ```
/// let first = wtf8_core::first_pair(&[0xD83D, 0xDE00, 0x41]);
/// assert!(rt; matches!(first, Some((0x1F600, [0x41]))));
/// assert!(rt; wtf8_core::first_pair(&[0xDE00, 0xD83D]).is_none());
/// ```
#[tactic(auto, using(std::proofs::lemmas::Bool::Decides::nat_tests))]
#[inline(always)]
pub fn first_pair(units: &[u16]) -> Option<(u32, &[u16])>
    ensures { MatchOption result (BeginsNoPair units.now)
        (λ first. BeginsPair units.now first.0 first.1.now) }
{
    let [high, low, rest @ ..] = units else {
        return None;
    };
    if !is_pair(*high, *low) {
        return None;
    }
    Some((paired(*high, *low), rest))
}
