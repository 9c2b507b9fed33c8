//! Tokens, and the backslashes that begin them.
ghost use Rattle.std.specs.Prelude.{◌≡◌, ◌≢◌, ◌<◌, [], ◌∷◌, ◌++◌, ℕ, List, MatchOption, ◌+◌, ◌*◌, ◌≤◌};
ghost use Rattle.wtf8_core.specs.FaultText.{upper_hex_digit};
ghost use Rattle.os_quote.specs.{Item.backslash, Item.byte_digits, Item.wide_digits, Item.item_text, Item.IsItem, Item.long_digits, Item.IsLong, Shown.shown_by, Shown.is_any, Escape.BeginsNoToken, Hidden.AreUnchanged, Hidden.IsCutAtToken, Reading.HasNoBackslash, Reading.IsCutAtFirst, Reading.HasNoNumber, Reading.token_item, Reading.HasNoLong, Reading.HasNoFive, Reading.HasNoClosed, Reading.IsClosed, Reading.IsFive, Stripping.StartsNot};

use crate::form::Form;
use memchr::memchr;

/// A token, which a backslash begins.
#[derive(Clone, Copy)]
pub(crate) enum Token {
    /// `\\`, a backslash.
    Backslash,
    /// `\xHH`, a unit of two digits.
    Byte(u8),
    /// `\uHHHH`, a unit or a character of four digits.
    Wide(u16),
    /// `\u{H..}`, a character of five or six digits.
    Long(char),
}

/// Splits a text around its first backslash, into what comes before it and what comes after it.
pub(crate) fn split_backslash(text: &str) -> Option<(&str, &str)>
    ensures { MatchOption result (AreUnchanged is_any text.now)
        (λ parts. IsCutAtToken is_any text.now parts.0.now backslash parts.1.now) }
{
    let (prefix, following) = cut_backslash(text.as_bytes())?;
    let prefix = unsafe { str::from_utf8_unchecked(prefix) };
    Some((prefix, unsafe { str::from_utf8_unchecked(following) }))
}

/// Splits bytes, which may be invalid UTF-8, around their first backslash. Where one token directly
/// follows another, it doesn't start a search.
pub(crate) fn cut_backslash(bytes: &[u8]) -> Option<(&[u8], &[u8])>
    ensures { MatchOption result (HasNoBackslash bytes.now)
        (λ parts. IsCutAtFirst bytes.now parts.0.now parts.1.now) }
{
    if let Some((first, following)) = bytes.split_first() {
        if *first == b'\\' {
            return Some((&bytes[..0], following));
        }
    }
    let at = memchr(b'\\', bytes)?;
    Some((&bytes[..at], &bytes[at + 1..]))
}

/// The token of a form that a backslash begins, and what comes after the token; `following` is what
/// comes after the backslash.
#[tactic(auto, using(crate::proofs::lemmas::Tokens::tokens))]
pub(crate) fn first_token(form: Form, following: &[u8]) -> Option<(Token, &[u8])>
    ensures { MatchOption result (BeginsNoToken (shown_by form) (backslash ∷ following.now))
        (λ read. IsItem (shown_by form) (token_item read.0)
        × (backslash ∷ following.now ≡ item_text (token_item read.0) ++ read.1.now)) }
{
    let (kind, digits) = following.split_first()?;
    match *kind {
        b'\\' => Some((Token::Backslash, digits)),
        b'x' => {
            let (unit, rest) = two_digits(digits)?;
            Some((Token::Byte(unit), rest))
        }
        b'u' => {
            let (token, rest) = number_token(form, digits)?;
            Some((token, rest))
        }
        _ => None,
    }
}

/// The token of a form that `\u` begins, and what comes after the token; `digits` is what comes
/// after `\u`.
#[tactic(auto, using(crate::proofs::lemmas::Tokens::numbers))]
fn number_token(form: Form, digits: &[u8]) -> Option<(Token, &[u8])>
    ensures { MatchOption result (HasNoNumber (shown_by form) digits.now)
        (λ read. IsItem (shown_by form) (token_item read.0)
        × (backslash ∷ 0x75 ∷ digits.now ≡ item_text (token_item read.0) ++ read.1.now)) }
{
    if let Some((unit, rest)) = four_digits(digits) {
        return Some((Token::Wide(unit), rest));
    }
    match form {
        Form::Text => None,
        Form::Line => {
            let (character, rest) = long_character(digits)?;
            Some((Token::Long(character), rest))
        }
    }
}

/// The number of the four digits at the start, and what comes after them.
#[tactic(auto, using(crate::proofs::lemmas::Tokens::no_wide))]
pub(crate) fn four_digits(bytes: &[u8]) -> Option<(u16, &[u8])>
    ensures { MatchOption result
        ((u : ℕ) → u < 0x1_0000 → (after : List ℕ) → bytes.now ≢ wide_digits u ++ after)
        (λ read. bytes.now ≡ wide_digits read.0 ++ read.1.now) }
{
    let (high, lower) = two_digits(bytes)?;
    let Some((low, rest)) = two_digits(lower) else {
        return None;
    };
    Some((u16::from(high) * 0x100 + u16::from(low), rest))
}

/// The byte of the two digits at the start, and what comes after them.
fn two_digits(bytes: &[u8]) -> Option<(u8, &[u8])>
    ensures { MatchOption result
        ((b : ℕ) → b < 0x100 → (after : List ℕ) → bytes.now ≢ byte_digits b ++ after)
        (λ read. bytes.now ≡ byte_digits read.0 ++ read.1.now) }
{
    let (first, following) = bytes.split_first()?;
    let (second, rest) = following.split_first()?;
    let high = digit(*first)?;
    let low = digit(*second)?;
    Some((high * 16 + low, rest))
}

/// The value of a digit from `0` to `9` or from `A` to `F`.
pub(crate) fn digit(byte: u8) -> Option<u8>
    ensures { MatchOption result ((d : ℕ) → d < 16 → upper_hex_digit d ≢ byte)
        (λ d. (d < 16) × (upper_hex_digit d ≡ byte)) }
{
    match byte {
        b'0'..=b'9' => Some(byte - b'0'),
        b'A'..=b'F' => Some(byte - b'A' + 10),
        _ => None,
    }
}

/// The character whose number is between braces at the start, in five or six digits without a
/// leading zero, and what comes after the braces.
pub(crate) fn long_character(bytes: &[u8]) -> Option<(char, &[u8])>
    ensures { MatchOption result (HasNoLong bytes.now)
        (λ read. IsLong read.0 × (bytes.now ≡ 0x7B ∷ (long_digits read.0 ++ 0x7D ∷ read.1.now))) }
{
    let digits = strip(bytes, b"{")?;
    if let Some((character, rest)) = six_digits(digits) {
        return Some((character, rest));
    }
    let (character, rest) = five_digits(digits)?;
    Some((character, rest))
}

/// The character whose number is six digits before a brace: `10` and four more.
#[tactic(auto, using(crate::proofs::lemmas::Items::tails))]
fn six_digits(digits: &[u8]) -> Option<(char, &[u8])>
    ensures { MatchOption result (HasNoClosed (0x31 ∷ 0x30 ∷ []) digits.now)
        (λ read. IsClosed (0x31 ∷ 0x30 ∷ []) 0x10 digits.now read.0 read.1.now) }
{
    let low = strip(digits, b"10")?;
    let (character, rest) = closed_character(0x10, low)?;
    Some((character, rest))
}

/// The character whose number is five digits before a brace. The first digit isn't `0`.
#[tactic(auto, using(crate::proofs::lemmas::LongTokens::five_tokens))]
fn five_digits(digits: &[u8]) -> Option<(char, &[u8])>
    ensures { MatchOption result (HasNoFive digits.now)
        (λ read. IsFive digits.now read.0 read.1.now) }
{
    let (first, low) = digits.split_first()?;
    let high = digit(*first)?;
    if high == 0 {
        return None;
    }
    let (character, rest) = closed_character(high, low)?;
    Some((character, rest))
}

/// The character whose number is these high digits and the next four, if a brace follows them.
#[tactic(auto, using(crate::proofs::lemmas::LongTokens::closed_tokens))]
fn closed_character(high: u8, low: &[u8]) -> Option<(char, &[u8])>
    requires some { 0 < high }
    requires within { high ≤ 0x10 }
    ensures { MatchOption result (HasNoClosed [] low.now)
        (λ read. IsClosed [] high low.now read.0 read.1.now) }
{
    let (number, closed) = four_digits(low)?;
    let rest = strip(closed, b"}")?;
    let character = char::from_u32(u32::from(high) * 0x1_0000 + u32::from(number))?;
    Some((character, rest))
}

/// What comes after a prefix.
#[inline(always)]
pub(crate) fn strip<'a>(bytes: &'a [u8], prefix: &[u8]) -> Option<&'a [u8]>
    ensures { MatchOption result (StartsNot prefix.now bytes.now)
        (λ rest. bytes.now ≡ prefix.now ++ rest.now) }
{
    bytes.strip_prefix(prefix)
}
