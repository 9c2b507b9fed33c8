//! The texts of tokens.
ghost use Rattle.std.specs.Prelude.{◌≡◌, ◌/◌, ◌%◌, ◌<◌, ◌≤◌, List, ℕ, take};
ghost use Rattle.std.specs.Str.{IsUtf8};
ghost use Rattle.wtf8_core.specs.FaultText.{upper_hex_digit};
ghost use Rattle.os_quote.specs.Item.{Backslash, ByteUnit, WideUnit, LongCharacter, item_text};

use std::marker::Model;
use wtf8_core::upper_hex_digit;

/// The text of a token, which has at most ten bytes.
#[derive(Drop)]
pub(crate) struct TokenText {
    bytes: [u8; 10],
    len: usize,
}

impl Model for TokenText {
    ghost Value = { List ℕ };

    ghost view = { λ token. take token.len token.bytes };

    ghost invariant = { λ token. (token.len ≤ 10) × IsUtf8 (take token.len token.bytes) };
}

impl TokenText {
    /// The text.
    #[inline(always)]
    pub(crate) fn as_str(&self) -> &str
        ensures { result.now ≡ self.now }
    {
        unsafe { str::from_utf8_unchecked(&self.bytes[..self.len]) }
    }

    /// `\\`.
    #[tactic(auto, using(crate::proofs::lemmas::Readings::item_is_text))]
    #[inline(always)]
    pub(crate) fn of_backslash() -> TokenText
        ensures { result ≡ item_text Backslash }
    {
        let bytes = [b'\\', b'\\', 0, 0, 0, 0, 0, 0, 0, 0];
        TokenText { bytes, len: 2 }
    }

    /// `\xHH`.
    #[inline(always)]
    pub(crate) fn of_byte(byte: u8) -> TokenText
        ensures { result ≡ item_text (ByteUnit byte) }
    {
        let (a, b) = digits(byte);
        let bytes = [b'\\', b'x', a, b, 0, 0, 0, 0, 0, 0];
        TokenText { bytes, len: 4 }
    }

    /// `\uHHHH`.
    #[inline(always)]
    pub(crate) fn of_wide(number: u16) -> TokenText
        ensures { result ≡ item_text (WideUnit number) }
    {
        let (a, b) = digits((number / 0x100) as u8);
        let (c, d) = digits((number % 0x100) as u8);
        let bytes = [b'\\', b'u', a, b, c, d, 0, 0, 0, 0];
        TokenText { bytes, len: 6 }
    }

    /// `\u{H..}` of five or six digits.
    pub(crate) fn of_long(number: u32) -> TokenText
        requires past { 0x1_0000 ≤ number }
        requires below { number < 0x11_0000 }
        ensures { result ≡ item_text (LongCharacter number) }
    {
        let low = number % 0x1_0000;
        let (a, b) = digits((low / 0x100) as u8);
        let (c, d) = digits((low % 0x100) as u8);
        if number >= 0x10_0000 {
            let bytes = [b'\\', b'u', b'{', b'1', b'0', a, b, c, d, b'}'];
            return TokenText { bytes, len: 10 };
        }
        let (zero, first) = digits((number / 0x1_0000) as u8);
        let bytes = [b'\\', b'u', b'{', first, a, b, c, d, b'}', zero];
        TokenText { bytes, len: 9 }
    }
}

/// The two digits of a byte, from `0` to `9` or from `A` to `F`.
#[inline(always)]
fn digits(byte: u8) -> (u8, u8)
    ensures first { result.0 ≡ upper_hex_digit (byte / 16) }
    ensures second { result.1 ≡ upper_hex_digit (byte % 16) }
{
    let (high, low) = (byte / 16, byte % 16);
    (upper_hex_digit(high) as u8, upper_hex_digit(low) as u8)
}
