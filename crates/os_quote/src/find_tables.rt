//! Tables that find suspects: bytes that may begin a character that is written as a token on one
//! line.
ghost use Rattle.std.specs.Prelude.{◌≡◌};
ghost use Rattle.os_quote.specs.Hidden.{byte_bits, third_bits, is_suspect};

use wtf8_core::four_copies;

// Each bit means some kinds of characters. Three bytes may begin one of these if each of them has
// the bit; a byte has the bits that both tables of its halves have, and the third byte those of either
// pair. The bits are dealt so that few other characters pass for suspects: none of Greek, Hebrew,
// Devanagari, Thai, hiragana, katakana, the syllables of Hangul and most CJK ideographs; of Latin,
// Cyrillic and Arabic few past the basic ones, as `¢`, `Ȁ`, `ҁ` and the comma; and all full-width
// forms, and all characters past U+FFFF, as emoji.

/// By the high half of the first byte.
pub(crate) const FIRST_HIGH: [u8; 64] = four_copies!(
    1, 1, 0, 0, 0, 2, 0, 4, 0, 0, 0, 0, 48, 34, 220, 1
);

/// By its low half.
pub(crate) const FIRST_LOW: [u8; 64] = four_copies!(
    17, 73, 113, 9, 1, 1, 1, 1, 33, 1, 1, 33, 3, 33, 129, 5
);

/// By the high half of the second byte.
pub(crate) const SECOND_HIGH: [u8; 64] = four_copies!(
    7, 7, 7, 7, 7, 7, 7, 7, 239, 175, 215, 135, 7, 7, 7, 7
);

/// By its low half.
pub(crate) const SECOND_LOW: [u8; 64] = four_copies!(
    255, 231, 183, 183, 167, 239, 167, 167, 167, 167, 175, 167, 167, 183, 175, 167
);

/// By the high half of the third byte.
pub(crate) const THIRD_HIGH: [u8; 64] = four_copies!(
    55, 55, 55, 55, 55, 55, 55, 55, 191, 247, 183, 183, 55, 55, 55, 55
);

/// By its low half.
pub(crate) const THIRD_LOW: [u8; 64] = four_copies!(
    191, 183, 183, 183, 183, 183, 183, 183, 183, 183, 183, 183, 183, 183, 183, 247
);

/// By the high half of the third byte, in a second table for kinds that need two boxes.
pub(crate) const OTHER_HIGH: [u8; 64] = four_copies!(
    0, 0, 0, 0, 0, 0, 0, 0, 64, 0, 72, 8, 0, 0, 0, 0
);

/// By its low half.
pub(crate) const OTHER_LOW: [u8; 64] = four_copies!(
    64, 64, 64, 64, 72, 72, 64, 64, 64, 64, 64, 64, 64, 64, 64, 64
);

/// Whether a byte followed by two others may begin such a character.
#[inline(always)]
pub(crate) fn is_suspect(first: u8, second: u8, third: u8) -> bool
    ensures { result ≡ is_suspect first second third }
{
    let leads = bits(FIRST_HIGH, FIRST_LOW, first);
    if leads == 0 {
        return false;
    }
    let pairs = leads & bits(SECOND_HIGH, SECOND_LOW, second);
    pairs & third_bits(third) != 0
}

/// The kinds of characters that may have a byte third.
fn third_bits(byte: u8) -> u8
    ensures { result ≡ third_bits byte }
{
    bits(THIRD_HIGH, THIRD_LOW, byte) | bits(OTHER_HIGH, OTHER_LOW, byte)
}

/// The bits of a byte by tables of its halves.
fn bits(high: [u8; 64], low: [u8; 64], byte: u8) -> u8
    ensures { result ≡ byte_bits high low byte }
{
    high[usize::from(byte / 16)] & low[usize::from(byte & 15)]
}
