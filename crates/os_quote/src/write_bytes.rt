//! Collects short texts before they are written: those of ASCII characters and of units of one
//! byte. Where all is shown, it also collects characters of several bytes among them.
ghost use Rattle.std.specs.Prelude.{◌≡◌, ◌++◌, ◌+◌, ◌/◌, ◌≤◌, ℕ, List, IfSome, MatchOption, length, take};
ghost use Rattle.std.specs.{Int.w64, Int.to_le_bytes, Str.IsUtf8, Char.IsScalar, Char.encode_utf8};
ghost use Rattle.os_quote.specs.{Item.item_text, Shown.shown_by, Escaped.escape_of, Start.BeginsWith, Start.IsPut, Start.byte_item, declared.form.Form.Form};

use crate::find_start::are_apart;
use crate::form::Form;
use os_str_bytes::Platform;
use wtf8_core::first_character::first_char;

/// The number of bytes in which texts are collected before they are written together.
pub(crate) const TEXTS: usize = 104;

/// The number of characters in a row that are shown as they are before a search for the next token.
pub(crate) const SHOWN: usize = 8;

/// The words of bytes, 16 for each line. A line has the word of its first byte, and the amount by
/// which a word grows with the byte. Then come the number of extra steps from `9` to `A`, where the
/// byte's last digit is written, and the amounts that are added to the words of two bytes. A word
/// has the text of a byte from the lowest bits on, and the text's length in the highest bits.
macro_rules! words {
    ($(($first:literal, $one:literal, $gap:literal, $at_c:literal, $at_f:literal),)*) => {
        [$(
            $first, $first + $one, $first + 2 * $one, $first + 3 * $one, $first + 4 * $one,
            $first + 5 * $one, $first + 6 * $one, $first + 7 * $one, $first + 8 * $one,
            $first + 9 * $one, $first + (10 + $gap) * $one, $first + (11 + $gap) * $one,
            $first + (12 + $gap) * $one + $at_c, $first + (13 + $gap) * $one,
            $first + (14 + $gap) * $one, $first + (15 + $gap) * $one + $at_f,
        )*]
    };
}

/// The words of all bytes where all is shown, and those of ASCII on a line.
static WORDS: [u64; 384] = words![
    (0x0100_0000_0000_0000, 1, 0, 0, 0),
    (0x0100_0000_0000_0010, 1, 0, 0, 0),
    (0x0100_0000_0000_0020, 1, 0, 0, 0),
    (0x0100_0000_0000_0030, 1, 0, 0, 0),
    (0x0100_0000_0000_0040, 1, 0, 0, 0),
    (0x0100_0000_0000_0050, 1, 0, 0x0100_0000_0000_5C00, 0),
    (0x0100_0000_0000_0060, 1, 0, 0, 0),
    (0x0100_0000_0000_0070, 1, 0, 0, 0),
    (0x0400_0000_3038_785C, 0x100_0000, 7, 0, 0),
    (0x0400_0000_3039_785C, 0x100_0000, 7, 0, 0),
    (0x0400_0000_3041_785C, 0x100_0000, 7, 0, 0),
    (0x0400_0000_3042_785C, 0x100_0000, 7, 0, 0),
    (0x0400_0000_3043_785C, 0x100_0000, 7, 0, 0),
    (0x0400_0000_3044_785C, 0x100_0000, 7, 0, 0),
    (0x0400_0000_3045_785C, 0x100_0000, 7, 0, 0),
    (0x0400_0000_3046_785C, 0x100_0000, 7, 0, 0),
    (0x0600_3030_3030_755C, 0x100_0000_0000, 7, 0, 0),
    (0x0600_3031_3030_755C, 0x100_0000_0000, 7, 0, 0),
    (0x0100_0000_0000_0020, 1, 0, 0, 0),
    (0x0100_0000_0000_0030, 1, 0, 0, 0),
    (0x0100_0000_0000_0040, 1, 0, 0, 0),
    (0x0100_0000_0000_0050, 1, 0, 0x0100_0000_0000_5C00, 0),
    (0x0100_0000_0000_0060, 1, 0, 0, 0),
    (0x0100_0000_0000_0070, 1, 0, 0, 0x0500_4637_3030_74DD),
];

/// The byte at the start and the bytes after it, if its text is to be taken from a table. Where all
/// is shown, the whole text is searched for backslashes instead.
#[inline(always)]
pub(crate) fn split_first_byte<E: Platform>(form: Form, bytes: &[u8]) -> Option<(u8, &[u8])>
    requires { E.well_formed bytes.now }
    ensures { IfSome result (λ start. BeginsWith (shown_by form) E.well_formed E.units bytes.now
        (item_text (byte_item (shown_by form) start.0)) start.1.now) }
{
    match form {
        Form::Text if *bytes.first()? < 0x80 => None,
        _ => split_byte::<E>(bytes),
    }
}

/// The byte at the start and the bytes after it, if the byte is written alone: an ASCII character,
/// or a unit of one byte.
#[inline(always)]
fn split_byte<E: Platform>(bytes: &[u8]) -> Option<(u8, &[u8])>
    requires { E.well_formed bytes.now }
    ensures { IfSome result (λ start. (f : Form) → BeginsWith (shown_by f) E.well_formed E.units
        bytes.now (item_text (byte_item (shown_by f) start.0)) start.1.now) }
{
    let (first, _) = bytes.split_first()?;
    let is_ascii = *first < 0x80;
    if !(is_ascii | are_apart(bytes)) && first_char(bytes).is_some() {
        return None;
    }
    let (unit, size) = if is_ascii {
        (u16::from(*first), 1)
    } else {
        E::first_unit(bytes)
    };
    // no unit is below 80 (hexadecimal)
    if unit >= 0x100 || (unit < 0x80) != is_ascii {
        return None;
    }
    Some((unit as u8, bytes.split_at(size).1))
}

/// Writes the text of the first byte from an index on or, where all is shown, the first character.
/// Returns the index after it and the remaining bytes; `None` if the bytes begin otherwise.
#[inline(always)]
pub(crate) fn put_next<'a, E: Platform>(
    form: Form,
    texts: &mut [u8; TEXTS],
    at: usize,
    bytes: &'a [u8],
) -> Option<(usize, &'a [u8])>
    requires formed { E.well_formed bytes.now }
    requires room { at + 8 ≤ 104 }
    ensures { MatchOption result (texts.new ≡ texts.old)
        (λ put. (text : List ℕ) × IsPut texts.old texts.new at text put.0
        × BeginsWith (shown_by form) E.well_formed E.units bytes.now text put.1.now) }
{
    if let Some((byte, rest)) = split_byte::<E>(bytes) {
        return Some((put_text(form, texts, at, byte), rest));
    }
    match form {
        Form::Text => put_character(texts, at, bytes),
        Form::Line => None,
    }
}

/// Writes the character at the start from an index on, if it has several bytes and four are left. It
/// also overwrites up to two bytes after it.
#[inline(always)]
fn put_character<'a>(
    texts: &mut [u8; TEXTS],
    at: usize,
    bytes: &'a [u8],
) -> Option<(usize, &'a [u8])>
    requires { at + 8 ≤ 104 }
    ensures { MatchOption result (texts.new ≡ texts.old)
        (λ put. (c : ℕ) × IsScalar c × (0x80 ≤ c) × (bytes.now ≡ encode_utf8 c ++ put.1.now)
        × IsPut texts.old texts.new at (encode_utf8 c) put.0) }
{
    let four = bytes.first_chunk::<4>()?;
    let (character, len) = first_char(bytes)?;
    if (character as u32) < 0x80 {
        return None;
    }
    texts[at..at + 4].copy_from_slice(four);
    Some((at + len, bytes.split_at(len).1))
}

/// Writes the text of a byte from an index on, and returns the index after it. It also overwrites up to
/// seven bytes after it.
#[inline(always)]
pub(crate) fn put_text(form: Form, texts: &mut [u8; TEXTS], at: usize, byte: u8) -> usize
    requires { at + 8 ≤ 104 }
    ensures { IsPut texts.old texts.new at (item_text (byte_item (shown_by form) byte)) result }
{
    let word = word_of(form, byte);
    texts[at..at + 8].copy_from_slice(&word.to_le_bytes());
    at + (word / 0x0100_0000_0000_0000) as usize
}

/// The word of a byte.
#[inline(always)]
fn word_of(form: Form, byte: u8) -> u64
    ensures few { result / 0x0100_0000_0000_0000 ≤ 8 }
    ensures text { take (result / 0x0100_0000_0000_0000) (to_le_bytes w64 result)
        ≡ item_text (byte_item (shown_by form) byte) }
    ensures utf8 { IsUtf8 (item_text (byte_item (shown_by form) byte)) }
{
    let past = match form {
        Form::Text => 0,
        Form::Line => usize::from(byte < 0x80) * 0x100,
    };
    WORDS[usize::from(byte) + past]
}
