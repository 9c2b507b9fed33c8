//! The character with which bytes begin, or the ill-formed part. No public contract names anything
//! in this module; crates above use [`first_char`].
ghost use Rattle.std.specs.Prelude.{◌≡◌, ◌∷◌, ◌%◌, ◌<◌, ◌≤◌, ℕ, List, IfSome, MatchOption, length};
ghost use Rattle.std.specs.{Int.is_in_range, Char.encode_utf8, Str.Lossy.second_byte_min, Str.Lossy.second_byte_max};
ghost use Rattle.wtf8_core.specs.{Byte.IsContinuation, Covered.StartsWithNoCharacter, Utf8.BeginsWith, Character.IsCharacterAt, Character.IsFirstChar};

use crate::byte::is_continuation;
use crate::code_points::first_item;

/// The least byte with which a form of two bytes or more begins.
const LEAST_LEAD: u8 = 0xC2;

/// Returns the character with which the bytes begin, and its length in bytes; `None` if they begin
/// with none.
#[inline(always)]
pub fn first_char(bytes: &[u8]) -> Option<(char, usize)>
    ensures { MatchOption result (StartsWithNoCharacter bytes.now)
        (λ first. IsFirstChar bytes.now first.0 first.1) }
{
    let [first, second, third, fourth, ..] = bytes else {
        return first_char_of_few(bytes);
    };
    char_of_four(*first, *second, *third, *fourth)
}

/// Returns the character with which the bytes begin and its length, as [`first_char`], but also for
/// fewer than four bytes.
#[inline(always)]
fn first_char_of_few(bytes: &[u8]) -> Option<(char, usize)>
    ensures { MatchOption result (StartsWithNoCharacter bytes.now)
        (λ first. IsFirstChar bytes.now first.0 first.1) }
{
    let (first, after) = bytes.split_first()?;
    if *first < 0x80 {
        return Some((char::from(*first), 1));
    }
    let character = read_first_char(*first, after)?;
    Some((character, character.len_utf8()))
}

/// The character with which `first` and the bytes after it begin, by the reader of code points.
#[cold]
#[inline(never)]
fn read_first_char(first: u8, after: &[u8]) -> Option<char>
    ensures { MatchOption result (StartsWithNoCharacter (first ∷ after.now))
        (λ c. IsFirstChar (first ∷ after.now) c (length (encode_utf8 c))) }
{
    match first_item(false, first, after) {
        Ok(code_point) => char::from_u32(code_point),
        Err(_) => None,
    }
}

/// The character with which these bytes begin, and its length.
///
/// Branches take most of the time. Each length takes one comparison, since bytes below the least
/// lead wrap around. Continuations are tested together, and the value of the code point shows
/// whether it has that length.
#[inline(always)]
fn char_of_four(first: u8, second: u8, third: u8, fourth: u8) -> Option<(char, usize)>
    ensures { (rest : List ℕ) → let bytes = first ∷ second ∷ third ∷ fourth ∷ rest in
        MatchOption result (StartsWithNoCharacter bytes)
        (λ char. IsFirstChar bytes char.0 char.1) }
{
    if first < 0x80 {
        return Some((char::from(first), 1));
    }
    let lead = first.wrapping_sub(LEAST_LEAD);
    if lead <= 0xDF - LEAST_LEAD {
        let low = low_bits(second);
        if low >= 0x40 {
            return None;
        }
        let two = unsafe { char::from_u32_unchecked(u32::from(first % 0x20) * 0x40 + low) };
        return Some((two, 2));
    }
    if lead <= 0xEF - LEAST_LEAD {
        let high = low_bits(second);
        let low = low_bits(third);
        if (high >= 0x40) | (low >= 0x40) {
            return None;
        }
        let code_point = u32::from(first % 0x10) * 0x1000 + high * 0x40 + low;
        if code_point < 0x800 {
            return None;
        }
        return Some((char::from_u32(code_point)?, 3));
    }
    if lead > 0xF4 - LEAST_LEAD {
        return None;
    }
    let high = low_bits(second);
    let middle = low_bits(third);
    let low = low_bits(fourth);
    if (high >= 0x40) | (middle >= 0x40) | (low >= 0x40) {
        return None;
    }
    let code_point = u32::from(first % 0x10) * 0x4_0000 + high * 0x1000 + middle * 0x40 + low;
    if code_point < 0x1_0000 {
        return None;
    }
    Some((char::from_u32(code_point)?, 4))
}

/// The six low bits of a continuation: those of a code point that it has. Of any other byte it is
/// 40 (hexadecimal) or more.
#[inline(always)]
fn low_bits(byte: u8) -> u32
    ensures bits { result < 0x40 → IsContinuation byte × (result ≡ byte % 0x40) }
    ensures none { 0x40 ≤ result → ¬ (IsContinuation byte) }
{
    u32::from(byte).wrapping_sub(0x80)
}

/// The length of the character with which the bytes begin; `None` if they begin with none.
#[inline(always)]
pub(crate) fn first_char_len(bytes: &[u8]) -> Option<usize>
    ensures { IsCharacterAt bytes.now 0 result }
{
    match len_or_fault(bytes) {
        Some(answer) => answer.ok(),
        None => Some(first_char_of_few(bytes)?.1),
    }
}

/// The length of the character at the start (`Ok`), or else of the maximal ill-formed part there
/// (`Err`), by the first four bytes; `None` if there are fewer.
///
/// A length doesn't need the code point, and is found faster by ranges of bytes.
#[tactic(auto, using(crate::proofs::lemmas::characters::Lengths::lengths))]
#[inline(always)]
pub(crate) fn len_or_fault(bytes: &[u8]) -> Option<Result<usize, u8>>
    ensures { IfSome result (BeginsWith bytes.now) }
{
    let [first, second, third, fourth, ..] = bytes else {
        return None;
    };
    if *first < 0x80 {
        return Some(Ok(1));
    }
    if !is_lead(*first) {
        return Some(Err(1));
    }
    if *first < 0xE0 {
        if !is_continuation(*second) {
            return Some(Err(1));
        }
        return Some(Ok(2));
    }
    if !is_second(*first, *second) {
        return Some(Err(1));
    }
    if !is_continuation(*third) {
        return Some(Err(2));
    }
    if *first < 0xF0 {
        return Some(Ok(3));
    }
    if !is_continuation(*fourth) {
        return Some(Err(3));
    }
    Some(Ok(4))
}

/// Whether some character of two to four bytes begins with this byte.
#[inline(always)]
pub(crate) fn is_lead(byte: u8) -> bool
    ensures { result ≡ is_in_range 0xC2 0xF4 byte }
{
    matches!(byte, 0xC2..=0xF4)
}

/// Whether some character has this byte directly after such a lead (the table of RFC 3629, section
/// 4). Three-byte and four-byte leads are matched separately, so that the compiler emits
/// comparisons and no jump table.
#[inline(always)]
fn is_second(lead: u8, byte: u8) -> bool
    ensures { result ≡ is_in_range (second_byte_min lead) (second_byte_max lead) byte }
{
    if lead < 0xF0 {
        match lead {
            0xE0 => matches!(byte, 0xA0..=0xBF),
            0xED => matches!(byte, 0x80..=0x9F),
            _ => is_continuation(byte),
        }
    } else {
        match lead {
            0xF0 => matches!(byte, 0x90..=0xBF),
            0xF4 => matches!(byte, 0x80..=0x8F),
            _ => is_continuation(byte),
        }
    }
}
