//! The first and the last character of a string.
ghost use Rattle.std.specs.Prelude.{◌≡◌, ◌++◌, IfSome};
ghost use Rattle.std.specs.Char.{encode_utf8};
ghost use Rattle.platform_str.specs.Strings.{bytes};
ghost use Rattle.os_str_ext.specs.Characters.{IsOneCharacter, SplitsFirstChar, SplitsLastChar};

use crate::boundary::{char_before, split_at};
use platform_str::{OsStr, Platform};
use wtf8_core::first_character::first_char;

/// The character with which a string begins, and the rest of the string.
#[inline(always)]
pub(crate) fn split_first_char<E: Platform>(string: OsStr<'_, E>) -> Option<(char, OsStr<'_, E>)>
    ensures bytes { SplitsFirstChar bytes (bytes string.entry) result }
    ensures units { IfSome result (λ parts. E.units (bytes string.entry)
        ≡ E.units (encode_utf8 parts.0) ++ E.units (bytes parts.1)) }
{
    let bytes = string.as_encoded_bytes();
    if !bytes.is_empty() && bytes[0] < 0x80 {
        return Some((char::from(bytes[0]), split_at(string, 1).1));
    }
    let Some((character, size)) = first_char(bytes) else {
        return None;
    };
    Some((character, split_at(string, size).1))
}

/// The character with which a string ends, and the rest of the string.
#[inline(always)]
pub(crate) fn split_last_char<E: Platform>(string: OsStr<'_, E>) -> Option<(char, OsStr<'_, E>)>
    ensures bytes { SplitsLastChar bytes (bytes string.entry) result }
    ensures units { IfSome result (λ parts. E.units (bytes string.entry)
        ≡ E.units (bytes parts.1) ++ E.units (encode_utf8 parts.0)) }
{
    let len = string.len();
    let Some(size) = char_before(string.as_encoded_bytes(), len) else {
        return None;
    };
    let (rest, last) = split_at(string, len - size);
    Some((only_char(last.as_encoded_bytes()), rest))
}

/// The character whose form the bytes are.
#[inline(always)]
fn only_char(bytes: &[u8]) -> char
    requires { IsOneCharacter bytes.now }
    ensures { bytes.now ≡ encode_utf8 result }
{
    let text = unsafe { str::from_utf8_unchecked(bytes) };
    text.chars().next().unwrap()
}
