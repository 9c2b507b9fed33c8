//! The indices at which strings can be cut, and the parts that such cuts return.
ghost use Rattle.std.specs.Prelude.{◌≡◌, ◌<◌, ◌≤◌, ◌+◌, ◌-◌, ◌↔◌, ◌++◌, IsTrue, length, take, drop};
ghost use Rattle.wtf8_core.specs.{Character.WholeCharacter, Boundary.IsBoundary};
ghost use Rattle.platform_str.specs.Strings.{bytes};
ghost use Rattle.os_str_ext.specs.{Characters.IsCharacterBefore, Range.FitsIn, Range.IsPartInUnits};

use platform_str::{OsStr, Platform};
use wtf8_core::{char_at, laws};

/// Two parts of a string.
pub(crate) type Parts<'a, E> = (OsStr<'a, E>, OsStr<'a, E>);

/// Whether bytes may be cut at index `at`. A whole character has at most four bytes, so at most
/// seven bytes are read.
pub(crate) fn is_boundary(bytes: &[u8], at: usize) -> bool
    ensures { IsTrue result ↔ IsBoundary bytes.now at }
{
    if at == 0 || at == bytes.len() {
        return true;
    }
    if at > bytes.len() {
        return false;
    }
    if is_ascii_at(bytes, at) || is_ascii_at(bytes, at - 1) {
        return true;
    }
    char_at(bytes, at).is_some() || char_before(bytes, at).is_some()
}

/// Whether the byte at index `at` is ASCII, which is a whole character.
#[inline(always)]
#[tactic(auto, using(crate::proofs::lemmas::Indices::ascii_at))]
fn is_ascii_at(bytes: &[u8], at: usize) -> bool
    requires { at < length bytes.now }
    ensures { IsTrue result → WholeCharacter bytes.now at (at + 1) }
{
    bytes[at] < 0x80
}

/// The length in bytes of the whole character that ends at index `at`, or `None` if none ends
/// there.
pub(crate) fn char_before(bytes: &[u8], at: usize) -> Option<usize>
    ensures { IsCharacterBefore bytes.now at result }
{
    laws::characters();
    for size in 1..5 {
        if size <= at && ends_character(bytes, at, size) {
            return Some(size);
        }
    }
    None
}

/// Whether a whole character of `size` bytes ends at index `at`.
fn ends_character(bytes: &[u8], at: usize, size: usize) -> bool
    requires { size ≤ at }
    ensures { IsTrue result ↔ WholeCharacter bytes.now (at - size) at }
{
    laws::characters();
    match char_at(bytes, at - size) {
        Some(found) => found == size,
        None => false,
    }
}

/// The two parts of a string, cut at a boundary.
#[inline(always)]
pub(crate) fn split_at<E: Platform>(string: OsStr<'_, E>, at: usize) -> Parts<'_, E>
    requires { IsBoundary (bytes string) at }
    ensures front { bytes result.0 ≡ take at (bytes string.entry) }
    ensures back { bytes result.1 ≡ drop at (bytes string.entry) }
    ensures units { E.units (bytes string.entry) ≡ E.units (bytes result.0)
        ++ E.units (bytes result.1) }
{
    let (prefix, suffix) = string.as_encoded_bytes().split_at(at);
    (
        OsStr::from_encoded_bytes_unchecked(prefix),
        OsStr::from_encoded_bytes_unchecked(suffix),
    )
}

/// The part of a string from one boundary to another.
pub(crate) fn part<E: Platform>(string: OsStr<'_, E>, start: usize, end: usize) -> OsStr<'_, E>
    requires { FitsIn (bytes string) start end }
    ensures bytes { bytes result ≡ drop start (take end (bytes string.entry)) }
    ensures units { IsPartInUnits E.units (bytes string.entry) start end (bytes result) }
{
    laws::boundaries();
    split_at(split_at(string, end).0, start).1
}
