//! Parts of strings before, after and between texts.
ghost use Rattle.std.specs.Prelude.{◌≡◌, ◌<◌, ◌↔◌, IsTrue, length, take, drop};
ghost use Rattle.wtf8_core.specs.{Occurrence.IsFirstIndex, Occurrence.IsLastIndex, Occurrence.IsPrefix, Boundary.IsBoundary};
ghost use Rattle.os_str_ext.specs.Pieces.{StripsPrefix, StripsSuffix, SplitsOnce, IsStartTrim, IsEndTrim};
ghost use Rattle.platform_str.specs.Strings.{bytes};

use crate::boundary::{Parts, split_at};
use crate::runs::{end_run, start_run};
use crate::search::{ends_with, find, rfind, starts_with};
use platform_str::{OsStr, Platform};
use wtf8_core::laws;

/// The string without the text at its start, or `None` if it doesn't start with the text.
#[inline(always)]
pub(crate) fn strip_prefix<'a, E: Platform>(
    string: OsStr<'a, E>,
    text: &str,
) -> Option<OsStr<'a, E>>
    ensures { StripsPrefix bytes text.now (bytes string.entry) result }
{
    if !has_prefix(string.as_encoded_bytes(), text) {
        return None;
    }
    Some(split_at(string, text.len()).1)
}

/// Whether the bytes start with the text, as [`starts_with`]. It isn't inlined, so a caller
/// contains one call instead of a branch for each length of the text.
#[inline(never)]
fn has_prefix(bytes: &[u8], text: &str) -> bool
    ensures prefix { IsTrue result ↔ IsPrefix text.now bytes.now }
    ensures edge { IsTrue result → IsBoundary bytes.now (length text.now) }
{
    starts_with(bytes, text)
}

/// The string without the text at its end, or `None` if it doesn't end with the text.
#[inline(always)]
pub(crate) fn strip_suffix<'a, E: Platform>(
    string: OsStr<'a, E>,
    text: &str,
) -> Option<OsStr<'a, E>>
    ensures { StripsSuffix bytes text.now (bytes string.entry) result }
{
    if !ends_with(string.as_encoded_bytes(), text) {
        return None;
    }
    Some(split_at(string, string.len() - text.len()).0)
}

/// The string with all prefixes that are the text repeatedly removed; the whole string if the text
/// is empty.
pub(crate) fn trim_start<'a, E: Platform>(string: OsStr<'a, E>, text: &str) -> OsStr<'a, E>
    ensures trim { 0 < length text.now → IsStartTrim text.now (bytes string.entry) (bytes result) }
    ensures whole { length text.now ≡ 0 → bytes result ≡ bytes string.entry }
{
    if text.is_empty() {
        return string;
    }
    laws::boundaries();
    let at = start_run(string.as_encoded_bytes(), text.as_bytes());
    split_at(string, at).1
}

/// The string with all suffixes that are the text repeatedly removed; the whole string if the text
/// is empty.
pub(crate) fn trim_end<'a, E: Platform>(string: OsStr<'a, E>, text: &str) -> OsStr<'a, E>
    ensures trim { 0 < length text.now → IsEndTrim text.now (bytes string.entry) (bytes result) }
    ensures whole { length text.now ≡ 0 → bytes result ≡ bytes string.entry }
{
    if text.is_empty() {
        return string;
    }
    laws::boundaries();
    let at = end_run(string.as_encoded_bytes(), text.as_bytes());
    split_at(string, at).0
}

/// The parts before and after the first occurrence of the text, or `None` if it doesn't occur.
#[inline(always)]
pub(crate) fn split_once<'a, E: Platform>(string: OsStr<'a, E>, text: &str) -> Option<Parts<'a, E>>
    ensures { SplitsOnce IsFirstIndex bytes text.now (bytes string.entry) result }
{
    let Some(at) = find(string.as_encoded_bytes(), text) else {
        return None;
    };
    Some(around(string, at, at + text.len()))
}

/// The parts before and after the last occurrence of the text, or `None` if it doesn't occur.
#[inline(always)]
pub(crate) fn rsplit_once<'a, E: Platform>(string: OsStr<'a, E>, text: &str) -> Option<Parts<'a, E>>
    ensures { SplitsOnce IsLastIndex bytes text.now (bytes string.entry) result }
{
    let Some(at) = rfind(string.as_encoded_bytes(), text) else {
        return None;
    };
    Some(around(string, at, at + text.len()))
}

/// The part before one boundary and the part after another.
#[inline(always)]
fn around<E: Platform>(string: OsStr<'_, E>, start: usize, end: usize) -> Parts<'_, E>
    requires before { IsBoundary (bytes string) start }
    requires after { IsBoundary (bytes string) end }
    ensures prefix { bytes result.0 ≡ take start (bytes string.entry) }
    ensures suffix { bytes result.1 ≡ drop end (bytes string.entry) }
{
    (split_at(string, start).0, split_at(string, end).1)
}
