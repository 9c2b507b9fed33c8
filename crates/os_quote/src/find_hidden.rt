//! Finds the first character of a text that its escape on one line writes as a token. The search
//! looks for suspects, which are bytes that may begin such a character.
ghost use Rattle.std.specs.Prelude.{◌≡◌, ◌↔◌, [], take, IsTrue, IfSome, MatchOption, ◌+◌, ◌≤◌, ◌<◌, length, slice_index};
ghost use Rattle.std.specs.Str.{IsCharBoundary};
ghost use Rattle.os_quote.specs.{Hidden.IsUnchanged, Hidden.AreUnchanged, Hidden.IsCutAtToken, Hidden.AllClear, Hidden.IsNextSuspect, Hidden.is_suspect, Shown.IsOnOneLine, Shown.stays_on_line};

use crate::find_lanes::{BLOCK, clear_len};
use crate::find_plain::plain_len;
use crate::find_tables::is_suspect;
use crate::form::stays_on_line;
use wtf8_core::vectors::window::put_in_zeros;

/// Splits a text around the first character that is written as a token: what comes before it, the
/// character, and what comes after it. Most often it is the first character that isn't plain. A
/// text that was cut after plain bytes begins with no plain byte.
pub(crate) fn split_hidden(text: &str) -> Option<(&str, char, &str)>
    ensures { MatchOption result (AreUnchanged stays_on_line text.now)
        (λ parts. IsCutAtToken stays_on_line text.now parts.0.now parts.1 parts.2.now) }
{
    let at = plain_len(text.as_bytes());
    if at == text.len() {
        return None;
    }
    split_at_suspect(text, at)
}

/// Splits a text around its first character that is written as a token. The search starts at an
/// index up to which all characters are shown as they are.
fn split_at_suspect(text: &str, from: usize) -> Option<(&str, char, &str)>
    requires boundary { IsCharBoundary text.now from }
    requires unchanged { AreUnchanged stays_on_line (take from text.now) }
    ensures { MatchOption result (AreUnchanged stays_on_line text.now)
        (λ parts. IsCutAtToken stays_on_line text.now parts.0.now parts.1 parts.2.now) }
{
    let mut at = from;
    while let Some(suspect) = first_suspect(text.as_bytes(), at) {
        let mut characters = text[suspect..].chars();
        let character = characters.next()?;
        let rest = characters.as_str();
        if !is_unchanged(character) {
            return Some((&text[..suspect], character, rest));
        }
        at = text.len() - rest.len();
    }
    None
}

/// Whether a character is shown as it is.
#[inline(always)]
fn is_unchanged(character: char) -> bool
    ensures { IsTrue result ↔ IsUnchanged stays_on_line character }
{
    character != '\\' && stays_on_line(character)
}

/// Returns `true` if each character of a text stays on a line ([`stays_on_line`]).
///
/// Then [`escape_line`](crate::escape_line) shows the text as it is, except that it doubles
/// backslashes and writes a space at the end as a token. It doesn't allocate.
///
/// ```
/// use os_quote::is_on_one_line;
///
/// assert!(rt; is_on_one_line("a\\b \u{E9}"));
/// assert!(rt; !is_on_one_line("a\nb"));
/// ```
pub fn is_on_one_line(text: &str) -> bool
    ensures { IsTrue result ↔ IsOnOneLine text.now }
{
    let mut rest = text;
    while let Some((_, character, following)) = split_hidden(rest) {
        if character != '\\' {
            return false;
        }
        rest = following;
    }
    true
}

/// The minimum number of bytes that are copied and examined as one block.
const LEAST: usize = 16;

/// The index of the first suspect at or after an index. Often the byte at that index is one.
pub(crate) fn first_suspect(bytes: &[u8], from: usize) -> Option<usize>
    requires { from ≤ length bytes.now }
    ensures { MatchOption result (AllClear bytes.now from (length bytes.now))
        (λ at. IsNextSuspect bytes.now from at) }
{
    if from < bytes.len() && is_suspect_at(bytes, from) {
        return Some(from);
    }
    later_suspect(bytes, from)
}

/// Whether the byte at an index is a suspect.
#[inline(always)]
fn is_suspect_at(bytes: &[u8], at: usize) -> bool
    requires { at < length bytes.now }
    ensures { result ≡ is_suspect (slice_index bytes.now at) (slice_index bytes.now (1 + at))
        (slice_index bytes.now (2 + at)) }
{
    is_suspect(bytes[at], byte_at(bytes, at + 1), byte_at(bytes, at + 2))
}

/// The index of the first suspect, as [`first_suspect`] returns it, found by vectors.
#[tactic(auto, using(crate::proofs::lemmas::Suspects::suspects))]
fn later_suspect(bytes: &[u8], from: usize) -> Option<usize>
    requires { from ≤ length bytes.now }
    ensures { MatchOption result (AllClear bytes.now from (length bytes.now))
        (λ at. IsNextSuspect bytes.now from at) }
{
    let mut at = from + clear_of_short(bytes, from);
    while at < bytes.len() {
        let clear = clear_from(bytes, at);
        at += clear;
        if clear == BLOCK {
            continue;
        }
        if is_suspect_at(bytes, at) {
            return Some(at);
        }
        at += 1;
    }
    None
}

/// The number of bytes from an index on that aren't suspects, found by one block. It doesn't count
/// the last byte of all.
fn clear_from(bytes: &[u8], at: usize) -> usize
    requires { at < length bytes.now }
    ensures within { at + result < length bytes.now }
    ensures clear { AllClear bytes.now at (at + result) }
{
    if bytes.len() - at <= BLOCK + 1 {
        return 0;
    }
    clear_len(bytes.split_at(at).1)
}

/// The number of bytes from an index on that aren't suspects, found in a copy with zeros after it.
/// A copy is made if all these bytes fit in it, but not where a loop over them is as fast.
fn clear_of_short(bytes: &[u8], from: usize) -> usize
    requires { from ≤ length bytes.now }
    ensures within { from + result ≤ length bytes.now }
    ensures clear { AllClear bytes.now from (from + result) }
{
    let (_, rest) = bytes.split_at(from);
    if rest.len() < LEAST || rest.len() > BLOCK + 1 {
        return 0;
    }
    let mut block = [0; BLOCK + 2];
    put_in_zeros(rest, &mut block, 0);
    clear_len(&block).min(rest.len())
}

/// The byte at an index, or 0 after the last.
fn byte_at(bytes: &[u8], index: usize) -> u8
    ensures { result ≡ slice_index bytes.now index }
{
    if index < bytes.len() { bytes[index] } else { 0 }
}
