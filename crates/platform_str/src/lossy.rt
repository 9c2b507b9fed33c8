//! Lossy texts, by the laws of the platform.
ghost use Rattle.std.specs.Prelude.{◌≡◌, ℕ, ◌≤◌, ◌*◌, List, ◌++◌, length, take, IfOk, MatchOption, OnOk};
ghost use Rattle.std.specs.Str.{IsUtf8};
ghost use Rattle.wtf8_core.specs.{Lossy.replacement, Utf8.IsUtf8Fault};
ghost use Rattle.platform_str.specs.{Lossy.IsFirstText, Sinks.Takes};

use crate::memory::Pushed;
use crate::platform::Platform;
use crate::sink::Sink;
use std::alloc::{AllocError, Allocator};
use std::fmt;

/// The bytes of U+FFFD.
const REPLACEMENT: [u8; 3] = [0xEF, 0xBF, 0xBD];

/// The bytes after the part that one U+FFFD replaces at a string's first fault.
#[inline(always)]
fn after_fault<E: Platform>(bytes: &[u8], valid: usize, error_len: Option<u8>) -> &[u8]
    requires formed { E.well_formed bytes.now }
    requires fault { IsUtf8Fault bytes.now valid error_len }
    ensures { IsFirstText E.well_formed E.lossy bytes.now (take valid bytes.now) result.now }
{
    let (_, after) = bytes.split_at(valid);
    after.split_at(E::replaced_len(after, error_len)).1
}

/// The text at the start of a string's bytes, and the bytes after the part that follows it and is
/// replaced by one U+FFFD; `None` if all the bytes are a text.
#[inline(always)]
fn first_text<E: Platform>(bytes: &[u8]) -> Option<(&str, &[u8])>
    requires { E.well_formed bytes.now }
    ensures { MatchOption result (IsUtf8 bytes.now)
        (λ first. IsFirstText E.well_formed E.lossy bytes.now first.0.now first.1.now) }
{
    let (valid, error_len) = E::utf8_fault(bytes)?;
    let (text, _) = bytes.split_at(valid);
    let rest = after_fault::<E>(bytes, valid, error_len);
    Some((unsafe { str::from_utf8_unchecked(text) }, rest))
}

/// Appends the first `len` bytes, and then U+FFFD.
#[inline(always)]
pub(crate) fn push_replaced<A: Allocator>(text: &mut Vec<u8, A>, bytes: &[u8], len: usize) -> Pushed
    requires { len ≤ length bytes.now }
    ensures { OnOk result (text.new.items ≡ (text.old.items ++ take len bytes.now) ++ replacement) }
{
    let (prefix, _) = bytes.split_at(len);
    text.extend_from_slice(prefix)?;
    text.extend_from_slice(&REPLACEMENT)
}

/// The room for the lossy text of a string in which one byte is replaced; none if there are no bytes.
fn text_room(bytes: &[u8]) -> usize {
    if bytes.is_empty() {
        return 0;
    }
    bytes.len().saturating_add(REPLACEMENT.len() - 1)
}

/// The bytes of the lossy text of a string whose first fault is known, in new memory. It has a loop
/// of its own, since one over [`first_text`] would search for that fault again.
pub(crate) fn text_bytes<E: Platform, A: Allocator>(
    alloc: A,
    bytes: &[u8],
    first_fault: Option<(usize, Option<u8>)>,
) -> Result<Vec<u8, A>, AllocError>
    requires formed { E.well_formed bytes.now }
    requires fault { MatchOption first_fault (IsUtf8 bytes.now)
        (λ fault. IsUtf8Fault bytes.now fault.0 fault.1) }
    ensures { IfOk result (λ text. text.items ≡ E.lossy bytes.now) }
{
    let mut text = Vec::with_capacity(alloc, text_room(bytes))?;
    let mut rest = bytes;
    let mut fault = first_fault;
    while let Some((valid, error_len)) = fault {
        push_replaced(&mut text, rest, valid)?;
        rest = after_fault::<E>(rest, valid, error_len);
        fault = E::utf8_fault(rest);
    }
    text.extend_from_slice(rest)?;
    Ok(text)
}

/// Writes the lossy text of a string's bytes to a sink: each text as it is in the string, and U+FFFD
/// for each part between them that isn't text.
pub(crate) fn write_text<E: Platform, S: Sink>(bytes: &[u8], sink: &mut S) -> fmt::Result
    requires formed { E.well_formed bytes.now }
    requires room { (text : List ℕ) → length text ≤ 3 * length bytes.now
        → S.rules.has_room sink.old text }
    ensures { Takes S.rules sink.old (E.lossy bytes.now) result sink.new }
{
    let mut rest = bytes;
    while let Some((text, after)) = first_text::<E>(rest) {
        sink.take_text(text)?;
        sink.take_text("\u{FFFD}")?;
        rest = after;
    }
    sink.take_text(unsafe { str::from_utf8_unchecked(rest) })
}

/// Overwrites each part that isn't text with U+FFFD, in a string that isn't IO-safe. If a platform
/// has such strings, each part that one U+FFFD replaces has three bytes.
pub(crate) fn replace_in_place<E: Platform>(bytes: &mut [u8])
    requires formed { E.well_formed bytes.old }
    requires not_safe { ¬ (E.io_safe bytes.old) }
    ensures { bytes.new ≡ E.lossy bytes.old }
{
    let mut at = 0;
    while let Some((valid, _)) = E::utf8_fault(bytes.split_at(at).1) {
        let start = at + valid;
        let len = E::lossy_len(bytes.split_at(start).1);
        at = start + len;
        bytes[start..at].copy_from_slice(&REPLACEMENT);
    }
}
