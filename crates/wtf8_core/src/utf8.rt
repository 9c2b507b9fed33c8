//! The first fault of bytes that aren't UTF-8.
#![tactic(auto, using(crate::proofs::lemmas::vectors::Windows::texts))]

ghost use Rattle.std.specs.Prelude.{◌≡◌, ◌+◌, ◌≤◌, ◌<◌, ◌↔◌, ℕ, MatchOption, MatchResult, IfOk, IsTrue, Some, length, slice_index, take};
ghost use Rattle.std.specs.Str.{IsUtf8};
ghost use Rattle.wtf8_core.specs.{EncodedPrefix.KeepsPattern, declared.vectors.Encoding.TheVariants.Utf8, Wtf8.IsWtf8, Utf8.IsUtf8Fault};

use crate::byte::is_continuation;
use crate::first_character::{is_lead, len_or_fault};
use crate::vectors::ascii::{ascii_len_at, is_ascii_at, is_ascii_to_end};
use crate::vectors::scan::{is_short_text, scan, scan_from, scan_steps};
use crate::vectors::surrogates::text_from;
use crate::vectors::{BEFORE, BLOCK, Encoding, SHORT, STEP};
use memchr::memchr;

/// The number of characters that are read one by one in long bytes before steps. If faults are a
/// few letters apart, a loop over them mostly needs nothing more.
const NEAR: usize = 5;

/// The number of characters that are read one by one in short bytes, and after what vectors have
/// read.
const FEW: usize = 3;

/// The first fault of bytes that aren't UTF-8, `None` for UTF-8 (RFC 3629, section 4).
///
/// Equivalent to `str::from_utf8(bytes).err()`: the two numbers are those that std's
/// `Utf8Error` has as `valid_up_to` and `error_len`.
///
/// The first is the length in bytes of the longest prefix that is UTF-8, which is the index of the
/// fault. The second is the length of the maximal ill-formed part that begins there (a maximal
/// subpart; Unicode, section 3.9), one to three bytes. It is `None` if the bytes end within a
/// character that more bytes could complete. The ill-formed part is the longest prefix of the
/// remaining bytes with which some character begins, or one byte if there is none.
///
/// It reads most of a long text with vectors.
///
/// ```
/// use os_str_bytes::utf8_fault;
///
/// assert_eq!(rt; utf8_fault(b"a\xE2\x82A"), Some((1, Some(2))));
/// assert_eq!(rt; utf8_fault(b"a\xE2\x82"), Some((1, None)));
/// assert_eq!(rt; utf8_fault(b"\xC3\xA9"), None);
/// ```
#[inline(always)]
pub fn utf8_fault(bytes: &[u8]) -> Option<(usize, Option<u8>)>
    ensures { MatchOption result (IsUtf8 bytes.now)
        (λ fault. IsUtf8Fault bytes.now fault.0 fault.1) }
{
    if bytes.len() <= SHORT {
        return fault_in_short(bytes);
    }
    let ascii = ascii_len(bytes);
    if ascii == BLOCK {
        return fault_by_blocks(bytes, ascii);
    }
    match after_characters(bytes, ascii, NEAR) {
        Ok(at) => fault_by_steps(bytes, at),
        Err(fault) => Some(fault),
    }
}

/// Whether bytes are UTF-8 (RFC 3629, section 4).
///
/// Equivalent to `str::from_utf8(bytes).is_ok()`, and to [`utf8_fault`] being `None`. It is for
/// bytes that mostly are UTF-8, and reads them with vectors from the start on. So it takes less
/// time for few bytes than `utf8_fault`, which expects a fault to be near.
///
/// ```
/// use os_str_bytes::is_utf8;
///
/// assert!(rt; is_utf8(b"a\xC3\xA9") && !is_utf8(b"a\xC3"));
/// ```
#[inline(always)]
pub fn is_utf8(bytes: &[u8]) -> bool
    ensures { IsTrue result ↔ IsUtf8 bytes.now }
{
    if bytes.len() > SHORT {
        return is_long_utf8(bytes);
    }
    is_short_utf8(bytes) || fault_by_std(bytes).is_none()
}

/// Returns the first fault of WTF-8 that isn't UTF-8, or `None` for UTF-8, as [`utf8_fault`] of the
/// bytes (this project's own call).
///
/// The bytes are WTF-8 (test: [`wtf8_fault`](crate::wtf8_fault)). So the fault is their first
/// surrogate. It is found by the byte ED, with which each surrogate begins.
///
/// ```
/// use os_str_bytes::surrogate_fault;
///
/// assert_eq!(rt; surrogate_fault(b"a\xED\xA0\x80"), Some((1, Some(1))));
/// assert_eq!(rt; surrogate_fault(b"\xED\x95\x9C"), None);
/// ```
#[tactic(auto, using(crate::proofs::lemmas::texts::WithoutSurrogates::without))]
pub fn surrogate_fault(bytes: &[u8]) -> Option<(usize, Option<u8>)>
    requires { IsWtf8 bytes.now }
    ensures { MatchOption result (IsUtf8 bytes.now)
        (λ fault. IsUtf8Fault bytes.now fault.0 fault.1) }
{
    if is_short_ascii(bytes) {
        return None;
    }
    // `memchr` begins at the first byte again
    let ascii = short_ascii_len(bytes);
    if ascii < bytes.len() && bytes[ascii] == 0xED {
        return fault_by_characters(bytes, ascii);
    }
    match memchr(0xED, bytes) {
        Some(lead) => fault_by_characters(bytes, text_from(bytes, lead)),
        None => None,
    }
}

/// The first fault of at most 128 bytes.
///
/// Both ends are tested first, which finds names that are ASCII. Otherwise the first other byte is
/// searched for from the start.
///
/// It isn't inlined: a loop over the faults of a long string needs it only near the end, where each
/// call reads the remaining bytes anew.
#[inline(never)]
fn fault_in_short(bytes: &[u8]) -> Option<(usize, Option<u8>)>
    requires { length bytes.now ≤ 128 }
    ensures { MatchOption result (IsUtf8 bytes.now)
        (λ fault. IsUtf8Fault bytes.now fault.0 fault.1) }
{
    if is_short_ascii(bytes) {
        return None;
    }
    let prefix = prefix_of_short(bytes);
    if prefix == bytes.len() {
        return None;
    }
    fault_by_characters(bytes, prefix)
}

/// Returns the length of a prefix of few bytes that is UTF-8. It is all of them if steps find
/// nothing wrong. It is only the ASCII if the two bytes after it begin no character, since the
/// fault is there. Otherwise it is 0.
#[inline(always)]
fn prefix_of_short(bytes: &[u8]) -> usize
    requires { length bytes.now ≤ 128 }
    ensures within { result ≤ length bytes.now }
    ensures text { IsUtf8 (take result bytes.now) }
{
    if bytes.len() < BEFORE {
        return 0;
    }
    if bytes.len() >= STEP {
        let ascii = short_ascii_len(bytes);
        if bytes.len() - ascii > 1
            && !(is_lead(bytes[ascii]) && is_continuation(bytes[ascii + 1]))
        {
            return ascii;
        }
    }
    if is_short_text(bytes) { bytes.len() } else { 0 }
}

/// Whether the bytes are found to be UTF-8 at once, or by steps. It returns `false` for more than
/// 128 bytes.
#[inline(always)]
pub(crate) fn is_short_utf8(bytes: &[u8]) -> bool
    ensures { IsTrue result → IsUtf8 bytes.now }
{
    bytes.len() <= SHORT && (is_short_ascii(bytes) || is_text_by_steps(bytes))
}

/// Whether steps find at most 128 bytes to be UTF-8.
///
/// It isn't inlined, so that the tests for ASCII before it are.
#[inline(never)]
fn is_text_by_steps(bytes: &[u8]) -> bool
    requires { length bytes.now ≤ 128 }
    ensures { IsTrue result → IsUtf8 bytes.now }
{
    BEFORE <= bytes.len() && is_short_text(bytes)
}

/// Returns whether bytes are UTF-8, as [`is_utf8`], but by blocks.
fn is_long_utf8(bytes: &[u8]) -> bool
    ensures { IsTrue result ↔ IsUtf8 bytes.now }
{
    let prefix = scan(bytes, Encoding::Utf8);
    prefix == bytes.len() || fault_in_rest(bytes, prefix).is_none()
}

/// Whether the bytes are at most 128 and ASCII. It returns `false` for fewer than 4 bytes.
#[inline(always)]
fn is_short_ascii(bytes: &[u8]) -> bool
    ensures { IsTrue result → IsUtf8 bytes.now }
{
    if bytes.len() > SHORT || !is_ascii_to_end(bytes) {
        return false;
    }
    bytes.len() <= BLOCK || is_ascii_at::<BLOCK>(bytes, 0)
}

/// Returns the number of 16 to 128 bytes that are ASCII, before the first that isn't. It returns 0
/// for fewer bytes or more.
#[inline(always)]
fn short_ascii_len(bytes: &[u8]) -> usize
    ensures within { result ≤ length bytes.now }
    ensures text { IsUtf8 (take result bytes.now) }
{
    if bytes.len() < STEP || bytes.len() > SHORT {
        return 0;
    }
    let last = bytes.len() - STEP;
    let mut at = 0;
    while at < last {
        let count = ascii_len_at::<STEP>(bytes, at);
        if count < STEP {
            return at + count;
        }
        at += STEP;
    }
    last + ascii_len_at::<STEP>(bytes, last)
}

/// Returns the number of the first 16 bytes, or of the first 64, that are ASCII, before the first
/// that isn't. In a loop over faults that are close together, that is mostly one of the first 16.
#[inline(always)]
fn ascii_len(bytes: &[u8]) -> usize
    requires { 64 ≤ length bytes.now }
    ensures within { result ≤ length bytes.now }
    ensures text { IsUtf8 (take result bytes.now) }
{
    let near = ascii_len_at::<STEP>(bytes, 0);
    if near < STEP {
        near
    } else {
        ascii_len_at::<BLOCK>(bytes, 0)
    }
}

/// Returns the index at which up to `most` characters after a text end, or the fault among them.
#[inline(always)]
fn after_characters(bytes: &[u8], from: usize, most: usize) -> Result<usize, (usize, Option<u8>)>
    requires within { from ≤ length bytes.now }
    requires text { IsUtf8 (take from bytes.now) }
    ensures within { IfOk result (λ at. at ≤ length bytes.now) }
    ensures read { MatchResult result (λ at. IsUtf8 (take at bytes.now))
        (λ fault. IsUtf8Fault bytes.now fault.0 fault.1) }
{
    let (_, mut rest) = bytes.split_at(from);
    for _ in 0..most {
        match len_or_fault(rest) {
            Some(Ok(len)) => {
                let (_, after) = rest.split_at(len);
                rest = after;
            }
            Some(Err(error_len)) => return Err((bytes.len() - rest.len(), Some(error_len))),
            None => return Ok(bytes.len() - rest.len()),
        }
    }
    Ok(bytes.len() - rest.len())
}

/// Returns the first fault of bytes whose first `at` bytes are UTF-8. The fault is near in most of
/// them.
#[inline(always)]
fn fault_by_steps(bytes: &[u8], at: usize) -> Option<(usize, Option<u8>)>
    requires within { at ≤ length bytes.now }
    requires text { IsUtf8 (take at bytes.now) }
    ensures { MatchOption result (IsUtf8 bytes.now)
        (λ fault. IsUtf8Fault bytes.now fault.0 fault.1) }
{
    if bytes.len() - at < STEP {
        return fault_in_rest(bytes, at);
    }
    match scan_steps(bytes, at) {
        Ok(end) => fault_by_blocks(bytes, end),
        Err(prefix) => fault_by_characters(bytes, prefix),
    }
}

/// The first fault of bytes that keep to the pattern of UTF-8 up to index `at`.
fn fault_by_blocks(bytes: &[u8], at: usize) -> Option<(usize, Option<u8>)>
    requires within { at ≤ length bytes.now }
    requires kept { KeepsPattern Utf8 bytes.now at }
    ensures { MatchOption result (IsUtf8 bytes.now)
        (λ fault. IsUtf8Fault bytes.now fault.0 fault.1) }
{
    fault_by_characters(bytes, scan_from(bytes, at, Encoding::Utf8))
}

/// The first fault of bytes whose first `at` bytes are UTF-8, where it or the end comes a few
/// characters later.
#[inline(always)]
fn fault_by_characters(bytes: &[u8], at: usize) -> Option<(usize, Option<u8>)>
    requires within { at ≤ length bytes.now }
    requires text { IsUtf8 (take at bytes.now) }
    ensures { MatchOption result (IsUtf8 bytes.now)
        (λ fault. IsUtf8Fault bytes.now fault.0 fault.1) }
{
    match after_characters(bytes, at, FEW) {
        Ok(at) => fault_in_rest(bytes, at),
        Err(fault) => Some(fault),
    }
}

/// Returns the first fault of bytes whose first `at` bytes are UTF-8, by std's reader, which reads
/// on to the fault or the end.
#[inline(always)]
fn fault_in_rest(bytes: &[u8], at: usize) -> Option<(usize, Option<u8>)>
    requires within { at ≤ length bytes.now }
    requires text { IsUtf8 (take at bytes.now) }
    ensures { MatchOption result (IsUtf8 bytes.now)
        (λ fault. IsUtf8Fault bytes.now fault.0 fault.1) }
{
    let (_, rest) = bytes.split_at(at);
    let (valid_up_to, error_len) = fault_by_std(rest)?;
    Some((at + valid_up_to, error_len))
}

/// The first fault, by std's reader.
#[inline(always)]
fn fault_by_std(bytes: &[u8]) -> Option<(usize, Option<u8>)>
    ensures { MatchOption result (IsUtf8 bytes.now)
        (λ fault. IsUtf8Fault bytes.now fault.0 fault.1) }
{
    match str::from_utf8(bytes) {
        Ok(_) => None,
        Err(e) => match e.error_len() {
            Some(len) => Some((e.valid_up_to(), Some(len as u8))),
            None => Some((e.valid_up_to(), None)),
        },
    }
}
