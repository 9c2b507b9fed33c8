//! How far bytes are well formed, 64 at a time, or 16 where a fault may be near.
//!
//! The prefix that is found is always well formed. It may be shorter than the longest one; callers
//! must not rely on its length.
#![tactic(auto, using(crate::proofs::lemmas::vectors::Windows::scanning))]

ghost use Rattle.std.specs.Prelude.{◌≡◌, ◌∷◌, ℕ, suc, ◌+◌, ◌-◌, ◌*◌, ◌≤◌, ◌<◌, length, min, IsTrue, MatchResult, slice_index};
ghost use Rattle.std.specs.Int.{is_in_range};
ghost use Rattle.wtf8_core.specs.{Wtf8.last_or, Surrogate.is_high, declared.vectors.Encoding.Encoding, declared.vectors.Encoding.TheVariants.Utf8, declared.vectors.Encoding.TheVariants.Wtf8, EncodedPrefix.IsEncodedPrefix, EncodedPrefix.KeepsPattern, Neighbours.IsClosed};

use crate::byte::is_continuation;
use crate::vectors::ascii::{is_ascii_at, is_ascii_to_end};
use crate::vectors::error_bits::{allowed_in_block, allowed_in_first_step, allowed_in_step};
use crate::vectors::window::put_in_zeros;
use crate::vectors::{BEFORE, BLOCK, Encoding, STEP};

/// Returns the length of a prefix that is of this encoding: all the bytes, or some that end where
/// the next code point begins.
#[inline(always)]
pub(crate) fn scan(bytes: &[u8], encoding: Encoding) -> usize
    ensures within { result ≤ length bytes.now }
    ensures prefix { IsEncodedPrefix encoding bytes.now result }
{
    scan_from(bytes, 0, encoding)
}

/// Returns the length of a prefix that is of this encoding, as [`scan`], but of bytes that keep to
/// the pattern up to index `at`.
#[inline(always)]
pub(crate) fn scan_from(bytes: &[u8], at: usize, encoding: Encoding) -> usize
    requires within { at ≤ length bytes.now }
    requires kept { KeepsPattern encoding bytes.now at }
    ensures within { result ≤ length bytes.now }
    ensures prefix { IsEncodedPrefix encoding bytes.now result }
{
    if bytes.len() - at < STEP {
        return start_before(bytes, at);
    }
    if bytes.len() - at < BLOCK {
        return scan_tail(bytes, at, encoding);
    }
    if at >= BEFORE {
        return scan_blocks(bytes, at, encoding);
    }
    let kept = first_len(bytes, at, encoding);
    if kept < BLOCK {
        return start_before(bytes, at + kept);
    }
    scan_blocks(bytes, at + BLOCK, encoding)
}

/// Returns the number of the 64 bytes from index `at` on that keep to the pattern, up to the first
/// that doesn't.
#[tactic(auto, using(crate::proofs::lemmas::vectors::Windows::first_ascii))]
#[inline(always)]
fn first_len(bytes: &[u8], at: usize, encoding: Encoding) -> usize
    requires { at + 64 ≤ length bytes.now }
    ensures within { result ≤ 64 }
    ensures kept { KeepsPattern encoding bytes.now at
        → KeepsPattern encoding bytes.now (at + result) }
{
    if at == 0 && is_ascii_at::<BLOCK>(bytes, at) {
        return BLOCK;
    }
    window_len(bytes, at, encoding)
}

/// Returns the length of a prefix that is of this encoding, as [`scan_from`], where four bytes or
/// more come before `at`. Each block is then tested in place.
#[inline(always)]
fn scan_blocks(bytes: &[u8], at: usize, encoding: Encoding) -> usize
    requires from { 4 ≤ at }
    requires within { at ≤ length bytes.now }
    requires kept { KeepsPattern encoding bytes.now at }
    ensures within { result ≤ length bytes.now }
    ensures prefix { IsEncodedPrefix encoding bytes.now result }
{
    let mut end = ascii_end(bytes, at);
    while bytes.len() - end >= BLOCK {
        let kept = block_len(bytes, end, encoding);
        end += kept;
        if kept < BLOCK {
            return start_before(bytes, end);
        }
        end = ascii_end(bytes, end);
    }
    scan_tail(bytes, end, encoding)
}

/// Reads at most eight steps of 16 bytes from `at` on, where bytes keep to the pattern of UTF-8 up
/// to `at`. Returns `Ok` with the index up to which they keep to it. If a byte of a step doesn't,
/// returns `Err` with the length of a prefix that is UTF-8. No step is read from an index below 4.
#[inline(always)]
pub(crate) fn scan_steps(bytes: &[u8], at: usize) -> Result<usize, usize>
    requires within { at ≤ length bytes.now }
    requires kept { KeepsPattern Utf8 bytes.now at }
    ensures within { MatchResult result (λ end. end ≤ length bytes.now)
        (λ prefix. prefix ≤ length bytes.now) }
    ensures prefix { MatchResult result (λ end. KeepsPattern Utf8 bytes.now end)
        (λ prefix. IsEncodedPrefix Utf8 bytes.now prefix) }
{
    let mut end = at;
    for _ in 0..8 {
        if end < BEFORE || bytes.len() - end < STEP {
            return Ok(end);
        }
        let kept = allowed_in_step(&bytes[end - BEFORE..]);
        end += kept;
        if kept < STEP {
            return Err(start_before(bytes, end));
        }
    }
    Ok(end)
}

/// Whether at most 128 bytes are found to be UTF-8. 20 bytes or more are read by three, five or
/// eight steps. Lengths of names and paths differ, so a processor mispredicts the end of a loop
/// over as many steps as a string has. Beyond ASCII such a loop takes 1.2 of the time, and twice
/// the time for the longest.
#[tactic(auto, using(crate::proofs::lemmas::vectors::Windows::ends))]
#[inline(always)]
pub(crate) fn is_short_text(bytes: &[u8]) -> bool
    requires from { 4 ≤ length bytes.now }
    requires to { length bytes.now ≤ 128 }
    ensures { IsTrue result → IsEncodedPrefix Utf8 bytes.now (length bytes.now) }
{
    if bytes.len() < BEFORE + STEP {
        return len_of_few(bytes) > bytes.len();
    }
    if !ends_closed(bytes) {
        return false;
    }
    if bytes.len() <= 3 * STEP {
        are_allowed(bytes, 3)
    } else if bytes.len() <= 5 * STEP {
        are_allowed(bytes, 5)
    } else {
        are_allowed(bytes, 8)
    }
}

/// Whether all bytes keep to the pattern of UTF-8, read in this number of steps.
#[inline(always)]
fn are_allowed(bytes: &[u8], steps: usize) -> bool
    requires from { 20 ≤ length bytes.now }
    requires to { length bytes.now ≤ steps * 16 }
    requires few { steps ≤ 8 }
    ensures { IsTrue result → KeepsPattern Utf8 bytes.now (length bytes.now) }
{
    let mut allowed = allowed_in_first_step(bytes) >= STEP;
    for step in 1..steps {
        allowed &= is_step_allowed(bytes, step * STEP);
    }
    allowed
}

/// Whether the 16 bytes from index `to` on keep to the pattern, or the last 16 if fewer are left.
/// This avoids a copy with zeros after them.
#[inline(always)]
fn is_step_allowed(bytes: &[u8], to: usize) -> bool
    requires from { 4 ≤ to }
    requires some { 20 ≤ length bytes.now }
    ensures { IsTrue result → KeepsPattern Utf8 bytes.now (min to (length bytes.now))
        → KeepsPattern Utf8 bytes.now (min (to + 16) (length bytes.now)) }
{
    let at = to.min(bytes.len() - STEP);
    allowed_in_step(&bytes[at - BEFORE..]) >= STEP
}

/// Returns the number of fewer than 32 bytes, and of the zeros after them, that keep to the pattern
/// of UTF-8. If a zero does, the last character is complete.
#[inline(never)]
fn len_of_few(bytes: &[u8]) -> usize
    requires from { 4 ≤ length bytes.now }
    requires short { length bytes.now < 32 }
    ensures { KeepsPattern Utf8 bytes.now result }
{
    let mut window = [0; BEFORE + 2 * STEP];
    put_in_zeros(bytes, &mut window, BEFORE);
    let kept = allowed_in_step(&window);
    if bytes.len() < STEP || kept < STEP {
        return kept;
    }
    let (_, second) = window.split_at(STEP);
    STEP + allowed_in_step(second)
}

/// Whether none of the last three bytes is the lead of a form that continues after the last byte.
#[inline(always)]
fn ends_closed(bytes: &[u8]) -> bool
    requires { 3 ≤ length bytes.now }
    ensures { IsTrue result → IsClosed (slice_index bytes.now (length bytes.now - 3))
        (slice_index bytes.now (length bytes.now - 2))
        (slice_index bytes.now (length bytes.now - 1)) }
{
    let len = bytes.len();
    bytes[len - 3] < 0xF0 && bytes[len - 2] < 0xE0 && bytes[len - 1] < 0xC0
}

/// Whether the first `at` bytes, if they are such a prefix of WTF-8, end with a high surrogate.
#[inline(always)]
pub(crate) fn ends_with_high_surrogate(bytes: &[u8], at: usize) -> bool
    requires { at ≤ length bytes.now }
    ensures { (f : IsEncodedPrefix Wtf8 bytes.now at)
        → result ≡ is_high (last_or 0 f.code_points) }
{
    if at < 3 {
        return false;
    }
    if bytes[at - 3] != 0xED {
        return false;
    }
    is_high_second(bytes[at - 2])
}

/// Whether a byte after ED begins the form of a high surrogate, if it is a continuation.
#[inline(always)]
fn is_high_second(byte: u8) -> bool
    ensures { result ≡ is_in_range 0xA0 0xAF byte }
{
    matches!(byte, 0xA0..=0xAF)
}

/// The index at which the blocks of ASCII from `at` on end, if the byte before them is ASCII, too;
/// else `at`.
#[inline(always)]
fn ascii_end(bytes: &[u8], at: usize) -> usize
    requires some { 0 < at }
    requires within { at ≤ length bytes.now }
    ensures from { at ≤ result }
    ensures within { result ≤ length bytes.now }
    ensures kept { (e : Encoding) → KeepsPattern e bytes.now at → KeepsPattern e bytes.now result }
{
    if bytes.len() - at < BLOCK || !is_amid_ascii(bytes, at) || !is_ascii_at::<BLOCK>(bytes, at) {
        return at;
    }
    let mut end = at + BLOCK;
    while bytes.len() - end >= BLOCK && is_ascii_at::<BLOCK>(bytes, end) {
        end += BLOCK;
    }
    end
}

/// Whether the byte before index `at` is ASCII, and so is one amid the next 64. In text with ASCII
/// every few letters, a processor predicts that better than a test of the one byte.
#[inline(always)]
fn is_amid_ascii(bytes: &[u8], at: usize) -> bool
    requires some { 0 < at }
    requires within { at + 64 ≤ length bytes.now }
    ensures { IsTrue result → slice_index bytes.now (at - 1) < 0x80 }
{
    (bytes[at - 1] < 0x80) & (bytes[at + BLOCK / 2] < 0x80)
}

/// Returns the number of the next 64 bytes that keep to the pattern, up to the first that doesn't.
#[inline(always)]
fn block_len(bytes: &[u8], at: usize, encoding: Encoding) -> usize
    requires from { 4 ≤ at }
    requires room { at + 64 ≤ length bytes.now }
    ensures within { result ≤ 64 }
    ensures kept { KeepsPattern encoding bytes.now at
        → KeepsPattern encoding bytes.now (at + result) }
{
    allowed_in_block(&bytes[at - BEFORE..], encoding)
}

/// Returns the length of a prefix that is of this encoding, as [`scan_from`], where fewer than 64
/// bytes are left after `at`.
#[tactic(auto, using(crate::proofs::lemmas::vectors::Windows::ends))]
fn scan_tail(bytes: &[u8], at: usize, encoding: Encoding) -> usize
    requires from { at ≤ length bytes.now }
    requires short { length bytes.now - at < 64 }
    requires kept { KeepsPattern encoding bytes.now at }
    ensures within { result ≤ length bytes.now }
    ensures prefix { IsEncodedPrefix encoding bytes.now result }
{
    if is_ascii_to_end(bytes) {
        return bytes.len();
    }
    let kept = window_len(bytes, at, encoding);
    if kept > bytes.len() - at {
        return bytes.len();
    }
    start_before(bytes, at + kept)
}

/// The last index before `end` at which a code point begins, if the bytes keep to the pattern up to
/// `end`.
#[inline(always)]
fn start_before(bytes: &[u8], end: usize) -> usize
    requires { end ≤ length bytes.now }
    ensures within { result ≤ length bytes.now }
    ensures prefix { (e : Encoding) → KeepsPattern e bytes.now end
        → IsEncodedPrefix e bytes.now result }
{
    let mut at = end;
    while at > 0 {
        at -= 1;
        if !is_continuation(bytes[at]) {
            return at;
        }
    }
    0
}

/// Returns the number of the 64 bytes from index `at` on that keep to the pattern, with zeros
/// before and after the bytes.
#[inline(always)]
fn window_len(bytes: &[u8], at: usize, encoding: Encoding) -> usize
    requires { at ≤ length bytes.now }
    ensures within { result ≤ 64 }
    ensures kept { KeepsPattern encoding bytes.now at
        → KeepsPattern encoding bytes.now (at + result) }
{
    let before = at.min(BEFORE);
    let after = (bytes.len() - at).min(BLOCK);
    let mut window = [0; BEFORE + BLOCK];
    put_in_zeros(
        &bytes[at - before..at + after],
        &mut window,
        BEFORE - before,
    );
    allowed_in_block(&window, encoding)
}
