//! Plain bytes: printable ASCII other than the backslash. Both forms of an escape show them as they
//! are.
ghost use Rattle.std.specs.Prelude.{◌≡◌, ℕ, ◌+◌, ◌≤◌, ◌<◌, length, IsTrue, MatchOption, slice_index};
ghost use Rattle.std.specs.List.{AllByRecursion};
ghost use Rattle.os_quote.specs.Plain.{IsPlain, IsPlainUpTo, IsCutAfterPlain};

use crate::find_lanes::BLOCK;
use std::simd::prelude::*;
use wtf8_core::vectors::lanes::{above, are_zero, leading_zero, load, or};

/// The number of bytes that are examined before they are written. It is a few blocks, so that they
/// are still in the cache next to the processor when they are copied.
const PIECE: usize = 4096;

/// The bytes of one vector.
const LANES: usize = 16;

/// Whether all bytes are plain, and at most one piece long.
pub(crate) fn are_plain(bytes: &[u8]) -> bool
    ensures { IsTrue result → AllByRecursion IsPlain bytes.now }
{
    bytes.len() <= PIECE && plain_len(bytes) == bytes.len()
}

/// Plain bytes at the start, at most a piece, as a text, and the bytes after them.
pub(crate) fn split_plain(bytes: &[u8]) -> Option<(&str, &[u8])>
    ensures { MatchOption result (Unit {0})
        (λ parts. IsCutAfterPlain bytes.now parts.0.now parts.1.now) }
{
    let len = plain_len(bytes);
    if len == 0 {
        return None;
    }
    let (prefix, rest) = bytes.split_at(len);
    Some((unsafe { str::from_utf8_unchecked(prefix) }, rest))
}

/// The number of plain bytes at the start, at most a piece. The first vector is tested separately,
/// since a byte that isn't plain is often near.
#[tactic(auto, using(crate::proofs::lemmas::PlainBytes::plain_bytes))]
pub(crate) fn plain_len(bytes: &[u8]) -> usize
    ensures { IsPlainUpTo bytes.now result }
{
    if bytes.len() < LANES {
        return few_plain(bytes);
    }
    let near = plain_lanes(bytes, 0);
    if near < LANES {
        return near;
    }
    let mut at = LANES;
    while at < PIECE && bytes.len() - at >= BLOCK && are_zero(others(load(bytes, at))) {
        at += BLOCK;
    }
    if at >= PIECE {
        return at;
    }
    plain_end(bytes, at)
}

/// The index of the first byte that isn't plain, or the length. All bytes before `from` are known
/// to be plain. Bytes are tested by vectors, and the last vector ends at the end of the bytes.
#[tactic(auto, using(crate::proofs::lemmas::PlainBytes::plain_bytes))]
fn plain_end(bytes: &[u8], from: usize) -> usize
    requires up_to { IsPlainUpTo bytes.now from }
    requires long { 16 ≤ length bytes.now }
    ensures { IsPlainUpTo bytes.now result }
{
    let mut at = from;
    while bytes.len() - at >= LANES {
        let len = plain_lanes(bytes, at);
        if len < LANES {
            return at + len;
        }
        at += LANES;
    }
    let last = bytes.len() - LANES;
    last + plain_lanes(bytes, last)
}

/// The number of plain bytes at the start, tested one by one.
#[tactic(auto, using(crate::proofs::lemmas::PlainBytes::plain_bytes))]
fn few_plain(bytes: &[u8]) -> usize
    ensures { IsPlainUpTo bytes.now result }
{
    let mut at = 0;
    while at < bytes.len() && is_plain(bytes[at]) {
        at += 1;
    }
    at
}

/// Whether a byte is plain.
fn is_plain(byte: u8) -> bool
    ensures { IsTrue result → IsPlain byte }
{
    matches!(byte, b' '..=b'~') && byte != b'\\'
}

/// The number of plain bytes before the first that isn't, among the next 16.
fn plain_lanes(bytes: &[u8], at: usize) -> usize
    requires { at + 16 ≤ length bytes.now }
    ensures within { result ≤ 16 }
    ensures plain { (i : ℕ) → i < result → IsPlain (slice_index bytes.now (at + i)) }
{
    leading_zero(others(load::<LANES>(bytes, at))).min(LANES)
}

/// 0 in each lane whose byte is plain, and something else in the others.
#[inline(always)]
fn others<const N: usize>(lanes: Simd<u8, N>) -> Simd<u8, N>
    ensures { (i : ℕ) → i < N → slice_index result i ≡ 0 → IsPlain (slice_index lanes.entry i) }
{
    let unprintable = above(lanes - Simd::splat(b' '), b'~' - b' ');
    let backslashes = lanes
        .simd_eq(Simd::splat(b'\\'))
        .select(Simd::splat(0xFF), Simd::splat(0));
    or(unprintable, backslashes)
}
