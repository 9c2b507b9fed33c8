//! Whether bytes are ASCII, and the number of ASCII bytes at the start.
ghost use Rattle.std.specs.Prelude.{◌≡◌, ℕ, ◌+◌, ◌-◌, ◌≤◌, ◌<◌, length, IsTrue, slice_index};

use crate::vectors::{BLOCK, HALF, QUARTER, STEP};
use std::simd::prelude::*;

/// Whether the N bytes from index `at` on are ASCII.
#[inline(always)]
pub fn is_ascii_at<const N: usize>(bytes: &[u8], at: usize) -> bool
    requires room { at + N ≤ length bytes.now }
    requires few { N ≤ 64 }
    ensures { IsTrue result → (i : ℕ) → i < N → slice_index bytes.now (at + i) < 0x80 }
{
    ascii_len_at::<N>(bytes, at) >= N
}

/// Returns the number of the N bytes from index `at` on that are ASCII, before the first that
/// isn't.
#[inline(always)]
pub fn ascii_len_at<const N: usize>(bytes: &[u8], at: usize) -> usize
    requires room { at + N ≤ length bytes.now }
    requires few { N ≤ 64 }
    ensures within { result ≤ N }
    ensures ascii { (i : ℕ) → i < result → slice_index bytes.now (at + i) < 0x80 }
{
    let count = Simd::<u8, N>::from_slice(&bytes[at..])
        .simd_ge(Simd::splat(0x80))
        .to_bitmask()
        .trailing_zeros() as usize;
    count.min(N)
}

/// Whether the last 64 bytes are ASCII, or all the bytes if they are fewer. It returns `false` for
/// fewer than 4 bytes.
#[inline(always)]
pub fn is_ascii_to_end(bytes: &[u8]) -> bool
    ensures { IsTrue result → (i : ℕ) → length bytes.now - 64 ≤ i → i < length bytes.now
        → slice_index bytes.now i < 0x80 }
{
    let len = bytes.len();
    if len >= BLOCK {
        return is_ascii_at::<BLOCK>(bytes, len - BLOCK);
    }
    if len < STEP {
        return if len < HALF {
            are_ends_ascii::<QUARTER>(bytes)
        } else {
            are_ends_ascii::<HALF>(bytes)
        };
    }
    if !are_ends_ascii::<STEP>(bytes) {
        return false;
    }
    len <= 2 * STEP
        || is_ascii_at::<STEP>(bytes, STEP) && is_ascii_at::<STEP>(bytes, len - 2 * STEP)
}

/// Whether the first N bytes and the last N are ASCII. It returns `false` for fewer than N bytes.
#[inline(always)]
fn are_ends_ascii<const N: usize>(bytes: &[u8]) -> bool
    requires { N ≤ 64 }
    ensures long { IsTrue result → N ≤ length bytes.now }
    ensures first { IsTrue result → (i : ℕ) → i < N → slice_index bytes.now i < 0x80 }
    ensures last { IsTrue result → (i : ℕ) → i < N
        → slice_index bytes.now (length bytes.now - N + i) < 0x80 }
{
    bytes.len() >= N && is_ascii_at::<N>(bytes, 0) && is_ascii_at::<N>(bytes, bytes.len() - N)
}
