//! Examines 64 bytes at once, and counts those before the first that may begin a character that is
//! written as a token on one line.
ghost use Rattle.std.specs.Prelude.{◌≡◌, ℕ, ◌+◌, ◌*◌, ◌/◌, ◌≤◌, ◌<◌, false, length, slice_index};
ghost use Rattle.os_quote.specs.Hidden.{is_suspect, byte_bits, kind_bits, second_bits, third_bits};

use crate::find_tables::{
    FIRST_HIGH, FIRST_LOW, OTHER_HIGH, OTHER_LOW, SECOND_HIGH, SECOND_LOW, THIRD_HIGH, THIRD_LOW,
};
use std::simd::prelude::*;
use wtf8_core::vectors::lanes::{
    and, are_zero, entries, high_halves, leading_zero, load, masked, or,
};

/// The bytes of a block.
pub(crate) const BLOCK: usize = 64;

/// The number of bytes before the first that may be a suspect, among the first 64.
#[inline(always)]
pub(crate) fn clear_len(bytes: &[u8]) -> usize
    requires { 66 ≤ length bytes.now }
    ensures within { result ≤ 64 }
    ensures clear { (i : ℕ) → i < result
        → is_suspect (slice_index bytes.now (0 + i)) (slice_index bytes.now (1 + i))
        (slice_index bytes.now (2 + i)) ≡ false }
{
    let leads = kind_bits(load(bytes, 0));
    if are_zero(leads) {
        return BLOCK;
    }
    let pairs = and(leads, second_bits(load(bytes, 1)));
    if are_zero(pairs) {
        return BLOCK;
    }
    let suspects = and(pairs, third_bits(load(bytes, 2)));
    if are_zero(suspects) {
        return BLOCK;
    }
    leading_zero(suspects)
}

/// The kinds of characters that each byte may begin.
fn kind_bits(lanes: u8x64) -> u8x64
    ensures { (i : ℕ) → i < 64 → slice_index result i ≡ kind_bits (slice_index lanes i) }
{
    bits(FIRST_HIGH, FIRST_LOW, lanes)
}

/// The kinds of characters that may have each byte second.
fn second_bits(lanes: u8x64) -> u8x64
    ensures { (i : ℕ) → i < 64 → slice_index result i ≡ second_bits (slice_index lanes i) }
{
    bits(SECOND_HIGH, SECOND_LOW, lanes)
}

/// The kinds of characters that may have each byte third.
fn third_bits(lanes: u8x64) -> u8x64
    ensures { (i : ℕ) → i < 64 → slice_index result i ≡ third_bits (slice_index lanes i) }
{
    let some = bits(THIRD_HIGH, THIRD_LOW, lanes);
    or(some, bits(OTHER_HIGH, OTHER_LOW, lanes))
}

/// The kinds of each byte by tables of its halves, four copies of 16 entries each.
#[inline(always)]
fn bits(high: [u8; 64], low: [u8; 64], lanes: u8x64) -> u8x64
    requires high { (i : ℕ) → i < 64 → (k : ℕ) → k < 16
        → slice_index high (i / 16 * 16 + k) ≡ slice_index high k }
    requires low { (i : ℕ) → i < 64 → (k : ℕ) → k < 16
        → slice_index low (i / 16 * 16 + k) ≡ slice_index low k }
    ensures { (i : ℕ) → i < 64 → slice_index result i
        ≡ byte_bits high low (slice_index lanes i) }
{
    let by_high = entries(high, high_halves(lanes));
    and(by_high, entries(low, masked(lanes, 15)))
}
