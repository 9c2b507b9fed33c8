//! Finds the number of bytes of a window that are allowed after those before them. A window is a
//! block or a step with the [`BEFORE`](crate::vectors::BEFORE) bytes before it.
ghost use Rattle.std.specs.Prelude.{◌≡◌, ◌≢◌, ℕ, ◌+◌, ◌-◌, ◌≤◌, ◌<◌, length, slice_index, bit_and, bit_or, bit_xor};
ghost use Rattle.wtf8_core.specs.PairBits.{continuation_due, error_bits, pair_bits, surrogate_pair_difference};
ghost use Rattle.wtf8_core.specs.{EncodedPrefix.with_zeros_before, Neighbours.EachMayFollow, declared.vectors.Encoding.TheVariants.Utf8, declared.vectors.Encoding.TheVariants.Wtf8};

use crate::four_copies;
use crate::vectors::lanes::{
    above, after_zero, and, are_zero, entries, entries_of_16, high_halves, leading_nonzero,
    leading_zero, load, masked, or, xor, xor_with,
};
use crate::vectors::{BLOCK, Encoding, STEP};
use std::simd::prelude::*;

// What can be wrong with a byte after another, one bit for each fault, as Keiser and Lemire have it
// ("Validating UTF-8 in less than one instruction per byte"). A fault is there if all three tables
// have its bit. 01: a lead before no continuation; 02: a continuation after ASCII; 04, 08 and 10:
// overlong of two, three and four bytes, or a lead past F4; 20: past the last code point; 40: a
// surrogate; 80: a continuation after a continuation.

/// By the high half of the first byte.
const FIRST_HIGH: [u8; 64] = four_copies!(2, 2, 2, 2, 2, 2, 2, 2, 128, 128, 128, 128, 5, 1, 73, 49);

/// By its low half.
const FIRST_LOW: [u8; 64] = four_copies!(
    159, 135, 131, 131, 163, 179, 179, 179, 179, 179, 179, 179, 179, 243, 179, 179
);

/// By the high half of the second byte.
const SECOND_HIGH: [u8; 64] = four_copies!(1, 1, 1, 1, 1, 1, 1, 1, 158, 174, 230, 230, 1, 1, 1, 1);

/// What is wrong with each second byte after its first.
#[inline(always)]
fn pair_bits(first: u8x64, second: u8x64) -> u8x64
    ensures { (i : ℕ) → i < 64 → slice_index result i
        ≡ pair_bits (slice_index first i) (slice_index second i) }
{
    let by_high = entries(FIRST_HIGH, high_halves(first));
    let by_low = entries(FIRST_LOW, masked(first, 15));
    and(
        and(by_high, by_low),
        entries(SECOND_HIGH, high_halves(second)),
    )
}

/// 128 where the byte three before is the lead of four bytes, or the byte two before is the lead of
/// three or four; else 0.
#[inline(always)]
fn continuation_due<const N: usize>(three: Simd<u8, N>, two: Simd<u8, N>) -> Simd<u8, N>
    ensures { (i : ℕ) → i < N → slice_index result i
        ≡ continuation_due (slice_index three.entry i) (slice_index two.entry i) }
{
    masked(or(above(three, 0x70), above(two, 0x60)), 0x80)
}

/// Returns what is wrong with each of the 64 bytes after the first four. Bit 40 (hexadecimal) alone
/// is no fault: it marks the start of a surrogate.
#[inline(always)]
fn error_bits(window: &[u8]) -> u8x64
    requires { 68 ≤ length window.now }
    ensures { (i : ℕ) → i < 64 → slice_index result i
        ≡ error_bits (slice_index window.now (1 + i)) (slice_index window.now (2 + i))
        (slice_index window.now (3 + i)) (slice_index window.now (4 + i)) }
{
    let pairs = pair_bits(load(window, 3), load(window, 4));
    xor(pairs, continuation_due(load(window, 1), load(window, 2)))
}

/// Returns what is wrong with each of 16 bytes after the three before it.
#[inline(always)]
fn error_bits_of_16(three: u8x16, two: u8x16, one: u8x16, byte: u8x16) -> u8x16
    ensures { (i : ℕ) → i < 16 → slice_index result i
        ≡ error_bits (slice_index three i) (slice_index two i) (slice_index one i)
        (slice_index byte i) }
{
    let by_high = entries_of_16(FIRST_HIGH, high_halves(one));
    let by_low = entries_of_16(FIRST_LOW, masked(one, 15));
    let by_second = entries_of_16(SECOND_HIGH, high_halves(byte));
    let pairs = and(and(by_high, by_low), by_second);
    xor(pairs, continuation_due(three, two))
}

/// For each of the 64 bytes, 0 where a low surrogate begins directly after a high one.
#[inline(always)]
fn surrogate_pair_difference(window: &[u8]) -> u8x64
    requires { 68 ≤ length window.now }
    ensures { (i : ℕ) → i < 64 → slice_index result i
        ≡ surrogate_pair_difference (slice_index window.now (0 + i))
        (slice_index window.now (1 + i)) (slice_index window.now (3 + i))
        (slice_index window.now (4 + i)) }
{
    let leads = or(
        xor_with(load(window, 0), 0xED),
        xor_with(load(window, 3), 0xED),
    );
    let seconds = or(
        xor_with(masked(load(window, 1), 0xF0), 0xA0),
        xor_with(masked(load(window, 4), 0xF0), 0xB0),
    );
    or(leads, seconds)
}

/// Returns the number of the 64 bytes after the first four that are allowed after those before
/// them, up to the first that isn't. In UTF-8 it also stops at the first that begins a surrogate.
#[inline(always)]
pub(crate) fn allowed_in_block(window: &[u8], encoding: Encoding) -> usize
    requires { 68 ≤ length window.now }
    ensures within { result ≤ 64 }
    ensures pattern { EachMayFollow encoding result window.now }
{
    let wrong = error_bits(window);
    if are_zero(wrong) {
        return BLOCK;
    }
    match encoding {
        Encoding::Utf8 => leading_zero(wrong),
        Encoding::Wtf8 => kept_with_surrogates(wrong, window),
    }
}

/// Returns the number of the 64 bytes that are allowed in WTF-8, up to the first that isn't, given
/// what is wrong with each. Surrogates are allowed, but pairs of them aren't. It is kept out of the
/// loop over blocks in which nothing is wrong, which is faster without it.
#[inline(never)]
fn kept_with_surrogates(wrong: u8x64, window: &[u8]) -> usize
    requires window { 68 ≤ length window.now }
    requires wrong { (i : ℕ) → i < 64 → slice_index wrong i
        ≡ error_bits (slice_index window.now (1 + i)) (slice_index window.now (2 + i))
        (slice_index window.now (3 + i)) (slice_index window.now (4 + i)) }
    ensures within { result ≤ 64 }
    ensures pattern { EachMayFollow Wtf8 result window.now }
{
    leading_zero(masked(wrong, 0xBF)).min(leading_nonzero(surrogate_pair_difference(window)))
}

/// Returns the number of the 16 bytes after the first four that are allowed in UTF-8 after those
/// before them, up to the first that isn't.
#[inline(always)]
pub(crate) fn allowed_in_step(window: &[u8]) -> usize
    requires { 20 ≤ length window.now }
    ensures within { result ≤ 16 }
    ensures pattern { EachMayFollow Utf8 result window.now }
{
    let (three, two) = (load(window, 1), load(window, 2));
    let wrong = error_bits_of_16(three, two, load(window, 3), load(window, 4));
    leading_zero(wrong).min(STEP)
}

/// Returns the number of the first 16 bytes that are allowed in UTF-8, with zeros before them, up
/// to the first that isn't.
#[inline(always)]
pub(crate) fn allowed_in_first_step(bytes: &[u8]) -> usize
    requires { 16 ≤ length bytes.now }
    ensures within { result ≤ 16 }
    ensures pattern { EachMayFollow Utf8 result (with_zeros_before bytes.now) }
{
    let first = u8x16::from_slice(bytes);
    let one = after_zero(first);
    let two = after_zero(one);
    let wrong = error_bits_of_16(after_zero(two), two, one, first);
    leading_zero(wrong).min(STEP)
}
