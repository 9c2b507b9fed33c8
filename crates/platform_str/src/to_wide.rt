//! The units of a Windows string, 16 bytes at a time. ASCII is widened. Any other byte adds units
//! that depend on the bytes beside it, without a branch. Added units are packed four at a time,
//! which takes three quarters of the time of packing them one by one.
ghost use Rattle.std.specs.Prelude.{◌≡◌, ◌++◌, ◌+◌, ◌/◌, ◌%◌, ◌^◌, ◌≤◌, ◌<◌, ℕ, true, if◌then◌else◌, take, drop, length, slice_index, count_ones, IsOk, OnOk, vec_len, vec_capacity};
ghost use Rattle.wtf8_core.specs.{Wtf8.IsWtf8, UnitsOf.units_of};
ghost use Rattle.platform_str.specs.{Lanes.HasLanes, ToWide.adds_unit, ToWide.unit_at, ToWide.units_after_first, ToWide.chosen};

use crate::memory::Pushed;
use std::alloc::Allocator;
use std::simd::prelude::*;
use wtf8_core::vectors::window::put_in_zeros;

/// Whether each of the 16 bytes from index `from` on is below a bound.
#[inline(always)]
fn are_below(bytes: &[u8], from: usize, bound: u8) -> bool
    requires { from + 16 ≤ length bytes.now }
    ensures { result ≡ true → (i : ℕ) → i < 16 → slice_index bytes.now (from + i) < bound }
{
    u8x16::from_slice(&bytes[from..])
        .simd_ge(u8x16::splat(bound))
        .to_bitmask()
        == 0
}

/// The 16 bytes from index `from` on, each in a lane of 16 bits: if they are ASCII, their units.
#[inline(always)]
pub(crate) fn lanes(bytes: &[u8], from: usize) -> u16x16
    requires { from + 16 ≤ length bytes.now }
    ensures units { result ≡ take 16 (drop from bytes.now) }
    ensures lanes { HasLanes result (λ i. slice_index bytes.now (from + i)) }
{
    u8x16::from_slice(&bytes[from..]).cast::<u16>()
}

/// Returns the unit that each of 16 bytes after the first adds, if it adds one.
///
/// Halves of pairs are only computed once a block may have some, after a lead of four bytes.
/// `pairs` is set then, so that no later block is tested. Without halves, other characters take
/// 0.86 of the time, and testing each block costs mixed text a tenth.
#[inline(always)]
fn unit_lanes(bytes: &[u8], pairs: &mut bool) -> [u16; 16]
    requires { 19 ≤ length bytes.now }
    ensures { (i : ℕ) → i < 16 → slice_index result i
        ≡ unit_at (slice_index bytes.now i) (slice_index bytes.now (1 + i))
        (slice_index bytes.now (2 + i)) (slice_index bytes.now (3 + i)) }
{
    let before = lanes(bytes, 0);
    let first = lanes(bytes, 1);
    let two = first * u16x16::splat(0x40) + lanes(bytes, 2) % u16x16::splat(0x40);
    let three = two * u16x16::splat(0x40) + lanes(bytes, 3) % u16x16::splat(0x40);
    let unit = two % u16x16::splat(0x800);
    let unit = first.simd_ge(u16x16::splat(0xE0)).select(three, unit);
    let ascii = first.simd_lt(u16x16::splat(0x80));
    if !*pairs && (are_below(bytes, 0, 0xF0) & are_below(bytes, 1, 0xF0)) {
        return ascii.select(first, unit).to_array();
    }
    *pairs = true;
    let high = three / u16x16::splat(0x10) + u16x16::splat(0xD7C0);
    let low = three % u16x16::splat(0x400) + u16x16::splat(0xDC00);
    let unit = first.simd_ge(u16x16::splat(0xF0)).select(high, unit);
    let unit = before.simd_ge(u16x16::splat(0xF0)).select(low, unit);
    ascii.select(first, unit).to_array()
}

/// Returns a bit for each of up to 16 bytes after the first, from the lowest on: whether the byte
/// adds a unit.
#[inline(always)]
fn unit_mask(bytes: &[u8], count: usize) -> usize
    requires some { 17 ≤ length bytes.now }
    requires count { count ≤ 16 }
    ensures few { result < 2 ^ count }
    ensures bits { (i : ℕ) → i < count → result / 2 ^ i % 2
        ≡ (if adds_unit (slice_index bytes.now i) (slice_index bytes.now (1 + i)) then 1 else 0) }
{
    let one = u16x16::splat(1);
    let halves = lanes(bytes, 1) / u16x16::splat(0x40);
    let marks = halves
        .simd_ne(u16x16::splat(2))
        .select(one, u16x16::splat(0));
    let mask = lanes(bytes, 0)
        .simd_ge(u16x16::splat(0xF0))
        .select(one, marks)
        .simd_ne(u16x16::splat(0))
        .to_bitmask() as usize;
    mask % (1 << count)
}

/// For each mask of four bits, where it has them, and zeros after that.
const CHOICES: [u16; 64] = [
    0, 0, 0, 0, 0, 0, 0, 0, 1, 0, 0, 0, 0, 1, 0, 0, 2, 0, 0, 0, 0, 2, 0, 0, 1, 2, 0, 0, 0, 1, 2, 0,
    3, 0, 0, 0, 0, 3, 0, 0, 1, 3, 0, 0, 0, 1, 3, 0, 2, 3, 0, 0, 0, 2, 3, 0, 1, 2, 3, 0, 0, 1, 2, 3,
];

/// Those of four units at which a mask has a bit, and others after them.
#[inline(always)]
fn chosen_first(units: u16x4, mask: usize) -> u16x4
    requires { mask < 16 }
    ensures { take (length (chosen units mask)) result ≡ chosen units mask }
{
    units.swizzle_dyn_within::<4>(u16x4::from_slice(&CHOICES[4 * mask..]))
}

/// Writes the units of a block at which a mask has a bit, from index `at` on, and returns the index
/// after them. Within the block it may also overwrite up to four units after them.
#[inline(always)]
pub(crate) fn put_chosen(units: &mut [u16], at: usize, lanes: [u16; 16], mask: usize) -> usize
    requires bits { mask < 2 ^ 16 }
    requires room { at + 16 ≤ length units.old }
    ensures written { take result units.new ≡ take at units.old ++ chosen lanes mask }
    ensures after_four { drop (result + 4) units.new ≡ drop (result + 4) units.old }
    ensures end { result ≡ at + count_ones mask }
    ensures len { length units.new ≡ length units.old }
{
    let mut end = at;
    let mut left = mask;
    for i in 0..4 {
        let four = u16x4::from_slice(&lanes[4 * i..]);
        chosen_first(four, left % 16).copy_to_slice(&mut units[end..]);
        end += (left % 16).count_ones() as usize;
        left /= 16;
    }
    end
}

/// Returns what up to 16 bytes after the first add: a unit for each byte, and a mask of the bytes
/// that add theirs.
#[tactic(auto, using(crate::proofs::lemmas::Choices::few_bits))]
#[inline(always)]
pub(crate) fn next_block(bytes: &[u8], count: usize, pairs: &mut bool) -> ([u16; 16], usize)
    requires count { count ≤ 16 }
    requires within { count < length bytes.now }
    ensures added { units_after_first bytes.now
        ≡ chosen result.0 result.1 ++ units_after_first (drop count bytes.now) }
    ensures few { count_ones result.1 ≤ count }
    ensures bits { result.1 < 2 ^ 16 }
{
    if bytes.len() >= 19 {
        return (unit_lanes(bytes, pairs), unit_mask(bytes, count));
    }
    let mut window = [0; 19];
    put_in_zeros(bytes, &mut window, 0);
    (unit_lanes(&window, pairs), unit_mask(&window, count))
}

/// Appends the units that up to 16 bytes after the first add. It is kept out of the loop over
/// ASCII, which is faster without it.
#[inline(never)]
fn push_next<A: Allocator>(
    units: &mut Vec<u16, A>,
    bytes: &[u8],
    count: usize,
    pairs: &mut bool,
) -> Pushed
    requires count { count ≤ 16 }
    requires within { count < length bytes.now }
    ensures ok { OnOk result (units.new.items ++ units_after_first (drop count bytes.now)
        ≡ units.old.items ++ units_after_first bytes.now) }
    ensures room { vec_len units.old + count ≤ vec_capacity units.old → IsOk result }
    ensures capacity { vec_capacity units.old ≤ vec_capacity units.new }
    ensures len { vec_len units.new ≤ vec_len units.old + count }
{
    let (lanes, mask) = next_block(bytes, count, pairs);
    if count == 16 {
        let at = units.len();
        units.extend_from_slice(&lanes)?;
        let end = put_chosen(units.as_mut_slice(), at, lanes, mask);
        units.truncate(end);
    } else {
        let mut block = [0; 16];
        let len = put_chosen(&mut block, 0, lanes, mask);
        units.extend_from_slice(&block[..len])?;
    }
    Ok(())
}

/// The byte at an index, or 0 if there is none.
#[inline(always)]
fn byte_or_zero(bytes: &[u8], at: usize) -> u8
    ensures { result ≡ slice_index bytes.now at }
{
    if at < bytes.len() { bytes[at] } else { 0 }
}

/// The unit that the first byte of a string adds.
#[inline(always)]
pub(crate) fn first_unit(string: &[u8]) -> u16
    requires { 0 < length string.now }
    ensures { result ≡ unit_at 0 (slice_index string.now 0) (slice_index string.now 1)
        (slice_index string.now 2) }
{
    let first = string[0];
    if first < 0x80 {
        return u16::from(first);
    }
    let two = u16::from(first) * 0x40 + u16::from(byte_or_zero(string, 1) % 0x40);
    if first < 0xE0 {
        return two % 0x800;
    }
    let three = two % 0x400 * 0x40 + u16::from(byte_or_zero(string, 2) % 0x40);
    if first < 0xF0 {
        three
    } else {
        0xD7C0 + three / 0x10
    }
}

/// Whether there are at least 16 bytes after the first and the next 16 are ASCII.
#[inline(always)]
pub(crate) fn goes_on_in_ascii(bytes: &[u8]) -> bool
    ensures room { result ≡ true → 16 < length bytes.now }
    ensures ascii { result ≡ true → (i : ℕ) → i < 16 → slice_index bytes.now (1 + i) < 0x80 }
{
    bytes.len() > 16 && are_below(bytes, 1, 0x80)
}

/// Appends the units of a string. If the vector has room for as many units as the string has bytes,
/// this doesn't allocate.
pub(crate) fn push_units<A: Allocator>(units: &mut Vec<u16, A>, string: &[u8]) -> Pushed
    requires { IsWtf8 string.now }
    ensures ok { OnOk result (units.new.items ≡ units.old.items ++ units_of string.now) }
    ensures room { vec_len units.old + length string.now ≤ vec_capacity units.old → IsOk result }
{
    if string.is_empty() {
        return Ok(());
    }
    units.push(first_unit(string))?;
    let mut rest = string;
    let mut pairs = false;
    while rest.len() > 1 {
        if goes_on_in_ascii(rest) {
            units.extend_from_slice(&lanes(rest, 1).to_array())?;
            rest = rest.split_at(16).1;
        } else if rest.len() <= 16 && rest[1] < 0x80 {
            // the last letters of ASCII one by one: 49 ns for a path of 10 to 80 bytes, and 71 by a
            // block
            units.push(u16::from(rest[1]))?;
            rest = rest.split_at(1).1;
        } else {
            let count = (rest.len() - 1).min(16);
            push_next(units, rest, count, &mut pairs)?;
            rest = rest.split_at(count).1;
        }
    }
    Ok(())
}
