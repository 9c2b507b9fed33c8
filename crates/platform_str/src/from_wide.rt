//! The bytes of units, 16 units at a time. ASCII is narrowed. Any other unit adds bytes that depend
//! on the units beside it, without a branch.
ghost use Rattle.std.specs.Prelude.{◌≡◌, ◌++◌, ◌+◌, ◌*◌, ◌/◌, ◌≤◌, ◌<◌, ℕ, List, true, leb, take, drop, length, slice_index};
ghost use Rattle.std.specs.List.{All, count_by, flat_map};
ghost use Rattle.wtf8_core.specs.{Wtf8.HasUnits, Truncated.IsTruncated};
ghost use Rattle.platform_str.specs.{Bulk.pairs, FromWide.bytes_by_neighbours, FromWide.bytes_after_first, FromWide.word_bytes};

use std::simd::prelude::*;
use wtf8_core::{DecodeWide, first_pair, is_pair, write_form};

/// Returns the number of the first 16 units that are `least` or more.
#[inline(always)]
pub(crate) fn count_from(units: &[u16], least: u16) -> usize
    requires { 16 ≤ length units.now }
    ensures { result ≡ count_by (leb least) (take 16 units.now) }
{
    let ones = u16x16::from_slice(units)
        .simd_ge(u16x16::splat(least))
        .to_bitmask()
        .count_ones();
    ones as usize
}

/// Returns the number of pairs that begin with one of the first 16 units.
#[inline(always)]
fn count_pairs(units: &[u16]) -> usize
    requires { 17 ≤ length units.now }
    ensures { result + pairs (drop 16 units.now) ≡ pairs units.now }
{
    // surrogates are at least 800 (hexadecimal), and the caller has already counted such units
    if count_from(units, 0x800) == 0 {
        return 0;
    }

    // the high six bits, which identify a surrogate, of each unit and of the one after it
    let first = u16x16::from_slice(units) >> u16x16::splat(10);
    let second = u16x16::from_slice(&units[1..]) >> u16x16::splat(10);
    let ones = ((first << u16x16::splat(6)) + second)
        .simd_eq(u16x16::splat(0x36 * 0x40 + 0x37))
        .to_bitmask()
        .count_ones();
    ones as usize
}

/// The number of bytes of the string with these units: one for each unit, one more for each unit
/// from 80 on, one more for each from 800 on, and two less for each pair (hexadecimal).
pub(crate) fn wtf8_len(units: &[u16]) -> usize
    ensures { (string : List ℕ) → HasUnits string units.now → result ≡ length string }
{
    let mut len = 0;
    let mut pairs = 0;
    let mut rest = units;
    while let [unit, after @ ..] = rest {
        if rest.len() > 16 {
            len += 16 + count_from(rest, 0x80) + count_from(rest, 0x800);
            pairs += count_pairs(rest);
            rest = rest.split_at(16).1;
        } else {
            len += 1 + usize::from(*unit >= 0x80) + usize::from(*unit >= 0x800);
            pairs += usize::from(first_pair(rest).is_some());
            rest = after;
        }
    }
    len - pairs - pairs
}

/// Whether there are at least 16 units after the first and the next 16 are ASCII.
#[inline(always)]
fn goes_on_in_ascii(units: &[u16]) -> bool
    ensures room { result ≡ true → 16 < length units.now }
    ensures ascii { result ≡ true → All (λ u. u < 0x80) (take 16 (drop 1 units.now)) }
{
    units.len() > 16
        && u16x16::from_slice(&units[1..])
            .simd_ge(u16x16::splat(0x80))
            .to_bitmask()
            == 0
}

/// Returns the bytes that each of 16 units after the first adds, as a word. The first byte is in
/// its lowest bits, and the number of bytes in its highest.
#[inline(always)]
fn unit_words(units: &[u16]) -> [u32; 16]
    requires { 18 ≤ length units.now }
    ensures { (i : ℕ) → i < 16 → word_bytes (slice_index result i)
        ≡ bytes_by_neighbours (slice_index units.now i) (slice_index units.now (1 + i))
        (slice_index units.now (2 + i)) }
{
    let before = u16x16::from_slice(units);
    let unit = u16x16::from_slice(&units[1..]);
    let after = u16x16::from_slice(&units[2..]);
    let ten = u16x16::splat(10);
    let six = u16x16::splat(6);

    // the high six bits of two units identify a pair
    let pair = u16x16::splat(0x36 * 0x40 + 0x37);
    let ends = (((before >> ten) << six) + (unit >> ten)).simd_eq(pair);
    let begins = (((unit >> ten) << six) + (after >> ten)).simd_eq(pair);

    // the high 16 bits of the three bytes that a high surrogate gives, and else the unit
    let high = (unit << u16x16::splat(4)) + (after >> six) + u16x16::splat(0x8090);
    let value = begins.select(high, unit);
    let lead = begins.select(u16x16::splat(0xF0), u16x16::splat(0xE0))
        + (value >> u16x16::splat(12));
    let middle = u16x16::splat(0x80) + (value >> six) % u16x16::splat(0x40);
    let last = u16x16::splat(0x80) + value % u16x16::splat(0x40);

    let long = unit.simd_ge(u16x16::splat(0x800));
    let ascii = unit.simd_lt(u16x16::splat(0x80));
    let first = long.select(lead, u16x16::splat(0xC0) + (value >> six));
    let first = ends.select(last, first);
    let first = ascii.select(unit, first);
    let second = long.select(middle, last);
    let count = ascii.select(u16x16::splat(1), u16x16::splat(2));
    let count = long.select(u16x16::splat(3), count);
    let count = ends.select(u16x16::splat(1), count);

    let low = first + (second << u16x16::splat(8));
    let high = last + (count << u16x16::splat(8));
    (low.cast::<u32>() + (high.cast::<u32>() << u32x16::splat(16))).to_array()
}

/// Writes the bytes of words from index `at` on, and returns the index after them. It also
/// overwrites up to four bytes after them.
#[inline(never)]
fn put_words(bytes: &mut [u8], at: usize, words: &[u32]) -> usize
    requires few { (i : ℕ) → i < length words.now → slice_index words.now i / 0x100_0000 ≤ 4 }
    requires room { at + length (flat_map word_bytes words.now) + 4 ≤ length bytes.old }
    ensures written { take result bytes.new ≡ take at bytes.old ++ flat_map word_bytes words.now }
    ensures end { result ≡ at + length (flat_map word_bytes words.now) }
    ensures len { length bytes.new ≡ length bytes.old }
{
    let mut end = at;
    for i in 0..words.len() {
        Simd::<u32, 1>::splat(words[i])
            .to_le_bytes()
            .copy_to_slice(&mut bytes[end..]);
        end += (words[i] / 0x100_0000) as usize;
    }
    end
}

/// Writes the bytes that 16 units after the first add, from index `at` on, and returns the index
/// after them. It is kept out of the loop over ASCII, which is faster without it.
#[inline(never)]
fn put_block(bytes: &mut [u8], at: usize, units: &[u16]) -> usize
    requires some { 20 < length units.now }
    requires room { at + length (bytes_after_first units.now) ≤ length bytes.old }
    ensures written { take result bytes.new ++ bytes_after_first (drop 16 units.now)
        ≡ take at bytes.old ++ bytes_after_first units.now }
    ensures end { result + length (bytes_after_first (drop 16 units.now))
        ≡ at + length (bytes_after_first units.now) }
    ensures len { length bytes.new ≡ length bytes.old }
{
    put_words(bytes, at, &unit_words(units))
}

/// Writes the bytes that a unit adds, from index `at` on, and returns the index after them.
#[tactic(auto, using(crate::proofs::lemmas::FromWide::giving))]
#[inline(always)]
fn put_unit(bytes: &mut [u8], at: usize, before: u16, unit: u16, after: u16) -> usize
    requires { at + length (bytes_by_neighbours before unit after) ≤ length bytes.old }
    ensures written { take result bytes.new
        ≡ take at bytes.old ++ bytes_by_neighbours before unit after }
    ensures end { result ≡ at + length (bytes_by_neighbours before unit after) }
    ensures len { length bytes.new ≡ length bytes.old }
{
    if unit < 0xD800 {
        return write_form(bytes, at, u32::from(unit));
    }
    if is_pair(before, unit) {
        bytes[at] = (0x80 + unit % 0x40) as u8;
        return at + 1;
    }
    if is_pair(unit, after) {
        let high = unit - 0xD7C0;
        bytes[at] = (0xF0 + high / 0x100) as u8;
        bytes[at + 1] = (0x80 + high / 4 % 0x40) as u8;
        bytes[at + 2] = (0x80 + high % 4 * 0x10 + after / 0x40 % 0x10) as u8;
        return at + 3;
    }
    write_form(bytes, at, u32::from(unit))
}

/// The unit at an index, or 0 if there is none.
#[inline(always)]
fn unit_or_zero(units: &[u16], at: usize) -> u16
    ensures { result ≡ slice_index units.now at }
{
    if at < units.len() { units[at] } else { 0 }
}

/// Writes the bytes of units over others of the same number.
#[inline(always)]
pub(crate) fn write_wtf8(units: &[u16], bytes: &mut [u8])
    requires { (string : List ℕ) → HasUnits string units.now → length bytes.old ≡ length string }
    ensures { HasUnits bytes.new units.now }
{
    if units.is_empty() {
        return;
    }
    let mut end = put_unit(bytes, 0, 0, units[0], unit_or_zero(units, 1));
    let mut rest = units;
    while rest.len() > 1 {
        if goes_on_in_ascii(rest) {
            let block = u16x16::from_slice(&rest[1..]).cast::<u8>();
            block.copy_to_slice(&mut bytes[end..]);
            end += 16;
            rest = rest.split_at(16).1;
        } else if rest.len() > 20 {
            end = put_block(bytes, end, rest);
            rest = rest.split_at(16).1;
        } else {
            end = put_unit(bytes, end, rest[0], rest[1], unit_or_zero(rest, 2));
            rest = rest.split_at(1).1;
        }
    }
}

/// Writes the first bytes of units over others of the same number.
fn fill(units: &[u16], bytes: &mut [u8])
    requires { (string : List ℕ) → HasUnits string units.now → length bytes.old ≤ length string }
    ensures { (string : List ℕ) × (HasUnits string units.now
        × (bytes.new ≡ take (length bytes.old) string)) }
{
    let mut left = DecodeWide::new(units);
    let mut end = 0;
    while end < bytes.len() {
        let Some(byte) = left.next() else {
            return;
        };
        bytes[end] = byte;
        end += 1;
    }
}

/// Writes the bytes of units into a buffer, as far as there is room, and returns the number of
/// bytes of the whole string.
pub(crate) fn write_bytes(units: &[u16], buffer: &mut [u8]) -> usize
    ensures { (string : List ℕ) × (HasUnits string units.now
        × IsTruncated string buffer.old buffer.new result) }
{
    let len = wtf8_len(units);
    if len <= buffer.len() {
        write_wtf8(units, &mut buffer[..len]);
    } else {
        fill(units, buffer);
    }
    len
}
