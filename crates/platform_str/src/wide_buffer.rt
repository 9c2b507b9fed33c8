//! Writes the units of a Windows string into a buffer, as far as there is room, 16 bytes at a time.
//! The buffer is unchanged after the last unit.
ghost use Rattle.std.specs.Prelude.{◌≡◌, ◌++◌, ◌+◌, ◌≤◌, ◌<◌, ◌^◌, ℕ, List, drop, length, count_ones};
ghost use Rattle.wtf8_core.specs.{Wtf8.IsWtf8, UnitsOf.units_of, Truncated.IsTruncated};
ghost use Rattle.platform_str.specs.ToWide.{Appends, units_after_first, chosen};

use crate::to_wide::{first_unit, goes_on_in_ascii, lanes, next_block, put_chosen};
use std::simd::prelude::*;

/// The number of units of a block, and the room that a buffer needs for writing a block into it.
/// Four units after the block are overwritten and restored.
const BLOCK: usize = 16;

const ROOM: usize = BLOCK + 4;

/// Appends units to `count` units in a buffer, as far as there is room, and returns `count` plus
/// their number.
#[inline(always)]
fn push_truncated(buffer: &mut [u16], count: usize, units: &[u16]) -> usize
    requires { count + length units.now < 2 ^ 64 }
    ensures written { Appends units.now buffer.old count buffer.new result }
    ensures len { result ≡ count + length units.now }
{
    let len = count + units.len();
    if len <= buffer.len() {
        buffer[count..len].copy_from_slice(units);
    } else {
        fill_up(buffer, count, units);
    }
    len
}

/// Appends as many units as the buffer has room for, where there is no room for all of them.
fn fill_up(buffer: &mut [u16], count: usize, units: &[u16])
    requires { length buffer.now < count + length units.now }
    ensures { Appends units.now buffer.old count buffer.new (count + length units.now) }
{
    if count < buffer.len() {
        let room = buffer.len() - count;
        buffer[count..].copy_from_slice(&units[..room]);
    }
}

/// Appends the units of a block at which a mask has a bit, where the buffer has room. Units that
/// were overwritten after them are restored.
#[inline(always)]
fn push_in_room(buffer: &mut [u16], count: usize, lanes: [u16; 16], mask: usize) -> usize
    requires bits { mask < 2 ^ 16 }
    requires room { count + 20 ≤ length buffer.old }
    ensures written { Appends (chosen lanes mask) buffer.old count buffer.new result }
    ensures end { result ≡ count + count_ones mask }
{
    let end = count + mask.count_ones() as usize;
    let after = u16x4::from_slice(&buffer[end..]);
    put_chosen(buffer, count, lanes, mask);
    after.copy_to_slice(&mut buffer[end..]);
    end
}

/// Appends the units that up to 16 bytes after the first add. It is kept out of the loop over
/// ASCII, which is faster without it.
#[inline(never)]
fn push_next(buffer: &mut [u16], count: usize, bytes: &[u8], step: usize, pairs: &mut bool) -> usize
    requires step { step ≤ 16 }
    requires within { step < length bytes.now }
    requires room { count + 16 < 2 ^ 64 }
    ensures written { (units : List ℕ) × (Appends units buffer.old count buffer.new result
        × (units_after_first bytes.now ≡ units ++ units_after_first (drop step bytes.now))) }
    ensures few { result ≤ count + step }
{
    let (lanes, mask) = next_block(bytes, step, pairs);
    if buffer.len() >= ROOM && count <= buffer.len() - ROOM {
        return push_in_room(buffer, count, lanes, mask);
    }
    let mut block = [0; BLOCK];
    let len = put_chosen(&mut block, 0, lanes, mask);
    push_truncated(buffer, count, &block[..len])
}

/// Writes the units of a string into a buffer, as far as there is room, and returns the number of
/// units of the string.
pub(crate) fn write_units(string: &[u8], buffer: &mut [u16]) -> usize
    requires { IsWtf8 string.now }
    ensures { IsTruncated (units_of string.now) buffer.old buffer.new result }
{
    if string.is_empty() {
        return 0;
    }
    let mut count = push_truncated(buffer, 0, &[first_unit(string)]);
    let mut rest = string;
    let mut pairs = false;
    while rest.len() > 1 {
        if goes_on_in_ascii(rest) {
            count = push_truncated(buffer, count, &lanes(rest, 1).to_array());
            rest = rest.split_at(BLOCK).1;
        } else {
            let step = (rest.len() - 1).min(BLOCK);
            count = push_next(buffer, count, rest, step, &mut pairs);
            rest = rest.split_at(step).1;
        }
    }
    count
}
