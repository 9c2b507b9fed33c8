//! The first and the last occurrence of a needle. The searches themselves are those of `memchr`.
ghost use Rattle.std.specs.Prelude.{◌≡◌, ◌↔◌, ◌+◌, ◌-◌, ◌≤◌, ℕ, List, IsTrue, IfSome, MatchOption, length, slice_index};
ghost use Rattle.memchr.specs.Find.{FindsNeedle, FindsLastNeedle, IsFirstByte, NoneBefore, Nowhere, OccursAt as NeedleOccursAt, is_byte};
ghost use Rattle.memchr.specs.Pairs.{IsPairFinderOf, IsPairOf};

use crate::compare::are_same;
use memchr::arch::all::packedpair::{Finder, Pair};
use memchr::{memchr_iter, memmem, memrchr};
use wtf8_core::vectors::window::put_in_zeros;

/// The longest needle that is searched for by two of its bytes, or by its last byte alone.
const LONGEST: usize = 32;

/// In strings longer than this, preparing `memmem` for a needle pays off, unless the needle's
/// letters are rare.
const SHORT: usize = 128;

/// The limit [`SHORT`] for a needle of two bytes, which occurs wherever its pair of bytes does.
const SHORT_FOR_TWO: usize = 1024;

/// With at least this many bytes, a search for two bytes that are up to three apart reads whole
/// vectors.
const ENOUGH: usize = 35;

/// The length of a copy of fewer bytes, with zeros after them.
const WINDOW: usize = 64;

/// The index of the first occurrence of a needle. A needle of one byte is searched for as a byte.
#[inline(always)]
#[tactic(auto, using(crate::proofs::lemmas::OneByte::first_byte_of_needle))]
pub(crate) fn first_of(bytes: &[u8], needle: &[u8]) -> Option<usize>
    ensures { FindsNeedle bytes.now needle.now 0 result }
{
    if needle.len() == 1 {
        return first_byte(needle[0], bytes);
    }
    first_by_pair(bytes, needle)
}

/// The index of the last occurrence of a needle. A needle of one byte is searched for as a byte.
#[inline(always)]
#[tactic(auto, using(crate::proofs::lemmas::OneByte::last_byte_of_needle))]
pub(crate) fn last_of(bytes: &[u8], needle: &[u8]) -> Option<usize>
    ensures { FindsLastNeedle bytes.now needle.now result }
{
    if needle.len() == 1 {
        return memrchr(needle[0], bytes);
    }
    last_by_end(bytes, needle)
}

/// Whether the needle occurs at index `at`.
#[inline(always)]
pub(crate) fn occurs_at(bytes: &[u8], needle: &[u8], at: usize) -> bool
    requires { at ≤ length bytes.now }
    ensures { IsTrue result ↔ NeedleOccursAt bytes.now needle.now at }
{
    let (_, rest) = bytes.split_at(at);
    needle.len() <= rest.len() && are_same(rest.split_at(needle.len()).0, needle)
}

/// Whether an occurrence of the needle ends at index `at`.
#[inline(always)]
pub(crate) fn ends_at(bytes: &[u8], needle: &[u8], at: usize) -> bool
    requires { at ≤ length bytes.now }
    ensures { IsTrue result
        ↔ ((length needle.now ≤ at)
        × NeedleOccursAt bytes.now needle.now (at - length needle.now)) }
{
    needle.len() <= at && occurs_at(bytes, needle, at - needle.len())
}

/// The index of the first occurrence of a byte. The iterator is faster if that index is small.
#[inline(never)]
#[tactic(auto, using(crate::proofs::lemmas::Needles::first_taken))]
fn first_byte(byte: u8, bytes: &[u8]) -> Option<usize>
    ensures { IsFirstByte (is_byte byte) bytes.now result }
{
    let mut indices = memchr_iter(byte, bytes);
    indices.next()
}

/// The index of the first occurrence of a needle, which often is the start. `memmem` searches for
/// long needles, and in long strings.
#[inline(never)]
fn first_by_pair(bytes: &[u8], needle: &[u8]) -> Option<usize>
    ensures { FindsNeedle bytes.now needle.now 0 result }
{
    let short = if needle.len() == 2 {
        SHORT_FOR_TWO
    } else {
        SHORT
    };
    if needle.len() < 2 || LONGEST < needle.len() || short < bytes.len() {
        return first_by_memmem(bytes, needle);
    }
    if bytes.len() < needle.len() {
        return None;
    }
    if occurs_at(bytes, needle, 0) {
        return Some(0);
    }
    first_in_short(bytes, needle)
}

/// The index of the first occurrence of any needle in any string, by `memmem`.
#[inline(never)]
fn first_by_memmem(bytes: &[u8], needle: &[u8]) -> Option<usize>
    ensures { FindsNeedle bytes.now needle.now 0 result }
{
    if occurs_at(bytes, needle, 0) {
        return Some(0);
    }
    memmem::find(bytes, needle)
}

/// The index of the first occurrence of a needle in a short string, by two of the needle's bytes.
#[inline(never)]
fn first_in_short(bytes: &[u8], needle: &[u8]) -> Option<usize>
    requires at_least { 2 ≤ length needle.now }
    requires fits { length needle.now ≤ length bytes.now }
    ensures { FindsNeedle bytes.now needle.now 0 result }
{
    let Some(pair) = pair_of(needle) else {
        return memmem::find(bytes, needle);
    };
    let finder = Finder::with_pair(needle, pair);
    let mut window = [0; WINDOW];
    first_in_copy(&finder, bytes, copied(bytes, &mut window), needle)
}

/// A copy of the bytes in the window, with zeros after them, or the bytes themselves if they are
/// enough.
#[inline(always)]
fn copied<'a>(bytes: &'a [u8], window: &'a mut [u8; WINDOW]) -> &'a [u8]
    requires { (i : ℕ) → slice_index window.old i ≡ 0 }
    ensures { NeedleOccursAt result.now bytes.now 0 }
{
    if ENOUGH <= bytes.len() {
        return bytes;
    }
    put_in_zeros(bytes, window, 0);
    window
}

/// Two bytes of a needle. If the needle has more than two bytes, the first isn't one of them. It is
/// often a separator, or the first byte of a character, and so more common than those after it.
#[inline(always)]
fn pair_of(needle: &[u8]) -> Option<Pair>
    ensures { IfSome result (λ pair. IsPairOf pair needle.now) }
{
    match needle.len() {
        2 => Pair::with_indices(needle, 0, 1),
        3 => Pair::with_indices(needle, 1, 2),
        _ => Pair::with_indices(needle, 1, 3),
    }
}

/// The index of the first occurrence of a needle, by a copy of the bytes, which may be longer than
/// they are. The needle is compared where its pair of bytes occurs, at index 0 a second time. After
/// four such indices where it doesn't occur, `memmem` searches for it.
#[inline(always)]
fn first_in_copy(finder: &Finder, bytes: &[u8], copy: &[u8], needle: &[u8]) -> Option<usize>
    requires finder { IsPairFinderOf finder.now needle.now }
    requires copy { NeedleOccursAt copy.now bytes.now 0 }
    ensures { FindsNeedle bytes.now needle.now 0 result }
{
    let mut from = 0;
    for _ in 0..4 {
        let Some(at) = next_candidate(finder, copy, from) else {
            return None;
        };
        if bytes.len() <= at {
            return None;
        }
        if occurs_at(bytes, needle, at) {
            return Some(at);
        }
        from = at + 1;
    }
    first_from(bytes, needle, from)
}

/// The first index, from `from` on, at which the needle's pair of bytes occurs.
#[inline(always)]
fn next_candidate(finder: &Finder, bytes: &[u8], from: usize) -> Option<usize>
    requires { from ≤ length bytes.now }
    ensures { (needle : List ℕ) → IsPairFinderOf finder.now needle → MatchOption result
        (Nowhere (NeedleOccursAt bytes.now needle) from (length bytes.now + 1))
        (NoneBefore (NeedleOccursAt bytes.now needle) from (length bytes.now)) }
{
    match finder.find_prefilter(bytes.split_at(from).1) {
        Some(at) => Some(from + at),
        None => None,
    }
}

/// The index of the first occurrence of a needle from index `from` on.
#[inline(always)]
fn first_from(bytes: &[u8], needle: &[u8], from: usize) -> Option<usize>
    requires { from ≤ length bytes.now }
    ensures { FindsNeedle bytes.now needle.now from result }
{
    match memmem::find(bytes.split_at(from).1, needle) {
        Some(at) => Some(from + at),
        None => None,
    }
}

/// The index of the last occurrence of a needle. The needle is compared where its last byte occurs.
/// After four such indices where the needle doesn't end, `memmem` searches the bytes before them.
#[inline(never)]
fn last_by_end(bytes: &[u8], needle: &[u8]) -> Option<usize>
    ensures { FindsLastNeedle bytes.now needle.now result }
{
    if needle.len() < 2 || LONGEST < needle.len() {
        return memmem::rfind(bytes, needle);
    }
    let last = needle[needle.len() - 1];
    let mut end = bytes.len();
    for _ in 0..4 {
        let (prefix, _) = bytes.split_at(end);
        let Some(at) = memrchr(last, prefix) else {
            return None;
        };
        if ends_at(bytes, needle, at + 1) {
            return Some(at + 1 - needle.len());
        }
        end = at;
    }
    memmem::rfind(bytes.split_at(end).0, needle)
}
