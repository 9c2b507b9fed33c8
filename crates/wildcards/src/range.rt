//! Ranges of letters.
ghost use Rattle.std.specs.Char.{to_ascii_lowercase};
ghost use Rattle.std.specs.Prelude.{◌≡◌, ◌<◌, length, ℕ, IfSome};
ghost use Rattle.wildcards.specs.Ranges.{is_in, lies_in, further, reaches, AreOrdered};
ghost use Rattle.wildcards.specs.Small.{HasOneSmall};

use std::alloc::Allocator;

/// A range of letters, from the first to the last. A reversed one is empty.
#[derive(Clone, Copy, PartialEq, Eq)]
pub struct Range {
    pub first: u32,
    pub last: u32,
}

/// The greater of two letters.
#[inline(always)]
fn further(reach: u32, last: u32) -> u32
    ensures { result ≡ further reach last }
{
    if reach < last { last } else { reach }
}

/// The ranges, each with the greatest last letter of those up to it.
fn reaches<A: Allocator>(ranges: Vec<Range, A>) -> Vec<Range, A>
    ensures { result.items ≡ reaches 0 ranges.items }
{
    let mut reaching = ranges;
    let mut reach = 0;
    let mut at = 0;
    while at < reaching.len() {
        let range = reaching[at];
        reach = further(reach, range.last);
        reaching[at] = Range {
            first: range.first,
            last: reach,
        };
        at += 1;
    }
    reaching
}

/// Ranges of the same letters, whose first and last letters ascend.
pub(crate) fn in_order<A: Allocator>(ranges: Vec<Range, A>) -> Vec<Range, A>
    ensures alike { (letter : ℕ) → is_in result.items letter ≡ is_in ranges.items letter }
    ensures ordered { AreOrdered result.items }
{
    let mut sorted = ranges;
    sorted.sort_unstable_by_key(|range| range.first);
    reaches(sorted)
}

/// Ranges among these, in which a letter is exactly if it is in one of them all. Two ranges are
/// compared, and the results added up, since a branch on one would be mispredicted every second time.
#[inline(always)]
fn narrowed(ranges: &[Range], letter: u32) -> &[Range]
    requires ordered { AreOrdered ranges.now }
    requires some { 2 < length ranges.now }
    ensures alike { is_in result.now letter ≡ is_in ranges.now letter }
    ensures ordered { AreOrdered result.now }
    ensures fewer { length result.now < length ranges.now }
{
    let third = ranges.len() / 3;
    let first = usize::from(ranges[third].first <= letter);
    let second = usize::from(ranges[2 * third].first <= letter);
    let (_, rest) = ranges.split_at(third * (first + second));
    let (middle, _) = rest.split_at(ranges.len() - 2 * third);
    middle
}

/// Whether a letter is in one of the ranges, whose first and last letters ascend.
pub(crate) fn is_in(ranges: &[Range], letter: u32) -> bool
    requires { AreOrdered ranges.now }
    ensures { result ≡ is_in ranges.now letter }
{
    let mut left = ranges;
    while left.len() > 2 {
        left = narrowed(left, letter);
    }
    let mut found = false;
    while let Some((range, rest)) = left.split_first() {
        found |= range.first <= letter && letter <= range.last;
        left = rest;
    }
    found
}

/// The small letter of a capital of ASCII, and any other letter itself.
#[inline(always)]
pub(crate) fn small_letter(letter: u32) -> u32
    ensures { result ≡ to_ascii_lowercase letter }
{
    if letter < 0x41 {
        letter
    } else if letter < 0x5B {
        letter + 0x20
    } else {
        letter
    }
}

/// The small letter of all letters of ASCII in the ranges, if they have one.
pub(crate) fn one_small(ranges: &[Range]) -> Option<u32>
    ensures { IfSome result (λ small. HasOneSmall ranges.entry.now small) }
{
    let (first, _) = ranges.split_first()?;
    let small = small_letter(first.first);
    let mut left = ranges;
    while let Some((range, rest)) = left.split_first() {
        if range.first < 0x80 {
            if range.first != range.last || small_letter(range.first) != small {
                return None;
            }
        }
        left = rest;
    }
    Some(small)
}
