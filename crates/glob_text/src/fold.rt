//! Letters without case.
ghost use Rattle.std.specs.Prelude.{◌≡◌, ◌↔◌, map, IfOk, IsTrue, OnOk};
ghost use Rattle.glob_text.specs.Marks.{mark_of};
ghost use Rattle.glob_text.specs.Folded.{IsAlone, IsFoldedLetter, IsFolded, AreFolded, AreCased};
ghost use Rattle.glob_text.specs.FoldSteps.{AddsAlike, IsFirstPair};
ghost use Rattle.wildcards.specs.Ranges.{lies_in};

use crate::class_text::Members;
use crate::mark::Mark;
use std::alloc::{AllocError, Allocator};
use ucd_case::fold_pairs;
use wildcards::Range;

/// The index of the first pair of letters that doesn't begin before a letter.
fn first_pair(letter: u32) -> usize
    ensures { IsFirstPair letter result }
{
    fold_pairs().partition_point(|pair| pair.0 < letter)
}

/// Whether no other letter differs from a letter in case alone.
fn is_alone(letter: u32) -> bool
    ensures { IsTrue result ↔ IsAlone letter }
{
    let pairs = fold_pairs();
    let at = first_pair(letter);
    if at >= pairs.len() {
        return true;
    }
    let (first, _) = pairs[at];
    if first == letter {
        return false;
    }
    true
}

/// Whether a letter is in a range.
fn is_within(range: Range, letter: u32) -> bool
    ensures { result ≡ lies_in range letter }
{
    range.first <= letter && letter <= range.last
}

/// Appends the letters that differ from one of the range in case alone and aren't in the range.
fn push_alike<A: Allocator>(range: Range, folded: &mut Vec<Range, A>) -> Result<(), AllocError>
    ensures { OnOk result (AddsAlike range folded.old.items folded.new.items) }
{
    let pairs = fold_pairs();
    let mut at = first_pair(range.first);
    while at < pairs.len() {
        let (letter, other) = pairs[at];
        if letter > range.last {
            return Ok(());
        }
        at += 1;
        if is_within(range, other) {
            continue;
        }
        folded.push(Range {
            first: other,
            last: other,
        })?;
    }
    Ok(())
}

/// The letters of the ranges, and those that differ from one of them in case alone.
fn folded<A: Allocator>(alloc: A, ranges: &[Range]) -> Result<Vec<Range, A>, AllocError>
    ensures { IfOk result (λ folded. AreFolded ranges.entry.now folded.items) }
{
    let mut folded = Vec::from_slice(alloc, ranges)?;
    let mut left = ranges;
    while let Some((range, rest)) = left.split_first() {
        push_alike(*range, &mut folded)?;
        left = rest;
    }
    Ok(folded)
}

/// What a letter is without case.
fn fold_letter<A: Allocator + Copy>(alloc: A, letter: u32) -> Result<Mark<A>, AllocError>
    ensures { IfOk result (λ mark. IsFoldedLetter letter (mark_of mark)) }
{
    if is_alone(letter) {
        return Ok(Mark::Literal(letter));
    }
    let own = [Range {
        first: letter,
        last: letter,
    }];
    Ok(Mark::OneOf(Members {
        negated: false,
        ranges: folded(alloc, &own)?,
    }))
}

/// What a mark is without case.
fn fold_mark<A: Allocator + Copy>(alloc: A, mark: Mark<A>) -> Result<Mark<A>, AllocError>
    ensures { IfOk result (λ folded. IsFolded (mark_of mark) (mark_of folded)) }
{
    match mark {
        Mark::Literal(letter) => fold_letter(alloc, letter),
        Mark::OneOf(members) => Ok(Mark::OneOf(Members {
            negated: members.negated,
            ranges: folded(alloc, members.ranges.as_slice())?,
        })),
        other => Ok(other),
    }
}

/// What marks are, without case or with it.
pub(crate) fn cased<A: Allocator + Copy>(
    alloc: A,
    case_insensitive: bool,
    marks: Vec<Mark<A>, A>,
) -> Result<Vec<Mark<A>, A>, AllocError>
    ensures { IfOk result (λ cased. AreCased case_insensitive (map mark_of marks.items)
        (map mark_of cased.items)) }
{
    if !case_insensitive {
        return Ok(marks);
    }
    let mut folded = Vec::with_capacity(alloc, marks.len())?;
    for mark in marks {
        folded.push(fold_mark(alloc, mark)?)?;
    }
    Ok(folded)
}
