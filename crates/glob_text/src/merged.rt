//! Alternatives of single letters, merged into classes.
//!
//! `{a,b}` matches what `[ab]` does, and doubles what a pattern is written out as. An alternative `.` isn't
//! merged, since a class matches no leading dot where a literal one is required. Neither is a separator.
ghost use Rattle.std.specs.Prelude.{◌≡◌, ◌<◌, ◌≤◌, ◌∷◌, ◌++◌, length, map, IfOk, IfSome, OnOk};
ghost use Rattle.glob_text.specs.Marks.{mark_of};
ghost use Rattle.glob_text.specs.Merged.{is_letter, letters_of, AreLetters, AreMerged, IsMergedMark};

use crate::class_text::Members;
use crate::mark::Mark;
use std::alloc::{AllocError, Allocator};
use wildcards::{Range, Separators};

/// Whether a mark matches letters that a class may have in its place.
fn is_letter<A: Allocator>(separators: Separators, mark: &Mark<A>) -> bool
    ensures { result ≡ is_letter separators (mark_of mark.now) }
{
    match mark {
        Mark::Literal(letter) => !separators.contains(*letter) && *letter != 0x2E,
        Mark::OneOf(members) => !members.negated,
        Mark::Any => false,
        Mark::Star(_) => false,
        Mark::Open(_) => false,
        Mark::Comma => false,
        Mark::Close(_) => false,
    }
}

/// Appends the letters of a mark.
fn push_letters<A: Allocator>(mark: &Mark<A>, ranges: &mut Vec<Range, A>) -> Result<(), AllocError>
    ensures { OnOk result (ranges.new.items
        ≡ ranges.old.items ++ letters_of (mark_of mark.now)) }
{
    match mark {
        Mark::Literal(letter) => ranges.push(Range {
            first: *letter,
            last: *letter,
        })?,
        Mark::OneOf(members) => ranges.extend_from_slice(&members.ranges)?,
        Mark::Any => {}
        Mark::Star(_) => {}
        Mark::Open(_) => {}
        Mark::Comma => {}
        Mark::Close(_) => {}
    }
    Ok(())
}

/// Reads the alternatives after a `{` if each is one letter or class: their letters, and what comes after
/// their `}`.
fn read_letters<'a, A: Allocator>(
    alloc: A,
    separators: Separators,
    text: &'a [Mark<A>],
) -> Result<Option<(Vec<Range, A>, &'a [Mark<A>])>, AllocError>
    ensures letters { IfOk result (λ read. IfSome read (λ p. AreLetters separators
        (map mark_of text.entry.now) p.0.items (map mark_of p.1.now))) }
    ensures shorter { IfOk result (λ read. IfSome read
        (λ p. length p.1.now ≤ length text.entry.now)) }
{
    let mut ranges = Vec::new(alloc);
    let mut left = text;
    while let Some((mark, rest)) = left.split_first() {
        if !is_letter(separators, mark) {
            return Ok(None);
        }
        push_letters(mark, &mut ranges)?;
        let Some((next, after)) = rest.split_first() else {
            return Ok(None);
        };
        match next {
            Mark::Comma => left = after,
            Mark::Close(_) => return Ok(Some((ranges, after))),
            _ => return Ok(None),
        }
    }
    Ok(None)
}

/// Copies a mark.
fn copy<A: Allocator>(alloc: A, mark: &Mark<A>) -> Result<Mark<A>, AllocError>
    ensures { IfOk result (λ copy. mark_of copy ≡ mark_of mark.now) }
{
    match mark {
        Mark::Literal(letter) => Ok(Mark::Literal(*letter)),
        Mark::Any => Ok(Mark::Any),
        Mark::Star(again) => Ok(Mark::Star(*again)),
        Mark::OneOf(members) => Ok(Mark::OneOf(Members {
            negated: members.negated,
            ranges: Vec::from_slice(alloc, &members.ranges)?,
        })),
        Mark::Open(index) => Ok(Mark::Open(*index)),
        Mark::Comma => Ok(Mark::Comma),
        Mark::Close(index) => Ok(Mark::Close(*index)),
    }
}

/// The first mark, or a class if it opens alternatives of letters, and what comes after it.
fn first_merged<'a, A: Allocator + Copy>(
    alloc: A,
    separators: Separators,
    first: &Mark<A>,
    rest: &'a [Mark<A>],
) -> Result<(Mark<A>, &'a [Mark<A>]), AllocError>
    ensures merged { IfOk result (λ p. IsMergedMark separators
        (mark_of first.now ∷ map mark_of rest.now) (mark_of p.0) (map mark_of p.1.now)) }
    ensures shorter { IfOk result (λ p. length p.1.now ≤ length rest.now) }
{
    if let Mark::Open(_) = first {
        if let Some((ranges, after)) = read_letters(alloc, separators, rest)? {
            let members = Members {
                negated: false,
                ranges,
            };
            return Ok((Mark::OneOf(members), after));
        }
    }
    Ok((copy(alloc, first)?, rest))
}

/// The marks, with a class for alternatives of letters.
pub(crate) fn merged<A: Allocator + Copy>(
    alloc: A,
    separators: Separators,
    marks: &[Mark<A>],
) -> Result<Vec<Mark<A>, A>, AllocError>
    ensures { IfOk result (λ merged. AreMerged separators (map mark_of marks.entry.now)
        (map mark_of merged.items)) }
{
    let mut merged = Vec::with_capacity(alloc, marks.len())?;
    let mut left = marks;
    while let Some((first, rest)) = left.split_first() {
        let (mark, after) = first_merged(alloc, separators, first, rest)?;
        merged.push(mark)?;
        left = after;
    }
    Ok(merged)
}
