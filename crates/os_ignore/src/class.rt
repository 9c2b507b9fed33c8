//! What classes are written with, as `[a-z]`.
ghost use Rattle.std.specs.Prelude.{◌≡◌, ◌++◌, ℕ, IfOk};
ghost use Rattle.wildcards.specs.Classes.{permitted};
ghost use Rattle.wildcards.specs.Ranges.{permits};
ghost use Rattle.os_ignore.specs.Class.{is_upper};
ghost use Rattle.wildcards.specs.ClassName.{range};
ghost use Rattle.os_ignore.specs.ClassSteps.{small_range, name_ranges, exact_ranges, small_ranges, member_ranges, both_cases, all_cases};
ghost use Rattle.os_ignore.specs.Letters.{folded};

use std::alloc::{AllocError, Allocator};
use wildcards::{Class, ClassName, Range};

/// What a class is written with.
#[derive(Clone, Copy)]
pub enum Member {
    /// A byte.
    Single(u8),
    /// `-` and a byte: the bytes from the one before to this one.
    Range(u8, u8),
    /// `[:alpha:]` and the like.
    Named(ClassName),
}

/// The bytes from the first to the last.
const fn range(first: u8, last: u8) -> Range
    ensures { result ≡ range first last }
{
    Range {
        first: first as u32,
        last: last as u32,
    }
}

/// The small letters whose capitals are between these bytes.
fn small_range(from: u8, to: u8) -> Range
    ensures { result ≡ small_range from to }
{
    Range {
        first: u32::from(from.max(b'A')) + 0x20,
        last: u32::from(to.min(b'Z')) + 0x20,
    }
}

/// What git has as `[:space:]`: no vertical tab and no form feed.
const SPACE: [Range; 4] = [
    Range {
        first: 0x20,
        last: 0x20,
    },
    Range {
        first: 0x9,
        last: 0x9,
    },
    Range {
        first: 0xA,
        last: 0xA,
    },
    Range {
        first: 0xD,
        last: 0xD,
    },
];

/// The letters of a named class, as git has it.
fn named_ranges(name: ClassName) -> &'static [Range]
    ensures { result.now ≡ name_ranges name }
{
    match name {
        ClassName::Space => &SPACE,
        _ => name.ranges(),
    }
}

/// Whether it is the class of capitals.
fn is_upper(name: ClassName) -> bool
    ensures { result ≡ is_upper name }
{
    match name {
        ClassName::Upper => true,
        _ => false,
    }
}

impl Member {
    /// Appends its bytes.
    fn push_exact<A: Allocator>(self, ranges: &mut Vec<Range, A>) -> Result<(), AllocError>
        ensures { IfOk result (λ _. ranges.new.items ≡ ranges.old.items ++ exact_ranges self) }
    {
        match self {
            Member::Single(byte) => {
                ranges.push(range(byte, byte))?;
                Ok(())
            }
            Member::Range(from, to) => {
                ranges.push(range(from, to))?;
                Ok(())
            }
            Member::Named(name) => ranges.extend_from_slice(named_ranges(name)),
        }
    }

    /// Appends the small letters whose capitals it has.
    fn push_small<A: Allocator>(self, ranges: &mut Vec<Range, A>) -> Result<(), AllocError>
        ensures { IfOk result (λ _. ranges.new.items ≡ ranges.old.items ++ small_ranges self) }
    {
        match self {
            Member::Single(_) => Ok(()),
            Member::Range(from, to) => {
                ranges.push(small_range(from, to))?;
                Ok(())
            }
            Member::Named(name) => {
                if is_upper(name) {
                    ranges.extend_from_slice(ClassName::Lower.ranges())?;
                }
                Ok(())
            }
        }
    }

    /// Appends its bytes, without regard to case if the file folds.
    pub(crate) fn push_to<A: Allocator>(
        self,
        folds: bool,
        ranges: &mut Vec<Range, A>,
    ) -> Result<(), AllocError>
        ensures { IfOk result (λ _.
            ranges.new.items ≡ ranges.old.items ++ member_ranges folds self) }
    {
        self.push_exact(ranges)?;
        if folds {
            self.push_small(ranges)
        } else {
            Ok(())
        }
    }
}

/// Appends the bytes whose small letters are in a range.
fn push_cases<A: Allocator>(range: Range, ranges: &mut Vec<Range, A>) -> Result<(), AllocError>
    ensures { IfOk result (λ _. ranges.new.items ≡ ranges.old.items ++ both_cases range) }
{
    let Range { first, last } = range;
    ranges.push(Range {
        first,
        last: last.min(0x40),
    })?;
    ranges.push(Range {
        first: first.max(0x5B),
        last,
    })?;
    ranges.push(Range {
        first: first.max(0x61) - 0x20,
        last: last.min(0x7A).max(0x20) - 0x20,
    })?;
    Ok(())
}

/// The bytes whose small letters are in one of the ranges.
fn all_cases<A: Allocator>(alloc: A, ranges: &[Range]) -> Result<Vec<Range, A>, AllocError>
    ensures { IfOk result (λ cases. cases.items ≡ all_cases ranges.entry.now) }
{
    let mut cases = Vec::new(alloc);
    let mut left = ranges;
    while let Some((first, rest)) = left.split_first() {
        push_cases(*first, &mut cases)?;
        left = rest;
    }
    Ok(cases)
}

/// The class of these ranges, without regard to case if the file folds.
pub(crate) fn class_of<A: Allocator + Copy>(
    alloc: A,
    folds: bool,
    negated: bool,
    ranges: Vec<Range, A>,
) -> Result<Class<A>, AllocError>
    ensures { IfOk result (λ class. (letter : ℕ) → permitted class letter
        ≡ permits negated ranges.items (folded folds letter)) }
{
    if folds {
        Class::new(alloc, negated, all_cases(alloc, &ranges)?)
    } else {
        Class::new(alloc, negated, ranges)
    }
}
