//! Classes as they are written in a pattern.
//!
//! `os_ignore` has a reader of its own. A trait for the letters of both would let them share the search for a
//! name and the negation. With its impls and contracts it has as many lines as it would replace. Ranges, what
//! ends a name, and faults would stay apart.
ghost use Rattle.std.specs.Prelude.{◌≡◌, ◌++◌, ◌<◌, ◌≤◌, true, false, length, None, Some, MatchOption, MatchResult, IfOk, IfSome};
ghost use Rattle.glob_text.specs.ClassText.{is_plain, letter_at, ends_name, named_text, closes, range_at, member_at, negation, IsClass, IsClassFault};
ghost use Rattle.glob_text.specs.ClassSteps.{first_end, member_ranges, reading_of, IsEndBefore, IsFirstEnd, LeavesLess};

use crate::fault::{FaultKind, PatternFault};
use crate::name::{known_name, push_named};
use crate::symbol::Symbol;
use std::alloc::{AllocError, Allocator, Global};
use wildcards::{ClassName, Range};

/// A letter of a class's text, and whether a backslash quotes it.
#[derive(Clone, Copy)]
pub struct ClassLetter {
    pub symbol: Symbol,
    pub quoted: bool,
}

/// What comes before a letter of a class.
#[derive(Clone, Copy)]
pub enum Before {
    /// Nothing: the letter is the first.
    First,
    /// A letter, which a range may begin with.
    From(Symbol),
    /// Something else.
    Nothing,
}

/// What a class is written with.
#[derive(Clone, Copy)]
enum Member {
    /// A letter, or a range.
    Letters(Range),
    /// `[:alpha:]` and the like.
    Named(ClassName),
}

/// What comes next in a class.
#[derive(Clone, Copy)]
enum Next<'a> {
    /// Nothing that a class may have.
    Broken(PatternFault),
    /// What closes it; this comes after it.
    Closed(&'a [Symbol]),
    /// A member, what it is for the next, and what comes after it.
    Member(Member, Before, &'a [Symbol]),
}

/// The members of a class.
#[derive(Drop)]
pub struct Members<A: Allocator = Global> {
    pub negated: bool,
    pub ranges: Vec<Range, A>,
}

impl ClassLetter {
    /// Whether it is this letter, and not quoted.
    fn is_plain(self, letter: u32) -> bool
        ensures { result ≡ is_plain self letter }
    {
        !self.quoted && self.symbol.letter == letter
    }
}

impl Before {
    /// Whether the letter closes the class.
    fn is_closed_by(self, letter: ClassLetter) -> bool
        ensures { result ≡ closes self letter }
    {
        match self {
            Before::First => false,
            Before::From(_) => letter.is_plain(0x5D),
            Before::Nothing => letter.is_plain(0x5D),
        }
    }
}

impl Member {
    /// Appends its letters.
    fn push_to<A: Allocator>(self, ranges: &mut Vec<Range, A>) -> Result<(), AllocError>
        ensures { IfOk result (λ _. ranges.new.items ≡ ranges.old.items ++ member_ranges self) }
    {
        match self {
            Member::Letters(range) => {
                ranges.push(range)?;
                Ok(())
            }
            Member::Named(name) => push_named(name, ranges),
        }
    }
}

/// The first letter of a class's text, and what comes after it.
fn split_letter(quotes: bool, text: &[Symbol]) -> Option<(ClassLetter, &[Symbol])>
    ensures letter { MatchOption result (letter_at quotes text.now ≡ None)
        (λ p. letter_at quotes text.now ≡ Some (p.0, p.1.now)) }
    ensures shorter { IfSome result (λ p. length p.1.now < length text.now) }
{
    let (first, rest) = text.split_first()?;
    if quotes && first.letter == 0x5C {
        let (symbol, after) = rest.split_first()?;
        return Some((
            ClassLetter {
                symbol: *symbol,
                quoted: true,
            },
            after,
        ));
    }
    Some((
        ClassLetter {
            symbol: *first,
            quoted: false,
        },
        rest,
    ))
}

/// Where the first `]` of a text is.
#[derive(Clone, Copy)]
struct NameEnd {
    // The number of symbols from it on, which is 0 where there is none.
    left: usize,
    // Whether a `:` comes right before it.
    after_colon: bool,
}

/// Where the first `]` of a text is.
fn first_end(text: &[Symbol]) -> NameEnd
    ensures { result ≡ first_end false text.entry.now }
{
    let mut left = text;
    let mut after_colon = false;
    while let Some((symbol, rest)) = left.split_first() {
        if symbol.letter == 0x5D {
            return NameEnd {
                left: left.len(),
                after_colon,
            };
        }
        after_colon = symbol.letter == 0x3A;
        left = rest;
    }
    NameEnd {
        left: 0,
        after_colon: false,
    }
}

impl NameEnd {
    /// Where the first `]` is of a text that ends the text that this is of. It is sought again only
    /// where the text begins behind it. So each `]` of a class is sought once.
    fn of(self, text: &[Symbol]) -> NameEnd
        requires { IsEndBefore text.now self }
        ensures { IsFirstEnd text.now result }
    {
        if text.len() < self.left {
            first_end(text)
        } else {
            self
        }
    }

    /// Whether the first `]` of the text comes right after a `:` of it.
    fn ends_name(self, text: &[Symbol]) -> bool
        requires { IsFirstEnd text.now self }
        ensures { result ≡ ends_name false text.now }
    {
        self.left < text.len() && self.after_colon
    }
}

/// What comes after `[:`, where a name is closed there. The first `]` of the rest is at `end`.
fn named_text(end: NameEnd, first: ClassLetter, rest: &[Symbol]) -> Option<&[Symbol]>
    requires { is_plain first 0x5B ≡ true → IsFirstEnd rest.now end }
    ensures text { MatchOption result (named_text first rest.now ≡ None)
        (λ text. named_text first rest.now ≡ Some text.now) }
    ensures shorter { IfSome result (λ text. length text.now < length rest.now) }
{
    let (second, text) = rest.split_first()?;
    if !first.is_plain(0x5B) || second.letter != 0x3A {
        return None;
    }
    if end.ends_name(text) {
        Some(text)
    } else {
        None
    }
}

/// The first letter of a range, whose `-` is `first`, and its last, and what comes after it.
fn range_at<'a>(
    quotes: bool,
    before: Before,
    first: ClassLetter,
    rest: &'a [Symbol],
) -> Option<(Symbol, u32, &'a [Symbol])>
    ensures range { MatchOption result (range_at quotes before first rest.now ≡ None)
        (λ p. range_at quotes before first rest.now ≡ Some (p.0, p.1, p.2.now)) }
    ensures shorter { IfSome result (λ p. length p.2.now < length rest.now) }
{
    let Before::From(from) = before else {
        return None;
    };
    if !first.is_plain(0x2D) {
        return None;
    }
    let (to, more) = split_letter(quotes, rest)?;
    if to.is_plain(0x5D) {
        return None;
    }
    Some((from, to.symbol.letter, more))
}

/// What comes next in a class whose `[` has this index.
fn next_member<'a>(
    quotes: bool,
    index: usize,
    before: Before,
    end: NameEnd,
    text: &'a [Symbol],
) -> Next<'a>
    requires { IsFirstEnd text.now end }
    ensures reading { reading_of result ≡ member_at quotes index before text.now }
    ensures shorter { LeavesLess text.now result }
{
    let Some((first, rest)) = split_letter(quotes, text) else {
        return Next::Broken(PatternFault {
            kind: FaultKind::UnclosedClass,
            index,
        });
    };
    if before.is_closed_by(first) {
        return Next::Closed(rest);
    }
    if let Some((from, to, more)) = range_at(quotes, before, first, rest) {
        if to < from.letter {
            return Next::Broken(PatternFault {
                kind: FaultKind::ReversedRange,
                index: from.index,
            });
        }
        let range = Range {
            first: from.letter,
            last: to,
        };
        return Next::Member(Member::Letters(range), Before::Nothing, more);
    }
    let letter = first.symbol.letter;
    let Some(name) = named_text(end, first, rest) else {
        let range = Range {
            first: letter,
            last: letter,
        };
        return Next::Member(Member::Letters(range), Before::From(first.symbol), rest);
    };
    match known_name(name) {
        Some((name, more)) => Next::Member(Member::Named(name), Before::Nothing, more),
        None => Next::Broken(PatternFault {
            kind: FaultKind::UnknownClassName,
            index: first.symbol.index,
        }),
    }
}

/// Whether a class is negated, and what comes after that.
fn negation(text: &[Symbol]) -> (bool, &[Symbol])
    ensures value { (result.0, result.1.now) ≡ negation text.now }
    ensures shorter { length result.1.now ≤ length text.now }
{
    let Some((first, rest)) = text.split_first() else {
        return (false, text);
    };
    if first.letter == 0x21 || first.letter == 0x5E {
        (true, rest)
    } else {
        (false, text)
    }
}

/// Reads the class whose `[` has this index, of the text after that, and what comes after it; or
/// its first fault.
pub(crate) fn read_class<'a, A: Allocator>(
    alloc: A,
    quotes: bool,
    index: usize,
    text: &'a [Symbol],
) -> Result<Result<(Members<A>, &'a [Symbol]), PatternFault>, AllocError>
    ensures class { IfOk result (λ read. MatchResult read
        (λ p. IsClass quotes index text.now p.0.negated p.0.ranges.items p.1.now)
        (λ fault. IsClassFault quotes index text.now fault)) }
    ensures shorter { IfOk result (λ read. IfOk read (λ p. length p.1.now < length text.now)) }
{
    let (negated, body) = negation(text);
    let mut ranges = Vec::new(alloc);
    let mut before = Before::First;
    let mut left = body;
    let mut end = first_end(body);
    loop {
        end = end.of(left);
        match next_member(quotes, index, before, end, left) {
            Next::Broken(fault) => return Ok(Err(fault)),
            Next::Closed(rest) => return Ok(Ok((Members { negated, ranges }, rest))),
            Next::Member(member, after, rest) => {
                member.push_to(&mut ranges)?;
                before = after;
                left = rest;
            }
        }
    }
}
