//! Classes as they are written in a line.
//!
//! `glob_text` has a reader of its own. A trait for the letters of both would let them share the search for a
//! name and the negation. With its impls and contracts it has as many lines as it would replace. Ranges, what
//! ends a name, and faults would stay apart.
ghost use Rattle.std.specs.Prelude.{◌≡◌, ◌∷◌, ◌<◌, ◌≤◌, false, true, length, None, Some, MatchOption, IfOk, IfSome};
ghost use Rattle.os_ignore.specs.ClassText.{after_text, known_name, ends_name, named_text, closes, range_at, member_at, negation, IsClass, IsBrokenClass};
ghost use Rattle.os_ignore.specs.ClassSteps.{from_bracket, AreNameless, AreNamelessWithin, reading_of, LeavesLess};

use crate::class::{Member, class_of};
use crate::letter::Letter;
use std::alloc::{AllocError, Allocator};
use wildcards::{Class, ClassName};

/// What comes before a letter of a class.
#[derive(Clone, Copy)]
pub enum Before {
    /// Nothing: the letter is the first.
    First,
    /// A byte, which a range may begin with.
    Byte(u8),
    /// Something else.
    Nothing,
}

/// What comes next in a class.
#[derive(Clone, Copy)]
enum Next<'a> {
    /// Nothing that a class may have.
    Broken,
    /// What closes it; this comes after it.
    Closed(&'a [Letter]),
    /// A member, what it is for the next, and what comes after it.
    Member(Member, Before, &'a [Letter]),
}

impl Before {
    /// Whether the letter closes the class.
    fn is_closed_by(self, letter: Letter) -> bool
        ensures { result ≡ closes self letter }
    {
        match self {
            Before::First => false,
            Before::Byte(_) => letter.is_plain(b']'),
            Before::Nothing => letter.is_plain(b']'),
        }
    }
}

/// What comes after a text that letters begin with.
fn after_text<'a>(text: &[u8], letters: &'a [Letter]) -> Option<&'a [Letter]>
    ensures rest { MatchOption result (after_text text.entry.now letters.entry.now ≡ None)
        (λ rest. after_text text.entry.now letters.entry.now ≡ Some rest.now) }
    ensures shorter { IfSome result (λ rest. length rest.now ≤ length letters.entry.now) }
{
    let mut wanted = text;
    let mut left = letters;
    while let Some((byte, more)) = wanted.split_first() {
        let (letter, rest) = left.split_first()?;
        if !letter.is_plain(*byte) {
            return None;
        }
        wanted = more;
        left = rest;
    }
    Some(left)
}

/// The first of the names that letters begin with, and what comes after it.
fn known_name<'a>(names: &[ClassName], letters: &'a [Letter]) -> Option<(ClassName, &'a [Letter])>
    ensures name { MatchOption result (known_name names.entry.now letters.now ≡ None)
        (λ p. known_name names.entry.now letters.now ≡ Some (p.0, p.1.now)) }
    ensures shorter { IfSome result (λ p. length p.1.now ≤ length letters.now) }
{
    let mut left = names;
    while let Some((name, more)) = left.split_first() {
        if let Some(rest) = after_text(name.text(), letters) {
            return Some((*name, rest));
        }
        left = more;
    }
    None
}

/// The letters from the first `]` on; `None` if that isn't quoted and follows a `:`, so that it ends a
/// name.
fn nameless_end(letters: &[Letter]) -> Option<&[Letter]>
    ensures { MatchOption result (ends_name false letters.entry.now ≡ true)
        (λ end. (ends_name false letters.entry.now ≡ false)
        × (end.now ≡ from_bracket letters.entry.now)) }
{
    let mut left = letters;
    let mut after_colon = false;
    while let Some((letter, rest)) = left.split_first() {
        if letter.byte == b']' {
            if after_colon && !letter.quoted {
                return None;
            }
            return Some(left);
        }
        after_colon = letter.byte == b':';
        left = rest;
    }
    Some(left)
}

/// Whether the first `]` isn't quoted and follows a `:`. In no suffix of at least `nameless` letters
/// does the first `]` end a name. So each `]` is searched for once.
fn ends_name(letters: &[Letter], nameless: &mut usize) -> bool
    requires { AreNameless nameless.old letters.now }
    ensures value { result ≡ ends_name false letters.now }
    ensures nameless { AreNameless nameless.new letters.now }
{
    if letters.len() >= *nameless {
        return false;
    }
    match nameless_end(letters) {
        Some(end) => {
            *nameless = end.len();
            false
        }
        None => true,
    }
}

/// What comes after `[:`, where a name is closed there.
fn named_text<'a>(first: Letter, rest: &'a [Letter], nameless: &mut usize) -> Option<&'a [Letter]>
    requires { AreNamelessWithin nameless.old (first ∷ rest.now) }
    ensures text { MatchOption result (named_text first rest.now ≡ None)
        (λ text. named_text first rest.now ≡ Some text.now) }
    ensures shorter { IfSome result (λ text. length text.now < length rest.now) }
    ensures nameless { AreNamelessWithin nameless.new (first ∷ rest.now) }
{
    let (second, text) = rest.split_first()?;
    if !first.is_plain(b'[') || !second.is_plain(b':') {
        return None;
    }
    if ends_name(text, nameless) {
        Some(text)
    } else {
        None
    }
}

/// Returns the ends of a range whose `-` is `first`, and what comes after it.
fn range_at<'a>(before: Before, first: Letter, rest: &'a [Letter]) -> Option<(u8, u8, &'a [Letter])>
    ensures range { MatchOption result (range_at before first rest.now ≡ None)
        (λ p. range_at before first rest.now ≡ Some (p.0, p.1, p.2.now)) }
    ensures shorter { IfSome result (λ p. length p.2.now < length rest.now) }
{
    let Before::Byte(from) = before else {
        return None;
    };
    let (to, more) = rest.split_first()?;
    if first.is_plain(b'-') && !to.is_plain(b']') {
        Some((from, to.byte, more))
    } else {
        None
    }
}

/// What comes next in a class.
fn next_member<'a>(before: Before, text: &'a [Letter], nameless: &mut usize) -> Next<'a>
    requires { AreNamelessWithin nameless.old text.now }
    ensures reading { reading_of result ≡ member_at before text.now }
    ensures shorter { LeavesLess text.now result }
    ensures nameless { AreNamelessWithin nameless.new text.now }
{
    let Some((first, rest)) = text.split_first() else {
        return Next::Broken;
    };
    if before.is_closed_by(*first) {
        return Next::Closed(rest);
    }
    if let Some((from, to, more)) = range_at(before, *first, rest) {
        return Next::Member(Member::Range(from, to), Before::Nothing, more);
    }
    let Some(name) = named_text(*first, rest, nameless) else {
        return Next::Member(Member::Single(first.byte), Before::Byte(first.byte), rest);
    };
    match known_name(ClassName::all(), name) {
        Some((name, more)) => Next::Member(Member::Named(name), Before::Nothing, more),
        None => Next::Broken,
    }
}

/// Whether a class is negated, and what comes after that.
fn negation(text: &[Letter]) -> (bool, &[Letter])
    ensures value { (result.0, result.1.now) ≡ negation text.now }
    ensures shorter { length result.1.now ≤ length text.now }
{
    let Some((first, rest)) = text.split_first() else {
        return (false, text);
    };
    if first.is_plain(b'!') || first.is_plain(b'^') {
        (true, rest)
    } else {
        (false, text)
    }
}

/// Reads the class that comes after a `[`, and what comes after it; `None` where it is none.
pub(crate) fn read_class<'a, A: Allocator + Copy>(
    alloc: A,
    folds: bool,
    text: &'a [Letter],
) -> Result<Option<(Class<A>, &'a [Letter])>, AllocError>
    ensures class { IfOk result (λ read. MatchOption read (IsBrokenClass text.now)
        (λ p. IsClass folds text.now p.0 p.1.now)) }
    ensures shorter { IfOk result (λ read. IfSome read (λ p. length p.1.now < length text.now)) }
{
    let (negated, body) = negation(text);
    let mut ranges = Vec::new(alloc);
    let mut before = Before::First;
    let mut left = body;
    let mut nameless = body.len() + 1;
    loop {
        match next_member(before, left, &mut nameless) {
            Next::Broken => return Ok(None),
            Next::Closed(rest) => {
                let class = class_of(alloc, folds, negated, ranges)?;
                return Ok(Some((class, rest)));
            }
            Next::Member(member, after, rest) => {
                member.push_to(folds, &mut ranges)?;
                before = after;
                left = rest;
            }
        }
    }
}
