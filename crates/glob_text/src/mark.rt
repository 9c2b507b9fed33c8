//! What the letters of a pattern are.
ghost use Rattle.std.specs.Prelude.{◌≡◌, ◌≤◌, length, map, MatchResult, IfOk};
ghost use Rattle.glob_text.specs.Marks.{is_quoting, kind_of, mark_of, MarkAt, MarkFault, AreMarks, IsMarkFault};

use crate::class_text::{Members, read_class};
use crate::fault::{FaultKind, PatternFault};
use crate::symbol::{Symbol, begins_with};
use crate::syntax::Syntax;
use std::alloc::{AllocError, Allocator, Global};

/// What a letter is that isn't quoted.
#[derive(Clone, Copy)]
pub enum Kind {
    /// A `\` that quotes the next letter.
    Quote,
    /// `*`
    Star,
    /// `?`
    Question,
    /// `[`
    Bracket,
    /// `{`
    Open,
    /// `,`
    Comma,
    /// `}`
    Close,
    /// A letter that matches itself.
    Literal,
}

/// What a pattern is written with.
#[derive(Drop)]
pub enum Mark<A: Allocator = Global> {
    /// A letter that matches itself.
    Literal(u32),
    /// `?`
    Any,
    /// `*`, and whether another comes right after it.
    Star(bool),
    /// A class.
    OneOf(Members<A>),
    /// `{`, and its byte index.
    Open(usize),
    /// `,`
    Comma,
    /// `}`, and its byte index.
    Close(usize),
}

/// What a letter is that isn't quoted.
pub(crate) fn kind_of(quoting: bool, letter: u32) -> Kind
    ensures { result ≡ kind_of quoting letter }
{
    if quoting && letter == 0x5C {
        Kind::Quote
    } else if letter == 0x2A {
        Kind::Star
    } else if letter == 0x3F {
        Kind::Question
    } else if letter == 0x5B {
        Kind::Bracket
    } else if letter == 0x7B {
        Kind::Open
    } else if letter == 0x2C {
        Kind::Comma
    } else if letter == 0x7D {
        Kind::Close
    } else {
        Kind::Literal
    }
}

/// Reads a mark, and what comes after it; or its fault.
fn read_mark<'a, A: Allocator>(
    alloc: A,
    syntax: Syntax,
    first: Symbol,
    rest: &'a [Symbol],
) -> Result<Result<(Mark<A>, &'a [Symbol]), PatternFault>, AllocError>
    ensures mark { IfOk result (λ read. MatchResult read
        (λ p. MarkAt syntax (kind_of (is_quoting syntax) first.letter) first rest.now
        (mark_of p.0) p.1.now)
        (λ fault. MarkFault syntax (kind_of (is_quoting syntax) first.letter) first rest.now
        fault)) }
    ensures shorter { IfOk result (λ read. IfOk read (λ p. length p.1.now ≤ length rest.now)) }
{
    match kind_of(syntax.is_quoting(), first.letter) {
        Kind::Quote => {
            let Some((quoted, after)) = rest.split_first() else {
                return Ok(Err(PatternFault {
                    kind: FaultKind::DanglingEscape,
                    index: first.index,
                }));
            };
            Ok(Ok((Mark::Literal(quoted.letter), after)))
        }
        Kind::Star => Ok(Ok((Mark::Star(begins_with(0x2A, rest)), rest))),
        Kind::Question => Ok(Ok((Mark::Any, rest))),
        Kind::Bracket => match read_class(alloc, syntax.class_escapes, first.index, rest)? {
            Ok((members, after)) => Ok(Ok((Mark::OneOf(members), after))),
            Err(fault) => Ok(Err(fault)),
        },
        Kind::Open => Ok(Ok((Mark::Open(first.index), rest))),
        Kind::Comma => Ok(Ok((Mark::Comma, rest))),
        Kind::Close => Ok(Ok((Mark::Close(first.index), rest))),
        Kind::Literal => Ok(Ok((Mark::Literal(first.letter), rest))),
    }
}

/// The marks of a text, or their first fault.
pub(crate) fn marks<A: Allocator + Copy>(
    alloc: A,
    syntax: Syntax,
    text: &[Symbol],
) -> Result<Result<Vec<Mark<A>, A>, PatternFault>, AllocError>
    ensures { IfOk result (λ read. MatchResult read
        (λ marks. AreMarks syntax text.entry.now (map mark_of marks.items))
        (λ fault. IsMarkFault syntax text.entry.now fault)) }
{
    let mut marks = Vec::with_capacity(alloc, text.len())?;
    let mut left = text;
    while let Some((first, rest)) = left.split_first() {
        match read_mark(alloc, syntax, *first, rest)? {
            Ok((mark, after)) => {
                marks.push(mark)?;
                left = after;
            }
            Err(fault) => return Ok(Err(fault)),
        }
    }
    Ok(Ok(marks))
}
