//! A line of an ignore file, as it is written.
ghost use Rattle.std.specs.Prelude.{◌≡◌, IfOk};
ghost use Rattle.os_ignore.specs.Files.{SaysLine, LettersSayLine};
ghost use Rattle.os_ignore.specs.Tags.{IsTag};
ghost use Rattle.os_ignore.specs.Lines.{IsTrimmed, strip_first, StripsSlash, has_slash, is_comment, literal_prefix, after_literal};

use crate::letter::{Kind, Letter, letters};
use crate::pattern::read_pattern;
use crate::reason::NoPattern;
use crate::tag::line_tag;
use std::alloc::{AllocError, Allocator, Global};
use wildcards::{Part, Piece};

/// A line that is a pattern.
#[derive(Drop)]
pub struct Line<A: Allocator = Global> {
    /// Which line of its file it is, from 1.
    pub number: usize,
    /// It takes in again what it matches (`!`).
    pub takes_in: bool,
    /// It matches directories alone (a `/` at its end).
    pub directories: bool,
    /// It matches paths from its file's directory (a `/` elsewhere), and else names at any depth.
    pub anchored: bool,
    /// It matches without regard to case.
    pub folds: bool,
    /// What the path or the name begins with.
    pub literal: Vec<u8, A>,
    /// What matches the rest.
    pub pattern: Vec<Piece<Part<A>>, A>,
    /// A tag that each path has which it matches; 0 is one that each path has.
    pub tag: u8,
}

/// Without the blanks at the end that aren't quoted.
fn trim(letters: &[Letter]) -> &[Letter]
    ensures { IsTrimmed letters.entry.now result.now }
{
    let mut left = letters;
    while let Some((last, front)) = left.split_last() {
        if !last.is_plain(b' ') {
            return left;
        }
        left = front;
    }
    left
}

/// Whether letters begin with this byte, not quoted, and what comes after it.
fn strip_first(byte: u8, letters: &[Letter]) -> (bool, &[Letter])
    ensures { (result.0, result.1.now) ≡ strip_first byte letters.now }
{
    match letters.split_first() {
        Some((first, rest)) => {
            if first.is_plain(byte) {
                (true, rest)
            } else {
                (false, letters)
            }
        }
        None => (false, letters),
    }
}

/// Whether letters end with a slash, and what comes before it; `None` where that slash is quoted.
fn strip_slash(letters: &[Letter]) -> Option<(bool, &[Letter])>
    ensures { StripsSlash letters.now result }
{
    match letters.split_last() {
        Some((last, front)) => {
            if last.byte != b'/' {
                Some((false, letters))
            } else if last.quoted {
                None
            } else {
                Some((true, front))
            }
        }
        None => Some((false, letters)),
    }
}

/// Whether one of the letters is a slash.
fn has_slash(letters: &[Letter]) -> bool
    ensures { result ≡ has_slash letters.entry.now }
{
    let mut left = letters;
    while let Some((first, rest)) = left.split_first() {
        if first.byte == b'/' {
            return true;
        }
        left = rest;
    }
    false
}

/// The bytes before the first letter that is quoted or a wildcard, and what comes after them.
pub(crate) fn read_literal<A: Allocator>(
    alloc: A,
    folds: bool,
    letters: &[Letter],
) -> Result<(Vec<u8, A>, &[Letter]), AllocError>
    ensures { IfOk result (λ p. (p.0.items ≡ literal_prefix folds letters.entry.now)
        × (p.1.now ≡ after_literal letters.entry.now)) }
{
    let mut literal = Vec::new(alloc);
    let mut left = letters;
    while let Some((first, rest)) = left.split_first() {
        if !first.is_simple() {
            return Ok((literal, left));
        }
        literal.push(first.own_byte(folds))?;
        left = rest;
    }
    Ok((literal, left))
}

/// Whether a text begins with a `#`.
fn is_comment(text: &[u8]) -> bool
    ensures { result ≡ is_comment text.now }
{
    match text.split_first() {
        Some((first, _)) => *first == b'#',
        None => false,
    }
}

/// Reads the letters of a line that is no comment, or returns why they are no pattern.
fn read_letters<A: Allocator + Copy>(
    alloc: A,
    folds: bool,
    number: usize,
    letters: &[Letter],
) -> Result<Result<Line<A>, NoPattern>, AllocError>
    ensures line { IfOk result (λ read. LettersSayLine folds number letters.now read) }
    ensures tag { IfOk result (λ read. IfOk read (λ line. IsTag line line.tag)) }
{
    let (takes_in, named) = strip_first(b'!', trim(letters));
    let Some((directories, whole)) = strip_slash(named) else {
        return Ok(Err(NoPattern::QuotedSlash));
    };
    let anchored = has_slash(whole);
    let (_, body) = strip_first(b'/', whole);
    if body.is_empty() {
        return Ok(Err(NoPattern::Empty));
    }
    let (literal, rest) = read_literal(alloc, folds, body)?;
    let Some(pattern) = read_pattern(alloc, folds, rest)? else {
        return Ok(Err(NoPattern::Class));
    };
    let tag = line_tag(alloc, folds, anchored, &literal, rest)?;
    Ok(Ok(Line {
        number,
        takes_in,
        directories,
        anchored,
        folds,
        literal,
        pattern,
        tag,
    }))
}

/// Reads the text of a line, or returns why it is no pattern.
pub(crate) fn read_line<A: Allocator + Copy>(
    alloc: A,
    folds: bool,
    number: usize,
    text: &[u8],
) -> Result<Result<Line<A>, NoPattern>, AllocError>
    ensures line { IfOk result (λ read. SaysLine folds number text.now read) }
    ensures tag { IfOk result (λ read. IfOk read (λ line. IsTag line line.tag)) }
{
    if is_comment(text) {
        return Ok(Err(NoPattern::Comment));
    }
    let Some(letters) = letters(alloc, text)? else {
        return Ok(Err(NoPattern::Backslash));
    };
    read_letters(alloc, folds, number, &letters)
}
