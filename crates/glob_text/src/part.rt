//! Patterns without alternatives, compiled.
ghost use Rattle.std.specs.Prelude.{◌≡◌, ◌++◌, ◌<◌, ◌≤◌, ◌+◌, map, length, None, IfOk};
ghost use Rattle.glob_text.specs.Marks.{mark_of};
ghost use Rattle.glob_text.specs.Chosen.{mark_at, marks_at, choices_of};
ghost use Rattle.glob_text.specs.Parts.{is_separator, is_star, is_doubled, ends_part, ends_deep, is_deep, IsPieceOf, IsPart, IsCompiled, AreCompiled};
ghost use Rattle.glob_text.specs.PartSteps.{rest_of, rest_size, ArePieces, IsPieceAt, IsPieceClone};

use crate::choices::Chosen;
use crate::mark::Mark;
use std::alloc::{AllocError, Allocator};
use wildcards::{Choice, Class, Item, Part, Piece, Separators, push_group};

impl<A: Allocator> Mark<A> {
    /// Whether it separates components.
    fn is_separator(&self, separators: Separators) -> bool
        ensures { result ≡ is_separator separators (mark_of self.now) }
    {
        match self {
            Mark::Literal(letter) => separators.contains(*letter),
            Mark::Any => false,
            Mark::Star(_) => false,
            Mark::OneOf(_) => false,
            Mark::Open(_) => false,
            Mark::Comma => false,
            Mark::Close(_) => false,
        }
    }

    /// Whether it is `*`.
    fn is_star(&self) -> bool
        ensures { result ≡ is_star (mark_of self.now) }
    {
        match self {
            Mark::Star(_) => true,
            Mark::Literal(_) => false,
            Mark::Any => false,
            Mark::OneOf(_) => false,
            Mark::Open(_) => false,
            Mark::Comma => false,
            Mark::Close(_) => false,
        }
    }

    /// Whether it is `*`, and another comes right after it in the pattern.
    fn is_doubled(&self) -> bool
        ensures { result ≡ is_doubled (mark_of self.now) }
    {
        match self {
            Mark::Star(again) => *again,
            Mark::Literal(_) => false,
            Mark::Any => false,
            Mark::OneOf(_) => false,
            Mark::Open(_) => false,
            Mark::Comma => false,
            Mark::Close(_) => false,
        }
    }

    /// What it is in the compiled pattern.
    fn piece(&self, alloc: A) -> Result<Piece<Item<A>>, AllocError>
    where
        A: Copy,
        ensures { IfOk result (λ piece. IsPieceOf (mark_of self.now) piece) }
    {
        match self {
            Mark::Literal(letter) => Ok(Piece::One(Item::Literal(*letter))),
            Mark::Any => Ok(Piece::One(Item::Any)),
            Mark::Star(_) => Ok(Piece::Many),
            Mark::OneOf(members) => {
                let ranges = Vec::from_slice(alloc, &members.ranges)?;
                let class = Class::new(alloc, members.negated, ranges)?;
                Ok(Piece::One(Item::OneOf(class)))
            }
            Mark::Open(_) => Ok(Piece::One(Item::Literal(0x7B))),
            Mark::Comma => Ok(Piece::One(Item::Literal(0x2C))),
            Mark::Close(_) => Ok(Piece::One(Item::Literal(0x7D))),
        }
    }
}

/// Whether the mark of an index separates components.
fn is_separator_at<A: Allocator>(separators: Separators, marks: &[Mark<A>], index: usize) -> bool
    ensures { result ≡ is_separator separators (mark_at (map mark_of marks.now) index) }
{
    match marks.get(index) {
        Some(mark) => mark.is_separator(separators),
        None => false,
    }
}

/// Whether the mark of an index is `*`.
fn is_star_at<A: Allocator>(marks: &[Mark<A>], index: usize) -> bool
    ensures { result ≡ is_star (mark_at (map mark_of marks.now) index) }
{
    match marks.get(index) {
        Some(mark) => mark.is_star(),
        None => false,
    }
}

/// Whether the mark of an index is `*`, and another comes right after it in the pattern.
fn is_doubled_at<A: Allocator>(marks: &[Mark<A>], index: usize) -> bool
    ensures { result ≡ is_doubled (mark_at (map mark_of marks.now) index) }
{
    match marks.get(index) {
        Some(mark) => mark.is_doubled(),
        None => false,
    }
}

/// What each mark is in the compiled pattern.
fn pieces_of<A: Allocator + Copy>(
    alloc: A,
    marks: &[Mark<A>],
) -> Result<Vec<Piece<Item<A>>, A>, AllocError>
    ensures { IfOk result (λ pieces. ArePieces (map mark_of marks.entry.now) pieces.items) }
{
    let mut pieces = Vec::with_capacity(alloc, marks.len())?;
    let mut left = marks;
    while let Some((mark, rest)) = left.split_first() {
        let piece = mark.piece(alloc)?;
        pieces.push(piece)?;
        left = rest;
    }
    Ok(pieces)
}

/// Clones a piece. Its class shares its memory with the clone.
fn clone_piece<A: Allocator>(piece: &Piece<Item<A>>) -> Result<Piece<Item<A>>, AllocError>
    ensures { IfOk result (λ clone. IsPieceClone piece.now clone) }
{
    match piece {
        Piece::Many => Ok(Piece::Many),
        Piece::One(item) => Ok(Piece::One(item.clone()?)),
    }
}

/// What the mark of an index is in the compiled pattern, by the pieces of all marks.
fn piece_at<A: Allocator>(
    pieces: &[Piece<Item<A>>],
    index: usize,
) -> Result<Piece<Item<A>>, AllocError>
    ensures { IfOk result (λ piece. IsPieceAt pieces.now index piece) }
{
    if index < pieces.len() {
        return clone_piece(&pieces[index]);
    }
    Ok(Piece::One(Item::Any))
}

/// Whether a part ends here.
fn ends_part<A: Allocator>(separators: Separators, marks: &[Mark<A>], text: &[usize]) -> bool
    ensures { result ≡ ends_part separators (marks_at (map mark_of marks.now) text.now) }
{
    match text.split_first() {
        Some((index, _)) => is_separator_at(separators, marks, *index),
        None => true,
    }
}

/// Whether `*` comes first, and then the end of a part.
fn ends_deep<A: Allocator>(separators: Separators, marks: &[Mark<A>], text: &[usize]) -> bool
    ensures { result ≡ ends_deep separators (marks_at (map mark_of marks.now) text.now) }
{
    match text.split_first() {
        Some((index, rest)) => is_star_at(marks, *index) && ends_part(separators, marks, rest),
        None => false,
    }
}

/// Whether the first part is `**`.
fn is_deep<A: Allocator>(separators: Separators, marks: &[Mark<A>], text: &[usize]) -> bool
    ensures { result ≡ is_deep separators (marks_at (map mark_of marks.now) text.now) }
{
    match text.split_first() {
        Some((index, rest)) => is_doubled_at(marks, *index) && ends_deep(separators, marks, rest),
        None => false,
    }
}

/// The number of marks of the first part.
fn part_len<A: Allocator>(separators: Separators, marks: &[Mark<A>], text: &[usize]) -> usize
    ensures { result ≤ length text.now }
{
    text.iter()
        .position(|index| is_separator_at(separators, marks, *index))
        .unwrap_or(text.len())
}

/// Reads a part, and what comes after its separator, if one is there.
fn read_part<'t, A: Allocator + Copy>(
    alloc: A,
    separators: Separators,
    marks: &[Mark<A>],
    pieces: &[Piece<Item<A>>],
    text: &'t [usize],
) -> Result<(Part<A>, Option<&'t [usize]>), AllocError>
    requires { ArePieces (map mark_of marks.now) pieces.now }
    ensures part { IfOk result (λ p. IsPart separators
        (marks_at (map mark_of marks.now) text.entry.now) p.0.pieces.items
        (rest_of (map mark_of marks.now) p.1)) }
    ensures shorter { IfOk result (λ p. rest_size p.1 < length text.entry.now + 1) }
{
    let mut own = Vec::with_capacity(alloc, part_len(separators, marks, text))?;
    let mut left = text;
    while let Some((index, rest)) = left.split_first() {
        if is_separator_at(separators, marks, *index) {
            return Ok((Part::new(alloc, own)?, Some(rest)));
        }
        let piece = piece_at(pieces, *index)?;
        own.push(piece)?;
        left = rest;
    }
    Ok((Part::new(alloc, own)?, None))
}

/// Compiles the marks of these indices.
fn compile<A: Allocator + Copy>(
    alloc: A,
    separators: Separators,
    marks: &[Mark<A>],
    pieces: &[Piece<Item<A>>],
    chosen: &[usize],
) -> Result<Vec<Piece<Part<A>>, A>, AllocError>
    requires { ArePieces (map mark_of marks.now) pieces.now }
    ensures { IfOk result (λ pattern. IsCompiled separators
        (marks_at (map mark_of marks.now) chosen.now) pattern.items) }
{
    let mut pattern = Vec::new(alloc);
    let mut left = Some(chosen);
    while let Some(text) = left {
        let deep = is_deep(separators, marks, text);
        let (part, after) = read_part(alloc, separators, marks, pieces, text)?;
        push_group(&mut pattern, part, deep, after.is_some())?;
        left = after;
    }
    Ok(pattern)
}

/// Compiles each choice.
pub(crate) fn compile_each<A: Allocator + Copy>(
    alloc: A,
    separators: Separators,
    marks: &[Mark<A>],
    choices: &[Chosen<A>],
) -> Result<Vec<Choice<A>, A>, AllocError>
    ensures { IfOk result (λ compiled. AreCompiled separators
        (choices_of (map mark_of marks.now) choices.entry.now) compiled.items) }
{
    let all = pieces_of(alloc, marks)?;
    let mut compiled = Vec::with_capacity(alloc, choices.len())?;
    let mut left = choices;
    while let Some((choice, rest)) = left.split_first() {
        let pieces = compile(alloc, separators, marks, all.as_slice(), &choice.marks)?;
        compiled.push(Choice { pieces })?;
        left = rest;
    }
    Ok(compiled)
}
