//! Patterns as they are written in a line, part by part.
ghost use Rattle.std.specs.Prelude.{◌≡◌, ◌++◌, ◌<◌, ◌≤◌, ◌+◌, length, Some, MatchOption, IfOk, IfSome};
ghost use Rattle.wildcards.specs.declared.piece.Piece.TheVariants.{One};
ghost use Rattle.os_ignore.specs.Components.{left_size};
ghost use Rattle.os_ignore.specs.Letters.{kind_of};
ghost use Rattle.os_ignore.specs.PatternText.{PieceAt, FitsCases, IsLiteral, IsBrokenPiece, IsPart, IsBrokenPart, is_deep, all_stars, is_joined, IsPattern, IsBrokenPattern, left_after};

use crate::class_text::read_class;
use crate::letter::{Kind, Letter};
use std::alloc::{AllocError, Allocator};
use wildcards::{Item, Part, Piece, push_group};

/// What comes after a part.
#[derive(Clone, Copy)]
pub enum After<'a> {
    /// Nothing.
    End,
    /// A slash, which may be quoted, and more.
    Slash(bool, &'a [Letter]),
}

impl<'a> After<'a> {
    /// The text of the further parts.
    fn left(self) -> Option<&'a [Letter]>
        ensures { result ≡ left_after self.entry }
    {
        match self {
            After::End => None,
            After::Slash(_, rest) => Some(rest),
        }
    }

    /// Whether a slash follows that isn't quoted.
    fn is_joined(self) -> bool
        ensures { result ≡ is_joined self.entry }
    {
        match self {
            After::End => false,
            After::Slash(quoted, _) => !quoted,
        }
    }
}

/// The item that fits the bytes whose small letter is this byte.
fn either_case<A: Allocator>(own: u8) -> Item<A>
    ensures { FitsCases own result }
{
    if own.is_ascii_alphabetic() {
        Item::EitherCase(u32::from(own))
    } else {
        Item::Literal(u32::from(own))
    }
}

/// The item that matches a letter alone, without regard to case if the file folds.
fn literal<A: Allocator>(folds: bool, letter: Letter) -> Item<A>
    ensures { IsLiteral folds letter (One result) }
{
    if folds {
        either_case(letter.own_byte(true))
    } else {
        Item::Literal(u32::from(letter.byte))
    }
}

/// Reads the piece that begins with `first`, which is no slash; `None` where it is a class that isn't one.
fn read_piece<'a, A: Allocator + Copy>(
    alloc: A,
    folds: bool,
    first: Letter,
    rest: &'a [Letter],
) -> Result<Option<(Piece<Item<A>>, &'a [Letter])>, AllocError>
    ensures piece { IfOk result (λ read. MatchOption read (IsBrokenPiece first rest.now)
        (λ p. PieceAt folds (kind_of first) first rest.now p.0 p.1.now)) }
    ensures shorter { IfOk result (λ read. IfSome read (λ p. length p.1.now ≤ length rest.now)) }
{
    match first.kind() {
        Kind::Star => Ok(Some((Piece::Many, rest))),
        Kind::Question => Ok(Some((Piece::One(Item::Any), rest))),
        Kind::Bracket => {
            let Some((class, after)) = read_class(alloc, folds, rest)? else {
                return Ok(None);
            };
            Ok(Some((Piece::One(Item::OneOf(class)), after)))
        }
        Kind::Literal | Kind::Slash => { Ok(Some((Piece::One(literal(folds, first)), rest))) }
    }
}

/// Reads the pieces of a part, and what comes after it; `None` where a class in it isn't one.
fn read_part<A: Allocator + Copy>(
    alloc: A,
    folds: bool,
    text: &[Letter],
) -> Result<Option<(Vec<Piece<Item<A>>, A>, After<'_>)>, AllocError>
    ensures part { IfOk result (λ read. MatchOption read (IsBrokenPart folds A text.entry.now)
        (λ p. IsPart folds text.entry.now p.0.items p.1)) }
    ensures shorter { IfOk result (λ read. IfSome read
        (λ p. left_size (left_after p.1) < length text.entry.now + 1)) }
{
    let mut pieces = Vec::new(alloc);
    let mut left = text;
    while let Some((first, rest)) = left.split_first() {
        if first.byte == b'/' {
            return Ok(Some((pieces, After::Slash(first.quoted, rest))));
        }
        let Some((piece, after)) = read_piece(alloc, folds, *first, rest)? else {
            return Ok(None);
        };
        pieces.push(piece)?;
        left = after;
    }
    Ok(Some((pieces, After::End)))
}

/// Whether each piece is a star.
fn all_stars<A: Allocator>(pieces: &[Piece<Item<A>>]) -> bool
    ensures { result ≡ all_stars pieces.entry.now }
{
    let mut left = pieces;
    while let Some((first, rest)) = left.split_first() {
        match first {
            Piece::Many => left = rest,
            Piece::One(_) => return false,
        }
    }
    true
}

/// Whether a part is `**`: two stars or more, and nothing else.
fn is_deep<A: Allocator>(pieces: &[Piece<Item<A>>]) -> bool
    ensures { result ≡ is_deep pieces.now }
{
    pieces.len() >= 2 && all_stars(pieces)
}

/// Reads a pattern; `None` where a class in it isn't one.
pub(crate) fn read_pattern<A: Allocator + Copy>(
    alloc: A,
    folds: bool,
    text: &[Letter],
) -> Result<Option<Vec<Piece<Part<A>>, A>>, AllocError>
    ensures { IfOk result (λ read. MatchOption read (IsBrokenPattern folds A text.now)
        (λ pattern. IsPattern folds text.now pattern.items)) }
{
    let mut pattern = Vec::new(alloc);
    let mut left = Some(text);
    while let Some(text) = left {
        let Some((pieces, after)) = read_part(alloc, folds, text)? else {
            return Ok(None);
        };
        let deep = is_deep(&pieces);
        let part = Part::new(alloc, pieces)?;
        push_group(&mut pattern, part, deep, after.is_joined())?;
        left = after.left();
    }
    Ok(Some(pattern))
}
