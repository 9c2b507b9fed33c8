//! Patterns by their small letters, of which keys are made where a set folds.
ghost use Rattle.std.specs.Prelude.{IfOk};
ghost use Rattle.wildcards.specs.Small.{ArePaired, IsPaired, IsSmallItem, IsSmallPart};

use crate::part::Part;
use crate::piece::{Item, Piece};
use crate::range::small_letter;
use crate::set::Pattern;
use std::alloc::{AllocError, Allocator};

/// An item that matches the small letters of what the other matches: one of them, or any.
fn small_item<A: Allocator>(item: &Item<A>) -> Item<A>
    ensures { IsSmallItem item.now result }
{
    match item {
        Item::Any => Item::Any,
        Item::Literal(letter) => Item::Literal(small_letter(*letter)),
        Item::EitherCase(small) => Item::Literal(*small),
        Item::OneOf(class) => match class.only_small() {
            Some(small) => Item::Literal(small),
            None => Item::Any,
        },
    }
}

/// The piece of such an item.
fn small_piece<A: Allocator>(piece: &Piece<Item<A>>) -> Piece<Item<A>>
    ensures { IsPaired IsSmallItem piece.now result }
{
    match piece {
        Piece::Many => Piece::Many,
        Piece::One(item) => Piece::One(small_item(item)),
    }
}

/// The part of such items.
fn small_part<A: Allocator + Copy>(alloc: A, part: &Part<A>) -> Result<Part<A>, AllocError>
    ensures { IfOk result (λ small. IsSmallPart part.now small) }
{
    let pieces = part.pieces();
    let mut small = Vec::with_capacity(alloc, pieces.len())?;
    let mut left = pieces;
    while let Some((piece, rest)) = left.split_first() {
        small.push(small_piece(piece))?;
        left = rest;
    }
    Part::new(alloc, small)
}

/// The parts of such items.
pub(crate) fn small_parts<A: Allocator + Copy>(
    alloc: A,
    parts: &[Piece<Part<A>>],
) -> Result<Vec<Piece<Part<A>>, A>, AllocError>
    ensures { IfOk result (λ small. ArePaired IsSmallPart parts.entry.now small.items) }
{
    let mut small = Vec::with_capacity(alloc, parts.len())?;
    let mut left = parts;
    while let Some((piece, rest)) = left.split_first() {
        match piece {
            Piece::Many => small.push(Piece::Many)?,
            Piece::One(part) => small.push(Piece::One(small_part(alloc, part)?))?,
        }
        left = rest;
    }
    Ok(small)
}

/// Whether a letter of ASCII has a case.
fn has_case(letter: u32) -> bool {
    small_letter(letter) != letter || (letter >= 0x61 && letter <= 0x7A)
}

/// Whether one of the pieces is a letter with a case that matters.
fn is_cased<A: Allocator>(pieces: &[Piece<Item<A>>]) -> bool {
    for piece in pieces {
        if let Piece::One(Item::Literal(letter)) = piece {
            if has_case(*letter) {
                return true;
            }
        }
    }
    false
}

/// Whether one of the pieces is a letter with a case that doesn't matter.
fn is_caseless<A: Allocator>(pieces: &[Piece<Item<A>>]) -> bool {
    for piece in pieces {
        if let Piece::One(item) = piece {
            if let Item::Literal(letter) = small_item(item) {
                if has_case(letter) {
                    return true;
                }
            }
        }
    }
    false
}

/// Whether a set of these patterns folds: letters of ASCII have a case, and it doesn't matter of any.
pub(crate) fn folds<A: Allocator>(patterns: &[Pattern<A>]) -> bool {
    let mut found = false;
    for pattern in patterns {
        for choice in pattern.choices.as_slice() {
            for piece in choice.pieces.as_slice() {
                if let Piece::One(part) = piece {
                    if is_cased(part.pieces()) {
                        return false;
                    }
                    found = found || is_caseless(part.pieces());
                }
            }
        }
    }
    found
}
