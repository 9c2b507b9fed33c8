//! Pieces that are a text of ASCII.
ghost use Rattle.std.specs.Prelude.{◌≡◌, ◌↔◌, ◌<◌, ℕ, true, IsTrue, IfOk};
ghost use Rattle.wildcards.specs.declared.piece.Item.TheVariants.{Literal};
ghost use Rattle.wildcards.specs.declared.piece.Piece.TheVariants.{One};
ghost use Rattle.wildcards.specs.Literals.{spells, spells_some};

use crate::piece::{Item, Piece};
use std::alloc::{AllocError, Allocator};

/// Whether a piece is a literal of ASCII.
pub(crate) fn is_literal<A: Allocator>(piece: &Piece<Item<A>>) -> bool
    ensures { IsTrue result ↔ ((letter : ℕ) × ((piece.now ≡ One (Literal letter))
        × letter < 0x80)) }
{
    match piece {
        Piece::One(Item::Literal(letter)) => *letter < 0x80,
        _ => false,
    }
}

/// The text that pieces match alone, if each of them is a literal of ASCII.
pub(crate) fn literal_text<A: Allocator + Copy>(
    alloc: A,
    pieces: &[Piece<Item<A>>],
) -> Result<Option<Vec<u8, A>>, AllocError>
    ensures { IfOk result (λ text. spells_some pieces.entry.now text ≡ true) }
{
    if !pieces.iter().all(|piece| is_literal(piece)) {
        return Ok(None);
    }
    let mut text = Vec::with_capacity(alloc, pieces.len())?;
    let mut left = pieces;
    while let Some((first, rest)) = left.split_first() {
        match first {
            Piece::Many => return Ok(None),
            Piece::One(item) => match item {
                Item::Literal(letter) => {
                    if *letter >= 0x80 {
                        return Ok(None);
                    }
                    text.push(*letter as u8)?;
                    left = rest;
                }
                _ => return Ok(None),
            },
        }
    }
    Ok(Some(text))
}
