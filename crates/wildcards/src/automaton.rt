//! Pieces against the letters of a component, each of which is read once. A word has a flag for
//! each number of items that the letters read so far may have matched.
ghost use Rattle.std.specs.Prelude.{◌↔◌, ◌<◌, ◌∷◌, IsTrue, IfSome};
ghost use Rattle.wildcards.specs.declared.piece.Piece.TheVariants.{Many};
ghost use Rattle.wildcards.specs.Flags.{Set, IsShifted, SetsLowest, IsStepped};
ghost use Rattle.wildcards.specs.Match.{Fits, TakesLetter};
ghost use Rattle.wildcards.specs.Places.{Stays, AreFlags, AreFitting, AreKnown, IsFew};
ghost use Rattle.wildcards.specs.Wild.{Wild};

use crate::letters::Letters;
use crate::piece::{Item, Piece};
use crate::run::first_letter;
use std::alloc::Allocator;

/// The flags, each one place higher. The highest is lost.
#[inline(always)]
fn shifted(word: u128) -> u128
    ensures { IsShifted word result }
{
    word << 1
}

/// The flags and, at the lowest place, this one too.
#[inline(always)]
fn with_lowest(word: u128, flag: bool) -> u128
    ensures { SetsLowest word flag result }
{
    if flag { word | 1 } else { word }
}

/// The places after one letter more: the next after an item that fits it, and the same before a
/// `*`.
#[inline(always)]
fn stepped(word: u128, fitting: u128, staying: u128) -> u128
    ensures { IsStepped word fitting staying result }
{
    shifted(word & fitting) | (word & staying)
}

/// Whether the flag of this place is set.
#[inline(always)]
fn is_set(word: u128, place: u32) -> bool
    requires { place < 128 }
    ensures { IsTrue result ↔ Set word place }
{
    (word >> place) & 1 == 1
}

/// The flags of the items that fit a letter.
fn fitting<A: Allocator>(pieces: &[Piece<Item<A>>], letter: u32) -> u128
    ensures { AreFitting pieces.entry.now letter result }
{
    let mut word = 0;
    let mut left = pieces;
    while let Some((last, before)) = left.split_last() {
        word = match last {
            Piece::Many => word,
            Piece::One(item) => with_lowest(shifted(word), item.fits(letter)),
        };
        left = before;
    }
    word
}

/// The flags of the places before a `*`, of which one comes before the pieces, and the number of
/// items. Returns `None` if there are as many items as flags.
fn staying<A: Allocator>(pieces: &[Piece<Item<A>>]) -> Option<(u128, u32)>
    ensures { IfSome result (λ found. AreFlags Stays (Many ∷ pieces.entry.now) found.0
        × IsFew (Many ∷ pieces.entry.now) found.1) }
{
    let mut word = 0;
    let mut count = 0;
    let mut left = pieces;
    while let Some((last, before)) = left.split_last() {
        match last {
            Piece::Many => word = with_lowest(word, true),
            Piece::One(_) => {
                if count == 127 {
                    return None;
                }
                count += 1;
                word = shifted(word);
            }
        }
        left = before;
    }
    Some((with_lowest(word, true), count))
}

/// The flags of the items that fit a letter. They are kept beside it.
#[inline(always)]
fn known_fitting<A: Allocator>(
    letters: &mut [u32; 128],
    known: &mut [u128; 128],
    pieces: &[Piece<Item<A>>],
    letter: u32,
) -> u128
    requires { AreKnown pieces.now letters.old known.old }
    ensures known { AreKnown pieces.now letters.new known.new }
    ensures result { AreFitting pieces.now letter result }
{
    let at = (letter % 128) as usize;
    if letters[at] == letter {
        return known[at];
    }
    let flags = fitting(pieces, letter);
    letters[at] = letter;
    known[at] = flags;
    flags
}

/// Whether pieces match after any number of letters. Returns `None` if more than 127 of them aren't
/// `*`. The time is in proportion to the letters, and for each different letter to the pieces.
#[inline(never)]
pub(crate) fn is_after_many_by_flags<L: Letters, A: Allocator>(
    pieces: &[Piece<Item<A>>],
    text: &[u8],
) -> Option<bool>
    requires { L.formed text.now }
    ensures { IfSome result (λ found. IsTrue found ↔ Wild TakesLetter Fits
        (Many ∷ pieces.now) (L.letters text.entry.now)) }
{
    let (staying, end) = staying(pieces)?;
    let mut letters = [0; 128];
    let mut known = [fitting(pieces, 0); 128];
    let mut reached = 1;
    let mut from = text;
    while let Some((letter, rest)) = first_letter::<L>(from) {
        let fitting = known_fitting(&mut letters, &mut known, pieces, letter);
        reached = stepped(reached, fitting, staying);
        from = rest;
    }
    Some(is_set(reached, end))
}
