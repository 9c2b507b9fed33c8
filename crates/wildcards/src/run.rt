//! Pieces against the letters of a component.
ghost use Rattle.std.specs.Prelude.{◌≡◌, ◌↔◌, ◌∷◌, IsTrue, MatchOption, Some};
ghost use Rattle.wildcards.specs.declared.piece.Piece.TheVariants.{Many};
ghost use Rattle.wildcards.specs.Match.{Fits, TakesLetter};
ghost use Rattle.wildcards.specs.Wild.{Wild};
ghost use Rattle.wildcards.specs.Steps.{PartStepSays, IsLetterStep, IsFromByte, SkipsTo, AreLastMatched};
ghost use Rattle.wildcards.specs.Ends.{BeginsOtherwise, EndsOtherwise};

use crate::automaton::is_after_many_by_flags;
use crate::letters::Letters;
use crate::piece::{Item, Piece};
use std::alloc::Allocator;

/// How far pieces match, up to the first wildcard.
#[derive(Clone, Copy)]
enum Step<'p, 'a, A: Allocator> {
    /// To their end, which is also the end of the letters.
    All,
    /// Not far enough.
    Differs,
    /// To a wildcard; these are the pieces after it, and the bytes that are left.
    Many(&'p [Piece<Item<A>>], &'a [u8]),
}

/// The first letter of bytes, and the bytes after it.
#[inline(always)]
pub(crate) fn first_letter<L: Letters>(text: &[u8]) -> Option<(u32, &[u8])>
    requires { L.formed text.now }
    ensures { IsLetterStep L.formed L.letters text.entry.now result }
{
    let Some((first, rest)) = text.split_first() else {
        return None;
    };
    if *first < 0x80 {
        return Some((u32::from(*first), rest));
    }
    Some(L::split_first(text))
}

/// Matches pieces up to the first wildcard.
#[inline(always)]
fn up_to_many<'p, 'a, L: Letters, A: Allocator>(
    pieces: &'p [Piece<Item<A>>],
    text: &'a [u8],
) -> Step<'p, 'a, A>
    requires { L.formed text.now }
    ensures { PartStepSays L.formed L.letters pieces.entry.now text.entry.now result }
{
    let mut left = pieces;
    let mut from = text;
    while let Some((first, rest)) = left.split_first() {
        match first {
            Piece::Many => return Step::Many(rest, from),
            Piece::One(item) => {
                let Some((letter, more)) = first_letter::<L>(from) else {
                    return Step::Differs;
                };
                if !item.fits(letter) {
                    return Step::Differs;
                }
                left = rest;
                from = more;
            }
        }
    }
    if from.is_empty() {
        Step::All
    } else {
        Step::Differs
    }
}

/// What is left of a text from the first of these bytes on.
#[inline(always)]
fn from_byte(byte: u8, text: &[u8]) -> &[u8]
    ensures { IsFromByte byte text.entry.now result.now }
{
    let mut left = text;
    while let Some((first, rest)) = left.split_first() {
        if *first == byte {
            return left;
        }
        left = rest;
    }
    left
}

/// What is left of a text where pieces may begin that come after a wildcard.
#[inline(always)]
fn from_first<'a, L: Letters, A: Allocator>(pieces: &[Piece<Item<A>>], text: &'a [u8]) -> &'a [u8]
    requires { L.formed text.now }
    ensures { SkipsTo L.formed L.letters pieces.now text.entry.now result.now }
{
    let Some((Piece::One(Item::Literal(letter)), _)) = pieces.split_first() else {
        return text;
    };
    if *letter >= 0x80 {
        return text;
    }
    from_byte(*letter as u8, text)
}

/// The number of places of a component that are tried in vain before each letter that is left is
/// read once. A file name has no more.
const PLACES: u8 = 255;

/// Whether pieces match after any number of letters.
fn is_after_many<L: Letters, A: Allocator>(pieces: &[Piece<Item<A>>], text: &[u8]) -> bool
    requires { L.formed text.now }
    ensures { IsTrue result ↔ Wild TakesLetter Fits (Many ∷ pieces.entry.now)
        (L.letters text.entry.now) }
{
    let mut left = pieces;
    let mut from = text;
    let mut places = PLACES;
    loop {
        if left.is_empty() {
            return true;
        }
        from = from_first::<L, A>(left, from);
        match up_to_many::<L, A>(left, from) {
            Step::All => return true,
            Step::Many(after, rest) => {
                left = after;
                from = rest;
            }
            Step::Differs => {
                let Some((_, more)) = first_letter::<L>(from) else {
                    return false;
                };
                from = more;
                if places > 0 {
                    places -= 1;
                    continue;
                }
                if let Some(found) = is_after_many_by_flags::<L, A>(left, from) {
                    return found;
                }
                places = PLACES;
            }
        }
    }
}

/// Matches pieces from the last on, up to a wildcard or to a letter beyond ASCII; what is left
/// matches exactly where all do.
#[inline(always)]
fn match_last<'p, 'a, L: Letters, A: Allocator>(
    pieces: &'p [Piece<Item<A>>],
    text: &'a [u8],
) -> Option<(&'p [Piece<Item<A>>], &'a [u8])>
    requires { L.formed text.now }
    ensures { MatchOption result (¬ (Wild TakesLetter Fits pieces.entry.now (L.letters
        text.entry.now)))
        (λ left. AreLastMatched L.formed L.letters pieces.entry.now text.entry.now left.0.now
        left.1.now) }
{
    let mut left = pieces;
    let mut from = text;
    while let Some((last, before)) = left.split_last() {
        match last {
            Piece::Many => return Some((left, from)),
            Piece::One(item) => {
                let Some((byte, shorter)) = from.split_last() else {
                    return None;
                };
                if *byte >= 0x80 {
                    return Some((left, from));
                }
                if !item.fits(u32::from(*byte)) {
                    return None;
                }
                left = before;
                from = shorter;
            }
        }
    }
    Some((left, from))
}

/// Whether the first piece doesn't fit the first letter of a text, which is ASCII.
#[inline(always)]
pub(crate) fn begins_otherwise<L: Letters, A: Allocator>(
    pieces: &[Piece<Item<A>>],
    text: &[u8],
) -> bool
    requires { L.formed text.now }
    ensures { IsTrue result → BeginsOtherwise pieces.now (L.letters text.now) }
{
    let Some((Piece::One(item), _)) = pieces.split_first() else {
        return false;
    };
    let Some((byte, _)) = text.split_first() else {
        return false;
    };
    *byte < 0x80 && !item.fits(u32::from(*byte))
}

/// Whether the last piece doesn't fit the last letter of a text, which is ASCII.
#[inline(always)]
pub(crate) fn ends_otherwise<L: Letters, A: Allocator>(
    pieces: &[Piece<Item<A>>],
    text: &[u8],
) -> bool
    requires { L.formed text.now }
    ensures { IsTrue result → EndsOtherwise pieces.now (L.letters text.now) }
{
    let Some((Piece::One(item), _)) = pieces.split_last() else {
        return false;
    };
    let Some((byte, _)) = text.split_last() else {
        return false;
    };
    *byte < 0x80 && !item.fits(u32::from(*byte))
}

/// Whether pieces match a whole component.
pub(crate) fn fits_pieces<L: Letters, A: Allocator>(pieces: &[Piece<Item<A>>], text: &[u8]) -> bool
    requires { L.formed text.now }
    ensures { IsTrue result ↔ Wild TakesLetter Fits pieces.now (L.letters text.now) }
{
    let Some((left, from)) = match_last::<L, A>(pieces, text) else {
        return false;
    };
    match up_to_many::<L, A>(left, from) {
        Step::All => true,
        Step::Differs => false,
        Step::Many(after, rest) => is_after_many::<L, A>(after, rest),
    }
}
