//! The pieces of a string.
ghost use Rattle.std.specs.Prelude.{◌≡◌, ◌<◌, ℕ, List, MatchOption, length};
ghost use Rattle.std.specs.{Iterator.YieldsFirstBy, Iterator.item_count, Option.option_map, Str.IsUtf8};
ghost use Rattle.wtf8_core.specs.Occurrence.{OccursNowhere};
ghost use Rattle.os_str_ext.specs.Pieces.{IsSplit, IsRSplit, Splits};
ghost use Rattle.platform_str.specs.Strings.{bytes};
ghost use Rattle.os_str_ext.specs.Cuts.{FirstCut, LastCut, ArePieces, AreOfRest, PiecesOf, CutLaws, pieces_left};
ghost use Rattle.os_str_ext.specs.SomePieces.{pieces_from_start, pieces_from_end, cuts_from_start, cuts_from_end};

use crate::boundary::Parts;
use crate::parts::{rsplit_once, split_once};
use crate::pattern::{Encoded, Pattern};
use platform_str::{OsStr, Platform};
use std::alloc::AllocError;
use std::marker::{Model, PhantomData};

/// From which end a string is split: [`FromStart`] or [`FromEnd`].
pub trait Direction {
    // the cuts of a string: relates the pattern, the string, the piece that the cut takes off and
    // the rest
    ghost cuts: { List ℕ → List ℕ → List ℕ → List ℕ → Type 0 };

    // the pieces of each string
    ghost pieces: { PiecesOf cuts };

    /// The first piece from this end and the rest, cut around the pattern, or `None` if the pattern
    /// doesn't occur.
    ///
    /// ```
    /// use os_str_bytes::{Direction, FromEnd, OsStr, Unix};
    ///
    /// let (piece, rest) = (OsStr::new("bar"), OsStr::new("fo"));
    /// assert!(rt; FromEnd::cut(OsStr::<Unix>::new("foobar"), "o") == Some((piece, rest)));
    /// ```
    fn cut<'a, E: Platform>(string: OsStr<'a, E>, text: &str) -> Option<Parts<'a, E>>
        ensures { MatchOption result (OccursNowhere text.now (bytes string.entry))
            (λ cut. cuts text.now (bytes string.entry) (bytes cut.0) (bytes cut.1)) };

    ghost laws: { CutLaws cuts };
}

/// From the start, each cut at the first index at which the pattern occurs.
pub struct FromStart;

/// From the end, each cut at the last index at which the pattern occurs.
pub struct FromEnd;

impl Direction for FromStart {
    ghost cuts = { FirstCut };

    ghost pieces = { pieces_from_start };

    ghost laws = { cuts_from_start };

    #[inline(always)]
    fn cut<'a, E: Platform>(string: OsStr<'a, E>, text: &str) -> Option<Parts<'a, E>> {
        split_once(string, text)
    }
}

impl Direction for FromEnd {
    ghost cuts = { LastCut };

    ghost pieces = { pieces_from_end };

    ghost laws = { cuts_from_end };

    #[inline(always)]
    fn cut<'a, E: Platform>(string: OsStr<'a, E>, text: &str) -> Option<Parts<'a, E>> {
        match rsplit_once(string, text) {
            Some((rest, piece)) => Some((piece, rest)),
            None => None,
        }
    }
}

/// An iterator over the pieces of a string between the matches of a pattern, from the start or from
/// the end: [`Split`] and [`RSplit`].
///
/// It holds the rest of the string and the encoded pattern, and copies no bytes. Cloning doesn't
/// allocate and always returns `Ok`. The clone yields the same remaining pieces. After `None` the
/// iterator returns only `None`.
pub struct Pieces<'a, E: Platform + 'a, P: Pattern, D: Direction> {
    rest: Option<OsStr<'a, E>>,
    pattern: P::__Encoded,
    direction: PhantomData<D>,
}

/// The pieces of a string between the matches of a pattern, from its start (std's `str::Split`).
pub type Split<'a, E, P> = Pieces<'a, E, P, FromStart>;

/// The pieces of a string between the matches of a pattern, from its end (std's `str::RSplit`).
pub type RSplit<'a, E, P> = Pieces<'a, E, P, FromEnd>;

impl<'a, E: Platform, P: Pattern, D: Direction> Model for Pieces<'a, E, P, D> {
    ghost Value = { List (List ℕ) };

    ghost view = { λ it. pieces_left D.pieces (P.__Encoded.text it.pattern)
        (option_map bytes it.rest) };

    ghost invariant = { λ it. 0 < length (P.__Encoded.text it.pattern) };
}

impl<'a, E: Platform, P: Pattern, D: Direction> Pieces<'a, E, P, D> {
    fn new(string: OsStr<'a, E>, pattern: P) -> Self
        requires { 0 < length (P.text pattern) }
        ensures pieces { ArePieces D.cuts (P.text pattern) (bytes string.entry) result }
        ensures utf8 { IsUtf8 (P.text pattern) }
    {
        Pieces {
            rest: Some(string),
            pattern: pattern.encode(),
            direction: PhantomData,
        }
    }

    /// The rest of the string, with the remaining pieces, or `None` once all pieces were yielded
    /// (std's `str::Split::remainder`). It borrows from the original string and doesn't allocate.
    ///
    /// ```
    /// use os_str_bytes::{OsStr, OsStrBytesExt, Unix};
    ///
    /// let mut pieces = OsStr::<Unix>::new("PATH=a=b").split("=");
    /// assert!(rt; pieces.next() == Some(OsStr::new("PATH")));
    /// assert!(rt; pieces.rest() == Some(OsStr::new("a=b")));
    /// assert!(rt; pieces.next().is_some() && pieces.next().is_some());
    /// assert!(rt; pieces.rest().is_none());
    /// ```
    pub fn rest(&self) -> Option<OsStr<'a, E>>
        ensures { AreOfRest D.cuts bytes result self.now }
    {
        self.rest
    }
}

/// The pieces of a string from its start.
pub(crate) fn split<E: Platform, P: Pattern>(string: OsStr<'_, E>, pattern: P) -> Split<'_, E, P>
    requires { 0 < length (P.text pattern) }
    ensures { Splits E.units IsSplit (P.text pattern) (bytes string.entry) result }
{
    Pieces::new(string, pattern)
}

/// The pieces of a string from its end.
pub(crate) fn rsplit<E: Platform, P: Pattern>(string: OsStr<'_, E>, pattern: P) -> RSplit<'_, E, P>
    requires { 0 < length (P.text pattern) }
    ensures { Splits E.units IsRSplit (P.text pattern) (bytes string.entry) result }
{
    Pieces::new(string, pattern)
}

impl<'a, E: Platform, P: Pattern, D: Direction> Drop for Pieces<'a, E, P, D> {
    fn drop(self) {
        let Pieces {
            rest: _,
            pattern: _,
            direction: _,
        } = self;
    }
}

impl<'a, E: Platform, P: Pattern, D: Direction> Clone for Pieces<'a, E, P, D> {
    ghost is_clone = { λ x y. y ≡ x };

    ghost is_infallible = { λ _. Unit {0} };

    fn clone(&self) -> Result<Self, AllocError> {
        Ok(Pieces {
            rest: self.rest,
            pattern: self.pattern,
            direction: PhantomData,
        })
    }
}

impl<'a, E: Platform, P: Pattern, D: Direction> Iterator for Pieces<'a, E, P, D> {
    type Item = OsStr<'a, E>;

    ghost next_gives = { YieldsFirstBy bytes (λ left. left) };

    ghost remaining = { item_count (λ left. left) };

    fn next(&mut self) -> Option<OsStr<'a, E>> {
        let string = self.rest?;
        match D::cut(string, self.pattern.as_str()) {
            None => {
                self.rest = None;
                Some(string)
            }
            Some((piece, rest)) => {
                self.rest = Some(rest);
                Some(piece)
            }
        }
    }
}
