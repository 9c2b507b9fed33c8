//! All iterators: those of raw strings, and those of the crates below this one.
ghost use Rattle.std.specs.Prelude.{◌≡◌, ℕ, List};
ghost use Rattle.std.specs.Iterator.{YieldsFirstBy, item_count};
ghost use Rattle.os_str_ext.specs.Cuts.{AreOfRest};
ghost use Rattle.os_str_bytes.specs.Raw.{raw_bytes};

use crate::raw_str::RawOsStr;
pub use os_str_ext::{
    Direction, FromEnd, FromStart, OsUnits, Pieces, RSplit, Split, Symbols, Utf8Chunks, WideUnits,
};
use os_str_ext::{Pattern, Platform};
use std::alloc::AllocError;
use std::marker::Model;
pub use wtf8_core::{CodePoints, DecodeWide, EncodeWide};

/// An iterator over the pieces of a raw string between the matches of a pattern, from the start or
/// from the end: the items of [`Pieces`] as raw strings.
///
/// Cloning doesn't allocate and always returns `Ok`. The clone yields the same remaining pieces.
/// After `None` the iterator returns only `None`.
#[derive(Drop)]
pub struct RawPieces<'a, E: Platform + 'a, P: Pattern, D: Direction> {
    pieces: Pieces<'a, E, P, D>,
}

/// The pieces of a raw string, from its start: the items of [`Split`] as raw strings.
pub type RawSplit<'a, E, P> = RawPieces<'a, E, P, FromStart>;

/// The pieces of a raw string, from its end: the items of [`RSplit`] as raw strings.
pub type RawRSplit<'a, E, P> = RawPieces<'a, E, P, FromEnd>;

impl<'a, E: Platform, P: Pattern, D: Direction> Model for RawPieces<'a, E, P, D> {
    ghost Value = { List (List ℕ) };

    ghost view = { λ it. it.pieces };
}

impl<'a, E: Platform, P: Pattern, D: Direction> RawPieces<'a, E, P, D> {
    pub(crate) fn new(pieces: Pieces<'a, E, P, D>) -> Self
        ensures { result ≡ pieces.entry }
    {
        RawPieces { pieces }
    }

    /// The rest of the raw string, with the remaining pieces, or `None` once all pieces were
    /// yielded ([`Pieces::rest`] as a raw string).
    ///
    /// ```
    /// use os_str_bytes::{RawOsStr, Unix};
    ///
    /// let mut pieces = RawOsStr::<Unix>::from_str("foobar").split("o");
    /// assert!(rt; pieces.next() == Some(RawOsStr::from_str("f")));
    /// assert!(rt; pieces.rest() == Some(RawOsStr::from_str("obar")));
    /// ```
    pub fn rest(&self) -> Option<RawOsStr<'a, E>>
        ensures { AreOfRest D.cuts raw_bytes result self.now }
    {
        Some(RawOsStr::new(self.pieces.rest()?))
    }
}

impl<'a, E: Platform, P: Pattern, D: Direction> Clone for RawPieces<'a, E, P, D> {
    ghost use Rattle.std.specs.Prelude.{◌≡◌};

    ghost is_clone = { λ x y. y ≡ x };

    ghost is_infallible = { λ _. Unit {0} };

    fn clone(&self) -> Result<Self, AllocError> {
        Ok(RawPieces {
            pieces: self.pieces.clone()?,
        })
    }
}

impl<'a, E: Platform, P: Pattern, D: Direction> Iterator for RawPieces<'a, E, P, D> {
    type Item = RawOsStr<'a, E>;

    ghost next_gives = { YieldsFirstBy raw_bytes (λ left. left) };

    ghost remaining = { item_count (λ left. left) };

    fn next(&mut self) -> Option<RawOsStr<'a, E>> {
        Some(RawOsStr::new(self.pieces.next()?))
    }
}
