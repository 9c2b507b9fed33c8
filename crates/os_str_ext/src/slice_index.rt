//! Ranges of byte indices in strings.
ghost use Rattle.std.specs.Prelude.{◌≡◌, ◌+◌, ◌↔◌, ℕ, IsTrue, length, take, drop};
ghost use Rattle.std.specs.Range.{range_inclusive_start, range_inclusive_end};
ghost use Rattle.platform_str.specs.Strings.{bytes};
ghost use Rattle.os_str_ext.specs.Range.{FitsIn, IsPartInUnits};

use crate::boundary::{is_boundary, part};
use platform_str::{OsStr, Platform};
use std::ops::{Range, RangeFrom, RangeFull, RangeInclusive, RangeTo, RangeToInclusive};

/// A range of byte indices in a string: std's six range types of `usize`.
///
/// Its ghost members are its start and, in a string of some length, its exclusive end. An inclusive
/// end counts as one more, without overflow, so `..=usize::MAX` never fits, and `3..=2` is the
/// empty range at 3.
pub trait SliceIndex: Sized {
    ghost first_index: { Self → ℕ };

    ghost end_index: { Self → ℕ → ℕ };

    /// Whether the range fits: its start is at most its end, both are boundaries, and the end is at
    /// most the string's length.
    ///
    /// ```
    /// use os_str_bytes::{OsStr, SliceIndex, Unix};
    ///
    /// let string = OsStr::<Unix>::new("foobar");
    /// assert!(rt; (..6).fits(string) && (3..=2).fits(string));
    /// assert!(rt; !(..7).fits(string) && !(..=usize::MAX).fits(string));
    /// ```
    fn fits<E: Platform>(&self, string: OsStr<'_, E>) -> bool
        ensures { IsTrue result ↔ FitsIn (bytes string.entry) (first_index self.now)
            (end_index self.now (length (bytes string.entry))) };

    /// The part of the string in the range, which must fit (test: [`SliceIndex::fits`]). Its units
    /// are those of the string without the units before the range and those after it.
    ///
    /// ```
    /// use os_str_bytes::{OsStr, SliceIndex, Unix};
    ///
    /// let string = OsStr::<Unix>::new("foobar");
    /// assert!(rt; (1..3).index(string) == OsStr::new("oo"));
    /// assert!(rt; (..).index(string) == string);
    /// ```
    fn index<'a, E: Platform>(self, string: OsStr<'a, E>) -> OsStr<'a, E>
        requires { FitsIn (bytes string) (first_index self)
            (end_index self (length (bytes string))) }
        ensures bytes { bytes result ≡ drop (first_index self)
            (take (end_index self (length (bytes string.entry))) (bytes string.entry)) }
        ensures units { IsPartInUnits E.units (bytes string.entry) (first_index self)
            (end_index self (length (bytes string.entry))) (bytes result) };

    /// The part of the string in the range, as [`SliceIndex::index`]. It has the name of std's
    /// `str::get_unchecked`, but is safe.
    ///
    /// ```
    /// use os_str_bytes::{OsStr, SliceIndex, Unix};
    ///
    /// assert!(rt; (..=1).get_unchecked(OsStr::<Unix>::new("foobar")) == OsStr::new("fo"));
    /// ```
    fn get_unchecked<'a, E: Platform>(self, string: OsStr<'a, E>) -> OsStr<'a, E>
        requires { FitsIn (bytes string) (first_index self)
            (end_index self (length (bytes string))) }
        ensures bytes { bytes result ≡ drop (first_index self)
            (take (end_index self (length (bytes string.entry))) (bytes string.entry)) }
        ensures units { IsPartInUnits E.units (bytes string.entry) (first_index self)
            (end_index self (length (bytes string.entry))) (bytes result) }
    {
        self.index(string)
    }
}

impl SliceIndex for Range<usize> {
    ghost first_index = { λ range. range.start };

    ghost end_index = { λ range _. range.end };

    fn fits<E: Platform>(&self, string: OsStr<'_, E>) -> bool {
        fits(string, self.start, self.end)
    }

    fn index<'a, E: Platform>(self, string: OsStr<'a, E>) -> OsStr<'a, E> {
        part(string, self.start, self.end)
    }
}

impl SliceIndex for RangeFrom<usize> {
    ghost first_index = { λ range. range.start };

    ghost end_index = { λ _ len. len };

    fn fits<E: Platform>(&self, string: OsStr<'_, E>) -> bool {
        fits(string, self.start, string.len())
    }

    fn index<'a, E: Platform>(self, string: OsStr<'a, E>) -> OsStr<'a, E> {
        part(string, self.start, string.len())
    }
}

impl SliceIndex for RangeFull {
    ghost first_index = { λ _. 0 };

    ghost end_index = { λ _ len. len };

    fn fits<E: Platform>(&self, _string: OsStr<'_, E>) -> bool {
        true
    }

    fn index<'a, E: Platform>(self, string: OsStr<'a, E>) -> OsStr<'a, E> {
        string
    }
}

impl SliceIndex for RangeInclusive<usize> {
    ghost first_index = { range_inclusive_start };

    ghost end_index = { λ range _. range_inclusive_end range + 1 };

    fn fits<E: Platform>(&self, string: OsStr<'_, E>) -> bool {
        fits_inclusive(string, *self.start(), *self.end())
    }

    fn index<'a, E: Platform>(self, string: OsStr<'a, E>) -> OsStr<'a, E> {
        let (start, last) = self.into_inner();
        part(string, start, last + 1)
    }
}

impl SliceIndex for RangeTo<usize> {
    ghost first_index = { λ _. 0 };

    ghost end_index = { λ range _. range.end };

    fn fits<E: Platform>(&self, string: OsStr<'_, E>) -> bool {
        fits(string, 0, self.end)
    }

    fn index<'a, E: Platform>(self, string: OsStr<'a, E>) -> OsStr<'a, E> {
        part(string, 0, self.end)
    }
}

impl SliceIndex for RangeToInclusive<usize> {
    ghost first_index = { λ _. 0 };

    ghost end_index = { λ range _. range.end + 1 };

    fn fits<E: Platform>(&self, string: OsStr<'_, E>) -> bool {
        fits_inclusive(string, 0, self.end)
    }

    fn index<'a, E: Platform>(self, string: OsStr<'a, E>) -> OsStr<'a, E> {
        part(string, 0, self.end + 1)
    }
}

/// Whether the bytes from index `start` to index `end` (exclusive) are a part that may be cut out.
fn fits<E: Platform>(string: OsStr<'_, E>, start: usize, end: usize) -> bool
    ensures { IsTrue result ↔ FitsIn (bytes string.entry) start end }
{
    let bytes = string.as_encoded_bytes();
    start <= end && end <= bytes.len() && is_boundary(bytes, start) && is_boundary(bytes, end)
}

/// Whether the bytes from index `start` to index `last` (inclusive) are a part that may be cut out.
fn fits_inclusive<E: Platform>(string: OsStr<'_, E>, start: usize, last: usize) -> bool
    ensures { IsTrue result ↔ FitsIn (bytes string.entry) start (last + 1) }
{
    last < string.len() && fits(string, start, last + 1)
}
