//! The units of an argument.
ghost use Rattle.std.specs.Prelude.{◌≡◌, ◌++◌, [], false, ℕ, List};
ghost use Rattle.std.specs.Iterator.{YieldsFirst, item_count};
ghost use Rattle.wtf8_core.specs.UnitsOf.{units_of};
ghost use Rattle.platform_str.specs.Strings.{bytes};
ghost use Rattle.os_command_line.specs.WindowsReader.{index, meant};
ghost use Rattle.os_command_line.specs.WindowsViews.{GivesFirst, kind_units, left_after};

use crate::windows::argument::{Argument, Kind};
use crate::windows::pieces::{Tail, next_cut};
use crate::windows::place::Place;
use platform_str::{OsStr, WideUnits, Windows};
use std::marker::Model;

const QUOTE: u16 = 0x22;

/// The next unit, those that are left of its piece, and what comes after them.
#[inline(never)]
fn next_piece<'a>(tail: Tail<'a>) -> (Option<u16>, WideUnits<'a>, Tail<'a>)
    ensures { GivesFirst result.0 (left_after [] tail.entry) (left_after result.1 result.2) }
{
    let mut tail = tail;
    while let Some((piece, after)) = next_cut(tail) {
        let mut units = piece.encode_wide();
        if let Some(unit) = units.next() {
            return (Some(unit), units, after);
        }
        tail = after;
    }
    let none = OsStr::<Windows>::new("").encode_wide();
    if !tail.mark {
        return (None, none, tail);
    }
    let after = Tail {
        mark: false,
        place: tail.place,
        rest: tail.rest,
    };
    (Some(QUOTE), none, after)
}

/// The next unit, and what comes after those that are left of its piece.
#[inline(always)]
fn next_unit<'a>(units: &mut WideUnits<'a>, tail: Tail<'a>) -> (Option<u16>, Tail<'a>)
    ensures { GivesFirst result.0 (left_after units.old tail.entry)
        (left_after units.new result.1) }
{
    if let Some(unit) = units.next() {
        return (Some(unit), tail);
    }
    let (unit, more, after) = next_piece(tail);
    *units = more;
    (unit, after)
}

/// An iterator over the 16-bit units of an argument, from the first on. After `None` it gives only
/// `None`. [`Argument::units`] makes it.
#[derive(Drop)]
pub struct ArgumentUnits<'a> {
    units: WideUnits<'a>,
    tail: Tail<'a>,
}

impl<'a> Model for ArgumentUnits<'a> {
    ghost use Rattle.std.specs.Prelude.{List, ℕ};

    ghost Value = { List ℕ };

    ghost use Rattle.os_command_line.specs.WindowsViews.{left_after};

    ghost view = { λ it. left_after it.units it.tail };
}

impl<'a> Iterator for ArgumentUnits<'a> {
    type Item = u16;

    ghost next_gives = { YieldsFirst (λ left. left) };

    ghost remaining = { item_count (λ left. left) };

    #[inline(always)]
    fn next(&mut self) -> Option<u16> {
        let (unit, tail) = next_unit(&mut self.units, self.tail);
        self.tail = tail;
        unit
    }
}

/// A text of a kind as a piece, and what comes after it.
fn first_cut<'a>(kind: Kind, text: OsStr<'a, Windows>) -> (OsStr<'a, Windows>, Tail<'a>)
    ensures { left_after (units_of (bytes result.0)) result.1
        ≡ kind_units kind (units_of (bytes text.entry)) }
{
    match kind {
        Kind::Name => (OsStr::new(""), first_tail(true, text)),
        Kind::Marked => (OsStr::new(""), first_tail(false, text)),
        Kind::Bare => (text, first_tail(false, OsStr::new(""))),
    }
}

/// The rest of a text where all of it is left.
fn first_tail<'a>(in_name: bool, rest: OsStr<'a, Windows>) -> Tail<'a>
    ensures { (us : List ℕ) → left_after us result
        ≡ us ++ meant (index in_name false false 0) (units_of (bytes rest.entry)) }
{
    Tail {
        mark: false,
        place: Place::after(in_name, false, false),
        rest,
    }
}

impl<'a> Argument<'a> {
    ghost use Rattle.os_command_line.specs.WindowsViews.{argument_units};

    /// An iterator over the argument's 16-bit units, lone surrogates included. It doesn't allocate.
    ///
    /// ```
    /// use os_command_line::windows::Arguments;
    /// use os_str_bytes::{OsStr, Windows};
    ///
    /// let mut arguments = Arguments::new(OsStr::<Windows>::new("E \"a\"\\\"b"));
    /// if let Some(argument) = arguments.next() {
    ///     let mut units = argument.units();
    ///     assert_eq!(rt; units.next(), Some(0x61));
    ///     assert_eq!(rt; units.next(), Some(0x22));
    ///     assert_eq!(rt; units.next(), Some(0x62));
    ///     assert_eq!(rt; units.next(), None);
    /// }
    /// ```
    pub fn units(self) -> ArgumentUnits<'a>
        ensures { result ≡ argument_units self.entry }
    {
        let (piece, tail) = first_cut(self.kind, self.text);
        ArgumentUnits {
            units: piece.encode_wide(),
            tail,
        }
    }
}
