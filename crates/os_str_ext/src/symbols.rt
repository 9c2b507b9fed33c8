//! The symbols of a string: its whole characters, and the units of what isn't text.
ghost use Rattle.std.specs.Prelude.{◌≡◌, ◌∷◌, [], MatchOption};
ghost use Rattle.std.specs.Iterator.{YieldsFirst, item_count};
ghost use Rattle.platform_str.specs.Strings.{bytes};
ghost use Rattle.os_str_ext.specs.Symbols.{AreSymbols, symbols_of};

use crate::characters::split_first_char;
use crate::os_units::OsUnit;
use platform_str::{OsStr, Platform};
use std::alloc::AllocError;
use std::marker::Model;

/// One element of a string: a whole character, or a unit of what isn't text.
///
/// Symbols are equal if both are the same character, or both are units with the same number. Equal
/// symbols have equal hashes.
#[derive(Clone, Copy, PartialEq, Eq, Hash)]
pub enum Symbol {
    /// A whole character of the string.
    Character(char),
    /// A unit of a part without whole characters: on Unix a byte of at least 80 (hexadecimal), on
    /// Windows a lone surrogate. On wasm there are none.
    Unit(OsUnit),
}

/// An iterator over the symbols of a string, from the first on. After `None` it returns only
/// `None`.
///
/// [`OsStrBytesExt::symbols`](crate::OsStrBytesExt::symbols) makes it. A clone yields the same
/// remaining symbols. Cloning doesn't allocate, and always returns `Ok`.
#[derive(Drop)]
pub struct Symbols<'a, E: Platform + 'a> {
    rest: OsStr<'a, E>,
}

impl<'a, E: Platform> Model for Symbols<'a, E> {
    ghost use Rattle.std.specs.Prelude.{List};
    ghost use Rattle.platform_str.specs.Strings.{bytes};
    ghost use Rattle.os_str_ext.specs.{Symbols.symbols_of, declared.symbols.Symbol.Symbol};

    ghost Value = { List Symbol };

    ghost view = { λ it. symbols_of E.units (bytes it.rest) };
}

impl<'a, E: Platform> Clone for Symbols<'a, E> {
    ghost is_clone = { λ x y. y ≡ x };

    ghost is_infallible = { λ _. Unit {0} };

    fn clone(&self) -> Result<Self, AllocError> {
        Ok(Symbols { rest: self.rest })
    }
}

impl<'a, E: Platform> Symbols<'a, E> {
    /// The symbols of a string.
    #[inline(always)]
    pub(crate) fn new(string: OsStr<'a, E>) -> Self
        ensures symbols { AreSymbols E.units (bytes string.entry) result }
        ensures value { result ≡ symbols_of E.units (bytes string.entry) }
    {
        Symbols { rest: string }
    }

    /// The rest of the string, with the remaining symbols (as std's `str::Chars::as_str`). It
    /// borrows from the original string and doesn't allocate.
    ///
    /// ```
    /// use os_str_bytes::{OsStr, OsStrBytesExt, Symbol, Unix};
    ///
    /// let string = OsStr::<Unix>::from_encoded_bytes_unchecked(b"\xC3\xA9\x80b");
    /// let mut symbols = string.symbols();
    /// assert!(rt; symbols.next() == Some(Symbol::Character('\u{E9}')));
    /// assert_eq!(rt; symbols.rest().as_encoded_bytes(), b"\x80b".as_slice());
    /// ```
    pub fn rest(&self) -> OsStr<'a, E>
        ensures symbols { AreSymbols E.units (bytes result) self.now }
        ensures value { self.now ≡ symbols_of E.units (bytes result) }
    {
        self.rest
    }
}

impl<'a, E: Platform> Iterator for Symbols<'a, E> {
    type Item = Symbol;

    ghost next_gives = { YieldsFirst (λ left. left) };

    ghost remaining = { item_count (λ left. left) };

    #[inline(always)]
    fn next(&mut self) -> Option<Symbol> {
        let (symbol, rest) = split_first_symbol(self.rest)?;
        self.rest = rest;
        Some(symbol)
    }
}

/// The first symbol of a string and the rest of the string, or `None` if the string is empty.
#[inline(always)]
fn split_first_symbol<E: Platform>(string: OsStr<'_, E>) -> Option<(Symbol, OsStr<'_, E>)>
    ensures { MatchOption result (symbols_of E.units (bytes string.entry) ≡ [])
        (λ first. symbols_of E.units (bytes string.entry)
        ≡ first.0 ∷ symbols_of E.units (bytes first.1)) }
{
    if let Some((character, rest)) = split_first_char(string) {
        return Some((Symbol::Character(character), rest));
    }
    if string.is_empty() {
        return None;
    }
    let bytes = string.as_encoded_bytes();
    let (number, size) = E::first_unit(bytes);
    let rest = OsStr::from_encoded_bytes_unchecked(bytes.split_at(size).1);
    Some((Symbol::Unit(OsUnit { number }), rest))
}
