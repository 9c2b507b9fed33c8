//! Parts, which are strings that contain no whole character, and their units.
ghost use Rattle.std.specs.Prelude.{◌≡◌, ◌∷◌, ◌<◌, ◌^◌, [], length};
ghost use Rattle.std.specs.List.{flat_map};
ghost use Rattle.wtf8_core.specs.{Covered.HasNoCharacter, PartUnits.unit_bytes};
ghost use Rattle.platform_str.specs.Strings.{bytes};

use platform_str::{OsStr, Platform};
use std::alloc::AllocError;
use std::marker::Model;

/// A string that contains no whole character: the part of a chunk.
///
/// Parts compare by their bytes: they are equal if their bytes are, and ordered like them. Equal
/// parts have equal hashes.
#[derive_where(PartialEq, Eq, PartialOrd, Ord, Hash)]
pub struct NonUnicodeOsStr<'a, E: Platform + 'a> {
    string: OsStr<'a, E>,
    pub ghost uncovered: { HasNoCharacter (bytes string) },
}

impl<'a, E: Platform> Clone for NonUnicodeOsStr<'a, E> {
    ghost is_clone = { λ x y. y ≡ x };

    ghost is_infallible = { λ _. Unit {0} };

    fn clone(&self) -> Result<Self, AllocError> {
        Ok(*self)
    }
}

impl<'a, E: Platform> Copy for NonUnicodeOsStr<'a, E> {}

impl<'a, E: Platform> NonUnicodeOsStr<'a, E> {
    ghost use Rattle.os_str_ext.specs.Parts.{part_bytes, unit_number};

    pub(crate) fn new(string: OsStr<'a, E>) -> Self
        requires { HasNoCharacter (bytes string) }
        ensures { part_bytes result ≡ bytes string.entry }
    {
        NonUnicodeOsStr { string }
    }

    /// The part as a string.
    ///
    /// ```
    /// use os_str_bytes::{OsStr, OsStrBytesExt, Unix};
    ///
    /// let string = OsStr::<Unix>::from_encoded_bytes_unchecked(b"\x80a");
    /// if let Some((part, _)) = string.utf8_chunks().next() {
    ///     assert_eq!(rt; part.as_os_str().as_encoded_bytes(), b"\x80".as_slice());
    /// }
    /// ```
    pub fn as_os_str(self) -> OsStr<'a, E>
        ensures value { bytes result ≡ part_bytes self.entry }
        ensures uncovered { HasNoCharacter (bytes result) }
    {
        self.string
    }

    /// The part's units, from the first on.
    ///
    /// On Unix they are its bytes, each at least 80 (hexadecimal). On Windows they are surrogates,
    /// and no high one comes directly before a low one. On wasm a part is empty. The units of the
    /// Windows part ED B0 80 ED A0 80 are DC00 and D800. The part's bytes are those of its units: a
    /// unit below 100 is one byte, any other has the bytes of its form.
    ///
    /// ```
    /// use os_str_bytes::{OsStrBytesExt, OsString, Windows};
    ///
    /// let string = OsString::<Windows>::from_wide(alloc, &[0xDC00, 0xD800])?;
    /// if let Some((part, _)) = string.as_os_str().utf8_chunks().next() {
    ///     let mut units = part.os_units();
    ///     assert_eq!(rt; units.next().map(u64::from), Some(0xDC00));
    ///     assert_eq!(rt; units.next().map(u64::from), Some(0xD800));
    ///     assert!(rt; units.next().is_none());
    /// }
    /// ```
    pub fn os_units(self) -> OsUnits<'a, E>
        ensures units { result ≡ E.units (part_bytes self.entry) }
        ensures encoded { part_bytes self.entry ≡ flat_map unit_bytes result }
        ensures kind { E.part_units result }
    {
        OsUnits { rest: self }
    }

    /// The first unit of a part that isn't empty, and the rest of the part.
    fn split_first(self) -> (OsUnit, Self)
        requires { 0 < length (part_bytes self) }
        ensures { E.units (part_bytes self.entry)
            ≡ unit_number result.0 ∷ E.units (part_bytes result.1) }
    {
        let bytes = self.string.as_encoded_bytes();
        let (number, size) = E::first_unit(bytes);
        let rest = OsStr::from_encoded_bytes_unchecked(bytes.split_at(size).1);
        (OsUnit { number }, NonUnicodeOsStr::new(rest))
    }
}

/// A unit of a part.
///
/// Units compare by their numbers: they are equal if their numbers are, and ordered like them.
/// Equal units have equal hashes.
#[derive(Clone, Copy, PartialEq, Eq, PartialOrd, Ord, Hash)]
pub struct OsUnit {
    pub(crate) number: u16,
}

impl OsUnit {
    ghost use Rattle.os_str_ext.specs.Parts.{unit_number};

    /// The unit's number, which differs from that of every other unit. It is at most FFFF
    /// (hexadecimal).
    ///
    /// ```
    /// use os_str_bytes::{OsStr, OsStrBytesExt, Symbol, Unix};
    ///
    /// let string = OsStr::<Unix>::from_encoded_bytes_unchecked(b"\x80");
    /// if let Some(Symbol::Unit(unit)) = string.symbols().next() {
    ///     assert_eq!(rt; unit.to_u64(), 0x80);
    /// }
    /// ```
    pub fn to_u64(&self) -> u64
        ensures value { result ≡ unit_number self.now }
        ensures wide { result < 2 ^ 16 }
    {
        u64::from(self.number)
    }
}

impl From<OsUnit> for u64 {
    ghost use Rattle.os_str_ext.specs.Parts.{unit_number};

    ghost from_gives = { λ unit number. (number ≡ unit_number unit) × (number < 2 ^ 16) };

    /// The unit's number, as [`OsUnit::to_u64`].
    fn from(unit: OsUnit) -> u64 {
        unit.to_u64()
    }
}

/// An iterator over the units of a part, from the first on. After `None` it returns only `None`.
///
/// [`NonUnicodeOsStr::os_units`] makes it. A clone yields the same remaining units. Cloning doesn't
/// allocate, and always returns `Ok`.
#[derive(Drop)]
pub struct OsUnits<'a, E: Platform + 'a> {
    rest: NonUnicodeOsStr<'a, E>,
}

impl<'a, E: Platform> Model for OsUnits<'a, E> {
    ghost use Rattle.std.specs.Prelude.{ℕ, List};
    ghost use Rattle.os_str_ext.specs.Parts.{part_bytes};

    ghost Value = { List ℕ };

    ghost view = { λ it. E.units (part_bytes it.rest) };
}

impl<'a, E: Platform> OsUnits<'a, E> {
    ghost use Rattle.os_str_ext.specs.Parts.{part_bytes};

    /// Makes an iterator over no units: those of an empty part.
    ///
    /// ```
    /// use os_str_bytes::{OsUnits, Unix};
    ///
    /// assert!(rt; OsUnits::<Unix>::empty().next().is_none());
    /// ```
    pub fn empty() -> Self
        ensures { result ≡ [] }
    {
        NonUnicodeOsStr::new(OsStr::new("")).os_units()
    }

    /// The rest of the part, with the remaining units. It borrows from the original part and
    /// doesn't allocate.
    ///
    /// ```
    /// use os_str_bytes::{OsStr, OsStrBytesExt, Unix};
    ///
    /// let string = OsStr::<Unix>::from_encoded_bytes_unchecked(b"\x80\xFF");
    /// if let Some((part, _)) = string.utf8_chunks().next() {
    ///     let mut units = part.os_units();
    ///     assert!(rt; units.next().is_some());
    ///     assert_eq!(rt; units.rest().as_os_str().as_encoded_bytes(), b"\xFF".as_slice());
    /// }
    /// ```
    pub fn rest(&self) -> NonUnicodeOsStr<'a, E>
        ensures { self.now ≡ E.units (part_bytes result) }
    {
        self.rest
    }

    /// The rest of the part as a string, as [`OsUnits::rest`] (std's `str::Chars::as_str`). It
    /// doesn't allocate.
    ///
    /// ```
    /// use os_str_bytes::{OsStr, OsStrBytesExt, Unix};
    ///
    /// let string = OsStr::<Unix>::from_encoded_bytes_unchecked(b"\x80\xFF");
    /// if let Some((part, _)) = string.utf8_chunks().next() {
    ///     let mut units = part.os_units();
    ///     assert!(rt; units.next().is_some());
    ///     assert_eq!(rt; units.as_os_str().as_encoded_bytes(), b"\xFF".as_slice());
    /// }
    /// ```
    pub fn as_os_str(&self) -> OsStr<'a, E>
        ensures units { self.now ≡ E.units (bytes result) }
        ensures uncovered { HasNoCharacter (bytes result) }
    {
        self.rest.as_os_str()
    }
}

impl<'a, E: Platform> Clone for OsUnits<'a, E> {
    ghost is_clone = { λ x y. y ≡ x };

    ghost is_infallible = { λ _. Unit {0} };

    fn clone(&self) -> Result<Self, AllocError> {
        Ok(OsUnits { rest: self.rest })
    }
}

impl<'a, E: Platform> Iterator for OsUnits<'a, E> {
    ghost use Rattle.std.specs.Iterator.{YieldsFirstBy, item_count};
    ghost use Rattle.os_str_ext.specs.Parts.{unit_number};

    type Item = OsUnit;

    ghost next_gives = { YieldsFirstBy unit_number (λ left. left) };

    ghost remaining = { item_count (λ left. left) };

    fn next(&mut self) -> Option<OsUnit> {
        if self.rest.as_os_str().is_empty() {
            return None;
        }
        let (unit, rest) = self.rest.split_first();
        self.rest = rest;
        Some(unit)
    }
}
