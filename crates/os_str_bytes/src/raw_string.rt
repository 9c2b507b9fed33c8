//! Owned raw strings.
ghost use Rattle.std.specs.Prelude.{◌≡◌, ◌≤◌, ◌<◌, ◌↔◌, ◌++◌, [], IsTrue, IsOk, IfOk, IfErr, OnOk, OnErr, MatchResult, length, take, drop, vec_capacity, vec_len};
ghost use Rattle.std.specs.{Str.IsUtf8, String.string_vec};
ghost use Rattle.wtf8_core.specs.Boundary.{IsBoundary};
ghost use Rattle.os_str_ext.specs.Range.{FitsIn, IsPartInUnits};
ghost use Rattle.platform_str.specs.Strings.{bytes, string_vec_of};

use crate::raw_box::RawOsStrBox;
use crate::raw_str::RawOsStr;
use os_str_ext::{EncodingError, OsStr, OsString, Platform, SliceIndex};
use std::alloc::{AllocError, Allocator, Global};
use std::marker::PhantomData;

/// An owned string of a platform, with the calls of the Rust crate's `RawOsString`.
///
/// Strings compare by their bytes: they are equal if their bytes are, and ordered like them. Equal
/// strings have equal hashes.
#[derive(Drop)]
#[derive_where(PartialEq, Eq, PartialOrd, Ord, Hash)]
pub struct RawOsString<E: Platform, A: Allocator = Global> {
    vec: Vec<u8, A>,
    platform: PhantomData<E>,
    pub ghost ok: { E.well_formed vec.items } by { E.well_formed_prop vec.items },
}

impl<E: Platform, A: Allocator> RawOsString<E, A> {
    ghost use Rattle.os_str_bytes.specs.Raw.{MayTruncate, raw_bytes, raw_vec_of, box_bytes};

    /// An owned string as a raw string, in its own memory.
    ///
    /// ```
    /// use os_str_bytes::{OsStr, RawOsString, Unix};
    ///
    /// let string = RawOsString::new(OsStr::<Unix>::new("foo").to_owned(alloc)?);
    /// assert!(rt; string.eq_str("foo"));
    /// ```
    pub fn new(string: OsString<E, A>) -> Self
        ensures { raw_vec_of result ≡ string_vec_of string }
    {
        RawOsString::from_encoded_vec_unchecked(string.into_encoded_bytes())
    }

    /// The empty string (own call, instead of `Default`). It doesn't allocate.
    ///
    /// ```
    /// use os_str_bytes::{RawOsString, Unix};
    ///
    /// assert!(rt; RawOsString::<Unix>::empty(alloc).as_raw().is_empty());
    /// ```
    pub fn empty(alloc: A) -> Self
        ensures { (raw_vec_of result).items ≡ [] }
    {
        RawOsString::new(OsString::new(alloc))
    }

    /// The string of an owned text, in its own memory.
    ///
    /// ```
    /// use os_str_bytes::{RawOsString, Unix};
    ///
    /// let string = RawOsString::<Unix>::from_string(String::from_str(alloc, "foo")?);
    /// assert!(rt; string.eq_str("foo"));
    /// ```
    pub fn from_string(text: String<A>) -> Self
        ensures { raw_vec_of result ≡ string_vec text }
    {
        RawOsString::new(OsString::from(text))
    }

    /// The string of a vector of well-formed bytes (test: [`Platform::check`]).
    ///
    /// ```
    /// use os_str_bytes::{RawOsString, Unix};
    ///
    /// let string = RawOsString::<Unix>::from_encoded_vec_unchecked(b"a\x80".to_vec(alloc)?);
    /// assert_eq!(rt; string.as_raw().as_encoded_bytes(), b"a\x80".as_slice());
    /// ```
    pub fn from_encoded_vec_unchecked(encoded: Vec<u8, A>) -> Self
        requires { E.well_formed encoded.items }
        ensures { raw_vec_of result ≡ encoded }
    {
        RawOsString {
            vec: encoded,
            platform: PhantomData,
        }
    }

    /// The string of a vector of well-formed raw bytes (test: [`RawOsString::from_raw_vec`]).
    ///
    /// ```
    /// use os_str_bytes::{RawOsString, Unix};
    ///
    /// let string = RawOsString::<Unix>::assert_from_raw_vec(b"a\x80".to_vec(alloc)?);
    /// assert_eq!(rt; string.as_raw().as_encoded_bytes(), b"a\x80".as_slice());
    /// ```
    pub fn assert_from_raw_vec(raw: Vec<u8, A>) -> Self
        requires { E.well_formed raw.items }
        ensures { raw_vec_of result ≡ raw }
    {
        RawOsString::from_encoded_vec_unchecked(raw)
    }

    /// The string of a vector of well-formed raw bytes, the same as
    /// [`RawOsString::assert_from_raw_vec`].
    ///
    /// ```
    /// use os_str_bytes::{RawOsString, Unix};
    ///
    /// let string = RawOsString::<Unix>::from_raw_vec_unchecked(b"a\x80".to_vec(alloc)?);
    /// assert_eq!(rt; string.as_raw().as_encoded_bytes(), b"a\x80".as_slice());
    /// ```
    pub fn from_raw_vec_unchecked(raw: Vec<u8, A>) -> Self
        requires { E.well_formed raw.items }
        ensures { raw_vec_of result ≡ raw }
    {
        RawOsString::from_encoded_vec_unchecked(raw)
    }

    /// The string of a vector of raw bytes. It doesn't allocate.
    ///
    /// # Errors
    ///
    /// The first fault of the bytes if they aren't well formed. The vector is then dropped.
    ///
    /// ```
    /// use os_str_bytes::{EncodingError, RawOsString, Windows};
    ///
    /// let string = RawOsString::<Windows>::from_raw_vec(b"\xED\xA0\x80".to_vec(alloc)?)?;
    /// assert_eq!(rt; string.as_raw().as_encoded_bytes(), b"\xED\xA0\x80".as_slice());
    ///
    /// let refused = RawOsString::<Windows>::from_raw_vec(b"\xC0".to_vec(alloc)?);
    /// assert_eq!(rt; refused.err(), Some(EncodingError::Byte(0xC0)));
    /// ```
    pub fn from_raw_vec(raw: Vec<u8, A>) -> Result<Self, EncodingError>
        ensures vec { IfOk result (λ string. raw_vec_of string ≡ raw) }
        ensures cases { MatchResult result (λ _. E.well_formed raw.items)
            (λ fault. E.first_fault raw.items fault) }
    {
        E::check(raw.as_slice())?;
        Ok(RawOsString::from_encoded_vec_unchecked(raw))
    }

    /// A view of the string.
    ///
    /// ```
    /// use os_str_bytes::{RawOsString, Unix};
    ///
    /// let string = RawOsString::<Unix>::from_string(String::from_str(alloc, "foo")?);
    /// assert_eq!(rt; string.as_raw().find("o"), Some(1));
    /// ```
    pub fn as_raw(&self) -> RawOsStr<'_, E>
        ensures { raw_bytes result ≡ (raw_vec_of self.now).items }
    {
        RawOsStr::from_encoded_bytes_unchecked(self.vec.as_slice())
    }

    /// A view of the string, as the platform's own type.
    ///
    /// ```
    /// use os_str_bytes::{OsStr, RawOsString, Unix};
    ///
    /// let string = RawOsString::<Unix>::from_string(String::from_str(alloc, "foo")?);
    /// assert!(rt; string.as_os_str() == OsStr::new("foo"));
    /// ```
    pub fn as_os_str(&self) -> OsStr<'_, E>
        ensures { bytes result ≡ (raw_vec_of self.now).items }
    {
        self.as_raw().as_os_str()
    }

    /// Whether the string may be cut at index `at`; `false` if `at` is greater than the length (own
    /// call).
    ///
    /// ```
    /// use os_str_bytes::{RawOsString, Unix};
    ///
    /// let string = RawOsString::<Unix>::from_string(String::from_str(alloc, "\u{E9}a")?);
    /// assert!(rt; !string.is_boundary(1) && string.is_boundary(2) && !string.is_boundary(4));
    /// ```
    pub fn is_boundary(&self, at: usize) -> bool
        ensures { IsTrue result ↔ IsBoundary (raw_vec_of self.now).items at }
    {
        self.as_raw().is_boundary(at)
    }

    /// The part in a range that fits (test: [`SliceIndex::fits`]).
    ///
    /// ```
    /// use os_str_bytes::{RawOsString, Unix};
    ///
    /// let string = RawOsString::<Unix>::from_string(String::from_str(alloc, "foobar")?);
    /// assert!(rt; string.index(3..).eq_str("bar"));
    /// ```
    pub fn index<I: SliceIndex>(&self, range: I) -> RawOsStr<'_, E>
        requires { FitsIn (raw_vec_of self.now).items (I.first_index range)
            (I.end_index range (length (raw_vec_of self.now).items)) }
        ensures bytes { raw_bytes result ≡ drop (I.first_index range)
            (take (I.end_index range (length (raw_vec_of self.now).items))
            (raw_vec_of self.now).items) }
        ensures units { IsPartInUnits E.units (raw_vec_of self.now).items (I.first_index range)
            (I.end_index range (length (raw_vec_of self.now).items)) (raw_bytes result) }
    {
        self.as_raw().index(range)
    }

    /// Makes the string empty. It neither allocates nor frees memory.
    ///
    /// ```
    /// use os_str_bytes::{RawOsString, Unix};
    ///
    /// let mut string = RawOsString::<Unix>::from_string(String::from_str(alloc, "foobar")?);
    /// string.clear();
    /// assert!(rt; string.as_raw().is_empty());
    /// ```
    pub fn clear(&mut self)
        ensures items { (raw_vec_of self.new).items ≡ [] }
        ensures capacity { vec_capacity (raw_vec_of self.new) ≡ vec_capacity (raw_vec_of self.old) }
    {
        self.truncate(0);
    }

    /// Keeps the bytes before a boundary and removes the others. An index past the length changes
    /// nothing (test: [`RawOsString::is_boundary`], or a comparison with the length). The units
    /// that are kept and those of the bytes that are removed, joined, are the string's. It neither
    /// allocates nor frees memory.
    ///
    /// ```
    /// use os_str_bytes::{RawOsString, Unix};
    ///
    /// let mut string = RawOsString::<Unix>::from_string(String::from_str(alloc, "foobar")?);
    /// string.truncate(9);
    /// assert!(rt; string.eq_str("foobar"));
    /// string.truncate(3);
    /// assert!(rt; string.eq_str("foo"));
    /// ```
    pub fn truncate(&mut self, at: usize)
        requires { MayTruncate (raw_vec_of self.old).items at }
        ensures items { (raw_vec_of self.new).items ≡ take at (raw_vec_of self.old).items }
        ensures units { E.units (raw_vec_of self.old).items ≡ E.units (raw_vec_of self.new).items
            ++ E.units (drop at (raw_vec_of self.old).items) }
        ensures capacity { vec_capacity (raw_vec_of self.new) ≡ vec_capacity (raw_vec_of self.old) }
    {
        self.vec.truncate(at);
    }

    /// Splits off the bytes from a boundary on (test: [`RawOsString::is_boundary`]), into a new
    /// string. The bytes before it stay. The units of both, joined, are the string's.
    ///
    /// # Errors
    ///
    /// `AllocError` if the allocation fails. The string is then unchanged.
    ///
    /// ```
    /// use os_str_bytes::{RawOsString, Unix};
    ///
    /// let mut string = RawOsString::<Unix>::from_string(String::from_str(alloc, "foobar")?);
    /// let back = string.split_off(3)?;
    /// assert!(rt; string.eq_str("foo") && back.eq_str("bar"));
    /// ```
    pub fn split_off(&mut self, at: usize) -> Result<Self, AllocError>
    where
        A: Clone,
        requires { IsBoundary (raw_vec_of self.old).items at }
        ensures prefix { OnOk result ((raw_vec_of self.new).items ≡ take at
            (raw_vec_of self.old).items) }
        ensures suffix { IfOk result (λ suffix. (raw_vec_of suffix).items ≡ drop at
            (raw_vec_of self.old).items) }
        ensures units { IfOk result (λ suffix. E.units (raw_vec_of self.old).items ≡ E.units
            (raw_vec_of self.new).items ++ E.units (raw_vec_of suffix).items) }
        ensures unchanged { OnErr result
            ((raw_vec_of self.new).items ≡ (raw_vec_of self.old).items) }
    {
        let alloc = self.vec.allocator().clone()?;
        let (_, suffix) = self.as_raw().split_at(at);
        let suffix = suffix.to_owned(alloc)?;
        self.truncate(at);
        Ok(suffix)
    }

    /// A copy in its own memory.
    ///
    /// # Errors
    ///
    /// `AllocError` if the allocation fails.
    ///
    /// ```
    /// use os_str_bytes::{RawOsString, Unix};
    ///
    /// let string = RawOsString::<Unix>::from_string(String::from_str(alloc, "foo")?);
    /// assert!(rt; string.clone()? == string);
    /// ```
    pub fn clone(&self) -> Result<Self, AllocError>
    where
        A: Clone,
        ensures { IfOk result (λ copy. (raw_vec_of copy).items ≡ (raw_vec_of self.now).items) }
    {
        self.as_raw().to_owned(self.vec.allocator().clone()?)
    }

    /// Gives back the memory that the string doesn't use. The string is the same whether this
    /// succeeds or fails.
    ///
    /// # Errors
    ///
    /// `AllocError` if some of that memory couldn't be given back.
    ///
    /// ```
    /// use os_str_bytes::{RawOsString, Unix};
    ///
    /// let mut string = RawOsString::<Unix>::from_string(String::from_str(alloc, "foobar")?);
    /// string.truncate(3);
    /// string.shrink_to_fit()?;
    /// assert_eq!(rt; string.into_raw_vec().capacity(), 3);
    /// ```
    pub fn shrink_to_fit(&mut self) -> Result<(), AllocError>
        ensures items { (raw_vec_of self.new).items ≡ (raw_vec_of self.old).items }
        ensures no_more { vec_capacity (raw_vec_of self.new) ≤ vec_capacity (raw_vec_of self.old) }
        ensures full { OnOk result (vec_capacity (raw_vec_of self.new) ≡ vec_len
            (raw_vec_of self.new)) }
        ensures room_left { OnErr result
            (vec_len (raw_vec_of self.new) < vec_capacity (raw_vec_of self.new)) }
    {
        self.vec.shrink_to_fit();
        if self.vec.capacity() > self.vec.len() {
            return Err(AllocError);
        }
        Ok(())
    }

    /// The string in a block of exactly its length (the Rust crate's `into_box`, and its `From`).
    /// If the string already fills its memory, this doesn't allocate.
    ///
    /// # Errors
    ///
    /// `AllocError` if the allocation fails. The string is then dropped.
    ///
    /// ```
    /// use os_str_bytes::{RawOsString, Unix};
    ///
    /// let string = RawOsString::<Unix>::from_string(String::from_str(alloc, "foo")?);
    /// assert!(rt; string.into_box()?.as_raw().eq_str("foo"));
    /// ```
    pub fn into_box(mut self) -> Result<RawOsStrBox<E, A>, AllocError>
        ensures bytes { IfOk result (λ boxed. box_bytes boxed ≡ (raw_vec_of self).items) }
        ensures room_left { OnErr result
            (vec_len (raw_vec_of self) < vec_capacity (raw_vec_of self)) }
    {
        self.shrink_to_fit()?;
        Ok(self.into_block())
    }

    /// The string in its own block, whatever the block's capacity is.
    pub(crate) fn into_block(self) -> RawOsStrBox<E, A>
        ensures { box_bytes result ≡ (raw_vec_of self).items }
    {
        RawOsStrBox::from_encoded_bytes(self.vec.into_boxed_slice())
    }

    /// The string's vector, whose bytes are well formed.
    ///
    /// ```
    /// use os_str_bytes::{RawOsString, Unix};
    ///
    /// let string = RawOsString::<Unix>::from_string(String::from_str(alloc, "foo")?);
    /// assert_eq!(rt; string.into_encoded_vec().as_slice(), b"foo".as_slice());
    /// ```
    pub fn into_encoded_vec(self) -> Vec<u8, A>
        ensures value { result ≡ raw_vec_of self }
        ensures formed { E.well_formed result.items }
    {
        self.vec
    }

    /// The string's vector of raw bytes, which are well formed.
    ///
    /// ```
    /// use os_str_bytes::{RawOsString, Unix};
    ///
    /// let string = RawOsString::<Unix>::from_string(String::from_str(alloc, "foo")?);
    /// assert_eq!(rt; string.into_raw_vec().as_slice(), b"foo".as_slice());
    /// ```
    pub fn into_raw_vec(self) -> Vec<u8, A>
        ensures value { result ≡ raw_vec_of self }
        ensures formed { E.well_formed result.items }
    {
        self.into_encoded_vec()
    }

    /// The string as the platform's own type, in its own memory.
    ///
    /// ```
    /// use os_str_bytes::{OsStr, RawOsString, Unix};
    ///
    /// let string = RawOsString::<Unix>::from_string(String::from_str(alloc, "foo")?);
    /// assert!(rt; string.into_os_string().as_os_str() == OsStr::new("foo"));
    /// ```
    pub fn into_os_string(self) -> OsString<E, A>
        ensures { string_vec_of result ≡ raw_vec_of self }
    {
        OsString::from_encoded_bytes_unchecked(self.vec)
    }

    /// The string as a `String`, in its own memory. It doesn't allocate.
    ///
    /// # Errors
    ///
    /// The string itself, unchanged, if it isn't valid UTF-8.
    ///
    /// ```
    /// use os_str_bytes::{RawOsString, Unix};
    ///
    /// let string = RawOsString::<Unix>::from_string(String::from_str(alloc, "foo")?);
    /// assert!(rt; string.into_string().is_ok());
    ///
    /// let string = RawOsString::<Unix>::from_raw_vec(b"a\x80".to_vec(alloc)?)?;
    /// assert!(rt; string.into_string().is_err());
    /// ```
    pub fn into_string(self) -> Result<String<A>, Self>
        ensures text { IfOk result (λ text. string_vec text ≡ raw_vec_of self) }
        ensures same { IfErr result (λ string. raw_vec_of string ≡ raw_vec_of self) }
        ensures cases { MatchResult result (λ _. IsUtf8 (raw_vec_of self).items)
            (λ _. ¬ (IsUtf8 (raw_vec_of self).items)) }
    {
        self.into_os_string()
            .into_string()
            .map_err(RawOsString::new)
    }

    /// Whether the string equals this `str` (own call; `==` between the types in the Rust crate).
    ///
    /// ```
    /// use os_str_bytes::{RawOsString, Unix};
    ///
    /// let string = RawOsString::<Unix>::from_string(String::from_str(alloc, "foo")?);
    /// assert!(rt; string.eq_str("foo") && !string.eq_str("fo"));
    /// ```
    pub fn eq_str(&self, text: &str) -> bool
        ensures { IsTrue result ↔ ((raw_vec_of self.now).items ≡ text.now) }
    {
        self.as_raw().eq_str(text)
    }

    /// Whether the string equals this one (own call; `==` between the types in the Rust crate).
    ///
    /// ```
    /// use os_str_bytes::{OsStr, RawOsString, Unix};
    ///
    /// let string = RawOsString::<Unix>::from_string(String::from_str(alloc, "foo")?);
    /// assert!(rt; string.eq_os_str(OsStr::new("foo")));
    /// ```
    pub fn eq_os_str(&self, other: OsStr<'_, E>) -> bool
        ensures { IsTrue result ↔ ((raw_vec_of self.now).items ≡ bytes other.entry) }
    {
        self.as_raw().eq_os_str(other)
    }

    /// Whether the string equals this one (own call; `==` between the types in the Rust crate).
    ///
    /// ```
    /// use os_str_bytes::{RawOsStr, RawOsString, Unix};
    ///
    /// let string = RawOsString::<Unix>::from_string(String::from_str(alloc, "foo")?);
    /// assert!(rt; string.eq_raw(RawOsStr::from_str("foo")));
    /// ```
    pub fn eq_raw(&self, other: RawOsStr<'_, E>) -> bool
        ensures { IsTrue result ↔ ((raw_vec_of self.now).items ≡ raw_bytes other.entry) }
    {
        self.as_raw() == other
    }
}

impl<E: Platform, A: Allocator> From<OsString<E, A>> for RawOsString<E, A> {
    ghost use Rattle.std.specs.Prelude.{◌≡◌};
    ghost use Rattle.platform_str.specs.Strings.{string_vec_of};
    ghost use Rattle.os_str_bytes.specs.Raw.{raw_vec_of};

    ghost from_gives = { λ string raw. raw_vec_of raw ≡ string_vec_of string };

    fn from(string: OsString<E, A>) -> Self {
        RawOsString::new(string)
    }
}

impl<E: Platform, A: Allocator> From<String<A>> for RawOsString<E, A> {
    ghost use Rattle.std.specs.Prelude.{◌≡◌};
    ghost use Rattle.std.specs.String.{string_vec};
    ghost use Rattle.os_str_bytes.specs.Raw.{raw_vec_of};

    ghost from_gives = { λ text raw. raw_vec_of raw ≡ string_vec text };

    fn from(text: String<A>) -> Self {
        RawOsString::from_string(text)
    }
}

impl<E: Platform, A: Allocator> From<RawOsStrBox<E, A>> for RawOsString<E, A> {
    ghost use Rattle.std.specs.Prelude.{◌≡◌};
    ghost use Rattle.os_str_bytes.specs.Raw.{box_bytes, raw_vec_of};

    ghost from_gives = { λ boxed raw. (raw_vec_of raw).items ≡ box_bytes boxed };

    fn from(boxed: RawOsStrBox<E, A>) -> Self {
        RawOsString::from_encoded_vec_unchecked(boxed.into_encoded_bytes().into_vec())
    }
}

impl<E: Platform, A: Allocator> From<RawOsString<E, A>> for OsString<E, A> {
    ghost use Rattle.std.specs.Prelude.{◌≡◌};
    ghost use Rattle.platform_str.specs.Strings.{string_vec_of};
    ghost use Rattle.os_str_bytes.specs.Raw.{raw_vec_of};

    ghost from_gives = { λ raw string. string_vec_of string ≡ raw_vec_of raw };

    fn from(raw: RawOsString<E, A>) -> Self {
        raw.into_os_string()
    }
}
