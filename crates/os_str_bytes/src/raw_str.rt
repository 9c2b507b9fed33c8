//! Borrowed raw strings.
ghost use Rattle.std.specs.Prelude.{◌≡◌, ◌↔◌, [], length, IsTrue, IsOk, IfOk, MatchOption, MatchResult};
ghost use Rattle.std.specs.Str.{IsUtf8};
ghost use Rattle.platform_str.specs.{Strings.bytes, Display.shown_bytes, Cows.byte_cow_bytes, Cows.cow_bytes, Cows.str_cow_bytes};

use crate::raw_cow::CowRawOsStr;
use crate::raw_string::RawOsString;
use os_str_ext::{ByteCow, EncodingError, OsStr, OsStrCow, OsStrDisplay, Platform, StrCow};
use std::alloc::{AllocError, Allocator};

/// A borrowed string of a platform, with the calls of the Rust crate's `RawOsStr`.
///
/// Strings compare by their bytes: they are equal if their bytes are, and ordered like them. Equal
/// strings have equal hashes.
#[derive_where(Clone, Copy, PartialEq, Eq, PartialOrd, Ord, Hash)]
pub struct RawOsStr<'a, E: Platform + 'a> {
    pub(crate) string: OsStr<'a, E>,
}

impl<'a, E: Platform> Default for RawOsStr<'a, E> {
    ghost use Rattle.std.specs.Prelude.{◌≡◌, []};
    ghost use Rattle.os_str_bytes.specs.Raw.{raw_bytes};

    ghost is_default = { λ string. raw_bytes string ≡ [] };

    fn default() -> Self {
        RawOsStr::from_str("")
    }
}

impl<'a, E: Platform> RawOsStr<'a, E> {
    ghost use Rattle.os_str_bytes.specs.{Raw.raw_bytes, Raw.raw_vec_of, RawCow.raw_cow_bytes};

    /// The string as a raw string.
    ///
    /// ```
    /// use os_str_bytes::{OsStr, RawOsStr, Unix};
    ///
    /// assert_eq!(rt; RawOsStr::new(OsStr::<Unix>::new("a")).as_encoded_bytes(), b"a".as_slice());
    /// ```
    pub fn new(string: OsStr<'a, E>) -> Self
        ensures { raw_bytes result ≡ bytes string.entry }
    {
        RawOsStr { string }
    }

    /// The string as a raw string, as [`RawOsStr::new`].
    ///
    /// ```
    /// use os_str_bytes::{OsStr, RawOsStr, Unix};
    ///
    /// assert!(rt; RawOsStr::from_os_str(OsStr::<Unix>::new("a")).eq_str("a"));
    /// ```
    pub fn from_os_str(string: OsStr<'a, E>) -> Self
        ensures { raw_bytes result ≡ bytes string.entry }
    {
        RawOsStr::new(string)
    }

    /// The raw string of a `str`. Every `str` is a string of every platform.
    ///
    /// ```
    /// use os_str_bytes::{RawOsStr, Wasm};
    ///
    /// assert_eq!(rt; RawOsStr::<Wasm>::from_str("foo").as_encoded_bytes(), b"foo".as_slice());
    /// ```
    pub fn from_str(text: &'a str) -> Self
        ensures { raw_bytes result ≡ text.now }
    {
        RawOsStr::new(OsStr::new(text))
    }

    /// The raw string of well-formed bytes (test: [`Platform::check`]). This call is safe, unlike
    /// its counterpart, std's `OsStr::from_encoded_bytes_unchecked`.
    ///
    /// ```
    /// use os_str_bytes::{RawOsStr, Unix};
    ///
    /// let string = RawOsStr::<Unix>::from_encoded_bytes_unchecked(b"a\x80");
    /// assert_eq!(rt; string.as_encoded_bytes(), b"a\x80".as_slice());
    /// ```
    pub fn from_encoded_bytes_unchecked(encoded: &'a [u8]) -> Self
        requires { E.well_formed encoded.now }
        ensures { raw_bytes result ≡ encoded.now }
    {
        RawOsStr::new(OsStr::from_encoded_bytes_unchecked(encoded))
    }

    /// The raw string of raw bytes, as a view of them (own call). It doesn't allocate. In contrast,
    /// [`RawOsStr::cow_from_raw_bytes`] returns a value that may be borrowed or owned.
    ///
    /// On Windows ED A0 80 (hexadecimal) is accepted, and ED A0 80 ED B0 80 isn't.
    ///
    /// # Errors
    ///
    /// The first fault of the bytes if they aren't well formed, as [`Platform::check`] returns it.
    ///
    /// ```
    /// use os_str_bytes::{EncodingError, RawOsStr, Windows};
    ///
    /// assert!(rt; RawOsStr::<Windows>::checked(b"\xED\xA0\x80").is_ok());
    /// let fault = RawOsStr::<Windows>::checked(b"\xED\xA0\x80\xED\xB0\x80").err();
    /// assert_eq!(rt; fault, Some(EncodingError::CodePoint(0xDC00)));
    /// ```
    pub fn checked(raw: &'a [u8]) -> Result<Self, EncodingError>
        ensures bytes { IfOk result (λ string. raw_bytes string ≡ raw.now) }
        ensures cases { MatchResult result (λ _. E.well_formed raw.now)
            (λ fault. E.first_fault raw.now fault) }
    {
        Ok(RawOsStr::new(OsStr::checked(raw)?))
    }

    /// The raw string of well-formed bytes (test: [`RawOsStr::cow_from_raw_bytes`]).
    ///
    /// ```
    /// use os_str_bytes::{RawOsStr, Unix};
    ///
    /// let string = RawOsStr::<Unix>::assert_cow_from_raw_bytes(b"a\x80");
    /// assert_eq!(rt; string.as_raw().as_encoded_bytes(), b"a\x80".as_slice());
    /// ```
    pub fn assert_cow_from_raw_bytes(raw: &'a [u8]) -> CowRawOsStr<'a, E>
        requires { E.well_formed raw.now }
        ensures { raw_cow_bytes result ≡ raw.now }
    {
        CowRawOsStr::Borrowed(RawOsStr::from_encoded_bytes_unchecked(raw))
    }

    /// The raw string of well-formed bytes, as [`RawOsStr::assert_cow_from_raw_bytes`] (test:
    /// [`RawOsStr::cow_from_raw_bytes`]).
    ///
    /// ```
    /// use os_str_bytes::{RawOsStr, Unix};
    ///
    /// let string = RawOsStr::<Unix>::cow_from_raw_bytes_unchecked(b"a\x80");
    /// assert_eq!(rt; string.as_raw().as_encoded_bytes(), b"a\x80".as_slice());
    /// ```
    pub fn cow_from_raw_bytes_unchecked(raw: &'a [u8]) -> CowRawOsStr<'a, E>
        requires { E.well_formed raw.now }
        ensures { raw_cow_bytes result ≡ raw.now }
    {
        RawOsStr::assert_cow_from_raw_bytes(raw)
    }

    /// The raw string of raw bytes. It doesn't allocate.
    ///
    /// # Errors
    ///
    /// The first fault of the bytes if they aren't well formed ([`Platform::check`]).
    ///
    /// ```
    /// use os_str_bytes::{EncodingError, RawOsStr, Unix, Windows};
    ///
    /// let string = RawOsStr::<Unix>::cow_from_raw_bytes(b"a\x80")?;
    /// assert_eq!(rt; string.as_raw().as_encoded_bytes(), b"a\x80".as_slice());
    ///
    /// let pair = RawOsStr::<Windows>::cow_from_raw_bytes(b"\xED\xA0\x80\xED\xB0\x80");
    /// assert_eq!(rt; pair.err(), Some(EncodingError::CodePoint(0xDC00)));
    /// ```
    pub fn cow_from_raw_bytes(raw: &'a [u8]) -> Result<CowRawOsStr<'a, E>, EncodingError>
        ensures bytes { IfOk result (λ cow. raw_cow_bytes cow ≡ raw.now) }
        ensures cases { MatchResult result (λ _. E.well_formed raw.now)
            (λ fault. E.first_fault raw.now fault) }
    {
        Ok(CowRawOsStr::Borrowed(RawOsStr::checked(raw)?))
    }

    /// The string's bytes, which are its raw bytes.
    ///
    /// ```
    /// use os_str_bytes::{RawOsStr, Unix};
    ///
    /// assert_eq!(rt; RawOsStr::<Unix>::from_str("foo").as_encoded_bytes(), b"foo".as_slice());
    /// ```
    pub fn as_encoded_bytes(self) -> &'a [u8]
        ensures value { result.now ≡ raw_bytes self.entry }
        ensures formed { E.well_formed result.now }
    {
        self.string.as_encoded_bytes()
    }

    /// The string as the platform's own type.
    ///
    /// ```
    /// use os_str_bytes::{OsStr, RawOsStr, Unix};
    ///
    /// assert!(rt; RawOsStr::<Unix>::from_str("foo").as_os_str() == OsStr::new("foo"));
    /// ```
    pub fn as_os_str(self) -> OsStr<'a, E>
        ensures { bytes result ≡ raw_bytes self.entry }
    {
        self.string
    }

    /// The string as the platform's own type, in a value that may be borrowed or owned and here is
    /// borrowed. It doesn't allocate.
    ///
    /// ```
    /// use os_str_bytes::{OsStr, RawOsStr, Unix};
    ///
    /// let string = RawOsStr::<Unix>::from_str("foo").to_os_str();
    /// assert!(rt; string.as_os_str() == OsStr::new("foo"));
    /// ```
    pub fn to_os_str(self) -> OsStrCow<'a, E>
        ensures { cow_bytes result ≡ raw_bytes self.entry }
    {
        OsStrCow::Borrowed(self.string)
    }

    /// The string's raw bytes.
    ///
    /// ```
    /// use os_str_bytes::{RawOsStr, Unix};
    ///
    /// let raw = RawOsStr::<Unix>::from_str("foo").to_raw_bytes();
    /// assert_eq!(rt; raw.as_bytes(), b"foo".as_slice());
    /// ```
    pub fn to_raw_bytes(self) -> ByteCow<'a>
        ensures bytes { byte_cow_bytes result ≡ raw_bytes self.entry }
        ensures formed { E.well_formed (byte_cow_bytes result) }
    {
        ByteCow::Borrowed(self.as_encoded_bytes())
    }

    /// The string as a `str`, or `None` if it isn't valid UTF-8 (std's `OsStr::to_str`). It doesn't
    /// allocate.
    ///
    /// ```
    /// use os_str_bytes::{RawOsStr, Unix};
    ///
    /// assert_eq!(rt; RawOsStr::<Unix>::from_str("foo").to_str(), Some("foo"));
    /// assert_eq!(rt; RawOsStr::<Unix>::from_encoded_bytes_unchecked(b"a\x80").to_str(), None);
    /// ```
    pub fn to_str(self) -> Option<&'a str>
        ensures { MatchOption result (¬ (IsUtf8 (raw_bytes self.entry)))
            (λ text. text.now ≡ raw_bytes self.entry) }
    {
        self.string.to_str()
    }

    /// The lossy text (std's `OsStr::to_string_lossy`). If the string is valid UTF-8, it is the
    /// string itself, without allocating. Otherwise it is a text with U+FFFD for what isn't text.
    ///
    /// # Errors
    ///
    /// `AllocError` if the allocation fails.
    ///
    /// ```
    /// use os_str_bytes::{RawOsStr, Unix};
    ///
    /// let string = RawOsStr::<Unix>::from_encoded_bytes_unchecked(b"a\xE2\x82A");
    /// assert_eq!(rt; string.to_str_lossy(alloc)?.as_str(), "a\u{FFFD}A");
    /// ```
    pub fn to_str_lossy<A: Allocator>(self, alloc: A) -> Result<StrCow<'a, A>, AllocError>
        ensures text { IfOk result (λ text. str_cow_bytes text ≡ E.lossy (raw_bytes self.entry)) }
        ensures without_memory { IsUtf8 (raw_bytes self.entry) → IsOk result }
    {
        self.string.to_string_lossy(alloc)
    }

    /// The lossy text, for printing (std's `OsStr::display`). `{}` writes the text that
    /// [`RawOsStr::to_str_lossy`] returns. It doesn't allocate.
    ///
    /// ```
    /// use os_str_bytes::{OsString, RawOsString, Windows};
    ///
    /// let string = RawOsString::new(OsString::<Windows>::from_wide(alloc, &[0x61, 0xD800])?);
    /// let shown = string.as_raw().display().to_string(alloc)?;
    /// assert_eq!(rt; shown.as_str(), "a\u{FFFD}");
    /// ```
    pub fn display(self) -> OsStrDisplay<'a, E>
        ensures { shown_bytes result ≡ raw_bytes self.entry }
    {
        self.string.display()
    }

    /// Whether the string has no bytes.
    ///
    /// ```
    /// use os_str_bytes::{RawOsStr, Unix};
    ///
    /// assert!(rt; RawOsStr::<Unix>::from_str("").is_empty());
    /// assert!(rt; !RawOsStr::<Unix>::from_str("foo").is_empty());
    /// ```
    pub fn is_empty(self) -> bool
        ensures { IsTrue result ↔ (raw_bytes self.entry ≡ []) }
    {
        self.string.is_empty()
    }

    /// An owned copy. A copy of the empty string doesn't allocate.
    ///
    /// # Errors
    ///
    /// `AllocError` if the allocation fails.
    ///
    /// ```
    /// use os_str_bytes::{RawOsStr, Unix};
    ///
    /// let owned = RawOsStr::<Unix>::from_str("foo").to_owned(alloc)?;
    /// assert!(rt; owned.eq_str("foo"));
    /// ```
    pub fn to_owned<A: Allocator>(self, alloc: A) -> Result<RawOsString<E, A>, AllocError>
        ensures bytes { IfOk result (λ owned. (raw_vec_of owned).items ≡ raw_bytes self.entry) }
        ensures empty { length (raw_bytes self.entry) ≡ 0 → IsOk result }
    {
        Ok(RawOsString::new(self.string.to_owned(alloc)?))
    }

    /// Whether the string equals this `str` (own call; `==` between the types in the Rust crate).
    ///
    /// ```
    /// use os_str_bytes::{RawOsStr, Unix};
    ///
    /// assert!(rt; RawOsStr::<Unix>::from_str("foo").eq_str("foo"));
    /// ```
    pub fn eq_str(self, text: &str) -> bool
        ensures { IsTrue result ↔ (raw_bytes self.entry ≡ text.now) }
    {
        self == RawOsStr::from_str(text)
    }

    /// Whether the string equals this one (own call; `==` between the types in the Rust crate).
    ///
    /// ```
    /// use os_str_bytes::{OsStr, RawOsStr, Unix};
    ///
    /// assert!(rt; RawOsStr::<Unix>::from_str("foo").eq_os_str(OsStr::new("foo")));
    /// ```
    pub fn eq_os_str(self, other: OsStr<'_, E>) -> bool
        ensures { IsTrue result ↔ (raw_bytes self.entry ≡ bytes other.entry) }
    {
        self.string == other
    }
}
