//! Borrowed strings.
ghost use Rattle.std.specs.Prelude.{◌≡◌, ◌↔◌, ◌*◌, ◌<◌, ◌^◌, [], length, IsTrue, IsOk, IfOk, MatchOption, MatchResult};
ghost use Rattle.std.specs.Str.{IsUtf8};
ghost use Rattle.wtf8_core.specs.Truncated.{IsTruncated};

use crate::convert::OsStrBytes;
use crate::cow::{ByteCow, OsStrCow, StrCow};
use crate::display::OsStrDisplay;
use crate::lossy;
use crate::os_string::OsString;
use crate::platform::Platform;
use crate::sink::TruncatedBuffer;
use std::alloc::{AllocError, Allocator};
use std::marker::PhantomData;
use wtf8_core::EncodingError;

/// A borrowed string of a platform: a view of well-formed bytes, like std's `&OsStr`.
///
/// Strings compare by their bytes: they are equal if their bytes are, and ordered like them. Equal
/// strings have equal hashes.
#[derive_where(PartialEq, Eq, PartialOrd, Ord, Hash)]
pub struct OsStr<'a, E: Platform + 'a> {
    bytes: &'a [u8],
    platform: PhantomData<E>,
    pub ghost ok: { E.well_formed bytes.now } by { E.well_formed_prop bytes.now },
}

impl<'a, E: Platform> Clone for OsStr<'a, E> {
    ghost is_clone = { λ x y. y ≡ x };

    ghost is_infallible = { λ _. Unit {0} };

    fn clone(&self) -> Result<Self, AllocError> {
        Ok(*self)
    }
}

impl<'a, E: Platform> Copy for OsStr<'a, E> {}

impl<'a, E: Platform> OsStr<'a, E> {
    ghost use Rattle.platform_str.specs.Strings.{bytes, string_vec_of};
    ghost use Rattle.platform_str.specs.{Cows.cow_bytes, Cows.str_cow_bytes, Display.shown_bytes};

    /// The string of a text; every text is a string of every platform (std's `OsStr::new`).
    ///
    /// ```
    /// use os_str_bytes::{OsStr, Windows};
    ///
    /// assert_eq!(rt; OsStr::<Windows>::new("a\u{E9}").to_str(), Some("a\u{E9}"));
    /// ```
    pub fn new(text: &'a str) -> Self
        ensures { bytes result ≡ text.now }
    {
        OsStr::from_encoded_bytes_unchecked(text.as_bytes())
    }

    /// The string of well-formed bytes (test: [`Platform::check`]). It is std's
    /// `OsStr::from_encoded_bytes_unchecked`, with its condition proved by the caller.
    ///
    /// ```
    /// use os_str_bytes::{OsStr, Unix};
    ///
    /// assert_eq!(rt; OsStr::<Unix>::from_encoded_bytes_unchecked(b"a\x80").len(), 2);
    /// ```
    pub fn from_encoded_bytes_unchecked(encoded: &'a [u8]) -> Self
        requires { E.well_formed encoded.now }
        ensures { bytes result ≡ encoded.now }
    {
        OsStr {
            bytes: encoded,
            platform: PhantomData,
        }
    }

    /// Returns the string of raw bytes, as a view of them (own call).
    /// [`OsStrBytes::from_raw_bytes`] returns a value that may be borrowed or owned instead. It
    /// doesn't allocate.
    ///
    /// On Windows ED A0 80 (hexadecimal) is accepted, and ED A0 80 ED B0 80 isn't.
    ///
    /// # Errors
    ///
    /// The first fault of the bytes if they aren't well formed, as [`Platform::check`] returns it.
    ///
    /// ```
    /// use os_str_bytes::{EncodingError, OsStr, Windows};
    ///
    /// assert!(rt; OsStr::<Windows>::checked(b"\xED\xA0\x80").is_ok());
    /// let fault = OsStr::<Windows>::checked(b"\xED\xA0\x80\xED\xB0\x80").err();
    /// assert_eq!(rt; fault, Some(EncodingError::CodePoint(0xDC00)));
    /// ```
    pub fn checked(encoded: &'a [u8]) -> Result<Self, EncodingError>
        ensures bytes { IfOk result (λ string. bytes string ≡ encoded.now) }
        ensures cases { MatchResult result (λ _. E.well_formed encoded.now)
            (λ fault. E.first_fault encoded.now fault) }
    {
        E::check(encoded)?;
        Ok(OsStr::from_encoded_bytes_unchecked(encoded))
    }

    /// Returns the string of arbitrary raw bytes, with each rejected part replaced by U+FFFD.
    /// Well-formed bytes are borrowed as they are, which doesn't allocate. For any others it
    /// returns what [`Platform::read_lossy`] returns. `OsStrBytes::from_raw_bytes` returns the
    /// first fault instead. On wasm it is equivalent to std's `String::from_utf8_lossy`.
    ///
    /// # Errors
    ///
    /// `AllocError` if the allocation fails.
    ///
    /// ```
    /// use os_str_bytes::{HasBytes, OsStr, Windows};
    ///
    /// let raw = b"\xED\xA0\x80\xED\xB0\x80A";
    /// let reading = OsStr::<Windows>::from_raw_bytes_lossy(alloc, raw)?;
    /// assert_eq!(rt; reading.bytes(), b"\xED\xA0\x80\xEF\xBF\xBDA".as_slice());
    /// ```
    pub fn from_raw_bytes_lossy<A: Allocator>(
        alloc: A,
        raw: &'a [u8],
    ) -> Result<OsStrCow<'a, E, A>, AllocError>
        ensures reading { IfOk result (λ string. E.reads_as raw.entry.now (cow_bytes string)) }
        ensures kept { E.well_formed raw.entry.now
            → IfOk result (λ string. cow_bytes string ≡ raw.entry.now) }
        ensures without_memory { E.well_formed raw.entry.now → IsOk result }
    {
        match E::check(raw) {
            Ok(()) => Ok(OsStrCow::Borrowed(OsStr::from_encoded_bytes_unchecked(raw))),
            Err(_) => {
                let reading = E::read_lossy(alloc, raw)?;
                Ok(OsStrCow::Owned(OsString::from_encoded_bytes_unchecked(reading)))
            }
        }
    }

    /// The string's bytes, which are its raw bytes (std's `OsStr::as_encoded_bytes`).
    ///
    /// ```
    /// use os_str_bytes::{OsStr, Wasm};
    ///
    /// assert_eq!(rt; OsStr::<Wasm>::new("a").as_encoded_bytes(), b"a".as_slice());
    /// ```
    pub fn as_encoded_bytes(self) -> &'a [u8]
        ensures value { result.now ≡ bytes self.entry }
        ensures formed { E.well_formed result.now }
    {
        self.bytes
    }

    /// The length of the string in bytes (std's `OsStr::len`).
    ///
    /// ```
    /// use os_str_bytes::{OsStr, Unix};
    ///
    /// assert_eq!(rt; OsStr::<Unix>::new("\u{20AC}").len(), 3);
    /// ```
    pub fn len(self) -> usize
        ensures { result ≡ length (bytes self.entry) }
    {
        self.bytes.len()
    }

    /// Whether the string has no bytes (std's `OsStr::is_empty`).
    ///
    /// ```
    /// use os_str_bytes::{OsStr, Unix};
    ///
    /// assert!(rt; OsStr::<Unix>::new("").is_empty());
    /// assert!(rt; !OsStr::<Unix>::new("a").is_empty());
    /// ```
    pub fn is_empty(self) -> bool
        ensures { IsTrue result ↔ (bytes self.entry ≡ []) }
    {
        self.bytes.is_empty()
    }

    /// The string as a text, or `None` if it isn't UTF-8 (std's `OsStr::to_str`). It doesn't
    /// allocate.
    ///
    /// ```
    /// use os_str_bytes::{OsStr, OsString, Windows};
    ///
    /// assert_eq!(rt; OsStr::<Windows>::new("a").to_str(), Some("a"));
    /// let surrogate = OsString::<Windows>::from_wide(alloc, &[0xD800])?;
    /// assert_eq!(rt; surrogate.as_os_str().to_str(), None);
    /// ```
    pub fn to_str(self) -> Option<&'a str>
        ensures { MatchOption result (¬ (IsUtf8 (bytes self.entry)))
            (λ text. text.now ≡ bytes self.entry) }
    {
        match E::utf8_fault(self.bytes) {
            Some(_) => None,
            None => Some(unsafe { str::from_utf8_unchecked(self.bytes) }),
        }
    }

    /// Returns the lossy text. If the string is UTF-8, this is the string itself, which doesn't
    /// allocate. Otherwise it is a text in which U+FFFD replaces what isn't text: on Windows each
    /// surrogate, on Unix each maximal ill-formed part (Unicode's maximal subpart), as in std's
    /// `OsStr::to_string_lossy`.
    ///
    /// # Errors
    ///
    /// `AllocError` if the allocation fails.
    ///
    /// ```
    /// use os_str_bytes::{OsStr, Unix};
    ///
    /// let string = OsStr::<Unix>::from_encoded_bytes_unchecked(b"a\xE2\x82A");
    /// assert_eq!(rt; string.to_string_lossy(alloc)?.as_str(), "a\u{FFFD}A");
    /// ```
    pub fn to_string_lossy<A: Allocator>(self, alloc: A) -> Result<StrCow<'a, A>, AllocError>
        ensures text { IfOk result (λ text. str_cow_bytes text ≡ E.lossy (bytes self.entry)) }
        ensures without_memory { IsUtf8 (bytes self.entry) → IsOk result }
    {
        let Some(fault) = E::utf8_fault(self.bytes) else {
            let text = unsafe { str::from_utf8_unchecked(self.bytes) };
            return Ok(StrCow::Borrowed(text));
        };
        let text = lossy::text_bytes::<E, A>(alloc, self.bytes, Some(fault))?;
        Ok(StrCow::Owned(unsafe { String::from_utf8_unchecked(text) }))
    }

    /// Returns the lossy text, for printing (std's `OsStr::display`): `{}` writes the text that
    /// [`OsStr::to_string_lossy`] returns. It doesn't allocate.
    ///
    /// ```
    /// use os_str_bytes::{OsStr, Unix};
    ///
    /// let string = OsStr::<Unix>::from_encoded_bytes_unchecked(b"a\xE2\x82A");
    /// assert_eq!(rt; string.display().to_string(alloc)?.as_str(), "a\u{FFFD}A");
    /// ```
    pub fn display(self) -> OsStrDisplay<'a, E>
        ensures { shown_bytes result ≡ bytes self.entry }
    {
        OsStrDisplay { string: self }
    }

    /// Writes the lossy text into a buffer and returns the length of the whole text (own call). The
    /// text is that of [`OsStr::to_string_lossy`], truncated if the buffer is too short for it. The
    /// rest of the buffer is unchanged. It doesn't allocate, and with an empty buffer it only
    /// counts.
    ///
    /// Three times the string's length is below 2^64 (test: `string.len() <= usize::MAX / 3`).
    ///
    /// ```
    /// use os_str_bytes::{OsStr, Unix};
    ///
    /// let string = OsStr::<Unix>::from_encoded_bytes_unchecked(b"a\x80b");
    /// let mut buffer = [b'-'; 6];
    /// assert_eq!(rt; string.write_lossy(&mut buffer), 5);
    /// assert_eq!(rt; buffer.as_slice(), b"a\xEF\xBF\xBDb-".as_slice());
    /// ```
    pub fn write_lossy(self, buffer: &mut [u8]) -> usize
        requires { 3 * length (bytes self) < 2 ^ 64 }
        ensures { IsTruncated (E.lossy (bytes self.entry)) buffer.old buffer.new result }
    {
        let mut sink = TruncatedBuffer {
            bytes: buffer,
            count: 0,
        };
        // a buffer takes every piece, so no error is lost
        let _ = lossy::write_text::<E, _>(self.bytes, &mut sink);
        sink.count
    }

    /// Returns an owned copy (std's `OsStr::to_os_string`). A copy of the empty string doesn't
    /// allocate.
    ///
    /// # Errors
    ///
    /// `AllocError` if the allocation fails.
    ///
    /// ```
    /// use os_str_bytes::{OsStr, Unix};
    ///
    /// let owned = OsStr::<Unix>::new("a").to_owned(alloc)?;
    /// assert!(rt; owned.as_os_str() == OsStr::new("a"));
    /// ```
    pub fn to_owned<A: Allocator>(self, alloc: A) -> Result<OsString<E, A>, AllocError>
        ensures bytes { IfOk result (λ owned. (string_vec_of owned).items ≡ bytes self.entry) }
        ensures empty { length (bytes self.entry) ≡ 0 → IsOk result }
    {
        let mut vec = Vec::with_capacity(alloc, self.len())?;
        vec.extend_from_slice(self.bytes)?;
        Ok(OsString::from_encoded_bytes_unchecked(vec))
    }
}

impl<'a, E: Platform + 'a> OsStrBytes<'a> for OsStr<'a, E> {
    ghost use Rattle.platform_str.specs.{Strings.bytes, Cows.IsOwnedString};

    type Platform = E;

    type Cow = OsStrCow<'a, E>;

    ghost bytes_of = { bytes };

    ghost is_owned = { IsOwnedString };

    ghost formed = { λ string. string.ok };

    fn encoded_bytes(self) -> &'a [u8] {
        self.as_encoded_bytes()
    }

    fn assert_from_raw_bytes(raw: &'a [u8]) -> OsStrCow<'a, E> {
        OsStrCow::Borrowed(OsStr::from_encoded_bytes_unchecked(raw))
    }

    fn assert_from_raw_bytes_owned(raw: Vec<u8>) -> OsStrCow<'a, E> {
        OsStrCow::Owned(OsString::from_encoded_bytes_unchecked(raw))
    }

    fn from_raw_bytes(raw: &'a [u8]) -> Result<OsStrCow<'a, E>, EncodingError> {
        Ok(OsStrCow::Borrowed(OsStr::checked(raw)?))
    }

    fn from_raw_bytes_owned(raw: Vec<u8>) -> Result<OsStrCow<'a, E>, EncodingError> {
        E::check(raw.as_slice())?;
        Ok(Self::assert_from_raw_bytes_owned(raw))
    }

    fn from_io_bytes(raw: &'a [u8]) -> Option<Self> {
        if E::is_io_safe(raw) {
            Some(OsStr::from_encoded_bytes_unchecked(raw))
        } else {
            None
        }
    }

    fn to_io_bytes(self) -> Option<&'a [u8]> {
        let io = self.as_encoded_bytes();
        E::is_io_safe(io).then_some(io)
    }

    fn to_raw_bytes(self) -> ByteCow<'a> {
        ByteCow::Borrowed(self.as_encoded_bytes())
    }
}
