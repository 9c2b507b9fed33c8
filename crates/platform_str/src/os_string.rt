//! Owned strings.
ghost use Rattle.std.specs.Prelude.{◌≡◌, ◌<◌, ◌+◌, ◌++◌, [], IsOk, IfOk, IfErr, OnOk, OnErr, MatchResult, length, vec_capacity, vec_len};
ghost use Rattle.std.specs.{Str.IsUtf8, String.string_vec};

use crate::convert::OsStringBytes;
use crate::lossy;
use crate::os_str::OsStr;
use crate::platform::Platform;
use std::alloc::{AllocError, Allocator, Global};
use std::marker::PhantomData;
use wtf8_core::EncodingError;

/// An owned string of a platform: a vector of well-formed bytes, like std's `OsString`.
///
/// Strings compare by their bytes: they are equal if their bytes are, and ordered like them. Equal
/// strings have equal hashes.
#[derive(Drop)]
#[derive_where(PartialEq, Eq, PartialOrd, Ord, Hash)]
pub struct OsString<E: Platform, A: Allocator = Global> {
    vec: Vec<u8, A>,
    platform: PhantomData<E>,
    pub ghost ok: { E.well_formed vec.items } by { E.well_formed_prop vec.items },
}

impl<E: Platform, A: Allocator> OsString<E, A> {
    ghost use Rattle.platform_str.specs.Strings.{bytes, string_vec_of};

    /// The empty string (std's `OsString::new`). It doesn't allocate.
    ///
    /// ```
    /// use os_str_bytes::{OsString, Unix};
    ///
    /// assert!(rt; OsString::<Unix>::new(alloc).as_os_str().is_empty());
    /// ```
    pub fn new(alloc: A) -> Self
        ensures { (string_vec_of result).items ≡ [] }
    {
        OsString::from_encoded_bytes_unchecked(Vec::new(alloc))
    }

    /// The string of well-formed bytes (test: [`Platform::check`]), in their own vector. It is
    /// std's `OsString::from_encoded_bytes_unchecked`, with its condition proved by the caller.
    ///
    /// ```
    /// use os_str_bytes::{OsString, Unix};
    ///
    /// let string = OsString::<Unix>::from_encoded_bytes_unchecked(b"a\x80".to_vec(alloc)?);
    /// assert_eq!(rt; string.as_os_str().len(), 2);
    /// ```
    pub fn from_encoded_bytes_unchecked(vec: Vec<u8, A>) -> Self
        requires { E.well_formed vec.items }
        ensures { string_vec_of result ≡ vec }
    {
        OsString {
            vec,
            platform: PhantomData,
        }
    }

    /// Returns the string of arbitrary raw bytes, with each rejected part replaced by U+FFFD.
    /// Well-formed bytes stay in their own vector, which doesn't allocate. Otherwise it returns
    /// what [`Platform::read_lossy`] returns, in new memory, and drops the vector, even if that
    /// allocation fails. On wasm it returns the text that std's `String::from_utf8_lossy` returns.
    ///
    /// # Errors
    ///
    /// `AllocError` if the allocation fails.
    ///
    /// ```
    /// use os_str_bytes::{OsString, Unix, Windows};
    ///
    /// let reading = OsString::<Windows>::from_raw_vec_lossy(b"\xFFA".to_vec(alloc)?)?;
    /// assert_eq!(rt; reading.into_encoded_bytes().as_slice(), b"\xEF\xBF\xBDA".as_slice());
    ///
    /// let same = OsString::<Unix>::from_raw_vec_lossy(b"\xFFA".to_vec(alloc)?)?;
    /// assert_eq!(rt; same.into_encoded_bytes().as_slice(), b"\xFFA".as_slice());
    /// ```
    pub fn from_raw_vec_lossy(raw: Vec<u8, A>) -> Result<Self, AllocError>
    where
        A: Clone,
        ensures reading { IfOk result
            (λ string. E.reads_as raw.items (string_vec_of string).items) }
        ensures kept { E.well_formed raw.items
            → IfOk result (λ string. string_vec_of string ≡ raw) }
        ensures without_memory { E.well_formed raw.items → IsOk result }
    {
        match E::check(raw.as_slice()) {
            Ok(()) => Ok(OsString::from_encoded_bytes_unchecked(raw)),
            Err(_) => {
                let alloc = raw.allocator().clone()?;
                let reading = E::read_lossy(alloc, raw.as_slice())?;
                Ok(OsString::from_encoded_bytes_unchecked(reading))
            }
        }
    }

    /// A view of the string (std's `OsString::as_os_str`).
    ///
    /// ```
    /// use os_str_bytes::{OsStr, OsString, Unix};
    ///
    /// let string = OsString::<Unix>::from(String::from_str(alloc, "a")?);
    /// assert!(rt; string.as_os_str() == OsStr::new("a"));
    /// ```
    pub fn as_os_str(&self) -> OsStr<'_, E>
        ensures { bytes result ≡ (string_vec_of self.now).items }
    {
        OsStr::from_encoded_bytes_unchecked(self.vec.as_slice())
    }

    /// The string's bytes, in its own vector (std's `OsString::into_encoded_bytes`).
    ///
    /// ```
    /// use os_str_bytes::{OsStr, Unix};
    ///
    /// let string = OsStr::<Unix>::new("a").to_owned(alloc)?;
    /// assert_eq!(rt; string.into_encoded_bytes().as_slice(), b"a".as_slice());
    /// ```
    pub fn into_encoded_bytes(self) -> Vec<u8, A>
        ensures value { result ≡ string_vec_of self }
        ensures formed { E.well_formed result.items }
    {
        self.vec
    }

    /// The string as a text, in the string's own memory (std's `OsString::into_string`). It doesn't
    /// allocate.
    ///
    /// # Errors
    ///
    /// The string itself, unchanged, if it isn't UTF-8.
    ///
    /// ```
    /// use os_str_bytes::{OsString, Unix, Windows};
    ///
    /// let string = OsString::<Unix>::from(String::from_str(alloc, "a")?);
    /// assert!(rt; string.into_string().is_ok());
    ///
    /// let surrogate = OsString::<Windows>::from_wide(alloc, &[0xD800])?;
    /// assert!(rt; surrogate.into_string().is_err());
    /// ```
    pub fn into_string(self) -> Result<String<A>, Self>
        ensures text { IfOk result (λ text. string_vec text ≡ string_vec_of self) }
        ensures same { IfErr result (λ string. string_vec_of string ≡ string_vec_of self) }
        ensures cases { MatchResult result (λ _. IsUtf8 (string_vec_of self).items)
            (λ _. ¬ (IsUtf8 (string_vec_of self).items)) }
    {
        match String::from_utf8(self.vec) {
            Ok(text) => Ok(text),
            Err(error) => Err(OsString::from_encoded_bytes_unchecked(error.into_bytes())),
        }
    }

    /// Appends a string, so that the units are those of both, one after the other (std's
    /// `OsString::push`). On Windows, a high surrogate at the end of the first string and a low one
    /// at the start of the second become one code point (WTF-8, "Concatenating"). It doesn't
    /// allocate if the vector has room for the bytes of both.
    ///
    /// # Errors
    ///
    /// `AllocError` if the allocation fails. The string is then unchanged.
    ///
    /// ```
    /// use os_str_bytes::{OsStr, OsString, Windows};
    ///
    /// let mut string = OsString::<Windows>::from_wide(alloc, &[0xD83D])?;
    /// let low = OsString::<Windows>::from_wide(alloc, &[0xDE00])?;
    /// string.push(low.as_os_str())?;
    /// assert!(rt; string.as_os_str() == OsStr::new("\u{1F600}"));
    /// ```
    pub fn push(&mut self, string: OsStr<'_, E>) -> Result<(), AllocError>
        ensures ok { OnOk result (E.units (string_vec_of self.new).items ≡ E.units
            (string_vec_of self.old).items ++ E.units (bytes string.entry)) }
        ensures err { OnErr result ((string_vec_of self.new).items
            ≡ (string_vec_of self.old).items) }
        ensures full { OnErr result (vec_capacity (string_vec_of self.old) < vec_len
            (string_vec_of self.old) + length (bytes string.entry)) }
    {
        E::push_bytes(&mut self.vec, string.as_encoded_bytes())
    }

    /// A copy in its own memory (std's `OsString::clone`).
    ///
    /// # Errors
    ///
    /// `AllocError` if the allocation fails.
    ///
    /// ```
    /// use os_str_bytes::{OsStr, Unix};
    ///
    /// let string = OsStr::<Unix>::new("a").to_owned(alloc)?;
    /// assert!(rt; string.clone()? == string);
    /// ```
    pub fn clone(&self) -> Result<Self, AllocError>
    where
        A: Clone,
        ensures { IfOk result (λ copy. (string_vec_of copy).items
            ≡ (string_vec_of self.now).items) }
    {
        let alloc = self.vec.allocator().clone()?;
        self.as_os_str().to_owned(alloc)
    }
}

/// The string of a text, in the text's own memory (std's `OsString::from`).
///
/// If `text` is "a", `OsString::<Wasm>::from(text).as_os_str()` is `OsStr::new("a")`.
impl<E: Platform, A: Allocator> From<String<A>> for OsString<E, A> {
    ghost use Rattle.platform_str.specs.Strings.{string_vec_of};

    ghost from_gives = { λ text string. string_vec_of string ≡ string_vec text };

    fn from(text: String<A>) -> Self {
        OsString::from_encoded_bytes_unchecked(text.into_bytes())
    }
}

impl<E: Platform, A: Allocator> OsStringBytes for OsString<E, A> {
    ghost use Rattle.platform_str.specs.Strings.{string_vec_of};

    type Platform = E;

    type Alloc = A;

    type Vec = Vec<u8, A>;

    ghost vec_of = { string_vec_of };

    ghost formed = { λ string. string.ok };

    fn assert_from_raw_vec(raw: Vec<u8, A>) -> Self {
        OsString::from_encoded_bytes_unchecked(raw)
    }

    fn from_raw_vec(raw: Vec<u8, A>) -> Result<Self, EncodingError> {
        E::check(raw.as_slice())?;
        Ok(OsString::from_encoded_bytes_unchecked(raw))
    }

    fn from_io_vec(raw: Vec<u8, A>) -> Option<Self> {
        if E::is_io_safe(raw.as_slice()) {
            Some(OsString::from_encoded_bytes_unchecked(raw))
        } else {
            None
        }
    }

    fn into_io_vec(self) -> Option<Vec<u8, A>> {
        let vec = self.into_encoded_bytes();
        E::is_io_safe(vec.as_slice()).then_some(vec)
    }

    fn into_io_vec_lossy(self) -> Vec<u8, A> {
        let mut vec = self.into_encoded_bytes();
        if !E::is_io_safe(vec.as_slice()) {
            lossy::replace_in_place::<E>(&mut vec);
        }
        vec
    }

    fn into_raw_vec(self) -> Vec<u8, A> {
        self.into_encoded_bytes()
    }
}
