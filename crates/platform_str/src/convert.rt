//! Conversions of strings and paths from and to bytes, as in os_str_bytes 7.2.1.
ghost use Rattle.std.specs.Prelude.{◌≡◌, ℕ, List, IsOk, IfOk, MatchOption, MatchResult};
ghost use Rattle.std.specs.{declared.alloc.Global.Global, declared.vec.Vec.Vec, Vec.SameBlock};
ghost use Rattle.platform_str.specs.{Cows.byte_cow_bytes, Lossy.IsIoLossy};

use crate::cow::{ByteCow, HasBytes};
use crate::lossy;
use crate::platform::Platform;
use std::alloc::{AllocError, Allocator};
use wtf8_core::EncodingError;

/// Borrowed strings that can be made from bytes: [`crate::OsStr`] and [`crate::Path`] (the
/// `OsStrBytes` of os_str_bytes).
///
/// Raw bytes are the string's own. IO bytes are those that reads and writes of files take, which
/// must be UTF-8 on Windows and wasm. No conversion copies, and only
/// [`OsStrBytes::to_io_bytes_lossy`] may allocate.
pub trait OsStrBytes<'a>: Sized + Copy {
    type Platform: Platform + 'a;

    type Cow: HasBytes + Drop;

    ghost bytes_of: { Self → List ℕ };

    // the value is owned, in this vector
    ghost is_owned: { Self.Cow → Vec ℕ Global → Type 0 };

    /// The string's bytes (own call; the others are built on it).
    ///
    /// ```
    /// use os_str_bytes::{OsStr, OsStrBytes, Unix};
    ///
    /// assert_eq!(rt; OsStr::<Unix>::new("a").encoded_bytes(), b"a".as_slice());
    /// ```
    fn encoded_bytes(self) -> &'a [u8]
        ensures value { result.now ≡ bytes_of self }
        ensures formed { Self.Platform.well_formed result.now };

    /// The string of well-formed raw bytes (test: [`OsStrBytes::from_raw_bytes`]).
    ///
    /// ```
    /// use os_str_bytes::{HasBytes, OsStr, OsStrBytes, Unix};
    ///
    /// let string = OsStr::<Unix>::assert_from_raw_bytes(b"a\x80");
    /// assert_eq!(rt; string.bytes(), b"a\x80".as_slice());
    /// ```
    fn assert_from_raw_bytes(raw: &'a [u8]) -> Self::Cow
        requires { Self.Platform.well_formed raw.now }
        ensures { Self.Cow.bytes_of result ≡ raw.now };

    /// The string of well-formed raw bytes, whose vector is moved into it (test:
    /// [`OsStrBytes::from_raw_bytes_owned`]).
    ///
    /// ```
    /// use os_str_bytes::{HasBytes, OsStr, OsStrBytes, Unix};
    ///
    /// let string = OsStr::<Unix>::assert_from_raw_bytes_owned(b"a\x80".to_vec(alloc)?);
    /// assert_eq!(rt; string.bytes(), b"a\x80".as_slice());
    /// ```
    fn assert_from_raw_bytes_owned(raw: Vec<u8>) -> Self::Cow
        requires { Self.Platform.well_formed raw.items }
        ensures bytes { Self.Cow.bytes_of result ≡ raw.items }
        ensures vec { is_owned result raw };

    /// The string of raw bytes. It doesn't allocate.
    ///
    /// # Errors
    ///
    /// The first fault of the bytes if they aren't well formed ([`Platform::check`]).
    ///
    /// ```
    /// use os_str_bytes::{EncodingError, OsStr, OsStrBytes, Windows};
    ///
    /// assert!(rt; OsStr::<Windows>::from_raw_bytes(b"\xED\xA0\x80").is_ok());
    /// let pair = OsStr::<Windows>::from_raw_bytes(b"\xED\xA0\x80\xED\xB0\x80");
    /// assert_eq!(rt; pair.err(), Some(EncodingError::CodePoint(0xDC00)));
    /// ```
    fn from_raw_bytes(raw: &'a [u8]) -> Result<Self::Cow, EncodingError>
        ensures bytes { IfOk result (λ cow. Self.Cow.bytes_of cow ≡ raw.now) }
        ensures cases { MatchResult result (λ _. Self.Platform.well_formed raw.now)
            (λ fault. Self.Platform.first_fault raw.now fault) };

    /// The string of raw bytes, whose vector is moved into it.
    ///
    /// # Errors
    ///
    /// The first fault of the bytes if they aren't well formed; the vector is then dropped.
    ///
    /// ```
    /// use os_str_bytes::{EncodingError, OsStr, OsStrBytes, Wasm};
    ///
    /// assert!(rt; OsStr::<Wasm>::from_raw_bytes_owned(b"\xC3\xA9".to_vec(alloc)?).is_ok());
    /// let truncated = OsStr::<Wasm>::from_raw_bytes_owned(b"\xC3".to_vec(alloc)?);
    /// let fault = EncodingError::Utf8 { valid_up_to: 0, error_len: None };
    /// assert_eq!(rt; truncated.err(), Some(fault));
    /// ```
    fn from_raw_bytes_owned(raw: Vec<u8>) -> Result<Self::Cow, EncodingError>
        ensures bytes { IfOk result (λ cow. Self.Cow.bytes_of cow ≡ raw.items) }
        ensures vec { IfOk result (λ cow. is_owned cow raw) }
        ensures cases { MatchResult result (λ _. Self.Platform.well_formed raw.items)
            (λ fault. Self.Platform.first_fault raw.items fault) };

    /// The string of IO-safe bytes, or `None` if they aren't IO-safe.
    ///
    /// ```
    /// use os_str_bytes::{OsStr, OsStrBytes, Unix, Windows};
    ///
    /// assert!(rt; OsStr::<Unix>::from_io_bytes(b"a\x80").is_some());
    /// assert!(rt; OsStr::<Windows>::from_io_bytes(b"a\x80").is_none());
    /// ```
    fn from_io_bytes(raw: &'a [u8]) -> Option<Self>
        ensures bytes { MatchOption result (Unit {0}) (λ string. bytes_of string ≡ raw.now) }
        ensures cases { MatchOption result (¬ (Self.Platform.io_safe raw.now))
            (λ _. Self.Platform.io_safe raw.now) };

    /// The string's bytes if they are IO-safe, else `None`.
    ///
    /// ```
    /// use os_str_bytes::{OsStr, OsStrBytes, OsString, Windows};
    ///
    /// assert_eq!(rt; OsStr::<Windows>::new("a").to_io_bytes(), Some(b"a".as_slice()));
    /// let surrogate = OsString::<Windows>::from_wide(alloc, &[0xD800])?;
    /// assert_eq!(rt; surrogate.as_os_str().to_io_bytes(), None);
    /// ```
    fn to_io_bytes(self) -> Option<&'a [u8]>
        ensures bytes { MatchOption result (Unit {0}) (λ io. io.now ≡ bytes_of self) }
        ensures cases { MatchOption result (¬ (Self.Platform.io_safe (bytes_of self)))
            (λ _. Self.Platform.io_safe (bytes_of self)) };

    /// The string's raw bytes, which [`OsStrBytes::from_raw_bytes`] accepts.
    ///
    /// ```
    /// use os_str_bytes::{OsStr, OsStrBytes, Wasm};
    ///
    /// let raw = OsStr::<Wasm>::new("a").to_raw_bytes();
    /// assert_eq!(rt; raw.as_bytes(), b"a".as_slice());
    /// ```
    fn to_raw_bytes(self) -> ByteCow<'a>
        ensures value { byte_cow_bytes result ≡ bytes_of self }
        ensures formed { Self.Platform.well_formed (byte_cow_bytes result) };

    /// Returns the string's bytes if they are IO-safe, which doesn't allocate. Otherwise it returns
    /// the bytes of the lossy text.
    ///
    /// # Errors
    ///
    /// `AllocError` if the allocation fails.
    ///
    /// ```
    /// use os_str_bytes::{OsStrBytes, OsString, Windows};
    ///
    /// let surrogate = OsString::<Windows>::from_wide(alloc, &[0xD800])?;
    /// let io = surrogate.as_os_str().to_io_bytes_lossy(alloc)?;
    /// assert_eq!(rt; io.as_bytes(), b"\xEF\xBF\xBD".as_slice());
    /// ```
    final fn to_io_bytes_lossy<A: Allocator>(self, alloc: A) -> Result<ByteCow<'a, A>, AllocError>
        ensures bytes { IfOk result (λ io. IsIoLossy Self.Platform.io_safe Self.Platform.lossy
            (bytes_of self) (byte_cow_bytes io)) }
        ensures without_memory { Self.Platform.io_safe (bytes_of self) → IsOk result }
    {
        let bytes = self.encoded_bytes();
        if Self::Platform::is_io_safe(bytes) {
            return Ok(ByteCow::Borrowed(bytes));
        }
        let fault = Self::Platform::utf8_fault(bytes);
        let text = lossy::text_bytes::<Self::Platform, A>(alloc, bytes, fault)?;
        Ok(ByteCow::Owned(text))
    }

    // the bytes of a string are well formed
    ghost formed: { (string : Self) → Self.Platform.well_formed (bytes_of string) };
}

/// A vector of bytes, with any allocator.
pub trait ByteVec: Sized + Drop {
    type Alloc: Allocator;

    ghost as_vec: { Self → Vec ℕ Self.Alloc };

    /// The vector itself (own call).
    ///
    /// ```
    /// use os_str_bytes::{ByteVec, OsStr, OsStringBytes, Unix};
    ///
    /// let raw = OsStr::<Unix>::new("a").to_owned(alloc)?.into_raw_vec();
    /// assert_eq!(rt; raw.into_vec().len(), 1);
    /// ```
    fn into_vec(self) -> Vec<u8, Self::Alloc>
        ensures { result ≡ as_vec self };
}

impl<A: Allocator> ByteVec for Vec<u8, A> {
    type Alloc = A;

    ghost as_vec = { λ vec. vec };

    fn into_vec(self) -> Vec<u8, A> {
        self
    }
}

/// Owned strings that can be made from vectors: [`crate::OsString`] and [`crate::PathBuf`] (the
/// `OsStringBytes` of os_str_bytes).
///
/// Each call moves the vector and doesn't allocate.
pub trait OsStringBytes: Sized + Drop {
    type Platform: Platform;

    type Alloc: Allocator;

    type Vec: ByteVec<Alloc = Self::Alloc>;

    ghost vec_of: { Self → Self.Vec };

    /// The string of a vector of well-formed raw bytes (test: [`OsStringBytes::from_raw_vec`]).
    ///
    /// ```
    /// use os_str_bytes::{OsString, OsStringBytes, Unix};
    ///
    /// let string = OsString::<Unix>::assert_from_raw_vec(b"a\x80".to_vec(alloc)?);
    /// assert_eq!(rt; string.as_os_str().as_encoded_bytes(), b"a\x80".as_slice());
    /// ```
    fn assert_from_raw_vec(raw: Self::Vec) -> Self
        requires { Self.Platform.well_formed (Self.Vec.as_vec raw).items }
        ensures { vec_of result ≡ raw };

    /// The string of a vector of raw bytes.
    ///
    /// # Errors
    ///
    /// The first fault of the bytes if they aren't well formed; the vector is then dropped.
    ///
    /// ```
    /// use os_str_bytes::{EncodingError, OsString, OsStringBytes, Windows};
    ///
    /// let refused = OsString::<Windows>::from_raw_vec(b"\xC0".to_vec(alloc)?);
    /// assert_eq!(rt; refused.err(), Some(EncodingError::Byte(0xC0)));
    /// ```
    fn from_raw_vec(raw: Self::Vec) -> Result<Self, EncodingError>
        ensures vec { IfOk result (λ string. vec_of string ≡ raw) }
        ensures cases { MatchResult result
            (λ _. Self.Platform.well_formed (Self.Vec.as_vec raw).items)
            (λ fault. Self.Platform.first_fault (Self.Vec.as_vec raw).items fault) };

    /// Returns the string of a vector of IO-safe bytes. If they aren't IO-safe, it returns `None`
    /// and drops the vector.
    ///
    /// ```
    /// use os_str_bytes::{OsString, OsStringBytes, Unix, Wasm};
    ///
    /// assert!(rt; OsString::<Unix>::from_io_vec(b"a\x80".to_vec(alloc)?).is_some());
    /// assert!(rt; OsString::<Wasm>::from_io_vec(b"a\x80".to_vec(alloc)?).is_none());
    /// ```
    fn from_io_vec(raw: Self::Vec) -> Option<Self>
        ensures vec { MatchOption result (Unit {0}) (λ string. vec_of string ≡ raw) }
        ensures cases { MatchOption result (¬ (Self.Platform.io_safe (Self.Vec.as_vec raw).items))
            (λ _. Self.Platform.io_safe (Self.Vec.as_vec raw).items) };

    /// Returns the string's vector if its bytes are IO-safe. Otherwise it returns `None` and drops
    /// the string.
    ///
    /// ```
    /// use os_str_bytes::{OsString, OsStringBytes, Windows};
    ///
    /// let surrogate = OsString::<Windows>::from_wide(alloc, &[0xD800])?;
    /// assert!(rt; surrogate.into_io_vec().is_none());
    /// ```
    fn into_io_vec(self) -> Option<Self::Vec>
        ensures vec { MatchOption result (Unit {0}) (λ io. io ≡ vec_of self) }
        ensures cases { MatchOption result
            (¬ (Self.Platform.io_safe (Self.Vec.as_vec (vec_of self)).items))
            (λ _. Self.Platform.io_safe (Self.Vec.as_vec (vec_of self)).items) };

    /// Returns the string's vector. If the string isn't IO-safe, the lossy text overwrites it in
    /// the same block of memory. It doesn't allocate: on Windows a surrogate and U+FFFD have three
    /// bytes each, and on the other platforms every string is IO-safe.
    ///
    /// ```
    /// use os_str_bytes::{OsString, OsStringBytes, Unix, Windows};
    ///
    /// let surrogate = OsString::<Windows>::from_wide(alloc, &[0xD800])?;
    /// let io = surrogate.into_io_vec_lossy();
    /// assert_eq!(rt; io.as_slice(), b"\xEF\xBF\xBD".as_slice());
    ///
    /// let same = OsString::<Unix>::from_raw_vec(b"\xED\xA0\x80".to_vec(alloc)?)?;
    /// assert_eq!(rt; same.into_io_vec_lossy().as_slice(), b"\xED\xA0\x80".as_slice());
    /// ```
    fn into_io_vec_lossy(self) -> Self::Vec
        ensures bytes { IsIoLossy Self.Platform.io_safe Self.Platform.lossy
            (Self.Vec.as_vec (vec_of self)).items (Self.Vec.as_vec result).items }
        ensures same { Self.Platform.io_safe (Self.Vec.as_vec (vec_of self)).items
            → result ≡ vec_of self }
        ensures block { SameBlock (Self.Vec.as_vec (vec_of self)) (Self.Vec.as_vec result) };

    /// The string's vector, which [`OsStringBytes::from_raw_vec`] accepts.
    ///
    /// ```
    /// use os_str_bytes::{OsStr, OsStringBytes, Wasm};
    ///
    /// let raw = OsStr::<Wasm>::new("a").to_owned(alloc)?.into_raw_vec();
    /// assert_eq!(rt; raw.as_slice(), b"a".as_slice());
    /// ```
    fn into_raw_vec(self) -> Self::Vec
        ensures value { result ≡ vec_of self }
        ensures formed { Self.Platform.well_formed (Self.Vec.as_vec result).items };

    // the bytes of a string are well formed
    ghost formed: { (string : Self)
        → Self.Platform.well_formed (Self.Vec.as_vec (vec_of string)).items };
}
