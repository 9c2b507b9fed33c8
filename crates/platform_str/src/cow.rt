//! Values that are borrowed or owned, as std's `Cow`.
ghost use Rattle.std.specs.Prelude.{◌≡◌, ℕ, List};
ghost use Rattle.platform_str.specs.{Strings.bytes, Strings.path_bytes, Cows.cow_bytes, Cows.path_cow_bytes, Cows.byte_cow_bytes, Cows.str_cow_bytes};

use crate::os_str::OsStr;
use crate::os_string::OsString;
use crate::path::{Path, PathBuf};
use crate::platform::Platform;
use std::alloc::{Allocator, Global};

/// A type whose values have the bytes of a string.
pub trait HasBytes {
    ghost bytes_of: { Self → List ℕ };

    /// The bytes of the string (std's `OsStr::as_encoded_bytes` of a `Cow`).
    ///
    /// ```
    /// use os_str_bytes::{HasBytes, OsStr, OsStrCow, Unix};
    ///
    /// let string: OsStrCow<'_, Unix> = OsStrCow::Borrowed(OsStr::new("a"));
    /// assert_eq!(rt; string.bytes(), b"a".as_slice());
    /// ```
    fn bytes(&self) -> &[u8]
        ensures { result.now ≡ bytes_of self.now };
}

/// A string that is borrowed or owned (std's `Cow<'a, OsStr>`).
#[derive(Drop)]
pub enum OsStrCow<'a, E: Platform + 'a, A: Allocator = Global> {
    Borrowed(OsStr<'a, E>),
    Owned(OsString<E, A>),
}

impl<'a, E: Platform, A: Allocator> OsStrCow<'a, E, A> {
    /// A view of the string (std's `Cow::as_ref`).
    ///
    /// ```
    /// use os_str_bytes::{OsStr, OsStrCow, OsString, Unix};
    ///
    /// let string: OsStrCow<'_, Unix> = OsStrCow::Owned(OsString::new(alloc));
    /// assert!(rt; string.as_os_str() == OsStr::new(""));
    /// ```
    pub fn as_os_str(&self) -> OsStr<'_, E>
        ensures { bytes result ≡ cow_bytes self.now }
    {
        match self {
            OsStrCow::Borrowed(string) => *string,
            OsStrCow::Owned(string) => string.as_os_str(),
        }
    }
}

impl<'a, E: Platform, A: Allocator> HasBytes for OsStrCow<'a, E, A> {
    ghost bytes_of = { cow_bytes };

    fn bytes(&self) -> &[u8] {
        self.as_os_str().as_encoded_bytes()
    }
}

/// A path that is borrowed or owned (std's `Cow<'a, Path>`).
#[derive(Drop)]
pub enum PathCow<'a, E: Platform + 'a, A: Allocator = Global> {
    Borrowed(Path<'a, E>),
    Owned(PathBuf<E, A>),
}

impl<'a, E: Platform, A: Allocator> PathCow<'a, E, A> {
    /// A view of the path (std's `Cow::as_ref`).
    ///
    /// ```
    /// use os_str_bytes::{OsStr, PathBuf, PathCow, Unix};
    ///
    /// let path: PathCow<'_, Unix> = PathCow::Owned(PathBuf::new(alloc));
    /// assert!(rt; path.as_path().as_os_str() == OsStr::new(""));
    /// ```
    pub fn as_path(&self) -> Path<'_, E>
        ensures { path_bytes result ≡ path_cow_bytes self.now }
    {
        match self {
            PathCow::Borrowed(path) => *path,
            PathCow::Owned(path) => path.as_path(),
        }
    }
}

impl<'a, E: Platform, A: Allocator> HasBytes for PathCow<'a, E, A> {
    ghost bytes_of = { path_cow_bytes };

    fn bytes(&self) -> &[u8] {
        self.as_path().as_os_str().as_encoded_bytes()
    }
}

/// Bytes that are borrowed or owned (std's `Cow<'a, [u8]>`).
#[derive(Drop)]
pub enum ByteCow<'a, A: Allocator = Global> {
    Borrowed(&'a [u8]),
    Owned(Vec<u8, A>),
}

impl<'a, A: Allocator> ByteCow<'a, A> {
    /// A view of the bytes (std's `Cow::as_ref`).
    ///
    /// ```
    /// use os_str_bytes::{OsStr, OsStrBytes, Unix};
    ///
    /// let raw = OsStr::<Unix>::new("a").to_raw_bytes();
    /// assert_eq!(rt; raw.as_bytes(), b"a".as_slice());
    /// ```
    pub fn as_bytes(&self) -> &[u8]
        ensures { result.now ≡ byte_cow_bytes self.now }
    {
        match self {
            ByteCow::Borrowed(bytes) => bytes,
            ByteCow::Owned(vec) => vec.as_slice(),
        }
    }
}

/// A text that is borrowed or owned (std's `Cow<'a, str>`).
#[derive(Drop)]
pub enum StrCow<'a, A: Allocator = Global> {
    Borrowed(&'a str),
    Owned(String<A>),
}

impl<'a, A: Allocator> StrCow<'a, A> {
    /// A view of the text (std's `Cow::as_ref`).
    ///
    /// ```
    /// use os_str_bytes::{OsStr, Unix};
    ///
    /// let text = OsStr::<Unix>::new("a").to_string_lossy(alloc)?;
    /// assert_eq!(rt; text.as_str(), "a");
    /// ```
    pub fn as_str(&self) -> &str
        ensures { result.now ≡ str_cow_bytes self.now }
    {
        match self {
            StrCow::Borrowed(text) => text,
            StrCow::Owned(text) => text.as_str(),
        }
    }
}
