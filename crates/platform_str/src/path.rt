//! Strings as paths, borrowed and owned. Paths aren't split into components here.
ghost use Rattle.std.specs.Prelude.{◌≡◌, []};
ghost use Rattle.platform_str.specs.{Strings.bytes, Strings.path_bytes, Strings.string_vec_of, Strings.path_vec_of, Display.shown_bytes, Cows.IsOwnedPath};

use crate::convert::{OsStrBytes, OsStringBytes};
use crate::cow::{ByteCow, PathCow};
use crate::display::OsStrDisplay;
use crate::os_str::OsStr;
use crate::os_string::OsString;
use crate::platform::Platform;
use std::alloc::{Allocator, Global};
use wtf8_core::EncodingError;

/// A borrowed string of a platform, as a path (std's `&Path`).
#[derive_where(Clone, Copy)]
pub struct Path<'a, E: Platform + 'a> {
    inner: OsStr<'a, E>,
}

impl<'a, E: Platform> Path<'a, E> {
    /// The path of a string; every string is a path (std's `Path::new`).
    ///
    /// ```
    /// use os_str_bytes::{OsStr, OsStrBytes, Path, Unix};
    ///
    /// let path = Path::<Unix>::new(OsStr::new("a/b"));
    /// assert_eq!(rt; path.encoded_bytes(), b"a/b".as_slice());
    /// ```
    pub fn new(string: OsStr<'a, E>) -> Self
        ensures { path_bytes result ≡ bytes string.entry }
    {
        Path { inner: string }
    }

    /// The lossy text of the path, for printing (std's `Path::display`), as [`OsStr::display`].
    ///
    /// ```
    /// use os_str_bytes::{OsStr, Path, Unix};
    ///
    /// let path = Path::<Unix>::new(OsStr::new("a/b"));
    /// assert_eq!(rt; path.display().to_string(alloc)?.as_str(), "a/b");
    /// ```
    pub fn display(self) -> OsStrDisplay<'a, E>
        ensures { shown_bytes result ≡ path_bytes self.entry }
    {
        self.inner.display()
    }

    /// The path as a string (std's `Path::as_os_str`).
    ///
    /// ```
    /// use os_str_bytes::{OsStr, Path, Unix};
    ///
    /// let string = OsStr::<Unix>::new("a/b");
    /// assert!(rt; Path::new(string).as_os_str() == string);
    /// ```
    pub fn as_os_str(self) -> OsStr<'a, E>
        ensures { bytes result ≡ path_bytes self.entry }
    {
        self.inner
    }
}

impl<'a, E: Platform + 'a> OsStrBytes<'a> for Path<'a, E> {
    type Platform = E;

    type Cow = PathCow<'a, E>;

    ghost bytes_of = { path_bytes };

    ghost is_owned = { IsOwnedPath };

    ghost formed = { λ path. path.inner.ok };

    fn encoded_bytes(self) -> &'a [u8] {
        self.as_os_str().as_encoded_bytes()
    }

    fn assert_from_raw_bytes(raw: &'a [u8]) -> PathCow<'a, E> {
        PathCow::Borrowed(Path::new(OsStr::from_encoded_bytes_unchecked(raw)))
    }

    fn assert_from_raw_bytes_owned(raw: Vec<u8>) -> PathCow<'a, E> {
        PathCow::Owned(PathBuf::assert_from_raw_vec(raw))
    }

    fn from_raw_bytes(raw: &'a [u8]) -> Result<PathCow<'a, E>, EncodingError> {
        E::check(raw)?;
        Ok(Self::assert_from_raw_bytes(raw))
    }

    fn from_raw_bytes_owned(raw: Vec<u8>) -> Result<PathCow<'a, E>, EncodingError> {
        Ok(PathCow::Owned(PathBuf::from_raw_vec(raw)?))
    }

    fn from_io_bytes(raw: &'a [u8]) -> Option<Self> {
        Some(Path::new(OsStr::from_io_bytes(raw)?))
    }

    fn to_io_bytes(self) -> Option<&'a [u8]> {
        self.as_os_str().to_io_bytes()
    }

    fn to_raw_bytes(self) -> ByteCow<'a> {
        self.as_os_str().to_raw_bytes()
    }
}

/// An owned string of a platform, as a path (std's `PathBuf`).
#[derive(Drop)]
pub struct PathBuf<E: Platform, A: Allocator = Global> {
    inner: OsString<E, A>,
}

impl<E: Platform, A: Allocator> PathBuf<E, A> {
    /// The empty path (std's `PathBuf::new`). It doesn't allocate.
    ///
    /// ```
    /// use os_str_bytes::{PathBuf, Unix};
    ///
    /// assert!(rt; PathBuf::<Unix>::new(alloc).as_os_str().is_empty());
    /// ```
    pub fn new(alloc: A) -> Self
        ensures { (path_vec_of result).items ≡ [] }
    {
        PathBuf::from(OsString::new(alloc))
    }

    /// A view of the path (std's `PathBuf::as_path`).
    ///
    /// ```
    /// use os_str_bytes::{OsStr, PathBuf, Unix};
    ///
    /// let path = PathBuf::from(OsStr::<Unix>::new("a/b").to_owned(alloc)?);
    /// assert!(rt; path.as_path().as_os_str() == OsStr::new("a/b"));
    /// ```
    pub fn as_path(&self) -> Path<'_, E>
        ensures { path_bytes result ≡ (path_vec_of self.now).items }
    {
        Path::new(self.as_os_str())
    }

    /// A view of the path as a string (std's `Path::as_os_str` of a `PathBuf`).
    ///
    /// ```
    /// use os_str_bytes::{OsStr, PathBuf, Unix};
    ///
    /// let path = PathBuf::from(OsStr::<Unix>::new("a/b").to_owned(alloc)?);
    /// assert!(rt; path.as_os_str() == OsStr::new("a/b"));
    /// ```
    pub fn as_os_str(&self) -> OsStr<'_, E>
        ensures { bytes result ≡ (path_vec_of self.now).items }
    {
        self.inner.as_os_str()
    }

    /// The path as a string, in its own vector (std's `PathBuf::into_os_string`).
    ///
    /// ```
    /// use os_str_bytes::{OsStr, PathBuf, Unix};
    ///
    /// let path = PathBuf::from(OsStr::<Unix>::new("a/b").to_owned(alloc)?);
    /// assert!(rt; path.into_os_string().as_os_str() == OsStr::new("a/b"));
    /// ```
    pub fn into_os_string(self) -> OsString<E, A>
        ensures { string_vec_of result ≡ path_vec_of self }
    {
        self.inner
    }
}

/// The string as a path, in the string's vector (std's `PathBuf::from`).
///
/// `PathBuf::from(string).into_os_string()` is the string again.
impl<E: Platform, A: Allocator> From<OsString<E, A>> for PathBuf<E, A> {
    ghost from_gives = { λ string path. path_vec_of path ≡ string_vec_of string };

    fn from(string: OsString<E, A>) -> Self {
        PathBuf { inner: string }
    }
}

/// The path as a string, in the path's vector (std's `OsString::from`).
///
/// `PathBuf::from(OsString::from(path))` is the path again.
impl<E: Platform, A: Allocator> From<PathBuf<E, A>> for OsString<E, A> {
    ghost from_gives = { λ path string. string_vec_of string ≡ path_vec_of path };

    fn from(path: PathBuf<E, A>) -> Self {
        path.into_os_string()
    }
}

impl<E: Platform, A: Allocator> OsStringBytes for PathBuf<E, A> {
    type Platform = E;

    type Alloc = A;

    type Vec = Vec<u8, A>;

    ghost vec_of = { path_vec_of };

    ghost formed = { λ path. path.inner.ok };

    fn assert_from_raw_vec(raw: Vec<u8, A>) -> Self {
        PathBuf::from(OsString::assert_from_raw_vec(raw))
    }

    fn from_raw_vec(raw: Vec<u8, A>) -> Result<Self, EncodingError> {
        Ok(PathBuf::from(OsString::from_raw_vec(raw)?))
    }

    fn from_io_vec(raw: Vec<u8, A>) -> Option<Self> {
        Some(PathBuf::from(OsString::from_io_vec(raw)?))
    }

    fn into_io_vec(self) -> Option<Vec<u8, A>> {
        self.into_os_string().into_io_vec()
    }

    fn into_io_vec_lossy(self) -> Vec<u8, A> {
        self.into_os_string().into_io_vec_lossy()
    }

    fn into_raw_vec(self) -> Vec<u8, A> {
        self.into_os_string().into_raw_vec()
    }
}
