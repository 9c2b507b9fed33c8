//! The string types of Unix.
use crate::Unix;
pub use os_str_ext::unix::{OsStr, OsStrCow, OsString, Path, PathBuf, PathCow};
use std::alloc::Global;

/// A borrowed raw string of Unix.
pub type RawOsStr<'a> = crate::RawOsStr<'a, Unix>;

/// An owned raw string of Unix.
pub type RawOsString<A = Global> = crate::RawOsString<Unix, A>;

/// An owned raw string of Unix in a block of exactly its length.
pub type RawOsStrBox<A = Global> = crate::RawOsStrBox<Unix, A>;

/// A raw string of Unix that is borrowed or owned.
pub type CowRawOsStr<'a, A = Global> = crate::CowRawOsStr<'a, Unix, A>;
