//! The string types of Windows.
use crate::Windows;
pub use os_str_ext::windows::{OsStr, OsStrCow, OsString, Path, PathBuf, PathCow};
use std::alloc::Global;

/// A borrowed raw string of Windows.
pub type RawOsStr<'a> = crate::RawOsStr<'a, Windows>;

/// An owned raw string of Windows.
pub type RawOsString<A = Global> = crate::RawOsString<Windows, A>;

/// An owned raw string of Windows in a block of exactly its length.
pub type RawOsStrBox<A = Global> = crate::RawOsStrBox<Windows, A>;

/// A raw string of Windows that is borrowed or owned.
pub type CowRawOsStr<'a, A = Global> = crate::CowRawOsStr<'a, Windows, A>;
