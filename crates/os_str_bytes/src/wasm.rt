//! The string types of wasm.
use crate::Wasm;
pub use os_str_ext::wasm::{OsStr, OsStrCow, OsString, Path, PathBuf, PathCow};
use std::alloc::Global;

/// A borrowed raw string of wasm.
pub type RawOsStr<'a> = crate::RawOsStr<'a, Wasm>;

/// An owned raw string of wasm.
pub type RawOsString<A = Global> = crate::RawOsString<Wasm, A>;

/// An owned raw string of wasm in a block of exactly its length.
pub type RawOsStrBox<A = Global> = crate::RawOsStrBox<Wasm, A>;

/// A raw string of wasm that is borrowed or owned.
pub type CowRawOsStr<'a, A = Global> = crate::CowRawOsStr<'a, Wasm, A>;
