//! Searches, cuts and pieces of platform strings, which rely only on the laws of the platform.
//!
//! [`OsStrBytesExt`] adds to a string of any platform: boundaries, cuts and ranges
//! ([`SliceIndex`]), searches for a [`Pattern`], chunks ([`Utf8Chunks`]) and symbols ([`Symbols`]).
//! All indices are byte indices, and what contracts say about bytes they also say about code units.
//! Only [`OsStrBytesExt::repeat`] allocates. This crate re-exports each public item of
//! `platform_str`.
//!
//! # Calls with a condition
//!
//! A call with a `requires` can only be made where its condition is proved:
//! [`OsStrBytesExt::split_at`] needs a boundary (test: [`OsStrBytesExt::is_boundary`]);
//! [`OsStrBytesExt::index`] and [`OsStrBytesExt::get_unchecked`], and those of [`SliceIndex`], need
//! a range that fits (test: [`SliceIndex::fits`]); [`OsStrBytesExt::split`] and
//! [`OsStrBytesExt::rsplit`] need a pattern that isn't empty (test: `str::is_empty`; a `char` never
//! is). Every other call can be made anywhere.
#![tactic(auto)]

mod boundary;
mod characters;
pub mod chunk_laws;
mod chunks;
mod compare;
mod ext;
mod iter;
mod needle;
mod os_units;
pub mod part_laws;
mod parts;
mod pattern;
mod repeat;
mod runs;
mod search;
pub mod search_laws;
mod slice_index;
pub mod symbol_laws;
mod symbols;

pub use chunks::Utf8Chunks;
pub use ext::OsStrBytesExt;
pub use iter::{Direction, FromEnd, FromStart, Pieces, RSplit, Split};
pub use os_units::{NonUnicodeOsStr, OsUnit, OsUnits};
pub use pattern::{Encoded, EncodedChar, Pattern};
pub use platform_str::{
    ByteCow, ByteVec, EncodingError, HasBytes, OsStr, OsStrBytes, OsStrCow, OsStrDisplay, OsString,
    OsStringBytes, Path, PathBuf, PathCow, Platform, Sink, StrCow, TruncatedBuffer, Unix, Wasm,
    WideUnits, Windows, Writeable, laws, string_at, unix, wasm, windows, write_filled,
    write_number,
};
pub use slice_index::SliceIndex;
pub use symbols::{Symbol, Symbols};
