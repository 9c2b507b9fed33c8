//! Lossless platform strings, under the names of the Rust crate `os_str_bytes`.
//!
//! [`OsStrBytesExt`] is the trait to begin with: it gives an [`OsStr`] the calls of std's `str`,
//! also if the string isn't UTF-8.
//!
//! ```
//! use os_str_bytes::{OsStr, OsStrBytes, OsStrBytesExt, Unix};
//!
//! let name = OsStr::<Unix>::from_raw_bytes(b"caf\xE9.txt")?;
//! if let Some((stem, extension)) = name.as_os_str().rsplit_once('.') {
//!     assert_eq!(rt; stem.as_encoded_bytes(), b"caf\xE9".as_slice());
//!     assert_eq!(rt; extension.to_str(), Some("txt"));
//! }
//! ```
//!
//! | To | use |
//! |---|---|
//! | search, trim, cut or split a string | [`OsStrBytesExt`] |
//! | convert a string from bytes, and to bytes | [`OsStrBytes`], [`OsStringBytes`] |
//! | convert a Windows string from 16-bit code units, and to them | [`OsString::from_wide`], [`OsStr::encode_wide`] |
//! | print a string, with U+FFFD for what isn't text | [`OsStr::display`] |
//! | find text and what isn't text | [`OsStrBytesExt::utf8_chunks`], [`OsStrBytesExt::symbols`] |
//!
//! The platform is a type parameter: [`Unix`], [`Windows`] and [`Wasm`] can be used side by side.
//! The modules [`unix`], [`windows`] and [`wasm`] have every string type without the parameter, and
//! the module [`iter`] has every iterator. [`RawOsStr`] and [`RawOsString`] are the raw strings of
//! the Rust crate, for code that uses them; they have the same calls.
//!
//! This crate re-exports each public item of the crates below it, and has no proofs about bytes of
//! its own. All indices and lengths count bytes. A call whose docs say *own call* isn't in the Rust
//! crate. In examples `rt` is the runtime that `main` or a test has, and `alloc` is `rt.alloc()`.
//!
//! # Calls with a condition
//!
//! A call with a `requires` can only be made where its condition is proved. Of the calls of raw
//! strings, these have one: `from_encoded_bytes_unchecked`, `from_encoded_vec_unchecked`,
//! `assert_cow_from_raw_bytes`, `cow_from_raw_bytes_unchecked`, `assert_from_raw_vec` and
//! `from_raw_vec_unchecked` (the bytes are well formed: [`Platform::check`]); `split_at`,
//! `split_off` and `truncate` (the index is a boundary: `is_boundary`); `index` and `get_unchecked`
//! (the range fits: `fits`); `split` and `rsplit` (the pattern isn't empty). Every other call of
//! raw strings can be made anywhere.
#![tactic(auto)]

mod cuts;
pub mod headline;
pub mod iter;
pub mod laws;
mod raw_box;
mod raw_cow;
mod raw_search;
mod raw_str;
mod raw_string;
pub mod unix;
pub mod wasm;
pub mod windows;

pub use iter::{RawPieces, RawRSplit, RawSplit};
pub use os_str_ext::{
    ByteCow, ByteVec, Direction, Encoded, EncodedChar, EncodingError, FromEnd, FromStart, HasBytes,
    NonUnicodeOsStr, OsStr, OsStrBytes, OsStrBytesExt, OsStrCow, OsStrDisplay, OsString,
    OsStringBytes, OsUnit, OsUnits, Path, PathBuf, PathCow, Pattern, Pieces, Platform, RSplit,
    Sink, SliceIndex, Split, StrCow, Symbol, Symbols, TruncatedBuffer, Unix, Utf8Chunks, Wasm,
    WideUnits, Windows, Writeable, chunk_laws, part_laws, search_laws, string_at, symbol_laws,
    write_filled, write_number,
};
pub use raw_box::RawOsStrBox;
pub use raw_cow::{CowRawOsStr, RawOsStrCow};
pub use raw_str::RawOsStr;
pub use raw_string::RawOsString;
pub use wtf8_core::{
    Checker, CodePoints, DecodeWide, EncodeWide, SavedChecker, char_at, code_point_digits,
    encode_wide, ends_with, first_pair, is_continuation, is_pair, is_utf8, laws as wtf8_laws,
    pair_between, pair_units, push_truncated, starts_with, surrogate_fault, upper_hex_digit,
    utf8_fault, write_form, wtf8_fault,
};
