//! Platform strings for Unix, Windows and wasm, side by side.
//!
//! A platform is a type that implements [`Platform`]: [`Unix`], whose strings are any bytes;
//! [`Windows`], whose strings are any 16-bit code units, here called units, stored as WTF-8 (UTF-8
//! extended to surrogates); and [`Wasm`], whose strings are UTF-8. [`OsStr`] and [`OsString`] are
//! the borrowed and the owned strings of a platform, [`Path`] and [`PathBuf`] the same as paths.
//! [`OsStrBytes`] and [`OsStringBytes`] convert them from and to bytes; [`OsStr::encode_wide`] and
//! [`OsString::from_wide`] convert them to and from units.
//!
//! The bytes of a string are its raw bytes, its encoded bytes and, if it is IO-safe, its IO bytes.
//! So a conversion that succeeds borrows or moves.
//!
//! A call that allocates takes an allocator as its first argument, or uses that of its vector. It
//! returns [`std::alloc::AllocError`] if the allocation fails. Then what was borrowed is unchanged,
//! and what was moved in is dropped. No other call allocates, so none of them can run out of
//! memory.
//!
//! # Calls with a condition
//!
//! A call with a `requires` clause can only be made where its precondition is proved. Calls whose
//! names begin with `assert_from_raw` or end in `_unchecked` need well-formed bytes (test:
//! [`Platform::check`]), and so do the calls of [`Platform`] except `check`, `is_io_safe` and
//! `read_lossy`. Of these, `lossy_len`, `replaced_len` and `first_unit` need bytes that aren't
//! empty and don't begin with a whole character (test: `wtf8_core::char_at` at 0).
//! [`OsStr::write_lossy`] needs a string of at most a third of `usize::MAX` bytes (test:
//! [`OsStr::len`]). Every other call can be made anywhere.
#![tactic(auto)]

mod convert;
mod cow;
mod display;
mod from_wide;
mod join;
pub mod laws;
mod lossy;
mod memory;
mod number;
mod os_str;
mod os_string;
mod path;
mod platform;
mod reading;
mod sink;
mod strings;
mod to_wide;
pub mod unix;
pub mod wasm;
mod wide;
mod wide_buffer;
pub mod windows;
mod writeable;

pub use convert::{ByteVec, OsStrBytes, OsStringBytes};
pub use cow::{ByteCow, HasBytes, OsStrCow, PathCow, StrCow};
pub use display::OsStrDisplay;
pub use number::write_number;
pub use os_str::OsStr;
pub use os_string::OsString;
pub use path::{Path, PathBuf};
pub use platform::{Platform, Unix, Wasm, Windows};
pub use sink::{Sink, TruncatedBuffer};
pub use strings::string_at;
pub use wide::WideUnits;
pub use writeable::{Writeable, write_filled};
pub use wtf8_core::EncodingError;
