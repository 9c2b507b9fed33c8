//! Words of a shell, read and written.
//!
//! [`Words`] reads a line as `sh` does, where nothing is expanded. What [`quoted`] and its kin
//! write is read back as the same name by every POSIX shell, as an argument, and nothing else. Only
//! the words of [`quoted_line`], [`quote_line`] and [`push_word_line`] are safe to paste at a prompt.

mod display;
mod error;
mod fault;
mod fish;
mod form;
mod joining;
mod language;
pub mod laws;
mod octal;
mod owned;
mod powershell;
mod quoting;
mod reserved;
mod scan;
mod step;
mod word;
mod word_bytes;
mod words;
mod write_buffer;
mod write_word;

pub use display::Quoted;
pub use error::{NulError, ShellError};
pub use fault::{FaultKind, WordsFault};
pub use fish::{FishError, FishQuoted, quoted_fish, write_quoted_fish};
pub use joining::join;
pub use language::Specials;
pub use owned::{push_word, push_word_line, quote, quote_line};
pub use powershell::{
    PowerShellError, PowerShellQuoted, quoted_powershell, write_quoted_powershell,
};
pub use quoting::{quoted, quoted_line};
pub use word::Word;
pub use word_bytes::WordBytes;
pub use words::Words;
pub use write_buffer::{write_quoted, write_quoted_first, write_quoted_line};
