//! Reversible escapes: writes strings of any platform as text, and reads them back.
//!
//! [`escape`] writes a string as a text, and [`unescape`] returns the same string from that text.
//! A text without a backslash is its own escape, and each backslash is doubled. A unit that isn't
//! part of a text becomes `\xHH` if it is below 100 (hexadecimal), else `\uHHHH`. Digits are `0` to
//! `9` and `A` to `F`. [`escaped`] prints the same text and allocates nothing. The format is this
//! project's own.
//!
//! [`escape_line`], [`escaped_line`] and [`unescape_line`] are a second form, for log lines and
//! terminals. It also writes as tokens controls, format characters, blanks other than the space,
//! what Unicode ignores in display, private use, and a space at the end.
#![tactic(auto)]

mod error;
mod find_hidden;
mod find_lanes;
mod find_plain;
mod find_start;
mod find_tables;
mod form;
pub mod laws;
mod read_buffer;
mod read_string;
mod read_token;
mod write_buffer;
mod write_bytes;
mod write_display;
mod write_string;
mod write_token;
mod write_walk;

pub use error::QuoteError;
pub use find_hidden::is_on_one_line;
pub use form::stays_on_line;
pub use read_buffer::{
    write_unescaped, write_unescaped_bytes, write_unescaped_line, write_unescaped_line_bytes,
};
pub use read_string::{unescape, unescape_line};
pub use write_buffer::{write_escape, write_escape_line};
pub use write_display::Escaped;
pub use write_string::{escape, escape_line, escaped, escaped_line};
