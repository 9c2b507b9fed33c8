//! An argument reader for strings of any platform.
//!
//! [`Arguments`] reads the arguments of a command line, which need not be valid Unicode, in the
//! manner of the Rust crate `lexopt`. [`Arguments::next`] returns one option or operand at a time.
//! Where an option takes a value, the program calls [`Arguments::value`]. No call allocates.
//!
//! A flag that isn't a character is returned with the rest of its word, where lexopt returns U+FFFD
//! for each byte. Unlike lexopt, this crate has no list of the values of one option
//! (`Parser::values`).
#![tactic(auto)]

mod arguments;
mod error;
pub mod laws;
mod number;
mod shown;
mod word;
mod words;

pub use arguments::Arguments;
pub use error::ArgumentError;
pub use word::Word;
