//! WTF-8, the encoding of Windows strings: bytes, code points and 16-bit code units.
//!
//! The crate depends on no platform and never allocates. It decodes bytes to code points
//! ([`CodePoints`]) and to units ([`encode_wide`]), and encodes units as bytes ([`DecodeWide`]). It
//! finds the first fault of ill-formed bytes ([`EncodingError`]), even if they arrive in pieces
//! ([`Checker`]). The module [`laws`] has the facts about the definitions that callers can use in
//! proofs.
//!
//! Terms, besides those of the standards: a *unit* is a 16-bit code unit. A *form* is the bytes of
//! one code point; bytes *encode* code points if they are their forms, one after the other. A
//! *scalar value* is a code point that isn't a surrogate, and a *whole character* is the form of
//! one. A *text* is bytes that are UTF-8. A *high* and a *low* surrogate are WTF-8's lead and trail
//! surrogate. A *maximal ill-formed part* is a maximal subpart of an ill-formed subsequence
//! (Unicode, section 3.9).
//!
//! Sources: RFC 3629 for the forms of code points, RFC 2781 for their units, and the WTF-8 encoding
//! for surrogates. All lengths and indices count bytes.
#![tactic(auto)]

mod byte;
mod character;
mod checker;
mod code_points;
mod decoder;
mod digits;
mod encoder;
mod fault;
pub mod first_character;
mod forms;
mod halves;
pub mod laws;
mod surrogate;
mod table;
mod truncated;
mod utf8;
pub mod vectors;
mod wtf8;

pub use byte::is_continuation;
pub use character::char_at;
pub use checker::{Checker, SavedChecker};
pub use code_points::CodePoints;
pub use decoder::DecodeWide;
pub use digits::{code_point_digits, upper_hex_digit};
pub use encoder::{EncodeWide, encode_wide};
pub use fault::EncodingError;
pub use forms::write_form;
pub use halves::{ends_with, pair_between, starts_with};
pub use surrogate::{first_pair, is_pair, pair_units};
pub use truncated::push_truncated;
pub use utf8::{is_utf8, surrogate_fault, utf8_fault};
pub use wtf8::wtf8_fault;
