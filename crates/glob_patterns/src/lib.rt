//! Path patterns over strings of any platform.
//!
//! [`Glob`] is a compiled pattern, made of a text or of any string of the platform. It matches
//! paths without allocating. [`GlobSet`] matches a path with many patterns at once, and
//! [`MixedGlobSet`] with patterns that each have their own options. [`escape_pattern`] returns the
//! pattern of one string.
//!
//! A string is read as letters ([`StringLetters`]): a letter is a whole character, or one unit of
//! what isn't text. No pattern matches part of a letter.
#![tactic(auto)]

mod error;
mod escaped;
mod glob;
mod glob_set;
mod letters;
mod mixed_set;
mod options;
mod set_error;

pub use error::GlobError;
pub use escaped::escape_pattern;
pub use glob::Glob;
pub use glob_set::GlobSet;
pub use glob_text::{FaultKind, PatternFault};
pub use letters::StringLetters;
pub use mixed_set::MixedGlobSet;
pub use options::GlobOptions;
pub use set_error::GlobSetError;
pub use wildcards::Separators;
