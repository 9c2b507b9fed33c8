//! Patterns of wildcards over paths, by components.
//!
//! A pattern is compiled. It is a list of parts and of `**`, and a part is a list of items and of
//! `*`. A path is a list of letters, which its separators split into components. `**` matches any
//! number of components, and each part matches one. The reader of a path defines the letters of its
//! bytes ([`Letters`]): they are the bytes themselves ([`Bytes`]) or characters.
//!
//! The crates that use this one define how the text of a pattern is read.
#![tactic(auto)]

mod automaton;
mod candidates;
mod class;
mod class_name;
mod component;
mod digest;
mod filter;
mod group;
mod hidden;
mod indices;
mod key;
mod letters;
mod literal;
mod options;
mod part;
mod path;
mod pattern;
mod pattern_set;
mod piece;
mod range;
mod run;
mod separators;
mod set;
mod small;

pub use class::Class;
pub use class_name::ClassName;
pub use group::push_group;
pub use letters::{Bytes, Letters};
pub use options::Options;
pub use part::Part;
pub use path::matches;
pub use pattern::{Choice, matches_choice};
pub use pattern_set::PatternSet;
pub use piece::{Item, Piece};
pub use range::Range;
pub use separators::Separators;
pub use set::Pattern;
