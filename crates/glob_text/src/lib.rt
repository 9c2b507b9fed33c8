//! The text of a path pattern, read into the compiled form of `wildcards`.
#![tactic(auto)]

mod braces;
mod choices;
mod class_text;
mod escaped;
mod fault;
mod fold;
pub mod laws;
mod mark;
mod merged;
mod name;
mod part;
mod size;
mod symbol;
mod syntax;
mod text;

pub use escaped::escape;
pub use fault::{FaultKind, PatternFault};
pub use syntax::Syntax;
pub use text::compile;
