//! What the program `osbytes` does, over ends of any kind: platform strings as bytes and as units.
//!
//! The arguments specify a command ([`Command::parse`](command::Command::parse)). It reads all of
//! its input, makes the whole output, and then writes it ([`run::run`]). If it can't, the text of a
//! [`Fault`](fault::Fault) states why. [`program::OsBytes`] is the program.
//!
//! One of its calls has a `requires`: [`run::run`] takes a reader and a writer whose marks are unset,
//! as `Marked::new` makes them.
#![tactic(auto)]

mod answer;
mod chunks;
pub mod command;
pub mod fault;
mod find;
mod lines;
pub mod program;
mod quoting;
mod raw;
pub mod run;
mod split;
mod string;
mod target;
mod units;
