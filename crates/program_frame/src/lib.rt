//! What programs share, over ends of any kind.
//!
//! A program reads its arguments ([`words::words`]). It runs over a reader and a writer that
//! remember whether one of their calls failed ([`marked::Marked`]). It reads all that an end has
//! ([`input::read_all`]), or a file by its name ([`files::Files`]), and writes its output
//! ([`writing::write_out`]). It ends with an outcome, a message and a status ([`ended::Ended`]). A
//! [`Failure`](fault::Failure) keeps a run from going on whatever its input is. Platforms have
//! names ([`os::Os`]).
//!
//! [`writing::write_out`], [`program::execute`] and [`program::Program::run_words`] require ends
//! whose marks are unset, as [`marked::Marked::new`] makes them (test: [`marked::Marked::failed`]).
#![tactic(auto)]

pub mod ended;
pub mod ends;
pub mod fault;
pub mod files;
pub mod input;
pub mod marked;
pub mod os;
pub mod program;
pub mod reporting;
pub mod words;
pub mod writing;
