//! What the program `names` does, over ends of any kind: it reads and writes lists of names item by
//! item.
//!
//! An item is a name, ended by NUL or a newline, or a line. A line is the escape of a name
//! ([`os_quote::escape_line`]) or has words of a shell ([`os_command_line::shell::Words`]). The last
//! item has its end, too, unless the options permit that it lacks it
//! ([`list_programs::options::ListOptions`]). An empty line is rejected unless the settings take
//! it ([`task::EmptyLine`]).
//!
//! The arguments make up a request ([`Request::parse`](command::Request::parse)). A run reads a block
//! at a time, and writes what the items that end in it become ([`list_programs::run::run`]).
//! So it keeps one item and what a block becomes. Where it ends early, the text of a
//! [`Fault`](fault::Fault) states why, and for which item ([`program_frame::program::execute`]).
//!
//! Two calls have a `requires`: [`program_frame::program::execute`] and [`tar::run_tar`] take a
//! reader and a writer whose marks are unset, as `Marked::new` makes them.
#![tactic(auto)]

mod caret;
pub mod command;
pub mod fault;
mod first_glob;
mod fitting;
mod given;
pub mod help;
mod ignoring;
mod item;
pub mod laws;
pub mod matching;
pub mod option;
mod pattern_files;
mod patterns;
mod pick;
pub mod program;
mod reasons;
pub mod tar;
pub mod task;
mod why;
mod words;
