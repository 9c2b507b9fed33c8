//! What the program `paths` does, over ends of any kind: lists of paths, taken apart path by path.
//!
//! A path is ended by NUL, the last one too, unless options state otherwise. A path may be empty. The
//! arguments make up a command ([`Command::parse`](command::Command::parse)). A run reads a block at a time, and writes
//! the results for the paths that end in it ([`list_programs::run::run_with`]). Where it
//! ends early, the text of a [`Fault`](fault::Fault) states why, and for which path.
//! [`program::Paths`] is the program, which [`program_frame::program::execute`] runs.
//!
//! To add a task, add a case of [`Task`](task::Task) with its argument, its result (`IsAnswer`
//! in `specs/Task.antt`), and a line that makes the result.
#![tactic(auto)]

mod answers;
mod checked;
pub mod command;
mod common;
mod components;
pub mod extension;
pub mod fault;
mod given;
pub mod help;
mod item;
pub mod option;
pub mod program;
pub mod task;
