//! Programs for lists: items that are each ended by a byte, read and written block by block.
//!
//! [`arguments::read_arguments`] reads options and operands, and [`misuse::Misuse`] is what can be
//! wrong with them.
//!
//! A [`task::ListTask`] defines what is done with each item. [`run::run`] reads the list and writes
//! the output for its items. If it ends early, a [`fault::ListFault`] states why and, for a fault
//! of an item, the item's number. [`options::ListOptions`] states which byte ends an item and whether
//! the last may lack it. [`rejections`] has what becomes of rejected items. [`answers`] has the calls
//! that make the outcome of a program for lists, and [`program_fault::Fault`] is what keeps it from
//! its output.
#![tactic(auto)]

pub mod answers;
pub mod arguments;
pub mod fault;
pub mod items;
pub mod lines;
pub mod misuse;
pub mod options;
pub mod program_fault;
mod reading;
pub mod rejections;
pub mod run;
pub mod task;
