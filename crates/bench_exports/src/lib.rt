//! The calls that are timed, for a program in C or Rust:
//!
//! [`check`] has the check of Windows and faults. [`wide`] converts bytes to units and back.
//! [`lossy`] has lossy texts and readings, [`search`] searches, [`boundary`] boundaries, and
//! [`compare`] the order. [`pieces`] has splits, [`chunks`] chunks, and [`symbols`] symbols and
//! first characters.
//!
//! [`joins`] has joins and prefixes by units, [`escapes`] escapes, and [`buffers`] what is written
//! into a buffer. [`globs`] has path patterns, [`paths`] paths, and [`arguments`] options.
//! [`shell_words`] has words of a shell, and [`command_lines`] command lines of Windows.
//!
//! Each export is a call of the libraries below it, and nothing else. A slice crosses as a pointer
//! and a length, and an allocator as nothing: what it takes is the program's own `malloc`. The
//! caller meets the preconditions of each export.
#![tactic(auto)]

pub mod arguments;
pub mod boundary;
pub mod buffers;
pub mod check;
pub mod chunks;
pub mod command_lines;
pub mod compare;
pub mod escapes;
pub mod globs;
pub mod joins;
pub mod lossy;
pub mod paths;
pub mod pieces;
pub mod search;
pub mod shell_words;
mod strings;
pub mod symbols;
pub mod wide;
