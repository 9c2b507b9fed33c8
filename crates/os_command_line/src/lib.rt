//! Reads and writes the words of a shell line and the command lines of Windows. What is written is
//! read back as the same names and arguments.
//!
//! [`shell::Words`] iterates over the words of a line as views of it, and allocates nothing.
//! [`shell::quoted`] prints a name as a word that every POSIX shell reads as this name
//! (`shell::laws`).
//!
//! [`windows::Arguments`] iterates over the arguments of a line as views of it, and allocates
//! nothing. [`windows::command_line`] and [`windows::push_argument`] write lines. A line that is
//! written is read as the same name and arguments, lone surrogates included (`windows::laws`).
#![tactic(auto)]

mod error_text;
pub mod shell;
pub mod windows;
