//! Ignore files in git's own language, over bytes: which line of a `.gitignore` decides a path.
//!
//! [`Ignore`] holds the lines of the ignore files of one tree, compiled once. [`Ignore::matched`]
//! returns whether they ignore a path, and which line decides it. It follows git's gitignore
//! document. Where that is silent or git 2.39 differs from it, it does what git does, with one
//! exception: a line of which nothing is left, such as a blank or `!`, matches no path. The document
//! has it so for a blank line. Git reads such a line as an empty name, which is that of the top.
//!
//! Paths and lines are bytes, in no encoding: a `?` or a class matches one byte, so two of the
//! bytes of `é`. A path is relative to the top of the tree, `/` separates its components, and it has
//! none at its start or its end. The path of the top itself is empty.
//!
//! A line is read as follows. It ends at a line feed. A carriage return before that is removed, as
//! are all bytes from a NUL on, and blanks at the end that no backslash quotes. A byte order mark
//! at the start of a file is removed. A line that begins with `#` is a comment. A `!` at the start
//! takes in again what the line matches. A `/` at the end matches directories alone. With a `/`
//! elsewhere the line matches paths from the directory of its file, and else names at any depth.
//! No line with a `/` matches that directory itself, so none decides the top.
//! `*` matches any bytes of a component and `?` one byte; a component `**` matches any number of
//! components, and at the end one or more; a backslash quotes the next byte. In a class, `!` or `^`
//! negates, `a-z` is a range, `[:alpha:]` a class of POSIX over ASCII, and a `]` is a member if it
//! comes first. A line matches nothing if a class in it isn't closed or has an unknown name, or if
//! it ends with a backslash that quotes nothing. No line is a fault.
//!
//! The literal bytes at the start of a line with a `/` are compared by themselves, as git does, and
//! what comes after them is matched with what comes after them in the path: so `ab**/c` matches
//! `abx/y/c`.
#![tactic(auto)]

mod class;
mod class_text;
mod component;
mod directory;
mod file;
mod ignore;
pub mod laws;
mod letter;
mod line;
mod pattern;
mod reason;
mod tag;
mod verdict;
mod walk;

pub use ignore::{Ignore, IgnoreOptions};
pub use reason::{NoPattern, no_pattern};
pub use verdict::Verdict;
pub use walk::Walk;
