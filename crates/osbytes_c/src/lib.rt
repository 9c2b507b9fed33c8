//! What the C library `libosbytes` is proved of:
//!
//! - [`strings`]: bytes are checked, whole and in pieces, and converted to units, lossy texts and
//!   escapes and back.
//! - [`search`]: searches, prefixes and suffixes, indices where strings may be cut, and order.
//! - [`walks`]: pieces, chunks and symbols, one step at a time or many at once.
//! - [`paths`]: parts of paths, and paths that are built of others.
//! - [`globs`]: path patterns, compiled for one call or kept by C.
//! - [`ignores`]: ignore files, read for one call or kept by C.
//! - [`lines`]: words of shells and command lines of Windows.
//! - [`options`]: options and operands.
//!
//! [`laws`] states that statuses differ, and what whole walks and whole lines give. The modules of [`uses`] are callers,
//! which draw conclusions from the contracts.
//!
//! A slice crosses as a pointer and a length. Each export takes any values, so none has a
//! `requires`. For a platform, a pattern, an index or a fault that doesn't exist, it returns a
//! status ([`status`]). No export can test what its pointers point to; the edge in C
//! (`c/src/osbytes.c`) tests as much of it as C can.
#![tactic(auto)]

mod built;
pub mod globs;
pub mod ignores;
pub mod laws;
pub mod lines;
mod on_platform;
pub mod options;
pub mod paths;
pub mod search;
pub mod span;
pub mod status;
pub mod strings;
pub mod uses;
pub mod walks;
