//! For trying: what a user of patterns, classes, arguments and command lines concludes from the public
//! contracts alone.
//!
//! Each function is a caller whose contract is such a conclusion. Nothing here cites a lemma or a
//! private word of the crates below, so that a contract or a law that states too little breaks a
//! caller.
#![tactic(auto)]

pub mod arguments;
pub mod classes;
pub mod command_lines;
pub mod errors;
pub mod globs;
pub mod joined_words;
pub mod mixed_sets;
pub mod patterns;
pub mod shell_words;
pub mod windows_lines;
pub mod written_out;
