//! For trying: what a user of the strings concludes from the public contracts alone.
//!
//! Each function is a caller whose contract is such a conclusion. Nothing here cites a lemma or a
//! private word of the crates below, so a contract or a law that states too little breaks a caller.
#![tactic(auto)]

pub mod agreements;
pub mod buffers;
pub mod bytes;
pub mod characters;
pub mod chunks;
pub mod clones;
pub mod cows;
pub mod cuts_in_units;
pub mod digits;
pub mod ends;
pub mod equal;
pub mod escapes;
pub mod files;
pub mod hashes;
pub mod headline;
pub mod joins;
pub mod laws;
pub mod line_escapes;
pub mod logs;
pub mod lossy_chunks;
pub mod occurrence;
pub mod orders;
pub mod parts;
pub mod paths;
pub mod patterns;
pub mod pieces;
pub mod plan9;
pub mod printing;
pub mod ranges;
pub mod raw;
pub mod raw_owned;
pub mod raw_ranges;
pub mod raw_strings;
pub mod readings;
pub mod searches;
pub mod shown;
pub mod sinks;
pub mod somewhere;
pub mod symbols;
pub mod texts;
pub mod units;
pub mod views;
pub mod wide;
