//! For trying: what a user of paths and of ignore files concludes from the public contracts alone.
//!
//! Each function is a caller whose contract is such a conclusion. Nothing here cites a private word of
//! the crates below, and of their lemmas only those on the normal form of a path and on how a path is
//! resolved. So a contract or a law that states too little breaks a caller.
#![tactic(auto)]

pub mod changed;
pub mod checked;
pub mod collected;
pub mod common_bases;
pub mod comparisons;
pub mod form;
pub mod full_paths;
pub mod ignored;
pub mod joined;
pub mod left_parts;
pub mod normal_forms;
pub mod path_ends;
pub mod path_parts;
pub mod path_strings;
pub mod prefix_ends;
pub mod prefixes;
pub mod read_parts;
pub mod relatives;
pub mod renamed;
pub mod reserved;
pub mod roots;
pub mod styles;
pub mod written;
