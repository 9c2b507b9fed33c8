//! For trying: calls under the words of their own contracts, and wrong bodies put in by edits.
//!
//! It is proved that a call's contract says at least what is said here. The edits in `edits/` show
//! that these words refuse the wrong bodies. They are in a crate above the libraries, so that no
//! large crate is proved again for them.
#![tactic(auto)]

mod built_paths;
mod checks;
mod chunks;
mod command_lines;
mod cuts;
mod escapes;
mod ignored;
mod joins;
mod orders;
mod paths;
mod readings;
mod runs;
mod searches;
mod splits;
mod wild;
mod words;

pub use built_paths::{
    clean, from_components, join_checked, join_checked_keeping_sep, normalize, relative_from,
    with_file_stem,
};
pub use checks::{check_in_two, check_windows, copied, from_raw_bytes, from_raw_vec};
pub use chunks::first_chunk;
pub use command_lines::{argument_text, arguments, line_words, quote};
pub use cuts::{boundary, cut_off, part_to, parts_at};
pub use escapes::unescape_unix;
pub use ignored::{matched, read_ignore};
pub use joins::twice;
pub use orders::order;
pub use paths::{file_name, is_absolute, parent, windows_prefix};
pub use readings::{into_lossy, read_windows_lossy};
pub use runs::{run_once, run_over};
pub use searches::{find, rsplit_once, starts_with_os};
pub use splits::{last_piece, pieces, two_pieces};
pub use wild::{compile, is_match, matches, matches_choice, matching};
pub use words::parse;
