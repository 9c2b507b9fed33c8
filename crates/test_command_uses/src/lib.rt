//! For trying: what a user of the programs' libraries and of the allocator that fails conclude
//! from their public contracts alone.
//!
//! Each function is a caller whose contract is such a conclusion. Nothing here cites a private word of
//! the crates below, and of their lemmas only three: that a list has an end, that rejected words state
//! no request, and that a FILE without `=` has no invalid directory. So a contract that states too
//! little breaks a caller.
#![tactic(auto)]

mod archives;
mod arguments;
mod choosing;
mod filtering;
mod ignoring;
mod joining;
mod listing;
mod marks;
mod paths;
mod picking;
mod plans;
mod programs;
mod requests;
mod runs;
mod words;

pub use archives::{sizeless_first, sparse_first};
pub use arguments::{
    last_limit, only_operand, options_of_names, patterns_of_options, requests_help,
};
pub use choosing::chosen;
pub use filtering::{filtered, picks_excluded};
pub use ignoring::{OneFile, left_out, left_out_in_either_case, unread};
pub use joining::{empty_line, first_names_again, names_again, returned_line, unended_line};
pub use listing::{check_one, escape_of, line_before, line_of, unended_name};
pub use marks::{
    closed_by_a_flush, closed_by_a_write, closed_by_no_bytes, marked_by_no_bytes, unmarked,
};
pub use paths::{
    answered, begins_with, components_of, joined_one, kept_below, kept_separator, line_with_nul,
    parent_line, parent_of, requested_on, requested_one, requests_a_command, stated_extension,
    stated_list, unended_path, with_extension,
};
pub use picking::picked;
pub use plans::{fails_first, kept, turns};
pub use programs::{
    after_a_fault, after_success, names_silent_where_closed, names_without_arguments,
    paths_without_arguments, silent_where_closed, statuses, unreported, with_arguments, with_words,
    without_arguments,
};
pub use requests::{ends, excluded_globs, known_request, list_of_two, pattern_files};
pub use runs::{faults_match_marks, run_once, split_at_nothing};
pub use words::{known_words, splits_at_nothing, too_many_words};
