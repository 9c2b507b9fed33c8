//! Callers of the exports, which show that wrong bodies are rejected.
//!
//! Each is proved from the contract of an export alone, and its own contract would be false with a
//! wrong body. A contract that let the body through would leave the caller unproved. A caller that
//! tests for another status than `DONE` uses its number, as C sees it, since a name would follow a
//! wrong constant.

use crate::strings::fault::Fault;

/// What an export counts where it has no room for what it writes; `None` if it writes nothing.
macro_rules! count_of {
    ($export:ident($($argument:expr),*) $(, $report:expr)*) => {{
        let mut count = 0;
        match $export($($argument),*, &mut [], &mut count $(, $report)*) {
            0 | 2 => Some(count),
            _ => None,
        }
    }};
}

/// The number of bytes that an export has written into a buffer; else its status.
macro_rules! len_of {
    ($export:ident($($argument:expr),*) $(, $report:expr)*) => {{
        let mut len = 0;
        match $export($($argument),*, &mut len $(, $report)*) {
            0 => Ok(len),
            status => Err(status),
        }
    }};
}

/// Whether a status of an export means yes (0) or no (3); `None` if it is another.
macro_rules! answer_of {
    ($status:expr) => {
        match $status {
            0 => Some(true),
            3 => Some(false),
            _ => None,
        }
    };
}

pub(crate) use answer_of;
pub(crate) use count_of;
pub(crate) use len_of;

pub mod fills;
pub mod globs;
pub mod ignores;
pub mod lines;
pub mod path_parts;
pub mod paths;
pub mod strings;
pub mod walks;

/// What no fault was written to.
fn no_fault() -> Fault {
    Fault {
        kind: 0,
        value: 0,
        index: 0,
        count: 0,
    }
}
