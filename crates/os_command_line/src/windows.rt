//! Command lines of Windows: program's names and arguments, read and written.
//!
//! A Windows program gets one command line, a string of 16-bit units, and splits it itself. These
//! calls read it as the C runtime of 2008 and later does (Microsoft, "Parsing C command-line
//! arguments"), which is how Rust's std reads it, too. `CommandLineToArgvW` reads some lines
//! differently ([`Arguments`]).

mod argument;
mod arguments;
mod batch;
mod checks;
mod cuts;
mod error;
pub mod laws;
mod owned;
mod pieces;
mod place;
mod scan;
mod units;
mod writing;

pub use argument::Argument;
pub use arguments::Arguments;
pub use batch::needs_cmd;
pub use error::CommandLineError;
pub use units::ArgumentUnits;
pub use writing::{command_line, push_argument};
