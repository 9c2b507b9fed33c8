//! Command lines: words of shells, and those of Windows.
//!
//! [`shell`] and [`powershell`] write words of a shell, and [`shell_words`] reads lines of them.
//! [`windows_quote`], [`windows_name`] and [`windows_arguments`] handle command lines of Windows.

pub mod powershell;
mod push_unit;
pub mod shell;
pub mod shell_words;
pub mod windows_arguments;
pub mod windows_name;
pub mod windows_quote;
