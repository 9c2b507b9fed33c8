//! Parses paths by the rules of Unix and of Windows, without a file system.
//!
//! A [`Style`] selects the rules that a path follows. Both styles are available on any machine.
//!
//! - [`Components`] iterates over the components of a path from both ends.
//! - [`parent`] and [`file_name`] split off the last component.
//! - [`stem`], [`extension`] and [`name_prefix`] divide a name at its dots.
//! - [`starts_with`] and [`ends_with`] compare components.
//! - [`windows_prefix`] parses the prefix of a Windows path, as std documents `Prefix`.
//! - [`is_reserved`] tests for the names that Windows reserves.
//!
//! Paths are bytes here, in no encoding, since the rules examine only ASCII bytes. Each part that a
//! call returns is cut at an end of the path or beside an ASCII byte. POSIX (4.13) and "Naming
//! Files, Paths, and Namespaces" define the components of a path. An empty part names nothing, and
//! neither does `.`, with two exceptions: it is a component at the start of a path without a root
//! or a prefix, and after `\\?\`. `..` is a component, and no call here resolves it.
//!
//! No call allocates, and none has a precondition. The crate `path_building` builds paths, and
//! takes them apart with [`parts`].
#![tactic(auto)]

mod body;
mod by_components;
mod compare;
mod component;
mod components;
mod head;
mod lanes;
pub mod laws;
mod name_parts;
mod parents;
mod parsed;
pub mod parts;
mod prefix;
mod reserved;
mod root;
mod rules;
mod shared;
mod simplify;
mod stripped;
mod trailing;

pub use by_components::ByComponents;
pub use compare::{ends_with, starts_with};
pub use component::Component;
pub use components::Components;
pub use name_parts::{extension, is_extension_text, name_prefix, split_extension, stem};
pub use parents::{file_name, parent};
pub use prefix::{Prefix, windows_prefix};
pub use reserved::is_reserved;
pub use root::{has_root, is_absolute};
pub use rules::{Rules, Style};
pub use simplify::simplified;
pub use stripped::{end_trimmed, strip_prefix};
pub use trailing::{has_trailing_sep, trim_trailing_sep};
