//! Paths built from other paths, by the rules of Unix and of Windows, without a file system.
//!
//! [`join`] and [`push`] append a path to another. A [`Base`] appends it only if it stays below, and
//! else reports why not; [`join_checked`] does so in one call, and [`join_checked_keeping_sep`] keeps
//! the separator of a directory. [`with_file_name`], [`with_file_stem`] and [`with_extension`] change the last name,
//! and [`set_file_name`] and [`set_extension`] do so in place. [`with_trailing_sep`] adds a
//! separator at the end of a path, and [`relative_from`] returns the path relative to a base.
//! [`with_style`] returns a path in the other style, and [`normalize`] and [`clean`] its normal
//! form and its clean form. [`from_components`] returns the path of components, and [`absolute`] an
//! absolute path. How a path is read is in `path_rules`.
//!
//! Paths are bytes here too, in no encoding, and may have a NUL, at which a system would end them:
//! only [`Base`], [`join_checked`] and [`join_checked_keeping_sep`] reject it. They resolve `..`,
//! and so do [`normalize`], [`clean`], on Windows [`absolute`], and a join to a path that begins with
//! `\\?\`. [`relative_from`] keeps each `..` of the path. It resolves only a path that begins with
//! `\\?\` and is returned whole, relative to an absolute base.
//!
//! Each call but [`Base::new`] and the two of a common base allocates, with an allocator
//! that it is given or that the vector has. Each returns a `Result`; at `Err` a vector is unchanged.
//! Only an extension ([`path_rules::is_extension_text`]) and the base of [`common_base_with`] have
//! a precondition.
#![tactic(auto)]

mod base;
mod beginning;
mod checked;
mod checked_ends;
mod cleaning;
mod collected;
mod common_bases;
mod error_text;
mod file_names;
mod file_stems;
mod full_paths;
mod joining;
pub mod laws;
mod normal;
mod relative;
mod resolving;
mod styles;
mod trailing;
mod walk;
mod writing;

pub use base::{Base, BaseError};
pub use checked::{JoinError, join_checked};
pub use checked_ends::join_checked_keeping_sep;
pub use cleaning::clean;
pub use collected::from_components;
pub use common_bases::{CommonBaseError, common_base, common_base_with};
pub use file_names::{
    add_extension, set_extension, set_file_name, with_added_extension, with_extension,
    with_file_name,
};
pub use file_stems::with_file_stem;
pub use full_paths::{AbsoluteError, absolute};
pub use joining::{join, push};
pub use normal::{NormalizeError, normalize};
pub use relative::relative_from;
pub use styles::{StyleError, with_style};
pub use trailing::with_trailing_sep;
pub use walk::NameError;
