//! Paths of any platform, on any machine, without a file system.
//!
//! [`PathExt`] has the calls of std's `Path` that look at the path alone, for a
//! [`platform_str::Path`] of any platform. [`PathStyle`] states whose rules the paths of a platform
//! follow: [`platform_str::Windows`] has those of Windows, [`platform_str::Unix`] and
//! [`platform_str::Wasm`] those of Unix. What the rules are is in `path_rules`, and how paths are
//! built in `path_building`.
//!
//! Each part of a path that a call returns is a string of the path's platform, so no half of a
//! surrogate pair is ever joined to another. Calls that build a path take an allocator and return a
//! `Result`; [`from_components`] builds one of components. [`push`], [`pop`], [`set_file_name`],
//! [`set_extension`] and [`add_extension`] change an owned path in place. No other call allocates.
//! [`common_base`] takes several paths and returns a part of the first.
//!
//! An extension that is set has no separator (`path_rules::is_extension_text` tests it); no other
//! call has a precondition. A path may have a NUL, at which a system would end it;
//! only [`PathExt::as_base`], [`Base::join`], [`PathExt::join_checked`] and
//! [`PathExt::join_checked_keeping_sep`] reject it.
#![tactic(auto)]

mod ancestors;
mod base;
mod buf;
mod by_components;
mod changed;
mod collected;
mod common_bases;
mod compared;
mod component_ext;
mod components;
mod ext;
mod iter;
pub mod laws;
mod literal;
mod made;
mod prefixes;
mod reserved;
mod style;
mod styles;

pub use ancestors::Ancestors;
pub use base::Base;
pub use buf::{add_extension, pop, push, set_extension, set_file_name};
pub use by_components::ByComponents;
pub use collected::from_components;
pub use common_bases::common_base;
pub use component_ext::ComponentExt;
pub use components::Components;
pub use ext::PathExt;
pub use iter::Iter;
pub use literal::path;
pub use path_building::{
    AbsoluteError, BaseError, CommonBaseError, JoinError, NameError, NormalizeError,
};
pub use path_rules::{Component, Prefix, Style};
pub use reserved::is_reserved;
pub use style::PathStyle;
pub use styles::ConvertError;
