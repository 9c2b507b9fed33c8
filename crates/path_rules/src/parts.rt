//! The parts of a path, for crates that build paths from them.
//!
//! [`head_of`] returns the parts of a path: its prefix, what it starts with after that, and its
//! body. [`next_in`] and [`last_in`] find components in a body. [`component_of`] returns the
//! component that a part between separators is. [`is_verbatim`], [`has_single_separators`],
//! [`begins_with_separator`] and [`are_alike`] test a prefix, what follows it, a path and two
//! components, as a join, a base, a clean form and a comparison require.
pub use crate::body::{last_in, next_in};
pub use crate::compare::are_alike;
pub use crate::component::component_of;
pub use crate::head::{Head, Start, head_of};
pub use crate::parsed::Parsed;
pub use crate::prefix::is_verbatim;
pub use crate::root::begins_with_separator;
pub use crate::simplify::has_single_separators;
