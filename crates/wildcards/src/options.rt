//! How the components of a path are matched.
use crate::separators::Separators;

/// How the components of a path are matched.
#[derive(Clone, Copy, PartialEq, Eq)]
pub struct Options {
    /// Which characters are separators.
    pub separators: Separators,
    /// Whether a dot at the start of a component is only matched by a literal dot.
    pub literal_leading_dot: bool,
}
