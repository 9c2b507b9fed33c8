//! Paths that are compared by their components, without a wrapper.
ghost use Rattle.std.specs.Prelude.{◌↔◌, IsTrue};
ghost use Rattle.path_rules.specs.Compare.{HaveAlikeComponents};
ghost use Rattle.os_path.specs.Compared.{IsOrder};

use path_rules::{ByComponents, Style, laws};
use std::cmp::Ordering;

/// Whether two paths of a style have the same components.
pub(crate) fn are_equal(style: Style, path: &[u8], other: &[u8]) -> bool
    ensures { IsTrue result ↔ HaveAlikeComponents style path.now other.now }
{
    let one = ByComponents::new(style, path);
    let two = ByComponents::new(style, other);
    laws::alike_keys();
    laws::comparisons(&one, &two);
    one == two
}

/// The order of two paths of a style.
pub(crate) fn order(style: Style, path: &[u8], other: &[u8]) -> Ordering
    ensures { IsOrder style path.now other.now result }
{
    let one = ByComponents::new(style, path);
    let two = ByComponents::new(style, other);
    one.cmp(&two)
}
