//! The components of a path as strings.
ghost use Rattle.std.specs.Prelude.{◌≡◌, map};
ghost use Rattle.std.specs.Iterator.{item_count, YieldsFirstBy, YieldsLastBy};
ghost use Rattle.platform_str.specs.Strings.{bytes};
ghost use Rattle.path_building.specs.Collected.{string_of};

use crate::component_ext::as_string;
use crate::components::Components;
use crate::style::PathStyle;
use platform_str::OsStr;
use std::marker::Model;

/// The components of a path that are left, as strings, from both ends (std's `path::Iter`).
///
/// A root is the separator that is written, `/` or `\` ([`crate::ComponentExt::as_os_str`]).
#[derive(Drop)]
pub struct Iter<'a, E: PathStyle + 'a> {
    left: Components<'a, E>,
}

impl<'a, E: PathStyle> Model for Iter<'a, E> {
    ghost use Rattle.std.specs.Prelude.{List, ℕ, map};
    ghost use Rattle.path_building.specs.Collected.{string_of};

    ghost Value = { List (List ℕ) };

    ghost view = { λ it. map (string_of E.follows) it.left.items };
}

impl<'a, E: PathStyle> Iter<'a, E> {
    /// The strings of components.
    pub(crate) fn new(left: Components<'a, E>) -> Self
        ensures { result ≡ map (string_of E.follows) left.entry.items }
    {
        Iter { left }
    }
}

impl<'a, E: PathStyle> Iterator for Iter<'a, E> {
    type Item = OsStr<'a, E>;

    ghost next_gives = { YieldsFirstBy bytes (λ left. left) };

    ghost remaining = { item_count (λ left. left) };

    fn next(&mut self) -> Option<OsStr<'a, E>> {
        match self.left.next() {
            Some(component) => Some(as_string(component)),
            None => None,
        }
    }
}

impl<'a, E: PathStyle> DoubleEndedIterator for Iter<'a, E> {
    ghost next_back_gives = { YieldsLastBy bytes (λ left. left) };

    fn next_back(&mut self) -> Option<OsStr<'a, E>> {
        match self.left.next_back() {
            Some(component) => Some(as_string(component)),
            None => None,
        }
    }
}
