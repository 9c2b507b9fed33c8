//! The path and its parents.
ghost use Rattle.std.specs.Prelude.{◌≡◌, Some};
ghost use Rattle.std.specs.Iterator.{at_most};
ghost use Rattle.platform_str.specs.Strings.{path_bytes};
ghost use Rattle.os_path.specs.Ancestors.{YieldsPath, IsNextParent, paths_left};

use crate::ext::PathExt;
use crate::style::PathStyle;
use platform_str::Path;
use std::marker::Model;

/// The path and its parents, each after the path that it is the parent of (std's `Ancestors`).
#[derive(Drop)]
pub struct Ancestors<'a, E: PathStyle + 'a> {
    next: Option<Path<'a, E>>,
}

impl<'a, E: PathStyle> Model for Ancestors<'a, E> {
    ghost use Rattle.std.specs.Prelude.{List, ℕ, Option};
    ghost use Rattle.std.specs.Option.{option_map};
    ghost use Rattle.platform_str.specs.Strings.{path_bytes};

    ghost Value = { Option (List ℕ) };

    ghost view = { λ it. option_map path_bytes it.next };
}

impl<'a, E: PathStyle> Ancestors<'a, E> {
    /// The path and its parents.
    pub(crate) fn new(path: Path<'a, E>) -> Self
        ensures { result ≡ Some (path_bytes path.entry) }
    {
        Ancestors { next: Some(path) }
    }
}

impl<'a, E: PathStyle> Iterator for Ancestors<'a, E> {
    type Item = Path<'a, E>;

    ghost next_gives = { YieldsPath E.follows };

    ghost remaining = { λ left. at_most (paths_left left) };

    fn next(&mut self) -> Option<Path<'a, E>> {
        let Some(path) = self.next else {
            return None;
        };
        self.next = path.parent();
        Some(path)
    }
}
