//! Components as strings, paths that are compared without a wrapper, and reserved names.
ghost use Rattle.std.specs.Prelude.{◌≡◌, ◌↔◌, ◌∷◌, [], ℕ, List, Some, IsTrue};
ghost use Rattle.std.specs.Option.{option_map};
ghost use Rattle.platform_str.specs.Strings.{bytes, path_bytes};
ghost use Rattle.path_rules.specs.Component.{Item, Normal};
ghost use Rattle.path_rules.specs.Components.{AreComponents};
ghost use Rattle.path_rules.specs.Compare.{HaveAlikeComponents};
ghost use Rattle.path_rules.specs.Reserved.{IsReserved};
ghost use Rattle.path_rules.specs.declared.rules.Style.TheVariants as whose;
ghost use Rattle.os_path.specs.Compared.{IsOrder};
ghost use Rattle.path_building.specs.Collected.{string_of};

use os_path::{ComponentExt, PathExt, PathStyle, is_reserved};
use path_rules::laws;
use platform_str::{OsStr, Path, Windows};
use std::cmp::Ordering;

/// The first component of a path as a string, if there is one.
pub fn first_string<'a, E: PathStyle + 'a>(path: Path<'a, E>) -> Option<OsStr<'a, E>>
    ensures { (first : Item) → (others : List Item)
        → AreComponents E.follows (path_bytes path.entry) (first ∷ others)
        → option_map bytes result ≡ Some (string_of E.follows first) }
{
    laws::one_list();
    let mut left = path.iter();
    left.next()
}

/// The first component of a path as a string, as [`first_string`], but read from the component.
pub fn first_component<'a, E: PathStyle + 'a>(path: Path<'a, E>) -> Option<OsStr<'a, E>>
    ensures { (first : Item) → (others : List Item)
        → AreComponents E.follows (path_bytes path.entry) (first ∷ others)
        → option_map bytes result ≡ Some (string_of E.follows first) }
{
    laws::one_list();
    let mut left = path.components();
    match left.next() {
        Some(first) => Some(first.as_os_str()),
        None => None,
    }
}

/// Whether a path of one name has a reserved name: exactly if the name is reserved.
pub fn is_reserved_alone(path: Path<'_, Windows>) -> bool
    ensures { (name : List ℕ) → AreComponents whose.Windows (path_bytes path.entry)
        (Normal name ∷ []) → IsReserved name → IsTrue result }
{
    path.is_reserved()
}

/// Whether a name is reserved.
pub fn is_reserved_name<'a, E: PathStyle + 'a>(name: OsStr<'a, E>) -> bool
    ensures { IsTrue result ↔ IsReserved (bytes name.entry) }
{
    is_reserved(name)
}

/// Whether two paths are equal: exactly if their components are alike.
pub fn are_equal<'a, E: PathStyle + 'a>(one: Path<'a, E>, other: Path<'a, E>) -> bool
    ensures { IsTrue result
        ↔ HaveAlikeComponents E.follows (path_bytes one.entry) (path_bytes other.entry) }
{
    one.equals(other)
}

/// The order of two paths.
pub fn order<'a, E: PathStyle + 'a>(one: Path<'a, E>, other: Path<'a, E>) -> Ordering
    ensures { IsOrder E.follows (path_bytes one.entry) (path_bytes other.entry) result }
{
    one.compare(other)
}
