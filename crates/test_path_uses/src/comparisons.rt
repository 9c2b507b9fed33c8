//! Paths compared, component by component.
ghost use Rattle.std.specs.Prelude.{◌≡◌, ◌++◌, ◌↔◌, ℕ, List, IsTrue};
ghost use Rattle.platform_str.specs.Strings.{path_bytes};
ghost use Rattle.path_rules.specs.Component.{Item};
ghost use Rattle.path_rules.specs.Components.{AreComponents, AreUnixComponents};
ghost use Rattle.path_rules.specs.Compare.{StartsAlike, EndsAlike, HaveAlikeComponents};
ghost use Rattle.path_rules.specs.Keys.{HasKeys, keys_cmp};

use os_path::{ByComponents, PathExt, PathStyle};
use path_rules::laws;
use platform_str::{Path, Unix};
use std::cmp::Ordering;

/// Whether a path starts with another: exactly if its first components are alike the other's.
pub fn starts<'a, E: PathStyle + 'a>(path: Path<'a, E>, base: Path<'a, E>) -> bool
    ensures { (items : List Item) → (first : List Item)
        → AreComponents E.follows (path_bytes path.entry) items
        → AreComponents E.follows (path_bytes base.entry) first
        → IsTrue result ↔ StartsAlike items first }
{
    laws::starts_and_ends();
    path.starts_with(base)
}

/// Whether a path ends with another: exactly if its last components are alike the other's.
pub fn ends<'a, E: PathStyle + 'a>(path: Path<'a, E>, child: Path<'a, E>) -> bool
    ensures { (items : List Item) → (last : List Item)
        → AreComponents E.follows (path_bytes path.entry) items
        → AreComponents E.follows (path_bytes child.entry) last
        → IsTrue result ↔ EndsAlike items last }
{
    laws::starts_and_ends();
    path.ends_with(child)
}

/// Whether a path of Unix starts with another: exactly if its first components are the other's.
pub fn starts_on_unix(path: Path<'_, Unix>, base: Path<'_, Unix>) -> bool
    ensures { (items : List Item) → (first : List Item)
        → AreUnixComponents (path_bytes path.entry) items
        → AreUnixComponents (path_bytes base.entry) first
        → IsTrue result ↔ ((more : List Item) × (items ≡ first ++ more)) }
{
    laws::starts_and_ends();
    path.starts_with(base)
}

/// Whether a path has a rest after a base exactly if it starts with it: always.
pub fn strips_as_starts<'a, E: PathStyle + 'a>(path: Path<'a, E>, base: Path<'a, E>) -> bool
    ensures { IsTrue result }
{
    path.strip_prefix(base).is_some() == path.starts_with(base)
}

/// Whether two paths are equal by their components: exactly if these are alike.
pub fn are_equal<'a, E: PathStyle + 'a>(path: Path<'a, E>, other: Path<'a, E>) -> bool
    ensures { IsTrue result ↔ HaveAlikeComponents E.follows (path_bytes path.entry)
        (path_bytes other.entry) }
{
    laws::alike_keys();
    let (path, other) = (ByComponents::new(path), ByComponents::new(other));
    os_path::laws::comparisons(&path, &other);
    path == other
}

/// How two paths are ordered by their components: as lists of keys, where these are known.
pub fn order<'a, E: PathStyle + 'a>(path: Path<'a, E>, other: Path<'a, E>) -> Ordering
    ensures { (keys : List (List ℕ)) → (others : List (List ℕ))
        → HasKeys E.follows (path_bytes path.entry) keys
        → HasKeys E.follows (path_bytes other.entry) others → result ≡ keys_cmp keys others }
{
    laws::alike_keys();
    let (path, other) = (ByComponents::new(path), ByComponents::new(other));
    os_path::laws::comparisons(&path, &other);
    path.cmp(&other)
}
