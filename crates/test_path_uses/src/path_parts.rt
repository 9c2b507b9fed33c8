//! Paths taken apart: what their components, parents and names have to do with each other.
ghost use Rattle.std.specs.Prelude.{◌≡◌, ◌++◌, ◌∷◌, ◌<◌, [], ℕ, List, Some, IsTrue, IfSome, MatchOption, length};
ghost use Rattle.std.specs.Option.{option_map};
ghost use Rattle.platform_str.specs.Strings.{bytes, path_bytes};
ghost use Rattle.path_rules.specs.Component.{Item, Normal};
ghost use Rattle.path_rules.specs.Components.{AreComponents};
ghost use Rattle.path_rules.specs.Parent.{IsBelow, IsParent, HasNoParent, HasFileName};

use os_path::{Components, PathExt, PathStyle};
use path_rules::laws;
use platform_str::{OsStr, Path};

/// What is left of the components after the first and the last one.
pub fn without_ends<'a, E: PathStyle + 'a>(path: Path<'a, E>) -> Components<'a, E>
    ensures { (first : Item) → (middle : List Item) → (last : Item)
        → AreComponents E.follows (path_bytes path.entry) (first ∷ (middle ++ last ∷ []))
        → result.items ≡ middle }
{
    laws::one_list();
    let mut left = path.components();
    let _ = left.next();
    let _ = left.next_back();
    left
}

/// The parent, whose components are all but the last of the path's, which is neither a prefix nor a
/// root.
pub fn parent_of<'a, E: PathStyle + 'a>(path: Path<'a, E>) -> Option<Path<'a, E>>
    ensures items { IfSome result (λ parent. (items : List Item) → (last : Item)
        → AreComponents E.follows (path_bytes path.entry) (items ++ last ∷ [])
        → AreComponents E.follows (path_bytes parent) items) }
    ensures below { IfSome result (λ _. (items : List Item) → (last : Item)
        → AreComponents E.follows (path_bytes path.entry) (items ++ last ∷ []) → IsBelow last) }
{
    laws::one_list();
    path.parent()
}

/// The first two of the ancestors: the path and its parent.
pub fn first_ancestors<'a, E: PathStyle + 'a>(
    path: Path<'a, E>,
) -> (Option<Path<'a, E>>, Option<Path<'a, E>>)
    ensures path { option_map path_bytes result.0 ≡ Some (path_bytes path.entry) }
    ensures parent { MatchOption result.1 (HasNoParent E.follows (path_bytes path.entry))
        (λ parent. IsParent E.follows (path_bytes path.entry) (path_bytes parent)) }
{
    let mut left = path.ancestors();
    let first = left.next();
    let second = left.next();
    (first, second)
}

/// Whether a path whose last component is neither a prefix nor a root has a parent: always.
pub fn has_parent<'a, E: PathStyle + 'a>(path: Path<'a, E>) -> bool
    ensures { (items : List Item) → (last : Item)
        → AreComponents E.follows (path_bytes path.entry) (items ++ last ∷ []) → IsBelow last
        → IsTrue result }
{
    path.parent().is_some()
}

/// The parent, which the path's bytes begin with, and which is shorter.
pub fn prefix_of_bytes<'a, E: PathStyle + 'a>(path: Path<'a, E>) -> Option<Path<'a, E>>
    ensures bytes { IfSome result (λ parent. (after : List ℕ)
        × (path_bytes path.entry ≡ path_bytes parent ++ after)) }
    ensures shorter { IfSome result (λ parent. length (path_bytes parent)
        < length (path_bytes path.entry)) }
{
    laws::parent_is_shorter();
    path.parent()
}

/// The parent, found twice: it is one.
pub fn parent_found_twice<'a, E: PathStyle + 'a>(
    path: Path<'a, E>,
) -> Option<(Path<'a, E>, Path<'a, E>)>
    ensures { IfSome result (λ both. path_bytes both.0 ≡ path_bytes both.1) }
{
    laws::one_parent();
    let once = path.parent()?;
    let twice = path.parent()?;
    Some((once, twice))
}

/// The last name of a path that is known to end in a name.
pub fn last_name<'a, E: PathStyle + 'a>(path: Path<'a, E>) -> Option<OsStr<'a, E>>
    ensures { (items : List Item) → (name : List ℕ)
        → AreComponents E.follows (path_bytes path.entry) (items ++ Normal name ∷ [])
        → option_map bytes result ≡ Some name }
{
    path.file_name()
}

/// The stem and the extension of the last name: with a dot between they are the name.
pub fn stem_and_extension<'a, E: PathStyle + 'a>(
    path: Path<'a, E>,
) -> Option<(OsStr<'a, E>, OsStr<'a, E>)>
    ensures { IfSome result (λ parts. HasFileName E.follows (path_bytes path.entry)
        (bytes parts.0 ++ 0x2E ∷ bytes parts.1)) }
{
    laws::one_extension();
    laws::one_file_name();
    let _components = path.components();
    let Some(stem) = path.file_stem() else {
        return None;
    };
    let Some(extension) = path.extension() else {
        return None;
    };
    Some((stem, extension))
}

/// The parent, whose units the path's units begin with: no surrogate pair is cut.
pub fn prefix_of_units<'a, E: PathStyle + 'a>(path: Path<'a, E>) -> Option<Path<'a, E>>
    ensures { IfSome result (λ parent. (units : List ℕ)
        × (E.units (path_bytes path.entry) ≡ E.units (path_bytes parent) ++ units)) }
{
    os_path::laws::cut_boundaries();
    platform_str::laws::cuts::<E>();
    let _raw = path.path_bytes();
    path.parent()
}

/// The bytes of a path, whose units, if it has a name alone, are the name's and those of what follows.
pub fn around_name<'a, E: PathStyle + 'a>(path: Path<'a, E>) -> &'a [u8]
    ensures { (name : List ℕ) → AreComponents E.follows result.now (Normal name ∷ [])
        → (after : List ℕ)
        × (E.units result.now ≡ E.units [] ++ (E.units name ++ E.units after)) }
{
    os_path::laws::component_units::<E>();
    path.path_bytes()
}
