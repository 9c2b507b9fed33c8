//! Paths that are changed in place; where memory is refused they are as they were.
ghost use Rattle.std.specs.Prelude.{◌≡◌, ◌≢◌, ◌++◌, ◌∷◌, [], ℕ, List, false, IsTrue, IfOk, OnErr, OnOk};
ghost use Rattle.platform_str.specs.Strings.{bytes, path_bytes, path_vec_of};
ghost use Rattle.path_rules.specs.Component.{Item};
ghost use Rattle.path_rules.specs.Components.{AreComponents};
ghost use Rattle.path_rules.specs.Name.{IsExtensionText};
ghost use Rattle.path_rules.specs.Parent.{IsBelow, HasFileName};
ghost use Rattle.os_path.specs.Names.{HasFileStem};
ghost use Rattle.path_building.specs.Join.{IsJoin};
ghost use Rattle.test_path_uses.specs.Renamed.{IsRenamed, IsExtendedAfter};

use os_path::{PathStyle, add_extension, pop, push, set_extension, set_file_name};
use path_building::laws as building;
use path_rules::{is_extension_text, laws};
use platform_str::{OsStr, Path, PathBuf, Unix};
use std::alloc::{AllocError, Allocator};

/// Takes the last component away, which it does unless that is a prefix or a root.
pub fn popped<E: PathStyle, A: Allocator>(path: &mut PathBuf<E, A>) -> bool
    ensures taken { IsTrue result → (items : List Item) → (last : Item)
        → AreComponents E.follows (path_vec_of path.old).items (items ++ last ∷ [])
        → AreComponents E.follows (path_vec_of path.new).items items }
    ensures always { (items : List Item) → (last : Item)
        → AreComponents E.follows (path_vec_of path.old).items (items ++ last ∷ [])
        → IsBelow last → IsTrue result }
    ensures kept { result ≡ false → (path_vec_of path.new).items ≡ (path_vec_of path.old).items }
{
    laws::one_list();
    pop(path)
}

/// Appends a path, which gives the one path that the two are joined.
pub fn pushed<E: PathStyle, A: Allocator + Copy>(
    path: &mut PathBuf<E, A>,
    more: Path<'_, E>,
) -> Result<(), AllocError>
    ensures joined { OnOk result ((joined : List ℕ)
        → IsJoin E.follows (path_vec_of path.old).items (path_bytes more.entry) joined
        → (path_vec_of path.new).items ≡ joined) }
    ensures kept { OnErr result ((path_vec_of path.new).items ≡ (path_vec_of path.old).items) }
{
    building::one_join();
    push(path, more)
}

/// Replaces the last name of a Unix path by a string that alone is a name.
pub fn named<A: Allocator + Copy>(
    path: &mut PathBuf<Unix, A>,
    name: OsStr<'_, Unix>,
) -> Result<(), AllocError>
    ensures named { OnOk result (IsRenamed (path_vec_of path.old).items (bytes name.entry)
        (path_vec_of path.new).items) }
    ensures kept { OnErr result ((path_vec_of path.new).items ≡ (path_vec_of path.old).items) }
{
    laws::one_list();
    building::join_components();
    set_file_name(path, name)
}

/// Gives the last name another extension, which follows the stem.
pub fn extended<E: PathStyle, A: Allocator>(
    path: &mut PathBuf<E, A>,
    extension: OsStr<'_, E>,
) -> Result<bool, AllocError>
    requires { IsExtensionText E.follows (bytes extension) }
    ensures stem { IfOk result (λ is_set. IsTrue is_set → (stem : List ℕ)
        → HasFileStem E.follows (path_vec_of path.old).items stem
        → IsExtendedAfter (path_vec_of path.old).items stem (bytes extension.entry)
        (path_vec_of path.new).items) }
    ensures always { IfOk result (λ is_set. (items : List Item) → (name : List ℕ)
        → AreComponents E.follows (path_vec_of path.old).items items
        → HasFileName E.follows (path_vec_of path.old).items name → IsTrue is_set) }
    ensures kept { IfOk result (λ is_set. is_set ≡ false
        → (path_vec_of path.new).items ≡ (path_vec_of path.old).items) }
    ensures refused { OnErr result ((path_vec_of path.new).items ≡ (path_vec_of path.old).items) }
{
    laws::one_extension();
    set_extension(path, extension)
}

/// Appends an extension to the last name.
pub fn extended_again<E: PathStyle, A: Allocator>(
    path: &mut PathBuf<E, A>,
    extension: OsStr<'_, E>,
) -> Result<bool, AllocError>
    requires { IsExtensionText E.follows (bytes extension) }
    ensures name { IfOk result (λ is_added. IsTrue is_added → bytes extension.entry ≢ []
        → (name : List ℕ) → HasFileName E.follows (path_vec_of path.old).items name
        → IsExtendedAfter (path_vec_of path.old).items name (bytes extension.entry)
        (path_vec_of path.new).items) }
    ensures always { IfOk result (λ is_added. (items : List Item) → (name : List ℕ)
        → AreComponents E.follows (path_vec_of path.old).items items
        → HasFileName E.follows (path_vec_of path.old).items name → IsTrue is_added) }
    ensures kept { IfOk result (λ is_added. is_added ≡ false
        → (path_vec_of path.new).items ≡ (path_vec_of path.old).items) }
    ensures refused { OnErr result ((path_vec_of path.new).items ≡ (path_vec_of path.old).items) }
{
    add_extension(path, extension)
}

/// Replaces the extension of the last name, if the test finds that no byte of it separates. The
/// call has no precondition.
pub fn extended_by_any<E: PathStyle, A: Allocator>(
    path: &mut PathBuf<E, A>,
    extension: OsStr<'_, E>,
) -> Result<bool, AllocError> {
    if is_extension_text(E::style(), extension.as_encoded_bytes()) {
        return set_extension(path, extension);
    }
    Ok(false)
}
