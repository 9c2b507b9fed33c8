//! Paths joined and checked: nothing that is let through leaves the base.
ghost use Rattle.std.specs.Prelude.{◌≡◌, ◌++◌, ℕ, List, IfErr, IfOk, IfSome, IsErr};
ghost use Rattle.platform_str.specs.Strings.{path_bytes, path_vec_of};
ghost use Rattle.os_path.specs.Bases.{path_of_base};
ghost use Rattle.path_rules.specs.Component.{Item};
ghost use Rattle.path_rules.specs.Components.{AreComponents};
ghost use Rattle.path_building.specs.Normalized.{IsNormalForm};
ghost use Rattle.path_rules.specs.Prefix.{IsPrefixed};
ghost use Rattle.path_rules.specs.Root.{BeginsWithSeparator};
ghost use Rattle.path_rules.specs.StyleRules.{rules_of_style};
ghost use Rattle.path_rules.specs.declared.rules.Style.TheVariants as style;
ghost use Rattle.path_building.specs.Written.{IsPathOf};
ghost use Rattle.path_building.specs.Base.{HasNoNul, HasReservedName, IsBase, IsFirstNul, LacksPart, own_root};
ghost use Rattle.path_rules.specs.Trailing.{EndsWithSeparator};
ghost use Rattle.path_building.specs.Trailing.{IsWithTrailingSep};
ghost use Rattle.path_building.specs.declared.walk.NameError.TheVariants as name_error;
ghost use Rattle.path_building.specs.Checked.{AreCheckedNames, BeginsBelow, IsBelowBase, IsCheckedJoin};
ghost use Rattle.path_building.specs.Faults.{HasFault, IsReservedName, IsStream, Leaves};

use os_path::{Base, JoinError, NameError, PathExt, PathStyle};
use path_building::laws as building;
use path_rules::laws;
use platform_str::{Path, PathBuf, Unix, Windows};
use std::alloc::Allocator;

/// A file of an archive below a folder: it has the folder's components, and after them names alone.
pub fn unpacked<'a, E: PathStyle + 'a, A: Allocator + Copy>(
    alloc: A,
    folder: Path<'a, E>,
    name: Path<'a, E>,
) -> Result<PathBuf<E, A>, JoinError>
    ensures { IfOk result (λ file. IsBelowBase E.follows (path_bytes folder.entry)
        (path_vec_of file).items) }
{
    folder.join_checked(alloc, name)
}

/// A file of an archive below a folder on Windows, as [`unpacked`].
pub fn unpacked_on_windows<A: Allocator + Copy>(
    alloc: A,
    folder: Path<'_, Windows>,
    name: Path<'_, Windows>,
) -> Result<PathBuf<Windows, A>, JoinError>
    ensures { IfOk result (λ file. IsBelowBase style.Windows (path_bytes folder.entry)
        (path_vec_of file).items) }
{
    folder.join_checked(alloc, name)
}

/// A file of an archive below a folder on Unix, as [`unpacked`].
pub fn unpacked_on_unix<A: Allocator + Copy>(
    alloc: A,
    folder: Path<'_, Unix>,
    name: Path<'_, Unix>,
) -> Result<PathBuf<Unix, A>, JoinError>
    ensures { IfOk result (λ file. IsBelowBase style.Unix (path_bytes folder.entry)
        (path_vec_of file).items) }
{
    folder.join_checked(alloc, name)
}

/// A directory of an archive below a folder: it is below it, and has a separator at its end if the
/// name has one, as far as a separator is written there.
pub fn unpacked_directory<'a, E: PathStyle + 'a, A: Allocator + Copy>(
    alloc: A,
    folder: Path<'a, E>,
    name: Path<'a, E>,
) -> Result<PathBuf<E, A>, JoinError>
    ensures below { IfOk result (λ directory. IsBelowBase E.follows (path_bytes folder.entry)
        (path_vec_of directory).items) }
    ensures ended { IfOk result (λ directory.
        EndsWithSeparator (rules_of_style E.follows) (path_bytes name.entry) → (file : List ℕ)
        × (IsCheckedJoin E.follows (path_bytes folder.entry) (path_bytes name.entry) file
        × IsWithTrailingSep E.follows file (path_vec_of directory).items)) }
{
    folder.join_checked_keeping_sep(alloc, name)
}

/// A path below a base: normalized, it begins with the base's normal form, and it has a normal form
/// wherever the base has one.
pub fn below<'a, E: PathStyle + 'a, A: Allocator + Copy>(
    alloc: A,
    base: Path<'a, E>,
    path: Path<'a, E>,
) -> Result<PathBuf<E, A>, JoinError>
    ensures begins { IfOk result (λ joined. (items : List Item) → (more : List Item)
        → (normal : List Item) → AreComponents E.follows (path_bytes base.entry) items
        → AreComponents E.follows (path_vec_of joined).items more → IsNormalForm more normal
        → BeginsBelow items normal) }
    ensures stays { IfOk result (λ joined. (items : List Item) → (more : List Item)
        → (left : List Item) → AreComponents E.follows (path_bytes base.entry) items
        → AreComponents E.follows (path_vec_of joined).items more → IsNormalForm items left
        → (names : List Item) × IsNormalForm more (left ++ names)) }
{
    building::joined_below();
    base.join_checked(alloc, path)
}

/// A path below a base has no NUL: what takes it as a string of C takes all of it.
pub fn whole_below<'a, E: PathStyle + 'a, A: Allocator + Copy>(
    alloc: A,
    base: Path<'a, E>,
    path: Path<'a, E>,
) -> Result<PathBuf<E, A>, JoinError>
    ensures { IfOk result (λ joined. HasNoNul (path_vec_of joined).items) }
{
    building::joined_below();
    base.join_checked(alloc, path)
}

/// A path whose names are checked, below a base that is a place of its own: it is let through unless
/// memory is refused, and is the base's components and then these names, written with the main
/// separator.
pub fn let_through<'a, E: PathStyle + 'a, A: Allocator + Copy>(
    alloc: A,
    base: Path<'a, E>,
    path: Path<'a, E>,
) -> Result<PathBuf<E, A>, JoinError>
    ensures ok { IfOk result (λ joined. (items : List Item) → (names : List Item)
        → AreComponents E.follows (path_bytes base.entry) items
        → AreCheckedNames E.follows (path_bytes path.entry) names
        → IsPathOf E.follows (items ++ (own_root items ++ names)) (path_vec_of joined).items) }
    ensures err { IfErr result (λ error. (names : List Item)
        → AreCheckedNames E.follows (path_bytes path.entry) names
        → IsBase E.follows (path_bytes base.entry) → error ≡ JoinError.Name name_error.Memory) }
{
    laws::one_list();
    building::normal_forms();
    base.join_checked(alloc, path)
}

/// Rejects each path that has a NUL, a prefix, a root, a stream's colon or a reserved name, or that
/// leads out of the base. Rejects any path if the base has a NUL or a reserved name, or is incomplete.
pub fn refused<'a, E: PathStyle + 'a, A: Allocator + Copy>(
    alloc: A,
    base: Path<'a, E>,
    path: Path<'a, E>,
) -> Result<PathBuf<E, A>, JoinError>
    ensures nul { (index : ℕ) → IsFirstNul (path_bytes path.entry) index → IsErr result }
    ensures base_nul { (index : ℕ) → IsFirstNul (path_bytes base.entry) index → IsErr result }
    ensures base { LacksPart E.follows (path_bytes base.entry) → IsErr result }
    ensures base_name { HasReservedName E.follows (path_bytes base.entry) → IsErr result }
    ensures prefix { IsPrefixed E.follows (path_bytes path.entry) → IsErr result }
    ensures root { BeginsWithSeparator (rules_of_style E.follows) (path_bytes path.entry)
        → IsErr result }
    ensures stream { (index : ℕ)
        → HasFault E.follows (path_bytes path.entry) index (IsStream E.follows) → IsErr result }
    ensures out { (index : ℕ) → HasFault E.follows (path_bytes path.entry) index Leaves
        → IsErr result }
    ensures reserved { (index : ℕ)
        → HasFault E.follows (path_bytes path.entry) index (IsReservedName E.follows)
        → IsErr result }
{
    laws::one_list();
    base.join_checked(alloc, path)
}

/// The index at which a path is rejected for its NUL: of its first NUL.
pub fn nul_index<'a, E: PathStyle + 'a, A: Allocator + Copy>(
    alloc: A,
    base: Path<'a, E>,
    path: Path<'a, E>,
) -> Option<usize>
    ensures { IfSome result (λ index. IsFirstNul (path_bytes path.entry) index) }
{
    match base.join_checked(alloc, path) {
        Err(JoinError::Name(NameError::Nul(index))) => Some(index),
        _ => None,
    }
}

/// Names of an archive below a folder that is tested once: how many are put below it.
pub fn unpacked_names<'a, E: PathStyle + 'a, A: Allocator + Copy>(
    alloc: A,
    base: Base<'a, E>,
    name: Path<'a, E>,
) -> Result<PathBuf<E, A>, NameError>
    ensures { IfOk result (λ file. IsBelowBase E.follows (path_of_base base.entry)
        (path_vec_of file).items) }
{
    base.join(alloc, name)
}
