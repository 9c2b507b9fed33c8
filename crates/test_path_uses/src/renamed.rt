//! Paths with another last name or extension, in new memory.
ghost use Rattle.std.specs.Prelude.{◌≡◌, ◌≢◌, [], ℕ, List, IfOk};
ghost use Rattle.platform_str.specs.Strings.{bytes, path_bytes, path_vec_of};
ghost use Rattle.path_rules.specs.Component.{Item};
ghost use Rattle.path_rules.specs.Components.{AreComponents};
ghost use Rattle.path_rules.specs.Name.{IsExtensionText};
ghost use Rattle.path_building.specs.FileStem.{IsStemSet};
ghost use Rattle.path_rules.specs.Parent.{HasFileName, HasNoFileName};
ghost use Rattle.os_path.specs.Names.{HasFileStem};
ghost use Rattle.test_path_uses.specs.Renamed.{IsRenamed, IsExtendedAfter};

use os_path::{PathExt, PathStyle};
use path_building::laws as building;
use path_rules::laws;
use platform_str::{OsStr, Path, PathBuf, Unix};
use std::alloc::{AllocError, Allocator};

/// A Unix path with its last name replaced by a string that alone is a name.
pub fn with_name<A: Allocator + Copy>(
    alloc: A,
    path: Path<'_, Unix>,
    name: OsStr<'_, Unix>,
) -> Result<PathBuf<Unix, A>, AllocError>
    ensures { IfOk result (λ named. IsRenamed (path_bytes path.entry) (bytes name.entry)
        (path_vec_of named).items) }
{
    laws::one_list();
    building::join_components();
    path.with_file_name(alloc, name)
}

/// A path with another extension of its last name, which follows the stem; a path without a last
/// name is kept.
pub fn with_extension<'a, E: PathStyle + 'a, A: Allocator + Copy>(
    alloc: A,
    path: Path<'a, E>,
    extension: OsStr<'a, E>,
) -> Result<PathBuf<E, A>, AllocError>
    requires { IsExtensionText E.follows (bytes extension) }
    ensures stem { IfOk result (λ made. (items : List Item) → (stem : List ℕ)
        → AreComponents E.follows (path_bytes path.entry) items
        → HasFileStem E.follows (path_bytes path.entry) stem
        → IsExtendedAfter (path_bytes path.entry) stem (bytes extension.entry)
        (path_vec_of made).items) }
    ensures kept { IfOk result (λ made. HasNoFileName E.follows (path_bytes path.entry)
        → (path_vec_of made).items ≡ path_bytes path.entry) }
{
    laws::one_extension();
    path.with_extension(alloc, extension)
}

/// A path with an extension after its last name; a path without one is kept.
pub fn with_another<'a, E: PathStyle + 'a, A: Allocator + Copy>(
    alloc: A,
    path: Path<'a, E>,
    extension: OsStr<'a, E>,
) -> Result<PathBuf<E, A>, AllocError>
    requires { IsExtensionText E.follows (bytes extension) }
    ensures name { IfOk result (λ made. (items : List Item) → (name : List ℕ)
        → bytes extension.entry ≢ [] → AreComponents E.follows (path_bytes path.entry) items
        → HasFileName E.follows (path_bytes path.entry) name
        → IsExtendedAfter (path_bytes path.entry) name (bytes extension.entry)
        (path_vec_of made).items) }
    ensures kept { IfOk result (λ made. HasNoFileName E.follows (path_bytes path.entry)
        → (path_vec_of made).items ≡ path_bytes path.entry) }
{
    path.with_added_extension(alloc, extension)
}

/// A path with another stem of its last name, which has what comes after its own stem; a path
/// without a last name is kept.
pub fn with_stem<'a, E: PathStyle + 'a, A: Allocator + Copy>(
    alloc: A,
    path: Path<'a, E>,
    stem: OsStr<'a, E>,
) -> Result<PathBuf<E, A>, AllocError>
    ensures set { IfOk result (λ made. IsStemSet E.follows (path_bytes path.entry)
        (bytes stem.entry) (path_vec_of made).items) }
    ensures kept { IfOk result (λ made. HasNoFileName E.follows (path_bytes path.entry)
        → (path_vec_of made).items ≡ path_bytes path.entry) }
{
    path.with_file_stem(alloc, stem)
}

/// A path with another stem of its last name, made twice: the same bytes.
pub fn with_stem_twice<'a, E: PathStyle + 'a, A: Allocator + Copy>(
    alloc: A,
    path: Path<'a, E>,
    stem: OsStr<'a, E>,
) -> Result<(PathBuf<E, A>, PathBuf<E, A>), AllocError>
    ensures { IfOk result (λ both. (path_vec_of both.0).items ≡ (path_vec_of both.1).items) }
{
    building::one_result();
    let one = path.with_file_stem(alloc, stem)?;
    let other = path.with_file_stem(alloc, stem)?;
    Ok((one, other))
}
