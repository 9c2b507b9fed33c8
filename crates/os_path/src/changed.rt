//! Paths of a platform that are changed in place: each stays a string of it.
ghost use Rattle.std.specs.Prelude.{◌≡◌, false, IsTrue, IfOk, OnOk, OnErr};
ghost use Rattle.platform_str.specs.Strings.{bytes, path_bytes, path_vec_of};
ghost use Rattle.path_rules.specs.Parent.{IsParent, HasNoParent};
ghost use Rattle.path_building.specs.Join.{IsJoin};
ghost use Rattle.path_building.specs.FileName.{IsNamed, IsExtensionSet, IsExtensionAdded};
ghost use Rattle.path_rules.specs.Name.{IsExtensionText};

use crate::made::path_of;
use crate::style::PathStyle;
use platform_str::{OsStr, Path, PathBuf};
use std::alloc::{AllocError, Allocator};

/// The path after a path was pushed, and whether it could be.
pub(crate) fn pushed<E: PathStyle, A: Allocator + Clone>(
    path: PathBuf<E, A>,
    more: Path<'_, E>,
) -> (PathBuf<E, A>, Result<(), AllocError>)
    ensures ok { OnOk result.1 (IsJoin E.follows (path_vec_of path).items (path_bytes more.entry)
        (path_vec_of result.0).items) }
    ensures err { OnErr result.1 ((path_vec_of result.0).items ≡ (path_vec_of path).items) }
{
    let mut vec = path.into_os_string().into_encoded_bytes();
    let outcome = path_building::push(E::style(), &mut vec, more.as_os_str().as_encoded_bytes());
    (path_of(vec), outcome)
}

/// The path without its last component, and whether it had a parent.
pub(crate) fn popped<E: PathStyle, A: Allocator>(
    path: PathBuf<E, A>,
    _nothing: (),
) -> (PathBuf<E, A>, bool)
    ensures some { IsTrue result.1
        → IsParent E.follows (path_vec_of path).items (path_vec_of result.0).items }
    ensures none { result.1 ≡ false → HasNoParent E.follows (path_vec_of path).items
        × ((path_vec_of result.0).items ≡ (path_vec_of path).items) }
{
    let mut vec = path.into_os_string().into_encoded_bytes();
    let Some(parent) = path_rules::parent(E::style(), vec.as_slice()) else {
        return (path_of(vec), false);
    };
    let len = parent.len();
    vec.truncate(len);
    (path_of(vec), true)
}

/// The path with another last name, and whether it could get it.
pub(crate) fn named<E: PathStyle, A: Allocator + Clone>(
    path: PathBuf<E, A>,
    name: OsStr<'_, E>,
) -> (PathBuf<E, A>, Result<(), AllocError>)
    ensures ok { OnOk result.1 (IsNamed E.follows (path_vec_of path).items (bytes name.entry)
        (path_vec_of result.0).items) }
    ensures err { OnErr result.1 ((path_vec_of result.0).items ≡ (path_vec_of path).items) }
{
    let mut vec = path.into_os_string().into_encoded_bytes();
    let outcome = path_building::set_file_name(E::style(), &mut vec, name.as_encoded_bytes());
    (path_of(vec), outcome)
}

/// The path with another extension, and whether it has a last name.
pub(crate) fn with_extension_set<E: PathStyle, A: Allocator>(
    path: PathBuf<E, A>,
    extension: OsStr<'_, E>,
) -> (PathBuf<E, A>, Result<bool, AllocError>)
    requires { IsExtensionText E.follows (bytes extension) }
    ensures ok { IfOk result.1 (λ is_set. IsExtensionSet E.follows (path_vec_of path).items
        (bytes extension.entry) (path_vec_of result.0).items is_set) }
    ensures err { OnErr result.1 ((path_vec_of result.0).items ≡ (path_vec_of path).items) }
{
    let mut vec = path.into_os_string().into_encoded_bytes();
    let outcome = path_building::set_extension(E::style(), &mut vec, extension.as_encoded_bytes());
    (path_of(vec), outcome)
}

/// The path with one more extension, and whether it has a last name.
pub(crate) fn with_extension_added<E: PathStyle, A: Allocator>(
    path: PathBuf<E, A>,
    extension: OsStr<'_, E>,
) -> (PathBuf<E, A>, Result<bool, AllocError>)
    requires { IsExtensionText E.follows (bytes extension) }
    ensures ok { IfOk result.1 (λ is_added. IsExtensionAdded E.follows (path_vec_of path).items
        (bytes extension.entry) (path_vec_of result.0).items is_added) }
    ensures err { OnErr result.1 ((path_vec_of result.0).items ≡ (path_vec_of path).items) }
{
    let mut vec = path.into_os_string().into_encoded_bytes();
    let outcome = path_building::add_extension(E::style(), &mut vec, extension.as_encoded_bytes());
    (path_of(vec), outcome)
}
