//! The calls of std's `PathBuf` that change a path in place. If an allocation fails, the path is
//! unchanged.
ghost use Rattle.std.specs.Prelude.{◌≡◌, false, IsTrue, IfOk, OnOk, OnErr};
ghost use Rattle.platform_str.specs.Strings.{bytes, path_bytes, path_vec_of};
ghost use Rattle.path_rules.specs.Parent.{IsParent, HasNoParent};
ghost use Rattle.path_building.specs.Join.{IsJoin};
ghost use Rattle.path_building.specs.FileName.{IsNamed, IsExtensionSet, IsExtensionAdded};
ghost use Rattle.path_rules.specs.Name.{IsExtensionText};

use crate::changed::{named, popped, pushed, with_extension_added, with_extension_set};
use crate::style::PathStyle;
use core::mem::replace_with;
use platform_str::{OsStr, Path, PathBuf};
use std::alloc::{AllocError, Allocator};

/// Appends a path (std's `PathBuf::push`). The result is that of [`crate::PathExt::join`].
///
/// It doesn't allocate if the path has room for a separator and the path that is pushed, except
/// after a prefix that begins with `\\?\`.
///
/// # Errors
///
/// `AllocError` if an allocation fails; the path is then unchanged.
///
/// ```
/// use os_path::push;
/// use platform_str::{OsStr, Path, PathBuf, Windows};
///
/// let mut path = PathBuf::from(OsStr::<Windows>::new("C:\\a").to_owned(alloc)?);
/// push(&mut path, Path::new(OsStr::new("b")))?;
/// assert!(rt; path.as_os_str() == OsStr::new("C:\\a\\b"));
/// ```
pub fn push<E: PathStyle, A: Allocator + Clone>(
    path: &mut PathBuf<E, A>,
    more: Path<'_, E>,
) -> Result<(), AllocError>
    ensures ok { OnOk result (IsJoin E.follows (path_vec_of path.old).items
        (path_bytes more.entry) (path_vec_of path.new).items) }
    ensures err { OnErr result ((path_vec_of path.new).items ≡ (path_vec_of path.old).items) }
{
    replace_with(path, more, pushed)
}

/// Removes the last component (std's `PathBuf::pop`), so that the path is its
/// [`crate::PathExt::parent`]. Returns `false` and leaves the path unchanged if there is no parent.
/// It doesn't allocate.
///
/// ```
/// use os_path::pop;
/// use platform_str::{OsStr, PathBuf, Unix};
///
/// let mut path = PathBuf::from(OsStr::<Unix>::new("/a").to_owned(alloc)?);
/// assert!(rt; pop(&mut path) && path.as_os_str() == OsStr::new("/"));
/// assert!(rt; !pop(&mut path) && path.as_os_str() == OsStr::new("/"));
/// ```
pub fn pop<E: PathStyle, A: Allocator>(path: &mut PathBuf<E, A>) -> bool
    ensures some { IsTrue result → IsParent E.follows (path_vec_of path.old).items
        (path_vec_of path.new).items }
    ensures none { result ≡ false → HasNoParent E.follows (path_vec_of path.old).items
        × ((path_vec_of path.new).items ≡ (path_vec_of path.old).items) }
{
    replace_with(path, (), popped)
}

/// Gives the path another last name (std's `PathBuf::set_file_name`): the name is joined to the
/// path's parent; if the path doesn't end in a name, to the path itself.
///
/// # Errors
///
/// `AllocError` if an allocation fails; the path is then unchanged.
///
/// ```
/// use os_path::set_file_name;
/// use platform_str::{OsStr, PathBuf, Unix};
///
/// let mut path = PathBuf::from(OsStr::<Unix>::new("/tmp/a.txt").to_owned(alloc)?);
/// set_file_name(&mut path, OsStr::new("b"))?;
/// assert!(rt; path.as_os_str() == OsStr::new("/tmp/b"));
/// ```
pub fn set_file_name<E: PathStyle, A: Allocator + Clone>(
    path: &mut PathBuf<E, A>,
    name: OsStr<'_, E>,
) -> Result<(), AllocError>
    ensures ok { OnOk result (IsNamed E.follows (path_vec_of path.old).items
        (bytes name.entry) (path_vec_of path.new).items) }
    ensures err { OnErr result ((path_vec_of path.new).items ≡ (path_vec_of path.old).items) }
{
    replace_with(path, name, named)
}

/// Replaces the extension of the last name (std's `PathBuf::set_extension`). A dot and the
/// extension replace what follows the name's stem; an empty extension removes it. Returns `false`
/// and leaves the path unchanged if it doesn't end in a name.
///
/// No byte of the extension separates (test: [`path_rules::is_extension_text`]); std panics.
///
/// # Errors
///
/// `AllocError` if an allocation fails; the path is then unchanged.
///
/// ```
/// use os_path::set_extension;
/// use platform_str::{OsStr, PathBuf, Unix};
///
/// let mut path = PathBuf::from(OsStr::<Unix>::new("a/b.txt").to_owned(alloc)?);
/// assert!(rt; set_extension(&mut path, OsStr::new("rs"))?);
/// assert!(rt; path.as_os_str() == OsStr::new("a/b.rs"));
/// ```
pub fn set_extension<E: PathStyle, A: Allocator>(
    path: &mut PathBuf<E, A>,
    extension: OsStr<'_, E>,
) -> Result<bool, AllocError>
    requires { IsExtensionText E.follows (bytes extension) }
    ensures ok { IfOk result (λ is_set. IsExtensionSet E.follows (path_vec_of path.old).items
        (bytes extension.entry) (path_vec_of path.new).items is_set) }
    ensures err { OnErr result ((path_vec_of path.new).items ≡ (path_vec_of path.old).items) }
{
    replace_with(path, extension, with_extension_set)
}

/// Appends a dot and an extension to the last name (std's `PathBuf::add_extension`). An empty
/// extension changes nothing. Returns `false` and leaves the path unchanged if it doesn't end in a
/// name.
///
/// No byte of the extension separates (test: [`path_rules::is_extension_text`]); std panics.
///
/// # Errors
///
/// `AllocError` if an allocation fails; the path is then unchanged.
///
/// ```
/// use os_path::add_extension;
/// use platform_str::{OsStr, PathBuf, Unix};
///
/// let mut path = PathBuf::from(OsStr::<Unix>::new("a/b.tar").to_owned(alloc)?);
/// assert!(rt; add_extension(&mut path, OsStr::new("gz"))?);
/// assert!(rt; path.as_os_str() == OsStr::new("a/b.tar.gz"));
/// ```
pub fn add_extension<E: PathStyle, A: Allocator>(
    path: &mut PathBuf<E, A>,
    extension: OsStr<'_, E>,
) -> Result<bool, AllocError>
    requires { IsExtensionText E.follows (bytes extension) }
    ensures ok { IfOk result (λ is_added. IsExtensionAdded E.follows
        (path_vec_of path.old).items (bytes extension.entry) (path_vec_of path.new).items
        is_added) }
    ensures err { OnErr result ((path_vec_of path.new).items ≡ (path_vec_of path.old).items) }
{
    replace_with(path, extension, with_extension_added)
}
