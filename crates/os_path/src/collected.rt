//! A path from components.
ghost use Rattle.std.specs.Prelude.{[], map, IfOk};
ghost use Rattle.platform_str.specs.Strings.{path_vec_of};
ghost use Rattle.path_building.specs.Collected.{ArePushed};
ghost use Rattle.os_path.specs.Views.{os_item_of};

use crate::buf::push;
use crate::component_ext::as_string;
use crate::style::PathStyle;
use path_rules::Component;
use platform_str::{OsStr, Path, PathBuf};
use std::alloc::{AllocError, Allocator};

/// Returns the path of components, in new memory (std's `PathBuf: FromIterator`): each component
/// is pushed in turn, as [`push`] pushes a path.
///
/// A root is the separator that is written, `/` or `\`. A prefix is as it is written. The components
/// of a Unix path give a path with these components (`path_building::laws::collected`). On Windows,
/// as in std, a name that begins with a prefix, as `C:`, replaces what comes before it, and after
/// `\\?\` a `..` takes the name before it away.
///
/// # Errors
///
/// `AllocError` if an allocation fails.
///
/// ```
/// use os_path::{Component, from_components};
/// use platform_str::{OsStr, Unix};
///
/// let parts = [Component::RootDir, Component::Normal(OsStr::new("a")), Component::ParentDir];
/// let path = from_components::<Unix, _>(alloc, &parts)?;
/// assert!(rt; path.as_os_str() == OsStr::new("/a/.."));
/// ```
pub fn from_components<E: PathStyle, A: Allocator + Clone>(
    alloc: A,
    components: &[Component<OsStr<'_, E>>],
) -> Result<PathBuf<E, A>, AllocError>
    ensures { IfOk result (λ path. ArePushed E.follows [] (map os_item_of components.now)
        (path_vec_of path).items) }
{
    let mut path = PathBuf::new(alloc);
    let mut left = components;
    while let [component, more @ ..] = left {
        push(&mut path, Path::new(as_string(*component)))?;
        left = more;
    }
    Ok(path)
}
