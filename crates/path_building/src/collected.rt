//! A path from components.
ghost use Rattle.std.specs.Prelude.{◌≡◌, [], map, IfOk, OnOk};
ghost use Rattle.path_rules.specs.Views.{item_of};
ghost use Rattle.path_building.specs.Collected.{string_of, ArePushed};

use crate::joining::{push, separator};
use path_rules::{Component, Style};
use std::alloc::{AllocError, Allocator};

/// Returns the path of components, in new memory (std's `PathBuf: FromIterator`): each component
/// is pushed in turn, as [`push`] pushes a path.
///
/// A root is the main separator. A prefix is as it is written. The components of a Unix path give a
/// path with these components ([`crate::laws::collected`]). On Windows, as in std, a name that by
/// itself begins with a prefix replaces what comes before it, and after `\\?\` a `..` takes the name
/// before it away.
///
/// # Errors
///
/// `AllocError` if an allocation fails.
///
/// ```
/// use path_building::from_components;
/// use path_rules::{Component, Style};
///
/// let names = [Component::RootDir, Component::Normal(b"a".as_slice()), Component::ParentDir];
/// let path = from_components(alloc, Style::Unix, &names)?;
/// assert_eq!(rt; path.as_slice(), b"/a/..".as_slice());
/// let drive = [Component::Prefix(b"C:".as_slice()), Component::RootDir, Component::ParentDir];
/// let path = from_components(alloc, Style::Windows, &drive)?;
/// assert_eq!(rt; path.as_slice(), br"C:\..".as_slice());
/// ```
pub fn from_components<A: Allocator + Clone>(
    alloc: A,
    style: Style,
    components: &[Component<&[u8]>],
) -> Result<Vec<u8, A>, AllocError>
    ensures { IfOk result
        (λ path. ArePushed style [] (map item_of components.now) path.items) }
{
    let mut path = Vec::new(alloc);
    push_all(style, &mut path, components)?;
    Ok(path)
}

/// Pushes components in turn.
pub(crate) fn push_all<A: Allocator + Clone>(
    style: Style,
    path: &mut Vec<u8, A>,
    components: &[Component<&[u8]>],
) -> Result<(), AllocError>
    ensures { OnOk result
        (ArePushed style path.old.items (map item_of components.now) path.new.items) }
{
    let mut left = components;
    while let [component, more @ ..] = left {
        push(style, path, as_string(style, *component))?;
        left = more;
    }
    Ok(())
}

/// The bytes of a component.
fn as_string(style: Style, component: Component<&[u8]>) -> &[u8]
    ensures { result.now ≡ string_of style (item_of component.entry) }
{
    match component {
        Component::Prefix(raw) => raw,
        Component::RootDir => separator(style),
        Component::CurDir => b".".as_slice(),
        Component::ParentDir => b"..".as_slice(),
        Component::Normal(name) => name,
    }
}
