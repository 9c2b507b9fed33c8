//! Names that Windows keeps for itself, in strings and in paths.
ghost use Rattle.std.specs.Prelude.{◌↔◌, IsTrue};
ghost use Rattle.platform_str.specs.Strings.{bytes};
ghost use Rattle.path_rules.specs.Reserved.{IsReserved};
ghost use Rattle.path_rules.specs.Views.{item_of};
ghost use Rattle.os_path.specs.Reserved.{IsReservedItem, HasReservedItem, IsReservedPath};

use path_rules::{Component, Components, Style};
use platform_str::{OsStr, Platform};

/// Whether Windows keeps a name for itself (CPython 3.13's `ntpath.isreserved`, of one component), by
/// `path_rules::is_reserved`.
///
/// ```
/// use os_path::is_reserved;
/// use platform_str::{OsStr, Unix};
///
/// assert!(rt; is_reserved(OsStr::<Unix>::new("nul.txt")) && is_reserved(OsStr::<Unix>::new("a:b")));
/// assert!(rt; !is_reserved(OsStr::<Unix>::new("null")));
/// ```
pub fn is_reserved<E: Platform>(name: OsStr<'_, E>) -> bool
    ensures { IsTrue result ↔ IsReserved (bytes name.entry) }
{
    path_rules::is_reserved(name.as_encoded_bytes())
}

/// Whether a path of a style has a reserved name.
pub(crate) fn has_reserved_name(style: Style, path: &[u8]) -> bool
    ensures { IsTrue result ↔ IsReservedPath style path.now }
{
    match style {
        Style::Unix => false,
        Style::Windows => has_reserved(Components::new(Style::Windows, path)),
    }
}

/// Whether one of the components that are left is a reserved name.
fn has_reserved(items: Components<'_>) -> bool
    ensures { IsTrue result ↔ HasReservedItem items.entry.items }
{
    let mut left = items;
    loop {
        let Some(item) = left.next() else {
            return false;
        };
        if is_reserved_item(item) {
            return true;
        }
    }
}

/// Whether a component is a reserved name.
fn is_reserved_item(item: Component<&[u8]>) -> bool
    ensures { IsTrue result ↔ IsReservedItem (item_of item.entry) }
{
    match item {
        Component::Normal(name) => path_rules::is_reserved(name),
        _ => false,
    }
}
