//! A path without its last component, and its last name.
ghost use Rattle.std.specs.Prelude.{MatchOption};
ghost use Rattle.path_rules.specs.Parent.{IsParent, HasNoParent, HasFileName, HasNoFileName};

use crate::body::{next_back_in, trimmed};
use crate::components::Components;
use crate::head::{Start, head_of};
use crate::rules::Style;

/// Returns the path without its last component (std's `Path::parent`). Returns `None` if the path
/// has no component, or if its last one is a prefix or a root.
///
/// The parent is a part of the path's bytes. It ends where its own last component ends, so
/// separators and `.` between the two components are removed with the last one. The separator of a
/// root stays. `..` is a component like any other: the parent of `a/..` is `a`.
///
/// ```
/// use path_rules::{Style, parent};
///
/// assert_eq!(rt; parent(Style::Unix, b"/usr//lib/"), Some(b"/usr".as_slice()));
/// assert_eq!(rt; parent(Style::Unix, b"a"), Some(b"".as_slice()));
/// assert_eq!(rt; parent(Style::Unix, b"/"), None);
/// assert_eq!(rt; parent(Style::Windows, br"C:\\a/b"), Some(br"C:\\a".as_slice()));
/// let below = parent(Style::Windows, br"\\server\share\a");
/// assert_eq!(rt; below, Some(br"\\server\share\".as_slice()));
/// assert_eq!(rt; parent(Style::Windows, br"\\server\share\"), None);
/// ```
pub fn parent(style: Style, path: &[u8]) -> Option<&[u8]>
    ensures { MatchOption result (HasNoParent style path.now)
        (λ parent. IsParent style path.now parent.now) }
{
    let head = head_of(style, path);
    if let Some((before, _)) = next_back_in(head.rules, head.body) {
        let rest = trimmed(head.rules, before);
        let (parent, _) = path.split_at(path.len() - head.body.len() + rest.len());
        return Some(parent);
    }
    match head.start {
        Start::Dot => Some(b"".as_slice()),
        _ => None,
    }
}

/// Returns the last component if it is a name (std's `Path::file_name`). Returns `None` if it is a
/// prefix, a root, `.` or `..`, and for a path without components.
///
/// ```
/// use path_rules::{Style, file_name};
///
/// assert_eq!(rt; file_name(Style::Unix, b"/usr/lib/."), Some(b"lib".as_slice()));
/// assert_eq!(rt; file_name(Style::Unix, b"/usr/lib/.."), None);
/// assert_eq!(rt; file_name(Style::Windows, b"C:lib"), Some(b"lib".as_slice()));
/// assert_eq!(rt; file_name(Style::Windows, b"C:"), None);
/// ```
pub fn file_name(style: Style, path: &[u8]) -> Option<&[u8]>
    ensures { MatchOption result (HasNoFileName style path.now)
        (λ name. HasFileName style path.now name.now) }
{
    let Some(last) = Components::new(style, path).next_back() else {
        return None;
    };
    last.name()
}
