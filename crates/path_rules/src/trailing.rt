//! Separators at the end of a path.
ghost use Rattle.std.specs.Prelude.{◌↔◌, IsTrue};
ghost use Rattle.path_rules.specs.StyleRules.{rules_of_style};
ghost use Rattle.path_rules.specs.Trailing.{EndsWithSeparator, IsTrimmed, IsRootAlone, TrimsTrailing};

use crate::parents::parent;
use crate::prefix::rules_of;
use crate::root::has_root;
use crate::rules::{Rules, Style};

/// Returns `true` if the last byte is a separator (std's `Path::has_trailing_sep`). On Windows `/`
/// is one everywhere, even after `\\?\`.
///
/// ```
/// use path_rules::{Style, has_trailing_sep};
///
/// assert!(rt; has_trailing_sep(Style::Unix, b"a/") && !has_trailing_sep(Style::Unix, b"a/."));
/// ```
pub fn has_trailing_sep(style: Style, path: &[u8]) -> bool
    ensures { IsTrue result ↔ EndsWithSeparator (rules_of_style style) path.now }
{
    let rules = style.rules();
    match path {
        [.., last] => rules.is_separator(*last),
        [] => false,
    }
}

/// Returns the path without the separators at its end (std's `Path::trim_trailing_sep`). A path
/// that has a root and no parent is unchanged.
///
/// The path's own rules define its separators: after `\\?\` a `/` is part of a name and stays, but
/// std removes it.
///
/// ```
/// use path_rules::{Style, trim_trailing_sep};
///
/// assert_eq!(rt; trim_trailing_sep(Style::Unix, b"a//"), b"a".as_slice());
/// assert_eq!(rt; trim_trailing_sep(Style::Unix, b"//"), b"//".as_slice());
/// assert_eq!(rt; trim_trailing_sep(Style::Windows, br"\\?\C:\a/"), br"\\?\C:\a/".as_slice());
/// ```
pub fn trim_trailing_sep(style: Style, path: &[u8]) -> &[u8]
    ensures { TrimsTrailing style path.now result.now }
{
    if is_root_alone(style, path) {
        return path;
    }
    trimmed_of(rules_of(style, path), path)
}

/// Whether the path has a root and no parent.
fn is_root_alone(style: Style, path: &[u8]) -> bool
    ensures { IsTrue result ↔ IsRootAlone style path.now }
{
    if !has_root(style, path) {
        return false;
    }
    match parent(style, path) {
        Some(_) => false,
        None => true,
    }
}

/// The path without the separators at its end.
fn trimmed_of(rules: Rules, path: &[u8]) -> &[u8]
    ensures { IsTrimmed rules path.now result.now }
{
    let mut at = path.len();
    while at > 0 {
        if rules.is_separator(path[at - 1]) {
            at -= 1;
        } else {
            return &path[..at];
        }
    }
    b"".as_slice()
}
