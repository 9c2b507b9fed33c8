//! Whether a path has a root, and whether it is absolute.
ghost use Rattle.std.specs.Prelude.{◌↔◌, IsTrue};
ghost use Rattle.path_rules.specs.Root.{BeginsWithSeparator, HasRoot, IsAbsolute};

use crate::parsed::Parsed;
use crate::rules::{Rules, Style};

/// Returns `true` if the path has a root (std's `Path::has_root`).
///
/// A Unix path has one if it begins with `/`. A Windows path without a prefix has one if it begins
/// with `/` or `\`. After a drive, as in `C:\`, the root is such a separator. Every other prefix
/// has a root, even if no separator follows it.
///
/// ```
/// use path_rules::{Style, has_root};
///
/// assert!(rt; has_root(Style::Unix, b"/a") && !has_root(Style::Unix, b"a"));
/// assert!(rt; has_root(Style::Windows, br"C:\a") && !has_root(Style::Windows, b"C:a"));
/// assert!(rt; has_root(Style::Windows, br"\\server\share"));
/// ```
pub fn has_root(style: Style, path: &[u8]) -> bool
    ensures { IsTrue result ↔ HasRoot style path.now }
{
    Parsed::new(style, path).has_root()
}

/// Returns `true` if the path is absolute (std's `Path::is_absolute`). A Unix path is if it has a
/// root, and a Windows path if it has a prefix and a root.
///
/// ```
/// use path_rules::{Style, is_absolute};
///
/// assert!(rt; is_absolute(Style::Unix, b"/a"));
/// assert!(rt; is_absolute(Style::Windows, br"C:\a") && !is_absolute(Style::Windows, br"\a"));
/// ```
pub fn is_absolute(style: Style, path: &[u8]) -> bool
    ensures { IsTrue result ↔ IsAbsolute style path.now }
{
    Parsed::new(style, path).is_absolute()
}

/// Returns `true` if the path begins with a separator.
///
/// ```
/// use path_rules::Rules;
/// use path_rules::parts::begins_with_separator;
///
/// assert!(rt; begins_with_separator(Rules::Slash, b"/a"));
/// assert!(rt; !begins_with_separator(Rules::Slash, b"a/"));
/// ```
#[inline(always)]
pub fn begins_with_separator(rules: Rules, path: &[u8]) -> bool
    ensures { IsTrue result ↔ BeginsWithSeparator rules path.now }
{
    match path {
        [first, ..] => rules.is_separator(*first),
        [] => false,
    }
}
