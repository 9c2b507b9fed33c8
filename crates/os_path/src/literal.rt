//! The path of a text.
ghost use Rattle.std.specs.Prelude.{◌≡◌};
ghost use Rattle.platform_str.specs.Strings.{path_bytes};

use platform_str::{OsStr, Path, Platform};

/// The path of a text, such as a literal: `Path::new(OsStr::new(text))` (std's `Path::new` of a
/// `str`). Every text is a path of every platform.
///
/// ```
/// use os_path::{PathExt, path};
/// use platform_str::{OsStr, Unix};
///
/// assert!(rt; path::<Unix>("/usr/lib").file_name() == Some(OsStr::new("lib")));
/// ```
pub fn path<'a, E: Platform>(text: &'a str) -> Path<'a, E>
    ensures { path_bytes result ≡ text.entry.now }
{
    Path::new(OsStr::new(text))
}
