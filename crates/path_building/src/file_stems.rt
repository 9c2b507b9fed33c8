//! A path with another stem of its last name.
ghost use Rattle.std.specs.Prelude.{IfOk};
ghost use Rattle.path_building.specs.FileStem.{IsStemSet};

use crate::file_names::{last_name, with_file_name};
use crate::writing::both;
use path_rules::{Style, stem};
use std::alloc::{AllocError, Allocator};

/// Returns a path with another stem of its last name, in new memory (CPython's
/// `PurePath.with_stem`; std has none).
///
/// The new stem and the extension that the last name has are one name. It replaces the last name
/// as [`with_file_name`] replaces it. A path that doesn't end in a name is returned as it is.
///
/// Any stem is accepted. An empty one leaves the dot and the extension, or no name where there is
/// no extension. A separator in the stem separates components. A stem that begins with a root or a
/// prefix replaces more than the last name, as in [`crate::join`].
///
/// # Errors
///
/// `AllocError` if an allocation fails.
///
/// ```
/// use path_building::with_file_stem;
/// use path_rules::Style;
///
/// let changed = with_file_stem(alloc, Style::Unix, b"a/b.tar.gz/", b"c")?;
/// assert_eq!(rt; changed.as_slice(), b"a/c.gz".as_slice());
/// let changed = with_file_stem(alloc, Style::Unix, b"a/b", b"c.d")?;
/// assert_eq!(rt; changed.as_slice(), b"a/c.d".as_slice());
/// let changed = with_file_stem(alloc, Style::Unix, b"a/b.txt", b"")?;
/// assert_eq!(rt; changed.as_slice(), b"a/.txt".as_slice());
/// let changed = with_file_stem(alloc, Style::Windows, br"a\b.txt", b"c/d")?;
/// assert_eq!(rt; changed.as_slice(), br"a\c/d.txt".as_slice());
/// let changed = with_file_stem(alloc, Style::Unix, b"a/..", b"c")?;
/// assert_eq!(rt; changed.as_slice(), b"a/..".as_slice());
/// ```
pub fn with_file_stem<A: Allocator + Clone>(
    alloc: A,
    style: Style,
    path: &[u8],
    file_stem: &[u8],
) -> Result<Vec<u8, A>, AllocError>
    ensures { IfOk result (λ made. IsStemSet style path.now file_stem.now made.items) }
{
    let Some((_, name)) = last_name(style, path) else {
        return Vec::from_slice(alloc, path);
    };
    let (_, after) = name.split_at(stem(name).len());
    let named = both(alloc.clone()?, file_stem, after)?;
    with_file_name(alloc, style, path, &named)
}
