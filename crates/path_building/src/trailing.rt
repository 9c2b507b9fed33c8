//! A path with a separator at its end.
ghost use Rattle.std.specs.Prelude.{IfOk, OnOk};
ghost use Rattle.path_building.specs.Trailing.{IsWithTrailingSep, IsEndedAs};

use crate::joining::{join, push};
use path_rules::{Style, has_trailing_sep};
use std::alloc::{AllocError, Allocator};

/// The path with a separator at its end, in new memory (std's `Path::with_trailing_sep`). To do
/// this in place, [`crate::push`] an empty path.
///
/// A path that ends with a separator is returned unchanged, and so is an empty path. A drive alone,
/// as `C:`, is unchanged too, since a separator would give it a root
/// ([`crate::laws::trailing_separators`]).
///
/// # Errors
///
/// `AllocError` if an allocation fails.
///
/// ```
/// use path_building::with_trailing_sep;
/// use path_rules::Style;
///
/// assert_eq!(rt; with_trailing_sep(alloc, Style::Unix, b"a")?.as_slice(), b"a/".as_slice());
/// assert_eq!(rt; with_trailing_sep(alloc, Style::Windows, b"a/")?.as_slice(), b"a/".as_slice());
/// assert_eq!(rt; with_trailing_sep(alloc, Style::Windows, b"C:")?.as_slice(), b"C:".as_slice());
/// ```
pub fn with_trailing_sep<A: Allocator + Clone>(
    alloc: A,
    style: Style,
    path: &[u8],
) -> Result<Vec<u8, A>, AllocError>
    ensures { IfOk result (λ ended. IsWithTrailingSep style path.now ended.items) }
{
    join(alloc, style, path, b"".as_slice())
}

/// Appends a separator to a path if another path ends with one.
pub(crate) fn end_as<A: Allocator + Clone>(
    style: Style,
    path: &mut Vec<u8, A>,
    other: &[u8],
) -> Result<(), AllocError>
    ensures { OnOk result (IsEndedAs style other.now path.old.items path.new.items) }
{
    if has_trailing_sep(style, other) {
        return push(style, path, b"".as_slice());
    }
    Ok(())
}
