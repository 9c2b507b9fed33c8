//! A path below a base that keeps the separator at its end.
ghost use Rattle.std.specs.Prelude.{IfOk, IfErr};
ghost use Rattle.path_building.specs.Checked.{IsBelowBase};
ghost use Rattle.path_building.specs.Faults.{IsJoinFault};
ghost use Rattle.path_building.specs.CheckedEnd.{IsCheckedJoinEnded};

use crate::checked::{JoinError, join_checked};
use crate::trailing::end_as;
use path_rules::Style;
use std::alloc::Allocator;

/// Returns a path below a base, as [`join_checked`] does, and keeps a separator at the end of the
/// path, for the directories of an archive (own call).
///
/// If the path ends with a separator ([`path_rules::has_trailing_sep`]), one main separator is
/// written at the end of the result, as [`crate::with_trailing_sep`] writes it. So the result is
/// below the base in the same sense: it has the base's components, and after them names alone.
///
/// # Errors
///
/// The error that [`join_checked`] returns.
///
/// ```
/// use path_building::{JoinError, NameError, join_checked_keeping_sep};
/// use path_rules::Style;
///
/// let path = join_checked_keeping_sep(alloc, Style::Unix, b"/srv", b"a/./b//")?;
/// assert_eq!(rt; path.as_slice(), b"/srv/a/b/".as_slice());
/// let path = join_checked_keeping_sep(alloc, Style::Unix, b"/srv", b"a/b")?;
/// assert_eq!(rt; path.as_slice(), b"/srv/a/b".as_slice());
/// let path = join_checked_keeping_sep(alloc, Style::Windows, br"C:\files", b"a/b/")?;
/// assert_eq!(rt; path.as_slice(), br"C:\files\a\b\".as_slice());
/// let path = join_checked_keeping_sep(alloc, Style::Windows, b"C:", b"./")?;
/// assert_eq!(rt; path.as_slice(), b"C:".as_slice());
/// let rejected = join_checked_keeping_sep(alloc, Style::Unix, b"/srv", b"../");
/// assert!(rt; rejected.is_err_and(|e| e == JoinError::Name(NameError::Leaves(0))));
/// ```
pub fn join_checked_keeping_sep<A: Allocator + Clone>(
    alloc: A,
    style: Style,
    base: &[u8],
    path: &[u8],
) -> Result<Vec<u8, A>, JoinError>
    ensures ok { IfOk result (λ ended. IsCheckedJoinEnded style base.now path.now ended.items) }
    ensures below { IfOk result (λ ended. IsBelowBase style base.now ended.items) }
    ensures err { IfErr result (λ error. IsJoinFault style base.now path.now error) }
{
    let mut joined = join_checked(alloc, style, base, path)?;
    end_as(style, &mut joined, path)?;
    Ok(joined)
}
