//! Why a line is no pattern.
ghost use Rattle.std.specs.Prelude.{◌≡◌, IfOk};
ghost use Rattle.os_ignore.specs.Files.{HasReason, reason_of};

use crate::file::line_text;
use crate::line::{Line, read_line};
use std::alloc::{AllocError, Allocator};

/// Why a line is no pattern. Such a line decides nothing.
#[derive(Clone, Copy, PartialEq, Eq, Debug)]
pub enum NoPattern {
    /// It begins with a `#`.
    Comment,
    /// Nothing is left without a `!`, a `/` at either end, and blanks that no backslash quotes.
    Empty,
    /// A backslash at its end quotes nothing.
    Backslash,
    /// A backslash quotes the `/` at its end. git removes that `/`, and the backslash quotes nothing.
    QuotedSlash,
    /// A class isn't closed, or has an unknown name.
    Class,
}

/// Returns why a line of an ignore file is no pattern, or `None` if it is a pattern.
///
/// The line has no line feed. It is read as [`Ignore::new`](crate::Ignore::new) reads it, so a
/// carriage return at its end is removed, and all bytes from a NUL on.
///
/// # Errors
///
/// [`AllocError`] if an allocation fails.
///
/// ```
/// use os_ignore::{NoPattern, no_pattern};
///
/// assert_eq!(rt; no_pattern(alloc, b"*.o")?, None);
/// assert_eq!(rt; no_pattern(alloc, b"# objects")?, Some(NoPattern::Comment));
/// assert_eq!(rt; no_pattern(alloc, b"!/")?, Some(NoPattern::Empty));
/// assert_eq!(rt; no_pattern(alloc, b"a\\")?, Some(NoPattern::Backslash));
/// assert_eq!(rt; no_pattern(alloc, b"a\\/")?, Some(NoPattern::QuotedSlash));
/// assert_eq!(rt; no_pattern(alloc, b"[a")?, Some(NoPattern::Class));
/// ```
pub fn no_pattern<A: Allocator + Copy>(
    alloc: A,
    line: &[u8],
) -> Result<Option<NoPattern>, AllocError>
    ensures { IfOk result (HasReason A line.now) }
{
    let read = read_line(alloc, false, 1, line_text(line))?;
    Ok(reason_of(read))
}

/// Why what was read is no pattern.
fn reason_of<A: Allocator>(read: Result<Line<A>, NoPattern>) -> Option<NoPattern>
    ensures { result ≡ reason_of read }
{
    match read {
        Ok(_) => None,
        Err(reason) => Some(reason),
    }
}
