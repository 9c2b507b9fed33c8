//! A string of a list.
ghost use Rattle.std.specs.Prelude.{◌≡◌, ◌+◌, ◌<◌, ◌∷◌, [], map, drop, length, IfSome, MatchOption};
ghost use Rattle.platform_str.specs.Strings.{bytes};

use crate::os_str::OsStr;
use crate::platform::Platform;

/// Returns the string at `index`, or `None` if there are at most `index` strings (own call). It is
/// for a loop over strings, by an index: what is left to read is then a part of the list.
///
/// ```
/// use os_str_bytes::{OsStr, Unix, string_at};
///
/// let strings = [OsStr::<Unix>::new("a"), OsStr::new("b")];
/// assert!(rt; string_at(&strings, 1) == Some(OsStr::new("b")));
/// assert!(rt; string_at(&strings, 2).is_none());
/// ```
pub fn string_at<'a, E: Platform>(strings: &[OsStr<'a, E>], index: usize) -> Option<OsStr<'a, E>>
    ensures first { MatchOption result (drop index (map bytes strings.now) ≡ [])
        (λ string. drop index (map bytes strings.now)
        ≡ bytes string ∷ drop (index + 1) (map bytes strings.now)) }
    ensures within { IfSome result (λ _. index < length strings.now) }
{
    if index < strings.len() {
        Some(strings[index])
    } else {
        None
    }
}
