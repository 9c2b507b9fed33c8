//! Searches that return whether a pattern occurs: they agree.
ghost use Rattle.std.specs.Prelude.{◌↔◌, IsTrue, IsSome};

use os_str_ext::OsStrBytesExt;

/// Whether a string contains a pattern, and its first index. Either both hold or neither.
pub fn contains_as_find<'a, S: OsStrBytesExt<'a> + Copy>(
    string: S,
    pattern: &str,
) -> (bool, Option<usize>)
    ensures { IsTrue result.0 ↔ IsSome result.1 }
{
    (string.contains(pattern), string.find(pattern))
}

/// Whether a string contains a pattern, and its last index. Either both hold or neither.
pub fn contains_as_rfind<'a, S: OsStrBytesExt<'a> + Copy>(
    string: S,
    pattern: &str,
) -> (bool, Option<usize>)
    ensures { IsTrue result.0 ↔ IsSome result.1 }
{
    (string.contains(pattern), string.rfind(pattern))
}

/// Whether a string contains a pattern, and the parts around its first match. Either both hold or
/// neither.
pub fn contains_as_split_once<'a, S: OsStrBytesExt<'a> + Copy>(
    string: S,
    pattern: &str,
) -> (bool, Option<(S, S)>)
    ensures { IsTrue result.0 ↔ IsSome result.1 }
{
    (string.contains(pattern), string.split_once(pattern))
}

/// Whether a string contains a pattern, and the parts around its last match. Either both hold or
/// neither.
pub fn contains_as_rsplit_once<'a, S: OsStrBytesExt<'a> + Copy>(
    string: S,
    pattern: &str,
) -> (bool, Option<(S, S)>)
    ensures { IsTrue result.0 ↔ IsSome result.1 }
{
    (string.contains(pattern), string.rsplit_once(pattern))
}
