//! The results of the tasks that request a part of a path.
ghost use Rattle.std.specs.Prelude.{◌≡◌, ◌⊎◌, ℕ, List, [], MatchOption};
ghost use Rattle.platform_str.specs.Strings.{bytes, path_bytes};
ghost use Rattle.path_rules.specs.Parent.{IsParent, HasNoParent};

use os_path::{PathExt, PathStyle};
use os_str_bytes::{OsStr, Path};

/// The parent, or nothing where the path has none.
pub fn parent<'a, E: PathStyle>(path: Path<'a, E>) -> &'a [u8]
    ensures { IsParent E.follows (path_bytes path.entry) result.now
        ⊎ (HasNoParent E.follows (path_bytes path.entry) × (result.now ≡ [])) }
{
    match path.parent() {
        Some(parent) => parent.as_os_str().as_encoded_bytes(),
        None => b"",
    }
}

/// The bytes of a part, or nothing where there is none.
pub fn part<'a, E: PathStyle>(part: Option<OsStr<'a, E>>) -> &'a [u8]
    ensures { MatchOption part.entry (result.now ≡ []) (λ part. result.now ≡ bytes part) }
{
    match part {
        Some(part) => part.as_encoded_bytes(),
        None => b"",
    }
}
