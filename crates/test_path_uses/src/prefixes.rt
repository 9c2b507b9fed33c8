//! Prefixes: a path has at most one, of one kind; and paths without `\\?\`.
ghost use Rattle.std.specs.Prelude.{◌≡◌, ℕ, List, Some, None, false};
ghost use Rattle.std.specs.Option.{option_map};
ghost use Rattle.platform_str.specs.Strings.{path_bytes};
ghost use Rattle.path_rules.specs.Prefix.{Kind, begins_verbatim};
ghost use Rattle.path_rules.specs.Simplified.{IsSimplifiable};
ghost use Rattle.os_path.specs.Prefixes.{os_kind_of, HasPrefix, HasNoPrefix};

use os_path::{PathExt, PathStyle, Prefix};
use path_rules::laws;
use platform_str::{OsStr, Path, Unix, Windows};

/// The prefix of a path whose prefix is known, or `None` if the path is known to have none.
pub fn known_prefix<'a, E: PathStyle + 'a>(path: Path<'a, E>) -> Option<Prefix<OsStr<'a, E>>>
    ensures some { (known : Kind) → HasPrefix E.follows (path_bytes path.entry) known
        → option_map os_kind_of result ≡ Some known }
    ensures none { HasNoPrefix E.follows (path_bytes path.entry) → result ≡ None }
{
    laws::one_list();
    path.prefix()
}

/// A Windows path without `\\?\`, where that names the same path; any other is as it was.
pub fn simplified(path: Path<'_, Windows>) -> Path<'_, Windows>
    ensures known { (other : List ℕ) → IsSimplifiable (path_bytes path.entry) other
        → path_bytes result ≡ other }
    ensures kept { ((other : List ℕ) → ¬ (IsSimplifiable (path_bytes path.entry) other))
        → path_bytes result ≡ path_bytes path.entry }
    ensures plain { begins_verbatim (path_bytes path.entry) ≡ false
        → path_bytes result ≡ path_bytes path.entry }
{
    path.simplified()
}

/// A Unix path, which has nothing that could be taken off.
pub fn simplified_on_unix(path: Path<'_, Unix>) -> Path<'_, Unix>
    ensures { path_bytes result ≡ path_bytes path.entry }
{
    path.simplified()
}
