//! Separators at the end of paths.
ghost use Rattle.std.specs.Prelude.{◌≡◌, ◌≢◌, ◌++◌, ◌∷◌, [], ℕ, List, true, IfOk};
ghost use Rattle.std.specs.List.{All};
ghost use Rattle.platform_str.specs.Strings.{path_bytes, path_vec_of};
ghost use Rattle.path_rules.specs.Component.{Item};
ghost use Rattle.path_rules.specs.Components.{AreComponents};
ghost use Rattle.path_rules.specs.Separators.{separates};
ghost use Rattle.path_rules.specs.StyleRules.{rules_of_path, rules_of_style};
ghost use Rattle.path_rules.specs.Prefix.{begins_verbatim};
ghost use Rattle.path_rules.specs.Trailing.{EndsWithSeparator, IsRootAlone};
ghost use Rattle.path_building.specs.Base.{IsVerbatimAlone};
ghost use Rattle.path_building.specs.Join.{IsDriveAlone, HaveTheSamePrefix};

use os_path::{PathExt, PathStyle};
use path_building::laws;
use platform_str::{Path, PathBuf, Windows};
use std::alloc::{AllocError, Allocator};

/// The path with a separator at its end, which it has unless the path is empty or a drive alone,
/// which changes nothing where the path has one, and which names nothing.
pub fn ended<'a, E: PathStyle + 'a, A: Allocator + Clone>(
    alloc: A,
    path: Path<'a, E>,
) -> Result<PathBuf<E, A>, AllocError>
    ensures ends { IfOk result (λ ended. path_bytes path.entry ≢ []
        → ¬ (IsDriveAlone E.follows (path_bytes path.entry))
        → EndsWithSeparator (rules_of_style E.follows) (path_vec_of ended).items) }
    ensures kept { IfOk result (λ ended.
        EndsWithSeparator (rules_of_style E.follows) (path_bytes path.entry)
        → (path_vec_of ended).items ≡ path_bytes path.entry) }
    ensures items { IfOk result (λ ended.
        HaveTheSamePrefix E.follows (path_bytes path.entry) (path_vec_of ended).items
        → ¬ (IsVerbatimAlone E.follows (path_bytes path.entry)) → (items : List Item)
        → AreComponents E.follows (path_bytes path.entry) items
        → AreComponents E.follows (path_vec_of ended).items items) }
{
    laws::trailing_separators();
    path.with_trailing_sep(alloc)
}

/// The path without the separators at its end, which is a part at its start; a root alone is kept.
pub fn trimmed<'a, E: PathStyle + 'a>(path: Path<'a, E>) -> Path<'a, E>
    ensures begins { (after : List ℕ) × ((path_bytes path.entry ≡ path_bytes result ++ after)
        × All (λ b. separates (rules_of_path E.follows (path_bytes path.entry)) b ≡ true) after) }
    ensures root { IsRootAlone E.follows (path_bytes path.entry)
        → path_bytes result ≡ path_bytes path.entry }
{
    path.trim_trailing_sep()
}

/// The path without the separators at its end: only a root alone still ends with one.
pub fn ending_root_alone<'a, E: PathStyle + 'a>(path: Path<'a, E>) -> Path<'a, E>
    ensures { EndsWithSeparator (rules_of_path E.follows (path_bytes path.entry))
        (path_bytes result)
        → IsRootAlone E.follows (path_bytes path.entry) }
{
    path.trim_trailing_sep()
}

/// A path after `\\?\` whose last byte is `/`: that is a part of a name there, so nothing goes.
pub fn name_kept(path: Path<'_, Windows>) -> Path<'_, Windows>
    ensures { begins_verbatim (path_bytes path.entry) ≡ true → (before : List ℕ)
        → path_bytes path.entry ≡ before ++ 0x2F ∷ []
        → path_bytes result ≡ path_bytes path.entry }
{
    path.trim_trailing_sep()
}
