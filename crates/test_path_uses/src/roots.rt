//! Roots, and which paths are absolute.
ghost use Rattle.std.specs.Prelude.{◌≡◌, ◌++◌, ◌∷◌, ℕ, List, true, IfSome, IsTrue};
ghost use Rattle.platform_str.specs.Strings.{path_bytes};
ghost use Rattle.path_rules.specs.Prefix.{Kind, IsPrefixOf};
ghost use Rattle.path_rules.specs.Separators.{separates};
ghost use Rattle.path_rules.specs.declared.rules.Rules.TheVariants.{Either};

use os_path::{PathExt, PathStyle};
use path_rules::laws;
use platform_str::{Path, Unix, Windows};

/// Whether a path is either absolute or relative: always.
pub fn is_either<'a, E: PathStyle + 'a>(path: Path<'a, E>) -> bool
    ensures { IsTrue result }
{
    path.is_absolute() != path.is_relative()
}

/// Whether a Unix path is absolute exactly if it has a root: always.
pub fn is_absolute_by_root(path: Path<'_, Unix>) -> bool
    ensures { IsTrue result }
{
    path.is_absolute() == path.has_root()
}

/// Whether a Windows path is absolute exactly if it has a prefix and a root: always.
pub fn is_absolute_by_both(path: Path<'_, Windows>) -> bool
    ensures { IsTrue result }
{
    path.is_absolute() == (path.prefix().is_some() && path.has_root())
}

/// The parent of a Windows path with a prefix and a separator after that, which are the parent's, too.
pub fn with_its_root<'a>(path: Path<'a, Windows>) -> Option<Path<'a, Windows>>
    ensures { IfSome result (λ parent. (prefix : List ℕ) → (separator : ℕ) → (body : List ℕ)
        → (kind : Kind) → path_bytes path.entry ≡ prefix ++ separator ∷ body
        → IsPrefixOf (path_bytes path.entry) kind (separator ∷ body)
        → separates Either separator ≡ true
        → (left : List ℕ) × (path_bytes parent ≡ prefix ++ separator ∷ left)) }
{
    laws::one_list();
    path.parent()
}
