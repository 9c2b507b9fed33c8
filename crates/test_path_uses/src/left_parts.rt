//! What of a path an iterator over its components has left.
ghost use Rattle.std.specs.Prelude.{◌≡◌, ◌++◌, ◌∷◌, [], List, ℕ};
ghost use Rattle.platform_str.specs.Strings.{path_bytes};
ghost use Rattle.path_rules.specs.declared.rules.Rules.TheVariants.{Slash};
ghost use Rattle.path_rules.specs.Component.{Item, components_in};
ghost use Rattle.path_rules.specs.Components.{AreUnixComponents};

use os_path::PathExt;
use path_rules::laws;
use platform_str::{Path, Unix};

/// What is left of a path of Unix after its first component: a part of its bytes, which has the
/// other components, and after which the path has none.
pub fn after_first(path: Path<'_, Unix>) -> Path<'_, Unix>
    ensures part { (before : List ℕ) × ((after : List ℕ)
        × (path_bytes path.entry ≡ (before ++ path_bytes result) ++ after)) }
    ensures others { (first : Item) → (others : List Item)
        → AreUnixComponents (path_bytes path.entry) (first ∷ others)
        → AreUnixComponents (path_bytes result) others }
    ensures last { (first : Item) → (second : Item) → (others : List Item)
        → AreUnixComponents (path_bytes path.entry) (first ∷ second ∷ others)
        → (before : List ℕ) × ((after : List ℕ)
        × ((path_bytes path.entry ≡ (before ++ path_bytes result) ++ after)
        × (components_in Slash after ≡ []))) }
{
    laws::one_list();
    laws::left_on_unix();
    let mut left = path.components();
    let _ = left.next();
    left.as_path()
}
