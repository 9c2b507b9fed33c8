//! Paths that are read: where their parts end, and what stays when they are made shorter.
ghost use Rattle.std.specs.Prelude.{◌≡◌, ◌++◌, ◌∷◌, [], ℕ, List, Some, IsTrue, IfSome, true};
ghost use Rattle.platform_str.specs.Strings.{path_bytes};
ghost use Rattle.path_rules.specs.declared.rules.Rules.{Rules};
ghost use Rattle.path_rules.specs.declared.rules.Style.TheVariants as whose;
ghost use Rattle.path_rules.specs.Body.{HasBody};
ghost use Rattle.path_rules.specs.Component.{Item, Normal, named};
ghost use Rattle.path_rules.specs.Components.{AreComponents};
ghost use Rattle.path_rules.specs.Root.{IsAbsolute};
ghost use Rattle.path_rules.specs.Separators.{separates, IsPlain};
ghost use Rattle.path_rules.specs.Simplified.{KeepsPlace};
ghost use Rattle.path_rules.specs.StyleRules.{rules_of_path};

use os_path::{PathExt, PathStyle};
use path_rules::parts::next_in;
use path_rules::{Rules, Style, end_trimmed, laws};
use platform_str::{Path, Windows};

/// The path without `\\?\`, where that names the same path: absolute, with a root and with the same
/// components below its prefix exactly as the path.
pub fn same_place<'a, E: PathStyle + 'a>(path: Path<'a, E>) -> Path<'a, E>
    ensures { KeepsPlace E.follows (path_bytes path.entry) (path_bytes result) }
{
    laws::simplified_place();
    let _components = path.components();
    path.simplified()
}

/// Whether a path without `\\?\` is absolute: exactly if the path is.
pub fn is_absolute_simplified(path: Path<'_, Windows>) -> bool
    ensures absolute { IsAbsolute whose.Windows (path_bytes path.entry) → IsTrue result }
    ensures relative { IsTrue result → IsAbsolute whose.Windows (path_bytes path.entry) }
{
    same_place(path).is_absolute()
}

/// The path up to the end of its last component: all of it, if nothing follows its prefix and root.
pub fn root_kept(style: Style, path: &[u8]) -> &[u8]
    ensures { (rules : Rules) → HasBody style path.now rules [] → result.now ≡ path.now }
{
    laws::one_list();
    end_trimmed(style, path)
}

/// What follows the first name of a body that begins with that name and a separator.
pub fn after_name(rules: Rules, body: &[u8]) -> Option<&[u8]>
    ensures { IfSome result (λ rest. (name : List ℕ) → (item : Item) → (separator : ℕ)
        → (more : List ℕ) → body.now ≡ name ++ separator ∷ more
        → IsPlain rules name → separates rules separator ≡ true
        → named rules name ≡ Some item → rest.now ≡ more) }
{
    match next_in(rules, body) {
        Some((_, rest)) => Some(rest),
        None => None,
    }
}

/// The bytes of a path: if it has two names alone, they begin with the first and a separator, after
/// which the second follows.
pub fn between_names(style: Style, path: &[u8]) -> &[u8]
    ensures path { result.now ≡ path.now }
    ensures names { (first : List ℕ) → (second : List ℕ)
        → AreComponents style path.now (Normal first ∷ Normal second ∷ [])
        → (separator : ℕ) × ((gap : List ℕ) × ((after : List ℕ)
        × ((path.now ≡ first ++ separator ∷ (gap ++ (second ++ after)))
        × (separates (rules_of_path style path.now) separator ≡ true)))) }
{
    laws::divided();
    path
}
