//! Laws of paths that hold whatever a call returns. Each is the contract of a function that does
//! nothing.
ghost use Rattle.std.specs.Prelude.{◌≡◌, ◌<◌, ◌⊎◌, ◌++◌, ◌∷◌, ◌↔◌, [], List, ℕ, length, IsTrue, Some};
ghost use Rattle.path_rules.specs.declared.rules.Style as whose;
ghost use Rattle.path_rules.specs.Component.{Item};
ghost use Rattle.path_rules.specs.Prefix.{Kind, IsPrefixOf};
ghost use Rattle.path_rules.specs.Components.{AreComponents, AreUnixComponents};
ghost use Rattle.path_rules.specs.declared.rules.Rules.TheVariants as rules;
ghost use Rattle.path_rules.specs.Separators.{Edge};
ghost use Rattle.path_rules.specs.Divided.{AtStart, IsDivided};
ghost use Rattle.path_rules.specs.StyleRules.{rules_of_path};
ghost use Rattle.path_rules.specs.Left.{IsLeft};
ghost use Rattle.path_rules.specs.Simplified.{IsSimplified, KeepsPlace};
ghost use Rattle.path_rules.specs.Name.{IsExtension, IsStem};
ghost use Rattle.path_rules.specs.Parent.{IsParent, HasFileName};
ghost use Rattle.path_rules.specs.declared.rules.Style.TheVariants.{Unix};
ghost use Rattle.path_rules.specs.Compare.{HaveAlikeComponents, StartsAlike, EndsAlike, StartsWith, EndsWith};
ghost use Rattle.path_rules.specs.Keys.{HasKeys, keys_of, keys_cmp, keys_writes};

use crate::by_components::ByComponents;
use std::hash::Hash;

/// A Windows path has at most one prefix, of one kind, and a path has one list of components.
pub fn one_list()
    ensures prefix { (s : List ℕ) → (one : Kind) → (other : Kind) → (rest : List ℕ)
        → (left : List ℕ) → IsPrefixOf s one rest → IsPrefixOf s other left
        → (one ≡ other) × (rest ≡ left) }
    ensures items { (style : whose.Style) → (s : List ℕ) → (one : List Item) → (other : List Item)
        → AreComponents style s one → AreComponents style s other → one ≡ other }
{}

/// The bytes of a path alternate between its components and what is between them: separators, and
/// dots that name nothing. Between two names, and between a root and a name, a separator comes
/// first and one comes last. Each cut is at an end of the path or beside an ASCII byte.
pub fn divided()
    ensures { (style : whose.Style) → (path : List ℕ) → (items : List Item)
        → AreComponents style path items
        → IsDivided style (rules_of_path style path) AtStart [] items path }
{}

/// What follows a prefix is empty or begins with a separator, unless the prefix is a drive.
pub fn prefix_edges()
    ensures { (s : List ℕ) → (kind : Kind) → (rest : List ℕ) → IsPrefixOf s kind rest
        → Edge rules.Either rest ⊎ ((letter : ℕ) × (s ≡ letter ∷ 0x3A ∷ rest)) }
{}

/// A prefix stays where the path is cut after it.
pub fn prefix_stays()
    ensures { (s : List ℕ) → (kind : Kind) → (rest : List ℕ) → (t : List ℕ) → (more : List ℕ)
        → rest ≡ t ++ more → IsPrefixOf s kind rest
        → (before : List ℕ) × ((s ≡ before ++ rest) × IsPrefixOf (before ++ t) kind t) }
{}

/// A path without a prefix has none up to a separator.
pub fn none_by_cut()
    ensures { (s : List ℕ) → (f : List ℕ) → (more : List ℕ) → s ≡ f ++ more
        → Edge rules.Either more
        → ((kind : Kind) → (rest : List ℕ) → ¬ (IsPrefixOf s kind rest))
        → (kind : Kind) → (rest : List ℕ) → ¬ (IsPrefixOf f kind rest) }
{}

/// A name has at most one extension, and then one stem.
pub fn one_extension()
    ensures { (name : List ℕ) → (stem : List ℕ) → (extension : List ℕ) → (other : List ℕ)
        → (another : List ℕ) → IsExtension name stem extension → IsExtension name other another
        → (stem ≡ other) × (extension ≡ another) }
{}

/// A path has at most one last name.
pub fn one_file_name()
    ensures { (style : whose.Style) → (s : List ℕ) → (items : List Item) → (one : List ℕ)
        → (other : List ℕ) → AreComponents style s items → HasFileName style s one
        → HasFileName style s other → one ≡ other }
{}

/// A path has at most one parent.
pub fn one_parent()
    ensures { (style : whose.Style) → (path : List ℕ) → (one : List ℕ) → (other : List ℕ)
        → IsParent style path one → IsParent style path other → one ≡ other }
{}

/// The parent of a path is shorter than the path.
pub fn parent_is_shorter()
    ensures { (style : whose.Style) → (s : List ℕ) → (parent : List ℕ) → IsParent style s parent
        → length parent < length s }
{}

/// Paths that are compared by their components are equal exactly if their keys are equal. They are
/// ordered as lists of keys are. A hasher receives the keys, so equal paths have equal hashes.
pub fn comparisons<'a>(a: &ByComponents<'a>, b: &ByComponents<'a>)
    ensures equal { IsTrue (⟦<ByComponents<'a> as PartialEq>⟧.eq a.now b.now)
        ↔ (keys_of a.now ≡ keys_of b.now) }
    ensures order { ⟦<ByComponents<'a> as Ord>⟧.cmp a.now b.now
        ≡ keys_cmp (keys_of a.now) (keys_of b.now) }
    ensures partial_order { ⟦<ByComponents<'a> as PartialOrd>⟧.partial_cmp a.now b.now
        ≡ Some (keys_cmp (keys_of a.now) (keys_of b.now)) }
    ensures hash { ⟦<ByComponents<'a> as Hash>⟧.hash_input a.now ≡ keys_writes (keys_of a.now) }
{}

/// Paths have the same keys exactly if they have equally many components, alike one by one.
pub fn alike_keys()
    ensures { (style : whose.Style) → (path : List ℕ) → (other : List ℕ)
        → (keys : List (List ℕ)) → (others : List (List ℕ)) → HasKeys style path keys
        → HasKeys style other others → (keys ≡ others) ↔ HaveAlikeComponents style path other }
{}

/// A name that has an extension is its stem, a dot and the extension.
pub fn stem_joined()
    ensures { (name : List ℕ) → (stem : List ℕ) → (other : List ℕ) → (extension : List ℕ)
        → IsStem name stem → IsExtension name other extension → name ≡ stem ++ 0x2E ∷ extension }
{}

/// A path starts with another exactly if its first components are alike the other's, and ends with
/// one exactly if its last components are. On Unix components that are alike are the same.
pub fn starts_and_ends()
    ensures starts { (style : whose.Style) → (path : List ℕ) → (base : List ℕ)
        → (items : List Item) → (base_items : List Item) → AreComponents style path items
        → AreComponents style base base_items
        → StartsWith style path base ↔ StartsAlike items base_items }
    ensures ends { (style : whose.Style) → (path : List ℕ) → (child : List ℕ)
        → (items : List Item) → (child_items : List Item) → AreComponents style path items
        → AreComponents style child child_items
        → EndsWith style path child ↔ EndsAlike items child_items }
    ensures unix { (path : List ℕ) → (items : List Item) → (first : List Item)
        → AreUnixComponents path items
        → StartsAlike items first ↔ ((more : List Item) × (items ≡ first ++ more)) }
{}

/// On Unix the remaining part of a path ([`crate::Components::as_path`]), as a path of its own, has
/// the remaining components.
pub fn left_on_unix()
    ensures { (path : List ℕ) → (taken : ℕ) → (items : List Item) → (part : List ℕ)
        → IsLeft Unix path taken items part → AreUnixComponents part items }
{}

/// A simplified path ([`crate::simplified`]) is absolute and has a root exactly if the path does.
/// Below its prefix it has the same components.
pub fn simplified_place()
    ensures { (style : whose.Style) → (path : List ℕ) → (items : List Item) → (t : List ℕ)
        → AreComponents style path items → IsSimplified style path t
        → KeepsPlace style path t }
{}
