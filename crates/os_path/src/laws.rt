//! Properties of the parts of paths that calls return. Each law is the contract of a function that
//! does nothing.
ghost use Rattle.std.specs.Prelude.{◌≡◌, ◌↔◌, ◌++◌, List, ℕ, length, IsTrue, Some};
ghost use Rattle.wtf8_core.specs.Boundary.{IsBoundary};
ghost use Rattle.path_rules.specs.Component.{Item};
ghost use Rattle.path_rules.specs.Components.{AreComponents};
ghost use Rattle.path_rules.specs.Cut.{IsAsciiCut};
ghost use Rattle.path_rules.specs.Keys.{keys_cmp, keys_writes};
ghost use Rattle.os_path.specs.Divided.{AreParts};
ghost use Rattle.os_path.specs.Keys.{path_keys};

use crate::by_components::ByComponents;
use crate::style::PathStyle;
use platform_str::Platform;
use std::hash::Hash;

/// Where a path is cut at an end or beside an ASCII byte, it has a boundary.
pub fn cut_boundaries()
    ensures { (s : List ℕ) → (before : List ℕ) → (after : List ℕ) → s ≡ before ++ after
        → IsAsciiCut before after → IsBoundary s (length before) }
{}

/// A path's bytes are the strings of its components and, by turns with these, separators and dots
/// that name nothing; between two names a separator comes first and one comes last. Its units are the units of all these, and each is cut at boundaries, so no half
/// of a surrogate pair is cut off or joined to another.
pub fn component_units<E: PathStyle>()
    ensures { (path : List ℕ) → (items : List Item) → E.well_formed path
        → AreComponents E.follows path items
        → (parts : List (List ℕ)) × AreParts E.follows E.units path items parts }
{}

/// Paths that are compared by their components are equal exactly if their keys are equal, and
/// ordered as lists of these are. A hasher receives the keys, so equal paths have equal hashes.
/// Paths have the same keys exactly if their components are alike
/// (`path_rules::laws::alike_keys`).
pub fn comparisons<'a, E: Platform>(a: &ByComponents<'a, E>, b: &ByComponents<'a, E>)
    ensures equal { IsTrue (⟦<ByComponents<'a, E> as PartialEq>⟧.eq a.now b.now)
        ↔ (path_keys a.now ≡ path_keys b.now) }
    ensures order { ⟦<ByComponents<'a, E> as Ord>⟧.cmp a.now b.now
        ≡ keys_cmp (path_keys a.now) (path_keys b.now) }
    ensures partial_order { ⟦<ByComponents<'a, E> as PartialOrd>⟧.partial_cmp a.now b.now
        ≡ Some (keys_cmp (path_keys a.now) (path_keys b.now)) }
    ensures hash { ⟦<ByComponents<'a, E> as Hash>⟧.hash_input a.now
        ≡ keys_writes (path_keys a.now) }
{}
