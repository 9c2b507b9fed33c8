//! Properties of the paths that calls return. Each law is the contract of a function that does
//! nothing.
ghost use Rattle.std.specs.Prelude.{◌≡◌, ◌≢◌, ◌↔◌, ◌++◌, ◌∷◌, [], List, ℕ, Some};
ghost use Rattle.path_rules.specs.declared.rules.Style as whose;
ghost use Rattle.path_rules.specs.Component.{Item, Normal};
ghost use Rattle.path_rules.specs.Components.{AreComponents, AreUnixComponents, IsRelative};
ghost use Rattle.path_building.specs.Beginning.{BeginsOddly};
ghost use Rattle.path_building.specs.Normal.{AreNormalOf};
ghost use Rattle.path_building.specs.Join.{IsVerbatimPath, IsDriveAlone, IsRelativeTo, HaveTheSamePrefix, IsJoin, without_dot};
ghost use Rattle.path_building.specs.Resolved.{AreResolved, HasResolved};
ghost use Rattle.path_building.specs.Normalized.{IsNormalForm, IsNormalized};
ghost use Rattle.path_building.specs.Base.{HasNoNul, LacksPart, IsVerbatimAlone};
ghost use Rattle.path_building.specs.Checked.{IsCheckedJoin, IsBelowBase, BeginsBelow};
ghost use Rattle.path_building.specs.Cleaned.{CleansTo, IsCleaned, DifferInSeparators};
ghost use Rattle.path_building.specs.CheckedEnd.{IsCheckedJoinEnded};
ghost use Rattle.path_building.specs.Collected.{ArePushed};
ghost use Rattle.path_building.specs.CommonBase.{IsCommonBase, IsCommonBaseFault};
ghost use Rattle.path_building.specs.Faults.{IsBaseFault, IsNameFault};
ghost use Rattle.path_building.specs.FileName.{IsNamed};
ghost use Rattle.path_building.specs.FileStem.{IsStemSet};
ghost use Rattle.path_building.specs.FullPath.{IsFullPath, IsAbsoluteFault};
ghost use Rattle.path_building.specs.declared.base.BaseError.{BaseError};
ghost use Rattle.path_building.specs.declared.common_bases.CommonBaseError.{CommonBaseError};
ghost use Rattle.path_building.specs.declared.full_paths.AbsoluteError.{AbsoluteError};
ghost use Rattle.path_building.specs.declared.full_paths.AbsoluteError.TheVariants as full_error;
ghost use Rattle.path_building.specs.declared.walk.NameError.{NameError};
ghost use Rattle.path_building.specs.declared.walk.NameError.TheVariants as name_error;
ghost use Rattle.path_rules.specs.Parent.{IsParent, HasFileName};
ghost use Rattle.path_rules.specs.declared.rules.Style.TheVariants.{Unix, Windows};
ghost use Rattle.path_rules.specs.Compare.{HaveAlikeComponents};
ghost use Rattle.path_rules.specs.Prefix.{IsPrefixed};
ghost use Rattle.path_rules.specs.Strip.{IsStripped};
ghost use Rattle.path_rules.specs.StyleRules.{rules_of_style};
ghost use Rattle.path_rules.specs.Trailing.{EndsWithSeparator};
ghost use Rattle.path_building.specs.Trailing.{IsWithTrailingSep};
ghost use Rattle.path_rules.specs.Root.{IsAbsolute};
ghost use Rattle.path_building.specs.Written.{BeginsAsObject, IsPathOf};
ghost use Rattle.path_building.specs.Relative.{IsRelativeFrom};
ghost use Rattle.path_building.specs.MainSeparators.{HasMainSeparators};

/// A Unix path and a relative one, joined by a separator, have the components of both.
pub fn unix_join()
    ensures { (s : List ℕ) → (t : List ℕ) → (before : List Item) → (after : List Item) → s ≢ []
        → AreUnixComponents s before → AreUnixComponents t after → IsRelative t
        → AreUnixComponents (s ++ 0x2F ∷ t) (before ++ after) }
{}

/// A path joined to a base is one path.
pub fn one_join()
    ensures { (style : whose.Style) → (base : List ℕ) → (path : List ℕ) → (one : List ℕ)
        → (other : List ℕ) → IsJoin style base path one → IsJoin style base path other
        → one ≡ other }
{}

/// A normal form is its own normal form, and components have at most one.
pub fn normal_forms()
    ensures again { (items : List Item) → (normal : List Item) → AreNormalOf items normal
        → AreNormalOf normal normal }
    ensures one { (items : List Item) → (one : List Item) → (other : List Item)
        → AreNormalOf items one → AreNormalOf items other → one ≡ other }
{}

/// The normal form of a path is its own normal form.
pub fn normalized_again()
    ensures { (style : whose.Style) → (path : List ℕ) → (answer : List ℕ)
        → IsNormalized style path answer → IsNormalized style answer answer }
{}

/// The normal form and the clean form of a path keep the kind of its beginning: on Windows both
/// begin with `\\.\` or `//?/`, or with two separators and no prefix, or with a name that has a
/// colon, exactly if the path does. So neither makes a path of the current drive of `\\server`.
pub fn beginnings()
    ensures normal { (style : whose.Style) → (path : List ℕ) → (answer : List ℕ)
        → IsNormalized style path answer → BeginsOddly style path ↔ BeginsOddly style answer }
    ensures clean { (style : whose.Style) → (path : List ℕ) → (answer : List ℕ)
        → IsCleaned style path answer → BeginsOddly style path ↔ BeginsOddly style answer }
{}

/// What components are cleaned to is cleaned to itself, and components are cleaned to one list.
pub fn clean_forms()
    ensures again { (items : List Item) → (clean : List Item) → CleansTo items clean
        → CleansTo clean clean }
    ensures one { (items : List Item) → (one : List Item) → (other : List Item)
        → CleansTo items one → CleansTo items other → one ≡ other }
{}

/// The clean form of a path is its own clean form.
pub fn cleaned_again()
    ensures { (style : whose.Style) → (path : List ℕ) → (answer : List ℕ)
        → IsCleaned style path answer → IsCleaned style answer answer }
{}

/// Two Windows paths that differ only in which of `/` and `\` separates have one clean path, unless
/// one of them begins with `\\?\`.
pub fn one_clean_path()
    ensures { (path : List ℕ) → (other : List ℕ) → (one : List ℕ) → (two : List ℕ)
        → DifferInSeparators path other → ¬ (IsVerbatimPath Windows path)
        → ¬ (IsVerbatimPath Windows other) → IsCleaned Windows path one
        → IsCleaned Windows other two → one ≡ two }
{}

/// A path that was joined to a base and checked has the base's components, and after them names
/// alone: it never leaves the base. Normalized, it has the base's normal form and names after it, and
/// it has a normal form wherever the base has one. A base that is a prefix alone and begins with
/// `\\?\` has its root before the names. The joined path has no NUL, so a string of C is all of it.
pub fn joined_below()
    ensures below { (style : whose.Style) → (base : List ℕ) → (path : List ℕ)
        → (joined : List ℕ) → IsCheckedJoin style base path joined
        → IsBelowBase style base joined }
    ensures no_nul { (style : whose.Style) → (base : List ℕ) → (path : List ℕ)
        → (joined : List ℕ) → IsCheckedJoin style base path joined → HasNoNul joined }
    ensures begins { (style : whose.Style) → (base : List ℕ) → (path : List ℕ)
        → (joined : List ℕ) → IsCheckedJoin style base path joined → (items : List Item)
        → (more : List Item) → (normal : List Item) → AreComponents style base items
        → AreComponents style joined more → IsNormalForm more normal → BeginsBelow items normal }
    ensures stays { (style : whose.Style) → (base : List ℕ) → (path : List ℕ)
        → (joined : List ℕ) → IsCheckedJoin style base path joined → (items : List Item)
        → (more : List Item) → (left : List Item) → AreComponents style base items
        → AreComponents style joined more → IsNormalForm items left
        → (names : List Item) × IsNormalForm more (left ++ names) }
{}

/// A base that isn't verbatim and a relative path have the components of both, where the joined
/// path has the base's prefix (on Unix always): first the base's, then the path's without a `.` at
/// their start. An empty base is replaced.
pub fn join_components()
    ensures both { (style : whose.Style) → (base : List ℕ) → (path : List ℕ) → (joined : List ℕ)
        → base ≢ [] → ¬ (IsVerbatimPath style base) → IsRelativeTo style path
        → IsJoin style base path joined → HaveTheSamePrefix style base joined
        → (items : List Item) → (more : List Item) → AreComponents style base items
        → AreComponents style path more → AreComponents style joined (items ++ without_dot more) }
    ensures empty { (style : whose.Style) → (path : List ℕ) → (joined : List ℕ)
        → IsJoin style [] path joined → joined ≡ path }
{}

/// After a base that begins with `\\?\` and is a whole prefix or has one, a path without a prefix is
/// resolved: the joined path has the base's components, and after them the path's. `.` is left out,
/// `..` takes a last name away and nothing else, and a root takes all but the prefix away. Both
/// paths are resolved to one list of components.
pub fn resolved_components()
    ensures items { (base : List ℕ) → (path : List ℕ) → (joined : List ℕ)
        → IsVerbatimPath Windows base → ¬ (LacksPart Windows base)
        → ¬ (IsPrefixed Windows path) → path ≢ [] → IsJoin Windows base path joined
        → HasResolved base path joined }
    ensures one { (base : List ℕ) → (path : List ℕ) → (one : List Item) → (other : List Item)
        → AreResolved base path one → AreResolved base path other → one ≡ other }
{}

/// A path with a separator at its end is the path itself if that ends with one, and ends with one
/// unless it is empty or a drive alone. It has the path's components: on Unix always, and on Windows
/// where it has the path's prefix and the path isn't a prefix alone that begins with `\\?\`, to
/// which a separator gives a root.
pub fn trailing_separators()
    ensures kept { (style : whose.Style) → (path : List ℕ) → (ended : List ℕ)
        → IsWithTrailingSep style path ended → EndsWithSeparator (rules_of_style style) path
        → ended ≡ path }
    ensures ends { (style : whose.Style) → (path : List ℕ) → (ended : List ℕ)
        → IsWithTrailingSep style path ended → path ≢ [] → ¬ (IsDriveAlone style path)
        → EndsWithSeparator (rules_of_style style) ended }
    ensures items { (style : whose.Style) → (path : List ℕ) → (ended : List ℕ)
        → IsWithTrailingSep style path ended → HaveTheSamePrefix style path ended
        → ¬ (IsVerbatimAlone style path) → (items : List Item) → AreComponents style path items
        → AreComponents style ended items }
{}

/// A base joined with the result of [`path_rules::strip_prefix`] has the path's components. On Unix
/// this always holds. On Windows it holds where the base isn't verbatim, the joined path has the
/// base's prefix, and the rest, read alone, is relative and has the components that it had.
pub fn strip_joined()
    ensures unix { (path : List ℕ) → (base : List ℕ) → (rest : List ℕ) → (joined : List ℕ)
        → (more : List Item) → IsStripped Unix path base rest more → IsJoin Unix base rest joined
        → (items : List Item) → AreUnixComponents path items → AreUnixComponents joined items }
    ensures alike { (style : whose.Style) → (path : List ℕ) → (base : List ℕ) → (rest : List ℕ)
        → (joined : List ℕ) → (more : List Item) → (read : List Item)
        → IsStripped style path base rest more → AreComponents style rest read
        → without_dot read ≡ more → base ≢ [] → ¬ (IsVerbatimPath style base)
        → IsRelativeTo style rest → IsJoin style base rest joined
        → HaveTheSamePrefix style base joined → HaveAlikeComponents style path joined }
{}

/// A parent joined with the path's last name has the path's components. On Unix this always holds.
/// On Windows it holds where the parent is neither empty nor verbatim, the joined path has its
/// prefix, and the name, read alone, is a relative path of this name only.
pub fn parent_joined()
    ensures unix { (path : List ℕ) → (parent : List ℕ) → (name : List ℕ) → (joined : List ℕ)
        → IsParent Unix path parent → HasFileName Unix path name → IsJoin Unix parent name joined
        → (items : List Item) → AreUnixComponents path items → AreUnixComponents joined items }
    ensures alone { (style : whose.Style) → (path : List ℕ) → (parent : List ℕ) → (name : List ℕ)
        → (joined : List ℕ) → IsParent style path parent → HasFileName style path name
        → AreComponents style name (Normal name ∷ []) → parent ≢ []
        → ¬ (IsVerbatimPath style parent) → IsRelativeTo style name
        → IsJoin style parent name joined → HaveTheSamePrefix style parent joined
        → (items : List Item) → AreComponents style path items → AreComponents style joined items }
{}

/// A call returns one path for its arguments.
pub fn one_result()
    ensures normal { (style : whose.Style) → (path : List ℕ) → (one : List ℕ) → (other : List ℕ)
        → IsNormalized style path one → IsNormalized style path other → one ≡ other }
    ensures clean { (style : whose.Style) → (path : List ℕ) → (one : List ℕ) → (other : List ℕ)
        → IsCleaned style path one → IsCleaned style path other → one ≡ other }
    ensures checked { (style : whose.Style) → (base : List ℕ) → (path : List ℕ)
        → (one : List ℕ) → (other : List ℕ) → IsCheckedJoin style base path one
        → IsCheckedJoin style base path other → one ≡ other }
    ensures ended { (style : whose.Style) → (base : List ℕ) → (path : List ℕ)
        → (one : List ℕ) → (other : List ℕ) → IsCheckedJoinEnded style base path one
        → IsCheckedJoinEnded style base path other → one ≡ other }
    ensures pushed { (style : whose.Style) → (path : List ℕ) → (items : List Item)
        → (one : List ℕ) → (other : List ℕ) → ArePushed style path items one
        → ArePushed style path items other → one ≡ other }
    ensures full { (style : whose.Style) → (path : List ℕ) → (directory : List ℕ)
        → (one : List ℕ) → (other : List ℕ) → IsFullPath style path directory one
        → IsFullPath style path directory other → one ≡ other }
    ensures common { (style : whose.Style) → (paths : List (List ℕ)) → (one : List ℕ)
        → (other : List ℕ) → IsCommonBase style paths one → IsCommonBase style paths other
        → one ≡ other }
    ensures named { (style : whose.Style) → (path : List ℕ) → (name : List ℕ) → (one : List ℕ)
        → (other : List ℕ) → IsNamed style path name one → IsNamed style path name other
        → one ≡ other }
    ensures stem { (style : whose.Style) → (path : List ℕ) → (stem : List ℕ) → (one : List ℕ)
        → (other : List ℕ) → IsStemSet style path stem one → IsStemSet style path stem other
        → one ≡ other }
{}

/// What [`crate::absolute`] returns is absolute.
pub fn full_paths()
    ensures { (style : whose.Style) → (path : List ℕ) → (directory : List ℕ) → (full : List ℕ)
        → IsFullPath style path directory full → IsAbsolute style full }
{}

/// A call has one error for its arguments, unless memory is short.
pub fn one_fault()
    ensures base { (style : whose.Style) → (path : List ℕ) → (one : BaseError)
        → (other : BaseError) → IsBaseFault style path one → IsBaseFault style path other
        → one ≡ other }
    ensures name { (style : whose.Style) → (path : List ℕ) → (one : NameError)
        → (other : NameError) → IsNameFault style path one → IsNameFault style path other
        → one ≢ name_error.Memory → other ≢ name_error.Memory → one ≡ other }
    ensures full { (style : whose.Style) → (path : List ℕ) → (directory : List ℕ)
        → (one : AbsoluteError) → (other : AbsoluteError)
        → IsAbsoluteFault style path directory one → IsAbsoluteFault style path directory other
        → one ≢ full_error.Memory → other ≢ full_error.Memory → one ≡ other }
    ensures common { (style : whose.Style) → (paths : List (List ℕ)) → (one : CommonBaseError)
        → (other : CommonBaseError) → IsCommonBaseFault style paths one
        → IsCommonBaseFault style paths other → one ≡ other }
{}

/// A Windows path that is written from components doesn't begin with `\??\`, which Windows reads as it
/// reads `\\?\`: so do none of those that [`crate::join_checked`] and, for another style,
/// [`crate::with_style`] return.
pub fn no_object()
    ensures { (items : List Item) → (path : List ℕ) → IsPathOf Windows items path
        → ¬ (BeginsAsObject path) }
{}

/// Neither the normal form nor the clean form of a Windows path begins with `\??\`.
pub fn no_object_form()
    ensures normal { (path : List ℕ) → (answer : List ℕ) → IsNormalized Windows path answer
        → ¬ (BeginsAsObject answer) }
    ensures clean { (path : List ℕ) → (answer : List ℕ) → IsCleaned Windows path answer
        → ¬ (BeginsAsObject answer) }
{}

/// A path that is written anew has no separator but the main one, except in its prefix. A Windows
/// path has no other `/`, unless its prefix begins with `\\?\`, after which `/` is a part of a
/// name.
///
/// This holds of the results of [`crate::join_checked`], of [`crate::with_style`] for another style,
/// and of [`crate::normalize`] and [`crate::clean`] for a path that doesn't begin oddly. It also holds of the result of
/// [`crate::relative_from`] for a path that isn't verbatim, unless the path is absolute and the
/// base isn't. In that case the result is the path itself.
pub fn main_separators()
    ensures written { (style : whose.Style) → (items : List Item) → (path : List ℕ)
        → IsPathOf style items path → HasMainSeparators style path }
    ensures way { (style : whose.Style) → (path : List ℕ) → (base : List ℕ) → (way : List ℕ)
        → IsRelativeFrom style path base (Some way) → ¬ (IsVerbatimPath style path)
        → (IsAbsolute style path → IsAbsolute style base) → HasMainSeparators style way }
{}

/// The components of a Unix path, collected ([`crate::from_components`]), give a path with these
/// components.
pub fn collected()
    ensures { (path : List ℕ) → (items : List Item) → (made : List ℕ)
        → AreUnixComponents path items → ArePushed Unix [] items made
        → AreUnixComponents made items }
{}
