//! Prefixes and names: where they end, and what they are by themselves.
ghost use Rattle.std.specs.Prelude.{◌≡◌, ◌≢◌, ◌⊎◌, ◌++◌, ◌∷◌, [], ℕ, List, Some, IfSome, IfOk, false};
ghost use Rattle.std.specs.Option.{option_map};
ghost use Rattle.platform_str.specs.Strings.{path_bytes};
ghost use Rattle.path_rules.specs.declared.rules.Rules.TheVariants.{Either};
ghost use Rattle.path_rules.specs.Component.{Item};
ghost use Rattle.path_rules.specs.Components.{AreUnixComponents, IsRelative};
ghost use Rattle.path_rules.specs.Prefix.{Kind, IsPrefixOf};
ghost use Rattle.path_rules.specs.Separators.{Edge};
ghost use Rattle.os_path.specs.Prefixes.{os_kind_of};

use os_path::{ComponentExt, PathExt, Prefix};
use path_rules::{extension, laws, stem, windows_prefix};
use platform_str::{OsStr, Path, Windows};
use std::alloc::{AllocError, Allocator};

/// The kind of a path's first component, which is known to be a prefix: that of the path's own
/// prefix.
pub fn kind_of_first(path: Path<'_, Windows>) -> Option<Prefix<OsStr<'_, Windows>>>
    ensures { (kind : Kind) → (rest : List ℕ) → IsPrefixOf (path_bytes path.entry) kind rest
        → option_map os_kind_of result ≡ Some kind }
{
    laws::one_list();
    laws::prefix_stays();
    let mut left = path.components();
    match left.next() {
        Some(first) => first.kind(),
        None => None,
    }
}

/// What follows the prefix of a path: nothing or a separator first, unless the prefix is a drive.
pub fn after_prefix(path: &[u8]) -> Option<&[u8]>
    ensures { IfSome result (λ rest. Edge Either rest.now
        ⊎ ((letter : ℕ) × (path.now ≡ letter ∷ 0x3A ∷ rest.now))) }
{
    laws::prefix_edges();
    match windows_prefix(path) {
        Some((_, rest)) => Some(rest),
        None => None,
    }
}

/// Whether the front of a path has a prefix: not where the path has none and goes on with a separator.
pub fn front_has_prefix(path: &[u8], front: &[u8]) -> bool
    ensures { (more : List ℕ) → path.now ≡ front.now ++ more → Edge Either more
        → ((kind : Kind) → (rest : List ℕ) → ¬ (IsPrefixOf path.now kind rest))
        → result ≡ false }
{
    laws::none_by_cut();
    windows_prefix(front).is_some()
}

/// The stem and the extension of a name, which with a dot between are the name.
pub fn stem_and_rest(name: &[u8]) -> Option<(&[u8], &[u8])>
    ensures { IfSome result (λ parts. name.now ≡ parts.0.now ++ 0x2E ∷ parts.1.now) }
{
    laws::stem_joined();
    match extension(name) {
        Some(rest) => Some((stem(name), rest)),
        None => None,
    }
}

/// A Unix path, a slash and a relative one: a path with the components of both.
pub fn joined_by_slash<A: Allocator + Clone>(
    alloc: A,
    base: &[u8],
    path: &[u8],
) -> Result<Vec<u8, A>, AllocError>
    ensures { IfOk result (λ joined. (before : List Item) → (after : List Item) → base.now ≢ []
        → AreUnixComponents base.now before → AreUnixComponents path.now after
        → IsRelative path.now → AreUnixComponents joined.items (before ++ after)) }
{
    path_building::laws::unix_join();
    let mut joined = Vec::from_slice(alloc, base)?;
    joined.push(b'/')?;
    joined.extend_from_slice(path)?;
    Ok(joined)
}
