//! What a path has, how it starts and ends, and what follows a start.
ghost use Rattle.std.specs.Prelude.{◌≡◌, ◌≤◌, ◌<◌, ◌↔◌, ◌∷◌, [], List, MatchOption};
ghost use Rattle.path_rules.specs.Root.{HasRoot, IsAbsolute};
ghost use Rattle.path_rules.specs.Compare.{StartsWith, EndsWith};
ghost use Rattle.path_rules.specs.Component.{Item};
ghost use Rattle.path_rules.specs.Strip.{IsStripped};
ghost use Rattle.osbytes_c.specs.Answers.{IsOneOf};
ghost use Rattle.osbytes_c.specs.PathSpans.{style_on};
ghost use Rattle.osbytes_c.specs.Statuses.{done, no_platform, none};

use crate::status::{DONE, NO_PLATFORM, NONE, reported};
use path_rules::{Style, ends_with, has_root, is_absolute, starts_with, strip_prefix};

/// A part of a string, as a pointer and a length.
#[repr(C)]
#[derive(Clone, Copy)]
pub struct Bytes<'a> {
    /// Where it is.
    pub bytes: &'a [u8],
}

/// Whose paths those of a platform are.
#[inline(always)]
pub(crate) fn style_of(platform: u32) -> Option<Style>
    ensures { MatchOption result (2 < platform)
        (λ style. (platform ≤ 2) × (style ≡ style_on platform)) }
{
    match platform {
        0 => Some(Style::Unix),
        1 => Some(Style::Windows),
        2 => Some(Style::Unix),
        _ => None,
    }
}

/// Whether a path has a root.
#[unsafe(no_mangle)]
pub extern "C" fn osb_core_path_has_root(platform: u32, path: &[u8]) -> u32
    ensures is { result ≡ done → HasRoot (style_on platform) path.now }
    ensures none { result ≡ none → ¬ (HasRoot (style_on platform) path.now) }
    ensures platform { (result ≡ no_platform) ↔ (2 < platform) }
    ensures answers { IsOneOf (done ∷ none ∷ no_platform ∷ []) result }
{
    match style_of(platform) {
        Some(style) => reported(has_root(style, path)),
        None => NO_PLATFORM,
    }
}

/// Whether a path is absolute.
#[unsafe(no_mangle)]
pub extern "C" fn osb_core_path_is_absolute(platform: u32, path: &[u8]) -> u32
    ensures is { result ≡ done → IsAbsolute (style_on platform) path.now }
    ensures none { result ≡ none → ¬ (IsAbsolute (style_on platform) path.now) }
    ensures platform { (result ≡ no_platform) ↔ (2 < platform) }
    ensures answers { IsOneOf (done ∷ none ∷ no_platform ∷ []) result }
{
    match style_of(platform) {
        Some(style) => reported(is_absolute(style, path)),
        None => NO_PLATFORM,
    }
}

/// Whether the first components of a path are those of a base.
#[unsafe(no_mangle)]
pub extern "C" fn osb_core_path_starts_with(platform: u32, path: &[u8], base: &[u8]) -> u32
    ensures is { result ≡ done → StartsWith (style_on platform) path.now base.now }
    ensures none { result ≡ none → ¬ (StartsWith (style_on platform) path.now base.now) }
    ensures platform { (result ≡ no_platform) ↔ (2 < platform) }
    ensures answers { IsOneOf (done ∷ none ∷ no_platform ∷ []) result }
{
    match style_of(platform) {
        Some(style) => reported(starts_with(style, path, base)),
        None => NO_PLATFORM,
    }
}

/// Whether the last components of a path are those of a child.
#[unsafe(no_mangle)]
pub extern "C" fn osb_core_path_ends_with(platform: u32, path: &[u8], child: &[u8]) -> u32
    ensures is { result ≡ done → EndsWith (style_on platform) path.now child.now }
    ensures none { result ≡ none → ¬ (EndsWith (style_on platform) path.now child.now) }
    ensures platform { (result ≡ no_platform) ↔ (2 < platform) }
    ensures answers { IsOneOf (done ∷ none ∷ no_platform ∷ []) result }
{
    match style_of(platform) {
        Some(style) => reported(ends_with(style, path, child)),
        None => NO_PLATFORM,
    }
}

/// What of a path follows the components of a base, as a part of the path.
#[unsafe(no_mangle)]
pub extern "C" fn osb_core_path_strip_prefix<'a>(
    platform: u32,
    path: &'a [u8],
    base: &[u8],
    rest: &mut Bytes<'a>,
) -> u32
    ensures rest { result ≡ done → (more : List Item)
        × IsStripped (style_on platform) path.entry.now base.now rest.new.bytes.now more }
    ensures none { result ≡ none → ¬ (StartsWith (style_on platform) path.entry.now base.now) }
    ensures platform { (result ≡ no_platform) ↔ (2 < platform) }
    ensures answers { IsOneOf (done ∷ none ∷ no_platform ∷ []) result }
{
    let Some(style) = style_of(platform) else {
        return NO_PLATFORM;
    };
    let Some(bytes) = strip_prefix(style, path, base) else {
        return NONE;
    };
    *rest = Bytes { bytes };
    DONE
}
