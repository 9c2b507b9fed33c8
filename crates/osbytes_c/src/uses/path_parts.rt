//! For trying: what a caller of what takes paths apart concludes, in each outcome.
ghost use Rattle.std.specs.Prelude.{◌≡◌, ◌⊎◌, ◌<◌, ◌↔◌, true, List, length, take, IfOk, IfErr, MatchOption};
ghost use Rattle.path_rules.specs.Compare.{EndsWith, StartsWith};
ghost use Rattle.path_rules.specs.Component.{Item};
ghost use Rattle.path_rules.specs.Parent.{HasNoParent};
ghost use Rattle.path_rules.specs.Prefix.{IsPrefixed};
ghost use Rattle.path_rules.specs.Root.{HasRoot, IsAbsolute};
ghost use Rattle.path_rules.specs.Strip.{IsStripped};
ghost use Rattle.osbytes_c.specs.PathParts.{AreParts, HasNoLastName};
ghost use Rattle.osbytes_c.specs.PathSpans.{HasNoExtensionSpan, IsExtensionSpan, IsNameSpan, IsParentSpan, IsPrefixSpan, IsStemSpan, style_on};

use crate::paths::part_list::Part;
use crate::paths::predicates::{
    Bytes, osb_core_path_ends_with, osb_core_path_has_root, osb_core_path_is_absolute,
    osb_core_path_starts_with, osb_core_path_strip_prefix,
};
use crate::paths::{
    osb_core_path_components, osb_core_path_extension, osb_core_path_file_name,
    osb_core_path_file_stem, osb_core_path_parent, osb_core_path_prefix,
};
use crate::span::Span;
use crate::status::DONE;
use crate::uses::{answer_of, len_of};

/// Where an export finds a part of a path; `None` if it finds none.
macro_rules! span_of {
    ($export:ident($($argument:expr),*)) => {{
        let mut span = Span { start: 0, end: 0 };
        match $export($($argument),*, &mut span) {
            0 => Some(span),
            _ => None,
        }
    }};
}

/// How many components of a path are written into an array; else the status.
pub fn components_in(platform: u32, path: &[u8], array: &mut [Part]) -> Result<usize, u32>
    ensures ok { IfOk result
        (λ count. AreParts (style_on platform) path.now (take count array.new)) }
    ensures room { IfErr result (λ status. status ≡ 2 → (parts : List Part)
        × (AreParts (style_on platform) path.now parts × (length array.old < length parts))) }
    ensures platform { IfErr result (λ status. status ≡ 16 → 2 < platform) }
{
    len_of!(osb_core_path_components(platform, path, array))
}

/// What of a path follows the components of a base; `None` if it doesn't start with them, or there
/// is no such platform.
pub fn rest_after<'a>(platform: u32, path: &'a [u8], base: &[u8]) -> Option<&'a [u8]>
    ensures { MatchOption result
        ((2 < platform) ⊎ (¬ (StartsWith (style_on platform) path.entry.now base.now)))
        (λ rest. (more : List Item)
        × IsStripped (style_on platform) path.entry.now base.now rest.now more) }
{
    let mut rest = Bytes { bytes: path };
    match osb_core_path_strip_prefix(platform, path, base, &mut rest) {
        DONE => Some(rest.bytes),
        _ => None,
    }
}

/// Whether a path has a root, or `None` if there is no such platform.
pub fn has_root(platform: u32, path: &[u8]) -> Option<bool>
    ensures { MatchOption result (2 < platform)
        (λ is. (is ≡ true) ↔ HasRoot (style_on platform) path.now) }
{
    answer_of!(osb_core_path_has_root(platform, path))
}

/// Whether it is absolute.
pub fn is_absolute(platform: u32, path: &[u8]) -> Option<bool>
    ensures { MatchOption result (2 < platform)
        (λ is. (is ≡ true) ↔ IsAbsolute (style_on platform) path.now) }
{
    answer_of!(osb_core_path_is_absolute(platform, path))
}

/// Whether it starts with the components of a base.
pub fn starts_with(platform: u32, path: &[u8], base: &[u8]) -> Option<bool>
    ensures { MatchOption result (2 < platform)
        (λ is. (is ≡ true) ↔ StartsWith (style_on platform) path.now base.now) }
{
    answer_of!(osb_core_path_starts_with(platform, path, base))
}

/// Whether it ends with those of a child.
pub fn ends_with(platform: u32, path: &[u8], child: &[u8]) -> Option<bool>
    ensures { MatchOption result (2 < platform)
        (λ is. (is ≡ true) ↔ EndsWith (style_on platform) path.now child.now) }
{
    answer_of!(osb_core_path_ends_with(platform, path, child))
}

/// Where the parent of a path is; `None` if it has none, or there is no such platform.
pub fn parent_of(platform: u32, path: &[u8]) -> Option<Span>
    ensures { MatchOption result ((2 < platform) ⊎ HasNoParent (style_on platform) path.now)
        (λ span. IsParentSpan (style_on platform) path.now span) }
{
    span_of!(osb_core_path_parent(platform, path))
}

/// Where the last component of a path is, if that is a name.
pub fn name_of(platform: u32, path: &[u8]) -> Option<Span>
    ensures { MatchOption result ((2 < platform) ⊎ HasNoLastName (style_on platform) path.now)
        (λ span. IsNameSpan (style_on platform) path.now span) }
{
    span_of!(osb_core_path_file_name(platform, path))
}

/// Where the last name of a path is, without its extension.
pub fn stem_of(platform: u32, path: &[u8]) -> Option<Span>
    ensures { MatchOption result ((2 < platform) ⊎ HasNoLastName (style_on platform) path.now)
        (λ span. IsStemSpan (style_on platform) path.now span) }
{
    span_of!(osb_core_path_file_stem(platform, path))
}

/// Where the extension of a path's last name is.
pub fn extension_of(platform: u32, path: &[u8]) -> Option<Span>
    ensures { MatchOption result ((2 < platform) ⊎ HasNoExtensionSpan (style_on platform) path.now)
        (λ span. IsExtensionSpan (style_on platform) path.now span) }
{
    span_of!(osb_core_path_extension(platform, path))
}

/// Where the prefix of a path is.
pub fn prefix_of(platform: u32, path: &[u8]) -> Option<Span>
    ensures { MatchOption result ((2 < platform) ⊎ (¬ (IsPrefixed (style_on platform) path.now)))
        (λ span. IsPrefixSpan (style_on platform) path.now span) }
{
    span_of!(osb_core_path_prefix(platform, path))
}
