//! Parts of paths, by their indices.
//!
//! [`predicates`] tests paths. [`parts`] finds their components, which [`part_list`] writes, and
//! [`spans`] finds a part. [`joins`], [`forms`] and [`names`] build paths from others.
ghost use Rattle.std.specs.Prelude.{◌≡◌, ◌<◌, ◌↔◌, ◌∷◌, [], length};
ghost use Rattle.path_rules.specs.Parent.{HasNoParent};
ghost use Rattle.path_rules.specs.Prefix.{IsPrefixed};
ghost use Rattle.osbytes_c.specs.Answers.{IsDone, IsOneOf};
ghost use Rattle.osbytes_c.specs.PathParts.{HasNoLastName};
ghost use Rattle.osbytes_c.specs.PathSpans.{HasNoExtensionSpan, HasNoPart, IsExtensionSpan, IsNameSpan, IsParentSpan, IsPartSpan, IsPrefixSpan, IsStemSpan, IsWithin, WritesParts, style_on};
ghost use Rattle.osbytes_c.specs.Statuses.{done, no_platform, no_room, none};

pub mod forms;
pub mod joins;
pub mod names;
pub mod part_list;
mod parts;
pub mod predicates;
mod spans;

use crate::paths::part_list::Part;
use crate::paths::parts::write_parts;
use crate::paths::predicates::style_of;
use crate::paths::spans::{Sought, span_of};
use crate::span::Span;
use crate::status::{DONE, NO_PLATFORM, NONE, fits};

/// Writes the components of a path into `out`, as far as there is room, and counts them.
#[unsafe(no_mangle)]
pub extern "C" fn osb_core_path_components(
    platform: u32,
    path: &[u8],
    out: &mut [Part],
    count: &mut usize,
) -> u32
    ensures written { IsDone result
        (WritesParts (style_on platform) path.now out.old out.new count.new) (length out.old)
        count.new }
    ensures platform { (result ≡ no_platform) ↔ (2 < platform) }
    ensures answers { IsOneOf (done ∷ no_room ∷ no_platform ∷ []) result }
{
    let Some(style) = style_of(platform) else {
        return NO_PLATFORM;
    };
    let written = write_parts(style, path, out);
    *count = written;
    fits(written, out.len())
}

/// The path without its last component.
#[unsafe(no_mangle)]
pub extern "C" fn osb_core_path_parent(platform: u32, path: &[u8], span: &mut Span) -> u32
    ensures parent { result ≡ done → IsParentSpan (style_on platform) path.now span.new
        × IsWithin path.now span.new }
    ensures none { result ≡ none → HasNoParent (style_on platform) path.now }
    ensures platform { (result ≡ no_platform) ↔ (2 < platform) }
    ensures answers { IsOneOf (done ∷ none ∷ no_platform ∷ []) result }
{
    find(Sought::Parent, platform, path, span)
}

/// The prefix of a Windows path.
#[unsafe(no_mangle)]
pub extern "C" fn osb_core_path_prefix(platform: u32, path: &[u8], span: &mut Span) -> u32
    ensures prefix { result ≡ done → IsPrefixSpan (style_on platform) path.now span.new
        × IsWithin path.now span.new }
    ensures none { result ≡ none → ¬ (IsPrefixed (style_on platform) path.now) }
    ensures platform { (result ≡ no_platform) ↔ (2 < platform) }
    ensures answers { IsOneOf (done ∷ none ∷ no_platform ∷ []) result }
{
    find(Sought::Prefix, platform, path, span)
}

/// The last component of a path, if it is a name.
#[unsafe(no_mangle)]
pub extern "C" fn osb_core_path_file_name(platform: u32, path: &[u8], span: &mut Span) -> u32
    ensures name { result ≡ done → IsNameSpan (style_on platform) path.now span.new
        × IsWithin path.now span.new }
    ensures none { result ≡ none → HasNoLastName (style_on platform) path.now }
    ensures platform { (result ≡ no_platform) ↔ (2 < platform) }
    ensures answers { IsOneOf (done ∷ none ∷ no_platform ∷ []) result }
{
    find(Sought::FileName, platform, path, span)
}

/// That name without its extension and the dot before it.
#[unsafe(no_mangle)]
pub extern "C" fn osb_core_path_file_stem(platform: u32, path: &[u8], span: &mut Span) -> u32
    ensures stem { result ≡ done → IsStemSpan (style_on platform) path.now span.new
        × IsWithin path.now span.new }
    ensures none { result ≡ none → HasNoLastName (style_on platform) path.now }
    ensures platform { (result ≡ no_platform) ↔ (2 < platform) }
    ensures answers { IsOneOf (done ∷ none ∷ no_platform ∷ []) result }
{
    find(Sought::Stem, platform, path, span)
}

/// The extension of that name, after its dot.
#[unsafe(no_mangle)]
pub extern "C" fn osb_core_path_extension(platform: u32, path: &[u8], span: &mut Span) -> u32
    ensures extension { result ≡ done → IsExtensionSpan (style_on platform) path.now span.new
        × IsWithin path.now span.new }
    ensures none { result ≡ none → HasNoExtensionSpan (style_on platform) path.now }
    ensures platform { (result ≡ no_platform) ↔ (2 < platform) }
    ensures answers { IsOneOf (done ∷ none ∷ no_platform ∷ []) result }
{
    find(Sought::Extension, platform, path, span)
}

/// A part of a path.
fn find(sought: Sought, platform: u32, path: &[u8], span: &mut Span) -> u32
    ensures part { result ≡ done → IsPartSpan sought (style_on platform) path.now span.new
        × IsWithin path.now span.new }
    ensures none { result ≡ none → HasNoPart sought (style_on platform) path.now }
    ensures platform { (result ≡ no_platform) ↔ (2 < platform) }
    ensures answers { IsOneOf (done ∷ none ∷ no_platform ∷ []) result }
{
    let Some(style) = style_of(platform) else {
        return NO_PLATFORM;
    };
    let Some(found) = span_of(sought, style, path) else {
        return NONE;
    };
    *span = found;
    DONE
}
