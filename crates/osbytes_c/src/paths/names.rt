//! A path with another last name, or another extension of it.
ghost use Rattle.std.specs.Prelude.{◌≡◌, ◌≤◌, ◌<◌, ◌↔◌, ◌∷◌, [], Bool};
ghost use Rattle.path_building.specs.FileName.{IsExtensionAdded, IsExtensionSet, IsNamed};
ghost use Rattle.path_rules.specs.Name.{IsExtensionText};
ghost use Rattle.osbytes_c.specs.Answers.{IsOneOf, IsWritten};
ghost use Rattle.osbytes_c.specs.PathSpans.{style_on};
ghost use Rattle.osbytes_c.specs.Statuses.{done, no_extension, no_memory, no_platform, no_room};

use crate::built::write_list;
use crate::paths::predicates::style_of;
use crate::status::{NO_EXTENSION, NO_MEMORY, NO_PLATFORM};
use path_building::{with_added_extension, with_extension, with_file_name};
use path_rules::is_extension_text;
use std::alloc::Global;

/// Writes a path with another last name into `out`, as far as there is room, and counts its bytes.
#[unsafe(no_mangle)]
pub extern "C" fn osb_core_path_with_file_name(
    alloc: Global,
    platform: u32,
    path: &[u8],
    name: &[u8],
    out: &mut [u8],
    count: &mut usize,
) -> u32
    ensures written { IsWritten result (IsNamed (style_on platform) path.now name.now) out.old
        out.new count.new }
    ensures platform { (result ≡ no_platform) ↔ (2 < platform) }
    ensures answers { IsOneOf (done ∷ no_room ∷ no_memory ∷ no_platform ∷ []) result }
{
    let Some(style) = style_of(platform) else {
        return NO_PLATFORM;
    };
    match with_file_name(alloc, style, path, name) {
        Ok(named) => write_list(&named, out, count),
        Err(_) => NO_MEMORY,
    }
}

/// Writes a path with another extension of its last name.
#[unsafe(no_mangle)]
pub extern "C" fn osb_core_path_with_extension(
    alloc: Global,
    platform: u32,
    path: &[u8],
    extension: &[u8],
    out: &mut [u8],
    count: &mut usize,
) -> u32
    ensures written { IsWritten result (λ made. (is_set : Bool)
        × IsExtensionSet (style_on platform) path.now extension.now made is_set) out.old out.new
        count.new }
    ensures extension { (result ≡ no_extension) ↔ ((platform ≤ 2)
        × (¬ (IsExtensionText (style_on platform) extension.now))) }
    ensures platform { (result ≡ no_platform) ↔ (2 < platform) }
    ensures answers { IsOneOf
        (done ∷ no_room ∷ no_memory ∷ no_platform ∷ no_extension ∷ []) result }
{
    let Some(style) = style_of(platform) else {
        return NO_PLATFORM;
    };
    if !is_extension_text(style, extension) {
        return NO_EXTENSION;
    }
    match with_extension(alloc, style, path, extension) {
        Ok(made) => write_list(&made, out, count),
        Err(_) => NO_MEMORY,
    }
}

/// Writes a path with an extension after its last name.
#[unsafe(no_mangle)]
pub extern "C" fn osb_core_path_with_added_extension(
    alloc: Global,
    platform: u32,
    path: &[u8],
    extension: &[u8],
    out: &mut [u8],
    count: &mut usize,
) -> u32
    ensures written { IsWritten result (λ made. (is_added : Bool)
        × IsExtensionAdded (style_on platform) path.now extension.now made is_added) out.old
        out.new count.new }
    ensures extension { (result ≡ no_extension) ↔ ((platform ≤ 2)
        × (¬ (IsExtensionText (style_on platform) extension.now))) }
    ensures platform { (result ≡ no_platform) ↔ (2 < platform) }
    ensures answers { IsOneOf
        (done ∷ no_room ∷ no_memory ∷ no_platform ∷ no_extension ∷ []) result }
{
    let Some(style) = style_of(platform) else {
        return NO_PLATFORM;
    };
    if !is_extension_text(style, extension) {
        return NO_EXTENSION;
    }
    match with_added_extension(alloc, style, path, extension) {
        Ok(made) => write_list(&made, out, count),
        Err(_) => NO_MEMORY,
    }
}
