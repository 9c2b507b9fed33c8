//! Other forms of a path: normal, clean, and that of another platform.
ghost use Rattle.std.specs.Prelude.{◌≡◌, ◌⊎◌, ◌≤◌, ◌<◌, ◌↔◌, ◌∷◌, []};
ghost use Rattle.path_building.specs.declared.styles.StyleError.TheVariants as style_error;
ghost use Rattle.path_building.specs.Cleaned.{IsCleaned};
ghost use Rattle.path_building.specs.Normalized.{HasNoNormalForm, IsNormalized};
ghost use Rattle.path_building.specs.Restyled.{IsRestyled, IsStyleFault};
ghost use Rattle.osbytes_c.specs.Answers.{IsOneOf, IsWritten};
ghost use Rattle.osbytes_c.specs.Faults.{IsReport, IsString};
ghost use Rattle.osbytes_c.specs.PathSpans.{style_on};
ghost use Rattle.osbytes_c.specs.Statuses.{bad_path, done, faulty, no_memory, no_platform, no_room, none};

use crate::built::write_list;
use crate::paths::predicates::style_of;
use crate::status::{BAD_PATH, FAULTY, NO_MEMORY, NO_PLATFORM, NONE};
use crate::strings::check::osb_core_check;
use crate::strings::fault::Fault;
use path_building::{NormalizeError, StyleError, clean, normalize, with_style};
use std::alloc::Global;

/// Writes the normal form of a path into `out`, as far as there is room, and counts its bytes.
/// There is none if a `..` has no name before it to take away.
#[unsafe(no_mangle)]
pub extern "C" fn osb_core_path_normalize(
    alloc: Global,
    platform: u32,
    path: &[u8],
    out: &mut [u8],
    count: &mut usize,
) -> u32
    ensures written { IsWritten result (IsNormalized (style_on platform) path.now) out.old out.new
        count.new }
    ensures none { result ≡ none → HasNoNormalForm (style_on platform) path.now }
    ensures platform { (result ≡ no_platform) ↔ (2 < platform) }
    ensures answers { IsOneOf (done ∷ no_room ∷ none ∷ no_memory ∷ no_platform ∷ []) result }
{
    let Some(style) = style_of(platform) else {
        return NO_PLATFORM;
    };
    match normalize(alloc, style, path) {
        Ok(normal) => write_list(&normal, out, count),
        Err(NormalizeError::NoName) => NONE,
        Err(NormalizeError::Memory) => NO_MEMORY,
    }
}

/// Writes the path cleaned.
#[unsafe(no_mangle)]
pub extern "C" fn osb_core_path_clean(
    alloc: Global,
    platform: u32,
    path: &[u8],
    out: &mut [u8],
    count: &mut usize,
) -> u32
    ensures written { IsWritten result (IsCleaned (style_on platform) path.now) out.old out.new
        count.new }
    ensures platform { (result ≡ no_platform) ↔ (2 < platform) }
    ensures answers { IsOneOf (done ∷ no_room ∷ no_memory ∷ no_platform ∷ []) result }
{
    let Some(style) = style_of(platform) else {
        return NO_PLATFORM;
    };
    match clean(alloc, style, path) {
        Ok(clean) => write_list(&clean, out, count),
        Err(_) => NO_MEMORY,
    }
}

/// Writes the path of another platform with the same components. If the bytes aren't a string of
/// that platform, the fault is their first one; `index` is that of the first component that its
/// paths can't have.
#[unsafe(no_mangle)]
pub extern "C" fn osb_core_path_convert(
    alloc: Global,
    from: u32,
    to: u32,
    path: &[u8],
    out: &mut [u8],
    count: &mut usize,
    index: &mut usize,
    fault: &mut Fault,
) -> u32
    ensures written { IsWritten result (IsRestyled (style_on from) (style_on to) path.now) out.old
        out.new count.new }
    ensures string { (result ≡ done) ⊎ ((result ≡ no_room) ⊎ (result ≡ bad_path))
        → IsString to path.now }
    ensures fault { result ≡ faulty → IsReport to path.now fault.new }
    ensures faulty { (result ≡ faulty) ↔ ((from ≤ 2) × ((to ≤ 2) × (¬ (IsString to path.now)))) }
    ensures component { result ≡ bad_path → IsStyleFault (style_on from) (style_on to) path.now
        (style_error.Component index.new) }
    ensures platform { (result ≡ no_platform) ↔ ((2 < from) ⊎ (2 < to)) }
    ensures answers { IsOneOf (done ∷ faulty ∷ no_room ∷ no_memory ∷ bad_path ∷ no_platform ∷ [])
        result }
{
    let Some(style) = style_of(from) else {
        return NO_PLATFORM;
    };
    let Some(wanted) = style_of(to) else {
        return NO_PLATFORM;
    };
    if osb_core_check(to, path, fault) == FAULTY {
        return FAULTY;
    }
    match with_style(alloc, style, wanted, path) {
        Ok(made) => write_list(&made, out, count),
        Err(StyleError::Component(at)) => {
            *index = at;
            BAD_PATH
        }
        Err(StyleError::Memory) => NO_MEMORY,
    }
}
