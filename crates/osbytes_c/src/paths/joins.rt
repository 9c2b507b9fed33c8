//! A path after another, and how a path is reached from another.
ghost use Rattle.std.specs.Prelude.{◌≡◌, ◌≢◌, ◌<◌, ◌↔◌, ◌∷◌, [], Some, None};
ghost use Rattle.path_building.specs.Checked.{IsCheckedJoin};
ghost use Rattle.path_building.specs.Join.{IsJoin};
ghost use Rattle.path_building.specs.Relative.{IsRelativeFrom};
ghost use Rattle.osbytes_c.specs.Answers.{IsOneOf, IsWritten};
ghost use Rattle.osbytes_c.specs.PathBuilding.{IsJoinReport, memory_error, reason_index, reason_number};
ghost use Rattle.osbytes_c.specs.PathSpans.{style_on};
ghost use Rattle.osbytes_c.specs.Statuses.{bad_path, done, no_memory, no_platform, no_room, none};

use crate::built::write_list;
use crate::paths::predicates::style_of;
use crate::status::{BAD_PATH, NO_MEMORY, NO_PLATFORM, NONE};
use path_building::{BaseError, JoinError, NameError, join, join_checked, relative_from};
use std::alloc::Global;

/// Writes a path after a base into `out`, as far as there is room, and counts its bytes.
#[unsafe(no_mangle)]
pub extern "C" fn osb_core_path_join(
    alloc: Global,
    platform: u32,
    base: &[u8],
    path: &[u8],
    out: &mut [u8],
    count: &mut usize,
) -> u32
    ensures written { IsWritten result (IsJoin (style_on platform) base.now path.now) out.old
        out.new count.new }
    ensures platform { (result ≡ no_platform) ↔ (2 < platform) }
    ensures answers { IsOneOf (done ∷ no_room ∷ no_memory ∷ no_platform ∷ []) result }
{
    let Some(style) = style_of(platform) else {
        return NO_PLATFORM;
    };
    match join(alloc, style, base, path) {
        Ok(joined) => write_list(&joined, out, count),
        Err(_) => NO_MEMORY,
    }
}

/// Why a path isn't joined to a base.
#[repr(C)]
#[derive(Clone, Copy)]
pub struct JoinFault {
    /// Of 3 to 5 the number of the component at fault, from 0 on. Of 7 and 8 the byte index of the
    /// first NUL. Else 0.
    pub index: usize,
    /// 1: the path has a prefix. 2: it has a root. 3: one of its `..` leaves the base. 4: a name of
    /// a Windows path has a colon. 5: one is reserved. 6: the base of Windows is incomplete or has a
    /// reserved name. 7: the path has a NUL. 8: the base has one.
    pub reason: u32,
}

/// Writes a path below a base, or why there is none.
#[unsafe(no_mangle)]
pub extern "C" fn osb_core_path_join_checked(
    alloc: Global,
    platform: u32,
    base: &[u8],
    path: &[u8],
    out: &mut [u8],
    count: &mut usize,
    fault: &mut JoinFault,
) -> u32
    ensures written { IsWritten result (IsCheckedJoin (style_on platform) base.now path.now)
        out.old out.new count.new }
    ensures fault { result ≡ bad_path →
        IsJoinReport (style_on platform) base.now path.now fault.new }
    ensures platform { (result ≡ no_platform) ↔ (2 < platform) }
    ensures answers { IsOneOf (done ∷ no_room ∷ no_memory ∷ bad_path ∷ no_platform ∷ []) result }
{
    let Some(style) = style_of(platform) else {
        return NO_PLATFORM;
    };
    match join_checked(alloc, style, base, path) {
        Ok(joined) => write_list(&joined, out, count),
        Err(error) => rejected(error, fault),
    }
}

/// The status of a path that isn't joined, and its fault.
fn rejected(error: JoinError, fault: &mut JoinFault) -> u32
    ensures path { result ≡ bad_path → (error ≢ memory_error)
        × ((fault.new.reason ≡ reason_number error) × (fault.new.index ≡ reason_index error)) }
    ensures answers { IsOneOf (no_memory ∷ bad_path ∷ []) result }
{
    let (reason, index) = match error {
        JoinError::Name(NameError::Prefix) => (1, 0),
        JoinError::Name(NameError::Root) => (2, 0),
        JoinError::Name(NameError::Leaves(index)) => (3, index),
        JoinError::Name(NameError::Stream(index)) => (4, index),
        JoinError::Name(NameError::Reserved(index)) => (5, index),
        JoinError::Base(BaseError::Incomplete | BaseError::Reserved) => (6, 0),
        JoinError::Name(NameError::Nul(index)) => (7, index),
        JoinError::Base(BaseError::Nul(index)) => (8, index),
        JoinError::Name(NameError::Memory) => return NO_MEMORY,
    };
    *fault = JoinFault { index, reason };
    BAD_PATH
}

/// Writes how a path is reached from a base, if it is.
#[unsafe(no_mangle)]
pub extern "C" fn osb_core_path_relative(
    alloc: Global,
    platform: u32,
    path: &[u8],
    base: &[u8],
    out: &mut [u8],
    count: &mut usize,
) -> u32
    ensures written { IsWritten result
        (λ way. IsRelativeFrom (style_on platform) path.now base.now (Some way)) out.old out.new
        count.new }
    ensures none { result ≡ none → IsRelativeFrom (style_on platform) path.now base.now None }
    ensures platform { (result ≡ no_platform) ↔ (2 < platform) }
    ensures answers { IsOneOf (done ∷ no_room ∷ none ∷ no_memory ∷ no_platform ∷ []) result }
{
    let Some(style) = style_of(platform) else {
        return NO_PLATFORM;
    };
    match relative_from(alloc, style, path, base) {
        Ok(Some(way)) => write_list(&way, out, count),
        Ok(None) => NONE,
        Err(_) => NO_MEMORY,
    }
}
