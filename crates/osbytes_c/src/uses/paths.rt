//! For trying: what a caller of what builds paths concludes, in each outcome.
ghost use Rattle.std.specs.Prelude.{◌≡◌, ◌<◌, Bool, Some, None, take, IfOk, IfErr, IfSome};
ghost use Rattle.path_building.specs.declared.styles.StyleError.TheVariants as style_error;
ghost use Rattle.path_building.specs.Checked.{IsCheckedJoin};
ghost use Rattle.path_building.specs.Cleaned.{IsCleaned};
ghost use Rattle.path_building.specs.Faults.{HasFault, Leaves};
ghost use Rattle.path_building.specs.FileName.{IsExtensionAdded, IsExtensionSet, IsNamed};
ghost use Rattle.path_building.specs.Join.{IsJoin};
ghost use Rattle.path_building.specs.Normalized.{HasNoNormalForm, IsNormalized};
ghost use Rattle.path_building.specs.Relative.{IsRelativeFrom};
ghost use Rattle.path_building.specs.Restyled.{IsRestyled, IsStyleFault};
ghost use Rattle.path_rules.specs.Name.{IsExtensionText};
ghost use Rattle.osbytes_c.specs.Faults.{IsReport, IsString};
ghost use Rattle.osbytes_c.specs.PathBuilding.{IsJoinReport};
ghost use Rattle.osbytes_c.specs.PathSpans.{style_on};

use crate::paths::forms::{osb_core_path_clean, osb_core_path_convert, osb_core_path_normalize};
use crate::paths::joins::{
    JoinFault, osb_core_path_join, osb_core_path_join_checked, osb_core_path_relative,
};
use crate::paths::names::{
    osb_core_path_with_added_extension, osb_core_path_with_extension, osb_core_path_with_file_name,
};
use crate::strings::fault::Fault;
use crate::uses::len_of;
use std::alloc::Global;

/// How many bytes a path after a base takes in a buffer; else the status.
pub fn join_in(
    alloc: Global,
    platform: u32,
    base: &[u8],
    path: &[u8],
    buffer: &mut [u8],
) -> Result<usize, u32>
    ensures ok { IfOk result
        (λ len. IsJoin (style_on platform) base.now path.now (take len buffer.new)) }
    ensures err { IfErr result (λ status. status ≡ 16 → 2 < platform) }
{
    len_of!(osb_core_path_join(alloc, platform, base, path, buffer))
}

/// The length of a path that is joined below a base, written into a buffer; else the status. The
/// reason and the index are returned, too.
pub fn join_checked_in(
    alloc: Global,
    platform: u32,
    base: &[u8],
    path: &[u8],
    buffer: &mut [u8],
    fault: &mut JoinFault,
) -> Result<usize, u32>
    ensures ok { IfOk result
        (λ len. IsCheckedJoin (style_on platform) base.now path.now (take len buffer.new)) }
    ensures err { IfErr result
        (λ status. status ≡ 12 → IsJoinReport (style_on platform) base.now path.now fault.new) }
{
    len_of!(
        osb_core_path_join_checked(alloc, platform, base, path, buffer),
        fault
    )
}

/// The number of the first component by which a path leaves the base, if it isn't joined for that.
pub fn leaving_component(
    alloc: Global,
    platform: u32,
    base: &[u8],
    path: &[u8],
    buffer: &mut [u8],
) -> Option<usize>
    ensures leaves { IfSome result (λ index. HasFault (style_on platform) path.now index Leaves) }
{
    let mut count = 0;
    let mut fault = JoinFault {
        index: 0,
        reason: 0,
    };
    match osb_core_path_join_checked(alloc, platform, base, path, buffer, &mut count, &mut fault) {
        12 if fault.reason == 3 => Some(fault.index),
        _ => None,
    }
}

/// The length of the path that leads from a base to a path, written into a buffer; else the status.
pub fn relative_in(
    alloc: Global,
    platform: u32,
    path: &[u8],
    base: &[u8],
    buffer: &mut [u8],
) -> Result<usize, u32>
    ensures ok { IfOk result (λ len.
        IsRelativeFrom (style_on platform) path.now base.now (Some (take len buffer.new))) }
    ensures err { IfErr result
        (λ status. status ≡ 3 → IsRelativeFrom (style_on platform) path.now base.now None) }
{
    len_of!(osb_core_path_relative(alloc, platform, path, base, buffer))
}

/// The length of the normal form of a path, written into a buffer; else the status.
pub fn normalize_in(
    alloc: Global,
    platform: u32,
    path: &[u8],
    buffer: &mut [u8],
) -> Result<usize, u32>
    ensures ok { IfOk result
        (λ len. IsNormalized (style_on platform) path.now (take len buffer.new)) }
    ensures err { IfErr result
        (λ status. status ≡ 3 → HasNoNormalForm (style_on platform) path.now) }
{
    len_of!(osb_core_path_normalize(alloc, platform, path, buffer))
}

/// The length of a cleaned path, written into a buffer; else the status.
pub fn clean_in(alloc: Global, platform: u32, path: &[u8], buffer: &mut [u8]) -> Result<usize, u32>
    ensures ok { IfOk result (λ len. IsCleaned (style_on platform) path.now (take len buffer.new)) }
    ensures err { IfErr result (λ status. status ≡ 16 → 2 < platform) }
{
    len_of!(osb_core_path_clean(alloc, platform, path, buffer))
}

/// The length of the path of another platform, written into a buffer; else the status. The index of
/// the component and the fault are returned, too.
pub fn convert_in(
    alloc: Global,
    from: u32,
    to: u32,
    path: &[u8],
    buffer: &mut [u8],
    index: &mut usize,
    fault: &mut Fault,
) -> Result<usize, u32>
    ensures ok { IfOk result (λ len. IsString to path.now
        × IsRestyled (style_on from) (style_on to) path.now (take len buffer.new)) }
    ensures fault { IfErr result (λ status. status ≡ 1 → IsReport to path.now fault.new
        × (¬ (IsString to path.now))) }
    ensures component { IfErr result (λ status. status ≡ 12 → IsString to path.now
        × IsStyleFault (style_on from) (style_on to) path.now (style_error.Component index.new)) }
{
    len_of!(
        osb_core_path_convert(alloc, from, to, path, buffer),
        index,
        fault
    )
}

/// The length of a path with another last name, written into a buffer; else the status.
pub fn named_in(
    alloc: Global,
    platform: u32,
    path: &[u8],
    name: &[u8],
    buffer: &mut [u8],
) -> Result<usize, u32>
    ensures ok { IfOk result
        (λ len. IsNamed (style_on platform) path.now name.now (take len buffer.new)) }
    ensures err { IfErr result (λ status. status ≡ 16 → 2 < platform) }
{
    len_of!(osb_core_path_with_file_name(alloc, platform, path, name, buffer))
}

/// The length of a path with another extension, written into a buffer; else the status.
pub fn extension_set_in(
    alloc: Global,
    platform: u32,
    path: &[u8],
    extension: &[u8],
    buffer: &mut [u8],
) -> Result<usize, u32>
    ensures ok { IfOk result (λ len. (is_set : Bool) × IsExtensionSet (style_on platform)
        path.now extension.now (take len buffer.new) is_set) }
    ensures err { IfErr result
        (λ status. status ≡ 23 → ¬ (IsExtensionText (style_on platform) extension.now)) }
{
    len_of!(osb_core_path_with_extension(alloc, platform, path, extension, buffer))
}

/// The length of a path with one more extension, written into a buffer; else the status.
pub fn extension_added_in(
    alloc: Global,
    platform: u32,
    path: &[u8],
    extension: &[u8],
    buffer: &mut [u8],
) -> Result<usize, u32>
    ensures ok { IfOk result (λ len. (is_added : Bool) × IsExtensionAdded (style_on platform)
        path.now extension.now (take len buffer.new) is_added) }
    ensures err { IfErr result
        (λ status. status ≡ 23 → ¬ (IsExtensionText (style_on platform) extension.now)) }
{
    len_of!(osb_core_path_with_added_extension(alloc, platform, path, extension, buffer))
}
