//! Units of Windows strings in bulk, and the bytes and code points of any.
ghost use Rattle.std.specs.Prelude.{◌≡◌, length, take, IsOk, IfOk, IfSome};
ghost use Rattle.wtf8_core.specs.Items.{AreItems, AreUnitItems};
ghost use Rattle.wtf8_core.specs.Wtf8.{HasUnits};
ghost use Rattle.wtf8_core.specs.UnitsOf.{units_of};
ghost use Rattle.platform_str.specs.Strings.{bytes};
ghost use Rattle.os_str_ext.specs.Parts.{unit_number};

use os_str_ext::OsUnit;
use platform_str::{OsStr, OsString, Windows};
use std::alloc::{AllocError, Global};
use wtf8_core::{CodePoints, DecodeWide, EncodingError, encode_wide};

/// The units of the Windows string with these units, all at once: the same.
pub fn through_wide(alloc: Global, units: &[u16]) -> Result<Vec<u16>, AllocError>
    ensures { IfOk result (λ wide. wide.items ≡ units.now) }
{
    OsString::from_wide(alloc, units)?
        .as_os_str()
        .to_wide(alloc)
}

/// The units of the empty string, which take no memory.
pub fn no_units(alloc: Global) -> Result<Vec<u16>, AllocError>
    ensures { IsOk result }
{
    OsStr::<Windows>::new("").to_wide(alloc)
}

/// The string of no units, which takes no memory.
pub fn of_no_units(alloc: Global) -> Result<OsString<Windows>, AllocError>
    ensures { IsOk result }
{
    OsString::from_wide(alloc, &[])
}

/// The number of a string's units, which are at the start of a buffer, if they have room there.
pub fn units_in(string: OsStr<'_, Windows>, buffer: &mut [u16]) -> Option<usize>
    ensures has_units { IfSome result
        (λ len. HasUnits (bytes string.entry) (take len buffer.new)) }
    ensures units { IfSome result (λ len. take len buffer.new ≡ units_of (bytes string.entry)) }
{
    let len = string.write_wide(buffer);
    if len <= buffer.len() { Some(len) } else { None }
}

/// The number of bytes of the string with these units, which are at the start of a buffer, if they
/// have room there.
pub fn bytes_in(units: &[u16], buffer: &mut [u8]) -> Option<usize>
    ensures { IfSome result (λ len. HasUnits (take len buffer.new) units.now) }
{
    let len = OsStr::<Windows>::write_from_wide(units, buffer);
    if len <= buffer.len() { Some(len) } else { None }
}

/// The number of a part's unit, converted as `to_u64` converts it.
pub fn unit_as_number(unit: OsUnit) -> u64
    ensures { result ≡ unit_number unit }
{
    u64::from(unit)
}

/// The code points that bytes encode, read one by one.
pub fn items_of_bytes(
    alloc: Global,
    raw: &[u8],
) -> Result<Vec<Result<u32, EncodingError>>, AllocError>
    ensures { IfOk result (λ items. AreItems raw.now items.items) }
{
    CodePoints::new(raw).collect(alloc)
}

/// The units that bytes have, read one by one.
pub fn unit_items_of_bytes(
    alloc: Global,
    raw: &[u8],
) -> Result<Vec<Result<u16, EncodingError>>, AllocError>
    ensures { IfOk result (λ items. AreUnitItems raw.now items.items) }
{
    encode_wide(raw).collect(alloc)
}

/// The bytes that encode units, read one by one.
pub fn bytes_of_units(alloc: Global, units: &[u16]) -> Result<Vec<u8>, AllocError>
    ensures { IfOk result (λ bytes. HasUnits bytes.items units.now) }
{
    DecodeWide::new(units).collect(alloc)
}
