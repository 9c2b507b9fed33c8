//! A fourth platform, written outside: any bytes are a string, as on Unix.
ghost use Rattle.std.specs.Prelude.{◌≡◌, IsOk, IfOk};
ghost use Rattle.std.specs.List.{All};
ghost use Rattle.std.specs.Str.Lossy.{utf8_lossy};
ghost use Rattle.wtf8_core.specs.Byte.{IsByte};
ghost use Rattle.wtf8_core.specs.Utf8.{IsIllFormedPart};
ghost use Rattle.platform_str.specs.PlatformWords.{itself};
ghost use Rattle.platform_str.specs.Strings.{bytes};
ghost use Rattle.platform_str.specs.platforms.Unix.{IsNoFault, AreAboveAscii, IsSame, bytes_prop};
ghost use Rattle.platform_str.specs.platforms.Unix.{unix_laws, unix_parts, unix_readings, unix_occurrence};

use platform_str::{EncodingError, OsStr, Platform, Unix};
use std::alloc::{AllocError, Allocator};

/// The marker of strings that are any bytes.
pub struct Plan9;

impl Platform for Plan9 {
    ghost well_formed = { All IsByte };

    ghost well_formed_prop = { bytes_prop };

    ghost units = { itself };

    ghost is_unit_list = { All IsByte };

    ghost io_safe = { All IsByte };

    ghost first_fault = { IsNoFault };

    ghost lossy = { utf8_lossy };

    ghost replaces = { IsIllFormedPart };

    ghost reads_as = { IsSame };

    ghost part_units = { AreAboveAscii };

    ghost occurrence = { unix_occurrence };

    ghost laws = { unix_laws };

    ghost parts = { unix_parts };

    ghost readings = { unix_readings };

    fn check(bytes: &[u8]) -> Result<(), EncodingError> {
        Unix::check(bytes)
    }

    fn is_io_safe(bytes: &[u8]) -> bool {
        Unix::is_io_safe(bytes)
    }

    fn lossy_len(bytes: &[u8]) -> usize {
        Unix::lossy_len(bytes)
    }

    fn first_unit(bytes: &[u8]) -> (u16, usize) {
        Unix::first_unit(bytes)
    }

    fn starts_with_os(string: &[u8], prefix: &[u8]) -> bool {
        Unix::starts_with_os(string, prefix)
    }

    fn ends_with_os(string: &[u8], suffix: &[u8]) -> bool {
        Unix::ends_with_os(string, suffix)
    }

    fn push_bytes<A: Allocator>(string: &mut Vec<u8, A>, more: &[u8]) -> Result<(), AllocError> {
        Unix::push_bytes(string, more)
    }

    fn read_lossy<A: Allocator>(alloc: A, bytes: &[u8]) -> Result<Vec<u8, A>, AllocError> {
        Unix::read_lossy(alloc, bytes)
    }
}

/// Any bytes as a string of this platform: each are accepted, as they are.
pub fn plan9_string(raw: &[u8]) -> Result<OsStr<'_, Plan9>, EncodingError>
    ensures accepted { IsOk result }
    ensures same { IfOk result (λ string. bytes string ≡ raw.now) }
{
    OsStr::checked(raw)
}

/// The lossy reading of any bytes on this platform: the bytes.
pub fn plan9_reading<A: Allocator>(alloc: A, raw: &[u8]) -> Result<Vec<u8, A>, AllocError>
    ensures { IfOk result (λ reading. reading.items ≡ raw.now) }
{
    Plan9::read_lossy(alloc, raw)
}
