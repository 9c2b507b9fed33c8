//! The strings of Unix: any bytes. Their units are their bytes, and no bytes are rejected.
ghost use Rattle.std.specs.{List.All, Str.Lossy.utf8_lossy};
ghost use Rattle.wtf8_core.specs.{Byte.IsByte, Utf8.IsIllFormedPart};
ghost use Rattle.platform_str.specs.PlatformWords.{itself};
ghost use Rattle.platform_str.specs.platforms.Unix.{IsNoFault, AreAboveAscii, IsSame, bytes_prop, unix_laws, unix_parts, unix_readings, unix_occurrence};

use crate::platform::{Platform, Unix};
use std::alloc::{AllocError, Allocator, Global};
use wtf8_core::{EncodingError, utf8_fault};

/// A borrowed string of Unix.
pub type OsStr<'a> = crate::OsStr<'a, Unix>;

/// An owned string of Unix.
pub type OsString<A = Global> = crate::OsString<Unix, A>;

/// A string of Unix that is borrowed or owned.
pub type OsStrCow<'a, A = Global> = crate::OsStrCow<'a, Unix, A>;

/// A borrowed path of Unix.
pub type Path<'a> = crate::Path<'a, Unix>;

/// An owned path of Unix.
pub type PathBuf<A = Global> = crate::PathBuf<Unix, A>;

/// A path of Unix that is borrowed or owned.
pub type PathCow<'a, A = Global> = crate::PathCow<'a, Unix, A>;

impl Platform for Unix {
    ghost well_formed = { All IsByte };

    ghost well_formed_prop = { bytes_prop };

    ghost units = { itself };

    ghost is_unit_list = { All IsByte };

    ghost io_safe = { All IsByte };

    ghost first_fault = { IsNoFault };

    ghost lossy = { utf8_lossy };

    ghost replaces = { IsIllFormedPart };

    ghost occurrence = { unix_occurrence };

    ghost laws = { unix_laws };

    ghost reads_as = { IsSame };

    ghost part_units = { AreAboveAscii };

    ghost parts = { unix_parts };

    ghost readings = { unix_readings };

    fn check(_bytes: &[u8]) -> Result<(), EncodingError> {
        Ok(())
    }

    fn is_io_safe(_bytes: &[u8]) -> bool {
        true
    }

    fn lossy_len(bytes: &[u8]) -> usize {
        match utf8_fault(bytes) {
            Some((_, error_len)) => Unix::replaced_len(bytes, error_len),
            None => 0,
        }
    }

    fn replaced_len(bytes: &[u8], error_len: Option<u8>) -> usize {
        error_len.map_or(bytes.len(), usize::from)
    }

    fn first_unit(bytes: &[u8]) -> (u16, usize) {
        (u16::from(bytes[0]), 1)
    }

    fn starts_with_os(string: &[u8], prefix: &[u8]) -> bool {
        string.starts_with(prefix)
    }

    fn ends_with_os(string: &[u8], suffix: &[u8]) -> bool {
        string.ends_with(suffix)
    }

    fn push_bytes<A: Allocator>(string: &mut Vec<u8, A>, more: &[u8]) -> Result<(), AllocError> {
        string.extend_from_slice(more)
    }

    fn read_lossy<A: Allocator>(alloc: A, bytes: &[u8]) -> Result<Vec<u8, A>, AllocError> {
        Vec::from_slice(alloc, bytes)
    }
}
