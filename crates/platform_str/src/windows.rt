//! The strings of Windows: any 16-bit units (RFC 2781), stored as WTF-8.
ghost use Rattle.std.specs.Str.{IsUtf8};
ghost use Rattle.wtf8_core.specs.{Wtf8.IsWtf8, UnitsOf.units_of, UnitsOf.wtf8_lossy, Checker.HasFirstFault, PartUnits.AreLoneSurrogates, LossyReading.IsLossyReading};
ghost use Rattle.wtf8_core.proofs.lemmas.{forms.Propositions.wtf8_prop, occurrence.Wtf8.wtf8_occurrence};
ghost use Rattle.platform_str.specs.PlatformWords.{AreWideUnits, IsThree};
ghost use Rattle.platform_str.specs.platforms.Windows.{windows_laws, windows_parts, windows_readings};

use crate::join::push_wtf8;
use crate::platform::{Platform, Windows};
use crate::reading::read_wtf8;
use crate::to_wide;
use std::alloc::{AllocError, Allocator, Global};
use wtf8_core::{Checker, EncodingError, is_utf8, surrogate_fault};

/// A borrowed string of Windows.
pub type OsStr<'a> = crate::OsStr<'a, Windows>;

/// An owned string of Windows.
pub type OsString<A = Global> = crate::OsString<Windows, A>;

/// A string of Windows that is borrowed or owned.
pub type OsStrCow<'a, A = Global> = crate::OsStrCow<'a, Windows, A>;

/// A borrowed path of Windows.
pub type Path<'a> = crate::Path<'a, Windows>;

/// An owned path of Windows.
pub type PathBuf<A = Global> = crate::PathBuf<Windows, A>;

/// A path of Windows that is borrowed or owned.
pub type PathCow<'a, A = Global> = crate::PathCow<'a, Windows, A>;

/// The length in bytes of a surrogate's form.
const SURROGATE_LEN: usize = 3;

impl Platform for Windows {
    ghost well_formed = { IsWtf8 };

    ghost well_formed_prop = { wtf8_prop };

    ghost units = { units_of };

    ghost is_unit_list = { AreWideUnits };

    ghost io_safe = { IsUtf8 };

    ghost first_fault = { HasFirstFault };

    ghost lossy = { wtf8_lossy };

    ghost replaces = { IsThree };

    ghost occurrence = { wtf8_occurrence };

    ghost laws = { windows_laws };

    ghost reads_as = { IsLossyReading };

    ghost part_units = { AreLoneSurrogates };

    ghost parts = { windows_parts };

    ghost readings = { windows_readings };

    // a whole string is one piece
    fn check(bytes: &[u8]) -> Result<(), EncodingError> {
        let mut checker = Checker::new();
        checker.feed(bytes)?;
        checker.finish()
    }

    #[inline(always)]
    fn utf8_fault(bytes: &[u8]) -> Option<(usize, Option<u8>)> {
        surrogate_fault(bytes)
    }

    fn is_io_safe(bytes: &[u8]) -> bool {
        is_utf8(bytes)
    }

    fn lossy_len(_bytes: &[u8]) -> usize {
        SURROGATE_LEN
    }

    fn first_unit(bytes: &[u8]) -> (u16, usize) {
        (to_wide::first_unit(bytes), SURROGATE_LEN)
    }

    fn starts_with_os(string: &[u8], prefix: &[u8]) -> bool {
        wtf8_core::starts_with(string, prefix)
    }

    fn ends_with_os(string: &[u8], suffix: &[u8]) -> bool {
        wtf8_core::ends_with(string, suffix)
    }

    fn push_bytes<A: Allocator>(string: &mut Vec<u8, A>, more: &[u8]) -> Result<(), AllocError> {
        push_wtf8(string, more)
    }

    fn read_lossy<A: Allocator>(alloc: A, bytes: &[u8]) -> Result<Vec<u8, A>, AllocError> {
        read_wtf8(alloc, bytes)
    }
}
