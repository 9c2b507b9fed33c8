//! The strings of WebAssembly: UTF-8 (RFC 3629). Their units are their bytes.
ghost use Rattle.std.specs.Str.{IsUtf8};
ghost use Rattle.wtf8_core.proofs.lemmas.forms.Propositions.{utf8_prop};
ghost use Rattle.platform_str.specs.PlatformWords.{itself, IsThree};
ghost use Rattle.platform_str.specs.platforms.Wasm.{IsTextFault, AreNone, wasm_laws, wasm_parts, wasm_readings, wasm_occurrence};
ghost use Rattle.wtf8_core.specs.Lossy.{IsLossyText};

use crate::lossy;
use crate::platform::{Platform, Unix, Wasm};
use std::alloc::{AllocError, Allocator, Global};
use wtf8_core::{EncodingError, is_utf8, utf8_fault};

/// A borrowed string of wasm.
pub type OsStr<'a> = crate::OsStr<'a, Wasm>;

/// An owned string of wasm.
pub type OsString<A = Global> = crate::OsString<Wasm, A>;

/// A string of wasm that is borrowed or owned.
pub type OsStrCow<'a, A = Global> = crate::OsStrCow<'a, Wasm, A>;

/// A borrowed path of wasm.
pub type Path<'a> = crate::Path<'a, Wasm>;

/// An owned path of wasm.
pub type PathBuf<A = Global> = crate::PathBuf<Wasm, A>;

/// A path of wasm that is borrowed or owned.
pub type PathCow<'a, A = Global> = crate::PathCow<'a, Wasm, A>;

impl Platform for Wasm {
    ghost well_formed = { IsUtf8 };

    ghost well_formed_prop = { utf8_prop };

    ghost units = { itself };

    ghost is_unit_list = { IsUtf8 };

    ghost io_safe = { IsUtf8 };

    ghost first_fault = { IsTextFault };

    ghost lossy = { itself };

    ghost replaces = { IsThree };

    ghost occurrence = { wasm_occurrence };

    ghost laws = { wasm_laws };

    ghost reads_as = { IsLossyText };

    ghost part_units = { AreNone };

    ghost parts = { wasm_parts };

    ghost readings = { wasm_readings };

    fn check(bytes: &[u8]) -> Result<(), EncodingError> {
        match utf8_fault(bytes) {
            Some(fault) => Err(EncodingError::from(fault)),
            None => Ok(()),
        }
    }

    #[inline(always)]
    fn utf8_fault(_bytes: &[u8]) -> Option<(usize, Option<u8>)> {
        None
    }

    fn is_io_safe(bytes: &[u8]) -> bool {
        is_utf8(bytes)
    }

    fn lossy_len(_bytes: &[u8]) -> usize {
        3
    }

    fn first_unit(_bytes: &[u8]) -> (u16, usize) {
        unreachable!()
    }

    fn starts_with_os(string: &[u8], prefix: &[u8]) -> bool {
        string.starts_with(prefix)
    }

    fn ends_with_os(string: &[u8], suffix: &[u8]) -> bool {
        string.ends_with(suffix)
    }

    fn push_bytes<A: Allocator>(string: &mut Vec<u8, A>, more: &[u8]) -> Result<(), AllocError> {
        string.extend_from_slice(more)
    }

    fn read_lossy<A: Allocator>(alloc: A, bytes: &[u8]) -> Result<Vec<u8, A>, AllocError> {
        lossy::text_bytes::<Unix, A>(alloc, bytes, utf8_fault(bytes))
    }
}
