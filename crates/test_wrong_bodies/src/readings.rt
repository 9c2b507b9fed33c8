//! Lossy texts and readings.
ghost use Rattle.std.specs.Prelude.{IfOk};
ghost use Rattle.platform_str.specs.Lossy.{IsIoLossy};
ghost use Rattle.platform_str.specs.Strings.{string_vec_of};

use platform_str::{OsString, OsStringBytes, Platform, Windows};
use std::alloc::{AllocError, Allocator};

/// A string as its lossy text, in its memory.
pub fn into_lossy<E: Platform, A: Allocator>(string: OsString<E, A>) -> Vec<u8, A>
    ensures { IsIoLossy E.io_safe E.lossy (string_vec_of string).items result.items }
{
    string.into_io_vec_lossy()
}

/// The lossy reading of any bytes on Windows.
pub fn read_windows_lossy<A: Allocator>(alloc: A, raw: &[u8]) -> Result<Vec<u8, A>, AllocError>
    ensures { IfOk result (λ reading. ⟦<Windows as Platform>⟧.reads_as raw.now reading.items) }
{
    Windows::read_lossy(alloc, raw)
}
