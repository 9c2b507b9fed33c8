//! Lossy texts, and lossy readings of any bytes.
ghost use Rattle.std.specs.Prelude.{◌≡◌, ◌≢◌, ℕ, List, length};
ghost use Rattle.std.specs.Str.Lossy.{utf8_lossy};
ghost use Rattle.wtf8_core.specs.Wtf8.{IsWtf8};
ghost use Rattle.wtf8_core.specs.Lossy.{IsLossyText};
ghost use Rattle.wtf8_core.specs.LossyReading.{IsLossyReading};
ghost use Rattle.wtf8_core.specs.UnitsOf.{wtf8_lossy};
ghost use Rattle.platform_str.specs.Strings.{bytes};

use crate::strings::unix;
use platform_str::{HasBytes, OsStr, Platform, Unix, Wasm, Windows};
use std::alloc::Global;

/// Returns the number of bytes of the lossy text of a string, or `usize::MAX` if an allocation
/// failed.
fn lossy_len<E: Platform>(alloc: Global, string: OsStr<E>) -> usize
    ensures { result ≢ usize.MAX → result ≡ length (E.lossy (bytes string.entry)) }
{
    match string.to_string_lossy(alloc) {
        Ok(text) => text.as_str().len(),
        Err(_) => usize::MAX,
    }
}

/// Returns the number of bytes of the lossy text of the bytes on Unix, or `usize::MAX` if an
/// allocation failed.
#[unsafe(no_mangle)]
pub extern "C" fn port_lossy(alloc: Global, raw: &[u8]) -> usize
    ensures { result ≢ usize.MAX → result ≡ length (utf8_lossy raw.now) }
{
    lossy_len(alloc, OsStr::<Unix>::from_encoded_bytes_unchecked(raw))
}

/// Returns the number of bytes of the lossy text of the bytes on Windows, for bytes that are WTF-8,
/// or `usize::MAX` if an allocation failed.
#[unsafe(no_mangle)]
pub extern "C" fn port_win_lossy(alloc: Global, raw: &[u8]) -> usize
    requires { IsWtf8 raw.now }
    ensures { result ≢ usize.MAX → result ≡ length (wtf8_lossy raw.now) }
{
    lossy_len(alloc, OsStr::<Windows>::from_encoded_bytes_unchecked(raw))
}

/// Returns the number of bytes of the string as it is printed on Unix, as a new text, or
/// `usize::MAX` if an allocation failed.
#[unsafe(no_mangle)]
pub extern "C" fn port_display(alloc: Global, raw: &[u8]) -> usize
    ensures { result ≢ usize.MAX → result ≡ length (utf8_lossy raw.now) }
{
    match unix(raw).display().to_string(alloc) {
        Ok(text) => text.as_str().len(),
        Err(_) => usize::MAX,
    }
}

/// Returns the number of bytes of the lossy reading of any bytes, or `usize::MAX` if an allocation
/// failed.
fn reading_len<E: Platform>(alloc: Global, raw: &[u8]) -> usize
    ensures { result ≢ usize.MAX → (reading : List ℕ) × E.reads_as raw.now reading
        × (result ≡ length reading) }
{
    match OsStr::<E>::from_raw_bytes_lossy(alloc, raw) {
        Ok(string) => string.bytes().len(),
        Err(_) => usize::MAX,
    }
}

/// Returns the number of bytes of the lossy reading of the bytes on Windows, or `usize::MAX` if an
/// allocation failed.
#[unsafe(no_mangle)]
pub extern "C" fn port_win_read_lossy(alloc: Global, raw: &[u8]) -> usize
    ensures { result ≢ usize.MAX → (reading : List ℕ) × IsLossyReading raw.now reading
        × (result ≡ length reading) }
{
    reading_len::<Windows>(alloc, raw)
}

/// Returns the number of bytes of the lossy reading of the bytes on wasm, or `usize::MAX` if an
/// allocation failed.
#[unsafe(no_mangle)]
pub extern "C" fn port_wasm_read_lossy(alloc: Global, raw: &[u8]) -> usize
    ensures { result ≢ usize.MAX → (reading : List ℕ) × IsLossyText raw.now reading
        × (result ≡ length reading) }
{
    reading_len::<Wasm>(alloc, raw)
}
