//! Bytes to units and back.
ghost use Rattle.std.specs.Prelude.{◌≡◌, ◌≢◌, ◌≤◌, ℕ, List, length};
ghost use Rattle.wtf8_core.specs.Truncated.{IsTruncated};
ghost use Rattle.wtf8_core.specs.Wtf8.{HasUnits, IsWtf8};
ghost use Rattle.bench_exports.specs.Answers.{IsFaulty, IsFilled};

use platform_str::windows::{OsStr, OsString};
use std::alloc::Global;
use wtf8_core::{DecodeWide, encode_wide};

/// Writes the units of the bytes into `out`, which is at least as long as the bytes, and returns
/// their number; `usize::MAX` where the bytes aren't WTF-8.
#[unsafe(no_mangle)]
pub extern "C" fn port_encode_wide(bytes: &[u8], out: &mut [u16]) -> usize
    requires room { length bytes.now ≤ length out.old }
    ensures units { result ≢ usize.MAX → IsFilled (HasUnits bytes.now) out.old out.new result }
    ensures fault { result ≡ usize.MAX → IsFaulty bytes.now }
{
    let mut written = 0;
    for item in encode_wide(bytes) {
        match item {
            Ok(unit) => {
                out[written] = unit;
                written += 1;
            }
            Err(_) => return usize::MAX,
        }
    }
    written
}

/// Writes the bytes of the units into `out`, which has room for them, and returns their number.
/// Three bytes for each unit are always room enough.
#[unsafe(no_mangle)]
pub extern "C" fn port_decode_wide(units: &[u16], out: &mut [u8]) -> usize
    requires room { (bytes : List ℕ) → HasUnits bytes units.now → length bytes ≤ length out.old }
    ensures { IsFilled (λ bytes. HasUnits bytes units.now) out.old out.new result }
{
    let mut written = 0;
    for byte in DecodeWide::new(units) {
        out[written] = byte;
        written += 1;
    }
    written
}

/// Writes the units of the bytes into `out`, truncated, and returns their number; `usize::MAX`
/// where the bytes aren't WTF-8.
#[unsafe(no_mangle)]
pub extern "C" fn port_write_wide(bytes: &[u8], out: &mut [u16]) -> usize
    ensures { result ≢ usize.MAX → (units : List ℕ) × HasUnits bytes.now units
        × IsTruncated units out.old out.new result }
{
    match OsStr::checked(bytes) {
        Ok(string) => string.write_wide(out),
        Err(_) => usize::MAX,
    }
}

/// Writes the bytes of the units into `out`, truncated, and returns their number.
#[unsafe(no_mangle)]
pub extern "C" fn port_write_from_wide(units: &[u16], out: &mut [u8]) -> usize
    ensures { (bytes : List ℕ) × HasUnits bytes units.now
        × IsTruncated bytes out.old out.new result }
{
    OsStr::write_from_wide(units, out)
}

/// Returns the number of bytes of the string with the units, or `usize::MAX` if an allocation
/// failed.
#[unsafe(no_mangle)]
pub extern "C" fn port_from_wide(alloc: Global, units: &[u16]) -> usize
    ensures { result ≢ usize.MAX → (bytes : List ℕ) × HasUnits bytes units.now
        × (result ≡ length bytes) }
{
    match OsString::from_wide(alloc, units) {
        Ok(string) => string.as_os_str().len(),
        Err(_) => usize::MAX,
    }
}

/// Returns the number of units of the string that the bytes are, once all are in a vector;
/// `usize::MAX` if an allocation failed.
#[unsafe(no_mangle)]
pub extern "C" fn port_to_wide(alloc: Global, bytes: &[u8]) -> usize
    requires { IsWtf8 bytes.now }
    ensures { result ≢ usize.MAX → (units : List ℕ) × HasUnits bytes.now units
        × (result ≡ length units) }
{
    match OsStr::from_encoded_bytes_unchecked(bytes).to_wide(alloc) {
        Ok(units) => units.len(),
        Err(_) => usize::MAX,
    }
}
