//! Bytes to 16-bit units, and back.
ghost use Rattle.std.specs.Prelude.{◌≡◌, ◌≤◌, ◌<◌, ◌*◌, ◌∷◌, [], length, MatchResult};
ghost use Rattle.wtf8_core.specs.Wtf8.{HasUnits};
ghost use Rattle.wtf8_core.specs.Checker.{HasFirstFault};
ghost use Rattle.osbytes_c.specs.Answers.{IsOneOf, IsWritten, Writes};
ghost use Rattle.osbytes_c.specs.Faults.{IsWtf8Report};
ghost use Rattle.osbytes_c.specs.Statuses.{done, faulty, no_room};

use crate::status::{FAULTY, fits};
use crate::strings::check::report_wtf8;
use crate::strings::fault::Fault;
use crate::strings::windows;
use platform_str::{OsStr, Windows};
use wtf8_core::{DecodeWide, EncodingError, encode_wide};

/// Strings of at least this many bytes are checked and then written in blocks. Blocks take 1.1 to
/// 4.2 times as long as unit by unit at 4 to 8 bytes, 0.3 to 1.1 at 31 and 0.2 to 0.8 at 64.
const LONG: usize = 32;

/// At least this many units are counted and then written in blocks if there is surely room. Blocks
/// take 1.8 to 4.0 times as long as byte by byte at up to 16 units, and 1.0 to 2.2 at 17 to 40.
const LONG_WIDE: usize = 40;

/// At least this many where the buffer may be too short. Blocks take up to 1.9 times as long at up
/// to 16 units, and 0.1 to 1.1 at 17 to 40.
const LONG_TRUNCATED: usize = 17;

/// Writes the units of the bytes into `out`, as far as there is room, and counts them. The bytes
/// have no more units than bytes. If they aren't WTF-8, the fault is their first one.
#[unsafe(no_mangle)]
pub extern "C" fn osb_core_to_wide(
    bytes: &[u8],
    out: &mut [u16],
    count: &mut usize,
    fault: &mut Fault,
) -> u32
    ensures written { IsWritten result (HasUnits bytes.now) out.old out.new count.new }
    ensures fault { result ≡ faulty → IsWtf8Report bytes.now fault.new }
    ensures answers { IsOneOf (done ∷ no_room ∷ faulty ∷ []) result }
{
    if bytes.len() >= LONG {
        return write_checked(bytes, out, count, fault);
    }
    match write_units(bytes, out) {
        Ok(written) => {
            *count = written;
            fits(written, out.len())
        }
        Err(error) => {
            report_wtf8(bytes, error, fault);
            FAULTY
        }
    }
}

/// Checks the bytes, and then writes their units in blocks. It is kept apart, so that short strings
/// pay for no more than the test of their length.
#[inline(never)]
fn write_checked(bytes: &[u8], out: &mut [u16], count: &mut usize, fault: &mut Fault) -> u32
    ensures written { IsWritten result (HasUnits bytes.now) out.old out.new count.new }
    ensures fault { result ≡ faulty → IsWtf8Report bytes.now fault.new }
    ensures answers { IsOneOf (done ∷ no_room ∷ faulty ∷ []) result }
{
    let Some(string) = windows(bytes, fault) else {
        return FAULTY;
    };
    let written = string.write_wide(out);
    *count = written;
    fits(written, out.len())
}

/// Writes the units of the bytes as far as there is room, and counts them.
fn write_units(bytes: &[u8], out: &mut [u16]) -> Result<usize, EncodingError>
    ensures { MatchResult result
        (λ count. Writes (HasUnits bytes.now) out.old out.new count)
        (λ error. HasFirstFault bytes.now error) }
{
    let mut written = 0;
    for item in encode_wide(bytes) {
        match item {
            Ok(unit) => {
                if written < out.len() {
                    out[written] = unit;
                }
                written += 1;
            }
            Err(error) => return Err(error),
        }
    }
    Ok(written)
}

/// Writes the bytes of the string with these units into `out`, as far as there is room, and counts
/// them. There are at most three for each unit.
#[unsafe(no_mangle)]
pub extern "C" fn osb_core_from_wide(units: &[u16], out: &mut [u8], count: &mut usize) -> u32
    ensures written { IsWritten result (λ bytes. HasUnits bytes units.now) out.old out.new
        count.new }
    ensures answers { IsOneOf (done ∷ no_room ∷ []) result }
{
    let written = if units.len() < LONG_WIDE && 3 * units.len() <= out.len() {
        write_bytes(units, out)
    } else if units.len() < LONG_TRUNCATED {
        write_some_bytes(units, out)
    } else {
        OsStr::<Windows>::write_from_wide(units, out)
    };
    *count = written;
    fits(written, out.len())
}

/// Writes the bytes of the string with these units, for which there is surely room, and counts
/// them.
#[inline(always)]
fn write_bytes(units: &[u16], out: &mut [u8]) -> usize
    requires { 3 * length units.now ≤ length out.now }
    ensures { Writes (λ bytes. HasUnits bytes units.now) out.old out.new result }
{
    let mut written = 0;
    for byte in DecodeWide::new(units) {
        out[written] = byte;
        written += 1;
    }
    written
}

/// Writes the bytes of the string with these units as far as there is room, and counts them.
/// It isn't inlined: beside it the compiler makes a slower one of the other loop.
#[inline(never)]
fn write_some_bytes(units: &[u16], out: &mut [u8]) -> usize
    ensures { Writes (λ bytes. HasUnits bytes units.now) out.old out.new result }
{
    let mut written = 0;
    for byte in DecodeWide::new(units) {
        if written < out.len() {
            out[written] = byte;
        }
        written += 1;
    }
    written
}
