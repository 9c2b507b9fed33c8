//! The check of bytes, and their first fault.
ghost use Rattle.std.specs.Prelude.{◌≡◌, ◌≢◌, ◌<◌, ◌↔◌, ◌∷◌, []};
ghost use Rattle.std.specs.Str.{IsUtf8};
ghost use Rattle.wtf8_core.specs.Wtf8.{IsWtf8};
ghost use Rattle.wtf8_core.specs.Checker.{HasFirstFault};
ghost use Rattle.osbytes_c.specs.Answers.{IsOneOf};
ghost use Rattle.osbytes_c.specs.Faults.{IsString, IsReport, IsWtf8Report, IsUtf8Report};
ghost use Rattle.osbytes_c.specs.Statuses.{done, faulty, no_platform};

use crate::status::{DONE, FAULTY, NO_PLATFORM};
use crate::strings::fault::{Fault, kind_of, value_of};
use platform_str::{Platform, Windows};
use wtf8_core::{EncodingError, utf8_fault, wtf8_fault};

/// Whether the bytes are a string of a platform: 0 Unix, 1 Windows, 2 wasm. If they aren't, the
/// fault is their first one, and else as it was.
#[unsafe(no_mangle)]
pub extern "C" fn osb_core_check(platform: u32, bytes: &[u8], fault: &mut Fault) -> u32
    ensures string { (result ≡ done) ↔ IsString platform bytes.now }
    ensures fault { result ≡ faulty → IsReport platform bytes.now fault.new }
    ensures kept { result ≢ faulty → fault.new ≡ fault.old }
    ensures platform { (result ≡ no_platform) ↔ (2 < platform) }
    ensures answers { IsOneOf (done ∷ faulty ∷ no_platform ∷ []) result }
{
    match platform {
        0 => DONE,
        1 => check_wtf8(bytes, fault),
        2 => check_utf8(bytes, fault),
        _ => NO_PLATFORM,
    }
}

/// Checks that bytes are WTF-8, as Windows requires.
pub(crate) fn check_wtf8(bytes: &[u8], fault: &mut Fault) -> u32
    ensures string { (result ≡ done) ↔ IsWtf8 bytes.now }
    ensures fault { result ≡ faulty → IsWtf8Report bytes.now fault.new }
    ensures kept { result ≢ faulty → fault.new ≡ fault.old }
    ensures answers { IsOneOf (done ∷ faulty ∷ []) result }
{
    match Windows::check(bytes) {
        Ok(()) => DONE,
        Err(error) => {
            report_wtf8(bytes, error, fault);
            FAULTY
        }
    }
}

/// Reports the first fault of bytes that aren't WTF-8. They are read a second time, since a check
/// returns no index.
pub(crate) fn report_wtf8(bytes: &[u8], error: EncodingError, fault: &mut Fault)
    requires { HasFirstFault bytes.now error }
    ensures { IsWtf8Report bytes.now fault.new }
{
    match wtf8_fault(bytes) {
        Some((index, count)) => {
            *fault = Fault {
                kind: kind_of(error),
                value: value_of(error),
                index,
                count,
            };
        }
        None => unreachable!(),
    }
}

/// Checks that bytes are UTF-8, as wasm requires.
pub(crate) fn check_utf8(bytes: &[u8], fault: &mut Fault) -> u32
    ensures string { (result ≡ done) ↔ IsUtf8 bytes.now }
    ensures fault { result ≡ faulty → IsUtf8Report bytes.now fault.new }
    ensures kept { result ≢ faulty → fault.new ≡ fault.old }
    ensures answers { IsOneOf (done ∷ faulty ∷ []) result }
{
    let Some((index, len)) = utf8_fault(bytes) else {
        return DONE;
    };
    *fault = match len {
        Some(len) => Fault {
            kind: 4,
            value: 0,
            index,
            count: usize::from(len),
        },
        None => Fault {
            kind: 5,
            value: 0,
            index,
            count: bytes.len() - index,
        },
    };
    FAULTY
}
