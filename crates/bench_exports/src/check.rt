//! The check of Windows, of bytes, of a vector and of a piece, that of wasm, texts of Unix, first
//! faults, and the text of a fault.
ghost use Rattle.std.specs.Prelude.{◌≡◌, ◌≢◌, ◌↔◌, ℕ, IsTrue, Option, length};
ghost use Rattle.std.specs.Str.{IsUtf8};
ghost use Rattle.wtf8_core.specs.Checker.{HasFirstFault};
ghost use Rattle.wtf8_core.specs.Fault.{IsFaultAt};
ghost use Rattle.wtf8_core.specs.FaultText.{fault_text};
ghost use Rattle.wtf8_core.specs.Utf8.{IsUtf8Fault};
ghost use Rattle.wtf8_core.specs.Wtf8.{IsWtf8};
ghost use Rattle.wtf8_core.specs.declared.fault.EncodingError.{EncodingError};
ghost use Rattle.wtf8_core.specs.declared.fault.EncodingError.TheVariants.{Byte};
ghost use Rattle.bench_exports.specs.Answers.{AnswersOr, IsFaulty};

use crate::strings::unix;
use platform_str::{OsString, OsStringBytes, Platform, Wasm, Windows};
use std::alloc::Global;
use wtf8_core::{Checker, EncodingError, is_utf8, utf8_fault, wtf8_fault};

/// 0 where the bytes are WTF-8, and else 1.
#[unsafe(no_mangle)]
pub extern "C" fn port_check(bytes: &[u8]) -> u64
    ensures accepts { result ≡ 0 → IsWtf8 bytes.now }
    ensures refuses { result ≢ 0 → IsFaulty bytes.now }
{
    match Windows::check(bytes) {
        Ok(()) => 0,
        Err(_) => 1,
    }
}

/// 0 where the bytes are UTF-8, by the check of wasm, and else 1.
#[unsafe(no_mangle)]
pub extern "C" fn port_wasm_check(bytes: &[u8]) -> u64
    ensures { result ≡ 0 → IsUtf8 bytes.now }
{
    match Wasm::check(bytes) {
        Ok(()) => 0,
        Err(_) => 1,
    }
}

/// Returns the number of bytes of the text that the bytes are on Unix, or `usize::MAX` if they
/// aren't text.
#[unsafe(no_mangle)]
pub extern "C" fn port_to_str(bytes: &[u8]) -> usize
    ensures { result ≢ usize.MAX → IsUtf8 bytes.now × (result ≡ length bytes.now) }
{
    match unix(bytes).to_str() {
        Some(text) => text.len(),
        None => usize::MAX,
    }
}

/// Returns the number of bytes of the string that a copy of the bytes is on Windows, or
/// `usize::MAX` where they aren't WTF-8 or an allocation failed.
#[unsafe(no_mangle)]
pub extern "C" fn port_from_raw_vec(alloc: Global, bytes: &[u8]) -> usize
    ensures wtf8 { result ≢ usize.MAX → IsWtf8 bytes.now }
    ensures length { result ≢ usize.MAX → result ≡ length bytes.now }
{
    let Ok(raw) = bytes.to_vec(alloc) else {
        return usize::MAX;
    };
    match OsString::<Windows>::from_raw_vec(raw) {
        Ok(string) => string.as_os_str().len(),
        Err(_) => usize::MAX,
    }
}

/// 0 where the bytes, fed to a checker as one piece, are WTF-8, and else 1.
#[unsafe(no_mangle)]
pub extern "C" fn port_feed(bytes: &[u8]) -> u64
    ensures accepts { result ≡ 0 → IsWtf8 bytes.now }
    ensures refuses { result ≢ 0 → (fault : EncodingError) × HasFirstFault bytes.now fault }
{
    let mut checker = Checker::new();
    let _ = checker.feed(bytes);
    match checker.finish() {
        Ok(()) => 0,
        Err(_) => 1,
    }
}

/// The index of the first fault of bytes that aren't WTF-8, or `usize::MAX` where they are.
#[unsafe(no_mangle)]
pub extern "C" fn port_wtf8_fault(bytes: &[u8]) -> usize
    ensures { AnswersOr usize.MAX (IsWtf8 bytes.now)
        (λ index. (count : ℕ) × IsFaultAt bytes.now index count) result }
{
    match wtf8_fault(bytes) {
        Some((index, _)) => index,
        None => usize::MAX,
    }
}

/// The index of the first fault of bytes that aren't UTF-8, or `usize::MAX` where they are.
#[unsafe(no_mangle)]
pub extern "C" fn port_utf8_fault(bytes: &[u8]) -> usize
    ensures { AnswersOr usize.MAX (IsUtf8 bytes.now)
        (λ index. (len : Option ℕ) × IsUtf8Fault bytes.now index len) result }
{
    match utf8_fault(bytes) {
        Some((index, _)) => index,
        None => usize::MAX,
    }
}

/// Whether the bytes are UTF-8.
#[unsafe(no_mangle)]
pub extern "C" fn port_is_utf8(bytes: &[u8]) -> bool
    ensures { IsTrue result ↔ IsUtf8 bytes.now }
{
    is_utf8(bytes)
}

/// Returns the number of bytes of the text of the fault that is this byte, or `usize::MAX` if an
/// allocation failed.
#[unsafe(no_mangle)]
pub extern "C" fn port_fault_text(alloc: Global, byte: u8) -> usize
    ensures { result ≢ usize.MAX → result ≡ length (fault_text (Byte byte)) }
{
    match EncodingError::Byte(byte).to_string(alloc) {
        Ok(text) => text.as_str().len(),
        Err(_) => usize::MAX,
    }
}
