//! Texts and strings written into a buffer, of bytes that may not be a string.
ghost use Rattle.std.specs.Prelude.{◌≢◌, ◌*◌, ◌<◌, ◌^◌, ℕ, List, length};
ghost use Rattle.std.specs.List.{All};
ghost use Rattle.std.specs.Str.{IsUtf8};
ghost use Rattle.std.specs.Str.Lossy.{utf8_lossy};
ghost use Rattle.wtf8_core.specs.Byte.{IsByte};
ghost use Rattle.wtf8_core.specs.Truncated.{IsTruncated};
ghost use Rattle.wtf8_core.specs.UnitsOf.{units_of, wtf8_lossy};
ghost use Rattle.wtf8_core.specs.Wtf8.{IsWtf8};
ghost use Rattle.platform_str.specs.PlatformWords.{itself};
ghost use Rattle.os_quote.specs.Escape.{IsEscape, IsLineEscape};
ghost use Rattle.os_quote.specs.Unescaped.{IsUnescaped, IsLineUnescaped};

use crate::strings::unix;
use os_quote::{
    write_escape, write_escape_line, write_unescaped_bytes, write_unescaped_line_bytes,
};
use platform_str::{OsStr, Platform, Unix, Wasm, Windows};

/// Writes the lossy text of the bytes on Unix, and returns the number of its bytes.
#[unsafe(no_mangle)]
pub extern "C" fn port_write_lossy(raw: &[u8], out: &mut [u8]) -> usize
    requires { 3 * length raw.now < 2 ^ 64 }
    ensures { IsTruncated (utf8_lossy raw.now) out.old out.new result }
{
    unix(raw).write_lossy(out)
}

/// Writes the lossy text of the bytes on Windows, and returns the number of its bytes, or
/// `usize::MAX` where the bytes aren't WTF-8.
#[unsafe(no_mangle)]
pub extern "C" fn port_win_write_lossy(raw: &[u8], out: &mut [u8]) -> usize
    requires { 3 * length raw.now < 2 ^ 64 }
    ensures { result ≢ usize.MAX → IsTruncated (wtf8_lossy raw.now) out.old out.new result }
{
    match OsStr::<Windows>::checked(raw) {
        Ok(string) => string.write_lossy(out),
        Err(_) => usize::MAX,
    }
}

/// Writes the escape of the bytes on Unix, and returns the number of its bytes.
#[unsafe(no_mangle)]
pub extern "C" fn port_write_escape(raw: &[u8], out: &mut [u8]) -> usize
    requires { 6 * length raw.now < 2 ^ 64 }
    ensures { (escaped : List ℕ) × IsEscape itself raw.now escaped
        × IsTruncated escaped out.old out.new result }
{
    write_escape(unix(raw), out)
}

/// Writes the escape of the bytes on Windows, and returns the number of its bytes, or `usize::MAX`
/// where the bytes aren't WTF-8.
#[unsafe(no_mangle)]
pub extern "C" fn port_win_write_escape(raw: &[u8], out: &mut [u8]) -> usize
    requires { 6 * length raw.now < 2 ^ 64 }
    ensures { result ≢ usize.MAX → (escaped : List ℕ) × IsEscape units_of raw.now escaped
        × IsTruncated escaped out.old out.new result }
{
    match OsStr::<Windows>::checked(raw) {
        Ok(string) => write_escape(string, out),
        Err(_) => usize::MAX,
    }
}

/// Writes the escape of the bytes on one line on Unix, and returns the number of its bytes.
#[unsafe(no_mangle)]
pub extern "C" fn port_write_escape_line(raw: &[u8], out: &mut [u8]) -> usize
    requires { 6 * length raw.now < 2 ^ 64 }
    ensures { (escaped : List ℕ) × IsLineEscape itself raw.now escaped
        × IsTruncated escaped out.old out.new result }
{
    write_escape_line(unix(raw), out)
}

/// Writes the escape of the bytes on one line on Windows, and returns the number of its bytes, or
/// `usize::MAX` where the bytes aren't WTF-8.
#[unsafe(no_mangle)]
pub extern "C" fn port_win_write_escape_line(raw: &[u8], out: &mut [u8]) -> usize
    requires { 6 * length raw.now < 2 ^ 64 }
    ensures { result ≢ usize.MAX → (escaped : List ℕ) × IsLineEscape units_of raw.now escaped
        × IsTruncated escaped out.old out.new result }
{
    match OsStr::<Windows>::checked(raw) {
        Ok(string) => write_escape_line(string, out),
        Err(_) => usize::MAX,
    }
}

/// Writes the string that has this escape, and returns the number of its bytes, or `usize::MAX`
/// where the escape is rejected.
fn unescaped_len<E: Platform>(escape: &[u8], out: &mut [u8]) -> usize
    ensures { result ≢ usize.MAX
        → IsUnescaped E.well_formed E.units escape.now out.old out.new result }
{
    match write_unescaped_bytes::<E>(escape, out) {
        Some(Ok(len)) => len,
        Some(Err(_)) => usize::MAX,
        None => usize::MAX,
    }
}

/// Writes the string of Unix that has this escape, and returns the number of its bytes, or
/// `usize::MAX` where the escape is rejected.
#[unsafe(no_mangle)]
pub extern "C" fn port_write_unescaped(escape: &[u8], out: &mut [u8]) -> usize
    ensures { result ≢ usize.MAX
        → IsUnescaped (All IsByte) itself escape.now out.old out.new result }
{
    unescaped_len::<Unix>(escape, out)
}

/// Writes the string of Windows that has this escape, as `port_write_unescaped` does on Unix.
#[unsafe(no_mangle)]
pub extern "C" fn port_win_write_unescaped(escape: &[u8], out: &mut [u8]) -> usize
    ensures { result ≢ usize.MAX → IsUnescaped IsWtf8 units_of escape.now out.old out.new result }
{
    unescaped_len::<Windows>(escape, out)
}

/// Writes the string of wasm that has this escape, as `port_write_unescaped` does on Unix.
#[unsafe(no_mangle)]
pub extern "C" fn port_wasm_write_unescaped(escape: &[u8], out: &mut [u8]) -> usize
    ensures { result ≢ usize.MAX → IsUnescaped IsUtf8 itself escape.now out.old out.new result }
{
    unescaped_len::<Wasm>(escape, out)
}

/// Writes the string that has this escape on one line, as `unescaped_len` does.
fn line_unescaped_len<E: Platform>(escape: &[u8], out: &mut [u8]) -> usize
    ensures { result ≢ usize.MAX
        → IsLineUnescaped E.well_formed E.units escape.now out.old out.new result }
{
    match write_unescaped_line_bytes::<E>(escape, out) {
        Some(Ok(len)) => len,
        Some(Err(_)) => usize::MAX,
        None => usize::MAX,
    }
}

/// Writes the string of Unix that has this escape on one line, and returns the number of its bytes,
/// or `usize::MAX` where the escape is rejected.
#[unsafe(no_mangle)]
pub extern "C" fn port_write_unescaped_line(escape: &[u8], out: &mut [u8]) -> usize
    ensures { result ≢ usize.MAX
        → IsLineUnescaped (All IsByte) itself escape.now out.old out.new result }
{
    line_unescaped_len::<Unix>(escape, out)
}

/// Writes the string of Windows that has this escape on one line, as the call above does on Unix.
#[unsafe(no_mangle)]
pub extern "C" fn port_win_write_unescaped_line(escape: &[u8], out: &mut [u8]) -> usize
    ensures { result ≢ usize.MAX
        → IsLineUnescaped IsWtf8 units_of escape.now out.old out.new result }
{
    line_unescaped_len::<Windows>(escape, out)
}

/// Writes the string of wasm that has this escape on one line, as the calls above do on Unix and
/// Windows.
#[unsafe(no_mangle)]
pub extern "C" fn port_wasm_write_unescaped_line(escape: &[u8], out: &mut [u8]) -> usize
    ensures { result ≢ usize.MAX
        → IsLineUnescaped IsUtf8 itself escape.now out.old out.new result }
{
    line_unescaped_len::<Wasm>(escape, out)
}
