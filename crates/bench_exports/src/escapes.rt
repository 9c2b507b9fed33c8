//! Escapes in both forms, and back.
ghost use Rattle.std.specs.Prelude.{◌≡◌, ◌≢◌, ℕ, List, length};
ghost use Rattle.std.specs.Str.{IsUtf8};
ghost use Rattle.wtf8_core.specs.Wtf8.{IsWtf8};
ghost use Rattle.wtf8_core.specs.UnitsOf.{units_of};
ghost use Rattle.platform_str.specs.PlatformWords.{itself};
ghost use Rattle.platform_str.specs.Strings.{bytes};
ghost use Rattle.os_quote.specs.Escape.{IsEscape, IsLineEscape};

use crate::strings::{text, unix};
use os_quote::{escape, escape_line, unescape, unescape_line};
use platform_str::{OsStr, OsString, Platform, Unix, Wasm, Windows};
use std::alloc::Global;

/// Returns the number of bytes of the escape of a string, or `usize::MAX` if an allocation failed.
fn escape_len<E: Platform>(alloc: Global, string: OsStr<E>) -> usize
    ensures { result ≢ usize.MAX → (escaped : List ℕ)
        × IsEscape E.units (bytes string.entry) escaped × (result ≡ length escaped) }
{
    match escape(alloc, string) {
        Ok(escaped) => escaped.as_str().len(),
        Err(_) => usize::MAX,
    }
}

/// Returns the number of bytes of the escape of the string on Unix, or `usize::MAX` if an
/// allocation failed.
#[unsafe(no_mangle)]
pub extern "C" fn port_escape(alloc: Global, raw: &[u8]) -> usize
    ensures { result ≢ usize.MAX → (escaped : List ℕ) × IsEscape itself raw.now escaped
        × (result ≡ length escaped) }
{
    escape_len(alloc, unix(raw))
}

/// Returns the number of bytes of the escape of the string on Windows, for bytes that are WTF-8, or
/// `usize::MAX` if an allocation failed.
#[unsafe(no_mangle)]
pub extern "C" fn port_win_escape(alloc: Global, raw: &[u8]) -> usize
    requires { IsWtf8 raw.now }
    ensures { result ≢ usize.MAX → (escaped : List ℕ) × IsEscape units_of raw.now escaped
        × (result ≡ length escaped) }
{
    escape_len(alloc, OsStr::<Windows>::from_encoded_bytes_unchecked(raw))
}

/// Returns the number of bytes of the escape of the string on wasm, for bytes that are UTF-8, or
/// `usize::MAX` if an allocation failed.
#[unsafe(no_mangle)]
pub extern "C" fn port_wasm_escape(alloc: Global, raw: &[u8]) -> usize
    requires { IsUtf8 raw.now }
    ensures { result ≢ usize.MAX → (escaped : List ℕ) × IsEscape itself raw.now escaped
        × (result ≡ length escaped) }
{
    escape_len(alloc, OsStr::<Wasm>::from_encoded_bytes_unchecked(raw))
}

/// Returns the number of bytes of the escape on one line on Unix, or `usize::MAX` if an allocation
/// failed.
#[unsafe(no_mangle)]
pub extern "C" fn port_escape_line(alloc: Global, raw: &[u8]) -> usize
    ensures { result ≢ usize.MAX → (escaped : List ℕ) × IsLineEscape itself raw.now escaped
        × (result ≡ length escaped) }
{
    match escape_line(alloc, unix(raw)) {
        Ok(escaped) => escaped.as_str().len(),
        Err(_) => usize::MAX,
    }
}

/// Returns the number of bytes of the string whose escape the text is, or `usize::MAX` if there is
/// none or an allocation failed.
#[unsafe(no_mangle)]
pub extern "C" fn port_unescape(alloc: Global, escaped: &[u8]) -> usize
    requires { IsUtf8 escaped.now }
    ensures { result ≢ usize.MAX → (raw : List ℕ) × IsEscape itself raw escaped.now
        × (result ≡ length raw) }
{
    let unescaped: Result<OsString<Unix>, _> = unescape(alloc, text(escaped));
    match unescaped {
        Ok(string) => string.as_os_str().len(),
        Err(_) => usize::MAX,
    }
}

/// Returns the number of bytes of the string of an escape on one line on Unix, or `usize::MAX` as
/// in `port_unescape`.
#[unsafe(no_mangle)]
pub extern "C" fn port_unescape_line(alloc: Global, escaped: &[u8]) -> usize
    requires { IsUtf8 escaped.now }
    ensures { result ≢ usize.MAX → (raw : List ℕ) × IsLineEscape itself raw escaped.now
        × (result ≡ length raw) }
{
    let unescaped: Result<OsString<Unix>, _> = unescape_line(alloc, text(escaped));
    match unescaped {
        Ok(string) => string.as_os_str().len(),
        Err(_) => usize::MAX,
    }
}
