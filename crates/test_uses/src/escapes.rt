//! Escapes: a string comes back from its own, and has one.
ghost use Rattle.std.specs.Prelude.{◌≡◌, ◌⊎◌, ◌↔◌, ◌*◌, ◌<◌, ◌≤◌, ◌^◌, ℕ, List, length, None, Err, IsTrue, IsSomeAnd, IsOkAnd, IsErrAnd, IfOk, IfErr, string_bytes};
ghost use Rattle.std.specs.Str.{IsUtf8};
ghost use Rattle.wtf8_core.specs.Truncated.{IsTruncated};
ghost use Rattle.platform_str.specs.Strings.{bytes, string_vec_of};
ghost use Rattle.os_quote.specs.Escape.{IsEscape, IsBadEscape};

use os_quote::{
    QuoteError, escape, laws, unescape, write_escape, write_unescaped, write_unescaped_bytes,
};
use platform_str::{OsStr, OsString, Platform};
use std::alloc::{AllocError, Allocator};

/// Escapes a string and unescapes the result, which is the string again. Only out of memory is an
/// error.
pub fn there_and_back<E: Platform, A: Allocator + Copy>(
    alloc: A,
    string: OsStr<'_, E>,
) -> Result<OsString<E, A>, QuoteError>
    ensures same { IfOk result (λ back. (string_vec_of back).items ≡ bytes string.entry) }
    ensures fault { IfErr result (λ error. error ≡ QuoteError.Memory) }
{
    laws::escapes::<E>();
    laws::bad_escapes::<E>();
    let text = escape(alloc, string)?;
    unescape(alloc, text.as_str())
}

/// Any string has an escape.
pub fn has_escape<'a, E: Platform + 'a>(string: OsStr<'a, E>) -> OsStr<'a, E>
    ensures { (text : List ℕ) × IsEscape E.units (bytes result) text }
{
    laws::escapes::<E>();
    string
}

/// Returns the escape of a string with a known escape, which is that one.
pub fn escape_says<E: Platform, A: Allocator>(
    alloc: A,
    string: OsStr<'_, E>,
    known: &[u8],
) -> Result<String<A>, AllocError>
    requires { IsEscape E.units (bytes string) known.now }
    ensures text { IsUtf8 known.now }
    ensures same { IfOk result (λ text. string_bytes text ≡ known.now) }
{
    laws::escapes::<E>();
    escape(alloc, string)
}

/// Unescapes a text with a known index at which no token begins. The error is that index, or out of
/// memory.
pub fn bad_index_says<E: Platform, A: Allocator>(
    alloc: A,
    text: &str,
    at: usize,
) -> Result<OsString<E, A>, QuoteError>
    requires { IsBadEscape text.now at }
    ensures { IsErrAnd result (λ error. (error ≡ QuoteError.BadEscape at)
        ⊎ (error ≡ QuoteError.Memory)) }
{
    laws::bad_escapes::<E>();
    unescape(alloc, text)
}

/// Writes the escape of a string with a known escape into a buffer: that one, truncated.
pub fn escape_in<E: Platform>(string: OsStr<'_, E>, known: &[u8], buffer: &mut [u8]) -> usize
    requires known { IsEscape E.units (bytes string) known.now }
    requires short { 6 * length (bytes string) < 2 ^ 64 }
    ensures { IsTruncated known.now buffer.old buffer.new result }
{
    laws::escapes::<E>();
    write_escape(string, buffer)
}

/// The string with an escape that is known to be its own, in a buffer: that string, truncated.
pub fn unescape_in<E: Platform>(
    string: OsStr<'_, E>,
    known: &str,
    buffer: &mut [u8],
) -> Result<usize, QuoteError>
    requires { IsEscape E.units (bytes string) known.now }
    ensures { IsOkAnd result
        (λ count. IsTruncated (bytes string.entry) buffer.old buffer.new count) }
{
    laws::bad_escapes::<E>();
    write_unescaped::<E>(known, buffer)
}

/// What comes of a text with a known index at which no token begins, in a buffer: that index.
pub fn bad_index_in<E: Platform>(
    text: &str,
    at: usize,
    buffer: &mut [u8],
) -> Result<usize, QuoteError>
    requires { IsBadEscape text.now at }
    ensures { result ≡ Err (QuoteError.BadEscape at) }
{
    laws::bad_escapes::<E>();
    write_unescaped::<E>(text, buffer)
}

/// Whether a text is the escape of a string, found in a buffer that is as long as the text.
pub fn is_escape_in<E: Platform>(text: &str, buffer: &mut [u8]) -> bool
    requires { length text.now ≤ length buffer.now }
    ensures { IsTrue result ↔ (s : List ℕ) × (E.well_formed s × IsEscape E.units s text.now) }
{
    laws::bad_escapes::<E>();
    write_unescaped::<E>(text, buffer).is_ok()
}

/// The string with an escape that is known to be its own, from the bytes of the escape: that string,
/// truncated.
pub fn unescape_bytes_in<E: Platform>(
    string: OsStr<'_, E>,
    known: &[u8],
    buffer: &mut [u8],
) -> Option<Result<usize, QuoteError>>
    requires { IsEscape E.units (bytes string) known.now }
    ensures { IsSomeAnd result (λ read. IsOkAnd read
        (λ count. IsTruncated (bytes string.entry) buffer.old buffer.new count)) }
{
    laws::escapes::<E>();
    laws::bad_escapes::<E>();
    write_unescaped_bytes::<E>(known, buffer)
}

/// What comes of bytes that aren't UTF-8: nothing.
pub fn no_text_in<E: Platform>(raw: &[u8], buffer: &mut [u8]) -> Option<Result<usize, QuoteError>>
    requires { ¬ (IsUtf8 raw.now) }
    ensures { result ≡ None }
{
    write_unescaped_bytes::<E>(raw, buffer)
}
