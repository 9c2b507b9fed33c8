//! Escapes on one line: a string comes back from its own, has one, and nothing in it leaves the
//! line.
ghost use Rattle.std.specs.Prelude.{◌≡◌, ◌≢◌, ◌⊎◌, false, ◌*◌, ◌<◌, ◌^◌, ℕ, List, length, Err, IsTrue, IsSomeAnd, IsOkAnd, IsErrAnd, IfOk, IfErr, string_bytes};
ghost use Rattle.std.specs.List.{All};
ghost use Rattle.std.specs.Str.{IsUtf8, chars};
ghost use Rattle.wtf8_core.specs.Truncated.{IsTruncated};
ghost use Rattle.platform_str.specs.Strings.{bytes, string_vec_of};
ghost use Rattle.os_quote.specs.Shown.{stays_on_line};
ghost use Rattle.os_quote.specs.Ending.{ends_in_space};
ghost use Rattle.os_quote.specs.Escape.{IsLineEscape, IsBadLineEscape};

use os_quote::{
    QuoteError, escape_line, laws, unescape_line, write_escape_line, write_unescaped_line,
    write_unescaped_line_bytes,
};
use platform_str::{OsStr, OsString, Platform};
use std::alloc::{AllocError, Allocator};

/// Escapes a string on one line and unescapes the result, which is the string again. Only out of
/// memory is an error.
pub fn line_there_and_back<E: Platform, A: Allocator + Copy>(
    alloc: A,
    string: OsStr<'_, E>,
) -> Result<OsString<E, A>, QuoteError>
    ensures same { IfOk result (λ back. (string_vec_of back).items ≡ bytes string.entry) }
    ensures fault { IfErr result (λ error. error ≡ QuoteError.Memory) }
{
    laws::line_escapes::<E>();
    let text = escape_line(alloc, string)?;
    unescape_line(alloc, text.as_str())
}

/// Any string has an escape on one line.
pub fn has_line_escape<'a, E: Platform + 'a>(string: OsStr<'a, E>) -> OsStr<'a, E>
    ensures { (text : List ℕ) × IsLineEscape E.units (bytes result) text }
{
    laws::line_escapes::<E>();
    string
}

/// Returns the escape on one line of a string with a known one, which is that one. Each of its
/// characters stays on the line, and the last one isn't a space.
pub fn line_escape_says<E: Platform, A: Allocator>(
    alloc: A,
    string: OsStr<'_, E>,
    known: &[u8],
) -> Result<String<A>, AllocError>
    requires { IsLineEscape E.units (bytes string) known.now }
    ensures text { IsUtf8 known.now }
    ensures on_line { All (λ c. IsTrue (stays_on_line c)) (chars known.now) }
    ensures no_space { ends_in_space known.now ≡ false }
    ensures same { IfOk result (λ text. string_bytes text ≡ known.now) }
{
    laws::line_escapes::<E>();
    escape_line(alloc, string)
}

/// The escape on one line of a string, in which nothing is unseen: no newline, no soft hyphen, no
/// no-break space, no ideographic space, no override of the direction, no empty braille pattern, no
/// variation selector and no tag. Nor is there a character for private use, a noncharacter or the blank
/// note head.
pub fn line_without_unseen<E: Platform, A: Allocator>(
    alloc: A,
    string: OsStr<'_, E>,
) -> Result<String<A>, AllocError>
    ensures { IfOk result (λ text. All (λ c. c ≢ 0x0A × (c ≢ 0xAD × (c ≢ 0xA0 × (c ≢ 0x3000
        × (c ≢ 0x202E × (c ≢ 0x2800 × (c ≢ 0xFE0F × (c ≢ 0xE_0041 × (c ≢ 0xE000
        × (c ≢ 0xFFFE × (c ≢ 0x1_D159))))))))))) (chars (string_bytes text))) }
{
    laws::line_escapes::<E>();
    escape_line(alloc, string)
}

/// Unescapes a text with a known index at which no token begins. The error is that index, or out of
/// memory.
pub fn bad_line_index_says<E: Platform, A: Allocator>(
    alloc: A,
    text: &str,
    at: usize,
) -> Result<OsString<E, A>, QuoteError>
    requires { IsBadLineEscape text.now at }
    ensures { IsErrAnd result (λ error. (error ≡ QuoteError.BadEscape at)
        ⊎ (error ≡ QuoteError.Memory)) }
{
    laws::line_escapes::<E>();
    unescape_line(alloc, text)
}

/// Writes the escape on one line of a string with a known one into a buffer: that one, truncated.
pub fn line_escape_in<E: Platform>(string: OsStr<'_, E>, known: &[u8], buffer: &mut [u8]) -> usize
    requires known { IsLineEscape E.units (bytes string) known.now }
    requires short { 6 * length (bytes string) < 2 ^ 64 }
    ensures { IsTruncated known.now buffer.old buffer.new result }
{
    laws::line_escapes::<E>();
    write_escape_line(string, buffer)
}

/// The string with an escape on one line that is known to be its own, in a buffer: that string,
/// truncated.
pub fn line_unescape_in<E: Platform>(
    string: OsStr<'_, E>,
    known: &str,
    buffer: &mut [u8],
) -> Result<usize, QuoteError>
    requires { IsLineEscape E.units (bytes string) known.now }
    ensures { IsOkAnd result
        (λ count. IsTruncated (bytes string.entry) buffer.old buffer.new count) }
{
    laws::line_escapes::<E>();
    write_unescaped_line::<E>(known, buffer)
}

/// What comes of a text with a known index at which no token of this form begins, in a buffer: that
/// index.
pub fn bad_line_index_in<E: Platform>(
    text: &str,
    at: usize,
    buffer: &mut [u8],
) -> Result<usize, QuoteError>
    requires { IsBadLineEscape text.now at }
    ensures { result ≡ Err (QuoteError.BadEscape at) }
{
    laws::line_escapes::<E>();
    write_unescaped_line::<E>(text, buffer)
}

/// The string with an escape on one line that is known to be its own, from the bytes of the escape: that
/// string, truncated.
pub fn line_unescape_bytes_in<E: Platform>(
    string: OsStr<'_, E>,
    known: &[u8],
    buffer: &mut [u8],
) -> Option<Result<usize, QuoteError>>
    requires { IsLineEscape E.units (bytes string) known.now }
    ensures { IsSomeAnd result (λ read. IsOkAnd read
        (λ count. IsTruncated (bytes string.entry) buffer.old buffer.new count)) }
{
    laws::line_escapes::<E>();
    write_unescaped_line_bytes::<E>(known, buffer)
}
