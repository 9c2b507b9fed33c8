//! Writes escapes into a buffer that may be too short for them.
ghost use Rattle.std.specs.Prelude.{◌*◌, ◌<◌, ◌^◌, ℕ, List, length};
ghost use Rattle.wtf8_core.specs.Truncated.{IsTruncated};
ghost use Rattle.platform_str.specs.Strings.{bytes};
ghost use Rattle.os_quote.specs.{Escaped.escape_in, Escape.IsEscape, Escape.IsLineEscape};

use crate::form::Form;
use crate::write_walk::write_escape_to;
use os_str_bytes::{OsStr, Platform, TruncatedBuffer};

/// Writes the escape of a string ([`escape`](crate::escape)) into a buffer, truncated if the buffer
/// is too short for it, and returns the length of the whole escape. The rest of the buffer is
/// unchanged. It doesn't allocate, and with an empty buffer it only counts.
///
/// Six times the string's length is below 2^64 (test: `string.len() <= usize::MAX / 6`). An escape
/// is never longer than that.
///
/// ```
/// use os_quote::write_escape;
/// use os_str_bytes::{OsStr, Unix};
///
/// let string = OsStr::<Unix>::from_encoded_bytes_unchecked(b"fo\x80o");
/// let mut buffer = [b'-'; 8];
/// assert_eq!(rt; write_escape(string, &mut buffer), 7);
/// assert_eq!(rt; buffer.as_slice(), b"fo\\x80o-".as_slice());
/// ```
pub fn write_escape<E: Platform>(string: OsStr<'_, E>, buffer: &mut [u8]) -> usize
    requires { 6 * length (bytes string) < 2 ^ 64 }
    ensures { (text : List ℕ) × (IsEscape E.units (bytes string.entry) text
        × IsTruncated text buffer.old buffer.new result) }
{
    push_escape(Form::Text, string, buffer)
}

/// Writes the escape of a string on one line ([`escape_line`](crate::escape_line)) into a buffer, as
/// [`write_escape`] does.
///
/// Six times the string's length is below 2^64 (test: `string.len() <= usize::MAX / 6`).
///
/// ```
/// use os_quote::write_escape_line;
/// use os_str_bytes::{OsStr, Unix};
///
/// let string = OsStr::<Unix>::from_encoded_bytes_unchecked(b"a\n\xFF");
/// let mut buffer = [b'-'; 8];
/// assert_eq!(rt; write_escape_line(string, &mut buffer), 11);
/// assert_eq!(rt; buffer.as_slice(), b"a\\u000A\\".as_slice());
/// ```
pub fn write_escape_line<E: Platform>(string: OsStr<'_, E>, buffer: &mut [u8]) -> usize
    requires { 6 * length (bytes string) < 2 ^ 64 }
    ensures { (text : List ℕ) × (IsLineEscape E.units (bytes string.entry) text
        × IsTruncated text buffer.old buffer.new result) }
{
    push_escape(Form::Line, string, buffer)
}

/// Writes the escape of a string in a form into a buffer, and returns the length of the whole
/// escape. A buffer takes every piece, so no error is lost.
fn push_escape<E: Platform>(form: Form, string: OsStr<'_, E>, buffer: &mut [u8]) -> usize
    requires { 6 * length (bytes string) < 2 ^ 64 }
    ensures { IsTruncated (escape_in form E.units (bytes string.entry)) buffer.old buffer.new
        result }
{
    let mut sink = TruncatedBuffer {
        bytes: buffer,
        count: 0,
    };
    let _ = write_escape_to(form, string, &mut sink);
    sink.count
}
