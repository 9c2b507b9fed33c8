//! Reads escapes, which may be invalid UTF-8, and writes their strings into a buffer.
ghost use Rattle.std.specs.Prelude.{◌≡◌, ◌≢◌, ◌≤◌, false, length, IsTrue, IfOk, IfErr, IfSome, MatchOption, MatchResult};
ghost use Rattle.std.specs.List.{AllByRecursion};
ghost use Rattle.std.specs.Str.{IsUtf8};
ghost use Rattle.os_quote.specs.{Ending.has_ending, Plain.IsPlain, declared.error.QuoteError.TheVariants.Memory, Escape.IsQuoteFault, Escape.IsLineFault, Escape.IsQuoteFaultBy, Unescaped.IsUnescaped, Unescaped.IsLineUnescaped, Unescaped.IsUnescapedBy, Unescaped.AreReadBy};

use crate::error::{QuoteError, Unescaped};
use crate::find_plain::are_plain;
use crate::form::{Form, has_ending};
use crate::read_string::{is_own, write_by};
use crate::read_token::cut_backslash;
use os_str_bytes::Platform;
use wtf8_core::{is_utf8, push_truncated};

/// Writes the string that has this escape ([`unescape`](crate::unescape)) into a buffer, truncated
/// if the buffer is too short for it, and returns the length of the whole string. The rest of the
/// buffer is unchanged. It doesn't allocate.
///
/// A string is never longer than its escape, so a buffer of `text.len()` bytes is always long enough.
/// If the buffer is too short, `Ok` doesn't show that the text is an escape. Then each backslash is
/// in a token, and if any string has this escape, it is this one.
///
/// # Errors
///
/// [`QuoteError::BadEscape`] and [`QuoteError::NotCanonical`] as in [`unescape`](crate::unescape); the
/// content of the buffer isn't specified then. The second comes only if the buffer is long enough.
///
/// ```
/// use os_quote::{QuoteError, write_unescaped};
/// use os_str_bytes::Unix;
///
/// let mut buffer = [b'-'; 6];
/// assert_eq!(rt; write_unescaped::<Unix>("fo\\x80o", &mut buffer), Ok(4));
/// assert_eq!(rt; buffer.as_slice(), b"fo\x80o--".as_slice());
/// assert_eq!(rt; write_unescaped::<Unix>("a\\q", &mut buffer), Err(QuoteError::BadEscape(1)));
/// ```
pub fn write_unescaped<E: Platform>(text: &str, buffer: &mut [u8]) -> Result<usize, QuoteError>
    ensures string { IfOk result
        (λ count. IsUnescaped E.well_formed E.units text.now buffer.old buffer.new count) }
    ensures fault { IfErr result (λ fault. IsQuoteFault E.well_formed E.units text.now fault) }
    ensures never_memory { IfErr result (λ fault. fault ≢ Memory) }
{
    write_text_by::<E>(Form::Text, text, buffer)
}

/// Writes the string that has this escape on one line ([`unescape_line`](crate::unescape_line)) into a
/// buffer, as [`write_unescaped`] does.
///
/// # Errors
///
/// Those of [`write_unescaped`], of the form for one line.
///
/// ```
/// use os_quote::{QuoteError, write_unescaped_line};
/// use os_str_bytes::Unix;
///
/// let mut buffer = [b'-'; 4];
/// assert_eq!(rt; write_unescaped_line::<Unix>("a\\u000A\\xFF", &mut buffer), Ok(3));
/// assert_eq!(rt; buffer.as_slice(), b"a\n\xFF-".as_slice());
/// let refused = write_unescaped_line::<Unix>("a\n", &mut buffer);
/// assert_eq!(rt; refused, Err(QuoteError::NotCanonical));
/// ```
pub fn write_unescaped_line<E: Platform>(text: &str, buffer: &mut [u8]) -> Result<usize, QuoteError>
    ensures string { IfOk result
        (λ count. IsLineUnescaped E.well_formed E.units text.now buffer.old buffer.new count) }
    ensures fault { IfErr result (λ fault. IsLineFault E.well_formed E.units text.now fault) }
    ensures never_memory { IfErr result (λ fault. fault ≢ Memory) }
{
    write_text_by::<E>(Form::Line, text, buffer)
}

/// Writes the string that has this escape in a form into a buffer. A text that the form shows as it is
/// is its own escape.
#[inline(always)]
fn write_text_by<E: Platform>(form: Form, text: &str, buffer: &mut [u8]) -> Unescaped
    ensures string { IfOk result (λ count. IsUnescapedBy form E.well_formed E.units text.now
        buffer.old buffer.new count) }
    ensures fault { IfErr result
        (λ fault. IsQuoteFaultBy form E.well_formed E.units text.now fault) }
    ensures never_memory { IfErr result (λ fault. fault ≢ Memory) }
{
    if is_own(form, text) {
        return Ok(push_truncated(buffer, 0, text.as_bytes()));
    }
    write_by::<E>(form, text.as_bytes(), buffer)
}

/// Writes the string that has this escape into a buffer, as
/// [`write_unescaped`](crate::write_unescaped) does, or returns `None` if the escape isn't UTF-8.
///
/// It is for callers that have bytes and no `str`. Most escapes are read once, since the escape of
/// a string is always valid UTF-8.
///
/// # Errors
///
/// Those of [`write_unescaped`](crate::write_unescaped). If the result is `None`, the content of
/// the buffer isn't specified.
///
/// ```
/// use os_quote::write_unescaped_bytes;
/// use os_str_bytes::Unix;
///
/// let mut buffer = [b'-'; 6];
/// assert_eq!(rt; write_unescaped_bytes::<Unix>(b"fo\\x80o", &mut buffer), Some(Ok(4)));
/// assert_eq!(rt; buffer.as_slice(), b"fo\x80o--".as_slice());
/// assert_eq!(rt; write_unescaped_bytes::<Unix>(b"fo\x80o", &mut buffer), None);
/// ```
pub fn write_unescaped_bytes<E: Platform>(
    escape: &[u8],
    buffer: &mut [u8],
) -> Option<Result<usize, QuoteError>>
    ensures utf8 { IfSome result (λ _. IsUtf8 escape.now) }
    ensures read { MatchOption result (¬ (IsUtf8 escape.now)) (λ read. MatchResult read
        (λ count. IsUnescaped E.well_formed E.units escape.now buffer.old buffer.new count)
        (λ fault. IsQuoteFault E.well_formed E.units escape.now fault × (fault ≢ Memory))) }
{
    write_bytes_by::<E>(Form::Text, escape, buffer)
}

/// Writes the string that has this escape on one line into a buffer, as
/// [`write_unescaped_line`](crate::write_unescaped_line) does, or returns `None` if the escape isn't
/// UTF-8.
///
/// # Errors
///
/// Those of [`write_unescaped_bytes`], of the form for one line.
///
/// ```
/// use os_quote::write_unescaped_line_bytes;
/// use os_str_bytes::Unix;
///
/// let mut buffer = [b'-'; 4];
/// let read = write_unescaped_line_bytes::<Unix>(b"a\\u000A\\xFF", &mut buffer);
/// assert_eq!(rt; read, Some(Ok(3)));
/// assert_eq!(rt; buffer.as_slice(), b"a\n\xFF-".as_slice());
/// ```
pub fn write_unescaped_line_bytes<E: Platform>(
    escape: &[u8],
    buffer: &mut [u8],
) -> Option<Result<usize, QuoteError>>
    ensures utf8 { IfSome result (λ _. IsUtf8 escape.now) }
    ensures read { MatchOption result (¬ (IsUtf8 escape.now)) (λ read. MatchResult read
        (λ count. IsLineUnescaped E.well_formed E.units escape.now buffer.old buffer.new count)
        (λ fault. IsLineFault E.well_formed E.units escape.now fault × (fault ≢ Memory))) }
{
    write_bytes_by::<E>(Form::Line, escape, buffer)
}

/// Writes the string that has this escape in a form, or returns `None` if the escape isn't UTF-8.
/// Plain bytes are their own escape, unless a space ends a line. Where all is shown, so is each text
/// without a backslash.
fn write_bytes_by<E: Platform>(form: Form, escape: &[u8], buffer: &mut [u8]) -> Option<Unescaped>
    ensures utf8 { IfSome result (λ _. IsUtf8 escape.now) }
    ensures read { AreReadBy form E.well_formed E.units escape.now buffer.old buffer.new
        result }
{
    if are_own(form, escape) {
        return Some(Ok(push_truncated(buffer, 0, escape)));
    }
    if let Some(_) = cut_backslash(escape) {
        return write_tokens::<E>(form, escape, buffer);
    }
    if !is_utf8(escape) {
        return None;
    }
    match form {
        Form::Text => Some(Ok(push_truncated(buffer, 0, escape))),
        Form::Line => {
            let text = unsafe { str::from_utf8_unchecked(escape) };
            Some(write_unescaped_line::<E>(text, buffer))
        }
    }
}

/// Whether bytes are plain, and the form shows them as they are.
fn are_own(form: Form, bytes: &[u8]) -> bool
    ensures { IsTrue result → AllByRecursion IsPlain bytes.now × (has_ending form bytes.now ≡ false) }
{
    are_plain(bytes) && !has_ending(form, bytes)
}

/// Writes the string of an escape that has a backslash, as [`write_bytes_by`] does. The escape is
/// read first. It is checked for UTF-8 only if it isn't the escape of a string that fits.
fn write_tokens<E: Platform>(form: Form, escape: &[u8], buffer: &mut [u8]) -> Option<Unescaped>
    ensures utf8 { IfSome result (λ _. IsUtf8 escape.now) }
    ensures read { AreReadBy form E.well_formed E.units escape.now buffer.old buffer.new
        result }
{
    let read = write_by::<E>(form, escape, buffer);
    if let Ok(count) = read {
        if count <= buffer.len() {
            return Some(Ok(count));
        }
    }
    if is_utf8(escape) { Some(read) } else { None }
}
