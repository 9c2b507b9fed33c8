//! Reads escapes: decodes their tokens, and checks that the text is the escape of the result.
ghost use Rattle.std.specs.Prelude.{◌≡◌, ◌≢◌, ◌↔◌, false, length, IsOk, IfOk, IfErr, IsTrue, ◌+◌, ◌≤◌, ◌<◌, ◌^◌, ◌++◌, [], ℕ, List, MatchResult, MatchOption};
ghost use Rattle.platform_str.specs.{BufferSink.Pushes, Strings.string_vec_of, Strings.bytes};
ghost use Rattle.os_quote.specs.{Shown.shown_by, Ending.has_ending, Hidden.AreUnchanged, Stripping.StartsNot, Escape.IsEscape, Escape.IsLineEscape, Escape.IsEscapeBy, Escape.IsQuoteFault, Escape.IsLineFault, Escape.IsQuoteFaultBy, Escape.IsBadEscapeBy, Reading.AreBytesRead, Reading.item_bytes, Reading.token_item, Unescaped.IsUnescapedBy, declared.error.QuoteError.TheVariants.Memory};
ghost use Rattle.std.specs.Str.{IsUtf8};
ghost use Rattle.wtf8_core.specs.{CodePoint.IsCodePoint, CodePoint.encode, Truncated.IsTruncated};

use crate::error::{QuoteError, Unescaped};
use crate::form::{Form, has_ending};
use crate::read_token::{Token, cut_backslash, first_token, strip};
use crate::write_walk::{split_at_token, write_escape_to};
use os_str_bytes::{OsStr, OsStrBytesExt, OsString, Platform, Sink, Unix, laws};
use std::alloc::Allocator;
use std::fmt;
use wtf8_core::{push_truncated, write_form};

/// Returns the string that has this escape ([`escape`](crate::escape)).
///
/// On Windows `a\uD800\\` is the escape of the string of the units 61, D800 and 5C (hexadecimal). A
/// text without a backslash is its own escape.
///
/// # Errors
///
/// [`QuoteError::BadEscape`] with the byte index of the first backslash that begins no token. Else
/// [`QuoteError::NotCanonical`] if the text isn't the escape of any string of the platform. An
/// example on Unix is `\xC3\xA9`, since these bytes are the text `é`. If an allocation fails,
/// [`QuoteError::Memory`] may replace either. The empty text allocates nothing.
///
/// ```
/// use os_quote::{QuoteError, unescape};
/// use os_str_bytes::{OsString, Unix, Windows};
///
/// let string: OsString<Windows> = unescape(alloc, "a\\uD800\\\\")?;
/// let units = string.as_os_str().to_wide(alloc)?;
/// assert_eq!(rt; units.as_slice(), [0x61, 0xD800, 0x5C].as_slice());
///
/// let refused: Result<OsString<Unix>, QuoteError> = unescape(alloc, "\\xC3\\xA9");
/// assert_eq!(rt; refused.err(), Some(QuoteError::NotCanonical));
/// ```
pub fn unescape<E: Platform, A: Allocator>(
    alloc: A,
    text: &str,
) -> Result<OsString<E, A>, QuoteError>
    ensures string { IfOk result
        (λ string. IsEscape E.units (string_vec_of string).items text.now) }
    ensures fault { IfErr result (λ fault. IsQuoteFault E.well_formed E.units text.now fault) }
    ensures empty { length text.now ≡ 0 → IsOk result }
{
    unescape_by(Form::Text, alloc, text)
}

/// Returns the string that has this escape on one line ([`escape_line`](crate::escape_line)).
///
/// # Errors
///
/// Those of [`unescape`]. A token is also `\u{`, five or six digits without a leading zero, and
/// `}`, for a character past U+FFFF. If each backslash is in a token, two kinds of text return
/// [`QuoteError::NotCanonical`]. One has a character that doesn't stay on the line, or a space at the
/// end. The other has a token for a character that does, as `\u0041` or `\u{1F600}`, or for a space
/// that isn't at the end. The empty text allocates nothing.
///
/// ```
/// use os_quote::unescape_line;
/// use os_str_bytes::Unix;
///
/// let string = unescape_line::<Unix, _>(alloc, "a\\u000A\\xFF")?;
/// assert_eq!(rt; string.as_os_str().as_encoded_bytes(), b"a\n\xFF".as_slice());
/// assert!(rt; unescape_line::<Unix, _>(alloc, "a\n").is_err());
/// ```
pub fn unescape_line<E: Platform, A: Allocator>(
    alloc: A,
    text: &str,
) -> Result<OsString<E, A>, QuoteError>
    ensures string { IfOk result
        (λ string. IsLineEscape E.units (string_vec_of string).items text.now) }
    ensures fault { IfErr result (λ fault. IsLineFault E.well_formed E.units text.now fault) }
    ensures empty { length text.now ≡ 0 → IsOk result }
{
    unescape_by(Form::Line, alloc, text)
}

/// Whether a form shows a text as it is: no character of it is written as a token, and no space at
/// its end.
#[inline(always)]
pub(crate) fn is_own(form: Form, text: &str) -> bool
    ensures own { IsTrue result → AreUnchanged (shown_by form) text.now
        × (has_ending form text.now ≡ false) }
    ensures some { result ≡ false → 0 < length text.now }
{
    match split_at_token(form, text) {
        Some(_) => false,
        None => !has_ending(form, text.as_bytes()),
    }
}

/// Returns the string that has this escape in a form. A text with a token is read token by token.
/// If the bytes that it means aren't a string with this escape, then none has it.
fn unescape_by<E: Platform, A: Allocator>(
    form: Form,
    alloc: A,
    text: &str,
) -> Result<OsString<E, A>, QuoteError>
    ensures string { IfOk result
        (λ string. IsEscapeBy form E.units (string_vec_of string).items text.now) }
    ensures fault { IfErr result
        (λ fault. IsQuoteFaultBy form E.well_formed E.units text.now fault) }
    ensures empty { length text.now ≡ 0 → IsOk result }
{
    if is_own(form, text) {
        return Ok(OsStr::new(text).to_owned(alloc)?);
    }
    let mut encoded = vec![in alloc; 0; text.len()]?;
    let count = write_by::<E>(form, text.as_bytes(), encoded.as_mut_slice())?;
    encoded.truncate(count);
    Ok(OsString::from_encoded_bytes_unchecked(encoded))
}

/// Writes the string that has this escape into a buffer, truncated, token by token. The bytes may
/// be invalid UTF-8. If they are the escape of a string that fits, they are valid UTF-8. Any other
/// result is right only if they are valid UTF-8.
pub(crate) fn write_by<E: Platform>(form: Form, escape: &[u8], buffer: &mut [u8]) -> Unescaped
    ensures string { IsUtf8 escape.now → IfOk result (λ count. IsUnescapedBy form
        E.well_formed E.units escape.now buffer.old buffer.new count) }
    ensures room { IfOk result (λ count. count ≤ length buffer.old → IsUtf8 escape.now) }
    ensures fault { IsUtf8 escape.now → IfErr result
        (λ fault. IsQuoteFaultBy form E.well_formed E.units escape.now fault) }
    ensures never_memory { IfErr result (λ fault. fault ≢ Memory) }
{
    let count = match read(form, escape, buffer) {
        Ok(count) => count,
        Err(index) => return Err(QuoteError::BadEscape(index)),
    };
    if count > buffer.len() {
        return Ok(count);
    }
    if is_unescaped::<E>(form, &buffer[..count], escape) {
        Ok(count)
    } else {
        Err(QuoteError::NotCanonical)
    }
}

/// Whether the bytes are a string of the platform, and the others are its escape. It isn't inlined, so
/// that the loop is compiled the same for each caller.
#[inline(never)]
fn is_unescaped<E: Platform>(form: Form, encoded: &[u8], escape: &[u8]) -> bool
    ensures { IsTrue result ↔ (E.well_formed encoded.now
        × IsEscapeBy form E.units encoded.now escape.now) }
{
    laws::faults::<E>();
    match OsStr::<E>::checked(encoded) {
        Ok(string) => has_escape(form, string, escape),
        Err(_) => false,
    }
}

/// Writes the bytes that an escape means, truncated to the buffer's length, and returns the number
/// of all these bytes. The error is the index of the first backslash that begins no token. It
/// doesn't check whether the escape is UTF-8.
fn read(form: Form, escape: &[u8], buffer: &mut [u8]) -> Result<usize, usize>
    ensures { MatchResult result
        (λ count. (decoded : List ℕ) × AreBytesRead (shown_by form) escape.now decoded []
        × IsTruncated decoded buffer.old buffer.new count)
        (λ index. IsUtf8 escape.now → IsBadEscapeBy (shown_by form) escape.now index) }
{
    let mut count = 0;
    let mut rest = escape;
    while let Some((prefix, following)) = cut_backslash(rest) {
        let Some((token, after)) = first_token(form, following) else {
            return Err(escape.len() - following.len() - 1);
        };
        count = push_truncated(buffer, count, prefix);
        count = push_decoded(buffer, count, token);
        rest = after;
    }
    Ok(push_truncated(buffer, count, rest))
}

/// Appends the bytes that a token means.
fn push_decoded(buffer: &mut [u8], count: usize, token: Token) -> usize
    requires { count + length (item_bytes (token_item token)) < 2 ^ 64 }
    ensures { Pushes (item_bytes (token_item token)) buffer.old count buffer.new result }
{
    match token {
        Token::Backslash => push_truncated(buffer, count, b"\\"),
        Token::Byte(unit) => push_truncated(buffer, count, &[unit]),
        Token::Wide(unit) => push_form(buffer, count, u32::from(unit)),
        Token::Long(character) => push_form(buffer, count, character as u32),
    }
}

/// Appends the form of a code point.
fn push_form(buffer: &mut [u8], count: usize, code_point: u32) -> usize
    requires code_point { IsCodePoint code_point }
    requires room { count + length (encode code_point) < 2 ^ 64 }
    ensures { Pushes (encode code_point) buffer.old count buffer.new result }
{
    let mut bytes = [0; 4];
    let len = write_form(&mut bytes, 0, code_point);
    push_truncated(buffer, count, &bytes[..len])
}

/// The part of a text that is still to be compared with an escape.
#[derive(Drop)]
struct Comparison<'a> {
    rest: &'a [u8],
}

impl<'a> Sink for Comparison<'a> {
    ghost use Rattle.os_quote.specs.ComparisonSink.{comparison_rules};
    ghost use Rattle.platform_str.specs.Sinks.{any_pieces};

    ghost rules = { comparison_rules };

    ghost pieces = { any_pieces };

    /// A piece whose length is known, as that of a token, is compared without a call.
    #[inline(always)]
    fn take(&mut self, piece: &[u8]) -> fmt::Result {
        self.rest = strip(self.rest, piece).ok_or(fmt::Error)?;
        Ok(())
    }

    #[inline(always)]
    fn take_text(&mut self, text: &str) -> fmt::Result {
        self.rest = strip_text(self.rest, text).ok_or(fmt::Error)?;
        Ok(())
    }
}

/// Whether the bytes are the escape of the string in a form.
fn has_escape<E: Platform>(form: Form, string: OsStr<'_, E>, text: &[u8]) -> bool
    ensures { IsTrue result ↔ IsEscapeBy form E.units (bytes string.entry) text.now }
{
    let mut comparison = Comparison { rest: text };
    match write_escape_to(form, string, &mut comparison) {
        Ok(()) => comparison.rest.is_empty(),
        Err(_) => false,
    }
}

/// The bytes after a text that they begin with.
#[inline(always)]
fn strip_text<'a>(bytes: &'a [u8], text: &str) -> Option<&'a [u8]>
    ensures { MatchOption result (StartsNot text.now bytes.now)
        (λ rest. bytes.now ≡ text.now ++ rest.now) }
{
    let string = OsStr::<Unix>::from_encoded_bytes_unchecked(bytes);
    Some(string.strip_prefix(text)?.as_encoded_bytes())
}
