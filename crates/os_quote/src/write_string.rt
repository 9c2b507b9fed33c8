//! From strings to escapes.
ghost use Rattle.std.specs.Prelude.{IfOk, string_bytes};
ghost use Rattle.platform_str.specs.Strings.{bytes};
ghost use Rattle.os_quote.specs.{Escaped.escaped_text, Escape.IsEscape, Escape.IsLineEscape, Escape.IsEscapeBy};

use crate::form::Form;
use crate::write_display::Escaped;
use os_str_bytes::{OsStr, Platform};
use std::alloc::{AllocError, Allocator};

/// Returns the escape of a string, from which [`unescape`](crate::unescape) gives the string again.
///
/// It is written chunk by chunk (`OsStrBytesExt::utf8_chunks`): each unit of the part is `\xHH`
/// below 100 (hexadecimal), else `\uHHHH`; then comes the text, with each backslash doubled.
/// The Unix string 66 6F 80 FF 6F is `fo\x80\xFFo`, the Windows string of the units 61, D800
/// and 5C is `a\uD800\\`. The format is this project's own; [`escaped`] prints the same
/// and allocates nothing.
///
/// Control characters are shown as they are, so a newline in a name is a newline in its escape. For
/// a log line or a terminal use [`escape_line`].
///
/// # Errors
///
/// `AllocError` if an allocation fails.
///
/// ```
/// use os_quote::escape;
/// use os_str_bytes::{OsStr, OsString, Unix, Windows};
///
/// let string = OsStr::<Unix>::from_encoded_bytes_unchecked(b"fo\x80\xFFo");
/// assert_eq!(rt; escape(alloc, string)?.as_str(), "fo\\x80\\xFFo");
///
/// let string = OsString::<Windows>::from_wide(alloc, &[0x61, 0xD800, 0x5C])?;
/// assert_eq!(rt; escape(alloc, string.as_os_str())?.as_str(), "a\\uD800\\\\");
/// ```
pub fn escape<E: Platform, A: Allocator>(
    alloc: A,
    string: OsStr<'_, E>,
) -> Result<String<A>, AllocError>
    ensures { IfOk result (λ text. IsEscape E.units (bytes string.entry) (string_bytes text)) }
{
    escape_by(Form::Text, alloc, string)
}

/// Returns a value that prints as the escape of a string. Printing it allocates nothing.
///
/// It prints the text that [`escape`] returns: of the Unix string 66 6F 80 FF 6F (hexadecimal)
/// `fo\x80\xFFo`. Control characters are shown as they are; in a log line use [`escaped_line`].
///
/// ```
/// use os_quote::escaped;
/// use os_str_bytes::{OsStr, Unix};
///
/// let string = OsStr::<Unix>::from_encoded_bytes_unchecked(b"fo\x80\xFFo");
/// assert_eq!(rt; escaped(string).to_string(alloc)?.as_str(), "fo\\x80\\xFFo");
/// ```
pub fn escaped<'a, E: Platform>(string: OsStr<'a, E>) -> Escaped<'a, E>
    ensures { IsEscape E.units (bytes string.entry) (escaped_text result) }
{
    Escaped::new(Form::Text, string)
}

/// Returns the escape of a string on one line, from which [`unescape_line`](crate::unescape_line)
/// gives the string again.
///
/// It is written as by [`escape`], and these characters of a text are written as tokens, too,
/// `\uHHHH` or, past U+FFFF, `\u{H..}` of five or six digits:
///
/// - controls, format characters, and line and paragraph separators (Unicode 18.0, general categories
///   Cc, Cf, Zl and Zp): what ends a line, moves the cursor or overrides the direction of text, joiners
///   and spaces without width, and tags
/// - blanks other than the space U+0020 (category Zs), as the no-break space U+00A0 and the
///   ideographic space U+3000
/// - what is ignored in display (property Default_Ignorable_Code_Point): fillers, variation
///   selectors, and code points that are reserved for such characters
/// - signs that are blank: U+2800 (braille without dots), U+13441 and U+13442 (blanks of hieroglyphs),
///   U+1D159 (a note head that isn't there)
/// - private use (category Co), for which each font has another sign or none. Systems that store a
///   character which a name can't have write one of these, as U+F03A for a colon.
/// - noncharacters (property Noncharacter_Code_Point), as U+FFFE
/// - all code points from U+40000 on. In these planes no character has a sign.
///
/// A space at the end of the string is `\u0020`, since editors remove blanks from the ends of lines. So
/// the result doesn't end in a blank.
///
/// Nothing in it ends the line, moves the cursor or overrides the direction of text. All other
/// characters are shown as they are:
///
/// - letters from right to left. A terminal orders these, and digits and signs beside them, from right
///   to left, so that two names can look alike (Unicode Standard Annex 9).
/// - combining marks, which change how a neighbor looks, and letters that look alike. Names in many
///   languages need all of these. It doesn't find names that look alike.
/// - code points below U+40000 that Unicode 18.0 hasn't assigned. Fonts show a box for them. Each later
///   version assigns some, so as tokens they would change the escapes of names with each version.
///
/// The list is that of one version of Unicode. A later version may assign more hidden characters, and
/// then the escape of a string with one of these changes.
///
/// Rust's `str::escape_debug` takes texts only, and its result can't be read back.
///
/// # Errors
///
/// `AllocError` if an allocation fails.
///
/// ```
/// use os_quote::escape_line;
/// use os_str_bytes::{OsStr, Unix};
///
/// let string = OsStr::<Unix>::from_encoded_bytes_unchecked(b"a\n\x1B\xFF");
/// assert_eq!(rt; escape_line(alloc, string)?.as_str(), "a\\u000A\\u001B\\xFF");
/// ```
pub fn escape_line<E: Platform, A: Allocator>(
    alloc: A,
    string: OsStr<'_, E>,
) -> Result<String<A>, AllocError>
    ensures { IfOk result (λ text. IsLineEscape E.units (bytes string.entry) (string_bytes text)) }
{
    escape_by(Form::Line, alloc, string)
}

/// Returns a value that prints as the escape of a string on one line, for `{}` in a log line.
/// Printing it allocates nothing.
///
/// It prints the text that [`escape_line`] returns.
///
/// ```
/// use os_quote::escaped_line;
/// use os_str_bytes::{OsStr, Windows};
///
/// let string = OsStr::<Windows>::new("a\n\u{E0041}");
/// assert_eq!(rt; escaped_line(string).to_string(alloc)?.as_str(), "a\\u000A\\u{E0041}");
/// ```
pub fn escaped_line<'a, E: Platform>(string: OsStr<'a, E>) -> Escaped<'a, E>
    ensures { IsLineEscape E.units (bytes string.entry) (escaped_text result) }
{
    Escaped::new(Form::Line, string)
}

/// Returns the escape of a string in a form.
pub(crate) fn escape_by<E: Platform, A: Allocator>(
    form: Form,
    alloc: A,
    string: OsStr<'_, E>,
) -> Result<String<A>, AllocError>
    ensures { IfOk result
        (λ text. IsEscapeBy form E.units (bytes string.entry) (string_bytes text)) }
{
    let mut text = String::with_capacity(alloc, string.len())?;
    text.write(Escaped::new(form, string))?;
    Ok(text)
}
