//! Whole characters in any bytes.
ghost use Rattle.wtf8_core.specs.Character.{IsCharacterAt};

use crate::first_character::first_char_len;

/// The length in bytes, one to four, of the whole character that starts at index `at`, or `None` if
/// none starts there.
///
/// If the bytes are a text and `str::is_char_boundary` is true at that index, it is equivalent to
/// `text[at..].chars().next().map(char::len_utf8)`.
///
/// A whole character is the form of a scalar value (RFC 3629, section 3). So none starts at the
/// form of a surrogate, at an overlong or truncated sequence, at a continuation, or at an index
/// that is the bytes' length or more. The bytes before and after it don't matter. A string may be
/// cut at the start and at the end of a whole character, by the rule of std's
/// `OsStr::slice_encoded_bytes`.
///
/// ```
/// use os_str_bytes::char_at;
///
/// assert_eq!(rt; char_at(b"a\xC3\xA9", 1), Some(2));
/// assert_eq!(rt; char_at(b"a\xC3\xA9", 2), None);
/// assert_eq!(rt; char_at(b"a\xC3\xA9", 3), None);
/// ```
pub fn char_at(bytes: &[u8], at: usize) -> Option<usize>
    ensures { IsCharacterAt bytes.now at result }
{
    if at < bytes.len() {
        first_char_len(&bytes[at..])
    } else {
        None
    }
}
