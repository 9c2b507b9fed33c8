//! Words written into a buffer that may be too short for them.
ghost use Rattle.std.specs.Prelude.{◌≡◌, ◌+◌, ◌*◌, ◌<◌, ◌^◌, ℕ, List, length, MatchResult};
ghost use Rattle.wtf8_core.specs.Truncated.{IsTruncated};
ghost use Rattle.platform_str.specs.Strings.{bytes};
ghost use Rattle.os_command_line.specs.ReservedWords.{first_word};
ghost use Rattle.os_command_line.specs.ShellSteps.{form_text};
ghost use Rattle.os_command_line.specs.ShellWriting.{HasNoNul, IsFirstNul, IsLineWord, quoted_word};

use crate::shell::error::NulError;
use crate::shell::form::{Form, first_form_of, form_of, line_form_of};
use crate::shell::write_word::write_in;
use platform_str::{OsStr, TruncatedBuffer, Unix};

/// Writes the word of a name ([`quoted`](crate::shell::quoted)) into a buffer, truncated if the
/// buffer is too short for it, and returns the length of the whole word. What the word doesn't
/// reach stays as it is. It doesn't allocate, and with an empty buffer only counts.
///
/// The bytes of a name that isn't UTF-8 are written as they are, in single quotes, and so are
/// control characters: the word isn't safe to paste at a prompt. Use [`write_quoted_line`] there.
///
/// Four times the name's length and 3 are below 2^64 (test: `name.len() <= usize::MAX / 4 - 1`). A
/// word is never longer than that.
///
/// # Errors
///
/// [`NulError`] with the index of the first NUL. The buffer is then unchanged.
///
/// ```
/// use os_command_line::shell::write_quoted;
/// use os_str_bytes::{OsStr, Unix};
///
/// let mut buffer = [b'-'; 8];
/// assert_eq!(rt; write_quoted(OsStr::<Unix>::new("a b"), &mut buffer)?, 5);
/// assert_eq!(rt; buffer.as_slice(), b"'a b'---".as_slice());
/// ```
pub fn write_quoted(name: OsStr<'_, Unix>, buffer: &mut [u8]) -> Result<usize, NulError>
    requires { 4 * length (bytes name) + 3 < 2 ^ 64 }
    ensures word { MatchResult result
        (λ count. IsTruncated (quoted_word (bytes name.entry)) buffer.old buffer.new count)
        (λ fault. IsFirstNul (bytes name.entry) fault.index × (buffer.new ≡ buffer.old)) }
    ensures no_nul { MatchResult result (λ _. HasNoNul (bytes name.entry)) (λ _. Unit {0}) }
{
    let form = form_of(name)?;
    Ok(push_in(form, name, buffer))
}

/// Writes the word of a name that is first on a line into a buffer, as [`write_quoted`] does: a
/// reserved word is quoted, as [`join`](crate::shell::join) quotes it.
///
/// Four times the name's length and 3 are below 2^64 (test: `name.len() <= usize::MAX / 4 - 1`).
///
/// # Errors
///
/// [`NulError`] with the index of the first NUL. The buffer is then unchanged.
///
/// ```
/// use os_command_line::shell::write_quoted_first;
/// use os_str_bytes::{OsStr, Unix};
///
/// let mut buffer = [b'-'; 5];
/// assert_eq!(rt; write_quoted_first(OsStr::<Unix>::new("if"), &mut buffer)?, 4);
/// assert_eq!(rt; buffer.as_slice(), b"'if'-".as_slice());
/// assert_eq!(rt; write_quoted_first(OsStr::<Unix>::new("ls"), &mut buffer)?, 2);
/// ```
pub fn write_quoted_first(name: OsStr<'_, Unix>, buffer: &mut [u8]) -> Result<usize, NulError>
    requires { 4 * length (bytes name) + 3 < 2 ^ 64 }
    ensures word { MatchResult result
        (λ count. IsTruncated (first_word (bytes name.entry)) buffer.old buffer.new count)
        (λ fault. IsFirstNul (bytes name.entry) fault.index × (buffer.new ≡ buffer.old)) }
    ensures no_nul { MatchResult result (λ _. HasNoNul (bytes name.entry)) (λ _. Unit {0}) }
{
    let form = first_form_of(name)?;
    Ok(push_in(form, name, buffer))
}

/// Writes the word of a name on one line ([`quoted_line`](crate::shell::quoted_line)) into a
/// buffer, as [`write_quoted`] does.
///
/// Four times the name's length and 3 are below 2^64 (test: `name.len() <= usize::MAX / 4 - 1`).
///
/// # Errors
///
/// [`NulError`] with the index of the first NUL. The buffer is then unchanged.
///
/// ```
/// use os_command_line::shell::write_quoted_line;
/// use os_str_bytes::{OsStr, Unix};
///
/// let mut buffer = [b'-'; 8];
/// assert_eq!(rt; write_quoted_line(OsStr::<Unix>::new("a\n"), &mut buffer)?, 6);
/// assert_eq!(rt; buffer.as_slice(), b"$'a\\n'--".as_slice());
/// ```
pub fn write_quoted_line(name: OsStr<'_, Unix>, buffer: &mut [u8]) -> Result<usize, NulError>
    requires { 4 * length (bytes name) + 3 < 2 ^ 64 }
    ensures word { MatchResult result
        (λ count. (text : List ℕ) × IsLineWord (bytes name.entry) text
        × IsTruncated text buffer.old buffer.new count)
        (λ fault. IsFirstNul (bytes name.entry) fault.index × (buffer.new ≡ buffer.old)) }
    ensures no_nul { MatchResult result (λ _. HasNoNul (bytes name.entry)) (λ _. Unit {0}) }
{
    let form = line_form_of(name)?;
    Ok(push_in(form, name, buffer))
}

/// Writes the word of a name in a form into a buffer, truncated if the buffer is too short, and
/// returns the length of the whole word.
pub(crate) fn push_in(form: Form, name: OsStr<'_, Unix>, buffer: &mut [u8]) -> usize
    requires { 4 * length (bytes name) + 3 < 2 ^ 64 }
    ensures { IsTruncated (form_text form (bytes name.entry)) buffer.old buffer.new result }
{
    let mut sink = TruncatedBuffer {
        bytes: buffer,
        count: 0,
    };
    let _ = write_in(form, name, &mut sink);
    sink.count
}
