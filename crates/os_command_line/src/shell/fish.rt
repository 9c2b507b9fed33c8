//! Names as words of fish.
ghost use Rattle.std.specs.Prelude.{◌≡◌, ◌+◌, ◌*◌, ◌<◌, ◌^◌, ℕ, List, true, false, length, IfOk, IfErr, OnOk, MatchOption};
ghost use Rattle.wtf8_core.specs.Truncated.{IsTruncated};
ghost use Rattle.platform_str.specs.Sinks.{Takes};
ghost use Rattle.platform_str.specs.Strings.{bytes};
ghost use Rattle.os_command_line.specs.Fish.{fish_byte, fish_quoted, fish_text, fish_word, is_escaped, IsFishFault, IsFishText};
ghost use Rattle.os_command_line.specs.ShellSteps.{AreShown, IsCutAtEscaped, ends_high};
ghost use Rattle.os_command_line.specs.ShellWriting.{HasNoNul, IsFirstNul};

use crate::error_text::write_at_byte;
use crate::shell::error::NulError;
use crate::shell::form::{first_nul, is_plain_name};
use memchr::memchr2;
use platform_str::{OsStr, Platform, Sink, TruncatedBuffer, Unix, Writeable, write_filled};
use std::error::Error;
use std::fmt;

/// Why a name isn't printed as a word of fish.
///
/// Its text is `NUL at byte 3` or `invalid UTF-8 at byte 3`, at any width.
///
/// ```
/// use os_command_line::shell::FishError;
///
/// let error = FishError::NotText(1);
/// assert_eq!(rt; format!(in alloc; "{error}")?.as_str(), "invalid UTF-8 at byte 1");
/// ```
#[derive(Clone, Copy, Debug, PartialEq, Eq)]
pub enum FishError {
    /// The byte index of the first NUL. No argument has one.
    Nul(usize),
    /// The byte index of the first invalid UTF-8 of a name without NUL, which `{}` can't print.
    /// [`write_quoted_fish`] writes such a name.
    NotText(usize),
}

impl fmt::Display for FishError {
    ghost use Rattle.std.specs.Prelude.{Some};
    ghost use Rattle.os_command_line.specs.ErrorText.{fish_error_text};

    ghost output = { λ error. Some (fish_error_text error) };

    ghost styled_output = { λ error _. Some (fish_error_text error) };

    fn fmt<W: fmt::Write>(&self, f: &mut fmt::Formatter<W>) -> fmt::Result {
        match *self {
            FishError::Nul(index) => write_at_byte("NUL", index, f),
            FishError::NotText(index) => write_at_byte("invalid UTF-8", index, f),
        }
    }
}

impl Error for FishError {}

/// A name that prints as a word of fish. Printing it allocates nothing.
///
/// Returned by [`quoted_fish`]. A width counts characters, and fills after the word if no alignment
/// is given. A precision doesn't truncate.
#[derive(Clone, Copy)]
pub struct FishQuoted<'a> {
    text: &'a str,
}

/// Returns a value that prints a name as a word of fish. A name that isn't empty and has only
/// letters and digits of ASCII and `_ @ + : , . / -` is printed unchanged. Any other is in single
/// quotes, where a backslash precedes each single quote and each backslash (fish's documentation,
/// "Quotes").
///
/// No backslash comes after a byte from 0x80 on: the quotes end before it, and begin again after
/// what it escapes, as in `'é'\''`, since in GBK, GB18030 and Shift-JIS the two may be one
/// character. So fish may read it in UTF-8, GBK, GB18030, Big5, Shift-JIS, the EUCs and each
/// charset of one byte (`IsFishText` defines which charsets). fish keeps characters, not bytes: if
/// a charset has two codes for one character, as Big5 has, it passes on one of them.
///
/// # Errors
///
/// `Nul` with the byte index of the first NUL, else `NotText` with that of the first invalid UTF-8.
///
/// ```
/// use os_command_line::shell::{FishError, quoted_fish};
/// use os_str_bytes::{OsStr, Unix};
///
/// let quoted = quoted_fish(OsStr::<Unix>::new("it's\\"))?;
/// assert_eq!(rt; format!(in alloc; "{quoted}")?.as_str(), "'it\\'s\\\\'");
/// let quoted = quoted_fish(OsStr::<Unix>::new("\u{E9}'"))?;
/// assert_eq!(rt; format!(in alloc; "{quoted}")?.as_str(), "'\u{E9}'\\'''");
/// let refused = quoted_fish(OsStr::<Unix>::from_encoded_bytes_unchecked(b"a\xFF"));
/// assert_eq!(rt; refused.err(), Some(FishError::NotText(1)));
/// ```
#[tactic(auto, using(crate::proofs::lemmas::Fish::is_fish_text))]
pub fn quoted_fish(name: OsStr<'_, Unix>) -> Result<FishQuoted<'_>, FishError>
    ensures text { IfOk result (λ quoted. IsFishText (fish_text quoted) (bytes name.entry)) }
    ensures word { IfOk result (λ quoted. fish_text quoted ≡ fish_word (bytes name.entry)) }
    ensures no_nul { OnOk result (HasNoNul (bytes name.entry)) }
    ensures fault { IfErr result (λ fault. IsFishFault (bytes name.entry) fault) }
{
    let name = name.as_encoded_bytes();
    if let Some(index) = first_nul(name) {
        return Err(FishError::Nul(index));
    }
    if let Some((index, _)) = Unix::utf8_fault(name) {
        return Err(FishError::NotText(index));
    }
    Ok(FishQuoted {
        text: unsafe { str::from_utf8_unchecked(name) },
    })
}

/// Writes a name as a word of fish ([`quoted_fish`]) into a buffer, truncated if the buffer is too
/// short, and returns the length of the whole word. The name needn't be valid UTF-8: its bytes are
/// written. The buffer after the word is unchanged. It doesn't allocate, and with an empty buffer
/// only counts.
///
/// Three times the name's length and two is below 2^64 (test: `name.len() <= usize::MAX / 3 - 1`).
/// The word is never longer than that.
///
/// # Errors
///
/// `NulError` with the byte index of the first NUL; the buffer is then unchanged.
///
/// ```
/// use os_command_line::shell::write_quoted_fish;
/// use os_str_bytes::{OsStr, Unix};
///
/// let mut buffer = [b'-'; 8];
/// let name = OsStr::<Unix>::from_encoded_bytes_unchecked(b"a'\xFF");
/// assert_eq!(rt; write_quoted_fish(name, &mut buffer), Ok(6));
/// assert_eq!(rt; buffer.as_slice(), b"'a\\'\xFF'--".as_slice());
/// ```
#[tactic(auto, using(crate::proofs::lemmas::Fish::is_fish_text))]
pub fn write_quoted_fish(name: OsStr<'_, Unix>, buffer: &mut [u8]) -> Result<usize, NulError>
    requires { 3 * length (bytes name) + 2 < 2 ^ 64 }
    ensures text { OnOk result (IsFishText (fish_word (bytes name.entry)) (bytes name.entry)) }
    ensures written { IfOk result (λ len. IsTruncated (fish_word (bytes name.entry)) buffer.old
        buffer.new len) }
    ensures no_nul { OnOk result (HasNoNul (bytes name.entry)) }
    ensures fault { IfErr result (λ fault. IsFirstNul (bytes name.entry) fault.index
        × (buffer.new ≡ buffer.old)) }
{
    let name = name.as_encoded_bytes();
    if let Some(index) = first_nul(name) {
        return Err(NulError { index });
    }
    Ok(push_word(buffer, name))
}

/// Writes bytes as a word into a buffer.
fn push_word(buffer: &mut [u8], name: &[u8]) -> usize
    requires { 3 * length name.now + 2 < 2 ^ 64 }
    ensures { IsTruncated (fish_word name.now) buffer.old buffer.new result }
{
    let mut sink = TruncatedBuffer {
        bytes: buffer,
        count: 0,
    };
    let _ = write_word(name, &mut sink);
    sink.count
}

impl<'a> fmt::Display for FishQuoted<'a> {
    ghost use Rattle.std.specs.Prelude.{Some};
    ghost use Rattle.std.specs.Fmt.{spec_fill, spec_align, spec_width};
    ghost use Rattle.platform_str.specs.Display.{filled};
    ghost use Rattle.os_command_line.specs.Fish.{fish_byte, fish_quoted, fish_text, fish_word, is_escaped, IsFishFault, IsFishText};
    ghost use Rattle.os_command_line.specs.ShellWriting.{HasNoNul, IsFirstNul};

    ghost output = { λ q. Some (fish_text q) };

    ghost styled_output = { λ q spec. Some (filled (spec_fill spec) (spec_align spec)
        (spec_width spec) (fish_text q)) };

    fn fmt<W: fmt::Write>(&self, f: &mut fmt::Formatter<W>) -> fmt::Result {
        write_filled(self, f)
    }
}

impl<'a> Writeable for FishQuoted<'a> {
    ghost use Rattle.os_command_line.specs.Fish.{fish_byte, fish_quoted, fish_text, fish_word, is_escaped, IsFishFault, IsFishText};
    ghost use Rattle.os_command_line.specs.ShellWriting.{HasNoNul, IsFirstNul};

    ghost text = { λ q. fish_text q };

    fn write_to<W: fmt::Write>(&self, f: &mut fmt::Formatter<W>) -> fmt::Result {
        write_word(self.text.as_bytes(), f)
    }
}

/// Writes bytes as a word to a sink.
fn write_word<S: Sink>(name: &[u8], sink: &mut S) -> fmt::Result
    requires accepted { S.pieces.accepts name.now }
    requires room { S.rules.has_room sink.old (fish_word name.now) }
    ensures { Takes S.rules sink.old (fish_word name.now) result sink.new }
{
    if is_plain_name(name) {
        sink.take(name)
    } else {
        write_in_quotes(name, sink)
    }
}

/// Writes bytes in single quotes to a sink.
fn write_in_quotes<S: Sink>(name: &[u8], sink: &mut S) -> fmt::Result
    requires accepted { S.pieces.accepts name.now }
    requires room { S.rules.has_room sink.old (fish_quoted name.now) }
    ensures { Takes S.rules sink.old (fish_quoted name.now) result sink.new }
{
    sink.take_text("'")?;
    let mut rest = name;
    while let Some((prefix, byte, after)) = cut_at_escaped(rest) {
        sink.take(prefix)?;
        sink.take_text(escape_of(ends_high(prefix), byte))?;
        rest = after;
    }
    sink.take(rest)?;
    sink.take_text("'")
}

/// What comes before the first single quote or backslash, it, and what comes after it.
fn cut_at_escaped(bytes: &[u8]) -> Option<(&[u8], u8, &[u8])>
    ensures { MatchOption result (AreShown bytes.now)
        (λ parts. IsCutAtEscaped bytes.now parts.0.now parts.1 parts.2.now) }
{
    let Some(at) = memchr2(b'\'', b'\\', bytes) else {
        return None;
    };
    Some((&bytes[..at], bytes[at], &bytes[at + 1..]))
}

/// Whether bytes end with one from 0x80 on.
#[tactic(auto, using(crate::proofs::lemmas::Fish::last_high))]
fn ends_high(bytes: &[u8]) -> bool
    ensures { result ≡ ends_high false bytes.now }
{
    match bytes.split_last() {
        Some((last, _)) => *last > 0x7F,
        None => false,
    }
}

/// A single quote or a backslash in single quotes, after a byte from 0x80 on or not.
#[tactic(auto, using(crate::proofs::lemmas::Fish::escaped_quote, crate::proofs::lemmas::Fish::escaped_backslash))]
fn escape_of(high: bool, byte: u8) -> &'static str
    requires { is_escaped byte ≡ true }
    ensures { result.now ≡ fish_byte high byte }
{
    if byte == b'\'' {
        if high { "'\\''" } else { "\\'" }
    } else if high {
        "'\\\\'"
    } else {
        "\\\\"
    }
}
