//! Names as strings of PowerShell.
ghost use Rattle.std.specs.Prelude.{◌≡◌, ◌≢◌, ◌↔◌, ◌+◌, ◌*◌, ◌<◌, ◌^◌, ◌++◌, [], ℕ, List, length, IfOk, IfErr, OnOk, IsTrue, MatchOption};
ghost use Rattle.std.specs.List.{AllByRecursion};
ghost use Rattle.std.specs.Char.{encode_utf8};
ghost use Rattle.std.specs.Fmt.{WritesStyledOnOk};
ghost use Rattle.std.specs.Str.{IsUtf8, chars};
ghost use Rattle.wtf8_core.specs.Truncated.{IsTruncated};
ghost use Rattle.platform_str.specs.Sinks.{Takes};
ghost use Rattle.platform_str.specs.Strings.{bytes};
ghost use Rattle.os_command_line.specs.PowerShell.{HasNulAt, is_single_quote, IsPowerShellFault, IsPowerShellName, IsPowerShellText, powershell_character, powershell_string, powershell_text};

use crate::error_text::write_at_byte;
use memchr::memchr;
use platform_str::{OsStr, Platform, Sink, TruncatedBuffer, Windows, Writeable, write_filled};
use std::error::Error;
use std::fmt;

/// Why a name can't be written as a string of PowerShell.
///
/// Its text is `lone surrogate at byte 3` or `NUL at byte 3`, at any width.
///
/// ```
/// use os_command_line::shell::PowerShellError;
///
/// let error = PowerShellError::LoneSurrogate(1);
/// assert_eq!(rt; format!(in alloc; "{error}")?.as_str(), "lone surrogate at byte 1");
/// ```
#[derive(Clone, Copy, Debug, PartialEq, Eq)]
pub enum PowerShellError {
    /// The byte index of the first lone surrogate. A line of text can't have one.
    LoneSurrogate(usize),
    /// The byte index of the first NUL, of a name without lone surrogates. No argument has one.
    Nul(usize),
}

impl fmt::Display for PowerShellError {
    ghost use Rattle.std.specs.Prelude.{Some};
    ghost use Rattle.os_command_line.specs.ErrorText.{powershell_error_text};

    ghost output = { λ error. Some (powershell_error_text error) };

    ghost styled_output = { λ error _. Some (powershell_error_text error) };

    fn fmt<W: fmt::Write>(&self, f: &mut fmt::Formatter<W>) -> fmt::Result {
        match *self {
            PowerShellError::LoneSurrogate(index) => write_at_byte("lone surrogate", index, f),
            PowerShellError::Nul(index) => write_at_byte("NUL", index, f),
        }
    }
}

impl Error for PowerShellError {}

/// A name that prints as a string of PowerShell. Printing it allocates nothing.
///
/// Returned by [`quoted_powershell`]. A width counts characters, and fills after the string if no
/// alignment is given. A precision doesn't truncate.
#[derive(Clone, Copy)]
pub struct PowerShellQuoted<'a> {
    text: &'a str,
}

/// Returns a value that prints a name as a single-quoted string of PowerShell. Within its single
/// quotation marks each single quotation mark is doubled (about_Quoting_Rules). The typographic
/// marks U+2018 to U+201B are doubled too, since PowerShell takes each of them for a single
/// quotation mark.
///
/// The text must reach PowerShell as UTF-16, as UTF-8 with a byte order mark, or by
/// `-EncodedCommand`. Windows PowerShell 5.1 reads a script without the mark as Windows-1252
/// (about_Character_Encoding). Then the second byte of `В` (U+0412) is U+2019 and ends the string, and
/// the rest of the name may run as a command.
///
/// It is always in quotation marks: as an argument a bare word may be read as a parameter, a number
/// or a list. The rules are those of PowerShell's documentation, and aren't tested with PowerShell
/// itself.
///
/// # Errors
///
/// `LoneSurrogate` with the byte index of the first lone surrogate, else `Nul` with that of the
/// first NUL.
///
/// ```
/// use os_command_line::shell::{PowerShellError, quoted_powershell};
/// use os_str_bytes::{OsStr, Windows};
///
/// let quoted = quoted_powershell(OsStr::<Windows>::new("it's $x"))?;
/// assert_eq!(rt; format!(in alloc; "{quoted}")?.as_str(), "'it''s $x'");
/// let refused = quoted_powershell(OsStr::<Windows>::new("a\0"));
/// assert_eq!(rt; refused.err(), Some(PowerShellError::Nul(1)));
/// ```
#[tactic(auto, using(crate::proofs::lemmas::PowerShell::is_powershell_text))]
pub fn quoted_powershell(name: OsStr<'_, Windows>) -> Result<PowerShellQuoted<'_>, PowerShellError>
    ensures text { IfOk result
        (λ quoted. IsPowerShellText (powershell_text quoted) (chars (bytes name.entry))) }
    ensures string { IfOk result
        (λ quoted. powershell_text quoted ≡ powershell_string (chars (bytes name.entry))) }
    ensures name { OnOk result (IsPowerShellName (bytes name.entry)) }
    ensures fault { IfErr result (λ fault. IsPowerShellFault (bytes name.entry) fault) }
{
    match text_of(name) {
        Ok(text) => Ok(PowerShellQuoted { text }),
        Err(fault) => Err(fault),
    }
}

/// Writes a name as a single-quoted string of PowerShell ([`quoted_powershell`]) into a buffer,
/// truncated if the buffer is too short for it, and returns the length of the whole string. What
/// the string doesn't reach stays as it is. It doesn't allocate, and with an empty buffer only
/// counts.
///
/// The text must reach PowerShell as UTF-16, as UTF-8 with a byte order mark, or by
/// `-EncodedCommand`.
///
/// Twice the name's length and two is below 2^64 (test: `name.len() <= usize::MAX / 2 - 1`). The
/// string is never longer than that.
///
/// # Errors
///
/// As [`quoted_powershell`]; the buffer is then unchanged.
///
/// ```
/// use os_command_line::shell::write_quoted_powershell;
/// use os_str_bytes::{OsStr, Windows};
///
/// let mut buffer = [b'-'; 8];
/// let len = write_quoted_powershell(OsStr::<Windows>::new("a'b"), &mut buffer)?;
/// assert_eq!(rt; len, 6);
/// assert_eq!(rt; buffer.as_slice(), b"'a''b'--".as_slice());
/// ```
pub fn write_quoted_powershell(
    name: OsStr<'_, Windows>,
    buffer: &mut [u8],
) -> Result<usize, PowerShellError>
    requires { 2 * length (bytes name) + 2 < 2 ^ 64 }
    ensures text { IfOk result (λ len. (text : List ℕ)
        × (IsPowerShellText text (chars (bytes name.entry))
        × IsTruncated text buffer.old buffer.new len)) }
    ensures string { IfOk result (λ len. IsTruncated (powershell_string (chars (bytes name.entry)))
        buffer.old buffer.new len) }
    ensures name { OnOk result (IsPowerShellName (bytes name.entry)) }
    ensures fault { IfErr result (λ fault. IsPowerShellFault (bytes name.entry) fault
        × (buffer.new ≡ buffer.old)) }
{
    match text_of(name) {
        Ok(text) => Ok(push_string(buffer, text)),
        Err(fault) => Err(fault),
    }
}

/// The text of a name without NUL.
fn text_of(name: OsStr<'_, Windows>) -> Result<&str, PowerShellError>
    ensures text { IfOk result (λ text. text.now ≡ bytes name.entry) }
    ensures name { OnOk result (IsPowerShellName (bytes name.entry)) }
    ensures fault { IfErr result (λ fault. IsPowerShellFault (bytes name.entry) fault) }
{
    let name = name.as_encoded_bytes();
    if let Some((index, _)) = Windows::utf8_fault(name) {
        return Err(PowerShellError::LoneSurrogate(index));
    }
    if let Some(index) = memchr(0, name) {
        return Err(PowerShellError::Nul(index));
    }
    Ok(unsafe { str::from_utf8_unchecked(name) })
}

/// Writes a text as a string into a buffer.
fn push_string(buffer: &mut [u8], text: &str) -> usize
    requires { 2 * length text.now + 2 < 2 ^ 64 }
    ensures { IsTruncated (powershell_string (chars text.now)) buffer.old buffer.new result }
{
    let mut sink = TruncatedBuffer {
        bytes: buffer,
        count: 0,
    };
    let _ = write_string(text, &mut sink);
    sink.count
}

/// Whether PowerShell takes a character for a single quotation mark.
fn is_single_quote(character: char) -> bool
    ensures { result ≡ is_single_quote character }
{
    character == '\'' || ('\u{2018}'..='\u{201B}').contains(&character)
}

impl<'a> fmt::Display for PowerShellQuoted<'a> {
    ghost use Rattle.std.specs.Prelude.{Some};
    ghost use Rattle.std.specs.Fmt.{spec_fill, spec_align, spec_width};
    ghost use Rattle.platform_str.specs.Display.{filled};
    ghost use Rattle.os_command_line.specs.PowerShell.{powershell_text};

    ghost output = { λ q. Some (powershell_text q) };

    ghost styled_output = { λ q spec. Some (filled (spec_fill spec) (spec_align spec)
        (spec_width spec) (powershell_text q)) };

    fn fmt<W: fmt::Write>(&self, f: &mut fmt::Formatter<W>) -> fmt::Result {
        write_filled(self, f)
    }
}

impl<'a> Writeable for PowerShellQuoted<'a> {
    ghost use Rattle.os_command_line.specs.PowerShell.{powershell_text};

    ghost text = { λ q. powershell_text q };

    #[tactic(auto, using(platform_str::proofs::lemmas::Taking::written))]
    fn write_to<W: fmt::Write>(&self, f: &mut fmt::Formatter<W>) -> fmt::Result {
        write_string(self.text, f)
    }
}

/// Writes a text as a string to a sink.
fn write_string<S: Sink>(text: &str, sink: &mut S) -> fmt::Result
    requires { S.rules.has_room sink.old (powershell_string (chars text.now)) }
    ensures { Takes S.rules sink.old (powershell_string (chars text.now)) result sink.new }
{
    sink.take_text("'")?;
    for character in text.chars() {
        write_character(character, sink)?;
    }
    sink.take_text("'")
}

/// Writes a character of a string to a sink.
fn write_character<S: Sink>(character: char, sink: &mut S) -> fmt::Result
    requires { S.rules.has_room sink.old (powershell_character character) }
    ensures { Takes S.rules sink.old (powershell_character character) result sink.new }
{
    let mut room = [0; 4];
    let encoded: &str = character.encode_utf8(&mut room);
    if is_single_quote(character) {
        sink.take_text(encoded)?;
        sink.take_text(encoded)
    } else {
        sink.take_text(encoded)
    }
}
