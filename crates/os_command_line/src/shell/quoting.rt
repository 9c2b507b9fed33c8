//! From names to what prints as words.
ghost use Rattle.std.specs.Prelude.{◌↔◌, IsTrue, MatchResult};
ghost use Rattle.std.specs.Str.{IsUtf8};
ghost use Rattle.platform_str.specs.Strings.{bytes};
ghost use Rattle.os_command_line.specs.ShellSteps.{IsFormOf};
ghost use Rattle.os_command_line.specs.ShellViews.{quoted_text};
ghost use Rattle.os_command_line.specs.ShellWriting.{HasNoNul, IsFirstNul, IsLineWord, IsTextWord};

use crate::shell::display::Quoted;
use crate::shell::error::NulError;
use crate::shell::form::{Form, form_of, line_form_of};
use platform_str::{OsStr, Unix};

/// Returns a value that prints as a word that every POSIX shell reads as this name, for `{}` in a
/// message. Printing it allocates nothing.
///
/// A name that isn't empty and has only `A-Z a-z 0-9 _ @ + : , . / -` prints unchanged. Any other
/// prints in single quotes, with a single quote as `'\''`. Before a `^` after a newline the quotes
/// end and begin again, `''^`, since an interactive bash takes a `^` that is first on a line as a
/// substitution in its history, in quotes too. Nothing in the word is expanded. A program can still
/// read a name as an option, as `-x`. (POSIX.1-2024, Shell Command Language, 2.2.2; the crate shlex
/// has `quote` for texts.)
///
/// **Not for a prompt.** The word is for scripts, `eval` and `sh -c`. It has the control characters
/// of the name, and a terminal or a line editor acts on these, in quotes too: U+0015 clears the line
/// that was typed before it, so that the rest of the name may run as a command. Only the word of
/// [`quoted_line`] is safe to paste at a prompt.
///
/// **Position.** It is read as the name where it is an argument. First on a line a word such as
/// `if` or `time` is a reserved word: [`join`](crate::shell::join),
/// [`push_word`](crate::shell::push_word) and
/// [`write_quoted_first`](crate::shell::write_quoted_first) quote it there.
///
/// **Locales.** The shell may read it in any charset in which tab, newline, space, `"`, `$` and `'`
/// are part of no longer character. Among these are UTF-8, GBK, Big5, Shift-JIS, the EUCs and each
/// charset of one byte (`shell::laws::charset_words`). GB18030 is one too, but bash with the GNU C
/// library reads it differently. After a byte from 0x81 on and a digit that begin no character
/// there, bash takes any byte with them, even a quote. In that locale it reads back no quoted name
/// with such bytes, not even as its own `${name@Q}` writes it. yash reads only names that are text
/// in its locale.
///
/// What is printed is text, so a name that isn't UTF-8 is printed as by [`quoted_line`].
/// [`write_quoted`](crate::shell::write_quoted) and [`quote`](crate::shell::quote) write its bytes.
/// For a message or a log line use [`quoted_line`].
///
/// # Errors
///
/// [`NulError`] with the index of the first NUL. No argument of a program has one.
///
/// ```
/// use os_command_line::shell::{NulError, quoted};
/// use os_str_bytes::{OsStr, Unix};
///
/// let word = quoted(OsStr::<Unix>::new("it's"))?;
/// assert_eq!(rt; word.to_string(alloc)?.as_str(), "'it'\\''s'");
/// let word = quoted(OsStr::<Unix>::new("src/lib.rs"))?;
/// assert_eq!(rt; word.to_string(alloc)?.as_str(), "src/lib.rs");
/// let fault = quoted(OsStr::<Unix>::new("a\0"));
/// assert!(rt; fault.is_err_and(|error| error == NulError { index: 1 }));
/// ```
#[tactic(auto, using(crate::proofs::lemmas::ShellBare::form_is_text))]
pub fn quoted<'a>(name: OsStr<'a, Unix>) -> Result<Quoted<'a>, NulError>
    ensures word { MatchResult result
        (λ word. IsTextWord (bytes name.entry) (quoted_text word))
        (λ fault. IsFirstNul (bytes name.entry) fault.index) }
    ensures no_nul { MatchResult result (λ _. HasNoNul (bytes name.entry)) (λ _. Unit {0}) }
{
    let form = form_of(name)?;
    if is_text(form, name) {
        Ok(Quoted { form, name })
    } else {
        Ok(Quoted {
            form: Form::Dollar,
            name,
        })
    }
}

/// Returns a value that prints as a word on one line that bash, zsh, ksh93, mksh and busybox read
/// as this name. Printing it allocates nothing.
///
/// If the name is UTF-8 and each of its characters stays on the line (`os_quote::stays_on_line`),
/// it is the word that [`quoted`] prints. Else it is `$'..'` (POSIX.1-2024, 2.2.4), in which `\\`,
/// `\'`, `\n`, `\t` and `\r` are written for these characters. Every other byte of a character that
/// doesn't stay on the line, or of no character, is a backslash and three octal digits. All other
/// characters are unchanged. dash, posh and yash don't read `$'..'`.
///
/// It has no control character, so it may be typed or pasted at a prompt of those shells.
///
/// No backslash comes after a byte from 0x80 on: the quotes end before it and begin again, as in
/// `$'é'$'\n'`, since in GBK and Shift-JIS the two may be one character. So it is read as the
/// name in the locales in which the word of [`quoted`] is.
///
/// # Errors
///
/// [`NulError`] with the index of the first NUL. No argument of a program has one.
///
/// ```
/// use os_command_line::shell::quoted_line;
/// use os_str_bytes::{OsStr, Unix};
///
/// let name = OsStr::<Unix>::from_encoded_bytes_unchecked(b"a\n\x1B\xFF");
/// let word = quoted_line(name)?;
/// assert_eq!(rt; word.to_string(alloc)?.as_str(), "$'a\\n\\033\\377'");
/// let word = quoted_line(OsStr::<Unix>::new("a b"))?;
/// assert_eq!(rt; word.to_string(alloc)?.as_str(), "'a b'");
/// let word = quoted_line(OsStr::<Unix>::new("\u{E9}'\n"))?;
/// assert_eq!(rt; word.to_string(alloc)?.as_str(), "$'\u{E9}'$'\\'\\n'");
/// ```
#[tactic(auto, using(crate::proofs::lemmas::ShellBare::line_form_is_text))]
pub fn quoted_line<'a>(name: OsStr<'a, Unix>) -> Result<Quoted<'a>, NulError>
    ensures word { MatchResult result
        (λ word. IsLineWord (bytes name.entry) (quoted_text word))
        (λ fault. IsFirstNul (bytes name.entry) fault.index) }
    ensures no_nul { MatchResult result (λ _. HasNoNul (bytes name.entry)) (λ _. Unit {0}) }
{
    let form = line_form_of(name)?;
    Ok(Quoted { form, name })
}

/// Whether a name of a form is text. One that is written as it is has only ASCII.
#[tactic(auto, using(crate::proofs::lemmas::ShellBare::bare_is_text))]
fn is_text(form: Form, name: OsStr<'_, Unix>) -> bool
    requires { IsFormOf (bytes name) form }
    ensures { IsTrue result ↔ IsUtf8 (bytes name.entry) }
{
    if form.is_bare() {
        return true;
    }
    match name.to_str() {
        Some(_) => true,
        None => false,
    }
}
