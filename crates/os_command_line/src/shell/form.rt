//! In which form a name is written.
ghost use Rattle.std.specs.Prelude.{◌≡◌, ◌↔◌, MatchOption, MatchResult, IsTrue};
ghost use Rattle.platform_str.specs.Strings.{bytes};
ghost use Rattle.os_command_line.specs.ShellWriting.{is_plain, are_plain, is_plain_name, HasNoNul, IsFirstNul, IsLineText};
ghost use Rattle.os_command_line.specs.Shell.{HasNoQuote};
ghost use Rattle.os_command_line.specs.ReservedWords.{first_word};
ghost use Rattle.os_command_line.specs.ShellSteps.{form_text, is_bare_form, IsFormOf, IsLineFormOf, IsCutAtQuote};

use crate::shell::error::NulError;
use crate::shell::reserved::is_reserved;
use memchr::memchr;
use os_quote::is_on_one_line;
use platform_str::{OsStr, Unix};

/// How a name is written as a word.
#[derive(Clone, Copy)]
pub(crate) enum Form {
    /// As it is.
    Bare,
    /// In single quotes.
    Single,
    /// In dollar-single-quotes.
    Dollar,
}

impl Form {
    /// Whether a name is written as it is.
    pub(crate) fn is_bare(self) -> bool
        ensures { result ≡ is_bare_form self }
    {
        match self {
            Form::Bare => true,
            Form::Single => false,
            Form::Dollar => false,
        }
    }
}

/// The form of a name in every POSIX shell.
#[tactic(auto, using(crate::proofs::lemmas::ShellBare::plain_has_no_nul))]
pub(crate) fn form_of(name: OsStr<'_, Unix>) -> Result<Form, NulError>
    ensures form { MatchResult result (λ form. IsFormOf (bytes name.entry) form)
        (λ fault. IsFirstNul (bytes name.entry) fault.index) }
    ensures no_nul { MatchResult result (λ _. HasNoNul (bytes name.entry)) (λ _. Unit {0}) }
{
    if is_plain_name(name.as_encoded_bytes()) {
        return Ok(Form::Bare);
    }
    match first_nul(name.as_encoded_bytes()) {
        Some(index) => Err(NulError { index }),
        None => Ok(Form::Single),
    }
}

/// The form of a name that is first on a line: a reserved word is quoted.
#[tactic(auto, using(crate::proofs::lemmas::ShellFirst::first_quoted, crate::proofs::lemmas::ShellFirst::first_other))]
pub(crate) fn first_form_of(name: OsStr<'_, Unix>) -> Result<Form, NulError>
    ensures form { MatchResult result
        (λ form. form_text form (bytes name.entry) ≡ first_word (bytes name.entry))
        (λ fault. IsFirstNul (bytes name.entry) fault.index) }
    ensures no_nul { MatchResult result (λ _. HasNoNul (bytes name.entry)) (λ _. Unit {0}) }
{
    let form = form_of(name)?;
    if is_reserved(name.as_encoded_bytes()) {
        Ok(Form::Single)
    } else {
        Ok(form)
    }
}

/// The form of a name on one line.
#[tactic(auto, using(crate::proofs::lemmas::ShellBare::bare_line_form))]
pub(crate) fn line_form_of(name: OsStr<'_, Unix>) -> Result<Form, NulError>
    ensures form { MatchResult result (λ form. IsLineFormOf (bytes name.entry) form)
        (λ fault. IsFirstNul (bytes name.entry) fault.index) }
    ensures no_nul { MatchResult result (λ _. HasNoNul (bytes name.entry)) (λ _. Unit {0}) }
{
    let form = form_of(name)?;
    if form.is_bare() {
        return Ok(form);
    }
    if is_line_text(name) {
        Ok(form)
    } else {
        Ok(Form::Dollar)
    }
}

/// Whether a name is valid UTF-8 and each of its characters stays on the line.
pub(crate) fn is_line_text(name: OsStr<'_, Unix>) -> bool
    ensures { IsTrue result ↔ IsLineText (bytes name.entry) }
{
    match name.to_str() {
        Some(text) => is_on_one_line(text),
        None => false,
    }
}

/// The index of the first NUL.
#[tactic(auto, using(crate::proofs::lemmas::ShellForms::nul_found))]
pub(crate) fn first_nul(name: &[u8]) -> Option<usize>
    ensures { MatchOption result (HasNoNul name.now) (λ index. IsFirstNul name.now index) }
{
    memchr(0, name)
}

/// Whether a name needs no quotes.
pub(crate) fn is_plain_name(name: &[u8]) -> bool
    ensures { result ≡ is_plain_name name.now }
{
    !name.is_empty() && are_plain(name)
}

/// Whether no shell gives any of the bytes a meaning of its own.
fn are_plain(name: &[u8]) -> bool
    ensures { result ≡ are_plain name.now }
{
    let mut are_plain = true;
    for byte in name {
        are_plain &= is_plain(*byte);
    }
    are_plain
}

/// Whether no shell gives a byte a meaning of its own.
#[inline(always)]
fn is_plain(byte: u8) -> bool
    ensures { result ≡ is_plain byte }
{
    (byte >= b'+' && byte <= b':')
        || (byte >= b'@' && byte <= b'Z')
        || byte == b'_'
        || (byte >= b'a' && byte <= b'z')
}

/// What comes before the first single quote, and after it.
pub(crate) fn cut_at_quote(bytes: &[u8]) -> Option<(&[u8], &[u8])>
    ensures { MatchOption result (HasNoQuote bytes.now)
        (λ parts. IsCutAtQuote bytes.now parts.0.now parts.1.now) }
{
    let Some(at) = memchr(b'\'', bytes) else {
        return None;
    };
    Some((&bytes[..at], &bytes[at + 1..]))
}
