//! The words of a line.
ghost use Rattle.std.specs.Prelude.{◌≡◌, ◌≤◌, ◌++◌, ℕ, List, length, true, false, MatchOption, MatchResult};
ghost use Rattle.std.specs.Iterator.{YieldsFirstBy, item_count};
ghost use Rattle.platform_str.specs.Strings.{bytes};
ghost use Rattle.os_command_line.specs.Shell.{IsRead, language};
ghost use Rattle.os_command_line.specs.Shell.Outcome.{Word as WordRead, Fault};
ghost use Rattle.os_command_line.specs.ShellReader.{outcome, raw_bytes};
ghost use Rattle.os_command_line.specs.ShellSteps.{IsNextItem, HasNoItem};
ghost use Rattle.os_command_line.specs.ShellViews.{is_refused, item_bytes, word_bytes};

use crate::shell::fault::{FaultKind, WordsFault};
use crate::shell::language::{Language, Specials};
use crate::shell::scan::{after_bare, after_word, skip_gap};
use crate::shell::word::Word;
use platform_str::{OsStr, Unix};
use std::marker::Model;

/// An iterator over the words of a line, each a view of it, and then over its fault, if it has one.
/// After the fault, or after the last word, it gives only `None`.
///
/// It holds the rest of the line and allocates nothing.
#[derive(Drop)]
pub struct Words<'a> {
    language: Language,
    len: usize,
    rest: &'a [u8],
}

impl<'a> Model for Words<'a> {
    ghost use Rattle.std.specs.Prelude.{List, ℕ, Result, ◌≤◌, length};
    ghost use Rattle.os_command_line.specs.declared.shell.fault.WordsFault.{WordsFault};

    ghost Value = { List (Result (List ℕ) WordsFault) };

    ghost use Rattle.os_command_line.specs.ShellReader.{items_of};

    ghost view = { λ it. items_of it.language it.len it.rest.now };

    ghost invariant = { λ it. length it.rest.now ≤ it.len };
}

impl<'a> Words<'a> {
    /// Iterates over the words of a line as `sh` reads it, where nothing is expanded (POSIX.1-2024,
    /// Shell Command Language, 2.2 and 2.3). Quotes, and backslashes that escape a byte, aren't
    /// part of a word. (The crates shlex and shell-words have `split` for texts.)
    ///
    /// - Words are separated by spaces, tabs and newlines outside quotes.
    /// - In single quotes each byte means itself.
    /// - In double quotes a backslash before `$`, a grave accent, `"` or `\` escapes it; before
    ///   another byte it means itself.
    /// - Outside quotes a backslash escapes the byte after it.
    /// - A backslash and a newline are removed before words are separated, except in single quotes.
    ///
    /// Variables, commands and patterns aren't expanded: a byte by which some shell would begin one
    /// is rejected or means itself, as `specials` sets.
    ///
    /// Words are bytes, and a line is read alike in every locale: as a shell reads it in a charset
    /// of one byte (`shell::laws::charsets`), and in UTF-8, where no byte of ASCII is part of a
    /// longer character. In GBK, GB18030, Big5 and Shift-JIS one may be, so a shell can read a
    /// backslash after a byte from 0x80 on as part of a character. The blanks are space, tab and
    /// newline in every locale.
    ///
    /// ```
    /// use os_command_line::shell::{FaultKind, Specials, Words, WordsFault};
    /// use os_str_bytes::{OsStr, Unix};
    ///
    /// let line = OsStr::<Unix>::new("cc -DNAME='a b' \"c d\"e $HOME");
    /// let mut words = Words::new(line, Specials::Refused);
    /// assert!(rt; words.next().is_some_and(|w| w.is_ok_and(|w| w.equals(OsStr::new("cc")))));
    /// assert!(rt; words.next().is_some_and(|w| w.is_ok_and(|w| w.equals(OsStr::new("-DNAME=a b")))));
    /// assert!(rt; words.next().is_some_and(|w| w.is_ok_and(|w| w.equals(OsStr::new("c de")))));
    /// let fault = WordsFault {
    ///     kind: FaultKind::Special,
    ///     index: 23,
    /// };
    /// assert!(rt; words.next().is_some_and(|w| w.is_err_and(|f| f == fault)));
    /// assert!(rt; words.next().is_none());
    /// ```
    pub fn new(line: OsStr<'a, Unix>, specials: Specials) -> Self
        ensures { IsRead (language (is_refused specials) false) (bytes line.entry) result }
    {
        Words::read(Language::new(specials, false), line)
    }

    /// Iterates over the words of a line as [`Words::new`], but reads `$'..'` too. `$'` outside
    /// double quotes begins dollar-single-quotes (2.2.4), which end before the next single quote
    /// that isn't escaped. A backslash and a newline between the `$` and the quote are removed
    /// first (2.2.1).
    ///
    /// In them a backslash begins an escape: `\\`, `\'`, `\"`, `\a`, `\b`, `\f`, `\n`, `\r`, `\t`,
    /// `\v`, or three octal digits from `\001` to `\377`. bash, zsh, ksh93, mksh and busybox read
    /// these alike. Any other escape is rejected, since these shells read it differently or some of
    /// them as a NUL. dash and posh have no such quotes.
    ///
    /// ```
    /// use os_command_line::shell::{Specials, Words};
    /// use os_str_bytes::{OsStr, Unix};
    ///
    /// let line = OsStr::<Unix>::new("$'a\\nb\\377'");
    /// let mut words = Words::with_dollar_quotes(line, Specials::Refused);
    /// let wanted = OsStr::<Unix>::from_encoded_bytes_unchecked(b"a\nb\xFF");
    /// assert!(rt; words.next().is_some_and(|w| w.is_ok_and(|w| w.equals(wanted))));
    /// assert!(rt; words.next().is_none());
    /// ```
    pub fn with_dollar_quotes(line: OsStr<'a, Unix>, specials: Specials) -> Self
        ensures { IsRead (language (is_refused specials) true) (bytes line.entry) result }
    {
        Words::read(Language::new(specials, true), line)
    }

    /// The words of a line in a language.
    #[tactic(auto, using(crate::proofs::lemmas::ShellItems::are_items))]
    fn read(language: Language, line: OsStr<'a, Unix>) -> Self
        ensures { IsRead language (bytes line.entry) result }
    {
        let rest = line.as_encoded_bytes();
        Words {
            language,
            len: rest.len(),
            rest,
        }
    }
}

impl<'a> Iterator for Words<'a> {
    type Item = Result<Word<'a>, WordsFault>;

    ghost next_gives = { YieldsFirstBy item_bytes (λ left. left) };

    ghost remaining = { item_count (λ left. left) };

    fn next(&mut self) -> Option<Result<Word<'a>, WordsFault>> {
        let (item, rest) = next_item(self.language, self.len, self.rest)?;
        self.rest = rest;
        Some(item)
    }
}

/// The first item of the rest of a line of `len` bytes, and what is left after it.
fn next_item(
    language: Language,
    len: usize,
    line: &[u8],
) -> Option<(Result<Word<'_>, WordsFault>, &[u8])>
    requires { length line.now ≤ len }
    ensures { MatchOption result (HasNoItem language len line.now)
        (λ next. IsNextItem language len line.now (item_bytes next.0) next.1.now) }
{
    let text = skip_gap(line);
    if text.is_empty() {
        return None;
    }
    match cut_word(language, text) {
        Ok((word, rest)) => Some((Ok(word), rest)),
        Err((kind, left)) => {
            let index = len - left.len();
            Some((Err(WordsFault { kind, index }), &[]))
        }
    }
}

/// The word at the start and what comes after it, or the fault and the text from it on.
fn cut_word(language: Language, text: &[u8]) -> Result<(Word<'_>, &[u8]), (FaultKind, &[u8])>
    ensures { MatchResult result
        (λ cut. outcome language text.now ≡ WordRead (word_bytes cut.0) cut.1.now)
        (λ fault. outcome language text.now ≡ Fault fault.0 fault.1.now) }
{
    if let Some(rest) = after_bare(text) {
        return Ok(cut(language, text, rest, true));
    }
    match after_word(language, text) {
        Ok(rest) => Ok(cut(language, text, rest, false)),
        Err(fault) => Err(fault),
    }
}

/// The word whose text is cut off before the rest of a text, and the rest.
fn cut<'a>(
    language: Language,
    text: &'a [u8],
    rest: &'a [u8],
    is_bare: bool,
) -> (Word<'a>, &'a [u8])
    requires { length rest.now ≤ length text.now }
    ensures { (raw : List ℕ) → text.now ≡ raw ++ rest.now → (result.1.now ≡ rest.now)
        × (word_bytes result.0 ≡ raw_bytes language is_bare raw) }
{
    let (raw, rest) = text.split_at(text.len() - rest.len());
    let word = Word {
        language,
        raw,
        is_bare,
    };
    (word, rest)
}
