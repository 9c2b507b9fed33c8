//! The bytes of a word.
ghost use Rattle.std.specs.Prelude.{◌≡◌, ◌↔◌, ◌∷◌, ◌+◌, ◌<◌, [], zero, IsTrue, IfOk, MatchOption};
ghost use Rattle.std.specs.Iterator.{YieldsFirst, item_count};
ghost use Rattle.platform_str.specs.Strings.{bytes, string_vec_of};
ghost use Rattle.wtf8_core.specs.Truncated.{IsTruncated};
ghost use Rattle.os_command_line.specs.ShellReader.{bytes_left, meant, raw_bytes};

use crate::shell::language::Language;
use crate::shell::owned::unix_string;
use crate::shell::scan::cut_quoted;
use crate::shell::step::{State, Step, step_at};
use crate::shell::word::Word;
use platform_str::{OsStr, OsString, Unix};
use std::alloc::{AllocError, Allocator};
use std::marker::Model;
use wtf8_core::push_truncated;

/// An iterator over the bytes of a word, from the first on. After `None` it gives only `None`.
/// [`Word::bytes`] makes it.
#[derive(Drop)]
pub struct WordBytes<'a> {
    is_bare: bool,
    language: Language,
    state: State,
    rest: &'a [u8],
}

impl<'a> Model for WordBytes<'a> {
    ghost use Rattle.std.specs.Prelude.{List, ℕ};

    ghost Value = { List ℕ };

    ghost use Rattle.os_command_line.specs.ShellReader.{bytes_left};

    ghost view = { λ it. bytes_left it.language it.is_bare it.state it.rest.now };
}

impl<'a> Iterator for WordBytes<'a> {
    type Item = u8;

    ghost next_gives = { YieldsFirst (λ left. left) };

    ghost remaining = { item_count (λ left. left) };

    #[inline(always)]
    fn next(&mut self) -> Option<u8> {
        let (byte, state, rest) = next_byte(self.language, self.is_bare, self.state, self.rest);
        self.state = state;
        self.rest = rest;
        byte
    }
}

/// The next byte that is meant, where the reader is then, and what is left.
#[tactic(auto, using(crate::proofs::lemmas::ShellBare::left_bare, crate::proofs::lemmas::ShellBare::left_marked))]
#[inline(always)]
fn next_byte(
    language: Language,
    is_bare: bool,
    state: State,
    text: &[u8],
) -> (Option<u8>, State, &[u8])
    ensures { MatchOption result.0
        ((bytes_left language is_bare state text.now ≡ [])
        × (bytes_left language is_bare result.1 result.2.now ≡ []))
        (λ byte. bytes_left language is_bare state text.now
        ≡ byte ∷ bytes_left language is_bare result.1 result.2.now) }
{
    if is_bare {
        return next_bare(state, text);
    }
    next_marked(language, state, text)
}

/// Returns the next byte of a word in which each byte means itself, and what comes after it.
#[inline(always)]
fn next_bare(state: State, text: &[u8]) -> (Option<u8>, State, &[u8])
    ensures { MatchOption result.0 ((text.now ≡ []) × (result.2.now ≡ []))
        (λ byte. text.now ≡ byte ∷ result.2.now) }
{
    match text.split_first() {
        Some((byte, after)) => (Some(*byte), state, after),
        None => (None, state, text),
    }
}

/// Returns the next byte of a word that may have quotes, the state after it, and what comes after
/// it.
#[inline(always)]
fn next_marked(language: Language, state: State, text: &[u8]) -> (Option<u8>, State, &[u8])
    ensures { MatchOption result.0
        ((meant language state zero text.now ≡ [])
        × (meant language result.1 zero result.2.now ≡ []))
        (λ byte. meant language state zero text.now
        ≡ byte ∷ meant language result.1 zero result.2.now) }
{
    let mut state = state;
    let mut rest = text;
    while let Some((byte, after)) = rest.split_first() {
        match step_at(language, state, *byte, after) {
            Step::End => return (None, state, rest),
            Step::Refuse(_) => return (None, state, rest),
            Step::Go(meant, next, skipped) => {
                let (_, left) = after.split_at(skipped);
                if let Some(byte) = meant {
                    return (Some(byte), next, left);
                }
                state = next;
                rest = left;
            }
        }
    }
    (None, state, rest)
}

impl<'a> Word<'a> {
    ghost use Rattle.os_command_line.specs.ShellViews.{word_bytes};

    /// An iterator over the bytes of the word, without the quotes. It doesn't allocate.
    ///
    /// ```
    /// use os_command_line::shell::{Specials, Words};
    /// use os_str_bytes::{OsStr, Unix};
    ///
    /// let mut words = Words::new(OsStr::<Unix>::new("'a'\\\"b"), Specials::Refused);
    /// if let Some(Ok(word)) = words.next() {
    ///     let mut bytes = word.bytes();
    ///     assert_eq!(rt; bytes.next(), Some(b'a'));
    ///     assert_eq!(rt; bytes.next(), Some(b'"'));
    ///     assert_eq!(rt; bytes.next(), Some(b'b'));
    ///     assert_eq!(rt; bytes.next(), None);
    /// }
    /// ```
    pub fn bytes(self) -> WordBytes<'a>
        ensures { result ≡ word_bytes self.entry }
    {
        let (is_bare, rest) = self.read_text();
        WordBytes {
            is_bare,
            language: self.language,
            state: State::Start,
            rest,
        }
    }

    /// The text that the bytes are read from, and whether each byte of it means itself: that of a
    /// word which is one text in single quotes is what is in them.
    fn read_text(self) -> (bool, &'a [u8])
        ensures { raw_bytes self.entry.language result.0 result.1.now ≡ word_bytes self.entry }
    {
        if self.is_bare {
            return (true, self.raw);
        }
        match cut_quoted(self.raw) {
            Some((quoted, [])) => (true, quoted),
            _ => (false, self.raw),
        }
    }

    /// Whether the word is a string: whether it has the same bytes. `==` compares values of one
    /// type only.
    ///
    /// ```
    /// use os_command_line::shell::{Specials, Words};
    /// use os_str_bytes::{OsStr, Unix};
    ///
    /// let mut words = Words::new(OsStr::<Unix>::new("--'all'"), Specials::Refused);
    /// if let Some(Ok(word)) = words.next() {
    ///     assert!(rt; word.equals(OsStr::new("--all")));
    ///     assert!(rt; !word.equals(OsStr::new("--al")));
    /// }
    /// ```
    pub fn equals(self, string: OsStr<'_, Unix>) -> bool
        ensures { IsTrue result ↔ (word_bytes self.entry ≡ bytes string.entry) }
    {
        let mut rest = string.as_encoded_bytes();
        for byte in self.bytes() {
            let Some((wanted, after)) = rest.split_first() else {
                return false;
            };
            if byte != *wanted {
                return false;
            }
            rest = after;
        }
        rest.is_empty()
    }

    /// Writes the word into a buffer, truncated if the buffer is too short for it, and returns the
    /// length of the whole word. The buffer after the word is unchanged. It doesn't allocate, and
    /// with an empty buffer only counts.
    ///
    /// ```
    /// use os_command_line::shell::{Specials, Words};
    /// use os_str_bytes::{OsStr, Unix};
    ///
    /// let mut buffer = [b'-'; 4];
    /// let mut words = Words::new(OsStr::<Unix>::new("'a b'"), Specials::Refused);
    /// if let Some(Ok(word)) = words.next() {
    ///     assert_eq!(rt; word.write_to(&mut buffer), 3);
    /// }
    /// assert_eq!(rt; buffer.as_slice(), b"a b-".as_slice());
    /// ```
    pub fn write_to(self, buffer: &mut [u8]) -> usize
        ensures { IsTruncated (word_bytes self.entry) buffer.old buffer.new result }
    {
        if self.is_bare {
            return push_truncated(buffer, 0, self.raw);
        }
        let mut count = 0;
        for byte in self.bytes() {
            count = push_truncated(buffer, count, &[byte]);
        }
        count
    }

    /// The word as a string of its own. It makes one request, of the length of the word's text with
    /// its quotes.
    ///
    /// # Errors
    ///
    /// `AllocError` if the allocation fails.
    ///
    /// ```
    /// use os_command_line::shell::{Specials, Words};
    /// use os_str_bytes::{OsStr, Unix};
    ///
    /// let mut words = Words::new(OsStr::<Unix>::new("'a b'"), Specials::Refused);
    /// if let Some(Ok(word)) = words.next() {
    ///     let owned = word.to_owned(alloc)?;
    ///     assert!(rt; owned.as_os_str() == OsStr::new("a b"));
    /// }
    /// ```
    pub fn to_owned<A: Allocator>(self, alloc: A) -> Result<OsString<Unix, A>, AllocError>
        ensures { IfOk result (λ owned. (string_vec_of owned).items ≡ word_bytes self.entry) }
    {
        if self.is_bare {
            return Ok(unix_string(Vec::from_slice(alloc, self.raw)?));
        }
        let mut vec = Vec::with_capacity(alloc, self.raw.len())?;
        for byte in self.bytes() {
            vec.push(byte)?;
        }
        Ok(unix_string(vec))
    }
}
