//! The arguments of a command line, read step by step.
ghost use Rattle.std.specs.Prelude.{◌≡◌, ◌≢◌, [], None, Ok, map, false};
ghost use Rattle.std.specs.Option.{option_map};
ghost use Rattle.platform_str.specs.Strings.{bytes};
ghost use Rattle.os_args.specs.Kinds.{kind_of};
ghost use Rattle.os_args.specs.Word.{dashes};
ghost use Rattle.os_args.specs.Reading.{last_option, with_numbers, SkipsDashes, IsReadIn, TakesWord, TakesValue, TakesOptionalValue, TakesRest};
ghost use Rattle.os_args.specs.Views.{outcome_of, reading};

use crate::error::ArgumentError;
use crate::word::{Word, read_flag, read_word, value_of};
use crate::words::{all_after, is_dashes};
use os_str_ext::{OsStr, OsStrBytesExt, Platform, string_at};

/// A reader of the arguments of a command line, step by step (lexopt's `Parser`).
///
/// [`Arguments::next`] returns options and operands. After an option, [`Arguments::value`] or
/// [`Arguments::optional_value`] returns its value. A program compares names by `match`:
///
/// ```
/// use os_args::{Arguments, Word};
/// use os_str_bytes::{OsStr, Unix};
///
/// let words = [OsStr::<Unix>::new("-o=a"), OsStr::new("--verbose"), OsStr::new("b")];
/// let mut arguments = Arguments::new(words.as_slice());
/// let (mut output, mut verbose, mut file) = (None, false, None);
/// while let Ok(Some(word)) = arguments.next() {
///     match word {
///         Word::Short('o') | Word::Long("output") => output = arguments.value().ok(),
///         Word::Short('v') | Word::Long("verbose") => verbose = true,
///         Word::Value(name) => file = Some(name),
///         _ => break,
///     }
/// }
/// assert!(rt; output == Some(OsStr::new("a")) && verbose && file == Some(OsStr::new("b")));
/// ```
///
/// No call allocates.
#[derive(Drop)]
pub struct Arguments<'s, 'a, E: Platform + 'a> {
    words: &'s [OsStr<'a, E>],
    index: usize,
    // what is left of the last word that was taken
    pending: OsStr<'a, E>,
    ended: bool,
    numbers: bool,
    // the last option that was read
    last: Option<Word<'a, OsStr<'a, E>>>,
}

impl<'s, 'a, E: Platform> Arguments<'s, 'a, E> {
    /// Makes a reader of the words of a command line, without the program's name (lexopt's
    /// `Parser::from_args`).
    ///
    /// For the words `-v` and `file`, [`Arguments::next`] first returns `Word::Short('v')`.
    ///
    /// ```
    /// use os_args::{Arguments, Word};
    /// use os_str_bytes::{OsStr, Unix};
    ///
    /// let words = [OsStr::<Unix>::new("-v")];
    /// let mut arguments = Arguments::new(words.as_slice());
    /// assert!(rt; matches!(arguments.next(), Ok(Some(Word::Short('v')))));
    /// assert!(rt; matches!(arguments.next(), Ok(None)));
    /// ```
    pub fn new(words: &'s [OsStr<'a, E>]) -> Self
        ensures { reading result ≡ record {
          given = map bytes words.now;
          index = 0;
          pending = [];
          ended = false;
          numbers = false;
          last = None;
        } }
    {
        Arguments {
            words,
            index: 0,
            pending: OsStr::new(""),
            ended: false,
            numbers: false,
            last: None,
        }
    }

    /// Reads each word that starts with `-` and a digit, or with `-.` and a digit, as a value
    /// (clap's `allow_negative_numbers`).
    ///
    /// Then `-5` and `-.5` are values. Otherwise they are the flags `5`, and `.` and `5`.
    ///
    /// ```
    /// use os_args::{Arguments, Word};
    /// use os_str_bytes::{OsStr, Unix};
    ///
    /// let words = [OsStr::<Unix>::new("-5")];
    /// let mut arguments = Arguments::new(words.as_slice());
    /// assert!(rt; matches!(arguments.next(), Ok(Some(Word::Short('5')))));
    /// let mut arguments = Arguments::new(words.as_slice()).numbers_as_values();
    /// assert!(rt; matches!(arguments.next(), Ok(Some(Word::Value(_)))));
    /// ```
    pub fn numbers_as_values(mut self) -> Self
        ensures { reading result ≡ with_numbers (reading self.entry) }
    {
        self.numbers = true;
        self
    }

    /// Returns the next option or operand, or `None` once there are no more (lexopt's
    /// `Parser::next`).
    ///
    /// `--name` and `--name=value` are read as [`Word::Long`]. The name ends at the first `=`.
    /// `-abc` is read as the flags `a`, `b` and `c`, one at a time. Each flag is a whole character.
    /// Where the rest of the word doesn't start with one, all of it is a [`Word::ShortBytes`].
    ///
    /// The word `--` is skipped, and each word after it is a [`Word::Value`]. So is `-`, the empty
    /// word, and a word that doesn't start with a dash.
    ///
    /// # Errors
    ///
    /// [`ArgumentError::UnexpectedValue`] if `=value` is left of an option's word, because the
    /// program didn't take it. The value is dropped, and the next call continues after it.
    ///
    /// For the words `-v=1` and `a`, the calls return `Word::Short('v')`, that error with the value
    /// `1`, and `Word::Value` of `a`.
    ///
    /// ```
    /// use os_args::{Arguments, Word};
    /// use os_str_bytes::{OsStr, Unix};
    ///
    /// let words = [OsStr::<Unix>::new("-v=1"), OsStr::new("a")];
    /// let mut arguments = Arguments::new(words.as_slice());
    /// assert!(rt; matches!(arguments.next(), Ok(Some(Word::Short('v')))));
    /// assert!(rt; arguments.next().is_err());
    /// assert!(rt; matches!(arguments.next(), Ok(Some(Word::Value(_)))));
    /// ```
    #[inline(always)]
    pub fn next(
        &mut self,
    ) -> Result<Option<Word<'a, OsStr<'a, E>>>, ArgumentError<'a, OsStr<'a, E>>>
        ensures { TakesWord (reading self.old) (outcome_of (λ read. option_map kind_of read) result)
            (reading self.new) }
    {
        if self.pending.is_empty() {
            return Ok(self.next_word());
        }
        if let Some(value) = self.pending.strip_prefix("=") {
            self.pending = OsStr::new("");
            return Err(ArgumentError::UnexpectedValue(self.last, value));
        }
        let (flag, rest) = read_flag(self.pending);
        self.pending = rest;
        self.last = last_option(self.last, flag);
        Ok(Some(flag))
    }

    /// Reads the start of the next word, where nothing is left of the last one.
    fn next_word(&mut self) -> Option<Word<'a, OsStr<'a, E>>>
        requires { bytes self.old.pending ≡ [] }
        ensures { TakesWord (reading self.old) (Ok (option_map kind_of result)) (reading self.new) }
    {
        self.skip_dashes();
        let word = string_at(self.words, self.index)?;
        let (read, rest) = read_in(self.ended, self.numbers, word);
        self.index += 1;
        self.pending = rest;
        self.last = last_option(self.last, read);
        Some(read)
    }

    /// Skips `--` where it is the next word and ends the options.
    fn skip_dashes(&mut self)
        ensures { SkipsDashes (reading self.old) (reading self.new) }
    {
        if self.ended {
            return;
        }
        let Some(word) = string_at(self.words, self.index) else {
            return;
        };
        if is_dashes(word) {
            self.index += 1;
            self.ended = true;
        }
    }

    /// Takes the value of the option that was read last (lexopt's `Parser::value`). The value is
    /// the rest of the option's word, without a leading `=`. If nothing is left of that word, the
    /// value is the whole next word, whatever it is. It is returned byte for byte.
    ///
    /// After the option is read, the value is `value` for each of `--name=value`, `--name` and
    /// `value`, `-nvalue`, `-n=value`, and `-n` and `value`.
    ///
    /// # Errors
    ///
    /// [`ArgumentError::MissingValue`] if no word is left. It names the last option that was read,
    /// whatever operands came after it. If no option was read, it names none, as in lexopt.
    ///
    /// ```
    /// use os_args::{Arguments, Word};
    /// use os_str_bytes::{OsStr, Unix};
    ///
    /// let words = [OsStr::<Unix>::new("--name=a=b"), OsStr::new("c")];
    /// let mut arguments = Arguments::new(words.as_slice());
    /// assert!(rt; matches!(arguments.next(), Ok(Some(Word::Long("name")))));
    /// assert!(rt; arguments.value().ok() == Some(OsStr::new("a=b")));
    /// assert!(rt; arguments.value().ok() == Some(OsStr::new("c")));
    /// assert!(rt; arguments.value().is_err());
    /// ```
    pub fn value(&mut self) -> Result<OsStr<'a, E>, ArgumentError<'a, OsStr<'a, E>>>
        ensures { TakesValue (reading self.old) (outcome_of bytes result) (reading self.new) }
    {
        if let Some(value) = self.optional_value() {
            return Ok(value);
        }
        let Some(word) = string_at(self.words, self.index) else {
            return Err(ArgumentError::MissingValue(self.last));
        };
        self.index += 1;
        Ok(word)
    }

    /// Takes the value of the option that was read last, if it is in the option's own word.
    /// Otherwise it returns `None` (lexopt's `Parser::optional_value`).
    ///
    /// For `--name=value`, `-nvalue` and `-n=value` it returns `value`. For `--name` and `value` it
    /// returns `None`, and the next word stays.
    ///
    /// ```
    /// use os_args::{Arguments, Word};
    /// use os_str_bytes::{OsStr, Unix};
    ///
    /// let words = [OsStr::<Unix>::new("-n"), OsStr::new("a")];
    /// let mut arguments = Arguments::new(words.as_slice());
    /// assert!(rt; matches!(arguments.next(), Ok(Some(Word::Short('n')))));
    /// assert!(rt; arguments.optional_value().is_none());
    /// ```
    pub fn optional_value(&mut self) -> Option<OsStr<'a, E>>
        ensures { TakesOptionalValue (reading self.old) (option_map bytes result)
            (reading self.new) }
    {
        if self.pending.is_empty() {
            return None;
        }
        let value = value_of(self.pending);
        self.pending = OsStr::new("");
        Some(value)
    }

    /// Takes all remaining words as they are, including a `--` (lexopt's `Parser::raw_args`).
    ///
    /// For the words `-a`, `--` and `b`, after the flag `a` is read, they are `--` and `b`.
    ///
    /// # Errors
    ///
    /// [`ArgumentError::UnexpectedValue`] if a rest of the last word is left, because the program
    /// didn't take it. The rest is dropped, and the next call returns the words.
    ///
    /// ```
    /// use os_args::{Arguments, Word};
    /// use os_str_bytes::{OsStr, Unix};
    ///
    /// let words = [OsStr::<Unix>::new("-a"), OsStr::new("--"), OsStr::new("b")];
    /// let mut arguments = Arguments::new(words.as_slice());
    /// assert!(rt; matches!(arguments.next(), Ok(Some(Word::Short('a')))));
    /// let Ok(words) = arguments.rest() else { return Ok(()) };
    /// assert_eq!(rt; words.len(), 2);
    /// ```
    pub fn rest(&mut self) -> Result<&'s [OsStr<'a, E>], ArgumentError<'a, OsStr<'a, E>>>
        ensures { TakesRest (reading self.old) (outcome_of (λ words. map bytes words.now) result)
            (reading self.new) }
    {
        if let Some(value) = self.optional_value() {
            return Err(ArgumentError::UnexpectedValue(self.last, value));
        }
        let left = all_after(self.words, self.index);
        self.index = self.words.len();
        Ok(left)
    }
}

/// The last option after a word is read: the word, or the previous option if the word is a value.
#[inline(always)]
fn last_option<'a, E: Platform>(
    before: Option<Word<'a, OsStr<'a, E>>>,
    read: Word<'a, OsStr<'a, E>>,
) -> Option<Word<'a, OsStr<'a, E>>>
    ensures { option_map kind_of result
        ≡ last_option (option_map kind_of before.entry) (kind_of read.entry) }
{
    match read {
        Word::Value(_) => before,
        option => Some(option),
    }
}

/// Reads a word, as a value if it comes after `--`.
fn read_in<'a, E: Platform>(
    ended: bool,
    numbers: bool,
    word: OsStr<'a, E>,
) -> (Word<'a, OsStr<'a, E>>, OsStr<'a, E>)
    requires { ended ≡ false → bytes word ≢ dashes }
    ensures { IsReadIn ended numbers (bytes word.entry) (kind_of result.0) (bytes result.1) }
{
    if ended {
        return (Word::Value(word), OsStr::new(""));
    }
    read_word(numbers, word)
}
