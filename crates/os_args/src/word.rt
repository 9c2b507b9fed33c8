//! The options and operands of a command line.
ghost use Rattle.std.specs.Prelude.{◌≡◌, ◌≢◌, ◌↔◌, [], IsTrue};
ghost use Rattle.platform_str.specs.Strings.{bytes};
ghost use Rattle.os_args.specs.Word.{dashes, IsName, IsNamed, IsFlag, IsReadAs, IsValueOf};
ghost use Rattle.os_args.specs.Kinds.{kind_of};

use crate::number::starts_as_negative;
use os_str_ext::{OsStr, OsStrBytesExt, Platform, search_laws};

/// What one step reads: an option or operand of a command line of strings `S` (lexopt's `Arg`).
///
/// [`Arguments::next`](crate::Arguments::next) reads a `Word<'a, OsStr<'a, E>>`. The type is
/// generic over the strings, as a user's own enum over strings of any platform is.
///
/// ```
/// use os_args::{Arguments, Word};
/// use os_str_bytes::{OsStr, Unix};
///
/// let words = [OsStr::<Unix>::new("--name=value")];
/// let mut arguments = Arguments::new(words.as_slice());
/// assert_eq!(rt; arguments.next(), Ok(Some(Word::Long("name"))));
/// ```
#[derive(Clone, Copy, PartialEq, Eq)]
pub enum Word<'a, S> {
    /// The name in `--name` or `--name=value`.
    Long(&'a str),
    /// The name in `--name` or `--name=value` where it isn't valid UTF-8.
    LongBytes(S),
    /// A flag: one character of `-abc`.
    Short(char),
    /// All that is left of `-abc` where that doesn't start with a whole character.
    ShortBytes(S),
    /// Any other word, including `-` and the empty word, and each word after `--`.
    Value(S),
}

/// Reads a word that comes before any `--` and isn't `--`, and returns the rest of the word.
#[tactic(auto, using(crate::proofs::lemmas::Readings::kinds))]
pub(crate) fn read_word<'a, E: Platform>(
    numbers: bool,
    word: OsStr<'a, E>,
) -> (Word<'a, OsStr<'a, E>>, OsStr<'a, E>)
    requires { bytes word ≢ dashes }
    ensures { IsReadAs numbers (bytes word.entry) (kind_of result.0) (bytes result.1) }
{
    if let Some(long) = word.strip_prefix("--") {
        return read_long(long);
    }
    let Some(flags) = word.strip_prefix("-") else {
        return (Word::Value(word), OsStr::new(""));
    };
    if flags.is_empty() {
        return (Word::Value(word), OsStr::new(""));
    }
    if numbers && starts_as_negative(word) {
        return (Word::Value(word), OsStr::new(""));
    }
    read_flag(flags)
}

/// Reads the name that follows `--`, and returns the rest of the word.
fn read_long<'a, E: Platform>(long: OsStr<'a, E>) -> (Word<'a, OsStr<'a, E>>, OsStr<'a, E>)
    ensures { IsNamed (bytes long.entry) (kind_of result.0) (bytes result.1) }
{
    let (name, rest) = split_name(long);
    match name.to_str() {
        Some(text) => (Word::Long(text), rest),
        None => (Word::LongBytes(name), rest),
    }
}

/// The name before the first `=`, and the rest from there.
fn split_name<'a, E: Platform>(long: OsStr<'a, E>) -> (OsStr<'a, E>, OsStr<'a, E>)
    ensures { IsName (bytes long.entry) (bytes result.0) (bytes result.1) }
{
    search_laws::around_index();
    match long.find("=") {
        Some(end) => long.split_at(end),
        None => (long, OsStr::new("")),
    }
}

/// Reads the first of the flags that are left, and returns the rest. `flags` isn't empty.
#[inline(always)]
pub(crate) fn read_flag<'a, E: Platform>(
    flags: OsStr<'a, E>,
) -> (Word<'a, OsStr<'a, E>>, OsStr<'a, E>)
    requires { bytes flags ≢ [] }
    ensures { IsFlag (bytes flags.entry) (kind_of result.0) (bytes result.1) }
{
    if let Some((flag, rest)) = flags.split_first_char() {
        return (Word::Short(flag), rest);
    }
    (Word::ShortBytes(flags), OsStr::new(""))
}

/// The value in the rest of an option's word: the part after a leading `=`, or all of it.
pub(crate) fn value_of<'a, E: Platform>(rest: OsStr<'a, E>) -> OsStr<'a, E>
    ensures { IsValueOf (bytes rest.entry) (bytes result) }
{
    match rest.strip_prefix("=") {
        Some(value) => value,
        None => rest,
    }
}
