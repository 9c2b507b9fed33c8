//! Errors in the arguments of a command line.
ghost use Rattle.std.specs.Prelude.{◌≡◌, Some};
ghost use Rattle.std.specs.Option.{option_map};
ghost use Rattle.std.specs.Fmt.{WritesStyledOnOk};
ghost use Rattle.os_args.specs.Kinds.{kind_of};
ghost use Rattle.os_args.specs.ErrorText.{after_text, fault_text};
ghost use Rattle.os_args.specs.Views.{fault_of};

use crate::shown::{write_between, write_word_between};
use crate::word::Word;
use os_str_ext::{OsStr, Platform};
use std::error::Error;
use std::fmt;

/// An error in the arguments of a command line, which are strings of the type `S`.
///
/// It prints as a message for a person: `MissingValue(Some(Word::Long("output")))` prints as
/// `missing value after '--output'`. The message is one line, whatever the words contain, since
/// each is printed as [`escaped_line`](os_quote::escaped_line) prints it. Width is ignored:
/// `{:>99}` writes what `{}` does. `{:?}` also writes the message, because a `main` that returns
/// the error prints it so (as lexopt's).
///
/// ```
/// use os_args::{ArgumentError, Word};
/// use os_str_bytes::{OsStr, Unix};
///
/// let word = OsStr::<Unix>::from_encoded_bytes_unchecked(b"a\x1B[2J\n\xFF");
/// let error = ArgumentError::UnexpectedArgument(Word::Value(word));
/// let text = "unexpected argument 'a\\u001B[2J\\u000A\\xFF'";
/// assert_eq!(rt; format!(in alloc; "{error}")?.as_str(), text);
/// ```
#[derive(Clone, Copy, PartialEq, Eq)]
pub enum ArgumentError<'a, S> {
    /// A value that the program didn't take, after this option: `--name=value` where the option
    /// takes none.
    UnexpectedValue(Option<Word<'a, S>>, S),
    /// No value where one was required. It holds the last option that was read, whatever operands
    /// came after it, or `None` if no option was read.
    MissingValue(Option<Word<'a, S>>),
    /// An unknown option, or one operand too many. [`Word::unexpected`] makes it.
    UnexpectedArgument(Word<'a, S>),
}

impl<'a, S> Word<'a, S> {
    ghost use Rattle.os_args.specs.declared.error.ArgumentError.TheVariants.{UnexpectedArgument};

    /// Makes the error for an unexpected word (lexopt's `Arg::unexpected`).
    ///
    /// For `Word::Short('x')` it prints as `unexpected argument '-x'`.
    ///
    /// ```
    /// use os_args::Word;
    /// use os_str_bytes::{OsStr, Unix};
    ///
    /// let error = Word::<OsStr<'_, Unix>>::Short('x').unexpected();
    /// assert_eq!(rt; format!(in alloc; "{error}")?.as_str(), "unexpected argument '-x'");
    /// ```
    pub fn unexpected(self) -> ArgumentError<'a, S>
        ensures { result ≡ UnexpectedArgument self.entry }
    {
        ArgumentError::UnexpectedArgument(self)
    }
}

impl<'a, E: Platform> fmt::Display for ArgumentError<'a, OsStr<'a, E>> {
    ghost output = { λ error. Some (fault_text E.units (fault_of error)) };

    ghost styled_output = { λ error _. Some (fault_text E.units (fault_of error)) };

    fn fmt<W: fmt::Write>(&self, f: &mut fmt::Formatter<W>) -> fmt::Result {
        match *self {
            ArgumentError::UnexpectedValue(last, value) => {
                write_between("unexpected value '", value, "'", f)?;
                write_after(last, f)
            }
            ArgumentError::MissingValue(last) => {
                f.write_str("missing value")?;
                write_after(last, f)
            }
            ArgumentError::UnexpectedArgument(word) => {
                write_word_between("unexpected argument '", word, "'", f)
            }
        }
    }
}

impl<'a, E: Platform> fmt::Debug for ArgumentError<'a, OsStr<'a, E>> {
    ghost debug_output = { λ error. Some (fault_text E.units (fault_of error)) };

    fn fmt<W: fmt::Write>(&self, f: &mut fmt::Formatter<W>) -> fmt::Result {
        fmt::Display::fmt(self, f)
    }
}

impl<'a, E: Platform> Error for ArgumentError<'a, OsStr<'a, E>> {}

/// Writes the option after which the error occurs.
fn write_after<'a, E: Platform, W: fmt::Write>(
    last: Option<Word<'a, OsStr<'a, E>>>,
    f: &mut fmt::Formatter<W>,
) -> fmt::Result
    ensures { WritesStyledOnOk W.write_str_gives f.old result
        (after_text E.units (option_map kind_of last.entry)) f.new }
{
    match last {
        None => f.write_str(""),
        Some(word) => write_word_between(" after '", word, "'", f),
    }
}
