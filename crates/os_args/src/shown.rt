//! Strings and words as errors print them: on one line, whatever they hold.
ghost use Rattle.std.specs.Prelude.{◌++◌, Some};
ghost use Rattle.std.specs.Char.{encode_utf8};
ghost use Rattle.std.specs.Fmt.{WritesStyledOnOk};
ghost use Rattle.platform_str.specs.Strings.{bytes};
ghost use Rattle.os_args.specs.Kinds.{kind_of};
ghost use Rattle.os_args.specs.ErrorText.{shown, word_text, word_debug};

use crate::word::Word;
use os_quote::escaped_line;
use os_str_ext::{OsStr, Platform, Writeable};
use std::fmt;

/// Writes a string as its escape on one line.
pub(crate) fn write_string<'a, E: Platform, W: fmt::Write>(
    string: OsStr<'a, E>,
    f: &mut fmt::Formatter<W>,
) -> fmt::Result
    ensures { WritesStyledOnOk W.write_str_gives f.old result (shown E.units (bytes string.entry))
        f.new }
{
    escaped_line(string).write_to(f)
}

/// Writes a string after a prefix.
fn write_after_prefix<'a, E: Platform, W: fmt::Write>(
    before: &str,
    string: OsStr<'a, E>,
    f: &mut fmt::Formatter<W>,
) -> fmt::Result
    ensures { WritesStyledOnOk W.write_str_gives f.old result
        (before.now ++ shown E.units (bytes string.entry)) f.new }
{
    f.write_str(before)?;
    write_string(string, f)
}

/// Writes a flag after a prefix.
fn write_flag<E: Platform, W: fmt::Write>(
    before: &str,
    flag: char,
    f: &mut fmt::Formatter<W>,
) -> fmt::Result
    ensures { WritesStyledOnOk W.write_str_gives f.old result
        (before.now ++ shown E.units (encode_utf8 flag)) f.new }
{
    let mut buffer = [0; 4];
    write_after_prefix(before, OsStr::<E>::new(flag.encode_utf8(&mut buffer)), f)
}

/// Writes a string between a prefix and a suffix.
pub(crate) fn write_between<'a, E: Platform, W: fmt::Write>(
    before: &str,
    string: OsStr<'a, E>,
    after: &str,
    f: &mut fmt::Formatter<W>,
) -> fmt::Result
    ensures { WritesStyledOnOk W.write_str_gives f.old result
        (before.now ++ (shown E.units (bytes string.entry) ++ after.now)) f.new }
{
    f.write_str(before)?;
    write_string(string, f)?;
    f.write_str(after)
}

/// Writes a word as it was given, without its value.
fn write_word<'a, E: Platform, W: fmt::Write>(
    word: Word<'a, OsStr<'a, E>>,
    f: &mut fmt::Formatter<W>,
) -> fmt::Result
    ensures { WritesStyledOnOk W.write_str_gives f.old result
        (word_text E.units (kind_of word.entry)) f.new }
{
    match word {
        Word::Long(name) => write_after_prefix("--", OsStr::<E>::new(name), f),
        Word::LongBytes(name) => write_after_prefix("--", name, f),
        Word::Short(flag) => write_flag::<E, W>("-", flag, f),
        Word::ShortBytes(rest) => write_after_prefix("-", rest, f),
        Word::Value(value) => write_string(value, f),
    }
}

/// Writes a word as it was given, without its value, between a prefix and a suffix.
pub(crate) fn write_word_between<'a, E: Platform, W: fmt::Write>(
    before: &str,
    word: Word<'a, OsStr<'a, E>>,
    after: &str,
    f: &mut fmt::Formatter<W>,
) -> fmt::Result
    ensures { WritesStyledOnOk W.write_str_gives f.old result
        (before.now ++ (word_text E.units (kind_of word.entry) ++ after.now)) f.new }
{
    f.write_str(before)?;
    write_word(word, f)?;
    f.write_str(after)
}

/// `Long("output")`, with the escape of a string on one line between the quotes.
impl<'a, E: Platform> fmt::Debug for Word<'a, OsStr<'a, E>> {
    ghost debug_output = { λ word. Some (word_debug E.units (kind_of word)) };

    fn fmt<W: fmt::Write>(&self, f: &mut fmt::Formatter<W>) -> fmt::Result {
        match *self {
            Word::Long(name) => write_between("Long(\"", OsStr::<E>::new(name), "\")", f),
            Word::LongBytes(name) => write_between("LongBytes(\"", name, "\")", f),
            Word::Short(flag) => {
                write_flag::<E, W>("Short('", flag, f)?;
                f.write_str("')")
            }
            Word::ShortBytes(rest) => write_between("ShortBytes(\"", rest, "\")", f),
            Word::Value(value) => write_between("Value(\"", value, "\")", f),
        }
    }
}
