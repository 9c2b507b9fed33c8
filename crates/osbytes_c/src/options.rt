//! Options and operands, read of one word of a command line.
ghost use Rattle.std.specs.Prelude.{◌≡◌, ◌≢◌, ◌≤◌, ◌<◌, ◌+◌, ◌^◌, ◌↔◌, ◌∷◌, [], List, ℕ, drop, length, map};
ghost use Rattle.wtf8_core.specs.Occurrence.{IsPrefix};
ghost use Rattle.os_args.specs.Kinds.{kind_of};
ghost use Rattle.os_args.specs.Views.{reading};
ghost use Rattle.os_args.specs.Word.{dashes, equals, IsFlag, IsReadAs};
ghost use Rattle.platform_str.specs.Strings.{bytes};
ghost use Rattle.osbytes_c.specs.Answers.{IsOneOf};
ghost use Rattle.osbytes_c.specs.Options.{IsOptionIn, kind_number, marks_of, numbers_of, text_of, unread, value_of};
ghost use Rattle.osbytes_c.specs.Statuses.{done, no_index, no_option, none};

use crate::status::{DONE, NO_INDEX, NO_OPTION, NONE};
use crate::strings::unix;
use os_args::{Arguments, Word};
use os_str_ext::OsStrBytesExt;
use platform_str::{OsStr, Unix};

/// An option or an operand: what it is, and where its bytes are in its word.
#[repr(C)]
#[derive(Clone, Copy)]
pub struct OptionSpan {
    /// 1 a name, 2 a name that isn't text, 3 a character, 4 bytes that don't begin with a
    /// character, 5 an operand.
    pub kind: u32,
    /// The character, or 0.
    pub value: u32,
    /// The index of the first byte.
    pub start: usize,
    /// The index after the last byte, from which on the rest of the word is left.
    pub end: usize,
}

/// What is first read of a word that comes before any `--`, which the word may be: then it is
/// nothing.
#[unsafe(no_mangle)]
pub extern "C" fn osb_core_option(options: u32, word: &[u8], span: &mut OptionSpan) -> u32
    ensures read { result ≡ done → IsOptionIn (IsReadAs (numbers_of options) word.now) word.now
        span.new }
    ensures dashes { (result ≡ none) ↔ ((options ≤ 1) × (word.now ≡ dashes)) }
    ensures option { (result ≡ no_option) ↔ (1 < options) }
    ensures answers { IsOneOf (done ∷ none ∷ no_option ∷ []) result }
{
    let numbers = match options {
        0 => false,
        1 => true,
        _ => return NO_OPTION,
    };
    if word == b"--".as_slice() {
        return NONE;
    }
    *span = first_in(numbers, word);
    DONE
}

/// What is read of the flags that are left of a word from an index on, unless they begin with `=`,
/// after which a value comes.
#[unsafe(no_mangle)]
pub extern "C" fn osb_core_flag(word: &[u8], at: usize, span: &mut OptionSpan) -> u32
    ensures flag { result ≡ done → IsOptionIn (IsFlag (drop at word.now)) word.now span.new
        × (span.new.start ≡ at) }
    ensures value { (result ≡ none) ↔ IsPrefix equals (drop at word.now) }
    ensures index { (result ≡ no_index) ↔ (length word.now ≤ at) }
    ensures answers { IsOneOf (done ∷ none ∷ no_index ∷ []) result }
{
    if at >= word.len() {
        return NO_INDEX;
    }
    let (_, left) = word.split_at(at);
    let flags = unix(left);
    if flags.starts_with("=") {
        return NONE;
    }
    *span = span_of(first_flag(flags), at);
    DONE
}

/// What is first read of a word.
fn first_in(numbers: bool, word: &[u8]) -> OptionSpan
    requires { word.now ≢ dashes }
    ensures { IsOptionIn (IsReadAs numbers word.now) word.now result }
{
    let words = [unix(word)];
    let mut arguments = arguments_of(numbers, words.as_slice());
    match arguments.next() {
        Ok(Some(read)) => span_of(read, marks_of(read)),
        _ => unreachable!(),
    }
}

/// A list of words before any of them is read. `numbers` is whether negative numbers are operands.
fn arguments_of<'s, 'a>(numbers: bool, words: &'s [OsStr<'a, Unix>]) -> Arguments<'s, 'a, Unix>
    ensures { reading result ≡ unread numbers (map bytes words.entry.now) }
{
    let arguments = Arguments::new(words);
    if numbers {
        arguments.numbers_as_values()
    } else {
        arguments
    }
}

/// The first of some flags.
fn first_flag(flags: OsStr<'_, Unix>) -> Word<'_, OsStr<'_, Unix>>
    requires { bytes flags ≢ [] }
    ensures { (rest : List ℕ) × IsFlag (bytes flags.entry) (kind_of result) rest }
{
    match flags.split_first_char() {
        Some((flag, _)) => Word::Short(flag),
        None => Word::ShortBytes(flags),
    }
}

/// How many bytes come before those of what is read.
fn marks_of(read: Word<'_, OsStr<'_, Unix>>) -> usize
    ensures marks { result ≡ marks_of (kind_of read.entry) }
    ensures few { result ≤ 2 }
{
    match read {
        Word::Long(_) => 2,
        Word::LongBytes(_) => 2,
        Word::Short(_) => 1,
        Word::ShortBytes(_) => 1,
        Word::Value(_) => 0,
    }
}

/// What is read, with its bytes from an index on.
fn span_of(read: Word<'_, OsStr<'_, Unix>>, start: usize) -> OptionSpan
    requires { start < 2 ^ 63 }
    ensures kind { result.kind ≡ kind_number (kind_of read.entry) }
    ensures value { result.value ≡ value_of (kind_of read.entry) }
    ensures start { result.start ≡ start }
    ensures end { result.end ≡ start + length (text_of (kind_of read.entry)) }
{
    match read {
        Word::Long(name) => spanned(1, 0, start, name.len()),
        Word::LongBytes(name) => spanned(2, 0, start, name.len()),
        Word::Short(flag) => spanned(3, flag as u32, start, flag.len_utf8()),
        Word::ShortBytes(rest) => spanned(4, 0, start, rest.len()),
        Word::Value(value) => spanned(5, 0, start, value.len()),
    }
}

fn spanned(kind: u32, value: u32, start: usize, len: usize) -> OptionSpan
    requires { start + len < 2 ^ 64 }
    ensures kind { result.kind ≡ kind }
    ensures value { result.value ≡ value }
    ensures start { result.start ≡ start }
    ensures end { result.end ≡ start + len }
{
    OptionSpan {
        kind,
        value,
        start,
        end: start + len,
    }
}
