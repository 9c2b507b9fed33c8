//! The arguments of a program, read as options and operands.
//!
//! [`read_arguments`] reads them by [`os_args`]: an option may stand anywhere, and `--` ends the
//! options. What was read is a list of [`Given`]. A program makes its plan of that list, by
//! [`next_operand`], [`has`], [`last_value`] and [`values`].
ghost use Rattle.std.specs.Prelude.{◌≡◌, ◌↔◌, ◌∷◌, [], ℕ, List, Bool, Some, None, Ok, map, string_bytes, true, IfOk, IfErr, IsTrue, MatchOption, OnOk};
ghost use Rattle.std.specs.Option.{option_map};
ghost use Rattle.os_args.specs.Kinds.{kind_of};
ghost use Rattle.os_args.specs.Reading.{Reading, TakesWord};
ghost use Rattle.os_args.specs.Views.{fault_of, reading};
ghost use Rattle.os_args.specs.Word.{Kind, Value};
ghost use Rattle.os_str_bytes.specs.Strings.{bytes};
ghost use Rattle.list_programs.specs.Arguments.{AddsValue, AreGiven, AreValues, CantComplete, Completes, FailsAt, HasOption, HasValue, IsOf, IsOption, IsReadFault, LacksValueOf, LastValue, Takes, operands_of, text_of};

use os_args::{ArgumentError, Arguments, Word};
use os_str_bytes::{OsStr, Wasm};
use std::alloc::{AllocError, Allocator};

/// The options of a program.
pub trait ProgramOption: Copy {
    // which argument is the option
    ghost spelled: { Self → Kind → Type 0 };

    // whether a value follows it
    ghost has_value: { Self → Bool };

    /// The option that this argument is, if it is one.
    ///
    /// ```
    /// use names_commands::option::NamesOption;
    /// use os_args::Word;
    /// use list_programs::arguments::ProgramOption;
    ///
    /// assert!(rt; NamesOption::named(Word::Long("max")) == Some(NamesOption::Max));
    /// assert!(rt; NamesOption::named(Word::Short('x')).is_none());
    /// ```
    fn named<'a>(argument: Word<'a, OsStr<'a, Wasm>>) -> Option<Self>
        ensures { MatchOption result ((option : Self) → ¬ (spelled option (kind_of argument.entry)))
            (λ option. spelled option (kind_of argument.entry)) };

    /// Whether a value follows the option.
    ///
    /// ```
    /// use names_commands::option::NamesOption;
    /// use list_programs::arguments::ProgramOption;
    ///
    /// assert!(rt; NamesOption::Max.takes_value() && !NamesOption::Help.takes_value());
    /// ```
    fn takes_value(self) -> bool
        ensures { result ≡ has_value self };

    /// Whether it is this option.
    ///
    /// ```
    /// use names_commands::option::NamesOption;
    /// use list_programs::arguments::ProgramOption;
    ///
    /// assert!(rt; NamesOption::Max.is(NamesOption::Max) && !NamesOption::Max.is(NamesOption::Sh));
    /// ```
    fn is(self, other: Self) -> bool
        ensures { IsTrue result ↔ (self ≡ other) };
}

/// An option or operand, as it was given.
#[derive(Clone, Copy, PartialEq, Eq)]
pub enum Given<'a, O> {
    /// An operand.
    Operand(&'a str),
    /// An option that takes no value.
    Flag(O),
    /// An option and its value.
    Valued(O, &'a str),
}

/// Why arguments aren't options and operands of a program.
#[derive(Clone, Copy)]
pub enum ReadFault<'a> {
    /// An argument is an unknown option, lacks its value or has one too many.
    Misuse(ArgumentError<'a, OsStr<'a, Wasm>>),
    /// An allocation failed.
    Memory,
}

/// Reads the arguments after the program's name.
///
/// An option may stand anywhere, also after operands. `--` ends the options. A value is the next
/// argument, whatever it is, or what follows `=` (`--max 9`, `--max=9`).
///
/// # Errors
///
/// [`ReadFault::Misuse`] for the first argument that is no option of the program, lacks its value,
/// or has a value that it doesn't take. [`ReadFault::Memory`] if it is out of memory.
///
/// ```
/// use names_commands::option::NamesOption;
/// use list_programs::arguments::{Given, read_arguments};
///
/// let mut words = Vec::new(alloc);
/// for word in ["list", "--max=9", "unix"] {
///     words.push(String::from_str(alloc, word)?)?;
/// }
/// let Ok(given) = read_arguments::<NamesOption, _>(alloc, &words) else { return Ok(()) };
/// assert!(rt; matches!(given[0], Given::Operand("list")) && given.len() == 3);
/// assert!(rt; matches!(given[1], Given::Valued(NamesOption::Max, "9")));
/// ```
pub fn read_arguments<'a, O: ProgramOption, A: Allocator + Copy>(
    alloc: A,
    words: &'a [String],
) -> Result<Vec<Given<'a, O>, A>, ReadFault<'a>>
    ensures given { IfOk result
        (λ given. AreGiven O.spelled O.has_value (map string_bytes words.entry.now) given.items) }
    ensures fault { IfErr result (λ fault.
        IsReadFault O.spelled O.has_value (map string_bytes words.entry.now) fault) }
{
    match strings_of(alloc, words) {
        Ok(strings) => read_strings(alloc, &strings),
        Err(_) => Err(ReadFault::Memory),
    }
}

/// The arguments as strings.
fn strings_of<'a, A: Allocator>(
    alloc: A,
    words: &'a [String],
) -> Result<Vec<OsStr<'a, Wasm>, A>, AllocError>
    ensures { IfOk result
        (λ strings. map bytes strings.items ≡ map string_bytes words.entry.now) }
{
    let mut strings = Vec::new(alloc);
    let mut left = words;
    while let Some((word, rest)) = left.split_first() {
        strings.push(OsStr::new(word.as_str()))?;
        left = rest;
    }
    Ok(strings)
}

/// Reads all of the arguments.
fn read_strings<'a, O: ProgramOption, A: Allocator>(
    alloc: A,
    strings: &[OsStr<'a, Wasm>],
) -> Result<Vec<Given<'a, O>, A>, ReadFault<'a>>
    ensures given { IfOk result
        (λ given. AreGiven O.spelled O.has_value (map bytes strings.now) given.items) }
    ensures fault { IfErr result (λ fault.
        IsReadFault O.spelled O.has_value (map bytes strings.now) fault) }
{
    let mut arguments = Arguments::new(strings);
    let mut given = Vec::new(alloc);
    loop {
        match read_one(&mut arguments) {
            Ok(Some(one)) => match given.push(one) {
                Ok(()) => {}
                Err(_) => return Err(ReadFault::Memory),
            },
            Ok(None) => return Ok(given),
            Err(error) => return Err(ReadFault::Misuse(error)),
        }
    }
}

/// Reads the next option or operand.
fn read_one<'a, O: ProgramOption>(
    arguments: &mut Arguments<'_, 'a, Wasm>,
) -> Result<Option<Given<'a, O>>, ArgumentError<'a, OsStr<'a, Wasm>>>
    ensures read { IfOk result (λ read. MatchOption read
        (TakesWord (reading arguments.old) (Ok None) (reading arguments.new))
        (λ given. Takes O.spelled O.has_value (reading arguments.old) given
        (reading arguments.new))) }
    ensures fault { IfErr result (λ error.
        FailsAt O.spelled O.has_value (reading arguments.old) (fault_of error)) }
{
    let word = match arguments.next() {
        Ok(Some(word)) => word,
        Ok(None) => return Ok(None),
        Err(error) => return Err(error),
    };
    match operand_of(word) {
        Some(operand) => Ok(Some(Given::Operand(text_of(operand)))),
        None => match read_option(word, arguments) {
            Ok(given) => Ok(Some(given)),
            Err(error) => Err(error),
        },
    }
}

/// The operand that this is, or `None` for an option.
fn operand_of<'a>(word: Word<'a, OsStr<'a, Wasm>>) -> Option<OsStr<'a, Wasm>>
    ensures { MatchOption result (IsOption (kind_of word.entry))
        (λ operand. kind_of word.entry ≡ Value (bytes operand)) }
{
    match word {
        Word::Value(operand) => Some(operand),
        Word::Long(_) | Word::LongBytes(_) | Word::Short(_) | Word::ShortBytes(_) => None,
    }
}

/// Reads the value of an option, if it takes one.
fn read_option<'a, O: ProgramOption>(
    word: Word<'a, OsStr<'a, Wasm>>,
    arguments: &mut Arguments<'_, 'a, Wasm>,
) -> Result<Given<'a, O>, ArgumentError<'a, OsStr<'a, Wasm>>>
    ensures read { IfOk result (λ given. Completes O.spelled O.has_value (kind_of word.entry)
        (reading arguments.old) given (reading arguments.new)) }
    ensures fault { IfErr result (λ error. CantComplete O.spelled O.has_value (kind_of word.entry)
        (reading arguments.old) (fault_of error)) }
{
    match O::named(word) {
        None => Err(word.unexpected()),
        Some(option) => {
            if !option.takes_value() {
                return Ok(Given::Flag(option));
            }
            match arguments.value() {
                Ok(value) => Ok(Given::Valued(option, text_of(value))),
                Err(error) => Err(error),
            }
        }
    }
}

/// A string of UTF-8 as a text.
fn text_of<'a>(string: OsStr<'a, Wasm>) -> &'a str
    ensures { result.now ≡ bytes string.entry }
{
    match string.to_str() {
        Some(text) => text,
        None => unreachable!(),
    }
}

/// The first operand, and what was given after it.
///
/// ```
/// use names_commands::option::NamesOption;
/// use list_programs::arguments::{Given, next_operand};
///
/// let given = [Given::Flag(NamesOption::Sh), Given::Operand("list")];
/// assert!(rt; matches!(next_operand(&given), Some(("list", []))));
/// ```
pub fn next_operand<'s, 'a, O: ProgramOption>(
    given: &'s [Given<'a, O>],
) -> Option<(&'a str, &'s [Given<'a, O>])>
    ensures { MatchOption result (operands_of given.entry.now ≡ [])
        (λ next. operands_of given.entry.now ≡ next.0.now ∷ operands_of next.1.now) }
{
    let mut left = given;
    while let [first, rest @ ..] = left {
        if let Given::Operand(word) = first {
            return Some((*word, rest));
        }
        left = rest;
    }
    None
}

/// Whether an option was given.
///
/// ```
/// use names_commands::option::NamesOption;
/// use list_programs::arguments::{Given, has};
///
/// let given = [Given::Operand("list"), Given::Flag(NamesOption::Sh)];
/// assert!(rt; has(&given, NamesOption::Sh) && !has(&given, NamesOption::Help));
/// ```
pub fn has<O: ProgramOption>(given: &[Given<'_, O>], option: O) -> bool
    ensures { IsTrue result ↔ HasOption option given.now }
{
    let mut left = given;
    while let [first, rest @ ..] = left {
        if is_of(first, option) {
            return true;
        }
        left = rest;
    }
    false
}

/// Whether what was given is this option.
fn is_of<O: ProgramOption>(given: &Given<'_, O>, option: O) -> bool
    ensures { IsTrue result ↔ IsOf option given.now }
{
    match given {
        Given::Operand(_) => false,
        Given::Flag(other) => other.is(option),
        Given::Valued(other, _) => other.is(option),
    }
}

/// The value that was given last for an option, if any was.
///
/// ```
/// use names_commands::option::NamesOption;
/// use list_programs::arguments::{Given, last_value};
///
/// let given = [Given::Valued(NamesOption::Max, "9"), Given::Valued(NamesOption::Max, "7")];
/// assert!(rt; last_value(&given, NamesOption::Max) == Some("7"));
/// ```
pub fn last_value<'a, O: ProgramOption>(given: &[Given<'a, O>], option: O) -> Option<&'a str>
    ensures { LastValue option given.now None (option_map text_of result) }
{
    let mut last = None;
    let mut left = given;
    while let [first, rest @ ..] = left {
        if let Some(value) = value_of(first, option) {
            last = Some(value);
        }
        left = rest;
    }
    last
}

/// The value of this option, if it is what was given.
fn value_of<'a, O: ProgramOption>(given: &Given<'a, O>, option: O) -> Option<&'a str>
    ensures { MatchOption result (LacksValueOf option given.now)
        (λ value. HasValue option given.now value.now) }
{
    match given {
        Given::Operand(_) | Given::Flag(_) => None,
        Given::Valued(other, value) => { if other.is(option) { Some(*value) } else { None } }
    }
}

/// The values that were given for an option, in order.
///
/// # Errors
///
/// `AllocError` if it is out of memory.
///
/// ```
/// use names_commands::option::NamesOption;
/// use list_programs::arguments::{Given, values};
///
/// let given = [Given::Valued(NamesOption::Glob, "*.c"), Given::Operand("unix")];
/// let globs = values(alloc, &given, NamesOption::Glob)?;
/// assert!(rt; globs.as_slice() == ["*.c"].as_slice());
/// ```
pub fn values<'a, O: ProgramOption, A: Allocator>(
    alloc: A,
    given: &[Given<'a, O>],
    option: O,
) -> Result<Vec<&'a str, A>, AllocError>
    ensures { IfOk result (λ values. AreValues option given.now (map text_of values.items)) }
{
    let mut values = Vec::new(alloc);
    let mut left = given;
    while let [first, rest @ ..] = left {
        match push_value(first, option, &mut values) {
            Ok(()) => {}
            Err(error) => return Err(error),
        }
        left = rest;
    }
    Ok(values)
}

/// Appends the value of this option, if it is what was given.
fn push_value<'a, O: ProgramOption, A: Allocator>(
    given: &Given<'a, O>,
    option: O,
    values: &mut Vec<&'a str, A>,
) -> Result<(), AllocError>
    ensures { OnOk result (AddsValue option given.now (map text_of values.old.items)
        (map text_of values.new.items)) }
{
    match value_of(given, option) {
        Some(value) => match values.push(value) {
            Ok(()) => Ok(()),
            Err(_) => Err(AllocError),
        },
        None => Ok(()),
    }
}
