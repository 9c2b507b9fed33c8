//! For trying: what a caller of words, command lines and options concludes from one call, in each
//! outcome.
ghost use Rattle.std.specs.Prelude.{◌≡◌, ◌⊎◌, ◌≤◌, ◌<◌, ◌↔◌, ◌*◌, ◌+◌, ◌∷◌, ◌++◌, [], true, false, List, ℕ, Option, drop, length, take, IfSome, MatchOption};
ghost use Rattle.std.specs.Str.{chars};
ghost use Rattle.wtf8_core.specs.Occurrence.{IsPrefix};
ghost use Rattle.wtf8_core.specs.UnitsOf.{units_of};
ghost use Rattle.wtf8_core.specs.Utf8.{IsUtf8Fault};
ghost use Rattle.os_args.specs.Word.{Kind, dashes, equals, IsFlag, IsReadAs};
ghost use Rattle.os_command_line.specs.Fish.{IsFishText};
ghost use Rattle.os_command_line.specs.PowerShell.{HasNulAt, IsPowerShellText};
ghost use Rattle.os_command_line.specs.Shell.{AreWords};
ghost use Rattle.os_command_line.specs.ReservedWords.{first_word};
ghost use Rattle.os_command_line.specs.ShellWriting.{HasNoNul, IsFirstNul, IsLineWord, quoted_word};
ghost use Rattle.os_command_line.specs.Windows.{IsCommandLine, IsTextOf};
ghost use Rattle.os_command_line.specs.WindowsWriting.{IsFirstAt};
ghost use Rattle.osbytes_c.specs.CommandLines.{quoted_name};
ghost use Rattle.osbytes_c.specs.Faults.{IsWtf8Report};
ghost use Rattle.osbytes_c.specs.Lines.{AreEndedWords, IsFaultOf, ended, language_of};

use crate::laws::command_lines;
use crate::lines::powershell::osb_core_powershell_quote;
use crate::lines::shell::{
    osb_core_fish_quote, osb_core_shell_quote, osb_core_shell_quote_first,
    osb_core_shell_quote_line,
};
use crate::lines::shell_words::{LineFault, osb_core_shell_words};
use crate::lines::windows_arguments::osb_core_windows_arguments;
use crate::lines::windows_name::osb_core_windows_quote_name;
use crate::lines::windows_quote::osb_core_windows_quote;
use crate::options::{OptionSpan, osb_core_flag, osb_core_option};
use crate::status::DONE;
use crate::strings::fault::Fault;
use crate::uses::{count_of, no_fault};

/// How long the word of a name is in a POSIX shell, or `None` if it has a NUL or is too long.
pub fn word_len(name: &[u8]) -> Option<usize>
    ensures { MatchOption result
        (((index : ℕ) × IsFirstNul name.now index) ⊎ (usize.MAX < 4 * length name.now + 3))
        (λ len. (len ≡ length (quoted_word name.now)) × HasNoNul name.now) }
{
    count_of!(osb_core_shell_quote(name), &mut 0)
}

/// How long the word of a name is in a POSIX shell where it is first on a line, or `None` if it has
/// a NUL or is too long.
pub fn first_word_len(name: &[u8]) -> Option<usize>
    ensures { MatchOption result
        (((index : ℕ) × IsFirstNul name.now index) ⊎ (usize.MAX < 4 * length name.now + 3))
        (λ len. (len ≡ length (first_word name.now)) × HasNoNul name.now) }
{
    count_of!(osb_core_shell_quote_first(name), &mut 0)
}

/// The index of a name's first NUL, or `None` if it has none or is too long.
pub fn nul_in(name: &[u8]) -> Option<usize>
    ensures { MatchOption result (HasNoNul name.now ⊎ (usize.MAX < 4 * length name.now + 3))
        (λ index. IsFirstNul name.now index) }
{
    let mut count = 0;
    let mut index = 0;
    match osb_core_shell_quote(name, &mut [], &mut count, &mut index) {
        7 => Some(index),
        _ => None,
    }
}

/// Whether a name is too long for the length of its word to be a `usize`.
pub fn is_too_long(name: &[u8]) -> bool
    ensures { (result ≡ true) ↔ (usize.MAX < 4 * length name.now + 3) }
{
    let mut count = 0;
    let mut index = 0;
    osb_core_shell_quote(name, &mut [], &mut count, &mut index) == 21
}

/// The number of bytes of a name's word on one line; `None` as for its word above.
pub fn line_word_len(name: &[u8]) -> Option<usize>
    ensures { MatchOption result
        (((index : ℕ) × IsFirstNul name.now index) ⊎ (usize.MAX < 4 * length name.now + 3))
        (λ len. (word : List ℕ) × (IsLineWord name.now word × (len ≡ length word))) }
{
    count_of!(osb_core_shell_quote_line(name), &mut 0)
}

/// The number of bytes of a name's word in fish; `None` as for its word in other shells.
pub fn fish_len(name: &[u8]) -> Option<usize>
    ensures { MatchOption result
        (((index : ℕ) × IsFirstNul name.now index) ⊎ (usize.MAX < 4 * length name.now + 3))
        (λ len. (word : List ℕ) × (IsFishText word name.now × (len ≡ length word))) }
{
    count_of!(osb_core_fish_quote(name), &mut 0)
}

/// The number of bytes of a name's word in PowerShell; `None` also if the name isn't text.
pub fn powershell_len(name: &[u8]) -> Option<usize>
    ensures { MatchOption result
        (((index : ℕ) × ((len : Option ℕ) × IsUtf8Fault name.now index len))
        ⊎ (((index : ℕ) × HasNulAt name.now index) ⊎ (usize.MAX < 4 * length name.now + 3)))
        (λ len. (string : List ℕ) × (IsPowerShellText string (chars name.now)
        × (len ≡ length string))) }
{
    count_of!(osb_core_powershell_quote(name), &mut 0)
}

/// The number of units of an argument's text; `None` if it isn't a string, has a NUL or is too
/// long.
pub fn argument_len(argument: &[u8]) -> Option<usize>
    ensures { MatchOption result
        (((report : Fault) × IsWtf8Report argument.now report)
        ⊎ (((index : ℕ) × IsFirstNul argument.now index)
        ⊎ (usize.MAX < 2 * length argument.now + 2)))
        (λ len. (text : List ℕ) × (IsTextOf text (units_of argument.now) × (len ≡ length text))) }
{
    count_of!(osb_core_windows_quote(argument), &mut 0, &mut no_fault())
}

/// The number of units of the text of a program's name; `None` as for an argument, and also if it
/// has a quotation mark.
pub fn name_len(name: &[u8]) -> Option<usize>
    ensures { MatchOption result
        (((report : Fault) × IsWtf8Report name.now report)
        ⊎ (((index : ℕ) × IsFirstNul name.now index)
        ⊎ (((index : ℕ) × IsFirstAt 0x22 name.now index)
        ⊎ (usize.MAX < 2 * length name.now + 2))))
        (λ len. len ≡ length (quoted_name (units_of name.now))) }
{
    count_of!(osb_core_windows_quote_name(name), &mut 0, &mut no_fault())
}

/// How many units a program's name and one argument take in two buffers, if there is room for both:
/// with a space between them they are a command line of these.
pub fn line_of_two(
    name: &[u8],
    argument: &[u8],
    first: &mut [u16],
    second: &mut [u16],
) -> Option<(usize, usize)>
    ensures { IfSome result (λ lens. IsCommandLine
        (take lens.0 first.new ++ 0x20 ∷ take lens.1 second.new) (units_of name.now)
        (units_of argument.now ∷ [])) }
{
    command_lines();
    let mut len = 0;
    let mut more = 0;
    let mut index = 0;
    let mut fault = no_fault();
    if osb_core_windows_quote_name(name, first, &mut len, &mut index, &mut fault) != DONE {
        return None;
    }
    if osb_core_windows_quote(argument, second, &mut more, &mut index, &mut fault) != DONE {
        return None;
    }
    Some((len, more))
}

/// How many bytes the words of a line have with a 0 after each; `None` if there are no such
/// options, the line has a NUL, isn't words or is too long.
pub fn words_len(options: u32, line: &[u8]) -> Option<usize>
    ensures { MatchOption result
        ((3 < options) ⊎ (((fault : LineFault) × IsFaultOf (language_of options) line.now fault)
        ⊎ (((index : ℕ) × IsFirstNul line.now index) ⊎ (usize.MAX < 2 * length line.now + 1))))
        (λ len. ((words : List (List ℕ)) × (AreWords (language_of options) line.now words
        × (len ≡ length (ended words)))) × HasNoNul line.now) }
{
    count_of!(
        osb_core_shell_words(options, line),
        &mut LineFault { kind: 0, index: 0 }
    )
}

/// How many bytes the words of a line take in a buffer with a 0 after each, if there is room for
/// all.
pub fn words_in(options: u32, line: &[u8], buffer: &mut [u8]) -> Option<usize>
    ensures { IfSome result
        (λ len. AreEndedWords (language_of options) line.now (take len buffer.new)) }
{
    let mut count = 0;
    let mut fault = LineFault { kind: 0, index: 0 };
    match osb_core_shell_words(options, line, buffer, &mut count, &mut fault) {
        0 => Some(count),
        _ => None,
    }
}

/// The number of units of a line's program name and arguments, with a 0 after each; `None` if the
/// line isn't a string, has a NUL or is too long.
pub fn arguments_len(line: &[u8]) -> Option<usize>
    ensures { MatchOption result
        (((report : Fault) × IsWtf8Report line.now report)
        ⊎ (((index : ℕ) × IsFirstNul line.now index)
        ⊎ (usize.MAX < 2 * length line.now + 1)))
        (λ len. (name : List ℕ) × ((arguments : List (List ℕ))
        × (IsCommandLine (units_of line.now) name arguments
        × (len ≡ length (ended (name ∷ arguments)))))) }
{
    count_of!(osb_core_windows_arguments(line), &mut 0, &mut no_fault())
}

/// What no option was written to.
fn nothing_read() -> OptionSpan {
    OptionSpan {
        kind: 0,
        value: 0,
        start: 0,
        end: 0,
    }
}

/// Where what is first read of a word ends; `None` if the word is `--`.
pub fn option_end(word: &[u8]) -> Option<usize>
    ensures { MatchOption result (word.now ≡ dashes)
        (λ end. (kind : Kind) × IsReadAs false word.now kind (drop end word.now)) }
{
    let mut span = nothing_read();
    match osb_core_option(0, word, &mut span) {
        0 => Some(span.end),
        _ => None,
    }
}

/// Where the flag ends that begins at an index of a word; `None` if a value is there, or nothing.
pub fn flag_end(word: &[u8], at: usize) -> Option<usize>
    ensures { MatchOption result (IsPrefix equals (drop at word.now) ⊎ (length word.now ≤ at))
        (λ end. (kind : Kind) × IsFlag (drop at word.now) kind (drop end word.now)) }
{
    let mut span = nothing_read();
    match osb_core_flag(word, at, &mut span) {
        0 => Some(span.end),
        _ => None,
    }
}

/// Whether a value begins at an index of a word.
pub fn begins_value(word: &[u8], at: usize) -> bool
    ensures { (result ≡ true) ↔ IsPrefix equals (drop at word.now) }
{
    let mut span = nothing_read();
    osb_core_flag(word, at, &mut span) == 3
}
