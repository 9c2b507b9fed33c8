//! The words of a line, as a shell reads it.
ghost use Rattle.std.specs.Prelude.{◌≡◌, ◌⊎◌, ◌≤◌, ◌<◌, ◌↔◌, ◌*◌, ◌+◌, ◌^◌, ◌∷◌, ◌++◌, [], List, ℕ, Result, Ok, Err, map, length, MatchOption, MatchResult};
ghost use Rattle.wtf8_core.specs.Truncated.{IsTruncated};
ghost use Rattle.platform_str.specs.BufferSink.{Pushes};
ghost use Rattle.os_command_line.specs.Shell.{IsRead};
ghost use Rattle.os_command_line.specs.ShellViews.{word_bytes};
ghost use Rattle.os_command_line.specs.ShellWriting.{HasNoNul, IsFirstNul};
ghost use Rattle.os_command_line.specs.declared.shell.fault.WordsFault.{WordsFault};
ghost use Rattle.osbytes_c.specs.Answers.{IsOneOf, IsWritten};
ghost use Rattle.osbytes_c.specs.Lines.{AreEndedWords, IsFaultOf, ended, kind_number, language_of};
ghost use Rattle.osbytes_c.specs.Room.{words_room};
ghost use Rattle.osbytes_c.specs.Statuses.{bad_line, done, has_nul, no_option, no_room, too_long};

use crate::status::{BAD_LINE, HAS_NUL, NO_OPTION, TOO_LONG, fits};
use crate::strings::{first_nul, unix};
use os_command_line::shell::{FaultKind, Specials, Word, Words, WordsFault};
use wtf8_core::push_truncated;

/// Why a line isn't words.
#[repr(C)]
#[derive(Clone, Copy)]
pub struct LineFault {
    /// What begins at the index: 1 a single quote that isn't closed, 2 a double quote, 3 `$'`, 4 a
    /// backslash after which nothing comes, 5 a special character, 6 an unknown escape.
    pub kind: u32,
    /// The index in the line.
    pub index: usize,
}

/// Writes the words of a line into `out`, with a 0 after each, as far as there is room, and counts
/// their bytes: at most two for each byte of the line, and one. The fault is that of a line that
/// isn't words, or its first NUL.
#[unsafe(no_mangle)]
pub extern "C" fn osb_core_shell_words(
    options: u32,
    line: &[u8],
    out: &mut [u8],
    count: &mut usize,
    fault: &mut LineFault,
) -> u32
    ensures written { IsWritten result (AreEndedWords (language_of options) line.now) out.old
        out.new count.new }
    ensures fault { result ≡ bad_line → IsFaultOf (language_of options) line.now fault.new }
    ensures nul { result ≡ has_nul → IsFirstNul line.now fault.new.index }
    ensures line { (result ≡ done) ⊎ ((result ≡ no_room) ⊎ (result ≡ bad_line)) →
        HasNoNul line.now }
    ensures long { (result ≡ too_long) ↔ ((options ≤ 3) × (usize.MAX < 2 * length line.now + 1)) }
    ensures option { (result ≡ no_option) ↔ (3 < options) }
    ensures answers { IsOneOf (done ∷ no_room ∷ has_nul ∷ bad_line ∷ too_long ∷ no_option ∷ [])
        result }
{
    let Some(words) = words_of(options, line) else {
        return NO_OPTION;
    };
    if line.len() > usize::MAX / 2 {
        return TOO_LONG;
    }
    if let Some(index) = first_nul(line) {
        *fault = LineFault { kind: 0, index };
        return HAS_NUL;
    }
    match write_words(words, out) {
        Ok(written) => {
            *count = written;
            fits(written, out.len())
        }
        Err(found) => {
            *fault = LineFault {
                kind: kind_number(found.kind),
                index: found.index,
            };
            BAD_LINE
        }
    }
}

/// The words of a line with these options.
fn words_of(options: u32, line: &[u8]) -> Option<Words<'_>>
    ensures { MatchOption result (3 < options)
        (λ words. (options ≤ 3) × IsRead (language_of options) line.now words) }
{
    match options {
        0 => Some(Words::new(unix(line), Specials::Refused)),
        1 => Some(Words::new(unix(line), Specials::Kept)),
        2 => Some(Words::with_dollar_quotes(unix(line), Specials::Refused)),
        3 => Some(Words::with_dollar_quotes(unix(line), Specials::Kept)),
        _ => None,
    }
}

/// Writes words with a 0 after each, truncated, and counts their bytes.
fn write_words(words: Words<'_>, out: &mut [u8]) -> Result<usize, WordsFault>
    requires { words_room words < 2 ^ 64 }
    ensures { MatchResult result
        (λ count. (done : List (List ℕ)) × ((words.entry ≡ map Ok done)
        × IsTruncated (ended done) out.old out.new count))
        (λ fault. (done : List (List ℕ)) × ((rest : List (Result (List ℕ) WordsFault))
        × (words.entry ≡ map Ok done ++ Err fault ∷ rest))) }
{
    let mut count = 0;
    for item in words {
        match item {
            Ok(word) => count = push_word(word, out, count),
            Err(fault) => return Err(fault),
        }
    }
    Ok(count)
}

/// Appends a word and a 0.
fn push_word(word: Word<'_>, out: &mut [u8], count: usize) -> usize
    requires { count + (length (word_bytes word) + 1) < 2 ^ 64 }
    ensures { Pushes (word_bytes word.entry ++ 0 ∷ []) out.old count out.new result }
{
    let mut len = count;
    for byte in word.bytes() {
        len = push_truncated(out, len, &[byte]);
    }
    push_truncated(out, len, &[0])
}

/// The number of what begins at the index of a fault.
fn kind_number(kind: FaultKind) -> u32
    ensures { result ≡ kind_number kind }
{
    match kind {
        FaultKind::UnclosedSingle => 1,
        FaultKind::UnclosedDouble => 2,
        FaultKind::UnclosedDollar => 3,
        FaultKind::TrailingBackslash => 4,
        FaultKind::Special => 5,
        FaultKind::UnknownEscape => 6,
    }
}
