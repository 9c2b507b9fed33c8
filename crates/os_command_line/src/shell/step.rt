//! A reader's steps.
ghost use Rattle.std.specs.Prelude.{◌≡◌, ◌≢◌, ◌∷◌, ℕ, List, true, false, MatchOption};
ghost use Rattle.os_command_line.specs.Shell.{is_blank, backslash, newline, is_operator, is_expansion, is_history, is_pattern, is_special, is_special_doubled, is_escapable, begins_quote, opens_dollar, is_octal, letter_meaning, octal_meaning};
ghost use Rattle.os_command_line.specs.ShellReader.{is_start, is_outside, is_itself, opening_len, escape_step, bare_step, outside_step, single_step, double_escape_step, double_step, octal_step, letter_step, dollar_escape_step, dollar_step, step};

use crate::shell::fault::FaultKind;
use crate::shell::language::Language;

/// Where a reader is.
#[derive(Clone, Copy)]
pub(crate) enum State {
    /// Outside quotes, at the first byte of a word.
    Start,
    /// Outside quotes.
    Bare,
    /// In single quotes.
    Single,
    /// In double quotes.
    Double,
    /// In dollar-single-quotes.
    Dollar,
}

impl State {
    /// Whether a word begins here.
    #[inline(always)]
    pub(crate) fn is_start(self) -> bool
        ensures { result ≡ is_start self }
    {
        match self {
            State::Start => true,
            State::Bare => false,
            State::Single => false,
            State::Double => false,
            State::Dollar => false,
        }
    }

    /// Whether no quote is open.
    #[inline(always)]
    pub(crate) fn is_outside(self) -> bool
        ensures { result ≡ is_outside self }
    {
        match self {
            State::Start => true,
            State::Bare => true,
            State::Single => false,
            State::Double => false,
            State::Dollar => false,
        }
    }
}

/// What a byte is to a reader.
#[derive(Clone, Copy)]
pub(crate) enum Step {
    /// The word ends before it.
    End,
    /// It is a fault.
    Refuse(FaultKind),
    /// The word goes on: the byte that is meant, if any, where the reader is then, and how many
    /// bytes after this one it passes over.
    Go(Option<u8>, State, usize),
}

/// What a byte before a text is. The bytes that mean themselves everywhere come first: without this
/// test, words with quotes or backslashes take up to 1.7 times as long to read.
#[tactic(auto, using(crate::proofs::lemmas::ShellItself::itself_step))]
#[inline(always)]
pub(crate) fn step_at(language: Language, state: State, byte: u8, after: &[u8]) -> Step
    ensures { result ≡ step language state byte after.now }
{
    if !state.is_start() && is_itself(false, byte) {
        return Step::Go(Some(byte), state, 0);
    }
    match state {
        State::Start => outside_step(language, state, byte, after),
        State::Bare => outside_step(language, state, byte, after),
        State::Single => single_step(byte),
        State::Double => double_step(language, byte, after),
        State::Dollar => dollar_step(byte, after),
    }
}

/// What a byte outside quotes is.
#[inline(always)]
fn outside_step(language: Language, state: State, byte: u8, after: &[u8]) -> Step
    ensures { result ≡ outside_step language state byte after.now }
{
    if byte == b'\'' {
        Step::Go(None, State::Single, 0)
    } else if byte == b'"' {
        Step::Go(None, State::Double, 0)
    } else if byte == b'\\' {
        escape_step(state, after)
    } else if is_blank(byte) {
        Step::End
    } else {
        bare_step(language, state, byte, after)
    }
}

/// What a byte outside quotes is that is neither a quote nor a backslash nor a blank.
#[inline(always)]
fn bare_step(language: Language, state: State, byte: u8, after: &[u8]) -> Step
    ensures { result ≡ bare_step language state byte after.now }
{
    if let Some(len) = opening(language, byte, after) {
        Step::Go(None, State::Dollar, len)
    } else if language.refuses_specials && is_special(state.is_start(), byte) {
        Step::Refuse(FaultKind::Special)
    } else {
        Step::Go(Some(byte), State::Bare, 0)
    }
}

/// What a backslash outside quotes is.
#[inline(always)]
fn escape_step(state: State, after: &[u8]) -> Step
    ensures { result ≡ escape_step state after.now }
{
    let Some((escaped, _)) = after.split_first() else {
        return Step::Refuse(FaultKind::TrailingBackslash);
    };
    if *escaped == b'\n' {
        Step::Go(None, state, 1)
    } else {
        Step::Go(Some(*escaped), State::Bare, 1)
    }
}

/// What a byte in single quotes is.
#[inline(always)]
fn single_step(byte: u8) -> Step
    ensures { result ≡ single_step byte }
{
    if byte == b'\'' {
        Step::Go(None, State::Bare, 0)
    } else {
        Step::Go(Some(byte), State::Single, 0)
    }
}

/// What a byte in double quotes is.
#[inline(always)]
fn double_step(language: Language, byte: u8, after: &[u8]) -> Step
    ensures { result ≡ double_step language byte after.now }
{
    if byte == b'"' {
        Step::Go(None, State::Bare, 0)
    } else if byte == b'\\' {
        double_escape_step(after)
    } else if language.refuses_specials && is_special_doubled(byte) {
        Step::Refuse(FaultKind::Special)
    } else {
        Step::Go(Some(byte), State::Double, 0)
    }
}

/// What a backslash in double quotes is.
#[inline(always)]
fn double_escape_step(after: &[u8]) -> Step
    ensures { result ≡ double_escape_step after.now }
{
    let Some((escaped, _)) = after.split_first() else {
        return Step::Go(Some(b'\\'), State::Double, 0);
    };
    if is_escapable(*escaped) {
        Step::Go(Some(*escaped), State::Double, 1)
    } else if *escaped == b'\n' {
        Step::Go(None, State::Double, 1)
    } else {
        Step::Go(Some(b'\\'), State::Double, 0)
    }
}

/// What a byte in dollar-single-quotes is.
#[inline(always)]
fn dollar_step(byte: u8, after: &[u8]) -> Step
    ensures { result ≡ dollar_step byte after.now }
{
    if byte == b'\'' {
        Step::Go(None, State::Bare, 0)
    } else if byte == b'\\' {
        dollar_escape_step(after)
    } else {
        Step::Go(Some(byte), State::Dollar, 0)
    }
}

/// What a backslash in dollar-single-quotes is.
fn dollar_escape_step(after: &[u8]) -> Step
    ensures { result ≡ dollar_escape_step after.now }
{
    let Some((letter, digits)) = after.split_first() else {
        return Step::Go(Some(b'\\'), State::Dollar, 0);
    };
    match letter_meaning(*letter) {
        Some(meant) => Step::Go(Some(meant), State::Dollar, 1),
        None => octal_step(*letter, digits),
    }
}

/// What a backslash in dollar-single-quotes is without a letter after it: this octal digit and two
/// more, or a fault.
fn octal_step(first: u8, digits: &[u8]) -> Step
    ensures { result ≡ octal_step first digits.now }
{
    let [second, third, ..] = digits else {
        return Step::Refuse(FaultKind::UnknownEscape);
    };
    match octal_meaning(first, *second, *third) {
        Some(meant) => Step::Go(Some(meant), State::Dollar, 3),
        None => Step::Refuse(FaultKind::UnknownEscape),
    }
}

/// What a letter means after a backslash in dollar-single-quotes.
fn letter_meaning(letter: u8) -> Option<u8>
    ensures { result ≡ letter_meaning letter }
{
    match letter {
        b'\'' | b'"' | b'\\' => Some(letter),
        b'a' => Some(0x07),
        b'b' => Some(0x08),
        b'f' => Some(0x0C),
        b'n' => Some(0x0A),
        b'r' => Some(0x0D),
        b't' => Some(0x09),
        b'v' => Some(0x0B),
        _ => None,
    }
}

/// What three octal digits mean there.
fn octal_meaning(first: u8, second: u8, third: u8) -> Option<u8>
    ensures { result ≡ octal_meaning first second third }
{
    if !is_octal(first) || !is_octal(second) || !is_octal(third) {
        return None;
    }
    let value = u32::from(first - b'0') * 64
        + u32::from(second - b'0') * 8
        + u32::from(third - b'0');
    if value == 0 || value >= 0x100 {
        return None;
    }
    Some(value as u8)
}

fn is_octal(byte: u8) -> bool
    ensures { result ≡ is_octal byte }
{
    matches!(byte, b'0'..=b'7')
}

/// Whether a byte is between words.
#[inline(always)]
pub(crate) fn is_blank(byte: u8) -> bool
    ensures { result ≡ is_blank byte }
{
    matches!(byte, b' ' | b'\t' | b'\n')
}

/// Whether a byte means itself outside quotes in each language, first in a word or not. The table
/// reads bare words in 0.7 of the time that comparisons take.
#[tactic(auto, using(crate::proofs::lemmas::ShellItself::table_is_right, crate::proofs::lemmas::ShellItself::special_is_not))]
#[inline(always)]
pub(crate) fn is_itself(first: bool, byte: u8) -> bool
    ensures { result ≡ is_itself first byte }
{
    if first && is_special(first, byte) {
        return false;
    }
    ITSELF[byte as usize]
}

/// Whether each byte means itself outside quotes in each language, where it isn't first in a word.
static ITSELF: [bool; 256] = [
    true, true, true, true, true, true, true, true, true, false, false, true, true, false, true,
    true, true, true, true, true, true, true, true, true, true, true, true, true, true, true, true,
    true, false, false, false, true, false, true, false, false, false, false, false, true, true,
    true, true, true, true, true, true, true, true, true, true, true, true, true, true, false,
    false, true, false, false, true, true, true, true, true, true, true, true, true, true, true,
    true, true, true, true, true, true, true, true, true, true, true, true, true, true, true, true,
    false, false, true, true, true, false, true, true, true, true, true, true, true, true, true,
    true, true, true, true, true, true, true, true, true, true, true, true, true, true, true, true,
    true, false, false, false, false, true, true, true, true, true, true, true, true, true, true,
    true, true, true, true, true, true, true, true, true, true, true, true, true, true, true, true,
    true, true, true, true, true, true, true, true, true, true, true, true, true, true, true, true,
    true, true, true, true, true, true, true, true, true, true, true, true, true, true, true, true,
    true, true, true, true, true, true, true, true, true, true, true, true, true, true, true, true,
    true, true, true, true, true, true, true, true, true, true, true, true, true, true, true, true,
    true, true, true, true, true, true, true, true, true, true, true, true, true, true, true, true,
    true, true, true, true, true, true, true, true, true, true, true, true, true, true, true, true,
    true, true, true, true, true, true, true,
];

/// How many bytes after a byte open dollar-single-quotes with it, in a language that has such
/// quotes.
#[inline(always)]
fn opening(language: Language, byte: u8, after: &[u8]) -> Option<usize>
    ensures { MatchOption result (opens_dollar language byte after.now ≡ false)
        (λ len. (opens_dollar language byte after.now ≡ true) × (len ≡ opening_len after.now)) }
{
    if language.dollar_quotes && byte == b'$' {
        return opening_len(after);
    }
    None
}

/// How many bytes open dollar-single-quotes after a `$`: a single quote, and each backslash and
/// newline before it.
fn opening_len(after: &[u8]) -> Option<usize>
    ensures { MatchOption result (begins_quote after.now ≡ false)
        (λ len. (begins_quote after.now ≡ true) × (len ≡ opening_len after.now)) }
{
    let mut rest = after;
    while let Some(joined) = after_joined(rest) {
        rest = joined;
    }
    match rest {
        [b'\'', left @ ..] => Some(after.len() - left.len()),
        _ => None,
    }
}

/// What comes after a backslash and a newline at the start.
#[inline(always)]
pub(crate) fn after_joined(line: &[u8]) -> Option<&[u8]>
    ensures { MatchOption result ((rest : List ℕ) → line.now ≢ backslash ∷ newline ∷ rest)
        (λ rest. line.now ≡ backslash ∷ newline ∷ rest.now) }
{
    match line {
        [b'\\', b'\n', rest @ ..] => Some(rest),
        _ => None,
    }
}

/// Whether some shell gives a byte a meaning of its own outside quotes, first in a word or not.
#[inline(always)]
fn is_special(first: bool, byte: u8) -> bool
    ensures { result ≡ is_special first byte }
{
    is_operator(byte)
        || is_pattern(byte)
        || is_history(byte)
        || byte == b'\r'
        || (first && matches!(byte, b'#' | b'=' | b'^'))
}

/// Whether an interactive shell takes text of its history by a byte, also in double quotes.
#[inline(always)]
fn is_history(byte: u8) -> bool
    ensures { result ≡ is_history byte }
{
    byte == b'!'
}

/// Whether some shell gives a byte a meaning of its own in double quotes.
#[inline(always)]
fn is_special_doubled(byte: u8) -> bool
    ensures { result ≡ is_special_doubled byte }
{
    is_expansion(byte) || is_history(byte)
}

#[inline(always)]
fn is_operator(byte: u8) -> bool
    ensures { result ≡ is_operator byte }
{
    matches!(byte, b'|' | b'&' | b';' | b'<' | b'>' | b'(' | b')')
}

#[inline(always)]
fn is_pattern(byte: u8) -> bool
    ensures { result ≡ is_pattern byte }
{
    is_expansion(byte) || matches!(byte, b'*' | b'?' | b'[' | b'{' | b'}' | b'~')
}

#[inline(always)]
fn is_expansion(byte: u8) -> bool
    ensures { result ≡ is_expansion byte }
{
    matches!(byte, b'$' | b'`')
}

/// Whether a backslash escapes a byte in double quotes.
#[inline(always)]
fn is_escapable(byte: u8) -> bool
    ensures { result ≡ is_escapable byte }
{
    is_expansion(byte) || matches!(byte, b'"' | b'\\')
}
