//! How far a word reaches.
ghost use Rattle.std.specs.Prelude.{◌≡◌, ◌++◌, false, ℕ, List, IfSome, IsTrue, MatchResult};
ghost use Rattle.os_command_line.specs.Shell.{Ends};
ghost use Rattle.os_command_line.specs.Shell.Outcome.{Word, Fault};
ghost use Rattle.os_command_line.specs.ShellReader.{after_gap, outcome};
ghost use Rattle.os_command_line.specs.ShellSteps.{AreItself, BeginsBare, BeginsQuoted};

use crate::shell::fault::FaultKind;
use crate::shell::form::cut_at_quote;
use crate::shell::language::Language;
use crate::shell::step::{State, Step, after_joined, is_blank, is_itself, step_at};

/// What comes after the gap at the start.
pub(crate) fn skip_gap(line: &[u8]) -> &[u8]
    ensures { result.now ≡ after_gap line.now }
{
    let mut rest = line;
    while let Some((first, after)) = rest.split_first() {
        if is_blank(*first) {
            rest = after;
            continue;
        }
        let Some(after) = after_joined(rest) else {
            return rest;
        };
        rest = after;
    }
    rest
}

/// What comes after the word at the start, if each of its bytes means itself in each language.
pub(crate) fn after_bare(text: &[u8]) -> Option<&[u8]>
    ensures { IfSome result (λ rest. BeginsBare text.now rest.now) }
{
    let Some((first, after)) = text.split_first() else {
        return None;
    };
    if !is_itself(true, *first) {
        return None;
    }
    let rest = after_itself(after);
    if ends_word(rest) { Some(rest) } else { None }
}

/// What comes after the bytes at the start that mean themselves.
fn after_itself(text: &[u8]) -> &[u8]
    ensures { (raw : List ℕ) × AreItself false raw × (text.now ≡ raw ++ result.now) }
{
    let mut rest = text;
    while let Some((byte, after)) = rest.split_first() {
        if !is_itself(false, *byte) {
            return rest;
        }
        rest = after;
    }
    rest
}

/// Whether a word ends before a text.
fn ends_word(text: &[u8]) -> bool
    ensures { IsTrue result → Ends text.now }
{
    match text.split_first() {
        Some((byte, _)) => is_blank(*byte),
        None => true,
    }
}

/// The text in single quotes at the start, and what comes after them.
pub(crate) fn cut_quoted(text: &[u8]) -> Option<(&[u8], &[u8])>
    ensures { IfSome result (λ cut. BeginsQuoted text.now cut.0.now cut.1.now) }
{
    match text {
        [b'\'', after @ ..] => cut_at_quote(after),
        _ => None,
    }
}

/// What comes after the word at the start, if that is one text in single quotes.
fn after_quoted(text: &[u8]) -> Option<&[u8]>
    ensures { IfSome result (λ rest. (quoted : List ℕ) × BeginsQuoted text.now quoted rest.now
        × Ends rest.now) }
{
    let (_, rest) = cut_quoted(text)?;
    if ends_word(rest) { Some(rest) } else { None }
}

/// What comes after the word at the start, or the fault and the text from it on.
pub(crate) fn after_word(language: Language, text: &[u8]) -> Result<&[u8], (FaultKind, &[u8])>
    ensures { MatchResult result
        (λ rest. (word : List ℕ) × (outcome language text.now ≡ Word word rest.now))
        (λ fault. outcome language text.now ≡ Fault fault.0 fault.1.now) }
{
    match after_quoted(text) {
        Some(rest) => Ok(rest),
        None => after_steps(language, text),
    }
}

/// Returns what [`after_word`] returns, and reads the text byte by byte.
fn after_steps(language: Language, text: &[u8]) -> Result<&[u8], (FaultKind, &[u8])>
    ensures { MatchResult result
        (λ rest. (word : List ℕ) × (outcome language text.now ≡ Word word rest.now))
        (λ fault. outcome language text.now ≡ Fault fault.0 fault.1.now) }
{
    let mut state = State::Start;
    let mut from = text;
    let mut rest = text;
    while let Some((byte, after)) = rest.split_first() {
        match step_at(language, state, *byte, after) {
            Step::End => return Ok(rest),
            Step::Refuse(kind) => return Err((kind, rest)),
            Step::Go(_, next, skipped) => {
                let (_, left) = after.split_at(skipped);
                if state.is_outside() {
                    from = rest;
                }
                state = next;
                rest = left;
            }
        }
    }
    match state {
        State::Start => Ok(rest),
        State::Bare => Ok(rest),
        State::Single => Err((FaultKind::UnclosedSingle, from)),
        State::Double => Err((FaultKind::UnclosedDouble, from)),
        State::Dollar => Err((FaultKind::UnclosedDollar, from)),
    }
}
