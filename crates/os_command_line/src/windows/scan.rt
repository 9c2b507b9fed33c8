//! How far a program's name and an argument reach, by their bytes.
ghost use Rattle.std.specs.Prelude.{◌≡◌, ◌≢◌, ◌↔◌, ◌++◌, ◌∷◌, [], false, ℕ, List, IsTrue, MatchOption};
ghost use Rattle.std.specs.List.{AllByRecursion};
ghost use Rattle.os_command_line.specs.Windows.{IsBlank, Begins, StartsWithNoQuote, ReadsName};
ghost use Rattle.os_command_line.specs.WindowsSteps.{BeginsArgument, IsPartCut, IsPartEnd, IsQuoteStep};

use crate::windows::place::last_backslashes;
use memchr::{memchr, memchr3};

/// Whether a byte is a space or a tab.
#[inline(always)]
fn is_blank(byte: u8) -> bool
    ensures { IsTrue result ↔ IsBlank byte }
{
    matches!(byte, b' ' | b'\t')
}

/// What comes after the blanks at the start.
pub(crate) fn skip_blanks(line: &[u8]) -> &[u8]
    ensures { (blanks : List ℕ) × AllByRecursion IsBlank blanks × (line.now ≡ blanks ++ result.now)
        × (result.now ≢ [] → Begins result.now) }
{
    let mut rest = line;
    while let Some((byte, after)) = rest.split_first() {
        if !is_blank(*byte) {
            return rest;
        }
        rest = after;
    }
    rest
}

/// The bytes before the next quotation mark or, outside quotation marks, before the next blank, and
/// what comes after them.
#[tactic(auto, using(crate::proofs::lemmas::WindowsScan::whole_part))]
#[inline(always)]
fn cut_part(inside: bool, text: &[u8]) -> (&[u8], &[u8])
    ensures { IsPartCut inside text.now result.0.now result.1.now }
{
    match part_end(inside, text) {
        Some(at) => text.split_at(at),
        None => (text, &[]),
    }
}

/// Where those bytes end; `None` where they are the whole text.
#[tactic(auto, using(crate::proofs::lemmas::WindowsScan::part_ends))]
#[inline(always)]
fn part_end(inside: bool, text: &[u8]) -> Option<usize>
    ensures { IsPartEnd inside text.now result }
{
    if inside {
        memchr(b'"', text)
    } else {
        memchr3(b' ', b'\t', b'"', text)
    }
}

/// What comes after the argument with which a text begins, and whether it is bare: whether it has
/// no quotation mark.
pub(crate) fn after_argument(text: &[u8]) -> (&[u8], bool)
    ensures { BeginsArgument text.now result.0.now result.1 }
{
    let mut inside = false;
    let mut is_bare = true;
    let mut cut = cut_part(inside, text);
    while let Some(after) = strip_quote(cut.1) {
        let next = after_quote(inside, last_backslashes(cut.0), after);
        inside = next.0;
        is_bare = false;
        cut = cut_part(inside, next.1);
    }
    (cut.1, is_bare)
}

/// Reads a quotation mark after a number of backslashes, or two marks within a quoted part. Returns
/// whether the text after it is inside quotation marks, and that text.
#[tactic(auto, using(crate::proofs::lemmas::WindowsScan::quote_steps))]
#[inline(always)]
fn after_quote(inside: bool, run: usize, after: &[u8]) -> (bool, &[u8])
    ensures { IsQuoteStep inside run (0x22 ∷ after.now) result.0 result.1.now }
{
    if run % 2 == 1 {
        return (inside, after);
    }
    if !inside {
        return (true, after);
    }
    match strip_quote(after) {
        Some(text) => (inside, text),
        None => (false, after),
    }
}

/// What comes after a quotation mark at the start.
#[inline(always)]
fn strip_quote(text: &[u8]) -> Option<&[u8]>
    ensures { MatchOption result (StartsWithNoQuote text.now) (λ rest. text.now ≡ 0x22 ∷ rest.now) }
{
    match text {
        [b'"', rest @ ..] => Some(rest),
        _ => None,
    }
}

/// What comes after the program's name with which a line begins.
pub(crate) fn after_name(line: &[u8]) -> &[u8]
    ensures { (name : List ℕ) × (raw : List ℕ) × ReadsName result.now false line.now name
        × (line.now ≡ raw ++ result.now) }
{
    let mut inside = false;
    let mut cut = cut_part(inside, line);
    while let Some(after) = strip_quote(cut.1) {
        inside = !inside;
        cut = cut_part(inside, after);
    }
    cut.1
}
