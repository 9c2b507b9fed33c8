//! One piece of a split.
ghost use Rattle.std.specs.Prelude.{◌≡◌, ◌≤◌, ◌<◌, ◌+◌, ◌↔◌, ◌∷◌, [], length, drop, take, MatchOption, IfSome};
ghost use Rattle.wtf8_core.specs.Occurrence.{OccursNowhere};
ghost use Rattle.osbytes_c.specs.Answers.{IsOneOf};
ghost use Rattle.osbytes_c.specs.Steps.{IsFirstCut, IsFirstPiece, IsLastCut, IsLastPiece, IsNoPattern};
ghost use Rattle.osbytes_c.specs.Statuses.{done, no_index, no_pattern};

use crate::status::{DONE, NO_INDEX, NO_PATTERN};
use crate::strings::{text, unix};
use os_str_ext::OsStrBytesExt;

/// Where a piece is, and what is left to split.
#[repr(C)]
#[derive(Clone, Copy)]
pub struct Piece {
    /// The index where the piece ends, from the start; where it starts, from the end.
    pub edge: usize,
    /// The index where the rest starts, from the start; where it ends, from the end.
    pub rest: usize,
    /// Whether it is the last piece, so that there is no rest.
    pub last: bool,
}

/// The first piece of what comes after an index, between the occurrences of the pattern.
#[unsafe(no_mangle)]
pub extern "C" fn osb_core_cut(bytes: &[u8], pattern: &[u8], at: usize, piece: &mut Piece) -> u32
    ensures piece { result ≡ done → IsFirstPiece pattern.now bytes.now at piece.new }
    ensures index { (result ≡ no_index) ↔ (length bytes.now < at) }
    ensures pattern { (result ≡ no_pattern) ↔ ((at ≤ length bytes.now) × IsNoPattern pattern.now) }
    ensures answers { IsOneOf (done ∷ no_index ∷ no_pattern ∷ []) result }
{
    if at > bytes.len() {
        return NO_INDEX;
    }
    let Some(text) = pattern_text(pattern) else {
        return NO_PATTERN;
    };
    *piece = first_piece(bytes, text, at);
    DONE
}

/// The last piece of what comes before an index, between the occurrences of the pattern.
#[unsafe(no_mangle)]
pub extern "C" fn osb_core_rcut(bytes: &[u8], pattern: &[u8], at: usize, piece: &mut Piece) -> u32
    ensures piece { result ≡ done → IsLastPiece pattern.now bytes.now at piece.new }
    ensures index { (result ≡ no_index) ↔ (length bytes.now < at) }
    ensures pattern { (result ≡ no_pattern) ↔ ((at ≤ length bytes.now) × IsNoPattern pattern.now) }
    ensures answers { IsOneOf (done ∷ no_index ∷ no_pattern ∷ []) result }
{
    if at > bytes.len() {
        return NO_INDEX;
    }
    let Some(text) = pattern_text(pattern) else {
        return NO_PATTERN;
    };
    *piece = last_piece(bytes, text, at);
    DONE
}

/// The text by which strings are split that the bytes are, `None` where they are no pattern.
#[inline(always)]
pub(crate) fn pattern_text(pattern: &[u8]) -> Option<&str>
    ensures text { MatchOption result (IsNoPattern pattern.now)
        (λ text. (text.now ≡ pattern.now) × (0 < length text.now)) }
    ensures some { MatchOption result (IsNoPattern pattern.now) (λ _. ¬ (IsNoPattern pattern.now)) }
{
    match text(pattern) {
        Some(text) if !text.is_empty() => Some(text),
        _ => None,
    }
}

/// The first piece of what comes after an index.
#[inline(always)]
fn first_piece(bytes: &[u8], pattern: &str, at: usize) -> Piece
    requires { at ≤ length bytes.now }
    ensures { IsFirstPiece pattern.now bytes.now at result }
{
    match first_edge(bytes, pattern, at) {
        Some(edge) => Piece {
            edge,
            rest: edge + pattern.len(),
            last: false,
        },
        None => Piece {
            edge: bytes.len(),
            rest: bytes.len(),
            last: true,
        },
    }
}

/// The last piece of what comes before an index.
#[inline(always)]
fn last_piece(bytes: &[u8], pattern: &str, at: usize) -> Piece
    requires { at ≤ length bytes.now }
    ensures { IsLastPiece pattern.now bytes.now at result }
{
    match last_edge(bytes, pattern, at) {
        Some((edge, rest)) => Piece {
            edge,
            rest,
            last: false,
        },
        None => Piece {
            edge: 0,
            rest: 0,
            last: true,
        },
    }
}

/// Where the first piece of what comes after an index ends, `None` if the pattern doesn't occur
/// there.
#[inline(always)]
pub(crate) fn first_edge(bytes: &[u8], pattern: &str, at: usize) -> Option<usize>
    requires { at ≤ length bytes.now }
    ensures edge { MatchOption result (OccursNowhere pattern.now (drop at bytes.now))
        (λ edge. IsFirstCut pattern.now bytes.now at edge) }
    ensures within { IfSome result (λ edge. (at ≤ edge)
        × (edge + length pattern.now ≤ length bytes.now)) }
{
    let (_, rest) = bytes.split_at(at);
    match unix(rest).find(pattern) {
        Some(index) => Some(at + index),
        None => None,
    }
}

/// Where the last piece of what comes before an index starts, and where the rest before it ends;
/// `None` if the pattern doesn't occur there.
#[inline(always)]
pub(crate) fn last_edge(bytes: &[u8], pattern: &str, at: usize) -> Option<(usize, usize)>
    requires { at ≤ length bytes.now }
    ensures edge { MatchOption result (OccursNowhere pattern.now (take at bytes.now))
        (λ edge. IsLastCut pattern.now bytes.now at edge.0 edge.1) }
    ensures within { IfSome result (λ edge. (edge.1 ≤ edge.0) × (edge.0 ≤ at)) }
{
    let (rest, _) = bytes.split_at(at);
    match unix(rest).rfind(pattern) {
        Some(index) => Some((index + pattern.len(), index)),
        None => None,
    }
}
