//! Searches, strips, a trim and prefix tests on Unix. Each pattern is UTF-8.
ghost use Rattle.std.specs.Prelude.{◌≡◌, ◌<◌, ◌↔◌, ◌++◌, ℕ, List, IsTrue, length};
ghost use Rattle.std.specs.Str.{IsUtf8};
ghost use Rattle.wtf8_core.specs.Occurrence.{OccursNowhere, IsFirstIndex, IsLastIndex, IsPrefix, IsSuffix};
ghost use Rattle.os_str_ext.specs.Pieces.{IsTrim, OccursSomewhere};
ghost use Rattle.bench_exports.specs.Answers.{AnswersOr};

use crate::strings::{text, unix};
use os_str_ext::OsStrBytesExt;

/// The first index of the pattern, or `usize::MAX` where it doesn't occur.
#[unsafe(no_mangle)]
pub extern "C" fn port_find(raw: &[u8], pattern: &[u8]) -> usize
    requires { IsUtf8 pattern.now }
    ensures { AnswersOr usize.MAX (OccursNowhere pattern.now raw.now)
        (IsFirstIndex pattern.now raw.now) result }
{
    match unix(raw).find(text(pattern)) {
        Some(index) => index,
        None => usize::MAX,
    }
}

/// The last index of the pattern, or `usize::MAX` where it doesn't occur.
#[unsafe(no_mangle)]
pub extern "C" fn port_rfind(raw: &[u8], pattern: &[u8]) -> usize
    requires { IsUtf8 pattern.now }
    ensures { AnswersOr usize.MAX (OccursNowhere pattern.now raw.now)
        (IsLastIndex pattern.now raw.now) result }
{
    match unix(raw).rfind(text(pattern)) {
        Some(index) => index,
        None => usize::MAX,
    }
}

/// Whether the pattern occurs.
#[unsafe(no_mangle)]
pub extern "C" fn port_contains(raw: &[u8], pattern: &[u8]) -> bool
    requires { IsUtf8 pattern.now }
    ensures { IsTrue result ↔ OccursSomewhere pattern.now raw.now }
{
    unix(raw).contains(text(pattern))
}

/// Where the pattern first occurs, by the length of the part before it; `usize::MAX` where it
/// doesn't occur.
#[unsafe(no_mangle)]
pub extern "C" fn port_split_once(raw: &[u8], pattern: &[u8]) -> usize
    requires { IsUtf8 pattern.now }
    ensures { AnswersOr usize.MAX (OccursNowhere pattern.now raw.now)
        (IsFirstIndex pattern.now raw.now) result }
{
    match unix(raw).split_once(text(pattern)) {
        Some((prefix, _)) => prefix.len(),
        None => usize::MAX,
    }
}

/// Returns the number of bytes that follow the pattern as a prefix, or `usize::MAX` if it isn't
/// one.
#[unsafe(no_mangle)]
pub extern "C" fn port_strip_prefix(raw: &[u8], pattern: &[u8]) -> usize
    requires { IsUtf8 pattern.now }
    ensures { AnswersOr usize.MAX (¬ (IsPrefix pattern.now raw.now))
        (λ count. (rest : List ℕ) × (raw.now ≡ pattern.now ++ rest)
        × (count ≡ length rest)) result }
{
    match unix(raw).strip_prefix(text(pattern)) {
        Some(rest) => rest.len(),
        None => usize::MAX,
    }
}

/// Returns the number of bytes that are left without each pattern at the start and at the end. The
/// pattern isn't empty.
#[unsafe(no_mangle)]
pub extern "C" fn port_trim_matches(raw: &[u8], pattern: &[u8]) -> usize
    requires text { IsUtf8 pattern.now }
    requires some { 0 < length pattern.now }
    ensures { (left : List ℕ) × IsTrim pattern.now raw.now left × (result ≡ length left) }
{
    unix(raw).trim_matches(text(pattern)).len()
}

/// Whether the pattern is a prefix.
#[unsafe(no_mangle)]
pub extern "C" fn port_starts_with(raw: &[u8], pattern: &[u8]) -> bool
    requires { IsUtf8 pattern.now }
    ensures { IsTrue result ↔ IsPrefix pattern.now raw.now }
{
    unix(raw).starts_with(text(pattern))
}

/// Whether the pattern is a suffix.
#[unsafe(no_mangle)]
pub extern "C" fn port_ends_with(raw: &[u8], pattern: &[u8]) -> bool
    requires { IsUtf8 pattern.now }
    ensures { IsTrue result ↔ IsSuffix pattern.now raw.now }
{
    unix(raw).ends_with(text(pattern))
}
