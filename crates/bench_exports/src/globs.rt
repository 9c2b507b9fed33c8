//! Path patterns on Unix.
ghost use Rattle.std.specs.Prelude.{◌↔◌, IsTrue};
ghost use Rattle.std.specs.Str.{IsUtf8};
ghost use Rattle.platform_str.specs.PlatformWords.{itself};
ghost use Rattle.wildcards.specs.Sets.{MatchesChoice};
ghost use Rattle.glob_patterns.specs.Globs.{choices_of};
ghost use Rattle.glob_patterns.specs.Letters.{letters_of};
ghost use Rattle.glob_patterns.specs.Options.{options_of};
ghost use Rattle.bench_exports.specs.Answers.{Fit, IsCount, pieces_of};

use crate::strings::{strings_of, text, unix};
use glob_patterns::{Glob, GlobOptions, GlobSet, Separators};
use platform_str::Unix;
use std::alloc::{AllocError, Global};

/// Returns the number of the strings that a pattern matches, which is compiled once; none if it
/// isn't well formed, or an allocation failed. The strings are the bytes, cut into pieces of these
/// lengths, and `/` separates, or nothing does.
#[unsafe(no_mangle)]
pub extern "C" fn port_matches(
    alloc: Global,
    pattern: &[u8],
    slash: bool,
    raw: &[u8],
    lens: &[usize],
) -> usize
    requires text { IsUtf8 pattern.now }
    requires fit { Fit lens.now raw.now }
{
    match Glob::new(alloc, options(slash), text(pattern)) {
        Ok(glob) => matches(&glob, raw, lens),
        Err(_) => 0,
    }
}

/// Whether a set is made of the patterns, which are the bytes, cut into pieces of these lengths,
/// where `/` separates, without regard to case if `folds` is set: each is well formed, and no
/// allocation failed.
#[unsafe(no_mangle)]
pub extern "C" fn port_set_new(
    alloc: Global,
    patterns: &[u8],
    pattern_lens: &[usize],
    folds: bool,
) -> bool
    requires { Fit pattern_lens.now patterns.now }
{
    set_of(alloc, patterns, pattern_lens, folds).is_some()
}

/// Tests all strings against all patterns `times` times, where `/` separates, without regard to case
/// if `folds` is set, and returns the number of matches, modulo 2^64. Returns `usize::MAX` where a
/// pattern isn't well formed, or an allocation failed. The patterns are compiled once, and are the
/// bytes, cut into pieces of these lengths, as the strings are.
#[unsafe(no_mangle)]
pub extern "C" fn port_set_matches(
    alloc: Global,
    patterns: &[u8],
    pattern_lens: &[usize],
    folds: bool,
    raw: &[u8],
    lens: &[usize],
    times: usize,
) -> usize
    requires patterns { Fit pattern_lens.now patterns.now }
    requires strings { Fit lens.now raw.now }
{
    let Some(set) = set_of(alloc, patterns, pattern_lens, folds) else {
        return usize::MAX;
    };
    let mut found = Vec::new(alloc);
    let mut count: usize = 0;
    let mut left = times;
    while left > 0 {
        let Ok(pairs) = set_matches(&set, raw, lens, &mut found) else {
            return usize::MAX;
        };
        count = count.wrapping_add(pairs);
        left -= 1;
    }
    count
}

/// Returns the number of the strings that a pattern of the set matches, for each time; else the
/// same.
#[unsafe(no_mangle)]
pub extern "C" fn port_set_is_match(
    alloc: Global,
    patterns: &[u8],
    pattern_lens: &[usize],
    folds: bool,
    raw: &[u8],
    lens: &[usize],
    times: usize,
) -> usize
    requires patterns { Fit pattern_lens.now patterns.now }
    requires strings { Fit lens.now raw.now }
{
    let Some(set) = set_of(alloc, patterns, pattern_lens, folds) else {
        return usize::MAX;
    };
    let mut count: usize = 0;
    let mut left = times;
    while left > 0 {
        count = count.wrapping_add(set_is_match(&set, raw, lens));
        left -= 1;
    }
    count
}

/// Returns the number of pairs of a string and a pattern of the set that matches it, modulo 2^64.
fn set_matches(
    set: &GlobSet<Unix>,
    raw: &[u8],
    lens: &[usize],
    found: &mut Vec<usize>,
) -> Result<usize, AllocError>
    requires { Fit lens.now raw.now }
{
    let mut count: usize = 0;
    let mut rest = raw;
    let mut left = lens;
    while let Some((len, more)) = left.split_first() {
        let (string, after) = rest.split_at(*len);
        set.matches(unix(string), found)?;
        count = count.wrapping_add(found.len());
        rest = after;
        left = more;
    }
    Ok(count)
}

/// Returns the number of the strings that a pattern of the set matches, modulo 2^64.
fn set_is_match(set: &GlobSet<Unix>, raw: &[u8], lens: &[usize]) -> usize
    requires { Fit lens.now raw.now }
{
    let mut count: usize = 0;
    let mut rest = raw;
    let mut left = lens;
    while let Some((len, more)) = left.split_first() {
        let (string, after) = rest.split_at(*len);
        if set.is_match(unix(string)) {
            count = count.wrapping_add(1);
        }
        rest = after;
        left = more;
    }
    count
}

/// The set of the patterns of these lengths.
fn set_of(alloc: Global, patterns: &[u8], lens: &[usize], folds: bool) -> Option<GlobSet<Unix>>
    requires { Fit lens.now patterns.now }
{
    let mut options = options(true);
    options.case_insensitive = folds;
    let Ok(strings) = strings_of(alloc, patterns, lens) else {
        return None;
    };
    match GlobSet::new(alloc, options, &strings) {
        Ok(set) => Some(set),
        Err(_) => None,
    }
}

/// The options where `/` separates, or nothing does.
fn options(slash: bool) -> GlobOptions {
    GlobOptions::new(if slash {
        Separators::Slash
    } else {
        Separators::None
    })
}

/// Returns the number of strings that a pattern matches, of the pieces of these lengths.
fn matches(glob: &Glob<Unix>, raw: &[u8], lens: &[usize]) -> usize
    requires fit { Fit lens.now raw.now }
    ensures { IsCount (λ string. MatchesChoice (options_of glob.now.options) (choices_of glob.now)
        (letters_of itself string)) (pieces_of lens.now raw.now) result }
{
    let mut count = 0;
    let mut rest = raw;
    let mut left = lens;
    while let Some((len, more)) = left.split_first() {
        let (string, after) = rest.split_at(*len);
        if is_match(glob, string) {
            count += 1;
        }
        rest = after;
        left = more;
    }
    count
}

/// Whether a pattern matches a string, which is one call.
#[inline(never)]
fn is_match(glob: &Glob<Unix>, raw: &[u8]) -> bool
    ensures { IsTrue result ↔ MatchesChoice (options_of glob.now.options) (choices_of glob.now)
        (letters_of itself raw.now) }
{
    glob.is_match(unix(raw))
}
