//! Searches: a string may be cut at what they find, and after it.
ghost use Rattle.std.specs.Prelude.{◌≡◌, ◌<◌, ◌∷◌, IfSome, length};
ghost use Rattle.os_str_ext.specs.Pieces.{SplitsOnce};
ghost use Rattle.wtf8_core.specs.Occurrence.{IsFirstIndex, IsLastIndex, OccursNowhere};
ghost use Rattle.platform_str.specs.Strings.{bytes};
ghost use Rattle.os_str_bytes.specs.Raw.{raw_bytes};

use os_str_bytes::{OsStr, OsStrBytesExt, Platform, RawOsStr, search_laws};

/// The parts before the first match of a pattern and after it, by two cuts.
pub fn around_first<'a, S: OsStrBytesExt<'a> + Copy>(string: S, pattern: &str) -> Option<(S, S)>
    ensures { SplitsOnce IsFirstIndex S.bytes_of pattern.now (S.bytes_of string) result }
{
    let Some(at) = string.find(pattern) else {
        return None;
    };
    let (prefix, _) = string.split_at(at);
    let (_, suffix) = string.split_at(at + pattern.len());
    Some((prefix, suffix))
}

/// The parts before the last match of a pattern and after it, by two cuts.
pub fn around_last<'a, S: OsStrBytesExt<'a> + Copy>(string: S, pattern: &str) -> Option<(S, S)>
    ensures { SplitsOnce IsLastIndex S.bytes_of pattern.now (S.bytes_of string) result }
{
    let Some(at) = string.rfind(pattern) else {
        return None;
    };
    let (prefix, _) = string.split_at(at);
    let (_, suffix) = string.split_at(at + pattern.len());
    Some((prefix, suffix))
}

/// The parts of a raw string before the first match of a pattern and after it, by two cuts.
pub fn raw_around_first<'a, E: Platform + 'a>(
    string: RawOsStr<'a, E>,
    pattern: &str,
) -> Option<(RawOsStr<'a, E>, RawOsStr<'a, E>)>
    ensures { SplitsOnce IsFirstIndex raw_bytes pattern.now (raw_bytes string.entry) result }
{
    let Some(at) = string.find(pattern) else {
        return None;
    };
    let (prefix, _) = string.split_at(at);
    let (_, suffix) = string.split_at(at + pattern.len());
    Some((prefix, suffix))
}

/// The parts of a raw string before the last match of a pattern and after it, by two cuts.
pub fn raw_around_last<'a, E: Platform + 'a>(
    string: RawOsStr<'a, E>,
    pattern: &str,
) -> Option<(RawOsStr<'a, E>, RawOsStr<'a, E>)>
    ensures { SplitsOnce IsLastIndex raw_bytes pattern.now (raw_bytes string.entry) result }
{
    let Some(at) = string.rfind(pattern) else {
        return None;
    };
    let (prefix, _) = string.split_at(at);
    let (_, suffix) = string.split_at(at + pattern.len());
    Some((prefix, suffix))
}

/// The part before the first match of a pattern, in which the pattern doesn't occur.
pub fn before_first<'a, E: Platform + 'a>(
    string: OsStr<'a, E>,
    pattern: &str,
) -> Option<OsStr<'a, E>>
    requires { 0 < length pattern.now }
    ensures { IfSome result (λ before. OccursNowhere pattern.now (bytes before)) }
{
    search_laws::around_index();
    let (before, _) = string.split_once(pattern)?;
    Some(before)
}

/// What follows the `=` that begins a string.
pub fn after_equals<'a, E: Platform + 'a>(string: OsStr<'a, E>) -> Option<OsStr<'a, E>>
    ensures { IfSome result (λ rest. bytes string.entry ≡ 0x3D ∷ bytes rest) }
{
    search_laws::ascii_text();
    string.strip_prefix('=')
}
