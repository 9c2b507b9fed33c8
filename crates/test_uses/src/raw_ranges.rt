//! Ranges of raw strings, and the calls of `get_unchecked`.
ghost use Rattle.std.specs.Prelude.{◌≡◌, ◌++◌, length, take, drop, IfSome, MatchOption};
ghost use Rattle.platform_str.specs.Strings.{bytes};
ghost use Rattle.os_str_ext.specs.Range.{FitsIn};
ghost use Rattle.os_str_bytes.specs.Raw.{raw_bytes};

use os_str_bytes::{OsStr, OsStrBytesExt, Platform, RawOsStr, SliceIndex};

/// The part of a raw string in a range.
pub fn raw_part<'a, E: Platform + 'a, I: SliceIndex + Drop>(
    string: RawOsStr<'a, E>,
    range: I,
) -> Option<RawOsStr<'a, E>>
    ensures { MatchOption result
        (¬ (FitsIn (raw_bytes string.entry) (I.first_index range)
        (I.end_index range (length (raw_bytes string.entry)))))
        (λ part. raw_bytes part ≡ drop (I.first_index range)
        (take (I.end_index range (length (raw_bytes string.entry))) (raw_bytes string.entry))) }
{
    if string.fits(&range) {
        return Some(string.index(range));
    }
    None
}

/// Returns the part of a raw string in a range, by `get_unchecked`.
pub fn raw_part_unchecked<'a, E: Platform + 'a>(
    string: RawOsStr<'a, E>,
    start: usize,
    end: usize,
) -> Option<RawOsStr<'a, E>>
    ensures { MatchOption result (¬ (FitsIn (raw_bytes string.entry) start end))
        (λ part. raw_bytes part ≡ drop start (take end (raw_bytes string.entry))) }
{
    let range = start..end;
    if string.fits(&range) {
        return Some(string.get_unchecked(range));
    }
    None
}

/// The part of a string by `get_unchecked`.
pub fn part_unchecked<'a, E: Platform + 'a>(
    string: OsStr<'a, E>,
    start: usize,
    end: usize,
) -> Option<OsStr<'a, E>>
    ensures { MatchOption result (¬ (FitsIn (bytes string.entry) start end))
        (λ part. bytes part ≡ drop start (take end (bytes string.entry))) }
{
    let range = start..end;
    if range.fits(string) {
        return Some(string.get_unchecked(range));
    }
    None
}

/// The parts of a raw string before and after an index, if it may be cut there: joined they are the
/// string.
pub fn raw_halves<'a, E: Platform + 'a>(
    string: RawOsStr<'a, E>,
    at: usize,
) -> Option<(RawOsStr<'a, E>, RawOsStr<'a, E>)>
    ensures { IfSome result (λ parts. raw_bytes parts.0 ++ raw_bytes parts.1
        ≡ raw_bytes string.entry) }
{
    if string.is_boundary(at) {
        return Some(string.split_at(at));
    }
    None
}
