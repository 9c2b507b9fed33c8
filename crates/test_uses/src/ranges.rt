//! Each form of range: what fits and what is cut out, by the range's own ends.
ghost use Rattle.std.specs.Prelude.{◌≡◌, ◌+◌, length, take, drop, MatchOption};
ghost use Rattle.platform_str.specs.Strings.{bytes};
ghost use Rattle.os_str_ext.specs.Range.{FitsIn};

use os_str_ext::{OsStrBytesExt, SliceIndex};
use platform_str::{OsStr, Platform};

/// The part in a range, where that fits.
fn part<'a, E: Platform + 'a, I: SliceIndex + Drop>(
    string: OsStr<'a, E>,
    range: I,
) -> Option<OsStr<'a, E>>
    ensures { MatchOption result
        (¬ (FitsIn (bytes string.entry) (I.first_index range)
        (I.end_index range (length (bytes string.entry)))))
        (λ part. bytes part ≡ drop (I.first_index range)
        (take (I.end_index range (length (bytes string.entry))) (bytes string.entry))) }
{
    if range.fits(string) {
        return Some(string.index(range));
    }
    None
}

/// The part in `start..end`.
pub fn between<'a, E: Platform + 'a>(
    string: OsStr<'a, E>,
    start: usize,
    end: usize,
) -> Option<OsStr<'a, E>>
    ensures { MatchOption result (¬ (FitsIn (bytes string.entry) start end))
        (λ part. bytes part ≡ drop start (take end (bytes string.entry))) }
{
    part(string, start..end)
}

/// The part in `start..=last`.
pub fn between_inclusive<'a, E: Platform + 'a>(
    string: OsStr<'a, E>,
    start: usize,
    last: usize,
) -> Option<OsStr<'a, E>>
    ensures { MatchOption result (¬ (FitsIn (bytes string.entry) start (last + 1)))
        (λ part. bytes part ≡ drop start (take (last + 1) (bytes string.entry))) }
{
    part(string, start..=last)
}

/// The part in `start..`.
pub fn from<'a, E: Platform + 'a>(string: OsStr<'a, E>, start: usize) -> Option<OsStr<'a, E>>
    ensures { MatchOption result (¬
        (FitsIn (bytes string.entry) start (length (bytes string.entry))))
        (λ part. bytes part ≡ drop start (bytes string.entry)) }
{
    part(string, start..)
}

/// The part in `..end`.
pub fn to<'a, E: Platform + 'a>(string: OsStr<'a, E>, end: usize) -> Option<OsStr<'a, E>>
    ensures { MatchOption result (¬ (FitsIn (bytes string.entry) 0 end))
        (λ part. bytes part ≡ take end (bytes string.entry)) }
{
    part(string, ..end)
}

/// The part in `..=last`.
pub fn to_inclusive<'a, E: Platform + 'a>(string: OsStr<'a, E>, last: usize) -> Option<OsStr<'a, E>>
    ensures { MatchOption result (¬ (FitsIn (bytes string.entry) 0 (last + 1)))
        (λ part. bytes part ≡ take (last + 1) (bytes string.entry)) }
{
    part(string, ..=last)
}

/// The part in `..`.
pub fn full<'a, E: Platform + 'a>(string: OsStr<'a, E>) -> OsStr<'a, E>
    ensures { bytes result ≡ bytes string.entry }
{
    string.index(..)
}
