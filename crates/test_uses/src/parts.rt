//! Parts of strings: joined they are the string, in bytes and in units.
ghost use Rattle.std.specs.Prelude.{◌≡◌, ◌↔◌, ◌++◌, ◌<◌, ◌≤◌, IsOk, IsTrue, length, slice_index};
ghost use Rattle.std.specs.Str.{IsUtf8};
ghost use Rattle.wtf8_core.specs.Boundary.{IsBoundary};
ghost use Rattle.wtf8_core.specs.Byte.{IsContinuation};
ghost use Rattle.platform_str.specs.Strings.{bytes};

use os_str_ext::OsStrBytesExt;
use platform_str::{EncodingError, OsStr, Platform, laws};

/// Whether a string may be cut at an index.
pub fn may_be_cut<'a, E: Platform + 'a>(string: OsStr<'a, E>, at: usize) -> bool
    ensures { IsTrue result ↔ IsBoundary (bytes string.entry) at }
{
    string.is_boundary(at)
}

/// The parts before and after an index at which the string may be cut.
pub fn halves<'a, E: Platform + 'a>(string: OsStr<'a, E>, at: usize) -> (OsStr<'a, E>, OsStr<'a, E>)
    requires { IsBoundary (bytes string) at }
    ensures joined { bytes result.0 ++ bytes result.1 ≡ bytes string.entry }
    ensures units { E.units (bytes result.0) ++ E.units (bytes result.1)
        ≡ E.units (bytes string.entry) }
{
    string.split_at(at)
}

/// The parts before, between and after two indices at which the string may be cut.
pub fn three_parts<'a, E: Platform + 'a>(
    string: OsStr<'a, E>,
    start: usize,
    end: usize,
) -> (OsStr<'a, E>, OsStr<'a, E>, OsStr<'a, E>)
    requires order { start ≤ end }
    requires start { IsBoundary (bytes string) start }
    requires end { IsBoundary (bytes string) end }
    ensures joined { bytes result.0 ++ (bytes result.1 ++ bytes result.2) ≡ bytes string.entry }
    ensures units { E.units (bytes result.0) ++ (E.units (bytes result.1)
        ++ E.units (bytes result.2)) ≡ E.units (bytes string.entry) }
{
    wtf8_core::laws::boundaries();
    let (prefix, rest) = string.split_at(start);
    let (middle, suffix) = rest.split_at(end - start);
    (prefix, middle, suffix)
}

/// Returns the parts before, between and after two indices, as `three_parts` does, but cuts at the
/// second index first.
pub fn three_parts_from_the_end<'a, E: Platform + 'a>(
    string: OsStr<'a, E>,
    start: usize,
    end: usize,
) -> (OsStr<'a, E>, OsStr<'a, E>, OsStr<'a, E>)
    requires order { start ≤ end }
    requires start { IsBoundary (bytes string) start }
    requires end { IsBoundary (bytes string) end }
    ensures joined { bytes result.0 ++ bytes result.1 ++ bytes result.2 ≡ bytes string.entry }
    ensures units { E.units (bytes result.0) ++ E.units (bytes result.1) ++ E.units (bytes result.2)
        ≡ E.units (bytes string.entry) }
{
    wtf8_core::laws::boundaries();
    let (rest, suffix) = string.split_at(end);
    let (prefix, middle) = rest.split_at(start);
    (prefix, middle, suffix)
}

/// Whether a part of a string is accepted as raw bytes: it always is.
pub fn part_is_accepted<'a, E: Platform + 'a>(
    string: OsStr<'a, E>,
    at: usize,
) -> Result<(), EncodingError>
    requires { IsBoundary (bytes string) at }
    ensures { IsOk result }
{
    laws::faults::<E>();
    let (prefix, _) = string.split_at(at);
    E::check(prefix.as_encoded_bytes())
}

/// Whether the rest of a string, from the index of a byte that isn't a continuation byte, is
/// accepted as raw bytes. It always is.
pub fn rest_is_accepted<E: Platform>(raw: &[u8], at: usize) -> Result<(), EncodingError>
    requires string { E.well_formed raw.now }
    requires within { at < length raw.now }
    requires first { ¬ (IsContinuation (slice_index raw.now at)) }
    ensures { IsOk result }
{
    laws::cuts::<E>();
    laws::faults::<E>();
    let (_, rest) = raw.split_at(at);
    E::check(rest)
}

/// The strings before and after a boundary of well-formed bytes.
pub fn halves_of_bytes<'a, E: Platform + 'a>(
    raw: &'a [u8],
    at: usize,
) -> (OsStr<'a, E>, OsStr<'a, E>)
    requires formed { E.well_formed raw.now }
    requires within { at ≤ length raw.now }
    requires cut { IsBoundary raw.now at }
    ensures { E.units (bytes result.0) ++ E.units (bytes result.1) ≡ E.units raw.now }
{
    laws::cuts::<E>();
    let (prefix, suffix) = raw.split_at(at);
    (
        OsStr::from_encoded_bytes_unchecked(prefix),
        OsStr::from_encoded_bytes_unchecked(suffix),
    )
}

/// Whether both parts of a text are texts: they always are.
pub fn halves_of_text<'a, E: Platform + 'a>(string: OsStr<'a, E>, at: usize) -> bool
    requires text { IsUtf8 (bytes string) }
    requires cut { IsBoundary (bytes string) at }
    ensures { IsTrue result }
{
    wtf8_core::laws::cuts();
    let (prefix, suffix) = string.split_at(at);
    prefix.to_str().is_some() && suffix.to_str().is_some()
}

/// Whether a text may be cut at an index as a `str` and as a string: never one alone.
pub fn cuts_agree<E: Platform>(text: &str, at: usize) -> bool
    ensures { IsTrue result }
{
    wtf8_core::laws::boundaries();
    OsStr::<E>::new(text).is_boundary(at) == text.is_char_boundary(at)
}
