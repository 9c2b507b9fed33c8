//! Cuts in units: the units of the parts, joined, are the string's.
ghost use Rattle.std.specs.Prelude.{◌≡◌, ◌++◌, drop, take, IfOk};
ghost use Rattle.wtf8_core.specs.Boundary.{IsBoundary};
ghost use Rattle.platform_str.specs.Strings.{bytes, string_vec_of};
ghost use Rattle.os_str_ext.specs.Range.{FitsIn};
ghost use Rattle.os_str_bytes.specs.Raw.{raw_bytes, raw_vec_of};

use os_str_bytes::{OsStr, OsStrBytesExt, OsString, Platform, RawOsStr, RawOsString, laws};
use std::alloc::{AllocError, Allocator};

/// A string of any kind, cut in two: the units of its bytes are those of the parts' bytes, joined.
pub fn cut_in_units<'a, S: OsStrBytesExt<'a> + Copy>(string: S, at: usize) -> (S, S)
    requires { IsBoundary (S.bytes_of string) at }
    ensures { S.Platform.units (S.bytes_of string)
        ≡ S.Platform.units (S.bytes_of result.0) ++ S.Platform.units (S.bytes_of result.1) }
{
    string.split_at(at)
}

/// A string of a platform, cut in two.
pub fn os_cut_in_units<'a, E: Platform + 'a>(
    string: OsStr<'a, E>,
    at: usize,
) -> (OsStr<'a, E>, OsStr<'a, E>)
    requires { IsBoundary (bytes string) at }
    ensures { E.units (bytes string.entry)
        ≡ E.units (bytes result.0) ++ E.units (bytes result.1) }
{
    cut_in_units(string, at)
}

/// The part in `start..end`: the units before it, in it and after it are those of the string.
pub fn part_in_units<'a, E: Platform + 'a>(
    string: OsStr<'a, E>,
    start: usize,
    end: usize,
) -> OsStr<'a, E>
    requires { FitsIn (bytes string) start end }
    ensures { E.units (bytes string.entry) ≡ E.units (take start (bytes string.entry))
        ++ (E.units (bytes result) ++ E.units (drop end (bytes string.entry))) }
{
    string.index(start..end)
}

/// Returns the part in `start..end` by `get_unchecked`. The units before it, in it and after it are
/// those of the string.
pub fn unchecked_part_in_units<'a, E: Platform + 'a>(
    string: OsStr<'a, E>,
    start: usize,
    end: usize,
) -> OsStr<'a, E>
    requires { FitsIn (bytes string) start end }
    ensures { E.units (bytes string.entry) ≡ E.units (take start (bytes string.entry))
        ++ (E.units (bytes result) ++ E.units (drop end (bytes string.entry))) }
{
    string.get_unchecked(start..end)
}

/// Returns the part of a raw string in `start..end`. The units before it, in it and after it are
/// those of the string.
pub fn raw_part_in_units<'a, E: Platform + 'a>(
    string: RawOsStr<'a, E>,
    start: usize,
    end: usize,
) -> RawOsStr<'a, E>
    requires { FitsIn (raw_bytes string) start end }
    ensures { E.units (raw_bytes string.entry) ≡ E.units (take start (raw_bytes string.entry))
        ++ (E.units (raw_bytes result) ++ E.units (drop end (raw_bytes string.entry))) }
{
    string.index(start..end)
}

/// Returns the part of a raw string in `start..end` by `get_unchecked`. The units before it, in it
/// and after it are those of the string.
pub fn raw_unchecked_part_in_units<'a, E: Platform + 'a>(
    string: RawOsStr<'a, E>,
    start: usize,
    end: usize,
) -> RawOsStr<'a, E>
    requires { FitsIn (raw_bytes string) start end }
    ensures { E.units (raw_bytes string.entry) ≡ E.units (take start (raw_bytes string.entry))
        ++ (E.units (raw_bytes result) ++ E.units (drop end (raw_bytes string.entry))) }
{
    string.get_unchecked(start..end)
}

/// The end of an owned raw string from an index on, taken off it.
pub fn taken_off_in_units<E: Platform, A: Allocator + Clone>(
    string: &mut RawOsString<E, A>,
    at: usize,
) -> Result<RawOsString<E, A>, AllocError>
    requires { IsBoundary (raw_vec_of string.old).items at }
    ensures { IfOk result (λ back. E.units (raw_vec_of string.old).items
        ≡ E.units (raw_vec_of string.new).items ++ E.units (raw_vec_of back).items) }
{
    string.split_off(at)
}

/// The start of an owned raw string up to an index, and nothing else of it.
pub fn cut_to_in_units<E: Platform, A: Allocator>(string: &mut RawOsString<E, A>, at: usize)
    requires { IsBoundary (raw_vec_of string.old).items at }
    ensures { E.units (raw_vec_of string.old).items
        ≡ E.units (raw_vec_of string.new).items ++ E.units (drop at (raw_vec_of string.old).items) }
{
    string.truncate(at);
}

/// An owned raw string, cut in two and joined again: the same string, in units and in bytes.
pub fn cut_and_joined<E: Platform, A: Allocator + Clone>(
    string: RawOsString<E, A>,
    at: usize,
) -> Result<OsString<E, A>, AllocError>
    requires { IsBoundary (raw_vec_of string).items at }
    ensures units { IfOk result (λ joined. E.units (string_vec_of joined).items
        ≡ E.units (raw_vec_of string).items) }
    ensures bytes { IfOk result (λ joined. (string_vec_of joined).items
        ≡ (raw_vec_of string).items) }
{
    laws::encoding::<E>();
    let mut prefix = string;
    let suffix = prefix.split_off(at)?;
    let mut joined = prefix.into_os_string();
    joined.push(suffix.as_os_str())?;
    Ok(joined)
}
