//! Boundaries and cuts.
ghost use Rattle.std.specs.Prelude.{◌↔◌, ◌≡◌, ◌+◌, IfSome, IsSome, IsTrue, drop, take};
ghost use Rattle.wtf8_core.specs.Boundary.{IsBoundary};
ghost use Rattle.os_str_ext.specs.Range.{FitsIn};
ghost use Rattle.os_str_bytes.specs.Raw.{raw_vec_of};
ghost use Rattle.platform_str.specs.Strings.{bytes};

use os_str_bytes::RawOsString;
use os_str_ext::{OsStrBytesExt, SliceIndex};
use platform_str::{OsStr, Platform};
use std::alloc::Allocator;

/// Whether a string may be cut at an index.
pub fn boundary<'a, E: Platform + 'a>(string: OsStr<'a, E>, at: usize) -> bool
    ensures { IsTrue result ↔ IsBoundary (bytes string.entry) at }
{
    string.is_boundary(at)
}

/// The part from the start to a last byte, where that fits.
pub fn part_to<'a, E: Platform + 'a>(string: OsStr<'a, E>, last: usize) -> Option<OsStr<'a, E>>
    ensures fits { IsSome result ↔ FitsIn (bytes string.entry) 0 (last + 1) }
    ensures part { IfSome result (λ part. bytes part ≡ take (last + 1) (bytes string.entry)) }
{
    let range = ..=last;
    if range.fits(string) {
        return Some(string.index(range));
    }
    None
}

/// The parts before and after an index, where it is a boundary.
pub fn parts_at<'a, E: Platform + 'a>(
    string: OsStr<'a, E>,
    at: usize,
) -> Option<(OsStr<'a, E>, OsStr<'a, E>)>
    ensures { IfSome result (λ parts. (bytes parts.0 ≡ take at (bytes string.entry))
        × (bytes parts.1 ≡ drop at (bytes string.entry))) }
{
    if string.is_boundary(at) {
        return Some(string.split_at(at));
    }
    None
}

/// Cuts an owned string off at an index, where that is a boundary.
pub fn cut_off<E: Platform, A: Allocator>(string: &mut RawOsString<E, A>, at: usize)
    ensures { IsBoundary (raw_vec_of string.old).items at
        → (raw_vec_of string.new).items ≡ take at (raw_vec_of string.old).items }
{
    if string.is_boundary(at) {
        string.truncate(at);
    }
}
