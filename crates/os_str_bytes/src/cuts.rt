//! The cuts of a string at one index.
ghost use Rattle.std.specs.Prelude.{IfOk, drop};
ghost use Rattle.wtf8_core.specs.Boundary.{IsBoundary};
ghost use Rattle.os_str_bytes.specs.{Raw.raw_bytes, Raw.raw_vec_of, Cuts.AreBothParts};

use crate::raw_str::RawOsStr;
use crate::raw_string::RawOsString;
use os_str_ext::Platform;
use std::alloc::{AllocError, Allocator};

/// The results of the calls that cut a string at a boundary. Each field has the name of its call.
#[derive(Drop)]
pub struct Cuts<'a, E: Platform + 'a, A: Allocator> {
    pub split_at: (RawOsStr<'a, E>, RawOsStr<'a, E>),
    /// The parts `..at` and `at..`.
    pub index: (RawOsStr<'a, E>, RawOsStr<'a, E>),
    /// The parts `..at` and `at..`, as in `index`.
    pub get_unchecked: (RawOsStr<'a, E>, RawOsStr<'a, E>),
    /// What remains of a copy of the string, and the part that was split off.
    pub split_off: Result<(RawOsString<E, A>, RawOsString<E, A>), AllocError>,
    /// What remains of a copy of the string.
    pub truncate: Result<RawOsString<E, A>, AllocError>,
}

/// Calls `split_off` on a copy, and returns what remains of the copy and the part split off.
pub(crate) fn split_copy<'a, E: Platform, A: Allocator>(
    alloc: &'a A,
    string: RawOsStr<'a, E>,
    at: usize,
) -> Result<(RawOsString<E, &'a A>, RawOsString<E, &'a A>), AllocError>
    requires { IsBoundary (raw_bytes string) at }
    ensures { IfOk result (λ parts. AreBothParts string.entry at (raw_vec_of parts.0).items
        (raw_vec_of parts.1).items) }
{
    let mut prefix = string.to_owned(alloc)?;
    let suffix = prefix.split_off(at)?;
    Ok((prefix, suffix))
}

/// Calls `truncate` on a copy, and returns what remains of the copy.
pub(crate) fn truncated_copy<'a, E: Platform, A: Allocator>(
    alloc: &'a A,
    string: RawOsStr<'a, E>,
    at: usize,
) -> Result<RawOsString<E, &'a A>, AllocError>
    requires { IsBoundary (raw_bytes string) at }
    ensures { IfOk result (λ prefix. AreBothParts string.entry at (raw_vec_of prefix).items
        (drop at (raw_bytes string.entry))) }
{
    let mut prefix = string.to_owned(alloc)?;
    prefix.truncate(at);
    Ok(prefix)
}
