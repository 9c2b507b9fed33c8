//! The headline's call: each result that could be mistaken for another.
ghost use Rattle.std.specs.Prelude.{◌≡◌, IfOk};
ghost use Rattle.wtf8_core.specs.Chunks.{AreChunks};
ghost use Rattle.os_str_ext.specs.Pieces.{IsRSplit, SplitsOnce};
ghost use Rattle.wtf8_core.specs.Occurrence.{IsLastIndex};
ghost use Rattle.os_str_bytes.specs.Headline.{SplitsUnlessEmpty};
ghost use Rattle.os_str_bytes.specs.Raw.{raw_bytes, raw_units};
ghost use Rattle.os_str_bytes.specs.RawCow.{raw_cow_bytes};

use os_str_bytes::headline::{self, Answers};
use os_str_bytes::{Pattern, Platform, RawOsStr};
use std::alloc::Allocator;

/// Returns the result of each call.
pub fn ask<'a, E: Platform + 'a, P: Pattern + Copy, A: Allocator>(
    alloc: &'a A,
    raw: &'a [u8],
    string: RawOsStr<'a, E>,
    other: RawOsStr<'a, E>,
    pattern: P,
    at: usize,
    count: usize,
) -> Answers<'a, E, P, A>
    ensures accepted { IfOk result.cow_from_raw_bytes (λ cow. raw_cow_bytes cow ≡ raw.now) }
    ensures rsplit_once { SplitsOnce IsLastIndex raw_units (E.units (P.text pattern))
        (raw_units string.entry) result.rsplit_once }
    ensures rsplit { SplitsUnlessEmpty E.units IsRSplit (P.text pattern) (raw_bytes string.entry)
        result.rsplit }
    ensures utf8_chunks { AreChunks (raw_bytes string.entry) result.utf8_chunks }
{
    headline::ask(alloc, raw, string, other, pattern, at, count)
}
