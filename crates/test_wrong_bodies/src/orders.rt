//! Orders.
ghost use Rattle.std.specs.Prelude.{◌≡◌};
ghost use Rattle.std.specs.Cmp.Lexicographic.{slice_cmp};
ghost use Rattle.std.specs.Ordering.{nat_cmp};
ghost use Rattle.os_str_bytes.specs.Raw.{raw_bytes};

use os_str_bytes::{Platform, RawOsStr};
use std::cmp::Ordering;

/// The order of two strings.
pub fn order<'a, E: Platform + 'a>(string: RawOsStr<'a, E>, other: RawOsStr<'a, E>) -> Ordering
    ensures { result ≡ slice_cmp nat_cmp (raw_bytes string.entry) (raw_bytes other.entry) }
{
    string.cmp(&other)
}
