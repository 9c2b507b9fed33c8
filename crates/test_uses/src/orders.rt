//! Order beside equality: `cmp` is `Equal` exactly where `==`.
ghost use Rattle.std.specs.Prelude.{◌≡◌, ◌↔◌, IsTrue};
ghost use Rattle.std.specs.declared.cmp.Ordering.TheVariants.{Equal};

use os_str_bytes::{OsStr, OsString, Platform, RawOsStr, RawOsString, laws};
use std::alloc::Allocator;
use std::cmp::Ordering;

/// Whether two strings are equal, and how they are ordered.
pub fn order_agrees<'a, E: Platform + 'a>(a: OsStr<'a, E>, b: OsStr<'a, E>) -> (bool, Ordering)
    ensures { IsTrue result.0 ↔ (result.1 ≡ Equal) }
{
    laws::comparisons(&a, &b);
    (a == b, a.cmp(&b))
}

/// Whether two owned strings are equal, and how they are ordered.
pub fn owned_order_agrees<E: Platform, A: Allocator>(
    a: &OsString<E, A>,
    b: &OsString<E, A>,
) -> (bool, Ordering)
    ensures { IsTrue result.0 ↔ (result.1 ≡ Equal) }
{
    laws::owned_comparisons(a, b);
    (*a == *b, a.cmp(b))
}

/// Whether two raw strings are equal, and how they are ordered.
pub fn raw_order_agrees<'a, E: Platform + 'a>(
    a: RawOsStr<'a, E>,
    b: RawOsStr<'a, E>,
) -> (bool, Ordering)
    ensures { IsTrue result.0 ↔ (result.1 ≡ Equal) }
{
    laws::raw_comparisons(&a, &b);
    (a == b, a.cmp(&b))
}

/// Whether two owned raw strings are equal, and how they are ordered.
pub fn owned_raw_order_agrees<E: Platform, A: Allocator>(
    a: &RawOsString<E, A>,
    b: &RawOsString<E, A>,
) -> (bool, Ordering)
    ensures { IsTrue result.0 ↔ (result.1 ≡ Equal) }
{
    laws::raw_owned_comparisons(a, b);
    (*a == *b, a.cmp(b))
}
