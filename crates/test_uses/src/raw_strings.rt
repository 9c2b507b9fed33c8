//! Raw strings: comparisons, and what the platforms are.
ghost use Rattle.std.specs.Prelude.{◌≡◌, ◌↔◌, IfOk, IsTrue, Some};
ghost use Rattle.std.specs.Cmp.Lexicographic.{slice_cmp};
ghost use Rattle.std.specs.Ordering.{nat_cmp};
ghost use Rattle.std.specs.Str.Lossy.{utf8_lossy};
ghost use Rattle.wtf8_core.specs.Wtf8.{HasUnits};
ghost use Rattle.os_str_bytes.specs.Raw.{raw_bytes, raw_units, raw_vec_of};

use os_str_bytes::{Platform, RawOsStr, RawOsString, Wasm, Windows, laws};
use std::alloc::{AllocError, Allocator, Global};
use std::cmp::Ordering;

/// Whether two raw strings are equal: exactly where their bytes are.
pub fn same_raw_string<'a, E: Platform + 'a>(a: RawOsStr<'a, E>, b: RawOsStr<'a, E>) -> bool
    ensures { IsTrue result ↔ (raw_bytes a.entry ≡ raw_bytes b.entry) }
{
    laws::raw_comparisons(&a, &b);
    a == b
}

/// How two raw strings are ordered: as their bytes are.
pub fn raw_order<'a, E: Platform + 'a>(
    a: RawOsStr<'a, E>,
    b: RawOsStr<'a, E>,
) -> (Ordering, Option<Ordering>)
    ensures order { result.0 ≡ slice_cmp nat_cmp (raw_bytes a.entry) (raw_bytes b.entry) }
    ensures partial_order { result.1 ≡ Some result.0 }
{
    laws::raw_comparisons(&a, &b);
    (a.cmp(&b), a.partial_cmp(&b))
}

/// Whether two owned raw strings are equal: exactly where their bytes are.
pub fn same_owned_raw_string<E: Platform, A: Allocator>(
    a: &RawOsString<E, A>,
    b: &RawOsString<E, A>,
) -> bool
    ensures { IsTrue result ↔ ((raw_vec_of a.now).items ≡ (raw_vec_of b.now).items) }
{
    laws::raw_owned_comparisons(a, b);
    *a == *b
}

/// How two owned raw strings are ordered: as their bytes are.
pub fn owned_raw_order<E: Platform, A: Allocator>(
    a: &RawOsString<E, A>,
    b: &RawOsString<E, A>,
) -> (Ordering, Option<Ordering>)
    ensures order { result.0 ≡ slice_cmp nat_cmp (raw_vec_of a.now).items (raw_vec_of b.now).items }
    ensures partial_order { result.1 ≡ Some result.0 }
{
    laws::raw_owned_comparisons(a, b);
    (a.cmp(b), a.partial_cmp(b))
}

/// A raw Windows string, whose units are those of WTF-8.
pub fn raw_wide_units<'a>(string: RawOsStr<'a, Windows>) -> RawOsStr<'a, Windows>
    ensures { HasUnits (raw_bytes result) (raw_units result) }
{
    laws::platforms();
    string
}

/// The lossy reading of any bytes on wasm, which is that of `String::from_utf8_lossy`.
pub fn read_on_wasm(alloc: Global, raw: &[u8]) -> Result<Vec<u8>, AllocError>
    ensures { IfOk result (λ reading. reading.items ≡ utf8_lossy raw.now) }
{
    laws::platform_readings();
    wtf8_core::laws::lossy_text();
    Wasm::read_lossy(alloc, raw)
}
