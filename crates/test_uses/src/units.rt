//! Units and comparisons of strings.
ghost use Rattle.std.specs.Prelude.{◌≡◌, ◌↔◌, ℕ, List, IfOk, IsTrue, Some};
ghost use Rattle.std.specs.Cmp.Lexicographic.{slice_cmp};
ghost use Rattle.std.specs.Ordering.{nat_cmp};
ghost use Rattle.wtf8_core.specs.Wtf8.{Encodes, HasUnits};
ghost use Rattle.platform_str.specs.Strings.{bytes, string_vec_of};

use platform_str::{OsStr, OsString, Platform, WideUnits, Windows, laws};
use std::alloc::{AllocError, Allocator, Global};
use std::cmp::Ordering;

/// Whether two strings are equal: exactly where their units are.
pub fn same_string<'a, E: Platform + 'a>(a: OsStr<'a, E>, b: OsStr<'a, E>) -> bool
    ensures { IsTrue result ↔ (E.units (bytes a.entry) ≡ E.units (bytes b.entry)) }
{
    laws::comparisons(&a, &b);
    laws::encoding::<E>();
    a == b
}

/// How two strings are ordered: as their bytes are.
pub fn order<'a, E: Platform + 'a>(a: OsStr<'a, E>, b: OsStr<'a, E>) -> (Ordering, Option<Ordering>)
    ensures order { result.0 ≡ slice_cmp nat_cmp (bytes a.entry) (bytes b.entry) }
    ensures partial_order { result.1 ≡ Some result.0 }
{
    laws::comparisons(&a, &b);
    (a.cmp(&b), a.partial_cmp(&b))
}

/// How two Windows strings are ordered: as the code points are that they encode.
pub fn order_of_code_points<'a>(
    a: OsStr<'a, Windows>,
    b: OsStr<'a, Windows>,
    code_points: &[u32],
    others: &[u32],
) -> Ordering
    requires first { Encodes (bytes a) code_points.now }
    requires second { Encodes (bytes b) others.now }
    ensures { result ≡ slice_cmp nat_cmp code_points.now others.now }
{
    wtf8_core::laws::order();
    laws::comparisons(&a, &b);
    a.cmp(&b)
}

/// Whether two owned strings are equal: exactly where their bytes are.
pub fn same_owned_string<E: Platform, A: Allocator>(a: &OsString<E, A>, b: &OsString<E, A>) -> bool
    ensures { IsTrue result ↔ ((string_vec_of a.now).items ≡ (string_vec_of b.now).items) }
{
    laws::owned_comparisons(a, b);
    *a == *b
}

/// How two owned strings are ordered: as their bytes are.
pub fn owned_order<E: Platform, A: Allocator>(
    a: &OsString<E, A>,
    b: &OsString<E, A>,
) -> (Ordering, Option<Ordering>)
    ensures order { result.0 ≡ slice_cmp nat_cmp (string_vec_of a.now).items
        (string_vec_of b.now).items }
    ensures partial_order { result.1 ≡ Some result.0 }
{
    laws::owned_comparisons(a, b);
    (a.cmp(b), a.partial_cmp(b))
}

/// The units of a Windows string, made a string again, which is the same.
pub fn through_units(
    alloc: Global,
    string: OsStr<'_, Windows>,
) -> Result<OsString<Windows>, AllocError>
    ensures { IfOk result (λ again. (string_vec_of again).items ≡ bytes string.entry) }
{
    laws::encoding::<Windows>();
    let units: Vec<u16> = string.encode_wide().collect(alloc)?;
    OsString::from_wide(alloc, &units)
}

/// A Windows string from units, made units again, which are the same.
pub fn through_string<'a>(units: &[u16], string: &'a OsString<Windows>) -> WideUnits<'a>
    requires { ⟦<Windows as Platform>⟧.units (string_vec_of string.now).items ≡ units.now }
    ensures { result ≡ units.now }
{
    string.as_os_str().encode_wide()
}

/// Returns the units of a Windows string with known units, which are those.
pub fn units_say<'a>(string: OsStr<'a, Windows>, units: &[u16]) -> WideUnits<'a>
    requires { HasUnits (bytes string) units.now }
    ensures { result ≡ units.now }
{
    wtf8_core::laws::functions();
    string.encode_wide()
}

/// Whether two Windows strings with the same units are equal: they always are.
pub fn equal_by_units<'a>(a: OsStr<'a, Windows>, b: OsStr<'a, Windows>, units: &[u16]) -> bool
    requires first { HasUnits (bytes a) units.now }
    requires second { HasUnits (bytes b) units.now }
    ensures { IsTrue result }
{
    wtf8_core::laws::encoding();
    laws::comparisons(&a, &b);
    a == b
}

/// Which units a string has: those of a string of the platform.
pub fn listed<'a, E: Platform + 'a>(string: OsStr<'a, E>) -> OsStr<'a, E>
    ensures { E.is_unit_list (E.units (bytes result)) }
{
    laws::encoding::<E>();
    string
}

/// Any unit list of the platform is that of a string.
pub fn encoded<E: Platform>(units: &[u16])
    requires { E.is_unit_list units.now }
    ensures { (b : List ℕ) × (E.well_formed b × (E.units b ≡ units.now)) }
{
    laws::encoding::<E>();
}
