//! Where texts occur: by bytes and by units alike.
ghost use Rattle.std.specs.Prelude.{◌≡◌, ◌<◌, ℕ, Some, IsTrue, length};
ghost use Rattle.wtf8_core.specs.Occurrence.{OccursAt, IsFirstIndex};
ghost use Rattle.wtf8_core.specs.UnitIndex.{IsByteIndex, IsUnitIndexOf};
ghost use Rattle.platform_str.specs.Strings.{bytes};

use crate::texts::cut_out;
use os_str_ext::OsStrBytesExt;
use platform_str::{OsStr, Platform, laws};

/// A text whose units occur at a unit index of a string, and which occurs at its byte index.
pub fn byte_index<'a, E: Platform + 'a>(
    string: OsStr<'a, E>,
    text: &str,
    unit_index: usize,
) -> OsStr<'a, E>
    requires some { 0 < length text.now }
    requires occurs { OccursAt (E.units text.now) (E.units (bytes string)) unit_index }
    ensures { (at : ℕ) × (IsByteIndex E.well_formed E.units (bytes result) unit_index at
        × OccursAt text.now (bytes result) at) }
{
    laws::occurrence::<E>();
    string
}

/// A text that occurs at a byte index of a string, and whose units occur at its unit index.
pub fn unit_index<'a, E: Platform + 'a>(string: OsStr<'a, E>, text: &str, at: usize) -> OsStr<'a, E>
    requires some { 0 < length text.now }
    requires occurs { OccursAt text.now (bytes string) at }
    ensures { (i : ℕ) × (IsByteIndex E.well_formed E.units (bytes result) i at
        × OccursAt (E.units text.now) (E.units (bytes result)) i) }
{
    laws::occurrence::<E>();
    string
}

/// Cuts out a text whose units occur at a unit index. The byte index of the unit index is known.
pub fn cut_out_by_units<'a, E: Platform + 'a>(
    string: OsStr<'a, E>,
    text: &str,
    unit_index: usize,
    at: usize,
) -> OsStr<'a, E>
    requires some { 0 < length text.now }
    requires index { IsByteIndex E.well_formed E.units (bytes string) unit_index at }
    requires occurs { OccursAt (E.units text.now) (E.units (bytes string)) unit_index }
    ensures { bytes result ≡ text.now }
{
    laws::occurrence::<E>();
    cut_out(string, text, at)
}

/// Returns the first index of a text. Its index by units is known, and the result is the byte index
/// of that.
pub fn found_by_units<'a, E: Platform + 'a>(
    string: OsStr<'a, E>,
    text: &str,
    at: usize,
) -> Option<usize>
    requires index { IsUnitIndexOf IsFirstIndex E.well_formed E.units text.now (bytes string) at }
    ensures { result ≡ Some at }
{
    laws::occurrence::<E>();
    string.find(text)
}

/// Whether a string contains a text whose units occur in its units: it always does.
pub fn contained_by_units<'a, E: Platform + 'a>(
    string: OsStr<'a, E>,
    text: &str,
    unit_index: usize,
) -> bool
    requires occurs { OccursAt (E.units text.now) (E.units (bytes string)) unit_index }
    ensures { IsTrue result }
{
    string.contains(text)
}
