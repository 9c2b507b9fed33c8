//! Searches.
ghost use Rattle.std.specs.Prelude.{◌↔◌, IsTrue};
ghost use Rattle.os_str_ext.specs.Pieces.{SplitsOnce};
ghost use Rattle.wtf8_core.specs.Occurrence.{Finds, IsLastIndex, IsFirstIndex, IsPrefix};
ghost use Rattle.wtf8_core.specs.UnitIndex.{FindsInUnits};
ghost use Rattle.platform_str.specs.Strings.{bytes};

use os_str_ext::OsStrBytesExt;
use platform_str::{OsStr, Platform};

/// The first index of a text.
pub fn find<'a, E: Platform + 'a>(string: OsStr<'a, E>, text: &str) -> Option<usize>
    ensures bytes { Finds IsFirstIndex text.now (bytes string.entry) result }
    ensures units { FindsInUnits IsFirstIndex E.well_formed E.units text.now (bytes string.entry)
        result }
{
    string.find(text)
}

/// The parts around the last match of a text.
pub fn rsplit_once<'a, E: Platform + 'a>(
    string: OsStr<'a, E>,
    text: &str,
) -> Option<(OsStr<'a, E>, OsStr<'a, E>)>
    ensures { SplitsOnce IsLastIndex bytes text.now (bytes string.entry) result }
{
    string.rsplit_once(text)
}

/// Whether the units of one string are a prefix of another's.
pub fn starts_with_os<'a, E: Platform + 'a>(string: OsStr<'a, E>, prefix: OsStr<'a, E>) -> bool
    ensures { IsTrue result
        ↔ IsPrefix (E.units (bytes prefix.entry)) (E.units (bytes string.entry)) }
{
    string.starts_with_os(prefix)
}
