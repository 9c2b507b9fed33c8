//! Which units a string has.
ghost use Rattle.std.specs.Prelude.{◌↔◌, ◌⊎◌, ◌≡◌, ◌<◌, [], IsTrue, MatchOption};
ghost use Rattle.std.specs.List.{AllByRecursion};
ghost use Rattle.wtf8_core.specs.UnitsOf.{units_of};
ghost use Rattle.platform_str.specs.Strings.{bytes};
ghost use Rattle.os_command_line.specs.Windows.{IsBlank};
ghost use Rattle.os_command_line.specs.WindowsWriting.{HasNo, IsFirstAt};

use memchr::{memchr, memchr2};
use platform_str::{OsStr, Windows};

/// The first index of a unit of ASCII, in units.
pub(crate) fn first_at(string: OsStr<'_, Windows>, wanted: u8) -> Option<usize>
    requires { wanted < 0x80 }
    ensures { MatchOption result (HasNo wanted (units_of (bytes string.entry)))
        (λ index. IsFirstAt wanted (units_of (bytes string.entry)) index) }
{
    match memchr(wanted, string.as_encoded_bytes()) {
        Some(_) => first_unit(string, u16::from(wanted)),
        None => None,
    }
}

/// The first index of a unit, in units.
fn first_unit(string: OsStr<'_, Windows>, wanted: u16) -> Option<usize>
    ensures { MatchOption result (HasNo wanted (units_of (bytes string.entry)))
        (λ index. IsFirstAt wanted (units_of (bytes string.entry)) index) }
{
    let _ = string.len();
    let mut index = 0;
    for unit in string.encode_wide() {
        if unit == wanted {
            return Some(index);
        }
        index += 1;
    }
    None
}

/// Whether a string has no space and no tab.
pub(crate) fn has_no_blank(string: OsStr<'_, Windows>) -> bool
    ensures { IsTrue result ↔ AllByRecursion (λ u. ¬ (IsBlank u)) (units_of (bytes string.entry)) }
{
    match memchr2(b' ', b'\t', string.as_encoded_bytes()) {
        Some(_) => false,
        None => true,
    }
}
