//! Joins and prefixes of Windows strings, whose bytes are WTF-8.
ghost use Rattle.std.specs.Prelude.{◌≢◌, ◌↔◌, IsTrue};
ghost use Rattle.wtf8_core.specs.Occurrence.{IsPrefix, IsSuffix};
ghost use Rattle.wtf8_core.specs.UnitsOf.{units_of};
ghost use Rattle.wtf8_core.specs.Wtf8.{IsWtf8};
ghost use Rattle.platform_str.specs.Strings.{bytes};
ghost use Rattle.bench_exports.specs.Answers.{IsRepeatedLength};

use os_str_ext::OsStrBytesExt;
use platform_str::{OsStr, OsString, Platform, Windows};
use std::alloc::Global;

/// Returns the number of bytes of the string onto which a part was pushed `count` times, or
/// `usize::MAX` if an allocation failed.
fn pushed_len<E: Platform>(alloc: Global, part: OsStr<E>, count: usize) -> usize
    ensures { result ≢ usize.MAX → IsRepeatedLength E.well_formed E.units (bytes part.entry) count
        result }
{
    let mut all = OsString::new(alloc);
    for _ in 0..count {
        match all.push(part) {
            Ok(()) => {}
            Err(_) => return usize::MAX,
        }
    }
    all.as_os_str().len()
}

/// Returns the number of bytes of the empty string after the part was pushed `count` times, or
/// `usize::MAX` if an allocation failed.
#[unsafe(no_mangle)]
pub extern "C" fn port_push(alloc: Global, raw: &[u8], count: usize) -> usize
    requires { IsWtf8 raw.now }
    ensures { result ≢ usize.MAX → IsRepeatedLength IsWtf8 units_of raw.now count result }
{
    pushed_len(
        alloc,
        OsStr::<Windows>::from_encoded_bytes_unchecked(raw),
        count,
    )
}

/// Returns the number of bytes of the string `count` times over, or `usize::MAX` if an allocation
/// failed or the length would pass it.
#[unsafe(no_mangle)]
pub extern "C" fn port_repeat(alloc: Global, raw: &[u8], count: usize) -> usize
    requires { IsWtf8 raw.now }
    ensures { result ≢ usize.MAX → IsRepeatedLength IsWtf8 units_of raw.now count result }
{
    match OsStr::<Windows>::from_encoded_bytes_unchecked(raw).repeat(alloc, count) {
        Ok(all) => all.as_os_str().len(),
        Err(_) => usize::MAX,
    }
}

/// Whether the units of the second string are a prefix of those of the first.
#[unsafe(no_mangle)]
pub extern "C" fn port_starts_with_os(raw: &[u8], prefix: &[u8]) -> bool
    requires string { IsWtf8 raw.now }
    requires prefix { IsWtf8 prefix.now }
    ensures { IsTrue result ↔ IsPrefix (units_of prefix.now) (units_of raw.now) }
{
    let prefix = OsStr::<Windows>::from_encoded_bytes_unchecked(prefix);
    OsStr::<Windows>::from_encoded_bytes_unchecked(raw).starts_with_os(prefix)
}

/// Whether the units of the second string are a suffix of those of the first.
#[unsafe(no_mangle)]
pub extern "C" fn port_ends_with_os(raw: &[u8], suffix: &[u8]) -> bool
    requires string { IsWtf8 raw.now }
    requires suffix { IsWtf8 suffix.now }
    ensures { IsTrue result ↔ IsSuffix (units_of suffix.now) (units_of raw.now) }
{
    let suffix = OsStr::<Windows>::from_encoded_bytes_unchecked(suffix);
    OsStr::<Windows>::from_encoded_bytes_unchecked(raw).ends_with_os(suffix)
}
