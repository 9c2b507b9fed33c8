//! Raw strings beside texts and strings of the platform: equal exactly where the bytes are.
ghost use Rattle.std.specs.Prelude.{◌≡◌, ◌↔◌, IsOk, IsTrue, IfOk};
ghost use Rattle.std.specs.Str.{IsUtf8};
ghost use Rattle.platform_str.specs.Strings.{bytes};
ghost use Rattle.platform_str.specs.Cows.{str_cow_bytes};
ghost use Rattle.os_str_bytes.specs.Raw.{raw_bytes, raw_vec_of};

use os_str_bytes::{OsStr, Platform, RawOsStr, RawOsString, StrCow, laws};
use std::alloc::{AllocError, Allocator};

/// Whether a raw string is this string of the platform.
pub fn is_string<'a, E: Platform + 'a>(raw: RawOsStr<'a, E>, string: OsStr<'a, E>) -> bool
    ensures { IsTrue result ↔ (raw_bytes raw.entry ≡ bytes string.entry) }
{
    raw.eq_os_str(string)
}

/// Whether a raw string is this text.
pub fn is_this_text<'a, E: Platform + 'a>(raw: RawOsStr<'a, E>, text: &str) -> bool
    ensures { IsTrue result ↔ (raw_bytes raw.entry ≡ text.now) }
{
    raw.eq_str(text)
}

/// Whether an owned raw string is equal to a raw string, to the same string of the platform and, where
/// it is one, to the text of it in the same way: it always is.
pub fn equal_in_each_way<'a, E: Platform + 'a, A: Allocator>(
    owned: &RawOsString<E, A>,
    raw: RawOsStr<'a, E>,
    text: &str,
) -> (bool, bool, bool)
    ensures raw { IsTrue result.0 ↔ ((raw_vec_of owned.now).items ≡ raw_bytes raw.entry) }
    ensures os_str { IsTrue result.1 ↔ ((raw_vec_of owned.now).items ≡ raw_bytes raw.entry) }
    ensures text { IsTrue result.2 ↔ ((raw_vec_of owned.now).items ≡ text.now) }
{
    (
        owned.eq_raw(raw),
        owned.eq_os_str(raw.as_os_str()),
        owned.eq_str(text),
    )
}

/// Whether a raw string is a text.
pub fn raw_is_text<'a, E: Platform + 'a>(raw: RawOsStr<'a, E>) -> bool
    ensures { IsTrue result ↔ IsUtf8 (raw_bytes raw.entry) }
{
    raw.to_str().is_some()
}

/// The text of a raw string, by way of its text where it is one.
pub fn raw_text<'a, E: Platform + 'a>(raw: RawOsStr<'a, E>) -> RawOsStr<'a, E>
    ensures { raw_bytes result ≡ raw_bytes raw.entry }
{
    match raw.to_str() {
        Some(text) => RawOsStr::from_str(text),
        None => raw,
    }
}

/// Whether a raw string is empty exactly where it is equal to the default one: it always is.
pub fn empty_as_default<'a, E: Platform + 'a>(raw: RawOsStr<'a, E>) -> bool
    ensures { IsTrue result }
{
    let empty = RawOsStr::default();
    laws::raw_comparisons(&raw, &empty);
    raw.is_empty() == (raw == empty)
}

/// A raw string, by way of a string of the platform.
pub fn through_os_str<'a, E: Platform + 'a>(raw: RawOsStr<'a, E>) -> RawOsStr<'a, E>
    ensures { raw_bytes result ≡ raw_bytes raw.entry }
{
    RawOsStr::from_os_str(raw.as_os_str())
}

/// A raw string, by way of its bytes.
pub fn through_bytes<'a, E: Platform + 'a>(raw: RawOsStr<'a, E>) -> RawOsStr<'a, E>
    ensures { raw_bytes result ≡ raw_bytes raw.entry }
{
    RawOsStr::from_encoded_bytes_unchecked(raw.as_encoded_bytes())
}

/// The lossy text of a raw string.
pub fn raw_lossy_text<'a, E: Platform + 'a, A: Allocator>(
    alloc: A,
    raw: RawOsStr<'a, E>,
) -> Result<StrCow<'a, A>, AllocError>
    ensures text { IfOk result (λ text. str_cow_bytes text ≡ E.lossy (raw_bytes raw.entry)) }
    ensures without_memory { IsUtf8 (raw_bytes raw.entry) → IsOk result }
{
    raw.to_str_lossy(alloc)
}
