//! What stays: a fault once it was returned, its one index, and that equal strings hash alike.
ghost use Rattle.std.specs.Prelude.{◌≡◌, ◌↔◌, ◌<◌, ◌^◌, [], Err, IsTrue, IfErr, Some};
ghost use Rattle.std.specs.String.{string_vec};
ghost use Rattle.wtf8_core.specs.Fault.{IsFaultAt};
ghost use Rattle.wtf8_core.specs.declared.fault.EncodingError.TheVariants.{Utf8};
ghost use Rattle.platform_str.specs.Strings.{bytes, path_vec_of, string_vec_of};
ghost use Rattle.os_str_bytes.specs.Raw.{raw_bytes, raw_vec_of};

use os_str_bytes::{OsUnit, RawOsStr, RawOsString};
use platform_str::{EncodingError, OsStr, OsString, PathBuf, Platform, laws};
use std::alloc::Allocator;
use std::hash::Hash;
use wtf8_core::{Checker, laws as wtf8_laws, wtf8_fault};

/// Feeds a new checker twice. If the first feed returns a fault, so does the second.
pub fn fault_again(
    piece: &[u8],
    more: &[u8],
) -> (Result<(), EncodingError>, Result<(), EncodingError>)
    ensures { IfErr result.0 (λ fault. result.1 ≡ Err fault) }
{
    wtf8_laws::fault_stays();
    wtf8_laws::one_first_fault();
    let mut checker = Checker::new();
    let first = checker.feed(piece);
    let second = checker.feed(more);
    (first, second)
}

/// Returns the index of the fault of bytes with a known fault, which is that one.
pub fn fault_index_says(raw: &[u8], at: usize, len: usize) -> Option<(usize, usize)>
    requires { IsFaultAt raw.now at len }
    ensures { result ≡ Some (at, len) }
{
    wtf8_laws::one_fault_index();
    wtf8_laws::encoded_or_faulty();
    wtf8_fault(raw)
}

/// Whether two faults are equal: exactly where they are the same.
pub fn same_fault(a: EncodingError, b: EncodingError) -> bool
    ensures { IsTrue result ↔ (a ≡ b) }
{
    wtf8_laws::fault_comparisons(&a, &b);
    a == b
}

/// The fault of bytes that aren't UTF-8, of its two numbers.
pub fn fault_of_text(valid_up_to: usize, error_len: Option<u8>) -> EncodingError
    ensures { result ≡ Utf8 valid_up_to error_len }
{
    EncodingError::from((valid_up_to, error_len))
}

/// Whether two strings are equal: then a hasher is fed the same of both.
pub fn hash_alike<'a, E: Platform + 'a>(a: OsStr<'a, E>, b: OsStr<'a, E>) -> bool
    ensures { IsTrue result → ⟦<OsStr<'a, E> as Hash>⟧.hash_input a.entry
        ≡ ⟦<OsStr<'a, E> as Hash>⟧.hash_input b.entry }
{
    laws::comparisons(&a, &b);
    a == b
}

/// The path of an owned string, in its memory.
pub fn path_of<E: Platform, A: Allocator>(string: OsString<E, A>) -> PathBuf<E, A>
    ensures { path_vec_of result ≡ string_vec_of string }
{
    PathBuf::from(string)
}

/// The string of an owned path, in its memory.
pub fn string_of<E: Platform, A: Allocator>(path: PathBuf<E, A>) -> OsString<E, A>
    ensures { string_vec_of result ≡ path_vec_of path }
{
    OsString::from(path)
}

/// The string of an owned text, in its memory.
pub fn of_text<E: Platform, A: Allocator>(text: String<A>) -> OsString<E, A>
    ensures { string_vec_of result ≡ string_vec text }
{
    OsString::from(text)
}

/// The raw string of an owned string, in its memory.
pub fn raw_of<E: Platform, A: Allocator>(string: OsString<E, A>) -> RawOsString<E, A>
    ensures { raw_vec_of result ≡ string_vec_of string }
{
    RawOsString::from(string)
}

/// The empty raw string.
pub fn empty_raw<'a, E: Platform + 'a>() -> RawOsStr<'a, E>
    ensures { raw_bytes result ≡ [] }
{
    RawOsStr::default()
}

/// The number of a unit, which has at most 16 bits.
pub fn unit_bits(unit: OsUnit) -> u64
    ensures { result < 2 ^ 16 }
{
    unit.to_u64()
}
