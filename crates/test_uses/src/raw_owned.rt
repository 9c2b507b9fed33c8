//! Owned raw strings: what they are made of, and what stays where they are cut.
ghost use Rattle.std.specs.Prelude.{◌≡◌, ◌↔◌, ◌++◌, ◌<◌, [], length, take, IsTrue, IsOk, IsSome, IfOk, IfSome, OnErr, vec_capacity, vec_len};
ghost use Rattle.std.specs.Str.{IsUtf8};
ghost use Rattle.std.specs.String.{string_vec};
ghost use Rattle.wtf8_core.specs.Boundary.{IsBoundary};
ghost use Rattle.platform_str.specs.Strings.{string_vec_of};
ghost use Rattle.os_str_bytes.specs.Raw.{box_bytes, raw_bytes, raw_vec_of};

use os_str_bytes::{EncodingError, OsString, Platform, RawOsStr, RawOsStrBox, RawOsString, laws};
use std::alloc::{AllocError, Allocator};

/// An owned string, by way of an owned raw string: the same vector.
pub fn through_owned_raw<E: Platform, A: Allocator>(string: OsString<E, A>) -> OsString<E, A>
    ensures { string_vec_of result ≡ string_vec_of string }
{
    RawOsString::new(string).into_os_string()
}

/// Converts an owned string to an owned raw string and back by `From`. The vector is the same.
pub fn converted<E: Platform, A: Allocator>(string: OsString<E, A>) -> OsString<E, A>
    ensures { string_vec_of result ≡ string_vec_of string }
{
    OsString::from(RawOsString::from(string))
}

/// A text as an owned raw string: the same vector.
pub fn converted_text<E: Platform, A: Allocator>(text: String<A>) -> RawOsString<E, A>
    ensures { raw_vec_of result ≡ string_vec text }
{
    RawOsString::from(text)
}

/// The raw vector of an owned raw string, read again: the same string.
pub fn raw_moved_back<E: Platform, A: Allocator>(string: RawOsString<E, A>) -> RawOsString<E, A>
    ensures { raw_vec_of result ≡ raw_vec_of string }
{
    RawOsString::assert_from_raw_vec(string.into_raw_vec())
}

/// Reads the vectors of an owned raw string again by the unchecked calls. The string is the same.
pub fn encoded_moved_back<E: Platform, A: Allocator>(string: RawOsString<E, A>) -> RawOsString<E, A>
    ensures { raw_vec_of result ≡ raw_vec_of string }
{
    let string = RawOsString::<E, A>::from_encoded_vec_unchecked(string.into_encoded_vec());
    RawOsString::from_raw_vec_unchecked(string.into_raw_vec())
}

/// The string of a vector of raw bytes, which is accepted exactly where it is well formed.
pub fn accepted<E: Platform, A: Allocator>(
    raw: Vec<u8, A>,
) -> Result<RawOsString<E, A>, EncodingError>
    ensures { IsOk result ↔ E.well_formed raw.items }
{
    laws::faults::<E>();
    RawOsString::from_raw_vec(raw)
}

/// The text that an owned raw string is, exactly where its bytes are UTF-8.
pub fn owned_text<E: Platform, A: Allocator>(
    string: RawOsString<E, A>,
) -> Result<String<A>, RawOsString<E, A>>
    ensures { IsOk result ↔ IsUtf8 (raw_vec_of string).items }
{
    string.into_string()
}

/// An owned raw string, by way of a text where it is one: the same vector.
pub fn through_text<E: Platform, A: Allocator>(string: RawOsString<E, A>) -> RawOsString<E, A>
    ensures { raw_vec_of result ≡ raw_vec_of string }
{
    match string.into_string() {
        Ok(text) => RawOsString::from_string(text),
        Err(string) => string,
    }
}

/// The end of a string from an index on, taken off it, if it may be cut there: joined the two are
/// what it was. If an allocation fails the string is unchanged.
pub fn taken_off<E: Platform, A: Allocator + Clone>(
    string: &mut RawOsString<E, A>,
    at: usize,
) -> Result<Option<RawOsString<E, A>>, AllocError>
    ensures cut { IfOk result (λ end. IsSome end ↔ IsBoundary (raw_vec_of string.old).items at) }
    ensures joined { IfOk result (λ end. IfSome end
        (λ end. (raw_vec_of string.new).items ++ (raw_vec_of end).items
        ≡ (raw_vec_of string.old).items)) }
    ensures index { IfOk result (λ end. IfSome end
        (λ _. (raw_vec_of string.new).items ≡ take at (raw_vec_of string.old).items)) }
    ensures unchanged { OnErr result ((raw_vec_of string.new).items
        ≡ (raw_vec_of string.old).items) }
{
    if !string.is_boundary(at) {
        return Ok(None);
    }
    Ok(Some(string.split_off(at)?))
}

/// The start of a string up to an index, if it may be cut there, and nothing else of it.
pub fn cut_to<E: Platform, A: Allocator>(string: &mut RawOsString<E, A>, at: usize) -> bool
    ensures cut { IsTrue result ↔ IsBoundary (raw_vec_of string.old).items at }
    ensures start { IsTrue result → (raw_vec_of string.new).items
        ≡ take at (raw_vec_of string.old).items }
    ensures room { vec_capacity (raw_vec_of string.new) ≡ vec_capacity (raw_vec_of string.old) }
{
    if !string.is_boundary(at) {
        return false;
    }
    string.truncate(at);
    true
}

/// Whether a string is empty once it was cleared, which it always is. Its room stays.
pub fn cleared<E: Platform, A: Allocator>(string: &mut RawOsString<E, A>) -> bool
    ensures empty { IsTrue result }
    ensures room { vec_capacity (raw_vec_of string.new) ≡ vec_capacity (raw_vec_of string.old) }
{
    string.clear();
    string.as_raw().is_empty()
}

/// Whether a string fills its memory once it was shrunk; the string is the same.
pub fn fills<E: Platform, A: Allocator>(string: &mut RawOsString<E, A>) -> bool
    ensures full { IsTrue result ↔ (vec_len (raw_vec_of string.new)
        ≡ vec_capacity (raw_vec_of string.new)) }
    ensures same { (raw_vec_of string.new).items ≡ (raw_vec_of string.old).items }
{
    string.shrink_to_fit().is_ok()
}

/// Whether a copy of a string is equal to it: it always is.
pub fn copied<E: Platform, A: Allocator + Clone>(
    string: &RawOsString<E, A>,
) -> Result<bool, AllocError>
    ensures { IfOk result (λ equal. IsTrue equal) }
{
    let copy = string.clone()?;
    laws::raw_owned_comparisons(string, &copy);
    Ok(*string == copy)
}

/// A string, by way of a box.
pub fn through_box<E: Platform, A: Allocator>(
    string: RawOsString<E, A>,
) -> Result<RawOsString<E, A>, AllocError>
    ensures { IfOk result (λ again. (raw_vec_of again).items ≡ (raw_vec_of string).items) }
{
    Ok(RawOsString::from(string.into_box()?))
}

/// A raw string in memory of its own, seen again.
pub fn seen_in_copy<'a, E: Platform + 'a, A: Allocator>(
    alloc: A,
    string: RawOsStr<'a, E>,
) -> Result<bool, AllocError>
    ensures { IfOk result (λ equal. IsTrue equal) }
{
    let copy = string.to_owned(alloc)?;
    laws::raw_comparisons(&copy.as_raw(), &string);
    Ok(copy.as_raw() == string)
}

/// The empty string, which is one.
pub fn none<E: Platform, A: Allocator>(alloc: A) -> bool
    ensures { IsTrue result }
{
    RawOsString::<E, A>::empty(alloc).as_os_str().is_empty()
}
