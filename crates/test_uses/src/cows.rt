//! Strings that are borrowed or owned: what is seen of them, and what they keep.
ghost use Rattle.std.specs.Prelude.{◌≡◌, ◌↔◌, IsTrue};
ghost use Rattle.std.specs.Box.{boxed_str_bytes};
ghost use Rattle.platform_str.specs.Strings.{bytes};
ghost use Rattle.platform_str.specs.Cows.{byte_cow_bytes, cow_bytes, str_cow_bytes, IsOwnedString};
ghost use Rattle.os_str_bytes.specs.Raw.{box_bytes, raw_bytes, raw_vec_of};
ghost use Rattle.os_str_bytes.specs.RawCow.{raw_cow_bytes, IsKept};
ghost use Rattle.os_str_bytes.specs.declared.raw_cow.CowRawOsStr.TheVariants.{Borrowed, Owned};

use os_str_bytes::{
    ByteCow, CowRawOsStr, HasBytes, OsStr, OsStrBytes, OsStrCow, Platform, RawOsStr, RawOsStrBox,
    RawOsStrCow, RawOsString, StrCow,
};
use std::alloc::Allocator;
use std::boxed::BoxedStr;

/// The bytes of a string that is borrowed or owned, seen as a string.
pub fn seen_in_cow<'b, 'a, E: Platform + 'a, A: Allocator>(cow: &'b OsStrCow<'a, E, A>) -> &'b [u8]
    ensures { result.now ≡ cow_bytes cow.now }
{
    cow.as_os_str().as_encoded_bytes()
}

/// The bytes of a string that is borrowed or owned.
pub fn bytes_of_cow<'b, 'a, E: Platform + 'a, A: Allocator>(cow: &'b OsStrCow<'a, E, A>) -> &'b [u8]
    ensures { result.now ≡ cow_bytes cow.now }
{
    cow.bytes()
}

/// Bytes that are borrowed or owned.
pub fn bytes_of_byte_cow<'b, 'a, A: Allocator>(cow: &'b ByteCow<'a, A>) -> &'b [u8]
    ensures { result.now ≡ byte_cow_bytes cow.now }
{
    cow.as_bytes()
}

/// The bytes of a text that is borrowed or owned.
pub fn bytes_of_text_cow<'b, 'a, A: Allocator>(cow: &'b StrCow<'a, A>) -> &'b [u8]
    ensures { result.now ≡ str_cow_bytes cow.now }
{
    cow.as_str().as_bytes()
}

/// The bytes of a raw string that is borrowed or owned, seen as a raw string.
pub fn seen_in_raw_cow<'b, 'a, E: Platform + 'a, A: Allocator>(
    cow: &'b CowRawOsStr<'a, E, A>,
) -> &'b [u8]
    ensures { result.now ≡ raw_cow_bytes cow.now }
{
    cow.as_raw().as_encoded_bytes()
}

/// A string that is borrowed or owned, as a raw one: still borrowed, or owned in the same vector.
pub fn as_raw_cow<'a, E: Platform + 'a, A: Allocator>(
    string: OsStrCow<'a, E, A>,
) -> CowRawOsStr<'a, E, A>
    ensures kept { IsKept string.entry result }
    ensures bytes { raw_cow_bytes result ≡ cow_bytes string.entry }
{
    CowRawOsStr::from_os_str(string)
}

/// A raw string that is borrowed or owned, as a string of the platform: still borrowed, or owned in
/// the same vector.
pub fn from_raw_cow<'a, E: Platform + 'a, A: Allocator>(
    raw: CowRawOsStr<'a, E, A>,
) -> OsStrCow<'a, E, A>
    ensures kept { IsKept result raw.entry }
    ensures bytes { cow_bytes result ≡ raw_cow_bytes raw.entry }
{
    raw.into_os_str()
}

/// A borrowed raw string as one that might be owned: still borrowed.
pub fn borrowed_raw<'a, E: Platform + 'a, A: Allocator>(
    raw: RawOsStr<'a, E>,
) -> CowRawOsStr<'a, E, A>
    ensures kept { result ≡ Borrowed raw.entry }
    ensures bytes { raw_cow_bytes result ≡ raw_bytes raw.entry }
{
    CowRawOsStr::from(raw)
}

/// An owned raw string as one that might be borrowed: still owned, in the same vector.
pub fn owned_raw<'a, E: Platform + 'a, A: Allocator>(
    raw: RawOsString<E, A>,
) -> CowRawOsStr<'a, E, A>
    ensures kept { result ≡ Owned raw }
    ensures bytes { raw_cow_bytes result ≡ (raw_vec_of raw).items }
{
    CowRawOsStr::from(raw)
}

/// A string's vector of well-formed bytes, moved: the string is owned, in that vector.
pub fn owned_of_bytes<'a, E: Platform + 'a>(raw: Vec<u8>) -> OsStrCow<'a, E>
    requires { E.well_formed raw.items }
    ensures vec { IsOwnedString result raw }
    ensures bytes { cow_bytes result ≡ raw.items }
{
    <OsStr<'a, E> as OsStrBytes<'a>>::assert_from_raw_bytes_owned(raw)
}

/// The bytes of a boxed raw string, seen as a raw string.
pub fn seen_in_box<E: Platform, A: Allocator>(boxed: &RawOsStrBox<E, A>) -> &[u8]
    ensures { result.now ≡ box_bytes boxed.now }
{
    boxed.as_raw().as_encoded_bytes()
}

/// A boxed text as a boxed raw string.
pub fn boxed_text<E: Platform, A: Allocator>(text: BoxedStr<A>) -> RawOsStrBox<E, A>
    ensures { box_bytes result ≡ boxed_str_bytes text }
{
    RawOsStrBox::from(text)
}

/// A boxed raw string as an owned one.
pub fn unboxed<E: Platform, A: Allocator>(boxed: RawOsStrBox<E, A>) -> RawOsString<E, A>
    ensures { (raw_vec_of result).items ≡ box_bytes boxed }
{
    RawOsString::from(boxed)
}
