//! Bytes that files take: exactly those that are IO-safe.
ghost use Rattle.std.specs.Prelude.{◌≡◌, ◌↔◌, IsTrue, IsOk, IfOk};
ghost use Rattle.std.specs.String.{string_vec};
ghost use Rattle.platform_str.specs.Strings.{string_vec_of};

use platform_str::{OsStrBytes, OsString, OsStringBytes, Platform, laws};
use std::alloc::{AllocError, Allocator};

/// Whether a string may be handed to files: exactly where its bytes are IO-safe.
pub fn may_be_handed<'a, S: OsStrBytes<'a>>(string: S) -> bool
    ensures { IsTrue result ↔ S.Platform.io_safe (S.bytes_of string) }
{
    string.to_io_bytes().is_some()
}

/// Whether bytes of a file are a string: exactly where they are IO-safe.
pub fn may_be_taken<'a, S: OsStrBytes<'a>>(raw: &'a [u8]) -> bool
    ensures { IsTrue result ↔ S.Platform.io_safe raw.now }
{
    S::from_io_bytes(raw).is_some()
}

/// A string by way of a file's bytes, or itself where there are none.
pub fn through_file<'a, S: OsStrBytes<'a>>(string: S) -> S
    ensures { S.bytes_of result ≡ S.bytes_of string }
{
    let Some(io) = string.to_io_bytes() else {
        return string;
    };
    match S::from_io_bytes(io) {
        Some(again) => again,
        None => string,
    }
}

/// A text as an owned string of a platform, as a text again: it always is one, in the same vector.
pub fn text_there_and_back<E: Platform, A: Allocator>(
    text: String<A>,
) -> Result<String<A>, OsString<E, A>>
    ensures text { IsOk result }
    ensures same { IfOk result (λ again. string_vec again ≡ string_vec text) }
{
    OsString::from(text).into_string()
}

/// Reads an owned string again with replacements. It needs none, so the vector is the same.
pub fn moved_back_lossy<E: Platform, A: Allocator + Clone>(
    string: OsString<E, A>,
) -> Result<OsString<E, A>, AllocError>
    ensures without_memory { IsOk result }
    ensures same { IfOk result (λ again. string_vec_of again ≡ string_vec_of string) }
{
    OsString::from_raw_vec_lossy(string.into_encoded_bytes())
}

/// Returns the vector for files of an owned string that may be handed to them. It is the string's
/// own.
pub fn kept_for_files<E: Platform, A: Allocator>(string: OsString<E, A>) -> Vec<u8, A>
    requires { E.io_safe (string_vec_of string).items }
    ensures { result ≡ string_vec_of string }
{
    string.into_io_vec_lossy()
}

/// Whether the vector of any owned string for files may be handed to them: it always may.
pub fn vec_for_files<E: Platform, A: Allocator>(string: OsString<E, A>) -> bool
    ensures { IsTrue result }
{
    laws::texts::<E>();
    laws::lossy_texts::<E>();
    let _formed = string.as_os_str();
    E::is_io_safe(string.into_io_vec_lossy().as_slice())
}
