//! Texts, lossy texts and IO bytes.
ghost use Rattle.std.specs.Prelude.{◌≡◌, ◌↔◌, ◌<◌, ◌++◌, IsOk, IfOk, IfSome, IsTrue, length, take, drop};
ghost use Rattle.std.specs.Str.{IsUtf8, IsValidUpTo};
ghost use Rattle.std.specs.Str.Lossy.{utf8_lossy};
ghost use Rattle.wtf8_core.specs.Covered.{StartsWithNoCharacter};
ghost use Rattle.wtf8_core.specs.Lossy.{replacement, IsLossyText, IsWtf8LossyText};
ghost use Rattle.wtf8_core.specs.Occurrence.{OccursAt};
ghost use Rattle.wtf8_core.specs.UnitsOf.{wtf8_lossy};
ghost use Rattle.wtf8_core.specs.Wtf8.{IsWtf8};
ghost use Rattle.platform_str.specs.Strings.{bytes};
ghost use Rattle.platform_str.specs.Cows.{byte_cow_bytes, str_cow_bytes};

use os_str_ext::OsStrBytesExt;
use platform_str::{
    ByteCow, EncodingError, OsStr, OsStrBytes, Platform, StrCow, Unix, Windows, laws,
};
use std::alloc::{AllocError, Global};
use wtf8_core::char_at;

/// Whether a string is a text.
pub fn is_text<'a, E: Platform + 'a>(string: OsStr<'a, E>) -> bool
    ensures { IsTrue result ↔ IsUtf8 (bytes string.entry) }
{
    string.to_str().is_some()
}

/// The check of a text, which every platform accepts.
pub fn text_is_string<E: Platform>(text: &str) -> Result<(), EncodingError>
    ensures { IsOk result }
{
    laws::texts::<E>();
    laws::faults::<E>();
    E::check(text.as_bytes())
}

/// Whether a text may be handed to files: it always may.
pub fn text_is_io_safe<E: Platform>(text: &str) -> bool
    ensures { IsTrue result }
{
    laws::texts::<E>();
    E::is_io_safe(text.as_bytes())
}

/// Whether IO-safe bytes are raw bytes: they always are.
pub fn io_is_raw<E: Platform>(raw: &[u8]) -> bool
    ensures { IsTrue result }
{
    laws::texts::<E>();
    laws::faults::<E>();
    !E::is_io_safe(raw) || E::check(raw).is_ok()
}

/// A text's IO-lossy bytes, which are its own and take no memory.
pub fn io_lossy_of_text<'a, E: Platform + 'a>(
    alloc: Global,
    text: &'a str,
) -> Result<ByteCow<'a>, AllocError>
    ensures without_memory { IsOk result }
    ensures same { IfOk result (λ io. byte_cow_bytes io ≡ text.now) }
{
    laws::texts::<E>();
    laws::lossy_texts::<E>();
    OsStr::<E>::new(text).to_io_bytes_lossy(alloc)
}

/// Whether a string's IO-lossy bytes may be handed to files: they always may.
pub fn io_lossy_is_safe<'a, E: Platform + 'a>(
    alloc: Global,
    string: OsStr<'a, E>,
) -> Result<bool, AllocError>
    ensures { IfOk result (λ safe. IsTrue safe) }
{
    laws::texts::<E>();
    laws::lossy_texts::<E>();
    let io = string.to_io_bytes_lossy(alloc)?;
    Ok(E::is_io_safe(io.as_bytes()))
}

/// The string after its first character.
pub fn after_first<'a, E: Platform + 'a>(string: OsStr<'a, E>) -> Option<OsStr<'a, E>>
    ensures { IfSome result (λ rest. length (bytes rest) < length (bytes string.entry)) }
{
    wtf8_core::laws::characters();
    laws::texts::<E>();
    let raw = string.as_encoded_bytes();
    let len = char_at(raw, 0)?;
    let (_, rest) = raw.split_at(len);
    Some(OsStr::from_encoded_bytes_unchecked(rest))
}

/// The number of bytes that U+FFFD replaces at the start of a string's lossy text.
pub fn replaced<'a, E: Platform + 'a>(string: OsStr<'a, E>) -> usize
    requires some { 0 < length (bytes string) }
    requires uncovered { StartsWithNoCharacter (bytes string) }
    ensures { E.lossy (bytes string.entry)
        ≡ replacement ++ E.lossy (drop result (bytes string.entry)) }
{
    laws::lossy_texts::<E>();
    E::lossy_len(string.as_encoded_bytes())
}

/// The number of bytes that U+FFFD replaces, on a platform with a known string that isn't IO-safe.
/// It is the length of U+FFFD itself.
pub fn replaced_by_as_many<'a, E: Platform + 'a>(
    string: OsStr<'a, E>,
    not_safe: OsStr<'a, E>,
) -> usize
    requires some { 0 < length (bytes string) }
    requires uncovered { StartsWithNoCharacter (bytes string) }
    requires not_safe { ¬ (E.io_safe (bytes not_safe)) }
    ensures { result ≡ length replacement }
{
    laws::texts::<E>();
    let _raw = not_safe.as_encoded_bytes();
    E::lossy_len(string.as_encoded_bytes())
}

/// The lossy text of a string that begins with a text.
pub fn lossy_after<'a, E: Platform + 'a>(
    alloc: Global,
    string: OsStr<'a, E>,
    len: usize,
) -> Result<StrCow<'a>, AllocError>
    requires { IsValidUpTo (bytes string) len }
    ensures { IfOk result (λ text. str_cow_bytes text
        ≡ take len (bytes string.entry) ++ E.lossy (drop len (bytes string.entry))) }
{
    laws::lossy_texts::<E>();
    string.to_string_lossy(alloc)
}

/// The lossy text of a Unix string, by maximal ill-formed parts.
pub fn lossy_on_unix<'a>(alloc: Global, string: OsStr<'a, Unix>) -> Result<StrCow<'a>, AllocError>
    ensures { IfOk result (λ text. IsLossyText (bytes string.entry) (str_cow_bytes text)) }
{
    wtf8_core::laws::lossy_text();
    string.to_string_lossy(alloc)
}

/// Returns the lossy text of a Unix string with a known one, which is that one.
pub fn lossy_says<'a>(
    alloc: Global,
    string: OsStr<'a, Unix>,
    known: &str,
) -> Result<StrCow<'a>, AllocError>
    requires { IsLossyText (bytes string) known.now }
    ensures { IfOk result (λ text. str_cow_bytes text ≡ known.now) }
{
    wtf8_core::laws::lossy_text();
    string.to_string_lossy(alloc)
}

/// The lossy text of a Windows string, by surrogates.
pub fn lossy_on_windows<'a>(
    alloc: Global,
    string: OsStr<'a, Windows>,
) -> Result<StrCow<'a>, AllocError>
    ensures { IfOk result (λ text. IsWtf8LossyText (bytes string.entry) (str_cow_bytes text)) }
{
    wtf8_core::laws::functions();
    string.to_string_lossy(alloc)
}

/// Any bytes, whose lossy text is UTF-8.
pub fn lossy_is_text(raw: &[u8])
    ensures { IsUtf8 (utf8_lossy raw.now) }
{
    wtf8_core::laws::lossy_text();
}

/// WTF-8 bytes, whose lossy text by surrogates is UTF-8.
pub fn wtf8_lossy_is_text(raw: &[u8])
    requires { IsWtf8 raw.now }
    ensures { IsUtf8 (wtf8_lossy raw.now) }
{
    wtf8_core::laws::lossy_text();
}

/// A text that occurs in a string, cut out of it.
pub fn cut_out<'a, E: Platform + 'a>(string: OsStr<'a, E>, text: &str, at: usize) -> OsStr<'a, E>
    requires some { 0 < length text.now }
    requires occurs { OccursAt text.now (bytes string) at }
    ensures { bytes result ≡ text.now }
{
    wtf8_core::laws::boundaries();
    string.index(at..at + text.len())
}
