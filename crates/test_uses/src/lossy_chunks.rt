//! Lossy texts by chunks: the texts of the chunks, with U+FFFD in place of the parts.
ghost use Rattle.std.specs.Prelude.{IfOk};
ghost use Rattle.platform_str.specs.Cows.{str_cow_bytes};
ghost use Rattle.test_uses.specs.TextsBetween.{AreTextsBetween, ReplacesNoCharacter};

use crate::chunks::utf8_chunks;
use os_str_ext::{Utf8Chunks, chunk_laws};
use platform_str::{OsStr, OsStrBytes, Platform, StrCow, Unix, Wasm, Windows, laws};
use std::alloc::{AllocError, Global};

/// The chunks of a string and its lossy text, which is the texts of the chunks, with U+FFFD in place
/// of the part before each: on a platform where no U+FFFD replaces a whole character.
pub fn texts_between<'a, E: Platform + 'a>(
    alloc: Global,
    string: OsStr<'a, E>,
) -> Result<(Utf8Chunks<'a, E>, StrCow<'a>), AllocError>
    requires { ReplacesNoCharacter E.well_formed E.lossy }
    ensures { IfOk result (λ both. AreTextsBetween both.0 (str_cow_bytes both.1)) }
{
    wtf8_core::laws::forms();
    wtf8_core::laws::characters();
    wtf8_core::laws::boundaries();
    wtf8_core::laws::cuts();
    laws::lossy_texts::<E>();
    laws::cuts::<E>();
    chunk_laws::each_chunk::<E>();
    Ok((utf8_chunks(string), string.to_string_lossy(alloc)?))
}

/// Returns the chunks of a Unix string and its lossy text, as `texts_between` does.
pub fn texts_between_on_unix<'a>(
    alloc: Global,
    string: OsStr<'a, Unix>,
) -> Result<(Utf8Chunks<'a, Unix>, StrCow<'a>), AllocError>
    ensures { IfOk result (λ both. AreTextsBetween both.0 (str_cow_bytes both.1)) }
{
    wtf8_core::laws::forms();
    wtf8_core::laws::characters();
    wtf8_core::laws::lossy_text();
    wtf8_core::laws::ill_formed_parts();
    laws::lossy_texts::<Unix>();
    texts_between(alloc, string)
}

/// Returns the chunks of a Windows string and its lossy text, as `texts_between` does.
pub fn texts_between_on_windows<'a>(
    alloc: Global,
    string: OsStr<'a, Windows>,
) -> Result<(Utf8Chunks<'a, Windows>, StrCow<'a>), AllocError>
    ensures { IfOk result (λ both. AreTextsBetween both.0 (str_cow_bytes both.1)) }
{
    wtf8_core::laws::characters();
    laws::lossy_texts::<Windows>();
    laws::cuts::<Windows>();
    texts_between(alloc, string)
}

/// Returns the chunks of a wasm string and its lossy text, as `texts_between` does.
pub fn texts_between_on_wasm<'a>(
    alloc: Global,
    string: OsStr<'a, Wasm>,
) -> Result<(Utf8Chunks<'a, Wasm>, StrCow<'a>), AllocError>
    ensures { IfOk result (λ both. AreTextsBetween both.0 (str_cow_bytes both.1)) }
{
    wtf8_core::laws::forms();
    texts_between(alloc, string)
}
