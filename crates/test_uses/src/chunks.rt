//! Chunks: one list of them, joined the string; parts and their units.
ghost use Rattle.std.specs.Prelude.{◌≡◌, ◌↔◌, ◌≤◌, [], ◌∷◌, ◌++◌, ℕ, List, IfOk, IsSomeAnd, IsTrue, Some, map};
ghost use Rattle.std.specs.List.{All, flat_map};
ghost use Rattle.std.specs.Cmp.Lexicographic.{slice_cmp};
ghost use Rattle.std.specs.Ordering.{nat_cmp};
ghost use Rattle.wtf8_core.specs.Chunks.{Chunk, AreChunks};
ghost use Rattle.wtf8_core.specs.Covered.{HasNoCharacter};
ghost use Rattle.wtf8_core.specs.PartUnits.{unit_bytes, AreLoneSurrogates};
ghost use Rattle.wtf8_core.specs.Runs.{AreRuns, form_chunk};
ghost use Rattle.wtf8_core.specs.Wtf8.{Encodes};
ghost use Rattle.platform_str.specs.PlatformWords.{AreWideUnits};
ghost use Rattle.platform_str.specs.Strings.{bytes};
ghost use Rattle.os_str_ext.specs.Chunks.{IsChunkOf};
ghost use Rattle.os_str_ext.specs.Parts.{part_bytes, unit_number};

use crate::texts::is_text;
use os_str_ext::{
    NonUnicodeOsStr, OsStrBytesExt, OsUnit, OsUnits, Unix, Utf8Chunks, Wasm, Windows, chunk_laws,
    part_laws,
};
use platform_str::{OsStr, Platform};
use std::alloc::{AllocError, Allocator};
use std::cmp::Ordering;

/// The chunks of a string.
pub(crate) fn utf8_chunks<'a, E: Platform + 'a>(string: OsStr<'a, E>) -> Utf8Chunks<'a, E>
    ensures chunks { AreChunks (bytes string.entry) result }
{
    string.utf8_chunks()
}

/// Returns the chunks of a string with known chunks, which are those.
pub fn chunks_say<'a, E: Platform + 'a>(
    string: OsStr<'a, E>,
    known: Utf8Chunks<'a, E>,
) -> Utf8Chunks<'a, E>
    requires { AreChunks (bytes string) known }
    ensures { result ≡ known.entry }
{
    wtf8_core::laws::chunks();
    utf8_chunks(string)
}

/// Any bytes have chunks.
pub fn has_chunks(raw: &[u8])
    ensures { (chunks : List Chunk) × AreChunks raw.now chunks }
{
    wtf8_core::laws::chunks();
}

/// The chunks of a Windows string: the maximal runs of surrogates of the code points that it
/// encodes, each with the scalar values after it.
pub fn runs<'a>(string: OsStr<'a, Windows>, code_points: &[u32]) -> Utf8Chunks<'a, Windows>
    requires { Encodes (bytes string) code_points.now }
    ensures { (runs : List Chunk) × (AreRuns code_points.now runs
        × (result ≡ map form_chunk runs)) }
{
    wtf8_core::laws::chunks();
    utf8_chunks(string)
}

/// The chunks of a string, joined again, which are the string.
pub fn rejoined<'a, E: Platform + 'a, A: Allocator>(
    alloc: A,
    string: OsStr<'a, E>,
) -> Result<Vec<u8, A>, AllocError>
    ensures { IfOk result (λ all. all.items ≡ bytes string.entry) }
{
    let mut all = Vec::new(alloc);
    for (part, text) in utf8_chunks(string) {
        all.extend_from_slice(part.as_os_str().as_encoded_bytes())?;
        all.extend_from_slice(text.as_bytes())?;
    }
    Ok(all)
}

/// The next chunk of those that are left, which is the first of them.
pub fn next_chunk<'a, E: Platform + 'a>(
    chunks: &mut Utf8Chunks<'a, E>,
) -> Option<(NonUnicodeOsStr<'a, E>, &'a str)>
    ensures { (chunk : Chunk) → (rest : List Chunk) → chunks.old ≡ chunk ∷ rest
        → IsSomeAnd result (λ next. (part_bytes next.0 ≡ chunk.0) × (next.1.now ≡ chunk.1)) }
{
    chunks.next()
}

/// The chunks of a string: each a string without whole characters and a text, not both empty.
pub fn each_chunk<'a, E: Platform + 'a>(string: OsStr<'a, E>) -> Utf8Chunks<'a, E>
    ensures { All (IsChunkOf E.well_formed) result }
{
    chunk_laws::each_chunk::<E>();
    utf8_chunks(string)
}

/// The chunks of a string, whose units joined are the string's.
pub fn rejoined_in_units<'a, E: Platform + 'a>(string: OsStr<'a, E>) -> Utf8Chunks<'a, E>
    ensures { flat_map (λ chunk. E.units chunk.0 ++ E.units chunk.1) result
        ≡ E.units (bytes string.entry) }
{
    chunk_laws::chunk_units::<E>();
    utf8_chunks(string)
}

/// The chunks of a string, and whether it is a text: exactly where each of its parts is empty.
pub fn text_without_parts<'a, E: Platform + 'a>(string: OsStr<'a, E>) -> (Utf8Chunks<'a, E>, bool)
    ensures { IsTrue result.1 ↔ All (λ chunk. chunk.0 ≡ []) result.0 }
{
    chunk_laws::text_without_parts();
    (utf8_chunks(string), is_text(string))
}

/// A string without whole characters, whose bytes are those of its units.
pub fn uncovered_units<'a, E: Platform + 'a>(string: OsStr<'a, E>) -> OsStr<'a, E>
    requires { HasNoCharacter (bytes string) }
    ensures encoded { bytes result ≡ flat_map unit_bytes (E.units (bytes result)) }
    ensures kind { E.part_units (E.units (bytes result)) }
    ensures wide { AreWideUnits (E.units (bytes result)) }
{
    platform_str::laws::parts::<E>();
    string
}

/// The units of a part on Windows: surrogates, no high one before a low one.
pub fn lone_surrogates<'a>(part: NonUnicodeOsStr<'a, Windows>) -> OsUnits<'a, Windows>
    ensures { AreLoneSurrogates result }
{
    part.os_units()
}

/// Returns the units of a part on Unix. They are its bytes, and none is ASCII.
pub fn no_ascii<'a>(part: NonUnicodeOsStr<'a, Unix>) -> OsUnits<'a, Unix>
    ensures same { result ≡ part_bytes part.entry }
    ensures above { All (λ u. 0x80 ≤ u) result }
{
    part.os_units()
}

/// Whether a part on wasm is empty: it always is.
pub fn no_part<'a>(part: NonUnicodeOsStr<'a, Wasm>) -> bool
    ensures { IsTrue result }
{
    let _units = part.os_units();
    part.as_os_str().is_empty()
}

/// Whether two parts are equal: exactly where their bytes are.
pub fn same_part<'a, E: Platform + 'a>(a: NonUnicodeOsStr<'a, E>, b: NonUnicodeOsStr<'a, E>) -> bool
    ensures { IsTrue result ↔ (part_bytes a.entry ≡ part_bytes b.entry) }
{
    part_laws::part_comparisons(&a, &b);
    a == b
}

/// How two parts are ordered: as their bytes are.
pub fn part_order<'a, E: Platform + 'a>(
    a: NonUnicodeOsStr<'a, E>,
    b: NonUnicodeOsStr<'a, E>,
) -> (Ordering, Option<Ordering>)
    ensures order { result.0 ≡ slice_cmp nat_cmp (part_bytes a.entry) (part_bytes b.entry) }
    ensures partial_order { result.1 ≡ Some result.0 }
{
    part_laws::part_comparisons(&a, &b);
    (a.cmp(&b), a.partial_cmp(&b))
}

/// Whether two units are equal: exactly where their numbers are.
pub fn same_unit(a: OsUnit, b: OsUnit) -> bool
    ensures { IsTrue result ↔ (unit_number a ≡ unit_number b) }
{
    part_laws::unit_comparisons(&a, &b);
    a == b
}

/// How two units are ordered: as their numbers are.
pub fn unit_order(a: OsUnit, b: OsUnit) -> (Ordering, Option<Ordering>)
    ensures order { result.0 ≡ nat_cmp (unit_number a) (unit_number b) }
    ensures partial_order { result.1 ≡ Some result.0 }
{
    part_laws::unit_comparisons(&a, &b);
    (a.cmp(&b), a.partial_cmp(&b))
}
