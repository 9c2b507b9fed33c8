//! The laws of chunks.
//!
//! Each law is the contract of a function that does nothing.
ghost use Rattle.std.specs.Prelude.{◌≡◌, ◌↔◌, [], ◌++◌, ℕ, List};
ghost use Rattle.std.specs.{List.All, List.flat_map, Str.IsUtf8};
ghost use Rattle.wtf8_core.specs.Chunks.{Chunk, AreChunks};
ghost use Rattle.os_str_ext.specs.Chunks.{IsChunkOf};

use platform_str::Platform;

/// Each chunk of a string is a string without whole characters and then a `str`, not both empty.
pub fn each_chunk<E: Platform>()
    ensures { (s : List ℕ) → E.well_formed s → (chunks : List Chunk) → AreChunks s chunks
        → All (IsChunkOf E.well_formed) chunks }
{}

/// The units of the chunks of a string, joined, are the string's: of each chunk those of its part,
/// then those of its text.
pub fn chunk_units<E: Platform>()
    ensures { (s : List ℕ) → E.well_formed s → (chunks : List Chunk) → AreChunks s chunks
        → flat_map (λ c. E.units c.0 ++ E.units c.1) chunks ≡ E.units s }
{}

/// Bytes are UTF-8 exactly where each part of their chunks is empty.
#[tactic(auto, using(crate::proofs::lemmas::ChunkUnits::text_without_parts))]
pub fn text_without_parts()
    ensures { (s : List ℕ) → (chunks : List Chunk) → AreChunks s chunks
        → (IsUtf8 s ↔ All (λ c. c.0 ≡ []) chunks) }
{}
