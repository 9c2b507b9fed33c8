//! Chunks.
ghost use Rattle.std.specs.Prelude.{◌≡◌, ◌<◌, [], IfSome, IsSome, length};
ghost use Rattle.platform_str.specs.Strings.{bytes};

use os_str_ext::OsStrBytesExt;
use platform_str::{OsStr, Platform};

/// The bytes of the first chunk's part and its text, which is empty only where nothing follows.
#[tactic(auto, using(crate::proofs::FirstChunk::part_is_whole))]
pub fn first_chunk<'a, E: Platform + 'a>(string: OsStr<'a, E>) -> Option<(&'a [u8], &'a str)>
    ensures some { 0 < length (bytes string.entry) → IsSome result }
    ensures last { IfSome result (λ chunk. chunk.1.now ≡ [] → chunk.0.now ≡ bytes string.entry) }
{
    let mut chunks = string.utf8_chunks();
    let (part, text) = chunks.next()?;
    Some((part.as_os_str().as_encoded_bytes(), text))
}
