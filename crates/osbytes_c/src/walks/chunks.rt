//! One chunk of a string.
ghost use Rattle.std.specs.Prelude.{◌≡◌, ◌<◌, ◌≤◌, ◌↔◌, ◌∷◌, [], length, MatchOption, IfSome};
ghost use Rattle.osbytes_c.specs.Answers.{IsOneOf};
ghost use Rattle.osbytes_c.specs.Steps.{IsChunkAt};
ghost use Rattle.osbytes_c.specs.Statuses.{done, ended, no_index};

use crate::status::{DONE, ENDED, NO_INDEX};
use crate::strings::unix;
use os_str_ext::OsStrBytesExt;

/// Where a chunk's part ends, and where its text does.
#[repr(C)]
#[derive(Clone, Copy)]
pub struct Ends {
    /// The index after the part's last byte.
    pub part: usize,
    /// The index after the text's last byte.
    pub text: usize,
}

/// The first chunk of what comes after an index.
#[unsafe(no_mangle)]
pub extern "C" fn osb_core_chunk(bytes: &[u8], at: usize, ends: &mut Ends) -> u32
    ensures chunk { result ≡ done → IsChunkAt bytes.now at ends.new }
    ensures index { (result ≡ no_index) ↔ (length bytes.now < at) }
    ensures ended { (result ≡ ended) ↔ (at ≡ length bytes.now) }
    ensures answers { IsOneOf (done ∷ no_index ∷ ended ∷ []) result }
{
    if at > bytes.len() {
        return NO_INDEX;
    }
    let Some(found) = chunk_after(bytes, at) else {
        return ENDED;
    };
    *ends = found;
    DONE
}

/// The first chunk of what comes after an index, or `None` at the end.
#[inline(always)]
pub(crate) fn chunk_after(bytes: &[u8], at: usize) -> Option<Ends>
    requires { at ≤ length bytes.now }
    ensures chunk { MatchOption result (at ≡ length bytes.now)
        (λ ends. IsChunkAt bytes.now at ends) }
    ensures ended { IfSome result (λ _. at < length bytes.now) }
{
    if at == bytes.len() {
        return None;
    }
    let (_, rest) = bytes.split_at(at);
    let mut chunks = unix(rest).utf8_chunks();
    let Some((part, _)) = chunks.next() else {
        return None;
    };
    Some(Ends {
        part: at + part.as_os_str().len(),
        text: bytes.len() - chunks.rest().len(),
    })
}
