//! Many chunks of a string at once.
ghost use Rattle.std.specs.Prelude.{◌≡◌, ◌≤◌, ◌<◌, ◌+◌, ◌^◌, ◌↔◌, ◌∷◌, [], length};
ghost use Rattle.osbytes_c.specs.Answers.{IsOneOf};
ghost use Rattle.osbytes_c.specs.ChunkFills.{ChunkViews};
ghost use Rattle.osbytes_c.specs.Fills.{Fills, IsOutside};
ghost use Rattle.osbytes_c.specs.Statuses.{done, ended, no_index};

use crate::status::{DONE, ENDED, NO_INDEX};
use crate::walks::chunks::chunk_after;
use crate::walks::view::{Filled, View, is_outside};

/// A chunk: its part, and its text.
#[repr(C)]
#[derive(Clone, Copy)]
pub struct ChunkView {
    /// The bytes of the part.
    pub part: View,
    /// The bytes of the text.
    pub text: View,
}

/// Fills `out` with the next chunks of a string that begins at this address: those of what comes
/// after an index, as many as there is room for.
#[unsafe(no_mangle)]
pub extern "C" fn osb_core_chunks_fill(
    bytes: &[u8],
    at: usize,
    address: usize,
    out: &mut [ChunkView],
    filled: &mut Filled,
) -> u32
    ensures chunks { result ≡ done → Fills (ChunkViews bytes.now address at) out.old out.new
        filled.new }
    ensures index { (result ≡ no_index) ↔ IsOutside address at bytes.now }
    ensures ended { (result ≡ ended) ↔ ((¬ (IsOutside address at bytes.now))
        × (at ≡ length bytes.now)) }
    ensures answers { IsOneOf (done ∷ no_index ∷ ended ∷ []) result }
{
    if is_outside(bytes, at, address) {
        return NO_INDEX;
    }
    if at == bytes.len() {
        return ENDED;
    }
    *filled = fill_chunks(bytes, at, address, out);
    DONE
}

/// Fills `out` with the chunks after an index.
#[inline(always)]
fn fill_chunks(bytes: &[u8], at: usize, address: usize, out: &mut [ChunkView]) -> Filled
    requires within { at ≤ length bytes.now }
    requires address { address + length bytes.now < 2 ^ 64 }
    ensures { Fills (ChunkViews bytes.now address at) out.old out.new result }
{
    let mut next = at;
    let mut count = 0;
    while count < out.len() {
        let Some(ends) = chunk_after(bytes, next) else {
            return Filled {
                count,
                next,
                ended: true,
            };
        };
        out[count] = ChunkView {
            part: View {
                at: address + next,
                len: ends.part - next,
            },
            text: View {
                at: address + ends.part,
                len: ends.text - ends.part,
            },
        };
        count += 1;
        next = ends.text;
    }
    Filled {
        count,
        next,
        ended: next == bytes.len(),
    }
}
