//! What was built in memory of its own, in a buffer that may be too short for it.
ghost use Rattle.std.specs.Prelude.{◌∷◌, [], length};
ghost use Rattle.wtf8_core.specs.Truncated.{IsTruncated};
ghost use Rattle.osbytes_c.specs.Answers.{IsDone, IsOneOf};
ghost use Rattle.osbytes_c.specs.Statuses.{done, no_room};

use crate::status::fits;
use wtf8_core::push_truncated;

/// Writes a list into `out`, as far as there is room, and counts it.
#[inline(always)]
#[tactic(auto, using(wtf8_core::proofs::lemmas::buffers::Truncated::none_yet))]
pub(crate) fn write_list(list: &[u8], out: &mut [u8], count: &mut usize) -> u32
    ensures written { IsDone result (IsTruncated list.now out.old out.new count.new)
        (length out.old) count.new }
    ensures answers { IsOneOf (done ∷ no_room ∷ []) result }
{
    let written = push_truncated(out, 0, list);
    *count = written;
    fits(written, out.len())
}
