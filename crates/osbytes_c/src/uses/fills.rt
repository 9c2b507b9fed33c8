//! For trying: what a caller concludes from the contracts of the calls that fill arrays.
ghost use Rattle.std.specs.Prelude.{◌≡◌, ◌++◌, IfSome, length, map, take, true};
ghost use Rattle.wtf8_core.specs.Chunks.{AreChunks};
ghost use Rattle.os_str_ext.specs.Pieces.{IsSplit, IsRSplit};
ghost use Rattle.osbytes_c.specs.ChunkFills.{viewed_chunk};
ghost use Rattle.osbytes_c.specs.Fills.{viewed};
ghost use Rattle.osbytes_c.specs.SymbolFills.{AreSymbolsOf, IsStuck};

use crate::status::DONE;
use crate::walks::chunks_fill::{ChunkView, osb_core_chunks_fill};
use crate::walks::fill_laws::{filled_chunks, filled_splits, filled_symbols};
use crate::walks::split_fill::{osb_core_rsplit_fill, osb_core_split_fill};
use crate::walks::symbols_fill::{SymbolView, osb_core_symbols_fill};
use crate::walks::view::{Filled, View};

/// What nothing was filled with.
fn nothing_filled() -> Filled {
    Filled {
        count: 0,
        next: 0,
        ended: false,
    }
}

/// Writes the pieces of a split into two arrays, one after the other, and counts them, if both have
/// room for all and the first has not.
pub fn split_into_two(
    bytes: &[u8],
    pattern: &[u8],
    first: &mut [View],
    second: &mut [View],
) -> Option<(usize, usize)>
    ensures { IfSome result (λ counts. IsSplit pattern.now bytes.now
        (map (viewed 0 bytes.now) (take counts.0 first.new)
        ++ map (viewed 0 bytes.now) (take counts.1 second.new))) }
{
    filled_splits();
    let mut before = nothing_filled();
    if osb_core_split_fill(bytes, pattern, 0, 0, first, &mut before) != DONE || before.ended {
        return None;
    }
    let mut after = nothing_filled();
    if osb_core_split_fill(bytes, pattern, before.next, 0, second, &mut after) != DONE {
        return None;
    }
    if after.ended {
        Some((before.count, after.count))
    } else {
        None
    }
}

/// Writes the pieces of a split from the end into two arrays, as `split_into_two` does from the
/// start.
pub fn rsplit_into_two(
    bytes: &[u8],
    pattern: &[u8],
    first: &mut [View],
    second: &mut [View],
) -> Option<(usize, usize)>
    ensures { IfSome result (λ counts. IsRSplit pattern.now bytes.now
        (map (viewed 0 bytes.now) (take counts.0 first.new)
        ++ map (viewed 0 bytes.now) (take counts.1 second.new))) }
{
    filled_splits();
    let mut before = nothing_filled();
    if osb_core_rsplit_fill(bytes, pattern, bytes.len(), 0, first, &mut before) != DONE
        || before.ended
    {
        return None;
    }
    let mut after = nothing_filled();
    if osb_core_rsplit_fill(bytes, pattern, before.next, 0, second, &mut after) != DONE {
        return None;
    }
    if after.ended {
        Some((before.count, after.count))
    } else {
        None
    }
}

/// Writes the chunks of a string into an array and counts them, if there is room for all and one at
/// least.
pub fn chunks_in(bytes: &[u8], out: &mut [ChunkView]) -> Option<usize>
    ensures { IfSome result (λ count. AreChunks bytes.now
        (map (viewed_chunk 0 bytes.now) (take count out.new))) }
{
    filled_chunks();
    let mut filled = nothing_filled();
    if osb_core_chunks_fill(bytes, 0, 0, out, &mut filled) == DONE && filled.ended {
        Some(filled.count)
    } else {
        None
    }
}

/// Writes the symbols of a string of a platform into an array and counts them, if there is room for
/// all and one at least.
pub fn symbols_in(platform: u32, bytes: &[u8], out: &mut [SymbolView]) -> Option<usize>
    ensures { IfSome result (λ count. AreSymbolsOf platform bytes.now (take count out.new)) }
{
    filled_symbols();
    let mut filled = nothing_filled();
    if osb_core_symbols_fill(platform, bytes, 0, 0, out, &mut filled) == DONE && filled.ended {
        Some(filled.count)
    } else {
        None
    }
}

/// Whether an array isn't filled, since no symbol of a platform begins where there is still room
/// for one.
pub fn is_stuck(platform: u32, bytes: &[u8], out: &mut [SymbolView]) -> bool
    ensures { result ≡ true → IsStuck platform bytes.now 0 0 (length out.old) }
{
    let mut filled = nothing_filled();
    osb_core_symbols_fill(platform, bytes, 0, 0, out, &mut filled) == 1
}
