//! For trying: what a caller of one step concludes from its contract and the laws of whole walks.
ghost use Rattle.std.specs.Prelude.{◌≡◌, ◌<◌, ◌≤◌, true, [], ◌∷◌, drop, length, IfSome};
ghost use Rattle.wtf8_core.specs.Chunks.{Chunk, AreChunks};
ghost use Rattle.os_str_ext.specs.Pieces.{IsSplit, IsRSplit};
ghost use Rattle.os_str_ext.specs.Symbols.{AreSymbols};
ghost use Rattle.os_str_ext.specs.declared.symbols.Symbol.{Symbol};
ghost use Rattle.osbytes_c.specs.Faults.{IsString};
ghost use Rattle.osbytes_c.specs.Platforms.{units_on};

use crate::laws::{chunk_walks, split_walks, symbol_walks};
use crate::status::DONE;
use crate::walks::chunks::{Ends, osb_core_chunk};
use crate::walks::split::{Piece, osb_core_cut, osb_core_rcut};
use crate::walks::symbols::{Step, osb_core_symbol};

/// What no piece was written to.
fn no_piece() -> Piece {
    Piece {
        edge: 0,
        rest: 0,
        last: false,
    }
}

/// What no symbol was written to.
fn no_step() -> Step {
    Step {
        kind: 0,
        value: 0,
        end: 0,
    }
}

/// Whether the first piece of a string is the last one, too: then it is the whole string.
pub fn is_one_piece(bytes: &[u8], pattern: &[u8]) -> bool
    ensures { result ≡ true → IsSplit pattern.now bytes.now (bytes.now ∷ []) }
{
    split_walks();
    let mut piece = no_piece();
    if osb_core_cut(bytes, pattern, 0, &mut piece) == DONE {
        piece.last
    } else {
        false
    }
}

/// Whether the first piece from the end is the last one, too: then it is the whole string.
pub fn is_one_piece_from_end(bytes: &[u8], pattern: &[u8]) -> bool
    ensures { result ≡ true → IsRSplit pattern.now bytes.now (bytes.now ∷ []) }
{
    split_walks();
    let mut piece = no_piece();
    if osb_core_rcut(bytes, pattern, bytes.len(), &mut piece) == DONE {
        piece.last
    } else {
        false
    }
}

/// Whether a string has one chunk.
pub fn is_one_chunk(bytes: &[u8]) -> bool
    ensures { result ≡ true → (chunk : Chunk) × AreChunks bytes.now (chunk ∷ []) }
{
    chunk_walks();
    let mut ends = Ends { part: 0, text: 0 };
    if osb_core_chunk(bytes, 0, &mut ends) == DONE {
        ends.text == bytes.len()
    } else {
        false
    }
}

/// Whether a string of a platform has one symbol.
pub fn is_one_symbol(platform: u32, bytes: &[u8]) -> bool
    ensures { result ≡ true → IsString platform bytes.now → (symbol : Symbol)
        × AreSymbols (units_on platform) bytes.now (symbol ∷ []) }
{
    symbol_walks();
    let mut step = no_step();
    if osb_core_symbol(platform, bytes, 0, &mut step) == DONE {
        step.end == bytes.len()
    } else {
        false
    }
}

/// Where the symbol ends that comes after an index of a string of a platform.
pub fn symbol_end(platform: u32, bytes: &[u8], at: usize) -> Option<usize>
    ensures within { IfSome result (λ end. (at < end) × (end ≤ length bytes.now)) }
    ensures rest { IfSome result (λ end. IsString platform (drop at bytes.now)
        → IsString platform (drop end bytes.now)) }
{
    let mut step = no_step();
    if osb_core_symbol(platform, bytes, at, &mut step) == DONE {
        Some(step.end)
    } else {
        None
    }
}
