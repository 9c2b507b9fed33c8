//! Many pieces of a split at once.
ghost use Rattle.std.specs.Prelude.{◌≡◌, ◌≤◌, ◌<◌, ◌+◌, ◌^◌, ◌↔◌, ◌∷◌, [], length};
ghost use Rattle.osbytes_c.specs.Answers.{IsOneOf};
ghost use Rattle.osbytes_c.specs.Fills.{Fills, IsOutside, LastPieceViews, PieceViews};
ghost use Rattle.osbytes_c.specs.Steps.{IsNoPattern};
ghost use Rattle.osbytes_c.specs.Statuses.{done, no_index, no_pattern};

use crate::status::{DONE, NO_INDEX, NO_PATTERN};
use crate::walks::split::{first_edge, last_edge, pattern_text};
use crate::walks::view::{Filled, View, is_outside};

/// Fills `out` with the next pieces of a split of a string that begins at this address: those of
/// what comes after an index, as many as there is room for.
#[unsafe(no_mangle)]
pub extern "C" fn osb_core_split_fill(
    bytes: &[u8],
    pattern: &[u8],
    at: usize,
    address: usize,
    out: &mut [View],
    filled: &mut Filled,
) -> u32
    ensures pieces { result ≡ done → Fills (PieceViews pattern.now bytes.now address at) out.old
        out.new filled.new }
    ensures index { (result ≡ no_index) ↔ IsOutside address at bytes.now }
    ensures pattern { (result ≡ no_pattern) ↔ ((¬ (IsOutside address at bytes.now))
        × IsNoPattern pattern.now) }
    ensures answers { IsOneOf (done ∷ no_index ∷ no_pattern ∷ []) result }
{
    if is_outside(bytes, at, address) {
        return NO_INDEX;
    }
    let Some(text) = pattern_text(pattern) else {
        return NO_PATTERN;
    };
    *filled = fill_from_start(bytes, text, at, address, out);
    DONE
}

/// Fills an array with pieces from the end: the pieces of what comes before an index.
#[unsafe(no_mangle)]
pub extern "C" fn osb_core_rsplit_fill(
    bytes: &[u8],
    pattern: &[u8],
    at: usize,
    address: usize,
    out: &mut [View],
    filled: &mut Filled,
) -> u32
    ensures pieces { result ≡ done → Fills (LastPieceViews pattern.now bytes.now address at) out.old
        out.new filled.new }
    ensures index { (result ≡ no_index) ↔ IsOutside address at bytes.now }
    ensures pattern { (result ≡ no_pattern) ↔ ((¬ (IsOutside address at bytes.now))
        × IsNoPattern pattern.now) }
    ensures answers { IsOneOf (done ∷ no_index ∷ no_pattern ∷ []) result }
{
    if is_outside(bytes, at, address) {
        return NO_INDEX;
    }
    let Some(text) = pattern_text(pattern) else {
        return NO_PATTERN;
    };
    *filled = fill_from_end(bytes, text, at, address, out);
    DONE
}

/// Fills `out` with the pieces after an index.
#[inline(always)]
fn fill_from_start(
    bytes: &[u8],
    pattern: &str,
    at: usize,
    address: usize,
    out: &mut [View],
) -> Filled
    requires within { at ≤ length bytes.now }
    requires address { address + length bytes.now < 2 ^ 64 }
    requires some { 0 < length pattern.now }
    ensures { Fills (PieceViews pattern.now bytes.now address at) out.old out.new result }
{
    let mut next = at;
    let mut count = 0;
    while count < out.len() {
        let Some(edge) = first_edge(bytes, pattern, next) else {
            out[count] = View {
                at: address + next,
                len: bytes.len() - next,
            };
            return Filled {
                count: count + 1,
                next: bytes.len(),
                ended: true,
            };
        };
        out[count] = View {
            at: address + next,
            len: edge - next,
        };
        count += 1;
        next = edge + pattern.len();
    }
    Filled {
        count,
        next,
        ended: false,
    }
}

/// Fills `out` with the pieces before an index, from the last one on.
#[inline(always)]
fn fill_from_end(bytes: &[u8], pattern: &str, at: usize, address: usize, out: &mut [View]) -> Filled
    requires within { at ≤ length bytes.now }
    requires address { address + length bytes.now < 2 ^ 64 }
    requires some { 0 < length pattern.now }
    ensures { Fills (LastPieceViews pattern.now bytes.now address at) out.old out.new result }
{
    let mut next = at;
    let mut count = 0;
    while count < out.len() {
        let Some((edge, rest)) = last_edge(bytes, pattern, next) else {
            out[count] = View {
                at: address,
                len: next,
            };
            return Filled {
                count: count + 1,
                next: 0,
                ended: true,
            };
        };
        out[count] = View {
            at: address + edge,
            len: next - edge,
        };
        count += 1;
        next = rest;
    }
    Filled {
        count,
        next,
        ended: false,
    }
}
