//! Many symbols of a string at once.
ghost use Rattle.std.specs.Prelude.{◌≡◌, ◌≤◌, ◌<◌, ◌+◌, ◌^◌, ◌↔◌, ◌∷◌, [], ℕ, length, drop, IfNone, IfSome, MatchOption};
ghost use Rattle.osbytes_c.specs.Answers.{IsOneOf};
ghost use Rattle.osbytes_c.specs.Faults.{IsUnstring};
ghost use Rattle.osbytes_c.specs.Fills.{Fills, IsOutside};
ghost use Rattle.osbytes_c.specs.SymbolFills.{IsStuck, IsSymbolStep, ShowsSymbol, SymbolViews};
ghost use Rattle.osbytes_c.specs.Steps.{StartsWithNoSymbol};
ghost use Rattle.osbytes_c.specs.Statuses.{done, ended, faulty, no_index, no_platform};

use crate::status::{DONE, ENDED, FAULTY, NO_INDEX, NO_PLATFORM};
use crate::walks::symbols::{Step, symbol_after};
use crate::walks::view::{Filled, View, is_outside};

/// A symbol, and where it is.
#[repr(C)]
#[derive(Clone, Copy)]
pub struct SymbolView {
    /// 1 a character, 2 a unit of what isn't text.
    pub kind: u32,
    /// The character, or the unit's number.
    pub value: u32,
    /// Its bytes.
    pub bytes: View,
}

/// Fills `out` with the next symbols of a string that begins at this address: those of what comes
/// after an index, as many as there is room for, if that is a string of the platform.
#[unsafe(no_mangle)]
pub extern "C" fn osb_core_symbols_fill(
    platform: u32,
    bytes: &[u8],
    at: usize,
    address: usize,
    out: &mut [SymbolView],
    filled: &mut Filled,
) -> u32
    ensures symbols { result ≡ done → Fills (SymbolViews platform bytes.now address at) out.old
        out.new filled.new }
    ensures fault { result ≡ faulty → IsUnstring platform (drop at bytes.now) }
    ensures stuck { result ≡ faulty → IsStuck platform bytes.now address at (length out.old) }
    ensures index { (result ≡ no_index) ↔ ((platform ≤ 2) × IsOutside address at bytes.now) }
    ensures ended { (result ≡ ended) ↔ ((platform ≤ 2) × ((¬ (IsOutside address at bytes.now))
        × (at ≡ length bytes.now))) }
    ensures platform { (result ≡ no_platform) ↔ (2 < platform) }
    ensures answers { IsOneOf (done ∷ faulty ∷ no_index ∷ ended ∷ no_platform ∷ []) result }
{
    if platform > 2 {
        return NO_PLATFORM;
    }
    if is_outside(bytes, at, address) {
        return NO_INDEX;
    }
    if at == bytes.len() {
        return ENDED;
    }
    let Some(all) = fill_symbols(platform, bytes, at, address, out) else {
        return FAULTY;
    };
    *filled = all;
    DONE
}

/// Fills `out` with the symbols after an index; `None` if the bytes there aren't a string of the
/// platform.
#[inline(always)]
fn fill_symbols(
    platform: u32,
    bytes: &[u8],
    at: usize,
    address: usize,
    out: &mut [SymbolView],
) -> Option<Filled>
    requires known { platform ≤ 2 }
    requires within { at ≤ length bytes.now }
    requires address { address + length bytes.now < 2 ^ 64 }
    ensures fills { MatchOption result (IsUnstring platform (drop at bytes.now))
        (λ filled. Fills (SymbolViews platform bytes.now address at) out.old out.new filled) }
    ensures stuck { IfNone result (IsStuck platform bytes.now address at (length out.old)) }
{
    let mut next = at;
    let mut count = 0;
    while next < bytes.len() && count < out.len() {
        let Some(step) = write_symbol(platform, bytes, next, address, &mut out[count]) else {
            return None;
        };
        count += 1;
        next = step.end;
    }
    Some(Filled {
        count,
        next,
        ended: next == bytes.len(),
    })
}

/// Writes the symbol after an index; `None` if the bytes there aren't a string of the platform.
///
/// ASCII is written apart, with a kind and a length that the compiler knows: so arrays of any
/// symbols take 0.75 to 0.92 of the time.
#[inline(always)]
fn write_symbol(
    platform: u32,
    bytes: &[u8],
    at: usize,
    address: usize,
    out: &mut SymbolView,
) -> Option<Step>
    requires known { platform ≤ 2 }
    requires within { at < length bytes.now }
    requires address { address + length bytes.now < 2 ^ 64 }
    ensures symbol { MatchOption result (IsUnstring platform (drop at bytes.now))
        (λ step. IsSymbolStep platform bytes.now at step) }
    ensures none { IfNone result (StartsWithNoSymbol platform (drop at bytes.now)) }
    ensures shown { IfSome result (λ step. ShowsSymbol address at step out.new) }
{
    if let Some(step) = ascii_after(bytes, at) {
        *out = view_of(step, at, address);
        return Some(step);
    }
    let Some(step) = symbol_after(platform, bytes, at) else {
        return None;
    };
    *out = view_of(step, at, address);
    Some(step)
}

/// The symbol after an index, if it is a character of ASCII.
#[inline(always)]
fn ascii_after(bytes: &[u8], at: usize) -> Option<Step>
    requires { at < length bytes.now }
    ensures { IfSome result (λ step. (platform : ℕ) → IsSymbolStep platform bytes.now at step) }
{
    let byte = bytes[at];
    if byte < 0x80 {
        Some(Step {
            kind: 1,
            value: u32::from(byte),
            end: at + 1,
        })
    } else {
        None
    }
}

/// The symbol after an index, as an array has it.
#[inline(always)]
fn view_of(step: Step, at: usize, address: usize) -> SymbolView
    requires some { at < step.end }
    requires address { address + at < 2 ^ 64 }
    ensures { ShowsSymbol address at step result }
{
    SymbolView {
        kind: step.kind,
        value: step.value,
        bytes: View {
            at: address + at,
            len: step.end - at,
        },
    }
}
