//! One symbol of a string.
ghost use Rattle.std.specs.Prelude.{◌≡◌, ◌<◌, ◌≤◌, ◌↔◌, ◌++◌, ◌∷◌, [], ℕ, length, drop, MatchOption, IfSome, IfNone};
ghost use Rattle.std.specs.Char.{encode_utf8};
ghost use Rattle.wtf8_core.specs.Covered.{StartsWithNoCharacter};
ghost use Rattle.wtf8_core.specs.Wtf8.{IsWtf8};
ghost use Rattle.osbytes_c.specs.Answers.{IsOneOf};
ghost use Rattle.osbytes_c.specs.Faults.{IsString, IsUnstring};
ghost use Rattle.osbytes_c.specs.SymbolFills.{IsSymbolStep};
ghost use Rattle.osbytes_c.specs.Steps.{IsSymbolAt, IsFirstOf, IsSurrogatePrefix, StartsWithNoSymbol, StartsWithSymbol, step_after};
ghost use Rattle.osbytes_c.specs.Statuses.{done, ended, faulty, no_index, no_platform};

use crate::status::{DONE, ENDED, FAULTY, NO_INDEX, NO_PLATFORM};
use crate::strings::unix;
use os_str_ext::OsStrBytesExt;
use platform_str::{Platform, Windows};

/// A symbol, and where it ends.
#[repr(C)]
#[derive(Clone, Copy)]
pub struct Step {
    /// 1 a character, 2 a unit of what isn't text.
    pub kind: u32,
    /// The character, or the unit's number.
    pub value: u32,
    /// The index after its last byte.
    pub end: usize,
}

/// The first symbol of what comes after an index, if that is a string of the platform.
#[unsafe(no_mangle)]
pub extern "C" fn osb_core_symbol(platform: u32, bytes: &[u8], at: usize, symbol: &mut Step) -> u32
    ensures symbol { result ≡ done → IsString platform (drop at bytes.now) → IsSymbolAt platform
        bytes.now at symbol.new }
    ensures first { result ≡ done → StartsWithSymbol platform (drop at bytes.now)
        (step_after at symbol.new) }
    ensures within { result ≡ done → (at < symbol.new.end) × (symbol.new.end ≤ length bytes.now) }
    ensures fault { result ≡ faulty → IsUnstring platform (drop at bytes.now) }
    ensures none { (result ≡ faulty) ↔ ((at < length bytes.now)
        × StartsWithNoSymbol platform (drop at bytes.now)) }
    ensures index { (result ≡ no_index) ↔ ((platform ≤ 2) × (length bytes.now < at)) }
    ensures ended { (result ≡ ended) ↔ ((platform ≤ 2) × (at ≡ length bytes.now)) }
    ensures platform { (result ≡ no_platform) ↔ (2 < platform) }
    ensures answers { IsOneOf (done ∷ faulty ∷ no_index ∷ ended ∷ no_platform ∷ []) result }
{
    if platform > 2 {
        return NO_PLATFORM;
    }
    if at > bytes.len() {
        return NO_INDEX;
    }
    if at == bytes.len() {
        return ENDED;
    }
    let Some(step) = symbol_after(platform, bytes, at) else {
        return FAULTY;
    };
    *symbol = step;
    DONE
}

/// The first symbol of what comes after an index, or `None` if that isn't a string of the platform.
#[inline(always)]
pub(crate) fn symbol_after(platform: u32, bytes: &[u8], at: usize) -> Option<Step>
    requires known { platform ≤ 2 }
    requires within { at < length bytes.now }
    ensures symbol { MatchOption result (IsUnstring platform (drop at bytes.now))
        (λ step. IsSymbolStep platform bytes.now at step) }
    ensures none { MatchOption result (StartsWithNoSymbol platform (drop at bytes.now))
        (λ _. ¬ (StartsWithNoSymbol platform (drop at bytes.now))) }
{
    let (_, rest) = bytes.split_at(at);
    let Some(first) = first_symbol(platform, rest) else {
        return None;
    };
    Some(Step {
        kind: first.kind,
        value: first.value,
        end: at + first.end,
    })
}

/// The first symbol of bytes, or `None` if they aren't a string of the platform.
#[inline(always)]
fn first_symbol(platform: u32, bytes: &[u8]) -> Option<Step>
    requires known { platform ≤ 2 }
    requires some { 0 < length bytes.now }
    ensures first { MatchOption result (IsUnstring platform bytes.now)
        (λ step. IsString platform bytes.now → IsFirstOf platform bytes.now step) }
    ensures starts { IfSome result (λ step. StartsWithSymbol platform bytes.now step) }
    ensures none { MatchOption result (StartsWithNoSymbol platform bytes.now)
        (λ _. ¬ (StartsWithNoSymbol platform bytes.now)) }
    ensures within { IfSome result (λ step. (0 < step.end) × (step.end ≤ length bytes.now)) }
{
    if let Some((character, rest)) = unix(bytes).split_first_char() {
        return Some(character_step(bytes, character, rest.as_encoded_bytes()));
    }
    if platform == 0 {
        return Some(Step {
            kind: 2,
            value: u32::from(bytes[0]),
            end: 1,
        });
    }
    if platform == 1 {
        let Some(unit) = first_surrogate(bytes) else {
            return None;
        };
        return Some(Step {
            kind: 2,
            value: unit,
            end: 3,
        });
    }
    None
}

/// The step to a character with which bytes begin.
#[inline(always)]
fn character_step(bytes: &[u8], character: char, rest: &[u8]) -> Step
    requires { bytes.now ≡ encode_utf8 character ++ rest.now }
    ensures first { (platform : ℕ) → IsString platform bytes.now
        → IsFirstOf platform bytes.now result }
    ensures starts { (platform : ℕ) → StartsWithSymbol platform bytes.now result }
    ensures some { (platform : ℕ) → ¬ (StartsWithNoSymbol platform bytes.now) }
    ensures within { (0 < result.end) × (result.end ≤ length bytes.now) }
{
    Step {
        kind: 1,
        value: character as u32,
        end: bytes.len() - rest.len(),
    }
}

/// The surrogate with whose form bytes begin, which begin with no whole character; `None` if they
/// aren't WTF-8.
#[inline(never)]
fn first_surrogate(bytes: &[u8]) -> Option<u32>
    requires some { 0 < length bytes.now }
    requires uncovered { StartsWithNoCharacter bytes.now }
    ensures unit { MatchOption result (¬ (IsWtf8 bytes.now))
        (λ unit. IsSurrogatePrefix bytes.now unit) }
    ensures none { IfNone result ((unit : ℕ) → ¬ (IsSurrogatePrefix bytes.now unit)) }
{
    if bytes.len() < 3 {
        return None;
    }
    let (prefix, _) = bytes.split_at(3);
    let Ok(()) = Windows::check(prefix) else {
        return None;
    };
    let (unit, _) = Windows::first_unit(prefix);
    Some(u32::from(unit))
}
