//! How far WTF-8 has no surrogate, 64 bytes at a time.
ghost use Rattle.std.specs.Prelude.{◌≡◌, ℕ, ◌+◌, ◌≤◌, ◌<◌, take, length, slice_index, nat_eq, IsTrue};
ghost use Rattle.std.specs.Bool.{if◌then◌else◌};
ghost use Rattle.std.specs.Str.{IsUtf8};
ghost use Rattle.wtf8_core.specs.{Surrogate.IsSurrogateAt, Wtf8.IsWtf8};

use crate::byte::is_continuation;
use crate::vectors::BLOCK;
use crate::vectors::lanes::{above, are_zero, load};
use std::simd::prelude::*;

/// The length of a prefix of WTF-8 that is UTF-8, if no surrogate begins before index `from`. A
/// surrogate or the end follows it within a block and three bytes.
#[tactic(auto, using(crate::proofs::lemmas::texts::WithoutSurrogates::prefix_without))]
pub(crate) fn text_from(bytes: &[u8], from: usize) -> usize
    requires formed { IsWtf8 bytes.now }
    requires within { from < length bytes.now }
    requires clear { (i : ℕ) → i < from → ¬ (IsSurrogateAt bytes.now i) }
    ensures within { result ≤ length bytes.now }
    ensures text { IsUtf8 (take result bytes.now) }
{
    let mut at = from;
    while bytes.len() - at > BLOCK && is_clear(bytes, at) {
        at += BLOCK;
    }
    while at > 0 && is_continuation(bytes[at]) {
        at -= 1;
    }
    at
}

/// Whether no surrogate begins in the next 64 bytes.
#[inline(always)]
fn is_clear(bytes: &[u8], at: usize) -> bool
    requires { at + 64 < length bytes.now }
    ensures { IsTrue result → (i : ℕ) → i < 64 → ¬ (IsSurrogateAt bytes.now (at + i)) }
{
    let above_9f = above(load(bytes, at + 1), 0x9F);
    are_zero(after_surrogate_lead(load(bytes, at), above_9f))
}

/// The lanes of the second where the first has ED, and else 0.
#[inline(always)]
fn after_surrogate_lead(first: u8x64, second: u8x64) -> u8x64
    ensures { (i : ℕ) → i < 64 → slice_index result i
        ≡ (if nat_eq (slice_index first i) 0xED then slice_index second i else 0) }
{
    first
        .simd_eq(u8x64::splat(0xED))
        .select(second, u8x64::splat(0))
}
