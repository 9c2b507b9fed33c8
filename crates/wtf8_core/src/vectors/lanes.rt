//! Operations on the lanes of a vector, each once.
#![tactic(auto, using(crate::proofs::lemmas::vectors::Lanes::lane_with, crate::proofs::lemmas::vectors::Lanes::no_bit_of_both))]

ghost use Rattle.std.specs.Prelude.{◌≡◌, ◌≢◌, ℕ, ◌∷◌, ◌+◌, ◌-◌, ◌*◌, ◌/◌, ◌≤◌, ◌<◌, length, IsTrue, slice_index, nat_eq, bit_and, bit_or, bit_xor};

use std::simd::prelude::*;

/// The N bytes from index `from` on.
#[inline(always)]
pub fn load<const N: usize>(bytes: &[u8], from: usize) -> Simd<u8, N>
    requires { from + N ≤ length bytes.now }
    ensures { (i : ℕ) → i < N → slice_index result i ≡ slice_index bytes.now (from + i) }
{
    Simd::from_slice(&bytes[from..])
}

/// Each lane's high half.
#[inline(always)]
pub fn high_halves<const N: usize>(bytes: Simd<u8, N>) -> Simd<u8, N>
    ensures { (i : ℕ) → i < N → slice_index result i ≡ slice_index bytes.entry i / 16 }
{
    bytes >> Simd::splat(4)
}

/// The bits of each lane that the mask has.
#[inline(always)]
pub fn masked<const N: usize>(bytes: Simd<u8, N>, mask: u8) -> Simd<u8, N>
    ensures { (i : ℕ) → i < N → slice_index result i ≡ bit_and (slice_index bytes.entry i) mask }
{
    bytes & Simd::splat(mask)
}

/// Each lane, xor a value.
#[inline(always)]
pub fn xor_with<const N: usize>(bytes: Simd<u8, N>, value: u8) -> Simd<u8, N>
    ensures { (i : ℕ) → i < N → slice_index result i ≡ bit_xor (slice_index bytes.entry i) value }
{
    bytes ^ Simd::splat(value)
}

/// The bits that at least one of the two has.
#[inline(always)]
pub fn or<const N: usize>(a: Simd<u8, N>, b: Simd<u8, N>) -> Simd<u8, N>
    ensures { (i : ℕ) → i < N → slice_index result i
        ≡ bit_or (slice_index a.entry i) (slice_index b.entry i) }
{
    a | b
}

/// The bits that both have.
#[inline(always)]
pub fn and<const N: usize>(a: Simd<u8, N>, b: Simd<u8, N>) -> Simd<u8, N>
    ensures { (i : ℕ) → i < N → slice_index result i
        ≡ bit_and (slice_index a.entry i) (slice_index b.entry i) }
{
    a & b
}

/// The bits that exactly one of the two has.
#[inline(always)]
pub fn xor<const N: usize>(a: Simd<u8, N>, b: Simd<u8, N>) -> Simd<u8, N>
    ensures { (i : ℕ) → i < N → slice_index result i
        ≡ bit_xor (slice_index a.entry i) (slice_index b.entry i) }
{
    a ^ b
}

/// How far each lane is above a value; 0 if it is below.
#[inline(always)]
pub fn above<const N: usize>(bytes: Simd<u8, N>, value: u8) -> Simd<u8, N>
    ensures { (i : ℕ) → i < N → slice_index result i ≡ slice_index bytes.entry i - value }
{
    bytes.saturating_sub(Simd::splat(value))
}

/// The indices of 16 lanes from the last of 16 others on.
const FROM_LANE_15: [usize; 16] = [
    15, 16, 17, 18, 19, 20, 21, 22, 23, 24, 25, 26, 27, 28, 29, 30,
];

/// The lanes one further on, after a zero. The last one goes.
#[inline(always)]
pub(crate) fn after_zero(lanes: u8x16) -> u8x16
    ensures { (i : ℕ) → i < 16 → slice_index result i ≡ slice_index (0 ∷ lanes) i }
{
    u8x16::splat(0).shuffle(lanes, FROM_LANE_15)
}

/// A table of 16 entries as [`entries`] has it: four copies.
#[macro_export]
macro_rules! four_copies {
    ($($entry:literal),*) => {
        [$($entry,)* $($entry,)* $($entry,)* $($entry,)*]
    };
}

/// The entries of a table, four copies of 16, at these indices.
#[inline(always)]
pub fn entries(table: [u8; 64], indices: u8x64) -> u8x64
    requires copies { (i : ℕ) → i < 64 → (k : ℕ) → k < 16
        → slice_index table (i / 16 * 16 + k) ≡ slice_index table k }
    requires indices { (i : ℕ) → i < 64 → slice_index indices i < 16 }
    ensures { (i : ℕ) → i < 64 → slice_index result i ≡ slice_index table (slice_index indices i) }
{
    u8x64::from_array(table).swizzle_dyn_within::<16>(indices)
}

/// Returns the entries of a table at 16 indices, from its first copy alone.
#[inline(always)]
pub fn entries_of_16(table: [u8; 64], indices: u8x16) -> u8x16
    requires indices { (i : ℕ) → i < 16 → slice_index indices i < 16 }
    ensures { (i : ℕ) → i < 16 → slice_index result i ≡ slice_index table (slice_index indices i) }
{
    u8x16::from_slice(&table).swizzle_dyn_within::<16>(indices)
}

/// Whether all lanes are 0. It tests both halves together, so that no mask of 64 bits is made.
#[inline(always)]
pub fn are_zero(lanes: u8x64) -> bool
    ensures { IsTrue result → (i : ℕ) → i < 64 → slice_index lanes i ≡ 0 }
{
    let both = lanes.extract::<0, 32>() | lanes.extract::<32, 32>();
    both.simd_ne(u8x32::splat(0)).to_bitmask() == 0
}

/// Returns the number of lanes that are 0 before the first that isn't.
#[inline(always)]
pub fn leading_zero<const N: usize>(lanes: Simd<u8, N>) -> usize
    requires { N ≤ 64 }
    ensures within { result ≤ 64 }
    ensures zero { (i : ℕ) → i < result → i < N → slice_index lanes.entry i ≡ 0 }
{
    lanes.simd_ne(Simd::splat(0)).to_bitmask().trailing_zeros() as usize
}

/// Returns the number of lanes that aren't 0 before the first that is.
#[inline(always)]
pub fn leading_nonzero(lanes: u8x64) -> usize
    ensures within { result ≤ 64 }
    ensures other { (i : ℕ) → i < result → slice_index lanes i ≢ 0 }
{
    lanes.simd_eq(u8x64::splat(0)).to_bitmask().trailing_zeros() as usize
}
