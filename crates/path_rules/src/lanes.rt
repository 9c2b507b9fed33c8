//! Examines many bytes at once: counts those before a certain byte, and those that two slices have
//! alike.
ghost use Rattle.std.specs.Prelude.{◌≡◌, ℕ, ◌+◌, ◌≤◌, ◌<◌, false, length, slice_index, nat_eq};

use std::simd::prelude::*;

/// The bytes of a vector.
pub(crate) const LANES: usize = 16;

/// The bytes of half a vector.
pub(crate) const HALF: usize = 8;

/// The number of bytes before the first that is `value`, among the N bytes from an index on.
#[inline(always)]
pub(crate) fn len_before<const N: usize>(value: u8, bytes: &[u8], from: usize) -> usize
    requires inside { from + N ≤ length bytes.now }
    requires few { N ≤ 64 }
    ensures within { result ≤ N }
    ensures other { (i : ℕ) → i < result
        → nat_eq (slice_index bytes.now (from + i)) value ≡ false }
{
    lanes_before(value, load::<N>(bytes, from))
}

/// The number of bytes before the first that differs, among the N bytes of both from an index on.
#[inline(always)]
pub(crate) fn alike_len<const N: usize>(a: &[u8], b: &[u8], from: usize) -> usize
    requires first { from + N ≤ length a.now }
    requires second { from + N ≤ length b.now }
    requires few { N ≤ 64 }
    ensures within { result ≤ N }
    ensures alike { (i : ℕ) → i < result
        → slice_index a.now (from + i) ≡ slice_index b.now (from + i) }
{
    lanes_alike(load::<N>(a, from), load::<N>(b, from))
}

/// The N bytes from an index on.
#[inline(always)]
fn load<const N: usize>(bytes: &[u8], from: usize) -> Simd<u8, N>
    requires { from + N ≤ length bytes.now }
    ensures { (i : ℕ) → i < N → slice_index result i ≡ slice_index bytes.now (from + i) }
{
    Simd::from_slice(&bytes[from..])
}

/// The number of lanes before the first that is `value`.
#[inline(always)]
fn lanes_before<const N: usize>(value: u8, lanes: Simd<u8, N>) -> usize
    requires { N ≤ 64 }
    ensures within { result ≤ N }
    ensures other { (i : ℕ) → i < result → nat_eq (slice_index lanes.entry i) value ≡ false }
{
    let mask = lanes.simd_eq(Simd::splat(value)).to_bitmask();
    if mask == 0 {
        return N;
    }
    mask.trailing_zeros() as usize
}

/// The number of lanes before the first that differs.
#[inline(always)]
fn lanes_alike<const N: usize>(a: Simd<u8, N>, b: Simd<u8, N>) -> usize
    requires { N ≤ 64 }
    ensures within { result ≤ N }
    ensures alike { (i : ℕ) → i < result → slice_index a.entry i ≡ slice_index b.entry i }
{
    let mask = a.simd_ne(b).to_bitmask();
    if mask == 0 {
        return N;
    }
    mask.trailing_zeros() as usize
}
