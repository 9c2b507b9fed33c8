//! Compares a pattern's bytes with those at the start or the end of the string.
ghost use Rattle.std.specs.Prelude.{◌≡◌, ◌+◌, ◌≤◌, ◌↔◌, IsTrue, length, take, drop};

use std::simd::prelude::*;

/// Whether two lists of bytes of the same length are equal. For 2 to 32 bytes, it compares the
/// first ones and the last ones, 2, 4, 8 or 16 at once, without a branch in between.
#[inline(always)]
pub(crate) fn are_same(a: &[u8], b: &[u8]) -> bool
    requires { length a.now ≡ length b.now }
    ensures { IsTrue result ↔ (a.now ≡ b.now) }
{
    if a.len() <= 8 {
        return are_same_few(a, b);
    }
    if a.len() <= 16 {
        return are_ends_same::<8>(a, b);
    }
    if a.len() <= 32 {
        return are_ends_same::<16>(a, b);
    }
    a == b
}

/// Whether two lists of up to eight bytes, of the same length, are equal.
#[inline(always)]
fn are_same_few(a: &[u8], b: &[u8]) -> bool
    requires lengths { length a.now ≡ length b.now }
    requires at_most { length a.now ≤ 8 }
    ensures { IsTrue result ↔ (a.now ≡ b.now) }
{
    if 4 <= a.len() {
        return are_ends_same::<4>(a, b);
    }
    if 2 <= a.len() {
        return are_ends_same::<2>(a, b);
    }
    a.is_empty() || a[0] == b[0]
}

/// Whether two lists of N to 2 N bytes, of the same length, are equal.
#[inline(always)]
fn are_ends_same<const N: usize>(a: &[u8], b: &[u8]) -> bool
    requires lengths { length a.now ≡ length b.now }
    requires at_least { N ≤ length a.now }
    requires at_most { length a.now ≤ N + N }
    requires few { N ≤ 64 }
    ensures { IsTrue result ↔ (a.now ≡ b.now) }
{
    let has_same_prefix = are_same_at::<N>(a, b, 0);
    let has_same_suffix = are_same_at::<N>(a, b, a.len() - N);
    has_same_prefix && has_same_suffix
}

/// Whether the N bytes from index `at` on are the same. The lanes are made here, since
/// `wtf8_core::vectors::lanes::load` states each byte of them and this compares lists.
#[inline(always)]
fn are_same_at<const N: usize>(a: &[u8], b: &[u8], at: usize) -> bool
    requires a { at + N ≤ length a.now }
    requires b { at + N ≤ length b.now }
    requires few { N ≤ 64 }
    ensures { IsTrue result ↔ (take N (drop at a.now) ≡ take N (drop at b.now)) }
{
    let lanes = Simd::<u8, N>::from_slice(&a[at..]);
    lanes.simd_ne(Simd::from_slice(&b[at..])).to_bitmask() == 0
}
