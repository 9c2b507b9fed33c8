//! Searches for a text in bytes.
ghost use Rattle.std.specs.Prelude.{◌+◌, ◌-◌, ◌^◌, ◌↔◌, ◌<◌, ◌≤◌, IsTrue, IfSome, length};
ghost use Rattle.wtf8_core.specs.Occurrence.{Finds, IsFirstIndex, IsLastIndex, IsPrefix, IsSuffix};
ghost use Rattle.wtf8_core.specs.Boundary.{IsBoundary};
ghost use Rattle.os_str_ext.specs.Pieces.{MayBeCutAround};

use crate::compare::are_same;
use crate::needle::{first_of, last_of};
use wtf8_core::laws;

/// The first index at which the text occurs.
#[inline(always)]
pub(crate) fn find(bytes: &[u8], text: &str) -> Option<usize>
    ensures index { Finds IsFirstIndex text.now bytes.now result }
    ensures edges { MayBeCutAround bytes.now (length text.now) result }
    ensures after { IfSome result (λ at. at + length text.now < 2 ^ 64) }
{
    laws::boundaries();
    first_of(bytes, text.as_bytes())
}

/// The last index at which the text occurs.
#[inline(always)]
pub(crate) fn rfind(bytes: &[u8], text: &str) -> Option<usize>
    ensures index { Finds IsLastIndex text.now bytes.now result }
    ensures edges { MayBeCutAround bytes.now (length text.now) result }
    ensures after { IfSome result (λ at. at + length text.now < 2 ^ 64) }
{
    laws::boundaries();
    last_of(bytes, text.as_bytes())
}

/// Whether the bytes start with the text.
#[inline(always)]
pub(crate) fn starts_with(bytes: &[u8], text: &str) -> bool
    ensures prefix { IsTrue result ↔ IsPrefix text.now bytes.now }
    ensures edge { IsTrue result → IsBoundary bytes.now (length text.now) }
{
    laws::boundaries();
    text.len() <= bytes.len() && are_same(bytes.split_at(text.len()).0, text.as_bytes())
}

/// Whether the bytes end with the text.
#[inline(always)]
pub(crate) fn ends_with(bytes: &[u8], text: &str) -> bool
    ensures suffix { IsTrue result ↔ IsSuffix text.now bytes.now }
    ensures edge { IsTrue result → IsBoundary bytes.now (length bytes.now - length text.now) }
    ensures fits { IsTrue result → length text.now ≤ length bytes.now }
{
    laws::boundaries();
    text.len() <= bytes.len()
        && are_same(bytes.split_at(bytes.len() - text.len()).1, text.as_bytes())
}
