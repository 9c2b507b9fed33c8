//! The common start of two paths.
ghost use Rattle.std.specs.Prelude.{◌≡◌, ◌<◌, ◌≤◌, length, MatchOption};
ghost use Rattle.path_rules.specs.Shared.{SharesItems, AreAlikeBelow};

use crate::lanes::{HALF, LANES, alike_len};
use crate::rules::Rules;

/// The rests of two bodies after the last separator of their common prefix; `None` if they are the
/// same.
#[inline(always)]
pub(crate) fn after_shared<'a, 'b>(
    rules: Rules,
    a: &'a [u8],
    b: &'b [u8],
) -> Option<(&'a [u8], &'b [u8])>
    ensures { MatchOption result (a.entry.now ≡ b.entry.now)
        (λ left. SharesItems rules a.entry.now b.entry.now left.0.now left.1.now) }
{
    let len = shared_len(a, b);
    if len == a.len() && len == b.len() {
        return None;
    }
    let (front, _) = a.split_at(len);
    let Some((_, part)) = rules.split_last(front) else {
        return Some((a, b));
    };
    let from = len - part.len();
    let (_, left) = a.split_at(from);
    let (_, other) = b.split_at(from);
    Some((left, other))
}

/// The length of the common prefix of two slices.
#[inline(always)]
fn shared_len(a: &[u8], b: &[u8]) -> usize
    ensures first { result ≤ length a.now }
    ensures second { result ≤ length b.now }
    ensures same { AreAlikeBelow a.now b.now result }
{
    let end = a.len().min(b.len());
    if end >= LANES {
        shared_by::<LANES>(a, b, end)
    } else if end >= HALF {
        shared_by::<HALF>(a, b, end)
    } else {
        shared_by_bytes(a, b, end)
    }
}

/// The length of the common prefix, found by N bytes at once. The last step compares the last N
/// bytes, and may compare some of them again.
#[inline(always)]
fn shared_by<const N: usize>(a: &[u8], b: &[u8], end: usize) -> usize
    requires room { N ≤ end }
    requires few { N ≤ 64 }
    requires some { 0 < N }
    requires first { end ≤ length a.now }
    requires second { end ≤ length b.now }
    ensures within { result ≤ end }
    ensures same { AreAlikeBelow a.now b.now result }
{
    let mut at = 0;
    while end - at > N {
        let len = alike_len::<N>(a, b, at);
        if len < N {
            return at + len;
        }
        // not `len`, so that the next vectors are loaded before it is known
        at += N;
    }
    let last = end - N;
    last + alike_len::<N>(a, b, last)
}

/// The length of the common prefix, found byte by byte.
#[inline(always)]
fn shared_by_bytes(a: &[u8], b: &[u8], end: usize) -> usize
    requires first { end ≤ length a.now }
    requires second { end ≤ length b.now }
    ensures within { result ≤ end }
    ensures same { AreAlikeBelow a.now b.now result }
{
    let mut at = 0;
    while at < end && a[at] == b[at] {
        at += 1;
    }
    at
}
