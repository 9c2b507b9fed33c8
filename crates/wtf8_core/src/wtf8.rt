//! The first fault of bytes that aren't WTF-8, and the number of bytes rejected with it.
#![tactic(auto, using(crate::proofs::lemmas::reader::FaultIndices::read_more))]

ghost use Rattle.std.specs.Prelude.{MatchOption};
ghost use Rattle.wtf8_core.specs.{Wtf8.IsWtf8, Fault.IsFaultAt, EncodedPrefix.IsReadUpTo};

use crate::code_points::next_item;
use crate::vectors::Encoding;
use crate::vectors::scan::{ends_with_high_surrogate, scan};

/// Returns the index of the first fault of bytes that aren't WTF-8, and the number of bytes
/// rejected there; `None` for WTF-8 (this project's own call).
///
/// The first number is the length in bytes of the well-formed prefix, which ends where the first
/// fault of [`CodePoints`](crate::CodePoints) begins. The second is the length of the rejected
/// part, one to four bytes: a byte that begins nothing; a lead with the continuations that it has,
/// if some are missing; or a lead with all its continuations, if their value is rejected. The items
/// of `CodePoints` continue after that part. So this is for WTF-8 what
/// [`utf8_fault`](crate::utf8_fault) is for UTF-8.
///
/// It reads most of a long input with vectors, and doesn't allocate.
///
/// ```
/// use os_str_bytes::wtf8_fault;
///
/// assert_eq!(rt; wtf8_fault(b"a\xE2\x82A"), Some((1, 2)));
/// assert_eq!(rt; wtf8_fault(b"\xED\xA0\x80\xED\xB0\x80"), Some((3, 3)));
/// assert_eq!(rt; wtf8_fault(b"\xED\xA0\x80"), None);
/// ```
pub fn wtf8_fault(bytes: &[u8]) -> Option<(usize, usize)>
    ensures { MatchOption result (IsWtf8 bytes.now) (λ fault. IsFaultAt bytes.now fault.0 fault.1) }
{
    let mut after_high = false;
    let mut rest = bytes;
    for _ in 0..NEAR {
        let (item, is_high, after) = next_item(after_high, rest)?;
        match item {
            Ok(_) => {
                after_high = is_high;
                rest = after;
            }
            Err(_) => return Some((bytes.len() - rest.len(), rest.len() - after.len())),
        }
    }
    // vectors begin at the first byte again
    let prefix = scan(bytes, Encoding::Wtf8);
    let (_, rest) = bytes.split_at(prefix);
    fault_in_rest(bytes, ends_with_high_surrogate(bytes, prefix), rest)
}

/// The number of code points that are read before vectors are tried, so that a loop over faults
/// that are close together doesn't try them in vain.
const NEAR: u32 = 32;

/// Returns the fault that [`wtf8_fault`] returns, where the bytes before `rest` have been read.
/// `after_high` is whether they end with a high surrogate.
fn fault_in_rest(bytes: &[u8], after_high: bool, rest: &[u8]) -> Option<(usize, usize)>
    requires { IsReadUpTo bytes.now after_high rest.now }
    ensures { MatchOption result (IsWtf8 bytes.now) (λ fault. IsFaultAt bytes.now fault.0 fault.1) }
{
    let mut high = after_high;
    let mut left = rest;
    while let Some((item, is_high, after)) = next_item(high, left) {
        match item {
            Ok(_) => {
                high = is_high;
                left = after;
            }
            Err(_) => return Some((bytes.len() - left.len(), left.len() - after.len())),
        }
    }
    None
}
