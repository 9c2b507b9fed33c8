//! The lossy reading of arbitrary bytes as WTF-8.
ghost use Rattle.std.specs.Prelude.{IfOk};
ghost use Rattle.wtf8_core.specs.{Wtf8.IsWtf8, LossyReading.IsLossyReading};

use crate::lossy::push_replaced;
use std::alloc::{AllocError, Allocator};
use wtf8_core::wtf8_fault;

/// Returns the bytes with each rejected part replaced by U+FFFD, in new memory.
pub(crate) fn read_wtf8<A: Allocator>(alloc: A, bytes: &[u8]) -> Result<Vec<u8, A>, AllocError>
    ensures reading { IfOk result (λ reading. IsLossyReading bytes.now reading.items) }
    ensures formed { IfOk result (λ reading. IsWtf8 reading.items) }
{
    let mut reading = Vec::with_capacity(alloc, bytes.len())?;
    let mut rest = bytes;
    while let Some((valid_up_to, refused_len)) = wtf8_fault(rest) {
        push_replaced(&mut reading, rest, valid_up_to)?;
        rest = rest.split_at(valid_up_to).1.split_at(refused_len).1;
    }
    reading.extend_from_slice(rest)?;
    Ok(reading)
}
