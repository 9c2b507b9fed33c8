//! Input, read whole.
ghost use Rattle.std.specs.Prelude.{◌≡◌, ◌≢◌, true, Err, IfOk, OnOk};
ghost use Rattle.std.specs.Io.KnownBytes.{Consumes, IsAtEnd};
ghost use Rattle.program_frame.specs.Marked.{marked_inner, has_failed};

use crate::fault::Failure;
use crate::marked::Marked;
use std::alloc::Allocator;
use std::io::Read;

/// Reads all bytes that the reader has left. They are read in blocks, and each block is copied.
///
/// # Errors
///
/// [`Failure::Read`] if a read failed, and then the mark is set. [`Failure::Memory`] if an
/// allocation failed.
///
/// ```
/// use program_frame::input::read_all;
/// use program_frame::marked::Marked;
///
/// let mut reader = Marked::new(b"ab".as_slice());
/// assert!(rt; read_all(alloc, &mut reader).is_ok_and(|input| input.as_slice() == b"ab".as_slice()));
/// ```
pub fn read_all<A: Allocator, R: Read>(
    alloc: A,
    reader: &mut Marked<R>,
) -> Result<Vec<u8, A>, Failure>
    ensures consumed { IfOk result (λ input. Consumes (R.remaining (marked_inner reader.old))
        (R.remaining (marked_inner reader.new)) input.items) }
    ensures end { OnOk result (IsAtEnd (R.remaining (marked_inner reader.new))) }
    ensures marked { result ≡ Err Failure.Read → has_failed reader.new ≡ true }
    ensures unchanged { result ≢ Err Failure.Read → has_failed reader.new ≡ has_failed reader.old }
    ensures no_write { result ≢ Err Failure.Write }
{
    let mut input = Vec::new(alloc);
    let mut block = [0u8; 8192];
    loop {
        match reader.read(&mut block) {
            Ok(0) => return Ok(input),
            Ok(count) => input.extend_from_slice(&block[..count])?,
            Err(_) => return Err(Failure::Read),
        }
    }
}
