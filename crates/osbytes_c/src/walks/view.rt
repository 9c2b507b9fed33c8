//! What an array of the caller's is filled with.
ghost use Rattle.std.specs.Prelude.{◌↔◌, IsTrue};
ghost use Rattle.osbytes_c.specs.Fills.{IsOutside};

/// A part of a string, as an `osb_view` has it.
#[repr(C)]
#[derive(Clone, Copy)]
pub struct View {
    /// The address of its first byte.
    pub at: usize,
    /// How many bytes it has.
    pub len: usize,
}

/// How far an array was filled, and where the iterator is then.
#[repr(C)]
#[derive(Clone, Copy)]
pub struct Filled {
    /// How many items were written.
    pub count: usize,
    /// The index from which on the others are; from the end, before which they are.
    pub next: usize,
    /// Whether there are no others.
    pub ended: bool,
}

/// Whether an index is past the end of a string that begins at this address, or that end past the
/// greatest address.
#[inline(always)]
pub(crate) fn is_outside(bytes: &[u8], at: usize, address: usize) -> bool
    ensures { IsTrue result ↔ IsOutside address at bytes.now }
{
    at > bytes.len() || bytes.len() > usize::MAX - address
}
