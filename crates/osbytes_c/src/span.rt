//! A part of a string.

/// Where a part starts and ends.
#[repr(C)]
#[derive(Clone, Copy)]
pub struct Span {
    /// The index of its first byte.
    pub start: usize,
    /// The index after its last byte.
    pub end: usize,
}
