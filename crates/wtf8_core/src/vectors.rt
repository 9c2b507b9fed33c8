//! Reading many bytes at once with vectors: how long a prefix of bytes is UTF-8 or WTF-8.
//!
//! No public contract names anything in this module. [`lanes`] has each operation on lanes once,
//! [`ascii`] has the tests for ASCII, and [`window`] copies a few bytes with zeros around them.
//! Crates above use the first and the last of these. [`utf8_fault`](crate::utf8_fault),
//! [`is_utf8`](crate::is_utf8) and a piece of a [`Checker`](crate::Checker) share these steps, in
//! this order:
//!
//! 1. At most [`SHORT`] bytes are first tested for being all ASCII.
//! 2. If they aren't, they are read by steps ([`scan::is_short_text`]): the first with zeros before
//!    it, the others in place. Where fewer than 16 bytes are left, the last 16 bytes are read
//!    again. 4 to 19 bytes are read in a copy with zeros before and after them. The index of a byte
//!    that isn't allowed isn't looked for: 4 begins at the start.
//! 3. More bytes are read by blocks ([`scan::scan_from`]), each in place with the [`BEFORE`] bytes
//!    before it ([`error_bits`]). Blocks of ASCII are skipped without that test. The last bytes,
//!    fewer than a block, are tested in a copy with zeros before and after them, unless they are
//!    ASCII.
//! 4. At the first byte that isn't allowed after those before it, the prefix ends before the last
//!    byte that isn't a continuation. After the prefix a few characters are read one by one.
//!    Finally std's reader continues, or for WTF-8 the table or the reader of code points.
//!
//! [`utf8_fault`](crate::utf8_fault) expects a fault to be near. Between 1 and 2 it looks for one
//! at the first byte that isn't ASCII. Before 3 it reads up to five characters after the ASCII of
//! the first step or block, unless that whole block is ASCII, and up to eight steps. WTF-8 is only
//! read by 3 and 4. [`surrogate_fault`](crate::surrogate_fault) makes the test of 1, then tests the
//! first byte of a short string that isn't ASCII, and then looks for surrogates alone
//! ([`surrogates`]).

pub mod ascii;
pub(crate) mod error_bits;
pub mod lanes;
pub(crate) mod scan;
pub(crate) mod surrogates;
pub mod window;

/// The length of a block in bytes.
pub(crate) const BLOCK: usize = 64;

/// The length of a step in bytes. It is shorter than a block, for bytes where a fault may be near.
pub(crate) const STEP: usize = 16;

/// Half a step, for strings that are shorter than one.
pub(crate) const HALF: usize = 8;

/// A quarter of one, for strings that are shorter than that half.
pub(crate) const QUARTER: usize = 4;

/// The most bytes that are read by steps from the first on. In a loop over blocks, copies of the
/// first block and of the last would take longer.
pub(crate) const SHORT: usize = 2 * BLOCK;

/// The number of bytes before a block or a step that its test reads.
pub(crate) const BEFORE: usize = 4;

/// The encoding that is looked for.
#[derive(Clone, Copy)]
pub(crate) enum Encoding {
    /// UTF-8 (RFC 3629).
    Utf8,
    /// WTF-8, in which lone surrogates may occur.
    Wtf8,
}
