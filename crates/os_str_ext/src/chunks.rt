//! The chunks of a string: its parts that contain no whole character, each with the text after it.
ghost use Rattle.std.specs.Prelude.{◌≡◌, ◌+◌, ◌∷◌, ◌<◌, ◌≤◌, ◌↔◌, List, length, drop, IsTrue};
ghost use Rattle.std.specs.Iterator.{YieldsFirstBy, item_count};
ghost use Rattle.wtf8_core.specs.{Chunks.AreChunks, Chunks.Chunk, Utf8.IsUtf8Fault, Utf8.part_end};
ghost use Rattle.platform_str.specs.Strings.{bytes};
ghost use Rattle.os_str_ext.specs.Chunks.{chunks_of, BeginsNoCharacter, IsUncoveredUpTo, IsFirstChunk};
ghost use Rattle.os_str_ext.specs.Parts.{part_bytes};

use crate::os_units::NonUnicodeOsStr;
use platform_str::{OsStr, Platform};
use std::alloc::AllocError;
use std::marker::Model;
use std::ops::Range;

/// An iterator over the chunks of a string, from the first on. After `None` it returns only `None`.
///
/// [`OsStrBytesExt::utf8_chunks`](crate::OsStrBytesExt::utf8_chunks) makes it. A clone yields the
/// same remaining chunks. Cloning doesn't allocate, and always returns `Ok`.
#[derive(Drop)]
pub struct Utf8Chunks<'a, E: Platform + 'a> {
    rest: OsStr<'a, E>,
    // No whole character starts at any of the first `uncovered` bytes. This is known from the fault
    // at which the text before them ended.
    uncovered: usize,
}

impl<'a, E: Platform> Model for Utf8Chunks<'a, E> {
    ghost Value = { List Chunk };

    ghost view = { λ it. chunks_of (bytes it.rest) };

    ghost invariant = { λ it. IsUncoveredUpTo (bytes it.rest) it.uncovered };
}

impl<'a, E: Platform> Clone for Utf8Chunks<'a, E> {
    ghost is_clone = { λ x y. y ≡ x };

    ghost is_infallible = { λ _. Unit {0} };

    fn clone(&self) -> Result<Self, AllocError> {
        Ok(Utf8Chunks {
            rest: self.rest,
            uncovered: self.uncovered,
        })
    }
}

impl<'a, E: Platform> Utf8Chunks<'a, E> {
    /// The chunks of a string.
    pub(crate) fn new(string: OsStr<'a, E>) -> Self
        ensures chunks { AreChunks (bytes string.entry) result }
        ensures value { result ≡ chunks_of (bytes string.entry) }
    {
        Utf8Chunks {
            rest: string,
            uncovered: 0,
        }
    }

    /// The rest of the string, with the remaining chunks (as std's `str::Chars::as_str`). It
    /// borrows from the original string and doesn't allocate.
    ///
    /// ```
    /// use os_str_bytes::{OsStr, OsStrBytesExt, Unix};
    ///
    /// let string = OsStr::<Unix>::from_encoded_bytes_unchecked(b"a\x80b");
    /// let mut chunks = string.utf8_chunks();
    /// assert!(rt; chunks.next().is_some());
    /// assert_eq!(rt; chunks.rest().as_encoded_bytes(), b"\x80b".as_slice());
    /// assert!(rt; chunks.next().is_some());
    /// assert!(rt; chunks.rest().is_empty());
    /// ```
    pub fn rest(&self) -> OsStr<'a, E>
        ensures chunks { AreChunks (bytes result) self.now }
        ensures value { self.now ≡ chunks_of (bytes result) }
    {
        self.rest
    }
}

impl<'a, E: Platform> Iterator for Utf8Chunks<'a, E> {
    type Item = (NonUnicodeOsStr<'a, E>, &'a str);

    ghost next_gives = { YieldsFirstBy (λ chunk. (part_bytes chunk.0, chunk.1.now))
        (λ left. left) };

    ghost remaining = { item_count (λ left. left) };

    #[tactic(auto, using(crate::proofs::lemmas::FirstChunk::no_chunks))]
    fn next(&mut self) -> Option<(NonUnicodeOsStr<'a, E>, &'a str)> {
        if self.rest.is_empty() {
            return None;
        }
        let (part, text, rest) = first_chunk(self.rest, self.uncovered);
        *self = rest;
        Some((part, text))
    }
}

/// The first chunk of a string that isn't empty, and the chunks after it. No whole character starts
/// at any of the string's first `uncovered` bytes.
fn first_chunk<'a, E: Platform>(
    string: OsStr<'a, E>,
    uncovered: usize,
) -> (NonUnicodeOsStr<'a, E>, &'a str, Utf8Chunks<'a, E>)
    requires some { 0 < length (bytes string) }
    requires uncovered { IsUncoveredUpTo (bytes string) uncovered }
    ensures { chunks_of (bytes string.entry) ≡ (part_bytes result.0, result.1.now) ∷ result.2 }
{
    let bytes = string.as_encoded_bytes();
    let (text, uncovered) = first_text::<E>(bytes, uncovered);
    let (prefix, rest) = bytes.split_at(text.end);
    let (part, text) = prefix.split_at(text.start);
    let part = NonUnicodeOsStr::new(OsStr::from_encoded_bytes_unchecked(part));
    let text = unsafe { str::from_utf8_unchecked(text) };
    let rest = OsStr::from_encoded_bytes_unchecked(rest);
    (part, text, Utf8Chunks { rest, uncovered })
}

/// The text of the first chunk, which starts where the part ends, and a number of bytes after it.
/// No whole character starts at any of these bytes, nor at any of the first `uncovered` bytes.
///
/// The part is skipped fault by fault, by the length of each. A byte that can't begin a character
/// is skipped alone, without a search.
fn first_text<E: Platform>(bytes: &[u8], uncovered: usize) -> (Range<usize>, usize)
    requires formed { E.well_formed bytes.now }
    requires uncovered { IsUncoveredUpTo bytes.now uncovered }
    ensures ends { IsFirstChunk bytes.now result.0.start result.0.end }
    ensures uncovered { IsUncoveredUpTo (drop result.0.end bytes.now) result.1 }
{
    let mut at = uncovered;
    while at < bytes.len() {
        if begins_no_character(bytes[at]) {
            at += 1;
            continue;
        }
        let (_, rest) = bytes.split_at(at);
        let Some((valid_up_to, error_len)) = E::utf8_fault(rest) else {
            return (at..bytes.len(), 0);
        };
        let len = part_len(rest, valid_up_to, error_len);
        if valid_up_to > 0 {
            return (at..at + valid_up_to, len);
        }
        at += len;
    }
    (bytes.len()..bytes.len(), 0)
}

/// Whether no character begins with this byte (80 to C1 and F5 to FF, hexadecimal).
#[inline(always)]
fn begins_no_character(byte: u8) -> bool
    ensures { IsTrue result ↔ BeginsNoCharacter byte }
{
    byte >= 0x80 && !matches!(byte, 0xC2..=0xF4)
}

/// The length in bytes of the ill-formed part of a fault. The part may reach the end of the bytes.
#[inline(always)]
fn part_len(bytes: &[u8], valid_up_to: usize, error_len: Option<u8>) -> usize
    requires { IsUtf8Fault bytes.now valid_up_to error_len }
    ensures some { 0 < result }
    ensures end { part_end bytes.now valid_up_to error_len ≡ valid_up_to + result }
    ensures within { valid_up_to + result ≤ length bytes.now }
{
    match error_len {
        Some(len) => usize::from(len),
        None => bytes.len() - valid_up_to,
    }
}
