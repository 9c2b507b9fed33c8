//! The code points that bytes encode.
#![tactic(auto, using(crate::proofs::lemmas::reader::Reading::reading))]

ghost use Rattle.std.specs.Prelude.{◌≡◌, ℕ, suc, ◌∷◌, ◌+◌, ◌*◌, ◌<◌, ◌≤◌, ◌^◌, [], List, Result, Ok, Err, drop, IfOk, IfSome, MatchOption, MatchResult};
ghost use Rattle.wtf8_core.specs.{Byte.needed_continuations, Items.AreItems, Surrogate.is_high, declared.fault.EncodingError.EncodingError};
ghost use Rattle.std.specs.Iterator.{YieldsFirst, item_count};
ghost use Rattle.wtf8_core.specs.Reader.{with_continuations, continuations, after_item, first_item, is_high_item, IsFirstItem, items_after};

use crate::byte::is_continuation;
use crate::fault::EncodingError;
use crate::surrogate::{is_high, is_low};
use std::marker::Model;

/// An iterator over the code points that bytes encode, and over the faults of the bytes.
///
/// Bytes encode code points as in WTF-8: they are the forms of the code points, one after the
/// other. RFC 3629, section 3, defines the forms, and the same rule applies to surrogates. The form
/// of a high surrogate is never directly followed by that of a low one. If the bytes aren't WTF-8,
/// the first `Err` is their first fault, and the items before it are the code points before that
/// fault. The faults are `Byte`, `CodePoint` and `End` of [`EncodingError`].
///
/// After a fault the items are those of the bytes after the rejected part, as if nothing came
/// before them. [`wtf8_fault`](crate::wtf8_fault) returns the number of rejected bytes. After the
/// last byte `next` always returns `None`. It doesn't allocate.
///
/// For UTF-8 the code points are those of std's `str::chars`. In os_str_bytes 7.2.1 it is the
/// private `CodePoints`, over any iterator of bytes.
///
/// The items of ED A0 80 C0 ED B0 80 (hexadecimal) are `Ok(0xD800)`,
/// `Err(EncodingError::Byte(0xC0))`, `Ok(0xDC00)`.
#[derive(Drop)]
pub struct CodePoints<'a> {
    rest: &'a [u8],
    after_high: bool,
}

impl<'a> Model for CodePoints<'a> {
    ghost Value = { List (Result ℕ EncodingError) };

    ghost view = { λ it. items_after it.after_high it.rest.now };
}

impl<'a> CodePoints<'a> {
    /// Iterates over any bytes. All items are `Ok` exactly if the bytes are WTF-8.
    ///
    /// ```
    /// use os_str_bytes::{CodePoints, EncodingError};
    ///
    /// let mut items = CodePoints::new(b"\xED\xA0\x80\xC0\xED\xB0\x80");
    /// assert_eq!(rt; items.next(), Some(Ok(0xD800)));
    /// assert_eq!(rt; items.next(), Some(Err(EncodingError::Byte(0xC0))));
    /// assert_eq!(rt; items.next(), Some(Ok(0xDC00)));
    /// assert_eq!(rt; items.next(), None);
    /// ```
    #[tactic(auto, using(crate::proofs::lemmas::reader::Sound::items_sound))]
    #[inline(always)]
    pub fn new(bytes: &'a [u8]) -> CodePoints<'a>
        ensures { AreItems bytes.now result }
    {
        CodePoints {
            rest: bytes,
            after_high: false,
        }
    }
}

impl<'a> Iterator for CodePoints<'a> {
    type Item = Result<u32, EncodingError>;

    ghost next_gives = { YieldsFirst (λ rest. rest) };

    ghost remaining = { item_count (λ rest. rest) };

    #[inline(always)]
    fn next(&mut self) -> Option<Result<u32, EncodingError>> {
        let (item, after_high, rest) = next_item(self.after_high, self.rest)?;
        self.after_high = after_high;
        self.rest = rest;
        Some(item)
    }
}

/// The first item of bytes, whether it is a high surrogate, and the bytes after it; `None` if the
/// bytes are empty.
#[inline(always)]
pub(crate) fn next_item(
    after_high: bool,
    bytes: &[u8],
) -> Option<(Result<u32, EncodingError>, bool, &[u8])>
    ensures first { MatchOption result (bytes.now ≡ [])
        (λ step. IsFirstItem after_high bytes.now step.0 step.2.now) }
    ensures high { IfSome result (λ step. step.1 ≡ is_high_item step.0) }
{
    let (first, after) = bytes.split_first()?;
    if *first < 0x80 {
        return Some((Ok(u32::from(*first)), false, after));
    }
    match split_item(after_high, *first, after) {
        Ok((code_point, is_high, rest)) => Some((Ok(code_point), is_high, rest)),
        Err(fault) => Some((Err(fault), false, after_refused(*first, after))),
    }
}

/// Returns the bytes after the part that is rejected if `first` and the bytes after it begin with
/// no code point. That part is `first` and, if it is a lead, the continuations that follow it, at
/// most as many as it needs.
#[tactic(auto, unfolding(crate::specs::Reader::after_item))]
#[inline(always)]
fn after_refused(first: u8, after: &[u8]) -> &[u8]
    ensures { result.now ≡ drop (after_item first after.now) after.now }
{
    match first {
        0..=0xC1 => after,
        0xC2..=0xDF => after_continuations(1, after),
        0xE0..=0xEF => after_continuations(2, after),
        _ => after_continuations(3, after),
    }
}

/// The bytes after the continuations at the start, at most `limit` of them.
fn after_continuations(limit: u8, bytes: &[u8]) -> &[u8]
    ensures { result.now ≡ drop (continuations limit bytes.now) bytes.now }
{
    if limit == 0 {
        return bytes;
    }
    let Some((first, rest)) = bytes.split_first() else {
        return bytes;
    };
    if !is_continuation(*first) {
        return bytes;
    }
    after_continuations(limit - 1, rest)
}

/// The code point with which `first` and the bytes after it begin, whether it is a high surrogate,
/// and the bytes after its form; or the fault with which they begin.
#[tactic(auto, unfolding(crate::specs::Reader::first_item, crate::specs::Reader::and_then_checked, crate::specs::Reader::checked_value))]
#[inline(always)]
fn split_item(
    after_high: bool,
    first: u8,
    after: &[u8],
) -> Result<(u32, bool, &[u8]), EncodingError>
    requires not_ascii { 0x80 ≤ first }
    ensures { MatchResult result
        (λ step. (first_item after_high first after.now ≡ Ok step.0) × (step.1 ≡ is_high step.0)
        × (step.2.now ≡ drop (needed_continuations first) after.now))
        (λ fault. first_item after_high first after.now ≡ Err fault) }
{
    if first < 0xC2 {
        return Err(EncodingError::Byte(first));
    }
    if first < 0xE0 {
        let (value, rest) = with_one(u32::from(first % 0x20), after)?;
        Ok((value, false, rest))
    } else if first < 0xF0 {
        let (value, rest) = with_two(u32::from(first % 0x10), after)?;
        if value < 0x800 || after_high && is_low(value) {
            return Err(EncodingError::CodePoint(value));
        }
        Ok((value, is_high(value), rest))
    } else {
        let (value, rest) = with_three(u32::from(first % 0x10), after)?;
        if value < 0x1_0000 || value > 0x10_FFFF {
            return Err(EncodingError::CodePoint(value));
        }
        Ok((value, false, rest))
    }
}

/// The code point or the fault with which `first` and the bytes after it begin.
#[tactic(auto, unfolding(crate::specs::Reader::first_item))]
#[inline(always)]
pub(crate) fn first_item(after_high: bool, first: u8, after: &[u8]) -> Result<u32, EncodingError>
    ensures { result ≡ first_item after_high first after.now }
{
    if first < 0x80 {
        return Ok(u32::from(first));
    }
    let (code_point, _, _) = split_item(after_high, first, after)?;
    Ok(code_point)
}

/// The low bits of the continuation with which the bytes begin, and the bytes after it.
#[tactic(auto, unfolding(crate::specs::Reader::with_continuations))]
#[inline(always)]
fn first_continuation(bytes: &[u8]) -> Result<(u32, &[u8]), EncodingError>
    ensures joined { (value n : ℕ) → MatchResult result
        (λ first. with_continuations value (suc n) bytes.now
        ≡ with_continuations (value * 0x40 + first.0) n first.1.now)
        (λ fault. with_continuations value (suc n) bytes.now ≡ Err fault) }
    ensures after { IfOk result (λ first. first.1.now ≡ drop 1 bytes.now) }
    ensures few { IfOk result (λ first. first.0 < 0x40) }
{
    let Some((first, rest)) = bytes.split_first() else {
        return Err(EncodingError::End);
    };
    if !is_continuation(*first) {
        return Err(EncodingError::Byte(*first));
    }
    Ok((u32::from(*first % 0x40), rest))
}

/// The value with the bits of one continuation appended, and the bytes after that continuation.
#[inline(always)]
fn with_one(value: u32, bytes: &[u8]) -> Result<(u32, &[u8]), EncodingError>
    requires room { value < 2 ^ 16 }
    ensures joined { MatchResult result
        (λ joined. (with_continuations value 1 bytes.now ≡ Ok joined.0)
        × (joined.1.now ≡ drop 1 bytes.now))
        (λ fault. with_continuations value 1 bytes.now ≡ Err fault) }
    ensures least { IfOk result (λ joined. value * 2 ^ 6 ≤ joined.0) }
    ensures most { IfOk result (λ joined. joined.0 < (value + 1) * 2 ^ 6) }
{
    let (bits, rest) = first_continuation(bytes)?;
    Ok((value * 0x40 + bits, rest))
}

/// The value with the bits of two continuations appended, and the bytes after them.
#[inline(always)]
fn with_two(value: u32, bytes: &[u8]) -> Result<(u32, &[u8]), EncodingError>
    requires room { value < 2 ^ 10 }
    ensures joined { MatchResult result
        (λ joined. (with_continuations value 2 bytes.now ≡ Ok joined.0)
        × (joined.1.now ≡ drop 2 bytes.now))
        (λ fault. with_continuations value 2 bytes.now ≡ Err fault) }
    ensures least { IfOk result (λ joined. value * 2 ^ 12 ≤ joined.0) }
    ensures most { IfOk result (λ joined. joined.0 < (value + 1) * 2 ^ 12) }
{
    let (bits, rest) = first_continuation(bytes)?;
    with_one(value * 0x40 + bits, rest)
}

/// The value with the bits of three continuations appended, and the bytes after them.
#[inline(always)]
fn with_three(value: u32, bytes: &[u8]) -> Result<(u32, &[u8]), EncodingError>
    requires room { value < 2 ^ 4 }
    ensures joined { MatchResult result
        (λ joined. (with_continuations value 3 bytes.now ≡ Ok joined.0)
        × (joined.1.now ≡ drop 3 bytes.now))
        (λ fault. with_continuations value 3 bytes.now ≡ Err fault) }
    ensures least { IfOk result (λ joined. value * 2 ^ 18 ≤ joined.0) }
    ensures most { IfOk result (λ joined. joined.0 < (value + 1) * 2 ^ 18) }
{
    let (bits, rest) = first_continuation(bytes)?;
    with_two(value * 0x40 + bits, rest)
}
