//! From 16-bit units to bytes.
ghost use Rattle.std.specs.Prelude.{◌≡◌, ℕ, List, ◌∷◌, ◌<◌, ◌^◌, ◌/◌, ◌%◌, [], drop, MatchOption};
ghost use Rattle.std.specs.Iterator.{YieldsFirst, item_count};
ghost use Rattle.wtf8_core.specs.{Wtf8.HasUnits, Decoder.decoder_bytes};

use crate::forms::packed_form;
use crate::surrogate::{is_pair, paired};
use std::marker::Model;

/// An iterator over the bytes of 16-bit units: the only WTF-8 bytes with these units.
///
/// A high surrogate directly followed by a low one is a pair, which is one code point of four bytes
/// (RFC 2781, section 2.2). Every other unit is a code point of its own, also a lone surrogate
/// (WTF-8). After the last byte `next` always returns `None`. It doesn't allocate.
///
/// These are the bytes of the string that `std::os::windows::ffi::OsStringExt::from_wide` returns;
/// if there is no lone surrogate, they are those of the text that `String::from_utf16` returns. In
/// os_str_bytes 7.2.1 it is the private `DecodeWide`, over any iterator of units.
///
/// The bytes of D83D, D83D, DE00 (hexadecimal) are ED A0 BD F0 9F 98 80.
#[derive(Drop)]
pub struct DecodeWide<'a> {
    units: &'a [u16],
    // The index of the next unit to be read.
    at: usize,
    // The bytes of a form that are still to come, the next one in the lowest bits; 0 if there are
    // none.
    pending: u32,
}

impl<'a> Model for DecodeWide<'a> {
    ghost Value = { List ℕ };

    ghost view = { λ it. decoder_bytes it.pending (drop it.at it.units.now) };

    ghost invariant = { λ it. it.pending < 2 ^ 24 };
}

impl<'a> DecodeWide<'a> {
    /// Iterates over the bytes of any units.
    ///
    /// ```
    /// use os_str_bytes::DecodeWide;
    ///
    /// let mut bytes = DecodeWide::new(&[0xE9]);
    /// assert_eq!(rt; bytes.next(), Some(0xC3));
    /// assert_eq!(rt; bytes.next(), Some(0xA9));
    /// assert_eq!(rt; bytes.next(), None);
    /// ```
    #[tactic(auto, using(crate::proofs::lemmas::units::OneToOne::decoded))]
    #[inline(always)]
    pub fn new(units: &'a [u16]) -> DecodeWide<'a>
        ensures { HasUnits result units.now }
    {
        DecodeWide {
            units,
            at: 0,
            pending: 0,
        }
    }
}

/// Returns the next bytes, packed into a number with the first of them in the lowest bits, and the
/// index of the next unit to read. They are the pending bytes of a form if there are any. Otherwise
/// they are the bytes of the code point that begins at index `at` of the units.
///
/// Units below the surrogates are tested for first: most units are, in text of every script, and
/// such a unit is never half of a pair.
#[tactic(auto, using(crate::proofs::lemmas::units::OneToOne::decoding))]
#[inline(always)]
fn next_bytes(pending: u32, units: &[u16], at: usize) -> Option<(u32, usize)>
    requires { pending < 2 ^ 24 }
    ensures { MatchOption result (decoder_bytes pending (drop at units.now) ≡ [])
        (λ r. decoder_bytes pending (drop at units.now)
        ≡ r.0 % 0x100 ∷ decoder_bytes (r.0 / 0x100) (drop r.1 units.now)) }
{
    if pending != 0 {
        return Some((pending, at));
    }
    if at >= units.len() {
        return None;
    }
    let unit = units[at];
    let after = at + 1;
    if unit < 0xD800 {
        return Some((packed_form(u32::from(unit)), after));
    }
    if after < units.len() && is_pair(unit, units[after]) {
        return Some((packed_form(paired(unit, units[after])), after + 1));
    }
    Some((packed_form(u32::from(unit)), after))
}

impl<'a> Iterator for DecodeWide<'a> {
    type Item = u8;

    ghost next_gives = { YieldsFirst (λ rest. rest) };

    ghost remaining = { item_count (λ rest. rest) };

    #[inline(always)]
    fn next(&mut self) -> Option<u8> {
        let (bytes, at) = next_bytes(self.pending, self.units, self.at)?;
        self.pending = bytes / 0x100;
        self.at = at;
        Some((bytes % 0x100) as u8)
    }
}
