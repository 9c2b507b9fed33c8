//! From bytes to 16-bit units.
ghost use Rattle.std.specs.{Prelude.◌≡◌, Prelude.◌∷◌, Prelude.ℕ, Prelude.List, Prelude.Result, List.AllByRecursion};
ghost use Rattle.std.specs.Iterator.{YieldsFirst, item_count};
ghost use Rattle.wtf8_core.specs.{Items.AreUnitItems, Items.unit_items, Encoder.pending_items, Encoder.IsCodePointItem, Encoder.encoder_items, declared.fault.EncodingError.EncodingError};

use crate::code_points::CodePoints;
use crate::fault::EncodingError;
use crate::surrogate::pair_units;
use std::marker::Model;

/// An iterator over the 16-bit units of the code points that bytes encode, and over the faults of
/// the bytes.
///
/// It is returned by [`encode_wide`]. After a fault the items are those of the bytes after the
/// rejected part. After the last byte `next` always returns `None`. In os_str_bytes 7.2.1 it is the
/// private `EncodeWide`, over any iterator of bytes.
#[derive(Drop)]
pub struct EncodeWide<'a> {
    code_points: CodePoints<'a>,
    pending: Option<u16>,
}

impl<'a> Model for EncodeWide<'a> {
    ghost Value = { List (Result ℕ EncodingError) };

    ghost view = { λ it. encoder_items it.pending it.code_points };

    ghost invariant = { λ it. AllByRecursion IsCodePointItem it.code_points };
}

/// Iterates over the 16-bit units of bytes: those of the code points that the bytes encode as WTF-8
/// (RFC 2781, section 2.1), and over the faults of the bytes.
///
/// A code point below 10000 (hexadecimal) is one unit, any other is a pair. The items are those of
/// [`CodePoints`], unit by unit, with the same faults. It doesn't allocate. The bytes that
/// [`DecodeWide`](crate::DecodeWide) makes of units have exactly these units.
///
/// These are the units that `std::os::windows::ffi::OsStrExt::encode_wide` returns for the string
/// with these bytes. For UTF-8 they are those of `str::encode_utf16`.
///
/// ```
/// use os_str_bytes::{EncodingError, encode_wide};
///
/// let mut units = encode_wide(b"\xF0\x90\x80\x80\xC0A");
/// assert_eq!(rt; units.next(), Some(Ok(0xD800)));
/// assert_eq!(rt; units.next(), Some(Ok(0xDC00)));
/// assert_eq!(rt; units.next(), Some(Err(EncodingError::Byte(0xC0))));
/// assert_eq!(rt; units.next(), Some(Ok(0x41)));
/// ```
#[tactic(auto, using(crate::proofs::lemmas::reader::FirstErr::items_are_code_points))]
#[inline(always)]
pub fn encode_wide<'a>(bytes: &'a [u8]) -> EncodeWide<'a>
    ensures { AreUnitItems bytes.now result }
{
    EncodeWide {
        code_points: CodePoints::new(bytes),
        pending: None,
    }
}

/// The first unit of a code point, and the second one if it has two; or the fault.
#[tactic(auto, unfolding(crate::specs::CodePoint::encode_utf16))]
#[inline(always)]
fn first_unit(item: Result<u32, EncodingError>) -> (Result<u16, EncodingError>, Option<u16>)
    requires { IsCodePointItem item }
    ensures { unit_items item ≡ result.0 ∷ pending_items result.1 }
{
    match item {
        Err(fault) => (Err(fault), None),
        Ok(c) if c < 0x1_0000 => (Ok(c as u16), None),
        Ok(c) => {
            let (high, low) = pair_units(c);
            (Ok(high), Some(low))
        }
    }
}

impl<'a> Iterator for EncodeWide<'a> {
    type Item = Result<u16, EncodingError>;

    ghost next_gives = { YieldsFirst (λ rest. rest) };

    ghost remaining = { item_count (λ rest. rest) };

    #[inline(always)]
    fn next(&mut self) -> Option<Result<u16, EncodingError>> {
        if let Some(unit) = self.pending {
            self.pending = None;
            return Some(Ok(unit));
        }
        let item = self.code_points.next()?;
        let (unit, pending) = first_unit(item);
        self.pending = pending;
        Some(unit)
    }
}
