//! The units of Windows strings.
ghost use Rattle.std.specs.Prelude.{◌≡◌, ℕ, List, [], map, Ok, IsOk, IfOk};
ghost use Rattle.std.specs.Iterator.{YieldsFirst, item_count};
ghost use Rattle.wtf8_core.specs.{Wtf8.HasUnits, UnitsOf.ok_values, Truncated.IsTruncated};
ghost use Rattle.platform_str.specs.Strings.{bytes, string_vec_of};

use crate::from_wide::{write_bytes, write_wtf8, wtf8_len};
use crate::os_str::OsStr;
use crate::os_string::OsString;
use crate::platform::{Platform, Windows};
use crate::to_wide::push_units;
use crate::wide_buffer::write_units;
use std::alloc::{AllocError, Allocator};
use std::marker::Model;
use wtf8_core::EncodeWide;

/// An iterator over the 16-bit units of a Windows string, from the first on. After the last unit
/// `next` always returns `None`.
#[derive(Drop)]
pub struct WideUnits<'a> {
    items: EncodeWide<'a>,
}

impl<'a> Model for WideUnits<'a> {
    ghost Value = { List ℕ };

    ghost view = { λ it. ok_values it.items };

    ghost invariant = { λ it. it.items ≡ map Ok (ok_values it.items) };
}

impl<'a> Iterator for WideUnits<'a> {
    type Item = u16;

    ghost next_gives = { YieldsFirst (λ rest. rest) };

    ghost remaining = { item_count (λ rest. rest) };

    #[inline(always)]
    fn next(&mut self) -> Option<u16> {
        self.items.next()?.ok()
    }
}

impl<'a> OsStr<'a, Windows> {
    /// An iterator over the string's 16-bit units (RFC 2781; a surrogate is a unit of its own), as
    /// std's `OsStrExt::encode_wide` on Windows. It doesn't allocate.
    ///
    /// ```
    /// use os_str_bytes::{OsStr, Windows};
    ///
    /// let mut units = OsStr::<Windows>::new("\u{1F600}").encode_wide();
    /// assert_eq!(rt; units.next(), Some(0xD83D));
    /// assert_eq!(rt; units.next(), Some(0xDE00));
    /// assert_eq!(rt; units.next(), None);
    /// ```
    pub fn encode_wide(self) -> WideUnits<'a>
        ensures has_units { HasUnits (bytes self.entry) result }
        ensures units { result ≡ ⟦<Windows as Platform>⟧.units (bytes self.entry) }
    {
        WideUnits {
            items: wtf8_core::encode_wide(self.as_encoded_bytes()),
        }
    }

    /// Returns the string's 16-bit units, all at once, in a vector: those of
    /// [`OsStr::encode_wide`]. It makes one allocation, and none if the string is empty.
    ///
    /// It is equivalent to collecting `OsStrExt::encode_wide` of std on Windows, and, if the string
    /// is a text, to collecting `str::encode_utf16`.
    ///
    /// # Errors
    ///
    /// `AllocError` if the allocation fails.
    ///
    /// ```
    /// use os_str_bytes::{OsStr, OsStrBytes, OsString, OsStringBytes, Windows};
    ///
    /// let raw = b"\xF0\x9F\x98\x80\xED\xB0\x80".to_vec(alloc)?;
    /// let string = OsString::<Windows>::from_raw_vec(raw)?;
    /// let units = string.as_os_str().to_wide(alloc)?;
    /// assert_eq!(rt; units.as_slice(), [0xD83D, 0xDE00, 0xDC00].as_slice());
    /// ```
    pub fn to_wide<A: Allocator>(self, alloc: A) -> Result<Vec<u16, A>, AllocError>
        ensures has_units { IfOk result (λ wide. HasUnits (bytes self.entry) wide.items) }
        ensures units { IfOk result (λ wide. ⟦<Windows as Platform>⟧.units (bytes self.entry)
            ≡ wide.items) }
        ensures without_memory { bytes self.entry ≡ [] → IsOk result }
    {
        let encoded = self.as_encoded_bytes();
        let mut wide = Vec::with_capacity(alloc, encoded.len())?;
        push_units(&mut wide, encoded)?;
        Ok(wide)
    }

    /// Writes the string's 16-bit units into a buffer and returns the number of units of the string
    /// (own call). The units are those of [`OsStr::encode_wide`], truncated if the buffer is too
    /// short for them. The rest of the buffer is unchanged. It doesn't allocate, and with an empty
    /// buffer it only counts.
    ///
    /// A string has no more units than bytes. A buffer may end between the two units of a pair.
    ///
    /// ```
    /// use os_str_bytes::{OsStr, Windows};
    ///
    /// let string = OsStr::<Windows>::new("a\u{1F600}");
    /// let mut buffer = [0; 4];
    /// assert_eq!(rt; string.write_wide(&mut buffer), 3);
    /// assert_eq!(rt; buffer.as_slice(), [0x61, 0xD83D, 0xDE00, 0].as_slice());
    /// assert_eq!(rt; string.write_wide(&mut []), 3);
    /// ```
    pub fn write_wide(self, buffer: &mut [u16]) -> usize
        ensures has_units { (units : List ℕ) × (HasUnits (bytes self.entry) units
            × IsTruncated units buffer.old buffer.new result) }
        ensures units { IsTruncated (⟦<Windows as Platform>⟧.units (bytes self.entry)) buffer.old
            buffer.new result }
    {
        write_units(self.as_encoded_bytes(), buffer)
    }

    /// Writes the bytes of the one string with these 16-bit units into a buffer, and returns the
    /// number of bytes of the string (own call). The string is that of [`OsString::from_wide`],
    /// truncated if the buffer is too short for it. The rest of the buffer is unchanged. It doesn't
    /// allocate, and with an empty buffer it only counts.
    ///
    /// A unit adds at most three bytes. If the buffer has room for all bytes, they are a string's,
    /// and a prefix of them may end within a character.
    ///
    /// ```
    /// use os_str_bytes::{OsStr, Windows};
    ///
    /// let mut buffer = [b'-'; 6];
    /// let len = OsStr::<Windows>::write_from_wide(&[0x61, 0xD83D, 0xDE00], &mut buffer);
    /// assert_eq!(rt; len, 5);
    /// assert_eq!(rt; buffer.as_slice(), b"a\xF0\x9F\x98\x80-".as_slice());
    /// ```
    pub fn write_from_wide(units: &[u16], buffer: &mut [u8]) -> usize
        ensures has_units { (string : List ℕ) × (HasUnits string units.now
            × IsTruncated string buffer.old buffer.new result) }
    {
        write_bytes(units, buffer)
    }
}

impl<A: Allocator> OsString<Windows, A> {
    /// Returns the one string with these 16-bit units, as std's `OsStringExt::from_wide` on
    /// Windows. For the units of [`OsStr::encode_wide`] it returns an equal string. It makes one
    /// allocation, and none if there are no units.
    ///
    /// # Errors
    ///
    /// `AllocError` if the allocation fails.
    ///
    /// ```
    /// use os_str_bytes::{OsStr, OsString, Windows};
    ///
    /// let string = OsString::<Windows>::from_wide(alloc, &[0xD83D, 0xDE00])?;
    /// assert!(rt; string.as_os_str() == OsStr::new("\u{1F600}"));
    /// ```
    pub fn from_wide(alloc: A, units: &[u16]) -> Result<Self, AllocError>
        ensures has_units { IfOk result
            (λ string. HasUnits (string_vec_of string).items units.now) }
        ensures units { IfOk result (λ string. ⟦<Windows as Platform>⟧.units
            (string_vec_of string).items ≡ units.now) }
        ensures without_memory { units.now ≡ [] → IsOk result }
    {
        let len = wtf8_len(units);
        let mut vec = Vec::with_capacity(alloc, len)?;
        vec.resize(len, 0)?;
        write_wtf8(units, vec.as_mut_slice());
        Ok(OsString::from_encoded_bytes_unchecked(vec))
    }
}
