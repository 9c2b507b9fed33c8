//! Patterns of searches.
ghost use Rattle.std.specs.Prelude.{◌≡◌, ◌<◌, ◌≤◌, ◌↔◌, ℕ, List, length, take};
ghost use Rattle.std.specs.{Char.encode_utf8, Str.IsUtf8, String.string_bytes};
ghost use Rattle.os_str_ext.specs.Patterns.{either_way, char_has_bytes};

/// What can be searched for: a `char`, a `&str` or a `&String`, as a text.
///
/// It is like std's `Pattern`, without closures and sets of characters. A search encodes its
/// pattern once.
pub trait Pattern {
    type __Encoded: Copy + Encoded;

    // the bytes that a search looks for
    ghost text: { Self → List ℕ };

    // that there is at least one byte; for a `char` this needs no proof
    ghost not_empty: { Self → Type 0 };

    ghost not_empty_is: { (pattern : Self) → not_empty pattern ↔ (0 < length (text pattern)) };

    /// The pattern, ready for searches. It doesn't allocate.
    ///
    /// ```
    /// use os_str_bytes::{Encoded, Pattern};
    ///
    /// assert_eq!(rt; '\u{E9}'.encode().as_bytes(), b"\xC3\xA9".as_slice());
    /// assert_eq!(rt; "\u{E9}".encode().as_bytes(), b"\xC3\xA9".as_slice());
    /// ```
    fn encode(self) -> Self::__Encoded
        ensures value { Self.__Encoded.text result ≡ text self }
        ensures utf8 { IsUtf8 (Self.__Encoded.text result) };
}

/// An encoded pattern.
pub trait Encoded {
    // the bytes that a search looks for
    ghost text: { Self → List ℕ };

    /// The pattern's bytes, which are UTF-8.
    ///
    /// ```
    /// use os_str_bytes::{Encoded, Pattern};
    ///
    /// assert_eq!(rt; 'a'.encode().as_bytes(), b"a".as_slice());
    /// ```
    fn as_bytes(&self) -> &[u8]
        ensures value { result.now ≡ text self.now }
        ensures utf8 { IsUtf8 result.now };

    /// The pattern as a text.
    ///
    /// ```
    /// use os_str_bytes::{Encoded, Pattern};
    ///
    /// assert_eq!(rt; '\u{E9}'.encode().as_str(), "\u{E9}");
    /// ```
    fn as_str(&self) -> &str
        ensures { result.now ≡ text self.now };
}

impl Encoded for &str {
    ghost text = { λ s. s.now };

    #[inline(always)]
    fn as_bytes(&self) -> &[u8] {
        str::as_bytes(*self)
    }

    #[inline(always)]
    fn as_str(&self) -> &str {
        *self
    }
}

impl<'a> Pattern for &'a str {
    type __Encoded = &'a str;

    ghost text = { λ s. s.now };

    ghost not_empty = { λ s. 0 < length s.now };

    ghost not_empty_is = { λ s. either_way s.now };

    #[inline(always)]
    fn encode(self) -> &'a str {
        self
    }
}

impl<'a> Pattern for &'a String {
    type __Encoded = &'a str;

    ghost text = { λ s. string_bytes s.now };

    ghost not_empty = { λ s. 0 < length (string_bytes s.now) };

    ghost not_empty_is = { λ s. either_way (string_bytes s.now) };

    #[inline(always)]
    fn encode(self) -> &'a str {
        self.as_str()
    }
}

impl Pattern for char {
    type __Encoded = EncodedChar;

    ghost text = { encode_utf8 };

    ghost not_empty = { λ _. Unit {0} };

    ghost not_empty_is = { char_has_bytes };

    #[inline(always)]
    fn encode(self) -> EncodedChar {
        let mut scratch = [0; 4];
        let text = self.encode_utf8(&mut scratch).as_bytes();
        let length = text.len();
        let mut buffer = [0; 4];
        // copied, since `encode_utf8` doesn't say what it leaves in its buffer
        buffer[..length].copy_from_slice(text);
        EncodedChar { buffer, length }
    }
}

/// The bytes of a `char`.
#[derive(Clone, Copy)]
pub struct EncodedChar {
    buffer: [u8; 4],
    length: usize,
    ghost fits: { length ≤ 4 },
    ghost is_text: { ∥ IsUtf8 (take length buffer) ∥₁ },
}

impl Encoded for EncodedChar {
    ghost text = { λ e. take e.length e.buffer };

    #[inline(always)]
    fn as_bytes(&self) -> &[u8] {
        &self.buffer[..self.length]
    }

    #[inline(always)]
    fn as_str(&self) -> &str {
        unsafe { str::from_utf8_unchecked(&self.buffer[..self.length]) }
    }
}
