//! How the bytes of a path are read as letters.
ghost use Rattle.std.specs.Prelude.{◌<◌, ℕ, List, length};
ghost use Rattle.wildcards.specs.Reading.{IsFirstLetter, LetterLaws};

/// A reading of bytes as letters, which are numbers. A byte of ASCII is a letter of its own
/// wherever it occurs.
pub trait Letters {
    // which bytes are read
    ghost formed: { List ℕ → Type 0 };

    // their letters
    ghost letters: { List ℕ → List ℕ };

    /// The first letter of bytes, and the bytes after it. The bytes are read by it and aren't empty.
    ///
    /// ```
    /// use wildcards::{Bytes, Letters};
    ///
    /// let (letter, rest) = Bytes::split_first(b"ab");
    /// assert!(rt; letter == 0x61 && rest.len() == 1);
    /// ```
    fn split_first(bytes: &[u8]) -> (u32, &[u8])
        requires formed { formed bytes.now }
        requires some { 0 < length bytes.now }
        ensures { IsFirstLetter formed letters bytes.now result.0 result.1.now };

    ghost laws: { LetterLaws formed letters };
}

/// Bytes are letters themselves.
pub struct Bytes;

impl Letters for Bytes {
    ghost use Rattle.wildcards.specs.ByteLetters.{AnyBytes, itself, byte_laws};

    ghost formed = { AnyBytes };

    ghost letters = { itself };

    #[inline(always)]
    fn split_first(bytes: &[u8]) -> (u32, &[u8]) {
        (u32::from(bytes[0]), &bytes[1..])
    }

    ghost laws = { byte_laws };
}
