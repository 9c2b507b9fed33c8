//! The letters of a line: its bytes, where a backslash quotes the next byte.
ghost use Rattle.std.specs.Prelude.{◌≡◌, ◌∷◌, ◌<◌, ◌+◌, [], length, MatchOption, IfOk, IfSome};
ghost use Rattle.os_ignore.specs.Letters.{is_plain, is_simple, kind_of, own_byte, IsLetter, AreLetters, IsDangling};

use std::alloc::{AllocError, Allocator};

/// A byte of a line, and whether a backslash quotes it.
#[derive(Clone, Copy)]
pub struct Letter {
    pub byte: u8,
    pub quoted: bool,
}

/// What a letter is in a pattern.
#[derive(Clone, Copy)]
pub enum Kind {
    /// A `/`, quoted or not.
    Slash,
    /// `*`
    Star,
    /// `?`
    Question,
    /// `[`
    Bracket,
    /// A letter that matches itself.
    Literal,
}

impl Letter {
    /// Whether it is this byte, and not quoted.
    pub fn is_plain(self, byte: u8) -> bool
        ensures { result ≡ is_plain self byte }
    {
        !self.quoted && self.byte == byte
    }

    /// Whether it matches itself alone, and isn't quoted.
    pub fn is_simple(self) -> bool
        ensures { result ≡ is_simple self }
    {
        if self.quoted {
            return false;
        }
        match self.kind() {
            Kind::Slash | Kind::Literal => true,
            Kind::Star | Kind::Question | Kind::Bracket => false,
        }
    }

    /// The byte that it matches: the small letter of a capital that isn't quoted, if the file folds.
    pub fn own_byte(self, folds: bool) -> u8
        ensures { result ≡ own_byte folds self }
    {
        if folds && !self.quoted {
            self.byte.to_ascii_lowercase()
        } else {
            self.byte
        }
    }

    /// What it is in a pattern.
    pub fn kind(self) -> Kind
        ensures { result ≡ kind_of self }
    {
        if self.byte == b'/' {
            Kind::Slash
        } else if self.quoted {
            Kind::Literal
        } else if self.byte == b'*' {
            Kind::Star
        } else if self.byte == b'?' {
            Kind::Question
        } else if self.byte == b'[' {
            Kind::Bracket
        } else {
            Kind::Literal
        }
    }
}

/// The first letter, and the text after it; `None` where the text is a backslash alone.
fn first_letter(first: u8, rest: &[u8]) -> Option<(Letter, &[u8])>
    ensures letter { MatchOption result (first ∷ rest.now ≡ 0x5C ∷ [])
        (λ p. IsLetter (first ∷ rest.now) p.0 p.1.now) }
    ensures shorter { IfSome result (λ p. length p.1.now < length rest.now + 1) }
{
    if first != b'\\' {
        let letter = Letter {
            byte: first,
            quoted: false,
        };
        return Some((letter, rest));
    }
    let (byte, after) = rest.split_first()?;
    let letter = Letter {
        byte: *byte,
        quoted: true,
    };
    Some((letter, after))
}

/// The letters of a text; `None` where a backslash at its end quotes nothing.
pub(crate) fn letters<A: Allocator>(
    alloc: A,
    text: &[u8],
) -> Result<Option<Vec<Letter, A>>, AllocError>
    ensures { IfOk result (λ read. MatchOption read (IsDangling text.entry.now)
        (λ letters. AreLetters text.entry.now letters.items)) }
{
    let mut letters = Vec::new(alloc);
    let mut left = text;
    while let Some((first, rest)) = left.split_first() {
        let Some((letter, after)) = first_letter(*first, rest) else {
            return Ok(None);
        };
        letters.push(letter)?;
        left = after;
    }
    Ok(Some(letters))
}
