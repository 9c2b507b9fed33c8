//! The letters of a pattern's text.
ghost use Rattle.std.specs.Prelude.{◌≡◌, IfOk};
ghost use Rattle.glob_text.specs.Symbols.{begins_with, AreSymbols};

use std::alloc::{AllocError, Allocator};
use wildcards::Letters;

/// A letter of a pattern's text, and its byte index there.
#[derive(Clone, Copy)]
pub struct Symbol {
    pub letter: u32,
    pub index: usize,
}

/// The letters of a text.
pub(crate) fn symbols<L: Letters, A: Allocator>(
    alloc: A,
    text: &[u8],
) -> Result<Vec<Symbol, A>, AllocError>
    requires { L.formed text.now }
    ensures { IfOk result (λ symbols. AreSymbols L.formed L.letters text.now symbols.items) }
{
    let mut symbols = Vec::with_capacity(alloc, text.len())?;
    let mut left = text;
    while !left.is_empty() {
        let index = text.len() - left.len();
        let (letter, rest) = L::split_first(left);
        symbols.push(Symbol { letter, index })?;
        left = rest;
    }
    Ok(symbols)
}

/// Whether a text begins with this letter.
pub(crate) fn begins_with(letter: u32, text: &[Symbol]) -> bool
    ensures { result ≡ begins_with letter text.now }
{
    match text.first() {
        Some(first) => first.letter == letter,
        None => false,
    }
}
