//! A pattern with its choices.
ghost use Rattle.std.specs.Prelude.{◌↔◌, IsTrue};
ghost use Rattle.wildcards.specs.Sets.{MatchesChoice};

use crate::letters::Letters;
use crate::options::Options;
use crate::part::Part;
use crate::path::matches;
use crate::piece::Piece;
use std::alloc::{Allocator, Global};

/// A pattern without alternatives: parts, whose wildcards are `**`.
#[derive(Drop)]
pub struct Choice<A: Allocator = Global> {
    pub pieces: Vec<Piece<Part<A>>, A>,
}

/// Whether one of the choices matches a whole path. The bytes are read by `L`. It doesn't allocate.
///
/// ```
/// use wildcards::{Bytes, Choice, Options, Piece, Separators, matches_choice};
///
/// let options = Options { separators: Separators::Slash, literal_leading_dot: false };
/// let mut choices = Vec::new(alloc);
/// assert!(rt; !matches_choice::<Bytes, _>(options, &choices, b"a/b"));
/// let mut pieces = Vec::new(alloc);
/// pieces.push(Piece::Many)?;
/// choices.push(Choice { pieces })?;
/// assert!(rt; matches_choice::<Bytes, _>(options, &choices, b"a/b"));
/// ```
#[inline(always)]
pub fn matches_choice<L: Letters, A: Allocator>(
    options: Options,
    choices: &[Choice<A>],
    path: &[u8],
) -> bool
    requires { L.formed path.now }
    ensures { IsTrue result ↔ MatchesChoice options choices.entry.now (L.letters path.now) }
{
    if let [only] = choices {
        return matches::<L, A>(options, &only.pieces, path);
    }
    matches_any::<L, A>(options, choices, path)
}

/// Matches a path with each choice in turn. Most patterns have one choice and need no loop.
#[inline(never)]
fn matches_any<L: Letters, A: Allocator>(
    options: Options,
    choices: &[Choice<A>],
    path: &[u8],
) -> bool
    requires { L.formed path.now }
    ensures { IsTrue result ↔ MatchesChoice options choices.entry.now (L.letters path.now) }
{
    let mut left = choices;
    while let Some((choice, rest)) = left.split_first() {
        if matches::<L, A>(options, &choice.pieces, path) {
            return true;
        }
        left = rest;
    }
    false
}
