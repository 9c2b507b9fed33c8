//! Components that begin with a dot.
ghost use Rattle.std.specs.Prelude.{◌≡◌};
ghost use Rattle.wildcards.specs.Components.{is_hidden};
ghost use Rattle.wildcards.specs.Match.{begins_with_dot};

use crate::letters::Letters;
use crate::piece::{Item, Piece};
use std::alloc::Allocator;

/// Whether a component begins with a dot that only a dot matches.
#[inline(always)]
pub(crate) fn is_hidden<L: Letters>(dot: bool, component: &[u8]) -> bool
    requires { L.formed component.now }
    ensures { result ≡ is_hidden dot (L.letters component.now) }
{
    dot && match component.split_first() {
        Some((first, _)) => *first == b'.',
        None => false,
    }
}

/// Whether pieces begin with a dot.
pub(crate) fn begins_with_dot<A: Allocator>(pieces: &[Piece<Item<A>>]) -> bool
    ensures { result ≡ begins_with_dot pieces.now }
{
    match pieces.split_first() {
        Some((Piece::One(Item::Literal(letter)), _)) => *letter == 0x2E,
        _ => false,
    }
}
