//! What a pattern is made of.
ghost use Rattle.std.specs.Prelude.{◌≡◌, ◌↔◌, IsTrue};
ghost use Rattle.wildcards.specs.Match.{Fits};

use crate::class::Class;
use crate::range::small_letter;
use std::alloc::{AllocError, Allocator, Global};

/// A wildcard, or what matches one letter or one component.
#[derive(Clone, Copy, Drop)]
pub enum Piece<X> {
    /// Any number: `*` of letters, `**` of components.
    Many,
    /// One.
    One(X),
}

/// What matches one letter.
#[derive(Drop)]
pub enum Item<A: Allocator = Global> {
    /// `?`: any letter.
    Any,
    /// A letter that matches itself.
    Literal(u32),
    /// A small letter of ASCII, which matches itself and its capital: it matches each letter whose small
    /// letter it is. A capital is no letter's small letter, and matches nothing.
    EitherCase(u32),
    /// A class, as `[a-z]`.
    OneOf(Class<A>),
}

impl<A: Allocator> Item<A> {
    /// Whether it matches this letter.
    #[inline(always)]
    pub(crate) fn fits(&self, letter: u32) -> bool
        ensures { IsTrue result ↔ Fits self.now letter }
    {
        match self {
            Item::Any => true,
            Item::Literal(own) => *own == letter,
            Item::EitherCase(small) => small_letter(letter) == *small,
            Item::OneOf(class) => class.permits(letter),
        }
    }
}

impl<A: Allocator> Clone for Item<A> {
    ghost use Rattle.wildcards.specs.Classes.{IsItemClone};

    ghost is_clone = { IsItemClone };

    /// Clones the item. A class shares its memory with its clone.
    ///
    /// # Errors
    ///
    /// As for a class.
    fn clone(&self) -> Result<Self, AllocError> {
        match self {
            Item::Any => Ok(Item::Any),
            Item::Literal(letter) => Ok(Item::Literal(*letter)),
            Item::EitherCase(small) => Ok(Item::EitherCase(*small)),
            Item::OneOf(class) => Ok(Item::OneOf(class.clone()?)),
        }
    }
}
