//! What matches one component of a path.
ghost use Rattle.std.specs.Prelude.{◌≡◌, ◌↔◌, true, ℕ, Some, IsTrue, IfOk, IfSome, MatchOption};
ghost use Rattle.std.specs.declared.vec.Vec.{Vec};
ghost use Rattle.wildcards.specs.declared.separators.Separators.{Separators};
ghost use Rattle.wildcards.specs.Cuts.{IsPlain};
ghost use Rattle.wildcards.specs.Literals.{spells, spells_some};

use crate::component::{is_plain, split_first, strip_text};
use crate::hidden::{begins_with_dot, is_hidden};
use crate::letters::Letters;
use crate::literal::literal_text;
use crate::options::Options;
use crate::piece::{Item, Piece};
use crate::run::{begins_otherwise, fits_pieces};
use std::alloc::{AllocError, Allocator, Global};

/// What matches one component of a path: pieces, whose wildcards are `*`.
#[derive(Drop)]
pub struct Part<A: Allocator = Global> {
    pieces: Vec<Piece<Item<A>>, A>,
    // The text that it matches alone, if it is one of ASCII, without `/` and `\`.
    literal: Option<Vec<u8, A>>,
    ghost text: { spells_some pieces.items literal ≡ true },
    ghost plain: { (text : Vec ℕ A) → literal ≡ Some text → (o : Separators)
        → IsPlain o text.items },
}

impl<A: Allocator> Part<A> {
    ghost use Rattle.wildcards.specs.Match.{FitsComponent};
    ghost use Rattle.wildcards.specs.PathSteps.{FirstDiffers, FirstFits};

    /// The part of these pieces.
    ///
    /// # Errors
    ///
    /// `AllocError` if memory is refused.
    ///
    /// ```
    /// use wildcards::{Item, Part, Piece};
    ///
    /// let mut pieces = Vec::new(alloc);
    /// pieces.push(Piece::Many)?;
    /// pieces.push(Piece::One(Item::Any))?;
    /// assert!(rt; Part::new(alloc, pieces).is_ok());
    /// ```
    pub fn new(alloc: A, pieces: Vec<Piece<Item<A>>, A>) -> Result<Self, AllocError>
    where
        A: Copy,
        ensures { IfOk result (λ part. part.pieces ≡ pieces) }
    {
        match literal_text(alloc, &pieces)? {
            Some(text) if is_plain(&text) => Ok(Part {
                pieces,
                literal: Some(text),
            }),
            _ => Ok(Part {
                pieces,
                literal: None,
            }),
        }
    }

    /// Its pieces.
    #[inline(always)]
    pub(crate) fn pieces(&self) -> &[Piece<Item<A>>]
        ensures { result.now ≡ self.now.pieces.items }
    {
        &self.pieces
    }

    /// The text that it matches alone, if it is one of ASCII.
    #[inline(always)]
    pub(crate) fn text(&self) -> Option<&[u8]>
        ensures { IfSome result (λ text. spells self.now.pieces.items text.now ≡ true) }
    {
        match &self.literal {
            Some(text) => Some(text.as_slice()),
            None => None,
        }
    }

    /// What is left of a path after its first component, if it matches that.
    #[inline(always)]
    pub(crate) fn strip_first<'a, L: Letters>(
        &self,
        options: Options,
        path: &'a [u8],
    ) -> Option<Option<&'a [u8]>>
        requires { L.formed path.now }
        ensures { MatchOption result
            (FirstDiffers L.formed L.letters options self.now path.entry.now)
            (λ more. FirstFits L.formed L.letters options self.now path.entry.now more) }
    {
        if let Some(text) = &self.literal {
            return strip_text(options.separators, text, path);
        }
        if begins_otherwise::<L, A>(&self.pieces, path) {
            return None;
        }
        let (component, more) = split_first::<L>(options.separators, path);
        if self.fits::<L>(options.literal_leading_dot, component) {
            Some(more)
        } else {
            None
        }
    }

    /// Whether it matches a whole component.
    #[inline(always)]
    pub(crate) fn fits<L: Letters>(&self, dot: bool, component: &[u8]) -> bool
        requires { L.formed component.now }
        ensures { IsTrue result ↔ FitsComponent dot self.now (L.letters component.now) }
    {
        if let Some(text) = &self.literal {
            return component == text.as_slice();
        }
        if is_hidden::<L>(dot, component) && !begins_with_dot(&self.pieces) {
            return false;
        }
        fits_pieces::<L, A>(&self.pieces, component)
    }
}
