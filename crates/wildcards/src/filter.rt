//! Which choices of a set a path may match, by the keys that they need.
ghost use Rattle.std.specs.Prelude.{◌≡◌, ◌⊎◌, ℕ, true, length, OnOk, IfOk, IfSome};
ghost use Rattle.wildcards.specs.Tables.{slot_of, places_at, bucket};
ghost use Rattle.wildcards.specs.Sets.{Has};
ghost use Rattle.wildcards.specs.Filters.{Asks, AsksName, Grows, IsCovered};
ghost use Rattle.wildcards.specs.Small.{IsNeededBy};

use crate::digest::digest;
use crate::indices::has;
use crate::key::{Key, Kind, key_of};
use crate::options::Options;
use crate::part::Part;
use crate::piece::Piece;
use crate::small::small_parts;
use std::alloc::{AllocError, Allocator};

/// Where a choice is: the index of its pattern, and its own in that.
#[derive(Clone, Copy)]
pub(crate) struct Place {
    pub pattern: usize,
    pub choice: usize,
}

/// The places of choices in buckets, by their keys. Places of different keys may be in one.
#[derive(Drop)]
pub(crate) struct Filter<A: Allocator> {
    /// Whether keys are small letters. Then only paths of ASCII are looked up, by theirs.
    pub folds: bool,
    pub buckets: Vec<Vec<Place, A>, A>,
    /// Those of choices that need no key.
    pub others: Vec<Place, A>,
    /// Whether there are keys that are whole paths.
    pub paths: bool,
    /// Whether there are keys that are extensions.
    pub extensions: bool,
    /// The sizes of the keys of components, of the last one, and of its end.
    pub components: Vec<usize, A>,
    pub names: Vec<usize, A>,
    pub ends: Vec<usize, A>,
}

/// Notes a size, once.
fn note_size<A: Allocator>(sizes: &mut Vec<usize, A>, size: usize) -> Result<(), AllocError>
    ensures noted { OnOk result (Has sizes.new.items size) }
    ensures kept { OnOk result ((n : ℕ) → Has sizes.old.items n → Has sizes.new.items n) }
{
    if !has(sizes, size) {
        sizes.push(size)?;
    }
    Ok(())
}

/// The key of a pattern, if it has one: of small letters, if it folds.
fn key_by<A: Allocator + Copy>(
    alloc: A,
    folds: bool,
    options: Options,
    pieces: &[Piece<Part<A>>],
) -> Result<Option<Key<A>>, AllocError>
    ensures { IfOk result (λ key. IfSome key (λ key. IsNeededBy folds options pieces.entry.now
        key.kind key.size key.text.items)) }
{
    if folds {
        let small = small_parts(alloc, pieces)?;
        return key_of(alloc, options, &small);
    }
    key_of(alloc, options, pieces)
}

impl<A: Allocator> Filter<A> {
    /// Makes a filter with `count` buckets.
    pub fn new(alloc: A, folds: bool, count: usize) -> Result<Self, AllocError>
    where
        A: Copy,
    {
        let mut buckets = Vec::new(alloc);
        let mut left = count;
        while left > 0 {
            buckets.push(Vec::new(alloc))?;
            left -= 1;
        }
        Ok(Filter {
            folds,
            buckets,
            others: Vec::new(alloc),
            paths: false,
            extensions: false,
            components: Vec::new(alloc),
            names: Vec::new(alloc),
            ends: Vec::new(alloc),
        })
    }

    /// The index of a key's bucket. There are as many as a power of two, or none.
    #[inline(always)]
    pub fn slot(&self, key: &[u8]) -> usize
        ensures { result ≡ slot_of self.now.folds (length self.now.buckets.items) key.now }
    {
        let count = self.buckets.len();
        if count == 0 {
            return 0;
        }
        digest(self.folds, key) as usize & (count - 1)
    }

    /// The places in the bucket of an index.
    #[inline(always)]
    pub fn places(&self, slot: usize) -> &[Place]
        ensures { result.now ≡ places_at self.now.buckets.items slot }
    {
        let buckets = self.buckets.as_slice();
        if slot < buckets.len() {
            return buckets[slot].as_slice();
        }
        &[]
    }

    /// Whether the last component is needed, for its start or its end.
    #[inline(always)]
    pub fn asks_name(&self) -> bool
        ensures { AsksName self.now → result ≡ true }
    {
        if !self.names.is_empty() {
            return true;
        }
        !self.ends.is_empty()
    }

    /// Notes that there are keys of this kind and size.
    fn note(&mut self, kind: Kind, size: usize) -> Result<(), AllocError>
        ensures asked { OnOk result (Asks self.new kind size) }
        ensures grows { OnOk result (Grows self.old self.new) }
    {
        match kind {
            Kind::Path => self.paths = true,
            Kind::Component => note_size(&mut self.components, size)?,
            Kind::Name => note_size(&mut self.names, size)?,
            Kind::Extension => self.extensions = true,
            Kind::End => note_size(&mut self.ends, size)?,
        }
        Ok(())
    }

    /// Puts a place into a key's bucket.
    fn list(&mut self, key: &[u8], place: Place) -> Result<(), AllocError>
        ensures listed { OnOk result (Has self.new.others.items place
            ⊎ Has (bucket self.new.folds self.new.buckets.items key.now) place) }
        ensures grows { OnOk result (Grows self.old self.new) }
    {
        let slot = self.slot(key);
        if slot < self.buckets.len() {
            self.buckets[slot].push(place)?;
            return Ok(());
        }
        self.others.push(place)?;
        Ok(())
    }

    /// Adds the place of a choice that has these pieces.
    pub fn add(
        &mut self,
        alloc: A,
        options: Options,
        pieces: &[Piece<Part<A>>],
        place: Place,
    ) -> Result<(), AllocError>
    where
        A: Copy,
        ensures covered { OnOk result (IsCovered options self.new place pieces.now) }
        ensures grows { OnOk result (Grows self.old self.new) }
    {
        let Some(key) = key_by(alloc, self.folds, options, pieces)? else {
            self.others.push(place)?;
            return Ok(());
        };
        let text = key.text.as_slice();
        self.note(key.kind, key.size)?;
        self.list(text, place)?;
        Ok(())
    }
}
