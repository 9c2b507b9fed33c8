//! Sets of patterns that a path is matched with at once.
ghost use Rattle.std.specs.Prelude.{◌≡◌, ◌↔◌, ℕ, [], false, IsTrue, IfOk, IfSome, OnOk, OnErr};
ghost use Rattle.wildcards.specs.Filters.{AddsHits, AreCovered, CoversAll, Grows, IsHitAt};
ghost use Rattle.wildcards.specs.Sets.{Has, IsHit, AreFound, AreHits};
ghost use Rattle.wildcards.specs.Small.{IsLookedUp};

use crate::candidates::{Query, Stage, Visited};
use crate::filter::{Filter, Place};
use crate::indices::make_ascending;
use crate::letters::Letters;
use crate::options::Options;
use crate::path::matches;
use crate::pattern::{Choice, matches_choice};
use crate::set::Pattern;
use crate::small::folds;
use std::alloc::{AllocError, Allocator, Global};

/// A set of patterns. A path is matched only with the choices whose literal parts it has. Each
/// choice is listed once: by its whole text, by a component or its first letters, or by the
/// extension or the last letters of its last component. So a path is matched with a choice at most
/// once.
#[derive(Drop)]
pub struct PatternSet<A: Allocator = Global> {
    options: Options,
    patterns: Vec<Pattern<A>, A>,
    filter: Filter<A>,
    ghost covered: { CoversAll options filter patterns.items },
}

/// How many choices there are.
fn choice_count<A: Allocator>(patterns: &[Pattern<A>]) -> usize {
    let mut count: usize = 0;
    for pattern in patterns {
        count = count.saturating_add(pattern.choices.len());
    }
    count
}

/// Returns the number of buckets for this number of choices. It is a power of two, and most buckets
/// are empty, since a wrong candidate costs a match.
fn bucket_count(choices: usize) -> usize {
    let mut count = 64;
    while count < choices && count < 0x1000_0000 {
        count *= 2;
    }
    count * 4
}

/// Adds the choices of the pattern of an index to a filter.
fn add_choices<A: Allocator + Copy>(
    filter: &mut Filter<A>,
    alloc: A,
    options: Options,
    choices: &[Choice<A>],
    pattern: usize,
) -> Result<(), AllocError>
    ensures covered { OnOk result (AreCovered options filter.new pattern 0 choices.entry.now) }
    ensures grows { OnOk result (Grows filter.old filter.new) }
{
    let mut left = choices;
    while let Some((first, rest)) = left.split_first() {
        let choice = choices.len() - left.len();
        filter.add(alloc, options, &first.pieces, Place { pattern, choice })?;
        left = rest;
    }
    Ok(())
}

impl<A: Allocator> PatternSet<A> {
    /// Whether the choice of a place matches a path.
    #[inline(always)]
    fn is_hit_at<L: Letters>(&self, path: &[u8], place: Place) -> bool
        requires { L.formed path.now }
        ensures { IsTrue result ↔ IsHitAt self.now.options self.now.patterns.items
            (L.letters path.now) place }
    {
        if place.pattern < self.patterns.len() {
            let choices = self.patterns[place.pattern].choices.as_slice();
            if place.choice < choices.len() {
                return matches::<L, A>(self.options, &choices[place.choice].pieces, path);
            }
        }
        false
    }

    /// Whether the choice of one of the places matches a path.
    #[inline(always)]
    fn any_hit<L: Letters>(&self, path: &[u8], places: &[Place]) -> bool
        requires formed { L.formed path.now }
        ensures sound { IsTrue result → (i : ℕ) × IsHit self.now.options self.now.patterns.items
            (L.letters path.now) i }
        ensures complete { (place : Place) → Has places.entry.now place → IsHitAt self.now.options
            self.now.patterns.items (L.letters path.now) place → IsTrue result }
    {
        let mut left = places;
        while let Some((place, rest)) = left.split_first() {
            if self.is_hit_at::<L>(path, *place) {
                return true;
            }
            left = rest;
        }
        false
    }

    /// Appends the indices of the patterns whose choice of one of the places matches a path.
    #[inline(always)]
    fn add_hits<L: Letters, B: Allocator>(
        &self,
        path: &[u8],
        places: &[Place],
        found: &mut Vec<usize, B>,
    ) -> Result<(), AllocError>
        requires formed { L.formed path.now }
        ensures { OnOk result (AddsHits self.now.options self.now.patterns.items
            (L.letters path.now) places.entry.now found.old.items found.new.items) }
    {
        let mut left = places;
        while let Some((place, rest)) = left.split_first() {
            left = rest;
            if self.is_hit_at::<L>(path, *place) {
                found.push(place.pattern)?;
            }
        }
        Ok(())
    }

    /// Whether a path isn't looked up, since the set folds and letters beyond ASCII may be those of keys.
    #[inline(always)]
    fn tries_all(&self, path: &[u8]) -> bool
        ensures { result ≡ false → IsLookedUp self.now.filter.folds path.now }
    {
        self.filter.folds && !path.is_ascii()
    }

    /// Whether the pattern of an index matches a path.
    fn is_hit_of<L: Letters>(&self, path: &[u8], index: usize) -> bool
        requires { L.formed path.now }
        ensures { IsTrue result ↔ IsHit self.now.options self.now.patterns.items
            (L.letters path.now) index }
    {
        if index < self.patterns.len() {
            return matches_choice::<L, A>(self.options, &self.patterns[index].choices, path);
        }
        false
    }

    /// Whether a pattern matches a whole path: each is tried.
    fn any_of_all<L: Letters>(&self, path: &[u8]) -> bool
        requires { L.formed path.now }
        ensures { IsTrue result ↔ ((i : ℕ) × IsHit self.now.options self.now.patterns.items
            (L.letters path.now) i) }
    {
        let mut at = 0;
        while at < self.patterns.len() {
            if self.is_hit_of::<L>(path, at) {
                return true;
            }
            at += 1;
        }
        false
    }

    /// Puts the indices of the patterns that match a whole path into an empty vector: each is tried.
    fn add_of_all<L: Letters, B: Allocator>(
        &self,
        path: &[u8],
        found: &mut Vec<usize, B>,
    ) -> Result<(), AllocError>
        requires formed { L.formed path.now }
        requires empty { found.old.items ≡ [] }
        ensures { OnOk result (AreFound self.now.options self.now.patterns.items
            (L.letters path.now) found.new.items) }
    {
        let mut at = 0;
        while at < self.patterns.len() {
            let index = at;
            at += 1;
            if self.is_hit_of::<L>(path, index) {
                found.push(index)?;
            }
        }
        Ok(())
    }

    /// Puts the indices of the patterns that match a whole path into an empty vector, in any order.
    #[inline(always)]
    fn add_matches<L: Letters, B: Allocator>(
        &self,
        path: &[u8],
        found: &mut Vec<usize, B>,
    ) -> Result<(), AllocError>
        requires formed { L.formed path.now }
        requires empty { found.old.items ≡ [] }
        ensures { OnOk result (AreFound self.now.options self.now.patterns.items
            (L.letters path.now) found.new.items) }
    {
        if self.tries_all(path) {
            return self.add_of_all::<L, B>(path, found);
        }
        let query = Query::new(&self.filter, self.options.separators, path);
        self.add_hits::<L, B>(path, &self.filter.others, found)?;
        let mut visited = Visited::new();
        let mut stage = Stage::Path;
        while let Some((places, more)) = query.next(stage, &mut visited) {
            self.add_hits::<L, B>(path, places, found)?;
            stage = more;
        }
        Ok(())
    }

    /// The set of these patterns, for these options.
    ///
    /// # Errors
    ///
    /// `AllocError` if memory is refused.
    ///
    /// ```
    /// use wildcards::{Bytes, Options, Pattern, PatternSet, Separators};
    ///
    /// let options = Options { separators: Separators::Slash, literal_leading_dot: false };
    /// let mut patterns = Vec::new(alloc);
    /// patterns.push(Pattern { choices: Vec::new(alloc) })?;
    /// let set = PatternSet::new(alloc, options, patterns)?;
    /// assert!(rt; !set.is_match::<Bytes>(b"a/b"));
    /// ```
    pub fn new(alloc: A, options: Options, patterns: Vec<Pattern<A>, A>) -> Result<Self, AllocError>
    where
        A: Copy,
        ensures { IfOk result (λ set. (set.options ≡ options) × (set.patterns ≡ patterns)) }
    {
        let mut filter = Filter::new(
            alloc,
            folds(&patterns),
            bucket_count(choice_count(&patterns)),
        )?;
        let mut at = 0;
        while at < patterns.len() {
            add_choices(&mut filter, alloc, options, &patterns[at].choices, at)?;
            at += 1;
        }
        Ok(PatternSet {
            options,
            patterns,
            filter,
        })
    }

    /// Its patterns, in the order in which they were given.
    ///
    /// ```
    /// use wildcards::{Options, Pattern, PatternSet, Separators};
    ///
    /// let options = Options { separators: Separators::Slash, literal_leading_dot: false };
    /// let mut patterns = Vec::new(alloc);
    /// patterns.push(Pattern { choices: Vec::new(alloc) })?;
    /// let set = PatternSet::new(alloc, options, patterns)?;
    /// assert!(rt; set.patterns().len() == 1);
    /// ```
    pub fn patterns(&self) -> &[Pattern<A>]
        ensures { result.now ≡ self.now.patterns.items }
    {
        &self.patterns
    }

    /// Whether a pattern matches a whole path. The bytes are read by `L`. It doesn't allocate.
    ///
    /// ```
    /// use wildcards::{Bytes, Choice, Options, Pattern, PatternSet, Piece, Separators};
    ///
    /// let options = Options { separators: Separators::Slash, literal_leading_dot: false };
    /// let mut pieces = Vec::new(alloc);
    /// pieces.push(Piece::Many)?;
    /// let mut choices = Vec::new(alloc);
    /// choices.push(Choice { pieces })?;
    /// let mut patterns = Vec::new(alloc);
    /// patterns.push(Pattern { choices })?;
    /// let set = PatternSet::new(alloc, options, patterns)?;
    /// assert!(rt; set.is_match::<Bytes>(b"a/b"));
    /// ```
    pub fn is_match<L: Letters>(&self, path: &[u8]) -> bool
        requires { L.formed path.now }
        ensures { IsTrue result ↔ ((i : ℕ) × IsHit self.now.options self.now.patterns.items
            (L.letters path.now) i) }
    {
        if self.tries_all(path) {
            return self.any_of_all::<L>(path);
        }
        let query = Query::new(&self.filter, self.options.separators, path);
        if self.any_hit::<L>(path, &self.filter.others) {
            return true;
        }
        let mut visited = Visited::new();
        let mut stage = Stage::Path;
        while let Some((places, more)) = query.next(stage, &mut visited) {
            if self.any_hit::<L>(path, places) {
                return true;
            }
            stage = more;
        }
        false
    }

    /// Puts the indices of the patterns that match a whole path into a vector, ascending, in place
    /// of what it has. The bytes are read by `L`.
    ///
    /// # Errors
    ///
    /// `AllocError` if memory is refused: the vector is empty then.
    ///
    /// ```
    /// use wildcards::{Bytes, Choice, Options, Pattern, PatternSet, Piece, Separators};
    ///
    /// let options = Options { separators: Separators::Slash, literal_leading_dot: false };
    /// let mut pieces = Vec::new(alloc);
    /// pieces.push(Piece::Many)?;
    /// let mut choices = Vec::new(alloc);
    /// choices.push(Choice { pieces })?;
    /// let mut patterns = Vec::new(alloc);
    /// patterns.push(Pattern { choices: Vec::new(alloc) })?;
    /// patterns.push(Pattern { choices })?;
    /// let set = PatternSet::new(alloc, options, patterns)?;
    /// let mut found = Vec::new(alloc);
    /// set.matches::<Bytes, _>(b"a/b", &mut found)?;
    /// assert_eq!(rt; found.as_slice(), [1].as_slice());
    /// ```
    pub fn matches<L: Letters, B: Allocator>(
        &self,
        path: &[u8],
        found: &mut Vec<usize, B>,
    ) -> Result<(), AllocError>
        requires { L.formed path.now }
        ensures hits { OnOk result (AreHits self.now.options self.now.patterns.items
            (L.letters path.now) found.new.items) }
        ensures none { OnErr result (found.new.items ≡ []) }
    {
        found.clear();
        match self.add_matches::<L, B>(path, found) {
            Ok(()) => {
                make_ascending(found);
                Ok(())
            }
            Err(error) => {
                found.clear();
                Err(error)
            }
        }
    }
}
