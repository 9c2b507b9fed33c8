//! Sets of path patterns that each have their own options, compiled once.
ghost use Rattle.std.specs.Prelude.{◌≡◌, ◌↔◌, ◌∷◌, ◌+◌, ◌<◌, [], ℕ, map, drop, length, nat_eq, IsTrue, IfOk, IfSome, MatchOption, MatchResult, OnOk, OnErr};
ghost use Rattle.platform_str.specs.Strings.{bytes};
ghost use Rattle.wildcards.specs.Sets.{Has};
ghost use Rattle.glob_text.specs.Texts.{IsFault, IsMeaning};
ghost use Rattle.glob_patterns.specs.Letters.{letters_of};
ghost use Rattle.glob_patterns.specs.MixedSets.{AreSetsOf, AreSetHits, AreMatchesOfGlobs, ArePatternsAt, FoundInSets, IsFaultAt, IsFirstFaultAt, IsMatchOfGlobs, IsMixedError, IsPatternAt, IsSetHit, glob_of};
ghost use Rattle.glob_patterns.specs.Options.{options_of, syntax_of};

use crate::letters::StringLetters;
use crate::options::GlobOptions;
use crate::set_error::GlobSetError;
use glob_text::{PatternFault, compile};
use os_str_ext::{OsStr, Platform};
use std::alloc::{AllocError, Allocator, Global};
use std::marker::PhantomData;
use wildcards::{Options, Pattern, PatternSet};

/// A set of path patterns that each have their own options, and that a path is matched with at
/// once. Each is read as by [`Glob`](crate::Glob).
///
/// It is one [`GlobSet`](crate::GlobSet) for each of the six pairs of separators and
/// [`literal_leading_dot`](GlobOptions::literal_leading_dot) that its patterns have, and a path is
/// matched with each of these. Other options cost nothing. Each of them takes some memory for each
/// pattern of the whole set.
#[derive(Drop)]
pub struct MixedGlobSet<E: Platform, A: Allocator = Global> {
    // Each has a pattern at each index, which matches nothing where the options are others.
    sets: Vec<PatternSet<A>, A>,
    len: usize,
    platform: PhantomData<E>,
}

/// Returns the pattern at `index` and its options, or `None`.
fn glob_after<'a, E: Platform>(
    globs: &[(GlobOptions, OsStr<'a, E>)],
    index: usize,
) -> Option<(GlobOptions, OsStr<'a, E>)>
    ensures first { MatchOption result (drop index (map glob_of globs.now) ≡ [])
        (λ glob. drop index (map glob_of globs.now)
        ≡ glob_of glob ∷ drop (index + 1) (map glob_of globs.now)) }
    ensures within { IfSome result (λ _. index < length globs.now) }
{
    if index < globs.len() {
        Some(globs[index])
    } else {
        None
    }
}

/// Whether paths are matched with these options in this way.
fn is_way(options: GlobOptions, way: Options) -> bool
    ensures { IsTrue result ↔ (options_of options ≡ way) }
{
    options.matching() == way
}

/// Compiles the pattern of a text, or returns its first fault.
fn compiled<E: Platform, A: Allocator + Copy>(
    alloc: A,
    options: GlobOptions,
    text: OsStr<'_, E>,
) -> Result<Result<Pattern<A>, PatternFault>, AllocError>
    ensures { IfOk result (λ read. MatchResult read
        (λ pattern. IsMeaning E.well_formed (letters_of E.units) (syntax_of options)
        (bytes text.entry) pattern.choices.items)
        (λ fault. IsFault E.well_formed (letters_of E.units) (syntax_of options)
        (bytes text.entry) fault)) }
{
    let encoded = text.as_encoded_bytes();
    match compile::<StringLetters<E>, A>(alloc, options.syntax(), encoded)? {
        Ok(choices) => Ok(Ok(Pattern { choices })),
        Err(fault) => Ok(Err(fault)),
    }
}

/// Compiles the pattern of a text, or returns its first fault, where paths are matched with it in
/// this way. Otherwise returns a pattern that matches nothing.
fn pattern_of<E: Platform, A: Allocator + Copy>(
    alloc: A,
    way: Options,
    options: GlobOptions,
    text: OsStr<'_, E>,
) -> Result<Result<Pattern<A>, PatternFault>, AllocError>
    ensures { IfOk result (λ read. MatchResult read
        (λ pattern. IsPatternAt E.well_formed (letters_of E.units) way (options, bytes text.entry)
        pattern)
        (λ fault. IsFault E.well_formed (letters_of E.units) (syntax_of options)
        (bytes text.entry) fault)) }
{
    if is_way(options, way) {
        return compiled(alloc, options, text);
    }
    let choices = Vec::new(alloc);
    Ok(Ok(Pattern { choices }))
}

/// Compiles each pattern that paths are matched with in this way, or returns the index of the first
/// of these that has a fault, and its first fault. In place of each other pattern is one that
/// matches nothing.
fn compile_those<E: Platform, A: Allocator + Copy>(
    alloc: A,
    way: Options,
    globs: &[(GlobOptions, OsStr<'_, E>)],
) -> Result<Result<Vec<Pattern<A>, A>, (usize, PatternFault)>, AllocError>
    ensures { IfOk result (λ read. MatchResult read
        (λ patterns. ArePatternsAt E.well_formed (letters_of E.units) way (map glob_of globs.now)
        patterns.items)
        (λ p. IsFaultAt E.well_formed (letters_of E.units) (map glob_of globs.now) p.0 p.1)) }
{
    let mut patterns = Vec::new(alloc);
    let mut index = 0;
    while let Some((options, text)) = glob_after(globs, index) {
        match pattern_of(alloc, way, options, text)? {
            Ok(pattern) => patterns.push(pattern)?,
            Err(fault) => return Ok(Err((index, fault))),
        }
        index += 1;
    }
    Ok(Ok(patterns))
}

/// Returns the first pattern that has a fault, where this is one: its index and its first fault.
fn first_fault<E: Platform, A: Allocator + Copy>(
    alloc: A,
    globs: &[(GlobOptions, OsStr<'_, E>)],
    known: (usize, PatternFault),
) -> Result<(usize, PatternFault), AllocError>
    requires { IsFaultAt E.well_formed (letters_of E.units) (map glob_of globs.now) known.0
        known.1 }
    ensures { IfOk result (λ p. IsFirstFaultAt E.well_formed (letters_of E.units) A
        (map glob_of globs.now) p.0 p.1) }
{
    let mut index = 0;
    while index < known.0 {
        let Some((options, text)) = glob_after(globs, index) else {
            return Ok(known);
        };
        match compiled(alloc, options, text)? {
            Ok(_) => index += 1,
            Err(fault) => return Ok((index, fault)),
        }
    }
    Ok(known)
}

/// Whether the list has these options.
fn has(list: &[Options], options: Options) -> bool
    ensures { IsTrue result ↔ Has list.entry.now options }
{
    let mut left = list;
    while let Some((first, rest)) = left.split_first() {
        if *first == options {
            return true;
        }
        left = rest;
    }
    false
}

/// Compiles a set for each way in which paths are matched, or returns the first pattern that has a
/// fault: its index and its first fault.
fn sets_of<E: Platform, A: Allocator + Copy>(
    alloc: A,
    globs: &[(GlobOptions, OsStr<'_, E>)],
) -> Result<Result<Vec<PatternSet<A>, A>, (usize, PatternFault)>, AllocError>
    ensures { IfOk result (λ read. MatchResult read
        (λ sets. AreSetsOf E.well_formed (letters_of E.units) (map glob_of globs.now) sets.items)
        (λ p. IsFirstFaultAt E.well_formed (letters_of E.units) A (map glob_of globs.now) p.0
        p.1)) }
{
    let mut ways = Vec::new(alloc);
    let mut sets = Vec::new(alloc);
    let mut index = 0;
    while let Some((options, _)) = glob_after(globs, index) {
        index += 1;
        let way = options.matching();
        if has(&ways, way) {
            continue;
        }
        match compile_those(alloc, way, globs)? {
            Ok(patterns) => {
                sets.push(PatternSet::new(alloc, way, patterns)?)?;
                ways.push(way)?;
            }
            Err(known) => return Ok(Err(first_fault(alloc, globs, known)?)),
        }
    }
    Ok(Ok(sets))
}

impl<E: Platform, A: Allocator> MixedGlobSet<E, A> {
    /// Compiles the patterns of strings of the platform, each with its options.
    ///
    /// # Errors
    ///
    /// The first pattern that has a fault, by its index, and the fault. `Memory` if an allocation
    /// fails.
    ///
    /// ```
    /// use glob_patterns::{GlobOptions, MixedGlobSet, Separators};
    /// use os_str_ext::{OsStr, Unix};
    ///
    /// let options = GlobOptions::new(Separators::Slash);
    /// let caseless = GlobOptions { case_insensitive: true, ..options };
    /// let crossing = GlobOptions::new(Separators::None);
    /// let globs = [
    ///     (options, OsStr::<Unix>::new("*.rs")),
    ///     (caseless, OsStr::new("*.c")),
    ///     (crossing, OsStr::new("*.h")),
    /// ];
    /// let set = MixedGlobSet::new(alloc, &globs)?;
    /// assert!(rt; set.is_match(OsStr::new("A.C")) && !set.is_match(OsStr::new("A.RS")));
    /// assert!(rt; set.is_match(OsStr::new("a/b.h")) && !set.is_match(OsStr::new("a/b.c")));
    /// let globs = [(options, OsStr::<Unix>::new("a")), (caseless, OsStr::new("["))];
    /// match MixedGlobSet::new(alloc, &globs) {
    ///     Ok(_) => assert!(rt; false),
    ///     Err(error) => {
    ///         let text = format!(in alloc; "{error}")?;
    ///         assert_eq!(rt; text.as_str(), "pattern 1: unclosed class at byte 0");
    ///     }
    /// }
    /// ```
    pub fn new(alloc: A, globs: &[(GlobOptions, OsStr<'_, E>)]) -> Result<Self, GlobSetError>
    where
        A: Copy,
        ensures sets { MatchResult result
            (λ made. AreSetsOf E.well_formed (letters_of E.units) (map glob_of globs.now)
            made.sets.items)
            (λ error. IsMixedError E.well_formed (letters_of E.units) A (map glob_of globs.now)
            error) }
        ensures len { IfOk result (λ made. made.len ≡ length globs.now) }
    {
        match sets_of(alloc, globs)? {
            Ok(sets) => Ok(MixedGlobSet {
                sets,
                len: globs.len(),
                platform: PhantomData,
            }),
            Err((index, fault)) => Err(GlobSetError::Pattern(index, fault)),
        }
    }

    /// How many patterns it has.
    ///
    /// ```
    /// use glob_patterns::{GlobOptions, MixedGlobSet, Separators};
    /// use os_str_ext::{OsStr, Unix};
    ///
    /// let options = GlobOptions::new(Separators::Slash);
    /// let crossing = GlobOptions::new(Separators::None);
    /// let globs = [(options, OsStr::<Unix>::new("{a,b}")), (crossing, OsStr::new("*"))];
    /// assert!(rt; MixedGlobSet::new(alloc, &globs)?.len() == 2);
    /// ```
    pub fn len(&self) -> usize
        ensures { result ≡ self.now.len }
    {
        self.len
    }

    /// Whether it has no pattern, and so matches no path.
    ///
    /// ```
    /// use glob_patterns::{GlobOptions, MixedGlobSet};
    /// use os_str_ext::{OsStr, Unix};
    ///
    /// let no_globs: [(GlobOptions, OsStr<Unix>); 0] = [];
    /// assert!(rt; MixedGlobSet::new(alloc, &no_globs)?.is_empty());
    /// ```
    pub fn is_empty(&self) -> bool
        ensures { result ≡ nat_eq self.now.len 0 }
    {
        self.len == 0
    }

    /// Whether one of the patterns matches a whole path. It doesn't allocate.
    ///
    /// ```
    /// use glob_patterns::{GlobOptions, MixedGlobSet, Separators};
    /// use os_str_ext::{OsStr, Unix};
    ///
    /// let options = GlobOptions::new(Separators::Slash);
    /// let dotted = GlobOptions { literal_leading_dot: true, ..options };
    /// let globs = [(options, OsStr::<Unix>::new("*.rs")), (dotted, OsStr::new("*.c"))];
    /// let set = MixedGlobSet::new(alloc, &globs)?;
    /// assert!(rt; set.is_match(OsStr::new(".rs")) && !set.is_match(OsStr::new(".c")));
    /// ```
    pub fn is_match(&self, path: OsStr<'_, E>) -> bool
        ensures value { IsTrue result ↔ ((i : ℕ) × IsSetHit self.now.sets.items
            (letters_of E.units (bytes path.entry)) i) }
        ensures texts { IsMatchOfGlobs E.well_formed (letters_of E.units) self.now.sets.items
            (letters_of E.units (bytes path.entry)) result }
    {
        let bytes = path.as_encoded_bytes();
        let mut left = self.sets.as_slice();
        while let Some((set, rest)) = left.split_first() {
            if set.is_match::<StringLetters<E>>(bytes) {
                return true;
            }
            left = rest;
        }
        false
    }

    /// Appends the indices of the patterns that match a whole path to an empty vector, those of
    /// each set ascending.
    fn add_matches<B: Allocator + Copy>(
        &self,
        path: &[u8],
        found: &mut Vec<usize, B>,
    ) -> Result<(), AllocError>
        requires formed { E.well_formed path.now }
        requires empty { found.old.items ≡ [] }
        ensures { OnOk result (FoundInSets self.now.sets.items (letters_of E.units path.now)
            found.new.items) }
    {
        let mut part = Vec::new(*found.allocator());
        let mut left = self.sets.as_slice();
        while let Some((set, rest)) = left.split_first() {
            set.matches::<StringLetters<E>, B>(path, &mut part)?;
            found.extend_from_slice(&part)?;
            left = rest;
        }
        Ok(())
    }

    /// Puts the indices of the patterns that match a whole path into a vector, ascending, in place
    /// of what it has.
    ///
    /// # Errors
    ///
    /// `AllocError` if an allocation fails: the vector is empty then.
    ///
    /// ```
    /// use glob_patterns::{GlobOptions, MixedGlobSet, Separators};
    /// use os_str_ext::{OsStr, Unix};
    ///
    /// let options = GlobOptions::new(Separators::Slash);
    /// let crossing = GlobOptions::new(Separators::None);
    /// let globs = [
    ///     (crossing, OsStr::<Unix>::new("*.rs")),
    ///     (options, OsStr::new("*.rs")),
    ///     (crossing, OsStr::new("src*")),
    /// ];
    /// let set = MixedGlobSet::new(alloc, &globs)?;
    /// let mut found = Vec::new(alloc);
    /// set.matches(OsStr::new("src/main.rs"), &mut found)?;
    /// assert_eq!(rt; found.as_slice(), [0, 2].as_slice());
    /// ```
    pub fn matches<B: Allocator + Copy>(
        &self,
        path: OsStr<'_, E>,
        found: &mut Vec<usize, B>,
    ) -> Result<(), AllocError>
        ensures value { OnOk result (AreSetHits self.now.sets.items
            (letters_of E.units (bytes path.entry)) found.new.items) }
        ensures texts { OnOk result (AreMatchesOfGlobs E.well_formed (letters_of E.units)
            self.now.sets.items (letters_of E.units (bytes path.entry)) found.new.items) }
        ensures none { OnErr result (found.new.items ≡ []) }
    {
        found.clear();
        match self.add_matches(path.as_encoded_bytes(), found) {
            Ok(()) => {
                found.sort_unstable();
                found.dedup();
                Ok(())
            }
            Err(error) => {
                found.clear();
                Err(error)
            }
        }
    }
}
