//! Sets of path patterns, compiled once.
ghost use Rattle.std.specs.Prelude.{◌≡◌, ◌↔◌, [], ℕ, map, length, nat_eq, IsTrue, IfOk, MatchResult, OnOk, OnErr};
ghost use Rattle.platform_str.specs.Strings.{bytes};
ghost use Rattle.wildcards.specs.Sets.{IsHit, AreHits};
ghost use Rattle.glob_patterns.specs.Letters.{letters_of};
ghost use Rattle.glob_patterns.specs.Options.{syntax_of, options_of};
ghost use Rattle.glob_patterns.specs.GlobSets.{AreMeanings, IsFirstFault, IsSetError};
ghost use Rattle.glob_patterns.specs.TextMatch.{IsMatchOfTexts, AreMatchesOfTexts};

use crate::letters::StringLetters;
use crate::options::GlobOptions;
use crate::set_error::GlobSetError;
use glob_text::{PatternFault, compile};
use os_str_ext::{OsStr, Platform, string_at};
use std::alloc::{AllocError, Allocator, Global};
use std::marker::PhantomData;
use wildcards::{Pattern, PatternSet};

/// A set of path patterns that a path is matched with at once. Each is read as by
/// [`Glob`](crate::Glob).
///
/// Patterns are looked up by the literal parts that a path must have to match them: the whole path,
/// the end of its last component, or a component or its first letters. Only the patterns found are
/// tried, each at most once. A path of which hundreds of different components are looked up and found
/// may be read again for some of them. A set takes the memory of its patterns, and some more for each
/// pattern that they are written out as.
#[derive(Drop)]
pub struct GlobSet<E: Platform, A: Allocator = Global> {
    set: PatternSet<A>,
    platform: PhantomData<E>,
}

/// Compiles each pattern, or returns the index of the first that has a fault, and its first fault.
fn compile_all<E: Platform, A: Allocator + Copy>(
    alloc: A,
    options: GlobOptions,
    patterns: &[OsStr<'_, E>],
) -> Result<Result<Vec<Pattern<A>, A>, (usize, PatternFault)>, AllocError>
    ensures { IfOk result (λ read. MatchResult read
        (λ compiled. AreMeanings E.well_formed (letters_of E.units) (syntax_of options) A
        (map bytes patterns.now) compiled.items)
        (λ p. IsFirstFault E.well_formed (letters_of E.units) (syntax_of options) A
        (map bytes patterns.now) p.0 p.1)) }
{
    let mut compiled = Vec::new(alloc);
    let mut index = 0;
    while let Some(pattern) = string_at(patterns, index) {
        let text = pattern.as_encoded_bytes();
        match compile::<StringLetters<E>, A>(alloc, options.syntax(), text)? {
            Ok(choices) => compiled.push(Pattern { choices })?,
            Err(fault) => return Ok(Err((index, fault))),
        }
        index += 1;
    }
    Ok(Ok(compiled))
}

impl<E: Platform, A: Allocator> GlobSet<E, A> {
    /// Compiles the patterns of strings of the platform, with these options for all.
    ///
    /// # Errors
    ///
    /// The first pattern that has a fault, by its index, and the fault. `Memory` if an allocation
    /// fails.
    ///
    /// ```
    /// use glob_patterns::{GlobOptions, GlobSet, Separators};
    /// use os_str_ext::{OsStr, Unix};
    ///
    /// let options = GlobOptions::new(Separators::Slash);
    /// let patterns = [OsStr::<Unix>::new("**/*.rs"), OsStr::new("target/**")];
    /// let set = GlobSet::new(alloc, options, &patterns)?;
    /// assert!(rt; set.is_match(OsStr::new("src/main.rs")));
    /// match GlobSet::new(alloc, options, &[OsStr::<Unix>::new("a"), OsStr::new("[")]) {
    ///     Ok(_) => assert!(rt; false),
    ///     Err(error) => {
    ///         let text = format!(in alloc; "{error}")?;
    ///         assert_eq!(rt; text.as_str(), "pattern 1: unclosed class at byte 0");
    ///     }
    /// }
    /// ```
    pub fn new(
        alloc: A,
        options: GlobOptions,
        patterns: &[OsStr<'_, E>],
    ) -> Result<Self, GlobSetError>
    where
        A: Copy,
        ensures { MatchResult result
            (λ made. (made.set.options ≡ options_of options)
            × AreMeanings E.well_formed (letters_of E.units) (syntax_of options) A
            (map bytes patterns.now) made.set.patterns.items)
            (λ error. IsSetError E.well_formed (letters_of E.units) (syntax_of options) A
            (map bytes patterns.now) error) }
    {
        match compile_all(alloc, options, patterns)? {
            Ok(compiled) => Ok(GlobSet {
                set: PatternSet::new(alloc, options.matching(), compiled)?,
                platform: PhantomData,
            }),
            Err((index, fault)) => Err(GlobSetError::Pattern(index, fault)),
        }
    }

    /// How many patterns it has.
    ///
    /// ```
    /// use glob_patterns::{GlobOptions, GlobSet, Separators};
    /// use os_str_ext::{OsStr, Unix};
    ///
    /// let options = GlobOptions::new(Separators::Slash);
    /// let set = GlobSet::new(alloc, options, &[OsStr::<Unix>::new("{a,b}"), OsStr::new("*")])?;
    /// assert!(rt; set.len() == 2);
    /// ```
    pub fn len(&self) -> usize
        ensures { result ≡ length self.now.set.patterns.items }
    {
        self.set.patterns().len()
    }

    /// Whether it has no pattern, and so matches no path.
    ///
    /// ```
    /// use glob_patterns::{GlobOptions, GlobSet, Separators};
    /// use os_str_ext::{OsStr, Unix};
    ///
    /// let options = GlobOptions::new(Separators::Slash);
    /// let no_patterns: [OsStr<Unix>; 0] = [];
    /// assert!(rt; GlobSet::new(alloc, options, &no_patterns)?.is_empty());
    /// assert!(rt; !GlobSet::new(alloc, options, &[OsStr::<Unix>::new("")])?.is_empty());
    /// ```
    pub fn is_empty(&self) -> bool
        ensures { result ≡ nat_eq (length self.now.set.patterns.items) 0 }
    {
        self.len() == 0
    }

    /// Whether one of the patterns matches a whole path. It doesn't allocate.
    ///
    /// ```
    /// use glob_patterns::{GlobOptions, GlobSet, Separators};
    /// use os_str_ext::{OsStr, Unix};
    ///
    /// let options = GlobOptions::new(Separators::Slash);
    /// let patterns = [OsStr::<Unix>::new("**/*.rs"), OsStr::new("target/**")];
    /// let set = GlobSet::new(alloc, options, &patterns)?;
    /// assert!(rt; set.is_match(OsStr::new("target/debug")));
    /// assert!(rt; !set.is_match(OsStr::new("README")));
    /// ```
    pub fn is_match(&self, path: OsStr<'_, E>) -> bool
        ensures value { IsTrue result ↔ ((i : ℕ) × IsHit self.now.set.options
            self.now.set.patterns.items (letters_of E.units (bytes path.entry)) i) }
        ensures texts { IsMatchOfTexts E.well_formed (letters_of E.units) self.now.set.options
            self.now.set.patterns.items (letters_of E.units (bytes path.entry)) result }
    {
        self.set
            .is_match::<StringLetters<E>>(path.as_encoded_bytes())
    }

    /// Puts the indices of the patterns that match a whole path into a vector, ascending, in place
    /// of what it has.
    ///
    /// # Errors
    ///
    /// `AllocError` if an allocation fails: the vector is empty then.
    ///
    /// ```
    /// use glob_patterns::{GlobOptions, GlobSet, Separators};
    /// use os_str_ext::{OsStr, Unix};
    ///
    /// let options = GlobOptions::new(Separators::Slash);
    /// let patterns = [OsStr::<Unix>::new("**/*.rs"), OsStr::new("b"), OsStr::new("src/**")];
    /// let set = GlobSet::new(alloc, options, &patterns)?;
    /// let mut found = Vec::new(alloc);
    /// set.matches(OsStr::new("src/main.rs"), &mut found)?;
    /// assert_eq!(rt; found.as_slice(), [0, 2].as_slice());
    /// ```
    pub fn matches<B: Allocator>(
        &self,
        path: OsStr<'_, E>,
        found: &mut Vec<usize, B>,
    ) -> Result<(), AllocError>
        ensures value { OnOk result (AreHits self.now.set.options self.now.set.patterns.items
            (letters_of E.units (bytes path.entry)) found.new.items) }
        ensures texts { OnOk result (AreMatchesOfTexts E.well_formed (letters_of E.units)
            self.now.set.options self.now.set.patterns.items
            (letters_of E.units (bytes path.entry)) found.new.items) }
        ensures none { OnErr result (found.new.items ≡ []) }
    {
        self.set
            .matches::<StringLetters<E>, B>(path.as_encoded_bytes(), found)
    }
}
