//! Path patterns, compiled once.
ghost use Rattle.std.specs.Prelude.{◌≡◌, ◌↔◌, IfOk, IsTrue, MatchResult};
ghost use Rattle.platform_str.specs.Strings.{bytes};
ghost use Rattle.wildcards.specs.Sets.{MatchesChoice};
ghost use Rattle.glob_text.specs.Texts.{IsMeaning};
ghost use Rattle.glob_patterns.specs.Letters.{letters_of};
ghost use Rattle.glob_patterns.specs.Options.{syntax_of, options_of};
ghost use Rattle.glob_patterns.specs.Errors.{IsGlobError};
ghost use Rattle.glob_patterns.specs.TextMatch.{IsMatchOfText};

use crate::error::GlobError;
use crate::letters::StringLetters;
use crate::options::GlobOptions;
use glob_text::compile;
use os_str_ext::{OsStr, OsString, Platform};
use std::alloc::{AllocError, Allocator, Global};
use std::fmt;
use std::sync::Arc;
use wildcards::{Choice, matches_choice};

/// A pattern's text and what it was compiled to.
#[derive(Drop)]
#[derive_where(PartialEq, Eq)]
struct Compiled<E: Platform, A: Allocator> {
    text: OsString<E, A>,
    #[derive_where(skip(EqHashOrd))]
    choices: Vec<Choice<A>, A>,
}

/// A path pattern, compiled: it is made once, and matching doesn't allocate.
///
/// | Part | What it matches |
/// |---|---|
/// | `*` | any number of characters that are no separators |
/// | `**` as a whole component | any number of components, and at the end one or more |
/// | `?` | one character that isn't a separator |
/// | `[a-z]`, `[aeiou]`, `[[:digit:]]` | one character of the class that isn't a separator |
/// | `[!a-z]`, `[^a-z]` | one that is neither in the class nor a separator |
/// | `{a,b{c,d},}` | what one of the alternatives matches, written out in its place |
/// | `\` and a character | that character |
/// | a separator | any separator |
/// | another character | itself |
///
/// Components are what is before, between and after separators, and may be empty: `a/**/b` matches
/// `a/b`, `a/x/b` and `a//b`, `**/x` matches `x`, and `a/**` matches `a/` but not `a`. `**` beside
/// something else in its component is `*`, and so is `***`. A character is a whole one, or one unit
/// of what isn't text.
///
/// In a class, a `]` that comes first is a member, and so is a `-` that is first, last, or right
/// after a range. Named classes are POSIX's, over ASCII. A separator in a class is a member that
/// matches nothing. Where case doesn't matter ([`GlobOptions::case_insensitive`]), a character is
/// the class of all characters with its simple case folding. A class then has these characters for
/// each of its members.
///
/// Patterns are equal if their texts and options are, as in globset. Equal patterns match the same
/// paths. A clone shares the memory of its pattern.
///
/// `{}` writes the lossy text of the pattern, as [`OsStr::display`] does.
#[derive(Drop)]
#[derive_where(PartialEq, Eq)]
pub struct Glob<E: Platform, A: Allocator = Global> {
    options: GlobOptions,
    compiled: Arc<Compiled<E, A>, A>,
}

impl<E: Platform, A: Allocator + Copy> Glob<E, A> {
    ghost use Rattle.glob_patterns.specs.Globs.{choices_of, text_of};

    /// Compiles the pattern of a text.
    ///
    /// # Errors
    ///
    /// The first fault of the pattern, and its byte index. Faults of classes and of a `\` at the
    /// end come first, then those of braces, then that the pattern is too large: that it is written
    /// out as more than 1,024 patterns, or as several with more than 65,536 marks together.
    /// A mark is a character, a wildcard or a class.
    /// `Memory` if an allocation fails.
    ///
    /// ```
    /// use glob_patterns::{Glob, GlobError, GlobOptions, Separators};
    /// use os_str_ext::{OsStr, Unix};
    ///
    /// let options = GlobOptions::new(Separators::Slash);
    /// let glob: Glob<Unix> = Glob::new(alloc, options, "**/*.{c,h}")?;
    /// assert!(rt; glob.is_match(OsStr::new("src/a.h")));
    /// assert!(rt; !glob.is_match(OsStr::new("src/a.rs")));
    /// match Glob::<Unix>::new(alloc, options, "a[z-a]") {
    ///     Ok(_) => assert!(rt; false),
    ///     Err(error) => {
    ///         let text = format!(in alloc; "{error}")?;
    ///         assert_eq!(rt; text.as_str(), "reversed range at byte 2");
    ///     }
    /// }
    /// ```
    pub fn new(alloc: A, options: GlobOptions, pattern: &str) -> Result<Self, GlobError>
        ensures value { MatchResult result
            (λ glob. (glob.options ≡ options) × IsMeaning E.well_formed (letters_of E.units)
            (syntax_of options) pattern.now (choices_of glob))
            (λ error. IsGlobError E.well_formed E.units options pattern.now error) }
        ensures text { IfOk result (λ glob. text_of glob ≡ pattern.now) }
    {
        Self::from_os_str(alloc, options, OsStr::new(pattern))
    }

    /// Compiles the pattern of any string of the platform: what isn't text matches itself.
    ///
    /// # Errors
    ///
    /// As [`new`](Self::new).
    ///
    /// ```
    /// use glob_patterns::{Glob, GlobError, GlobOptions, Separators};
    /// use os_str_ext::{OsStr, Unix};
    ///
    /// let options = GlobOptions::new(Separators::Slash);
    /// let pattern = OsStr::<Unix>::from_encoded_bytes_unchecked(b"*\xFF");
    /// let glob = Glob::from_os_str(alloc, options, pattern)?;
    /// let path = OsStr::from_encoded_bytes_unchecked(b"a\xFF");
    /// assert!(rt; glob.is_match(path));
    /// ```
    pub fn from_os_str(
        alloc: A,
        options: GlobOptions,
        pattern: OsStr<'_, E>,
    ) -> Result<Self, GlobError>
        ensures value { MatchResult result
            (λ glob. (glob.options ≡ options) × IsMeaning E.well_formed (letters_of E.units)
            (syntax_of options) (bytes pattern.entry) (choices_of glob))
            (λ error. IsGlobError E.well_formed E.units options (bytes pattern.entry) error) }
        ensures text { IfOk result (λ glob. text_of glob ≡ bytes pattern.entry) }
    {
        let encoded = pattern.as_encoded_bytes();
        match compile::<StringLetters<E>, A>(alloc, options.syntax(), encoded)? {
            Ok(choices) => {
                let text = pattern.to_owned(alloc)?;
                match Arc::new(alloc, Compiled { text, choices }) {
                    Ok(compiled) => Ok(Glob { options, compiled }),
                    Err(error) => Err(AllocError::from(error).into()),
                }
            }
            Err(fault) => Err(GlobError::Pattern(fault)),
        }
    }
}

impl<E: Platform, A: Allocator> Glob<E, A> {
    ghost use Rattle.glob_patterns.specs.Globs.{choices_of, text_of};

    /// Returns the text that the pattern was compiled of.
    ///
    /// ```
    /// use glob_patterns::{Glob, GlobError, GlobOptions, Separators};
    /// use os_str_ext::{OsStr, Unix};
    ///
    /// let options = GlobOptions::new(Separators::Slash);
    /// let glob: Glob<Unix> = Glob::new(alloc, options, "*.{c,h}")?;
    /// assert!(rt; glob.glob() == OsStr::new("*.{c,h}"));
    /// assert_eq!(rt; format!(in alloc; "{glob}")?.as_str(), "*.{c,h}");
    /// ```
    pub fn glob(&self) -> OsStr<'_, E>
        ensures { bytes result ≡ text_of self.now }
    {
        self.compiled.text.as_os_str()
    }

    /// Returns how the pattern is read and matched.
    ///
    /// ```
    /// use glob_patterns::{Glob, GlobError, GlobOptions, MixedGlobSet, Separators};
    /// use os_str_ext::{OsStr, Unix};
    ///
    /// let options = GlobOptions::new(Separators::Slash);
    /// let caseless = GlobOptions { case_insensitive: true, ..options };
    /// let glob: Glob<Unix> = Glob::new(alloc, options, "*.c")?;
    /// let other = Glob::new(alloc, caseless, "*.h")?;
    /// assert!(rt; glob.options() == options);
    /// let globs = [(glob.options(), glob.glob()), (other.options(), other.glob())];
    /// let set = MixedGlobSet::new(alloc, &globs)?;
    /// assert!(rt; set.is_match(OsStr::new("a.H")) && !set.is_match(OsStr::new("a.C")));
    /// ```
    pub fn options(&self) -> GlobOptions
        ensures { result ≡ self.now.options }
    {
        self.options
    }

    /// Whether the pattern matches a whole path. It doesn't allocate.
    ///
    /// ```
    /// use glob_patterns::{Glob, GlobError, GlobOptions, Separators};
    /// use os_str_ext::{OsStr, Unix};
    ///
    /// let options = GlobOptions::new(Separators::Slash);
    /// let glob: Glob<Unix> = Glob::new(alloc, options, "a/**/b")?;
    /// assert!(rt; glob.is_match(OsStr::new("a/b")) && glob.is_match(OsStr::new("a/x/b")));
    /// assert!(rt; !glob.is_match(OsStr::new("a/xb")));
    ///
    /// let options = GlobOptions { case_insensitive: true, ..options };
    /// let glob: Glob<Unix> = Glob::new(alloc, options, "*.[é-ê]")?;
    /// assert!(rt; glob.is_match(OsStr::new("a.É")) && !glob.is_match(OsStr::new("a.è")));
    /// ```
    pub fn is_match(&self, path: OsStr<'_, E>) -> bool
        ensures value { IsTrue result ↔ MatchesChoice (options_of self.now.options)
            (choices_of self.now) (letters_of E.units (bytes path.entry)) }
        ensures text { IsMatchOfText E.well_formed (letters_of E.units) self.now.options
            (choices_of self.now) (letters_of E.units (bytes path.entry)) result }
    {
        matches_choice::<StringLetters<E>, A>(
            self.options.matching(),
            &self.compiled.choices,
            path.as_encoded_bytes(),
        )
    }
}

impl<E: Platform, A: Allocator> Clone for Glob<E, A> {
    ghost use Rattle.glob_patterns.specs.Globs.{IsGlobClone};

    ghost is_clone = { IsGlobClone };

    /// Clones the pattern, which shares its memory with the clone.
    ///
    /// # Errors
    ///
    /// `AllocError` if there are 2<sup>63</sup> clones.
    ///
    /// ```
    /// use glob_patterns::{Glob, GlobError, GlobOptions, Separators};
    /// use os_str_ext::{OsStr, Unix};
    ///
    /// let options = GlobOptions::new(Separators::Slash);
    /// let glob: Glob<Unix> = Glob::new(alloc, options, "*.c")?;
    /// let clone = glob.clone()?;
    /// assert!(rt; clone == glob && clone.is_match(OsStr::new("a.c")));
    /// ```
    fn clone(&self) -> Result<Self, AllocError> {
        Ok(Glob {
            options: self.options,
            compiled: Arc::try_clone(&self.compiled)?,
        })
    }
}

impl<E: Platform, A: Allocator> fmt::Display for Glob<E, A> {
    ghost use Rattle.std.specs.Prelude.{Some};
    ghost use Rattle.std.specs.Fmt.{spec_align, spec_fill, spec_width};
    ghost use Rattle.platform_str.specs.Display.{filled};
    ghost use Rattle.glob_patterns.specs.Globs.{text_of};

    ghost output = { λ glob. Some (E.lossy (text_of glob)) };

    ghost styled_output = { λ glob spec. Some (filled (spec_fill spec) (spec_align spec)
        (spec_width spec) (E.lossy (text_of glob))) };

    fn fmt<W: fmt::Write>(&self, f: &mut fmt::Formatter<W>) -> fmt::Result {
        self.glob().display().fmt(f)
    }
}
