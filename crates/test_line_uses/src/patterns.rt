//! Path patterns: what a text is written out as, the pattern of one name, the first match of a set,
//! and what an error prints.
ghost use Rattle.std.specs.Prelude.{◌≡◌, ◌↔◌, ◌++◌, ◌<◌, ℕ, List, IsTrue, IfErr, IfOk, IfSome, MatchOption, MatchResult, OnOk, codes, decimal, string_bytes};
ghost use Rattle.platform_str.specs.Strings.{bytes};
ghost use Rattle.wildcards.specs.Sets.{IsHit};
ghost use Rattle.glob_text.specs.Marks.{Mark};
ghost use Rattle.glob_text.specs.Meaning.{MatchesWrittenOut};
ghost use Rattle.glob_text.specs.Texts.{AreWrittenOut};
ghost use Rattle.glob_patterns.specs.Errors.{IsGlobError};
ghost use Rattle.glob_patterns.specs.GlobSets.{AreMeanings};
ghost use Rattle.glob_patterns.specs.Letters.{letters_of};
ghost use Rattle.glob_patterns.specs.Options.{options_of, syntax_of};
ghost use Rattle.glob_patterns.specs.TextMatch.{IsTextHit};
ghost use Rattle.glob_patterns.specs.declared.error.GlobError.TheVariants.{Memory};
ghost use Rattle.glob_patterns.specs.declared.options.GlobOptions.{GlobOptions};

use glob_patterns::{
    FaultKind, Glob, GlobError, GlobOptions, GlobSet, PatternFault, Separators, escape_pattern,
};
use os_str_ext::{OsStr, Platform};
use std::alloc::{AllocError, Allocator};
use std::fmt::Write as _;

/// Whether a path matches the pattern of a text, by what the text is written out as, or why the
/// text isn't a pattern.
pub fn match_by_text<E: Platform, A: Allocator + Copy>(
    alloc: A,
    options: GlobOptions,
    pattern: &str,
    path: OsStr<'_, E>,
) -> Result<bool, GlobError>
    ensures { MatchResult result (λ matched. (written : List (List Mark))
        × (AreWrittenOut E.well_formed (letters_of E.units) (syntax_of options) pattern.now written
        × (IsTrue matched ↔ MatchesWrittenOut (options_of options) written
        (letters_of E.units (bytes path.entry)))))
        (λ error. IsGlobError E.well_formed E.units options pattern.now error) }
{
    let glob = Glob::new(alloc, options, pattern)?;
    Ok(glob.is_match(path))
}

/// Whether a path is a name, found by the pattern of that name. It fails only if an allocation
/// fails.
pub fn is_named<E: Platform, A: Allocator + Copy>(
    alloc: A,
    name: OsStr<'_, E>,
    path: OsStr<'_, E>,
) -> Result<bool, GlobError>
    ensures named { IfOk result (λ named. IsTrue named ↔ (bytes path.entry ≡ bytes name.entry)) }
    ensures memory { IfErr result (λ error. error ≡ Memory) }
{
    let options = GlobOptions::new(Separators::Slash);
    let pattern = escape_pattern(alloc, options, name)?;
    let glob = Glob::from_os_str(alloc, options, pattern.as_os_str())?;
    Ok(glob.is_match(path))
}

/// Whether a path matches one of the patterns of a set, by what their texts are written out as.
pub fn match_by_texts<E: Platform, A: Allocator>(globs: &GlobSet<E, A>, path: OsStr<'_, E>) -> bool
    ensures { (o : GlobOptions) → (texts : List (List ℕ))
        → (meanings : AreMeanings E.well_formed (letters_of E.units) (syntax_of o) A texts
        globs.now.set.patterns.items) → globs.now.set.options ≡ options_of o
        → IsTrue result ↔ ((i : ℕ) × IsTextHit E.well_formed (letters_of E.units) o texts
        globs.now.set.patterns.items meanings (letters_of E.units (bytes path.entry)) i) }
{
    globs.is_match(path)
}

/// The first pattern of a set that matches a path.
pub fn first_match<E: Platform, A: Allocator, B: Allocator>(
    alloc: B,
    globs: &GlobSet<E, A>,
    path: OsStr<'_, E>,
) -> Result<Option<usize>, AllocError>
    ensures texts { IfOk result (λ first. IfSome first (λ i. (o : GlobOptions)
        → (texts : List (List ℕ)) → (meanings : AreMeanings E.well_formed (letters_of E.units)
        (syntax_of o) A texts globs.now.set.patterns.items) → globs.now.set.options ≡ options_of o
        → IsTextHit E.well_formed (letters_of E.units) o texts globs.now.set.patterns.items meanings
        (letters_of E.units (bytes path.entry)) i)) }
    ensures first { IfOk result (λ first. MatchOption first
        ((i : ℕ) → ¬ (IsHit globs.now.set.options globs.now.set.patterns.items
        (letters_of E.units (bytes path.entry)) i))
        (λ i. IsHit globs.now.set.options globs.now.set.patterns.items
        (letters_of E.units (bytes path.entry)) i
        × ((j : ℕ) → j < i → ¬ (IsHit globs.now.set.options globs.now.set.patterns.items
        (letters_of E.units (bytes path.entry)) j)))) }
{
    let mut found = Vec::new(alloc);
    globs.matches(path, &mut found)?;
    match found.split_first() {
        Some((first, _)) => Ok(Some(*first)),
        None => Ok(None),
    }
}

/// Writes why a text is no pattern at the end of a log.
pub fn log_bad_pattern(log: &mut String, index: usize) -> Result<(), AllocError>
    ensures { OnOk result (string_bytes log.new ≡ string_bytes log.old
        ++ (codes "unclosed class" ++ (codes " at byte " ++ decimal index))) }
{
    let kind = FaultKind::UnclosedClass;
    let error = GlobError::Pattern(PatternFault { kind, index });
    write!(log, "{error}")
}
