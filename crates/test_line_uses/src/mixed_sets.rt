//! Sets of patterns that each have their own options: what they match, by their texts, and how many
//! they are.
ghost use Rattle.std.specs.Prelude.{◌≡◌, ◌↔◌, ◌∷◌, [], ℕ, IfErr, IfOk, IsTrue, length, map, nat_eq};
ghost use Rattle.std.specs.List.Sorted.{IsStrictlyIncreasing};
ghost use Rattle.platform_str.specs.Strings.{bytes};
ghost use Rattle.glob_patterns.specs.Globs.{text_of};
ghost use Rattle.glob_patterns.specs.Letters.{letters_of};
ghost use Rattle.glob_patterns.specs.MixedSets.{AreGlobMatches, AreSetsOf, IsAt, IsMixedError, MatchesText, glob_of};

use glob_patterns::{Glob, GlobOptions, GlobSetError, MixedGlobSet};
use os_str_ext::{OsStr, Platform};
use std::alloc::Allocator;

/// The indices of the patterns that match a path, or why a text isn't a pattern.
pub fn matching_globs<E: Platform, A: Allocator + Copy>(
    alloc: A,
    globs: &[(GlobOptions, OsStr<'_, E>)],
    path: OsStr<'_, E>,
) -> Result<Vec<usize, A>, GlobSetError>
    ensures found { IfOk result (λ found. AreGlobMatches E.well_formed (letters_of E.units)
        (map glob_of globs.now) (letters_of E.units (bytes path.entry)) found.items) }
    ensures ascending { IfOk result (λ found. IsStrictlyIncreasing found.items) }
    ensures fault { IfErr result (λ error. IsMixedError E.well_formed (letters_of E.units) A
        (map glob_of globs.now) error) }
{
    let set = MixedGlobSet::new(alloc, globs)?;
    let mut found = Vec::new(alloc);
    set.matches(path, &mut found)?;
    Ok(found)
}

/// Whether one of the patterns matches a path.
pub fn one_matches<E: Platform, A: Allocator + Copy>(
    alloc: A,
    globs: &[(GlobOptions, OsStr<'_, E>)],
    path: OsStr<'_, E>,
) -> Result<bool, GlobSetError>
    ensures { IfOk result (λ matched. IsTrue matched ↔ ((i : ℕ)
        × IsAt (MatchesText E.well_formed (letters_of E.units)
        (letters_of E.units (bytes path.entry))) (map glob_of globs.now) i)) }
{
    let set = MixedGlobSet::new(alloc, globs)?;
    Ok(set.is_match(path))
}

/// How many patterns there are, and whether there are none, as their set returns it.
pub fn count_of<E: Platform, A: Allocator + Copy>(
    alloc: A,
    globs: &[(GlobOptions, OsStr<'_, E>)],
) -> Result<(usize, bool), GlobSetError>
    ensures { IfOk result (λ count. (count.0 ≡ length globs.now)
        × (count.1 ≡ nat_eq (length globs.now) 0)) }
{
    let set = MixedGlobSet::new(alloc, globs)?;
    Ok((set.len(), set.is_empty()))
}

/// The set of two compiled patterns.
pub fn set_of_two<E: Platform, A: Allocator + Copy>(
    alloc: A,
    first: &Glob<E, A>,
    second: &Glob<E, A>,
) -> Result<MixedGlobSet<E, A>, GlobSetError>
    ensures { IfOk result (λ set. AreSetsOf E.well_formed (letters_of E.units)
        ((first.now.options, text_of first.now) ∷ (second.now.options, text_of second.now) ∷ [])
        set.sets.items) }
{
    let globs = [
        (first.options(), first.glob()),
        (second.options(), second.glob()),
    ];
    MixedGlobSet::new(alloc, &globs)
}
