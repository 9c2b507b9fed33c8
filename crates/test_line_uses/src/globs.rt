//! Compiled patterns: their texts, their equality and their clones.
ghost use Rattle.std.specs.Prelude.{◌≡◌, ◌↔◌, ◌++◌, IfOk, IsTrue, OnOk, string_bytes};
ghost use Rattle.platform_str.specs.Strings.{bytes};
ghost use Rattle.wildcards.specs.Sets.{MatchesChoice};
ghost use Rattle.glob_patterns.specs.Globs.{choices_of, text_of};
ghost use Rattle.glob_patterns.specs.Letters.{letters_of};
ghost use Rattle.glob_patterns.specs.Options.{options_of};

use glob_patterns::{Glob, GlobError, GlobOptions};
use os_str_ext::{OsStr, Platform};
use std::alloc::{AllocError, Allocator};
use std::fmt::Write as _;

/// Whether two patterns have the same options and the same text.
pub fn are_same<E: Platform, A: Allocator>(glob: &Glob<E, A>, other: &Glob<E, A>) -> bool
    ensures { IsTrue result ↔ ((glob.now.options ≡ other.now.options)
        × (text_of glob.now ≡ text_of other.now)) }
{
    *glob == *other
}

/// Whether a clone of a pattern matches a path: exactly if the pattern does.
pub fn clone_matches<E: Platform, A: Allocator>(
    glob: &Glob<E, A>,
    path: OsStr<'_, E>,
) -> Result<bool, AllocError>
    ensures { IfOk result (λ matched. IsTrue matched ↔ MatchesChoice (options_of glob.now.options)
        (choices_of glob.now) (letters_of E.units (bytes path.entry))) }
{
    let clone = glob.clone()?;
    Ok(clone.is_match(path))
}

/// Writes the text that a clone of a pattern has at the end of a log.
pub fn log_clone<E: Platform, A: Allocator>(
    log: &mut String,
    glob: &Glob<E, A>,
) -> Result<(), AllocError>
    ensures { OnOk result (string_bytes log.new ≡ string_bytes log.old
        ++ E.lossy (text_of glob.now)) }
{
    let clone = glob.clone()?;
    write!(log, "{clone}")
}

/// Whether the pattern of a text has another text.
pub fn has_other_text<E: Platform, A: Allocator + Copy>(
    alloc: A,
    options: GlobOptions,
    pattern: &str,
    other: OsStr<'_, E>,
) -> Result<bool, GlobError>
    ensures { IfOk result (λ same. IsTrue same ↔ (pattern.now ≡ bytes other.entry)) }
{
    let glob = Glob::new(alloc, options, pattern)?;
    Ok(glob.glob() == other)
}
