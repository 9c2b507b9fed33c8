//! The patterns that pick names.
ghost use Rattle.std.specs.Prelude.{◌≡◌, ◌++◌, ◌∷◌, [], map, length, drop, string_bytes, IfOk, OnOk};
ghost use Rattle.os_str_bytes.specs.Strings.{bytes};
ghost use Rattle.list_programs.specs.Arguments.{AreValues, operands_of, text_of};
ghost use Rattle.names_commands.specs.Operands.{IsGlobOperand};
ghost use Rattle.names_commands.specs.Pick.{ArePatterns, added_before, glob_words, in_any_folder, typed_fault};
ghost use Rattle.names_commands.specs.declared.option.NamesOption.TheVariants.{Exclude};

use crate::command::Line;
use crate::given::platform_of;
use crate::option::NamesOption;
use glob_patterns::PatternFault;
use list_programs::arguments::{next_operand, values};
use os_str_bytes::{OsStr, Platform};
use std::alloc::{AllocError, Allocator};

/// The patterns that pick names, and how many come before those of `--name`.
pub(crate) fn patterns_of<A: Allocator + Copy>(
    alloc: A,
    given: Line<'_, '_>,
) -> Result<(Vec<String<A>, A>, usize), AllocError>
    ensures { IfOk result (λ patterns. ArePatterns given.now patterns.1
        (map string_bytes patterns.0.items)) }
{
    let of_globs = values(alloc, given, NamesOption::Glob)?;
    let of_names = values(alloc, given, NamesOption::Name)?;
    let mut texts = Vec::new(alloc);
    if let Some(glob) = glob_operand(given) {
        push_pattern(alloc, "", glob, &mut texts)?;
    }
    push_globs(alloc, &of_globs, &mut texts)?;
    let plain = count_of(&texts);
    push_names(alloc, &of_names, &mut texts)?;
    Ok((texts, plain))
}

/// The patterns of names that are left out.
pub(crate) fn excluded_of<A: Allocator + Copy>(
    alloc: A,
    given: Line<'_, '_>,
) -> Result<Vec<String<A>, A>, AllocError>
    ensures { IfOk result (λ excluded. AreValues Exclude given.now
        (map string_bytes excluded.items)) }
{
    let globs = values(alloc, given, NamesOption::Exclude)?;
    let mut texts = Vec::new(alloc);
    push_globs(alloc, &globs, &mut texts)?;
    Ok(texts)
}

/// The operand after the command and the platform, which is a pattern.
fn glob_operand<'a>(given: Line<'_, 'a>) -> Option<&'a str>
    ensures { IsGlobOperand (operands_of given.entry.now) (glob_words result) }
{
    let (_, after) = next_operand(given)?;
    let (_, more) = platform_of(after);
    let (glob, _) = next_operand(more)?;
    Some(glob)
}

/// How many patterns there are.
#[tactic(auto, using(crate::proofs::lemmas::Picks::count_mapped))]
fn count_of<A: Allocator>(patterns: &[String<A>]) -> usize
    ensures { result ≡ length (map string_bytes patterns.now) }
{
    patterns.len()
}

/// How many bytes were put before what was typed of the pattern at the index, where `plain` patterns
/// come before those of `--name`.
pub(crate) fn added_before(plain: usize, index: usize) -> usize
    ensures { result ≡ added_before plain index }
{
    if index < plain { 0 } else { 3 }
}

/// What was typed of a pattern, before which `added` bytes were put.
#[tactic(auto, using(std::proofs::lemmas::List::drop_all))]
pub(crate) fn typed(pattern: &[u8], added: usize) -> &[u8]
    ensures { result.now ≡ drop added pattern.now }
{
    if added < pattern.len() {
        let (_, typed) = pattern.split_at(added);
        typed
    } else {
        b""
    }
}

/// The fault of a pattern with its index in what was typed, before which `added` bytes were put.
pub(crate) fn typed_fault(added: usize, fault: PatternFault) -> PatternFault
    ensures { result ≡ typed_fault added fault }
{
    PatternFault {
        kind: fault.kind,
        index: fault.index.saturating_sub(added),
    }
}

/// Appends patterns.
fn push_globs<A: Allocator + Copy>(
    alloc: A,
    globs: &[&str],
    patterns: &mut Vec<String<A>, A>,
) -> Result<(), AllocError>
    ensures { OnOk result (map string_bytes patterns.new.items
        ≡ map string_bytes patterns.old.items ++ map text_of globs.now) }
{
    let mut left = globs;
    while let [first, rest @ ..] = left {
        push_pattern(alloc, "", *first, patterns)?;
        left = rest;
    }
    Ok(())
}

/// Appends patterns for the last component, in any folder.
fn push_names<A: Allocator + Copy>(
    alloc: A,
    globs: &[&str],
    patterns: &mut Vec<String<A>, A>,
) -> Result<(), AllocError>
    ensures { OnOk result (map string_bytes patterns.new.items
        ≡ map string_bytes patterns.old.items ++ map in_any_folder (map text_of globs.now)) }
{
    let mut left = globs;
    while let [first, rest @ ..] = left {
        push_pattern(alloc, "**/", *first, patterns)?;
        left = rest;
    }
    Ok(())
}

/// Appends a pattern, after a text.
fn push_pattern<A: Allocator + Copy>(
    alloc: A,
    before: &str,
    glob: &str,
    patterns: &mut Vec<String<A>, A>,
) -> Result<(), AllocError>
    ensures { OnOk result (map string_bytes patterns.new.items
        ≡ map string_bytes patterns.old.items ++ (before.now ++ glob.now) ∷ []) }
{
    let mut pattern = String::from_str(alloc, before)?;
    pattern.push_str(glob)?;
    patterns.push(pattern)?;
    Ok(())
}

/// Patterns as strings of a platform.
pub(crate) fn strings_of<'s, E: Platform, A: Allocator>(
    alloc: A,
    patterns: &'s [String<A>],
) -> Result<Vec<OsStr<'s, E>, A>, AllocError>
    ensures { IfOk result
        (λ strings. map bytes strings.items ≡ map string_bytes patterns.entry.now) }
{
    let mut strings = Vec::new(alloc);
    let mut left = patterns;
    while let Some((pattern, rest)) = left.split_first() {
        strings.push(OsStr::new(pattern.as_str()))?;
        left = rest;
    }
    Ok(strings)
}
