//! Which paths of a list a pattern of another list matches.
//!
//! [`sets`] compiles sets of patterns, which C keeps in one of its [`places`].
ghost use Rattle.std.specs.Prelude.{◌≡◌, ◌<◌, ◌↔◌, ◌∷◌, [], map, MatchOption, MatchResult};
ghost use Rattle.std.specs.List.{AllByRecursion};
ghost use Rattle.platform_str.specs.Strings.{bytes};
ghost use Rattle.osbytes_c.specs.Answers.{IsOneOf, IsWritten};
ghost use Rattle.osbytes_c.specs.Globs.{AreCompiled, AreMatchesReported, AreNamesReported, AreNoOptions, HasUnstring, IsGlobFault, IsListRejection, IsMatched, IsNoSet, IsRejection, IsReported, fault_number, glob_options};
ghost use Rattle.osbytes_c.specs.ItemLists.{AreItems};
ghost use Rattle.osbytes_c.specs.Platforms.{formed_on, units_on};
ghost use Rattle.osbytes_c.specs.Statuses.{done, faulty, no_memory, no_option, no_pattern, no_platform, no_room};

pub mod places;
pub mod sets;

use crate::built::write_list;
use crate::on_platform::on_platform;
use crate::status::{FAULTY, NO_MEMORY, NO_OPTION, NO_PATTERN};
use glob_patterns::{FaultKind, GlobOptions, GlobSet, GlobSetError, Separators};
use platform_str::{OsStr, Platform};
use std::alloc::Global;

/// The first pattern that has a fault, and what is wrong with it.
#[repr(C)]
#[derive(Clone, Copy)]
pub struct GlobFault {
    /// How many patterns are before it.
    pub which: usize,
    /// The byte index in the pattern.
    pub index: usize,
    /// 1: a class isn't closed. 2: a range is reversed. 3: the name of a class isn't known.
    /// 4: nothing comes after a `\`. 5: alternatives aren't closed. 6: a `}` closes none. 7: there
    /// are too many alternatives.
    pub kind: u32,
}

/// Why there is no result.
#[derive(Drop)]
pub(crate) enum Rejection {
    /// An allocation failed.
    Memory,
    /// A pattern or a path isn't a string of the platform.
    Faulty,
    /// A pattern has a fault.
    Fault(GlobFault),
}

/// Writes for each path whether a pattern matches it. The patterns are compiled for the time of the
/// call.
#[unsafe(no_mangle)]
pub extern "C" fn osb_core_glob_matches(
    alloc: Global,
    platform: u32,
    options: u32,
    patterns: &[&[u8]],
    paths: &[&[u8]],
    matched: &mut [u8],
    count: &mut usize,
    fault: &mut GlobFault,
) -> u32
    ensures written { IsWritten result (AreMatchesReported (formed_on platform) (units_on platform)
        (glob_options options) patterns.now paths.now) matched.old matched.new count.new }
    ensures strings { result ≡ faulty → HasUnstring (formed_on platform) (units_on platform)
        (glob_options options) patterns.now paths.now }
    ensures pattern { result ≡ no_pattern → IsGlobFault (formed_on platform) (units_on platform)
        (glob_options options) patterns.now fault.new }
    ensures options { (result ≡ no_option) ↔ AreNoOptions options }
    ensures platform { (result ≡ no_platform) ↔ ((¬ (AreNoOptions options)) × (2 < platform)) }
    ensures answers { IsOneOf (done ∷ no_room ∷ faulty ∷ no_memory ∷ no_pattern ∷ no_option ∷
        no_platform ∷ []) result }
{
    let Some(options) = options_of(options) else {
        return NO_OPTION;
    };
    on_platform!(
        platform,
        matches_on(alloc, options, patterns, paths, matched, count, fault)
    )
}

/// The options with this number.
pub(crate) fn options_of(options: u32) -> Option<GlobOptions>
    ensures options { MatchOption result (AreNoOptions options)
        (λ read. read ≡ glob_options options) }
    ensures none { MatchOption result (AreNoOptions options) (λ _. ¬ (AreNoOptions options)) }
{
    if options > 63 {
        return None;
    }
    let separators = match options % 4 {
        0 => Separators::None,
        1 => Separators::Slash,
        2 => return None,
        _ => Separators::SlashAndBackslash,
    };
    Some(GlobOptions {
        separators,
        literal_leading_dot: options / 4 % 2 == 1,
        escapes: options / 8 % 2 == 1,
        class_escapes: options / 16 % 2 == 1,
        case_insensitive: options / 32 % 2 == 1,
    })
}

/// Writes for each path whether a pattern matches it, on one platform.
fn matches_on<E: Platform>(
    alloc: Global,
    options: GlobOptions,
    patterns: &[&[u8]],
    paths: &[&[u8]],
    matched: &mut [u8],
    count: &mut usize,
    fault: &mut GlobFault,
) -> u32
    ensures written { IsWritten result (AreMatchesReported E.well_formed E.units options
        patterns.now paths.now) matched.old matched.new count.new }
    ensures strings { result ≡ faulty → HasUnstring E.well_formed E.units options patterns.now
        paths.now }
    ensures pattern { result ≡ no_pattern → IsGlobFault E.well_formed E.units options patterns.now
        fault.new }
    ensures answers { IsOneOf (done ∷ no_room ∷ faulty ∷ no_memory ∷ no_pattern ∷ []) result }
{
    match reported_on::<E>(alloc, options, patterns, paths) {
        Ok(answers) => write_list(&answers, matched, count),
        Err(Rejection::Memory) => NO_MEMORY,
        Err(Rejection::Faulty) => FAULTY,
        Err(Rejection::Fault(found)) => {
            *fault = found;
            NO_PATTERN
        }
    }
}

/// Returns a byte for each path: whether a pattern matches it.
fn reported_on<E: Platform>(
    alloc: Global,
    options: GlobOptions,
    patterns: &[&[u8]],
    paths: &[&[u8]],
) -> Result<Vec<u8>, Rejection>
    ensures { MatchResult result
        (λ answers. AreMatchesReported E.well_formed E.units options patterns.now paths.now
        answers.items)
        (λ rejection. IsRejection E.well_formed E.units options patterns.now paths.now rejection) }
{
    let set = made_on::<E>(alloc, options, patterns)?;
    reported_of(alloc, &set, paths)
}

/// Compiles the patterns of a list.
pub(crate) fn made_on<E: Platform>(
    alloc: Global,
    options: GlobOptions,
    patterns: &[&[u8]],
) -> Result<GlobSet<E>, Rejection>
    ensures { MatchResult result
        (λ made. AreCompiled E.well_formed E.units options patterns.now made.set.options
        made.set.patterns.items)
        (λ rejection. IsNoSet E.well_formed E.units options patterns.now rejection) }
{
    let texts = strings_of::<E>(alloc, patterns)?;
    match GlobSet::new(alloc, options, &texts) {
        Ok(set) => Ok(set),
        Err(GlobSetError::Memory) => Err(Rejection::Memory),
        Err(GlobSetError::Pattern(which, fault)) => Err(Rejection::Fault(GlobFault {
            which,
            index: fault.index,
            kind: number_of(fault.kind),
        })),
    }
}

/// The strings that the items of a list are.
fn strings_of<'a, E: Platform>(
    alloc: Global,
    list: &'a [&'a [u8]],
) -> Result<Vec<OsStr<'a, E>>, Rejection>
    ensures { MatchResult result (λ strings. AreItems list.now (map bytes strings.items)
        × AllByRecursion E.well_formed (map bytes strings.items))
        (λ rejection. IsListRejection E.well_formed list.now rejection) }
{
    let mut strings = Vec::new(alloc);
    for item in list {
        let Ok(string) = OsStr::<E>::checked(item) else {
            return Err(Rejection::Faulty);
        };
        let Ok(()) = strings.push(string) else {
            return Err(Rejection::Memory);
        };
    }
    Ok(strings)
}

/// Returns a byte for each path of a list: whether a pattern of the set matches it.
pub(crate) fn reported_of<E: Platform>(
    alloc: Global,
    set: &GlobSet<E>,
    paths: &[&[u8]],
) -> Result<Vec<u8>, Rejection>
    ensures { MatchResult result
        (λ answers. AreNamesReported E.well_formed E.units set.now.set.options
        set.now.set.patterns.items paths.now answers.items)
        (λ rejection. IsListRejection E.well_formed paths.now rejection) }
{
    let mut answers = Vec::new(alloc);
    for item in paths {
        let Ok(path) = OsStr::<E>::checked(item) else {
            return Err(Rejection::Faulty);
        };
        let Ok(()) = answers.push(answer_of(set, path)) else {
            return Err(Rejection::Memory);
        };
    }
    Ok(answers)
}

/// The byte of a set for a path: 1 a pattern matches it, 0 none does.
fn answer_of<E: Platform>(set: &GlobSet<E>, path: OsStr<'_, E>) -> u8
    ensures { IsReported (IsMatched E.units set.now.set.options set.now.set.patterns.items
        (bytes path.entry)) result }
{
    if set.is_match(path) { 1 } else { 0 }
}

/// The number of what is wrong with a pattern.
fn number_of(kind: FaultKind) -> u32
    ensures { result ≡ fault_number kind }
{
    match kind {
        FaultKind::UnclosedClass => 1,
        FaultKind::ReversedRange => 2,
        FaultKind::UnknownClassName => 3,
        FaultKind::DanglingEscape => 4,
        FaultKind::UnclosedAlternatives => 5,
        FaultKind::UnopenedAlternatives => 6,
        FaultKind::TooManyChoices => 7,
    }
}
