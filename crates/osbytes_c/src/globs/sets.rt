//! Sets of path patterns that C keeps, compiled once.
ghost use Rattle.std.specs.Prelude.{◌≡◌, ◌≢◌, ◌<◌, ◌≤◌, ◌↔◌, ◌∷◌, [], None, Some, is_some, false, true, MatchResult};
ghost use Rattle.osbytes_c.specs.Answers.{IsOneOf, IsWritten};
ghost use Rattle.osbytes_c.specs.Globs.{AreNoOptions, IsGlobFault, IsNoSet, glob_options};
ghost use Rattle.osbytes_c.specs.ItemLists.{HasOther};
ghost use Rattle.osbytes_c.specs.GlobSets.{AreReportedBy, AreReportedOn, HasOtherBy, HasOtherOn, IsAnswer, IsAnswerOf, IsAnswerOn, IsKept, IsMade, IsSame, IsSetOf, IsReportedRejection};
ghost use Rattle.osbytes_c.specs.Platforms.{formed_on, units_on};
ghost use Rattle.osbytes_c.specs.Statuses.{done, empty, faulty, full, no_memory, no_option, no_pattern, no_platform, no_room};

use crate::built::write_list;
use crate::globs::places::{HeldGlobs, is_full, put, take};
use crate::globs::{GlobFault, Rejection, made_on, options_of, reported_of};
use crate::status::{
    DONE, EMPTY, FAULTY, FULL, NO_MEMORY, NO_OPTION, NO_PATTERN, NO_PLATFORM, NONE,
};
use glob_patterns::{GlobOptions, GlobSet};
use platform_str::{OsStr, Platform, Unix, Wasm, Windows};
use std::alloc::Global;
use std::sync::Arc;

/// A set of one of the platforms.
#[derive(Drop)]
pub enum PlatformGlobs {
    /// Of Unix.
    Unix(GlobSet<Unix>),
    /// Of Windows.
    Windows(GlobSet<Windows>),
    /// Of wasm.
    Wasm(GlobSet<Wasm>),
}

/// What is kept: one pointer, so a place for it has room for one. Others may keep the same set.
#[derive(Drop)]
pub struct Globs {
    set: Arc<PlatformGlobs>,
}

/// Compiles the patterns of a list, and keeps them in an empty place.
#[unsafe(no_mangle)]
pub extern "C" fn osb_core_globs_new(
    alloc: Global,
    platform: u32,
    options: u32,
    patterns: &[&[u8]],
    held: &mut HeldGlobs,
    fault: &mut GlobFault,
) -> u32
    ensures made { result ≡ done →
        IsMade platform (glob_options options) patterns.now held.new.globs }
    ensures left { result ≢ done → held.new ≡ held.old }
    ensures strings { result ≡ faulty → HasOther (formed_on platform) patterns.now }
    ensures pattern { result ≡ no_pattern → IsGlobFault (formed_on platform) (units_on platform)
        (glob_options options) patterns.now fault.new }
    ensures options { (result ≡ no_option) ↔ ((is_some held.old.globs ≡ false)
        × AreNoOptions options) }
    ensures platform { (result ≡ no_platform) ↔ ((is_some held.old.globs ≡ false)
        × ((¬ (AreNoOptions options)) × (2 < platform))) }
    ensures full { (result ≡ full) ↔ (is_some held.old.globs ≡ true) }
    ensures answers { IsOneOf (done ∷ faulty ∷ no_memory ∷ no_platform ∷ no_pattern ∷ no_option ∷
        full ∷ []) result }
{
    if is_full(held) {
        return FULL;
    }
    let Some(options) = options_of(options) else {
        return NO_OPTION;
    };
    if platform > 2 {
        return NO_PLATFORM;
    }
    match made(alloc, platform, options, patterns) {
        Ok(set) => keep(alloc, held, set),
        Err(Rejection::Memory) => NO_MEMORY,
        Err(Rejection::Faulty) => FAULTY,
        Err(Rejection::Fault(found)) => {
            *fault = found;
            NO_PATTERN
        }
    }
}

/// Keeps a set in an empty place.
fn keep(alloc: Global, held: &mut HeldGlobs, set: PlatformGlobs) -> u32
    requires { held.old.full ≡ false }
    ensures kept { result ≡ done → IsKept set held.new.globs }
    ensures left { result ≢ done → held.new ≡ held.old }
    ensures answers { IsOneOf (done ∷ no_memory ∷ []) result }
{
    match Arc::new(alloc, set) {
        Ok(set) => {
            put(held, Globs { set });
            DONE
        }
        Err(_) => NO_MEMORY,
    }
}

/// Compiles the patterns of a list on the platform with a number.
fn made(
    alloc: Global,
    platform: u32,
    options: GlobOptions,
    patterns: &[&[u8]],
) -> Result<PlatformGlobs, Rejection>
    requires { platform ≤ 2 }
    ensures { MatchResult result (λ set. IsSetOf platform options patterns.now set)
        (λ rejection. IsNoSet (formed_on platform) (units_on platform) options patterns.now rejection) }
{
    match platform {
        0 => Ok(PlatformGlobs::Unix(made_on(alloc, options, patterns)?)),
        1 => Ok(PlatformGlobs::Windows(made_on(alloc, options, patterns)?)),
        _ => Ok(PlatformGlobs::Wasm(made_on(alloc, options, patterns)?)),
    }
}

/// Whether a pattern of the set matches a path: 0 one does, 3 none does, 1 it isn't a string of the
/// platform, 26 there is no set.
#[unsafe(no_mangle)]
pub extern "C" fn osb_core_globs_is_match(held: &mut HeldGlobs, path: &[u8]) -> u32
    ensures answer { IsAnswer path.now held.old.globs result }
    ensures left { held.new ≡ held.old }
{
    if !is_full(held) {
        return EMPTY;
    }
    let globs = take(held);
    let reported = answer(&*globs.set, path);
    put(held, globs);
    reported
}

/// Whether a pattern of this set matches a path.
fn answer(globs: &PlatformGlobs, path: &[u8]) -> u32
    ensures { IsAnswerOf path.now globs.now result }
{
    match globs {
        PlatformGlobs::Unix(set) => answer_on(set, path),
        PlatformGlobs::Windows(set) => answer_on(set, path),
        PlatformGlobs::Wasm(set) => answer_on(set, path),
    }
}

/// Whether a pattern of a set of one platform matches a path.
fn answer_on<E: Platform>(set: &GlobSet<E>, path: &[u8]) -> u32
    ensures { IsAnswerOn E.well_formed E.units set.now.set.options set.now.set.patterns.items
        path.now result }
{
    match OsStr::<E>::checked(path) {
        Ok(path) => { if set.is_match(path) { DONE } else { NONE } }
        Err(_) => FAULTY,
    }
}

/// Writes for each path of a list whether a pattern of the set matches it, as
/// `osb_core_glob_matches` does.
#[unsafe(no_mangle)]
pub extern "C" fn osb_core_globs_matches(
    alloc: Global,
    held: &mut HeldGlobs,
    paths: &[&[u8]],
    matched: &mut [u8],
    count: &mut usize,
) -> u32
    ensures written { IsWritten result (AreReportedBy held.old.globs paths.now) matched.old
        matched.new count.new }
    ensures strings { result ≡ faulty → HasOtherBy held.old.globs paths.now }
    ensures none { (result ≡ empty) ↔ (is_some held.old.globs ≡ false) }
    ensures left { held.new ≡ held.old }
    ensures answers { IsOneOf (done ∷ faulty ∷ no_room ∷ no_memory ∷ empty ∷ []) result }
{
    if !is_full(held) {
        return EMPTY;
    }
    let globs = take(held);
    let status = write_reported(alloc, &*globs.set, paths, matched, count);
    put(held, globs);
    status
}

/// Writes whether a set matches each path of a list.
fn write_reported(
    alloc: Global,
    globs: &PlatformGlobs,
    paths: &[&[u8]],
    matched: &mut [u8],
    count: &mut usize,
) -> u32
    ensures written { IsWritten result (AreReportedOn globs.now paths.now) matched.old matched.new
        count.new }
    ensures strings { result ≡ faulty → HasOtherOn globs.now paths.now }
    ensures answers { IsOneOf (done ∷ faulty ∷ no_room ∷ no_memory ∷ []) result }
{
    match reported_by(alloc, globs, paths) {
        Ok(answers) => write_list(&answers, matched, count),
        Err(Rejection::Memory) => NO_MEMORY,
        Err(_) => FAULTY,
    }
}

/// Returns a byte for each path of a list: whether the set matches it.
fn reported_by(alloc: Global, globs: &PlatformGlobs, paths: &[&[u8]]) -> Result<Vec<u8>, Rejection>
    ensures { MatchResult result (λ answers. AreReportedOn globs.now paths.now answers.items)
        (λ rejection. IsReportedRejection globs.now paths.now rejection) }
{
    match globs {
        PlatformGlobs::Unix(set) => reported_of(alloc, set, paths),
        PlatformGlobs::Windows(set) => reported_of(alloc, set, paths),
        PlatformGlobs::Wasm(set) => reported_of(alloc, set, paths),
    }
}

/// Keeps the same set in another place, which is empty, for another thread: 0, or 11 it has too
/// many places, 25 the other isn't empty, 26 there is no set.
#[unsafe(no_mangle)]
pub extern "C" fn osb_core_globs_share(held: &mut HeldGlobs, other: &mut HeldGlobs) -> u32
    ensures same { result ≡ done → IsSame held.old.globs other.new.globs }
    ensures left { held.new ≡ held.old }
    ensures other { result ≢ done → other.new ≡ other.old }
    ensures none { (result ≡ empty) ↔ (is_some held.old.globs ≡ false) }
    ensures full { (result ≡ full) ↔ ((is_some held.old.globs ≡ true)
        × (is_some other.old.globs ≡ true)) }
    ensures answers { IsOneOf (done ∷ no_memory ∷ full ∷ empty ∷ []) result }
{
    if !is_full(held) {
        return EMPTY;
    }
    if is_full(other) {
        return FULL;
    }
    let globs = take(held);
    let status = keep_too(other, &globs);
    put(held, globs);
    status
}

/// Keeps the same set in another place, which is empty.
fn keep_too(other: &mut HeldGlobs, globs: &Globs) -> u32
    requires { other.old.full ≡ false }
    ensures same { result ≡ done → IsSame (Some globs.now) other.new.globs }
    ensures left { result ≢ done → other.new ≡ other.old }
    ensures answers { IsOneOf (done ∷ no_memory ∷ []) result }
{
    match globs.set.clone() {
        Ok(set) => {
            put(other, Globs { set });
            DONE
        }
        Err(_) => NO_MEMORY,
    }
}

/// Gives the set's memory back: 0, or 26 there is no set.
#[unsafe(no_mangle)]
pub extern "C" fn osb_core_globs_free(held: &mut HeldGlobs) -> u32
    ensures none { held.new.globs ≡ None }
    ensures was { (result ≡ done) ↔ (is_some held.old.globs ≡ true) }
    ensures answers { IsOneOf (done ∷ empty ∷ []) result }
{
    if !is_full(held) {
        return EMPTY;
    }
    let globs = take(held);
    drop(globs);
    DONE
}
