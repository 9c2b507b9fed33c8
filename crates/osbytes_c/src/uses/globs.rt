//! For trying: what a caller of the call that matches path patterns concludes, in each outcome.
ghost use Rattle.std.specs.Prelude.{◌≡◌, ◌≢◌, ◌<◌, ◌↔◌, ◌∷◌, [], None, is_some, false, true, take, IfOk, IfErr};
ghost use Rattle.osbytes_c.specs.Answers.{IsOneOf};
ghost use Rattle.osbytes_c.specs.GlobSets.{IsAnswer, IsMatchedBy};
ghost use Rattle.osbytes_c.specs.Globs.{AreMatchesReported, AreNoOptions, HasUnstring, IsGlobFault, glob_options};
ghost use Rattle.osbytes_c.specs.ItemLists.{HasOther};
ghost use Rattle.osbytes_c.specs.Platforms.{formed_on, units_on};

use crate::globs::places::HeldGlobs;
use crate::globs::sets::{
    osb_core_globs_free, osb_core_globs_is_match, osb_core_globs_matches, osb_core_globs_new,
    osb_core_globs_share,
};
use crate::globs::{GlobFault, osb_core_glob_matches};
use crate::status::DONE;
use crate::uses::len_of;
use std::alloc::Global;

/// The number of paths that a buffer has a byte for: whether a pattern matches the path. Else the
/// status, and the fault of the first pattern that has one.
pub fn reported_in(
    alloc: Global,
    platform: u32,
    options: u32,
    patterns: &[&[u8]],
    paths: &[&[u8]],
    buffer: &mut [u8],
    fault: &mut GlobFault,
) -> Result<usize, u32>
    ensures reported { IfOk result (λ count. AreMatchesReported (formed_on platform)
        (units_on platform) (glob_options options) patterns.now paths.now
        (take count buffer.new)) }
    ensures pattern { IfErr result (λ code. code ≡ 17 → IsGlobFault (formed_on platform)
        (units_on platform) (glob_options options) patterns.now fault.new) }
    ensures strings { IfErr result (λ code. code ≡ 1 → HasUnstring (formed_on platform)
        (units_on platform) (glob_options options) patterns.now paths.now) }
    ensures each { IfOk result (λ _. (¬ (HasOther (formed_on platform) patterns.now))
        × (¬ (HasOther (formed_on platform) paths.now))) }
    ensures other { IfErr result (λ code. code ≡ 17 → ¬ (HasOther (formed_on platform)
        patterns.now)) }
    ensures options { IfErr result (λ code. code ≡ 22 → AreNoOptions options) }
    ensures platform { IfErr result (λ code. code ≡ 16 → 2 < platform) }
{
    len_of!(
        osb_core_glob_matches(alloc, platform, options, patterns, paths, buffer),
        fault
    )
}

/// What a kept set returns for a path: 0 a pattern matches it, 3 none does, 1 it isn't a string. 99
/// means that there was no set.
pub fn matched_once(
    alloc: Global,
    platform: u32,
    options: u32,
    patterns: &[&[u8]],
    path: &[u8],
    held: &mut HeldGlobs,
    fault: &mut GlobFault,
) -> u32
    ensures { result ≢ 99 → IsMatchedBy platform (glob_options options) patterns.now path.now
        result }
{
    if osb_core_globs_new(alloc, platform, options, patterns, held, fault) != DONE {
        return 99;
    }
    let reported = osb_core_globs_is_match(held, path);
    let _freed = osb_core_globs_free(held);
    reported
}

/// The number of paths that a kept set writes a byte for into a buffer: whether a pattern matches
/// the path. Else a status.
pub fn reported_kept(
    alloc: Global,
    platform: u32,
    options: u32,
    patterns: &[&[u8]],
    paths: &[&[u8]],
    buffer: &mut [u8],
    held: &mut HeldGlobs,
    fault: &mut GlobFault,
) -> Result<usize, u32>
    ensures { IfOk result (λ count. AreMatchesReported (formed_on platform) (units_on platform)
        (glob_options options) patterns.now paths.now (take count buffer.new)) }
{
    let made = osb_core_globs_new(alloc, platform, options, patterns, held, fault);
    if made != DONE {
        return Err(made);
    }
    let mut count = 0;
    let status = osb_core_globs_matches(alloc, held, paths, buffer, &mut count);
    let _freed = osb_core_globs_free(held);
    match status {
        DONE => Ok(count),
        _ => Err(status),
    }
}

/// What a place that shares the set of another returns for a path once the other is freed, which is
/// what that one would have returned. Else why it isn't shared.
pub fn matched_shared(held: &mut HeldGlobs, other: &mut HeldGlobs, path: &[u8]) -> Result<u32, u32>
    ensures reported { IfOk result (IsAnswer path.now held.old.globs) }
    ensures none { IfErr result (λ status. status ≡ 26 → is_some held.old.globs ≡ false) }
    ensures full { IfErr result (λ status. status ≡ 25 → is_some other.old.globs ≡ true) }
    ensures answers { IfErr result (IsOneOf (11 ∷ 25 ∷ 26 ∷ [])) }
{
    let shared = osb_core_globs_share(held, other);
    if shared != DONE {
        return Err(shared);
    }
    let _freed = osb_core_globs_free(held);
    Ok(osb_core_globs_is_match(other, path))
}

/// Whether there was a set. It is freed, and then there is none to free.
pub fn is_freed(held: &mut HeldGlobs) -> bool
    ensures was { (result ≡ true) ↔ (is_some held.old.globs ≡ true) }
    ensures none { held.new.globs ≡ None }
{
    let freed = osb_core_globs_free(held);
    let again = osb_core_globs_free(held);
    freed == DONE && again == 26
}
