//! For trying: what a caller of the call that reads ignore files concludes, in each outcome.
ghost use Rattle.std.specs.Prelude.{◌≡◌, ◌<◌, ◌↔◌, ◌∷◌, [], ℕ, List, None, is_some, length, take, true, IfOk, IfErr};
ghost use Rattle.osbytes_c.specs.Answers.{IsOneOf};
ghost use Rattle.osbytes_c.specs.IgnoreSets.{IsDecidedOf};
ghost use Rattle.osbytes_c.specs.Ignores.{AreReportedOf};
ghost use Rattle.osbytes_c.specs.ItemLists.{AreItems};

use crate::ignores::places::HeldIgnores;
use crate::ignores::sets::{
    Decision, osb_core_ignores_add, osb_core_ignores_free, osb_core_ignores_match,
    osb_core_ignores_new,
};
use crate::ignores::{Report, osb_core_ignore_matches};
use crate::status::DONE;
use crate::uses::len_of;
use std::alloc::Global;

/// The number of paths that have a verdict of an ignore file in an array; else the status.
pub fn verdicts_in(
    alloc: Global,
    file: &[u8],
    paths: &[&[u8]],
    flags: &[u8],
    array: &mut [Report],
) -> Result<usize, u32>
    ensures reported { IfOk result (λ count. AreReportedOf file.now flags.now paths.now
        (take count array.new)) }
    ensures room { IfErr result (λ status. status ≡ 2 → (names : List (List ℕ))
        × (AreItems paths.now names × (length array.old < length names))) }
    ensures answers { IfErr result (IsOneOf (2 ∷ 11 ∷ [])) }
{
    len_of!(osb_core_ignore_matches(alloc, file, paths, flags, array))
}

/// Whether the verdict of one file in a directory on a path was reported.
pub fn is_decided(
    alloc: Global,
    directory: &[u8],
    file: &[u8],
    path: &[u8],
    is_dir: u32,
    held: &mut HeldIgnores,
    decision: &mut Decision,
) -> bool
    ensures { result ≡ true → IsDecidedOf directory.now file.now path.now is_dir decision.new }
{
    if osb_core_ignores_new(alloc, held) != DONE {
        return false;
    }
    let added = osb_core_ignores_add(alloc, held, directory, file);
    let decided = osb_core_ignores_match(held, path, is_dir, decision);
    let _freed = osb_core_ignores_free(held);
    added == DONE && decided == DONE
}

/// Whether files were kept. They are freed, and then there are none to free.
pub fn is_freed(held: &mut HeldIgnores) -> bool
    ensures was { (result ≡ true) ↔ (is_some held.old.ignores ≡ true) }
    ensures none { held.new.ignores ≡ None }
{
    let freed = osb_core_ignores_free(held);
    let again = osb_core_ignores_free(held);
    freed == DONE && again == 26
}
