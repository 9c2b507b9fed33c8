//! Ignore files of a tree that C keeps, compiled once.
ghost use Rattle.std.specs.Prelude.{◌≡◌, ◌≢◌, ◌↔◌, ◌∷◌, [], None, is_some, false, true};
ghost use Rattle.osbytes_c.specs.Answers.{IsOneOf};
ghost use Rattle.osbytes_c.specs.IgnoreSets.{HaveSameFiles, IsAddedTo, IsDecided, IsDecidedBy, IsEmpty, Reports};
ghost use Rattle.osbytes_c.specs.Statuses.{done, empty, full, no_memory};

use crate::ignores::places::{HeldIgnores, is_full, put, take};
use crate::status::{DONE, EMPTY, FULL, NO_MEMORY};
use os_ignore::{Ignore, Verdict};
use std::alloc::Global;

/// What is kept.
#[derive(Drop)]
pub struct Ignores {
    ignore: Ignore,
}

/// The verdict of ignore files on a path.
#[repr(C)]
#[derive(Clone, Copy)]
pub struct Decision {
    /// 0 neither, 1 ignored, 2 taken in.
    pub kind: u32,
    /// The number of the file that decides, from 0 on in the order in which they were added; 0 if
    /// none does.
    pub file: usize,
    /// Its line, from 1 on; 0 if none does.
    pub line: usize,
}

/// Keeps no files in an empty place.
#[unsafe(no_mangle)]
pub extern "C" fn osb_core_ignores_new(alloc: Global, held: &mut HeldIgnores) -> u32
    ensures made { result ≡ done → IsEmpty held.new.ignores }
    ensures left { result ≢ done → held.new ≡ held.old }
    ensures full { (result ≡ full) ↔ (is_some held.old.ignores ≡ true) }
    ensures answers { IsOneOf (done ∷ full ∷ []) result }
{
    if is_full(held) {
        return FULL;
    }
    put(
        held,
        Ignores {
            ignore: Ignore::empty(alloc),
        },
    );
    DONE
}

/// Adds the lines of a file in a directory of the tree, which is relative to its top: 0, 11, or 26
/// nothing is kept.
#[unsafe(no_mangle)]
pub extern "C" fn osb_core_ignores_add(
    alloc: Global,
    held: &mut HeldIgnores,
    directory: &[u8],
    file: &[u8],
) -> u32
    ensures added { result ≡ done → IsAddedTo directory.now file.now held.old.ignores
        held.new.ignores }
    ensures left { result ≢ done → HaveSameFiles held.old.ignores held.new.ignores }
    ensures none { (result ≡ empty) ↔ (is_some held.old.ignores ≡ false) }
    ensures answers { IsOneOf (done ∷ no_memory ∷ empty ∷ []) result }
{
    if !is_full(held) {
        return EMPTY;
    }
    let mut ignores = take(held);
    let status = match ignores.ignore.add(alloc, directory, file) {
        Ok(()) => DONE,
        Err(_) => NO_MEMORY,
    };
    put(held, ignores);
    status
}

/// Reports the verdict of the files on a path, which is a directory if the flag isn't 0. Returns 0,
/// or 26 if nothing is kept.
#[unsafe(no_mangle)]
pub extern "C" fn osb_core_ignores_match(
    held: &mut HeldIgnores,
    path: &[u8],
    is_dir: u32,
    decision: &mut Decision,
) -> u32
    ensures decided { result ≡ done → IsDecidedBy held.old.ignores path.now is_dir decision.new }
    ensures left { held.new ≡ held.old }
    ensures none { (result ≡ empty) ↔ (is_some held.old.ignores ≡ false) }
    ensures answers { IsOneOf (done ∷ empty ∷ []) result }
{
    if !is_full(held) {
        return EMPTY;
    }
    let ignores = take(held);
    *decision = decided(&ignores, path, is_dir);
    put(held, ignores);
    DONE
}

/// The verdict of the files on a path.
fn decided(ignores: &Ignores, path: &[u8], is_dir: u32) -> Decision
    ensures { IsDecided ignores.now path.now is_dir result }
{
    reported(ignores.ignore.matched(path, is_dir != 0))
}

/// What is reported of a verdict.
fn reported(verdict: Verdict) -> Decision
    ensures { Reports verdict result }
{
    match verdict {
        Verdict::Neither => Decision {
            kind: 0,
            file: 0,
            line: 0,
        },
        Verdict::Ignored { file, line } => Decision {
            kind: 1,
            file,
            line,
        },
        Verdict::TakenIn { file, line } => Decision {
            kind: 2,
            file,
            line,
        },
    }
}

/// Gives the memory of the files back: 0, or 26 nothing is kept.
#[unsafe(no_mangle)]
pub extern "C" fn osb_core_ignores_free(held: &mut HeldIgnores) -> u32
    ensures none { held.new.ignores ≡ None }
    ensures was { (result ≡ done) ↔ (is_some held.old.ignores ≡ true) }
    ensures answers { IsOneOf (done ∷ empty ∷ []) result }
{
    if !is_full(held) {
        return EMPTY;
    }
    let ignores = take(held);
    drop(ignores);
    DONE
}
