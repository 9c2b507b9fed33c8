//! Which line of an ignore file decides each path of a list.
//!
//! [`sets`] reads ignore files of several directories, which C keeps in one of its [`places`].
ghost use Rattle.std.specs.Prelude.{◌≡◌, ◌≢◌, ◌↔◌, ◌+◌, ◌<◌, ◌^◌, ◌∷◌, [], length, true, get_or};
ghost use Rattle.os_ignore.specs.Ignores.{files_of};
ghost use Rattle.osbytes_c.specs.Answers.{IsDone, IsOneOf};
ghost use Rattle.osbytes_c.specs.Ignores.{AreReportedIn, IsIgnoreReported, PushesReports, IsReportOf};
ghost use Rattle.osbytes_c.specs.Statuses.{done, no_memory, no_room};

pub mod places;
pub mod sets;

use crate::status::{NO_MEMORY, fits};
use os_ignore::{Ignore, Verdict};
use std::alloc::Global;

/// The verdict of an ignore file on a path.
#[repr(C)]
#[derive(Clone, Copy)]
pub struct Report {
    /// 0 nothing, 1 it is ignored, 2 it is taken in.
    pub kind: u32,
    /// The line that decides it, from 1; 0 if none does.
    pub line: usize,
}

/// Writes the verdict of a file at the top of a tree on each path of a list, as far as there is
/// room, and counts the paths. A path is a directory if its flag exists and isn't 0.
#[unsafe(no_mangle)]
pub extern "C" fn osb_core_ignore_matches(
    alloc: Global,
    file: &[u8],
    paths: &[&[u8]],
    flags: &[u8],
    out: &mut [Report],
    count: &mut usize,
) -> u32
    ensures written { IsDone result (IsIgnoreReported file.now flags.now paths.now out.old out.new
        count.new) (length out.old) count.new }
    ensures answers { IsOneOf (done ∷ no_room ∷ no_memory ∷ []) result }
{
    let Ok(ignore) = Ignore::new(alloc, file) else {
        return NO_MEMORY;
    };
    let reported = report_each(&ignore, paths, flags, out);
    *count = reported;
    fits(reported, out.len())
}

/// Writes the verdict of the files on each path, as far as there is room, and counts the paths.
fn report_each(ignore: &Ignore, paths: &[&[u8]], flags: &[u8], out: &mut [Report]) -> usize
    ensures { AreReportedIn (files_of ignore.now) flags.now paths.now out.old out.new result }
{
    let mut count = 0;
    for path in paths {
        let reported = reported_of(ignore.matched(path, flag_at(flags, count)));
        count = push(out, count, reported);
    }
    count
}

/// Whether the flag of this number is there and isn't 0.
fn flag_at(flags: &[u8], number: usize) -> bool
    ensures { (result ≡ true) ↔ (get_or flags.now number 0 ≢ 0) }
{
    number < flags.len() && flags[number] != 0
}

/// The report of a verdict.
fn reported_of(verdict: Verdict) -> Report
    ensures { IsReportOf verdict result }
{
    match verdict {
        Verdict::Neither => Report { kind: 0, line: 0 },
        Verdict::Ignored { file: _, line } => Report { kind: 1, line },
        Verdict::TakenIn { file: _, line } => Report { kind: 2, line },
    }
}

/// Appends to an array that has `count` items, as far as there is room.
fn push(out: &mut [Report], count: usize, reported: Report) -> usize
    requires { count + 1 < 2 ^ 64 }
    ensures pushes { PushesReports (reported ∷ []) out.old count out.new result }
    ensures count { result ≡ count + 1 }
{
    if count < out.len() {
        out[count] = reported;
    }
    count + 1
}
