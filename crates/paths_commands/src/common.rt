//! The common base of the paths of a list.
ghost use Rattle.std.specs.Prelude.{◌≡◌, ◌≢◌, ◌⊎◌, [], List, ℕ, Some, Err, true, false, IfErr, IfOk, OnOk, OnErr, IsTrue, ◌↔◌, map};
ghost use Rattle.list_programs.specs.ProgramFault.{BlamesEnds};
ghost use Rattle.list_programs.specs.declared.fault.ListFault.TheVariants.{Run};
ghost use Rattle.list_programs.specs.declared.program_fault.Fault.TheVariants.{List as OfList, Words};
ghost use Rattle.path_building.specs.CommonBase.{bytes_of};
ghost use Rattle.program_frame.specs.Marked.{marked_inner, has_failed};
ghost use Rattle.program_frame.specs.declared.fault.Failure.{Failure};
ghost use Rattle.paths_commands.specs.Common.{IsBaseText, IsCommonText, IsUncommon};
ghost use Rattle.paths_commands.specs.Program.{AreListed, EndsEarly, HasReadAll, RunsCommon, RunsEach, WritesCommon};
ghost use Rattle.paths_commands.specs.Styles.{style_of};
ghost use Rattle.list_programs.specs.Items.{Lacks};
ghost use Rattle.list_programs.specs.ListOptions.{byte_of};
ghost use Rattle.paths_commands.specs.declared.fault.CommandFault.{CommandFault as DeclaredFault};
ghost use Rattle.paths_commands.specs.declared.task.Task.TheVariants.{Common};

use crate::command::style_of;
use crate::fault::{CommandFault, Fault};
use crate::item::way_text;
use crate::program::run_each;
use crate::task::Task;
use list_programs::fault::ListFault;
use list_programs::items::{push_ended, split_at_end};
use list_programs::options::{ItemEnd, ListOptions};
use path_building::common_base;
use program_frame::fault::Failure;
use program_frame::marked::Marked;
use program_frame::os::Os;
use program_frame::writing::write_out;
use std::alloc::{AllocError, Allocator};
use std::io::{Eprint, Read, Write};

/// Returns the result of `common`. All paths are read before their base is written.
pub(crate) fn run_common<P: Eprint, A: Allocator + Copy, R: Read, W: Write>(
    alloc: A,
    errors: &P,
    keeps_going: bool,
    os: Os,
    list: ListOptions,
    end: ItemEnd,
    reader: &mut Marked<R>,
    writer: &mut Marked<W>,
) -> Result<(), Fault>
    requires reader_unmarked { has_failed reader.old ≡ false }
    requires writer_unmarked { has_failed writer.old ≡ false }
    ensures run { RunsCommon keeps_going os list end
        (R.remaining (marked_inner reader.old)) (R.remaining (marked_inner reader.new))
        (W.contents (marked_inner writer.old)) (W.contents (marked_inner writer.new)) result }
    ensures ends { BlamesEnds result (has_failed reader.new) (has_failed writer.new) }
{
    let mut held = Marked::new(Vec::new(alloc));
    let nul = ItemEnd::Nul;
    let ran = run_each(
        alloc,
        errors,
        keeps_going,
        os,
        Task::Common,
        list,
        nul,
        reader,
        &mut held,
    );
    let ran = all_read(ran)?;
    write_common(alloc, os, end, &held.into_inner(), ran, writer)
}

/// The result of a run that has read all paths, or why one ended early: memory is to blame where the
/// output, which is held, isn't written.
fn all_read(ran: Result<(), Fault>) -> Result<Result<(), Fault>, Fault>
    ensures all { IfOk result (λ same. HasReadAll ran × (same ≡ ran)) }
    ensures early { IfErr result (λ fault. EndsEarly ran (Err fault)
        × ((ran ≡ Err (OfList (Run Failure.Read))) → (fault ≡ OfList (Run Failure.Read)))) }
{
    match ran {
        Ok(()) => Ok(Ok(())),
        Err(Fault::Words(why)) => Ok(Err(Fault::Words(why))),
        Err(Fault::List(ListFault::Run(Failure::Write))) => {
            Err(Fault::List(ListFault::Run(Failure::Memory)))
        }
        Err(Fault::List(fault)) => Err(Fault::List(fault)),
    }
}

/// Writes the common base of the paths in a list, each ended by NUL, after a run with this result.
fn write_common<A: Allocator + Copy, W: Write>(
    alloc: A,
    os: Os,
    end: ItemEnd,
    held: &[u8],
    ran: Result<(), Fault>,
    writer: &mut Marked<W>,
) -> Result<(), Fault>
    requires all { HasReadAll ran }
    requires unmarked { has_failed writer.old ≡ false }
    ensures run { ((result ≡ Err (OfList (Run Failure.Memory))) × (W.contents
        (marked_inner writer.new) ≡ W.contents (marked_inner writer.old)))
        ⊎ ((paths : List (List ℕ)) × (AreListed held.now paths
        × WritesCommon (style_of os) end paths ran (W.contents (marked_inner writer.old))
        (W.contents (marked_inner writer.new)) result)) }
    ensures no_read { result ≢ Err (OfList (Run Failure.Read)) }
    ensures marked { (result ≡ Err (OfList (Run Failure.Write)))
        ↔ (has_failed writer.new ≡ true) }
{
    let paths = paths_in(alloc, held)?;
    let mut output = Vec::new(alloc);
    push_common(os, end, &paths, &mut output)?;
    match write_out(writer, &output) {
        Ok(()) => ran,
        Err(_) => Err(Fault::List(ListFault::Run(Failure::Write))),
    }
}

/// The paths of a list, each ended by NUL.
fn paths_in<'a, A: Allocator>(alloc: A, held: &'a [u8]) -> Result<Vec<&'a [u8], A>, AllocError>
    ensures { IfOk result (λ paths. AreListed held.entry.now (map bytes_of paths.items)) }
{
    let mut paths = Vec::new(alloc);
    let mut left = held;
    while let Some((path, after)) = split_at_end(0, left) {
        paths.push(path)?;
        left = after;
    }
    Ok(paths)
}

/// Appends what is written for the paths.
fn push_common<A: Allocator>(
    os: Os,
    end: ItemEnd,
    paths: &[&[u8]],
    output: &mut Vec<u8, A>,
) -> Result<(), Fault>
    requires { output.old.items ≡ [] }
    ensures ok { OnOk result
        (IsCommonText (style_of os) end (map bytes_of paths.now) output.new.items) }
    ensures fault { IfErr result (λ fault. (fault ≡ OfList (Run Failure.Memory))
        ⊎ ((why : DeclaredFault) × ((fault ≡ Words why)
        × IsUncommon (style_of os) end (map bytes_of paths.now) why))) }
{
    if paths.is_empty() {
        return Ok(());
    }
    match base_of(os, end, paths) {
        Ok(base) => {
            push_ended(base, end.byte(), output)?;
            Ok(())
        }
        Err(why) => Err(Fault::Words(why)),
    }
}

/// The common base of the paths, as it is written.
fn base_of<'a>(os: Os, end: ItemEnd, paths: &[&'a [u8]]) -> Result<&'a [u8], CommandFault>
    requires { paths.now ≢ [] }
    ensures ok { IfOk result (λ base. IsBaseText (style_of os) (map bytes_of paths.now) base.now
        × Lacks (byte_of end) base.now) }
    ensures err { IfErr result (IsUncommon (style_of os) end (map bytes_of paths.now)) }
{
    match common_base(style_of(os), paths) {
        Ok(base) => {
            let base = way_text(base);
            match split_at_end(end.byte(), base) {
                Some(_) => Err(CommandFault::BaseHas(end)),
                None => Ok(base),
            }
        }
        Err(error) => Err(CommandFault::NoBase(error)),
    }
}
