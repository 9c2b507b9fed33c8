//! Runs over paths that are given as arguments: they are one list in memory.
ghost use Rattle.std.specs.Prelude.{◌≡◌, ◌≢◌, ◌↔◌, Err, true, false, IfOk};
ghost use Rattle.list_programs.specs.Arguments.{operands_of};
ghost use Rattle.program_frame.specs.Marked.{marked_inner, has_failed};
ghost use Rattle.program_frame.specs.declared.fault.Failure.{Failure};
ghost use Rattle.list_programs.specs.declared.fault.ListFault.TheVariants.{Run};
ghost use Rattle.list_programs.specs.declared.program_fault.Fault.TheVariants.{List as OfList};
ghost use Rattle.paths_commands.specs.Program.{IsInMemory, RunsGiven, list_text};

use crate::command::{LONGEST_PATH, Line};
use crate::fault::Fault;
use crate::program::run_task;
use crate::task::Task;
use list_programs::arguments::Given;
use list_programs::fault::ListFault;
use list_programs::options::{ItemEnd, ListOptions};
use program_frame::fault::Failure;
use program_frame::marked::Marked;
use program_frame::os::Os;
use std::alloc::{AllocError, Allocator};
use std::io::{Eprint, Write};

/// Returns the result of the run over the list of these paths.
pub fn run_given<P: Eprint, A: Allocator + Copy, W: Write>(
    alloc: A,
    errors: &P,
    paths: Line<'_, '_>,
    keeps_going: bool,
    os: Os,
    task: Task<'_>,
    end: ItemEnd,
    writer: &mut Marked<W>,
) -> Result<(), Fault>
    requires { has_failed writer.old ≡ false }
    ensures run { RunsGiven keeps_going os task.entry end (operands_of paths.entry.now)
        (W.contents (marked_inner writer.old)) (W.contents (marked_inner writer.new)) result }
    ensures no_read { result ≢ Err (OfList (Run Failure.Read)) }
    ensures write { (result ≡ Err (OfList (Run Failure.Write)))
        ↔ (has_failed writer.new ≡ true) }
{
    let text = list_of(alloc, paths)?;
    let mut reader = Marked::new(text.as_slice());
    let list = ListOptions::new(LONGEST_PATH);
    let ran = run_task(
        alloc,
        errors,
        keeps_going,
        os,
        task,
        list,
        end,
        &mut reader,
        writer,
    );
    in_memory(ran)
}

/// The list of the operands, each ended by NUL.
fn list_of<A: Allocator>(alloc: A, paths: Line<'_, '_>) -> Result<Vec<u8, A>, AllocError>
    ensures { IfOk result (λ text. text.items ≡ list_text (operands_of paths.entry.now)) }
{
    let mut text = Vec::new(alloc);
    let mut left = paths;
    while let [one, rest @ ..] = left {
        if let Given::Operand(path) = one {
            text.extend_from_slice(path.as_bytes())?;
            text.push(0)?;
        }
        left = rest;
    }
    Ok(text)
}

/// The result of a run over a list in memory: memory is to blame where the list isn't read.
fn in_memory(ran: Result<(), Fault>) -> Result<(), Fault>
    ensures { IsInMemory ran result }
{
    match ran {
        Err(Fault::List(ListFault::Run(Failure::Read))) => {
            Err(Fault::List(ListFault::Run(Failure::Memory)))
        }
        other => other,
    }
}
