//! Runs that write what decides names: the lines of ignore files, or else patterns.
ghost use Rattle.std.specs.Prelude.{◌≡◌, false};
ghost use Rattle.std.specs.Option.{option_map};
ghost use Rattle.program_frame.specs.Marked.{has_failed};
ghost use Rattle.list_programs.specs.ListRun.{EndedBy};
ghost use Rattle.list_programs.specs.ProgramFault.{BlamesEnds};
ghost use Rattle.list_programs.specs.declared.program_fault.Fault.TheVariants.{Words};
ghost use Rattle.names_commands.specs.Command.{requested_of};
ghost use Rattle.names_commands.specs.Fault.{none_for};
ghost use Rattle.names_commands.specs.Program.{Did, RunsReasons, UnlessOutOfMemory};

use crate::command::Request;
use crate::fault::{Fault, none_for};
use crate::first_glob::Globs;
use crate::given::options_of;
use crate::ignoring::read_ignore;
use crate::patterns::compiled;
use crate::why::Reasons;
use list_programs::answers::run_list;
use os_ignore::IgnoreOptions;
use os_ignore::laws::known_line;
use os_str_bytes::Platform;
use program_frame::files::Files;
use program_frame::marked::Marked;
use program_frame::os::Os;
use std::alloc::Allocator;
use std::io::{Read, Write};

/// Returns the result for what decides names of a platform. The patterns are compiled once, and the
/// ignore files are read once.
pub(crate) fn run_why<E: Platform, F: Files, A: Allocator + Copy, R: Read, W: Write>(
    alloc: A,
    files: &F,
    os: Os,
    request: &Request<'_, A>,
    reader: &mut Marked<R>,
    writer: &mut Marked<W>,
) -> Result<(), Fault>
    requires reader_unmarked { has_failed reader.old ≡ false }
    requires writer_unmarked { has_failed writer.old ≡ false }
    ensures run { Did R.remaining W.contents (EndedBy
        (option_map Words (none_for request.now.exit_status)) (UnlessOutOfMemory
        (RunsReasons (F.known files.now) A ⟦<E as Platform>⟧ (requested_of request.now) os)))
        reader.old reader.new writer.old writer.new result }
    ensures ends { BlamesEnds result (has_failed reader.new) (has_failed writer.new) }
{
    known_line::<A>();
    let case_insensitive = request.case_insensitive;
    let options = options_of(os, case_insensitive);
    let texts = request.patterns.as_slice();
    let plain = request.plain;
    let set = match compiled::<E, A>(alloc, options, 0, plain, texts) {
        Ok(set) => set,
        Err(fault) => return Err(fault),
    };
    let values = request.files.as_slice();
    let reading = IgnoreOptions { case_insensitive };
    let ignore = match read_ignore(alloc, files, reading, values) {
        Ok(ignore) => ignore,
        Err(fault) => return Err(fault),
    };
    let globs = Globs { set, texts, plain };
    let mut reasons = Reasons {
        values,
        ignore,
        globs,
        list: request.list,
    };
    let none = none_for(request.exit_status);
    run_list(alloc, &mut reasons, none, reader, writer)
}
