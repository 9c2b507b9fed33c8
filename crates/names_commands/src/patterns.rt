//! Runs over names that are picked by patterns and ignore files.
ghost use Rattle.std.specs.Prelude.{◌≡◌, ◌≢◌, ◌⊎◌, ◌+◌, ◌++◌, ◌<◌, ◌^◌, [], IfErr, IfOk, length, map, string_bytes, false, MatchOption, MatchResult};
ghost use Rattle.std.specs.List.{AllByRecursion};
ghost use Rattle.std.specs.Option.{option_map};
ghost use Rattle.program_frame.specs.Marked.{has_failed};
ghost use Rattle.list_programs.specs.ListRun.{EndedBy};
ghost use Rattle.list_programs.specs.ProgramFault.{BlamesEnds};
ghost use Rattle.program_frame.specs.declared.fault.Failure.TheVariants.{Memory};
ghost use Rattle.list_programs.specs.declared.fault.ListFault.TheVariants.{Run};
ghost use Rattle.list_programs.specs.declared.program_fault.Fault.TheVariants.{List as OfList, Words};
ghost use Rattle.names_commands.specs.Command.{requested_of};
ghost use Rattle.names_commands.specs.Fault.{none_for};
ghost use Rattle.names_commands.specs.Matching.{IsPattern, IsSetOf};
ghost use Rattle.names_commands.specs.PatternFiles.{pattern_line, text_of};
ghost use Rattle.names_commands.specs.Program.{Did, IsOfGlobs, IsOfLine, IsOfLines, IsOfNoString, IsOfPattern, IsOfPatterns, RunsPicked, UnlessOutOfMemory};

use crate::caret::pointed;
use crate::command::Request;
use crate::fault::{CommandFault, Fault, none_for};
use crate::given::options_of;
use crate::ignoring::{needs_tree, read_ignore};
use crate::matching::{Form, Matching, Picker};
use crate::pattern_files::{FilePattern, pattern_at, push_strings, read_patterns};
use crate::pick::{added_before, strings_of, typed, typed_fault};
use glob_patterns::{GlobOptions, GlobSet, GlobSetError, PatternFault};
use list_programs::answers::run_list;
use list_programs::fault::ListFault;
use os_ignore::{IgnoreOptions, Walk};
use os_str_bytes::Platform;
use program_frame::fault::Failure;
use program_frame::files::Files;
use program_frame::marked::Marked;
use program_frame::os::Os;
use std::alloc::Allocator;
use std::io::{Read, Write};

/// Returns the result for names of a platform that are picked. The patterns are compiled once, and the
/// ignore files are read once.
pub(crate) fn run_picked<E: Platform, F: Files, A: Allocator + Copy, R: Read, W: Write>(
    alloc: A,
    files: &F,
    os: Os,
    form: Form,
    request: &Request<'_, A>,
    reader: &mut Marked<R>,
    writer: &mut Marked<W>,
) -> Result<(), Fault>
    requires reader_unmarked { has_failed reader.old ≡ false }
    requires writer_unmarked { has_failed writer.old ≡ false }
    ensures run { Did R.remaining W.contents (EndedBy
        (option_map Words (none_for request.now.exit_status)) (UnlessOutOfMemory
        (RunsPicked (F.known files.now) A ⟦<E as Platform>⟧ (requested_of request.now) os form)))
        reader.old reader.new writer.old writer.new result }
    ensures ends { BlamesEnds result (has_failed reader.new) (has_failed writer.new) }
{
    let patterns = request.patterns.as_slice();
    let pattern_files = request.pattern_files.as_slice();
    let case_insensitive = request.case_insensitive;
    let options = options_of(os, case_insensitive);
    let of_files = match read_patterns(alloc, files, pattern_files) {
        Ok(of_files) => of_files,
        Err(fault) => return Err(fault),
    };
    let lines = of_files.as_slice();
    let (set, excluded) = match sets_of::<E, A>(alloc, options, request, lines) {
        Ok(sets) => sets,
        Err(fault) => return Err(fault),
    };
    let reading = IgnoreOptions { case_insensitive };
    let values = request.files.as_slice();
    let ignore = match read_ignore(alloc, files, reading, values) {
        Ok(ignore) => ignore,
        Err(fault) => return Err(fault),
    };
    let names = Matching {
        globs: set_of(patterns, pattern_files, &set),
        inverted: request.inverted,
        excluded: &excluded,
        form,
        list: request.list,
    };
    let walk = Walk::new(alloc, &ignore);
    let from_top = needs_tree(values);
    let mut picker = Picker {
        names,
        walk,
        from_top,
    };
    let none = none_for(request.exit_status);
    run_list(alloc, &mut picker, none, reader, writer)
}

/// The sets of the patterns that pick names, and of those that leave them out, where files have these
/// patterns.
fn sets_of<E: Platform, A: Allocator + Copy>(
    alloc: A,
    options: GlobOptions,
    request: &Request<'_, A>,
    of_files: &[FilePattern<A>],
) -> Result<(GlobSet<E, A>, GlobSet<E, A>), Fault>
    ensures { MatchResult result
        (λ sets. IsSetOf ⟦<E as Platform>⟧ A options
        ((requested_of request.now).globs ++ map text_of (map pattern_line of_files.now)) sets.0
        × IsSetOf ⟦<E as Platform>⟧ A options (requested_of request.now).excluded sets.1)
        (λ fault. (fault ≡ OfList (Run Memory)) ⊎ IsOfGlobs ⟦<E as Platform>⟧ options
        (requested_of request.now) (map pattern_line of_files.now) fault) }
{
    let globs = request.patterns.as_slice();
    let excluded = request.excluded.as_slice();
    let set = match compiled_with::<E, A>(alloc, options, request.plain, globs, of_files) {
        Ok(set) => set,
        Err(fault) => return Err(fault),
    };
    let before = globs.len();
    let plain = excluded.len();
    match compiled::<E, A>(alloc, options, before, plain, excluded) {
        Ok(left_out) => Ok((set, left_out)),
        Err(fault) => Err(fault),
    }
}

/// The set of the patterns of arguments, the first `plain` of which come before those of `--name`, and
/// of files.
fn compiled_with<E: Platform, A: Allocator + Copy>(
    alloc: A,
    options: GlobOptions,
    plain: usize,
    patterns: &[String<A>],
    of_files: &[FilePattern<A>],
) -> Result<GlobSet<E, A>, Fault>
    ensures set { IfOk result (λ set. IsSetOf ⟦<E as Platform>⟧ A options
        (map string_bytes patterns.now ++ map text_of (map pattern_line of_files.now)) set) }
    ensures fault { IfErr result (λ fault. (fault ≡ OfList (Run Memory))
        ⊎ (IsOfNoString ⟦<E as Platform>⟧ (map pattern_line of_files.now) fault
        ⊎ (IsOfPatterns ⟦<E as Platform>⟧ options 0 plain (map string_bytes patterns.now) fault
        ⊎ (AllByRecursion (IsPattern ⟦<E as Platform>⟧ options) (map string_bytes patterns.now)
        × IsOfLines ⟦<E as Platform>⟧ options (map pattern_line of_files.now) fault)))) }
{
    let mut strings = strings_of::<E, A>(alloc, patterns)?;
    push_strings(of_files, &mut strings)?;
    match GlobSet::<E, A>::new(alloc, options, strings.as_slice()) {
        Ok(set) => Ok(set),
        Err(GlobSetError::Pattern(index, fault)) => {
            let count = patterns.len();
            if index < count {
                let pattern = patterns[index].as_bytes();
                let added = added_before(plain, index);
                Err(rejection(alloc, added, index + 1, pattern, fault))
            } else {
                Err(line_rejection(alloc, pattern_at(of_files, index - count), fault))
            }
        }
        Err(GlobSetError::Memory) => Err(Fault::List(ListFault::Run(Failure::Memory))),
    }
}

/// Why the run ends where this pattern of a file has a fault.
fn line_rejection<A: Allocator + Copy>(
    alloc: A,
    pattern: &FilePattern<A>,
    fault: PatternFault,
) -> Fault
    ensures { (result ≡ OfList (Run Memory)) ⊎ IsOfLine (pattern_line pattern.now) fault result }
{
    match pointed(alloc, &pattern.text, fault.index) {
        Ok(lines) => Fault::Words(CommandFault::LinePattern(
            pattern.file,
            pattern.line,
            fault,
            lines,
        )),
        Err(_) => Fault::List(ListFault::Run(Failure::Memory)),
    }
}

/// The set of patterns, before which `before` others are counted, and the first `plain` of which come
/// before those of `--name`.
pub(crate) fn compiled<E: Platform, A: Allocator + Copy>(
    alloc: A,
    options: GlobOptions,
    before: usize,
    plain: usize,
    patterns: &[String<A>],
) -> Result<GlobSet<E, A>, Fault>
    requires { before + length patterns.now < 2 ^ 64 }
    ensures { MatchResult result
        (λ set. IsSetOf ⟦<E as Platform>⟧ A options (map string_bytes patterns.now) set)
        (λ fault. (fault ≡ OfList (Run Memory)) ⊎ IsOfPatterns ⟦<E as Platform>⟧ options before
        plain (map string_bytes patterns.now) fault) }
{
    let Ok(strings) = strings_of::<E, A>(alloc, patterns) else {
        return Err(Fault::List(ListFault::Run(Failure::Memory)));
    };
    let globs = strings.as_slice();
    match GlobSet::<E, A>::new(alloc, options, globs) {
        Ok(set) => Ok(set),
        Err(GlobSetError::Pattern(index, fault)) => {
            let pattern = globs[index].as_encoded_bytes();
            let added = added_before(plain, index);
            Err(rejection(alloc, added, before + index + 1, pattern, fault))
        }
        Err(GlobSetError::Memory) => Err(Fault::List(ListFault::Run(Failure::Memory))),
    }
}

/// Why the run ends where the pattern with this number has a fault. `added` bytes of it come before
/// what was typed.
fn rejection<A: Allocator + Copy>(
    alloc: A,
    added: usize,
    number: usize,
    pattern: &[u8],
    fault: PatternFault,
) -> Fault
    ensures { (result ≡ OfList (Run Memory)) ⊎ IsOfPattern added number pattern.now fault result }
{
    let shown = typed_fault(added, fault);
    match pointed(alloc, typed(pattern, added), shown.index) {
        Ok(lines) => Fault::Words(CommandFault::Pattern(number, shown, lines)),
        Err(_) => Fault::List(ListFault::Run(Failure::Memory)),
    }
}

/// The set that was compiled of patterns, if arguments or files state any.
fn set_of<'g, E: Platform, A: Allocator>(
    patterns: &[String<A>],
    pattern_files: &[&str],
    set: &'g GlobSet<E, A>,
) -> Option<&'g GlobSet<E, A>>
    ensures { MatchOption result ((patterns.now ≡ []) × (pattern_files.now ≡ []))
        (λ chosen. ((patterns.now ≢ []) ⊎ (pattern_files.now ≢ []))
        × (chosen.now ≡ set.entry.now)) }
{
    if !patterns.is_empty() {
        return Some(set);
    }
    if pattern_files.is_empty() {
        None
    } else {
        Some(set)
    }
}
