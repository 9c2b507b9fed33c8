//! Names that ignore files leave out.
ghost use Rattle.std.specs.Prelude.{◌≡◌, ◌↔◌, ◌⊎◌, ◌+◌, ◌<◌, ◌∷◌, ◌++◌, [], ℕ, List, map, length, drop, IsTrue, IfErr, IfOk, IfSome, MatchOption, MatchResult, OnOk};
ghost use Rattle.std.specs.List.{AllByRecursion};
ghost use Rattle.std.specs.Str.{IsUtf8};
ghost use Rattle.os_ignore.specs.Ignores.{IsAddedTo, files_of};
ghost use Rattle.os_ignore.specs.Walks.{files_of_walk};
ghost use Rattle.names_commands.specs.Ignoring.{AreRead, IsDirectory, IsFileIn, IsFromTop, IsIgnored, IsInside, IsNoName, IsPath, IsPlaced, LeadsDown, needs_tree, text_of, without_dot};
ghost use Rattle.names_commands.specs.Why.{IsDecided, numbers_of};
ghost use Rattle.program_frame.specs.declared.fault.Failure.TheVariants.{Memory};
ghost use Rattle.list_programs.specs.declared.fault.ListFault.TheVariants.{Run};
ghost use Rattle.list_programs.specs.declared.program_fault.Fault.TheVariants.{List as OfList, Words};
ghost use Rattle.names_commands.specs.Program.{IsFaultOf, IsFaultOfOne};
ghost use Rattle.names_commands.specs.declared.fault.CommandFault.TheVariants.{NoFile, Unread};

use crate::fault::{CommandFault, Fault};
use list_programs::fault::ListFault;
use list_programs::items::split_at_end;
use os_ignore::{Ignore, IgnoreOptions, Verdict, Walk};
use program_frame::fault::Failure;
use program_frame::files::{FileFault, Files};
use std::alloc::{AllocError, Allocator};

/// The name without one `./` before it. Of `.`, which is the top, nothing is left.
fn without_dot(name: &[u8]) -> &[u8]
    ensures { result.now ≡ without_dot name.now }
{
    match name {
        [b'.', b'/', rest @ ..] => rest,
        [b'.'] => b"",
        _ => name,
    }
}

/// The path that a name is, and whether it is that of a directory, which a `/` at the end shows.
fn path_of(name: &[u8]) -> (&[u8], bool)
    ensures { IsPath name.now result.0.now result.1 }
{
    match name.split_last() {
        Some((b'/', path)) => (path, true),
        _ => (name, false),
    }
}

/// Whether no line of the ignore files of a walk ignores a name.
pub fn is_shown<A: Allocator + Copy>(
    walk: &mut Walk<'_, A>,
    name: &[u8],
) -> Result<bool, AllocError>
    ensures shown { IfOk result (λ shown. IsTrue shown
        ↔ (¬ (IsIgnored (files_of_walk walk.old) name.now))) }
    ensures files { files_of_walk walk.new ≡ files_of_walk walk.old }
{
    let (path, is_dir) = path_of(without_dot(name));
    let verdict = walk.matched(path, is_dir)?;
    Ok(!verdict.is_ignored())
}

/// The file and the line that decide a name, by their numbers.
pub fn decider<A: Allocator + Copy>(ignore: &Ignore<A>, name: &[u8]) -> Option<(usize, usize)>
    ensures { IsDecided (files_of ignore.now) name.now result }
{
    let (path, is_dir) = path_of(without_dot(name));
    numbers_of(ignore.matched(path, is_dir))
}

/// The file and the line of a verdict, by their numbers.
fn numbers_of(verdict: Verdict) -> Option<(usize, usize)>
    ensures { result ≡ numbers_of verdict }
{
    match verdict {
        Verdict::Neither => None,
        Verdict::Ignored { file, line } => Some((file, line)),
        Verdict::TakenIn { file, line } => Some((file, line)),
    }
}

/// Reads the ignore files that values of `--ignore` state, with options.
pub fn read_ignore<F: Files, A: Allocator + Copy>(
    alloc: A,
    files: &F,
    options: IgnoreOptions,
    values: &[&str],
) -> Result<Ignore<A>, Fault>
    ensures { MatchResult result
        (λ ignore. AreRead (F.known files.now) options.case_insensitive (map text_of values.now)
        (files_of ignore))
        (λ fault. IsFaultOf (F.known files.now) A options.case_insensitive
        (map text_of values.now) fault) }
{
    let mut ignore = Ignore::empty(alloc);
    add_files(alloc, files, options, values, &mut ignore)?;
    Ok(ignore)
}

/// Reads ignore files, and adds them where there are none yet.
fn add_files<F: Files, A: Allocator + Copy>(
    alloc: A,
    files: &F,
    options: IgnoreOptions,
    values: &[&str],
    ignore: &mut Ignore<A>,
) -> Result<(), Fault>
    requires { files_of ignore.old ≡ [] }
    ensures read { OnOk result (AreRead (F.known files.now) options.case_insensitive
        (map text_of values.now) (files_of ignore.new)) }
    ensures fault { IfErr result (λ fault. IsFaultOf (F.known files.now) A
        options.case_insensitive (map text_of values.now) fault) }
{
    let mut added = 0;
    while let Some(value) = value_at(values, added) {
        add_file(alloc, files, options, added + 1, value, ignore)?;
        added += 1;
    }
    Ok(())
}

/// The value at `index`, or `None`.
pub(crate) fn value_at<'a>(values: &[&'a str], index: usize) -> Option<&'a str>
    ensures first { MatchOption result (drop index (map text_of values.now) ≡ [])
        (λ value. drop index (map text_of values.now)
        ≡ value.now ∷ drop (index + 1) (map text_of values.now)) }
    ensures within { IfSome result (λ _. index < length values.now) }
{
    if index < values.len() {
        Some(value_of(values, index))
    } else {
        None
    }
}

/// The value at `index`.
pub fn value_of<'a>(values: &[&'a str], index: usize) -> &'a str
    requires { index < length values.now }
    ensures { drop index (map text_of values.now)
        ≡ result.now ∷ drop (index + 1) (map text_of values.now) }
{
    values[index]
}

/// The directory and the name of the ignore file that a value of `--ignore` states.
pub fn file_in(value: &[u8]) -> (&[u8], &[u8])
    ensures { IsFileIn value.now result.0.now result.1.now }
{
    match split_at_end(b'=', value) {
        Some((directory, name)) => (directory_of(directory), name),
        None => (b"", value),
    }
}

/// The path of a directory in the tree.
fn directory_of(word: &[u8]) -> &[u8]
    ensures { IsDirectory word.now result.now }
{
    let (path, _) = path_of(without_dot(word));
    path
}

/// The first value of `--ignore` that states an ignore file in no directory of the tree.
pub(crate) fn first_outside<'a>(values: &[&'a str]) -> Option<&'a str>
    ensures { MatchOption result (AllByRecursion IsPlaced (map text_of values.now))
        (λ value. (before : List (List ℕ)) × ((after : List (List ℕ))
        × ((map text_of values.now ≡ before ++ value.now ∷ after) × (¬ (IsPlaced value.now))))) }
{
    let mut passed = 0;
    while let Some(value) = value_at(values, passed) {
        if !is_placed(value.as_bytes()) {
            return Some(value);
        }
        passed += 1;
    }
    None
}

/// Whether a value of `--ignore` states a file in a directory of the tree.
fn is_placed(value: &[u8]) -> bool
    ensures { IsTrue result ↔ IsPlaced value.now }
{
    match split_at_end(b'=', value) {
        Some((directory, _)) => is_inside(directory),
        None => true,
    }
}

/// Whether a word is a directory of the tree.
fn is_inside(word: &[u8]) -> bool
    ensures { IsTrue result ↔ IsInside word.now }
{
    let below = without_dot(word);
    let (path, _) = path_of(below);
    below.is_empty() || leads_down(path)
}

/// Whether a name is a path from the top of the tree.
pub(crate) fn is_from_top(name: &[u8]) -> bool
    ensures { IsTrue result ↔ IsFromTop name.now }
{
    !name.is_empty() && is_inside(name)
}

/// Whether names have to be paths from the top, since some value of `--ignore` states a file.
pub(crate) fn needs_tree(values: &[&str]) -> bool
    ensures { result ≡ needs_tree (map text_of values.now) }
{
    match values {
        [] => false,
        [_, ..] => true,
    }
}

/// Whether each component of a path is a name.
fn leads_down(path: &[u8]) -> bool
    ensures { IsTrue result ↔ LeadsDown path.now }
{
    let mut left = path;
    while let Some((first, rest)) = split_at_end(b'/', left) {
        if is_no_name(first) {
            return false;
        }
        left = rest;
    }
    !is_no_name(left)
}

/// Whether a component is empty, `.` or `..`.
fn is_no_name(component: &[u8]) -> bool
    ensures { IsTrue result ↔ IsNoName component.now }
{
    if component.is_empty() {
        return true;
    }
    component == b".".as_slice() || component == b"..".as_slice()
}

/// Reads the ignore file with this number, which a value states, and adds it to those before it.
fn add_file<F: Files, A: Allocator + Copy>(
    alloc: A,
    files: &F,
    options: IgnoreOptions,
    number: usize,
    value: &str,
    ignore: &mut Ignore<A>,
) -> Result<(), Fault>
    ensures added { OnOk result ((directory : List ℕ) × (name : List ℕ) × (bytes : List ℕ)
        × (IsFileIn value.now directory name × ((F.known files.now).has name bytes
        × IsAddedTo options.case_insensitive directory bytes (files_of ignore.old)
        (files_of ignore.new)))) }
    ensures fault { IfErr result (λ fault.
        IsFaultOfOne (F.known files.now) number value.now fault) }
{
    let (directory, name) = file_in(value.as_bytes());
    let bytes = read_file(alloc, files, number, name)?;
    Ok(ignore.add_with(alloc, options, directory, &bytes)?)
}

/// Reads the ignore file of this name, which is UTF-8.
fn read_file<F: Files, A: Allocator + Copy>(
    alloc: A,
    files: &F,
    number: usize,
    name: &[u8],
) -> Result<Vec<u8, A>, Fault>
    requires { IsUtf8 name.now }
    ensures bytes { IfOk result (λ bytes. (F.known files.now).has name.now bytes.items) }
    ensures fault { IfErr result (λ fault. (fault ≡ OfList (Run Memory))
        ⊎ (((fault ≡ Words (NoFile number)) × (F.known files.now).lacks name.now)
        ⊎ ((fault ≡ Words (Unread number)) × (F.known files.now).fails name.now))) }
{
    match files.read(alloc, unsafe { str::from_utf8_unchecked(name) }) {
        Ok(bytes) => Ok(bytes),
        Err(FileFault::NoFile) => Err(Fault::Words(CommandFault::NoFile(number))),
        Err(FileFault::Read) => Err(Fault::Words(CommandFault::Unread(number))),
        Err(FileFault::Memory) => Err(Fault::List(ListFault::Run(Failure::Memory))),
    }
}
