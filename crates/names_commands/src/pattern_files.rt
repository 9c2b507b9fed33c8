//! The patterns that files have.
ghost use Rattle.std.specs.Prelude.{◌≡◌, ◌⊎◌, ◌+◌, ◌++◌, ◌∷◌, ◌<◌, [], ℕ, List, drop, length, map, IfErr, IfOk, MatchResult, OnOk};
ghost use Rattle.os_ignore.specs.Components.{pieces};
ghost use Rattle.os_ignore.specs.Files.{IsWithoutReturn};
ghost use Rattle.os_str_bytes.specs.EncodingError.{EncodingError as EncodingErrorOf};
ghost use Rattle.os_str_bytes.specs.Strings.{bytes};
ghost use Rattle.program_frame.specs.declared.fault.Failure.TheVariants.{Memory};
ghost use Rattle.list_programs.specs.declared.fault.ListFault.TheVariants.{Run};
ghost use Rattle.list_programs.specs.declared.program_fault.Fault.TheVariants.{List as OfList, Words};
ghost use Rattle.names_commands.specs.Ignoring.{text_of as value_text};
ghost use Rattle.names_commands.specs.PatternFiles.{ArePatternsIn, ArePatternsOf, IsLineEnd, IsUnreadOf, IsUnreadOne, PatternLine, line_text, numbered, pattern_line, text_of};
ghost use Rattle.names_commands.specs.Program.{IsOfNoString};
ghost use Rattle.names_commands.specs.declared.fault.CommandFault.{CommandFault as CommandFaultOf};
ghost use Rattle.names_commands.specs.declared.fault.CommandFault.TheVariants.{LineNoString};

use crate::fault::{CommandFault, Fault};
use crate::ignoring::value_at;
use list_programs::fault::ListFault;
use list_programs::items::split_at_end;
use os_str_bytes::{OsStr, Platform};
use program_frame::fault::Failure;
use program_frame::files::{FileFault, Files};
use std::alloc::{AllocError, Allocator, Global};

/// A pattern of a file.
#[derive(Drop)]
pub struct FilePattern<A: Allocator = Global> {
    /// The number of the file, from 1.
    pub file: usize,
    /// The number of its line, from 1.
    pub line: usize,
    /// Its bytes.
    pub text: Vec<u8, A>,
}

/// Reads the patterns of the files that values of `--globs-from` name.
pub fn read_patterns<F: Files, A: Allocator + Copy>(
    alloc: A,
    files: &F,
    names: &[&str],
) -> Result<Vec<FilePattern<A>, A>, Fault>
    ensures { MatchResult result
        (λ patterns. ArePatternsOf (F.known files.now) 1 (map value_text names.now)
        (map pattern_line patterns.items))
        (λ fault. (fault ≡ OfList (Run Memory)) ⊎ ((why : CommandFaultOf)
        × (IsUnreadOf (F.known files.now) 1 (map value_text names.now) why
        × (fault ≡ Words why)))) }
{
    let mut patterns = Vec::new(alloc);
    let mut read = 0;
    while let Some(name) = value_at(names, read) {
        add_patterns(alloc, files, read + 1, name, &mut patterns)?;
        read += 1;
    }
    Ok(patterns)
}

/// Reads the file with this number and name, and appends its patterns.
fn add_patterns<F: Files, A: Allocator + Copy>(
    alloc: A,
    files: &F,
    number: usize,
    name: &str,
    patterns: &mut Vec<FilePattern<A>, A>,
) -> Result<(), Fault>
    ensures added { OnOk result ((content : List ℕ) × (own : List PatternLine)
        × ((F.known files.now).has name.now content × (ArePatternsIn number content own
        × (map pattern_line patterns.new.items
        ≡ map pattern_line patterns.old.items ++ own)))) }
    ensures fault { IfErr result (λ fault. (fault ≡ OfList (Run Memory))
        ⊎ ((why : CommandFaultOf) × (IsUnreadOne (F.known files.now) number name.now why
        × (fault ≡ Words why)))) }
{
    let content = read_file(alloc, files, number, name)?;
    Ok(push_patterns(alloc, number, end_of(&content), &content, patterns)?)
}

/// The bytes of the file with this number and name.
fn read_file<F: Files, A: Allocator + Copy>(
    alloc: A,
    files: &F,
    number: usize,
    name: &str,
) -> Result<Vec<u8, A>, Fault>
    ensures bytes { IfOk result (λ bytes. (F.known files.now).has name.now bytes.items) }
    ensures fault { IfErr result (λ fault. (fault ≡ OfList (Run Memory))
        ⊎ ((why : CommandFaultOf) × (IsUnreadOne (F.known files.now) number name.now why
        × (fault ≡ Words why)))) }
{
    match files.read(alloc, name) {
        Ok(bytes) => Ok(bytes),
        Err(FileFault::NoFile) => Err(Fault::Words(CommandFault::NoPatternFile(number))),
        Err(FileFault::Read) => Err(Fault::Words(CommandFault::UnreadPatternFile(number))),
        Err(FileFault::Memory) => Err(Fault::List(ListFault::Run(Failure::Memory))),
    }
}

/// The byte that ends each line of a file: NUL if it has one.
#[tactic(auto, using(list_programs::proofs::lemmas::Items::has_end))]
fn end_of(content: &[u8]) -> u8
    ensures { IsLineEnd content.now result }
{
    match split_at_end(0, content) {
        Some(_) => 0,
        None => b'\n',
    }
}

/// Appends the lines of the file with this number that aren't empty.
fn push_patterns<A: Allocator + Copy>(
    alloc: A,
    file: usize,
    end: u8,
    content: &[u8],
    patterns: &mut Vec<FilePattern<A>, A>,
) -> Result<(), AllocError>
    ensures { OnOk result (map pattern_line patterns.new.items
        ≡ map pattern_line patterns.old.items
        ++ numbered file 1 (map (line_text end) (pieces end content.now))) }
{
    let mut line = 1;
    let mut left = content;
    while let Some((first, rest)) = split_at_end(end, left) {
        push_line(alloc, file, line, text_of_line(end, first), patterns)?;
        line += 1;
        left = rest;
    }
    push_line(alloc, file, line, text_of_line(end, left), patterns)
}

/// Appends a line, if it isn't empty.
fn push_line<A: Allocator + Copy>(
    alloc: A,
    file: usize,
    line: usize,
    text: &[u8],
    patterns: &mut Vec<FilePattern<A>, A>,
) -> Result<(), AllocError>
    ensures { OnOk result (map pattern_line patterns.new.items
        ≡ map pattern_line patterns.old.items ++ numbered file line (text.now ∷ [])) }
{
    if text.is_empty() {
        return Ok(());
    }
    let text = Vec::from_slice(alloc, text)?;
    patterns.push(FilePattern { file, line, text })?;
    Ok(())
}

/// The text of a line that this byte ends. If that is a newline, a carriage return at the end of the
/// line isn't part of it.
#[tactic(auto, using(crate::proofs::lemmas::PatternFiles::stripped))]
fn text_of_line(end: u8, line: &[u8]) -> &[u8]
    ensures { result.now ≡ line_text end line.now }
{
    if end == 0 { line } else { without_return(line) }
}

/// The line without the carriage return at its end, if it has one.
fn without_return(line: &[u8]) -> &[u8]
    ensures { IsWithoutReturn line.now result.now }
{
    match line.split_last() {
        Some((b'\r', front)) => front,
        _ => line,
    }
}

/// Appends the patterns as strings of a platform, or returns the fault of the first that isn't one.
pub(crate) fn push_strings<'s, E: Platform, A: Allocator>(
    patterns: &'s [FilePattern<A>],
    strings: &mut Vec<OsStr<'s, E>, A>,
) -> Result<(), Fault>
    ensures strings { OnOk result (map bytes strings.new.items
        ≡ map bytes strings.old.items ++ map text_of (map pattern_line patterns.entry.now)) }
    ensures fault { IfErr result (λ fault. (fault ≡ OfList (Run Memory))
        ⊎ IsOfNoString ⟦<E as Platform>⟧ (map pattern_line patterns.entry.now) fault) }
{
    let mut left = patterns;
    while let Some((pattern, rest)) = left.split_first() {
        let string = string_of::<E, A>(pattern)?;
        push_string(string, strings)?;
        left = rest;
    }
    Ok(())
}

/// The pattern as a string of a platform, or the fault for its bytes.
fn string_of<'s, E: Platform, A: Allocator>(
    pattern: &'s FilePattern<A>,
) -> Result<OsStr<'s, E>, Fault>
    ensures string { IfOk result (λ string. bytes string ≡ pattern.entry.now.text.items) }
    ensures formed { OnOk result (E.well_formed pattern.entry.now.text.items) }
    ensures fault { IfErr result (λ fault. (error : EncodingErrorOf)
        × (E.first_fault pattern.entry.now.text.items error
        × (fault ≡ Words (LineNoString pattern.entry.now.file pattern.entry.now.line error)))) }
{
    match OsStr::checked(&pattern.text) {
        Ok(string) => Ok(string),
        Err(error) => Err(Fault::Words(CommandFault::LineNoString(
            pattern.file,
            pattern.line,
            error,
        ))),
    }
}

/// Appends a string.
fn push_string<'s, E: Platform, A: Allocator>(
    string: OsStr<'s, E>,
    strings: &mut Vec<OsStr<'s, E>, A>,
) -> Result<(), AllocError>
    ensures { OnOk result
        (map bytes strings.new.items ≡ map bytes strings.old.items ++ bytes string.entry ∷ []) }
{
    strings.push(string)?;
    Ok(())
}

/// The pattern at this index.
pub(crate) fn pattern_at<A: Allocator>(patterns: &[FilePattern<A>], index: usize) -> &FilePattern<A>
    requires { index < length patterns.now }
    ensures { drop index (map pattern_line patterns.now)
        ≡ pattern_line result.now ∷ drop (index + 1) (map pattern_line patterns.now) }
{
    &patterns[index]
}
