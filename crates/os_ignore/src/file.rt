//! An ignore file: its lines, and the directory that it is in.
ghost use Rattle.std.specs.Prelude.{◌≡◌, ◌++◌, length, map, IfOk, MatchOption, None, Some};
ghost use Rattle.os_ignore.specs.Files.{without_mark, IsWithoutReturn, IsLineText, IsTextAt, NoTextAt, AreLines, AreThere, list_of};
ghost use Rattle.std.specs.List.{AllByRecursion, slice_get};
ghost use Rattle.os_ignore.specs.Components.{pieces};
ghost use Rattle.os_ignore.specs.Tags.{AreTags, IsTag};

use crate::component::split_piece;
use crate::line::{Line, read_line};
use crate::reason::NoPattern;
use std::alloc::{AllocError, Allocator, Global};

/// The lines of an ignore file, and the directory that it is in.
#[derive(Drop)]
pub struct File<A: Allocator = Global> {
    /// How many files were added before it.
    pub number: usize,
    /// Its directory, from the top of the tree, with no slash at the end.
    pub directory: Vec<u8, A>,
    /// Its bytes.
    pub content: Vec<u8, A>,
    /// The lines that are patterns.
    pub lines: Vec<Line<A>, A>,
    /// The tag of each of these lines.
    pub tags: Vec<u8, A>,
    ghost count: { length tags.items ≡ length lines.items },
    ghost tagged: { AreTags lines.items tags.items },
    ghost there: { AreThere content.items lines.items },
}

/// Without the byte order mark that a file may begin with.
fn without_mark(file: &[u8]) -> &[u8]
    ensures { result.now ≡ without_mark file.now }
{
    match file {
        [0xef, 0xbb, 0xbf, rest @ ..] => rest,
        _ => file,
    }
}

/// Without the carriage return at the end.
fn without_return(line: &[u8]) -> &[u8]
    ensures { IsWithoutReturn line.now result.now }
{
    match line.split_last() {
        Some((last, front)) => { if *last == b'\r' { front } else { line } }
        None => line,
    }
}

/// The part of a line that is read: without a carriage return at the end, and then up to the first
/// NUL.
pub(crate) fn line_text(line: &[u8]) -> &[u8]
    ensures { IsLineText line.now result.now }
{
    let (text, _) = split_piece(0, without_return(line));
    text
}

/// Appends a line, if one was read.
fn push_line<A: Allocator>(
    lines: &mut Vec<Line<A>, A>,
    read: Result<Line<A>, NoPattern>,
) -> Result<(), AllocError>
    ensures { IfOk result (λ _. lines.new.items ≡ lines.old.items ++ list_of read) }
{
    match read {
        Ok(line) => {
            lines.push(line)?;
            Ok(())
        }
        Err(_) => Ok(()),
    }
}

/// Reads the lines of a file that are patterns, without regard to case if it folds.
pub(crate) fn read_lines<A: Allocator + Copy>(
    alloc: A,
    folds: bool,
    file: &[u8],
) -> Result<Vec<Line<A>, A>, AllocError>
    ensures lines { IfOk result (λ lines. AreLines folds file.now lines.items) }
    ensures tags { IfOk result (λ lines. AllByRecursion (λ line. IsTag line line.tag) lines.items) }
{
    let mut lines = Vec::new(alloc);
    let mut number = 1;
    let mut left = Some(without_mark(file));
    while let Some(text) = left {
        let (line, rest) = split_piece(b'\n', text);
        let read = read_line(alloc, folds, number, line_text(line))?;
        push_line(&mut lines, read)?;
        number += 1;
        left = rest;
    }
    Ok(lines)
}

/// The tag of each line.
fn line_tags<A: Allocator + Copy>(alloc: A, lines: &[Line<A>]) -> Result<Vec<u8, A>, AllocError>
    ensures { IfOk result (λ tags. tags.items ≡ map (λ line. line.tag) lines.entry.now) }
{
    let mut tags = Vec::new(alloc);
    let mut left = lines;
    while let Some((line, rest)) = left.split_first() {
        tags.push(line.tag)?;
        left = rest;
    }
    Ok(tags)
}

/// The file in a directory that has these lines.
pub(crate) fn new_file<A: Allocator + Copy>(
    alloc: A,
    folds: bool,
    number: usize,
    directory: &[u8],
    content: &[u8],
) -> Result<File<A>, AllocError>
    ensures { IfOk result (λ file. (file.number ≡ number) × ((file.directory.items ≡ directory.now)
        × ((file.content.items ≡ content.now) × AreLines folds content.now file.lines.items))) }
{
    let lines = read_lines(alloc, folds, content)?;
    let tags = line_tags(alloc, &lines)?;
    Ok(File {
        number,
        directory: Vec::from_slice(alloc, directory)?,
        content: Vec::from_slice(alloc, content)?,
        lines,
        tags,
    })
}

/// The line at this index, from 0.
fn line_at(text: &[u8], index: usize) -> Option<&[u8]>
    ensures { MatchOption result (slice_get (pieces 0xA text.entry.now) index ≡ None)
        (λ line. slice_get (pieces 0xA text.entry.now) index ≡ Some line.now) }
{
    let mut left = Some(text);
    let mut before = index;
    while let Some(text) = left {
        let (line, rest) = split_piece(b'\n', text);
        if before == 0 {
            return Some(line);
        }
        before -= 1;
        left = rest;
    }
    None
}

/// The part that is read of the line of this number, from 1.
#[tactic(auto, using(crate::proofs::lemmas::Texts::no_text, crate::proofs::lemmas::Texts::none_there, crate::proofs::lemmas::Texts::there))]
pub(crate) fn text_at(content: &[u8], number: usize) -> Option<&[u8]>
    ensures { MatchOption result (NoTextAt content.now number)
        (λ text. IsTextAt content.now number text.now) }
{
    if number == 0 {
        return None;
    }
    match line_at(without_mark(content), number - 1) {
        Some(line) => Some(line_text(line)),
        None => None,
    }
}

impl<A: Allocator> File<A> {
    ghost use Rattle.os_ignore.specs.Ignores.{FileHasText, FileHasNoText};

    /// The text of a line, if this is the number of the file.
    pub(crate) fn text_of(&self, number: usize, line: usize) -> Option<&[u8]>
        ensures { MatchOption result (FileHasNoText number line self.now)
            (λ text. FileHasText number line text.now self.now) }
    {
        if self.number == number {
            text_at(&self.content, line)
        } else {
            None
        }
    }
}
