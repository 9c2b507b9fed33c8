//! Ignore files in the order of their directories: those above a path, and the texts of their lines.
ghost use Rattle.std.specs.Prelude.{◌≡◌, ◌≤◌, ◌<◌, ◌+◌, ◌^◌, ◌++◌, ◌∷◌, [], length, IfOk, MatchOption};
ghost use Rattle.os_ignore.specs.declared.file.File.{File};
ghost use Rattle.os_ignore.specs.Directories.{AreLonger, IsPlace};
ghost use Rattle.os_ignore.specs.Ignores.{HasNoText, HasText};
ghost use Rattle.os_ignore.specs.Links.{AreLinks, IsLastIn, IsMoved, IsUpTo, opened};

use crate::file::File;
use crate::verdict::below;
use std::alloc::{AllocError, Allocator};

/// The files before one in this directory: those up to the last in a directory that isn't longer.
pub fn files_before<'a, A: Allocator>(files: &'a [File<A>], directory: &[u8]) -> &'a [File<A>]
    ensures { IsPlace directory.now files.entry.now result.now }
{
    let mut left = files;
    while let Some((last, front)) = left.split_last() {
        if last.directory.len() <= directory.len() {
            return left;
        }
        left = front;
    }
    left
}

/// How many files there are up to the last in this directory, of those from `low` on; `low` where none of
/// these is.
pub fn last_in<A: Allocator>(files: &[File<A>], low: usize, directory: &[u8]) -> usize
    requires { low ≤ length files.now }
    ensures { IsLastIn directory.now files.entry.now low result }
{
    let mut left = files;
    while let Some((last, front)) = left.split_last() {
        if left.len() == low {
            return low;
        }
        if last.directory.as_slice() == directory {
            return left.len();
        }
        left = front;
    }
    left.len()
}

/// How many files there are up to the last that a path is below.
pub fn files_above<A: Allocator>(files: &[File<A>], path: &[u8]) -> usize
    ensures { IsUpTo path.now files.now result }
{
    let mut above = last_in(files, 0, b"");
    for (at, byte) in path.iter().enumerate() {
        if *byte == b'/' {
            above = last_in(files, above, &path[..at]);
        }
    }
    above
}

/// How many of these files there are up to the last in a directory or above it.
pub fn files_around<A: Allocator>(files: &[File<A>], directory: &[u8]) -> usize
    ensures { IsUpTo (opened directory.now) files.now result }
{
    last_in(files, files_above(files, directory), directory)
}

/// The link of a file in a longer directory, where one in this directory was added behind so many others.
fn moved_link(index: usize, directory: &[u8], other: &[u8], link: usize) -> usize
    requires link { link + 1 < 2 ^ 64 }
    requires index { index + 1 < 2 ^ 64 }
    ensures { IsMoved index directory.now other.now link result }
{
    if link > index {
        link + 1
    } else if below(directory, other).is_some() {
        index + 1
    } else {
        link
    }
}

/// The links of files in longer directories, where a file in this directory was added before them.
pub fn moved_links<A: Allocator + Copy>(
    alloc: A,
    before: &[File<A>],
    files: &[File<A>],
    links: &[usize],
    directory: &[u8],
) -> Result<Vec<usize, A>, AllocError>
    requires links { AreLinks before.now files.now links.now }
    requires room { length before.now + length files.now + 1 < 2 ^ 64 }
    requires longer { AreLonger directory.now files.now }
    ensures { IfOk result (λ moved. (file : File A) → file.directory.items ≡ directory.now
        → AreLinks (before.now ++ file ∷ []) files.entry.now moved.items) }
{
    let mut moved = Vec::new(alloc);
    let mut left = files;
    let mut unmoved = links;
    while let Some((file, others)) = left.split_first() {
        let Some((link, further)) = unmoved.split_first() else {
            return Ok(moved);
        };
        moved.push(moved_link(before.len(), directory, &file.directory, *link))?;
        left = others;
        unmoved = further;
    }
    Ok(moved)
}

/// The text of a line of one of the files.
pub fn text_in<A: Allocator>(files: &[File<A>], number: usize, line: usize) -> Option<&[u8]>
    ensures { MatchOption result (HasNoText files.entry.now number line)
        (λ text. HasText files.entry.now number line text.now) }
{
    let mut left = files;
    while let Some((file, before)) = left.split_last() {
        if let Some(text) = file.text_of(number, line) {
            return Some(text);
        }
        left = before;
    }
    None
}
