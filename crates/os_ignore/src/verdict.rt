//! Which line decides a path.
ghost use Rattle.std.specs.Prelude.{◌≡◌, ◌↔◌, ◌<◌, ◌++◌, ◌||◌, List, ℕ, [], length, true, IsTrue, MatchOption};
ghost use Rattle.std.specs.List.{HoldsAt};
ghost use Rattle.memchr.specs.Find.{is_byte3};
ghost use Rattle.wildcards.specs.Match.{Matches};
ghost use Rattle.os_ignore.specs.Components.{IsLastComponent};
ghost use Rattle.os_ignore.specs.Links.{AreLinks, IsAbove, IsUpTo};
ghost use Rattle.os_ignore.specs.Matching.{by_slashes, IsAfter, LineMatches, MatchesText};
ghost use Rattle.os_ignore.specs.Tags.{AreTags, NoneTagged, IsLastTagged};
ghost use Rattle.os_ignore.specs.Verdicts.{IsBelow, IsLastMatch, NoneMatches, FileDecides, FileIsSilent, IsOwn, IsVerdict, is_ignored};

use crate::component::last_component;
use crate::directory::last_in;
use crate::file::File;
use crate::line::Line;
use crate::tag::{dot_tag, first_tag, tag_of};
use memchr::memrchr3;
use std::alloc::Allocator;
use wildcards::{Bytes, Options, Part, Piece, Separators, matches};

/// Whether ignore files ignore a path, and the file and the line that decide it.
#[derive(Clone, Copy, PartialEq, Eq, Debug)]
pub enum Verdict {
    /// No line decides it.
    Neither,
    /// It is ignored.
    Ignored {
        /// The file: how many were added before it.
        file: usize,
        /// The line of the file, from 1.
        line: usize,
    },
    /// It is taken in again (`!`).
    TakenIn {
        /// The file: how many were added before it.
        file: usize,
        /// The line of the file, from 1.
        line: usize,
    },
}

/// What comes after bytes that a text begins with.
fn after_bytes<'a>(bytes: &[u8], text: &'a [u8]) -> Option<&'a [u8]>
    ensures { MatchOption result ((rest : List ℕ) → text.entry.now ≡ bytes.entry.now ++ rest → ⊥)
        (λ rest. text.entry.now ≡ bytes.entry.now ++ rest.now) }
{
    let mut wanted = bytes;
    let mut left = text;
    while let Some((byte, more)) = wanted.split_first() {
        let (first, rest) = left.split_first()?;
        if *first != *byte {
            return None;
        }
        wanted = more;
        left = rest;
    }
    Some(left)
}

/// Whether a pattern matches a text. It isn't inlined, so that lines of literals alone, which most
/// are, are compared in a small loop: 0.86 of the time.
#[inline(never)]
fn matches_rest<A: Allocator>(pattern: &[Piece<Part<A>>], text: &[u8]) -> bool
    ensures { IsTrue result ↔ Matches by_slashes pattern.now text.now }
{
    let options = Options {
        separators: Separators::Slash,
        literal_leading_dot: false,
    };
    matches::<Bytes, A>(options, pattern, text)
}

/// What comes after bytes whose small letters are these.
fn after_folded<'a>(small: &[u8], text: &'a [u8]) -> Option<&'a [u8]>
    ensures { MatchOption result
        ((rest : List ℕ) → IsAfter true small.entry.now text.entry.now rest → ⊥)
        (λ rest. IsAfter true small.entry.now text.entry.now rest.now) }
{
    let mut wanted = small;
    let mut left = text;
    while let Some((byte, more)) = wanted.split_first() {
        let Some((first, rest)) = left.split_first() else {
            return None;
        };
        if first.to_ascii_lowercase() != *byte {
            return None;
        }
        wanted = more;
        left = rest;
    }
    Some(left)
}

/// What comes after a literal start, without regard to case if the file folds.
fn after_literal<'a>(folds: bool, literal: &[u8], text: &'a [u8]) -> Option<&'a [u8]>
    ensures { MatchOption result ((rest : List ℕ) → IsAfter folds literal.now text.now rest → ⊥)
        (λ rest. IsAfter folds literal.now text.now rest.now) }
{
    if folds {
        after_folded(literal, text)
    } else {
        after_bytes(literal, text)
    }
}

/// Whether a text is a literal start, and a rest that a pattern matches.
fn matches_text<A: Allocator>(
    folds: bool,
    literal: &[u8],
    pattern: &[Piece<Part<A>>],
    text: &[u8],
) -> bool
    ensures { IsTrue result ↔ MatchesText folds literal.now pattern.now text.now }
{
    match after_literal(folds, literal, text) {
        Some(rest) => matches_rest(pattern, rest),
        None => false,
    }
}

/// The path from a directory; `None` where it isn't in that.
pub(crate) fn below<'a>(directory: &[u8], path: &'a [u8]) -> Option<&'a [u8]>
    ensures { MatchOption result ((rest : List ℕ) → IsBelow directory.now path.now rest → ⊥)
        (λ rest. IsBelow directory.now path.now rest.now) }
{
    if directory.is_empty() {
        return Some(path);
    }
    let Some(after) = after_bytes(directory, path) else {
        return None;
    };
    let Some((first, rest)) = after.split_first() else {
        return None;
    };
    if *first == b'/' { Some(rest) } else { None }
}

/// The path from a directory that it is below.
fn rest_below<'a>(directory: &[u8], path: &'a [u8]) -> &'a [u8]
    requires { IsAbove directory.now path.now }
    ensures { IsBelow directory.now path.now result.now }
{
    if directory.is_empty() {
        path
    } else {
        let (_, rest) = path.split_at(directory.len() + 1);
        rest
    }
}

impl<A: Allocator> Line<A> {
    /// Whether it has a slash, at its end or elsewhere.
    fn has_slash(&self) -> bool
        ensures { result ≡ (self.now.anchored || self.now.directories) }
    {
        self.anchored || self.directories
    }

    /// Whether it matches the path, whose last component this is.
    fn matches(&self, path: &[u8], name: &[u8], is_dir: bool) -> bool
        requires { IsLastComponent path.now name.now }
        ensures { IsTrue result ↔ LineMatches self.now path.now is_dir }
    {
        if path.is_empty() && self.has_slash() {
            return false;
        }
        if self.directories && !is_dir {
            return false;
        }
        matches_text(
            self.folds,
            &self.literal,
            &self.pattern,
            if self.anchored { path } else { name },
        )
    }
}

/// The index of the last line from `low` on that has one of three tags and matches the path, whose last
/// component this is.
fn last_tagged<A: Allocator>(
    lines: &[Line<A>],
    tags: &[u8],
    wanted: (u8, u8, u8),
    low: usize,
    path: &[u8],
    name: &[u8],
    is_dir: bool,
) -> Option<usize>
    requires name { IsLastComponent path.now name.now }
    requires count { length tags.now ≡ length lines.now }
    ensures { MatchOption result
        (NoneTagged (is_byte3 wanted.0 wanted.1 wanted.2) path.now is_dir lines.now tags.now low)
        (λ at. IsLastTagged (is_byte3 wanted.0 wanted.1 wanted.2) path.now is_dir lines.now tags.now
        low at) }
{
    let mut end = tags.len();
    loop {
        let (before, _) = tags.split_at(end);
        let Some(at) = memrchr3(wanted.0, wanted.1, wanted.2, before) else {
            return None;
        };
        if at < low {
            return None;
        }
        if lines[at].matches(path, name, is_dir) {
            return Some(at);
        }
        end = at;
    }
}

/// The index of the last line that matches. Two searches go over the tags. The second, for lines that
/// begin with a component, ends at the line that the first finds.
fn last_index<A: Allocator>(
    lines: &[Line<A>],
    tags: &[u8],
    path: &[u8],
    is_dir: bool,
) -> Option<usize>
    requires count { length tags.now ≡ length lines.now }
    requires tagged { AreTags lines.now tags.now }
    ensures { MatchOption result (NoneMatches path.now is_dir lines.now)
        (λ at. (at < length lines.now)
        × HoldsAt (λ line. IsLastMatch path.now is_dir lines.now line) lines.now at) }
{
    let name = last_component(path);
    let ends = (0, tag_of(name), dot_tag(name));
    let first = first_tag(path);
    match last_tagged(lines, tags, ends, 0, path, name, is_dir) {
        Some(at) => {
            let firsts = (first, first, first);
            match last_tagged(lines, tags, firsts, at + 1, path, name, is_dir) {
                Some(later) => Some(later),
                None => Some(at),
            }
        }
        None => last_tagged(lines, tags, (first, first, first), 0, path, name, is_dir),
    }
}

/// The last line that matches.
fn last_match<'a, A: Allocator>(
    lines: &'a [Line<A>],
    tags: &[u8],
    path: &[u8],
    is_dir: bool,
) -> Option<&'a Line<A>>
    requires count { length tags.now ≡ length lines.now }
    requires tagged { AreTags lines.now tags.now }
    ensures { MatchOption result (NoneMatches path.now is_dir lines.now)
        (λ line. IsLastMatch path.now is_dir lines.now line.now) }
{
    match last_index(lines, tags, path, is_dir) {
        Some(at) => Some(&lines[at]),
        None => None,
    }
}

impl<A: Allocator> File<A> {
    /// The last line that matches a path below the directory of the file.
    fn deciding_line(&self, path: &[u8], is_dir: bool) -> Option<&Line<A>>
        requires { IsAbove self.now.directory.items path.now }
        ensures { MatchOption result (FileIsSilent path.now is_dir self.now)
            (λ line. FileDecides path.now is_dir self.now line.now) }
    {
        let rest = rest_below(&self.directory, path);
        last_match(&self.lines, &self.tags, rest, is_dir)
    }
}

impl Verdict {
    /// Whether the path is ignored.
    ///
    /// ```
    /// use os_ignore::Ignore;
    ///
    /// let ignore = Ignore::new(alloc, b"*.o\n")?;
    /// assert!(rt; ignore.matched(b"a.o", false).is_ignored());
    /// assert!(rt; !ignore.matched(b"a.c", false).is_ignored());
    /// ```
    pub fn is_ignored(self) -> bool
        ensures { result ≡ is_ignored self }
    {
        match self {
            Verdict::Neither => false,
            Verdict::Ignored { .. } => true,
            Verdict::TakenIn { .. } => false,
        }
    }
}

/// Whether the lines of files ignore a path, without the directories above it. So many of the files come
/// up to the last that is above it.
pub fn own<A: Allocator>(
    files: &[File<A>],
    links: &[usize],
    above: usize,
    path: &[u8],
    is_dir: bool,
) -> Verdict
    requires links { ∥ AreLinks [] files.now links.now ∥₁ }
    requires above { IsUpTo path.now files.now above }
    ensures { IsOwn files.now path.now is_dir result }
{
    let (mut left, _) = files.split_at(above);
    while let Some((file, before)) = left.split_last() {
        if let Some(line) = file.deciding_line(path, is_dir) {
            let (file, line, takes_in) = (file.number, line.number, line.takes_in);
            return if takes_in {
                Verdict::TakenIn { file, line }
            } else {
                Verdict::Ignored { file, line }
            };
        }
        let (further, _) = before.split_at(links[before.len()]);
        left = further;
    }
    Verdict::Neither
}

/// Whether files ignore a path. The first directory above it, from the top, that is ignored hides
/// it. If there is none, the last line that matches decides.
pub fn decide<A: Allocator>(
    files: &[File<A>],
    links: &[usize],
    path: &[u8],
    is_dir: bool,
) -> Verdict
    requires { ∥ AreLinks [] files.now links.now ∥₁ }
    ensures { IsVerdict files.now path.now is_dir result }
{
    if files.is_empty() {
        return Verdict::Neither;
    }
    let mut above = last_in(files, 0, b"");
    for (at, byte) in path.iter().enumerate() {
        if *byte == b'/' {
            let verdict = own(files, links, above, &path[..at], true);
            if verdict.is_ignored() {
                return verdict;
            }
            above = last_in(files, above, &path[..at]);
        }
    }
    own(files, links, above, path, is_dir)
}
