//! Verdicts of paths that come one after the other.
ghost use Rattle.std.specs.Prelude.{◌≡◌, ◌≤◌, ◌++◌, ◌∷◌, ℕ, List, [], take, IfOk, OnOk, true};
ghost use Rattle.std.specs.List.{All};
ghost use Rattle.os_ignore.specs.Above.{IsDecided, IsIn, IsShared};
ghost use Rattle.os_ignore.specs.Components.{IsPlain};
ghost use Rattle.os_ignore.specs.Ignores.{files_of};
ghost use Rattle.os_ignore.specs.Links.{AreLinks, IsUpTo};
ghost use Rattle.os_ignore.specs.Verdicts.{IsVerdict};

use crate::directory::last_in;
use crate::file::File;
use crate::ignore::Ignore;
use crate::verdict::{Verdict, own};
use std::alloc::{AllocError, Allocator, Global};

/// A directory above a path.
#[derive(Clone, Copy)]
struct Above {
    /// The index in the path of what is in it, after the slash at its end.
    start: usize,
    /// Its verdict.
    verdict: Verdict,
    /// How many files there are up to the last in it or above it.
    files: usize,
}

/// The verdicts of paths that come one after the other, as `find` or a walk of a tree lists them.
/// It keeps the path before and the verdict of each directory above it, so a directory above both
/// this path and the next isn't decided again. The memory for them is of the allocator that
/// [`Walk::new`] gets.
#[derive(Drop)]
pub struct Walk<'i, A: Allocator + 'i = Global> {
    files: &'i [File<A>],
    links: &'i [usize],
    path: Vec<u8, A>,
    above: Vec<Above, A>,
    ghost linked: { ∥ AreLinks [] files.now links.now ∥₁ },
    ghost decided: { All (IsDecided files.now path.items) above.items },
}

/// The number of bytes that two paths share at their start.
fn shared_bytes(path: &[u8], other: &[u8]) -> usize
    ensures { IsShared path.now other.now result }
{
    let mut count = 0;
    while count < path.len() && count < other.len() && path[count] == other[count] {
        count += 1;
    }
    count
}

/// The number of directories at the start of the list that are above both of two paths which share
/// this many bytes.
fn shared_directories(above: &[Above], shared: usize) -> usize
    ensures { All (λ directory. directory.start ≤ shared) (take result above.now) }
{
    for (count, directory) in above.iter().enumerate() {
        if directory.start > shared {
            return count;
        }
    }
    above.len()
}

/// The index of what is in the last of the directories, its verdict, and how many files there are up to
/// the last above what is in it.
fn last_of<A: Allocator>(files: &[File<A>], above: &[Above]) -> (usize, Option<Verdict>, usize)
    ensures { (path : List ℕ) → All (IsDecided files.now path) above.now
        → IsIn files.now (take result.0 path) result.1
        × IsUpTo (take result.0 path) files.now result.2 }
{
    match above.last() {
        Some(directory) => (directory.start, Some(directory.verdict), directory.files),
        None => (0, None, last_in(files, 0, b"")),
    }
}

/// The verdict of files on a path in a directory, given their verdict on that.
fn in_directory<A: Allocator>(
    files: &[File<A>],
    links: &[usize],
    above: Verdict,
    count: usize,
    path: &[u8],
    is_dir: bool,
) -> Verdict
    requires links { ∥ AreLinks [] files.now links.now ∥₁ }
    requires above { IsUpTo path.now files.now count }
    ensures { (directory name : List ℕ) → ∥ IsVerdict files.now directory true above ∥₁
        → path.now ≡ directory ++ 0x2F ∷ name → IsPlain 0x2F name
        → ∥ IsVerdict files.now path.now is_dir result ∥₁ }
{
    if above.is_ignored() {
        above
    } else {
        own(files, links, count, path, is_dir)
    }
}

/// The verdict of files on a path, given their verdict on the directory that it is in. It has none
/// if it has no slash.
fn decide_in<A: Allocator>(
    files: &[File<A>],
    links: &[usize],
    above: Option<Verdict>,
    count: usize,
    path: &[u8],
    is_dir: bool,
) -> Verdict
    requires links { ∥ AreLinks [] files.now links.now ∥₁ }
    requires verdict { IsIn files.now path.now above }
    requires above { IsUpTo path.now files.now count }
    ensures { ∥ IsVerdict files.now path.now is_dir result ∥₁ }
{
    match above {
        Some(above) => in_directory(files, links, above, count, path, is_dir),
        None => own(files, links, count, path, is_dir),
    }
}

/// Decides the directories above a path that aren't in the list, and adds them. Returns the verdict
/// of the one that the path is in, and how many files there are up to the last above the path.
fn decide_above<A: Allocator>(
    files: &[File<A>],
    links: &[usize],
    path: &[u8],
    above: &mut Vec<Above, A>,
) -> Result<(Option<Verdict>, usize), AllocError>
    requires links { ∥ AreLinks [] files.now links.now ∥₁ }
    requires decided { All (IsDecided files.now path.now) above.old.items }
    ensures decided { All (IsDecided files.now path.now) above.new.items }
    ensures last { IfOk result (λ last. IsIn files.now path.now last.0
        × IsUpTo path.now files.now last.1) }
{
    let (start, mut last, mut count) = last_of(files, above);
    for end in start..path.len() {
        if path[end] == b'/' {
            let verdict = decide_in(files, links, last, count, &path[..end], true);
            count = last_in(files, count, &path[..end]);
            above.push(Above {
                start: end + 1,
                verdict,
                files: count,
            })?;
            last = Some(verdict);
        }
    }
    Ok((last, count))
}

impl<'i, A: Allocator + Copy> Walk<'i, A> {
    ghost use Rattle.os_ignore.specs.Walks.{files_of_walk};

    /// A walk that has decided no path yet. It doesn't allocate.
    ///
    /// ```
    /// use os_ignore::{Ignore, Verdict, Walk};
    ///
    /// let ignore = Ignore::new(alloc, b"*.o\nout/\n")?;
    /// let mut walk = Walk::new(alloc, &ignore);
    /// assert_eq!(rt; walk.matched(b"src", true)?, Verdict::Neither);
    /// assert_eq!(rt; walk.matched(b"src/a.o", false)?, Verdict::Ignored { file: 0, line: 1 });
    /// assert_eq!(rt; walk.matched(b"out/a.c", false)?, Verdict::Ignored { file: 0, line: 2 });
    /// ```
    pub fn new(alloc: A, ignore: &'i Ignore<A>) -> Walk<'i, A>
        ensures { files_of_walk result ≡ files_of ignore.entry.now }
    {
        Walk {
            files: ignore.files(),
            links: ignore.links(),
            path: Vec::new(alloc),
            above: Vec::new(alloc),
        }
    }

    /// Returns whether the files ignore a path, and which line decides it: the verdict that
    /// [`Ignore::matched`] returns. Paths may come in any order. Only those directories above the
    /// path are decided that aren't above the path before.
    ///
    /// # Errors
    ///
    /// [`AllocError`] if the allocation for the path or for the directories above it fails. The
    /// walk can go on.
    ///
    /// ```
    /// use os_ignore::{Ignore, Walk};
    ///
    /// let ignore = Ignore::new(alloc, b"build/\n")?;
    /// let mut walk = Walk::new(alloc, &ignore);
    /// assert!(rt; walk.matched(b"build", true)?.is_ignored());
    /// assert!(rt; walk.matched(b"build/a/b", false)?.is_ignored());
    /// assert!(rt; !walk.matched(b"a", false)?.is_ignored());
    /// ```
    pub fn matched(&mut self, path: &[u8], is_dir: bool) -> Result<Verdict, AllocError>
        ensures verdict { IfOk result (λ verdict.
            ∥ IsVerdict (files_of_walk self.old) path.now is_dir verdict ∥₁) }
        ensures files { files_of_walk self.new ≡ files_of_walk self.old }
    {
        self.turn_to(path)?;
        let (above, count) = decide_above(self.files, self.links, path, &mut self.above)?;
        Ok(decide_in(self.files, self.links, above, count, path, is_dir))
    }

    /// Keeps a path in place of the path before, and the directories that are above both.
    fn turn_to(&mut self, path: &[u8]) -> Result<(), AllocError>
        ensures path { OnOk result (self.new.path.items ≡ path.now) }
        ensures files { files_of_walk self.new ≡ files_of_walk self.old }
    {
        let shared = shared_bytes(&self.path, path);
        self.above.truncate(shared_directories(&self.above, shared));
        self.path.truncate(shared);
        self.path.extend_from_slice(&path[shared..])?;
        Ok(())
    }
}
