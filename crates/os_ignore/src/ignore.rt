//! Ignore files of one tree.
ghost use Rattle.std.specs.Prelude.{◌≡◌, [], IfOk, OnOk, OnErr, MatchOption};
ghost use Rattle.os_ignore.specs.Links.{AreLinks};
ghost use Rattle.os_ignore.specs.Verdicts.{IsVerdict};

use crate::directory::{files_around, files_before, moved_links, text_in};
use crate::file::{File, new_file};
use crate::verdict::{Verdict, decide};
use std::alloc::{AllocError, Allocator, Global};

/// How the lines of a file are read.
#[derive(Clone, Copy, PartialEq, Eq, Debug)]
pub struct IgnoreOptions {
    /// Whether letters of ASCII that differ in case alone are one, as with git's `core.ignorecase`.
    pub case_insensitive: bool,
}

/// The lines of the ignore files of one tree, compiled.
///
/// Lines that win over all of them, as a user's overrides do, are an `Ignore` of their own, which is asked
/// first. A file at the top of the tree that is added last comes before the files in directories.
///
/// ```
/// use os_ignore::{Ignore, Verdict};
///
/// let mut files = Ignore::new(alloc, b"*.o\n")?;
/// files.add(alloc, b"doc", b"!*.pdf\n")?;
/// let overrides = Ignore::new(alloc, b"*.pdf\n!keep.o\n")?;
/// let path = b"doc/keep.o".as_slice();
/// let verdict = match overrides.matched(path, false) {
///     Verdict::Neither => files.matched(path, false),
///     decided => decided,
/// };
/// assert_eq!(rt; verdict, Verdict::TakenIn { file: 0, line: 2 });
/// ```
#[derive(Drop)]
pub struct Ignore<A: Allocator = Global> {
    files: Vec<File<A>, A>,
    /// For each file, how many files there are up to the last of those before it that is in its
    /// directory or above that.
    links: Vec<usize, A>,
    ghost linked: { ∥ AreLinks [] files.items links.items ∥₁ },
}

impl<A: Allocator + Copy> Ignore<A> {
    ghost use Rattle.os_ignore.specs.Ignores.{files_of, HasNoText, HasText, IsAdded, IsAddedTo, IsOnly};

    /// No files: their verdict on each path is [`Verdict::Neither`]. It doesn't allocate.
    ///
    /// ```
    /// use os_ignore::{Ignore, Verdict};
    ///
    /// assert_eq!(rt; Ignore::empty(alloc).matched(b"a", false), Verdict::Neither);
    /// ```
    pub fn empty(alloc: A) -> Ignore<A>
        ensures { files_of result ≡ [] }
    {
        Ignore {
            files: Vec::new(alloc),
            links: Vec::new(alloc),
        }
    }

    /// The lines of a file at the top of the tree: [`Ignore::empty`], then [`Ignore::add`] with the
    /// empty directory. The source is gitignore's "PATTERN FORMAT" and git 2.39.
    ///
    /// # Errors
    ///
    /// [`AllocError`] if an allocation fails. No line is a fault.
    ///
    /// ```
    /// use os_ignore::{Ignore, Verdict};
    ///
    /// let ignore = Ignore::new(alloc, b"*.log\ntarget/\n!keep.log\n")?;
    /// assert_eq!(rt; ignore.matched(b"a/b.log", false), Verdict::Ignored { file: 0, line: 1 });
    /// assert_eq!(rt; ignore.matched(b"target", false), Verdict::Neither);
    /// assert_eq!(rt; ignore.matched(b"target/keep.log", false), Verdict::Ignored { file: 0, line: 2 });
    /// assert_eq!(rt; ignore.matched(b"keep.log", false), Verdict::TakenIn { file: 0, line: 3 });
    /// ```
    pub fn new(alloc: A, file: &[u8]) -> Result<Ignore<A>, AllocError>
        ensures { IfOk result (λ ignore. IsOnly file.now (files_of ignore)) }
    {
        let mut ignore = Ignore::empty(alloc);
        ignore.add(alloc, b"", file)?;
        Ok(ignore)
    }

    /// Adds the lines of a file in a directory of the tree, which is relative to its top, without a
    /// `/` at the end, and empty at the top. Its lines match paths below that directory, from there,
    /// and come after those of the files in the directories above it. A file that was added later
    /// comes after one in the same directory.
    ///
    /// # Errors
    ///
    /// [`AllocError`] if an allocation fails; the files are then unchanged.
    ///
    /// ```
    /// use os_ignore::{Ignore, Verdict};
    ///
    /// let mut ignore = Ignore::empty(alloc);
    /// ignore.add(alloc, b"doc", b"!/a.txt\n")?;
    /// ignore.add(alloc, b"", b"*.txt\n")?;
    /// assert_eq!(rt; ignore.matched(b"doc/a.txt", false), Verdict::TakenIn { file: 0, line: 1 });
    /// assert_eq!(rt; ignore.matched(b"doc/b.txt", false), Verdict::Ignored { file: 1, line: 1 });
    /// ```
    pub fn add(&mut self, alloc: A, directory: &[u8], file: &[u8]) -> Result<(), AllocError>
        ensures added { OnOk result (IsAdded directory.now file.now (files_of self.old)
            (files_of self.new)) }
        ensures unchanged { OnErr result (files_of self.new ≡ files_of self.old) }
    {
        let options = IgnoreOptions {
            case_insensitive: false,
        };
        self.add_with(alloc, options, directory, file)
    }

    /// Adds the lines of a file as [`Ignore::add`] does, with options. Without regard to case, it reads them
    /// as git 2.39 does with `core.ignorecase`.
    ///
    /// A letter of ASCII then matches both its cases, and a range such as `[A-Z]` has `a`. As in git, a
    /// capital that a backslash quotes matches nothing, nor does a capital alone in a class: `[A]` has
    /// neither `a` nor `A`, and `[a]` has both. The directory of the file is compared exactly.
    ///
    /// A letter takes no more memory than with regard to case. A range of a class takes more.
    ///
    /// # Errors
    ///
    /// [`AllocError`] if an allocation fails; the files are then unchanged.
    ///
    /// ```
    /// use os_ignore::{Ignore, IgnoreOptions, Verdict};
    ///
    /// let mut ignore = Ignore::empty(alloc);
    /// let options = IgnoreOptions { case_insensitive: true };
    /// ignore.add_with(alloc, options, b"", b"Thumbs.db\n*.o\n!Keep.o\n")?;
    /// assert_eq!(rt; ignore.matched(b"a/THUMBS.DB", false), Verdict::Ignored { file: 0, line: 1 });
    /// assert_eq!(rt; ignore.matched(b"A.O", false), Verdict::Ignored { file: 0, line: 2 });
    /// assert_eq!(rt; ignore.matched(b"keep.o", false), Verdict::TakenIn { file: 0, line: 3 });
    /// ```
    pub fn add_with(
        &mut self,
        alloc: A,
        options: IgnoreOptions,
        directory: &[u8],
        file: &[u8],
    ) -> Result<(), AllocError>
        ensures added { OnOk result (IsAddedTo options.case_insensitive directory.now file.now
            (files_of self.old) (files_of self.new)) }
        ensures unchanged { OnErr result (files_of self.new ≡ files_of self.old) }
    {
        let folds = options.case_insensitive;
        let added = new_file(alloc, folds, self.files.len(), directory, file)?;
        let before = files_before(&self.files, directory);
        let index = before.len();
        let link = files_around(before, directory);
        let (_, after) = self.files.split_at(index);
        let (_, links) = self.links.split_at(index);
        let moved = moved_links(alloc, before, after, links, directory)?;
        self.links.reserve(1)?;
        self.files.insert(index, added)?;
        self.links.truncate(index);
        self.links.push(link)?;
        self.links.extend_from_slice(&moved)?;
        Ok(())
    }

    /// The files, in the order in which their lines are tried, the last first.
    pub(crate) fn files(&self) -> &[File<A>]
        ensures { result.now ≡ files_of self.entry.now }
    {
        self.files.as_slice()
    }

    /// The link of each file.
    pub(crate) fn links(&self) -> &[usize]
        ensures { ∥ AreLinks [] (files_of self.entry.now) result.now ∥₁ }
    {
        self.links.as_slice()
    }

    /// Returns whether the files ignore a path, and which line decides it, as
    /// `git check-ignore -v --no-index` prints it. It doesn't allocate.
    ///
    /// `is_dir` is whether the path is a directory; the paths above it are directories. The first
    /// directory above the path, from the top, that is ignored hides all that is in it, whatever
    /// later lines match. The line that ignores this directory is returned. If there is none, the
    /// last line that matches the path decides. A directory that is taken in doesn't take in what
    /// is in it. The empty path is the top of the tree. As in git, a line such as `*` may decide it,
    /// and a line with a slash doesn't.
    ///
    /// ```
    /// use os_ignore::{Ignore, Verdict};
    ///
    /// let ignore = Ignore::new(alloc, b"/build\n!build/out\ndoc/**\n!doc/*/\n")?;
    /// assert_eq!(rt; ignore.matched(b"build/out", false), Verdict::Ignored { file: 0, line: 1 });
    /// assert_eq!(rt; ignore.matched(b"doc/a", true), Verdict::TakenIn { file: 0, line: 4 });
    /// assert_eq!(rt; ignore.matched(b"doc/a/b", false), Verdict::Ignored { file: 0, line: 3 });
    /// assert_eq!(rt; ignore.matched(b"doc", true), Verdict::Neither);
    /// ```
    pub fn matched(&self, path: &[u8], is_dir: bool) -> Verdict
        ensures { IsVerdict (files_of self.now) path.now is_dir result }
    {
        decide(&self.files, &self.links, path, is_dir)
    }

    /// Returns the text of a line by the numbers that a [`Verdict`] has, of its file and of the line.
    /// It has no carriage return at its end, and ends before a NUL: the part of the line that is read.
    ///
    /// ```
    /// use os_ignore::{Ignore, Verdict};
    ///
    /// let mut ignore = Ignore::new(alloc, b"*.log\r\n/out/\r\n")?;
    /// ignore.add(alloc, b"doc", b"!a.log\n")?;
    /// assert_eq!(rt; ignore.matched(b"b.log", false), Verdict::Ignored { file: 0, line: 1 });
    /// assert_eq!(rt; ignore.line(0, 1), Some(b"*.log".as_slice()));
    /// assert_eq!(rt; ignore.matched(b"doc/a.log", false), Verdict::TakenIn { file: 1, line: 1 });
    /// assert_eq!(rt; ignore.line(1, 1), Some(b"!a.log".as_slice()));
    /// assert_eq!(rt; ignore.line(1, 3), None);
    /// ```
    pub fn line(&self, file: usize, line: usize) -> Option<&[u8]>
        ensures { MatchOption result (HasNoText (files_of self.now) file line)
            (λ text. HasText (files_of self.now) file line text.now) }
    {
        text_in(&self.files, file, line)
    }
}
