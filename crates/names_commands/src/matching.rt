//! Names that are picked.
ghost use Rattle.std.specs.Prelude.{◌≡◌, ◌↔◌, ◌++◌, ℕ, List, Bool, cond, false, not, IfErr, IfOk, IsTrue, OnErr, OnOk};
ghost use Rattle.os_ignore.specs.Walks.{files_of_walk};
ghost use Rattle.os_ignore.specs.declared.file.File.{File};
ghost use Rattle.os_str_bytes.specs.Strings.{bytes};
ghost use Rattle.names_commands.specs.Names.{IsNoName};
ghost use Rattle.names_commands.specs.Matching.{IsChosenBy, IsPickedBy, IsSelected, IsTextOfMatched, matching};
ghost use Rattle.names_commands.specs.declared.matching.Matching.{Matching as MatchingOf};

use crate::fault::Rejection;
use crate::ignoring::is_shown;
use crate::item::{named_in, push_name, write_line};
use crate::task::WordForm;
use crate::words::write_word;
use glob_patterns::GlobSet;
use list_programs::fault::ItemFault;
use list_programs::options::{ItemEnd, ListOptions};
use list_programs::task::ListTask;
use os_ignore::Walk;
use os_str_bytes::{OsStr, Platform};
use std::alloc::{AllocError, Allocator, Global};

/// What is written for a name.
#[derive(Clone, Copy, PartialEq, Eq)]
pub enum Form {
    /// Its escape on a line.
    Line,
    /// The name itself and its end.
    Name,
    /// Its word of a shell, and a newline.
    Word(WordForm),
}

/// Each name that is picked is written, and nothing for the others.
#[derive(Clone, Copy)]
pub struct Matching<'g, E: Platform, A: Allocator = Global> {
    /// Those are picked that a pattern of this set matches, or all where there is no set, but for
    /// those that the ignore files of a walk ignore.
    pub globs: Option<&'g GlobSet<E, A>>,
    /// Whether the other names are picked.
    pub inverted: bool,
    /// Those that a pattern of this set matches aren't picked in any case.
    pub excluded: &'g GlobSet<E, A>,
    /// How each name is written.
    pub form: Form,
    /// How the list is written.
    pub list: ListOptions,
}

/// The names that are picked, where the lines of these files ignore some. One `./` before a name is
/// left out, and a `/` at its end marks a directory. `.` and `./` are the top of the tree, which the
/// files take for an empty name: of the usual lines only `*` and `**` ignore it.
///
/// If `from_top` is set, a name that isn't a path from the top is rejected
/// ([`Rejection::NotFromTop`]), since ignore files have no verdict on it.
#[derive(Drop)]
pub struct Picker<'g, E: Platform, A: Allocator = Global> {
    /// Which names are picked, and how they are written.
    pub names: Matching<'g, E, A>,
    /// The walk over the names, by the ignore files.
    pub walk: Walk<'g, A>,
    /// Whether each name has to be a path from the top.
    pub from_top: bool,
}

impl<'g, E: Platform, A: Allocator + Copy> Matching<'g, E, A> {
    /// Whether the name is picked, by the ignore files of the walk.
    ///
    /// # Errors
    ///
    /// [`AllocError`] if the allocation for the name or for the directories above it fails.
    ///
    /// ```
    /// use glob_patterns::{GlobOptions, GlobSet, Separators};
    /// use names_commands::matching::{Form, Matching};
    /// use os_ignore::{Ignore, Walk};
    /// use os_str_bytes::{OsStr, Unix};
    /// use list_programs::options::ListOptions;
    ///
    /// let ignore = Ignore::new(alloc, b"*.o\nout/\n")?;
    /// let options = GlobOptions::new(Separators::Slash);
    /// let excluded = GlobSet::new(alloc, options, &[OsStr::<Unix>::new("**/*.bak")])?;
    /// let names = Matching {
    ///     globs: None,
    ///     inverted: false,
    ///     excluded: &excluded,
    ///     form: Form::Name,
    ///     list: ListOptions::new(255),
    /// };
    /// let mut walk = Walk::new(alloc, &ignore);
    /// assert!(rt; names.picks(&mut walk, OsStr::new("./a.c"))?);
    /// assert!(rt; !names.picks(&mut walk, OsStr::new("./a.o"))?);
    /// assert!(rt; !names.picks(&mut walk, OsStr::new("./a.bak"))?);
    /// assert!(rt; names.picks(&mut walk, OsStr::new("out"))?);
    /// assert!(rt; !names.picks(&mut walk, OsStr::new("out/"))?);
    /// ```
    pub fn picks(&self, walk: &mut Walk<'_, A>, name: OsStr<'_, E>) -> Result<bool, AllocError>
        ensures picks { IfOk result (λ picks. IsTrue picks
            ↔ IsPickedBy ⟦<E as Platform>⟧ self.now.inverted self.now.globs
            self.now.excluded.now (files_of_walk walk.old) (bytes name.entry)) }
        ensures files { files_of_walk walk.new ≡ files_of_walk walk.old }
    {
        if self.excluded.is_match(name) {
            return Ok(false);
        }
        let matches = self.matches(walk, name)?;
        Ok(turned(self.inverted, matches))
    }

    /// Whether the name is picked where the others aren't, and none is left out in any case.
    fn matches(&self, walk: &mut Walk<'_, A>, name: OsStr<'_, E>) -> Result<bool, AllocError>
        ensures matches { IfOk result (λ matches. IsTrue matches
            ↔ IsSelected false (IsChosenBy ⟦<E as Platform>⟧ self.now.globs)
            (files_of_walk walk.old) (bytes name.entry)) }
        ensures files { files_of_walk walk.new ≡ files_of_walk walk.old }
    {
        if is_chosen(self.globs, name) {
            is_shown(walk, name.as_encoded_bytes())
        } else {
            Ok(false)
        }
    }
}

/// Whether a name is picked that matches, or doesn't.
fn turned(inverted: bool, matches: bool) -> bool
    ensures { result ≡ cond inverted (not matches) matches }
{
    if inverted { !matches } else { matches }
}

/// Whether a pattern of a set matches the name, if there is a set.
fn is_chosen<E: Platform, A: Allocator>(globs: Option<&GlobSet<E, A>>, name: OsStr<'_, E>) -> bool
    ensures { IsTrue result ↔ IsChosenBy ⟦<E as Platform>⟧ globs.entry (bytes name.entry) }
{
    match globs {
        Some(set) => set.is_match(name),
        None => true,
    }
}

impl<'g, E: Platform, B: Allocator + Copy> ListTask for Picker<'g, E, B> {
    type Rejection = Rejection;

    ghost Planned = { Bool × (MatchingOf E B × List (File B)) };

    ghost plan = { λ p. (p.from_top, (p.names, files_of_walk p.walk)) };

    ghost rules = { λ p. matching ⟦<E as Platform>⟧ p.1.0.form p.1.0.list p.0 p.1.0.inverted
        p.1.0.globs p.1.0.excluded.now p.1.1 };

    fn end(&self) -> ItemEnd {
        self.names.list.end
    }

    fn takes_unended(&self) -> bool {
        self.names.list.last.may_lack_end()
    }

    fn max(&self) -> usize {
        self.names.list.max
    }

    fn longest_item(&self) -> usize {
        self.names.list.max
    }

    fn write_item<A: Allocator + Copy>(
        &mut self,
        alloc: A,
        item: &[u8],
        output: &mut Vec<u8, A>,
    ) -> Result<(), ItemFault<Rejection>> {
        write_matching::<E, A, B>(
            alloc,
            &self.names,
            self.from_top,
            &mut self.walk,
            item,
            output,
        )
    }
}

/// Appends what is written for a name, where some are picked.
fn write_matching<E: Platform, A: Allocator, B: Allocator + Copy>(
    alloc: A,
    names: &Matching<'_, E, B>,
    from_top: bool,
    walk: &mut Walk<'_, B>,
    item: &[u8],
    output: &mut Vec<u8, A>,
) -> Result<(), ItemFault<Rejection>>
    ensures ok { OnOk result ((text : List ℕ)
        × (IsTextOfMatched ⟦<E as Platform>⟧ names.now.form names.now.list.end from_top
        names.now.inverted names.now.globs names.now.excluded.now (files_of_walk walk.old)
        item.now text × (output.new.items ≡ output.old.items ++ text))) }
    ensures fault { IfErr result (λ fault. IsNoName ⟦<E as Platform>⟧ from_top item.now fault) }
    ensures unchanged { OnErr result (output.new.items ≡ output.old.items) }
    ensures files { files_of_walk walk.new ≡ files_of_walk walk.old }
{
    let name = named_in::<E>(item, from_top)?;
    let picks = names.picks(walk, name)?;
    if !picks {
        return Ok(());
    }
    match names.form {
        Form::Line => write_line::<E, A>(alloc, name, output),
        Form::Name => push_name(item, names.list.end, output),
        Form::Word(form) => write_word(alloc, form, item, output),
    }
}
