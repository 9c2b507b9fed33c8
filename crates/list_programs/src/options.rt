//! How a list is written: which byte ends an item, whether the last may lack it, and how long a name
//! may be.
ghost use Rattle.std.specs.Prelude.{◌≡◌, ◌↔◌, IsTrue};
ghost use Rattle.list_programs.specs.declared.options.ItemEnd.{ItemEnd};
ghost use Rattle.list_programs.specs.declared.options.LastItem.{LastItem};
ghost use Rattle.list_programs.specs.ListOptions.{AreStated, IsEnd, IsLast, MayLack, byte_of};

use crate::arguments::{Given, ProgramOption, has};

/// The byte that ends each item of a list.
#[derive(Clone, Copy, PartialEq, Eq)]
pub enum ItemEnd {
    /// NUL, as after a name that `find -print0` prints.
    Nul,
    /// A newline.
    Newline,
}

impl ItemEnd {
    /// The byte.
    ///
    /// ```
    /// use list_programs::options::ItemEnd;
    ///
    /// assert!(rt; ItemEnd::Nul.byte() == 0 && ItemEnd::Newline.byte() == b'\n');
    /// ```
    pub fn byte(self) -> u8
        ensures { result ≡ byte_of self }
    {
        match self {
            ItemEnd::Nul => 0,
            ItemEnd::Newline => b'\n',
        }
    }
}

/// Whether the last item of a list may lack the byte that ends it.
#[derive(Clone, Copy, PartialEq, Eq)]
pub enum LastItem {
    /// A last item without its end is rejected: a list that was cut off, or that isn't one of such
    /// items, ends with one.
    MustEnd,
    /// It is read as any other item.
    MayLackEnd,
}

impl LastItem {
    /// Whether a last item without its end is read.
    ///
    /// ```
    /// use list_programs::options::LastItem;
    ///
    /// assert!(rt; LastItem::MayLackEnd.may_lack_end() && !LastItem::MustEnd.may_lack_end());
    /// ```
    pub fn may_lack_end(self) -> bool
        ensures { IsTrue result ↔ MayLack self }
    {
        match self {
            LastItem::MustEnd => false,
            LastItem::MayLackEnd => true,
        }
    }
}

/// How a list of names is written.
#[derive(Clone, Copy, PartialEq, Eq)]
pub struct ListOptions {
    /// The byte that ends each name.
    pub end: ItemEnd,
    /// Whether the last item that is read may lack its end.
    pub last: LastItem,
    /// How many bytes a name may have.
    pub max: usize,
}

impl ListOptions {
    /// Names of at most `max` bytes that are each ended by NUL, as `find -print0` prints them.
    ///
    /// ```
    /// use list_programs::options::{ItemEnd, LastItem, ListOptions};
    ///
    /// let options = ListOptions::new(255);
    /// assert!(rt; options.end == ItemEnd::Nul && options.last == LastItem::MustEnd);
    /// ```
    pub fn new(max: usize) -> ListOptions
        ensures { result ≡ record { end = ItemEnd.Nul; last = LastItem.MustEnd; max = max } }
    {
        ListOptions {
            end: ItemEnd::Nul,
            last: LastItem::MustEnd,
            max,
        }
    }

    /// How the arguments of a program state that a list is written. With the option `lines` a newline
    /// ends each name, and otherwise NUL. With the option `unterminated` the last item may lack its
    /// end. A name may have `max` bytes.
    ///
    /// ```
    /// use names_commands::option::NamesOption::{Lines, Unterminated};
    /// use list_programs::arguments::Given;
    /// use list_programs::options::{ItemEnd, LastItem, ListOptions};
    ///
    /// let given = [Given::Operand("check"), Given::Flag(Lines)];
    /// let options = ListOptions::stated(&given, Lines, Unterminated, 255);
    /// assert!(rt; options.end == ItemEnd::Newline && options.last == LastItem::MustEnd);
    /// ```
    pub fn stated<O: ProgramOption>(
        given: &[Given<'_, O>],
        lines: O,
        unterminated: O,
        max: usize,
    ) -> ListOptions
        ensures { AreStated lines unterminated max given.now result }
    {
        ListOptions {
            end: end_of(given, lines),
            last: last_of(given, unterminated),
            max,
        }
    }
}

/// The byte that ends each name.
fn end_of<O: ProgramOption>(given: &[Given<'_, O>], lines: O) -> ItemEnd
    ensures { IsEnd lines given.now result }
{
    if has(given, lines) {
        ItemEnd::Newline
    } else {
        ItemEnd::Nul
    }
}

/// Whether the last item may lack its end.
fn last_of<O: ProgramOption>(given: &[Given<'_, O>], unterminated: O) -> LastItem
    ensures { IsLast unterminated given.now result }
{
    if has(given, unterminated) {
        LastItem::MayLackEnd
    } else {
        LastItem::MustEnd
    }
}
