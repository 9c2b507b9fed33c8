//! What keeps the program from its output.
ghost use Rattle.std.specs.Prelude.{◌≡◌, IfOk};
ghost use Rattle.std.specs.Fmt.{WritesStyledOnOk};
ghost use Rattle.std.specs.Fmt.InlineText.{inline_text};
ghost use Rattle.paths_commands.specs.Fault.{IsOfMisuse, apart_text, at_fault_text, from_one, numbered, quoted, result_text, unlike_first, unlike_text};

use list_programs::fault::ItemRejection;
use list_programs::misuse::{Misuse, ROOM, cut_text};
use list_programs::options::ItemEnd;
use list_programs::program_fault;
use list_programs::program_fault::WordsRejection;
use os_path::{AbsoluteError, CommonBaseError, NameError};
use os_str_bytes::{EncodingError, write_number};
use std::alloc::{AllocError, Allocator};
use std::fmt;
use std::fmt::{Display as _, InlineText};

/// How many bytes of a component's escape are printed. A longer one is cut, and ends in three dots.
pub const SHOWN: usize = 200;

/// Why a path is rejected.
#[derive(Clone, Copy)]
pub enum Rejection {
    /// It isn't a string of the platform: the first fault of its bytes.
    NoString(EncodingError),
    /// It has no normal form: a `..` has no name before it to take away.
    NoNormalForm,
    /// No path leads to it from the base.
    NoRelativePath,
    /// It isn't made absolute, for this reason.
    NoAbsolutePath(AbsoluteError),
    /// It isn't joined to the base, since it has a NUL.
    NoJoin(NameError),
    /// It isn't joined to the base for this reason, which is a fault of one of its components. The
    /// text is that component's escape.
    NoJoinAt(NameError, InlineText<SHOWN>),
    /// The other platform's paths can't have the component at this index, the first such. The text
    /// is its escape.
    NoComponent(usize, InlineText<SHOWN>),
    /// The bytes with its components aren't a string of the other platform: their first fault.
    NoStringThere(EncodingError),
    /// It has a NUL, which no file's path has.
    HasNul,
    /// Its result has this byte, which would end it.
    ResultHas(ItemEnd),
}

/// Why the program ends, beside what [`ListFault`](list_programs::fault::ListFault) states.
#[derive(Clone, Copy)]
pub enum CommandFault {
    /// The arguments aren't available: one of them isn't valid UTF-8.
    Unreadable,
    /// They request nothing that the program does: what is wrong with them.
    Misuse(InlineText<ROOM>),
    /// This number of paths were rejected and passed over.
    PassedOver(u64),
    /// The paths that aren't rejected have no common base, for this reason.
    NoBase(CommonBaseError),
    /// Their common base has this byte, which would end it.
    BaseHas(ItemEnd),
}

impl CommandFault {
    /// The fault for a misuse of the arguments.
    ///
    /// # Errors
    ///
    /// `AllocError` if an allocation failed.
    ///
    /// ```
    /// use paths_commands::fault::{CommandFault, Fault};
    /// use list_programs::misuse::Misuse;
    ///
    /// let fault: Fault = Fault::Words(CommandFault::of(alloc, Misuse::Missing("BASE"))?);
    /// let text = "missing BASE; paths --help lists the commands";
    /// assert_eq!(rt; fault.to_string(alloc)?.as_str(), text);
    /// ```
    pub fn of<A: Allocator>(alloc: A, misuse: Misuse<'_>) -> Result<CommandFault, AllocError>
        ensures { IfOk result (IsOfMisuse misuse.entry) }
    {
        Ok(CommandFault::Misuse(cut_text(alloc, misuse)?))
    }
}

/// The reason why a run of the program ended before its input did, or that paths were passed over.
pub type Fault = program_fault::Fault<Rejection, CommandFault>;

impl ItemRejection for Rejection {
    ghost use Rattle.std.specs.Prelude.{codes};
    ghost use Rattle.paths_commands.specs.Fault.{rejection_text};

    ghost item = { codes "path" };

    ghost text_of = { rejection_text };

    fn item() -> &'static str {
        "path"
    }

    fn write<W: fmt::Write>(&self, f: &mut fmt::Formatter<W>) -> fmt::Result {
        match *self {
            Rejection::NoString(error) => error.fmt(f),
            Rejection::NoNormalForm => f.write_str("no name before a .."),
            Rejection::NoRelativePath => f.write_str("no path from the base leads there"),
            Rejection::NoAbsolutePath(error) => error.fmt(f),
            Rejection::NoJoin(error) => error.fmt(f),
            Rejection::NoJoinAt(error, text) => write_at_fault(error, &text, f),
            Rejection::NoComponent(index, text) => write_component(index, &text, f),
            Rejection::NoStringThere(error) => {
                f.write_str("no path there: ")?;
                error.fmt(f)
            }
            Rejection::HasNul => f.write_str("the path has a NUL"),
            Rejection::ResultHas(end) => f.write_str(result_text(end)),
        }
    }
}

/// What is written of a result with this byte, which would end it.
fn result_text(end: ItemEnd) -> &'static str
    ensures { result.now ≡ result_text end }
{
    match end {
        ItemEnd::Nul => "the result has a NUL",
        ItemEnd::Newline => "the result has a newline",
    }
}

/// Writes why paths have no common base. They are counted from 1.
fn write_apart<W: fmt::Write>(error: CommonBaseError, f: &mut fmt::Formatter<W>) -> fmt::Result
    ensures { WritesStyledOnOk W.write_str_gives f.old result (apart_text error) f.new }
{
    match error {
        CommonBaseError::NoPath => f.write_str("no paths"),
        CommonBaseError::Prefix(index) => write_unlike("no common base: the prefix", index, f),
        CommonBaseError::Root(index) => write_unlike("no common base: the root", index, f),
    }
}

/// Writes that this part of the path at an index isn't that of the first.
fn write_unlike<W: fmt::Write>(what: &str, index: usize, f: &mut fmt::Formatter<W>) -> fmt::Result
    ensures { WritesStyledOnOk W.write_str_gives f.old result (unlike_first what.now index) f.new }
{
    f.write_str(what)?;
    f.write_str(" of path ")?;
    write_number(index.saturating_add(1), f)?;
    f.write_str(" isn't that of path 1")
}

/// Writes which component a path of another platform can't have.
fn write_component<W: fmt::Write>(
    index: usize,
    text: &InlineText<SHOWN>,
    f: &mut fmt::Formatter<W>,
) -> fmt::Result
    ensures { WritesStyledOnOk W.write_str_gives f.old result
        (unlike_text index (inline_text text.now)) f.new }
{
    f.write_str("a path there can't have component ")?;
    write_numbered(index, text, f)
}

/// Writes why a path isn't joined to a base, and for which of its components.
fn write_at_fault<W: fmt::Write>(
    error: NameError,
    text: &InlineText<SHOWN>,
    f: &mut fmt::Formatter<W>,
) -> fmt::Result
    ensures { WritesStyledOnOk W.write_str_gives f.old result
        (at_fault_text error (inline_text text.now)) f.new }
{
    from_one(error).fmt(f)?;
    write_quoted(text.as_str(), f)
}

/// The error with the number of its component, counted from 1.
fn from_one(error: NameError) -> NameError
    ensures { result ≡ from_one error }
{
    match error {
        NameError::Nul(index) => NameError::Nul(index),
        NameError::Prefix => NameError::Prefix,
        NameError::Root => NameError::Root,
        NameError::Leaves(index) => NameError::Leaves(index.saturating_add(1)),
        NameError::Stream(index) => NameError::Stream(index.saturating_add(1)),
        NameError::Reserved(index) => NameError::Reserved(index.saturating_add(1)),
        NameError::Memory => NameError::Memory,
    }
}

/// Writes the number of a component, counted from 1, and its escape.
fn write_numbered<W: fmt::Write>(
    index: usize,
    text: &InlineText<SHOWN>,
    f: &mut fmt::Formatter<W>,
) -> fmt::Result
    ensures { WritesStyledOnOk W.write_str_gives f.old result
        (numbered index (inline_text text.now)) f.new }
{
    write_number(index.saturating_add(1), f)?;
    write_quoted(text.as_str(), f)
}

/// Writes a comma and a text between quotes.
fn write_quoted<W: fmt::Write>(text: &str, f: &mut fmt::Formatter<W>) -> fmt::Result
    ensures { WritesStyledOnOk W.write_str_gives f.old result
        (quoted text.now) f.new }
{
    f.write_str(", '")?;
    f.write_str(text)?;
    f.write_str("'")
}

impl WordsRejection for CommandFault {
    ghost use Rattle.paths_commands.specs.Fault.{words_status, words_text};

    ghost text_of = { words_text };

    ghost status_of = { words_status };

    fn status(&self) -> u8 {
        match self {
            CommandFault::Unreadable | CommandFault::Misuse(_) => 2,
            CommandFault::PassedOver(_) | CommandFault::NoBase(_) | CommandFault::BaseHas(_) => 1,
        }
    }

    fn write<W: fmt::Write>(&self, f: &mut fmt::Formatter<W>) -> fmt::Result {
        match self {
            CommandFault::Unreadable => f.write_str("an argument isn't valid UTF-8"),
            CommandFault::Misuse(text) => {
                f.write_str(text.as_str())?;
                f.write_str("; paths --help lists the commands")
            }
            CommandFault::PassedOver(count) => {
                f.write_str("rejected paths: ")?;
                write_number(*count as usize, f)
            }
            CommandFault::NoBase(error) => write_apart(*error, f),
            CommandFault::BaseHas(end) => f.write_str(result_text(*end)),
        }
    }
}
