//! What keeps the program from its output.
ghost use Rattle.std.specs.Prelude.{◌≡◌, ◌++◌, codes, IfOk};
ghost use Rattle.std.specs.Fmt.{WritesStyledOnOk};
ghost use Rattle.std.specs.Fmt.InlineText.{inline_text};
ghost use Rattle.names_commands.specs.Fault.{IsOfMisuse, line_text, none_for};

use glob_patterns::{GlobError, GlobSetError, PatternFault};
use list_programs::fault::ItemRejection;
use list_programs::misuse::{Misuse, ROOM, cut_text};
use list_programs::program_fault;
use list_programs::program_fault::WordsRejection;
use os_command_line::shell::WordsFault;
use os_quote::QuoteError;
use os_str_bytes::{EncodingError, write_number};
use std::alloc::{AllocError, Allocator};
use std::fmt;
use std::fmt::{Display as _, InlineText};
use tar_names::TarFault;

/// Why an item is rejected.
#[derive(Clone, Copy, PartialEq, Eq)]
pub enum Rejection {
    /// The name isn't a string of the platform, or the line isn't UTF-8: the first fault of its
    /// bytes.
    NoString(EncodingError),
    /// The line isn't the escape of any string: the backslash at this index begins no token.
    BadEscape(usize),
    /// The line isn't an escape: it can be read as a string whose escape is another.
    NotCanonical,
    /// The name, or the line or a word of it as it is read, has a NUL, which no file's name has.
    HasNul,
    /// The line, or a word of it, is read as a name with a newline, which would end it.
    HasNewline,
    /// The line ends in a carriage return.
    EndsInReturn,
    /// The line is empty.
    EmptyLine,
    /// The line isn't words of a shell: its fault.
    BadWords(WordsFault),
    /// The archive ends before its end, after the entries that were read: its fault.
    BadArchive(TarFault),
    /// The name isn't a path from the top of the tree, as ignore files need it: it is empty or
    /// absolute, or has an empty, `.` or `..` component after one `./`.
    NotFromTop,
}

/// Why the arguments are rejected.
#[derive(Clone, Copy)]
pub enum CommandFault {
    /// The arguments aren't available: one of them isn't valid UTF-8.
    Unreadable,
    /// They make up no request: what is wrong with them.
    Misuse(InlineText<ROOM>),
    /// The pattern with this number, counted from 1, is the first that is rejected: its first fault,
    /// and the lines below it that show where it is.
    Pattern(usize, PatternFault, InlineText<ROOM>),
    /// No file has the name of the ignore file with this number, counted from 1.
    NoFile(usize),
    /// The ignore file with this number couldn't be read.
    Unread(usize),
    /// No file has the name of the pattern file with this number, counted from 1.
    NoPatternFile(usize),
    /// The pattern file with this number couldn't be read.
    UnreadPatternFile(usize),
    /// Of the pattern file with the first number, the line with the second is the first pattern that
    /// is rejected: its first fault, and the lines below it that show where it is.
    LinePattern(usize, usize, PatternFault, InlineText<ROOM>),
    /// This line of this pattern file is the first that isn't a string of the platform: the first
    /// fault of its bytes.
    LineNoString(usize, usize, EncodingError),
    /// Nothing was written, and `--exit-status` was given. It has no text, so no message is printed.
    NoOutput,
}

impl CommandFault {
    /// The fault for a misuse of the arguments.
    ///
    /// # Errors
    ///
    /// `AllocError` if an allocation failed.
    ///
    /// ```
    /// use names_commands::fault::{CommandFault, Fault};
    /// use list_programs::misuse::Misuse;
    ///
    /// let fault: Fault = Fault::Words(CommandFault::of(alloc, Misuse::Invalid("platform", "linux"))?);
    /// let text = "invalid platform 'linux'; names --help lists the commands";
    /// assert_eq!(rt; fault.to_string(alloc)?.as_str(), text);
    /// ```
    pub fn of<A: Allocator>(alloc: A, misuse: Misuse<'_>) -> Result<CommandFault, AllocError>
        ensures { IfOk result (IsOfMisuse misuse.entry) }
    {
        Ok(CommandFault::Misuse(cut_text(alloc, misuse)?))
    }
}

/// What a run ends with that writes nothing, if that is a fault.
pub(crate) fn none_for(exit_status: bool) -> Option<CommandFault>
    ensures { result ≡ none_for exit_status }
{
    if exit_status {
        Some(CommandFault::NoOutput)
    } else {
        None
    }
}

/// The reason why a run of the program failed.
pub type Fault = program_fault::Fault<Rejection, CommandFault>;

impl ItemRejection for Rejection {
    ghost use Rattle.std.specs.Prelude.{codes};
    ghost use Rattle.names_commands.specs.Fault.{rejection_text};

    ghost item = { codes "name" };

    ghost text_of = { rejection_text };

    fn item() -> &'static str {
        "name"
    }

    fn write<W: fmt::Write>(&self, f: &mut fmt::Formatter<W>) -> fmt::Result {
        match *self {
            Rejection::NoString(error) => error.fmt(f),
            Rejection::BadEscape(index) => QuoteError::BadEscape(index).fmt(f),
            Rejection::NotCanonical => QuoteError::NotCanonical.fmt(f),
            Rejection::HasNul => f.write_str("the name has a NUL"),
            Rejection::HasNewline => f.write_str("the name has a newline"),
            Rejection::EndsInReturn => f.write_str("the line ends in a carriage return"),
            Rejection::EmptyLine => f.write_str(
                "the line is empty; --empty reads it as an empty name",
            ),
            Rejection::BadWords(fault) => fault.fmt(f),
            Rejection::BadArchive(fault) => fault.fmt(f),
            Rejection::NotFromTop => f.write_str(
                "the name isn't a path from the top, as --ignore needs it; use find . or git ls-files -z there",
            ),
        }
    }
}

impl WordsRejection for CommandFault {
    ghost use Rattle.names_commands.specs.Fault.{words_status, words_text};

    ghost text_of = { words_text };

    ghost status_of = { words_status };

    fn status(&self) -> u8 {
        match self {
            CommandFault::Unreadable
            | CommandFault::Misuse(_)
            | CommandFault::Pattern(_, _, _)
            | CommandFault::LinePattern(_, _, _, _)
            | CommandFault::LineNoString(_, _, _) => 2,
            CommandFault::NoFile(_)
            | CommandFault::Unread(_)
            | CommandFault::NoPatternFile(_)
            | CommandFault::UnreadPatternFile(_) => 4,
            CommandFault::NoOutput => 1,
        }
    }

    fn write<W: fmt::Write>(&self, f: &mut fmt::Formatter<W>) -> fmt::Result {
        match self {
            CommandFault::Unreadable => f.write_str("an argument isn't valid UTF-8"),
            CommandFault::Misuse(text) => write_hinted(text, f),
            CommandFault::Pattern(number, why, lines) => {
                GlobSetError::Pattern(*number, *why).fmt(f)?;
                f.write_str(lines.as_str())
            }
            CommandFault::NoFile(number) => {
                f.write_str("ignore file ")?;
                write_number(*number, f)?;
                f.write_str(": no such file")
            }
            CommandFault::Unread(number) => {
                f.write_str("ignore file ")?;
                write_number(*number, f)?;
                f.write_str(": read failed")
            }
            CommandFault::NoPatternFile(number) => {
                f.write_str("pattern file ")?;
                write_number(*number, f)?;
                f.write_str(": no such file")
            }
            CommandFault::UnreadPatternFile(number) => {
                f.write_str("pattern file ")?;
                write_number(*number, f)?;
                f.write_str(": read failed")
            }
            CommandFault::LinePattern(file, line, why, lines) => {
                write_line(*file, *line, f)?;
                GlobError::Pattern(*why).fmt(f)?;
                f.write_str(lines.as_str())
            }
            CommandFault::LineNoString(file, line, error) => {
                write_line(*file, *line, f)?;
                error.fmt(f)
            }
            CommandFault::NoOutput => f.write_str(""),
        }
    }
}

/// Writes a text, and how help is got.
fn write_hinted<W: fmt::Write>(text: &InlineText<ROOM>, f: &mut fmt::Formatter<W>) -> fmt::Result
    ensures { WritesStyledOnOk W.write_str_gives f.old result
        (inline_text text.now ++ codes "; names --help lists the commands") f.new }
{
    f.write_str(text.as_str())?;
    f.write_str("; names --help lists the commands")
}

/// Writes which line of which pattern file has a fault.
fn write_line<W: fmt::Write>(file: usize, line: usize, f: &mut fmt::Formatter<W>) -> fmt::Result
    ensures { WritesStyledOnOk W.write_str_gives f.old result (line_text file line) f.new }
{
    f.write_str("pattern file ")?;
    write_number(file, f)?;
    f.write_str(", line ")?;
    write_number(line, f)?;
    f.write_str(": ")
}
