//! The arguments of a command line.
ghost use Rattle.std.specs.Prelude.{◌≡◌};
ghost use Rattle.std.specs.Iterator.{YieldsFirstBy, item_count};
ghost use Rattle.platform_str.specs.Strings.{bytes};
ghost use Rattle.os_command_line.specs.Windows.{IsCommandLine};
ghost use Rattle.os_command_line.specs.WindowsViews.{argument_units};

use crate::windows::argument::{Argument, Kind};
use crate::windows::cuts::{cut_argument, cut_name};
use platform_str::{OsStr, Platform, Windows};
use std::marker::Model;

/// An iterator over the arguments of a command line, each a view of it. After `None` it gives only
/// `None`.
///
/// It rejects no line: whatever is not closed ends with the line. It holds the rest of the line and
/// allocates nothing. The first argument, the program's name, is not among its items:
/// [`Arguments::program`] gives it.
#[derive(Drop)]
pub struct Arguments<'a> {
    program: Argument<'a>,
    rest: OsStr<'a, Windows>,
}

impl<'a> Model for Arguments<'a> {
    ghost use Rattle.std.specs.Prelude.{List, ℕ};

    ghost Value = { List ℕ × List (List ℕ) };

    ghost use Rattle.platform_str.specs.Strings.{bytes};
    ghost use Rattle.wtf8_core.specs.UnitsOf.{units_of};
    ghost use Rattle.os_command_line.specs.WindowsReader.{arguments_in};
    ghost use Rattle.os_command_line.specs.WindowsViews.{argument_units};

    ghost view = { λ it. (argument_units it.program, arguments_in (units_of (bytes it.rest))) };
}

impl<'a> Arguments<'a> {
    /// The arguments of a command line, as Rust's std and the C runtime of 2008 and later read it
    /// (Microsoft, "Parsing C command-line arguments").
    ///
    /// - The program's name goes up to the first space or tab outside quotation marks. A quotation
    ///   mark opens or closes a quoted part and isn't part of the name; no backslash escapes it.
    /// - Arguments are separated by spaces and tabs outside quotation marks.
    /// - 2n backslashes and a quotation mark are n backslashes, and the mark opens or closes a
    ///   quoted part; 2n + 1 backslashes and a mark are n backslashes and a mark. Other backslashes
    ///   mean themselves.
    /// - Two quotation marks within a quoted part are one mark, and the part goes on.
    ///
    /// `CommandLineToArgvW` differs in two rules: two quotation marks within a quoted part are one mark
    /// and end the part, so `"a""b c"` has two arguments there and one here. A program's name that
    /// begins with a quotation mark ends at the next one, and in any other name a mark is part of it.
    /// It reads the lines of [`command_line`](crate::windows::command_line) as they are read here.
    ///
    /// std gives the running program's path for an empty line; here the name of an empty line is
    /// empty.
    ///
    /// ```
    /// use os_command_line::windows::Arguments;
    /// use os_str_bytes::{OsStr, Windows};
    ///
    /// let line = OsStr::<Windows>::new("\"C:\\my tools\\E.exe\" a \"b c\"\t\"\" \\\"d");
    /// let mut arguments = Arguments::new(line);
    /// assert!(rt; arguments.program().equals(OsStr::new("C:\\my tools\\E.exe")));
    /// assert!(rt; arguments.next().is_some_and(|a| a.equals(OsStr::new("a"))));
    /// assert!(rt; arguments.next().is_some_and(|a| a.equals(OsStr::new("b c"))));
    /// assert!(rt; arguments.next().is_some_and(|a| a.equals(OsStr::new(""))));
    /// assert!(rt; arguments.next().is_some_and(|a| a.equals(OsStr::new("\"d"))));
    /// assert!(rt; arguments.next().is_none());
    /// ```
    pub fn new(line: OsStr<'a, Windows>) -> Self
        ensures { IsCommandLine (⟦<Windows as Platform>⟧.units (bytes line.entry)) result.0
            result.1 }
    {
        let (name, rest) = cut_name(line);
        Arguments {
            program: Argument {
                text: name,
                kind: Kind::Name,
            },
            rest,
        }
    }

    /// The program's name, with which the line begins.
    ///
    /// ```
    /// use os_command_line::windows::Arguments;
    /// use os_str_bytes::{OsStr, Windows};
    ///
    /// let arguments = Arguments::new(OsStr::<Windows>::new("my\" tool\".exe a"));
    /// assert!(rt; arguments.program().equals(OsStr::new("my tool.exe")));
    /// ```
    pub fn program(&self) -> Argument<'a>
        ensures { argument_units result ≡ self.now.0 }
    {
        self.program
    }
}

impl<'a> Iterator for Arguments<'a> {
    type Item = Argument<'a>;

    ghost next_gives = { YieldsFirstBy argument_units (λ left. left.1) };

    ghost remaining = { item_count (λ left. left.1) };

    fn next(&mut self) -> Option<Argument<'a>> {
        let Some((argument, rest)) = cut_argument(self.rest) else {
            return None;
        };
        self.rest = rest;
        Some(argument)
    }
}
