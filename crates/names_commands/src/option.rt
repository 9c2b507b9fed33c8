//! The options of the program.
ghost use Rattle.std.specs.Prelude.{◌≡◌, ◌↔◌, IsTrue, MatchOption};
ghost use Rattle.os_args.specs.Word.{Long, Short};
ghost use Rattle.names_commands.specs.Options.{spelled, word_of};
ghost use Rattle.names_commands.specs.declared.option.NamesOption.{NamesOption};

use list_programs::arguments::ProgramOption;
use os_args::Word;
use os_str_bytes::{OsStr, Wasm};

/// An option of the program.
#[derive(Clone, Copy, PartialEq, Eq)]
pub enum NamesOption {
    /// `-h`, `--help`: print the commands and options.
    Help,
    /// `-V`, `--version`: print the version.
    Version,
    /// `--max N`: the longest name, in bytes.
    Max,
    /// `--sh`: words that every POSIX shell reads as the names.
    Sh,
    /// `--sh-line`: words of a shell, each on one line.
    ShLine,
    /// `--lines`: a newline ends each name, and not NUL.
    Lines,
    /// `--unterminated`: the last name, or the last line, may lack its end.
    Unterminated,
    /// `--empty`: an empty line is an empty name.
    Empty,
    /// `--glob GLOB`: pick the names that a pattern matches.
    Glob,
    /// `--name GLOB`: pick the names whose last component a pattern matches.
    Name,
    /// `--ignore FILE`: leave out what an ignore file ignores.
    Ignore,
    /// `-v`, `--invert`: pick the others.
    Invert,
    /// `-i`, `--ignore-case`: match without regard to case.
    IgnoreCase,
    /// `--exclude GLOB`: leave out the names that a pattern matches.
    Exclude,
    /// `--globs-from FILE`: pick the names that the patterns of a file match.
    GlobsFrom,
    /// `--exit-status`: end with status 1 if nothing is printed.
    ExitStatus,
}

impl NamesOption {
    /// The option as it is written.
    ///
    /// ```
    /// use names_commands::option::NamesOption;
    ///
    /// assert_eq!(rt; NamesOption::ShLine.word(), "--sh-line");
    /// ```
    pub fn word(self) -> &'static str
        ensures { result.now ≡ word_of self }
    {
        match self {
            NamesOption::Help => "--help",
            NamesOption::Version => "--version",
            NamesOption::Max => "--max",
            NamesOption::Sh => "--sh",
            NamesOption::ShLine => "--sh-line",
            NamesOption::Lines => "--lines",
            NamesOption::Unterminated => "--unterminated",
            NamesOption::Empty => "--empty",
            NamesOption::Glob => "--glob",
            NamesOption::Name => "--name",
            NamesOption::Ignore => "--ignore",
            NamesOption::Invert => "--invert",
            NamesOption::IgnoreCase => "--ignore-case",
            NamesOption::Exclude => "--exclude",
            NamesOption::GlobsFrom => "--globs-from",
            NamesOption::ExitStatus => "--exit-status",
        }
    }
}

impl ProgramOption for NamesOption {
    ghost use Rattle.names_commands.specs.Options.{has_value, spelled};

    ghost spelled = { spelled };

    ghost has_value = { has_value };

    fn named<'a>(argument: Word<'a, OsStr<'a, Wasm>>) -> Option<NamesOption> {
        match argument {
            Word::Long(name) => long_option(name),
            Word::Short(flag) => short_option(flag),
            Word::LongBytes(_) | Word::ShortBytes(_) | Word::Value(_) => None,
        }
    }

    fn takes_value(self) -> bool {
        match self {
            NamesOption::Help => false,
            NamesOption::Version => false,
            NamesOption::Max => true,
            NamesOption::Sh => false,
            NamesOption::ShLine => false,
            NamesOption::Lines => false,
            NamesOption::Unterminated => false,
            NamesOption::Empty => false,
            NamesOption::Glob => true,
            NamesOption::Name => true,
            NamesOption::Ignore => true,
            NamesOption::Invert => false,
            NamesOption::IgnoreCase => false,
            NamesOption::Exclude => true,
            NamesOption::GlobsFrom => true,
            NamesOption::ExitStatus => false,
        }
    }

    fn is(self, other: NamesOption) -> bool {
        self == other
    }
}

/// The option of this name.
fn long_option(name: &str) -> Option<NamesOption>
    ensures { MatchOption result ((option : NamesOption) → ¬ (spelled option (Long name.now)))
        (λ option. spelled option (Long name.now)) }
{
    match name {
        "help" => Some(NamesOption::Help),
        "version" => Some(NamesOption::Version),
        "max" => Some(NamesOption::Max),
        "sh" => Some(NamesOption::Sh),
        "sh-line" => Some(NamesOption::ShLine),
        "lines" => Some(NamesOption::Lines),
        "unterminated" => Some(NamesOption::Unterminated),
        "empty" => Some(NamesOption::Empty),
        "glob" => Some(NamesOption::Glob),
        "name" => Some(NamesOption::Name),
        "ignore" => Some(NamesOption::Ignore),
        "invert" => Some(NamesOption::Invert),
        "ignore-case" => Some(NamesOption::IgnoreCase),
        "exclude" => Some(NamesOption::Exclude),
        "globs-from" => Some(NamesOption::GlobsFrom),
        "exit-status" => Some(NamesOption::ExitStatus),
        _ => None,
    }
}

/// The option of this flag.
fn short_option(flag: char) -> Option<NamesOption>
    ensures { MatchOption result ((option : NamesOption) → ¬ (spelled option (Short flag)))
        (λ option. spelled option (Short flag)) }
{
    match flag {
        'h' => Some(NamesOption::Help),
        'V' => Some(NamesOption::Version),
        'v' => Some(NamesOption::Invert),
        'i' => Some(NamesOption::IgnoreCase),
        _ => None,
    }
}
