//! The options of the program.
ghost use Rattle.std.specs.Prelude.{◌≡◌, MatchOption};
ghost use Rattle.os_args.specs.Word.{Long, Short};
ghost use Rattle.paths_commands.specs.Options.{spelled};
ghost use Rattle.paths_commands.specs.declared.option.PathsOption.{PathsOption};

use list_programs::arguments::ProgramOption;
use os_args::Word;
use os_str_bytes::{OsStr, Wasm};

/// An option of the program.
#[derive(Clone, Copy, PartialEq, Eq)]
pub enum PathsOption {
    /// `-h`, `--help`: print the commands and options.
    Help,
    /// `-V`, `--version`: print the version.
    Version,
    /// `--checked`: reject a path that could leave BASE.
    Checked,
    /// `--keep-separator`: keep a separator at the end of a path.
    KeepSeparator,
    /// `--keep-going`: go on after a path that is rejected.
    KeepGoing,
    /// `--lines`: a newline ends each path, and not NUL.
    Lines,
    /// `--unterminated`: the last path may lack its end.
    Unterminated,
}

impl ProgramOption for PathsOption {
    ghost use Rattle.paths_commands.specs.Options.{has_value, spelled};

    ghost spelled = { spelled };

    ghost has_value = { has_value };

    fn named<'a>(argument: Word<'a, OsStr<'a, Wasm>>) -> Option<PathsOption> {
        match argument {
            Word::Long(name) => long_option(name),
            Word::Short(flag) => short_option(flag),
            Word::LongBytes(_) | Word::ShortBytes(_) | Word::Value(_) => None,
        }
    }

    fn takes_value(self) -> bool {
        false
    }

    fn is(self, other: PathsOption) -> bool {
        self == other
    }
}

/// The option of this name.
fn long_option(name: &str) -> Option<PathsOption>
    ensures { MatchOption result ((option : PathsOption) → ¬ (spelled option (Long name.now)))
        (λ option. spelled option (Long name.now)) }
{
    match name {
        "help" => Some(PathsOption::Help),
        "version" => Some(PathsOption::Version),
        "checked" => Some(PathsOption::Checked),
        "keep-separator" => Some(PathsOption::KeepSeparator),
        "keep-going" => Some(PathsOption::KeepGoing),
        "lines" => Some(PathsOption::Lines),
        "unterminated" => Some(PathsOption::Unterminated),
        _ => None,
    }
}

/// The option of this flag.
fn short_option(flag: char) -> Option<PathsOption>
    ensures { MatchOption result ((option : PathsOption) → ¬ (spelled option (Short flag)))
        (λ option. spelled option (Short flag)) }
{
    match flag {
        'h' => Some(PathsOption::Help),
        'V' => Some(PathsOption::Version),
        _ => None,
    }
}
