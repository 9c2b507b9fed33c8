//! Commands, and the requests that options and operands make up.
ghost use Rattle.std.specs.Prelude.{◌≡◌, ◌≢◌, ◌↔◌, IfOk, IfErr, IsTrue, MatchOption};
ghost use Rattle.list_programs.specs.Arguments.{operands_of};
ghost use Rattle.names_commands.specs.Command.{IsRequestFor, Fits, HasOperands, IsMisuse, IsRequestError, MakesUp, TakesOption, requested_of, listing, name_word};
ghost use Rattle.names_commands.specs.declared.command.Name.{Name as DeclaredName};
ghost use Rattle.names_commands.specs.declared.command.Name.TheVariants.{Filter as FilterName, Join as JoinName, List as ListName, Why as WhyName};

use crate::fitting::{fits, no_operand, words};
use crate::given::{LONGEST_NAME, empty_line, form_of, listed, picks, platform_of};
use crate::ignoring::first_outside;
use crate::matching::Form;
use crate::option::NamesOption;
use crate::pick::{excluded_of, patterns_of};
use crate::task::{EmptyLine, Task};
use list_programs::arguments::{Given, has, next_operand, values};
use list_programs::misuse::Misuse;
use list_programs::options::ListOptions;
use program_frame::os::Os;
use std::alloc::{AllocError, Allocator, Global};

/// Options and operands, as they were given.
pub type Line<'s, 'a> = &'s [Given<'a, NamesOption>];

/// All that options and operands state.
#[derive(Drop)]
pub struct Request<'a, A: Allocator = Global> {
    /// What the program does.
    pub command: Command,
    /// How the list is written: the byte that ends a name, whether the last item of the input may lack
    /// its end, and how many bytes a name may have.
    pub list: ListOptions,
    /// The patterns that pick names: the operand, then those of `--glob` and then those of `--name`,
    /// with `**/` before each of these. A name matches if one of them or of those of the pattern files
    /// matches it, or there are neither patterns nor pattern files, and no line of the ignore files
    /// ignores it.
    pub patterns: Vec<String<A>, A>,
    /// How many patterns come before those of `--name`.
    pub plain: usize,
    /// The values of `--globs-from`, which name pattern files.
    pub pattern_files: Vec<&'a str, A>,
    /// The values of `--ignore`, which state ignore files.
    pub files: Vec<&'a str, A>,
    /// Whether the names are picked that don't match.
    pub inverted: bool,
    /// Whether patterns and ignore files match without regard to case.
    pub case_insensitive: bool,
    /// The patterns of `--exclude`. A name that one of them matches is left out in any case.
    pub excluded: Vec<String<A>, A>,
    /// Whether a run that writes nothing ends with status 1.
    pub exit_status: bool,
}

/// Why options and operands make up no request.
#[derive(Clone, Copy)]
pub enum RequestError<'a> {
    /// What is wrong with them: something is missing, a word is invalid, an option isn't for the
    /// command or the platform, or an operand is one too many.
    Misuse(Misuse<'a>),
    /// An allocation failed.
    Memory,
}

impl<'a> From<AllocError> for RequestError<'a> {
    ghost use Rattle.names_commands.specs.declared.command.RequestError.TheVariants.{Memory};

    ghost from_gives = { λ _ error. error ≡ Memory };

    fn from(_error: AllocError) -> Self {
        RequestError::Memory
    }
}

impl<'a, A: Allocator + Copy> Request<'a, A> {
    /// The request that options and operands make up.
    ///
    /// `--help` and `--version` are requests wherever they stand. Otherwise the operands are a
    /// command, a platform and, for `list`, `filter` and `why`, a pattern. A first operand after the command
    /// that names no platform isn't one, and the platform is Unix. Options stand anywhere. The last
    /// `--max` counts, and without one a name may have 1,048,576 bytes. Without `--lines` each name is
    /// ended by NUL, and without `--unterminated` the last item has its end, too.
    ///
    /// # Errors
    ///
    /// [`RequestError::Misuse`] if they make up no request, and [`RequestError::Memory`] if an allocation
    /// fails.
    ///
    /// ```
    /// use names_commands::command::{Command, Request, RequestError, Work};
    /// use names_commands::option::NamesOption;
    /// use names_commands::task::Task;
    /// use list_programs::arguments::Given;
    /// use list_programs::options::ListOptions;
    /// use program_frame::os::Os;
    ///
    /// let max = Given::Valued(NamesOption::Max, "255");
    /// let given = [Given::Operand("check"), Given::Operand("wasm"), max];
    /// let Ok(request) = Request::parse(alloc, &given) else { return Ok(()) };
    /// assert!(rt; request.command == Command::On(Os::Wasm, Work::Each(Task::Check)));
    /// assert!(rt; request.list == ListOptions::new(255));
    /// let given = [Given::Operand("check"), Given::Operand("x")];
    /// let Err(RequestError::Misuse(misuse)) = Request::parse(alloc, &given) else { return Ok(()) };
    /// let text = "unexpected argument 'x'";
    /// assert_eq!(rt; format!(in alloc; "{misuse}")?.as_str(), text);
    /// ```
    pub fn parse(alloc: A, given: Line<'_, 'a>) -> Result<Request<'a, A>, RequestError<'a>>
        ensures request { IfOk result
            (λ request. IsRequestFor given.entry.now (requested_of request)) }
        ensures error { IfErr result (λ error. IsRequestError given.entry.now error) }
    {
        if has(given, NamesOption::Help) {
            return Ok(Request::of_text(alloc, Command::Help));
        }
        if has(given, NamesOption::Version) {
            return Ok(Request::of_text(alloc, Command::Version));
        }
        let list = match listed(given) {
            Ok(list) => list,
            Err(misuse) => return Err(RequestError::Misuse(misuse)),
        };
        let command = match Command::parse(given) {
            Ok(command) => command,
            Err(misuse) => return Err(RequestError::Misuse(misuse)),
        };
        let (patterns, plain) = patterns_of(alloc, given)?;
        let pattern_files = values(alloc, given, NamesOption::GlobsFrom)?;
        let files = values(alloc, given, NamesOption::Ignore)?;
        if let Some(value) = first_outside(&files) {
            return Err(RequestError::Misuse(Misuse::Invalid("DIR of --ignore", value)));
        }
        let inverted = has(given, NamesOption::Invert);
        let case_insensitive = has(given, NamesOption::IgnoreCase);
        let excluded = excluded_of(alloc, given)?;
        let exit_status = has(given, NamesOption::ExitStatus);
        Ok(Request {
            command,
            list,
            patterns,
            plain,
            pattern_files,
            files,
            inverted,
            case_insensitive,
            excluded,
            exit_status,
        })
    }

    /// The request for a text of the program's own.
    fn of_text(alloc: A, command: Command) -> Request<'a, A>
        ensures { result.command ≡ command }
    {
        Request {
            command,
            list: ListOptions::new(LONGEST_NAME),
            patterns: Vec::new(alloc),
            plain: 0,
            pattern_files: Vec::new(alloc),
            files: Vec::new(alloc),
            inverted: false,
            case_insensitive: false,
            excluded: Vec::new(alloc),
            exit_status: false,
        }
    }
}

/// The name of a command.
#[derive(Clone, Copy, PartialEq, Eq)]
pub enum Name {
    /// `list`.
    List,
    /// `filter`.
    Filter,
    /// `why`.
    Why,
    /// `join`.
    Join,
    /// `check`.
    Check,
    /// `tar`.
    Tar,
}

impl Name {
    /// The command of this name.
    fn named(word: &str) -> Option<Name>
        ensures { MatchOption result ((command : DeclaredName) → word.now ≢ name_word command)
            (λ command. word.now ≡ name_word command) }
    {
        match word {
            "list" => Some(Name::List),
            "filter" => Some(Name::Filter),
            "why" => Some(Name::Why),
            "join" => Some(Name::Join),
            "check" => Some(Name::Check),
            "tar" => Some(Name::Tar),
            _ => None,
        }
    }

    /// The word of the command.
    pub(crate) fn word(self) -> &'static str
        ensures { result.now ≡ name_word self }
    {
        match self {
            Name::List => "list",
            Name::Filter => "filter",
            Name::Why => "why",
            Name::Join => "join",
            Name::Check => "check",
            Name::Tar => "tar",
        }
    }

    /// Whether the command takes an option.
    pub(crate) fn takes(self, option: NamesOption) -> bool
        ensures { IsTrue result ↔ TakesOption self option }
    {
        match option {
            NamesOption::Help => true,
            NamesOption::Version => true,
            NamesOption::Max => true,
            NamesOption::Sh => matches!(self, Name::List | Name::Join),
            NamesOption::ShLine => matches!(self, Name::List | Name::Join),
            NamesOption::Lines => true,
            NamesOption::Unterminated => !matches!(self, Name::Tar),
            NamesOption::Empty => matches!(self, Name::Join),
            NamesOption::Glob => matches!(self, Name::List | Name::Filter | Name::Why),
            NamesOption::Name => matches!(self, Name::List | Name::Filter | Name::Why),
            NamesOption::Ignore => matches!(self, Name::List | Name::Filter | Name::Why),
            NamesOption::Invert => matches!(self, Name::List | Name::Filter),
            NamesOption::IgnoreCase => matches!(self, Name::List | Name::Filter | Name::Why),
            NamesOption::Exclude => matches!(self, Name::List | Name::Filter),
            NamesOption::GlobsFrom => matches!(self, Name::List | Name::Filter),
            NamesOption::ExitStatus => matches!(self, Name::List | Name::Filter | Name::Why),
        }
    }
}

/// What the program does.
#[derive(Clone, Copy, PartialEq, Eq)]
pub enum Command {
    /// `--help`: writes what the commands are.
    Help,
    /// `--version`: writes the version.
    Version,
    /// Reads a list of this platform, and does this work.
    On(Os, Work),
}

/// What is done with a list.
#[derive(Clone, Copy, PartialEq, Eq)]
pub enum Work {
    /// This is done with each item: `join`, `check`, and `list` where nothing picks names.
    Each(Task),
    /// The names that are picked are written in this form: `filter`, and `list` where something picks
    /// names.
    Picked(Form),
    /// `why`: the line of an ignore file that decides a name is written, with the escape of the name, or
    /// else the first pattern that matches the name. The other names are left out.
    Why,
    /// `tar`: the input is an archive, and the names of its entries are written.
    Tar,
}

impl Command {
    /// The command that options and operands make up.
    fn parse<'a>(given: Line<'_, 'a>) -> Result<Command, Misuse<'a>>
        ensures command { IfOk result (λ command. MakesUp given.entry.now command) }
        ensures misuse { IfErr result (λ misuse. IsMisuse given.entry.now misuse) }
    {
        let Some((name, after)) = next_operand(given) else {
            return Err(Misuse::Missing("command (list, filter, why, join, check or tar)"));
        };
        let Some(command) = Name::named(name) else {
            return Err(Misuse::Invalid("command", name));
        };
        let (os, more) = platform_of(after);
        fits(given, command)?;
        Command::of(given, command, os, more)
    }

    /// The command of this name on a platform, with the operands of `more`.
    fn of<'a>(
        given: Line<'_, 'a>,
        command: Name,
        os: Os,
        more: Line<'_, 'a>,
    ) -> Result<Command, Misuse<'a>>
        requires operands { HasOperands given.now command os (operands_of more.now) }
        requires fits { Fits command given.now }
        ensures command { IfOk result (λ command. MakesUp given.entry.now command) }
        ensures misuse { IfErr result (λ misuse. IsMisuse given.entry.now misuse) }
    {
        match command {
            Name::List => Command::list(given, os, more),
            Name::Filter => Command::filter(given, os, more),
            Name::Why => Command::why(given, os, more),
            Name::Join => Command::join(given, os, more),
            Name::Check => {
                no_operand(given, Name::Check, os, more)?;
                Ok(Command::On(os, Work::Each(Task::Check)))
            }
            Name::Tar => {
                no_operand(given, Name::Tar, os, more)?;
                Ok(Command::On(os, Work::Tar))
            }
        }
    }

    /// `list`.
    fn list<'a>(given: Line<'_, 'a>, os: Os, more: Line<'_, 'a>) -> Result<Command, Misuse<'a>>
        requires operands { HasOperands given.now ListName os (operands_of more.now) }
        requires fits { Fits ListName given.now }
        ensures command { IfOk result (λ command. MakesUp given.entry.now command) }
        ensures misuse { IfErr result (λ misuse. IsMisuse given.entry.now misuse) }
    {
        let picked = picks(given, Name::List, os, more)?;
        let Some((form, option)) = form_of(given) else {
            return Ok(Command::On(os, listing(picked, Form::Line, Task::ListAll)));
        };
        words(given, os, option)?;
        Ok(Command::On(os, listing(picked, Form::Word(form), Task::ListWords(form))))
    }

    /// `filter`.
    fn filter<'a>(given: Line<'_, 'a>, os: Os, more: Line<'_, 'a>) -> Result<Command, Misuse<'a>>
        requires operands { HasOperands given.now FilterName os (operands_of more.now) }
        requires fits { Fits FilterName given.now }
        ensures command { IfOk result (λ command. MakesUp given.entry.now command) }
        ensures misuse { IfErr result (λ misuse. IsMisuse given.entry.now misuse) }
    {
        let picked = picks(given, Name::Filter, os, more)?;
        if picked {
            Ok(Command::On(os, Work::Picked(Form::Name)))
        } else {
            Err(Misuse::Missing("GLOB, --glob, --globs-from, --name, --ignore or --exclude"))
        }
    }

    /// `why`.
    fn why<'a>(given: Line<'_, 'a>, os: Os, more: Line<'_, 'a>) -> Result<Command, Misuse<'a>>
        requires operands { HasOperands given.now WhyName os (operands_of more.now) }
        requires fits { Fits WhyName given.now }
        ensures command { IfOk result (λ command. MakesUp given.entry.now command) }
        ensures misuse { IfErr result (λ misuse. IsMisuse given.entry.now misuse) }
    {
        let picked = picks(given, Name::Why, os, more)?;
        if picked {
            Ok(Command::On(os, Work::Why))
        } else {
            Err(Misuse::Missing("GLOB, --glob, --name or --ignore"))
        }
    }

    /// `join`.
    fn join<'a>(given: Line<'_, 'a>, os: Os, more: Line<'_, 'a>) -> Result<Command, Misuse<'a>>
        requires operands { HasOperands given.now JoinName os (operands_of more.now) }
        requires fits { Fits JoinName given.now }
        ensures command { IfOk result (λ command. MakesUp given.entry.now command) }
        ensures misuse { IfErr result (λ misuse. IsMisuse given.entry.now misuse) }
    {
        no_operand(given, Name::Join, os, more)?;
        let Some((_, option)) = form_of(given) else {
            return Ok(Command::On(os, Work::Each(Task::Join(empty_line(given)))));
        };
        words(given, os, option)?;
        Ok(Command::On(os, Work::Each(Task::JoinWords)))
    }
}

/// The work of `list`: the names that are picked in a form, or a task for each name.
fn listing(picked: bool, form: Form, task: Task) -> Work
    ensures { result ≡ listing picked form task }
{
    if picked {
        Work::Picked(form)
    } else {
        Work::Each(task)
    }
}
