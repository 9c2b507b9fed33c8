//! Commands, and the options and operands that make them up.
ghost use Rattle.std.specs.Prelude.{◌≡◌, ◌≢◌, ◌↔◌, ◌∷◌, ◌++◌, ◌<◌, ◌≤◌, [], length, List, ℕ, true, false, IfErr, IfOk, IsTrue, MatchOption, OnErr};
ghost use Rattle.list_programs.specs.Arguments.{HasOption, operands_of};
ghost use Rattle.list_programs.specs.ListOptions.{AreStated};
ghost use Rattle.program_frame.specs.declared.os.Os.{Os as DeclaredOs};
ghost use Rattle.paths_commands.specs.Command.{IsRequestFor, HasOneOperand, HasOperands, HasStyle, Needs, base_word, IsMisuse, IsOfPaths, IsSurplus, IsTaskOf, RequestsNothing, longest_path, needed_count};
ghost use Rattle.path_rules.specs.Root.{IsAbsolute};
ghost use Rattle.paths_commands.specs.Styles.{style_of};
ghost use Rattle.paths_commands.specs.Task.{IsChecked, KeepsSeparator, name_of, name_word, operands_of_task};
ghost use Rattle.paths_commands.specs.declared.command.Name.{Name as DeclaredName};
ghost use Rattle.paths_commands.specs.declared.command.Name.TheVariants.{Join as JoinName};
ghost use Rattle.paths_commands.specs.declared.option.PathsOption.TheVariants.{Checked, KeepSeparator, Lines, Unterminated};

use crate::extension::Extension;
use crate::option::PathsOption;
use crate::task::Task;
use list_programs::arguments::{Given, has, next_operand};
use list_programs::misuse::Misuse;
use list_programs::options::ListOptions;
use os_args::Word;
use os_path::Style;
use os_str_bytes::OsStr;
use path_building::{Base, BaseError};
use path_rules::is_absolute;
use program_frame::os::Os;

/// How many bytes a path may have.
pub(crate) const LONGEST_PATH: usize = 0x10_0000;

/// Options and operands, as they were given.
pub type Line<'s, 'a> = &'s [Given<'a, PathsOption>];

/// What the program does.
#[derive(Clone, Copy)]
pub enum Command<'s, 'a> {
    /// Writes the result for each path of the platform. The list is read and written so. The next
    /// field is whether rejected paths are passed over. The operands of the last are the paths. If it
    /// has none, they are read.
    Ask(Task<'a>, Os, ListOptions, bool, Line<'s, 'a>),
    /// `--help`: writes what the commands are.
    Help,
    /// `--version`: writes the version.
    Version,
}

impl<'s, 'a> Command<'s, 'a> {
    /// The command that options and operands make up, where the last operands, `after_end` of them,
    /// come after `--`. It doesn't allocate.
    ///
    /// `--help` and `--version` are commands wherever they stand. Otherwise the operands are a
    /// command, a platform and, for `with-extension`, `starts-with`, `join`, `relative`, `absolute`
    /// and `convert`, one more. The platform may be left out, and is Unix then. The operands after
    /// these are paths, and come after `--`. If all that come after the command's name follow `--`,
    /// and the name doesn't, then none of them is a platform.
    ///
    /// Options stand anywhere before `--`: `--keep-going`, `--lines`, `--unterminated`, and for
    /// `join` `--checked`, with which it takes `--keep-separator`. Without `--lines` a NUL ends each
    /// path, and without `--unterminated` the last path has its end, too.
    ///
    /// # Errors
    ///
    /// What is wrong: something is missing, an argument is invalid, an option isn't for the
    /// command, or an operand is one too many. With `--checked` BASE is invalid if it is no
    /// [`Base`]. DIR of `absolute` is invalid if it isn't absolute ([`path_rules::is_absolute`]),
    /// and EXT of `with-extension` if it has a separator ([`Extension`]).
    ///
    /// ```
    /// use paths_commands::command::Command;
    /// use paths_commands::option::PathsOption;
    /// use paths_commands::task::Task;
    /// use list_programs::arguments::Given;
    /// use list_programs::options::ListOptions;
    /// use program_frame::os::Os;
    ///
    /// let going = Given::Flag(PathsOption::KeepGoing);
    /// let given = [Given::Operand("parent"), going, Given::Operand("windows")];
    /// let Ok(command) = Command::parse(&given, 0) else { return Ok(()) };
    /// let Command::Ask(task, os, list, true, []) = command else { return Ok(()) };
    /// assert!(rt; matches!(task, Task::Parent) && os == Os::Windows);
    /// assert!(rt; list == ListOptions::new(1_048_576));
    /// let Ok(command) = Command::parse(&given, 1) else { return Ok(()) };
    /// assert!(rt; matches!(command, Command::Ask(Task::Parent, Os::Unix, _, true, [_, _])));
    /// let Err(error) = Command::parse(&[], 0) else { return Ok(()) };
    /// assert_eq!(rt; format!(in alloc; "{error}")?.as_str(), "missing command");
    /// ```
    #[tactic(auto, using(crate::proofs::lemmas::NeverBoth::never_both))]
    pub fn parse(given: Line<'s, 'a>, after_end: usize) -> Result<Command<'s, 'a>, Misuse<'a>>
        ensures command { IfOk result (λ command. IsRequestFor after_end given.entry.now command) }
        ensures misuse { IfErr result (λ misuse. IsMisuse after_end given.entry.now misuse) }
        ensures no_command { OnErr result (RequestsNothing after_end given.entry.now) }
    {
        if has(given, PathsOption::Help) {
            return Ok(Command::Help);
        }
        if has(given, PathsOption::Version) {
            return Ok(Command::Version);
        }
        match question(given, after_end) {
            Ok(command) => Ok(command),
            Err(misuse) => Err(misuse),
        }
    }
}

/// The command for paths that options and operands make up, if neither help nor the version is
/// requested.
fn question<'s, 'a>(given: Line<'s, 'a>, after_end: usize) -> Result<Command<'s, 'a>, Misuse<'a>>
    requires { IsOfPaths given.now }
    ensures command { IfOk result (λ command. IsRequestFor after_end given.entry.now command) }
    ensures misuse { IfErr result (λ misuse. IsMisuse after_end given.entry.now misuse) }
{
    let Some((word, after)) = next_operand(given) else {
        return Err(Misuse::Missing("command"));
    };
    let Some(name) = Name::named(word) else {
        return Err(Misuse::Invalid("command", word));
    };
    let (os, more) = platform_in(given, after_end, name, after);
    match task_of(given, after_end, name, os, more) {
        Ok((task, paths)) => {
            let keeps_going = has(given, PathsOption::KeepGoing);
            Ok(Command::Ask(task, os, listed(given), keeps_going, paths))
        }
        Err(misuse) => Err(misuse),
    }
}

/// The platform that comes after the name of a task, or Unix, and what was given after it.
fn platform_in<'s, 'a>(
    given: Line<'_, 'a>,
    after_end: usize,
    name: Name,
    after: Line<'s, 'a>,
) -> (Os, Line<'s, 'a>)
    requires { operands_of given.now ≡ name_word name ∷ operands_of after.now }
    ensures { HasOperands after_end given.entry.now name result.0 (operands_of result.1.now) }
{
    match next_operand(after) {
        Some((word, more)) => match Os::named(word) {
            Some(os) => {
                if are_more(after, after_end) || !are_more(given, after_end) {
                    return (os, more);
                }
                (Os::Unix, after)
            }
            None => (Os::Unix, after),
        },
        None => (Os::Unix, after),
    }
}

/// Whether there are more operands than this number.
fn are_more(given: Line<'_, '_>, count: usize) -> bool
    ensures { IsTrue result ↔ (count < length (operands_of given.entry.now)) }
{
    let mut room = count;
    let mut left = given;
    while let [one, rest @ ..] = left {
        if let Given::Operand(_) = one {
            if room == 0 {
                return true;
            }
            room -= 1;
        }
        left = rest;
    }
    false
}

/// How the list of paths is written.
fn listed(given: Line<'_, '_>) -> ListOptions
    ensures { AreStated Lines Unterminated longest_path given.entry.now result }
{
    let (lines, unterminated) = (PathsOption::Lines, PathsOption::Unterminated);
    ListOptions::stated(given, lines, unterminated, LONGEST_PATH)
}

/// The name of a task.
#[derive(Clone, Copy, PartialEq, Eq)]
pub enum Name {
    /// `components`.
    Components,
    /// `common`.
    Common,
    /// `parent`.
    Parent,
    /// `name`.
    Name,
    /// `stem`.
    Stem,
    /// `extension`.
    Extension,
    /// `with-extension`.
    WithExtension,
    /// `normalize`.
    Normalize,
    /// `clean`.
    Clean,
    /// `starts-with`.
    StartsWith,
    /// `join`.
    Join,
    /// `relative`.
    Relative,
    /// `absolute`.
    Absolute,
    /// `convert`.
    Convert,
}

impl Name {
    /// The name that this word is.
    fn named(word: &str) -> Option<Name>
        ensures { MatchOption result ((name : DeclaredName) → word.now ≢ name_word name)
            (λ name. word.now ≡ name_word name) }
    {
        match word {
            "components" => Some(Name::Components),
            "common" => Some(Name::Common),
            "parent" => Some(Name::Parent),
            "name" => Some(Name::Name),
            "stem" => Some(Name::Stem),
            "extension" => Some(Name::Extension),
            "with-extension" => Some(Name::WithExtension),
            "normalize" => Some(Name::Normalize),
            "clean" => Some(Name::Clean),
            "starts-with" => Some(Name::StartsWith),
            "join" => Some(Name::Join),
            "relative" => Some(Name::Relative),
            "absolute" => Some(Name::Absolute),
            "convert" => Some(Name::Convert),
            _ => None,
        }
    }

    /// The word.
    fn word(self) -> &'static str
        ensures { result.now ≡ name_word self }
    {
        match self {
            Name::Components => "components",
            Name::Common => "common",
            Name::Parent => "parent",
            Name::Name => "name",
            Name::Stem => "stem",
            Name::Extension => "extension",
            Name::WithExtension => "with-extension",
            Name::Normalize => "normalize",
            Name::Clean => "clean",
            Name::StartsWith => "starts-with",
            Name::Join => "join",
            Name::Relative => "relative",
            Name::Absolute => "absolute",
            Name::Convert => "convert",
        }
    }

    /// The operand that the task needs, if it needs one.
    fn needed(self) -> Option<&'static str>
        ensures { MatchOption result (needed_count self ≡ 0)
            (λ what. (needed_count self ≡ 1) × Needs self what.now) }
    {
        match self {
            Name::WithExtension => Some("EXT"),
            Name::StartsWith | Name::Join | Name::Relative => Some("BASE"),
            Name::Absolute => Some("DIR"),
            Name::Convert => Some("platform to convert to"),
            Name::Components
            | Name::Common
            | Name::Parent
            | Name::Name
            | Name::Stem
            | Name::Extension
            | Name::Normalize
            | Name::Clean => None,
        }
    }
}

/// The task of this name with the operand that it needs, and what was given after that: no more
/// operands than come after `--`.
fn task_of<'s, 'a>(
    given: Line<'_, 'a>,
    after_end: usize,
    name: Name,
    os: Os,
    more: Line<'s, 'a>,
) -> Result<(Task<'a>, Line<'s, 'a>), Misuse<'a>>
    requires { HasOperands after_end given.now name os (operands_of more.now) }
    ensures operands { IfOk result (λ found. HasOperands after_end given.entry.now
        (name_of found.0) os (operands_of_task found.0 ++ operands_of found.1.now)) }
    ensures late { IfOk result (λ found. length (operands_of found.1.now) ≤ after_end) }
    ensures checked { IfOk result
        (λ found. IsChecked found.0 ↔ HasOption Checked given.entry.now) }
    ensures keeps { IfOk result
        (λ found. KeepsSeparator found.0 ↔ HasOption KeepSeparator given.entry.now) }
    ensures style { IfOk result (λ found. HasStyle (style_of os) found.0) }
    ensures misuse { IfErr result (λ misuse. IsMisuse after_end given.entry.now misuse) }
{
    let is_checked = has(given, PathsOption::Checked);
    if !is_placed(is_checked, name) {
        return Err(Misuse::Misplaced("--checked", name.word()));
    }
    let keeps = has(given, PathsOption::KeepSeparator);
    if !is_placed(keeps, name) {
        return Err(Misuse::Misplaced("--keep-separator", name.word()));
    }
    if keeps && !is_checked {
        return Err(Misuse::Missing("--checked"));
    }
    let Some(what) = name.needed() else {
        return match surplus_in(more, after_end) {
            Some(word) => Err(surplus(word)),
            None => Ok((without_operand(name), more)),
        };
    };
    let Some((operand, rest)) = next_operand(more) else {
        return Err(Misuse::Missing(what));
    };
    if let Some(word) = surplus_in(rest, after_end) {
        return Err(surplus(word));
    }
    match with_operand(given, after_end, name, is_checked, keeps, os, operand) {
        Ok(task) => Ok((task, rest)),
        Err(misuse) => Err(misuse),
    }
}

/// Whether an option of `join` isn't given, or is for the task of this name.
fn is_placed(is_given: bool, name: Name) -> bool
    ensures yes { result ≡ true → is_given ≡ true → name ≡ JoinName }
    ensures no { result ≡ false → (is_given ≡ true) × (name ≢ JoinName) }
{
    !is_given || name == Name::Join
}

/// The first operand, if there are more than come after `--`.
fn surplus_in<'a>(given: Line<'_, 'a>, after_end: usize) -> Option<&'a str>
    ensures { MatchOption result (length (operands_of given.entry.now) ≤ after_end)
        (λ word. (more : List (List ℕ)) × ((operands_of given.entry.now ≡ word.now ∷ more)
        × (after_end ≤ length more))) }
{
    if !are_more(given, after_end) {
        return None;
    }
    match next_operand(given) {
        Some((word, _)) => Some(word),
        None => None,
    }
}

/// The task of this name, which needs no operand and isn't checked.
fn without_operand<'a>(name: Name) -> Task<'a>
    requires { needed_count name ≡ 0 }
    ensures { (os : DeclaredOs) → IsTaskOf name false false os [] result }
{
    match name {
        Name::Components => Task::Components,
        Name::Common => Task::Common,
        Name::Parent => Task::Parent,
        Name::Name => Task::Name,
        Name::Stem => Task::Stem,
        Name::Extension => Task::Extension,
        Name::Normalize => Task::Normalize,
        Name::Clean => Task::Clean,
        Name::WithExtension
        | Name::StartsWith
        | Name::Join
        | Name::Relative
        | Name::Absolute
        | Name::Convert => unreachable!(),
    }
}

/// The task of this name, which needs an operand. Only `join` is checked.
fn with_operand<'a>(
    given: Line<'_, 'a>,
    after_end: usize,
    name: Name,
    is_checked: bool,
    keeps: bool,
    os: Os,
    operand: &'a str,
) -> Result<Task<'a>, Misuse<'a>>
    requires needed { needed_count name ≡ 1 }
    requires operands { HasOneOperand after_end given.now name os operand.now }
    requires join { is_checked ≡ true → name ≡ JoinName }
    requires checked { is_checked ≡ true → HasOption Checked given.now }
    requires keeps { keeps ≡ true → is_checked ≡ true }
    ensures task { IfOk result (λ task. IsTaskOf name is_checked keeps os (operand.now ∷ []) task) }
    ensures misuse { IfErr result (λ misuse. IsMisuse after_end given.entry.now misuse) }
{
    match name {
        Name::WithExtension => match Extension::new(style_of(os), operand) {
            Some(extension) => Ok(Task::WithExtension(extension)),
            None => Err(Misuse::Invalid("EXT (has a separator)", operand)),
        },
        Name::Join => {
            if is_checked {
                return checked_join(given, after_end, keeps, os, operand);
            }
            Ok(Task::Join(operand))
        }
        Name::StartsWith => Ok(Task::StartsWith(operand)),
        Name::Relative => Ok(Task::Relative(operand)),
        Name::Absolute => {
            if is_absolute_on(os, operand) {
                return Ok(Task::Absolute(operand));
            }
            Err(Misuse::Invalid("DIR (not absolute)", operand))
        }
        Name::Convert => match Os::named(operand) {
            Some(to) => Ok(Task::Convert(to)),
            None => Err(Misuse::Invalid("platform", operand)),
        },
        Name::Components
        | Name::Common
        | Name::Parent
        | Name::Name
        | Name::Stem
        | Name::Extension
        | Name::Normalize
        | Name::Clean => unreachable!(),
    }
}

/// Whether the directory is an absolute path of the platform.
fn is_absolute_on(os: Os, directory: &str) -> bool
    ensures { (result ≡ true) ↔ IsAbsolute (style_of os) directory.now }
{
    is_absolute(style_of(os), directory.as_bytes())
}

/// The task that joins paths to a base, which is tested.
fn checked_join<'a>(
    given: Line<'_, 'a>,
    after_end: usize,
    keeps: bool,
    os: Os,
    operand: &'a str,
) -> Result<Task<'a>, Misuse<'a>>
    requires operands { HasOneOperand after_end given.now JoinName os operand.now }
    requires checked { HasOption Checked given.now }
    ensures task { IfOk result (λ task. IsTaskOf JoinName true keeps os (operand.now ∷ []) task) }
    ensures misuse { IfErr result (λ misuse. IsMisuse after_end given.entry.now misuse) }
{
    match Base::new(style_of(os), operand.as_bytes()) {
        Ok(base) => Ok(Task::JoinChecked(base, keeps)),
        Err(error) => Err(Misuse::Invalid(base_word(error), operand)),
    }
}

/// The description of a base, with the reason why one is invalid.
fn base_word(error: BaseError) -> &'static str
    ensures { result.now ≡ base_word error }
{
    match error {
        BaseError::Nul(_) => "BASE (NUL)",
        BaseError::Incomplete => "BASE (incomplete prefix)",
        BaseError::Reserved => "BASE (reserved name)",
    }
}

/// Whose rules the paths of a platform follow.
pub(crate) fn style_of(os: Os) -> Style
    ensures { result ≡ style_of os }
{
    match os {
        Os::Unix | Os::Wasm => Style::Unix,
        Os::Windows => Style::Windows,
    }
}

/// The error for an operand too many.
fn surplus<'a>(word: &'a str) -> Misuse<'a>
    ensures { IsSurplus word.now result }
{
    Misuse::Argument(Word::Value(OsStr::new(word)).unexpected())
}
