//! What options and operands state: a limit, what picks names, and how they are written.
ghost use Rattle.std.specs.Prelude.{◌≡◌, ◌↔◌, [], IfOk, IfErr, IsTrue, MatchOption};
ghost use Rattle.list_programs.specs.Arguments.{HasOption, operands_of};
ghost use Rattle.names_commands.specs.Command.{HasOperands, IsEmptyLine, IsForm, IsListed, IsMax, IsMisuse, IsWordOption, NoWords, OptionsMatch, Picks, TakesOption, options_of, separators_of};
ghost use Rattle.names_commands.specs.Operands.{HasPlatform};
ghost use Rattle.names_commands.specs.Pick.{TakesIgnore};
ghost use Rattle.names_commands.specs.declared.option.NamesOption.TheVariants.{Glob, Ignore};

use crate::command::{Line, Name};
use crate::fitting::{ignores, surplus};
use crate::option::NamesOption;
use crate::task::{EmptyLine, WordForm};
use glob_patterns::{GlobOptions, Separators};
use list_programs::arguments::{has, last_value, next_operand};
use list_programs::misuse::Misuse;
use list_programs::options::ListOptions;
use program_frame::os::Os;

/// How many bytes a name may have where the arguments state no limit.
pub(crate) const LONGEST_NAME: usize = 0x10_0000;

/// How options state that the list is written.
pub(crate) fn listed<'a>(given: Line<'_, 'a>) -> Result<ListOptions, Misuse<'a>>
    ensures list { IfOk result (λ list. IsListed given.entry.now list) }
    ensures misuse { IfErr result (λ misuse. IsMisuse given.entry.now misuse) }
{
    let max = limit(given)?;
    let (lines, unterminated) = (NamesOption::Lines, NamesOption::Unterminated);
    Ok(ListOptions::stated(given, lines, unterminated, max))
}

/// The limit that options state.
fn limit<'a>(given: Line<'_, 'a>) -> Result<usize, Misuse<'a>>
    ensures limit { IfOk result (λ max. IsMax given.entry.now max) }
    ensures misuse { IfErr result (λ misuse. IsMisuse given.entry.now misuse) }
{
    let Some(number) = last_value(given, NamesOption::Max) else {
        return Ok(LONGEST_NAME);
    };
    match number.parse::<usize>() {
        Ok(max) => Ok(max),
        Err(_) => Err(Misuse::Invalid("number of bytes", number)),
    }
}

/// The platform that operands after a command begin with, and what comes after it. Without one it is
/// Unix.
pub(crate) fn platform_of<'s, 'a>(after: Line<'s, 'a>) -> (Os, Line<'s, 'a>)
    ensures { HasPlatform (operands_of after.entry.now) result.0 (operands_of result.1.now) }
{
    let Some((word, more)) = next_operand(after) else {
        return (Os::Unix, after);
    };
    match Os::named(word) {
        Some(os) => (os, more),
        None => (Os::Unix, after),
    }
}

/// Whether something picks names.
pub(crate) fn picks<'a>(
    given: Line<'_, 'a>,
    command: Name,
    os: Os,
    more: Line<'_, 'a>,
) -> Result<bool, Misuse<'a>>
    requires operands { HasOperands given.now command os (operands_of more.now) }
    requires takes { TakesOption command Glob }
    ensures picks { IfOk result
        (λ picks. Picks given.entry.now os (operands_of more.entry.now) picks) }
    ensures misuse { IfErr result (λ misuse. IsMisuse given.entry.now misuse) }
{
    ignores(given, os)?;
    let Some((_, rest)) = next_operand(more) else {
        return options_pick(given, command, os, more);
    };
    match next_operand(rest) {
        Some((word, _)) => Err(Misuse::Argument(surplus(word))),
        None => Ok(true),
    }
}

/// Whether something picks names where no pattern is an operand.
fn options_pick<'a>(
    given: Line<'_, 'a>,
    command: Name,
    os: Os,
    more: Line<'_, 'a>,
) -> Result<bool, Misuse<'a>>
    requires operands { HasOperands given.now command os (operands_of more.now) }
    requires none { operands_of more.now ≡ [] }
    requires ignores { HasOption Ignore given.now → TakesIgnore os }
    ensures picks { IfOk result
        (λ picks. Picks given.entry.now os (operands_of more.entry.now) picks) }
    ensures misuse { IfErr result (λ misuse. IsMisuse given.entry.now misuse) }
{
    if options_match(given) {
        return Ok(true);
    }
    if has(given, NamesOption::Invert) {
        return Err(Misuse::Missing("GLOB, --glob, --globs-from, --name or --ignore for --invert"));
    }
    if has(given, NamesOption::Exclude) {
        return Ok(true);
    }
    Ok(false)
}

/// Whether an option states which names match, which `--invert` turns round.
fn options_match(given: Line<'_, '_>) -> bool
    ensures { IsTrue result ↔ OptionsMatch given.entry.now }
{
    has(given, NamesOption::Glob)
        || has(given, NamesOption::Ignore)
        || has(given, NamesOption::Name)
        || has(given, NamesOption::GlobsFrom)
}

/// How words of a shell are written, and the option for it.
pub(crate) fn form_of(given: Line<'_, '_>) -> Option<(WordForm, NamesOption)>
    ensures { MatchOption result (NoWords given.entry.now)
        (λ form. IsForm given.entry.now form.0 × IsWordOption given.entry.now form.1) }
{
    if has(given, NamesOption::ShLine) {
        return Some((WordForm::OneLine, NamesOption::ShLine));
    }
    if has(given, NamesOption::Sh) {
        return Some((WordForm::Posix, NamesOption::Sh));
    }
    None
}

/// Whether an empty line is the escape of the empty name.
pub(crate) fn empty_line(given: Line<'_, '_>) -> EmptyLine
    ensures { IsEmptyLine given.entry.now result }
{
    if has(given, NamesOption::Empty) {
        EmptyLine::IsEmptyName
    } else {
        EmptyLine::IsRejected
    }
}

/// How a pattern is matched on a platform, without regard to case where that is requested.
pub(crate) fn options_of(os: Os, case_insensitive: bool) -> GlobOptions
    ensures { result ≡ options_of os case_insensitive }
{
    let mut options = GlobOptions::new(separators_of(os));
    options.case_insensitive = case_insensitive;
    options
}

/// What separates components on a platform: `\` does on Windows alone.
fn separators_of(os: Os) -> Separators
    ensures { result ≡ separators_of os }
{
    match os {
        Os::Unix | Os::Wasm => Separators::Slash,
        Os::Windows => Separators::SlashAndBackslash,
    }
}
