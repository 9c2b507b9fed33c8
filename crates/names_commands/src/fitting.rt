//! Which options and operands a command and a platform take, and what is wrong with the others.
ghost use Rattle.std.specs.Prelude.{◌≡◌, ℕ, List, MatchOption, OnOk, IfErr, []};
ghost use Rattle.os_args.specs.Reading.{UnexpectedArgument};
ghost use Rattle.os_args.specs.Views.{fault_of};
ghost use Rattle.os_args.specs.Word.{Value};
ghost use Rattle.list_programs.specs.Arguments.{HasOption, IsOf, operands_of};
ghost use Rattle.program_frame.specs.declared.os.Os.TheVariants.{Unix};
ghost use Rattle.names_commands.specs.Command.{Fits, FitsOne, HasOperands, IsMisuse, IsWordOption, TakesOption};
ghost use Rattle.names_commands.specs.Pick.{TakesIgnore};
ghost use Rattle.names_commands.specs.declared.option.NamesOption.TheVariants.{Glob, Ignore};

use crate::command::{Line, Name};
use crate::option::NamesOption;
use list_programs::arguments::{Given, has, next_operand};
use list_programs::misuse::Misuse;
use os_args::{ArgumentError, Word};
use os_str_bytes::{OsStr, Wasm};
use program_frame::os::Os;

/// Checks that a command takes each option that was given.
pub(crate) fn fits<'a>(given: Line<'_, 'a>, command: Name) -> Result<(), Misuse<'a>>
    requires operands { (os : Os)
        × ((more : List (List ℕ)) × HasOperands given.now command os more) }
    ensures fits { OnOk result (Fits command given.entry.now) }
    ensures misuse { IfErr result (λ misuse. IsMisuse given.entry.now misuse) }
{
    match first_misplaced(given, command) {
        Some(option) => Err(Misuse::Misplaced(option.word(), command.word())),
        None => Ok(()),
    }
}

/// The first option that the command doesn't take.
fn first_misplaced(given: Line<'_, '_>, command: Name) -> Option<NamesOption>
    ensures { MatchOption result (Fits command given.entry.now)
        (λ option. HasOption option given.entry.now × (¬ (TakesOption command option))) }
{
    let mut left = given;
    while let [first, rest @ ..] = left {
        if let Some(option) = misplaced(first, command) {
            return Some(option);
        }
        left = rest;
    }
    None
}

/// The option that was given here, if the command doesn't take it.
fn misplaced(given: &Given<'_, NamesOption>, command: Name) -> Option<NamesOption>
    ensures { MatchOption result (FitsOne command given.now)
        (λ option. IsOf option given.now × (¬ (TakesOption command option))) }
{
    match given {
        Given::Operand(_) => None,
        Given::Flag(option) | Given::Valued(option, _) => {
            if command.takes(*option) {
                None
            } else {
                Some(*option)
            }
        }
    }
}

/// Checks that ignore files are given only where the platform takes them: they are about names that
/// `/` alone separates.
pub(crate) fn ignores<'a>(given: Line<'_, 'a>, os: Os) -> Result<(), Misuse<'a>>
    requires operands { (command : Name)
        × ((more : List (List ℕ)) × HasOperands given.now command os more) }
    ensures ignores { OnOk result (HasOption Ignore given.entry.now → TakesIgnore os) }
    ensures misuse { IfErr result (λ misuse. IsMisuse given.entry.now misuse) }
{
    match os {
        Os::Unix | Os::Wasm => Ok(()),
        Os::Windows => {
            if has(given, NamesOption::Ignore) {
                Err(Misuse::Misplaced("--ignore", "windows"))
            } else {
                Ok(())
            }
        }
    }
}

/// Checks that an option for words of a shell is given only for the platform that has them.
pub(crate) fn words<'a>(given: Line<'_, 'a>, os: Os, option: NamesOption) -> Result<(), Misuse<'a>>
    requires operands { (command : Name)
        × ((more : List (List ℕ)) × HasOperands given.now command os more) }
    requires option { IsWordOption given.now option }
    ensures unix { OnOk result (os ≡ Unix) }
    ensures misuse { IfErr result (λ misuse. IsMisuse given.entry.now misuse) }
{
    match os {
        Os::Unix => Ok(()),
        Os::Windows => Err(Misuse::Misplaced(option.word(), "windows")),
        Os::Wasm => Err(Misuse::Misplaced(option.word(), "wasm")),
    }
}

/// Checks that there is no operand more.
pub(crate) fn no_operand<'a>(
    given: Line<'_, 'a>,
    command: Name,
    os: Os,
    more: Line<'_, 'a>,
) -> Result<(), Misuse<'a>>
    requires operands { HasOperands given.now command os (operands_of more.now) }
    requires takes { ¬ (TakesOption command Glob) }
    ensures none { OnOk result (operands_of more.entry.now ≡ []) }
    ensures misuse { IfErr result (λ misuse. IsMisuse given.entry.now misuse) }
{
    match next_operand(more) {
        Some((word, _)) => Err(Misuse::Argument(surplus(word))),
        None => Ok(()),
    }
}

/// The error for an operand too many.
pub(crate) fn surplus<'a>(word: &'a str) -> ArgumentError<'a, OsStr<'a, Wasm>>
    ensures { fault_of result ≡ UnexpectedArgument (Value word.now) }
{
    Word::Value(OsStr::new(word)).unexpected()
}
