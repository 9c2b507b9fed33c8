//! Command lines of Windows: what was written is read back.
ghost use Rattle.std.specs.Prelude.{◌≡◌, ◌⊎◌, ◌∷◌, [], false, ℕ, List, IsTrue, IfOk, MatchResult, codes};
ghost use Rattle.platform_str.specs.Strings.{bytes, string_vec_of};
ghost use Rattle.os_command_line.specs.Windows.{IsCommandLine};
ghost use Rattle.os_command_line.specs.declared.windows.error.CommandLineError.TheVariants.{Nul, Memory};

use os_command_line::windows::{
    Arguments, CommandLineError, command_line, laws, needs_cmd, push_argument,
};
use platform_str::{OsStr, OsString, Platform, Windows};
use std::alloc::Allocator;

/// What is read of a line that is one of a name and arguments, as `command_line` writes it: these.
pub fn all_arguments<'l>(line: OsStr<'l, Windows>) -> Arguments<'l>
    ensures { (name : List ℕ) → (arguments : List (List ℕ))
        → IsCommandLine (⟦<Windows as Platform>⟧.units (bytes line.entry)) name arguments
        → result ≡ (name, arguments) }
{
    laws::lines();
    Arguments::new(line)
}

/// The program's name again, by way of the command line with these arguments.
pub fn name_comes_back<A: Allocator + Copy>(
    alloc: A,
    program: OsStr<'_, Windows>,
    arguments: &[OsStr<'_, Windows>],
) -> Result<OsString<Windows, A>, CommandLineError>
    ensures { IfOk result (λ back. ⟦<Windows as Platform>⟧.units (string_vec_of back).items
        ≡ ⟦<Windows as Platform>⟧.units (bytes program.entry)) }
{
    laws::lines();
    let line = command_line(alloc, program, arguments)?;
    let line = OsString::<Windows, A>::from_wide(alloc, &line)?;
    let read = Arguments::new(line.as_os_str());
    let name = read.program().to_owned(alloc)?;
    Ok(name)
}

/// Whether an argument, alone on a command line, is the one that is read: always.
pub fn argument_comes_back<A: Allocator + Copy>(
    alloc: A,
    program: OsStr<'_, Windows>,
    argument: OsStr<'_, Windows>,
) -> Result<bool, CommandLineError>
    ensures { IfOk result (λ same. IsTrue same) }
{
    laws::lines();
    let line = command_line(alloc, program, &[argument])?;
    let line = OsString::<Windows, A>::from_wide(alloc, &line)?;
    let mut read = Arguments::new(line.as_os_str());
    match read.next() {
        Some(found) => Ok(found.equals(argument)),
        None => Ok(false),
    }
}

/// Whether two arguments are the ones that are read from their command line: always.
pub fn both_come_back<A: Allocator + Copy>(
    alloc: A,
    program: OsStr<'_, Windows>,
    first: OsStr<'_, Windows>,
    second: OsStr<'_, Windows>,
) -> Result<(bool, bool), CommandLineError>
    ensures { IfOk result (λ same. IsTrue same.0 × IsTrue same.1) }
{
    laws::lines();
    let line = command_line(alloc, program, &[first, second])?;
    let line = OsString::<Windows, A>::from_wide(alloc, &line)?;
    let mut read = Arguments::new(line.as_os_str());
    let Some(one) = read.next() else {
        return Ok((false, false));
    };
    let Some(other) = read.next() else {
        return Ok((false, false));
    };
    Ok((one.equals(first), other.equals(second)))
}

/// The argument of a line with two quotation marks within a quoted part: one mark, and the part goes on.
pub fn doubled_mark<'l>(line: OsStr<'l, Windows>) -> Arguments<'l>
    ensures { ⟦<Windows as Platform>⟧.units (bytes line.entry) ≡ codes "E \"a\"\" b\""
        → result.1 ≡ codes "a\" b" ∷ [] }
{
    laws::lines();
    Arguments::new(line)
}

/// Appends an argument whose second unit is NUL: it is refused with that index.
pub fn second_is_nul(
    line: &mut Vec<u16>,
    argument: OsStr<'_, Windows>,
) -> Result<(), CommandLineError>
    ensures { ⟦<Windows as Platform>⟧.units (bytes argument.entry) ≡ 0x61 ∷ 0 ∷ []
        → MatchResult result (λ _. ⊥) (λ fault. (fault ≡ Nul 1) ⊎ (fault ≡ Memory)) }
{
    push_argument(line, argument)
}

/// The text of an argument, unit by unit: in quotation marks, before which backslashes are doubled, and
/// so where it is empty; without them where a mark of its own is all that is special.
pub fn text_of_argument<A: Allocator>(
    alloc: A,
    argument: OsStr<'_, Windows>,
) -> Result<Vec<u16, A>, CommandLineError>
    ensures blank { IfOk result (λ text.
        ⟦<Windows as Platform>⟧.units (bytes argument.entry) ≡ codes "a b\\"
        → text.items ≡ codes "\"a b\\\\\"") }
    ensures empty { IfOk result (λ text. ⟦<Windows as Platform>⟧.units (bytes argument.entry) ≡ []
        → text.items ≡ codes "\"\"") }
    ensures mark { IfOk result (λ text.
        ⟦<Windows as Platform>⟧.units (bytes argument.entry) ≡ codes "a\\\"b"
        → text.items ≡ codes "a\\\\\\\"b") }
{
    let mut text = Vec::new(alloc);
    push_argument(&mut text, argument)?;
    Ok(text)
}

/// The command line of a program's name and one argument, unit by unit.
pub fn line_of_one<A: Allocator>(
    alloc: A,
    program: OsStr<'_, Windows>,
    argument: OsStr<'_, Windows>,
) -> Result<Vec<u16, A>, CommandLineError>
    ensures { IfOk result (λ line. ⟦<Windows as Platform>⟧.units (bytes program.entry) ≡ codes "E F"
        → ⟦<Windows as Platform>⟧.units (bytes argument.entry) ≡ codes "-x"
        → line.items ≡ codes "\"E F\" -x") }
{
    command_line(alloc, program, &[argument])
}

/// Whether Windows starts cmd.exe for a program: for a batch file in capital letters, also before full
/// stops or if only the full path shows it, and not for a program.
pub fn batch_files(program: OsStr<'_, Windows>) -> bool
    ensures capitals { ⟦<Windows as Platform>⟧.units (bytes program.entry) ≡ codes "a.BAT"
        → IsTrue result }
    ensures full_stop { ⟦<Windows as Platform>⟧.units (bytes program.entry) ≡ codes "a.cmd."
        → IsTrue result }
    ensures dot { ⟦<Windows as Platform>⟧.units (bytes program.entry) ≡ codes "a.bat/."
        → IsTrue result }
    ensures program { ⟦<Windows as Platform>⟧.units (bytes program.entry) ≡ codes "a.exe"
        → result ≡ false }
{
    needs_cmd(program)
}
