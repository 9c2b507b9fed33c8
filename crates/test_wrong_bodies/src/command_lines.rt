//! Words of a shell, and command lines of Windows.
ghost use Rattle.std.specs.Prelude.{◌≡◌, true, false, IfOk};
ghost use Rattle.platform_str.specs.Strings.{bytes, string_vec_of};
ghost use Rattle.os_command_line.specs.Shell.{IsRead, language};
ghost use Rattle.os_command_line.specs.ShellWriting.{quoted_word};
ghost use Rattle.os_command_line.specs.Windows.{IsCommandLine, IsTextOf};

use os_command_line::shell::{self, ShellError, Specials, Words};
use os_command_line::windows::{Arguments, CommandLineError, push_argument};
use platform_str::{OsStr, OsString, Platform, Unix, Windows};
use std::alloc::Allocator;

/// The word of a name.
pub fn quote<A: Allocator>(alloc: A, name: OsStr<'_, Unix>) -> Result<OsString<Unix, A>, ShellError>
    ensures { IfOk result (λ word. (string_vec_of word).items ≡ quoted_word (bytes name.entry)) }
{
    shell::quote(alloc, name)
}

/// The words of a line.
pub fn line_words<'l>(line: OsStr<'l, Unix>) -> Words<'l>
    ensures { IsRead (language true false) (bytes line.entry) result }
{
    Words::new(line, Specials::Refused)
}

/// The program's name and the arguments of a line.
pub fn arguments<'l>(line: OsStr<'l, Windows>) -> Arguments<'l>
    ensures { IsCommandLine (⟦<Windows as Platform>⟧.units (bytes line.entry)) result.0 result.1 }
{
    Arguments::new(line)
}

/// The text of an argument.
pub fn argument_text<A: Allocator>(
    alloc: A,
    argument: OsStr<'_, Windows>,
) -> Result<Vec<u16, A>, CommandLineError>
    ensures { IfOk result (λ text.
        IsTextOf text.items (⟦<Windows as Platform>⟧.units (bytes argument.entry))) }
{
    let mut text = Vec::new(alloc);
    push_argument(&mut text, argument)?;
    Ok(text)
}
