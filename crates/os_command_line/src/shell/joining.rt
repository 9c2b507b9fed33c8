//! Words joined into a line.
ghost use Rattle.std.specs.Prelude.{◌≡◌, ◌++◌, ◌∷◌, ◌+◌, ◌<◌, [], map, IfOk, IfErr, OnOk};
ghost use Rattle.std.specs.List.{AllByRecursion};
ghost use Rattle.platform_str.specs.Strings.{bytes, string_vec_of};
ghost use Rattle.os_command_line.specs.ReservedWords.{line_words};
ghost use Rattle.os_command_line.specs.Shell.{AreWords};
ghost use Rattle.os_command_line.specs.ShellCharacters.{IsCharacterLine};
ghost use Rattle.os_command_line.specs.declared.shell.language.Language.{Language};
ghost use Rattle.os_command_line.specs.ShellWriting.{HasNoNul, IsFirstNameFault, after_first, join_words, quoted_word};

use crate::shell::error::ShellError;
use crate::shell::owned::{push_first, push_next, unix_string};
use platform_str::{OsStr, OsString, Unix, string_at};
use std::alloc::{AllocError, Allocator};

/// Returns a line of the words of these names ([`quote`](crate::shell::quote)), separated by
/// spaces. A shell reads these names from it. The line of no names is empty. (The crates shlex and
/// shell-words have `join` for texts.) It is for scripts, `eval` and `sh -c`: a line with control
/// characters isn't safe to paste at a prompt ([`quoted`](crate::shell::quoted)).
///
/// A shell takes the first word for the command. A name that some shell wouldn't run there, as
/// `if`, `time` or `select`, is quoted in that position alone. A quoted word is neither a reserved
/// word nor an alias (POSIX.1-2024, Shell Command Language, 2.4 and 2.3.1). Quoted there are the
/// reserved words of POSIX, bash, ksh93, mksh, zsh, busybox and yash, the aliases that mksh and zsh
/// begin with, and each name that ends with a colon. A builtin of the shell, as `cd` or zsh's
/// `noglob`, is still run when it is quoted, and so is a function. An alias that a user defined
/// isn't known here.
///
/// # Errors
///
/// `Nul` with the index of the first NUL of the first name that has one, `Memory` if an allocation
/// fails.
///
/// ```
/// use os_command_line::shell::join;
/// use os_str_bytes::{OsStr, Unix};
///
/// let names = [OsStr::<Unix>::new("cp"), OsStr::new("a b"), OsStr::new("")];
/// let line = join(alloc, &names)?;
/// assert!(rt; line.as_os_str() == OsStr::new("cp 'a b' ''"));
/// let line = join(alloc, &[OsStr::<Unix>::new("time"), OsStr::new("time")])?;
/// assert!(rt; line.as_os_str() == OsStr::new("'time' time"));
/// ```
pub fn join<A: Allocator>(
    alloc: A,
    names: &[OsStr<'_, Unix>],
) -> Result<OsString<Unix, A>, ShellError>
    ensures line { IfOk result (λ line. (string_vec_of line).items
        ≡ join_words (line_words (map bytes names.now))) }
    ensures read { IfOk result (λ line. (l : Language)
        → AreWords l (string_vec_of line).items (map bytes names.now)) }
    ensures characters { IfOk result (λ line. (l : Language)
        → IsCharacterLine l (string_vec_of line).items (map bytes names.now)) }
    ensures no_nul { OnOk result (AllByRecursion HasNoNul (map bytes names.now)) }
    ensures fault { IfErr result (λ fault. IsFirstNameFault (map bytes names.now) fault) }
{
    let mut line = Vec::new(alloc);
    let Some((first, others)) = names.split_first() else {
        return Ok(unix_string(line));
    };
    match push_first(&mut line, *first) {
        Ok(()) => {}
        Err(fault) => return Err(fault),
    }
    match push_after(&mut line, others) {
        Ok(()) => Ok(unix_string(line)),
        Err(fault) => Err(fault),
    }
}

/// Appends the words of names, a space before each.
fn push_after<A: Allocator>(
    line: &mut Vec<u8, A>,
    names: &[OsStr<'_, Unix>],
) -> Result<(), ShellError>
    ensures line { OnOk result (line.new.items
        ≡ line.old.items ++ after_first (map quoted_word (map bytes names.now))) }
    ensures no_nul { OnOk result (AllByRecursion HasNoNul (map bytes names.now)) }
    ensures fault { IfErr result (λ fault. IsFirstNameFault (map bytes names.now) fault) }
{
    let mut index = 0;
    while let Some(name) = string_at(names, index) {
        push_space(line)?;
        push_next(line, name)?;
        index += 1;
    }
    Ok(())
}

/// Appends a space.
fn push_space<A: Allocator>(line: &mut Vec<u8, A>) -> Result<(), AllocError>
    ensures { OnOk result (line.new.items ≡ line.old.items ++ 0x20 ∷ []) }
{
    line.push(b' ')?;
    Ok(())
}
