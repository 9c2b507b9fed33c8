//! Words of a shell: a command that can be pasted, and variables of flags.
ghost use Rattle.std.specs.Prelude.{map, IfOk};
ghost use Rattle.os_str_bytes.specs.Strings.{bytes, string_vec_of};
ghost use Rattle.os_command_line.specs.Shell.{AreWords};
ghost use Rattle.os_command_line.specs.declared.shell.language.Language.{Language};

use crate::options::report;
use os_command_line::shell::{ShellError, Specials, Words, WordsFault, join, quoted_line};
use os_str_bytes::{OsStr, OsString, Unix};
use std::alloc::{AllocError, Global};
use std::fmt::Write as _;
use std::io;

/// The line that every POSIX shell reads as these words, and nothing else.
pub fn command(alloc: Global, words: &[OsStr<'_, Unix>]) -> Result<OsString<Unix>, ShellError>
    ensures { IfOk result (λ line. (l : Language)
        → AreWords l (string_vec_of line).items (map bytes words.now)) }
{
    join(alloc, words)
}

/// The command that removes files, for a message: whatever is in their names, it is one line, which
/// bash and zsh read.
fn removal(alloc: Global, files: &[OsStr<'_, Unix>]) -> Result<String, AllocError> {
    let mut text = String::from_str(alloc, "rm --")?;
    for file in files {
        match quoted_line(*file) {
            Ok(word) => write!(text, " {word}")?,
            Err(fault) => write!(text, " ({fault})")?,
        }
    }
    Ok(text)
}

/// The flags of a variable, as `CFLAGS`: its words, in which nothing is expanded.
fn flags(
    alloc: Global,
    variable: OsStr<'_, Unix>,
) -> Result<Result<Vec<OsString<Unix>>, WordsFault>, AllocError> {
    let mut flags = Vec::new(alloc);
    for word in Words::new(variable, Specials::Kept) {
        match word {
            Ok(word) => flags.push(word.to_owned(alloc)?)?,
            Err(fault) => return Ok(Err(fault)),
        }
    }
    Ok(Ok(flags))
}

/// Prints the flags of a variable, or why it has none.
fn show_flags(rt: &HostRuntime, variable: OsStr<'_, Unix>) -> io::Result<()> {
    match flags(rt.alloc(), variable)? {
        Ok(flags) => {
            for flag in &flags {
                println!(rt; "flag {}", flag.as_os_str().display())?;
            }
            Ok(())
        }
        Err(fault) => println!(rt; "no flags: {fault}"),
    }
}

/// Prints the options of `pack` that the words of a variable contain.
fn show_options(rt: &HostRuntime, variable: OsStr<'_, Unix>) -> io::Result<()> {
    let Ok(strings) = flags(rt.alloc(), variable)? else {
        return Ok(());
    };
    let mut words = Vec::new(rt.alloc());
    for string in &strings {
        words.push(string.as_os_str())?;
    }
    println!(rt; "{}", report(rt.alloc(), &words)?.as_str())
}

/// Prints two commands that can be pasted, the flags of two variables, and the options of one.
pub fn show(rt: &HostRuntime) -> io::Result<()> {
    let raw = OsStr::from_encoded_bytes_unchecked(b"\xFF.txt");
    let files = [OsStr::new("it's here"), OsStr::new("~root"), raw];
    println!(rt; "{}", removal(rt.alloc(), &files)?.as_str())?;
    let words = [OsStr::new("cp"), OsStr::new("a b"), OsStr::new("")];
    if let Ok(line) = command(rt.alloc(), &words) {
        println!(rt; "{}", line.as_os_str().display())?;
    }
    show_flags(rt, OsStr::new("-O2 -I'my headers' \"-DNAME=a b\""))?;
    show_flags(rt, OsStr::new("-O2 \"-DNAME=a b"))?;
    show_options(rt, OsStr::new("-vt 'my files.zip' \"a b\" c"))
}
