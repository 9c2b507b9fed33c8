//! Command lines for other programs.
ghost use Rattle.std.specs.Prelude.{map, IfOk};
ghost use Rattle.os_str_bytes.specs.Strings.{bytes};
ghost use Rattle.os_command_line.specs.Windows.{IsCommandLine};

use crate::options::Options;
use os_command_line::shell::quoted_powershell;
use os_command_line::windows::{Arguments, CommandLineError, command_line, needs_cmd};
use os_str_bytes::{OsStr, OsString, Platform, Windows};
use std::alloc::{AllocError, Global};
use std::io;

/// Why a program isn't started.
#[derive(Clone, Copy)]
pub enum Rejection {
    /// cmd.exe would read the line, and nothing quotes a `%` there.
    BatchFile,
    /// There is no line.
    Line(CommandLineError),
}

/// The line with which a program of Windows is started.
pub fn line_for(
    alloc: Global,
    program: OsStr<'_, Windows>,
    arguments: &[OsStr<'_, Windows>],
) -> Result<Vec<u16>, Rejection>
    ensures { IfOk result (λ line. IsCommandLine line.items
        (⟦<Windows as Platform>⟧.units (bytes program.entry))
        (map (λ a. ⟦<Windows as Platform>⟧.units (bytes a)) arguments.now)) }
{
    if needs_cmd(program) {
        return Err(Rejection::BatchFile);
    }
    match command_line(alloc, program, arguments) {
        Ok(line) => Ok(line),
        Err(fault) => Err(Rejection::Line(fault)),
    }
}

/// The line with which a program is started, or why it isn't, as a text.
fn report(
    alloc: Global,
    program: OsStr<'_, Windows>,
    arguments: &[OsStr<'_, Windows>],
) -> Result<String, AllocError> {
    match line_for(alloc, program, arguments) {
        Ok(line) => {
            let line = OsString::<Windows>::from_wide(alloc, &line)?;
            let shown = line.as_os_str().display();
            format!(in alloc; "{shown}")
        }
        Err(Rejection::BatchFile) => String::from_str(alloc, "not started: a batch file"),
        Err(Rejection::Line(CommandLineError::Nul(index))) => {
            format!(in alloc; "not started: a NUL at {index}")
        }
        Err(Rejection::Line(CommandLineError::Quote(index))) => {
            format!(in alloc; "not started: a quotation mark at {index}")
        }
        Err(Rejection::Line(CommandLineError::Memory)) => Err(AllocError),
    }
}

/// Returns the number of files that a command line of Windows names for `pack`, whose options
/// [`Options`] reads, or `None` if its arguments are rejected.
fn packed_by(alloc: Global, line: OsStr<'_, Windows>) -> Result<Option<usize>, AllocError> {
    let mut strings = Vec::new(alloc);
    for argument in Arguments::new(line) {
        strings.push(argument.to_owned(alloc)?)?;
    }
    let mut words = Vec::new(alloc);
    for string in &strings {
        words.push(string.as_os_str())?;
    }
    match Options::parse(alloc, &mut os_args::Arguments::new(&words)) {
        Ok(options) => Ok(Some(options.files.len())),
        Err(_) => Ok(None),
    }
}

/// Prints the lines of some programs, the options of one, and a command that can be pasted into
/// PowerShell.
pub fn show(rt: &HostRuntime) -> io::Result<()> {
    let arguments = [
        OsStr::new("a b"),
        OsStr::new(""),
        OsStr::new("say \"hi\"\\"),
    ];
    for program in ["C:\\my tools\\run.exe", "C:\\build.cmd", "a\"b"] {
        let line = report(rt.alloc(), OsStr::new(program), &arguments)?;
        println!(rt; "{}", line.as_str())?;
    }
    let line = OsStr::new("pack.exe -t \"my files.zip\" \"a b\" c");
    if let Some(count) = packed_by(rt.alloc(), line)? {
        println!(rt; "{count} files of a command line")?;
    }
    if let Ok(quoted) = quoted_powershell(OsStr::new("it's $new.txt")) {
        println!(rt; "Remove-Item -LiteralPath {quoted}")?;
    }
    Ok(())
}
