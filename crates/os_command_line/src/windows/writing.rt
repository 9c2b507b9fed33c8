//! Command lines, written.
ghost use Rattle.std.specs.Prelude.{◌≡◌, ◌+◌, ◌<◌, ◌≤◌, ◌^◌, ◌++◌, ◌∷◌, false, [], ℕ, List, map, OnOk, OnErr, IfOk, IfErr};
ghost use Rattle.std.specs.List.{AllByRecursion};
ghost use Rattle.wtf8_core.specs.UnitsOf.{units_of};
ghost use Rattle.platform_str.specs.Strings.{bytes};
ghost use Rattle.os_command_line.specs.Windows.{IsBlank, backslashes, IsPlain, IsTextOf, IsCommandLine};
ghost use Rattle.os_command_line.specs.WindowsWriting.{HasNo, IsAddedFor, IsWritten, IsArgumentFault, IsCommandLineFault, IsWritableName, argument_text, escaped, in_marks, line_text};

use crate::windows::checks::{first_at, has_no_blank};
use crate::windows::error::CommandLineError;
use platform_str::{OsStr, Platform, Windows, string_at};
use std::alloc::{AllocError, Allocator};

const BACKSLASH: u16 = 0x5C;

const QUOTE: u16 = 0x22;

const SPACE: u16 = 0x20;

/// Appends the text of an argument to a command line, from which a program reads the argument again
/// and nothing else, whatever blank or end comes after it (std's `Command::arg` on Windows).
///
/// An argument that isn't empty and has no space and no tab is written as it is, but for
/// quotation marks; any other in quotation marks. Before a quotation mark that belongs to the
/// argument the backslashes are doubled and one more is written, and before a closing mark they are
/// doubled. The space that separates arguments is the caller's. The line is a vector of units, as
/// `CreateProcessW` takes it; a program's name has other rules ([`command_line`]).
///
/// A program that is linked with `setargv.obj`, or with MinGW's `_dowildcard`, expands `*` and `?` in
/// an argument without quotation marks, as `*.txt`.
///
/// cmd.exe reads a line by rules of its own, and in it `%NAME%` can't be quoted: nothing here
/// writes for a batch file.
///
/// # Errors
///
/// `Nul` with the index of the first NUL of the argument, `Memory` if an allocation fails. The line
/// is then as it was.
///
/// ```
/// use os_command_line::windows::{CommandLineError, push_argument};
/// use os_str_bytes::{OsStr, OsString, Windows};
///
/// let mut line = Vec::new(alloc);
/// push_argument(&mut line, OsStr::<Windows>::new("a b\\"))?;
/// let text = OsString::<Windows>::from_wide(alloc, &line)?;
/// assert!(rt; text.as_os_str() == OsStr::new("\"a b\\\\\""));
/// let fault = push_argument(&mut line, OsStr::<Windows>::new("a\0"));
/// assert_eq!(rt; fault, Err(CommandLineError::Nul(1)));
/// ```
pub fn push_argument<A: Allocator>(
    line: &mut Vec<u16, A>,
    argument: OsStr<'_, Windows>,
) -> Result<(), CommandLineError>
    ensures written { OnOk result (line.new.items ≡ line.old.items
        ++ argument_text (⟦<Windows as Platform>⟧.units (bytes argument.entry))) }
    ensures text { OnOk result ((text : List ℕ) × (line.new.items ≡ line.old.items ++ text)
        × IsTextOf text (⟦<Windows as Platform>⟧.units (bytes argument.entry))) }
    ensures plain { OnOk result (IsPlain (⟦<Windows as Platform>⟧.units (bytes argument.entry))
        → line.new.items
        ≡ line.old.items ++ ⟦<Windows as Platform>⟧.units (bytes argument.entry)) }
    ensures no_nul { OnOk result (HasNo 0 (⟦<Windows as Platform>⟧.units (bytes argument.entry))) }
    ensures fault { IfErr result
        (λ fault. IsArgumentFault (⟦<Windows as Platform>⟧.units (bytes argument.entry)) fault) }
    ensures unchanged { OnErr result (line.new.items ≡ line.old.items) }
{
    if let Some(index) = first_at(argument, 0) {
        return Err(CommandLineError::Nul(index));
    }
    let len = line.len();
    match push_text(line, argument) {
        Ok(()) => Ok(()),
        Err(_) => {
            line.truncate(len);
            Err(CommandLineError::Memory)
        }
    }
}

/// Returns the command line of a program with these arguments (std's `Command` on Windows). It is
/// the name in quotation marks, and each argument after a space, as [`push_argument`] writes it. A
/// program reads this name and these arguments from it.
///
/// # Errors
///
/// - `Nul` with the index of the first NUL of the name, or else of the first argument that has one.
/// - `Quote` with the index of the first quotation mark of the name, which can't be written there.
/// - `Memory` if an allocation fails.
///
/// ```
/// use os_command_line::windows::command_line;
/// use os_str_bytes::{OsStr, OsString, Windows};
///
/// let arguments = [OsStr::<Windows>::new("a b"), OsStr::new(""), OsStr::new("-x")];
/// let line = command_line(alloc, OsStr::<Windows>::new("E"), &arguments)?;
/// let text = OsString::<Windows>::from_wide(alloc, &line)?;
/// assert!(rt; text.as_os_str() == OsStr::new("\"E\" \"a b\" \"\" -x"));
/// ```
pub fn command_line<A: Allocator>(
    alloc: A,
    program: OsStr<'_, Windows>,
    arguments: &[OsStr<'_, Windows>],
) -> Result<Vec<u16, A>, CommandLineError>
    ensures written { IfOk result (λ line. line.items
        ≡ line_text (⟦<Windows as Platform>⟧.units (bytes program.entry))
        (map (λ a. ⟦<Windows as Platform>⟧.units (bytes a)) arguments.now)) }
    ensures line { IfOk result (λ line. IsCommandLine line.items
        (⟦<Windows as Platform>⟧.units (bytes program.entry))
        (map (λ a. ⟦<Windows as Platform>⟧.units (bytes a)) arguments.now)) }
    ensures no_nul { OnOk result (IsWritableName (units_of (bytes program.entry))
        × AllByRecursion (HasNo 0) (map (λ a. units_of (bytes a)) arguments.now)) }
    ensures fault { IfErr result (λ fault. IsCommandLineFault
        (⟦<Windows as Platform>⟧.units (bytes program.entry))
        (map (λ a. ⟦<Windows as Platform>⟧.units (bytes a)) arguments.now) fault) }
{
    if let Some(index) = first_at(program, 0) {
        return Err(CommandLineError::Nul(index));
    }
    if let Some(index) = first_at(program, b'"') {
        return Err(CommandLineError::Quote(index));
    }
    let mut line = Vec::new(alloc);
    push_name(&mut line, program)?;
    let mut index = 0;
    while let Some(argument) = string_at(arguments, index) {
        push_one(&mut line, SPACE)?;
        match push_argument(&mut line, argument) {
            Ok(()) => {}
            Err(fault) => return Err(fault),
        }
        index += 1;
    }
    Ok(line)
}

/// Appends a program's name in quotation marks.
fn push_name<A: Allocator>(
    line: &mut Vec<u16, A>,
    program: OsStr<'_, Windows>,
) -> Result<(), AllocError>
    ensures { OnOk result (line.new.items
        ≡ line.old.items ++ 0x22 ∷ (units_of (bytes program.entry) ++ 0x22 ∷ [])) }
{
    push_one(line, QUOTE)?;
    for unit in program.encode_wide() {
        push_one(line, unit)?;
    }
    push_one(line, QUOTE)?;
    Ok(())
}

/// Appends an argument, in quotation marks where it is empty or has a blank.
fn push_text<A: Allocator>(
    line: &mut Vec<u16, A>,
    argument: OsStr<'_, Windows>,
) -> Result<(), AllocError>
    ensures written { OnOk result
        (line.new.items ≡ line.old.items ++ argument_text (units_of (bytes argument.entry))) }
    ensures grows { (more : List ℕ) × (line.new.items ≡ line.old.items ++ more) }
{
    line.reserve(argument.len().saturating_add(2))?;
    if argument.is_empty() {
        push_quoted(line, argument)?;
        return Ok(());
    }
    if has_no_blank(argument) {
        push_bare(line, argument)?;
        return Ok(());
    }
    push_quoted(line, argument)?;
    Ok(())
}

/// Appends an argument in quotation marks.
fn push_quoted<A: Allocator>(
    line: &mut Vec<u16, A>,
    argument: OsStr<'_, Windows>,
) -> Result<(), AllocError>
    ensures written { OnOk result
        (line.new.items ≡ line.old.items ++ in_marks (units_of (bytes argument.entry))) }
    ensures grows { (more : List ℕ) × (line.new.items ≡ line.old.items ++ more) }
{
    push_one(line, QUOTE)?;
    let run = push_units(line, true, argument)?;
    push_backslashes(line, run)?;
    push_one(line, QUOTE)?;
    Ok(())
}

/// Appends an argument without quotation marks around it.
#[tactic(auto, using(crate::proofs::lemmas::WindowsWriting::bare_new))]
fn push_bare<A: Allocator>(
    line: &mut Vec<u16, A>,
    argument: OsStr<'_, Windows>,
) -> Result<(), AllocError>
    requires { AllByRecursion (λ u. ¬ (IsBlank u)) (units_of (bytes argument)) }
    ensures written { OnOk result
        (line.new.items ≡ line.old.items ++ escaped false (units_of (bytes argument.entry))) }
    ensures grows { (more : List ℕ) × (line.new.items ≡ line.old.items ++ more) }
{
    push_units(line, false, argument)?;
    Ok(())
}

/// Appends units of an argument, and returns how many backslashes are last.
fn push_units<A: Allocator>(
    line: &mut Vec<u16, A>,
    inside: bool,
    argument: OsStr<'_, Windows>,
) -> Result<usize, AllocError>
    requires { inside ≡ false → AllByRecursion (λ u. ¬ (IsBlank u)) (units_of (bytes argument)) }
    ensures written { IfOk result (λ run. IsWritten inside line.old.items line.new.items run
        (units_of (bytes argument.entry))) }
    ensures grows { (more : List ℕ) × (line.new.items ≡ line.old.items ++ more) }
{
    let _ = argument.len();
    let mut run = 0;
    for unit in argument.encode_wide() {
        run = push_unit(line, inside, run, unit)?;
    }
    Ok(run)
}

/// Appends a unit after a run of backslashes, and returns the length of the run at the end now.
#[inline(always)]
fn push_unit<A: Allocator>(
    line: &mut Vec<u16, A>,
    inside: bool,
    run: usize,
    unit: u16,
) -> Result<usize, AllocError>
    requires room { run + 1 < 2 ^ 64 }
    requires no_blank { inside ≡ false → ¬ (IsBlank unit) }
    ensures added { IfOk result (λ next. (added : List ℕ)
        × (line.new.items ≡ line.old.items ++ added) × IsAddedFor inside run unit added next
        × (next ≤ run + 1)) }
    ensures grows { (more : List ℕ) × (line.new.items ≡ line.old.items ++ more) }
{
    if unit == BACKSLASH {
        push_one(line, unit)?;
        return Ok(run + 1);
    }
    if unit == QUOTE {
        push_backslashes(line, run + 1)?;
        push_one(line, unit)?;
        return Ok(0);
    }
    push_one(line, unit)?;
    Ok(0)
}

/// Appends a unit.
#[inline(always)]
fn push_one<A: Allocator>(line: &mut Vec<u16, A>, unit: u16) -> Result<(), AllocError>
    ensures pushed { OnOk result (line.new.items ≡ line.old.items ++ unit ∷ []) }
    ensures unchanged { OnErr result (line.new.items ≡ line.old.items) }
{
    line.push(unit)?;
    Ok(())
}

/// Appends backslashes.
fn push_backslashes<A: Allocator>(line: &mut Vec<u16, A>, count: usize) -> Result<(), AllocError>
    ensures pushed { OnOk result (line.new.items ≡ line.old.items ++ backslashes count) }
    ensures grows { (more : List ℕ) × (line.new.items ≡ line.old.items ++ more) }
{
    for _ in 0..count {
        push_one(line, BACKSLASH)?;
    }
    Ok(())
}
