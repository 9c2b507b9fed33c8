//! Programs that Windows starts cmd.exe for.
ghost use Rattle.std.specs.Prelude.{◌≡◌, ◌↔◌, ◌⊎◌, ◌≤◌, true, false, IsTrue};
ghost use Rattle.wtf8_core.specs.UnitsOf.{units_of};
ghost use Rattle.platform_str.specs.Strings.{bytes};
ghost use Rattle.os_command_line.specs.WindowsBatch.{EndsAsBatch, EndsInDots, IsBatchExtension, IsDropped, IsLetter, IsVerbatim, NeedsCmd, is_separator};
ghost use Rattle.os_command_line.specs.WindowsSteps.{BeginsVerbatim, TakesUnit};

use platform_str::{OsStr, Platform, WideUnits, Windows};

/// Whether a program is or may be a batch file by its path, so that Windows starts cmd.exe for it.
/// Such a path ends in `.bat` or `.cmd`, in upper or lower case (std's `Command` on Windows).
///
/// Full stops and spaces at the end don't count, since Windows drops them. They count in a verbatim
/// path, which begins with `\\?\` or `\??\`.
///
/// It is also true if the last component has only full stops and spaces, as in `x.bat\.` and
/// `x.cmd\d\..`. Windows starts `x.bat` and `x.cmd` for these, and only the full path shows it. std
/// tests the full path (`GetFullPathNameW`), in which `.` and `..` are already resolved.
///
/// [`command_line`](crate::windows::command_line) isn't for such a program: cmd.exe reads the line
/// before the batch file does, by rules of its own. It replaces `%NAME%` by the value of a
/// variable, in quotation marks too, and nothing quotes the `%`. So an argument with a `%` can't be
/// written in a line that is sure to be read as it. Nothing here writes a line for cmd.exe.
///
/// ```
/// use os_command_line::windows::needs_cmd;
/// use os_str_bytes::{OsStr, Windows};
///
/// assert!(rt; needs_cmd(OsStr::<Windows>::new("C:\\tools\\build.BAT")));
/// assert!(rt; needs_cmd(OsStr::<Windows>::new("build.cmd. .")));
/// assert!(rt; !needs_cmd(OsStr::<Windows>::new("\\\\?\\C:\\build.cmd.")));
/// assert!(rt; !needs_cmd(OsStr::<Windows>::new("build.bat.exe")));
/// assert!(rt; needs_cmd(OsStr::<Windows>::new("C:\\tools\\build.bat\\.")));
/// ```
pub fn needs_cmd(program: OsStr<'_, Windows>) -> bool
    ensures { IsTrue result ↔ NeedsCmd (⟦<Windows as Platform>⟧.units (bytes program.entry)) }
{
    let verbatim = is_verbatim(program);
    let batch = ends_in_batch(verbatim, program);
    let dots = ends_in_dots(verbatim, program);
    batch | dots
}

/// Whether the last component of a path has only units that are dropped.
fn ends_in_dots(verbatim: bool, path: OsStr<'_, Windows>) -> bool
    requires { IsTrue verbatim ↔ IsVerbatim (units_of (bytes path)) }
    ensures { IsTrue result
        ↔ EndsInDots (IsDropped (units_of (bytes path.entry))) true (units_of (bytes path.entry)) }
{
    let mut first = true;
    let mut dots = false;
    for unit in path.encode_wide() {
        let dropped = is_dropped(verbatim, unit);
        dots = (first | dots) & dropped;
        first = is_separator(unit);
    }
    dots
}

/// Whether a unit is `\` or `/`.
fn is_separator(unit: u16) -> bool
    ensures { result ≡ is_separator unit }
{
    unit == 0x5C || unit == 0x2F
}

/// Whether a path ends in the extension of a batch file and units that are dropped.
fn ends_in_batch(verbatim: bool, program: OsStr<'_, Windows>) -> bool
    requires { IsTrue verbatim ↔ IsVerbatim (units_of (bytes program)) }
    ensures { IsTrue result
        ↔ EndsAsBatch (IsDropped (units_of (bytes program.entry))) (units_of (bytes program.entry)) }
{
    let mut dot = 0;
    let mut first = 0;
    let mut second = 0;
    let mut is_batch = false;
    for unit in program.encode_wide() {
        if !is_dropped(verbatim, unit) {
            is_batch = ends_as_batch(dot, first, second, unit);
        }
        dot = first;
        first = second;
        second = unit;
    }
    is_batch
}

/// Whether a path is verbatim. Unlike a path with a prefix of `path_rules`, it may also begin with
/// `\??\`.
fn is_verbatim(path: OsStr<'_, Windows>) -> bool
    ensures { IsTrue result ↔ IsVerbatim (units_of (bytes path.entry)) }
{
    let mut units = path.encode_wide();
    let first = take_unit(&mut units);
    let second = take_unit(&mut units);
    let third = take_unit(&mut units);
    let fourth = take_unit(&mut units);
    begins_verbatim(first, second, third, fourth)
}

/// The next unit, or 0 where there is none.
fn take_unit(units: &mut WideUnits<'_>) -> u16
    ensures { TakesUnit units.old result units.new }
{
    match units.next() {
        Some(unit) => unit,
        None => 0,
    }
}

/// Whether a path that begins with four units is verbatim.
fn begins_verbatim(first: u16, second: u16, third: u16, fourth: u16) -> bool
    ensures { IsTrue result ↔ BeginsVerbatim first second third fourth }
{
    first == 0x5C && (second == 0x5C || second == 0x3F) && third == 0x3F && fourth == 0x5C
}

/// Whether a unit is dropped where a path ends with it.
fn is_dropped(verbatim: bool, unit: u16) -> bool
    ensures { IsTrue result ↔ ((verbatim ≡ false) × ((unit ≡ 0x2E) ⊎ (unit ≡ 0x20))) }
{
    !verbatim && (unit == 0x2E || unit == 0x20)
}

/// Whether four units are a full stop and the extension of a batch file.
fn ends_as_batch(dot: u16, first: u16, second: u16, third: u16) -> bool
    ensures { IsTrue result ↔ ((dot ≡ 0x2E) × IsBatchExtension first second third) }
{
    dot == 0x2E && is_batch_extension(first, second, third)
}

/// Whether three units are the extension of a batch file.
fn is_batch_extension(first: u16, second: u16, third: u16) -> bool
    ensures { IsTrue result ↔ IsBatchExtension first second third }
{
    is_letter(first, 0x62) && is_letter(second, 0x61) && is_letter(third, 0x74)
        || is_letter(first, 0x63) && is_letter(second, 0x6D) && is_letter(third, 0x64)
}

/// Whether a unit is a letter that is given in lower case, in either case.
fn is_letter(unit: u16, lower: u16) -> bool
    requires { 0x61 ≤ lower }
    ensures { IsTrue result ↔ IsLetter lower unit }
{
    unit == lower || unit == lower - 0x20
}
