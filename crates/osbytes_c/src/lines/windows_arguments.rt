//! The program's name and the arguments of a command line of Windows.
ghost use Rattle.std.specs.Prelude.{◌≡◌, ◌⊎◌, ◌<◌, ◌↔◌, ◌*◌, ◌+◌, ◌^◌, ◌∷◌, ◌++◌, [], length};
ghost use Rattle.wtf8_core.specs.Truncated.{IsTruncated};
ghost use Rattle.wtf8_core.specs.UnitsOf.{units_of};
ghost use Rattle.wtf8_core.specs.Wtf8.{IsWtf8};
ghost use Rattle.platform_str.specs.BufferSink.{Pushes};
ghost use Rattle.os_command_line.specs.ShellWriting.{HasNoNul, IsFirstNul};
ghost use Rattle.os_command_line.specs.WindowsViews.{argument_units};
ghost use Rattle.osbytes_c.specs.Answers.{IsOneOf, IsWritten};
ghost use Rattle.osbytes_c.specs.Faults.{IsWtf8Report};
ghost use Rattle.osbytes_c.specs.Lines.{AreEndedArguments, ended};
ghost use Rattle.osbytes_c.specs.Room.{arguments_room};
ghost use Rattle.osbytes_c.specs.Statuses.{done, faulty, has_nul, no_room, too_long};

use crate::lines::push_unit::push_unit;
use crate::status::fits;
use crate::strings::fault::Fault;
use crate::strings::windows_word;
use os_command_line::windows::{Argument, Arguments};

/// Writes the units of a line's program name and of its arguments into `out`, with a 0 after each,
/// as far as there is room. Counts the units: at most two for each byte of the line, and one. If
/// the bytes aren't a string, the fault is their first one; `index` is that of their first NUL.
#[unsafe(no_mangle)]
pub extern "C" fn osb_core_windows_arguments(
    line: &[u8],
    out: &mut [u16],
    count: &mut usize,
    index: &mut usize,
    fault: &mut Fault,
) -> u32
    ensures written { IsWritten result (AreEndedArguments (units_of line.now)) out.old out.new
        count.new }
    ensures line { (result ≡ done) ⊎ (result ≡ no_room) → IsWtf8 line.now × HasNoNul line.now }
    ensures fault { result ≡ faulty → IsWtf8Report line.now fault.new }
    ensures nul { result ≡ has_nul → IsWtf8 line.now × IsFirstNul line.now index.new }
    ensures long { (result ≡ too_long) ↔ (usize.MAX < 2 * length line.now + 1) }
    ensures answers { IsOneOf (done ∷ faulty ∷ no_room ∷ has_nul ∷ too_long ∷ []) result }
{
    match windows_word(line, usize::MAX / 2, index, fault) {
        Ok(string) => {
            let written = write_arguments(Arguments::new(string), out);
            *count = written;
            fits(written, out.len())
        }
        Err(status) => status,
    }
}

/// Writes the units of a program's name and of arguments with a 0 after each, truncated, and counts
/// them.
fn write_arguments(arguments: Arguments<'_>, out: &mut [u16]) -> usize
    requires { (length arguments.0 + 1) + arguments_room arguments.1 < 2 ^ 64 }
    ensures { IsTruncated (ended (arguments.entry.0 ∷ arguments.entry.1)) out.old out.new result }
{
    let name = arguments.program();
    let mut count = push_argument(name, out, 0);
    for argument in arguments {
        count = push_argument(argument, out, count);
    }
    count
}

/// Appends the units of an argument and a 0.
fn push_argument(argument: Argument<'_>, out: &mut [u16], count: usize) -> usize
    requires { count + (length (argument_units argument) + 1) < 2 ^ 64 }
    ensures { Pushes (argument_units argument.entry ++ 0 ∷ []) out.old count out.new result }
{
    let mut len = count;
    for unit in argument.units() {
        len = push_unit(out, len, unit);
    }
    push_unit(out, len, 0)
}
