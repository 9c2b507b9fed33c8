//! Arguments and a program's name as the texts of a command line of Windows.
ghost use Rattle.std.specs.Prelude.{◌≡◌, ◌⊎◌, ◌<◌, ◌↔◌, ◌*◌, ◌+◌, ◌^◌, ◌∷◌, [], false, ℕ, List, length};
ghost use Rattle.std.specs.List.{AllByRecursion};
ghost use Rattle.wtf8_core.specs.Truncated.{IsTruncated};
ghost use Rattle.wtf8_core.specs.UnitsOf.{units_of};
ghost use Rattle.wtf8_core.specs.Wtf8.{IsWtf8};
ghost use Rattle.platform_str.specs.Strings.{bytes};
ghost use Rattle.platform_str.specs.BufferSink.{Pushes};
ghost use Rattle.os_command_line.specs.ShellWriting.{HasNoNul, IsFirstNul};
ghost use Rattle.os_command_line.specs.Windows.{IsBlank, IsTextOf, backslashes};
ghost use Rattle.osbytes_c.specs.Answers.{IsOneOf, IsWritten};
ghost use Rattle.osbytes_c.specs.ArgumentWriting.{PushesUnit, PushesUnits};
ghost use Rattle.osbytes_c.specs.CommandLines.{IsArgumentText};
ghost use Rattle.osbytes_c.specs.Faults.{IsWtf8Report};
ghost use Rattle.osbytes_c.specs.Statuses.{done, faulty, has_nul, no_room, too_long};

use crate::lines::push_unit::push_unit;
use crate::status::fits;
use crate::strings::fault::Fault;
use crate::strings::windows_word;
use memchr::memchr2;
use platform_str::{OsStr, Windows};

const BACKSLASH: u16 = 0x5C;

const QUOTE: u16 = 0x22;

/// Writes the text of an argument into `out`, as units, as far as there is room. Counts the units:
/// at most two for each byte of the argument, and two. If the bytes aren't a string, the fault is
/// their first one; `index` is that of their first NUL.
#[unsafe(no_mangle)]
pub extern "C" fn osb_core_windows_quote(
    argument: &[u8],
    out: &mut [u16],
    count: &mut usize,
    index: &mut usize,
    fault: &mut Fault,
) -> u32
    ensures written { IsWritten result (IsArgumentText (units_of argument.now)) out.old out.new
        count.new }
    ensures argument { (result ≡ done) ⊎ (result ≡ no_room)
        → IsWtf8 argument.now × HasNoNul argument.now }
    ensures fault { result ≡ faulty → IsWtf8Report argument.now fault.new }
    ensures nul { result ≡ has_nul → IsWtf8 argument.now × IsFirstNul argument.now index.new }
    ensures long { (result ≡ too_long) ↔ (usize.MAX < 2 * length argument.now + 2) }
    ensures answers { IsOneOf (done ∷ faulty ∷ no_room ∷ has_nul ∷ too_long ∷ []) result }
{
    match windows_word(argument, usize::MAX / 2 - 1, index, fault) {
        Ok(string) => {
            let written = write_argument(string, out);
            *count = written;
            fits(written, out.len())
        }
        Err(status) => status,
    }
}

/// Writes the text of an argument, truncated, and counts its units.
fn write_argument(argument: OsStr<'_, Windows>, out: &mut [u16]) -> usize
    requires { 2 * length (bytes argument) + 2 < 2 ^ 64 }
    ensures { (text : List ℕ) × (IsArgumentText (units_of (bytes argument.entry)) text
        × IsTruncated text out.old out.new result) }
{
    if argument.is_empty() {
        return write_quoted(argument, out);
    }
    if has_blank(argument) {
        return write_quoted(argument, out);
    }
    let (count, _) = push_units(false, argument, out, 0);
    count
}

/// Whether a string has a space or a tab.
fn has_blank(string: OsStr<'_, Windows>) -> bool
    ensures { (result ≡ false)
        ↔ AllByRecursion (λ u. ¬ (IsBlank u)) (units_of (bytes string.entry)) }
{
    match memchr2(b' ', b'\t', string.as_encoded_bytes()) {
        Some(_) => true,
        None => false,
    }
}

/// Writes an argument in quotation marks, truncated, and counts its units.
fn write_quoted(argument: OsStr<'_, Windows>, out: &mut [u16]) -> usize
    requires { 2 * length (bytes argument) + 2 < 2 ^ 64 }
    ensures { (text : List ℕ) × (IsTextOf text (units_of (bytes argument.entry))
        × IsTruncated text out.old out.new result) }
{
    let opened = push_unit(out, 0, QUOTE);
    let (written, run) = push_units(true, argument, out, opened);
    let closing = push_backslashes(out, written, run);
    push_unit(out, closing, QUOTE)
}

/// Appends units of an argument, and returns how many units there are, and how many backslashes are
/// last.
fn push_units(
    inside: bool,
    argument: OsStr<'_, Windows>,
    out: &mut [u16],
    count: usize,
) -> (usize, usize)
    requires room { count + 2 * length (bytes argument) < 2 ^ 64 }
    requires no_blank { inside ≡ false
        → AllByRecursion (λ u. ¬ (IsBlank u)) (units_of (bytes argument)) }
    ensures { PushesUnits inside (units_of (bytes argument.entry)) out.old count out.new result.0
        result.1 }
{
    let mut len = count;
    let mut run = 0;
    for unit in argument.encode_wide() {
        (len, run) = push_escaped(inside, run, unit, out, len);
    }
    (len, run)
}

/// Appends a unit after a run of backslashes. Returns the number of units, and the number of
/// backslashes at the end.
#[inline(always)]
fn push_escaped(
    inside: bool,
    run: usize,
    unit: u16,
    out: &mut [u16],
    count: usize,
) -> (usize, usize)
    requires room { count + (run + 2) < 2 ^ 64 }
    requires no_blank { inside ≡ false → ¬ (IsBlank unit) }
    ensures { PushesUnit inside run unit out.old count out.new result.0 result.1 }
{
    if unit == BACKSLASH {
        return (push_unit(out, count, unit), run + 1);
    }
    if unit == QUOTE {
        let escaped = push_backslashes(out, count, run + 1);
        return (push_unit(out, escaped, unit), 0);
    }
    (push_unit(out, count, unit), 0)
}

/// Appends backslashes.
fn push_backslashes(out: &mut [u16], count: usize, run: usize) -> usize
    requires { count + run < 2 ^ 64 }
    ensures { Pushes (backslashes run) out.old count out.new result }
{
    let mut len = count;
    for _ in 0..run {
        len = push_unit(out, len, BACKSLASH);
    }
    len
}
