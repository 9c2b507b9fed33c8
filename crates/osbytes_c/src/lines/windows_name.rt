//! A program's name as the start of a command line of Windows.
ghost use Rattle.std.specs.Prelude.{◌≡◌, ◌⊎◌, ◌<◌, ◌↔◌, ◌*◌, ◌+◌, ◌^◌, ◌∷◌, [], length, MatchOption};
ghost use Rattle.wtf8_core.specs.Truncated.{IsTruncated};
ghost use Rattle.wtf8_core.specs.UnitsOf.{units_of};
ghost use Rattle.wtf8_core.specs.Wtf8.{IsWtf8};
ghost use Rattle.platform_str.specs.Strings.{bytes};
ghost use Rattle.os_command_line.specs.ShellWriting.{HasNoNul, IsFirstNul};
ghost use Rattle.os_command_line.specs.Windows.{quote};
ghost use Rattle.os_command_line.specs.WindowsWriting.{HasNo, IsFirstAt};
ghost use Rattle.osbytes_c.specs.Answers.{IsOneOf, IsWritten};
ghost use Rattle.osbytes_c.specs.CommandLines.{quoted_name};
ghost use Rattle.osbytes_c.specs.Faults.{IsWtf8Report};
ghost use Rattle.osbytes_c.specs.Statuses.{done, faulty, has_nul, has_quote, no_room, too_long};

use crate::lines::push_unit::push_unit;
use crate::status::{HAS_QUOTE, fits};
use crate::strings::fault::Fault;
use crate::strings::windows_word;
use memchr::memchr;
use platform_str::{OsStr, Windows};

const QUOTE: u16 = 0x22;

/// Writes a program's name in quotation marks into `out`, as units, as far as there is room. Counts
/// the units: at most one for each byte of the name, and two. If the bytes aren't a string, the
/// fault is their first one; `index` is that of their first NUL, or of the first quotation mark.
#[unsafe(no_mangle)]
pub extern "C" fn osb_core_windows_quote_name(
    name: &[u8],
    out: &mut [u16],
    count: &mut usize,
    index: &mut usize,
    fault: &mut Fault,
) -> u32
    ensures written { IsWritten result (λ text. text ≡ quoted_name (units_of name.now)) out.old
        out.new count.new }
    ensures name { (result ≡ done) ⊎ (result ≡ no_room)
        → IsWtf8 name.now × (HasNoNul name.now × HasNo quote (units_of name.now)) }
    ensures fault { result ≡ faulty → IsWtf8Report name.now fault.new }
    ensures nul { result ≡ has_nul → IsWtf8 name.now × IsFirstNul name.now index.new }
    ensures quote { result ≡ has_quote → IsWtf8 name.now × (HasNoNul name.now
        × IsFirstAt quote name.now index.new) }
    ensures long { (result ≡ too_long) ↔ (usize.MAX < 2 * length name.now + 2) }
    ensures answers { IsOneOf
        (done ∷ faulty ∷ no_room ∷ has_nul ∷ has_quote ∷ too_long ∷ []) result }
{
    let string = match windows_word(name, usize::MAX / 2 - 1, index, fault) {
        Ok(string) => string,
        Err(status) => return status,
    };
    if let Some(at) = first_quote(name) {
        *index = at;
        return HAS_QUOTE;
    }
    let written = write_name(string, out);
    *count = written;
    fits(written, out.len())
}

/// The index of the first quotation mark.
fn first_quote(raw: &[u8]) -> Option<usize>
    ensures { MatchOption result (HasNo quote raw.now) (λ index. IsFirstAt quote raw.now index) }
{
    memchr(b'"', raw)
}

/// Writes a name in quotation marks, truncated, and counts its units.
fn write_name(name: OsStr<'_, Windows>, out: &mut [u16]) -> usize
    requires { length (bytes name) + 2 < 2 ^ 64 }
    ensures { IsTruncated (quoted_name (units_of (bytes name.entry))) out.old out.new result }
{
    let mut count = push_unit(out, 0, QUOTE);
    for unit in name.encode_wide() {
        count = push_unit(out, count, unit);
    }
    push_unit(out, count, QUOTE)
}
