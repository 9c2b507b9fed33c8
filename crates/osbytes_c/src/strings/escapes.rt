//! Escapes, plain and on one line. Each form has a function, since `os_quote` defines each: what
//! would be saved by one function for both would go into a definition for both.
ghost use Rattle.std.specs.Prelude.{◌≡◌, ◌⊎◌, ◌<◌, ◌↔◌, ◌*◌, ◌∷◌, [], length};
ghost use Rattle.platform_str.specs.Strings.{bytes};
ghost use Rattle.os_quote.specs.Escape.{IsEscape, IsLineEscape};
ghost use Rattle.osbytes_c.specs.Answers.{IsOneOf, IsWritten};
ghost use Rattle.osbytes_c.specs.Faults.{IsString, IsReport};
ghost use Rattle.osbytes_c.specs.Platforms.{units_on};
ghost use Rattle.osbytes_c.specs.Statuses.{done, faulty, no_platform, no_room, too_long};

use crate::on_platform::on_string;
use crate::status::{TOO_LONG, fits};
use crate::strings::fault::Fault;
use os_quote::{write_escape, write_escape_line};
use platform_str::{OsStr, Platform};

/// Writes the escape of a string of a platform into `out`, as far as there is room, and counts its
/// bytes: at most six for each byte of the string. If the bytes aren't a string of the platform,
/// the fault is their first one.
#[unsafe(no_mangle)]
pub extern "C" fn osb_core_escape(
    platform: u32,
    bytes: &[u8],
    out: &mut [u8],
    count: &mut usize,
    fault: &mut Fault,
) -> u32
    ensures written { IsWritten result (IsEscape (units_on platform) bytes.now) out.old out.new
        count.new }
    ensures fault { result ≡ faulty → IsReport platform bytes.now fault.new }
    ensures string { (result ≡ done) ⊎ (result ≡ no_room) → IsString platform bytes.now }
    ensures long { (result ≡ too_long) ↔ (IsString platform bytes.now
        × (usize.MAX < 6 * length bytes.now)) }
    ensures platform { (result ≡ no_platform) ↔ (2 < platform) }
    ensures answers { IsOneOf (done ∷ no_room ∷ faulty ∷ too_long ∷ no_platform ∷ []) result }
{
    on_string!(platform, bytes, fault, string => escape(string, out, count))
}

/// Writes the escape of a string of a platform on one line, and counts its bytes, as
/// `osb_core_escape` does.
#[unsafe(no_mangle)]
pub extern "C" fn osb_core_escape_line(
    platform: u32,
    bytes: &[u8],
    out: &mut [u8],
    count: &mut usize,
    fault: &mut Fault,
) -> u32
    ensures written { IsWritten result (IsLineEscape (units_on platform) bytes.now) out.old out.new
        count.new }
    ensures fault { result ≡ faulty → IsReport platform bytes.now fault.new }
    ensures string { (result ≡ done) ⊎ (result ≡ no_room) → IsString platform bytes.now }
    ensures long { (result ≡ too_long) ↔ (IsString platform bytes.now
        × (usize.MAX < 6 * length bytes.now)) }
    ensures platform { (result ≡ no_platform) ↔ (2 < platform) }
    ensures answers { IsOneOf (done ∷ no_room ∷ faulty ∷ too_long ∷ no_platform ∷ []) result }
{
    on_string!(platform, bytes, fault, string => escape_line(string, out, count))
}

/// The escape of a string.
fn escape<E: Platform>(string: OsStr<'_, E>, out: &mut [u8], count: &mut usize) -> u32
    ensures written { IsWritten result (IsEscape E.units (bytes string.entry)) out.old out.new
        count.new }
    ensures long { (result ≡ too_long) ↔ (usize.MAX < 6 * length (bytes string.entry)) }
    ensures answers { IsOneOf (done ∷ no_room ∷ too_long ∷ []) result }
{
    if string.len() > usize::MAX / 6 {
        return TOO_LONG;
    }
    let written = write_escape(string, out);
    *count = written;
    fits(written, out.len())
}

/// The escape on one line.
fn escape_line<E: Platform>(string: OsStr<'_, E>, out: &mut [u8], count: &mut usize) -> u32
    ensures written { IsWritten result (IsLineEscape E.units (bytes string.entry)) out.old out.new
        count.new }
    ensures long { (result ≡ too_long) ↔ (usize.MAX < 6 * length (bytes string.entry)) }
    ensures answers { IsOneOf (done ∷ no_room ∷ too_long ∷ []) result }
{
    if string.len() > usize::MAX / 6 {
        return TOO_LONG;
    }
    let written = write_escape_line(string, out);
    *count = written;
    fits(written, out.len())
}
