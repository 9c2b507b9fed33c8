//! Lossy texts.
ghost use Rattle.std.specs.Prelude.{◌≡◌, ◌⊎◌, ◌<◌, ◌↔◌, ◌*◌, ◌∷◌, [], length};
ghost use Rattle.platform_str.specs.Strings.{bytes};
ghost use Rattle.osbytes_c.specs.Answers.{IsOneOf, IsWritten};
ghost use Rattle.osbytes_c.specs.Faults.{IsString, IsReport};
ghost use Rattle.osbytes_c.specs.Platforms.{lossy_on};
ghost use Rattle.osbytes_c.specs.Statuses.{done, faulty, no_platform, no_room, too_long};

use crate::on_platform::on_string;
use crate::status::{TOO_LONG, fits};
use crate::strings::fault::Fault;
use platform_str::{OsStr, Platform};

/// Writes the lossy text of a string of a platform into `out`, as far as there is room, and counts
/// its bytes: at most three for each byte of the string. If the bytes aren't a string of the
/// platform, the fault is their first one.
#[unsafe(no_mangle)]
pub extern "C" fn osb_core_lossy(
    platform: u32,
    bytes: &[u8],
    out: &mut [u8],
    count: &mut usize,
    fault: &mut Fault,
) -> u32
    ensures written { IsWritten result (λ text. text ≡ lossy_on platform bytes.now) out.old out.new
        count.new }
    ensures fault { result ≡ faulty → IsReport platform bytes.now fault.new }
    ensures string { (result ≡ done) ⊎ (result ≡ no_room) → IsString platform bytes.now }
    ensures long { (result ≡ too_long) ↔ (IsString platform bytes.now
        × (usize.MAX < 3 * length bytes.now)) }
    ensures platform { (result ≡ no_platform) ↔ (2 < platform) }
    ensures answers { IsOneOf (done ∷ no_room ∷ faulty ∷ too_long ∷ no_platform ∷ []) result }
{
    on_string!(platform, bytes, fault, string => write_lossy(string, out, count))
}

/// Writes the lossy text of a string, and counts its bytes.
fn write_lossy<E: Platform>(string: OsStr<'_, E>, out: &mut [u8], count: &mut usize) -> u32
    ensures written { IsWritten result (λ text. text ≡ E.lossy (bytes string.entry)) out.old out.new
        count.new }
    ensures long { (result ≡ too_long) ↔ (usize.MAX < 3 * length (bytes string.entry)) }
    ensures answers { IsOneOf (done ∷ no_room ∷ too_long ∷ []) result }
{
    if string.len() > usize::MAX / 3 {
        return TOO_LONG;
    }
    let written = string.write_lossy(out);
    *count = written;
    fits(written, out.len())
}
