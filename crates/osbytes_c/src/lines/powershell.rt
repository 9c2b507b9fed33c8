//! Texts as strings of PowerShell.
ghost use Rattle.std.specs.Prelude.{◌≡◌, ◌⊎◌, ◌<◌, ◌↔◌, ◌*◌, ◌+◌, ◌∷◌, [], ℕ, Option, length};
ghost use Rattle.std.specs.Str.{IsUtf8, chars};
ghost use Rattle.wtf8_core.specs.Utf8.{IsUtf8Fault};
ghost use Rattle.os_command_line.specs.PowerShell.{HasNulAt, IsPowerShellName, IsPowerShellText};
ghost use Rattle.osbytes_c.specs.Answers.{IsOneOf, IsWritten};
ghost use Rattle.osbytes_c.specs.Statuses.{done, faulty, has_nul, no_room, too_long};

use crate::status::{FAULTY, HAS_NUL, TOO_LONG, fits};
use os_command_line::shell::{PowerShellError, write_quoted_powershell};
use platform_str::OsStr;
use wtf8_core::utf8_fault;

/// Writes a text as a string of PowerShell into `out`, as far as there is room, and counts its
/// bytes: at most two for each byte of the text, and two. `index` is that of its first NUL, or that
/// from which on the bytes aren't UTF-8.
#[unsafe(no_mangle)]
pub extern "C" fn osb_core_powershell_quote(
    name: &[u8],
    out: &mut [u8],
    count: &mut usize,
    index: &mut usize,
) -> u32
    ensures written { IsWritten result (λ string. IsPowerShellText string (chars name.now))
        out.old out.new count.new }
    ensures name { (result ≡ done) ⊎ (result ≡ no_room) → IsPowerShellName name.now }
    ensures text { result ≡ faulty → (len : Option ℕ) × IsUtf8Fault name.now index.new len }
    ensures nul { result ≡ has_nul → IsUtf8 name.now × HasNulAt name.now index.new }
    ensures long { (result ≡ too_long) ↔ (usize.MAX < 4 * length name.now + 3) }
    ensures answers { IsOneOf (done ∷ faulty ∷ no_room ∷ has_nul ∷ too_long ∷ []) result }
{
    if name.len() > usize::MAX / 4 {
        return TOO_LONG;
    }
    if let Some((at, _)) = utf8_fault(name) {
        *index = at;
        return FAULTY;
    }
    match write_quoted_powershell(OsStr::new(unsafe { str::from_utf8_unchecked(name) }), out) {
        Ok(written) => {
            *count = written;
            fits(written, out.len())
        }
        Err(PowerShellError::Nul(at)) => {
            *index = at;
            HAS_NUL
        }
        Err(PowerShellError::LoneSurrogate(at)) => {
            *index = at;
            FAULTY
        }
    }
}
