//! Splits on Unix. Each pattern is UTF-8 and isn't empty.
ghost use Rattle.std.specs.Prelude.{◌≡◌, ◌<◌, ◌+◌, ℕ, List, length};
ghost use Rattle.std.specs.Str.{IsUtf8};
ghost use Rattle.os_str_ext.specs.Pieces.{IsSplit, IsRSplit};

use crate::strings::{text, unix};
use os_str_ext::OsStrBytesExt;

/// Returns the number of pieces between the matches of the pattern.
#[unsafe(no_mangle)]
pub extern "C" fn port_split(raw: &[u8], pattern: &[u8]) -> usize
    requires text { IsUtf8 pattern.now }
    requires some { 0 < length pattern.now }
    ensures { (pieces : List (List ℕ)) × IsSplit pattern.now raw.now pieces
        × (result ≡ length pieces) }
{
    let mut count = 0;
    for _ in unix(raw).split(text(pattern)) {
        count += 1;
    }
    count
}

/// Returns the number of pieces between the matches of the pattern, from the end.
#[unsafe(no_mangle)]
pub extern "C" fn port_rsplit(raw: &[u8], pattern: &[u8]) -> usize
    requires text { IsUtf8 pattern.now }
    requires some { 0 < length pattern.now }
    ensures { (pieces : List (List ℕ)) × IsRSplit pattern.now raw.now pieces
        × (result ≡ length pieces) }
{
    let mut count = 0;
    for _ in unix(raw).rsplit(text(pattern)) {
        count += 1;
    }
    count
}
