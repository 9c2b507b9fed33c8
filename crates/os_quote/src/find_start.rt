//! Splits the valid text off the start of a string.
ghost use Rattle.std.specs.Prelude.{◌<◌, IsTrue, MatchOption, length};
ghost use Rattle.wtf8_core.specs.Covered.{StartsWithNoCharacter};
ghost use Rattle.os_quote.specs.Start.{IsCutAfterText};

use os_str_bytes::Platform;
use wtf8_core::is_continuation;

/// The text at the start, and the bytes after it; `None` if no whole character starts there. The
/// caller has tested the first character, which isn't a byte that is written alone. Two bytes are
/// tested again here. Without that, a line of backslashes takes 1.12 to 1.21 times as long.
#[inline(always)]
pub(crate) fn split_text<E: Platform>(bytes: &[u8]) -> Option<(&str, &[u8])>
    requires formed { E.well_formed bytes.now }
    requires some { 0 < length bytes.now }
    ensures { MatchOption result (StartsWithNoCharacter bytes.now)
        (λ parts. IsCutAfterText bytes.now parts.0.now parts.1.now) }
{
    if are_apart(bytes) {
        return None;
    }
    let len = match E::utf8_fault(bytes) {
        Some((valid_up_to, _)) => valid_up_to,
        None => bytes.len(),
    };
    if len == 0 {
        return None;
    }
    let (text, rest) = bytes.split_at(len);
    Some((unsafe { str::from_utf8_unchecked(text) }, rest))
}

/// Whether the first two bytes show that no whole character starts at the first. Where none does,
/// they usually show it.
#[inline(always)]
pub(crate) fn are_apart(bytes: &[u8]) -> bool
    ensures { IsTrue result → StartsWithNoCharacter bytes.now }
{
    if bytes.len() < 2 {
        return false;
    }
    (bytes[0] >= 0x80) & (is_continuation(bytes[0]) | !is_continuation(bytes[1]))
}
