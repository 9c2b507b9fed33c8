//! Texts in buffers that may be too short, and a checker that is kept as numbers.
ghost use Rattle.std.specs.Prelude.{◌≡◌, ◌+◌, ◌*◌, ◌<◌, ◌≤◌, ◌^◌, ◌++◌, length, take, IfSome, MatchResult};
ghost use Rattle.wtf8_core.specs.Checker.{HasFirstFault};
ghost use Rattle.wtf8_core.specs.Wtf8.{IsWtf8};
ghost use Rattle.platform_str.specs.Strings.{bytes};

use platform_str::{OsStr, Platform};
use wtf8_core::{Checker, EncodingError, push_truncated};

/// The check of two pieces, between which the checker is saved and restored.
pub fn checked_apart(first: &[u8], second: &[u8]) -> Result<(), EncodingError>
    ensures { MatchResult result (λ _. IsWtf8 (first.now ++ second.now))
        (λ fault. HasFirstFault (first.now ++ second.now) fault) }
{
    let mut checker = Checker::new();
    let _ = checker.feed(first);
    let Some(mut restored) = Checker::restore(checker.save()) else {
        unreachable!();
    };
    let _ = restored.feed(second);
    restored.finish()
}

/// The length of the lossy text at the start of a buffer, if it has room there.
pub fn shown_in<'a, E: Platform + 'a>(string: OsStr<'a, E>, buffer: &mut [u8]) -> Option<usize>
    ensures { IfSome result (λ len. take len buffer.new ≡ E.lossy (bytes string.entry)) }
{
    if string.len() > usize::MAX / 3 {
        return None;
    }
    let len = string.write_lossy(buffer);
    if len <= buffer.len() { Some(len) } else { None }
}

/// The length of two parts, joined, at the start of a buffer, if they have room there.
pub fn joined_in(buffer: &mut [u8], a: &[u8], b: &[u8]) -> Option<usize>
    requires { length a.now + length b.now < 2 ^ 64 }
    ensures { IfSome result (λ len. take len buffer.new ≡ a.now ++ b.now) }
{
    let count = push_truncated(buffer, 0, a);
    let len = push_truncated(buffer, count, b);
    if len <= buffer.len() { Some(len) } else { None }
}
