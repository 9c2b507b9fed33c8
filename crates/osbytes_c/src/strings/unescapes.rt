//! Strings from escapes, plain and on one line. Each form has a function, as in
//! [`escapes`](crate::strings::escapes).
ghost use Rattle.std.specs.Prelude.{◌≡◌, ◌≢◌, ◌≤◌, ◌<◌, ◌↔◌, ◌∷◌, [], length};
ghost use Rattle.std.specs.Str.{IsUtf8};
ghost use Rattle.os_quote.specs.Escape.{IsBadEscape, IsBadLineEscape, IsQuoteFault, IsLineFault};
ghost use Rattle.os_quote.specs.Unescaped.{IsUnescaped, IsLineUnescaped};
ghost use Rattle.osbytes_c.specs.Answers.{IsDone, IsOneOf};
ghost use Rattle.osbytes_c.specs.Platforms.{formed_on, units_on};
ghost use Rattle.osbytes_c.specs.Statuses.{bad_escape, done, no_pattern, no_platform, no_room, no_string};

use crate::on_platform::on_platform;
use crate::status::{BAD_ESCAPE, NO_PATTERN, NO_STRING, fits};
use os_quote::{QuoteError, write_unescaped_bytes, write_unescaped_line_bytes};
use platform_str::Platform;

/// Writes the string of a platform with this escape into `out`, as far as there is room, and counts
/// its bytes: at most one for each byte of the escape. Without room for the string, it is
/// unknown whether the escape is that of any string. `index` is that of the first backslash that
/// begins no token.
#[unsafe(no_mangle)]
pub extern "C" fn osb_core_unescape(
    platform: u32,
    escape: &[u8],
    out: &mut [u8],
    count: &mut usize,
    index: &mut usize,
) -> u32
    ensures written { IsDone result (IsUnescaped (formed_on platform) (units_on platform) escape.now
        out.old out.new count.new) (length out.old) count.new }
    ensures token { result ≡ bad_escape → IsBadEscape escape.now index.new }
    ensures string { result ≡ no_string
        → IsQuoteFault (formed_on platform) (units_on platform) escape.now QuoteError.NotCanonical }
    ensures pattern { (result ≡ no_pattern) ↔ ((platform ≤ 2) × (¬ (IsUtf8 escape.now))) }
    ensures platform { (result ≡ no_platform) ↔ (2 < platform) }
    ensures answers { IsOneOf (done ∷ no_room ∷ bad_escape ∷ no_string ∷ no_pattern ∷ no_platform ∷
        []) result }
{
    on_platform!(platform, unescape(escape, out, count, index))
}

/// Writes the string of a platform with this escape on one line, and counts its bytes, as
/// `osb_core_unescape` does.
#[unsafe(no_mangle)]
pub extern "C" fn osb_core_unescape_line(
    platform: u32,
    escape: &[u8],
    out: &mut [u8],
    count: &mut usize,
    index: &mut usize,
) -> u32
    ensures written { IsDone result (IsLineUnescaped (formed_on platform) (units_on platform)
        escape.now out.old out.new count.new) (length out.old) count.new }
    ensures token { result ≡ bad_escape → IsBadLineEscape escape.now index.new }
    ensures string { result ≡ no_string
        → IsLineFault (formed_on platform) (units_on platform) escape.now QuoteError.NotCanonical }
    ensures pattern { (result ≡ no_pattern) ↔ ((platform ≤ 2) × (¬ (IsUtf8 escape.now))) }
    ensures platform { (result ≡ no_platform) ↔ (2 < platform) }
    ensures answers { IsOneOf (done ∷ no_room ∷ bad_escape ∷ no_string ∷ no_pattern ∷ no_platform ∷
        []) result }
{
    on_platform!(platform, unescape_line(escape, out, count, index))
}

/// The string of one platform.
fn unescape<E: Platform>(escape: &[u8], out: &mut [u8], count: &mut usize, index: &mut usize) -> u32
    ensures written { IsDone result (IsUnescaped E.well_formed E.units escape.now out.old out.new
        count.new) (length out.old) count.new }
    ensures token { result ≡ bad_escape → IsBadEscape escape.now index.new }
    ensures string { result ≡ no_string
        → IsQuoteFault E.well_formed E.units escape.now QuoteError.NotCanonical }
    ensures pattern { (result ≡ no_pattern) ↔ (¬ (IsUtf8 escape.now)) }
    ensures answers { IsOneOf (done ∷ no_room ∷ bad_escape ∷ no_string ∷ no_pattern ∷ []) result }
{
    let Some(read) = write_unescaped_bytes::<E>(escape, out) else {
        return NO_PATTERN;
    };
    match read {
        Ok(written) => {
            *count = written;
            fits(written, out.len())
        }
        Err(error) => rejected(error, index),
    }
}

/// The string of one platform, from its escape on one line.
fn unescape_line<E: Platform>(
    escape: &[u8],
    out: &mut [u8],
    count: &mut usize,
    index: &mut usize,
) -> u32
    ensures written { IsDone result (IsLineUnescaped E.well_formed E.units escape.now out.old
        out.new count.new) (length out.old) count.new }
    ensures token { result ≡ bad_escape → IsBadLineEscape escape.now index.new }
    ensures string { result ≡ no_string
        → IsLineFault E.well_formed E.units escape.now QuoteError.NotCanonical }
    ensures pattern { (result ≡ no_pattern) ↔ (¬ (IsUtf8 escape.now)) }
    ensures answers { IsOneOf (done ∷ no_room ∷ bad_escape ∷ no_string ∷ no_pattern ∷ []) result }
{
    let Some(read) = write_unescaped_line_bytes::<E>(escape, out) else {
        return NO_PATTERN;
    };
    match read {
        Ok(written) => {
            *count = written;
            fits(written, out.len())
        }
        Err(error) => rejected(error, index),
    }
}

/// The status of a text that isn't read.
fn rejected(error: QuoteError, index: &mut usize) -> u32
    ensures token { result ≡ bad_escape → error ≡ QuoteError.BadEscape index.new }
    ensures string { result ≡ no_string → error ≢ QuoteError.Memory
        → error ≡ QuoteError.NotCanonical }
    ensures answers { IsOneOf (bad_escape ∷ no_string ∷ []) result }
{
    match error {
        QuoteError::BadEscape(at) => {
            *index = at;
            BAD_ESCAPE
        }
        QuoteError::NotCanonical => NO_STRING,
        QuoteError::Memory => NO_STRING,
    }
}
