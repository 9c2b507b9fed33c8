//! Where a pattern occurs. Each pattern is UTF-8.
//!
//! [`prefix`] tests prefixes and suffixes by units. [`boundary`] tests where strings may be cut,
//! and [`compare`] orders them.
ghost use Rattle.std.specs.Prelude.{◌≡◌, ◌↔◌, ◌∷◌, []};
ghost use Rattle.std.specs.Str.{IsUtf8};
ghost use Rattle.wtf8_core.specs.Occurrence.{OccursNowhere, IsFirstIndex, IsLastIndex, IsPrefix, IsSuffix};
ghost use Rattle.os_str_ext.specs.Pieces.{OccursSomewhere};
ghost use Rattle.osbytes_c.specs.Answers.{IsOneOf};
ghost use Rattle.osbytes_c.specs.Statuses.{done, no_pattern, none};

pub mod boundary;
pub mod compare;
pub mod prefix;

use crate::status::{DONE, NO_PATTERN, NONE, reported};
use crate::strings::{text, unix};
use os_str_ext::OsStrBytesExt;

/// The first index of the pattern in a string of any platform. If there is none, the index is as it
/// was.
#[unsafe(no_mangle)]
pub extern "C" fn osb_core_find(bytes: &[u8], pattern: &[u8], index: &mut usize) -> u32
    ensures found { result ≡ done → IsFirstIndex pattern.now bytes.now index.new }
    ensures none { result ≡ none → OccursNowhere pattern.now bytes.now × (index.new ≡ index.old) }
    ensures pattern { (result ≡ no_pattern) ↔ (¬ (IsUtf8 pattern.now)) }
    ensures answers { IsOneOf (done ∷ none ∷ no_pattern ∷ []) result }
{
    let Some(pattern) = text(pattern) else {
        return NO_PATTERN;
    };
    match unix(bytes).find(pattern) {
        Some(at) => {
            *index = at;
            DONE
        }
        None => NONE,
    }
}

/// The last index of the pattern.
#[unsafe(no_mangle)]
pub extern "C" fn osb_core_rfind(bytes: &[u8], pattern: &[u8], index: &mut usize) -> u32
    ensures found { result ≡ done → IsLastIndex pattern.now bytes.now index.new }
    ensures none { result ≡ none → OccursNowhere pattern.now bytes.now × (index.new ≡ index.old) }
    ensures pattern { (result ≡ no_pattern) ↔ (¬ (IsUtf8 pattern.now)) }
    ensures answers { IsOneOf (done ∷ none ∷ no_pattern ∷ []) result }
{
    let Some(pattern) = text(pattern) else {
        return NO_PATTERN;
    };
    match unix(bytes).rfind(pattern) {
        Some(at) => {
            *index = at;
            DONE
        }
        None => NONE,
    }
}

/// Whether the pattern occurs.
#[unsafe(no_mangle)]
pub extern "C" fn osb_core_contains(bytes: &[u8], pattern: &[u8]) -> u32
    ensures found { result ≡ done → OccursSomewhere pattern.now bytes.now }
    ensures none { result ≡ none → ¬ (OccursSomewhere pattern.now bytes.now) }
    ensures pattern { (result ≡ no_pattern) ↔ (¬ (IsUtf8 pattern.now)) }
    ensures answers { IsOneOf (done ∷ none ∷ no_pattern ∷ []) result }
{
    let Some(pattern) = text(pattern) else {
        return NO_PATTERN;
    };
    reported(unix(bytes).contains(pattern))
}

/// Whether the string starts with the pattern.
#[unsafe(no_mangle)]
pub extern "C" fn osb_core_starts_with(bytes: &[u8], pattern: &[u8]) -> u32
    ensures found { result ≡ done → IsPrefix pattern.now bytes.now }
    ensures none { result ≡ none → ¬ (IsPrefix pattern.now bytes.now) }
    ensures pattern { (result ≡ no_pattern) ↔ (¬ (IsUtf8 pattern.now)) }
    ensures answers { IsOneOf (done ∷ none ∷ no_pattern ∷ []) result }
{
    let Some(pattern) = text(pattern) else {
        return NO_PATTERN;
    };
    reported(unix(bytes).starts_with(pattern))
}

/// Whether the string ends with the pattern.
#[unsafe(no_mangle)]
pub extern "C" fn osb_core_ends_with(bytes: &[u8], pattern: &[u8]) -> u32
    ensures found { result ≡ done → IsSuffix pattern.now bytes.now }
    ensures none { result ≡ none → ¬ (IsSuffix pattern.now bytes.now) }
    ensures pattern { (result ≡ no_pattern) ↔ (¬ (IsUtf8 pattern.now)) }
    ensures answers { IsOneOf (done ∷ none ∷ no_pattern ∷ []) result }
{
    let Some(pattern) = text(pattern) else {
        return NO_PATTERN;
    };
    reported(unix(bytes).ends_with(pattern))
}
