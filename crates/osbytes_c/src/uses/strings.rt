//! For trying: what a caller of the calls for whole strings concludes, in each outcome.
ghost use Rattle.std.specs.Prelude.{◌≡◌, ◌⊎◌, ◌<◌, ◌↔◌, ◌*◌, ◌++◌, true, false, List, ℕ, length, take, IfSome, MatchOption};
ghost use Rattle.std.specs.Cmp.Lexicographic.{slice_cmp};
ghost use Rattle.std.specs.Ordering.{nat_cmp};
ghost use Rattle.std.specs.Str.{IsUtf8};
ghost use Rattle.wtf8_core.specs.Boundary.{IsBoundary};
ghost use Rattle.wtf8_core.specs.Occurrence.{IsFirstIndex, IsLastIndex, IsPrefix, IsSuffix, OccursNowhere};
ghost use Rattle.os_str_ext.specs.Pieces.{OccursSomewhere};
ghost use Rattle.wtf8_core.specs.Wtf8.{HasUnits, IsWtf8};
ghost use Rattle.wtf8_core.specs.declared.fault.EncodingError.{EncodingError};
ghost use Rattle.os_quote.specs.Escape.{IsEscape, IsLineEscape};
ghost use Rattle.osbytes_c.specs.Faults.{IsReport, IsString, IsTextOf, IsUnstring, IsWtf8Report, Names, OpenDescribes, ReportsFaulty};
ghost use Rattle.osbytes_c.specs.Platforms.{formed_on, lossy_on, units_on};

use crate::search::boundary::osb_core_is_boundary;
use crate::search::compare::osb_core_compare;
use crate::search::prefix::{osb_core_ends_with_units, osb_core_starts_with_units};
use crate::search::{
    osb_core_contains, osb_core_ends_with, osb_core_find, osb_core_rfind, osb_core_starts_with,
};
use crate::strings::check::osb_core_check;
use crate::strings::checker::{Open, osb_core_feed, osb_core_finish, osb_core_start};
use crate::strings::escapes::{osb_core_escape, osb_core_escape_line};
use crate::strings::fault::Fault;
use crate::strings::fault_text::osb_core_fault_text;
use crate::strings::lossy::osb_core_lossy;
use crate::strings::unescapes::{osb_core_unescape, osb_core_unescape_line};
use crate::strings::wide::{osb_core_from_wide, osb_core_to_wide};
use crate::uses::{answer_of, count_of, no_fault};
use std::cmp::Ordering;

/// Whether bytes are a string of a platform.
pub fn is_string(platform: u32, bytes: &[u8]) -> bool
    ensures { (result ≡ true) ↔ IsString platform bytes.now }
{
    osb_core_check(platform, bytes, &mut no_fault()) == 0
}

/// Whether one more piece of a string of Windows is read; else what is open is as it was, and the
/// bytes joined have a fault.
pub fn is_fed(opened: &mut Open, piece: &[u8]) -> bool
    ensures fed { result ≡ true → (fed : List ℕ) → OpenDescribes opened.old fed
        → OpenDescribes opened.new (fed ++ piece.now) }
    ensures known { result ≡ true → opened.new.state < 16 }
    ensures kept { result ≡ false → opened.new ≡ opened.old }
    ensures rejected { result ≡ false → opened.old.state < 16 → (fed : List ℕ)
        → OpenDescribes opened.old fed
        → (report : Fault) × ReportsFaulty (fed ++ piece.now) report }
{
    osb_core_feed(opened, piece, &mut no_fault()) == 0
}

/// The number of bytes of the lossy text of a string; `None` if there is no such platform, or the
/// bytes aren't a string of it or are too long.
pub fn lossy_len(platform: u32, bytes: &[u8]) -> Option<usize>
    ensures { MatchOption result
        ((2 < platform) ⊎ (((report : Fault) × IsReport platform bytes.now report)
        ⊎ (usize.MAX < 3 * length bytes.now)))
        (λ len. IsString platform bytes.now × (len ≡ length (lossy_on platform bytes.now))) }
{
    count_of!(osb_core_lossy(platform, bytes), &mut no_fault())
}

/// Whether the units of a string start with those of another; `None` if there is no such platform,
/// or one isn't a string of it.
pub fn starts_with(platform: u32, bytes: &[u8], prefix: &[u8]) -> Option<bool>
    ensures strings { MatchOption result
        ((2 < platform) ⊎ (IsUnstring platform bytes.now ⊎ IsUnstring platform prefix.now))
        (λ _. IsString platform bytes.now × IsString platform prefix.now) }
    ensures is { IfSome result (λ is. (is ≡ true)
        ↔ IsPrefix (units_on platform prefix.now) (units_on platform bytes.now)) }
{
    answer_of!(osb_core_starts_with_units(platform, bytes, prefix))
}

/// Whether the units of a string end with those of another; `None` as in `starts_with`.
pub fn ends_with(platform: u32, bytes: &[u8], suffix: &[u8]) -> Option<bool>
    ensures strings { MatchOption result
        ((2 < platform) ⊎ (IsUnstring platform bytes.now ⊎ IsUnstring platform suffix.now))
        (λ _. IsString platform bytes.now × IsString platform suffix.now) }
    ensures is { IfSome result (λ is. (is ≡ true)
        ↔ IsSuffix (units_on platform suffix.now) (units_on platform bytes.now)) }
{
    answer_of!(osb_core_ends_with_units(platform, bytes, suffix))
}

/// Whether the pieces that were read are a string of Windows.
pub fn is_finished(opened: &Open) -> bool
    ensures { opened.now.state < 16 → (fed : List ℕ) → OpenDescribes opened.now fed
        → (result ≡ true) ↔ IsWtf8 fed }
{
    osb_core_finish(opened, &mut no_fault()) == 0
}

/// Whether two pieces joined are a string of Windows.
pub fn is_string_in_two(first: &[u8], second: &[u8]) -> bool
    ensures { (result ≡ true) ↔ IsWtf8 (first.now ++ second.now) }
{
    let mut opened = Open { state: 0, bits: 0 };
    osb_core_start(&mut opened);
    if !is_fed(&mut opened, first) {
        return false;
    }
    if !is_fed(&mut opened, second) {
        return false;
    }
    is_finished(&opened)
}

/// The number of bytes of the escape of a string; `None` if there is no such platform, or the bytes
/// aren't a string of it or are too long.
pub fn escape_len(platform: u32, bytes: &[u8]) -> Option<usize>
    ensures { MatchOption result
        ((2 < platform) ⊎ (((report : Fault) × IsReport platform bytes.now report)
        ⊎ (usize.MAX < 6 * length bytes.now)))
        (λ len. IsString platform bytes.now × ((escape : List ℕ)
        × (IsEscape (units_on platform) bytes.now escape × (len ≡ length escape)))) }
{
    count_of!(osb_core_escape(platform, bytes), &mut no_fault())
}

/// The number of bytes of the escape of a string on one line; `None` as in `escape_len`.
pub fn line_escape_len(platform: u32, bytes: &[u8]) -> Option<usize>
    ensures { MatchOption result
        ((2 < platform) ⊎ (((report : Fault) × IsReport platform bytes.now report)
        ⊎ (usize.MAX < 6 * length bytes.now)))
        (λ len. IsString platform bytes.now × ((escape : List ℕ)
        × (IsLineEscape (units_on platform) bytes.now escape × (len ≡ length escape)))) }
{
    count_of!(osb_core_escape_line(platform, bytes), &mut no_fault())
}

/// How many units a string of Windows has, or `None` if it is none.
pub fn wide_len(bytes: &[u8]) -> Option<usize>
    ensures { MatchOption result ((report : Fault) × IsWtf8Report bytes.now report)
        (λ len. (units : List ℕ) × (HasUnits bytes.now units × (len ≡ length units))) }
{
    count_of!(osb_core_to_wide(bytes), &mut no_fault())
}

/// How many bytes the string with these units has.
pub fn from_wide_len(units: &[u16]) -> usize
    ensures { (bytes : List ℕ) × (HasUnits bytes units.now × (result ≡ length bytes)) }
{
    let mut count = 0;
    osb_core_from_wide(units, &mut [], &mut count);
    count
}

/// The first index of a text, or `None` if it doesn't occur or isn't one.
pub fn found(bytes: &[u8], pattern: &[u8]) -> Option<usize>
    ensures { MatchOption result (OccursNowhere pattern.now bytes.now ⊎ (¬ (IsUtf8 pattern.now)))
        (λ index. IsFirstIndex pattern.now bytes.now index) }
{
    let mut index = 0;
    match osb_core_find(bytes, pattern, &mut index) {
        0 => Some(index),
        _ => None,
    }
}

/// The last one.
pub fn found_last(bytes: &[u8], pattern: &[u8]) -> Option<usize>
    ensures { MatchOption result (OccursNowhere pattern.now bytes.now ⊎ (¬ (IsUtf8 pattern.now)))
        (λ index. IsLastIndex pattern.now bytes.now index) }
{
    let mut index = 0;
    match osb_core_rfind(bytes, pattern, &mut index) {
        0 => Some(index),
        _ => None,
    }
}

/// Whether a text occurs, or `None` if it isn't one.
pub fn has_text(bytes: &[u8], pattern: &[u8]) -> Option<bool>
    ensures { MatchOption result (¬ (IsUtf8 pattern.now))
        (λ is. (is ≡ true) ↔ OccursSomewhere pattern.now bytes.now) }
{
    answer_of!(osb_core_contains(bytes, pattern))
}

/// Whether a string starts with a text, or `None` if it isn't one.
pub fn starts_with_text(bytes: &[u8], pattern: &[u8]) -> Option<bool>
    ensures { MatchOption result (¬ (IsUtf8 pattern.now))
        (λ is. (is ≡ true) ↔ IsPrefix pattern.now bytes.now) }
{
    answer_of!(osb_core_starts_with(bytes, pattern))
}

/// Whether it ends with one.
pub fn ends_with_text(bytes: &[u8], pattern: &[u8]) -> Option<bool>
    ensures { MatchOption result (¬ (IsUtf8 pattern.now))
        (λ is. (is ≡ true) ↔ IsSuffix pattern.now bytes.now) }
{
    answer_of!(osb_core_ends_with(bytes, pattern))
}

/// Whether a string may be cut at an index.
pub fn may_be_cut(bytes: &[u8], index: usize) -> bool
    ensures { (result ≡ true) ↔ IsBoundary bytes.now index }
{
    osb_core_is_boundary(bytes, index) == 0
}

/// The order of two strings.
pub fn order_of(a: &[u8], b: &[u8]) -> Ordering
    ensures { result ≡ slice_cmp nat_cmp a.now b.now }
{
    match osb_core_compare(a, b) {
        0 => Ordering::Equal,
        1 => Ordering::Less,
        _ => Ordering::Greater,
    }
}

/// How many bytes the text of a fault has, or `None` if there is no such fault.
pub fn fault_text_len(fault: &Fault) -> Option<usize>
    ensures { MatchOption result ((error : EncodingError) → ¬ (Names fault.now error))
        (λ len. (text : List ℕ) × (IsTextOf fault.now text × (len ≡ length text))) }
{
    count_of!(osb_core_fault_text(fault))
}

/// How many bytes the string with an escape takes in a buffer, if there is room for it.
pub fn unescaped_in(platform: u32, escape: &[u8], buffer: &mut [u8]) -> Option<usize>
    ensures { IfSome result (λ len. formed_on platform (take len buffer.new)
        × IsEscape (units_on platform) (take len buffer.new) escape.now) }
{
    let mut count = 0;
    let mut index = 0;
    match osb_core_unescape(platform, escape, buffer, &mut count, &mut index) {
        0 => Some(count),
        _ => None,
    }
}

/// The number of bytes of the string that has an escape on one line, written into a buffer; `None`
/// as in `unescaped_in`.
pub fn line_unescaped_in(platform: u32, escape: &[u8], buffer: &mut [u8]) -> Option<usize>
    ensures { IfSome result (λ len. formed_on platform (take len buffer.new)
        × IsLineEscape (units_on platform) (take len buffer.new) escape.now) }
{
    let mut count = 0;
    let mut index = 0;
    match osb_core_unescape_line(platform, escape, buffer, &mut count, &mut index) {
        0 => Some(count),
        _ => None,
    }
}
