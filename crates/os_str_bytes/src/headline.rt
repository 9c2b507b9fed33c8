//! The headline: the purpose of this library, as the contract of one call.
ghost use Rattle.std.specs.Prelude.{◌≡◌, ◌↔◌, ◌++◌, ℕ, List, IsTrue, IsOk, IfOk, length, map};
ghost use Rattle.std.specs.{List.repeat, Cmp.Lexicographic.slice_cmp, Ordering.nat_cmp, Str.IsUtf8};
ghost use Rattle.wtf8_core.specs.{Wtf8.Encodes, Wtf8.HasUnits, Occurrence.IsFirstIndex, Occurrence.IsLastIndex, Occurrence.IsPrefix, Occurrence.IsSuffix, UnitIndex.FindsInUnits, Boundary.IsBoundary, Chunks.Chunk, Chunks.AreChunks, Runs.AreRuns, Runs.form_chunk};
ghost use Rattle.os_str_ext.specs.Pieces.{OccursSomewhere, MayBeCutAround, StripsPrefix, StripsSuffix, IsStartTrim, IsEndTrim, IsTrim, IsSplit, IsRSplit, SplitsOnce, Trims};
ghost use Rattle.platform_str.specs.Strings.{string_vec_of};
ghost use Rattle.os_str_bytes.specs.{Raw.raw_bytes, Raw.raw_units, Raw.raw_vec_of, RawCow.raw_cow_bytes, Headline.AreOneToOne, Headline.AcceptsOrRefuses, Headline.CutsAt, Headline.SplitsUnlessEmpty};

pub use crate::cuts::Cuts;
use crate::cuts::{split_copy, truncated_copy};
use crate::iter::{RawRSplit, RawSplit};
use crate::raw_cow::CowRawOsStr;
use crate::raw_str::RawOsStr;
use crate::raw_string::RawOsString;
use os_str_ext::{
    Encoded, EncodingError, OsStrBytesExt, OsString, Pattern, Platform, Unix, Utf8Chunks, Wasm,
    WideUnits, Windows, laws,
};
use std::alloc::{AllocError, Allocator};
use std::cmp::Ordering;
use wtf8_core::laws as wtf8_laws;

/// The result of each call. Each field has the name of its call.
#[derive(Drop)]
pub struct Answers<'a, E: Platform + 'a, P: Pattern, A: Allocator> {
    pub cow_from_raw_bytes: Result<CowRawOsStr<'a, E>, EncodingError>,
    pub eq: bool,
    pub cmp: Ordering,
    pub starts_with_os: bool,
    pub ends_with_os: bool,
    pub find: Option<usize>,
    pub rfind: Option<usize>,
    pub contains: bool,
    pub starts_with: bool,
    pub ends_with: bool,
    pub strip_prefix: Option<RawOsStr<'a, E>>,
    pub strip_suffix: Option<RawOsStr<'a, E>>,
    pub trim_start_matches: RawOsStr<'a, E>,
    pub trim_end_matches: RawOsStr<'a, E>,
    pub trim_matches: RawOsStr<'a, E>,
    pub split_once: Option<(RawOsStr<'a, E>, RawOsStr<'a, E>)>,
    pub rsplit_once: Option<(RawOsStr<'a, E>, RawOsStr<'a, E>)>,
    /// `None` if the pattern is empty, since it can't split a string.
    pub split: Option<RawSplit<'a, E, P>>,
    /// `None` if the pattern is empty.
    pub rsplit: Option<RawRSplit<'a, E, P>>,
    pub is_boundary: bool,
    /// `None` if the index isn't a boundary, since the string can't be cut there.
    pub cuts: Option<Cuts<'a, E, &'a A>>,
    pub push: Result<OsString<E, &'a A>, AllocError>,
    pub repeat: Result<RawOsString<E, &'a A>, AllocError>,
    pub utf8_chunks: Utf8Chunks<'a, E>,
}

/// Makes each call once, with any raw bytes, any two strings, any pattern, any index and any count,
/// and returns the results.
///
/// Its contract states what the library is for, and has no precondition. Units are bytes on Unix
/// and wasm and 16-bit units on Windows (`laws::platforms` defines each platform). An index that is
/// found is a byte index.
///
/// ```
/// use os_str_bytes::headline::ask;
/// use os_str_bytes::{RawOsStr, Unix};
///
/// let string = RawOsStr::<Unix>::from_str("a/b");
/// let answers = ask(&alloc, b"a\x80", string, RawOsStr::from_str("a"), '/', 1, 2);
/// assert!(rt; answers.cow_from_raw_bytes.is_ok() && answers.starts_with_os);
/// assert_eq!(rt; answers.find, Some(1));
/// assert!(rt; answers.repeat?.eq_str("a/ba/b"));
/// ```
pub fn ask<'a, E: Platform + 'a, P: Pattern + Copy, A: Allocator>(
    alloc: &'a A,
    raw: &'a [u8],
    string: RawOsStr<'a, E>,
    other: RawOsStr<'a, E>,
    pattern: P,
    at: usize,
    count: usize,
) -> Answers<'a, E, P, A>
    // The accepted raw byte strings and the platform's unit lists correspond one to one,
    ensures one_to_one { AreOneToOne E.well_formed E.is_unit_list E.units }
    ensures accepted { IfOk result.cow_from_raw_bytes (λ cow. raw_cow_bytes cow ≡ raw.now) }
    // every other byte string is rejected with its first fault,
    ensures refused { AcceptsOrRefuses E.well_formed E.first_fault raw.now
        result.cow_from_raw_bytes }
    // and each comparison agrees with its definition on the unit lists, halves of a pair included.
    // The order is that of the bytes.
    ensures eq { IsTrue result.eq ↔ (raw_units string.entry ≡ raw_units other.entry) }
    ensures cmp { result.cmp ≡ slice_cmp nat_cmp (raw_bytes string.entry) (raw_bytes other.entry) }
    ensures starts_with_os { IsTrue result.starts_with_os
        ↔ IsPrefix (raw_units other.entry) (raw_units string.entry) }
    ensures ends_with_os { IsTrue result.ends_with_os
        ↔ IsSuffix (raw_units other.entry) (raw_units string.entry) }
    // So does each search. It returns the index of the first or the last unit at which the
    // pattern's units occur,
    ensures find { FindsInUnits IsFirstIndex E.well_formed E.units (P.text pattern)
        (raw_bytes string.entry) result.find }
    ensures rfind { FindsInUnits IsLastIndex E.well_formed E.units (P.text pattern)
        (raw_bytes string.entry) result.rfind }
    ensures contains { IsTrue result.contains
        ↔ OccursSomewhere (E.units (P.text pattern)) (raw_units string.entry) }
    ensures starts_with { IsTrue result.starts_with
        ↔ IsPrefix (E.units (P.text pattern)) (raw_units string.entry) }
    ensures ends_with { IsTrue result.ends_with
        ↔ IsSuffix (E.units (P.text pattern)) (raw_units string.entry) }
    // and the string can be cut at every index returned, and after the match.
    ensures find_cuts { MayBeCutAround (raw_bytes string.entry) (length (P.text pattern))
        result.find }
    ensures rfind_cuts { MayBeCutAround (raw_bytes string.entry) (length (P.text pattern))
        result.rfind }
    // Each strip and trim removes units from the start or the end.
    ensures strip_prefix { StripsPrefix raw_units (E.units (P.text pattern))
        (raw_units string.entry) result.strip_prefix }
    ensures strip_suffix { StripsSuffix raw_units (E.units (P.text pattern))
        (raw_units string.entry) result.strip_suffix }
    ensures trim_start { Trims E.units IsStartTrim (P.text pattern) (raw_bytes string.entry)
        (raw_bytes result.trim_start_matches) }
    ensures trim_end { Trims E.units IsEndTrim (P.text pattern) (raw_bytes string.entry)
        (raw_bytes result.trim_end_matches) }
    ensures trim { Trims E.units IsTrim (P.text pattern) (raw_bytes string.entry)
        (raw_bytes result.trim_matches) }
    // Each split cuts the units where those of the pattern occur.
    ensures split_once { SplitsOnce IsFirstIndex raw_units (E.units (P.text pattern))
        (raw_units string.entry) result.split_once }
    ensures rsplit_once { SplitsOnce IsLastIndex raw_units (E.units (P.text pattern))
        (raw_units string.entry) result.rsplit_once }
    ensures split { SplitsUnlessEmpty E.units IsSplit (P.text pattern) (raw_bytes string.entry)
        result.split }
    ensures rsplit { SplitsUnlessEmpty E.units IsRSplit (P.text pattern) (raw_bytes string.entry)
        result.rsplit }
    // Each cut at a boundary returns strings whose units, joined, are the string's.
    ensures is_boundary { IsTrue result.is_boundary ↔ IsBoundary (raw_bytes string.entry) at }
    ensures cuts { CutsAt string.entry at result.cuts }
    // Each join, unless an allocation fails, joins the units, also two halves of a pair.
    ensures push { IfOk result.push (λ joined. E.units (string_vec_of joined).items
        ≡ raw_units string.entry ++ raw_units other.entry) }
    ensures repeat { IfOk result.repeat (λ made. E.units (raw_vec_of made).items
        ≡ repeat count (raw_units string.entry)) }
    // The chunks are the parts without whole characters, each with the text after it.
    ensures utf8_chunks { AreChunks (raw_bytes string.entry) result.utf8_chunks }
{
    Answers {
        cow_from_raw_bytes: RawOsStr::cow_from_raw_bytes(raw),
        eq: equal(string, other),
        cmp: order(string, other),
        starts_with_os: string.starts_with_os(other),
        ends_with_os: string.ends_with_os(other),
        find: string.find(pattern),
        rfind: string.rfind(pattern),
        contains: string.contains(pattern),
        starts_with: string.starts_with(pattern),
        ends_with: string.ends_with(pattern),
        strip_prefix: string.strip_prefix(pattern),
        strip_suffix: string.strip_suffix(pattern),
        trim_start_matches: string.trim_start_matches(pattern),
        trim_end_matches: string.trim_end_matches(pattern),
        trim_matches: string.trim_matches(pattern),
        split_once: string.split_once(pattern),
        rsplit_once: string.rsplit_once(pattern),
        split: pieces(string, pattern),
        rsplit: pieces_from_the_end(string, pattern),
        is_boundary: string.is_boundary(at),
        cuts: cuts(alloc, string, at),
        push: joined(alloc, string, other),
        repeat: string.repeat(alloc, count),
        utf8_chunks: string.utf8_chunks(),
    }
}

/// The results of calls on Windows strings, in addition to [`Answers`].
#[derive(Drop)]
pub struct WindowsAnswers<'a> {
    pub cmp: Ordering,
    pub encode_wide: WideUnits<'a>,
    pub utf8_chunks: Utf8Chunks<'a, Windows>,
}

/// Makes each call once whose contract states more on Windows.
///
/// ```
/// use os_str_bytes::RawOsStr;
/// use os_str_bytes::headline::ask_windows;
/// use std::cmp::Ordering;
///
/// let answers = ask_windows(RawOsStr::from_str("\u{E9}"), RawOsStr::from_str("a"));
/// assert!(rt; answers.cmp == Ordering::Greater);
/// ```
pub fn ask_windows<'a>(
    string: RawOsStr<'a, Windows>,
    other: RawOsStr<'a, Windows>,
) -> WindowsAnswers<'a>
    // The order is that of the lists of code points that the strings encode, not of their units.
    ensures cmp { (cs : List ℕ) → (ds : List ℕ) → Encodes (raw_bytes string.entry) cs
        → Encodes (raw_bytes other.entry) ds → result.cmp ≡ slice_cmp nat_cmp cs ds }
    // The units are yielded one by one.
    ensures encode_wide { HasUnits (raw_bytes string.entry) result.encode_wide }
    // The parts that aren't empty are the forms of the maximal runs of surrogates of the list that
    // the string encodes.
    ensures utf8_chunks { (cs : List ℕ) → Encodes (raw_bytes string.entry) cs
        → (runs : List Chunk) × (AreRuns cs runs × (result.utf8_chunks ≡ map form_chunk runs)) }
{
    wtf8_laws::order();
    wtf8_laws::chunks();
    WindowsAnswers {
        cmp: order(string, other),
        encode_wide: string.as_os_str().encode_wide(),
        utf8_chunks: string.as_os_str().utf8_chunks(),
    }
}

/// The strings that calls make from lists of units. Each field has the name of the platform.
#[derive(Drop)]
pub struct FromUnits<'a, A: Allocator> {
    pub unix: Result<CowRawOsStr<'a, Unix>, EncodingError>,
    pub windows: Result<OsString<Windows, &'a A>, AllocError>,
    pub wasm: Result<CowRawOsStr<'a, Wasm>, EncodingError>,
}

/// Makes each call that makes a string from its units. Each list of units of a platform is that of
/// some string, and the call returns that string.
///
/// ```
/// use os_str_bytes::headline::ask_units;
///
/// let encoded = ask_units(&alloc, b"a\x80", &[0xD800]);
/// assert!(rt; encoded.unix.is_ok() && encoded.windows.is_ok() && encoded.wasm.is_err());
/// ```
pub fn ask_units<'a, A: Allocator>(alloc: &'a A, bytes: &'a [u8], wide: &[u16]) -> FromUnits<'a, A>
    // Any bytes are the units of a Unix string,
    ensures unix { IsOk result.unix }
    ensures unix_units { IfOk result.unix (λ cow. ⟦<Unix as Platform>⟧.units (raw_cow_bytes cow)
        ≡ bytes.now) }
    // any 16-bit units, unless an allocation fails, those of a Windows string,
    ensures windows_units { IfOk result.windows (λ string.
        ⟦<Windows as Platform>⟧.units (string_vec_of string).items ≡ wide.now) }
    // and the bytes of any text those of a wasm string.
    ensures wasm { IsUtf8 bytes.now → IsOk result.wasm }
    ensures wasm_units { IfOk result.wasm (λ cow. ⟦<Wasm as Platform>⟧.units (raw_cow_bytes cow)
        ≡ bytes.now) }
{
    FromUnits {
        unix: accepted(bytes),
        windows: OsString::from_wide(alloc, wide),
        wasm: accepted(bytes),
    }
}

/// Calls `cow_from_raw_bytes`, which accepts well-formed bytes.
fn accepted<'a, E: Platform>(raw: &'a [u8]) -> Result<CowRawOsStr<'a, E>, EncodingError>
    ensures ok { E.well_formed raw.now → IsOk result }
    ensures bytes { IfOk result (λ cow. raw_cow_bytes cow ≡ raw.now) }
{
    laws::faults::<E>();
    RawOsStr::cow_from_raw_bytes(raw)
}

/// Calls `==` on two strings.
fn equal<'a, E: Platform>(string: RawOsStr<'a, E>, other: RawOsStr<'a, E>) -> bool
    ensures { IsTrue result ↔ (raw_units string.entry ≡ raw_units other.entry) }
{
    string == other
}

/// Calls `cmp` on two strings.
fn order<'a, E: Platform>(string: RawOsStr<'a, E>, other: RawOsStr<'a, E>) -> Ordering
    ensures { result ≡ slice_cmp nat_cmp (raw_bytes string.entry) (raw_bytes other.entry) }
{
    string.cmp(&other)
}

/// Calls `split`, if the pattern isn't empty.
fn pieces<'a, E: Platform, P: Pattern + Copy>(
    string: RawOsStr<'a, E>,
    pattern: P,
) -> Option<RawSplit<'a, E, P>>
    ensures { SplitsUnlessEmpty E.units IsSplit (P.text pattern) (raw_bytes string.entry) result }
{
    if is_empty(pattern) {
        return None;
    }
    Some(string.split(pattern))
}

/// Calls `rsplit`, if the pattern isn't empty.
fn pieces_from_the_end<'a, E: Platform, P: Pattern + Copy>(
    string: RawOsStr<'a, E>,
    pattern: P,
) -> Option<RawRSplit<'a, E, P>>
    ensures { SplitsUnlessEmpty E.units IsRSplit (P.text pattern) (raw_bytes string.entry) result }
{
    if is_empty(pattern) {
        return None;
    }
    Some(string.rsplit(pattern))
}

/// Whether a pattern has no bytes.
fn is_empty<P: Pattern>(pattern: P) -> bool
    ensures { IsTrue result ↔ (length (P.text pattern) ≡ 0) }
{
    pattern.encode().as_bytes().is_empty()
}

/// Each cut at an index, if the index is a boundary.
fn cuts<'a, E: Platform, A: Allocator>(
    alloc: &'a A,
    string: RawOsStr<'a, E>,
    at: usize,
) -> Option<Cuts<'a, E, &'a A>>
    ensures { CutsAt string.entry at result }
{
    if !string.is_boundary(at) {
        return None;
    }
    Some(Cuts {
        split_at: string.split_at(at),
        index: (string.index(..at), string.index(at..)),
        get_unchecked: (string.get_unchecked(..at), string.get_unchecked(at..)),
        split_off: split_copy(alloc, string, at),
        truncate: truncated_copy(alloc, string, at),
    })
}

/// One string with another appended.
fn joined<'a, E: Platform, A: Allocator>(
    alloc: A,
    string: RawOsStr<'a, E>,
    other: RawOsStr<'a, E>,
) -> Result<OsString<E, A>, AllocError>
    ensures { IfOk result (λ joined. E.units (string_vec_of joined).items
        ≡ raw_units string.entry ++ raw_units other.entry) }
{
    let mut joined = string.as_os_str().to_owned(alloc)?;
    joined.push(other.as_os_str())?;
    Ok(joined)
}
