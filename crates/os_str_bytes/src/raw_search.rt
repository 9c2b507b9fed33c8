//! Searches, cuts and pieces of raw strings: the calls of [`crate::OsStrBytesExt`], with the same
//! contracts.
ghost use Rattle.std.specs.Prelude.{◌≡◌, ◌<◌, ◌↔◌, ◌++◌, ◌+◌, ◌*◌, ◌^◌, IsTrue, IsOk, IsErr, IfOk, IfSome, length, take, drop};
ghost use Rattle.std.specs.{Char.encode_utf8, List.repeat};
ghost use Rattle.wtf8_core.specs.{Occurrence.Finds, Occurrence.IsFirstIndex, Occurrence.IsLastIndex, Occurrence.IsPrefix, Occurrence.IsSuffix, UnitIndex.FindsInUnits, Boundary.IsBoundary, Chunks.AreChunks};
ghost use Rattle.os_str_ext.specs.{Pieces.OccursSomewhere, Pieces.MayBeCutAround, Pieces.StripsPrefix, Pieces.StripsSuffix, Pieces.IsStartTrim, Pieces.IsEndTrim, Pieces.IsTrim, Pieces.IsSplit, Pieces.IsRSplit, Pieces.SplitsOnce, Pieces.Splits, Pieces.Trims, Characters.SplitsFirstChar, Characters.SplitsLastChar, Chunks.chunks_of, Range.FitsIn, Range.IsPartInUnits, Symbols.AreSymbols, Symbols.symbols_of};
ghost use Rattle.os_str_bytes.specs.Raw.{raw_bytes, raw_units, raw_vec_of};

use crate::iter::{RawPieces, RawRSplit, RawSplit};
use crate::raw_str::RawOsStr;
use crate::raw_string::RawOsString;
use os_str_ext::{OsStrBytesExt, Pattern, Platform, SliceIndex, Symbols, Utf8Chunks};
use std::alloc::{AllocError, Allocator};

/// All indices are byte indices. No call but [`RawOsStr::repeat`] allocates.
impl<'a, E: Platform> RawOsStr<'a, E> {
    // Cuts.

    /// Whether the string may be cut at index `at`; `false` if `at` is greater than the length (own
    /// call).
    ///
    /// ```
    /// use os_str_bytes::{RawOsStr, Unix};
    ///
    /// let string = RawOsStr::<Unix>::from_encoded_bytes_unchecked(b"\x80\xC3\xA9");
    /// assert!(rt; string.is_boundary(0) && string.is_boundary(1) && string.is_boundary(3));
    /// assert!(rt; !string.is_boundary(2) && !string.is_boundary(4));
    /// ```
    pub fn is_boundary(self, at: usize) -> bool
        ensures { IsTrue result ↔ IsBoundary (raw_bytes self.entry) at }
    {
        self.string.is_boundary(at)
    }

    /// The parts before and after a boundary (test: [`RawOsStr::is_boundary`]), as std's
    /// `str::split_at`. The units of the first part and those of the second, joined, are the
    /// string's.
    ///
    /// ```
    /// use os_str_bytes::{RawOsStr, Unix};
    ///
    /// let (prefix, suffix) = RawOsStr::<Unix>::from_str("foobar").split_at(2);
    /// assert!(rt; prefix.eq_str("fo") && suffix.eq_str("obar"));
    /// ```
    pub fn split_at(self, at: usize) -> (Self, Self)
        requires { IsBoundary (raw_bytes self) at }
        ensures front { raw_bytes result.0 ≡ take at (raw_bytes self.entry) }
        ensures back { raw_bytes result.1 ≡ drop at (raw_bytes self.entry) }
        ensures units { raw_units self.entry ≡ raw_units result.0 ++ raw_units result.1 }
    {
        let (prefix, suffix) = self.string.split_at(at);
        (RawOsStr::new(prefix), RawOsStr::new(suffix))
    }

    /// Whether a range fits: its start is at most its end, both are boundaries, and the end is at
    /// most the string's length (own call).
    ///
    /// ```
    /// use os_str_bytes::{RawOsStr, Unix};
    ///
    /// let string = RawOsStr::<Unix>::from_str("foobar");
    /// assert!(rt; string.fits(&(3..=2)) && !string.fits(&(..7)));
    /// ```
    pub fn fits<I: SliceIndex>(self, range: &I) -> bool
        ensures { IsTrue result ↔ FitsIn (raw_bytes self.entry) (I.first_index range.now)
            (I.end_index range.now (length (raw_bytes self.entry))) }
    {
        range.fits(self.string)
    }

    /// The part in a range that fits (test: [`RawOsStr::fits`]), as std's indexing of `str`. The
    /// units before the range, those of the part and those after the range, joined, are the
    /// string's.
    ///
    /// ```
    /// use os_str_bytes::{RawOsStr, Unix};
    ///
    /// let string = RawOsStr::<Unix>::from_str("foobar");
    /// assert!(rt; string.index(0..=5) == string && string.index(3..=2).is_empty());
    /// ```
    pub fn index<I: SliceIndex>(self, range: I) -> Self
        requires { FitsIn (raw_bytes self) (I.first_index range)
            (I.end_index range (length (raw_bytes self))) }
        ensures bytes { raw_bytes result ≡ drop (I.first_index range)
            (take (I.end_index range (length (raw_bytes self.entry))) (raw_bytes self.entry)) }
        ensures units { IsPartInUnits E.units (raw_bytes self.entry) (I.first_index range)
            (I.end_index range (length (raw_bytes self.entry))) (raw_bytes result) }
    {
        RawOsStr::new(range.index(self.string))
    }

    /// The part of the string in the range, as [`RawOsStr::index`]. It has the name of std's
    /// `str::get_unchecked`, but is safe.
    ///
    /// ```
    /// use os_str_bytes::{RawOsStr, Unix};
    ///
    /// assert!(rt; RawOsStr::<Unix>::from_str("foobar").get_unchecked(3..).eq_str("bar"));
    /// ```
    pub fn get_unchecked<I: SliceIndex>(self, range: I) -> Self
        requires { FitsIn (raw_bytes self) (I.first_index range)
            (I.end_index range (length (raw_bytes self))) }
        ensures bytes { raw_bytes result ≡ drop (I.first_index range)
            (take (I.end_index range (length (raw_bytes self.entry))) (raw_bytes self.entry)) }
        ensures units { IsPartInUnits E.units (raw_bytes self.entry) (I.first_index range)
            (I.end_index range (length (raw_bytes self.entry))) (raw_bytes result) }
    {
        self.index(range)
    }

    // Searches.

    /// The first index at which the pattern occurs, or `None` if it doesn't occur. The string may
    /// be cut at that index and after the match.
    ///
    /// ```
    /// use os_str_bytes::{RawOsStr, Unix};
    ///
    /// let string = RawOsStr::<Unix>::from_str("foobar");
    /// assert_eq!(rt; string.find("o"), Some(1));
    /// assert_eq!(rt; string.find("of"), None);
    /// assert_eq!(rt; string.find(""), Some(0));
    /// ```
    pub fn find<P: Pattern>(self, pattern: P) -> Option<usize>
        ensures bytes { Finds IsFirstIndex (P.text pattern) (raw_bytes self.entry) result }
        ensures units { FindsInUnits IsFirstIndex E.well_formed E.units (P.text pattern)
            (raw_bytes self.entry) result }
        ensures edges { MayBeCutAround (raw_bytes self.entry) (length (P.text pattern)) result }
        ensures after { IfSome result (λ at. at + length (P.text pattern) < 2 ^ 64) }
    {
        self.string.find(pattern)
    }

    /// The last index at which the pattern occurs, or `None` if it doesn't occur. The string may be
    /// cut at that index and after the match.
    ///
    /// ```
    /// use os_str_bytes::{RawOsStr, Unix};
    ///
    /// let string = RawOsStr::<Unix>::from_str("foobar");
    /// assert_eq!(rt; string.rfind("o"), Some(2));
    /// assert_eq!(rt; string.rfind(""), Some(6));
    /// ```
    pub fn rfind<P: Pattern>(self, pattern: P) -> Option<usize>
        ensures bytes { Finds IsLastIndex (P.text pattern) (raw_bytes self.entry) result }
        ensures units { FindsInUnits IsLastIndex E.well_formed E.units (P.text pattern)
            (raw_bytes self.entry) result }
        ensures edges { MayBeCutAround (raw_bytes self.entry) (length (P.text pattern)) result }
        ensures after { IfSome result (λ at. at + length (P.text pattern) < 2 ^ 64) }
    {
        self.string.rfind(pattern)
    }

    /// Whether the pattern occurs in the string.
    ///
    /// ```
    /// use os_str_bytes::{RawOsStr, Unix};
    ///
    /// let string = RawOsStr::<Unix>::from_str("foobar");
    /// assert!(rt; string.contains("oba") && string.contains('r') && !string.contains("of"));
    /// ```
    pub fn contains<P: Pattern>(self, pattern: P) -> bool
        ensures bytes { IsTrue result ↔ OccursSomewhere (P.text pattern) (raw_bytes self.entry) }
        ensures units { IsTrue result ↔ OccursSomewhere (E.units (P.text pattern))
            (raw_units self.entry) }
    {
        self.string.contains(pattern)
    }

    /// Whether the string starts with the pattern.
    ///
    /// ```
    /// use os_str_bytes::{RawOsStr, Unix};
    ///
    /// let string = RawOsStr::<Unix>::from_str("foobar");
    /// assert!(rt; string.starts_with("foo") && string.starts_with(""));
    /// assert!(rt; !string.starts_with('b'));
    /// ```
    pub fn starts_with<P: Pattern>(self, pattern: P) -> bool
        ensures bytes { IsTrue result ↔ IsPrefix (P.text pattern) (raw_bytes self.entry) }
        ensures units { IsTrue result ↔ IsPrefix (E.units (P.text pattern)) (raw_units self.entry) }
    {
        self.string.starts_with(pattern)
    }

    /// Whether the string ends with the pattern.
    ///
    /// ```
    /// use os_str_bytes::{RawOsStr, Unix};
    ///
    /// let string = RawOsStr::<Unix>::from_str("foobar");
    /// assert!(rt; string.ends_with("bar") && string.ends_with(""));
    /// assert!(rt; !string.ends_with('b'));
    /// ```
    pub fn ends_with<P: Pattern>(self, pattern: P) -> bool
        ensures bytes { IsTrue result ↔ IsSuffix (P.text pattern) (raw_bytes self.entry) }
        ensures units { IsTrue result ↔ IsSuffix (E.units (P.text pattern)) (raw_units self.entry) }
    {
        self.string.ends_with(pattern)
    }

    /// Whether the units of the string start with the units of `prefix`. Half of a surrogate pair
    /// counts as a unit.
    ///
    /// ```
    /// use os_str_bytes::{OsString, RawOsStr, RawOsString, Windows};
    ///
    /// let high = RawOsString::new(OsString::<Windows>::from_wide(alloc, &[0xD83D])?);
    /// assert!(rt; RawOsStr::from_str("\u{1F600}").starts_with_os(high.as_raw()));
    /// ```
    pub fn starts_with_os(self, prefix: Self) -> bool
        ensures { IsTrue result ↔ IsPrefix (raw_units prefix.entry) (raw_units self.entry) }
    {
        self.string.starts_with_os(prefix.string)
    }

    /// Whether the units of the string end with the units of `suffix`. Half of a surrogate pair
    /// counts as a unit.
    ///
    /// ```
    /// use os_str_bytes::{OsString, RawOsStr, RawOsString, Windows};
    ///
    /// let low = RawOsString::new(OsString::<Windows>::from_wide(alloc, &[0xDE00])?);
    /// assert!(rt; RawOsStr::from_str("\u{1F600}").ends_with_os(low.as_raw()));
    /// ```
    pub fn ends_with_os(self, suffix: Self) -> bool
        ensures { IsTrue result ↔ IsSuffix (raw_units suffix.entry) (raw_units self.entry) }
    {
        self.string.ends_with_os(suffix.string)
    }

    // Strips and trims.

    /// The string without the pattern at its start, or `None` if it doesn't start with the pattern.
    ///
    /// ```
    /// use os_str_bytes::{RawOsStr, Unix};
    ///
    /// let string = RawOsStr::<Unix>::from_str("111foo");
    /// assert!(rt; string.strip_prefix("1") == Some(RawOsStr::from_str("11foo")));
    /// assert!(rt; string.strip_prefix("o") == None);
    /// ```
    pub fn strip_prefix<P: Pattern>(self, pattern: P) -> Option<Self>
        ensures bytes { StripsPrefix raw_bytes (P.text pattern) (raw_bytes self.entry) result }
        ensures units { StripsPrefix raw_units (E.units (P.text pattern)) (raw_units self.entry)
            result }
    {
        Some(RawOsStr::new(self.string.strip_prefix(pattern)?))
    }

    /// The string without the pattern at its end, or `None` if it doesn't end with the pattern.
    ///
    /// ```
    /// use os_str_bytes::{RawOsStr, Unix};
    ///
    /// let string = RawOsStr::<Unix>::from_str("bar111");
    /// assert!(rt; string.strip_suffix("1") == Some(RawOsStr::from_str("bar11")));
    /// ```
    pub fn strip_suffix<P: Pattern>(self, pattern: P) -> Option<Self>
        ensures bytes { StripsSuffix raw_bytes (P.text pattern) (raw_bytes self.entry) result }
        ensures units { StripsSuffix raw_units (E.units (P.text pattern)) (raw_units self.entry)
            result }
    {
        Some(RawOsStr::new(self.string.strip_suffix(pattern)?))
    }

    /// The string with all prefixes that match the pattern repeatedly removed. If the pattern is
    /// empty, it is the whole string.
    ///
    /// ```
    /// use os_str_bytes::{RawOsStr, Unix};
    ///
    /// assert!(rt; RawOsStr::<Unix>::from_str("111foo1").trim_start_matches("1").eq_str("foo1"));
    /// ```
    pub fn trim_start_matches<P: Pattern>(self, pattern: P) -> Self
        ensures { Trims E.units IsStartTrim (P.text pattern) (raw_bytes self.entry)
            (raw_bytes result) }
    {
        RawOsStr::new(self.string.trim_start_matches(pattern))
    }

    /// The string with all suffixes that match the pattern repeatedly removed. If the pattern is
    /// empty, it is the whole string.
    ///
    /// ```
    /// use os_str_bytes::{RawOsStr, Unix};
    ///
    /// assert!(rt; RawOsStr::<Unix>::from_str("1bar111").trim_end_matches('1').eq_str("1bar"));
    /// ```
    pub fn trim_end_matches<P: Pattern>(self, pattern: P) -> Self
        ensures { Trims E.units IsEndTrim (P.text pattern) (raw_bytes self.entry)
            (raw_bytes result) }
    {
        RawOsStr::new(self.string.trim_end_matches(pattern))
    }

    /// The string with all prefixes that match the pattern repeatedly removed, and then all such
    /// suffixes; the whole string if the pattern is empty.
    ///
    /// ```
    /// use os_str_bytes::{RawOsStr, Unix};
    ///
    /// let string = RawOsStr::<Unix>::from_str("111foo1bar111");
    /// assert!(rt; string.trim_matches("1").eq_str("foo1bar"));
    /// assert!(rt; RawOsStr::<Unix>::from_str("aaa").trim_matches("aa").eq_str("a"));
    /// ```
    pub fn trim_matches<P: Pattern>(self, pattern: P) -> Self
        ensures { Trims E.units IsTrim (P.text pattern) (raw_bytes self.entry) (raw_bytes result) }
    {
        RawOsStr::new(self.string.trim_matches(pattern))
    }

    // Pieces.

    /// The parts before and after the first occurrence of the pattern, or `None` if it doesn't
    /// occur.
    ///
    /// ```
    /// use os_str_bytes::{RawOsStr, Unix};
    ///
    /// let string = RawOsStr::<Unix>::from_str("foobar");
    /// let (prefix, suffix) = (RawOsStr::from_str("f"), RawOsStr::from_str("obar"));
    /// assert!(rt; string.split_once("o") == Some((prefix, suffix)));
    /// assert!(rt; string.split_once("of") == None);
    /// ```
    pub fn split_once<P: Pattern>(self, pattern: P) -> Option<(Self, Self)>
        ensures bytes { SplitsOnce IsFirstIndex raw_bytes (P.text pattern) (raw_bytes self.entry)
            result }
        ensures units { SplitsOnce IsFirstIndex raw_units (E.units (P.text pattern))
            (raw_units self.entry) result }
    {
        let (prefix, suffix) = self.string.split_once(pattern)?;
        Some((RawOsStr { string: prefix }, RawOsStr { string: suffix }))
    }

    /// The parts before and after the last occurrence of the pattern, or `None` if it doesn't
    /// occur.
    ///
    /// ```
    /// use os_str_bytes::{RawOsStr, Unix};
    ///
    /// let string = RawOsStr::<Unix>::from_str("foobar");
    /// let (prefix, suffix) = (RawOsStr::from_str("fo"), RawOsStr::from_str("bar"));
    /// assert!(rt; string.rsplit_once("o") == Some((prefix, suffix)));
    /// ```
    pub fn rsplit_once<P: Pattern>(self, pattern: P) -> Option<(Self, Self)>
        ensures bytes { SplitsOnce IsLastIndex raw_bytes (P.text pattern) (raw_bytes self.entry)
            result }
        ensures units { SplitsOnce IsLastIndex raw_units (E.units (P.text pattern))
            (raw_units self.entry) result }
    {
        let (prefix, suffix) = self.string.rsplit_once(pattern)?;
        Some((RawOsStr { string: prefix }, RawOsStr { string: suffix }))
    }

    /// The pieces between occurrences of the pattern, each cut at the first one in what is left.
    /// The pattern isn't empty (test: `str::is_empty`; a `char` never is).
    ///
    /// ```
    /// use os_str_bytes::{RawOsStr, Unix};
    ///
    /// let mut pieces = RawOsStr::<Unix>::from_str("foobar").split("o");
    /// assert!(rt; pieces.next() == Some(RawOsStr::from_str("f")));
    /// assert!(rt; pieces.next() == Some(RawOsStr::from_str("")));
    /// assert!(rt; pieces.next() == Some(RawOsStr::from_str("bar")));
    /// assert!(rt; pieces.next() == None);
    /// ```
    pub fn split<P: Pattern>(self, pattern: P) -> RawSplit<'a, E, P>
        requires { P.not_empty pattern }
        ensures { Splits E.units IsSplit (P.text pattern) (raw_bytes self.entry) result }
    {
        RawPieces::new(self.string.split(pattern))
    }

    /// The pieces between occurrences of the pattern, from the end, each cut at the last one in
    /// what is left. The pattern isn't empty (test: `str::is_empty`; a `char` never is).
    ///
    /// ```
    /// use os_str_bytes::{RawOsStr, Unix};
    ///
    /// let mut pieces = RawOsStr::<Unix>::from_str("foobar").rsplit("o");
    /// assert!(rt; pieces.next() == Some(RawOsStr::from_str("bar")));
    /// assert!(rt; pieces.next() == Some(RawOsStr::from_str("")));
    /// assert!(rt; pieces.next() == Some(RawOsStr::from_str("f")));
    /// assert!(rt; pieces.next() == None);
    /// ```
    pub fn rsplit<P: Pattern>(self, pattern: P) -> RawRSplit<'a, E, P>
        requires { P.not_empty pattern }
        ensures { Splits E.units IsRSplit (P.text pattern) (raw_bytes self.entry) result }
    {
        RawPieces::new(self.string.rsplit(pattern))
    }

    // Characters.

    /// The first character and the rest of the string, or `None` if the string doesn't start with a
    /// whole character (own call). On valid UTF-8, the character is what `next` of std's
    /// `str::chars` returns, and the rest is its `as_str`.
    ///
    /// ```
    /// use os_str_bytes::{RawOsStr, Unix};
    ///
    /// let string = RawOsStr::<Unix>::checked(b"\xC3\xA9\x80")?;
    /// let rest = RawOsStr::<Unix>::checked(b"\x80")?;
    /// assert!(rt; string.split_first_char() == Some(('\u{E9}', rest)));
    /// assert!(rt; rest.split_first_char().is_none());
    /// ```
    pub fn split_first_char(self) -> Option<(char, Self)>
        ensures bytes { SplitsFirstChar raw_bytes (raw_bytes self.entry) result }
        ensures units { IfSome result (λ parts. raw_units self.entry
            ≡ E.units (encode_utf8 parts.0) ++ raw_units parts.1) }
    {
        let (first, rest) = self.string.split_first_char()?;
        Some((first, RawOsStr::new(rest)))
    }

    /// The last character and the rest of the string, or `None` if the string doesn't end with a
    /// whole character (own call). On valid UTF-8, it is what `next_back` of std's `str::chars`
    /// returns.
    ///
    /// ```
    /// use os_str_bytes::{RawOsStr, Unix};
    ///
    /// let string = RawOsStr::<Unix>::checked(b"\x80\xC3\xA9")?;
    /// let rest = RawOsStr::<Unix>::checked(b"\x80")?;
    /// assert!(rt; string.split_last_char() == Some(('\u{E9}', rest)));
    /// assert!(rt; rest.split_last_char().is_none());
    /// ```
    pub fn split_last_char(self) -> Option<(char, Self)>
        ensures bytes { SplitsLastChar raw_bytes (raw_bytes self.entry) result }
        ensures units { IfSome result (λ parts. raw_units self.entry
            ≡ raw_units parts.1 ++ E.units (encode_utf8 parts.0)) }
    {
        let (last, rest) = self.string.split_last_char()?;
        Some((last, RawOsStr::new(rest)))
    }

    // Chunks.

    /// The string's chunks: its parts that contain no whole character, each with the text after it.
    /// Only the first part may be empty, and only the last text; never both in one chunk. All
    /// chunks joined are the string, and it has no other list of them.
    ///
    /// ```
    /// use os_str_bytes::{RawOsStr, Unix};
    ///
    /// let string = RawOsStr::<Unix>::from_encoded_bytes_unchecked(b"fo\x80\xFFo");
    /// let mut chunks = string.utf8_chunks();
    /// if let Some((part, text)) = chunks.next() {
    ///     assert!(rt; part.as_os_str().is_empty() && text == "fo");
    /// }
    /// if let Some((part, text)) = chunks.next() {
    ///     assert_eq!(rt; part.as_os_str().as_encoded_bytes(), b"\x80\xFF".as_slice());
    ///     assert_eq!(rt; text, "o");
    /// }
    /// assert!(rt; chunks.next().is_none());
    /// ```
    pub fn utf8_chunks(self) -> Utf8Chunks<'a, E>
        ensures chunks { AreChunks (raw_bytes self.entry) result }
        ensures value { result ≡ chunks_of (raw_bytes self.entry) }
    {
        self.string.utf8_chunks()
    }

    // Symbols.

    /// The string's symbols, one by one: its whole characters, and the units of what isn't text
    /// (own call). On valid UTF-8, they are the characters that std's `str::chars` yields. It
    /// doesn't allocate.
    ///
    /// ```
    /// use os_str_bytes::{RawOsStr, Symbol, Unix};
    ///
    /// let mut symbols = RawOsStr::<Unix>::from_encoded_bytes_unchecked(b"a\x80").symbols();
    /// assert!(rt; symbols.next() == Some(Symbol::Character('a')));
    /// if let Some(Symbol::Unit(unit)) = symbols.next() {
    ///     assert_eq!(rt; unit.to_u64(), 0x80);
    /// }
    /// assert!(rt; symbols.next() == None);
    /// ```
    pub fn symbols(self) -> Symbols<'a, E>
        ensures symbols { AreSymbols E.units (raw_bytes self.entry) result }
        ensures value { result ≡ symbols_of E.units (raw_bytes self.entry) }
    {
        self.string.symbols()
    }

    // Joins.

    /// The string repeated `count` times: its units, that many times (std's `str::repeat`). On
    /// Windows a high surrogate at the end of one copy and a low one at the start of the next
    /// become one code point (WTF-8, "Concatenating"). It requests all the memory at once, and none
    /// if `count` is 0 or the string is empty.
    ///
    /// # Errors
    ///
    /// `AllocError` if the allocation fails, or if `count` times the number of bytes is more than
    /// `usize::MAX`.
    ///
    /// ```
    /// use os_str_bytes::{RawOsStr, Unix};
    ///
    /// let repeated = RawOsStr::<Unix>::from_str("foo").repeat(alloc, 3)?;
    /// assert!(rt; repeated.eq_str("foofoofoo"));
    /// ```
    pub fn repeat<A: Allocator>(
        self,
        alloc: A,
        count: usize,
    ) -> Result<RawOsString<E, A>, AllocError>
        ensures units { IfOk result (λ made. E.units (raw_vec_of made).items
            ≡ repeat count (raw_units self.entry)) }
        ensures empty { count * length (raw_bytes self.entry) ≡ 0 → IsOk result }
        ensures overflow { usize.MAX < count * length (raw_bytes self.entry) → IsErr result }
    {
        Ok(RawOsString::new(self.string.repeat(alloc, count)?))
    }
}
