//! The calls that every string of a platform has in addition to its conversions.
ghost use Rattle.std.specs.Prelude.{ℕ, List, ◌≡◌, ◌<◌, ◌↔◌, ◌++◌, ◌+◌, ◌*◌, ◌^◌, IsTrue, IsOk, IsErr, IfOk, IfSome, length, take, drop, refl};
ghost use Rattle.wtf8_core.specs.Occurrence.{Finds, IsFirstIndex, IsLastIndex, IsPrefix, IsSuffix};
ghost use Rattle.wtf8_core.specs.{UnitIndex.FindsInUnits, Boundary.IsBoundary, Chunks.AreChunks};
ghost use Rattle.os_str_ext.specs.Pieces.{OccursSomewhere, MayBeCutAround, StripsPrefix, StripsSuffix, IsStartTrim, IsEndTrim, IsTrim, IsSplit, IsRSplit, SplitsOnce, Splits, Trims};
ghost use Rattle.std.specs.{Char.encode_utf8, List.repeat};
ghost use Rattle.platform_str.specs.Strings.{bytes, string_vec_of};
ghost use Rattle.os_str_ext.specs.{Characters.SplitsFirstChar, Characters.SplitsLastChar, Chunks.chunks_of};
ghost use Rattle.os_str_ext.specs.{Range.FitsIn, Range.IsPartInUnits, Symbols.AreSymbols, Symbols.symbols_of};

use crate::chunks::Utf8Chunks;
use crate::iter::{RSplit, Split};
use crate::pattern::{Encoded, Pattern};
use crate::slice_index::SliceIndex;
use crate::symbols::Symbols;
use crate::{boundary, characters, iter, parts, repeat, search};
use platform_str::{OsStr, OsStrBytes, OsString, Platform};
use std::alloc::{AllocError, Allocator};

/// Searches, cuts and pieces of strings, each equivalent to the call of its name on std's `str`.
/// All indices are byte indices. No call but [`OsStrBytesExt::repeat`] allocates.
///
/// A boundary is 0, the length, or an index at which a whole character starts or ends, as in the
/// documentation of std's `OsStr::slice_encoded_bytes`. A search looks for its pattern's text.
pub trait OsStrBytesExt<'a>: OsStrBytes<'a> {
    // the string's units
    ghost units_of: { Self → List ℕ };

    // Cuts.

    /// Whether the string may be cut at index `at`, as std's `str::is_char_boundary`; `false` if
    /// `at` is greater than the length (own call).
    ///
    /// ```
    /// use os_str_bytes::{OsStr, OsStrBytesExt, Unix};
    ///
    /// let string = OsStr::<Unix>::from_encoded_bytes_unchecked(b"\x80\xC3\xA9");
    /// assert!(rt; string.is_boundary(0) && string.is_boundary(1) && string.is_boundary(3));
    /// assert!(rt; !string.is_boundary(2) && !string.is_boundary(4));
    /// ```
    fn is_boundary(self, at: usize) -> bool
        ensures { IsTrue result ↔ IsBoundary (Self.bytes_of self) at };

    /// The parts before and after a boundary (test: [`OsStrBytesExt::is_boundary`]), as std's
    /// `str::split_at`. The units of the first part and those of the second, joined, are the
    /// string's.
    ///
    /// ```
    /// use os_str_bytes::{OsStr, OsStrBytesExt, Unix};
    ///
    /// let (prefix, suffix) = OsStr::<Unix>::new("foobar").split_at(2);
    /// assert!(rt; prefix == OsStr::new("fo") && suffix == OsStr::new("obar"));
    /// ```
    fn split_at(self, at: usize) -> (Self, Self)
        requires { IsBoundary (Self.bytes_of self) at }
        ensures front { Self.bytes_of result.0 ≡ take at (Self.bytes_of self) }
        ensures back { Self.bytes_of result.1 ≡ drop at (Self.bytes_of self) }
        ensures units { units_of self ≡ units_of result.0 ++ units_of result.1 };

    /// The part in a range that fits (test: [`SliceIndex::fits`]), as std's indexing of `str`. The
    /// units before the range, those of the part and those after the range, joined, are the
    /// string's.
    ///
    /// ```
    /// use os_str_bytes::{OsStr, OsStrBytesExt, Unix};
    ///
    /// let string = OsStr::<Unix>::new("foobar");
    /// assert!(rt; string.index(0..=5) == string);
    /// assert!(rt; string.index(3..=2).is_empty());
    /// ```
    fn index<I: SliceIndex>(self, range: I) -> Self
        requires { FitsIn (Self.bytes_of self) (I.first_index range)
            (I.end_index range (length (Self.bytes_of self))) }
        ensures bytes { Self.bytes_of result
            ≡ drop (I.first_index range)
            (take (I.end_index range (length (Self.bytes_of self))) (Self.bytes_of self)) }
        ensures units { IsPartInUnits Self.Platform.units (Self.bytes_of self) (I.first_index range)
            (I.end_index range (length (Self.bytes_of self))) (Self.bytes_of result) };

    /// The part of the string in the range, as [`OsStrBytesExt::index`]. It has the name of std's
    /// `str::get_unchecked`, but is safe.
    ///
    /// ```
    /// use os_str_bytes::{OsStr, OsStrBytesExt, Unix};
    ///
    /// assert!(rt; OsStr::<Unix>::new("foobar").get_unchecked(3..) == OsStr::new("bar"));
    /// ```
    fn get_unchecked<I: SliceIndex>(self, range: I) -> Self
        requires { FitsIn (Self.bytes_of self) (I.first_index range)
            (I.end_index range (length (Self.bytes_of self))) }
        ensures bytes { Self.bytes_of result
            ≡ drop (I.first_index range)
            (take (I.end_index range (length (Self.bytes_of self))) (Self.bytes_of self)) }
        ensures units { IsPartInUnits Self.Platform.units (Self.bytes_of self) (I.first_index range)
            (I.end_index range (length (Self.bytes_of self))) (Self.bytes_of result) };

    // Searches.

    /// The first index at which the pattern occurs, or `None` if it doesn't occur. The string may
    /// be cut at that index and after the match, at `index + text.len()`.
    ///
    /// ```
    /// use os_str_bytes::{OsStr, OsStrBytesExt, Unix};
    ///
    /// let string = OsStr::<Unix>::new("foobar");
    /// assert_eq!(rt; string.find("o"), Some(1));
    /// assert_eq!(rt; string.find("of"), None);
    /// assert_eq!(rt; string.find(""), Some(0));
    /// ```
    fn find<P: Pattern>(self, pattern: P) -> Option<usize>
        ensures bytes { Finds IsFirstIndex (P.text pattern) (Self.bytes_of self) result }
        ensures units { FindsInUnits IsFirstIndex Self.Platform.well_formed Self.Platform.units
            (P.text pattern) (Self.bytes_of self) result }
        ensures edges { MayBeCutAround (Self.bytes_of self) (length (P.text pattern)) result }
        ensures after { IfSome result (λ at. at + length (P.text pattern) < 2 ^ 64) };

    /// The last index at which the pattern occurs, or `None` if it doesn't occur. The string may be
    /// cut at that index and after the match, at `index + text.len()`.
    ///
    /// ```
    /// use os_str_bytes::{OsStr, OsStrBytesExt, Unix};
    ///
    /// let string = OsStr::<Unix>::new("foobar");
    /// assert_eq!(rt; string.rfind("o"), Some(2));
    /// assert_eq!(rt; string.rfind(""), Some(6));
    /// ```
    fn rfind<P: Pattern>(self, pattern: P) -> Option<usize>
        ensures bytes { Finds IsLastIndex (P.text pattern) (Self.bytes_of self) result }
        ensures units { FindsInUnits IsLastIndex Self.Platform.well_formed Self.Platform.units
            (P.text pattern) (Self.bytes_of self) result }
        ensures edges { MayBeCutAround (Self.bytes_of self) (length (P.text pattern)) result }
        ensures after { IfSome result (λ at. at + length (P.text pattern) < 2 ^ 64) };

    /// Whether the pattern occurs in the string.
    ///
    /// ```
    /// use os_str_bytes::{OsStr, OsStrBytesExt, Unix};
    ///
    /// let string = OsStr::<Unix>::new("foobar");
    /// assert!(rt; string.contains("oba") && string.contains('r') && !string.contains("of"));
    /// ```
    fn contains<P: Pattern>(self, pattern: P) -> bool
        ensures bytes { IsTrue result ↔ OccursSomewhere (P.text pattern) (Self.bytes_of self) }
        ensures units { IsTrue result ↔ OccursSomewhere (Self.Platform.units (P.text pattern))
            (units_of self) };

    /// Whether the string starts with the pattern.
    ///
    /// ```
    /// use os_str_bytes::{OsStr, OsStrBytesExt, Unix};
    ///
    /// let string = OsStr::<Unix>::new("foobar");
    /// assert!(rt; string.starts_with("foo") && string.starts_with(""));
    /// assert!(rt; !string.starts_with('b'));
    /// ```
    fn starts_with<P: Pattern>(self, pattern: P) -> bool
        ensures bytes { IsTrue result ↔ IsPrefix (P.text pattern) (Self.bytes_of self) }
        ensures units { IsTrue result ↔ IsPrefix (Self.Platform.units (P.text pattern))
            (units_of self) };

    /// Whether the string ends with the pattern.
    ///
    /// ```
    /// use os_str_bytes::{OsStr, OsStrBytesExt, Unix};
    ///
    /// let string = OsStr::<Unix>::new("foobar");
    /// assert!(rt; string.ends_with("bar") && string.ends_with(""));
    /// assert!(rt; !string.ends_with('b'));
    /// ```
    fn ends_with<P: Pattern>(self, pattern: P) -> bool
        ensures bytes { IsTrue result ↔ IsSuffix (P.text pattern) (Self.bytes_of self) }
        ensures units { IsTrue result ↔ IsSuffix (Self.Platform.units (P.text pattern))
            (units_of self) };

    /// Whether the units of the string start with the units of `prefix`. Half of a surrogate pair
    /// counts as a unit.
    ///
    /// ```
    /// use os_str_bytes::{OsStrBytesExt, OsString, Windows};
    ///
    /// let string = OsString::<Windows>::from_wide(alloc, &[0xD83D, 0xDE00])?;
    /// let high = OsString::<Windows>::from_wide(alloc, &[0xD83D])?;
    /// assert!(rt; string.as_os_str().starts_with_os(high.as_os_str()));
    /// ```
    fn starts_with_os(self, prefix: Self) -> bool
        ensures { IsTrue result ↔ IsPrefix (units_of prefix) (units_of self) };

    /// Whether the units of the string end with the units of `suffix`. Half of a surrogate pair
    /// counts as a unit.
    ///
    /// ```
    /// use os_str_bytes::{OsStrBytesExt, OsString, Windows};
    ///
    /// let string = OsString::<Windows>::from_wide(alloc, &[0xD83D, 0xDE00])?;
    /// let low = OsString::<Windows>::from_wide(alloc, &[0xDE00])?;
    /// assert!(rt; string.as_os_str().ends_with_os(low.as_os_str()));
    /// ```
    fn ends_with_os(self, suffix: Self) -> bool
        ensures { IsTrue result ↔ IsSuffix (units_of suffix) (units_of self) };

    // Strips and trims.

    /// The string without the pattern at its start, or `None` if it doesn't start with the pattern.
    ///
    /// ```
    /// use os_str_bytes::{OsStr, OsStrBytesExt, Unix};
    ///
    /// let string = OsStr::<Unix>::new("111foo");
    /// assert!(rt; string.strip_prefix("1") == Some(OsStr::new("11foo")));
    /// assert!(rt; string.strip_prefix("o") == None);
    /// ```
    fn strip_prefix<P: Pattern>(self, pattern: P) -> Option<Self>
        ensures bytes { StripsPrefix Self.bytes_of (P.text pattern) (Self.bytes_of self) result }
        ensures units { StripsPrefix units_of (Self.Platform.units (P.text pattern)) (units_of self)
            result };

    /// The string without the pattern at its end, or `None` if it doesn't end with the pattern.
    ///
    /// ```
    /// use os_str_bytes::{OsStr, OsStrBytesExt, Unix};
    ///
    /// let string = OsStr::<Unix>::new("bar111");
    /// assert!(rt; string.strip_suffix("1") == Some(OsStr::new("bar11")));
    /// ```
    fn strip_suffix<P: Pattern>(self, pattern: P) -> Option<Self>
        ensures bytes { StripsSuffix Self.bytes_of (P.text pattern) (Self.bytes_of self) result }
        ensures units { StripsSuffix units_of (Self.Platform.units (P.text pattern)) (units_of self)
            result };

    /// The string with all prefixes that match the pattern repeatedly removed. If the pattern is
    /// empty, it is the whole string.
    ///
    /// ```
    /// use os_str_bytes::{OsStr, OsStrBytesExt, Unix};
    ///
    /// let string = OsStr::<Unix>::new("111foo1");
    /// assert!(rt; string.trim_start_matches("1") == OsStr::new("foo1"));
    /// ```
    fn trim_start_matches<P: Pattern>(self, pattern: P) -> Self
        ensures { Trims Self.Platform.units IsStartTrim (P.text pattern) (Self.bytes_of self)
            (Self.bytes_of result) };

    /// The string with all suffixes that match the pattern repeatedly removed. If the pattern is
    /// empty, it is the whole string.
    ///
    /// ```
    /// use os_str_bytes::{OsStr, OsStrBytesExt, Unix};
    ///
    /// let string = OsStr::<Unix>::new("1bar111");
    /// assert!(rt; string.trim_end_matches('1') == OsStr::new("1bar"));
    /// ```
    fn trim_end_matches<P: Pattern>(self, pattern: P) -> Self
        ensures { Trims Self.Platform.units IsEndTrim (P.text pattern) (Self.bytes_of self)
            (Self.bytes_of result) };

    /// The string with all prefixes that match the pattern repeatedly removed, and then all such
    /// suffixes; the whole string if the pattern is empty. std has it only for some patterns.
    ///
    /// ```
    /// use os_str_bytes::{OsStr, OsStrBytesExt, Unix};
    ///
    /// let string = OsStr::<Unix>::new("111foo1bar111");
    /// assert!(rt; string.trim_matches("1") == OsStr::new("foo1bar"));
    /// assert!(rt; OsStr::<Unix>::new("aaa").trim_matches("aa") == OsStr::new("a"));
    /// ```
    fn trim_matches<P: Pattern>(self, pattern: P) -> Self
        ensures { Trims Self.Platform.units IsTrim (P.text pattern) (Self.bytes_of self)
            (Self.bytes_of result) };

    // Pieces.

    /// The parts before and after the first occurrence of the pattern, or `None` if it doesn't
    /// occur.
    ///
    /// ```
    /// use os_str_bytes::{OsStr, OsStrBytesExt, Unix};
    ///
    /// let string = OsStr::<Unix>::new("foobar");
    /// assert!(rt; string.split_once("o") == Some((OsStr::new("f"), OsStr::new("obar"))));
    /// assert!(rt; string.split_once("") == Some((OsStr::new(""), string)));
    /// ```
    fn split_once<P: Pattern>(self, pattern: P) -> Option<(Self, Self)>
        ensures bytes { SplitsOnce IsFirstIndex Self.bytes_of (P.text pattern) (Self.bytes_of self)
            result }
        ensures units { SplitsOnce IsFirstIndex units_of (Self.Platform.units (P.text pattern))
            (units_of self) result };

    /// The parts before and after the last occurrence of the pattern, or `None` if it doesn't
    /// occur.
    ///
    /// ```
    /// use os_str_bytes::{OsStr, OsStrBytesExt, Unix};
    ///
    /// let string = OsStr::<Unix>::new("foobar");
    /// assert!(rt; string.rsplit_once("o") == Some((OsStr::new("fo"), OsStr::new("bar"))));
    /// assert!(rt; string.rsplit_once("") == Some((string, OsStr::new(""))));
    /// ```
    fn rsplit_once<P: Pattern>(self, pattern: P) -> Option<(Self, Self)>
        ensures bytes { SplitsOnce IsLastIndex Self.bytes_of (P.text pattern)
            (Self.bytes_of self) result }
        ensures units { SplitsOnce IsLastIndex units_of (Self.Platform.units (P.text pattern))
            (units_of self) result };

    /// The pieces between occurrences of the pattern, each cut at the first one in what is left.
    /// The pattern isn't empty (test: `str::is_empty`; a `char` never is).
    ///
    /// ```
    /// use os_str_bytes::{OsStr, OsStrBytesExt, Unix};
    ///
    /// let mut pieces = OsStr::<Unix>::new("foobar").split("o");
    /// assert!(rt; pieces.next() == Some(OsStr::new("f")));
    /// assert!(rt; pieces.next() == Some(OsStr::new("")));
    /// assert!(rt; pieces.next() == Some(OsStr::new("bar")));
    /// assert!(rt; pieces.next() == None);
    /// ```
    final fn split<P: Pattern>(self, pattern: P) -> Split<'a, Self::Platform, P>
        requires { P.not_empty pattern }
        ensures { Splits Self.Platform.units IsSplit (P.text pattern) (Self.bytes_of self) result }
    {
        let string = OsStr::from_encoded_bytes_unchecked(self.encoded_bytes());
        iter::split(string, pattern)
    }

    /// The pieces between occurrences of the pattern, from the end, each cut at the last one in
    /// what is left. The pattern isn't empty (test: `str::is_empty`; a `char` never is).
    ///
    /// ```
    /// use os_str_bytes::{OsStr, OsStrBytesExt, Unix};
    ///
    /// let mut pieces = OsStr::<Unix>::new("aaa").rsplit("aa");
    /// assert!(rt; pieces.next() == Some(OsStr::new("")));
    /// assert!(rt; pieces.next() == Some(OsStr::new("a")));
    /// assert!(rt; pieces.next() == None);
    /// ```
    final fn rsplit<P: Pattern>(self, pattern: P) -> RSplit<'a, Self::Platform, P>
        requires { P.not_empty pattern }
        ensures { Splits Self.Platform.units IsRSplit (P.text pattern) (Self.bytes_of self) result }
    {
        let string = OsStr::from_encoded_bytes_unchecked(self.encoded_bytes());
        iter::rsplit(string, pattern)
    }

    // Characters.

    /// The first character and the rest of the string, or `None` if the string doesn't start with a
    /// whole character (own call). On valid UTF-8, the character is what `next` of std's
    /// `str::chars` returns, and the rest is its `as_str`.
    ///
    /// ```
    /// use os_str_bytes::{OsStr, OsStrBytesExt, Unix};
    ///
    /// let string = OsStr::<Unix>::checked(b"\xC3\xA9\x80")?;
    /// let rest = OsStr::<Unix>::checked(b"\x80")?;
    /// assert!(rt; string.split_first_char() == Some(('\u{E9}', rest)));
    /// assert!(rt; rest.split_first_char().is_none());
    /// ```
    fn split_first_char(self) -> Option<(char, Self)>
        ensures bytes { SplitsFirstChar Self.bytes_of (Self.bytes_of self) result }
        ensures units { IfSome result (λ parts. units_of self
            ≡ Self.Platform.units (encode_utf8 parts.0) ++ units_of parts.1) };

    /// The last character and the rest of the string, or `None` if the string doesn't end with a
    /// whole character (own call). On valid UTF-8, it is what `next_back` of std's `str::chars`
    /// returns.
    ///
    /// ```
    /// use os_str_bytes::{OsStr, OsStrBytesExt, Unix};
    ///
    /// let string = OsStr::<Unix>::checked(b"\x80\xC3\xA9")?;
    /// let rest = OsStr::<Unix>::checked(b"\x80")?;
    /// assert!(rt; string.split_last_char() == Some(('\u{E9}', rest)));
    /// assert!(rt; rest.split_last_char().is_none());
    /// ```
    fn split_last_char(self) -> Option<(char, Self)>
        ensures bytes { SplitsLastChar Self.bytes_of (Self.bytes_of self) result }
        ensures units { IfSome result (λ parts. units_of self
            ≡ units_of parts.1 ++ Self.Platform.units (encode_utf8 parts.0)) };

    // Chunks.

    /// The string's chunks: its parts that contain no whole character, each with the text after it.
    /// Only the first part may be empty, and only the last text; never both in one chunk. All
    /// chunks joined are the string, and it has no other list of them. std's `[u8]::utf8_chunks`
    /// puts each text first and ends a part at each fault.
    ///
    /// ```
    /// use os_str_bytes::{OsStr, OsStrBytesExt, Unix};
    ///
    /// let string = OsStr::<Unix>::from_encoded_bytes_unchecked(b"fo\x80\xFFo");
    /// let mut chunks = string.utf8_chunks();
    /// if let Some((part, text)) = chunks.next() {
    ///     assert!(rt; part.as_os_str().is_empty() && text == "fo");
    /// }
    /// if let Some((part, text)) = chunks.next() {
    ///     assert_eq!(rt; part.as_os_str().as_encoded_bytes(), b"\x80\xFF".as_slice());
    ///     assert_eq!(rt; text, "o");
    /// }
    /// assert!(rt; chunks.next().is_none());
    /// ```
    final fn utf8_chunks(self) -> Utf8Chunks<'a, Self::Platform>
        ensures chunks { AreChunks (Self.bytes_of self) result }
        ensures value { result ≡ chunks_of (Self.bytes_of self) }
    {
        Utf8Chunks::new(OsStr::from_encoded_bytes_unchecked(self.encoded_bytes()))
    }

    // Symbols.

    /// The string's symbols, one by one: its whole characters, and the units of what isn't text
    /// (own call). On valid UTF-8, they are the characters that std's `str::chars` yields. They are
    /// the symbols of its chunks: for each chunk, the units of its part and then the characters of
    /// its text. Their bytes joined are the string, and it has no other list of them. It doesn't
    /// allocate.
    ///
    /// ```
    /// use os_str_bytes::{OsStrBytesExt, OsString, Symbol, Windows};
    ///
    /// let string = OsString::<Windows>::from_wide(alloc, &[0x61, 0xD83D, 0xD83D, 0xDE00])?;
    /// let mut symbols = string.as_os_str().symbols();
    /// assert!(rt; symbols.next() == Some(Symbol::Character('a')));
    /// if let Some(Symbol::Unit(unit)) = symbols.next() {
    ///     assert_eq!(rt; unit.to_u64(), 0xD83D);
    /// }
    /// assert!(rt; symbols.next() == Some(Symbol::Character('\u{1F600}')));
    /// assert!(rt; symbols.next() == None);
    /// ```
    #[inline(always)]
    final fn symbols(self) -> Symbols<'a, Self::Platform>
        ensures symbols { AreSymbols Self.Platform.units (Self.bytes_of self) result }
        ensures value { result ≡ symbols_of Self.Platform.units (Self.bytes_of self) }
    {
        Symbols::new(OsStr::from_encoded_bytes_unchecked(self.encoded_bytes()))
    }

    // Joins.

    /// The string repeated `count` times: its units, that many times (std's `str::repeat`). On
    /// Windows a high surrogate at the end of one copy and a low one at the start of the next
    /// become one code point (WTF-8, "Concatenating"). It requests all the memory at once, and none
    /// if `count` is 0 or the string is empty.
    ///
    /// # Errors
    ///
    /// `AllocError` if the allocation fails, or if `count` times the number of bytes is more than
    /// `usize::MAX`.
    ///
    /// ```
    /// use os_str_bytes::{OsStr, OsStrBytesExt, OsString, Unix, Windows};
    ///
    /// let repeated = OsStr::<Unix>::new("foo").repeat(alloc, 3)?;
    /// assert!(rt; repeated.as_os_str() == OsStr::new("foofoofoo"));
    ///
    /// let halves = OsString::<Windows>::from_wide(alloc, &[0xDC00, 0xD800])?;
    /// let joined = OsString::<Windows>::from_wide(alloc, &[0xDC00, 0xD800, 0xDC00, 0xD800])?;
    /// assert!(rt; halves.as_os_str().repeat(alloc, 2)? == joined);
    /// ```
    final fn repeat<A: Allocator>(
        self,
        alloc: A,
        count: usize,
    ) -> Result<OsString<Self::Platform, A>, AllocError>
        ensures units { IfOk result (λ made. Self.Platform.units (string_vec_of made).items
            ≡ repeat count (units_of self)) }
        ensures empty { count * length (Self.bytes_of self) ≡ 0 → IsOk result }
        ensures overflow { usize.MAX < count * length (Self.bytes_of self) → IsErr result }
    {
        let string = OsStr::from_encoded_bytes_unchecked(self.encoded_bytes());
        repeat::repeat(alloc, string, count)
    }

    // the units of a string are the platform's units of its bytes
    ghost units_are: { (string : Self) → units_of string
        ≡ Self.Platform.units (Self.bytes_of string) };
}

impl<'a, E: Platform + 'a> OsStrBytesExt<'a> for OsStr<'a, E> {
    ghost units_of = { λ string. E.units (bytes string) };

    ghost units_are = { λ _. refl };

    fn is_boundary(self, at: usize) -> bool {
        boundary::is_boundary(self.as_encoded_bytes(), at)
    }

    fn split_at(self, at: usize) -> (Self, Self) {
        boundary::split_at(self, at)
    }

    fn index<I: SliceIndex>(self, range: I) -> Self {
        range.index(self)
    }

    fn get_unchecked<I: SliceIndex>(self, range: I) -> Self {
        range.get_unchecked(self)
    }

    #[inline(always)]
    fn find<P: Pattern>(self, pattern: P) -> Option<usize> {
        let encoded = pattern.encode();
        search::find(self.as_encoded_bytes(), encoded.as_str())
    }

    #[inline(always)]
    fn rfind<P: Pattern>(self, pattern: P) -> Option<usize> {
        let encoded = pattern.encode();
        search::rfind(self.as_encoded_bytes(), encoded.as_str())
    }

    #[inline(always)]
    #[tactic(auto, using(crate::proofs::lemmas::Searches::found_somewhere))]
    fn contains<P: Pattern>(self, pattern: P) -> bool {
        self.find(pattern).is_some()
    }

    #[inline(always)]
    fn starts_with<P: Pattern>(self, pattern: P) -> bool {
        let encoded = pattern.encode();
        search::starts_with(self.as_encoded_bytes(), encoded.as_str())
    }

    #[inline(always)]
    fn ends_with<P: Pattern>(self, pattern: P) -> bool {
        let encoded = pattern.encode();
        search::ends_with(self.as_encoded_bytes(), encoded.as_str())
    }

    #[inline(always)]
    fn starts_with_os(self, prefix: Self) -> bool {
        E::starts_with_os(self.as_encoded_bytes(), prefix.as_encoded_bytes())
    }

    #[inline(always)]
    fn ends_with_os(self, suffix: Self) -> bool {
        E::ends_with_os(self.as_encoded_bytes(), suffix.as_encoded_bytes())
    }

    #[inline(always)]
    fn strip_prefix<P: Pattern>(self, pattern: P) -> Option<Self> {
        let encoded = pattern.encode();
        parts::strip_prefix(self, encoded.as_str())
    }

    #[inline(always)]
    fn strip_suffix<P: Pattern>(self, pattern: P) -> Option<Self> {
        let encoded = pattern.encode();
        parts::strip_suffix(self, encoded.as_str())
    }

    fn trim_start_matches<P: Pattern>(self, pattern: P) -> Self {
        let encoded = pattern.encode();
        parts::trim_start(self, encoded.as_str())
    }

    fn trim_end_matches<P: Pattern>(self, pattern: P) -> Self {
        let encoded = pattern.encode();
        parts::trim_end(self, encoded.as_str())
    }

    fn trim_matches<P: Pattern>(self, pattern: P) -> Self {
        let encoded = pattern.encode();
        parts::trim_end(parts::trim_start(self, encoded.as_str()), encoded.as_str())
    }

    #[inline(always)]
    fn split_once<P: Pattern>(self, pattern: P) -> Option<(Self, Self)> {
        let encoded = pattern.encode();
        parts::split_once(self, encoded.as_str())
    }

    #[inline(always)]
    fn rsplit_once<P: Pattern>(self, pattern: P) -> Option<(Self, Self)> {
        let encoded = pattern.encode();
        parts::rsplit_once(self, encoded.as_str())
    }

    #[inline(always)]
    fn split_first_char(self) -> Option<(char, Self)> {
        characters::split_first_char(self)
    }

    #[inline(always)]
    fn split_last_char(self) -> Option<(char, Self)> {
        characters::split_last_char(self)
    }
}
