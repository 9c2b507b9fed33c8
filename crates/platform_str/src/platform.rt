//! What a platform is, and the three platforms of this crate.
ghost use Rattle.std.specs.Prelude.{◌≡◌, ◌<◌, ◌↔◌, ◌++◌, ◌+◌, ℕ, List, length, IsTrue, IfOk, MatchOption, MatchResult, OnOk, OnErr, vec_capacity, vec_len};
ghost use Rattle.std.specs.Str.{IsUtf8};
ghost use Rattle.wtf8_core.specs.{Covered.StartsWithNoCharacter, Utf8.IsUtf8Fault};
ghost use Rattle.platform_str.specs.Lossy.{IsFaultPart};
ghost use Rattle.wtf8_core.specs.{Occurrence.IsPrefix, Occurrence.IsSuffix, OccurrenceLaws.OccurrenceLaws, declared.fault.EncodingError.EncodingError};
ghost use Rattle.platform_str.specs.Laws.{PlatformLaws, PartLaws, ReadingLaws, IsFirstUnit};

use std::alloc::{AllocError, Allocator};
use wtf8_core::{EncodingError, utf8_fault};

/// The strings of a platform, as lists of bytes.
///
/// An implementation proves the laws of the trait, which are all that generic code knows of a
/// platform. Each list of units has one encoding. Texts are strings, and what follows a text at the
/// start of a string is well formed. At a boundary both parts are well formed, and their units,
/// joined, are the string's. Before a byte that isn't a continuation, what follows is well formed.
/// A text occurs in a string's bytes where its units occur in the string's units. For any two
/// strings some string has the units of both, joined. Any bytes have one lossy reading, which is a
/// string. The module `laws` states the laws one by one.
pub trait Platform {
    // which bytes are a string
    ghost well_formed: { List ℕ → Type 0 };

    // any two proofs that bytes are well formed are equal
    ghost well_formed_prop: { (b : List ℕ) → IsProp (well_formed b) };

    // a string's units
    ghost units: { List ℕ → List ℕ };

    // which lists are the units of a string
    ghost is_unit_list: { List ℕ → Type 0 };

    // which bytes reads and writes of files take
    ghost io_safe: { List ℕ → Type 0 };

    // the first fault of bytes that aren't a string
    ghost first_fault: { List ℕ → EncodingError → Type 0 };

    // a string's lossy text
    ghost lossy: { List ℕ → List ℕ };

    // how many of the first bytes one U+FFFD replaces in the lossy text
    ghost replaces: { List ℕ → ℕ → Type 0 };

    // the lossy reading of any bytes, in which U+FFFD replaces each rejected part
    ghost reads_as: { List ℕ → List ℕ → Type 0 };

    // what the units are of a string that contains no whole character
    ghost part_units: { List ℕ → Type 0 };

    /// Checks whether bytes are well formed. It doesn't allocate.
    ///
    /// # Errors
    ///
    /// The first fault of bytes that aren't well formed. On Windows it is the first fault that
    /// `wtf8_core::CodePoints` returns, and on wasm that of `wtf8_core::utf8_fault`. On Unix there
    /// is none.
    ///
    /// ```
    /// use os_str_bytes::{Platform, Unix, Wasm, Windows};
    ///
    /// let surrogate = b"\xED\xA0\x80";
    /// assert_eq!(rt; Windows::check(surrogate), Ok(()));
    /// assert!(rt; Wasm::check(surrogate).is_err());
    /// assert_eq!(rt; Unix::check(surrogate), Ok(()));
    /// ```
    fn check(bytes: &[u8]) -> Result<(), EncodingError>
        ensures { MatchResult result (λ _. well_formed bytes.now)
            (λ fault. first_fault bytes.now fault) };

    /// The first fault of a string that isn't UTF-8, `None` for UTF-8: what `wtf8_core::utf8_fault`
    /// returns for the bytes. It doesn't allocate.
    ///
    /// The bytes are well formed (test: [`Platform::check`]), so on Windows it is their first
    /// surrogate, and on wasm there is none. The default implementation calls `utf8_fault`.
    ///
    /// ```
    /// use os_str_bytes::{Platform, Unix, Wasm, Windows};
    ///
    /// assert_eq!(rt; Unix::utf8_fault(b"a\xE2\x82"), Some((1, None)));
    /// assert_eq!(rt; Windows::utf8_fault(b"a\xED\xA0\x80"), Some((1, Some(1))));
    /// assert_eq!(rt; Wasm::utf8_fault(b"\xC3\xA9"), None);
    /// ```
    #[inline(always)]
    fn utf8_fault(bytes: &[u8]) -> Option<(usize, Option<u8>)>
        requires { well_formed bytes.now }
        ensures { MatchOption result (IsUtf8 bytes.now)
            (λ fault. IsUtf8Fault bytes.now fault.0 fault.1) }
    {
        utf8_fault(bytes)
    }

    /// Whether bytes may be passed to reads and writes of files as they are: on Unix always, on the
    /// other platforms if they are UTF-8. It doesn't allocate.
    ///
    /// ```
    /// use os_str_bytes::{Platform, Unix, Windows};
    ///
    /// assert!(rt; Unix::is_io_safe(b"\x80"));
    /// assert!(rt; !Windows::is_io_safe(b"\xED\xA0\x80"));
    /// ```
    fn is_io_safe(bytes: &[u8]) -> bool
        ensures { IsTrue result ↔ io_safe bytes.now };

    /// Returns the number of bytes at the start that one U+FFFD replaces in the lossy text.
    ///
    /// The bytes are well formed (test: [`Platform::check`]) and aren't empty, and no whole
    /// character starts at index 0 (test: `wtf8_core::char_at` at 0). What follows the replaced
    /// bytes is well formed. On Windows it returns three, the length of a surrogate's form.
    ///
    /// ```
    /// use os_str_bytes::{Platform, Unix, Windows};
    ///
    /// assert_eq!(rt; Unix::lossy_len(b"\xE2\x82A"), 2);
    /// assert_eq!(rt; Windows::lossy_len(b"\xED\xA0\x80a"), 3);
    /// ```
    fn lossy_len(bytes: &[u8]) -> usize
        requires formed { well_formed bytes.now }
        requires some { 0 < length bytes.now }
        requires uncovered { StartsWithNoCharacter bytes.now }
        ensures { replaces bytes.now result };

    /// Returns the number that [`Platform::lossy_len`] returns, for a caller that knows the fault
    /// at the start of the bytes: `wtf8_core::utf8_fault` of them is `Some((0, error_len))`. A
    /// platform then doesn't have to find that fault again. The default implementation calls
    /// `lossy_len`.
    ///
    /// ```
    /// use os_str_bytes::{Platform, Unix, utf8_fault};
    ///
    /// assert_eq!(rt; utf8_fault(b"\xE2\x82A"), Some((0, Some(2))));
    /// assert_eq!(rt; Unix::replaced_len(b"\xE2\x82A", Some(2)), 2);
    /// ```
    fn replaced_len(bytes: &[u8], error_len: Option<u8>) -> usize
        requires formed { well_formed bytes.now }
        requires some { 0 < length bytes.now }
        requires uncovered { StartsWithNoCharacter bytes.now }
        requires part { IsFaultPart bytes.now error_len }
        ensures { replaces bytes.now result }
    {
        Self::lossy_len(bytes)
    }

    /// The first unit of a string that doesn't begin with a whole character, and its length in
    /// bytes.
    ///
    /// The bytes are well formed (test: [`Platform::check`]) and aren't empty, and no whole
    /// character starts at index 0 (test: `wtf8_core::char_at` at 0). What follows the unit's bytes
    /// is well formed and has the other units. On Unix a unit is one byte, on Windows it is a
    /// surrogate of three bytes; on wasm no bytes meet the condition.
    ///
    /// ```
    /// use os_str_bytes::{Platform, Windows};
    ///
    /// assert!(rt; Windows::first_unit(b"\xED\xA0\x80a") == (0xD800, 3));
    /// ```
    fn first_unit(bytes: &[u8]) -> (u16, usize)
        requires formed { well_formed bytes.now }
        requires some { 0 < length bytes.now }
        requires uncovered { StartsWithNoCharacter bytes.now }
        ensures { IsFirstUnit well_formed units bytes.now result.0 result.1 };

    /// Whether the units of `string` start with the units of `prefix` (on Windows
    /// `wtf8_core::starts_with`, else std's `starts_with` of slices). Both are well formed (test:
    /// [`Platform::check`]). It doesn't allocate.
    ///
    /// Half of a surrogate pair counts:
    ///
    /// ```
    /// use os_str_bytes::{Platform, Windows};
    ///
    /// // The units D83D and DE00, and D83D alone.
    /// assert!(rt; Windows::starts_with_os(b"\xF0\x9F\x98\x80", b"\xED\xA0\xBD"));
    /// ```
    fn starts_with_os(string: &[u8], prefix: &[u8]) -> bool
        requires string { well_formed string.now }
        requires prefix { well_formed prefix.now }
        ensures { IsTrue result ↔ IsPrefix (units prefix.now) (units string.now) };

    /// Whether the units of `string` end with the units of `suffix` (on Windows
    /// `wtf8_core::ends_with`, else std's `ends_with` of slices). Both are well formed (test:
    /// [`Platform::check`]). It doesn't allocate.
    ///
    /// Half of a surrogate pair counts:
    ///
    /// ```
    /// use os_str_bytes::{Platform, Windows};
    ///
    /// // The units D83D and DE00, and DE00 alone.
    /// assert!(rt; Windows::ends_with_os(b"\xF0\x9F\x98\x80", b"\xED\xB8\x80"));
    /// ```
    fn ends_with_os(string: &[u8], suffix: &[u8]) -> bool
        requires string { well_formed string.now }
        requires suffix { well_formed suffix.now }
        ensures { IsTrue result ↔ IsSuffix (units suffix.now) (units string.now) };

    /// Appends a string to another, so that the units are those of both, one after the other (std's
    /// `OsString::push`). On Windows, a high surrogate at the end of the first string and a low one
    /// at the start of the second become one code point (WTF-8, "Concatenating"). Both are well
    /// formed (test: [`Platform::check`]). It doesn't allocate if the vector has room for the bytes
    /// of both.
    ///
    /// # Errors
    ///
    /// `AllocError` if the allocation fails. The vector's bytes are then unchanged.
    ///
    /// ```
    /// use os_str_bytes::{Platform, Windows};
    ///
    /// let mut string = b"\xED\xA0\xBD".to_vec(alloc)?;
    /// Windows::push_bytes(&mut string, b"\xED\xB8\x80")?;
    /// assert_eq!(rt; string.as_slice(), b"\xF0\x9F\x98\x80".as_slice());
    /// ```
    fn push_bytes<A: Allocator>(string: &mut Vec<u8, A>, more: &[u8]) -> Result<(), AllocError>
        requires string { well_formed string.old.items }
        requires more { well_formed more.now }
        ensures formed { well_formed string.new.items }
        ensures ok { OnOk result (units string.new.items ≡ units string.old.items ++ units
            more.now) }
        ensures err { OnErr result (string.new.items ≡ string.old.items) }
        ensures full { OnErr result (vec_capacity string.old < vec_len string.old + length
            more.now) };

    /// Returns the lossy reading of arbitrary bytes, in new memory. Well-formed bytes are their own
    /// reading. The reading of any others is the part before the first rejected part, then U+FFFD,
    /// and then the reading of what follows, which doesn't depend on anything before it.
    ///
    /// On Windows `wtf8_core::wtf8_fault` determines the rejected parts. The reading is the forms
    /// of the items of `wtf8_core::CodePoints`, with U+FFFD for each `Err`. On wasm a rejected part
    /// is a maximal ill-formed part (Unicode, section 3.9), as in std's `String::from_utf8_lossy`.
    /// On Unix no bytes are rejected. It may allocate even if nothing is replaced.
    ///
    /// # Errors
    ///
    /// `AllocError` if the allocation fails.
    ///
    /// ```
    /// use os_str_bytes::{Platform, Windows};
    ///
    /// let reading = Windows::read_lossy(alloc, b"\xED\xA0\x80\xED\xB0\x80A")?;
    /// assert_eq!(rt; reading.as_slice(), b"\xED\xA0\x80\xEF\xBF\xBDA".as_slice());
    /// ```
    fn read_lossy<A: Allocator>(alloc: A, bytes: &[u8]) -> Result<Vec<u8, A>, AllocError>
        ensures reading { IfOk result (λ reading. reads_as bytes.now reading.items) }
        ensures formed { IfOk result (λ reading. well_formed reading.items) };

    ghost occurrence: { OccurrenceLaws well_formed units };

    ghost laws: { PlatformLaws first_fault well_formed units is_unit_list io_safe lossy replaces };

    ghost parts: { PartLaws well_formed units part_units };

    ghost readings: { ReadingLaws well_formed reads_as };
}

/// Unix, and each system whose strings are any bytes.
#[derive(Clone, Copy)]
pub struct Unix;

/// Windows and UEFI, whose strings are any 16-bit units, stored as WTF-8.
#[derive(Clone, Copy)]
pub struct Windows;

/// WebAssembly, whose strings are UTF-8.
#[derive(Clone, Copy)]
pub struct Wasm;
