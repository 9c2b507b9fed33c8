//! The laws of every platform and of raw strings. Each is the contract of a function that does
//! nothing. The laws of bytes, code points and units are in [`crate::wtf8_laws`]. This module also
//! has [`order`], which states the order of Windows strings.
ghost use Rattle.std.specs.Prelude.{◌≡◌, ◌↔◌, ℕ, List, IsTrue, Some};
ghost use Rattle.std.specs.{Cmp.Lexicographic.slice_cmp, Ordering.nat_cmp, List.All, Str.IsUtf8};
ghost use Rattle.std.specs.Hash as fed;
ghost use Rattle.wtf8_core.specs.{Byte.IsByte, Checker.HasFirstFault, PartUnits.AreLoneSurrogates, Wtf8.IsWtf8, Wtf8.HasUnits, Lossy.IsLossyText, Lossy.IsWtf8LossyText, Utf8.IsIllFormedPart, LossyReading.IsLossyReading};
ghost use Rattle.platform_str.specs.{PlatformWords.AreWideUnits, PlatformWords.IsThree, platforms.Unix.AreAboveAscii, platforms.Unix.IsNoFault, platforms.Unix.IsSame, platforms.Wasm.AreNone, platforms.Wasm.IsTextFault};
ghost use Rattle.os_str_bytes.specs.{Raw.raw_bytes, Raw.raw_vec_of, Headline.IsPlatform, Headline.AreItself};

use crate::wtf8_laws::{functions, lossy_text};
use crate::{Platform, RawOsStr, RawOsString, Unix, Wasm, Windows};
pub use os_str_ext::laws::{
    comparisons, cuts, encoding, faults, joins, lossy_texts, occurrence, owned_comparisons, parts,
    readings, texts,
};
use std::alloc::Allocator;
use std::hash::Hash;
pub use wtf8_core::laws::order;

/// What the platforms are. Unix strings are any bytes, which are their units, and no bytes are
/// rejected. Windows strings are WTF-8, and their units any 16-bit units (RFC 2781). Wasm strings
/// are UTF-8, and their bytes are their units. On Unix all strings are IO-safe, on the other
/// platforms those that are UTF-8. In a lossy text U+FFFD replaces each maximal ill-formed part
/// (Unicode, section 3.9) on Unix and each surrogate on Windows. On wasm the lossy text is the
/// string. The units of the part of a chunk are at least 80 (hexadecimal) on Unix and lone
/// surrogates on Windows. On wasm there are none.
pub fn platforms()
    ensures unix { IsPlatform ⟦<Unix as Platform>⟧ (All IsByte) (AreItself (All IsByte))
        (All IsByte) IsNoFault (All IsByte) IsLossyText IsIllFormedPart AreAboveAscii }
    ensures windows { IsPlatform ⟦<Windows as Platform>⟧ IsWtf8 HasUnits AreWideUnits HasFirstFault
        IsUtf8 IsWtf8LossyText IsThree AreLoneSurrogates }
    ensures wasm { IsPlatform ⟦<Wasm as Platform>⟧ IsUtf8 (AreItself IsUtf8) IsUtf8 IsTextFault
        IsUtf8 IsSame IsThree AreNone }
{
    functions();
    lossy_text();
}

/// How the platforms read arbitrary bytes lossily. On Unix the bytes stay as they are. U+FFFD
/// replaces each rejected part on Windows and each maximal ill-formed part on wasm (Unicode,
/// section 3.9).
pub fn platform_readings()
    ensures unix { (b : List ℕ) → (c : List ℕ) → ⟦<Unix as Platform>⟧.reads_as b c ↔ (c ≡ b) }
    ensures windows { (b : List ℕ) → (c : List ℕ) → ⟦<Windows as Platform>⟧.reads_as b c
        ↔ IsLossyReading b c }
    ensures wasm { (b : List ℕ) → (c : List ℕ) → ⟦<Wasm as Platform>⟧.reads_as b c
        ↔ IsLossyText b c }
{}

/// Borrowed raw strings are equal exactly if their bytes are equal, and ordered as lists of bytes
/// are. A hasher receives the bytes, as for a slice, so equal strings have equal hashes.
pub fn raw_comparisons<'a, E: Platform>(a: &RawOsStr<'a, E>, b: &RawOsStr<'a, E>)
    ensures equal { IsTrue (⟦<RawOsStr<'a, E> as PartialEq>⟧.eq a.now b.now)
        ↔ (raw_bytes a.now ≡ raw_bytes b.now) }
    ensures order { ⟦<RawOsStr<'a, E> as Ord>⟧.cmp a.now b.now
        ≡ slice_cmp nat_cmp (raw_bytes a.now) (raw_bytes b.now) }
    ensures partial_order { ⟦<RawOsStr<'a, E> as PartialOrd>⟧.partial_cmp a.now b.now
        ≡ Some (slice_cmp nat_cmp (raw_bytes a.now) (raw_bytes b.now)) }
    ensures hash { ⟦<RawOsStr<'a, E> as Hash>⟧.hash_input a.now
        ≡ fed.slice fed.u8 (raw_bytes a.now) }
{
    comparisons(&a.as_os_str(), &b.as_os_str());
}

/// Owned raw strings are equal exactly if their bytes are equal, and ordered as lists of bytes are.
/// A hasher receives the bytes, as for a slice, so equal strings have equal hashes.
pub fn raw_owned_comparisons<E: Platform, A: Allocator>(
    a: &RawOsString<E, A>,
    b: &RawOsString<E, A>,
)
    ensures equal { IsTrue (⟦<RawOsString<E, A> as PartialEq>⟧.eq a.now b.now)
        ↔ ((raw_vec_of a.now).items ≡ (raw_vec_of b.now).items) }
    ensures order { ⟦<RawOsString<E, A> as Ord>⟧.cmp a.now b.now
        ≡ slice_cmp nat_cmp (raw_vec_of a.now).items (raw_vec_of b.now).items }
    ensures partial_order { ⟦<RawOsString<E, A> as PartialOrd>⟧.partial_cmp a.now b.now
        ≡ Some (slice_cmp nat_cmp (raw_vec_of a.now).items (raw_vec_of b.now).items) }
    ensures hash { ⟦<RawOsString<E, A> as Hash>⟧.hash_input a.now
        ≡ fed.slice fed.u8 (raw_vec_of a.now).items }
{
    comparisons(&a.as_os_str(), &b.as_os_str());
}
