//! The laws of every platform. Each is the contract of a function that does nothing.
ghost use Rattle.std.specs.Prelude.{◌≡◌, ◌<◌, ◌↔◌, ℕ, List, ◌++◌, length, take, drop, slice_index, IsTrue, Some};
ghost use Rattle.std.specs.{Cmp.Lexicographic.slice_cmp, Ordering.nat_cmp};
ghost use Rattle.std.specs.Hash as fed;
ghost use Rattle.std.specs.{List.All, List.flat_map, Str.IsUtf8, Str.IsValidUpTo};
ghost use Rattle.wtf8_core.specs.{Byte.IsByte, Byte.IsContinuation, Character.WholeCharacter, Boundary.IsBoundary};
ghost use Rattle.wtf8_core.specs.{Covered.StartsWithNoCharacter, Covered.HasNoCharacter, PartUnits.unit_bytes, Occurrence.OccursAt, Occurrence.IsPrefix};
ghost use Rattle.wtf8_core.specs.{UnitIndex.IsByteIndex, Join.IsJoin, declared.fault.EncodingError.EncodingError};
ghost use Rattle.platform_str.specs.{Laws.IsReplaced, PlatformWords.AreWideUnits, Strings.bytes, Strings.string_vec_of};

use crate::os_str::OsStr;
use crate::os_string::OsString;
use crate::platform::Platform;
use std::alloc::Allocator;
use std::hash::Hash;

/// Bytes that are rejected aren't well formed, and have exactly one first fault.
pub fn faults<E: Platform>()
    ensures faulty { (b : List ℕ) → (f : EncodingError) → E.first_fault b f → ¬ (E.well_formed b) }
    ensures one_fault { (b : List ℕ) → (f : EncodingError) → (g : EncodingError) → E.first_fault b f
        → E.first_fault b g → f ≡ g }
{}

/// Strings with equal units are equal. Each list of units is that of some string, and the units of
/// a string are such a list.
pub fn encoding<E: Platform>()
    ensures one_encoding { (b : List ℕ) → (c : List ℕ) → E.well_formed b → E.well_formed c
        → E.units b ≡ E.units c → b ≡ c }
    ensures some_encoding { (us : List ℕ) → E.is_unit_list us
        → (b : List ℕ) × (E.well_formed b × (E.units b ≡ us)) }
    ensures unit_list { (b : List ℕ) → E.well_formed b → E.is_unit_list (E.units b) }
{}

/// UTF-8 is well formed and IO-safe, and IO-safe bytes are well formed. What follows a whole
/// character at the start of a string is well formed. If some string isn't IO-safe, one U+FFFD
/// always replaces three bytes.
pub fn texts<E: Platform>()
    ensures text { (b : List ℕ) → IsUtf8 b → E.well_formed b }
    ensures text_io_safe { (b : List ℕ) → IsUtf8 b → E.io_safe b }
    ensures io_safe_string { (b : List ℕ) → E.io_safe b → E.well_formed b }
    ensures after_text { (b : List ℕ) → (j : ℕ) → E.well_formed b → WholeCharacter b 0 j
        → E.well_formed (drop j b) }
    ensures three { (b : List ℕ) → (c : List ℕ) → (n : ℕ) → E.well_formed b → ¬ (E.io_safe b)
        → E.replaces c n → n ≡ 3 }
{}

/// A string's lossy text is UTF-8, and so IO-safe. A text is its own lossy text, and a text at the
/// start of a string stays. Where no whole character starts, one U+FFFD replaces the bytes that
/// [`Platform::lossy_len`] counts; what follows them is well formed.
pub fn lossy_texts<E: Platform>()
    ensures lossy_utf8 { (b : List ℕ) → E.well_formed b → IsUtf8 (E.lossy b) }
    ensures lossy_text { (b : List ℕ) → IsUtf8 b → E.lossy b ≡ b }
    ensures lossy_prefix { (b : List ℕ) → (n : ℕ) → E.well_formed b → IsValidUpTo b n
        → E.lossy b ≡ take n b ++ E.lossy (drop n b) }
    ensures lossy_step { (b : List ℕ) → (n : ℕ) → E.well_formed b → 0 < length b
        → StartsWithNoCharacter b
        → E.replaces b n
        → IsReplaced E.well_formed E.lossy b n }
{}

/// Any bytes have exactly one lossy reading, which is a string. The lossy reading of a string is
/// the string itself.
pub fn readings<E: Platform>()
    ensures formed { (b : List ℕ) → (c : List ℕ) → All IsByte b → E.reads_as b c → E.well_formed c }
    ensures itself { (b : List ℕ) → E.well_formed b → E.reads_as b b }
    ensures one { (b : List ℕ) → (c : List ℕ) → (d : List ℕ) → E.reads_as b c → E.reads_as b d
        → c ≡ d }
    ensures some { (b : List ℕ) → All IsByte b → (c : List ℕ) × E.reads_as b c }
{}

/// At a boundary both parts of a string are strings, and their units, joined, are the string's.
/// What follows is a string, too, at the index of a byte that is no continuation byte.
pub fn cuts<E: Platform>()
    ensures cut_prefix { (b : List ℕ) → (i : ℕ) → E.well_formed b → IsBoundary b i
        → E.well_formed (take i b) }
    ensures cut_suffix { (b : List ℕ) → (i : ℕ) → E.well_formed b → IsBoundary b i
        → E.well_formed (drop i b) }
    ensures cut_units { (b : List ℕ) → (i : ℕ) → E.well_formed b → IsBoundary b i
        → E.units b ≡ E.units (take i b) ++ E.units (drop i b) }
    ensures cut_lead { (b : List ℕ) → (i : ℕ) → i < length b → E.well_formed b
        → ¬ (IsContinuation (slice_index b i))
        → E.well_formed (drop i b) }
{}

/// In a string without whole characters each unit has its own bytes: one byte for a unit below 100
/// (hexadecimal), else its form. On Unix such units are at least 80. On Windows they are
/// surrogates, and no high one comes directly before a low one. On wasm there are none. A unit has
/// at most 16 bits.
pub fn parts<E: Platform>()
    ensures encoded { (b : List ℕ) → E.well_formed b → HasNoCharacter b
        → b ≡ flat_map unit_bytes (E.units b) }
    ensures units { (b : List ℕ) → E.well_formed b → HasNoCharacter b → E.part_units (E.units b) }
    ensures wide { (b : List ℕ) → E.well_formed b → HasNoCharacter b → AreWideUnits (E.units b) }
{}

/// A text that isn't empty occurs in a string at a byte index exactly if its units occur in the
/// string's units at a unit index that corresponds to that byte index. Each unit index at which
/// they occur corresponds to a byte index, and no unit index to two.
pub fn occurrence<E: Platform>()
    ensures alike { (p : List ℕ) → (s : List ℕ) → (j : ℕ) → IsUtf8 p → 0 < length p
        → E.well_formed s
        → (OccursAt p s j
        ↔ ((i : ℕ)
        × (IsByteIndex E.well_formed E.units s i j × OccursAt (E.units p) (E.units s) i))) }
    ensures placed { (p : List ℕ) → (s : List ℕ) → (i : ℕ) → IsUtf8 p → 0 < length p
        → E.well_formed s → OccursAt (E.units p) (E.units s) i
        → (j : ℕ) × (IsByteIndex E.well_formed E.units s i j × OccursAt p s j) }
    ensures one_index { (s : List ℕ) → (i : ℕ) → (j : ℕ) → (k : ℕ)
        → IsByteIndex E.well_formed E.units s i j → IsByteIndex E.well_formed E.units s i k
        → j ≡ k }
{}

/// Two strings have exactly one join. Joining three strings gives the same string whichever two are
/// joined first. A string starts with another exactly if it is the join of that one and some
/// string.
pub fn joins<E: Platform>()
    ensures some { (a : List ℕ) → (b : List ℕ) → E.well_formed a → E.well_formed b
        → (w : List ℕ) × IsJoin E.well_formed E.units a b w }
    ensures one { (a : List ℕ) → (b : List ℕ) → (v : List ℕ) → (w : List ℕ)
        → IsJoin E.well_formed E.units a b v → IsJoin E.well_formed E.units a b w → v ≡ w }
    ensures associative { (a : List ℕ) → (b : List ℕ) → (c : List ℕ) → (ab : List ℕ) → (bc : List ℕ)
        → (v : List ℕ) → (w : List ℕ)
        → IsJoin E.well_formed E.units a b ab → IsJoin E.well_formed E.units ab c v
        → IsJoin E.well_formed E.units b c bc → IsJoin E.well_formed E.units a bc w → v ≡ w }
    ensures prefixes { (p : List ℕ) → (s : List ℕ) → E.well_formed p → E.well_formed s
        → (IsPrefix (E.units p) (E.units s)
        ↔ ((q : List ℕ) × (E.well_formed q × IsJoin E.well_formed E.units p q s))) }
{}

/// Borrowed strings are equal exactly if their bytes are equal, and ordered as lists of bytes are.
/// A hasher receives the bytes, as for a slice, so equal strings have equal hashes.
#[tactic(auto, using(crate::proofs::lemmas::ByteOrder::byte_order))]
pub fn comparisons<'a, E: Platform>(a: &OsStr<'a, E>, b: &OsStr<'a, E>)
    ensures equal { IsTrue (⟦<OsStr<'a, E> as PartialEq>⟧.eq a.now b.now)
        ↔ (bytes a.now ≡ bytes b.now) }
    ensures order { ⟦<OsStr<'a, E> as Ord>⟧.cmp a.now b.now
        ≡ slice_cmp nat_cmp (bytes a.now) (bytes b.now) }
    ensures partial_order { ⟦<OsStr<'a, E> as PartialOrd>⟧.partial_cmp a.now b.now
        ≡ Some (slice_cmp nat_cmp (bytes a.now) (bytes b.now)) }
    ensures hash { ⟦<OsStr<'a, E> as Hash>⟧.hash_input a.now ≡ fed.slice fed.u8 (bytes a.now) }
{}

/// Owned strings are equal exactly if their bytes are equal, and ordered as lists of bytes are. A
/// hasher receives the bytes, as for a slice, so equal strings have equal hashes.
#[tactic(auto, using(crate::proofs::lemmas::ByteOrder::byte_order))]
pub fn owned_comparisons<E: Platform, A: Allocator>(a: &OsString<E, A>, b: &OsString<E, A>)
    ensures equal { IsTrue (⟦<OsString<E, A> as PartialEq>⟧.eq a.now b.now)
        ↔ ((string_vec_of a.now).items ≡ (string_vec_of b.now).items) }
    ensures order { ⟦<OsString<E, A> as Ord>⟧.cmp a.now b.now
        ≡ slice_cmp nat_cmp (string_vec_of a.now).items (string_vec_of b.now).items }
    ensures partial_order { ⟦<OsString<E, A> as PartialOrd>⟧.partial_cmp a.now b.now
        ≡ Some (slice_cmp nat_cmp (string_vec_of a.now).items (string_vec_of b.now).items) }
    ensures hash { ⟦<OsString<E, A> as Hash>⟧.hash_input a.now
        ≡ fed.slice fed.u8 (string_vec_of a.now).items }
{}
