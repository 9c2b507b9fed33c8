//! Facts about the definitions. Each law is the contract of a function that does nothing.
//!
//! A caller that needs a law calls its function, for example `laws::encoding()`, which makes the
//! law known there. The laws are about lists of numbers: bytes, code points (`cs`, `ds`) and units
//! (`us`, `vs`). Indices count bytes.
#![tactic(auto, using(crate::proofs::lemmas::Laws::laws))]

ghost use Rattle.std.specs.Prelude.{◌≡◌, ◌↔◌, ◌⊎◌, ◌+◌, ◌-◌, ◌<◌, ◌≤◌, ◌^◌, ◌++◌, length, take, drop, map, ℕ, List, Option, Result, IsTrue};
ghost use Rattle.std.specs.{List.All, Char.encode_utf8, Ordering.nat_cmp, Cmp.Lexicographic.slice_cmp, Str.IsUtf8, Str.IsCharBoundary, Str.Lossy.utf8_lossy};
ghost use Rattle.wtf8_core.specs.{Byte.IsByte, CodePoint.encode, Checker.IsFaulty, Items.AreItems, Occurrence.OccursAt};
ghost use Rattle.wtf8_core.specs.{Wtf8.Encodes, Wtf8.IsWtf8, Wtf8.HasUnits, Fault.IsFirstFault, Fault.IsFaultAt};
ghost use Rattle.wtf8_core.specs.{OccurrenceLaws.OccurrenceLaws, Character.WholeCharacter, Boundary.IsBoundary};
ghost use Rattle.wtf8_core.specs.{Chunks.Chunk, Chunks.AreChunks, Runs.AreRuns, Runs.form_chunk};
ghost use Rattle.wtf8_core.specs.{Utf8.IsUtf8Fault, Utf8.part_end, Lossy.IsLossyText, Lossy.IsWtf8LossyText};
ghost use Rattle.wtf8_core.specs.LossyReading.{IsLossyReading, lossy_forms};
ghost use Rattle.wtf8_core.specs.{UnitsOf.units_of, UnitsOf.wtf8_lossy, declared.fault.EncodingError.EncodingError};

use crate::checker::Checker;
use crate::fault::EncodingError;

/// Bytes encode at most one list of code points (WTF-8).
pub fn encoded_once()
    ensures { (bytes : List ℕ) → (cs : List ℕ) → (ds : List ℕ) → Encodes bytes cs → Encodes bytes ds
        → cs ≡ ds }
{}

/// Bytes have at most one first fault, with one list of code points before it.
pub fn one_first_fault()
    ensures { (bytes : List ℕ) → (cs : List ℕ) → (ds : List ℕ) → (f : EncodingError)
        → (g : EncodingError)
        → IsFirstFault bytes cs f → IsFirstFault bytes ds g → (cs ≡ ds) × (f ≡ g) }
{}

/// The index of the first fault of bytes and the number of bytes rejected there are unique.
/// [`wtf8_fault`](crate::wtf8_fault) returns them.
pub fn one_fault_index()
    ensures { (bytes : List ℕ) → (n : ℕ) → (m : ℕ) → (k : ℕ) → (l : ℕ) → IsFaultAt bytes n k
        → IsFaultAt bytes m l → (n ≡ m) × (k ≡ l) }
{}

/// A first fault other than `End` stays the first fault, whatever bytes come next. So a [`Checker`]
/// that has returned a fault returns it forever.
#[tactic(auto, using(crate::proofs::lemmas::table::Pieces::extends))]
pub fn fault_stays()
    ensures { (bytes : List ℕ) → (more : List ℕ) → (f : EncodingError) → IsFaulty bytes f
        → IsFaulty (bytes ++ more) f }
{}

/// Two faults are `==` exactly if they are the same variant with the same numbers.
pub fn fault_comparisons(a: &EncodingError, b: &EncodingError)
    ensures { IsTrue (⟦<EncodingError as PartialEq>⟧.eq a.now b.now) ↔ (a.now ≡ b.now) }
{}

/// Bytes are WTF-8 or have a first fault, and never both.
pub fn encoded_or_faulty()
    ensures either { (bytes : List ℕ) → All IsByte bytes
        → IsWtf8 bytes ⊎ ((cs : List ℕ) × (f : EncodingError) × IsFirstFault bytes cs f) }
    ensures never_both { (bytes : List ℕ) → (cs : List ℕ) → (f : EncodingError) → IsWtf8 bytes
        → IsFirstFault bytes cs f → ⊥ }
{}

/// Bytes have at most one list of items.
pub fn one_list_of_items()
    ensures { (bytes : List ℕ) → (xs : List (Result ℕ EncodingError))
        → (ys : List (Result ℕ EncodingError)) → AreItems bytes xs → AreItems bytes ys → xs ≡ ys }
{}

/// The law of encoding: WTF-8 bytes with equal units are equal, each list of 16-bit units is the
/// units of some bytes, and bytes have at most one list of units.
pub fn encoding()
    ensures units_once { (bytes : List ℕ) → (others : List ℕ) → (us : List ℕ) → HasUnits bytes us
        → HasUnits others us → bytes ≡ others }
    ensures units_encoded { (us : List ℕ) → All (λ u. u < 2 ^ 16) us
        → (bytes : List ℕ) × HasUnits bytes us }
    ensures one_list_of_units { (bytes : List ℕ) → (us : List ℕ) → (vs : List ℕ) → HasUnits bytes us
        → HasUnits bytes vs → us ≡ vs }
{}

/// The order of bytes, as lists, is the order of the code points that they encode, and so not that
/// of their units.
pub fn order()
    ensures { (bytes : List ℕ) → (others : List ℕ) → (cs : List ℕ) → (ds : List ℕ)
        → Encodes bytes cs → Encodes others ds
        → slice_cmp nat_cmp bytes others ≡ slice_cmp nat_cmp cs ds }
{}

/// On WTF-8 bytes the functions `units_of` and `wtf8_lossy` return the lists that the relations
/// `HasUnits` and `IsWtf8LossyText` define.
pub fn functions()
    ensures units { (bytes : List ℕ) → (us : List ℕ)
        → HasUnits bytes us ↔ (IsWtf8 bytes × (us ≡ units_of bytes)) }
    ensures lossy { (bytes : List ℕ) → IsWtf8 bytes → IsWtf8LossyText bytes (wtf8_lossy bytes) }
{}

/// Any bytes have exactly one lossy text, with a U+FFFD for each maximal ill-formed part: that of
/// std's `String::from_utf8_lossy`. It is UTF-8, and so is the lossy text of WTF-8 bytes.
pub fn lossy_text()
    ensures is_std { (bytes : List ℕ) → IsLossyText bytes (utf8_lossy bytes) }
    ensures only_std { (bytes : List ℕ) → (text : List ℕ) → IsLossyText bytes text
        → text ≡ utf8_lossy bytes }
    ensures utf8 { (bytes : List ℕ) → IsUtf8 (utf8_lossy bytes) }
    ensures wtf8 { (bytes : List ℕ) → IsWtf8 bytes → IsUtf8 (wtf8_lossy bytes) }
{}

/// Any bytes have exactly one lossy reading, which is WTF-8: the forms of their items joined, with
/// that of FFFD (hexadecimal) for each fault. WTF-8 bytes are their own lossy reading.
pub fn lossy_reading()
    ensures some { (bytes : List ℕ) → All IsByte bytes
        → (reading : List ℕ) × IsLossyReading bytes reading }
    ensures one { (bytes : List ℕ) → (reading : List ℕ) → (other : List ℕ)
        → IsLossyReading bytes reading → IsLossyReading bytes other → reading ≡ other }
    ensures wtf8 { (bytes : List ℕ) → (reading : List ℕ) → IsLossyReading bytes reading
        → IsWtf8 reading }
    ensures itself { (bytes : List ℕ) → IsWtf8 bytes → IsLossyReading bytes bytes }
    ensures items { (bytes : List ℕ) → (items : List (Result ℕ EncodingError))
        → AreItems bytes items → IsLossyReading bytes (lossy_forms items) }
{}

/// Bytes have at most one UTF-8 fault.
pub fn one_utf8_fault()
    ensures { (bytes : List ℕ) → (n : ℕ) → (m : ℕ) → (l : Option ℕ) → (k : Option ℕ)
        → IsUtf8Fault bytes n l → IsUtf8Fault bytes m k → (n ≡ m) × (l ≡ k) }
{}

/// The form of a code point is what std's `char::encode_utf8` writes (RFC 3629, section 3).
pub fn forms()
    ensures { (c : ℕ) → encode c ≡ encode_utf8 c }
{}

/// A whole character has one to four bytes and lies within its string. Whole characters don't
/// overlap: two are one and the same, or one ends before the other starts.
pub fn characters()
    ensures fits { (s : List ℕ) → (i : ℕ) → (j : ℕ) → WholeCharacter s i j
        → (i + 1 ≤ j) × (j ≤ i + 4) × (j ≤ length s) }
    ensures apart { (s : List ℕ) → (i : ℕ) → (j : ℕ) → (a : ℕ) → (b : ℕ) → WholeCharacter s i j
        → WholeCharacter s a b
        → ((i ≡ a) × (j ≡ b)) ⊎ ((j ≤ a) ⊎ (b ≤ i)) }
{}

/// Where a nonempty text occurs, its start and its end are boundaries. Of two boundaries, the first
/// is also a boundary of the prefix that ends at the second, and the second is one of the rest that
/// starts at the first. The boundaries of a text are those of a `str` (std's `is_char_boundary`).
pub fn boundaries()
    ensures edges { (p : List ℕ) → (s : List ℕ) → (i : ℕ) → IsUtf8 p → 0 < length p → OccursAt p s i
        → IsBoundary s i × IsBoundary s (i + length p) }
    ensures in_prefix { (s : List ℕ) → (i : ℕ) → (j : ℕ) → i ≤ j → IsBoundary s i → IsBoundary s j
        → IsBoundary (take j s) i }
    ensures in_rest { (s : List ℕ) → (i : ℕ) → (j : ℕ) → i ≤ j → IsBoundary s i → IsBoundary s j
        → IsBoundary (drop i s) (j - i) }
    ensures of_str { (s : List ℕ) → (i : ℕ) → IsUtf8 s → (IsBoundary s i ↔ IsCharBoundary s i) }
{}

/// The law of cuts: if WTF-8 bytes are cut at a boundary, both parts are WTF-8, and their units
/// joined are those of the whole. If a text is cut at a boundary, both parts are texts.
pub fn cuts()
    ensures parts { (bytes : List ℕ) → (i : ℕ) → IsWtf8 bytes → IsBoundary bytes i
        → IsWtf8 (take i bytes) × IsWtf8 (drop i bytes) }
    ensures units { (bytes : List ℕ) → (i : ℕ) → IsWtf8 bytes → IsBoundary bytes i
        → units_of bytes ≡ units_of (take i bytes) ++ units_of (drop i bytes) }
    ensures texts { (bytes : List ℕ) → (i : ℕ) → IsUtf8 bytes → IsBoundary bytes i
        → IsUtf8 (take i bytes) × IsUtf8 (drop i bytes) }
{}

/// Each whole character ends before the maximal ill-formed part of a fault, or starts after it:
/// none starts or ends strictly inside the part, and none extends across its start or end.
pub fn ill_formed_parts()
    ensures { (s : List ℕ) → (valid_up_to : ℕ) → (error_len : Option ℕ)
        → IsUtf8Fault s valid_up_to error_len
        → (i : ℕ) → (j : ℕ) → WholeCharacter s i j
        → (j ≤ valid_up_to) ⊎ (part_end s valid_up_to error_len ≤ i) }
{}

/// The laws of occurrences and of joins: a nonempty text occurs in WTF-8 bytes exactly where its
/// units occur in their units, and what comes before it and after it is WTF-8 again. For any two
/// strings there are WTF-8 bytes whose units are those of both, joined.
pub fn occurrence()
    ensures { OccurrenceLaws IsWtf8 units_of }
{}

/// A string has exactly one list of chunks. If it is WTF-8, its chunks are the bytes of the maximal
/// runs of surrogates among the code points that it encodes, each with the scalar values after it.
pub fn chunks()
    ensures some { (s : List ℕ) → (chunks : List Chunk) × AreChunks s chunks }
    ensures once { (s : List ℕ) → (chunks : List Chunk) → (others : List Chunk) → AreChunks s chunks
        → AreChunks s others → chunks ≡ others }
    ensures runs { (s : List ℕ) → (cs : List ℕ) → (chunks : List Chunk) → Encodes s cs
        → AreChunks s chunks
        → (runs : List Chunk) × (AreRuns cs runs × (chunks ≡ map form_chunk runs)) }
{}
