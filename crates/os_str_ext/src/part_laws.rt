//! Laws of comparing and hashing parts and their units.
//!
//! Each law is the contract of a function that does nothing.
ghost use Rattle.std.specs.Prelude.{◌≡◌, ◌↔◌, IsTrue, Some};
ghost use Rattle.std.specs.{Cmp.Lexicographic.slice_cmp, Ordering.nat_cmp};
ghost use Rattle.std.specs.Hash as fed;
ghost use Rattle.os_str_ext.specs.Parts.{part_bytes, unit_number};

use crate::os_units::{NonUnicodeOsStr, OsUnit};
use platform_str::Platform;
use std::hash::Hash;

/// Parts are equal exactly if their bytes are equal, and ordered as lists of bytes are. A hasher
/// receives the bytes, as for a slice.
#[tactic(auto, using(platform_str::proofs::lemmas::ByteOrder::byte_order))]
pub fn part_comparisons<'a, E: Platform>(a: &NonUnicodeOsStr<'a, E>, b: &NonUnicodeOsStr<'a, E>)
    ensures equal { IsTrue (⟦<NonUnicodeOsStr<'a, E> as PartialEq>⟧.eq a.now b.now)
        ↔ (part_bytes a.now ≡ part_bytes b.now) }
    ensures order { ⟦<NonUnicodeOsStr<'a, E> as Ord>⟧.cmp a.now b.now
        ≡ slice_cmp nat_cmp (part_bytes a.now) (part_bytes b.now) }
    ensures partial_order { ⟦<NonUnicodeOsStr<'a, E> as PartialOrd>⟧.partial_cmp a.now b.now
        ≡ Some (slice_cmp nat_cmp (part_bytes a.now) (part_bytes b.now)) }
    ensures hash { ⟦<NonUnicodeOsStr<'a, E> as Hash>⟧.hash_input a.now
        ≡ fed.slice fed.u8 (part_bytes a.now) }
{}

/// Units are equal exactly if their numbers are equal, and ordered as the numbers are. A hasher
/// receives the number.
pub fn unit_comparisons(a: &OsUnit, b: &OsUnit)
    ensures equal { IsTrue (⟦<OsUnit as PartialEq>⟧.eq a.now b.now)
        ↔ (unit_number a.now ≡ unit_number b.now) }
    ensures order { ⟦<OsUnit as Ord>⟧.cmp a.now b.now
        ≡ nat_cmp (unit_number a.now) (unit_number b.now) }
    ensures partial_order { ⟦<OsUnit as PartialOrd>⟧.partial_cmp a.now b.now
        ≡ Some (nat_cmp (unit_number a.now) (unit_number b.now)) }
    ensures hash { ⟦<OsUnit as Hash>⟧.hash_input a.now ≡ fed.u16 (unit_number a.now) }
{}
