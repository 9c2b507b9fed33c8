//! Hashes: a hasher is fed the same of equal strings, parts, units and symbols.
ghost use Rattle.std.specs.Prelude.{◌≡◌, IsTrue};

use os_str_bytes::{
    NonUnicodeOsStr, OsString, OsUnit, Platform, RawOsStr, RawOsString, Symbol, laws, part_laws,
    symbol_laws,
};
use std::alloc::Allocator;
use std::hash::Hash;

/// Whether two owned strings are equal. If they are, a hasher is fed the same of both.
pub fn owned_hash_alike<E: Platform, A: Allocator>(a: &OsString<E, A>, b: &OsString<E, A>) -> bool
    ensures { IsTrue result → ⟦<OsString<E, A> as Hash>⟧.hash_input a.now
        ≡ ⟦<OsString<E, A> as Hash>⟧.hash_input b.now }
{
    laws::owned_comparisons(a, b);
    laws::owned_comparisons(b, a);
    *a == *b
}

/// Whether two raw strings are equal. If they are, a hasher is fed the same of both.
pub fn raw_hash_alike<'a, E: Platform + 'a>(a: RawOsStr<'a, E>, b: RawOsStr<'a, E>) -> bool
    ensures { IsTrue result → ⟦<RawOsStr<'a, E> as Hash>⟧.hash_input a.entry
        ≡ ⟦<RawOsStr<'a, E> as Hash>⟧.hash_input b.entry }
{
    laws::raw_comparisons(&a, &b);
    laws::raw_comparisons(&b, &a);
    a == b
}

/// Whether two owned raw strings are equal. If they are, a hasher is fed the same of both.
pub fn owned_raw_hash_alike<E: Platform, A: Allocator>(
    a: &RawOsString<E, A>,
    b: &RawOsString<E, A>,
) -> bool
    ensures { IsTrue result → ⟦<RawOsString<E, A> as Hash>⟧.hash_input a.now
        ≡ ⟦<RawOsString<E, A> as Hash>⟧.hash_input b.now }
{
    laws::raw_owned_comparisons(a, b);
    laws::raw_owned_comparisons(b, a);
    *a == *b
}

/// Whether two parts are equal. If they are, a hasher is fed the same of both.
pub fn part_hash_alike<'a, E: Platform + 'a>(
    a: NonUnicodeOsStr<'a, E>,
    b: NonUnicodeOsStr<'a, E>,
) -> bool
    ensures { IsTrue result
        → ⟦<NonUnicodeOsStr<'a, E> as Hash>⟧.hash_input a.entry
        ≡ ⟦<NonUnicodeOsStr<'a, E> as Hash>⟧.hash_input b.entry }
{
    part_laws::part_comparisons(&a, &b);
    part_laws::part_comparisons(&b, &a);
    a == b
}

/// Whether two units are equal. If they are, a hasher is fed the same of both.
pub fn unit_hash_alike(a: OsUnit, b: OsUnit) -> bool
    ensures { IsTrue result
        → ⟦<OsUnit as Hash>⟧.hash_input a ≡ ⟦<OsUnit as Hash>⟧.hash_input b }
{
    part_laws::unit_comparisons(&a, &b);
    part_laws::unit_comparisons(&b, &a);
    a == b
}

/// Whether two symbols are equal. If they are, a hasher is fed the same of both.
pub fn symbol_hash_alike(a: Symbol, b: Symbol) -> bool
    ensures { IsTrue result
        → ⟦<Symbol as Hash>⟧.hash_input a ≡ ⟦<Symbol as Hash>⟧.hash_input b }
{
    symbol_laws::symbol_comparisons(&a, &b);
    symbol_laws::symbol_comparisons(&b, &a);
    a == b
}
