//! The laws of symbols.
//!
//! Each law is the contract of a function that does nothing.
ghost use Rattle.std.specs.Prelude.{◌≡◌, ◌↔◌, ℕ, List, IsTrue};
ghost use Rattle.std.specs.List.{flat_map};
ghost use Rattle.os_str_ext.specs.{Symbols.AreSymbols, Symbols.symbol_bytes, Symbols.symbol_fed, declared.symbols.Symbol.Symbol};

use crate::symbols::Symbol;
use platform_str::Platform;
use std::hash::Hash;

/// A string has exactly one list of symbols, and the bytes of the symbols, joined, are the string.
/// The bytes of a character are those that std's `char::encode_utf8` writes. The bytes of a unit
/// are its own.
pub fn symbols<E: Platform>()
    ensures some { (s : List ℕ) → (symbols : List Symbol) × AreSymbols E.units s symbols }
    ensures once { (s : List ℕ) → (symbols : List Symbol) → (others : List Symbol)
        → AreSymbols E.units s symbols → AreSymbols E.units s others → symbols ≡ others }
    ensures joined { (s : List ℕ) → E.well_formed s → (symbols : List Symbol)
        → AreSymbols E.units s symbols → flat_map symbol_bytes symbols ≡ s }
{}

/// Symbols are equal where both are the same character, or units of the same number. A hasher
/// receives which of the two it is, as an `isize`, and then the character or the unit's number. So
/// equal symbols have equal hashes.
pub fn symbol_comparisons(a: &Symbol, b: &Symbol)
    ensures equal { IsTrue (⟦<Symbol as PartialEq>⟧.eq a.now b.now) ↔ (a.now ≡ b.now) }
    ensures hash { ⟦<Symbol as Hash>⟧.hash_input a.now ≡ symbol_fed a.now }
{}
