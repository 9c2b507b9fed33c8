//! Symbols: the one list of a string's characters and units.
ghost use Rattle.std.specs.Prelude.{◌≡◌, ◌↔◌, [], ◌∷◌, ℕ, List, IsOk, IfOk, IsTrue};
ghost use Rattle.std.specs.List.{flat_map};
ghost use Rattle.wtf8_core.specs.Chunks.{AreChunks};
ghost use Rattle.platform_str.specs.Strings.{bytes};
ghost use Rattle.os_str_ext.specs.Symbols.{AreSymbols, symbol_bytes, unit_symbol};
ghost use Rattle.os_str_ext.specs.declared.symbols.Symbol.{Symbol};
ghost use Rattle.os_str_ext.specs.declared.symbols.Symbol.TheVariants.{Character};
ghost use Rattle.os_str_bytes.specs.Raw.{raw_bytes};

use os_str_bytes::{OsStr, OsStrBytesExt, Platform, RawOsStr, Symbol, Symbols, Unix, symbol_laws};
use std::alloc::AllocError;

/// The symbols of a string.
fn symbols<'a, E: Platform + 'a>(string: OsStr<'a, E>) -> Symbols<'a, E>
    ensures symbols { AreSymbols E.units (bytes string.entry) result }
{
    string.symbols()
}

/// Returns the symbols of a string with known symbols, which are those.
pub fn symbols_say<'a, E: Platform + 'a>(
    string: OsStr<'a, E>,
    known: Symbols<'a, E>,
) -> Symbols<'a, E>
    requires { AreSymbols E.units (bytes string) known }
    ensures { result ≡ known.entry }
{
    symbol_laws::symbols::<E>();
    symbols(string)
}

/// Any bytes have symbols.
pub fn has_symbols<E: Platform>(raw: &[u8])
    ensures { (symbols : List Symbol) × AreSymbols E.units raw.now symbols }
{
    symbol_laws::symbols::<E>();
}

/// The symbols of a string, whose bytes joined are the string.
pub fn symbols_joined<'a, E: Platform + 'a>(string: OsStr<'a, E>) -> Symbols<'a, E>
    ensures { flat_map symbol_bytes result ≡ bytes string.entry }
{
    symbol_laws::symbols::<E>();
    symbols(string)
}

/// The symbols of a raw string: those of its bytes.
pub fn raw_symbols<'a, E: Platform + 'a>(string: RawOsStr<'a, E>) -> Symbols<'a, E>
    ensures { AreSymbols E.units (raw_bytes string.entry) result }
{
    string.symbols()
}

/// The symbols of what is left, which are the symbols that are left.
pub fn symbols_of_rest<'a, E: Platform + 'a>(symbols: &Symbols<'a, E>) -> Symbols<'a, E>
    ensures { result ≡ symbols.now }
{
    symbols.rest().symbols()
}

/// Whether symbols stay ended: they always do.
pub fn symbols_stay_ended<'a, E: Platform + 'a>(symbols: &mut Symbols<'a, E>) -> bool
    ensures { IsTrue result }
{
    symbols.next().is_some() || symbols.next().is_none()
}

/// The symbols that are left, again. It takes no memory.
pub fn symbols_again<'a, E: Platform + 'a>(
    symbols: &Symbols<'a, E>,
) -> Result<Symbols<'a, E>, AllocError>
    ensures without_memory { IsOk result }
    ensures same { IfOk result (λ again. again ≡ symbols.now) }
{
    symbols.clone()
}

/// The symbols of a Unix string of an 'a' and of the byte 80 (hexadecimal): that character and
/// that unit.
pub fn one_of_each<'a>(string: OsStr<'a, Unix>) -> Symbols<'a, Unix>
    requires { AreChunks (bytes string) (([], 0x61 ∷ []) ∷ (0x80 ∷ [], []) ∷ []) }
    ensures { result ≡ Character 0x61 ∷ unit_symbol 0x80 ∷ [] }
{
    wtf8_core::laws::chunks();
    symbols(string)
}

/// Whether two symbols are equal: exactly where they are the same character, or units of the same
/// number.
pub fn same_symbol(a: Symbol, b: Symbol) -> bool
    ensures { IsTrue result ↔ (a ≡ b) }
{
    symbol_laws::symbol_comparisons(&a, &b);
    a == b
}
