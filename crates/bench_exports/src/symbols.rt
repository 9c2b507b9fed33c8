//! Symbols and first characters on Unix.
ghost use Rattle.std.specs.Prelude.{◌≡◌, ◌++◌, ℕ, List};
ghost use Rattle.std.specs.Char.{encode_utf8};
ghost use Rattle.std.specs.List.{fold};
ghost use Rattle.wtf8_core.specs.Covered.{StartsWithNoCharacter};
ghost use Rattle.platform_str.specs.PlatformWords.{itself};
ghost use Rattle.os_str_ext.specs.Symbols.{AreSymbols};
ghost use Rattle.os_str_ext.specs.declared.symbols.Symbol.{Symbol};
ghost use Rattle.bench_exports.specs.Answers.{AnswersOr, symbol_number, add_symbol};

use crate::strings::unix;
use os_str_ext::{OsStrBytesExt, Symbol};

/// The sum of the numbers of the string's characters and units, modulo 2^64.
#[unsafe(no_mangle)]
pub extern "C" fn port_symbols(raw: &[u8]) -> u64
    ensures { (symbols : List Symbol) × AreSymbols itself raw.now symbols
        × (result ≡ fold add_symbol 0 symbols) }
{
    let mut sum = 0u64;
    for symbol in unix(raw).symbols() {
        sum = sum.wrapping_add(number(symbol));
    }
    sum
}

/// The number of a symbol's character or unit.
#[inline(always)]
fn number(symbol: Symbol) -> u64
    ensures { result ≡ symbol_number symbol }
{
    match symbol {
        Symbol::Character(character) => u64::from(u32::from(character)),
        Symbol::Unit(unit) => unit.to_u64(),
    }
}

/// The number of the string's first character, or `u32::MAX` where no whole character starts it.
#[unsafe(no_mangle)]
pub extern "C" fn port_split_first_char(raw: &[u8]) -> u32
    ensures { AnswersOr u32.MAX (StartsWithNoCharacter raw.now)
        (λ number. (rest : List ℕ) × (raw.now ≡ encode_utf8 number ++ rest)) result }
{
    match unix(raw).split_first_char() {
        Some((character, _)) => u32::from(character),
        None => u32::MAX,
    }
}
