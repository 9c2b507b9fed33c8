//! Options of a command line on Unix.
ghost use Rattle.bench_exports.specs.Answers.{Fit};

use crate::strings::{strings_of, unix};
use os_args::{Arguments, Word, laws};
use std::alloc::Global;

/// Reads a word as the only one of a command line, and returns the sum of the numbers of its flags,
/// modulo 2^64.
#[unsafe(no_mangle)]
pub extern "C" fn port_flags(raw: &[u8]) -> u64 {
    laws::steps_end();
    let words = [unix(raw)];
    let mut arguments = Arguments::new(words.as_slice());
    let mut sum: u64 = 0;
    while let Ok(Some(word)) = arguments.next() {
        if let Word::Short(flag) = word {
            sum = sum.wrapping_add(u64::from(flag));
        }
    }
    sum
}

/// Reads the words of a command line, which are the bytes, cut into pieces of these lengths.
/// Returns the sum of the lengths of the names, the values within words and the operands, and of
/// the flags, modulo 2^64; `u64::MAX` if an allocation failed.
#[unsafe(no_mangle)]
pub extern "C" fn port_options(alloc: Global, raw: &[u8], lens: &[usize]) -> u64
    requires { Fit lens.now raw.now }
{
    laws::steps_end();
    let Ok(words) = strings_of(alloc, raw, lens) else {
        return u64::MAX;
    };
    let mut arguments = Arguments::new(&words);
    let mut sum: u64 = 0;
    while let Ok(Some(word)) = arguments.next() {
        let len = match word {
            Word::Long(name) => name.len() as u64,
            Word::Short(flag) => u64::from(flag),
            Word::Value(value) => value.len() as u64,
            _ => 0,
        };
        sum = sum.wrapping_add(len);
        if matches!(word, Word::Long(_)) {
            if let Some(value) = arguments.optional_value() {
                sum = sum.wrapping_add(value.len() as u64);
            }
        }
    }
    sum
}
