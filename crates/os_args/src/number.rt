//! Words that start as numbers do.
ghost use Rattle.std.specs.Prelude.{◌⊎◌, ◌↔◌, IsTrue};
ghost use Rattle.platform_str.specs.Strings.{bytes};
ghost use Rattle.os_args.specs.Word.{StartsWithDigit, StartsWithFraction, StartsAsNegative};

use os_str_ext::{OsStr, OsStrBytesExt, Platform};

/// Whether a word starts with a dash and a digit, or with a dash, a point and a digit.
#[tactic(auto, using(crate::proofs::lemmas::Numbers::numbers))]
pub(crate) fn starts_as_negative<'a, E: Platform>(word: OsStr<'a, E>) -> bool
    ensures { IsTrue result ↔ StartsAsNegative (bytes word.entry) }
{
    match word.strip_prefix("-") {
        Some(number) => starts_as_number(number),
        None => false,
    }
}

/// Whether a string starts with a digit, or with a point and a digit.
#[tactic(auto, using(crate::proofs::lemmas::Numbers::numbers))]
fn starts_as_number<'a, E: Platform>(number: OsStr<'a, E>) -> bool
    ensures { IsTrue result
        ↔ (StartsWithDigit (bytes number.entry) ⊎ StartsWithFraction (bytes number.entry)) }
{
    match number.strip_prefix(".") {
        Some(fraction) => starts_with_digit(fraction.as_encoded_bytes()),
        None => starts_with_digit(number.as_encoded_bytes()),
    }
}

/// Whether the first byte is an ASCII digit.
#[tactic(auto, using(crate::proofs::lemmas::Numbers::numbers))]
fn starts_with_digit(bytes: &[u8]) -> bool
    ensures { IsTrue result ↔ StartsWithDigit bytes.now }
{
    match bytes.first() {
        Some(first) => first.is_ascii_digit(),
        None => false,
    }
}
