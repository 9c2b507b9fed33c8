//! Errors of arguments: what a text holds once they were printed to it.
ghost use Rattle.std.specs.Prelude.{◌≡◌, ◌++◌, ℕ, List, OnOk, codes, string_bytes};
ghost use Rattle.std.specs.Char.{encode_utf8};
ghost use Rattle.os_quote.specs.Escape.{IsLineEscape};
ghost use Rattle.platform_str.specs.Strings.{bytes};

use os_args::{Word, laws};
use platform_str::{OsStr, Unix};
use std::alloc::AllocError;
use std::fmt::Write as _;

/// Writes that a flag isn't known at the end of a log, which stays on its line.
pub fn log_unexpected(log: &mut String, flag: char) -> Result<(), AllocError>
    ensures { OnOk result ((text : List ℕ) × (IsLineEscape (λ b. b) (encode_utf8 flag) text
        × (string_bytes log.new ≡ string_bytes log.old
        ++ (codes "unexpected argument '" ++ ((codes "-" ++ text) ++ codes "'"))))) }
{
    laws::errors::<Unix>();
    let word: Word<'_, OsStr<'_, Unix>> = Word::Short(flag);
    write!(log, "{}", word.unexpected())
}

/// Writes that an operand is one too many at the end of a log, which stays on its line.
pub fn log_unexpected_operand(log: &mut String, string: OsStr<'_, Unix>) -> Result<(), AllocError>
    ensures { OnOk result ((text : List ℕ) × (IsLineEscape (λ b. b) (bytes string.entry) text
        × (string_bytes log.new ≡ string_bytes log.old
        ++ (codes "unexpected argument '" ++ (text ++ codes "'"))))) }
{
    laws::errors::<Unix>();
    write!(log, "{}", Word::Value(string).unexpected())
}
