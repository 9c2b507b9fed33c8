//! Escapes.
ghost use Rattle.std.specs.Prelude.{IfOk};
ghost use Rattle.os_quote.specs.Escape.{IsEscape};
ghost use Rattle.platform_str.specs.Strings.{string_vec_of};

use os_quote::QuoteError;
use platform_str::{OsString, Platform, Unix};
use std::alloc::Allocator;

/// The Unix string of an escape.
pub fn unescape_unix<A: Allocator + Copy>(
    alloc: A,
    text: &str,
) -> Result<OsString<Unix, A>, QuoteError>
    ensures { IfOk result (λ string.
        IsEscape ⟦<Unix as Platform>⟧.units (string_vec_of string).items text.now) }
{
    os_quote::unescape(alloc, text)
}
