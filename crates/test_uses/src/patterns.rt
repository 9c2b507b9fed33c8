//! Patterns: what each type of them looks for, and where it ends.
ghost use Rattle.std.specs.Prelude.{◌≡◌, IfSome};
ghost use Rattle.std.specs.String.{string_bytes};
ghost use Rattle.wtf8_core.specs.Boundary.{IsBoundary};
ghost use Rattle.wtf8_core.specs.CodePoint.{encode};
ghost use Rattle.wtf8_core.specs.Occurrence.{Finds, IsFirstIndex};
ghost use Rattle.platform_str.specs.Strings.{bytes};
ghost use Rattle.os_str_bytes.specs.Raw.{raw_bytes};

use os_str_bytes::{OsStr, OsStrBytesExt, Platform, RawOsStr};
use os_str_ext::search_laws;

/// The first indices of a character, of a text and of an owned text.
pub fn found_by_each<'a, E: Platform + 'a>(
    string: OsStr<'a, E>,
    character: char,
    text: &'a str,
    owned: &'a String,
) -> (Option<usize>, Option<usize>, Option<usize>)
    ensures of_char { Finds IsFirstIndex (encode character) (bytes string.entry) result.0 }
    ensures of_str { Finds IsFirstIndex text.now (bytes string.entry) result.1 }
    ensures of_string { Finds IsFirstIndex (string_bytes owned.now) (bytes string.entry) result.2 }
{
    search_laws::patterns(character, text, owned);
    (
        string.find(character),
        string.find(text),
        string.find(owned),
    )
}

/// Where the first match of a text in a raw string ends; it may be cut there.
pub fn raw_after_first<'a, E: Platform + 'a>(string: RawOsStr<'a, E>, text: &str) -> Option<usize>
    ensures { IfSome result (λ end. IsBoundary (raw_bytes string.entry) end) }
{
    let at = string.find(text)?;
    Some(at + text.len())
}

/// Where the last match of a text in a raw string ends. The string may be cut there.
pub fn raw_after_last<'a, E: Platform + 'a>(string: RawOsStr<'a, E>, text: &str) -> Option<usize>
    ensures { IfSome result (λ end. IsBoundary (raw_bytes string.entry) end) }
{
    let at = string.rfind(text)?;
    Some(at + text.len())
}
