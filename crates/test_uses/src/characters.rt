//! Characters: the first and the last of a string, and what is left without it.
ghost use Rattle.std.specs.Prelude.{◌≡◌, ◌++◌, IfSome, IsSomeAnd};
ghost use Rattle.std.specs.Char.{encode_utf8};
ghost use Rattle.platform_str.specs.Strings.{bytes};
ghost use Rattle.os_str_ext.specs.Characters.{SplitsFirstChar, SplitsLastChar};
ghost use Rattle.os_str_bytes.specs.Raw.{raw_bytes, raw_units};

use os_str_bytes::{OsStr, OsStrBytesExt, Platform, RawOsStr};

/// The first character of a string that begins with a known one: that one, and what follows it.
pub fn first_says<'a, E: Platform + 'a>(
    string: OsStr<'a, E>,
    known: char,
    rest: &[u8],
) -> Option<(char, OsStr<'a, E>)>
    requires { bytes string ≡ encode_utf8 known ++ rest.now }
    ensures { IsSomeAnd result (λ parts. (parts.0 ≡ known) × (bytes parts.1 ≡ rest.now)) }
{
    wtf8_core::laws::forms();
    string.split_first_char()
}

/// The last character of a string that ends with a known one: there is one, and joined with what is
/// before it, it is the string.
pub fn last_says<'a, E: Platform + 'a>(
    string: OsStr<'a, E>,
    known: char,
    rest: &[u8],
) -> Option<(char, OsStr<'a, E>)>
    requires { bytes string ≡ rest.now ++ encode_utf8 known }
    ensures { IsSomeAnd result (λ parts. bytes parts.1 ++ encode_utf8 parts.0
        ≡ rest.now ++ encode_utf8 known) }
{
    wtf8_core::laws::forms();
    string.split_last_char()
}

/// The first and the last character, whose units and those of the rest are the string's.
pub fn edges_in_units<'a, E: Platform + 'a>(
    string: OsStr<'a, E>,
) -> (Option<(char, OsStr<'a, E>)>, Option<(char, OsStr<'a, E>)>)
    ensures first { IfSome result.0
        (λ parts. E.units (bytes string.entry)
        ≡ E.units (encode_utf8 parts.0) ++ E.units (bytes parts.1)) }
    ensures last { IfSome result.1 (λ parts. E.units (bytes string.entry)
        ≡ E.units (bytes parts.1) ++ E.units (encode_utf8 parts.0)) }
{
    (string.split_first_char(), string.split_last_char())
}

/// The first character of a raw string: that of its bytes.
pub fn raw_first<'a, E: Platform + 'a>(string: RawOsStr<'a, E>) -> Option<(char, RawOsStr<'a, E>)>
    ensures bytes { SplitsFirstChar raw_bytes (raw_bytes string.entry) result }
    ensures units { IfSome result (λ parts. raw_units string.entry
        ≡ E.units (encode_utf8 parts.0) ++ raw_units parts.1) }
{
    string.split_first_char()
}

/// The last character of a raw string: that of its bytes.
pub fn raw_last<'a, E: Platform + 'a>(string: RawOsStr<'a, E>) -> Option<(char, RawOsStr<'a, E>)>
    ensures bytes { SplitsLastChar raw_bytes (raw_bytes string.entry) result }
    ensures units { IfSome result (λ parts. raw_units string.entry
        ≡ raw_units parts.1 ++ E.units (encode_utf8 parts.0)) }
{
    string.split_last_char()
}
