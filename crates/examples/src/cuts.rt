//! Cuts at what a search found.
ghost use Rattle.std.specs.Prelude.{◌≡◌, ℕ, IfSome, take};
ghost use Rattle.os_str_bytes.specs.Strings.{bytes};

use os_str_bytes::{OsStr, OsStrBytesExt, Platform};

/// What comes before the first occurrence of a pattern, by a search and a cut.
pub fn before_first<'a, E: Platform + 'a>(
    string: OsStr<'a, E>,
    pattern: &str,
) -> Option<OsStr<'a, E>>
    ensures { IfSome result (λ before. (at : ℕ) × (bytes before ≡ take at (bytes string.entry))) }
{
    let at = string.find(pattern)?;
    let (before, _) = string.split_at(at);
    Some(before)
}
