//! Parts of names that need not be text.
ghost use Rattle.std.specs.Prelude.{◌≡◌, ◌++◌, ℕ, List};
ghost use Rattle.os_str_bytes.specs.Strings.{bytes};

use os_str_bytes::{OsStr, OsStrBytesExt, Platform};

/// What comes before the last dot of a name, or the whole name where it has none.
pub fn stem<'a, E: Platform + 'a>(name: OsStr<'a, E>) -> OsStr<'a, E>
    ensures { (rest : List ℕ) × (bytes name.entry ≡ bytes result ++ rest) }
{
    match name.rsplit_once('.') {
        Some((stem, _)) => stem,
        None => name,
    }
}
