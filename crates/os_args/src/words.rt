//! The words of a list from an index on.
ghost use Rattle.std.specs.Prelude.{◌≡◌, ◌↔◌, map, drop, IsTrue};
ghost use Rattle.platform_str.specs.Strings.{bytes};
ghost use Rattle.os_args.specs.Word.{dashes};

use os_str_ext::{OsStr, Platform};

/// The words from `index` on.
pub(crate) fn all_after<'s, 'a, E: Platform>(
    words: &'s [OsStr<'a, E>],
    index: usize,
) -> &'s [OsStr<'a, E>]
    ensures { map bytes result.now ≡ drop index (map bytes words.now) }
{
    let (_, left) = words.split_at(index.min(words.len()));
    left
}

/// Whether a word is `--`.
pub(crate) fn is_dashes<'a, E: Platform>(word: OsStr<'a, E>) -> bool
    ensures { IsTrue result ↔ (bytes word.entry ≡ dashes) }
{
    word.as_encoded_bytes() == b"--".as_slice()
}
