//! Numbers that differ for most texts.
ghost use Rattle.std.specs.Prelude.{◌≡◌, map};
ghost use Rattle.std.specs.Char.{to_ascii_lowercase};
ghost use Rattle.wildcards.specs.Tables.{digest_of, digest_after};

use std::hash::{FoldHasher, Hasher};

/// A number for a text, the same for a capital letter of ASCII as for its small one.
fn small_digest(text: &[u8]) -> u64
    ensures { result ≡ digest_after 0 (map to_ascii_lowercase text.entry.now) }
{
    let mut number: u64 = 0;
    let mut left = text;
    while let Some((byte, rest)) = left.split_first() {
        number = number
            .wrapping_mul(31)
            .wrapping_add(u64::from(byte.to_ascii_lowercase()));
        left = rest;
    }
    number
}

/// A number for a text, which differs for most others. If it `folds`, it is that of the small letters.
#[inline(always)]
pub(crate) fn digest(folds: bool, text: &[u8]) -> u64
    ensures { result ≡ digest_of folds text.now }
{
    if folds {
        return small_digest(text);
    }
    let mut hasher = FoldHasher::default();
    hasher.write(text);
    hasher.finish()
}
