//! The strings and the texts that bytes from outside are.
ghost use Rattle.std.specs.Prelude.{◌≡◌};
ghost use Rattle.std.specs.Str.{IsUtf8};
ghost use Rattle.platform_str.specs.Strings.{bytes};
ghost use Rattle.bench_exports.specs.Answers.{Fit};

use platform_str::{OsStr, Unix};
use std::alloc::{AllocError, Global};

/// The string that the bytes are on Unix.
#[inline(always)]
pub(crate) fn unix(raw: &[u8]) -> OsStr<'_, Unix>
    ensures { bytes result ≡ raw.now }
{
    OsStr::from_encoded_bytes_unchecked(raw)
}

/// The text that the bytes are.
#[inline(always)]
pub(crate) fn text(pattern: &[u8]) -> &str
    requires { IsUtf8 pattern.now }
    ensures { result.now ≡ pattern.now }
{
    unsafe { str::from_utf8_unchecked(pattern) }
}

/// The strings that the bytes are on Unix, cut into pieces of these lengths.
pub(crate) fn strings_of<'a>(
    alloc: Global,
    raw: &'a [u8],
    lens: &[usize],
) -> Result<Vec<OsStr<'a, Unix>>, AllocError>
    requires { Fit lens.now raw.now }
{
    let mut strings = Vec::new(alloc);
    let mut rest = raw;
    let mut left = lens;
    while let Some((len, more)) = left.split_first() {
        let (string, after) = rest.split_at(*len);
        strings.push(unix(string))?;
        rest = after;
        left = more;
    }
    Ok(strings)
}
