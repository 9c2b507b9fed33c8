//! Repeated strings.
ghost use Rattle.std.specs.Prelude.{◌≡◌, ◌<◌, ◌*◌, length, IfOk, IsOk, IsErr};
ghost use Rattle.std.specs.List.{repeat};
ghost use Rattle.platform_str.specs.Strings.{bytes, string_vec_of};

use platform_str::{OsStr, OsString, Platform};
use std::alloc::{AllocError, Allocator};

/// The string repeated `count` times, in memory that is requested at once.
pub(crate) fn repeat<E: Platform, A: Allocator>(
    alloc: A,
    string: OsStr<'_, E>,
    count: usize,
) -> Result<OsString<E, A>, AllocError>
    ensures units { IfOk result (λ made. E.units (string_vec_of made).items ≡ repeat count
        (E.units (bytes string.entry))) }
    ensures empty { count * length (bytes string.entry) ≡ 0 → IsOk result }
    ensures overflow { usize.MAX < count * length (bytes string.entry) → IsErr result }
{
    let encoded = string.as_encoded_bytes();
    let mut vec = Vec::new(alloc);
    if encoded.is_empty() {
        return Ok(OsString::from_encoded_bytes_unchecked(vec));
    }
    let Some(whole) = count.checked_mul(encoded.len()) else {
        return Err(AllocError);
    };
    vec.reserve_exact(whole)?;
    for _ in 0..count {
        E::push_bytes(&mut vec, encoded)?;
    }
    Ok(OsString::from_encoded_bytes_unchecked(vec))
}
