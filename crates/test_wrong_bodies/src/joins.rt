//! Joins.
ghost use Rattle.std.specs.Prelude.{◌≡◌, ◌++◌, IfOk};
ghost use Rattle.platform_str.specs.Strings.{bytes, string_vec_of};

use os_str_ext::OsStrBytesExt;
use platform_str::{OsStr, OsString, Platform};
use std::alloc::{AllocError, Allocator};

/// A string two times over.
pub fn twice<'a, E: Platform + 'a, A: Allocator>(
    alloc: A,
    string: OsStr<'a, E>,
) -> Result<OsString<E, A>, AllocError>
    ensures { IfOk result (λ made. E.units (string_vec_of made).items
        ≡ E.units (bytes string.entry) ++ E.units (bytes string.entry)) }
{
    string.repeat(alloc, 2)
}
