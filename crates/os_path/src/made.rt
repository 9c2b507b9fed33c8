//! Paths of a platform, from bytes that are strings of it.
ghost use Rattle.std.specs.Prelude.{◌≡◌};
ghost use Rattle.platform_str.specs.Strings.{path_bytes, path_vec_of};

use platform_str::{OsStr, OsString, Path, PathBuf, Platform};
use std::alloc::Allocator;

/// A part of a path.
pub(crate) fn part<'a, E: Platform>(bytes: &'a [u8]) -> Path<'a, E>
    requires { E.well_formed bytes.now }
    ensures { path_bytes result ≡ bytes.entry.now }
{
    Path::new(OsStr::from_encoded_bytes_unchecked(bytes))
}

/// A path that was built.
pub(crate) fn path_of<E: Platform, A: Allocator>(bytes: Vec<u8, A>) -> PathBuf<E, A>
    requires { E.well_formed bytes.items }
    ensures { (path_vec_of result).items ≡ bytes.items }
{
    PathBuf::from(OsString::from_encoded_bytes_unchecked(bytes))
}
