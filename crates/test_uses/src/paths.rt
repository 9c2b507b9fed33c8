//! Paths: they are strings, and give them back.
ghost use Rattle.std.specs.Prelude.{◌≡◌};
ghost use Rattle.platform_str.specs.Strings.{bytes, string_vec_of, path_vec_of};
ghost use Rattle.platform_str.specs.Cows.{path_cow_bytes};

use platform_str::{HasBytes, OsStr, OsString, Path, PathBuf, PathCow, Platform};
use std::alloc::Allocator;

/// A string, by way of a path.
pub fn through_path<'a, E: Platform + 'a>(string: OsStr<'a, E>) -> OsStr<'a, E>
    ensures { bytes result ≡ bytes string.entry }
{
    Path::new(string).as_os_str()
}

/// An owned string, by way of an owned path: the same vector.
pub fn through_owned_path<E: Platform, A: Allocator>(string: OsString<E, A>) -> OsString<E, A>
    ensures { string_vec_of result ≡ string_vec_of string }
{
    PathBuf::from(string).into_os_string()
}

/// An owned path, by way of an owned string: the same vector.
pub fn through_owned_string<E: Platform, A: Allocator>(path: PathBuf<E, A>) -> PathBuf<E, A>
    ensures { path_vec_of result ≡ path_vec_of path }
{
    PathBuf::from(OsString::from(path))
}

/// The bytes of an owned path, seen as a path.
pub fn seen_as_path<E: Platform, A: Allocator>(path: &PathBuf<E, A>) -> &[u8]
    ensures { result.now ≡ (path_vec_of path.now).items }
{
    path.as_path().as_os_str().as_encoded_bytes()
}

/// The bytes of an owned path, seen as a string.
pub fn seen_as_string<E: Platform, A: Allocator>(path: &PathBuf<E, A>) -> &[u8]
    ensures { result.now ≡ (path_vec_of path.now).items }
{
    path.as_os_str().as_encoded_bytes()
}

/// The bytes of a path that is borrowed or owned, seen as a path.
pub fn path_in_cow<'b, 'a, E: Platform + 'a, A: Allocator>(cow: &'b PathCow<'a, E, A>) -> &'b [u8]
    ensures { result.now ≡ path_cow_bytes cow.now }
{
    cow.as_path().as_os_str().as_encoded_bytes()
}

/// The bytes of a path that is borrowed or owned.
pub fn bytes_of_path_cow<'b, 'a, E: Platform + 'a, A: Allocator>(
    cow: &'b PathCow<'a, E, A>,
) -> &'b [u8]
    ensures { result.now ≡ path_cow_bytes cow.now }
{
    cow.bytes()
}
