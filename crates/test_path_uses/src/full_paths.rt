//! Absolute paths.
ghost use Rattle.std.specs.Prelude.{◌≡◌, IfErr, IfOk};
ghost use Rattle.platform_str.specs.Strings.{path_bytes, path_vec_of};
ghost use Rattle.path_rules.specs.Root.{IsAbsolute};
ghost use Rattle.path_building.specs.FullPath.{IsDevicePath, IsFullPath, IsAbsoluteFault};
ghost use Rattle.path_building.specs.declared.full_paths.AbsoluteError.TheVariants as error;

use os_path::{AbsoluteError, PathExt, PathStyle};
use path_building::laws;
use platform_str::{Path, PathBuf};
use std::alloc::Allocator;

/// A path that is absolute. One that begins with `\\?\` or `\\.\` stays as it is, and a path is rejected
/// for its directory only if it isn't absolute.
pub fn full_path<'a, E: PathStyle + 'a, A: Allocator + Copy>(
    alloc: A,
    path: Path<'a, E>,
    directory: Path<'a, E>,
) -> Result<PathBuf<E, A>, AbsoluteError>
    ensures full { IfOk result (λ full. IsFullPath E.follows (path_bytes path.entry)
        (path_bytes directory.entry) (path_vec_of full).items) }
    ensures absolute { IfOk result
        (λ full. IsAbsolute E.follows (path_vec_of full).items) }
    ensures kept { IfOk result (λ full. IsDevicePath E.follows (path_bytes path.entry)
        → (path_vec_of full).items ≡ path_bytes path.entry) }
    ensures rejected { IfErr result (λ e. IsAbsoluteFault E.follows (path_bytes path.entry)
        (path_bytes directory.entry) e) }
    ensures relative { IfErr result (λ e. e ≡ error.Directory
        → ¬ (IsAbsolute E.follows (path_bytes path.entry))) }
{
    laws::full_paths();
    path.absolute(alloc, directory)
}
