//! How a path is reached from a base.
ghost use Rattle.std.specs.Prelude.{◌≡◌, None, IfOk, IfSome};
ghost use Rattle.platform_str.specs.Strings.{path_bytes, path_vec_of};
ghost use Rattle.path_rules.specs.Root.{IsAbsolute};
ghost use Rattle.path_building.specs.Relative.{AreOnePlace};

use os_path::{PathExt, PathStyle};
use path_building::laws;
use platform_str::{Path, PathBuf};
use std::alloc::{AllocError, Allocator};

/// The way from a base to a path, joined to the base: it leads to the path's place.
pub fn way_from_base<'a, E: PathStyle + 'a, A: Allocator + Copy>(
    alloc: A,
    path: Path<'a, E>,
    base: Path<'a, E>,
) -> Result<Option<PathBuf<E, A>>, AllocError>
    ensures { IfOk result (λ joined. IfSome joined (λ joined. AreOnePlace E.follows
        (path_vec_of joined).items (path_bytes path.entry))) }
{
    laws::one_join();
    match path.relative_from(alloc, base) {
        Ok(Some(way)) => match base.join(alloc, way.as_path()) {
            Ok(joined) => Ok(Some(joined)),
            Err(error) => Err(error),
        },
        Ok(None) => Ok(None),
        Err(error) => Err(error),
    }
}

/// The way from a base to a path, where one of them is absolute: an absolute path is itself the way
/// from a base that isn't, and from an absolute base no way leads to a path that isn't.
pub fn way_to_absolute<'a, E: PathStyle + 'a, A: Allocator + Copy>(
    alloc: A,
    path: Path<'a, E>,
    base: Path<'a, E>,
) -> Result<Option<PathBuf<E, A>>, AllocError>
    ensures itself { IfOk result (λ way. IsAbsolute E.follows (path_bytes path.entry)
        → ¬ (IsAbsolute E.follows (path_bytes base.entry))
        → IfSome way (λ way. (path_vec_of way).items ≡ path_bytes path.entry)) }
    ensures none { IfOk result (λ way. ¬ (IsAbsolute E.follows (path_bytes path.entry))
        → IsAbsolute E.follows (path_bytes base.entry) → way ≡ None) }
{
    path.relative_from(alloc, base)
}
