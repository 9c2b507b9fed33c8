//! Paths joined: which components the joined path has.
ghost use Rattle.std.specs.Prelude.{◌≡◌, ◌≢◌, ◌++◌, ◌∷◌, [], ℕ, List, codes, IfOk, IfSome};
ghost use Rattle.platform_str.specs.Strings.{bytes, path_bytes, path_vec_of};
ghost use Rattle.path_rules.specs.declared.rules.Style.TheVariants as whose;
ghost use Rattle.path_rules.specs.StyleRules.{rules_of_style};
ghost use Rattle.path_rules.specs.Root.{BeginsWithSeparator};
ghost use Rattle.path_rules.specs.Component.{Item, Prefix, RootDir, Normal};
ghost use Rattle.path_rules.specs.Components.{AreComponents, AreUnixComponents};
ghost use Rattle.path_rules.specs.Compare.{HaveAlikeComponents};
ghost use Rattle.path_rules.specs.Prefix.{IsPrefixed, IsRawPrefix};
ghost use Rattle.path_building.specs.Base.{LacksPart};
ghost use Rattle.path_building.specs.Resolved.{HasResolved};
ghost use Rattle.path_building.specs.Join.{IsVerbatimPath, IsRelativeTo, HaveTheSamePrefix, without_dot};

use os_path::{PathExt, PathStyle};
use path_building::laws;
use platform_str::{OsStr, Path, PathBuf, Unix, Windows};
use std::alloc::{AllocError, Allocator};

/// A path joined to a base. The result has the components of both, where the path is relative, the
/// base isn't verbatim, and the joined path has the base's prefix. It is the path itself where the
/// path has a prefix. It is the base's prefix and the path where the path has a root alone.
pub fn joined<'a, E: PathStyle + 'a, A: Allocator + Copy>(
    alloc: A,
    base: Path<'a, E>,
    path: Path<'a, E>,
) -> Result<PathBuf<E, A>, AllocError>
    ensures both { IfOk result (λ joined. (items : List Item) → (more : List Item)
        → path_bytes base.entry ≢ [] → ¬ (IsVerbatimPath E.follows (path_bytes base.entry))
        → IsRelativeTo E.follows (path_bytes path.entry)
        → HaveTheSamePrefix E.follows (path_bytes base.entry) (path_vec_of joined).items
        → AreComponents E.follows (path_bytes base.entry) items
        → AreComponents E.follows (path_bytes path.entry) more
        → AreComponents E.follows (path_vec_of joined).items (items ++ without_dot more)) }
    ensures prefixed { IfOk result (λ joined. IsPrefixed E.follows (path_bytes path.entry)
        → (path_vec_of joined).items ≡ path_bytes path.entry) }
    ensures at_root { IfOk result (λ joined. (raw : List ℕ)
        → ¬ (IsPrefixed E.follows (path_bytes path.entry))
        → ¬ (IsVerbatimPath E.follows (path_bytes base.entry))
        → BeginsWithSeparator (rules_of_style E.follows) (path_bytes path.entry)
        → IsRawPrefix E.follows (path_bytes base.entry) raw
        → (path_vec_of joined).items ≡ raw ++ path_bytes path.entry) }
{
    laws::one_join();
    laws::join_components();
    base.join(alloc, path)
}

/// A relative path of Unix joined to a base: the components of both.
pub fn joined_on_unix<A: Allocator + Copy>(
    alloc: A,
    base: Path<'_, Unix>,
    path: Path<'_, Unix>,
) -> Result<PathBuf<Unix, A>, AllocError>
    ensures { IfOk result (λ joined. (items : List Item) → (more : List Item)
        → path_bytes base.entry ≢ []
        → ¬ (BeginsWithSeparator (rules_of_style whose.Unix) (path_bytes path.entry))
        → AreUnixComponents (path_bytes base.entry) items
        → AreUnixComponents (path_bytes path.entry) more
        → AreUnixComponents (path_vec_of joined).items (items ++ without_dot more)) }
{
    laws::join_components();
    base.join(alloc, path)
}

/// A path joined to one that begins with `\\?\`: the components of both, resolved.
pub fn resolved<A: Allocator + Copy>(
    alloc: A,
    base: Path<'_, Windows>,
    path: Path<'_, Windows>,
) -> Result<PathBuf<Windows, A>, AllocError>
    ensures { IfOk result (λ joined. IsVerbatimPath whose.Windows (path_bytes base.entry)
        → ¬ (LacksPart whose.Windows (path_bytes base.entry))
        → ¬ (IsPrefixed whose.Windows (path_bytes path.entry)) → path_bytes path.entry ≢ []
        → HasResolved (path_bytes base.entry) (path_bytes path.entry) (path_vec_of joined).items) }
{
    laws::resolved_components();
    base.join(alloc, path)
}

/// `..\b\.` joined to `\\?\C:\a`: the prefix, its root and `b`.
pub fn resolved_up<A: Allocator + Copy>(
    alloc: A,
    base: Path<'_, Windows>,
    path: Path<'_, Windows>,
) -> Result<PathBuf<Windows, A>, AllocError>
    ensures { IfOk result (λ joined. path_bytes base.entry ≡ codes "\\\\?\\C:\\a"
        → path_bytes path.entry ≡ codes "..\\b\\."
        → AreComponents whose.Windows (path_vec_of joined).items
        (Prefix (codes "\\\\?\\C:") ∷ RootDir ∷ Normal (codes "b") ∷ [])) }
{
    path_rules::laws::one_list();
    laws::resolved_components();
    resolved(alloc, base, path)
}

/// The parent of a path of Unix joined with its last name: the path's components.
pub fn parent_and_name<A: Allocator + Copy>(
    alloc: A,
    path: Path<'_, Unix>,
) -> Result<Option<PathBuf<Unix, A>>, AllocError>
    ensures { IfOk result (λ joined. IfSome joined (λ joined. (items : List Item)
        → AreUnixComponents (path_bytes path.entry) items
        → AreUnixComponents (path_vec_of joined).items items)) }
{
    laws::parent_joined();
    let Some(parent) = path.parent() else {
        return Ok(None);
    };
    let Some(name) = path.file_name() else {
        return Ok(None);
    };
    match parent.join(alloc, Path::new(name)) {
        Ok(joined) => Ok(Some(joined)),
        Err(error) => Err(error),
    }
}

/// A base of Unix joined with what is left of a path after it: the path's components.
pub fn base_and_rest<A: Allocator + Copy>(
    alloc: A,
    path: Path<'_, Unix>,
    base: Path<'_, Unix>,
) -> Result<Option<PathBuf<Unix, A>>, AllocError>
    ensures { IfOk result (λ joined. IfSome joined (λ joined. (items : List Item)
        → AreUnixComponents (path_bytes path.entry) items
        → AreUnixComponents (path_vec_of joined).items items)) }
{
    laws::strip_joined();
    let Some(rest) = path.strip_prefix(base) else {
        return Ok(None);
    };
    match base.join(alloc, rest) {
        Ok(joined) => Ok(Some(joined)),
        Err(error) => Err(error),
    }
}

/// The parent of a path and its last name, and what they are joined: on any platform the path's
/// components, where the name alone is a relative path, the parent is neither empty nor verbatim, and
/// the joined path has its prefix.
pub fn parent_and_name_alone<'a, E: PathStyle + 'a, A: Allocator + Copy>(
    alloc: A,
    path: Path<'a, E>,
) -> Option<(Path<'a, E>, OsStr<'a, E>, PathBuf<E, A>)>
    ensures { IfSome result (λ parts. AreComponents E.follows (bytes parts.1)
        (Normal (bytes parts.1) ∷ []) → path_bytes parts.0 ≢ []
        → ¬ (IsVerbatimPath E.follows (path_bytes parts.0))
        → IsRelativeTo E.follows (bytes parts.1)
        → HaveTheSamePrefix E.follows (path_bytes parts.0) (path_vec_of parts.2).items
        → (items : List Item) → AreComponents E.follows (path_bytes path.entry) items
        → AreComponents E.follows (path_vec_of parts.2).items items) }
{
    laws::parent_joined();
    let Some(parent) = path.parent() else {
        return None;
    };
    let Some(name) = path.file_name() else {
        return None;
    };
    match parent.join(alloc, Path::new(name)) {
        Ok(joined) => Some((parent, name, joined)),
        Err(_) => None,
    }
}

/// A base joined with what is left of a path after it: on any platform components that are alike the
/// path's, where what is left has the components that it had, the base is neither empty nor verbatim,
/// and the joined path has its prefix.
pub fn base_and_rest_alike<'a, E: PathStyle + 'a, A: Allocator + Copy>(
    alloc: A,
    path: Path<'a, E>,
    base: Path<'a, E>,
) -> Option<(Path<'a, E>, PathBuf<E, A>)>
    ensures { IfSome result (λ parts. (more : List Item) × ((read : List Item)
        → AreComponents E.follows (path_bytes parts.0) read → without_dot read ≡ more
        → path_bytes base.entry ≢ [] → ¬ (IsVerbatimPath E.follows (path_bytes base.entry))
        → IsRelativeTo E.follows (path_bytes parts.0)
        → HaveTheSamePrefix E.follows (path_bytes base.entry) (path_vec_of parts.1).items
        → HaveAlikeComponents E.follows (path_bytes path.entry) (path_vec_of parts.1).items)) }
{
    laws::strip_joined();
    let Some(rest) = path.strip_prefix(base) else {
        return None;
    };
    match base.join(alloc, rest) {
        Ok(joined) => Some((rest, joined)),
        Err(_) => None,
    }
}
