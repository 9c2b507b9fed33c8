//! Paths of components.
ghost use Rattle.std.specs.Prelude.{◌≡◌, List, map, IfOk};
ghost use Rattle.platform_str.specs.Strings.{path_bytes, path_vec_of};
ghost use Rattle.path_rules.specs.Component.{Item};
ghost use Rattle.path_rules.specs.Components.{AreUnixComponents};
ghost use Rattle.os_path.specs.Views.{os_item_of};

use os_path::{Component, Components, PathExt, from_components};
use path_building::laws as building;
use path_rules::laws;
use platform_str::{OsStr, Path, PathBuf, Unix};
use std::alloc::{AllocError, Allocator};

/// The components of a Unix path, collected, are those of a path.
pub fn collected<A: Allocator + Copy>(
    alloc: A,
    path: Path<'_, Unix>,
) -> Result<PathBuf<Unix, A>, AllocError>
    ensures { IfOk result (λ made. (items : List Item)
        → AreUnixComponents (path_bytes path.entry) items
        → AreUnixComponents (path_vec_of made).items items) }
{
    laws::one_list();
    building::collected();
    let parts = parts_of(alloc, path.components())?;
    from_components(alloc, &parts)
}

/// The remaining components.
fn parts_of<'a, A: Allocator>(
    alloc: A,
    left: Components<'a, Unix>,
) -> Result<Vec<Component<OsStr<'a, Unix>>, A>, AllocError>
    ensures { IfOk result (λ parts. map os_item_of parts.items ≡ left.entry.items) }
{
    let mut parts = Vec::new(alloc);
    for part in left {
        parts.push(part)?;
    }
    Ok(parts)
}
