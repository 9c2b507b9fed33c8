//! Paths of one platform as paths of another.
ghost use Rattle.std.specs.Prelude.{◌≡◌, ◌≢◌, ℕ, List, true, IfOk, IfErr};
ghost use Rattle.platform_str.specs.Strings.{path_bytes, path_vec_of};
ghost use Rattle.path_rules.specs.Component.{Item};
ghost use Rattle.path_rules.specs.Components.{AreComponents};
ghost use Rattle.path_building.specs.Beginning.{BeginsAsShare};
ghost use Rattle.path_building.specs.Written.{IsWritten};
ghost use Rattle.path_building.specs.Restyled.{IsFirstUnlike};

use os_path::{ConvertError, PathExt, PathStyle};
use path_rules::laws;
use platform_str::{Path, PathBuf};
use std::alloc::Allocator;

/// A path of another platform: the same components, written as the other style writes them, or the
/// first that its style can't have, unless the path begins as one with a share.
pub fn converted<'a, E: PathStyle + 'a, F: PathStyle, A: Allocator + Copy>(
    alloc: A,
    path: Path<'a, E>,
) -> Result<PathBuf<F, A>, ConvertError>
    ensures same { IfOk result (λ made. (items : List Item)
        → AreComponents E.follows (path_bytes path.entry) items
        → AreComponents F.follows (path_vec_of made).items items) }
    ensures written { IfOk result (λ made. (items : List Item) → E.follows ≢ F.follows
        → AreComponents E.follows (path_bytes path.entry) items
        → IsWritten F.follows items (path_vec_of made).items) }
    ensures first { IfErr result (λ error. (items : List Item) → (known : ℕ) → (index : ℕ)
        → ¬ (BeginsAsShare E.follows (path_bytes path.entry))
        → AreComponents E.follows (path_bytes path.entry) items
        → IsFirstUnlike F.follows true items known → error ≡ ConvertError.Component index
        → index ≡ known) }
{
    laws::one_list();
    path.with_style::<F, A>(alloc)
}
