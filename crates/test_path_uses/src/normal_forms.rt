//! Normal forms and clean forms of paths, which are their own.
ghost use Rattle.std.specs.Prelude.{◌≡◌, ◌↔◌, ℕ, List, IsTrue, IfOk, IfSome};
ghost use Rattle.platform_str.specs.Strings.{path_bytes, path_vec_of};
ghost use Rattle.path_rules.specs.declared.rules.Style.TheVariants as whose;
ghost use Rattle.path_rules.specs.Component.{Item};
ghost use Rattle.path_rules.specs.Components.{AreComponents};
ghost use Rattle.path_building.specs.Beginning.{BeginsOddly};
ghost use Rattle.path_building.specs.Normalized.{IsNormalForm};
ghost use Rattle.path_building.specs.Cleaned.{DifferInSeparators};
ghost use Rattle.path_building.specs.Join.{IsVerbatimPath};
ghost use Rattle.test_path_uses.specs.Forms.{IsForm};

use crate::form::Form;
use os_path::{NormalizeError, PathExt, PathStyle};
use path_building::laws as building;
use path_rules::laws;
use platform_str::{Path, PathBuf, Windows};
use std::alloc::{AllocError, Allocator};

/// A path in a form.
pub(crate) fn in_form<'a, E: PathStyle + 'a, A: Allocator + Copy>(
    alloc: A,
    form: Form,
    path: Path<'a, E>,
) -> Result<PathBuf<E, A>, NormalizeError>
    ensures { IfOk result (λ made. IsForm form E.follows (path_bytes path.entry)
        (path_vec_of made).items) }
{
    match form {
        Form::Normal => path.normalize(alloc),
        Form::Clean => Ok(path.clean(alloc)?),
    }
}

/// A path in a form: it is each path that is this one in the form, byte for byte.
pub fn formed<'a, E: PathStyle + 'a, A: Allocator + Copy>(
    alloc: A,
    form: Form,
    path: Path<'a, E>,
) -> Result<PathBuf<E, A>, NormalizeError>
    ensures { IfOk result (λ made. (other : List ℕ)
        → IsForm form E.follows (path_bytes path.entry) other
        → (path_vec_of made).items ≡ other) }
{
    laws::one_list();
    building::normal_forms();
    building::clean_forms();
    in_form(alloc, form, path)
}

/// A path put into a form once and twice: the same bytes.
pub fn formed_twice<'a, E: PathStyle + 'a, A: Allocator + Copy>(
    alloc: A,
    form: Form,
    path: Path<'a, E>,
) -> Result<(PathBuf<E, A>, PathBuf<E, A>), NormalizeError>
    ensures { IfOk result (λ both. (path_vec_of both.1).items ≡ (path_vec_of both.0).items) }
{
    laws::one_list();
    building::normal_forms();
    building::normalized_again();
    building::clean_forms();
    building::cleaned_again();
    let once = in_form(alloc, form, path)?;
    let twice = in_form(alloc, form, once.as_path())?;
    Ok((once, twice))
}

/// Two Windows paths that differ only in which of `/` and `\` separates, cleaned: the same bytes,
/// unless one of them begins with `\\?\`.
pub fn cleaned_alike<A: Allocator + Copy>(
    alloc: A,
    path: Path<'_, Windows>,
    other: Path<'_, Windows>,
) -> Result<(PathBuf<Windows, A>, PathBuf<Windows, A>), AllocError>
    ensures { IfOk result (λ both.
        DifferInSeparators (path_bytes path.entry) (path_bytes other.entry)
        → ¬ (IsVerbatimPath whose.Windows (path_bytes path.entry))
        → ¬ (IsVerbatimPath whose.Windows (path_bytes other.entry))
        → (path_vec_of both.0).items ≡ (path_vec_of both.1).items) }
{
    building::one_clean_path();
    let one = path.clean(alloc)?;
    let two = other.clean(alloc)?;
    Ok((one, two))
}

/// Whether a path that doesn't begin oddly has a normal form; `None` where memory is refused.
pub fn has_normal_form<'a, E: PathStyle + 'a, A: Allocator + Copy>(
    alloc: A,
    path: Path<'a, E>,
) -> Option<bool>
    ensures { IfSome result (λ has. ¬ (BeginsOddly E.follows (path_bytes path.entry))
        → IsTrue has ↔ ((items : List Item) × ((normal : List Item)
        × (AreComponents E.follows (path_bytes path.entry) items × IsNormalForm items normal)))) }
{
    match path.normalize(alloc) {
        Ok(_) => Some(true),
        Err(NormalizeError::NoName) => Some(false),
        Err(NormalizeError::Memory) => None,
    }
}
