//! Paths below a base that no path may leave.
ghost use Rattle.std.specs.Prelude.{◌≡◌, ◌≢◌, ◌⊎◌, ◌++◌, ℕ, List, OnOk, OnErr, IfOk, IfErr};
ghost use Rattle.platform_str.specs.Strings.{path_bytes};
ghost use Rattle.list_programs.specs.declared.fault.ItemFault.TheVariants.{Rejected, Memory};
ghost use Rattle.path_building.specs.BaseViews.{base_style};
ghost use Rattle.path_building.specs.Faults.{IsNameFault};
ghost use Rattle.path_building.specs.declared.walk.NameError.TheVariants as name_error;
ghost use Rattle.paths_commands.specs.declared.fault.Rejection as why;
ghost use Rattle.paths_commands.specs.Task.{component_of, IsJoinedBelow, IsReasonOf, IsUnjoined};

use crate::components::shown_component;
use crate::fault::Rejection;
use crate::item::write_answer;
use list_programs::fault::ItemFault;
use os_path::{NameError, PathStyle};
use os_str_bytes::{Path, Platform};
use path_building::{Base, with_trailing_sep};
use path_rules::has_trailing_sep;
use std::alloc::{AllocError, Allocator};

/// Appends a path below a base, with the separator at its end if that is kept.
pub fn write_checked<E: PathStyle, A: Allocator + Copy>(
    alloc: A,
    base: Base<'_>,
    keeps: bool,
    path: Path<'_, E>,
    output: &mut Vec<u8, A>,
) -> Result<(), ItemFault<Rejection>>
    ensures ok { OnOk result ((joined : List ℕ)
        × (IsJoinedBelow base.entry keeps (path_bytes path.entry) joined
        × (output.new.items ≡ output.old.items ++ joined))) }
    ensures fault { IfErr result (λ fault. (fault ≡ Memory) ⊎ ((why : why.Rejection)
        × ((fault ≡ Rejected why) × IsUnjoined ⟦<E as Platform>⟧ E.follows base.entry
        (path_bytes path.entry) why))) }
    ensures unchanged { OnErr result (output.new.items ≡ output.old.items) }
{
    match joined_to(alloc, base, keeps, path.as_os_str().as_encoded_bytes()) {
        Ok(joined) => write_answer(&joined, output),
        Err(error) => Err(unjoined::<E, A>(alloc, path, error)),
    }
}

/// A path below a base, with the separator at its end if that is kept.
fn joined_to<A: Allocator + Copy>(
    alloc: A,
    base: Base<'_>,
    keeps: bool,
    path: &[u8],
) -> Result<Vec<u8, A>, NameError>
    ensures ok { IfOk result (λ joined. IsJoinedBelow base.entry keeps path.now joined.items) }
    ensures err { IfErr result (λ error. IsNameFault (base_style base.entry) path.now error) }
{
    let joined = base.join(alloc, path)?;
    let style = base.parsed().style;
    if keeps && has_trailing_sep(style, path) {
        return Ok(with_trailing_sep(alloc, style, &joined)?);
    }
    Ok(joined)
}

/// The fault of a path that isn't joined to a base.
fn unjoined<E: PathStyle, A: Allocator>(
    alloc: A,
    path: Path<'_, E>,
    error: NameError,
) -> ItemFault<Rejection>
    ensures { (result ≡ Memory) ⊎ ((error ≢ name_error.Memory) × ((why : why.Rejection)
        × ((result ≡ Rejected why)
        × IsReasonOf ⟦<E as Platform>⟧ E.follows (path_bytes path.entry) error why))) }
{
    match error {
        NameError::Memory => ItemFault::Memory,
        reason => match reason_of::<E, A>(alloc, path, reason) {
            Ok(why) => ItemFault::Rejected(why),
            Err(_) => ItemFault::Memory,
        },
    }
}

/// The reason for an error, with the component at fault, if it is one.
fn reason_of<E: PathStyle, A: Allocator>(
    alloc: A,
    path: Path<'_, E>,
    error: NameError,
) -> Result<Rejection, AllocError>
    ensures { IfOk result (λ why.
        IsReasonOf ⟦<E as Platform>⟧ E.follows (path_bytes path.entry) error why) }
{
    match component_of(error) {
        Some(index) => Ok(Rejection::NoJoinAt(error, shown_component::<E, A>(alloc, path, index)?)),
        None => Ok(Rejection::NoJoin(error)),
    }
}

/// The index of the component that is at fault. A prefix or a root is the first.
fn component_of(error: NameError) -> Option<usize>
    ensures { result ≡ component_of error }
{
    match error {
        NameError::Nul(_) => None,
        NameError::Prefix => Some(0),
        NameError::Root => Some(0),
        NameError::Leaves(index) => Some(index),
        NameError::Stream(index) => Some(index),
        NameError::Reserved(index) => Some(index),
        NameError::Memory => None,
    }
}
