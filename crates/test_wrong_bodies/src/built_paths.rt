//! Paths that are built of others.
ghost use Rattle.std.specs.Prelude.{[], map, IfErr, IfOk};
ghost use Rattle.std.specs.Option.{option_map};
ghost use Rattle.path_rules.specs.Views.{item_of};
ghost use Rattle.path_building.specs.Checked.{IsBelowBase, IsCheckedJoin};
ghost use Rattle.path_building.specs.CheckedEnd.{IsCheckedJoinEnded};
ghost use Rattle.path_building.specs.Cleaned.{IsCleaned};
ghost use Rattle.path_building.specs.Collected.{ArePushed};
ghost use Rattle.path_building.specs.Faults.{IsJoinFault};
ghost use Rattle.path_building.specs.FileStem.{IsStemSet};
ghost use Rattle.path_building.specs.Normalized.{IsNormalized, IsNormalizeFault};
ghost use Rattle.path_building.specs.Relative.{IsRelativeFrom};
ghost use Rattle.path_building.specs.Restyled.{IsRestyled, IsStyleFault};

use path_building::{JoinError, NormalizeError, StyleError};
use path_rules::{Component, Style};
use std::alloc::{AllocError, Allocator};

/// A path below a base.
pub fn join_checked<A: Allocator + Copy>(
    alloc: A,
    style: Style,
    base: &[u8],
    path: &[u8],
) -> Result<Vec<u8, A>, JoinError>
    ensures ok { IfOk result (λ joined. IsCheckedJoin style base.now path.now joined.items) }
    ensures err { IfErr result (λ error. IsJoinFault style base.now path.now error) }
{
    path_building::join_checked(alloc, style, base, path)
}

/// The normal form of a path.
pub fn normalize<A: Allocator + Copy>(
    alloc: A,
    style: Style,
    path: &[u8],
) -> Result<Vec<u8, A>, NormalizeError>
    ensures ok { IfOk result (λ normal. IsNormalized style path.now normal.items) }
    ensures err { IfErr result (λ error. IsNormalizeFault style path.now error) }
{
    path_building::normalize(alloc, style, path)
}

/// The clean form of a path.
pub fn clean<A: Allocator + Copy>(
    alloc: A,
    style: Style,
    path: &[u8],
) -> Result<Vec<u8, A>, AllocError>
    ensures { IfOk result (λ clean. IsCleaned style path.now clean.items) }
{
    path_building::clean(alloc, style, path)
}

/// The way from a base to a path.
pub fn relative_from<A: Allocator + Copy>(
    alloc: A,
    style: Style,
    path: &[u8],
    base: &[u8],
) -> Result<Option<Vec<u8, A>>, AllocError>
    ensures { IfOk result (λ way. IsRelativeFrom style path.now base.now
        (option_map (λ v. v.items) way)) }
{
    path_building::relative_from(alloc, style, path, base)
}

/// The path of another style with the same components.
pub fn with_style<A: Allocator + Copy>(
    alloc: A,
    from: Style,
    to: Style,
    path: &[u8],
) -> Result<Vec<u8, A>, StyleError>
    ensures ok { IfOk result (λ made. IsRestyled from to path.now made.items) }
    ensures err { IfErr result (λ error. IsStyleFault from to path.now error) }
{
    path_building::with_style(alloc, from, to, path)
}

/// A path below a base, with a separator at its end if the path ends with one.
pub fn join_checked_keeping_sep<A: Allocator + Copy>(
    alloc: A,
    style: Style,
    base: &[u8],
    path: &[u8],
) -> Result<Vec<u8, A>, JoinError>
    ensures ok { IfOk result (λ ended. IsCheckedJoinEnded style base.now path.now ended.items) }
    ensures below { IfOk result (λ ended. IsBelowBase style base.now ended.items) }
    ensures err { IfErr result (λ error. IsJoinFault style base.now path.now error) }
{
    path_building::join_checked_keeping_sep(alloc, style, base, path)
}

/// A path of components.
pub fn from_components<A: Allocator + Copy>(
    alloc: A,
    style: Style,
    components: &[Component<&[u8]>],
) -> Result<Vec<u8, A>, AllocError>
    ensures { IfOk result
        (λ path. ArePushed style [] (map item_of components.now) path.items) }
{
    path_building::from_components(alloc, style, components)
}

/// A path with another stem of its last name.
pub fn with_file_stem<A: Allocator + Copy>(
    alloc: A,
    style: Style,
    path: &[u8],
    file_stem: &[u8],
) -> Result<Vec<u8, A>, AllocError>
    ensures { IfOk result (λ made. IsStemSet style path.now file_stem.now made.items) }
{
    path_building::with_file_stem(alloc, style, path, file_stem)
}
