//! The common base of paths: it is a string of their platform.
ghost use Rattle.std.specs.Prelude.{map, IfOk, IfErr};
ghost use Rattle.platform_str.specs.Strings.{path_bytes};
ghost use Rattle.path_building.specs.CommonBase.{IsBaseOf, IsCommonBase, IsCommonBaseFault, IsFirstApart};

use crate::ext::PathExt;
use crate::made::part;
use crate::style::PathStyle;
use path_building::{CommonBaseError, common_base_with};
use path_rules::{Style, end_trimmed};
use platform_str::Path;

/// Returns the longest path that all paths begin with (CPython's `os.path.commonpath`).
///
/// Components are compared, as by [`crate::PathExt::starts_with`], so the base of `/usr/lib` and
/// `/usr/local` is `/usr`. The result is a part of the first path, up to the end of a component. It
/// is empty if relative paths have no component in common. `..` is a component like any other, and
/// so is a `.` at the start of a path.
///
/// # Errors
///
/// - `NoPath` if there are no paths.
/// - `Prefix` with the index of the first path that has another prefix than the first path.
/// - `Root` with the index of the first path that has a root component where the first path has
///   none, or none where it has one.
///
/// Of `Prefix` and `Root` the smaller index is returned, and `Prefix` if both are the same.
///
/// ```
/// use os_path::{CommonBaseError, common_base, path};
/// use platform_str::{OsStr, Unix, Windows};
///
/// let base = common_base::<Unix>(&[path("/usr/lib/a"), path("/usr//local/")]);
/// assert!(rt; base.is_ok_and(|base| base.as_os_str() == OsStr::new("/usr")));
/// let base = common_base::<Windows>(&[path("C:\\a\\b"), path("c:/a/c")]);
/// assert!(rt; base.is_ok_and(|base| base.as_os_str() == OsStr::new("C:\\a")));
/// let error = common_base::<Unix>(&[path("/usr"), path("usr")]).err();
/// assert!(rt; error == Some(CommonBaseError::Root(1)));
/// ```
pub fn common_base<'a, E: PathStyle>(paths: &[Path<'a, E>]) -> Result<Path<'a, E>, CommonBaseError>
    ensures ok { IfOk result
        (λ base. IsCommonBase E.follows (map path_bytes paths.now) (path_bytes base)) }
    ensures err { IfErr result
        (λ error. IsCommonBaseFault E.follows (map path_bytes paths.now) error) }
{
    match paths {
        [first, others @ ..] => match base_of(E::style(), first.path_bytes(), others) {
            Ok(base) => Ok(part(base)),
            Err(error) => Err(error),
        },
        [] => Err(CommonBaseError::NoPath),
    }
}

/// The longest path that a first path and all others begin with.
#[tactic(auto, using(path_building::proofs::lemmas::CommonBases::all_walked, path_building::proofs::lemmas::CommonBases::apart,))]
fn base_of<'a, 'b, E: PathStyle + 'b>(
    style: Style,
    first: &'a [u8],
    others: &[Path<'b, E>],
) -> Result<&'a [u8], CommonBaseError>
    ensures ok { IfOk result
        (λ base. IsBaseOf style first.entry.now (map path_bytes others.now) base.now) }
    ensures err { IfErr result
        (λ error. IsFirstApart style first.entry.now (map path_bytes others.now) error) }
{
    let mut base = end_trimmed(style, first);
    let mut index = 1;
    let mut left = others;
    while let [path, more @ ..] = left {
        base = match common_base_with(style, first, base, path.path_bytes(), index) {
            Ok(shared) => shared,
            Err(error) => return Err(error),
        };
        index += 1;
        left = more;
    }
    Ok(base)
}
