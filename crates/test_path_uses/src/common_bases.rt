//! The common base of paths.
ghost use Rattle.std.specs.Prelude.{◌≡◌, ◌⊎◌, ℕ, List, IfOk, IfErr, IfSome};
ghost use Rattle.platform_str.specs.Strings.{path_bytes};
ghost use Rattle.path_rules.specs.Compare.{StartsWith};
ghost use Rattle.path_building.specs.CommonBase.{HaveOnePrefix, HaveOneRoot, IsFront};
ghost use Rattle.path_building.specs.declared.common_bases.CommonBaseError.TheVariants as error;

use os_path::PathStyle;
use path_building::{CommonBaseError, common_base, laws};
use path_rules::Style;
use platform_str::Path;

/// The base of two paths: the second starts with it, and each path that both start with is a front
/// of it. They have none only if their prefixes or their roots differ, as the error states.
pub fn base_of_two<'a>(
    style: Style,
    path: &'a [u8],
    other: &'a [u8],
) -> Result<&'a [u8], CommonBaseError>
    ensures front { IfOk result (λ base. IsFront style path.entry.now base.now) }
    ensures common { IfOk result (λ base. StartsWith style other.entry.now base.now) }
    ensures longest { IfOk result (λ base. (front : List ℕ)
        → StartsWith style path.entry.now front → StartsWith style other.entry.now front
        → StartsWith style base.now front) }
    ensures begun { IfOk result (λ base. HaveOnePrefix style path.entry.now other.entry.now
        × HaveOneRoot style path.entry.now other.entry.now) }
    ensures apart { IfErr result (λ fault.
        ((fault ≡ error.Prefix 1) × ¬ (HaveOnePrefix style path.entry.now other.entry.now))
        ⊎ ((fault ≡ error.Root 1) × (HaveOnePrefix style path.entry.now other.entry.now
        × ¬ (HaveOneRoot style path.entry.now other.entry.now)))) }
{
    common_base(style, &[path, other])
}

/// The base of three paths of a platform. An error has the index of the first that differs, so a
/// second path that isn't it has the first one's prefix.
pub fn base_of_three<'a, E: PathStyle + 'a>(
    path: Path<'a, E>,
    second: Path<'a, E>,
    third: Path<'a, E>,
) -> Result<Path<'a, E>, CommonBaseError>
    ensures front { IfOk result
        (λ base. IsFront E.follows (path_bytes path.entry) (path_bytes base)) }
    ensures second { IfOk result
        (λ base. StartsWith E.follows (path_bytes second.entry) (path_bytes base)) }
    ensures third { IfOk result
        (λ base. StartsWith E.follows (path_bytes third.entry) (path_bytes base)) }
    ensures longest { IfOk result (λ base. (front : List ℕ)
        → StartsWith E.follows (path_bytes path.entry) front
        → StartsWith E.follows (path_bytes second.entry) front
        → StartsWith E.follows (path_bytes third.entry) front
        → StartsWith E.follows (path_bytes base) front) }
    ensures apart { IfErr result (λ fault. fault ≡ error.Prefix 2
        → HaveOnePrefix E.follows (path_bytes path.entry) (path_bytes second.entry)
        × ¬ (HaveOnePrefix E.follows (path_bytes path.entry) (path_bytes third.entry))) }
{
    os_path::common_base(&[path, second, third])
}

/// The base of two paths, found twice: it is one.
pub fn base_found_twice<'a>(
    style: Style,
    path: &'a [u8],
    other: &'a [u8],
) -> Result<(&'a [u8], &'a [u8]), CommonBaseError>
    ensures { IfOk result (λ both. both.0.now ≡ both.1.now) }
{
    laws::one_result();
    let once = common_base(style, &[path, other])?;
    let twice = common_base(style, &[path, other])?;
    Ok((once, twice))
}

/// Why two paths have no base, found twice: it is one error.
pub fn error_found_twice(
    style: Style,
    path: &[u8],
    other: &[u8],
) -> Option<(CommonBaseError, CommonBaseError)>
    ensures { IfSome result (λ both. both.0 ≡ both.1) }
{
    laws::one_fault();
    let Err(once) = common_base(style, &[path, other]) else {
        return None;
    };
    let Err(twice) = common_base(style, &[path, other]) else {
        return None;
    };
    Some((once, twice))
}
