//! Paths on Unix, taken apart, joined, compared and normalized.
ghost use Rattle.std.specs.Prelude.{◌≡◌, ◌≢◌, ◌↔◌, ℕ, List, IsTrue, length};
ghost use Rattle.platform_str.specs.Strings.{path_bytes};
ghost use Rattle.path_rules.specs.declared.rules.Style.TheVariants as style;
ghost use Rattle.path_rules.specs.Compare.{StartsWith};
ghost use Rattle.path_building.specs.Join.{IsJoin};
ghost use Rattle.path_building.specs.Normalized.{IsNormalized};
ghost use Rattle.path_rules.specs.Parent.{IsParent, HasNoParent, HasFileName, HasNoFileName};
ghost use Rattle.os_path.specs.Names.{HasExtension, LacksExtension};
ghost use Rattle.bench_exports.specs.Answers.{AnswersOr};

use crate::strings::unix;
use os_path::{ByComponents, Component, PathExt, push};
use platform_str::{OsStr, Path, PathBuf, Unix};
use std::alloc::Global;
use std::cmp::Ordering;

/// The path that the bytes are on Unix.
#[inline(always)]
fn path(raw: &[u8]) -> Path<'_, Unix>
    ensures { path_bytes result ≡ raw.now }
{
    Path::new(unix(raw))
}

/// Returns the number of bytes of a component.
#[inline(always)]
fn len_of(component: Component<OsStr<'_, Unix>>) -> usize {
    match component {
        Component::Prefix(prefix) => prefix.len(),
        Component::RootDir => 1,
        Component::CurDir => 1,
        Component::ParentDir => 2,
        Component::Normal(name) => name.len(),
    }
}

/// The sum of the components' lengths, modulo 2^64, which is turned by 31 before each.
#[unsafe(no_mangle)]
pub extern "C" fn port_components(raw: &[u8]) -> usize {
    let mut sum: usize = 0;
    for component in path(raw).components() {
        sum = sum.wrapping_mul(31).wrapping_add(len_of(component));
    }
    sum
}

/// The sum of the components' lengths from the end, modulo 2^64, which is turned by 31 before each.
#[unsafe(no_mangle)]
pub extern "C" fn port_components_back(raw: &[u8]) -> usize {
    let mut sum: usize = 0;
    for component in path(raw).components().rev() {
        sum = sum.wrapping_mul(31).wrapping_add(len_of(component));
    }
    sum
}

/// Returns the number of bytes of the parent, or `usize::MAX` if there is none.
#[unsafe(no_mangle)]
pub extern "C" fn port_parent(raw: &[u8]) -> usize
    ensures { AnswersOr usize.MAX (HasNoParent style.Unix raw.now)
        (λ len. (parent : List ℕ) × IsParent style.Unix raw.now parent × (len ≡ length parent))
        result }
{
    match path(raw).parent() {
        Some(parent) => parent.as_os_str().len(),
        None => usize::MAX,
    }
}

/// Returns the number of bytes of the last name, or `usize::MAX` if there is none.
#[unsafe(no_mangle)]
pub extern "C" fn port_file_name(raw: &[u8]) -> usize
    ensures { AnswersOr usize.MAX (HasNoFileName style.Unix raw.now)
        (λ len. (name : List ℕ) × HasFileName style.Unix raw.now name × (len ≡ length name))
        result }
{
    match path(raw).file_name() {
        Some(name) => name.len(),
        None => usize::MAX,
    }
}

/// Returns the number of bytes of the extension of the last name, or `usize::MAX` if there is none.
#[unsafe(no_mangle)]
pub extern "C" fn port_extension(raw: &[u8]) -> usize
    ensures { AnswersOr usize.MAX (LacksExtension style.Unix raw.now)
        (λ len. (extension : List ℕ) × HasExtension style.Unix raw.now extension
        × (len ≡ length extension)) result }
{
    match path(raw).extension() {
        Some(extension) => extension.len(),
        None => usize::MAX,
    }
}

/// Whether the first components of the path are those of the base.
#[unsafe(no_mangle)]
pub extern "C" fn port_path_starts_with(raw: &[u8], base: &[u8]) -> bool
    ensures { IsTrue result ↔ StartsWith style.Unix raw.now base.now }
{
    path(raw).starts_with(path(base))
}

/// Returns the number of bytes of the path joined to the base, or `usize::MAX` if an allocation
/// failed.
#[unsafe(no_mangle)]
pub extern "C" fn port_join(alloc: Global, base: &[u8], more: &[u8]) -> usize
    ensures { result ≢ usize.MAX → (joined : List ℕ) × IsJoin style.Unix base.now more.now joined
        × (result ≡ length joined) }
{
    match path(base).join(alloc, path(more)) {
        Ok(joined) => joined.as_os_str().len(),
        Err(_) => usize::MAX,
    }
}

/// Returns the number of bytes of a copy of the base after the path was pushed onto it, or
/// `usize::MAX` if an allocation failed.
#[unsafe(no_mangle)]
pub extern "C" fn port_push_path(alloc: Global, base: &[u8], more: &[u8]) -> usize
    ensures { result ≢ usize.MAX → (joined : List ℕ) × IsJoin style.Unix base.now more.now joined
        × (result ≡ length joined) }
{
    let Ok(string) = unix(base).to_owned(alloc) else {
        return usize::MAX;
    };
    let mut all = PathBuf::from(string);
    match push(&mut all, path(more)) {
        Ok(()) => all.as_os_str().len(),
        Err(_) => usize::MAX,
    }
}

/// Returns the number of bytes of the normal form, or `usize::MAX` if there is none or an
/// allocation failed.
#[unsafe(no_mangle)]
pub extern "C" fn port_normalize(alloc: Global, raw: &[u8]) -> usize
    ensures { result ≢ usize.MAX → (normal : List ℕ) × IsNormalized style.Unix raw.now normal
        × (result ≡ length normal) }
{
    match path(raw).normalize(alloc) {
        Ok(normal) => normal.as_os_str().len(),
        Err(_) => usize::MAX,
    }
}

/// Whether the paths have the same components.
#[unsafe(no_mangle)]
pub extern "C" fn port_path_eq(a: &[u8], b: &[u8]) -> bool {
    ByComponents::new(path(a)) == ByComponents::new(path(b))
}

/// Whether the components of the first path come before those of the second.
#[unsafe(no_mangle)]
pub extern "C" fn port_path_is_less(a: &[u8], b: &[u8]) -> bool {
    match ByComponents::new(path(a)).cmp(&ByComponents::new(path(b))) {
        Ordering::Less => true,
        Ordering::Equal => false,
        Ordering::Greater => false,
    }
}
