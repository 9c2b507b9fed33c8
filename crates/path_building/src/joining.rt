//! A path after another.
ghost use Rattle.std.specs.Prelude.{◌≡◌, ◌≢◌, ◌↔◌, ◌++◌, ◌≤◌, [], ◌∷◌, length, take, IsTrue, IfOk, OnOk, OnErr, MatchOption, vec_len};
ghost use Rattle.path_rules.specs.Prefix.{IsPrefixed, IsRawPrefix};
ghost use Rattle.path_rules.specs.StyleRules.{main_separator};
ghost use Rattle.path_building.specs.Join.{IsVerbatimPath, IsDriveAlone, NeedsNoSeparator, IsJoin};

use crate::resolving::resolve;
use path_rules::parts::{Parsed, begins_with_separator};
use path_rules::{Style, has_trailing_sep};
use std::alloc::{AllocError, Allocator};

/// How many of the base's bytes are kept, and what is written between them and the path.
#[derive(Clone, Copy)]
struct Kept {
    len: usize,
    separator: &'static [u8],
}

/// Joins a path to another, in new memory (std's `Path::join`).
///
/// A path with a prefix is returned unchanged. One with a root alone keeps the base's prefix. Any
/// other follows the base, after a separator unless the base is empty, ends with one, or is a drive
/// alone as `C:`. After a base that begins with `\\?\` the path is resolved: `.` is left out, `..`
/// takes the name before it away, and the path is written with `\` between its components
/// ([`crate::laws::resolved_components`]).
///
/// # Errors
///
/// `AllocError` if an allocation fails.
///
/// ```
/// use path_building::join;
/// use path_rules::Style;
///
/// assert_eq!(rt; join(alloc, Style::Unix, b"/usr", b"lib")?.as_slice(), b"/usr/lib".as_slice());
/// assert_eq!(rt; join(alloc, Style::Unix, b"/usr", b"/lib")?.as_slice(), b"/lib".as_slice());
/// assert_eq!(rt; join(alloc, Style::Windows, b"C:", b"a")?.as_slice(), b"C:a".as_slice());
/// assert_eq!(rt; join(alloc, Style::Windows, br"C:\a", br"\b")?.as_slice(), br"C:\b".as_slice());
/// ```
pub fn join<A: Allocator + Clone>(
    alloc: A,
    style: Style,
    base: &[u8],
    path: &[u8],
) -> Result<Vec<u8, A>, AllocError>
    ensures { IfOk result (λ joined. IsJoin style base.now path.now joined.items) }
{
    let Some(kept) = kept_part(style, base, path) else {
        return resolve(alloc, base, path);
    };
    let mut joined = Vec::with_capacity(alloc, kept.len + kept.separator.len() + path.len())?;
    joined.extend_from_slice(&base[..kept.len])?;
    joined.extend_from_slice(kept.separator)?;
    joined.extend_from_slice(path)?;
    Ok(joined)
}

/// Appends a path to another, in place (std's `PathBuf::push`). The result is that of [`join`].
///
/// It doesn't allocate if the vector has room for a separator and the path, except after a base
/// that begins with `\\?\`.
///
/// # Errors
///
/// `AllocError` if an allocation fails; the base is then unchanged.
///
/// ```
/// use path_building::push;
/// use path_rules::Style;
///
/// let mut path = b"/usr".to_vec(alloc)?;
/// push(Style::Unix, &mut path, b"lib")?;
/// assert_eq!(rt; path.as_slice(), b"/usr/lib".as_slice());
/// ```
pub fn push<A: Allocator + Clone>(
    style: Style,
    base: &mut Vec<u8, A>,
    path: &[u8],
) -> Result<(), AllocError>
    ensures ok { OnOk result (IsJoin style base.old.items path.now base.new.items) }
    ensures err { OnErr result (base.new.items ≡ base.old.items) }
{
    let len = base.len();
    join_after(style, base, len, path)
}

/// Joins a path to the first bytes of a vector, in place.
pub(crate) fn join_after<A: Allocator + Clone>(
    style: Style,
    vec: &mut Vec<u8, A>,
    len: usize,
    path: &[u8],
) -> Result<(), AllocError>
    requires { len ≤ vec_len vec.old }
    ensures ok { OnOk result (IsJoin style (take len vec.old.items) path.now vec.new.items) }
    ensures err { OnErr result (vec.new.items ≡ vec.old.items) }
{
    let (base, _) = vec.as_slice().split_at(len);
    match kept_part(style, base, path) {
        Some(kept) => {
            set_end(vec, kept.len, kept.separator, path)?;
            Ok(())
        }
        None => {
            *vec = resolve(vec.allocator().clone()?, base, path)?;
            Ok(())
        }
    }
}

/// Keeps the first bytes of a vector, and appends two parts to them.
pub(crate) fn set_end<A: Allocator>(
    vec: &mut Vec<u8, A>,
    keep: usize,
    part: &[u8],
    end: &[u8],
) -> Result<(), AllocError>
    requires { keep ≤ vec_len vec.old }
    ensures ok { OnOk result (vec.new.items ≡ take keep vec.old.items ++ (part.now ++ end.now)) }
    ensures err { OnErr result (vec.new.items ≡ vec.old.items) }
{
    vec.reserve(part.len() + end.len())?;
    vec.truncate(keep);
    vec.extend_from_slice(part)?;
    vec.extend_from_slice(end)
}

/// What is kept of the base before a path; `None` if the path is resolved.
fn kept_part(style: Style, base: &[u8], path: &[u8]) -> Option<Kept>
    ensures { MatchOption result
        ((¬ (IsPrefixed style path.now)) × (IsVerbatimPath style base.now × (path.now ≢ [])))
        (λ kept. (kept.len ≤ length base.now) × (length kept.separator.now ≤ 1)
        × IsJoin style base.now path.now
        (take kept.len base.now ++ (kept.separator.now ++ path.now))) }
{
    if is_prefixed(style, path) {
        return Some(Kept {
            len: 0,
            separator: b"".as_slice(),
        });
    }
    if is_resolved(style, base, path) {
        return None;
    }
    if begins_with_separator(style.rules(), path) {
        return Some(Kept {
            len: prefix_len(style, base),
            separator: b"".as_slice(),
        });
    }
    if needs_no_separator(style, base) {
        return Some(Kept {
            len: base.len(),
            separator: b"".as_slice(),
        });
    }
    Some(Kept {
        len: base.len(),
        separator: separator(style),
    })
}

/// Whether a path that has no prefix is resolved after the base.
fn is_resolved(style: Style, base: &[u8], path: &[u8]) -> bool
    ensures { IsTrue result ↔ (IsVerbatimPath style base.now × (path.now ≢ [])) }
{
    is_verbatim_path(style, base) && !path.is_empty()
}

/// The separator that is written between a base and a path.
pub(crate) fn separator(style: Style) -> &'static [u8]
    ensures { result.now ≡ main_separator style ∷ [] }
{
    match style {
        Style::Unix => b"/".as_slice(),
        Style::Windows => br"\".as_slice(),
    }
}

/// Whether no separator is written after the base.
fn needs_no_separator(style: Style, base: &[u8]) -> bool
    ensures { IsTrue result ↔ NeedsNoSeparator style base.now }
{
    base.is_empty() || has_trailing_sep(style, base) || is_drive_alone(style, base)
}

/// Whether a path begins with a prefix.
pub(crate) fn is_prefixed(style: Style, path: &[u8]) -> bool
    ensures { IsTrue result ↔ IsPrefixed style path.now }
{
    Parsed::new(style, path).is_prefixed()
}

/// Whether a path begins with a prefix after which only `\` separates.
fn is_verbatim_path(style: Style, path: &[u8]) -> bool
    ensures { IsTrue result ↔ IsVerbatimPath style path.now }
{
    Parsed::new(style, path).is_verbatim()
}

/// Whether a path is a drive alone.
fn is_drive_alone(style: Style, path: &[u8]) -> bool
    ensures { IsTrue result ↔ IsDriveAlone style path.now }
{
    Parsed::new(style, path).is_drive_alone()
}

/// How many bytes a path's prefix has, 0 without one.
fn prefix_len(style: Style, path: &[u8]) -> usize
    ensures inside { result ≤ length path.now }
    ensures raw { IsRawPrefix style path.now (take result path.now) }
{
    Parsed::new(style, path).raw_prefix().len()
}
