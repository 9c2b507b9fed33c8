//! A path relative to a base.
ghost use Rattle.std.specs.Prelude.{◌≡◌, ◌++◌, ◌↔◌, false, Some, map, IsTrue, IfOk, OnOk};
ghost use Rattle.std.specs.Option.{option_map};
ghost use Rattle.path_rules.specs.Views.{item_of};
ghost use Rattle.path_rules.specs.Heads.{prefix_items};
ghost use Rattle.path_rules.specs.Root.{IsAbsolute};
ghost use Rattle.path_building.specs.Join.{without_dot};
ghost use Rattle.path_building.specs.Spelled.{cleaned_start};
ghost use Rattle.path_rules.specs.Compare.{AreAllAlike};
ghost use Rattle.path_building.specs.Relative.{IsPlace, AreOnePlace, AreApart, up_from, BeginsAtTop, BeginsUp, AreWritten, IsWhole, IsWay, IsCandidateOrNone, IsRelativeFrom};

use crate::beginning::{begins_with_colon, is_one_odd};
use crate::checked::add_names;
use crate::cleaning::cleaned;
use crate::joining::join;
use crate::normal::{all_items, is_root, rewritten, written_as};
use crate::writing::written;
use path_rules::parts::{Head, Start, are_alike, head_of, is_verbatim};
use path_rules::{Component, Style, is_absolute};
use std::alloc::{AllocError, Allocator};

/// Returns the path relative to a base, in new memory (the crate pathdiff's `diff_paths`). The base
/// joined with the result leads to the same file as the path.
///
/// The components that both begin with are left out. Each other component of the base becomes a
/// `..`, except a `.` at its start. The remaining components of the path follow, with each `..`
/// among them, and the result is written with the main separator.
///
/// An absolute path is returned unchanged if the base isn't absolute. Any other path with another
/// prefix or another root than the base's is returned whole, written with the main separator. If it
/// begins with `\\?\`, its `.` and `..` are then resolved, as they are where it is joined. A first
/// name with a colon gets `.\` before it.
///
/// Returns `None` if the base is absolute and the path isn't, or if the base goes up by a `..`
/// where the path doesn't. It returns `None`, too, if both are absolute or neither is, and Windows
/// doesn't read the beginning of one by components, as that of `\\server` ([`crate::normalize`]).
/// It also returns `None` if the base joined with the result would lead to another file, as
/// `..\..\a` for `a` relative to `C:b`. Two paths lead to the same file if their clean forms are
/// alike, without symbolic links and also after `\\?\`.
///
/// # Errors
///
/// `AllocError` if an allocation fails.
///
/// ```
/// use path_building::relative_from;
/// use path_rules::Style;
///
/// let path = relative_from(alloc, Style::Unix, b"/usr/lib/a", b"/usr/bin")?;
/// assert!(rt; path.is_some_and(|path| path.as_slice() == b"../lib/a".as_slice()));
/// let path = relative_from(alloc, Style::Windows, br"C:\a", br"c:\b\c")?;
/// assert!(rt; path.is_some_and(|path| path.as_slice() == br"..\..\a".as_slice()));
/// assert!(rt; relative_from(alloc, Style::Unix, b"a", b"/usr")?.is_none());
/// ```
pub fn relative_from<A: Allocator + Clone>(
    alloc: A,
    style: Style,
    path: &[u8],
    base: &[u8],
) -> Result<Option<Vec<u8, A>>, AllocError>
    ensures { IfOk result
        (λ way. IsRelativeFrom style path.now base.now (option_map (λ v. v.items) way)) }
{
    let Some(way) = candidate(alloc.clone()?, style, path, base)? else {
        return Ok(None);
    };
    let joined = join(alloc.clone()?, style, base, &way)?;
    if are_one_place(alloc, style, &joined, path)? {
        return Ok(Some(way));
    }
    Ok(None)
}

/// The way from the base.
fn candidate<A: Allocator + Clone>(
    alloc: A,
    style: Style,
    path: &[u8],
    base: &[u8],
) -> Result<Option<Vec<u8, A>>, AllocError>
    ensures { IfOk result
        (λ way. IsCandidateOrNone style path.now base.now (option_map (λ v. v.items) way)) }
{
    if is_one_absolute(style, path, base) {
        if is_absolute(style, path) {
            return Ok(Some(Vec::from_slice(alloc, path)?));
        }
        return Ok(None);
    }
    if is_one_odd(style, path, base) {
        return Ok(None);
    }
    let items = all_items(alloc.clone()?, style, path)?;
    let base_items = all_items(alloc.clone()?, style, base)?;
    let (left, wanted) = apart(&items, &base_items);
    let wanted = after_dot(wanted);
    if begins_up(wanted) {
        return Ok(None);
    }
    Ok(Some(way(alloc, style, path, left, wanted)?))
}

/// Whether one of two paths is absolute and the other isn't.
fn is_one_absolute(style: Style, path: &[u8], base: &[u8]) -> bool
    ensures yes { IsTrue result → (IsAbsolute style path.now → ¬ (IsAbsolute style base.now))
        × (¬ (IsAbsolute style path.now) → IsAbsolute style base.now) }
    ensures no { result ≡ false → (IsAbsolute style path.now ↔ IsAbsolute style base.now) }
{
    if is_absolute(style, path) {
        return !is_absolute(style, base);
    }
    is_absolute(style, base)
}

/// Returns the relative path, given the components that are left of the path and of the base.
fn way<A: Allocator + Clone>(
    alloc: A,
    style: Style,
    path: &[u8],
    left: &[Component<&[u8]>],
    wanted: &[Component<&[u8]>],
) -> Result<Vec<u8, A>, AllocError>
    ensures { IfOk result
        (λ way. IsWay style path.now (map item_of left.now) (map item_of wanted.now) way.items) }
{
    if begins_at_top(left) {
        return whole(alloc, style, path);
    }
    let mut names = Vec::new(alloc.clone()?);
    add_ups(&mut names, wanted)?;
    add_names(&mut names, left)?;
    names_written(alloc, style, &names)
}

/// The path written anew.
fn whole<A: Allocator + Clone>(
    alloc: A,
    style: Style,
    path: &[u8],
) -> Result<Vec<u8, A>, AllocError>
    ensures { IfOk result (λ whole. IsWhole style path.now whole.items) }
{
    let head = head_of(style, path);
    if is_verbatim(head.prefix) {
        let names = cleaned(alloc.clone()?, head.rules, is_root(head.start), head.body)?;
        return written_as(alloc, style, path, head, head.start, &names);
    }
    rewritten(alloc, style, path, head)
}

/// Components below a prefix and a root, as they are written.
fn names_written<A: Allocator>(
    alloc: A,
    style: Style,
    names: &[Component<&[u8]>],
) -> Result<Vec<u8, A>, AllocError>
    requires { ¬ (BeginsAtTop (map item_of names.now)) }
    ensures { IfOk result (λ way. AreWritten style (map item_of names.now) way.items) }
{
    let none = b"".as_slice();
    let separator = style.main_separator();
    if begins_with_colon(style, names) {
        return written(alloc, 0, separator, none, Start::Dot, false, names);
    }
    written(alloc, 0, separator, none, Start::Nothing, false, names)
}

/// Appends a `..` for each component.
fn add_ups<'a, A: Allocator>(
    names: &mut Vec<Component<&'a [u8]>, A>,
    wanted: &[Component<&[u8]>],
) -> Result<(), AllocError>
    ensures { OnOk result (map item_of names.new.items
        ≡ map item_of names.old.items ++ up_from (map item_of wanted.now)) }
{
    let mut rest = wanted;
    while let [_, tail @ ..] = rest {
        names.push(Component::ParentDir)?;
        rest = tail;
    }
    Ok(())
}

/// What is left of two lists after the components at their start that are alike.
fn apart<'s, 'p, 'b>(
    items: &'s [Component<&'p [u8]>],
    base_items: &'s [Component<&'b [u8]>],
) -> (&'s [Component<&'p [u8]>], &'s [Component<&'b [u8]>])
    ensures { AreApart (map item_of items.entry.now) (map item_of base_items.entry.now)
        (map item_of result.0.now) (map item_of result.1.now) }
{
    let mut left = items;
    let mut wanted = base_items;
    while let [item, more @ ..] = left {
        let [other, others @ ..] = wanted else {
            return (left, wanted);
        };
        if !are_alike(*item, *other) {
            return (left, wanted);
        }
        left = more;
        wanted = others;
    }
    (left, wanted)
}

/// Components without a `.` at their start.
pub(crate) fn after_dot<'s, 'b>(items: &'s [Component<&'b [u8]>]) -> &'s [Component<&'b [u8]>]
    ensures { map item_of result.now ≡ without_dot (map item_of items.entry.now) }
{
    match items {
        [Component::CurDir, rest @ ..] => rest,
        _ => items,
    }
}

/// Whether the first component is `..`.
fn begins_up(items: &[Component<&[u8]>]) -> bool
    ensures { IsTrue result ↔ BeginsUp (map item_of items.now) }
{
    match items {
        [Component::ParentDir, ..] => true,
        _ => false,
    }
}

/// Whether the first component is a prefix or a root.
fn begins_at_top(items: &[Component<&[u8]>]) -> bool
    ensures { IsTrue result ↔ BeginsAtTop (map item_of items.now) }
{
    match items {
        [Component::Prefix(_), ..] => true,
        [Component::RootDir, ..] => true,
        _ => false,
    }
}

/// Whether two paths lead to one place.
fn are_one_place<A: Allocator + Clone>(
    alloc: A,
    style: Style,
    path: &[u8],
    other: &[u8],
) -> Result<bool, AllocError>
    ensures { IfOk result (λ same. IsTrue same ↔ AreOnePlace style path.now other.now) }
{
    let first = place(alloc.clone()?, style, path)?;
    let second = place(alloc, style, other)?;
    Ok(are_all_alike(&first, &second))
}

/// What the components of a path are cleaned to.
fn place<'a, A: Allocator + Clone>(
    alloc: A,
    style: Style,
    path: &'a [u8],
) -> Result<Vec<Component<&'a [u8]>, A>, AllocError>
    ensures { IfOk result (λ items. IsPlace style path.entry.now (map item_of items.items)) }
{
    let head = head_of(style, path);
    let names = cleaned(alloc.clone()?, head.rules, is_root(head.start), head.body)?;
    let mut items = Vec::new(alloc);
    add_top(&mut items, head)?;
    add_names(&mut items, &names)?;
    Ok(items)
}

/// Appends the prefix and the root.
fn add_top<'a, A: Allocator>(
    items: &mut Vec<Component<&'a [u8]>, A>,
    head: Head<'a>,
) -> Result<(), AllocError>
    ensures { OnOk result (map item_of items.new.items ≡ map item_of items.old.items
        ++ (prefix_items head.entry.prefix.now ++ cleaned_start head.entry.start)) }
{
    if !head.prefix.is_empty() {
        items.push(Component::Prefix(head.prefix))?;
    }
    if is_root(head.start) {
        items.push(Component::RootDir)?;
    }
    Ok(())
}

/// Whether two lists are alike, component by component.
fn are_all_alike(items: &[Component<&[u8]>], others: &[Component<&[u8]>]) -> bool
    ensures { IsTrue result ↔ AreAllAlike (map item_of items.now) (map item_of others.now) }
{
    let mut left = items;
    let mut wanted = others;
    while let [item, more @ ..] = left {
        let [other, rest @ ..] = wanted else {
            return false;
        };
        if !are_alike(*item, *other) {
            return false;
        }
        left = more;
        wanted = rest;
    }
    wanted.is_empty()
}
