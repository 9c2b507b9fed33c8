//! A path with another last name, or another extension of it.
ghost use Rattle.std.specs.Prelude.{◌≡◌, ◌++◌, ◌≤◌, Bool, ◌↔◌, IsTrue, IfOk, OnOk, OnErr, MatchOption, take, length};
ghost use Rattle.path_rules.specs.Parent.{HasNoFileName};
ghost use Rattle.path_building.specs.FileName.{IsNameBase, IsNamed, IsNameEnd, IsExtensionSet, IsExtensionAdded, dotted};
ghost use Rattle.path_rules.specs.Name.{IsExtensionText};

use crate::joining::{join, join_after, set_end};
use path_rules::parts::{component_of, head_of, last_in};
use path_rules::{Components, Style, parent, stem};
use std::alloc::{AllocError, Allocator};

/// A path with another last name, in new memory (std's `Path::with_file_name`).
///
/// The name is joined to the path's parent; if the path doesn't end in a name, to the path itself.
///
/// # Errors
///
/// `AllocError` if an allocation fails.
///
/// ```
/// use path_building::with_file_name;
/// use path_rules::Style;
///
/// let named = with_file_name(alloc, Style::Unix, b"/tmp/a.txt", b"b")?;
/// assert_eq!(rt; named.as_slice(), b"/tmp/b".as_slice());
/// let named = with_file_name(alloc, Style::Unix, b"/", b"b")?;
/// assert_eq!(rt; named.as_slice(), b"/b".as_slice());
/// ```
pub fn with_file_name<A: Allocator + Clone>(
    alloc: A,
    style: Style,
    path: &[u8],
    name: &[u8],
) -> Result<Vec<u8, A>, AllocError>
    ensures { IfOk result (λ named. IsNamed style path.now name.now named.items) }
{
    join(alloc, style, name_base(style, path), name)
}

/// Replaces the last name of a path, in place (std's `PathBuf::set_file_name`). The result is that
/// of [`with_file_name`].
///
/// # Errors
///
/// `AllocError` if an allocation fails; the path is then unchanged.
///
/// ```
/// use path_building::set_file_name;
/// use path_rules::Style;
///
/// let mut path = b"/tmp/a.txt".to_vec(alloc)?;
/// set_file_name(Style::Unix, &mut path, b"b")?;
/// assert_eq!(rt; path.as_slice(), b"/tmp/b".as_slice());
/// ```
pub fn set_file_name<A: Allocator + Clone>(
    style: Style,
    path: &mut Vec<u8, A>,
    name: &[u8],
) -> Result<(), AllocError>
    ensures ok { OnOk result (IsNamed style path.old.items name.now path.new.items) }
    ensures err { OnErr result (path.new.items ≡ path.old.items) }
{
    let len = name_base(style, path.as_slice()).len();
    join_after(style, path, len, name)?;
    Ok(())
}

/// A path with another extension of its last name, in new memory (std's `Path::with_extension`).
///
/// What comes after the stem of the last name is replaced by a dot and the extension, and by
/// nothing if the extension is empty. A path that doesn't end in a name is returned unchanged. No
/// byte of the extension separates (test: [`path_rules::is_extension_text`]).
///
/// # Errors
///
/// `AllocError` if an allocation fails.
///
/// ```
/// use path_building::with_extension;
/// use path_rules::Style;
///
/// let changed = with_extension(alloc, Style::Unix, b"a/b.txt/", b"rs")?;
/// assert_eq!(rt; changed.as_slice(), b"a/b.rs".as_slice());
/// ```
pub fn with_extension<A: Allocator>(
    alloc: A,
    style: Style,
    path: &[u8],
    extension: &[u8],
) -> Result<Vec<u8, A>, AllocError>
    requires { IsExtensionText style extension.now }
    ensures { IfOk result (λ made. (is_set : Bool)
        × IsExtensionSet style path.now extension.now made.items is_set) }
{
    let Some((end, name)) = last_name(style, path) else {
        return Vec::from_slice(alloc, path);
    };
    extended(
        alloc,
        path,
        end - (name.len() - stem(name).len()),
        extension,
    )
}

/// Replaces the extension of a path's last name, in place (std's `PathBuf::set_extension`). The
/// result is that of [`with_extension`]. Returns `false` and leaves the path unchanged if it
/// doesn't end in a name.
///
/// No byte of the extension separates (test: [`path_rules::is_extension_text`]).
///
/// # Errors
///
/// `AllocError` if an allocation fails; the path is then unchanged.
///
/// ```
/// use path_building::set_extension;
/// use path_rules::Style;
///
/// let mut path = b"a/b.txt".to_vec(alloc)?;
/// assert!(rt; set_extension(Style::Unix, &mut path, b"")?);
/// assert_eq!(rt; path.as_slice(), b"a/b".as_slice());
/// ```
pub fn set_extension<A: Allocator>(
    style: Style,
    path: &mut Vec<u8, A>,
    extension: &[u8],
) -> Result<bool, AllocError>
    requires { IsExtensionText style extension.now }
    ensures ok { IfOk result
        (λ is_set. IsExtensionSet style path.old.items extension.now path.new.items is_set) }
    ensures err { OnErr result (path.new.items ≡ path.old.items) }
{
    let Some((end, name)) = last_name(style, path.as_slice()) else {
        return Ok(false);
    };
    let keep = end - (name.len() - stem(name).len());
    set_end(path, keep, dot_before(extension), extension)?;
    Ok(true)
}

/// A path with an extension after its last name, in new memory (std's
/// `Path::with_added_extension`).
///
/// A dot and the extension follow the last name. An empty extension changes nothing, and a path
/// that doesn't end in a name is returned unchanged. No byte of the extension separates (test:
/// [`path_rules::is_extension_text`]).
///
/// # Errors
///
/// `AllocError` if an allocation fails.
///
/// ```
/// use path_building::with_added_extension;
/// use path_rules::Style;
///
/// let changed = with_added_extension(alloc, Style::Unix, b"a/b.tar", b"gz")?;
/// assert_eq!(rt; changed.as_slice(), b"a/b.tar.gz".as_slice());
/// ```
pub fn with_added_extension<A: Allocator>(
    alloc: A,
    style: Style,
    path: &[u8],
    extension: &[u8],
) -> Result<Vec<u8, A>, AllocError>
    requires { IsExtensionText style extension.now }
    ensures { IfOk result (λ made. (is_added : Bool)
        × IsExtensionAdded style path.now extension.now made.items is_added) }
{
    let Some((end, _)) = last_name(style, path) else {
        return Vec::from_slice(alloc, path);
    };
    if extension.is_empty() {
        return Vec::from_slice(alloc, path);
    }
    extended(alloc, path, end, extension)
}

/// Appends an extension to the last name of a path, in place (std's `PathBuf::add_extension`). The
/// result is that of [`with_added_extension`]. Returns `false` and leaves the path unchanged if it
/// doesn't end in a name.
///
/// No byte of the extension separates (test: [`path_rules::is_extension_text`]).
///
/// # Errors
///
/// `AllocError` if an allocation fails; the path is then unchanged.
///
/// ```
/// use path_building::add_extension;
/// use path_rules::Style;
///
/// let mut path = b"a/b.tar".to_vec(alloc)?;
/// assert!(rt; add_extension(Style::Unix, &mut path, b"gz")?);
/// assert_eq!(rt; path.as_slice(), b"a/b.tar.gz".as_slice());
/// ```
pub fn add_extension<A: Allocator>(
    style: Style,
    path: &mut Vec<u8, A>,
    extension: &[u8],
) -> Result<bool, AllocError>
    requires { IsExtensionText style extension.now }
    ensures ok { IfOk result
        (λ is_added. IsExtensionAdded style path.old.items extension.now path.new.items is_added) }
    ensures err { OnErr result (path.new.items ≡ path.old.items) }
{
    let Some((end, _)) = last_name(style, path.as_slice()) else {
        return Ok(false);
    };
    if extension.is_empty() {
        return Ok(true);
    }
    set_end(path, end, dot_before(extension), extension)?;
    Ok(true)
}

/// What a last name is put after: the parent of a path that ends in a name, else the path.
fn name_base(style: Style, path: &[u8]) -> &[u8]
    ensures base { IsNameBase style path.now result.now }
    ensures prefix { (length result.now ≤ length path.now)
        × (take (length result.now) path.now ≡ result.now) }
{
    let Some(last) = Components::new(style, path).next_back() else {
        return path;
    };
    let Some(_) = last.name() else {
        return path;
    };
    match parent(style, path) {
        Some(parent) => parent,
        None => path,
    }
}

/// Where the last name of a path ends, and the name.
pub(crate) fn last_name(style: Style, path: &[u8]) -> Option<(usize, &[u8])>
    ensures { MatchOption result (HasNoFileName style path.now)
        (λ found. (found.0 ≤ length path.now) × IsNameEnd style path.now found.0 found.1.now) }
{
    let head = head_of(style, path);
    let Some((left, part)) = last_in(head.rules, head.body) else {
        return None;
    };
    let Some(item) = component_of(head.rules, part) else {
        return None;
    };
    let Some(name) = item.name() else {
        return None;
    };
    Some((path.len() - head.body.len() + left.len(), name))
}

/// What is written before an extension: a dot, and nothing before an empty one.
fn dot_before(extension: &[u8]) -> &'static [u8]
    ensures { result.now ++ extension.now ≡ dotted extension.now }
{
    match extension {
        [] => b"".as_slice(),
        _ => b".".as_slice(),
    }
}

/// The first bytes of a path, a dot and an extension, in new memory.
fn extended<A: Allocator>(
    alloc: A,
    path: &[u8],
    keep: usize,
    extension: &[u8],
) -> Result<Vec<u8, A>, AllocError>
    requires { keep ≤ length path.now }
    ensures { IfOk result (λ made. made.items ≡ take keep path.now ++ dotted extension.now) }
{
    let mut made = Vec::with_capacity(alloc, keep + 1 + extension.len())?;
    made.extend_from_slice(&path[..keep])?;
    made.extend_from_slice(dot_before(extension))?;
    made.extend_from_slice(extension)?;
    Ok(made)
}
