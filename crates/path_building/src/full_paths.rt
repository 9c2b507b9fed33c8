//! Absolute paths.
ghost use Rattle.std.specs.Prelude.{◌≡◌, ◌↔◌, map, IsTrue, IfOk, IfErr};
ghost use Rattle.path_rules.specs.declared.rules.Style.TheVariants as whose;
ghost use Rattle.path_rules.specs.Parsed.{FoundOr, KindFound, kind_found};
ghost use Rattle.path_rules.specs.Prefix.{Disk};
ghost use Rattle.path_rules.specs.PrefixViews.{kind_of};
ghost use Rattle.path_rules.specs.Views.{item_of};
ghost use Rattle.path_building.specs.Collected.{ArePushed};
ghost use Rattle.path_building.specs.FullPath.{IsDeviceKind, IsDevicePath, IsFullDirectory, BeginsWithTwo, without_root, IsRespelled, IsPushedBelow, IsCleanedBelow, AreOneDrive, IsOnDrive, IsOwnPlace, IsPlaceBelow, IsPlaced, IsFullPath, IsOnItsDrive, IsPlaceFault, IsAbsoluteFault};

use crate::base::{are_names_free, is_open};
use crate::cleaning::clean;
use crate::collected::push_all;
use crate::joining::join;
use crate::normal::all_items;
use crate::relative::after_dot;
use crate::trailing::end_as;
use path_rules::parts::{Parsed, begins_with_separator};
use path_rules::{Component, Prefix, Rules, Style};
use std::alloc::{AllocError, Allocator};
use std::error::Error;
use std::fmt;

/// Why [`absolute`] returns no path.
///
/// It prints as a message for a person. It has no width: `{:>99}` writes what `{}` does.
///
/// ```
/// use path_building::AbsoluteError;
///
/// let error = AbsoluteError::Drive;
/// assert_eq!(rt; format!(in alloc; "{error}")?.as_str(), "the directory is on another drive");
/// ```
#[derive(Clone, Copy, Debug, PartialEq, Eq)]
pub enum AbsoluteError {
    /// The path is empty.
    Empty,
    /// The Windows path is incomplete, as a base is ([`crate::BaseError::Incomplete`]): as `\\server`.
    Prefix,
    /// A name of the Windows path is reserved ([`path_rules::is_reserved`]).
    Reserved,
    /// The path is relative, and the directory isn't absolute, or its prefix lacks a part.
    Directory,
    /// The path has a drive and no root, as `C:a`, and the directory isn't on that drive.
    Drive,
    /// An allocation failed.
    Memory,
}

impl fmt::Display for AbsoluteError {
    ghost use Rattle.std.specs.Prelude.{Some};
    ghost use Rattle.path_building.specs.ErrorText.{absolute_error_text};

    ghost output = { λ error. Some (absolute_error_text error) };

    ghost styled_output = { λ error _. Some (absolute_error_text error) };

    fn fmt<W: fmt::Write>(&self, f: &mut fmt::Formatter<W>) -> fmt::Result {
        match *self {
            AbsoluteError::Empty => f.write_str("the path is empty"),
            AbsoluteError::Prefix => f.write_str("the path has an incomplete prefix"),
            AbsoluteError::Reserved => f.write_str("the path has a reserved name"),
            AbsoluteError::Directory => f.write_str("the directory isn't a full path"),
            AbsoluteError::Drive => f.write_str("the directory is on another drive"),
            AbsoluteError::Memory => f.write_str("out of memory"),
        }
    }
}

impl Error for AbsoluteError {}

impl From<AllocError> for AbsoluteError {
    ghost use Rattle.std.specs.Prelude.{◌≡◌};
    ghost use Rattle.path_building.specs.declared.full_paths.AbsoluteError.TheVariants.{Memory};

    ghost from_gives = { λ _ error. error ≡ Memory };

    fn from(_: AllocError) -> AbsoluteError {
        AbsoluteError::Memory
    }
}

/// Returns the path as an absolute path, in new memory (std's `path::absolute`). A relative path is
/// taken below the given directory, and no file system is read.
///
/// On Unix the components are written with one `/` between them, as by [`crate::from_components`].
/// A `.` at the start is left out, `..` is kept, and `//` at the start stays if no third `/`
/// follows.
///
/// On Windows the path is joined to the directory and cleaned, as by [`crate::join`] and
/// [`crate::clean`], so `..` takes the name before it away. A path with a root and no prefix gets
/// the directory's prefix. A path as `C:a` is below the directory if that is on the same drive. A
/// path that begins with `\\?\` or `\\.\` is returned as it is. A prefix gets its root, as in
/// `\\server\share\`.
///
/// A separator at the end of the path is kept, as [`crate::with_trailing_sep`] writes it. The
/// directory isn't read if the path is absolute.
///
/// # Errors
///
/// The first of these that holds:
///
/// - `Empty` if the path is empty.
/// - `Prefix` if the Windows path begins with two separators and has no prefix, as `\\server`, if
///   it begins with `\??\` or `//?/`, or if its share ends in a dot or a space.
/// - `Reserved` if a name of the Windows path is reserved, as `nul`, or would be changed, as `a.`
///   ([`path_rules::is_reserved`]).
/// - `Directory` if the path is relative, and the directory isn't absolute or lacks a part of its
///   prefix, as `\\?\UNC\server`.
/// - `Drive` if the path has a drive and no root, and the directory doesn't begin with that drive.
/// - `Memory` if an allocation fails.
///
/// ```
/// use path_building::{AbsoluteError, absolute};
/// use path_rules::Style;
///
/// let path = absolute(alloc, Style::Unix, b"./a/../b//", b"/usr")?;
/// assert_eq!(rt; path.as_slice(), b"/usr/a/../b/".as_slice());
/// let path = absolute(alloc, Style::Unix, b"//a/./b", b"")?;
/// assert_eq!(rt; path.as_slice(), b"//a/b".as_slice());
/// let path = absolute(alloc, Style::Windows, b"../a/", br"C:\x\y")?;
/// assert_eq!(rt; path.as_slice(), br"C:\x\a\".as_slice());
/// let path = absolute(alloc, Style::Windows, b"c:a", br"C:\x")?;
/// assert_eq!(rt; path.as_slice(), br"C:\x\a".as_slice());
/// let rejected = absolute(alloc, Style::Windows, b"D:a", br"C:\x");
/// assert!(rt; rejected.is_err_and(|e| e == AbsoluteError::Drive));
/// let rejected = absolute(alloc, Style::Unix, b"a", b"usr");
/// assert!(rt; rejected.is_err_and(|e| e == AbsoluteError::Directory));
/// ```
pub fn absolute<A: Allocator + Clone>(
    alloc: A,
    style: Style,
    path: &[u8],
    directory: &[u8],
) -> Result<Vec<u8, A>, AbsoluteError>
    ensures ok { IfOk result (λ full. IsFullPath style path.now directory.now full.items) }
    ensures err { IfErr result (λ error. IsAbsoluteFault style path.now directory.now error) }
{
    full_path(alloc, &Parsed::new(style, path), directory)
}

/// The absolute path of a path that was parsed.
fn full_path<A: Allocator + Clone>(
    alloc: A,
    path: &Parsed<'_>,
    directory: &[u8],
) -> Result<Vec<u8, A>, AbsoluteError>
    ensures ok { IfOk result (λ full. IsFullPath path.now.style path.now.whole.now
        directory.now full.items) }
    ensures err { IfErr result (λ error. IsAbsoluteFault path.now.style path.now.whole.now
        directory.now error) }
{
    if path.whole.is_empty() {
        return Err(AbsoluteError::Empty);
    }
    if is_device(path) {
        return Ok(Vec::from_slice(alloc, path.whole)?);
    }
    if is_open(path) {
        return Err(AbsoluteError::Prefix);
    }
    if !are_names_free(path) {
        return Err(AbsoluteError::Reserved);
    }
    let mut full = placed(alloc, path, directory)?;
    end_as(path.style, &mut full, path.whole)?;
    Ok(full)
}

/// Whether a path begins with `\\?\` or `\\.\`.
#[tactic(auto, using(path_rules::proofs::lemmas::Parsings::has_kind))]
fn is_device(path: &Parsed<'_>) -> bool
    ensures { IsTrue result ↔ IsDevicePath path.now.style path.now.whole.now }
{
    is_device_prefix(path.prefix)
}

fn is_device_prefix(prefix: Option<Prefix<&[u8]>>) -> bool
    ensures { IsTrue result ↔ KindFound IsDeviceKind (kind_found prefix.entry) }
{
    match prefix {
        Some(Prefix::Unc(_, _) | Prefix::Disk(_)) => false,
        Some(_) => true,
        None => false,
    }
}

/// The path, but for the separator at its end.
fn placed<A: Allocator + Clone>(
    alloc: A,
    path: &Parsed<'_>,
    directory: &[u8],
) -> Result<Vec<u8, A>, AbsoluteError>
    ensures ok { IfOk result (λ mid. IsPlaced path.now.style path.now.whole.now
        directory.now mid.items) }
    ensures err { IfErr result (λ error. IsPlaceFault path.now.style path.now.whole.now
        directory.now error) }
{
    if path.is_absolute() {
        return Ok(own_place(alloc, path.style, path.whole)?);
    }
    if !is_full_directory(path.style, directory) {
        return Err(AbsoluteError::Directory);
    }
    if !is_on_its_drive(path, directory) {
        return Err(AbsoluteError::Drive);
    }
    Ok(place_below(alloc, path, directory)?)
}

/// What an absolute path is written as.
fn own_place<A: Allocator + Clone>(
    alloc: A,
    style: Style,
    path: &[u8],
) -> Result<Vec<u8, A>, AllocError>
    ensures { IfOk result (λ mid. IsOwnPlace style path.now mid.items) }
{
    match style {
        Style::Unix => respelled(alloc, path),
        Style::Windows => clean(alloc, style, path),
    }
}

/// The components of an absolute Unix path, each joined in turn.
fn respelled<A: Allocator + Clone>(alloc: A, path: &[u8]) -> Result<Vec<u8, A>, AllocError>
    ensures { IfOk result (λ mid. IsRespelled path.now mid.items) }
{
    let items = all_items(alloc.clone()?, Style::Unix, path)?;
    if begins_with_two(path) {
        return pushed(alloc, b"//".as_slice(), after_root(&items));
    }
    pushed(alloc, b"".as_slice(), &items)
}

/// Components, each joined in turn to a Unix path.
fn pushed<A: Allocator + Clone>(
    alloc: A,
    start: &[u8],
    items: &[Component<&[u8]>],
) -> Result<Vec<u8, A>, AllocError>
    ensures { IfOk result
        (λ mid. ArePushed whose.Unix start.now (map item_of items.now) mid.items) }
{
    let mut mid = Vec::from_slice(alloc, start)?;
    push_all(Style::Unix, &mut mid, items)?;
    Ok(mid)
}

/// Whether a Unix path begins with exactly two slashes.
fn begins_with_two(path: &[u8]) -> bool
    ensures { IsTrue result ↔ BeginsWithTwo path.now }
{
    match path {
        [a, b, rest @ ..] => *a == b'/' && *b == b'/' && !begins_with_separator(Rules::Slash, rest),
        _ => false,
    }
}

/// Components without a root at their start.
fn after_root<'s, 'p>(items: &'s [Component<&'p [u8]>]) -> &'s [Component<&'p [u8]>]
    ensures { map item_of result.now ≡ without_root (map item_of items.entry.now) }
{
    match items {
        [Component::RootDir, rest @ ..] => rest,
        _ => items,
    }
}

/// Whether a relative path may be below a directory.
fn is_full_directory(style: Style, directory: &[u8]) -> bool
    ensures { IsTrue result ↔ IsFullDirectory style directory.now }
{
    is_full(&Parsed::new(style, directory))
}

fn is_full(directory: &Parsed<'_>) -> bool
    ensures { IsTrue result ↔ IsFullDirectory directory.now.style directory.now.whole.now }
{
    directory.is_absolute() && !is_open(directory)
}

/// Whether a directory is on the drive of a path, if the path has one.
fn is_on_its_drive(path: &Parsed<'_>, directory: &[u8]) -> bool
    ensures { IsTrue result ↔ IsOnItsDrive path.now.style path.now.whole.now directory.now }
{
    is_on_found_drive(path, directory)
}

fn is_on_found_drive(path: &Parsed<'_>, directory: &[u8]) -> bool
    ensures { IsTrue result ↔ FoundOr (λ bare. Unit {0})
        (λ kind rest. IsOnDrive path.now.style kind directory.now) (kind_found path.now.prefix)
        path.now.rest.now }
{
    match path.prefix {
        Some(prefix) => is_on_drive(prefix, &Parsed::new(path.style, directory)),
        None => true,
    }
}

#[tactic(auto, using(path_rules::proofs::lemmas::Parsings::has_kind))]
fn is_on_drive(prefix: Prefix<&[u8]>, directory: &Parsed<'_>) -> bool
    ensures { IsTrue result
        ↔ IsOnDrive directory.now.style (kind_of prefix.entry) directory.now.whole.now }
{
    are_one_drive(prefix, directory.prefix)
}

fn are_one_drive(prefix: Prefix<&[u8]>, other: Option<Prefix<&[u8]>>) -> bool
    ensures { IsTrue result
        ↔ KindFound (AreOneDrive (kind_of prefix.entry)) (kind_found other.entry) }
{
    match prefix {
        Prefix::Disk(letter) => is_drive(letter, other),
        _ => false,
    }
}

fn is_drive(letter: u8, prefix: Option<Prefix<&[u8]>>) -> bool
    ensures { IsTrue result ↔ KindFound (AreOneDrive (Disk letter)) (kind_found prefix.entry) }
{
    match prefix {
        Some(Prefix::Disk(other)) => letter == other,
        _ => false,
    }
}

/// A path that isn't absolute, below a directory.
fn place_below<A: Allocator + Clone>(
    alloc: A,
    path: &Parsed<'_>,
    directory: &[u8],
) -> Result<Vec<u8, A>, AllocError>
    requires { IsOnItsDrive path.now.style path.now.whole.now directory.now }
    ensures { IfOk result (λ mid. IsPlaceBelow path.now.style path.now.whole.now
        directory.now mid.items) }
{
    match path.style {
        Style::Unix => pushed_below(alloc, path.whole, directory),
        Style::Windows => cleaned_below(alloc, path.rest, directory),
    }
}

/// The components of a Unix path, each joined in turn to a directory.
fn pushed_below<A: Allocator + Clone>(
    alloc: A,
    path: &[u8],
    directory: &[u8],
) -> Result<Vec<u8, A>, AllocError>
    ensures { IfOk result (λ mid. IsPushedBelow path.now directory.now mid.items) }
{
    let items = all_items(alloc.clone()?, Style::Unix, path)?;
    pushed(alloc, directory, after_dot(&items))
}

/// What is joined to a Windows directory, cleaned.
fn cleaned_below<A: Allocator + Clone>(
    alloc: A,
    rest: &[u8],
    directory: &[u8],
) -> Result<Vec<u8, A>, AllocError>
    ensures { IfOk result (λ mid. IsCleanedBelow rest.now directory.now mid.items) }
{
    let joined = join(alloc.clone()?, Style::Windows, directory, rest)?;
    clean(alloc, Style::Windows, &joined)
}
