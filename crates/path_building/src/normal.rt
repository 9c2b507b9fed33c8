//! Normal forms of paths.
ghost use Rattle.std.specs.Prelude.{◌≡◌, ◌++◌, [], ◌↔◌, IsTrue, reverse, map, IfOk, IfErr};
ghost use Rattle.std.specs.Option.{option_map};
ghost use Rattle.path_rules.specs.declared.head.Start.TheVariants.{Root, Nothing};
ghost use Rattle.path_rules.specs.declared.rules.Rules.TheVariants.{Verbatim};
ghost use Rattle.path_rules.specs.Component.{components_in};
ghost use Rattle.path_rules.specs.Components.{AreComponents};
ghost use Rattle.path_rules.specs.HeadParts.{IsHead};
ghost use Rattle.path_rules.specs.Heads.{prefix_items, start_items, items_of};
ghost use Rattle.path_rules.specs.Views.{item_of};
ghost use Rattle.path_building.specs.Beginning.{BeginsOddly};
ghost use Rattle.path_building.specs.Written.{IsPathOf};
ghost use Rattle.path_building.specs.Spelled.{resolve, AreSpelled, DoublesRoot, MayStart, IsShieldedStart};
ghost use Rattle.path_building.specs.Normalized.{BeginsWithColon, IsShielded, IsNormalWritten, IsNormalized, IsNormalizeFault};

use crate::beginning::{begins_oddly, begins_with_colon};
use crate::writing::{before_start, has_empty_share, written};
use path_rules::parts::{Head, Parsed, Start, is_verbatim, next_in};
use path_rules::{Component, Components, Rules, Style};
use std::alloc::{AllocError, Allocator};
use std::error::Error;
use std::fmt;

/// Why [`normalize`] returns no path.
///
/// It prints as a message for a person. It has no width: `{:>99}` writes what `{}` does.
///
/// ```
/// use path_building::NormalizeError;
///
/// let error = NormalizeError::NoName;
/// assert_eq!(rt; format!(in alloc; "{error}")?.as_str(), "a `..` has no name before it");
/// ```
#[derive(Clone, Copy, Debug, PartialEq, Eq)]
pub enum NormalizeError {
    /// A `..` has no name before it that it could take away.
    NoName,
    /// An allocation failed.
    Memory,
}

impl fmt::Display for NormalizeError {
    ghost use Rattle.std.specs.Prelude.{Some};
    ghost use Rattle.path_building.specs.ErrorText.{normalize_error_text};

    ghost output = { λ error. Some (normalize_error_text error) };

    ghost styled_output = { λ error _. Some (normalize_error_text error) };

    fn fmt<W: fmt::Write>(&self, f: &mut fmt::Formatter<W>) -> fmt::Result {
        match *self {
            NormalizeError::NoName => f.write_str("a `..` has no name before it"),
            NormalizeError::Memory => f.write_str("out of memory"),
        }
    }
}

impl Error for NormalizeError {}

impl From<AllocError> for NormalizeError {
    ghost use Rattle.std.specs.Prelude.{◌≡◌};
    ghost use Rattle.path_building.specs.declared.normal.NormalizeError.TheVariants.{Memory};

    ghost from_gives = { λ _ error. error ≡ Memory };

    fn from(_: AllocError) -> NormalizeError {
        NormalizeError::Memory
    }
}

/// The normal form of a path: the path without `.`, and without each `..` and the name before it
/// (std's `Path::normalize_lexically`), written with the main separator. It names the same file
/// where no name is a symbolic link.
///
/// A `.` at the start of a path without a root is kept. A path whose prefix begins with `\\?\` is
/// not resolved: Windows takes its `.` and `..` as they are. A first name with a colon, which Windows
/// would read as a drive, gets `.\` before it, so the normal form of `a\..\C:` is `.\C:`. A root
/// before the name `??` gets `\.` before it, since Windows reads `\??\` as it reads `\\?\`
/// ([`crate::laws::no_object_form`]). A normal form is its own ([`crate::laws::normalized_again`]).
///
/// A Windows path whose beginning isn't read by components is returned unchanged: one that begins
/// with `\\.\` or `//?/`, or without a prefix with two separators, as `\\server`, or with a name that
/// has a colon, as `1:\x`. So a path keeps the kind of its beginning
/// ([`crate::laws::beginnings`]).
///
/// # Errors
///
/// `NoName` if a `..` has no name before it to take away, as in `..`, `a/../..` and `/..`;
/// `Memory` if an allocation fails.
///
/// ```
/// use path_building::{NormalizeError, normalize};
/// use path_rules::Style;
///
/// let path = normalize(alloc, Style::Unix, b"/usr//./lib/../bin/")?;
/// assert_eq!(rt; path.as_slice(), b"/usr/bin".as_slice());
/// let path = normalize(alloc, Style::Windows, br"a\..\C:")?;
/// assert_eq!(rt; path.as_slice(), br".\C:".as_slice());
/// let path = normalize(alloc, Style::Windows, br"\a\..\??\c:\x")?;
/// assert_eq!(rt; path.as_slice(), br"\.\??\c:\x".as_slice());
/// assert!(rt; normalize(alloc, Style::Unix, b"a/../..").is_err_and(|e| e == NormalizeError::NoName));
/// ```
pub fn normalize<A: Allocator + Clone>(
    alloc: A,
    style: Style,
    path: &[u8],
) -> Result<Vec<u8, A>, NormalizeError>
    ensures ok { IfOk result (λ normal. IsNormalized style path.now normal.items) }
    ensures err { IfErr result (λ error. IsNormalizeFault style path.now error) }
{
    let parsed = Parsed::new(style, path);
    if begins_oddly(&parsed) {
        return Ok(Vec::from_slice(alloc, path)?);
    }
    normal_written(alloc, &parsed)
}

/// The normal form of a path that doesn't begin oddly.
fn normal_written<A: Allocator + Clone>(
    alloc: A,
    path: &Parsed<'_>,
) -> Result<Vec<u8, A>, NormalizeError>
    requires { ¬ (BeginsOddly path.now.style path.now.whole.now) }
    ensures ok { IfOk result
        (λ normal. IsNormalWritten path.now.style path.now.whole.now normal.items) }
    ensures err { IfErr result
        (λ error. IsNormalizeFault path.now.style path.now.whole.now error) }
{
    let head = path.head();
    if is_verbatim(head.prefix) {
        return Ok(rewritten(alloc, path.style, path.whole, head)?);
    }
    let Some(names) = resolved(alloc.clone()?, head.rules, head.body)? else {
        return Err(NormalizeError::NoName);
    };
    let kept = names.as_slice();
    let start = shielded_start(path.style, head, kept);
    Ok(written_as(alloc, path.style, path.whole, head, start, kept)?)
}

/// The path with all its components, written with the main separator.
pub(crate) fn rewritten<A: Allocator + Clone>(
    alloc: A,
    style: Style,
    path: &[u8],
    head: Head<'_>,
) -> Result<Vec<u8, A>, AllocError>
    requires { IsHead style path.now head }
    ensures { IfOk result (λ written. IsPathOf style (items_of head.entry) written.items) }
{
    let names = all_names(alloc.clone()?, head.rules, head.body)?;
    written_as(alloc, style, path, head, head.start, &names)
}

/// The path with this start and these names after its prefix.
pub(crate) fn written_as<A: Allocator>(
    alloc: A,
    style: Style,
    path: &[u8],
    head: Head<'_>,
    start: Start,
    names: &[Component<&[u8]>],
) -> Result<Vec<u8, A>, AllocError>
    requires parts { IsHead style path.now head }
    requires spelled { AreSpelled head.rules (map item_of names.now) }
    requires none { head.rules ≡ Verbatim → head.start ≡ Nothing → map item_of names.now ≡ [] }
    requires may_start { MayStart style head start (map item_of names.now) }
    ensures { IfOk result (λ written. IsPathOf style
        (prefix_items head.entry.prefix.now ++ (start_items start ++ map item_of names.now))
        written.items) }
{
    let doubled = has_doubled_root(style, path);
    let before = before_start(style, head.prefix, start, names);
    written(
        alloc,
        path.len(),
        style.main_separator(),
        before,
        start,
        doubled,
        names,
    )
}

/// All components of a body.
pub(crate) fn all_names<'a, A: Allocator>(
    alloc: A,
    rules: Rules,
    body: &'a [u8],
) -> Result<Vec<Component<&'a [u8]>, A>, AllocError>
    ensures { IfOk result (λ names. map item_of names.items ≡ components_in rules body.entry.now) }
{
    let mut names = Vec::new(alloc);
    let mut left = body;
    while let Some((item, rest)) = next_in(rules, left) {
        names.push(item)?;
        left = rest;
    }
    Ok(names)
}

/// All components of a path.
pub(crate) fn all_items<A: Allocator>(
    alloc: A,
    style: Style,
    path: &[u8],
) -> Result<Vec<Component<&[u8]>, A>, AllocError>
    ensures { IfOk result
        (λ items. AreComponents style path.entry.now (map item_of items.items)) }
{
    let mut items = Vec::new(alloc);
    for item in Components::new(style, path) {
        items.push(item)?;
    }
    Ok(items)
}

/// The names that are left of the components of a body, where `..` takes the name before it away;
/// `None` if it has none.
pub(crate) fn resolved<'a, A: Allocator>(
    alloc: A,
    rules: Rules,
    body: &'a [u8],
) -> Result<Option<Vec<Component<&'a [u8]>, A>>, AllocError>
    ensures { IfOk result (λ names. option_map (λ v. reverse (map item_of v.items)) names
        ≡ resolve [] (components_in rules body.entry.now)) }
{
    let mut names = Vec::new(alloc);
    let mut left = body;
    while let Some((item, rest)) = next_in(rules, left) {
        match item {
            Component::Normal(_) => names.push(item)?,
            Component::ParentDir => {
                if names.pop().is_none() {
                    return Ok(None);
                }
            }
            _ => {}
        }
        left = rest;
    }
    Ok(Some(names))
}

/// Whether a second separator has to come after the root, so that the prefix doesn't grow.
fn has_doubled_root(style: Style, path: &[u8]) -> bool
    ensures { DoublesRoot style path.now result }
{
    match style {
        Style::Unix => false,
        Style::Windows => has_empty_share(&Parsed::new(style, path)),
    }
}

/// Returns the start of a path without a prefix, so that it isn't read with one. The start is `.`
/// if the first name has a colon.
pub(crate) fn shielded(style: Style, start: Start, names: &[Component<&[u8]>]) -> Start
    ensures shield { IsShielded style (start_items start ++ map item_of names.now)
        (start_items result ++ map item_of names.now) }
    ensures free { result ≡ Nothing → ¬ (BeginsWithColon style (map item_of names.now)) }
{
    match start {
        Start::Nothing => {
            if begins_with_colon(style, names) {
                Start::Dot
            } else {
                Start::Nothing
            }
        }
        _ => start,
    }
}

/// With what a path starts again.
fn shielded_start(style: Style, head: Head<'_>, names: &[Component<&[u8]>]) -> Start
    ensures shield { IsShielded style
        (prefix_items head.entry.prefix.now
        ++ (start_items head.entry.start ++ map item_of names.now))
        (prefix_items head.entry.prefix.now ++ (start_items result ++ map item_of names.now)) }
    ensures may { IsShieldedStart style head.entry result (map item_of names.now) }
{
    if head.prefix.is_empty() {
        return shielded(style, head.start, names);
    }
    head.start
}

/// Whether a path starts with a root.
pub(crate) fn is_root(start: Start) -> bool
    ensures { IsTrue result ↔ (start ≡ Root) }
{
    match start {
        Start::Root => true,
        _ => false,
    }
}
