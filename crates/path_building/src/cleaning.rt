//! Clean forms of paths.
ghost use Rattle.std.specs.Prelude.{◌≡◌, ◌≢◌, ◌++◌, [], false, reverse, map, OnOk, IfOk};
ghost use Rattle.path_rules.specs.declared.head.Start.TheVariants.{Dot, Nothing};
ghost use Rattle.path_rules.specs.declared.rules.Rules.TheVariants.{Verbatim};
ghost use Rattle.path_rules.specs.Component.{components_in};
ghost use Rattle.path_rules.specs.HeadParts.{IsHead};
ghost use Rattle.path_rules.specs.Heads.{prefix_items, start_items};
ghost use Rattle.path_rules.specs.Views.{item_of};
ghost use Rattle.path_rules.specs.Prefix.{begins_verbatim};
ghost use Rattle.path_building.specs.Beginning.{BeginsOddly};
ghost use Rattle.path_building.specs.Written.{IsPathOf};
ghost use Rattle.path_building.specs.Spelled.{cleaned, go_up, cleaned_start, AreSpelled, MayStart, IsShieldedStart};
ghost use Rattle.path_building.specs.Normalized.{BeginsWithColon, IsShielded};
ghost use Rattle.path_building.specs.Cleaned.{or_dot, one_spelling, spelled, IsCleanWritten, IsCleaned};

use crate::beginning::begins_oddly;
use crate::normal::{is_root, rewritten, shielded, written_as};
use crate::writing::{push_after, push_spelled};
use path_rules::parts::{Head, Parsed, Start, is_verbatim, next_in};
use path_rules::{Component, Rules, Style};
use std::alloc::{AllocError, Allocator};

/// The path cleaned: without `.`, without each `..` and the name before it, and without a `..` at a
/// root (Go's `filepath.Clean`, CPython's `normpath`), written with the main separator. It names the
/// same file where no name is a symbolic link.
///
/// Unlike [`crate::normalize`], it keeps a `..` that has neither a name nor a root before it,
/// removes a `.` at the start, and makes the empty path `.`. A path whose prefix begins with `\\?\`,
/// a first name with a colon, and the name `??` after a root are treated as by `normalize`. So is a
/// path whose beginning Windows doesn't read by components, but for the spelling of separators:
/// `\\server\\share\x` is the clean path of itself and of `//server//share/x`. A clean path is its
/// own clean form ([`crate::laws::cleaned_again`]).
///
/// Any other prefix gets one spelling, in which `\` separates: `\\server\share\x` is the clean path of
/// itself and of `//server/share/x` ([`crate::laws::one_clean_path`]). Only a path that begins with
/// `//?/` keeps `/`, since Windows reads a path that begins with `\\?\` by other rules.
///
/// # Errors
///
/// `AllocError` if an allocation fails.
///
/// ```
/// use path_building::clean;
/// use path_rules::Style;
///
/// let path = clean(alloc, Style::Unix, b"./../a//b/..")?;
/// assert_eq!(rt; path.as_slice(), b"../a".as_slice());
/// assert_eq!(rt; clean(alloc, Style::Unix, b"/..")?.as_slice(), b"/".as_slice());
/// assert_eq!(rt; clean(alloc, Style::Unix, b"")?.as_slice(), b".".as_slice());
/// assert_eq!(rt; clean(alloc, Style::Windows, b"C:/..")?.as_slice(), br"C:\".as_slice());
/// let path = clean(alloc, Style::Windows, b"/??/c:/x")?;
/// assert_eq!(rt; path.as_slice(), br"\.\??\c:\x".as_slice());
/// let path = clean(alloc, Style::Windows, b"//server/share/a/../x")?;
/// assert_eq!(rt; path.as_slice(), br"\\server\share\x".as_slice());
/// let path = clean(alloc, Style::Windows, br"\\server")?;
/// assert_eq!(rt; path.as_slice(), br"\\server".as_slice());
/// ```
pub fn clean<A: Allocator + Clone>(
    alloc: A,
    style: Style,
    path: &[u8],
) -> Result<Vec<u8, A>, AllocError>
    ensures { IfOk result (λ clean. IsCleaned style path.now clean.items) }
{
    let parsed = Parsed::new(style, path);
    if begins_oddly(&parsed) {
        return in_one_spelling(alloc, path);
    }
    clean_written(alloc, &parsed)
}

/// The bytes of a path that is kept, in one spelling.
fn in_one_spelling<A: Allocator>(alloc: A, path: &[u8]) -> Result<Vec<u8, A>, AllocError>
    ensures { IfOk result (λ spelled. spelled.items ≡ one_spelling path.now) }
{
    let mut spelled = Vec::with_capacity(alloc, path.len())?;
    push_spelled(&mut spelled, path)?;
    Ok(spelled)
}

/// The clean form of a path that doesn't begin oddly.
fn clean_written<A: Allocator + Clone>(
    alloc: A,
    path: &Parsed<'_>,
) -> Result<Vec<u8, A>, AllocError>
    requires { ¬ (BeginsOddly path.now.style path.now.whole.now) }
    ensures { IfOk result (λ clean. IsCleanWritten path.now.style path.now.whole.now clean.items) }
{
    let head = path.head();
    if is_verbatim(head.prefix) {
        return rewritten(alloc, path.style, path.whole, head);
    }
    let names = cleaned(alloc.clone()?, head.rules, is_root(head.start), head.body)?;
    let kept = names.as_slice();
    let start = clean_start(path.style, head, kept);
    spelled_as(alloc, path.style, path.whole, head, start, kept)
}

/// The path with this start and these names after its prefix in one spelling.
fn spelled_as<A: Allocator>(
    alloc: A,
    style: Style,
    path: &[u8],
    head: Head<'_>,
    start: Start,
    names: &[Component<&[u8]>],
) -> Result<Vec<u8, A>, AllocError>
    requires parts { IsHead style path.now head }
    requires other { begins_verbatim head.prefix.now ≡ false }
    requires spelled { AreSpelled head.rules (map item_of names.now) }
    requires none { head.rules ≡ Verbatim → head.start ≡ Nothing → map item_of names.now ≡ [] }
    requires may_start { MayStart style head start (map item_of names.now) }
    ensures { IfOk result (λ written. IsPathOf style
        (map spelled (prefix_items head.entry.prefix.now)
        ++ (start_items start ++ map item_of names.now))
        written.items) }
{
    if head.prefix.is_empty() {
        return written_as(alloc, style, path, head, start, names);
    }
    let mut clean = Vec::with_capacity(alloc, path.len())?;
    push_spelled(&mut clean, head.prefix)?;
    push_after(&mut clean, style.main_separator(), start, false, names)?;
    Ok(clean)
}

/// The names that are left of the components of a body, where `..` takes the name before it away,
/// and else is left out at a root and stays elsewhere.
pub(crate) fn cleaned<'a, A: Allocator>(
    alloc: A,
    rules: Rules,
    rooted: bool,
    body: &'a [u8],
) -> Result<Vec<Component<&'a [u8]>, A>, AllocError>
    ensures { IfOk result (λ names. reverse (map item_of names.items)
        ≡ cleaned rooted [] (components_in rules body.entry.now)) }
{
    let mut names = Vec::new(alloc);
    add_cleaned(&mut names, rules, rooted, body)?;
    Ok(names)
}

/// Appends the components of a body to names, as [`cleaned`] reads them.
pub(crate) fn add_cleaned<'a, A: Allocator>(
    names: &mut Vec<Component<&'a [u8]>, A>,
    rules: Rules,
    rooted: bool,
    body: &'a [u8],
) -> Result<(), AllocError>
    ensures { OnOk result (reverse (map item_of names.new.items)
        ≡ cleaned rooted (reverse (map item_of names.old.items))
        (components_in rules body.entry.now)) }
{
    let mut left = body;
    while let Some((item, rest)) = next_in(rules, left) {
        match item {
            Component::Normal(_) => names.push(item)?,
            Component::ParentDir => go_up(names, rooted)?,
            _ => {}
        }
        left = rest;
    }
    Ok(())
}

/// Takes the last name away, or adds `..` where there is none and no root.
fn go_up<A: Allocator>(names: &mut Vec<Component<&[u8]>, A>, rooted: bool) -> Result<(), AllocError>
    ensures { OnOk result (reverse (map item_of names.new.items)
        ≡ go_up rooted (reverse (map item_of names.old.items))) }
{
    match names.pop() {
        Some(Component::Normal(_)) => Ok(()),
        last => {
            if let Some(other) = last {
                names.push(other)?;
            }
            if !rooted {
                names.push(Component::ParentDir)?;
            }
            Ok(())
        }
    }
}

/// Returns the start of a clean path: `.` where it would be empty, and else as [`shielded`].
fn clean_start(style: Style, head: Head<'_>, names: &[Component<&[u8]>]) -> Start
    requires { head.prefix.now ≢ [] → ¬ (head.start ≡ Dot) }
    ensures shield { IsShielded style
        (or_dot (map spelled (prefix_items head.entry.prefix.now)
        ++ (cleaned_start head.entry.start ++ map item_of names.now)))
        (map spelled (prefix_items head.entry.prefix.now)
        ++ (start_items result ++ map item_of names.now)) }
    ensures may { IsShieldedStart style head.entry result (map item_of names.now) }
{
    if !head.prefix.is_empty() {
        return head.start;
    }
    match head.start {
        Start::Root => Start::Root,
        _ => bare_start(style, names),
    }
}

/// With what a clean path without a prefix and a root starts.
fn bare_start(style: Style, names: &[Component<&[u8]>]) -> Start
    ensures shield { IsShielded style (or_dot (map item_of names.now))
        (start_items result ++ map item_of names.now) }
    ensures free { result ≡ Nothing → ¬ (BeginsWithColon style (map item_of names.now)) }
{
    if names.is_empty() {
        return Start::Dot;
    }
    shielded(style, Start::Nothing, names)
}
