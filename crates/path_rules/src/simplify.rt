//! Paths without `\\?\`.
ghost use Rattle.std.specs.Prelude.{◌↔◌, ◌≡◌, ◌≢◌, ◌≤◌, ◌⊎◌, ℕ, List, IsTrue};
ghost use Rattle.std.specs.List.{AllByRecursion};
ghost use Rattle.path_rules.specs.declared.rules.Rules.TheVariants as rule;
ghost use Rattle.path_rules.specs.Component.{Normal};
ghost use Rattle.path_rules.specs.Root.{BeginsWithSeparator};
ghost use Rattle.path_rules.specs.Views.{item_of};
ghost use Rattle.path_rules.specs.Prefix.{VerbatimDisk, IsPrefixOf};
ghost use Rattle.path_rules.specs.Simplified.{IsSimplified, IsWindowsSimplified, IsSimplifiable, HasSingleSeparators, IsPlainItem, wide_len, wide_units_of};

use crate::component::Component;
use crate::components::Components;
use crate::prefix::{Prefix, is_verbatim, windows_prefix};
use crate::reserved::is_reserved;
use crate::root::{begins_with_separator, is_absolute};
use crate::rules::{Rules, Style};

/// Returns the path without `\\?\`, if that names the same path (the crate dunce's `simplified`).
/// Any other path is returned as it is, and so is each path of Unix.
///
/// `\\?\` is removed before a drive and its root, if no component is `.` or `..`, none is reserved
/// ([`crate::is_reserved`]) or longer than 255 UTF-16 code units, and the path isn't longer than
/// 260. A name with a lone surrogate may be among them. After `\\?\` Windows doesn't separate at
/// `/`, and an empty name is one, so a path with a `/` or with two `\` in a row stays, as
/// `\\?\C:/x` (dunce simplifies it).
///
/// The returned path is absolute and has a root exactly if the path does. Below its prefix it has
/// the same components ([`crate::laws::simplified_place`]). So `\\?\C:`, which is absolute, stays,
/// since `C:` is the current directory of the drive.
///
/// ```
/// use path_rules::{Style, simplified};
///
/// assert_eq!(rt; simplified(Style::Windows, br"\\?\C:\a\b"), br"C:\a\b".as_slice());
/// assert_eq!(rt; simplified(Style::Windows, br"\\?\C:\a\.."), br"\\?\C:\a\..".as_slice());
/// assert_eq!(rt; simplified(Style::Windows, br"\\?\C:\con"), br"\\?\C:\con".as_slice());
/// assert_eq!(rt; simplified(Style::Windows, br"\\?\C:"), br"\\?\C:".as_slice());
/// assert_eq!(rt; simplified(Style::Windows, br"\\?\C:/x"), br"\\?\C:/x".as_slice());
/// ```
pub fn simplified(style: Style, path: &[u8]) -> &[u8]
    ensures { IsSimplified style path.now result.now }
{
    match style {
        Style::Unix => path,
        Style::Windows => windows_simplified(path),
    }
}

/// The Windows path without `\\?\`, if that names the same path.
fn windows_simplified(path: &[u8]) -> &[u8]
    ensures { IsWindowsSimplified path.now result.now }
{
    if !is_verbatim(path) {
        return path;
    }
    if !has_verbatim_drive(path) {
        return path;
    }
    if !fits(path, 260) {
        return path;
    }
    if !are_plain(Components::new(Style::Windows, path)) {
        return path;
    }
    let (_, rest) = path.split_at(4);
    if !is_absolute(Style::Windows, rest) {
        return path;
    }
    if !has_single_separators(rest) {
        return path;
    }
    rest
}

/// Whether bytes have no `/` and no two `\` in a row. After `\\?\` Windows reads a `/` as a part of a
/// name, and an empty name between two `\`.
///
/// ```
/// use path_rules::parts::has_single_separators;
///
/// assert!(rt; has_single_separators(br"\a\b\"));
/// assert!(rt; !has_single_separators(br"\a\\b") && !has_single_separators(b"/a"));
/// ```
pub fn has_single_separators(bytes: &[u8]) -> bool
    ensures { IsTrue result ↔ HasSingleSeparators bytes.now }
{
    let mut rest = bytes;
    while let [byte, more @ ..] = rest {
        if !is_single(*byte, more) {
            return false;
        }
        rest = more;
    }
    true
}

fn is_single(byte: u8, more: &[u8]) -> bool
    ensures { IsTrue result
        ↔ ((byte ≢ 0x2F) × ¬ ((byte ≡ 0x5C) × BeginsWithSeparator rule.Verbatim more.now)) }
{
    match byte {
        b'/' => false,
        b'\\' => !begins_with_separator(Rules::Verbatim, more),
        _ => true,
    }
}

/// Whether the path begins with a drive after `\\?\`.
fn has_verbatim_drive(path: &[u8]) -> bool
    ensures { IsTrue result
        ↔ ((letter : ℕ) × ((rest : List ℕ) × IsPrefixOf path.now (VerbatimDisk letter) rest)) }
{
    match windows_prefix(path) {
        Some((prefix, _)) => match prefix {
            Prefix::VerbatimDisk(_) => true,
            _ => false,
        },
        None => false,
    }
}

/// Whether each remaining component is plain.
fn are_plain(items: Components<'_>) -> bool
    ensures { IsTrue result ↔ AllByRecursion IsPlainItem items.entry.items }
{
    let mut left = items;
    loop {
        let Some(item) = left.next() else {
            return true;
        };
        if !is_plain(item) {
            return false;
        }
    }
}

/// Whether a component is the same without `\\?\`.
fn is_plain(item: Component<&[u8]>) -> bool
    ensures { IsTrue result ↔ IsPlainItem (item_of item.entry) }
{
    match item {
        Component::Prefix(_) => true,
        Component::RootDir => true,
        Component::CurDir => false,
        Component::ParentDir => false,
        Component::Normal(name) => is_plain_name(name),
    }
}

/// Whether a name isn't reserved, and not too long.
fn is_plain_name(name: &[u8]) -> bool
    ensures { IsTrue result ↔ IsPlainItem (Normal name.now) }
{
    if is_reserved(name) {
        return false;
    }
    fits(name, 255)
}

/// Whether bytes have at most `most` UTF-16 code units.
fn fits(bytes: &[u8], most: usize) -> bool
    ensures { IsTrue result ↔ (wide_len bytes.now ≤ most) }
{
    let mut left = most;
    let mut rest = bytes;
    loop {
        let Some((byte, more)) = rest.split_first() else {
            return true;
        };
        let units = wide_units(*byte);
        if units > left {
            return false;
        }
        left -= units;
        rest = more;
    }
}

/// The number of UTF-16 code units that a byte begins.
#[inline(always)]
fn wide_units(byte: u8) -> usize
    ensures { result ≡ wide_units_of byte }
{
    if byte < 0x80 {
        1
    } else if byte < 0xC0 {
        0
    } else if byte < 0xF0 {
        1
    } else {
        2
    }
}
