//! Paths compared by their components.
ghost use Rattle.std.specs.Prelude.{◌≡◌, ◌↔◌, IsTrue};
ghost use Rattle.path_rules.specs.Views.{item_of};
ghost use Rattle.path_rules.specs.PrefixViews.{kind_of};
ghost use Rattle.path_rules.specs.Compare.{AreAlikePrefixes, AreAlike, StartsAlike, EndsAlike, StartsWith, EndsWith};

use crate::component::Component;
use crate::components::Components;
use crate::prefix::{Prefix, windows_prefix};
use crate::rules::Style;

/// Returns `true` if the first components of the path are those of the base (std's
/// `Path::starts_with`).
///
/// Components are compared, not bytes: `/usr/lib` starts with `/usr/` and not with `/us`. Prefixes
/// are compared by kind and parts, so the drives `C:` and `c:` are the same.
///
/// ```
/// use path_rules::{Style, starts_with};
///
/// assert!(rt; starts_with(Style::Unix, b"/usr//lib", b"/usr/"));
/// assert!(rt; !starts_with(Style::Unix, b"/usr/lib", b"/us"));
/// assert!(rt; starts_with(Style::Windows, br"C:\a\b", b"c:/a"));
/// ```
pub fn starts_with(style: Style, path: &[u8], base: &[u8]) -> bool
    ensures { IsTrue result ↔ StartsWith style path.now base.now }
{
    starts_alike(Components::new(style, path), Components::new(style, base))
}

/// Returns `true` if the last components of the path are those of the child (std's
/// `Path::ends_with`).
///
/// ```
/// use path_rules::{Style, ends_with};
///
/// assert!(rt; ends_with(Style::Unix, b"/usr/lib/", b"lib"));
/// assert!(rt; !ends_with(Style::Unix, b"/usr/lib", b"/lib"));
/// assert!(rt; !ends_with(Style::Unix, b"/usr/lib", b"ib"));
/// ```
pub fn ends_with(style: Style, path: &[u8], child: &[u8]) -> bool
    ensures { IsTrue result ↔ EndsWith style path.now child.now }
{
    ends_alike(Components::new(style, path), Components::new(style, child))
}

/// Whether the first remaining components are alike the wanted ones.
fn starts_alike(mut left: Components<'_>, mut wanted: Components<'_>) -> bool
    ensures { IsTrue result ↔ StartsAlike left.entry.items wanted.entry.items }
{
    loop {
        let Some(want) = wanted.next() else {
            return true;
        };
        let Some(have) = left.next() else {
            return false;
        };
        if !are_alike(have, want) {
            return false;
        }
    }
}

/// Whether the last remaining components are alike the wanted ones.
fn ends_alike(mut left: Components<'_>, mut wanted: Components<'_>) -> bool
    ensures { IsTrue result ↔ EndsAlike left.entry.items wanted.entry.items }
{
    loop {
        let Some(want) = wanted.next_back() else {
            return true;
        };
        let Some(have) = left.next_back() else {
            return false;
        };
        if !are_alike(have, want) {
            return false;
        }
    }
}

/// Returns `true` if two components are alike. Prefixes are alike if they are of one kind with the
/// same parts, and other components if they are the same.
///
/// ```
/// use path_rules::Component;
/// use path_rules::parts::are_alike;
///
/// let drive = Component::Prefix(b"C:".as_slice());
/// assert!(rt; are_alike(drive, Component::Prefix(b"c:".as_slice())));
/// ```
pub fn are_alike(a: Component<&[u8]>, b: Component<&[u8]>) -> bool
    ensures { IsTrue result ↔ AreAlike (item_of a.entry) (item_of b.entry) }
{
    match a {
        Component::Prefix(s) => match b {
            Component::Prefix(t) => are_alike_prefixes(s, t),
            _ => false,
        },
        _ => a == b,
    }
}

/// Whether two paths have prefixes of one kind with the same parts.
fn are_alike_prefixes(s: &[u8], t: &[u8]) -> bool
    ensures { IsTrue result ↔ AreAlikePrefixes s.now t.now }
{
    let Some((first, _)) = windows_prefix(s) else {
        return false;
    };
    let Some((second, _)) = windows_prefix(t) else {
        return false;
    };
    are_same(first, second)
}

/// Whether two prefixes are of one kind with the same parts.
fn are_same(p: Prefix<&[u8]>, q: Prefix<&[u8]>) -> bool
    ensures { IsTrue result ↔ (kind_of p.entry ≡ kind_of q.entry) }
{
    p == q
}
