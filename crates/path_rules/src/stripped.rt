//! The rest of a path after the components of a base.
ghost use Rattle.std.specs.Prelude.{◌≡◌, ◌∷◌, [], List, MatchOption, IfSome};
ghost use Rattle.path_rules.specs.Component.{Item};
ghost use Rattle.path_rules.specs.Views.{item_of};
ghost use Rattle.path_rules.specs.Heads.{items_of};
ghost use Rattle.path_rules.specs.HeadParts.{IsHead};
ghost use Rattle.path_rules.specs.Compare.{StartsAlike, StartsWith};
ghost use Rattle.path_rules.specs.Body.{IsEndTrimmed};
ghost use Rattle.path_rules.specs.Strip.{IsStripped};
ghost use Rattle.path_rules.specs.Taken.{Takes, AreTaken};

use crate::body::{next_in, start_trimmed, trimmed};
use crate::compare::are_alike;
use crate::component::Component;
use crate::components::Components;
use crate::head::{Head, Start, head_of};
use crate::rules::{Rules, Style};

/// Returns the rest of the path after the components of the base (std's `Path::strip_prefix`).
/// Returns `None` if the path's first components aren't those of the base ([`crate::starts_with`]).
///
/// The rest is a part of the path's bytes, from its next component to the end of its last. It
/// begins with the root if the base is a prefix alone, as `C:`. The base joined with the rest has
/// the path's components, under the conditions of `path_building::laws::strip_joined`.
///
/// ```
/// use path_rules::{Style, strip_prefix};
///
/// assert_eq!(rt; strip_prefix(Style::Unix, b"/usr//lib/a/", b"/usr/"), Some(b"lib/a".as_slice()));
/// assert_eq!(rt; strip_prefix(Style::Unix, b"/usr", b"/usr"), Some(b"".as_slice()));
/// assert_eq!(rt; strip_prefix(Style::Unix, b"/usr/lib", b"/us"), None);
/// assert_eq!(rt; strip_prefix(Style::Windows, br"C:\a\b", b"c:/a"), Some(b"b".as_slice()));
/// assert_eq!(rt; strip_prefix(Style::Windows, br"C:\a", b"C:"), Some(br"\a".as_slice()));
/// ```
pub fn strip_prefix<'a>(style: Style, path: &'a [u8], base: &[u8]) -> Option<&'a [u8]>
    ensures { MatchOption result (¬ (StartsWith style path.entry.now base.now))
        (λ rest. (more : List Item) × IsStripped style path.entry.now base.now rest.now more) }
{
    let whole = end_trimmed(style, path);
    let head = head_of(style, whole);
    let Some(left) = after_base(head, Components::new(style, base)) else {
        return None;
    };
    if left.prefix.is_empty() {
        return match left.start {
            Start::Nothing => Some(start_trimmed(left.rules, left.body)),
            _ => {
                let (_, rest) = whole.split_at(head.prefix.len());
                Some(rest)
            }
        };
    }
    Some(whole)
}

/// Returns the path up to the end of its last component (std's `Components::as_path` of all
/// components).
///
/// Separators after it are removed, and so is each `.` after it that names nothing. A prefix and a
/// root stay.
///
/// ```
/// use path_rules::{Style, end_trimmed};
///
/// assert_eq!(rt; end_trimmed(Style::Unix, b"a/b/./"), b"a/b".as_slice());
/// assert_eq!(rt; end_trimmed(Style::Unix, b"//"), b"/".as_slice());
/// ```
pub fn end_trimmed(style: Style, path: &[u8]) -> &[u8]
    ensures { IsEndTrimmed style path.now result.now }
{
    let head = head_of(style, path);
    let body = trimmed(head.rules, head.body);
    let (kept, _) = path.split_at(path.len() - head.body.len() + body.len());
    kept
}

/// The remaining parts after components alike those of the base.
fn after_base<'a>(head: Head<'a>, base: Components<'_>) -> Option<Head<'a>>
    ensures { MatchOption result (¬ (StartsAlike (items_of head.entry) base.entry.items))
        (λ left. AreTaken head.entry base.entry.items left) }
{
    let mut left = head;
    let mut wanted = base;
    loop {
        let Some(want) = wanted.next() else {
            return Some(left);
        };
        let Some((have, rest)) = first_of(left) else {
            return None;
        };
        if !are_alike(have, want) {
            return None;
        }
        left = rest;
    }
}

/// The first component, and the remaining parts.
pub(crate) fn first_of(head: Head<'_>) -> Option<(Component<&[u8]>, Head<'_>)>
    ensures items { MatchOption result (items_of head.entry ≡ [])
        (λ first. items_of head.entry ≡ item_of first.0 ∷ items_of first.1) }
    ensures takes { IfSome result (λ first. Takes head.entry (item_of first.0) first.1) }
{
    let Head {
        rules,
        prefix,
        start,
        body,
    } = head;
    if !prefix.is_empty() {
        return Some((Component::Prefix(prefix), below(rules, start, body)));
    }
    match start {
        Start::Root => Some((Component::RootDir, below(rules, Start::Nothing, body))),
        Start::Dot => Some((Component::CurDir, below(rules, Start::Nothing, body))),
        Start::Nothing => {
            let Some((item, rest)) = next_in(rules, body) else {
                return None;
            };
            Some((item, below(rules, Start::Nothing, rest)))
        }
    }
}

/// Parts without a prefix.
fn below(rules: Rules, start: Start, body: &[u8]) -> Head<'_>
    ensures rules { result.rules ≡ rules }
    ensures prefix { result.prefix.now ≡ [] }
    ensures start { result.start ≡ start }
    ensures body { result.body.now ≡ body.entry.now }
{
    Head {
        rules,
        prefix: b"".as_slice(),
        start,
        body,
    }
}
