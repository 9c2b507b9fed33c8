//! The components of what follows a path's prefix and root, from both ends.
ghost use Rattle.std.specs.Prelude.{◌≡◌, ◌∷◌, ◌++◌, ◌<◌, ◌⊎◌, [], length, MatchOption, IfSome};
ghost use Rattle.path_rules.specs.Separators.{IsUpTo};
ghost use Rattle.path_rules.specs.Component.{components_in, EndsNamed};
ghost use Rattle.path_rules.specs.Body.{BeginsNamed};
ghost use Rattle.path_rules.specs.Views.{item_of};
ghost use Rattle.path_rules.specs.Parent.{IsBelow};
ghost use Rattle.path_rules.specs.HeadParts.{IsLastPart};
ghost use Rattle.path_rules.specs.Taken.{IsTail};
ghost use Rattle.path_rules.specs.FirstPart.{IsFirstPart};

use crate::component::{Component, component_of};
use crate::rules::Rules;

/// The first part that names a component: the body from there on, the component, and what follows
/// the separator after it.
#[inline(always)]
fn first_part(rules: Rules, body: &[u8]) -> Option<(&[u8], Component<&[u8]>, &[u8])>
    ensures items { MatchOption result (components_in rules body.now ≡ [])
        (λ first. components_in rules body.now
        ≡ item_of first.1 ∷ components_in rules first.2.now) }
    ensures same { IfSome result
        (λ first. components_in rules body.now ≡ components_in rules first.0.now) }
    ensures from { IfSome result (λ first. IsTail body.now first.0.now) }
    ensures named { IfSome result (λ first. BeginsNamed rules first.0.now) }
    ensures after { IfSome result (λ first. IsTail body.now first.2.now) }
    ensures first { IfSome result
        (λ first. IsFirstPart rules body.now (item_of first.1) first.2.now) }
{
    let mut left = body;
    loop {
        let Some((part, rest)) = rules.split_first(left) else {
            return match component_of(rules, left) {
                Some(item) => Some((left, item, b"".as_slice())),
                None => None,
            };
        };
        if let Some(item) = component_of(rules, part) {
            return Some((left, item, rest));
        }
        left = rest;
    }
}

/// The last part that names a component: the body up to its end, what comes before the separator
/// before it, the part, and the component.
fn last_part(rules: Rules, body: &[u8]) -> Option<(&[u8], &[u8], &[u8], Component<&[u8]>)>
    ensures items { MatchOption result (components_in rules body.now ≡ [])
        (λ last. components_in rules body.now
        ≡ components_in rules last.1.now ++ item_of last.3 ∷ []) }
    ensures before { IfSome result (λ last. (last.1.now ≡ []) ⊎ IsUpTo rules body.now last.1.now) }
    ensures below { IfSome result (λ last. IsBelow (item_of last.3)) }
    ensures part { IfSome result (λ last. IsLastPart rules body.now last.0.now last.2.now) }
    ensures named { IfSome result (λ last. EndsNamed rules last.0.now) }
{
    let mut left = body;
    loop {
        let Some((rest, part)) = rules.split_last(left) else {
            return match component_of(rules, left) {
                Some(item) => Some((left, b"".as_slice(), left, item)),
                None => None,
            };
        };
        if let Some(item) = component_of(rules, part) {
            return Some((left, rest, part, item));
        }
        left = rest;
    }
}

/// The first component, and what follows the separator after it.
///
/// ```
/// use path_rules::parts::next_in;
/// use path_rules::{Component, Rules};
///
/// let first = next_in(Rules::Slash, b"a/b");
/// assert!(rt; first == Some((Component::Normal(b"a".as_slice()), b"b".as_slice())));
/// let first = next_in(Rules::Slash, b"./a//b");
/// assert!(rt; first == Some((Component::Normal(b"a".as_slice()), b"/b".as_slice())));
/// ```
#[inline(always)]
pub fn next_in(rules: Rules, body: &[u8]) -> Option<(Component<&[u8]>, &[u8])>
    ensures items { MatchOption result (components_in rules body.now ≡ [])
        (λ first. components_in rules body.now
        ≡ item_of first.0 ∷ components_in rules first.1.now) }
    ensures after { IfSome result (λ first. IsTail body.now first.1.now) }
    ensures first { IfSome result
        (λ first. IsFirstPart rules body.now (item_of first.0) first.1.now) }
{
    match first_part(rules, body) {
        Some((_, item, rest)) => Some((item, rest)),
        None => None,
    }
}

/// The last component, and what comes before it.
pub fn next_back_in(rules: Rules, body: &[u8]) -> Option<(&[u8], Component<&[u8]>)>
    ensures items { MatchOption result (components_in rules body.now ≡ [])
        (λ last. components_in rules body.now
        ≡ components_in rules last.0.now ++ item_of last.1 ∷ []) }
    ensures before { IfSome result (λ last. (last.0.now ≡ []) ⊎ IsUpTo rules body.now last.0.now) }
    ensures below { IfSome result (λ last. IsBelow (item_of last.1)) }
{
    match last_part(rules, body) {
        Some((_, rest, _, item)) => Some((rest, item)),
        None => None,
    }
}

/// The body without the separators and parts at its start that name nothing.
pub(crate) fn start_trimmed(rules: Rules, body: &[u8]) -> &[u8]
    ensures items { components_in rules body.now ≡ components_in rules result.now }
    ensures after { IsTail body.now result.now }
    ensures named { BeginsNamed rules result.now }
{
    match first_part(rules, body) {
        Some((left, _, _)) => left,
        None => b"".as_slice(),
    }
}

/// The body without the separators and parts at its end that name nothing.
pub fn trimmed(rules: Rules, body: &[u8]) -> &[u8]
    ensures items { components_in rules body.now ≡ components_in rules result.now }
    ensures before { (result.now ≡ []) ⊎ IsUpTo rules body.now result.now }
    ensures named { EndsNamed rules result.now }
{
    match last_part(rules, body) {
        Some((left, _, _, _)) => left,
        None => b"".as_slice(),
    }
}

/// The body up to the end of its last component, and the part that names it.
///
/// ```
/// use path_rules::Rules;
/// use path_rules::parts::last_in;
///
/// let last = last_in(Rules::Slash, b"a/b/");
/// assert!(rt; last == Some((b"a/b".as_slice(), b"b".as_slice())));
/// ```
pub fn last_in(rules: Rules, body: &[u8]) -> Option<(&[u8], &[u8])>
    ensures { MatchOption result (components_in rules body.now ≡ [])
        (λ last. IsLastPart rules body.now last.0.now last.1.now) }
{
    match last_part(rules, body) {
        Some((left, _, part, _)) => Some((left, part)),
        None => None,
    }
}
