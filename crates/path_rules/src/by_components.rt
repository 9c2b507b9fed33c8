//! Paths that are compared by their components.
ghost use Rattle.std.specs.Prelude.{◌≡◌, ◌∷◌, [], true, Some, refl};
ghost use Rattle.std.specs.Ordering.{is_eq};
ghost use Rattle.std.specs.Cmp.{eq_by_cmp_equiv, partial_order_from_total, partial_equiv_from_equiv};
ghost use Rattle.std.specs.Prelude.{fold};
ghost use Rattle.path_rules.specs.Views.{item_of};
ghost use Rattle.path_rules.specs.Heads.{items_of};
ghost use Rattle.path_rules.specs.PrefixViews.{kind_of};
ghost use Rattle.path_rules.specs.Keys.{HasKeys, keys_of, keys_cmp, key_cmp, item_key, item_keys, rank_of, letter_of, name_of, share_of, keys_writes, kind_keys};
ghost use Rattle.path_rules.specs.Component.{components_in};
ghost use Rattle.path_rules.specs.Shared.{StartAlike};
ghost use Rattle.path_rules.specs.KeyLaws.{by_keys_total, hashes_alike};

use crate::body::next_in;
use crate::component::Component;
use crate::head::{Head, Start};
use crate::parsed::Parsed;
use crate::prefix::Prefix;
use crate::rules::{Rules, Style};
use crate::shared::after_shared;
use crate::stripped::first_of;
use std::cmp::Ordering;
use std::hash::{Hash, Hasher};

/// A path that is compared, ordered and hashed by its components, for example as the key of a map
/// (std's `==`, `Ord` and `Hash` of paths).
///
/// Components are compared one by one. In ascending order they are a prefix, a root, `.`, `..` and
/// a name. Names are compared as bytes. Prefixes are compared by kind and parts, so the drives `C:`
/// and `c:` are the same.
#[derive(Clone, Copy)]
pub struct ByComponents<'a> {
    prefix: Option<Prefix<&'a [u8]>>,
    below: Head<'a>,
}

impl<'a> ByComponents<'a> {
    /// Wraps the path of a style, for comparisons.
    ///
    /// ```
    /// use path_rules::{ByComponents, Style};
    ///
    /// let path = ByComponents::new(Style::Windows, br"C:\a\.\b");
    /// assert!(rt; path == ByComponents::new(Style::Windows, b"c:/a/b/"));
    /// assert!(rt; path < ByComponents::new(Style::Windows, br"C:\a\b\c"));
    /// ```
    #[inline(always)]
    pub fn new(style: Style, path: &'a [u8]) -> Self
        ensures { HasKeys style path.entry.now (keys_of result) }
    {
        let parsed = Parsed::new(style, path);
        let Head {
            rules,
            prefix: _,
            start,
            body,
        } = parsed.head();
        ByComponents {
            prefix: parsed.prefix,
            below: Head {
                rules,
                prefix: b"".as_slice(),
                start,
                body,
            },
        }
    }

    /// The order of two paths by their components.
    #[inline(always)]
    fn compare(self, other: ByComponents<'_>) -> Ordering
        ensures { result ≡ keys_cmp (keys_of self.entry) (keys_of other.entry) }
    {
        match self.prefix {
            Some(p) => match other.prefix {
                Some(q) => compare_prefixes(p, q).then(compare_items(self.below, other.below)),
                None => match first_of(other.below) {
                    Some(_) => Ordering::Less,
                    None => Ordering::Greater,
                },
            },
            None => match other.prefix {
                Some(_) => match first_of(self.below) {
                    Some(_) => Ordering::Greater,
                    None => Ordering::Less,
                },
                None => compare_items(self.below, other.below),
            },
        }
    }
}

/// The order of two lists of components. If both start alike, components that the same bytes spell
/// are skipped.
#[inline(always)]
fn compare_items(a: Head<'_>, b: Head<'_>) -> Ordering
    ensures { result ≡ keys_cmp (item_keys (items_of a.entry)) (item_keys (items_of b.entry)) }
{
    if !start_alike(a, b) {
        return walk_items(a, b);
    }
    match after_shared(a.rules, a.body, b.body) {
        Some((left, right)) => walk_bodies(a.rules, left, right),
        None => Ordering::Equal,
    }
}

/// Whether neither has a prefix, and both have the same rules and start.
#[inline(always)]
fn start_alike(a: Head<'_>, b: Head<'_>) -> bool
    ensures { result ≡ true → StartAlike a.entry b.entry }
{
    a.prefix.is_empty()
        && b.prefix.is_empty()
        && a.rules == b.rules
        && is_same_start(a.start, b.start)
}

#[inline(always)]
fn is_same_start(a: Start, b: Start) -> bool
    ensures { result ≡ true → b ≡ a }
{
    match a {
        Start::Root => matches!(b, Start::Root),
        Start::Dot => matches!(b, Start::Dot),
        Start::Nothing => matches!(b, Start::Nothing),
    }
}

/// The order of the components of two bodies.
fn walk_bodies(rules: Rules, a: &[u8], b: &[u8]) -> Ordering
    ensures { result ≡ keys_cmp (item_keys (components_in rules a.entry.now))
        (item_keys (components_in rules b.entry.now)) }
{
    let mut left = a;
    let mut right = b;
    loop {
        let Some((x, left_more)) = next_in(rules, left) else {
            return match next_in(rules, right) {
                Some(_) => Ordering::Less,
                None => Ordering::Equal,
            };
        };
        let Some((y, right_more)) = next_in(rules, right) else {
            return Ordering::Greater;
        };
        match compare_components(x, y) {
            Ordering::Equal => {}
            Ordering::Less => return Ordering::Less,
            Ordering::Greater => return Ordering::Greater,
        }
        left = left_more;
        right = right_more;
    }
}

/// The order of two lists of components, one by one.
fn walk_items(a: Head<'_>, b: Head<'_>) -> Ordering
    ensures { result ≡ keys_cmp (item_keys (items_of a.entry)) (item_keys (items_of b.entry)) }
{
    let mut left = a;
    let mut right = b;
    loop {
        let Some((x, left_more)) = first_of(left) else {
            return match first_of(right) {
                Some(_) => Ordering::Less,
                None => Ordering::Equal,
            };
        };
        let Some((y, right_more)) = first_of(right) else {
            return Ordering::Greater;
        };
        match compare_components(x, y) {
            Ordering::Equal => {}
            Ordering::Less => return Ordering::Less,
            Ordering::Greater => return Ordering::Greater,
        }
        left = left_more;
        right = right_more;
    }
}

/// The order of two components that aren't prefixes.
fn compare_components(x: Component<&[u8]>, y: Component<&[u8]>) -> Ordering
    ensures { result ≡ key_cmp (item_key (item_of x.entry)) (item_key (item_of y.entry)) }
{
    let (rank, name) = key_of(x);
    let (other_rank, other_name) = key_of(y);
    rank.cmp(&other_rank).then(name.cmp(other_name))
}

/// The rank of a component, and its name.
fn key_of(x: Component<&[u8]>) -> (u8, &[u8])
    ensures { item_key (item_of x.entry) ≡ result.0 ∷ result.1.now }
{
    match x {
        Component::RootDir => (6, b"".as_slice()),
        Component::CurDir => (7, b"".as_slice()),
        Component::ParentDir => (8, b"".as_slice()),
        Component::Normal(name) => (9, name),
        Component::Prefix(raw) => (10, raw),
    }
}

/// The order of two prefixes.
fn compare_prefixes(p: Prefix<&[u8]>, q: Prefix<&[u8]>) -> Ordering
    ensures { result ≡ keys_cmp (kind_keys (kind_of p.entry)) (kind_keys (kind_of q.entry)) }
{
    let (rank, letter, name, share) = parts_of(p);
    let (other_rank, other_letter, other_name, other_share) = parts_of(q);
    let names = rank.cmp(&other_rank).then(name.cmp(other_name));
    let shares = letter.cmp(&other_letter).then(share.cmp(other_share));
    names.then(shares)
}

/// The rank of a prefix's kind, its letter, its name or server, and its share.
fn parts_of(prefix: Prefix<&[u8]>) -> (u8, u8, &[u8], &[u8])
    ensures rank { result.0 ≡ rank_of (kind_of prefix.entry) }
    ensures letter { result.1 ≡ letter_of (kind_of prefix.entry) }
    ensures name { result.2.now ≡ name_of (kind_of prefix.entry) }
    ensures share { result.3.now ≡ share_of (kind_of prefix.entry) }
{
    match prefix {
        Prefix::Verbatim(name) => (0, 0, name, b"".as_slice()),
        Prefix::VerbatimUnc(server, share) => (1, 0, server, share),
        Prefix::VerbatimDisk(letter) => (2, letter, b"".as_slice(), b"".as_slice()),
        Prefix::Device(name) => (3, 0, name, b"".as_slice()),
        Prefix::Unc(server, share) => (4, 0, server, share),
        Prefix::Disk(letter) => (5, letter, b"".as_slice(), b"".as_slice()),
    }
}

/// Feeds a hasher with components.
fn hash_items<H: Hasher>(items: Head<'_>, state: &mut H)
    ensures { state.new ≡ fold H.write state.old (keys_writes (item_keys (items_of items.entry))) }
{
    let mut left = items;
    loop {
        let Some((item, more)) = first_of(left) else {
            return;
        };
        let (rank, name) = key_of(item);
        state.write_u8(rank);
        name.hash(state);
        left = more;
    }
}

impl<'a> PartialEq for ByComponents<'a> {
    ghost eq = { λ x y. is_eq (keys_cmp (keys_of x) (keys_of y)) };

    ghost laws = { partial_equiv_from_equiv (eq_by_cmp_equiv by_keys_total) };

    #[inline(always)]
    fn eq(&self, other: &Self) -> bool {
        self.compare(*other).is_eq()
    }
}

impl<'a> Eq for ByComponents<'a> {
    ghost laws = { eq_by_cmp_equiv by_keys_total };
}

impl<'a> PartialOrd for ByComponents<'a> {
    ghost partial_cmp = { λ x y. Some (keys_cmp (keys_of x) (keys_of y)) };

    ghost laws = { partial_order_from_total by_keys_total };

    #[inline(always)]
    fn partial_cmp(&self, other: &Self) -> Option<Ordering> {
        Some(self.compare(*other))
    }
}

impl<'a> Ord for ByComponents<'a> {
    ghost cmp = { λ x y. keys_cmp (keys_of x) (keys_of y) };

    ghost total = { by_keys_total };

    ghost matches_partial_cmp = { λ x y. refl };

    ghost matches_eq = { λ x y. refl };

    #[inline(always)]
    fn cmp(&self, other: &Self) -> Ordering {
        self.compare(*other)
    }
}

impl<'a> Hash for ByComponents<'a> {
    ghost hash_input = { λ x. keys_writes (keys_of x) };

    ghost respects_eq = { hashes_alike };

    fn hash<H: Hasher>(&self, state: &mut H) {
        if let Some(prefix) = self.prefix {
            let (rank, letter, name, share) = parts_of(prefix);
            state.write_u8(rank);
            name.hash(state);
            state.write_u8(letter);
            share.hash(state);
        }
        hash_items(self.below, state);
    }
}
