//! A path's prefix, what it starts with, and what follows.
ghost use Rattle.std.specs.Prelude.{◌≡◌, ◌↔◌, IsTrue};
ghost use Rattle.path_rules.specs.Heads.{items_of};
ghost use Rattle.path_rules.specs.Components.{AreComponents, IsStartOf, IsRootOf};
ghost use Rattle.path_rules.specs.HeadParts.{IsHead};

use crate::parsed::Parsed;
use crate::prefix::Prefix;
use crate::rules::{Rules, Style};

/// With what a path starts after its prefix.
#[derive(Clone, Copy)]
pub enum Start {
    /// A root.
    Root,
    /// `.`
    Dot,
    /// Neither.
    Nothing,
}

impl Start {
    /// Whether there is neither.
    #[inline(always)]
    pub(crate) fn is_nothing(self) -> bool
        ensures { IsTrue result ↔ (self ≡ Start.Nothing) }
    {
        matches!(self, Start::Nothing)
    }
}

/// A path's parts.
#[derive(Clone, Copy)]
pub struct Head<'a> {
    /// What separates in it.
    pub rules: Rules,
    /// The prefix, empty where there is none.
    pub prefix: &'a [u8],
    /// What comes after the prefix.
    pub start: Start,
    /// What follows the start.
    pub body: &'a [u8],
}

/// With what a path without a prefix starts, and what follows it.
#[inline(always)]
pub(crate) fn start_of(rules: Rules, path: &[u8]) -> (Start, &[u8])
    ensures { IsStartOf rules path.now result.0 result.1.now }
{
    match path {
        [b'.'] => (Start::Dot, b"".as_slice()),
        [b'.', next, ..] if rules.is_separator(*next) => (Start::Dot, &path[1..]),
        [first, body @ ..] if rules.is_separator(*first) => (Start::Root, body),
        _ => (Start::Nothing, path),
    }
}

/// The parts of a path.
///
/// ```
/// use path_rules::Style;
/// use path_rules::parts::head_of;
///
/// let head = head_of(Style::Windows, br"C:\a\b");
/// assert!(rt; head.prefix == b"C:".as_slice() && head.body == br"a\b".as_slice());
/// ```
#[inline(always)]
pub fn head_of(style: Style, path: &[u8]) -> Head<'_>
    ensures items { AreComponents style path.entry.now (items_of result) }
    ensures parts { IsHead style path.entry.now result }
{
    Parsed::new(style, path).head()
}

/// The root that follows a prefix, and what follows it.
pub(crate) fn root_of<'a>(prefix: Prefix<&[u8]>, rest: &'a [u8]) -> (Start, &'a [u8])
    ensures { IsRootOf prefix.entry rest.entry.now result.0 result.1.now }
{
    match rest {
        [first, body @ ..] if Rules::Either.is_separator(*first) => (Start::Root, body),
        _ => match prefix {
            Prefix::Device(_) => (Start::Root, rest),
            Prefix::Unc(_, _) => (Start::Root, rest),
            _ => (Start::Nothing, rest),
        },
    }
}
