//! The components of a path of a platform, from both ends.
ghost use Rattle.std.specs.Prelude.{◌≡◌, ℕ, List, MatchOption};
ghost use Rattle.std.specs.Iterator.{item_count};
ghost use Rattle.platform_str.specs.Strings.{bytes, path_bytes};
ghost use Rattle.path_rules.specs.Component.{Normal};
ghost use Rattle.path_rules.specs.Components.{AreComponents};
ghost use Rattle.path_rules.specs.Left.{GivesFirst, GivesLast, IsLeft};
ghost use Rattle.path_rules.specs.Views.{item_of};
ghost use Rattle.os_path.specs.Formed.{IsFormed};
ghost use Rattle.os_path.specs.Views.{os_item_of};

use crate::style::PathStyle;
use path_rules::Component;
use platform_str::{OsStr, Path};
use std::marker::{Model, PhantomData};

/// The components of a path that are left, from both ends (std's `Components`).
///
/// The components are one list: `next` takes its first, `next_back` its last, in any order of
/// calls. Each is a string of the path's platform.
#[derive(Drop)]
pub struct Components<'a, E: PathStyle + 'a> {
    left: path_rules::Components<'a>,
    platform: PhantomData<E>,
}

impl<'a, E: PathStyle> Model for Components<'a, E> {
    ghost use Rattle.path_rules.specs.Left.{Left};
    ghost use Rattle.os_path.specs.Formed.{IsFormedLeft};

    ghost Value = { Left };

    ghost view = { λ it. it.left };

    ghost invariant = { λ it. IsFormedLeft E.well_formed it.left };
}

impl<'a, E: PathStyle> Components<'a, E> {
    /// The components of a string as a path.
    pub(crate) fn new(string: OsStr<'a, E>) -> Self
        ensures items { AreComponents E.follows (bytes string.entry) result.items }
        ensures style { result.style ≡ E.follows }
        ensures path { result.path ≡ bytes string.entry }
        ensures taken { result.taken ≡ 0 }
    {
        Components {
            left: path_rules::Components::new(E::style(), string.as_encoded_bytes()),
            platform: PhantomData,
        }
    }

    /// The part of the path where the components are that are left (std's `Components::as_path`).
    ///
    /// ```
    /// use os_path::PathExt;
    /// use platform_str::{OsStr, Path, Unix};
    ///
    /// let mut left = Path::<Unix>::new(OsStr::new("/usr//lib/./a/")).components();
    /// assert!(rt; left.as_path().as_os_str() == OsStr::new("/usr//lib/./a"));
    /// let _ = (left.next(), left.next(), left.next_back());
    /// assert!(rt; left.as_path().as_os_str() == OsStr::new("lib"));
    /// ```
    ///
    /// [`path_rules::Components::as_path`] documents where it begins and ends.
    pub fn as_path(&self) -> Path<'a, E>
        ensures { IsLeft self.now.style self.now.path self.now.taken self.now.items
            (path_bytes result) }
    {
        Path::new(OsStr::from_encoded_bytes_unchecked(self.left.as_path()))
    }
}

impl<'a, E: PathStyle> Iterator for Components<'a, E> {
    type Item = Component<OsStr<'a, E>>;

    ghost next_gives = { GivesFirst os_item_of };

    ghost remaining = { item_count (λ left. left.items) };

    fn next(&mut self) -> Option<Component<OsStr<'a, E>>> {
        let Some(item) = self.left.next() else {
            return None;
        };
        Some(formed_component(item))
    }
}

impl<'a, E: PathStyle> DoubleEndedIterator for Components<'a, E> {
    ghost next_back_gives = { GivesLast os_item_of };

    fn next_back(&mut self) -> Option<Component<OsStr<'a, E>>> {
        let Some(item) = self.left.next_back() else {
            return None;
        };
        Some(formed_component(item))
    }
}

/// A component of well-formed bytes, as one of strings.
pub(crate) fn formed_component<'a, E: PathStyle>(
    item: Component<&'a [u8]>,
) -> Component<OsStr<'a, E>>
    requires { IsFormed E.well_formed (item_of item) }
    ensures { os_item_of result ≡ item_of item.entry }
{
    match item {
        Component::Prefix(raw) => Component::Prefix(OsStr::from_encoded_bytes_unchecked(raw)),
        Component::RootDir => Component::RootDir,
        Component::CurDir => Component::CurDir,
        Component::ParentDir => Component::ParentDir,
        Component::Normal(name) => Component::Normal(OsStr::from_encoded_bytes_unchecked(name)),
    }
}

/// The name that a component is, if it is one.
pub(crate) fn name_of<'a, E: PathStyle>(item: Component<OsStr<'a, E>>) -> Option<OsStr<'a, E>>
    ensures { MatchOption result ((name : List ℕ) → ¬ (os_item_of item.entry ≡ Normal name))
        (λ name. os_item_of item.entry ≡ Normal (bytes name)) }
{
    match item {
        Component::Normal(name) => Some(name),
        _ => None,
    }
}
