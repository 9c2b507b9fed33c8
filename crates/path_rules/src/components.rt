//! The components of a path, from both ends.
ghost use Rattle.std.specs.Prelude.{◌≡◌, ◌↔◌, [], IsTrue};
ghost use Rattle.std.specs.Iterator.{item_count};
ghost use Rattle.path_rules.specs.Views.{item_of};
ghost use Rattle.path_rules.specs.Components.{AreComponents};
ghost use Rattle.path_rules.specs.Left.{GivesFirst, GivesLast, IsLeft};

use crate::body::{next_back_in, next_in, start_trimmed, trimmed};
use crate::component::Component;
use crate::head::{Head, Start, head_of};
use crate::rules::Style;
use std::marker::Model;

/// An iterator over the components of a path, from both ends (std's `Components`).
///
/// The remaining components are one list. `next` takes the first, and `next_back` takes the last,
/// in any order of calls.
#[derive(Drop)]
pub struct Components<'a> {
    style: Style,
    path: &'a [u8],
    /// The number of components that were taken from the front.
    taken: usize,
    /// Whether what comes before the body was taken from the front.
    begun: bool,
    left: Head<'a>,
}

impl<'a> Model for Components<'a> {
    ghost use Rattle.path_rules.specs.Heads.{items_of};
    ghost use Rattle.path_rules.specs.Left.{Left};
    ghost use Rattle.path_rules.specs.LeftParts.{AreLeftOf};

    ghost Value = { Left };

    ghost view = { λ it. record {
      style = it.style;
      path = it.path.now;
      taken = it.taken;
      items = items_of it.left;
    } };

    ghost invariant = { λ it. AreLeftOf it.style it.path.now it.left it.begun it.taken };
}

impl<'a> Components<'a> {
    /// Returns an iterator over the components of a path (std's `Path::components`).
    ///
    /// ```
    /// use path_rules::{Component, Components, Style};
    ///
    /// let mut left = Components::new(Style::Windows, br"C:\a/.\..");
    /// assert!(rt; left.next() == Some(Component::Prefix(b"C:".as_slice())));
    /// assert!(rt; left.next_back() == Some(Component::ParentDir));
    /// assert!(rt; left.next() == Some(Component::RootDir));
    /// assert!(rt; left.next() == Some(Component::Normal(b"a".as_slice())));
    /// assert!(rt; left.next().is_none());
    /// ```
    pub fn new(style: Style, path: &'a [u8]) -> Self
        ensures items { AreComponents style path.entry.now result.items }
        ensures style { result.style ≡ style }
        ensures path { result.path ≡ path.entry.now }
        ensures taken { result.taken ≡ 0 }
    {
        Components {
            style,
            path,
            taken: 0,
            begun: false,
            left: head_of(style, path),
        }
    }

    /// Returns the part of the path that the remaining components span (std's
    /// `Components::as_path`).
    ///
    /// It begins where the first of them begins and ends where the last ends. It doesn't include
    /// the separators and dots at its ends that name nothing, but it keeps a root at its end.
    ///
    /// On Unix the part alone, as a path, has these components. On Windows there are two
    /// exceptions, where it has them only within the whole path: a prefix without its implicit root
    /// (`\\server\share`), and a part that begins after the prefix.
    ///
    /// ```
    /// use path_rules::{Components, Style};
    ///
    /// let mut left = Components::new(Style::Unix, b"/usr//lib/./a/");
    /// assert_eq!(rt; left.as_path(), b"/usr//lib/./a".as_slice());
    /// let _ = (left.next(), left.next(), left.next_back());
    /// assert_eq!(rt; left.as_path(), b"lib".as_slice());
    ///
    /// let mut left = Components::new(Style::Unix, b"x//y/x/y");
    /// let _ = (left.next(), left.next());
    /// assert_eq!(rt; left.as_path(), b"x/y".as_slice());
    /// ```
    pub fn as_path(&self) -> &'a [u8]
        ensures { IsLeft self.now.style self.now.path self.now.taken self.now.items result.now }
    {
        let whole = head_of(self.style, self.path);
        let left = self.left;
        if self.begun {
            return trimmed(left.rules, start_trimmed(left.rules, left.body));
        }
        let body = trimmed(left.rules, left.body);
        if is_over(left.start, body) {
            return left.prefix;
        }
        let (kept, _) = self
            .path
            .split_at(self.path.len() - whole.body.len() + body.len());
        if !left.prefix.is_empty() {
            return kept;
        }
        let (_, part) = kept.split_at(whole.prefix.len());
        part
    }
}

/// Whether neither a start nor a body remains.
fn is_over(start: Start, body: &[u8]) -> bool
    ensures { IsTrue result ↔ ((body.now ≡ []) × (start ≡ Start.Nothing)) }
{
    match start {
        Start::Nothing => body.is_empty(),
        _ => false,
    }
}

impl<'a> Iterator for Components<'a> {
    type Item = Component<&'a [u8]>;

    ghost next_gives = { GivesFirst item_of };

    ghost remaining = { item_count (λ left. left.items) };

    #[inline(always)]
    fn next(&mut self) -> Option<Component<&'a [u8]>> {
        if !self.left.prefix.is_empty() {
            let prefix = self.left.prefix;
            self.left.prefix = b"".as_slice();
            self.begun = self.left.start.is_nothing();
            self.taken += 1;
            return Some(Component::Prefix(prefix));
        }
        match self.left.start {
            Start::Root => {
                self.left.start = Start::Nothing;
                self.begun = true;
                self.taken += 1;
                Some(Component::RootDir)
            }
            Start::Dot => {
                self.left.start = Start::Nothing;
                self.begun = true;
                self.taken += 1;
                Some(Component::CurDir)
            }
            Start::Nothing => {
                let Some((item, rest)) = next_in(self.left.rules, self.left.body) else {
                    return None;
                };
                self.left.body = rest;
                self.begun = true;
                self.taken += 1;
                Some(item)
            }
        }
    }
}

impl<'a> DoubleEndedIterator for Components<'a> {
    ghost next_back_gives = { GivesLast item_of };

    fn next_back(&mut self) -> Option<Component<&'a [u8]>> {
        if let Some((rest, item)) = next_back_in(self.left.rules, self.left.body) {
            self.left.body = rest;
            return Some(item);
        }
        match self.left.start {
            Start::Root => {
                self.left.start = Start::Nothing;
                self.left.body = b"".as_slice();
                Some(Component::RootDir)
            }
            Start::Dot => {
                self.left.start = Start::Nothing;
                self.left.body = b"".as_slice();
                Some(Component::CurDir)
            }
            Start::Nothing => {
                if self.left.prefix.is_empty() {
                    return None;
                }
                let prefix = self.left.prefix;
                self.left.prefix = b"".as_slice();
                self.left.body = b"".as_slice();
                Some(Component::Prefix(prefix))
            }
        }
    }
}
