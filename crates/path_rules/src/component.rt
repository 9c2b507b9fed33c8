//! Components of a path.
ghost use Rattle.std.specs.Prelude.{◌≡◌, ℕ, List, IfSome, MatchOption};
ghost use Rattle.std.specs.Option.{option_map};
ghost use Rattle.path_rules.specs.Component.{Normal, named};
ghost use Rattle.path_rules.specs.Views.{item_of};
ghost use Rattle.path_rules.specs.Parent.{IsBelow};

use crate::rules::Rules;

/// A component of a path (std's `Component`). Its strings are of type `S`, such as `&[u8]`.
#[derive(Clone, Copy, Debug, PartialEq, Eq)]
pub enum Component<S> {
    /// The prefix of a Windows path, as it is written. [`crate::windows_prefix`] returns its kind.
    Prefix(S),
    /// The root.
    RootDir,
    /// `.`, at the start of a path without a root or a prefix, or anywhere after `\\?\`.
    CurDir,
    /// `..`
    ParentDir,
    /// Any other name.
    Normal(S),
}

impl<'a> Component<&'a [u8]> {
    /// Returns the name, if the component is one (own call; std's `Path::file_name` of the last
    /// one).
    ///
    /// ```
    /// use path_rules::Component;
    ///
    /// assert_eq!(rt; Component::Normal(b"a".as_slice()).name(), Some(b"a".as_slice()));
    /// assert_eq!(rt; Component::<&[u8]>::ParentDir.name(), None);
    /// ```
    pub fn name(self) -> Option<&'a [u8]>
        ensures { MatchOption result ((name : List ℕ) → ¬ (item_of self.entry ≡ Normal name))
            (λ name. item_of self.entry ≡ Normal name.now) }
    {
        match self {
            Component::Normal(name) => Some(name),
            _ => None,
        }
    }
}

/// Returns the component that a part between separators is, or `None` if it names nothing.
///
/// ```
/// use path_rules::parts::component_of;
/// use path_rules::{Component, Rules};
///
/// assert!(rt; component_of(Rules::Slash, b"..") == Some(Component::ParentDir));
/// assert!(rt; component_of(Rules::Slash, b".").is_none());
/// ```
#[inline(always)]
pub fn component_of(rules: Rules, part: &[u8]) -> Option<Component<&[u8]>>
    ensures names { option_map item_of result ≡ named rules part.now }
    ensures below { IfSome result (λ item. IsBelow (item_of item)) }
{
    match part {
        [] => None,
        [b'.'] => match rules {
            Rules::Verbatim => Some(Component::CurDir),
            _ => None,
        },
        [b'.', b'.'] => Some(Component::ParentDir),
        _ => Some(Component::Normal(part)),
    }
}
