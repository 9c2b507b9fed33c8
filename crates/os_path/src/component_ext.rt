//! Components as strings, and the kind of a prefix component.
ghost use Rattle.std.specs.Prelude.{◌≡◌, ◌∷◌, [], List, ℕ, MatchOption};
ghost use Rattle.path_rules.specs.StyleRules.{main_separator};
ghost use Rattle.platform_str.specs.Strings.{bytes};
ghost use Rattle.path_rules.specs.Component.{Item};
ghost use Rattle.path_rules.specs.Views.{item_of};
ghost use Rattle.os_path.specs.Formed.{IsFormed};
ghost use Rattle.os_path.specs.Prefixes.{os_kind_of};
ghost use Rattle.path_building.specs.Collected.{string_of};
ghost use Rattle.os_path.specs.Strings.{IsPrefixKind, HasNoPrefixKind};
ghost use Rattle.os_path.specs.Views.{os_item_of};

use crate::components::formed_component;
use crate::prefixes::prefix_of;
use crate::style::PathStyle;
use path_rules::{Component, Prefix, Style};
use platform_str::OsStr;

/// The calls of std's `Component` and `PrefixComponent`, for a component of a path of any platform.
pub trait ComponentExt<'a>: Sized + Copy {
    /// The platform of the path.
    type Platform: PathStyle + 'a;

    // the component, with the bytes of its string
    ghost item: { Self → Item };

    /// The component, with the bytes of its string (own call).
    ///
    /// ```
    /// use os_path::{Component, ComponentExt};
    /// use platform_str::{OsStr, Unix};
    ///
    /// let name = Component::Normal(OsStr::<Unix>::new("a"));
    /// assert!(rt; name.of_bytes() == Component::Normal(b"a".as_slice()));
    /// ```
    fn of_bytes(self) -> Component<&'a [u8]>
        ensures value { item_of result ≡ item self }
        ensures formed { IsFormed Self.Platform.well_formed (item_of result) };

    /// The component as a string (std's `Component::as_os_str`): a root is the separator that is
    /// written, `/` or `\`, and a prefix is as it is written.
    ///
    /// ```
    /// use os_path::{Component, ComponentExt};
    /// use platform_str::{OsStr, Unix, Windows};
    ///
    /// assert!(rt; Component::<OsStr<Unix>>::RootDir.as_os_str() == OsStr::new("/"));
    /// assert!(rt; Component::<OsStr<Windows>>::RootDir.as_os_str() == OsStr::new("\\"));
    /// let name = Component::Normal(OsStr::<Unix>::new("a"));
    /// assert!(rt; name.as_os_str() == OsStr::new("a"));
    /// ```
    final fn as_os_str(self) -> OsStr<'a, Self::Platform>
        ensures { bytes result ≡ string_of Self.Platform.follows (item self) }
    {
        as_string(formed_component(self.of_bytes()))
    }

    /// The kind of a prefix component (std's `PrefixComponent::kind`); `None` for any other
    /// component. The kind of a path's prefix component is that of the path
    /// ([`crate::PathExt::prefix`], `path_rules::laws::prefix_stays`).
    ///
    /// ```
    /// use os_path::{Component, ComponentExt, Prefix};
    /// use platform_str::{OsStr, Windows};
    ///
    /// let prefix = Component::Prefix(OsStr::<Windows>::new("c:"));
    /// assert!(rt; prefix.kind() == Some(Prefix::Disk(b'C')));
    /// assert!(rt; Component::Normal(OsStr::<Windows>::new("C:")).kind().is_none());
    /// ```
    final fn kind(self) -> Option<Prefix<OsStr<'a, Self::Platform>>>
        ensures { MatchOption result (HasNoPrefixKind Self.Platform.follows (item self))
            (λ kind. IsPrefixKind Self.Platform.follows (item self) (os_kind_of kind)) }
    {
        kind_of(formed_component(self.of_bytes()))
    }
}

impl<'a, E: PathStyle + 'a> ComponentExt<'a> for Component<OsStr<'a, E>> {
    type Platform = E;

    ghost item = { os_item_of };

    fn of_bytes(self) -> Component<&'a [u8]> {
        match self {
            Component::Prefix(raw) => Component::Prefix(raw.as_encoded_bytes()),
            Component::RootDir => Component::RootDir,
            Component::CurDir => Component::CurDir,
            Component::ParentDir => Component::ParentDir,
            Component::Normal(name) => Component::Normal(name.as_encoded_bytes()),
        }
    }
}

/// The separator that is written.
fn separator<'a, E: PathStyle>() -> OsStr<'a, E>
    ensures { bytes result ≡ main_separator E.follows ∷ [] }
{
    match E::style() {
        Style::Unix => OsStr::new("/"),
        Style::Windows => OsStr::new("\\"),
    }
}

/// A component as a string.
#[tactic(auto, using(crate::proofs::lemmas::ReadCalls::parent_string))]
pub(crate) fn as_string<'a, E: PathStyle>(component: Component<OsStr<'a, E>>) -> OsStr<'a, E>
    ensures { bytes result ≡ string_of E.follows (os_item_of component.entry) }
{
    if let Component::Normal(name) = component {
        return name;
    }
    if let Component::Prefix(raw) = component {
        return raw;
    }
    match component {
        Component::RootDir => separator(),
        Component::CurDir => OsStr::new("."),
        _ => OsStr::new(".."),
    }
}

/// The kind of a prefix component.
fn kind_of<'a, E: PathStyle>(component: Component<OsStr<'a, E>>) -> Option<Prefix<OsStr<'a, E>>>
    ensures { MatchOption result (HasNoPrefixKind E.follows (os_item_of component.entry))
        (λ kind. IsPrefixKind E.follows (os_item_of component.entry) (os_kind_of kind)) }
{
    match component {
        Component::Prefix(raw) => prefix_of(raw),
        _ => None,
    }
}
