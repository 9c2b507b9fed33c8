//! A path of one style as a path of the other.
ghost use Rattle.std.specs.Prelude.{◌≢◌, ◌↔◌, true, List, map, IsTrue, MatchOption, IfOk, IfErr};
ghost use Rattle.path_rules.specs.Views.{item_of};
ghost use Rattle.path_rules.specs.Component.{Item, Normal};
ghost use Rattle.path_rules.specs.Components.{AreComponents};
ghost use Rattle.path_building.specs.Beginning.{BeginsAsShare};
ghost use Rattle.path_building.specs.Restyled.{IsHad, AreHad, IsFirstUnlike, IsRestyled, IsStyleFault};

use crate::beginning::{begins_as_share, is_colon_name};
use crate::error_text::write_with_number;
use crate::normal::{all_items, all_names};
use crate::writing::{before_start, written};
use path_rules::parts::head_of;
use path_rules::{Component, Style, is_extension_text};
use std::alloc::{AllocError, Allocator};
use std::error::Error;
use std::fmt;

/// Why [`with_style`] returns no path.
///
/// It prints as a message for a person. It has no width: `{:>99}` writes what `{}` does.
///
/// ```
/// use path_building::StyleError;
///
/// let error = StyleError::Component(3);
/// assert_eq!(rt; format!(in alloc; "{error}")?.as_str(), "the style can't have component 3");
/// ```
#[derive(Clone, Copy, Debug, PartialEq, Eq)]
pub enum StyleError {
    /// The component at this index is the first that the style can't have.
    Component(usize),
    /// An allocation failed.
    Memory,
}

impl fmt::Display for StyleError {
    ghost use Rattle.std.specs.Prelude.{Some};
    ghost use Rattle.path_building.specs.ErrorText.{style_error_text};

    ghost output = { λ error. Some (style_error_text error) };

    ghost styled_output = { λ error _. Some (style_error_text error) };

    fn fmt<W: fmt::Write>(&self, f: &mut fmt::Formatter<W>) -> fmt::Result {
        match *self {
            StyleError::Component(index) => {
                write_with_number("the style can't have component ", index, f)
            }
            StyleError::Memory => f.write_str("out of memory"),
        }
    }
}

impl Error for StyleError {}

impl From<AllocError> for StyleError {
    ghost use Rattle.std.specs.Prelude.{◌≡◌};
    ghost use Rattle.path_building.specs.declared.styles.StyleError.TheVariants.{Memory};

    ghost from_gives = { λ _ error. error ≡ Memory };

    fn from(_: AllocError) -> StyleError {
        StyleError::Memory
    }
}

/// The path of another style with the same components, in new memory (typed-path's
/// `with_encoding`): the root, `.`, `..` and the names, written with the main separator. A path of
/// the same style is returned unchanged.
///
/// A root before the name `??` gets `\.` before it on Windows, which reads `\??\` as it reads `\\?\`
/// ([`crate::laws::no_object`]).
///
/// Test each name of a Windows path that is made of a Unix one with [`path_rules::is_reserved`]: `a:b`,
/// `nul` and `a ` are names on Unix, and Windows reads each as another file or a device.
///
/// # Errors
///
/// - `Component` with the index of the first component that the style can't have: a prefix, a name
///   that has one of its separators, as `a\b`, or on Windows a first name with a colon, as `C:`. It
///   is 0 for a Windows path that begins with two separators, as `\\server`, which no other path
///   names.
/// - `Memory` if an allocation fails.
///
/// ```
/// use path_building::{StyleError, with_style};
/// use path_rules::Style;
///
/// let path = with_style(alloc, Style::Unix, Style::Windows, b"/usr//lib/..")?;
/// assert_eq!(rt; path.as_slice(), br"\usr\lib\..".as_slice());
/// let path = with_style(alloc, Style::Windows, Style::Unix, br".\a\b")?;
/// assert_eq!(rt; path.as_slice(), b"./a/b".as_slice());
/// let path = with_style(alloc, Style::Unix, Style::Windows, b"/??/c:/x")?;
/// assert_eq!(rt; path.as_slice(), br"\.\??\c:\x".as_slice());
/// let refused = with_style(alloc, Style::Windows, Style::Unix, br"C:\a");
/// assert!(rt; refused.is_err_and(|e| e == StyleError::Component(0)));
/// ```
pub fn with_style<A: Allocator + Clone>(
    alloc: A,
    from: Style,
    to: Style,
    path: &[u8],
) -> Result<Vec<u8, A>, StyleError>
    ensures ok { IfOk result (λ made. IsRestyled from to path.now made.items) }
    ensures err { IfErr result (λ error. IsStyleFault from to path.now error) }
{
    if from == to {
        return Ok(Vec::from_slice(alloc, path)?);
    }
    if begins_as_share(from, path) {
        return Err(StyleError::Component(0));
    }
    let items = all_items(alloc.clone()?, from, path)?;
    if let Some(index) = first_unlike(to, &items) {
        return Err(StyleError::Component(index));
    }
    Ok(restyled(alloc, from, to, path)?)
}

/// The path of another style, which has each of its components.
fn restyled<A: Allocator + Clone>(
    alloc: A,
    from: Style,
    to: Style,
    path: &[u8],
) -> Result<Vec<u8, A>, AllocError>
    requires unlike { from ≢ to }
    requires single { ¬ (BeginsAsShare from path.now) }
    requires had { (items : List Item) × AreComponents from path.now items × AreHad to true items }
    ensures { IfOk result (λ made. IsRestyled from to path.now made.items) }
{
    let head = head_of(from, path);
    let names = all_names(alloc.clone()?, head.rules, head.body)?;
    let none = b"".as_slice();
    let before = before_start(to, none, head.start, &names);
    let separator = to.main_separator();
    written(
        alloc,
        path.len(),
        separator,
        before,
        head.start,
        false,
        &names,
    )
}

/// The index of the first component that a style can't have.
fn first_unlike(to: Style, items: &[Component<&[u8]>]) -> Option<usize>
    ensures { MatchOption result (AreHad to true (map item_of items.now))
        (λ index. IsFirstUnlike to true (map item_of items.now) index) }
{
    let mut index = 0;
    let mut first = true;
    let mut left = items;
    while let [item, more @ ..] = left {
        if !is_had(to, first, *item) {
            return Some(index);
        }
        index += 1;
        first = false;
        left = more;
    }
    None
}

/// Whether a style has a component, first or after others.
fn is_had(to: Style, first: bool, item: Component<&[u8]>) -> bool
    ensures { IsTrue result ↔ IsHad to first (item_of item.entry) }
{
    match item {
        Component::Prefix(_) => false,
        Component::Normal(name) => is_name(to, first, name),
        _ => true,
    }
}

fn is_name(to: Style, first: bool, name: &[u8]) -> bool
    ensures { IsTrue result ↔ IsHad to first (Normal name.now) }
{
    if !is_extension_text(to, name) {
        return false;
    }
    if first {
        return !is_colon_name(to, name);
    }
    true
}
