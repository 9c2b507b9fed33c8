//! The names that a path leads to below a base, in one walk.
ghost use Rattle.std.specs.Prelude.{◌≡◌, ◌↔◌, ◌++◌, ◌+◌, ◌<◌, ◌^◌, length, map, reverse, IsTrue, IfOk, IfErr};
ghost use Rattle.path_rules.specs.Component.{components_in};
ghost use Rattle.path_rules.specs.Heads.{start_items};
ghost use Rattle.path_rules.specs.Views.{item_of};
ghost use Rattle.path_building.specs.Faults.{HasNoStream, IsFreeOn};
ghost use Rattle.path_building.specs.Walked.{LeadTo, IsWalkFault, Takes};

use crate::beginning::has_colon;
use crate::error_text::{write_at_byte, write_with_number};
use path_rules::parts::{Start, next_in};
use path_rules::{Component, Rules, Style, is_reserved};
use std::alloc::{AllocError, Allocator};
use std::error::Error;
use std::fmt;

/// Why a path isn't joined to a base ([`crate::Base::join`]). An index of a component is that of the
/// first at fault, as [`path_rules::Components`] counts them.
///
/// It prints as a message for a person. It has no width: `{:>99}` writes what `{}` does.
///
/// ```
/// use path_building::NameError;
///
/// let error = NameError::Nul(2);
/// assert_eq!(rt; format!(in alloc; "{error}")?.as_str(), "NUL at byte 2 of the path");
/// let error = NameError::Stream(0);
/// let text = "the path has a colon in component 0";
/// assert_eq!(rt; format!(in alloc; "{error}")?.as_str(), text);
/// ```
#[derive(Clone, Copy, Debug, PartialEq, Eq)]
pub enum NameError {
    /// The byte index of the first NUL of the path.
    Nul(usize),
    /// The path has a prefix.
    Prefix,
    /// The path has a root.
    Root,
    /// The component is a `..` that has no name of the path before it to take away.
    Leaves(usize),
    /// The component is a name of a Windows path with a colon, which the name of a stream follows.
    Stream(usize),
    /// The component is a reserved name of a Windows path ([`path_rules::is_reserved`]).
    Reserved(usize),
    /// An allocation failed.
    Memory,
}

impl fmt::Display for NameError {
    ghost use Rattle.std.specs.Prelude.{Some};
    ghost use Rattle.path_building.specs.ErrorText.{name_error_text};

    ghost output = { λ error. Some (name_error_text error) };

    ghost styled_output = { λ error _. Some (name_error_text error) };

    fn fmt<W: fmt::Write>(&self, f: &mut fmt::Formatter<W>) -> fmt::Result {
        match *self {
            NameError::Nul(index) => write_at_byte("NUL", index, " of the path", f),
            NameError::Prefix => f.write_str("the path has a prefix"),
            NameError::Root => f.write_str("the path has a root"),
            NameError::Leaves(index) => {
                write_with_number("the path leaves the base at component ", index, f)
            }
            NameError::Stream(index) => {
                write_with_number("the path has a colon in component ", index, f)
            }
            NameError::Reserved(index) => {
                write_with_number("the path has a reserved name at component ", index, f)
            }
            NameError::Memory => f.write_str("out of memory"),
        }
    }
}

impl Error for NameError {}

impl From<AllocError> for NameError {
    ghost use Rattle.std.specs.Prelude.{◌≡◌};
    ghost use Rattle.path_building.specs.declared.walk.NameError.TheVariants.{Memory};

    ghost from_gives = { λ _ error. error ≡ Memory };

    fn from(_: AllocError) -> NameError {
        NameError::Memory
    }
}

/// The names that a path's start and the components of its body lead to, or the first of them that
/// is at fault.
pub(crate) fn fit_names<'a, A: Allocator>(
    alloc: A,
    style: Style,
    rules: Rules,
    start: Start,
    body: &'a [u8],
) -> Result<Vec<Component<&'a [u8]>, A>, NameError>
    requires { 1 + length body.now < 2 ^ 64 }
    ensures ok { IfOk result (λ names. LeadTo style
        (start_items start ++ components_in rules body.entry.now) (map item_of names.items)) }
    ensures err { IfErr result (λ error. IsWalkFault style
        (start_items start ++ components_in rules body.entry.now) error) }
{
    let mut names = Vec::new(alloc);
    let mut left = body;
    let mut at = start_len(start);
    while let Some((item, rest)) = next_in(rules, left) {
        if !has_no_stream(style, item) {
            return Err(NameError::Stream(at));
        }
        if !is_free(style, item) {
            return Err(NameError::Reserved(at));
        }
        if !take_in(&mut names, item)? {
            return Err(NameError::Leaves(at));
        }
        left = rest;
        at += 1;
    }
    Ok(names)
}

/// How many components a start is.
fn start_len(start: Start) -> usize
    ensures { result ≡ length (start_items start) }
{
    match start {
        Start::Root | Start::Dot => 1,
        Start::Nothing => 0,
    }
}

/// Whether a component is no name of a stream.
fn has_no_stream(style: Style, item: Component<&[u8]>) -> bool
    ensures { IsTrue result ↔ HasNoStream style (item_of item.entry) }
{
    match style {
        Style::Unix => true,
        Style::Windows => match item {
            Component::Normal(name) => !has_colon(name),
            _ => true,
        },
    }
}

/// Whether a component isn't reserved.
fn is_free(style: Style, item: Component<&[u8]>) -> bool
    ensures { IsTrue result ↔ IsFreeOn style (item_of item.entry) }
{
    match style {
        Style::Unix => true,
        Style::Windows => match item {
            Component::Normal(name) => !is_reserved(name),
            _ => true,
        },
    }
}

/// Takes a component in after names, and returns `false` if it takes a name that isn't there.
fn take_in<'a, A: Allocator>(
    names: &mut Vec<Component<&'a [u8]>, A>,
    item: Component<&'a [u8]>,
) -> Result<bool, AllocError>
    ensures { IfOk result (λ taken. Takes taken (reverse (map item_of names.old.items))
        (item_of item.entry) (reverse (map item_of names.new.items))) }
{
    match item {
        Component::Normal(_) => {
            names.push(item)?;
            Ok(true)
        }
        Component::ParentDir => Ok(names.pop().is_some()),
        _ => Ok(true),
    }
}
