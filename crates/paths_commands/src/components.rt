//! The components of a path: all of them, one a line, or the one at an index.
ghost use Rattle.std.specs.Prelude.{◌≡◌, ◌∷◌, ◌++◌, [], ℕ, List, MatchOption, IfOk, OnOk, OnErr, length, ◌≤◌};
ghost use Rattle.std.specs.Fmt.Cut.{cut_to};
ghost use Rattle.std.specs.Fmt.InlineText.{inline_text};
ghost use Rattle.os_path.specs.Views.{os_item_of};
ghost use Rattle.platform_str.specs.Strings.{bytes, path_bytes};
ghost use Rattle.path_rules.specs.StyleRules.{main_separator};
ghost use Rattle.paths_commands.specs.Task.{AreLines, IsAt, IsComponentsText, IsShown, IsShownOf, component_text};

use crate::fault::SHOWN;
use list_programs::lines::push_line;
use os_path::{Component, Components, PathExt, PathStyle, Style};
use os_quote::escape_line;
use os_str_bytes::{OsStr, Path, Platform};
use std::alloc::{AllocError, Allocator};
use std::fmt::InlineText;

/// Appends the escape of each component of a path on a line, and an empty line.
///
/// # Errors
///
/// `AllocError` if an allocation failed. The output is unchanged then.
pub fn push_components<E: PathStyle, A: Allocator + Copy>(
    alloc: A,
    path: Path<'_, E>,
    output: &mut Vec<u8, A>,
) -> Result<(), AllocError>
    ensures ok { OnOk result ((text : List ℕ)
        × (IsComponentsText ⟦<E as Platform>⟧ E.follows (path_bytes path.entry) text
        × (output.new.items ≡ output.old.items ++ text))) }
    ensures unchanged { OnErr result (output.new.items ≡ output.old.items) }
{
    let mut text = Vec::new(alloc);
    push_lines::<E, A>(alloc, path.components(), &mut text)?;
    text.push(b'\n')?;
    output.extend_from_slice(&text)
}

/// Appends a line for each component.
fn push_lines<'a, E: PathStyle, A: Allocator + Copy>(
    alloc: A,
    components: Components<'a, E>,
    text: &mut Vec<u8, A>,
) -> Result<(), AllocError>
    ensures { OnOk result ((lines : List ℕ)
        × (AreLines ⟦<E as Platform>⟧ E.follows components.entry.items lines
        × (text.new.items ≡ text.old.items ++ lines))) }
{
    for component in components {
        push_line(alloc, component_text(component), text)?;
    }
    Ok(())
}

/// The escape of a path's component at this index, or nothing if it has no such component.
///
/// # Errors
///
/// `AllocError` if an allocation failed.
pub fn shown_component<E: PathStyle, A: Allocator>(
    alloc: A,
    path: Path<'_, E>,
    index: usize,
) -> Result<InlineText<SHOWN>, AllocError>
    ensures { IfOk result (λ text. IsShownOf ⟦<E as Platform>⟧ E.follows (path_bytes path.entry)
        index (inline_text text)) }
{
    shown_at(alloc, path.components(), index)
}

/// The escape of the component at this index, or nothing if there is none.
fn shown_at<'a, E: PathStyle, A: Allocator>(
    alloc: A,
    components: Components<'a, E>,
    index: usize,
) -> Result<InlineText<SHOWN>, AllocError>
    ensures { IfOk result (λ text. IsShown ⟦<E as Platform>⟧ E.follows components.entry.items
        index (inline_text text)) }
{
    match component_at(components, index) {
        Some(component) => {
            let line = escape_line(alloc, component_text(component))?;
            Ok(shown(line.as_str()))
        }
        None => Ok(InlineText::new()),
    }
}

/// A text, which is cut if it is longer than what is printed of one.
fn shown(text: &str) -> InlineText<SHOWN>
    ensures { inline_text result ≡ cut_to 200 text.now }
{
    let empty = InlineText::new();
    empty.and_str(text, SHOWN)
}

/// The component at this index.
fn component_at<'a, E: PathStyle>(
    components: Components<'a, E>,
    index: usize,
) -> Option<Component<OsStr<'a, E>>>
    ensures { MatchOption result (length components.entry.items ≤ index)
        (λ component. IsAt components.entry.items index (os_item_of component)) }
{
    let mut left = index;
    for component in components {
        if left == 0 {
            return Some(component);
        }
        left -= 1;
    }
    None
}

/// A component as it is written.
fn component_text<'a, E: PathStyle>(component: Component<OsStr<'a, E>>) -> OsStr<'a, E>
    ensures { bytes result ≡ component_text E.follows (os_item_of component.entry) }
{
    match component {
        Component::Prefix(prefix) => prefix,
        Component::RootDir => OsStr::new(root(E::style())),
        Component::CurDir => OsStr::new("."),
        Component::ParentDir => OsStr::new(".."),
        Component::Normal(name) => name,
    }
}

/// The root as it is written.
fn root(style: Style) -> &'static str
    ensures { result.now ≡ main_separator style ∷ [] }
{
    match style {
        Style::Unix => "/",
        Style::Windows => "\\",
    }
}
