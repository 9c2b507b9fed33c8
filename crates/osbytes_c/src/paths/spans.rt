//! A part of a path, by where it starts and ends.
ghost use Rattle.std.specs.Prelude.{◌≡◌, ◌≤◌, ℕ, List, length, MatchOption, IfSome};
ghost use Rattle.path_rules.specs.Parent.{HasNoParent};
ghost use Rattle.path_rules.specs.Prefix.{IsPrefixed};
ghost use Rattle.path_rules.specs.Name.{IsStem, IsExtension, HasNoExtension};
ghost use Rattle.osbytes_c.specs.PathParts.{HasNoLastName};
ghost use Rattle.osbytes_c.specs.PathSpans.{HasNoExtensionSpan, HasNoPart, IsExtensionSpan, IsNameSpan, IsParentSpan, IsPartSpan, IsPrefixSpan, IsStemSpan, IsWithin};
ghost use Rattle.osbytes_c.specs.Steps.{part};

use crate::paths::parts::last_name;
use crate::span::Span;
use path_rules::{Style, extension, parent, stem, windows_prefix};

/// Which part of a path is sought.
#[derive(Clone, Copy)]
pub(crate) enum Sought {
    /// The path without its last component.
    Parent,
    /// The prefix of a Windows path.
    Prefix,
    /// The last component, if it is a name.
    FileName,
    /// That name without its extension and the dot before it.
    Stem,
    /// The extension of that name, after its dot.
    Extension,
}

/// Where a part of a path is.
pub(crate) fn span_of(sought: Sought, style: Style, path: &[u8]) -> Option<Span>
    ensures part { MatchOption result (HasNoPart sought style path.now)
        (λ span. IsPartSpan sought style path.now span) }
    ensures within { IfSome result (λ span. IsWithin path.now span) }
{
    match sought {
        Sought::Parent => parent_span(style, path),
        Sought::Prefix => prefix_span(style, path),
        Sought::FileName => name_span(style, path),
        Sought::Stem => stem_span(style, path),
        Sought::Extension => extension_span(style, path),
    }
}

fn parent_span(style: Style, path: &[u8]) -> Option<Span>
    ensures part { MatchOption result (HasNoParent style path.now)
        (λ span. IsParentSpan style path.now span) }
    ensures within { IfSome result (λ span. IsWithin path.now span) }
{
    let above = parent(style, path)?;
    Some(Span {
        start: 0,
        end: above.len(),
    })
}

fn prefix_span(style: Style, path: &[u8]) -> Option<Span>
    ensures part { MatchOption result (¬ (IsPrefixed style path.now))
        (λ span. IsPrefixSpan style path.now span) }
    ensures within { IfSome result (λ span. IsWithin path.now span) }
{
    match style {
        Style::Unix => None,
        Style::Windows => windows_prefix_span(path),
    }
}

fn windows_prefix_span(path: &[u8]) -> Option<Span>
    ensures part { MatchOption result (¬ (IsPrefixed Style.Windows path.now))
        (λ span. IsPrefixSpan Style.Windows path.now span) }
    ensures within { IfSome result (λ span. IsWithin path.now span) }
{
    let Some((_, rest)) = windows_prefix(path) else {
        return None;
    };
    Some(Span {
        start: 0,
        end: path.len() - rest.len(),
    })
}

fn name_span(style: Style, path: &[u8]) -> Option<Span>
    ensures part { MatchOption result (HasNoLastName style path.now)
        (λ span. IsNameSpan style path.now span) }
    ensures within { IfSome result (λ span. IsWithin path.now span) }
{
    let Some(name) = last_name(style, path) else {
        return None;
    };
    Some(Span {
        start: name.start,
        end: name.end,
    })
}

fn stem_span(style: Style, path: &[u8]) -> Option<Span>
    ensures part { MatchOption result (HasNoLastName style path.now)
        (λ span. IsStemSpan style path.now span) }
    ensures within { IfSome result (λ span. IsWithin path.now span) }
{
    let Some(name) = name_span(style, path) else {
        return None;
    };
    Some(stem_in(path, name.start, name.end))
}

/// The stem of the name that is there in a path.
fn stem_in(path: &[u8], start: usize, end: usize) -> Span
    requires { (start ≤ end) × (end ≤ length path.now) }
    ensures start { result.start ≡ start }
    ensures stem { IsStem (part path.now start end) (part path.now result.start result.end) }
    ensures within { (start ≤ result.end) × (result.end ≤ end) }
{
    let (upto, _) = path.split_at(end);
    let (_, name) = upto.split_at(start);
    Span {
        start,
        end: start + stem(name).len(),
    }
}

fn extension_span(style: Style, path: &[u8]) -> Option<Span>
    ensures part { MatchOption result (HasNoExtensionSpan style path.now)
        (λ span. IsExtensionSpan style path.now span) }
    ensures within { IfSome result (λ span. IsWithin path.now span) }
{
    let name = name_span(style, path)?;
    extension_in(path, name.start, name.end)
}

/// The extension of the name that is there in a path.
fn extension_in(path: &[u8], start: usize, end: usize) -> Option<Span>
    requires { (start ≤ end) × (end ≤ length path.now) }
    ensures extension { MatchOption result (HasNoExtension (part path.now start end))
        (λ span. (stem : List ℕ) × IsExtension (part path.now start end) stem
        (part path.now span.start span.end)) }
    ensures within { IfSome result (λ span. (span.end ≡ end) × (span.start ≤ end)) }
{
    let (upto, _) = path.split_at(end);
    let (_, name) = upto.split_at(start);
    let Some(found) = extension(name) else {
        return None;
    };
    Some(Span {
        start: end - found.len(),
        end,
    })
}
