//! Beginnings of paths that Windows reads otherwise than by components.
ghost use Rattle.std.specs.Prelude.{◌≡◌, ◌↔◌, ◌⊎◌, [], ◌∷◌, map, IsTrue};
ghost use Rattle.path_rules.specs.Parsed.{FoundOr, kind_found};
ghost use Rattle.path_rules.specs.Views.{item_of};
ghost use Rattle.path_building.specs.Normalized.{IsColonName, BeginsWithColon};
ghost use Rattle.path_building.specs.Beginning.{has_colon, BeginsTwice, BeginsAsShare, FirstHasColon, IsOddKind, BareBeginsOddly, BeginsOddly};

use path_rules::parts::{Parsed, begins_with_separator};
use path_rules::{Component, Prefix, Rules, Style};

/// Whether a path rewritten by its components could name another file on Windows.
#[tactic(auto, using(crate::proofs::lemmas::Beginnings::odd_found))]
pub(crate) fn begins_oddly(path: &Parsed<'_>) -> bool
    ensures { IsTrue result ↔ BeginsOddly path.now.style path.now.whole.now }
{
    is_odd(path.style, path.prefix, path.rest)
}

/// Whether one of two paths begins oddly.
pub(crate) fn is_one_odd(style: Style, path: &[u8], base: &[u8]) -> bool
    ensures { IsTrue result ↔ (BeginsOddly style path.now ⊎ BeginsOddly style base.now) }
{
    path_begins_oddly(style, path) || path_begins_oddly(style, base)
}

fn path_begins_oddly(style: Style, path: &[u8]) -> bool
    ensures { IsTrue result ↔ BeginsOddly style path.now }
{
    begins_oddly(&Parsed::new(style, path))
}

/// Whether a path begins as one with a share does on Windows.
pub(crate) fn begins_as_share(style: Style, path: &[u8]) -> bool
    ensures { IsTrue result ↔ BeginsAsShare style path.now }
{
    match style {
        Style::Unix => false,
        Style::Windows => begins_twice(path),
    }
}

fn is_odd(style: Style, prefix: Option<Prefix<&[u8]>>, rest: &[u8]) -> bool
    ensures { IsTrue result ↔ FoundOr (BareBeginsOddly style) (λ kind _. IsOddKind kind)
        (kind_found prefix.entry) rest.now }
{
    match prefix {
        Some(Prefix::Device(_)) => true,
        Some(Prefix::Unc(server, _)) => is_question_mark(server),
        Some(_) => false,
        None => match style {
            Style::Unix => false,
            Style::Windows => begins_twice(rest) || first_has_colon(rest),
        },
    }
}

/// Whether the name before the first separator has a colon.
fn first_has_colon(path: &[u8]) -> bool
    ensures { IsTrue result ↔ FirstHasColon path.now }
{
    has_colon(Rules::Either.split_field(path).0)
}

pub(crate) fn has_colon(name: &[u8]) -> bool
    ensures { result ≡ has_colon name.now }
{
    name.iter().any(|b| *b == b':')
}

pub(crate) fn begins_twice(path: &[u8]) -> bool
    ensures { IsTrue result ↔ BeginsTwice path.now }
{
    match path {
        [a, rest @ ..] => Rules::Either.is_separator(*a)
            && begins_with_separator(Rules::Either, rest),
        [] => false,
    }
}

pub(crate) fn is_question_mark(name: &[u8]) -> bool
    ensures { IsTrue result ↔ (name.now ≡ 0x3F ∷ []) }
{
    matches!(name, [b'?'])
}

/// Whether the first component is a name with a colon.
pub(crate) fn begins_with_colon(style: Style, names: &[Component<&[u8]>]) -> bool
    ensures { IsTrue result ↔ BeginsWithColon style (map item_of names.now) }
{
    match names {
        [Component::Normal(name), ..] => is_colon_name(style, name),
        _ => false,
    }
}

/// Whether Windows would read a name as a drive, or with a stream, at the start of a path.
pub(crate) fn is_colon_name(style: Style, name: &[u8]) -> bool
    ensures { IsTrue result ↔ IsColonName style name.now }
{
    match style {
        Style::Unix => false,
        Style::Windows => has_colon(name),
    }
}
