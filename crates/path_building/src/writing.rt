//! Paths written from their parts.
ghost use Rattle.std.specs.Prelude.{◌≡◌, ◌++◌, ◌∷◌, [], ◌↔◌, IsTrue, IfOk, OnOk, map};
ghost use Rattle.path_rules.specs.declared.rules.Style.TheVariants as whose;
ghost use Rattle.path_rules.specs.declared.head.Start.TheVariants.{Root};
ghost use Rattle.path_rules.specs.StyleRules.{main_separator};
ghost use Rattle.path_rules.specs.Parsed.{KindFound, kind_found};
ghost use Rattle.path_rules.specs.Prefix.{HasKind};
ghost use Rattle.path_rules.specs.Views.{item_of};
ghost use Rattle.path_building.specs.Cleaned.{begins_as_verbatim, separated_by, one_spelling};
ghost use Rattle.path_building.specs.Written.{spelling, more_names, joined_names, LacksShare, object_dir};
ghost use Rattle.path_building.specs.Spelled.{root_bytes, start_bytes, after_bytes, ObjectNext};

use path_rules::parts::{Parsed, Start};
use path_rules::{Component, Prefix, Rules, Style};
use std::alloc::{AllocError, Allocator};

/// Writes a path of a prefix, a start and names. It allocates `capacity` bytes, and more if the
/// path is longer.
pub(crate) fn written<A: Allocator>(
    alloc: A,
    capacity: usize,
    separator: u8,
    prefix: &[u8],
    start: Start,
    doubled: bool,
    names: &[Component<&[u8]>],
) -> Result<Vec<u8, A>, AllocError>
    ensures { IfOk result (λ path. path.items
        ≡ prefix.now ++ after_bytes separator start doubled (map item_of names.now)) }
{
    let mut path = Vec::with_capacity(alloc, capacity)?;
    path.extend_from_slice(prefix)?;
    push_after(&mut path, separator, start, doubled, names)?;
    Ok(path)
}

/// Two texts, one after the other.
pub(crate) fn both<A: Allocator>(
    alloc: A,
    first: &[u8],
    second: &[u8],
) -> Result<Vec<u8, A>, AllocError>
    ensures { IfOk result (λ both. both.items ≡ first.now ++ second.now) }
{
    let mut both = Vec::with_capacity(alloc, first.len() + second.len())?;
    both.extend_from_slice(first)?;
    both.extend_from_slice(second)?;
    Ok(both)
}

/// Appends what follows a prefix: a start and names.
pub(crate) fn push_after<A: Allocator>(
    path: &mut Vec<u8, A>,
    separator: u8,
    start: Start,
    doubled: bool,
    names: &[Component<&[u8]>],
) -> Result<(), AllocError>
    ensures { OnOk result (path.new.items
        ≡ path.old.items ++ after_bytes separator start doubled (map item_of names.now)) }
{
    push_start(path, separator, start, doubled, names)?;
    push_names(path, separator, names)
}

/// Appends a prefix in one spelling.
pub(crate) fn push_spelled<A: Allocator>(
    path: &mut Vec<u8, A>,
    prefix: &[u8],
) -> Result<(), AllocError>
    ensures { OnOk result (path.new.items ≡ path.old.items ++ one_spelling prefix.now) }
{
    let separator = if begins_as_verbatim(prefix) {
        b'/'
    } else {
        b'\\'
    };
    push_separated(path, prefix, separator)
}

/// Appends bytes with a separator instead of each.
fn push_separated<A: Allocator>(
    path: &mut Vec<u8, A>,
    bytes: &[u8],
    separator: u8,
) -> Result<(), AllocError>
    ensures { OnOk result (path.new.items ≡ path.old.items ++ separated_by separator bytes.now) }
{
    for byte in bytes {
        let one = if Rules::Either.is_separator(*byte) {
            separator
        } else {
            *byte
        };
        push_one(path, one)?;
    }
    Ok(())
}

/// Whether bytes begin with `\\?\`, but for the spelling of the separators.
fn begins_as_verbatim(bytes: &[u8]) -> bool
    ensures { result ≡ begins_as_verbatim bytes.now }
{
    match bytes {
        [a, b, c, d, ..] => {
            Rules::Either.is_separator(*a)
                && Rules::Either.is_separator(*b)
                && *c == b'?'
                && Rules::Either.is_separator(*d)
        }
        _ => false,
    }
}

/// Appends a byte.
#[inline(always)]
fn push_one<A: Allocator>(path: &mut Vec<u8, A>, byte: u8) -> Result<(), AllocError>
    ensures { OnOk result (path.new.items ≡ path.old.items ++ byte ∷ []) }
{
    path.push(byte)?;
    Ok(())
}

/// The part that a component is written as.
#[inline(always)]
fn spelling(item: Component<&[u8]>) -> &[u8]
    ensures { result.now ≡ spelling (item_of item.entry) }
{
    match item {
        Component::CurDir => b".".as_slice(),
        Component::ParentDir => b"..".as_slice(),
        Component::Normal(name) => name,
        _ => b"".as_slice(),
    }
}

/// Appends what is written before the names.
fn push_start<A: Allocator>(
    path: &mut Vec<u8, A>,
    separator: u8,
    start: Start,
    doubled: bool,
    names: &[Component<&[u8]>],
) -> Result<(), AllocError>
    ensures { OnOk result (path.new.items
        ≡ path.old.items ++ start_bytes separator start doubled (map item_of names.now)) }
{
    match start {
        Start::Root => match names {
            [] => push_one(path, separator)?,
            _ => push_root(path, separator, doubled)?,
        },
        Start::Dot => match names {
            [] => push_one(path, b'.')?,
            _ => path.extend_from_slice(&[b'.', separator])?,
        },
        Start::Nothing => {}
    }
    Ok(())
}

/// Appends the root before names.
fn push_root<A: Allocator>(
    path: &mut Vec<u8, A>,
    separator: u8,
    doubled: bool,
) -> Result<(), AllocError>
    ensures { OnOk result (path.new.items ≡ path.old.items ++ root_bytes separator doubled) }
{
    if doubled {
        path.extend_from_slice(&[separator, separator])?;
        return Ok(());
    }
    push_one(path, separator)
}

/// Appends names with separators between them.
pub(crate) fn push_names<A: Allocator>(
    path: &mut Vec<u8, A>,
    separator: u8,
    names: &[Component<&[u8]>],
) -> Result<(), AllocError>
    ensures { OnOk result (path.new.items
        ≡ path.old.items ++ joined_names separator (map item_of names.now)) }
{
    let [first, more @ ..] = names else {
        return Ok(());
    };
    path.extend_from_slice(spelling(*first))?;
    push_more(path, separator, more)
}

/// Appends names, each after a separator.
fn push_more<A: Allocator>(
    path: &mut Vec<u8, A>,
    separator: u8,
    names: &[Component<&[u8]>],
) -> Result<(), AllocError>
    ensures { OnOk result (path.new.items
        ≡ path.old.items ++ more_names separator (map item_of names.now)) }
{
    for name in names {
        push_one(path, separator)?;
        path.extend_from_slice(spelling(*name))?;
    }
    Ok(())
}

/// What is written before the start: the prefix, or `\.` before a root after which the name `??` comes.
pub(crate) fn before_start<'a>(
    style: Style,
    prefix: &'a [u8],
    start: Start,
    names: &[Component<&[u8]>],
) -> &'a [u8]
    ensures kept { ¬ (ObjectNext style prefix.entry.now start (map item_of names.now))
        → result.now ≡ prefix.entry.now }
    ensures apart { ObjectNext style prefix.entry.now start (map item_of names.now)
        → result.now ≡ main_separator style ∷ 0x2E ∷ [] }
{
    if is_object_next(style, prefix, start, names) {
        return br"\.".as_slice();
    }
    prefix
}

/// Whether a root without a prefix comes before the name `??`.
fn is_object_next(style: Style, prefix: &[u8], start: Start, names: &[Component<&[u8]>]) -> bool
    ensures { IsTrue result ↔ ObjectNext style prefix.now start (map item_of names.now) }
{
    match style {
        Style::Unix => false,
        Style::Windows => match prefix {
            [] => is_object_at(start, names),
            _ => false,
        },
    }
}

fn is_object_at(start: Start, names: &[Component<&[u8]>]) -> bool
    ensures { IsTrue result ↔ ObjectNext whose.Windows [] start (map item_of names.now) }
{
    match start {
        Start::Root => begins_with_object(names),
        _ => false,
    }
}

fn begins_with_object(names: &[Component<&[u8]>]) -> bool
    ensures { IsTrue result ↔ ObjectNext whose.Windows [] Root (map item_of names.now) }
{
    match names {
        [Component::Normal(name), ..] => is_object_dir(name),
        _ => false,
    }
}

fn is_object_dir(name: &[u8]) -> bool
    ensures { IsTrue result ↔ (name.now ≡ object_dir) }
{
    match name {
        [a, b] => *a == b'?' && *b == b'?',
        _ => false,
    }
}

/// Whether a path begins with a prefix `\\?\UNC\server` without a share: a name that follows it
/// after one separator would be its share.
#[tactic(auto, using(path_rules::proofs::lemmas::Parsings::has_kind))]
pub(crate) fn has_empty_share(path: &Parsed<'_>) -> bool
    ensures { IsTrue result ↔ HasKind path.now.style path.now.whole.now LacksShare }
{
    is_without_share(path.prefix)
}

fn is_without_share(prefix: Option<Prefix<&[u8]>>) -> bool
    ensures { IsTrue result ↔ KindFound LacksShare (kind_found prefix.entry) }
{
    match prefix {
        Some(Prefix::VerbatimUnc(_, share)) => share.is_empty(),
        _ => false,
    }
}
