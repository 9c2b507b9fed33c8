//! What a path needs to be matched by a pattern.
ghost use Rattle.std.specs.Prelude.{◌≡◌, ◌≤◌, ◌++◌, ◌∷◌, length, IsTrue, IfOk, IfSome, OnOk};
ghost use Rattle.wildcards.specs.Extensions.{LacksDot};
ghost use Rattle.wildcards.specs.Keys.{IsNeeded, EndsWith, AreOfPart, IsOfEnd, AreJoinedTexts, IsBetween, joins_by_slash, key_separators, slash_before};
ghost use Rattle.wildcards.specs.declared.piece.Item.TheVariants.{Literal};
ghost use Rattle.wildcards.specs.declared.piece.Piece.TheVariants.{One};
ghost use Rattle.wildcards.specs.declared.separators.Separators.TheVariants.{None};

use crate::component::is_plain;
use crate::literal::{is_literal, literal_text};
use crate::options::Options;
use crate::part::Part;
use crate::piece::{Item, Piece};
use crate::separators::Separators;
use memchr::memchr;
use std::alloc::{AllocError, Allocator};

/// What a key is of a path.
#[derive(Clone, Copy, PartialEq, Eq)]
pub(crate) enum Kind {
    /// The whole path.
    Path,
    /// A component, or its first letters; of a path that is a component itself, one between `/`.
    Component,
    /// The last component, or its first letters.
    Name,
    /// What comes after the last dot of the last component.
    Extension,
    /// The last letters of the last component.
    End,
}

/// A text that each path has which a pattern matches.
#[derive(Drop)]
pub(crate) struct Key<A: Allocator> {
    pub kind: Kind,
    /// How many letters of a component it is; 0 if that is stated by its kind, or it is the whole.
    pub size: usize,
    pub text: Vec<u8, A>,
}

/// Whether a path is its components joined by `/`.
fn joins_by_slash(separators: Separators) -> bool
    ensures { result ≡ joins_by_slash separators }
{
    match separators {
        Separators::None => true,
        Separators::Slash => true,
        Separators::SlashAndBackslash => false,
    }
}

/// What separates the components that are looked up. A path that is one component has those between
/// `/`.
#[inline(always)]
pub(crate) fn key_separators(separators: Separators) -> Separators
    ensures { result ≡ key_separators separators }
{
    match separators {
        Separators::None => Separators::Slash,
        Separators::Slash => Separators::Slash,
        Separators::SlashAndBackslash => Separators::SlashAndBackslash,
    }
}

/// Adds `/` to a text, unless the next text is the first.
fn push_slash<A: Allocator>(text: &mut Vec<u8, A>, first: bool) -> Result<(), AllocError>
    ensures { OnOk result (text.new.items ≡ text.old.items ++ slash_before first) }
{
    if first {
        return Ok(());
    }
    text.push(b'/')?;
    Ok(())
}

/// The texts of all parts, joined by `/`, if each part has one.
fn joined_texts<A: Allocator + Copy>(
    alloc: A,
    pieces: &[Piece<Part<A>>],
) -> Result<Option<Vec<u8, A>>, AllocError>
    ensures { IfOk result (λ text. IfSome text (λ text. AreJoinedTexts pieces.entry.now
        text.items)) }
{
    let mut text = Vec::new(alloc);
    let mut first = true;
    let mut left = pieces;
    while let Some((piece, rest)) = left.split_first() {
        let Piece::One(part) = piece else {
            return Ok(None);
        };
        let Some(own) = literal_text(alloc, part.pieces())? else {
            return Ok(None);
        };
        push_slash(&mut text, first)?;
        text.extend_from_slice(&own)?;
        first = false;
        left = rest;
    }
    Ok(Some(text))
}

/// How many literals of ASCII pieces begin with, of at most four.
fn literal_prefix<A: Allocator>(pieces: &[Piece<Item<A>>]) -> usize
    ensures { result ≤ length pieces.now }
{
    let mut count = 0;
    while count < pieces.len() && count < 4 {
        if !is_literal(&pieces[count]) {
            return count;
        }
        count += 1;
    }
    count
}

/// How many letters of a component a part states: all, or two to four of the first; else none.
fn letter_count<A: Allocator>(part: &Part<A>) -> usize {
    if let Some(text) = part.text() {
        return text.len();
    }
    let count = literal_prefix(part.pieces());
    if count < 2 {
        return 0;
    }
    count
}

/// The index of the part that states the most letters; that of the last one, of several.
fn longest_text<A: Allocator>(pieces: &[Piece<Part<A>>]) -> usize
    ensures { result ≤ length pieces.now }
{
    let mut longest = 0;
    let mut most = 0;
    let mut at = 0;
    while at < pieces.len() {
        if let Piece::One(part) = &pieces[at] {
            let count = letter_count(part);
            if count >= most {
                longest = at;
                most = count;
            }
        }
        at += 1;
    }
    longest
}

/// The index of the literals of ASCII at the end of pieces.
fn literal_suffix<A: Allocator>(pieces: &[Piece<Item<A>>]) -> usize
    ensures { result ≤ length pieces.now }
{
    let mut at = pieces.len();
    while at > 0 {
        if !is_literal(&pieces[at - 1]) {
            return at;
        }
        at -= 1;
    }
    at
}

/// The literals of ASCII with which each last component ends that the last part matches, if that isn't
/// a text itself.
fn literal_end<A: Allocator + Copy>(
    alloc: A,
    options: Options,
    pieces: &[Piece<Part<A>>],
) -> Result<Option<Vec<u8, A>>, AllocError>
    ensures { IfOk result (λ text. IfSome text (λ text. EndsWith options pieces.entry.now
        text.items)) }
{
    let Some((Piece::One(part), _)) = pieces.split_last() else {
        return Ok(None);
    };
    if part.text().is_some() {
        return Ok(None);
    }
    let own = part.pieces();
    let (_, suffix) = own.split_at(literal_suffix(own));
    literal_text(alloc, suffix)
}

/// Whether no dot is in a text.
fn lacks_dot(text: &[u8]) -> bool
    ensures { IsTrue result → LacksDot text.now }
{
    memchr(b'.', text).is_none()
}

/// Returns the key of each last component that ends with a text. It is the extension if the text is
/// a dot followed by one. Otherwise it is its last letters, at most four: each number of letters is
/// looked up.
fn key_of_end<A: Allocator>(alloc: A, text: &[u8]) -> Result<Option<Key<A>>, AllocError>
    ensures { IfOk result (λ key. IfSome key (λ key. IsOfEnd text.now key.kind key.size
        key.text.items)) }
{
    if let Some((b'.', extension)) = text.split_first() {
        if lacks_dot(extension) {
            let own = Vec::from_slice(alloc, extension)?;
            return Ok(Some(Key {
                kind: Kind::Extension,
                size: 0,
                text: own,
            }));
        }
    }
    let (_, suffix) = text.split_at(text.len().saturating_sub(4));
    if suffix.len() < 2 {
        return Ok(None);
    }
    let own = Vec::from_slice(alloc, suffix)?;
    Ok(Some(Key {
        kind: Kind::End,
        size: suffix.len(),
        text: own,
    }))
}

/// The key of the last component, by the literals with which it ends.
fn end_key<A: Allocator + Copy>(
    alloc: A,
    options: Options,
    pieces: &[Piece<Part<A>>],
) -> Result<Option<Key<A>>, AllocError>
    ensures { IfOk result (λ key. IfSome key (λ key. IsNeeded options pieces.entry.now key.kind
        key.size key.text.items)) }
{
    let Some(text) = literal_end(alloc, options, pieces)? else {
        return Ok(None);
    };
    key_of_end(alloc, &text)
}

/// Whether a piece is `/`.
fn is_slash<A: Allocator>(piece: &Piece<Item<A>>) -> bool
    ensures { IsTrue result → piece.now ≡ One (Literal 0x2F) }
{
    match piece {
        Piece::One(Item::Literal(letter)) => *letter == 0x2F,
        _ => false,
    }
}

/// Returns the pieces on both sides of the first `/`, if there is one.
fn split_at_slash<A: Allocator>(
    pieces: &[Piece<Item<A>>],
) -> Option<(&[Piece<Item<A>>], &[Piece<Item<A>>])>
    ensures { IfSome result (λ parts. pieces.now ≡ parts.0.now ++ One (Literal 0x2F)
        ∷ parts.1.now) }
{
    let mut at = 0;
    while at < pieces.len() {
        let (before, rest) = pieces.split_at(at);
        if let Some((piece, after)) = rest.split_first() {
            if is_slash(piece) {
                return Some((before, after));
            }
        }
        at += 1;
    }
    None
}

/// The longest text after a `/` or the start, and before another `/`.
fn longest_between<A: Allocator + Copy>(
    alloc: A,
    pieces: &[Piece<Item<A>>],
) -> Result<Option<Vec<u8, A>>, AllocError>
    ensures { IfOk result (λ text. IfSome text (λ text. IsBetween pieces.entry.now text.items)) }
{
    let mut longest = None;
    let mut size = 0;
    let mut left = pieces;
    while let Some((own, after)) = split_at_slash(left) {
        left = after;
        if let Some(text) = literal_text(alloc, own)? {
            if text.len() > size && is_plain(&text) {
                size = text.len();
                longest = Some(text);
            }
        }
    }
    Ok(longest)
}

/// The longest text between `/` that a path needs which is one component.
fn between_key<A: Allocator + Copy>(
    alloc: A,
    options: Options,
    pieces: &[Piece<Part<A>>],
) -> Result<Option<Key<A>>, AllocError>
    requires { options.separators ≡ None }
    ensures { IfOk result (λ key. IfSome key (λ key. IsNeeded options pieces.entry.now key.kind
        key.size key.text.items)) }
{
    let Some((Piece::One(part), rest)) = pieces.split_first() else {
        return Ok(None);
    };
    if !rest.is_empty() {
        return Ok(None);
    }
    let Some(text) = longest_between(alloc, part.pieces())? else {
        return Ok(None);
    };
    Ok(Some(Key {
        kind: Kind::Component,
        size: 0,
        text,
    }))
}

/// The key of the component that a part matches: the text that the part is, or the letters with
/// which it begins.
fn part_key<A: Allocator + Copy>(
    alloc: A,
    kind: Kind,
    part: &Part<A>,
) -> Result<Option<Key<A>>, AllocError>
    ensures { IfOk result (λ key. IfSome key (λ key. (key.kind ≡ kind) × AreOfPart part.now key.size
        key.text.items)) }
{
    if let Some(own) = part.text() {
        let text = Vec::from_slice(alloc, own)?;
        return Ok(Some(Key {
            kind,
            size: 0,
            text,
        }));
    }
    let own = part.pieces();
    let (first, _) = own.split_at(literal_prefix(own));
    let Some(text) = literal_text(alloc, first)? else {
        return Ok(None);
    };
    if text.len() < 2 {
        return Ok(None);
    }
    let size = text.len();
    Ok(Some(Key { kind, size, text }))
}

/// The key of the part that states the most letters of its component.
fn component_key<A: Allocator + Copy>(
    alloc: A,
    options: Options,
    pieces: &[Piece<Part<A>>],
) -> Result<Option<Key<A>>, AllocError>
    requires { options.separators ≡ None → ⊥ }
    ensures { IfOk result (λ key. IfSome key (λ key. IsNeeded options pieces.entry.now key.kind
        key.size key.text.items)) }
{
    let (_, rest) = pieces.split_at(longest_text(pieces));
    let Some((Piece::One(part), after)) = rest.split_first() else {
        return Ok(None);
    };
    let kind = if after.is_empty() {
        Kind::Name
    } else {
        Kind::Component
    };
    part_key(alloc, kind, part)
}

/// The key of a pattern, if it has one.
pub(crate) fn key_of<A: Allocator + Copy>(
    alloc: A,
    options: Options,
    pieces: &[Piece<Part<A>>],
) -> Result<Option<Key<A>>, AllocError>
    ensures { IfOk result (λ key. IfSome key (λ key. IsNeeded options pieces.entry.now key.kind
        key.size key.text.items)) }
{
    if joins_by_slash(options.separators) {
        if let Some(text) = joined_texts(alloc, pieces)? {
            return Ok(Some(Key {
                kind: Kind::Path,
                size: 0,
                text,
            }));
        }
    }
    if let Some(key) = end_key(alloc, options, pieces)? {
        return Ok(Some(key));
    }
    if options.separators == Separators::None {
        return between_key(alloc, options, pieces);
    }
    component_key(alloc, options, pieces)
}
