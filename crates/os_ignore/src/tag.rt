//! Tags of lines and of paths. A line is matched only with paths that have its tag.
ghost use Rattle.std.specs.Prelude.{◌≡◌, ◌∷◌, List, [], IfOk, IfSome};
ghost use Rattle.wildcards.specs.declared.part.Part.{Part};
ghost use Rattle.wildcards.specs.declared.piece.Piece.{Piece};
ghost use Rattle.os_ignore.specs.PatternText.{IsPattern};
ghost use Rattle.os_ignore.specs.Tags.{tag_of, IsTagOf, IsDotTag, IsFirstTag, IsExtension};

use crate::component::{split_first, split_last};
use crate::letter::Letter;
use crate::line::read_literal;
use std::alloc::{AllocError, Allocator};

/// A byte for a text, which differs for most others. It is the same without regard to case, so that
/// lines of files that fold have tags too.
#[inline(always)]
pub fn tag_of(text: &[u8]) -> u8
    ensures { result ≡ tag_of text.entry.now }
{
    let mut tag: u8 = 0;
    let mut left = text;
    while let Some((byte, rest)) = left.split_first() {
        tag = tag.wrapping_mul(31).wrapping_add(byte.to_ascii_lowercase());
        left = rest;
    }
    tag
}

/// The tag of what follows the last dot of a path's last component; 0 where that has none.
pub fn dot_tag(name: &[u8]) -> u8
    ensures { IsDotTag name.now result }
{
    match split_last(b'.', name) {
        Some((_, text)) => tag_of(text),
        None => 0,
    }
}

/// The tag of the first component of a path; 0 where that is the only one.
pub fn first_tag(path: &[u8]) -> u8
    ensures { IsFirstTag path.now result }
{
    match split_first(b'/', path) {
        Some((text, _)) => tag_of(text),
        None => 0,
    }
}

/// What follows the last dot of a text that has a dot, and no slash.
fn extension(text: &[u8]) -> Option<&[u8]>
    ensures { IfSome result (λ extension. IsExtension text.now extension.now) }
{
    match split_first(b'/', text) {
        Some(_) => None,
        None => match split_last(b'.', text) {
            Some((_, extension)) => Some(extension),
            None => None,
        },
    }
}

/// The tag of a line that matches its literal alone.
fn whole_tag<A: Allocator>(folds: bool, anchored: bool, literal: &[u8]) -> u8
    ensures { (pattern : List (Piece (Part A))) → IsPattern folds [] pattern
        → IsTagOf folds anchored literal.now pattern result }
{
    if !anchored {
        return tag_of(literal);
    }
    match split_last(b'/', literal) {
        Some((_, name)) => tag_of(name),
        None => tag_of(literal),
    }
}

/// The tag of a line whose pattern is this letter and these. If they are a `*` and letters that match
/// themselves, none a slash, it is the tag of what follows the last dot. Otherwise it is 0, which each
/// path has.
fn suffix_tag<A: Allocator + Copy>(
    alloc: A,
    folds: bool,
    anchored: bool,
    literal: &[u8],
    star: Letter,
    rest: &[Letter],
) -> Result<u8, AllocError>
    ensures { IfOk result (λ tag. (pattern : List (Piece (Part A)))
        → IsPattern folds (star ∷ rest.now) pattern
        → IsTagOf folds anchored literal.now pattern tag) }
{
    let (suffix, left) = read_literal(alloc, folds, rest)?;
    if !star.is_plain(b'*') || !left.is_empty() {
        return Ok(0);
    }
    match extension(&suffix) {
        Some(text) => Ok(tag_of(text)),
        None => Ok(0),
    }
}

/// The tag of a line, by its literal and the letters that come after that.
pub fn line_tag<A: Allocator + Copy>(
    alloc: A,
    folds: bool,
    anchored: bool,
    literal: &[u8],
    rest: &[Letter],
) -> Result<u8, AllocError>
    ensures { IfOk result (λ tag. (pattern : List (Piece (Part A)))
        → IsPattern folds rest.now pattern → IsTagOf folds anchored literal.now pattern tag) }
{
    if anchored {
        if let Some((text, _)) = split_first(b'/', literal) {
            return Ok(tag_of(text));
        }
    }
    match rest.split_first() {
        Some((star, more)) => suffix_tag(alloc, folds, anchored, literal, *star, more),
        None => Ok(whole_tag::<A>(folds, anchored, literal)),
    }
}
