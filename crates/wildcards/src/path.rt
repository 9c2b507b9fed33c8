//! A pattern against a path, from separator to separator.
ghost use Rattle.memchr.specs.Find.{Nowhere, OccursAt};
ghost use Rattle.std.specs.Prelude.{◌≡◌, ◌↔◌, ◌∷◌, ◌+◌, length, Some, IsTrue, MatchOption};
ghost use Rattle.wildcards.specs.declared.options.Options.{Options};
ghost use Rattle.wildcards.specs.declared.piece.Piece.TheVariants.{Many};
ghost use Rattle.wildcards.specs.Cuts.{left_components, IsLeftFormed};
ghost use Rattle.wildcards.specs.Match.{MatchesParts, Matches};
ghost use Rattle.wildcards.specs.PathSteps.{PathStepSays, NeverMatches, AreLastComponentsMatched};

use crate::component::{split_first, split_last};
use crate::hidden::is_hidden;
use crate::letters::Letters;
use crate::options::Options;
use crate::part::Part;
use crate::piece::Piece;
use crate::run;
use memchr::memmem;
use std::alloc::Allocator;

/// How far pieces match, up to the first `**`.
#[derive(Clone, Copy)]
enum Step<'p, 'a, A: Allocator> {
    /// To their end, which is also the end of the path.
    All,
    /// Not far enough.
    Differs,
    /// To `**`; these are the pieces after it, and what is left of the path.
    Many(&'p [Piece<Part<A>>], Option<&'a [u8]>),
}

/// Matches pieces up to the first `**`.
#[inline(always)]
fn up_to_many<'p, 'a, L: Letters, A: Allocator>(
    options: Options,
    pieces: &'p [Piece<Part<A>>],
    path: Option<&'a [u8]>,
) -> Step<'p, 'a, A>
    requires { IsLeftFormed L.formed path }
    ensures { PathStepSays L.formed L.letters options pieces.entry.now path.entry result }
{
    let mut left = pieces;
    let mut from = path;
    while let Some((first, rest)) = left.split_first() {
        match first {
            Piece::Many => return Step::Many(rest, from),
            Piece::One(part) => {
                let Some(path) = from else {
                    return Step::Differs;
                };
                let Some(more) = part.strip_first::<L>(options, path) else {
                    return Step::Differs;
                };
                left = rest;
                from = more;
            }
        }
    }
    match from {
        None => Step::All,
        Some(_) => Step::Differs,
    }
}

/// Whether bytes have a text nowhere. It isn't inlined, since few paths are searched.
#[inline(never)]
fn lacks(bytes: &[u8], text: &[u8]) -> bool
    ensures { IsTrue result → Nowhere (OccursAt bytes.now text.now) 0 (length bytes.now + 1) }
{
    match memmem::find(bytes, text) {
        None => true,
        Some(_) => false,
    }
}

/// Whether the first piece is a part that is a text, which is nowhere in what is left of a path. Then
/// no component is the text. A search takes as long to make as a few components take to walk, so
/// fewer than 128 bytes aren't searched.
#[inline(always)]
fn lacks_text<L: Letters, A: Allocator>(pieces: &[Piece<Part<A>>], path: Option<&[u8]>) -> bool
    requires { IsLeftFormed L.formed path }
    ensures { IsTrue result → (options : Options) → ¬ (MatchesParts options.literal_leading_dot
        (Many ∷ pieces.now) (left_components L.letters options.separators path.entry)) }
{
    let Some(path) = path else {
        return false;
    };
    if path.len() < 128 {
        return false;
    }
    let Some((Piece::One(part), _)) = pieces.split_first() else {
        return false;
    };
    match part.text() {
        Some(text) => lacks(path, text),
        None => false,
    }
}

/// Whether pieces match after any number of components.
fn is_after_many<L: Letters, A: Allocator>(
    options: Options,
    pieces: &[Piece<Part<A>>],
    path: Option<&[u8]>,
) -> bool
    requires { IsLeftFormed L.formed path }
    ensures { IsTrue result ↔ MatchesParts options.literal_leading_dot (Many ∷ pieces.entry.now)
        (left_components L.letters options.separators path.entry) }
{
    if lacks_text::<L, A>(pieces, path) {
        return false;
    }
    let mut left = pieces;
    let mut from = path;
    loop {
        if left.is_empty() && !options.literal_leading_dot {
            return true;
        }
        match up_to_many::<L, A>(options, left, from) {
            Step::All => return true,
            Step::Many(after, rest) => {
                left = after;
                from = rest;
            }
            Step::Differs => {
                let Some(path) = from else {
                    return false;
                };
                let (component, more) = split_first::<L>(options.separators, path);
                if is_hidden::<L>(options.literal_leading_dot, component) {
                    return false;
                }
                from = more;
            }
        }
    }
}

/// Matches pieces from the last on, up to `**`; what is left matches exactly where all do, whatever
/// pieces come before.
#[inline(always)]
fn match_last<'p, 'a, L: Letters, A: Allocator>(
    options: Options,
    pieces: &'p [Piece<Part<A>>],
    path: Option<&'a [u8]>,
) -> Option<(&'p [Piece<Part<A>>], Option<&'a [u8]>)>
    requires { IsLeftFormed L.formed path }
    ensures { MatchOption result
        (NeverMatches L.formed L.letters options pieces.entry.now path.entry)
        (λ left. AreLastComponentsMatched L.formed L.letters options pieces.entry.now path.entry
        left.0.now left.1) }
{
    let mut left = pieces;
    let mut from = path;
    while let Some((last, before)) = left.split_last() {
        match last {
            Piece::Many => return Some((left, from)),
            Piece::One(part) => {
                let Some(path) = from else {
                    return None;
                };
                let (shorter, component) = split_last::<L>(options.separators, path);
                if !part.fits::<L>(options.literal_leading_dot, component) {
                    return None;
                }
                left = before;
                from = shorter;
            }
        }
    }
    Some((left, from))
}

/// Whether the last piece is a part that matches no component which ends as a path does.
#[inline(always)]
fn ends_otherwise<L: Letters, A: Allocator>(pattern: &[Piece<Part<A>>], path: &[u8]) -> bool
    requires { L.formed path.now }
    ensures { IsTrue result → (options : Options) → ¬ (Matches options pattern.now
        (L.letters path.now)) }
{
    let Some((Piece::One(part), _)) = pattern.split_last() else {
        return false;
    };
    run::ends_otherwise::<L, A>(part.pieces(), path)
}

/// Whether a pattern matches a whole path: its parts the components, one after the other, and each
/// `**` any number of them. The bytes are read by `L`. It doesn't allocate.
///
/// ```
/// use wildcards::{Bytes, Item, Options, Part, Piece, Separators, matches};
///
/// // `**/b`
/// let mut pieces = Vec::new(alloc);
/// pieces.push(Piece::One(Item::Literal(0x62)))?;
/// let mut pattern = Vec::new(alloc);
/// pattern.push(Piece::Many)?;
/// pattern.push(Piece::One(Part::new(alloc, pieces)?))?;
/// let options = Options { separators: Separators::Slash, literal_leading_dot: false };
/// assert!(rt; matches::<Bytes, _>(options, &pattern, b"a/b"));
/// assert!(rt; matches::<Bytes, _>(options, &pattern, b"b"));
/// assert!(rt; !matches::<Bytes, _>(options, &pattern, b"b/a"));
/// ```
#[inline(always)]
pub fn matches<L: Letters, A: Allocator>(
    options: Options,
    pattern: &[Piece<Part<A>>],
    path: &[u8],
) -> bool
    requires { L.formed path.now }
    ensures { IsTrue result ↔ Matches options pattern.now (L.letters path.now) }
{
    if ends_otherwise::<L, A>(pattern, path) {
        return false;
    }
    matches_from_ends::<L, A>(options, pattern, path)
}

/// Matches a path from both ends. It isn't inlined, since most paths end otherwise. Where nothing
/// is kept for the rest, a pattern of one choice rejects them in 14 ns instead of 17.
#[inline(never)]
fn matches_from_ends<L: Letters, A: Allocator>(
    options: Options,
    pattern: &[Piece<Part<A>>],
    path: &[u8],
) -> bool
    requires { L.formed path.now }
    ensures { IsTrue result ↔ Matches options pattern.now (L.letters path.now) }
{
    match up_to_many::<L, A>(options, pattern, Some(path)) {
        Step::All => true,
        Step::Differs => false,
        Step::Many(after, rest) => {
            let Some((left, from)) = match_last::<L, A>(options, after, rest) else {
                return false;
            };
            is_after_many::<L, A>(options, left, from)
        }
    }
}
