//! A path is cut at its separators.
ghost use Rattle.std.specs.Prelude.{◌≡◌, ◌∷◌, ◌<◌, ◌++◌, [], Some, length, IsTrue, MatchOption, IfSome};
ghost use Rattle.memchr.specs.Find.{IsFirstByte, IsLastByte};
ghost use Rattle.wildcards.specs.Components.{components, separates};
ghost use Rattle.wildcards.specs.declared.separators.Separators.{Separators};
ghost use Rattle.wildcards.specs.Extensions.{LacksExtension, IsExtension};
ghost use Rattle.wildcards.specs.Cuts.{IsPlain, IsCut, BeginsWith, BeginsOther, left_components, left_size, IsLeftFormed};

use crate::letters::Letters;
use crate::separators::Separators;
use memchr::{memchr, memchr2, memrchr, memrchr2};

/// Whether a text has neither `/` nor `\`.
pub(crate) fn is_plain(text: &[u8]) -> bool
    ensures { IsTrue result → (o : Separators) → IsPlain o text.now }
{
    first_separator(Separators::SlashAndBackslash, text).is_none()
}

/// What is left of a path after its first component, if that is this text, which has no separator.
#[inline(always)]
pub(crate) fn strip_text<'a>(
    separators: Separators,
    text: &[u8],
    path: &'a [u8],
) -> Option<Option<&'a [u8]>>
    ensures begins { MatchOption result (BeginsOther separators path.entry.now text.now)
        (λ more. BeginsWith separators path.entry.now text.now more) }
    ensures shorter { IfSome result (λ more. left_size more < left_size (Some path.entry)) }
{
    let rest = path.strip_prefix(text)?;
    let Some((byte, more)) = rest.split_first() else {
        return Some(None);
    };
    if separators.contains(u32::from(*byte)) {
        Some(Some(more))
    } else {
        None
    }
}

/// The index of the first separator.
#[inline(always)]
fn first_separator(separators: Separators, path: &[u8]) -> Option<usize>
    ensures { IsFirstByte (separates separators) path.now result }
{
    match separators {
        Separators::None => None,
        Separators::Slash => memchr(b'/', path),
        Separators::SlashAndBackslash => memchr2(b'/', b'\\', path),
    }
}

/// The index of the last separator.
#[inline(always)]
fn last_separator(separators: Separators, path: &[u8]) -> Option<usize>
    ensures { IsLastByte (separates separators) path.now result }
{
    match separators {
        Separators::None => None,
        Separators::Slash => memrchr(b'/', path),
        Separators::SlashAndBackslash => memrchr2(b'/', b'\\', path),
    }
}

/// What comes before the first separator, and what comes after it; `None` where there is none.
#[inline(always)]
fn cut_first(separators: Separators, path: &[u8]) -> Option<(&[u8], &[u8])>
    ensures cut { MatchOption result (IsPlain separators path.now)
        (λ cut. IsCut separators path.now cut.0.now cut.1.now × IsPlain separators cut.0.now) }
    ensures shorter { IfSome result (λ cut. length cut.1.now < length path.now) }
{
    let Some(at) = first_separator(separators, path) else {
        return None;
    };
    let (first, rest) = path.split_at(at);
    let (_, more) = rest.split_at(1);
    Some((first, more))
}

/// What comes before the last separator, and what comes after it; `None` where there is none.
#[inline(always)]
fn cut_last(separators: Separators, path: &[u8]) -> Option<(&[u8], &[u8])>
    ensures cut { MatchOption result (IsPlain separators path.now)
        (λ cut. IsCut separators path.now cut.0.now cut.1.now × IsPlain separators cut.1.now) }
    ensures shorter { IfSome result (λ cut. length cut.0.now < length path.now) }
{
    let Some(at) = last_separator(separators, path) else {
        return None;
    };
    let (before, rest) = path.split_at(at);
    let (_, last) = rest.split_at(1);
    Some((before, last))
}

/// What comes after the last dot of the last component; `None` where that has none. It is sought byte by
/// byte from the end, near which it mostly is.
#[inline(always)]
pub(crate) fn extension(separators: Separators, path: &[u8]) -> Option<&[u8]>
    ensures { MatchOption result (LacksExtension (components separators path.entry.now))
        (λ text. IsExtension (components separators path.entry.now) text.now) }
{
    let mut left = path;
    while let Some((last, before)) = left.split_last() {
        if *last == b'.' {
            let (_, after) = path.split_at(left.len());
            return Some(after);
        }
        if separators.contains(u32::from(*last)) {
            return None;
        }
        left = before;
    }
    None
}

/// The first component of what is left of a path, and what is left then.
#[inline(always)]
pub(crate) fn split_first<L: Letters>(separators: Separators, rest: &[u8]) -> (&[u8], Option<&[u8]>)
    requires { L.formed rest.now }
    ensures parts { components separators (L.letters rest.entry.now)
        ≡ L.letters result.0.now ∷ left_components L.letters separators result.1 }
    ensures formed { L.formed result.0.now × IsLeftFormed L.formed result.1 }
    ensures shorter { left_size result.1 < left_size (Some rest.entry) }
{
    match cut_first(separators, rest) {
        Some((first, more)) => (first, Some(more)),
        None => (rest, None),
    }
}

/// What is left of a path before its last component, and that component.
#[inline(always)]
pub(crate) fn split_last<L: Letters>(separators: Separators, rest: &[u8]) -> (Option<&[u8]>, &[u8])
    requires { L.formed rest.now }
    ensures parts { components separators (L.letters rest.entry.now)
        ≡ left_components L.letters separators result.0 ++ L.letters result.1.now ∷ [] }
    ensures formed { IsLeftFormed L.formed result.0 × L.formed result.1.now }
    ensures shorter { left_size result.0 < left_size (Some rest.entry) }
{
    match cut_last(separators, rest) {
        Some((before, last)) => (Some(before), last),
        None => (None, rest),
    }
}
