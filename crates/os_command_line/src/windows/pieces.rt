//! The pieces of an argument's text that mean themselves.
ghost use Rattle.std.specs.Prelude.{◌≡◌, ◌≢◌, ◌⊎◌, [], false, true, MatchOption};
ghost use Rattle.std.specs.List.{AllByRecursion};
ghost use Rattle.platform_str.specs.Strings.{bytes};
ghost use Rattle.os_command_line.specs.Windows.{quote};
ghost use Rattle.os_command_line.specs.WindowsSteps.{IsCutAtQuote, IsPieceCut};

use crate::windows::place::Place;
use memchr::memchr;
use platform_str::{OsStr, Windows};

/// What comes after a piece: a quotation mark if one is meant, and the rest of the text.
#[derive(Clone, Copy)]
pub(crate) struct Tail<'a> {
    pub(crate) mark: bool,
    pub(crate) place: Place,
    pub(crate) rest: OsStr<'a, Windows>,
}

/// The next piece and what comes after it; `None` where a mark comes first or nothing is left.
pub(crate) fn next_cut<'a>(tail: Tail<'a>) -> Option<(OsStr<'a, Windows>, Tail<'a>)>
    ensures { MatchOption result ((tail.entry.mark ≡ true) ⊎ (bytes tail.entry.rest ≡ []))
        (λ cut. (tail.entry.mark ≡ false) × IsPieceCut tail.entry.place (bytes tail.entry.rest)
        (bytes cut.0) cut.1.mark cut.1.place (bytes cut.1.rest)) }
{
    if tail.mark {
        return None;
    }
    if tail.rest.is_empty() {
        return None;
    }
    Some(cut_piece(tail.place, tail.rest))
}

/// A text that isn't empty, cut at its first quotation mark.
fn cut_piece<'a>(place: Place, text: OsStr<'a, Windows>) -> (OsStr<'a, Windows>, Tail<'a>)
    requires { bytes text ≢ [] }
    ensures { IsPieceCut place (bytes text.entry) (bytes result.0) result.1.mark result.1.place
        (bytes result.1.rest) }
{
    let Some((before, after)) = cut_at_quote(text.as_encoded_bytes()) else {
        let tail = Tail {
            mark: false,
            place,
            rest: OsStr::new(""),
        };
        return (text, tail);
    };
    let (len, mark, place) = place.at_quote(before);
    let (piece, _) = before.split_at(len);
    let tail = Tail {
        mark,
        place,
        rest: OsStr::from_encoded_bytes_unchecked(after),
    };
    (OsStr::from_encoded_bytes_unchecked(piece), tail)
}

/// What comes before and after the first quotation mark.
fn cut_at_quote(text: &[u8]) -> Option<(&[u8], &[u8])>
    ensures { MatchOption result (AllByRecursion (λ u. u ≢ quote) text.now)
        (λ cut. IsCutAtQuote text.now cut.0.now cut.1.now) }
{
    let at = memchr(b'"', text)?;
    let (before, rest) = text.split_at(at);
    let (_, after) = rest.split_at(1);
    Some((before, after))
}
