//! Pieces.
ghost use Rattle.std.specs.Prelude.{◌≡◌, ◌+◌, ◌∷◌, ◌<◌, ℕ, List, IfSome, MatchOption, Some, drop, length};
ghost use Rattle.std.specs.Option.{option_map};
ghost use Rattle.os_str_ext.specs.Pieces.{IsSplit};
ghost use Rattle.wtf8_core.specs.Occurrence.{IsLastIndex};
ghost use Rattle.platform_str.specs.Strings.{bytes};

use os_str_ext::{OsStrBytesExt, Split};
use platform_str::{OsStr, Platform};

/// The pieces of a string, where the pattern isn't empty.
pub fn pieces<'a, E: Platform + 'a>(
    string: OsStr<'a, E>,
    text: &'a str,
) -> Option<Split<'a, E, &'a str>>
    ensures { MatchOption result (length text.now ≡ 0)
        (λ pieces. IsSplit text.now (bytes string.entry) pieces) }
{
    if text.is_empty() {
        return None;
    }
    Some(string.split(text))
}

/// The next two pieces of a string that has as many left.
pub fn two_pieces<'a, E: Platform + 'a>(
    pieces: &mut Split<'a, E, &'a str>,
) -> (Option<OsStr<'a, E>>, Option<OsStr<'a, E>>)
    ensures { (first : List ℕ) → (second : List ℕ) → (rest : List (List ℕ))
        → pieces.old ≡ first ∷ second ∷ rest → option_map bytes result.1 ≡ Some second }
{
    let first = pieces.next();
    let second = pieces.next();
    (first, second)
}

/// The first piece from the end, which is after the last match of the pattern.
#[tactic(auto, using(crate::proofs::LastPiece::after_last))]
pub fn last_piece<'a, E: Platform + 'a>(string: OsStr<'a, E>, text: &'a str) -> Option<OsStr<'a, E>>
    requires { 0 < length text.now }
    ensures { (at : ℕ) → IsLastIndex text.now (bytes string.entry) at
        → IfSome result (λ piece. bytes piece ≡ drop (at + length text.now) (bytes string.entry)) }
{
    let mut pieces = string.rsplit(text);
    pieces.next()
}
