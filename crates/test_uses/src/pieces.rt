//! Pieces: what splits give.
ghost use Rattle.std.specs.Prelude.{◌≡◌, ◌↔◌, [], ◌∷◌, ◌+◌, ◌<◌, ℕ, List, length, map, reverse};
ghost use Rattle.std.specs.Prelude.{IsSomeAnd, IsTrue, Some};
ghost use Rattle.std.specs.List.{All, join_by};
ghost use Rattle.std.specs.Option.{option_map};
ghost use Rattle.os_str_ext.specs.Pieces.{IsRSplit, IsSplit, Splits};
ghost use Rattle.wtf8_core.specs.Occurrence.{OccursNowhere};
ghost use Rattle.platform_str.specs.Strings.{bytes};
ghost use Rattle.test_uses.specs.Matches.{AreMatches};

use os_str_bytes::RawSplit;
use os_str_ext::{OsStrBytesExt, Pattern, RSplit, Split};
use platform_str::{OsStr, Platform};

/// The pieces of a string.
fn split<'a, E: Platform + 'a>(string: OsStr<'a, E>, text: &'a str) -> Split<'a, E, &'a str>
    requires { 0 < length text.now }
    ensures { Splits E.units IsSplit text.now (bytes string.entry) result }
{
    string.split(text)
}

/// The pieces of a string from the end.
fn rsplit<'a, E: Platform + 'a>(string: OsStr<'a, E>, text: &'a str) -> RSplit<'a, E, &'a str>
    requires { 0 < length text.now }
    ensures { Splits E.units IsRSplit text.now (bytes string.entry) result }
{
    string.rsplit(text)
}

/// The pieces of a string in which a pattern doesn't occur: the string alone.
pub fn uncut<'a, E: Platform + 'a>(string: OsStr<'a, E>, text: &'a str) -> Split<'a, E, &'a str>
    requires some { 0 < length text.now }
    requires nowhere { OccursNowhere text.now (bytes string) }
    ensures { result ≡ bytes string.entry ∷ [] }
{
    split(string, text)
}

/// The pieces from the end of a string in which a pattern doesn't occur: the string alone.
pub fn uncut_from_the_end<'a, E: Platform + 'a>(
    string: OsStr<'a, E>,
    text: &'a str,
) -> RSplit<'a, E, &'a str>
    requires some { 0 < length text.now }
    requires nowhere { OccursNowhere text.now (bytes string) }
    ensures { result ≡ bytes string.entry ∷ [] }
{
    rsplit(string, text)
}

/// The rest of a string in which a pattern doesn't occur, before its one piece was given: the string.
pub fn uncut_rest<'a, E: Platform + 'a>(string: OsStr<'a, E>, text: &'a str) -> Option<OsStr<'a, E>>
    requires some { 0 < length text.now }
    requires nowhere { OccursNowhere text.now (bytes string) }
    ensures { IsSomeAnd result (λ rest. bytes rest ≡ bytes string.entry) }
{
    uncut(string, text).rest()
}

/// The rest of a string from the end, if a pattern doesn't occur in it and its one piece wasn't
/// given yet: the string.
pub fn uncut_rest_from_the_end<'a, E: Platform + 'a>(
    string: OsStr<'a, E>,
    text: &'a str,
) -> Option<OsStr<'a, E>>
    requires some { 0 < length text.now }
    requires nowhere { OccursNowhere text.now (bytes string) }
    ensures { IsSomeAnd result (λ rest. bytes rest ≡ bytes string.entry) }
{
    uncut_from_the_end(string, text).rest()
}

/// Whether pieces of a raw string are left, by what is left of the string.
pub fn has_pieces_left<'a, E: Platform + 'a, P: Pattern>(pieces: &RawSplit<'a, E, P>) -> bool
    ensures { IsTrue result ↔ (0 < length pieces.now) }
{
    pieces.rest().is_some()
}

/// The pieces of a string, which with the pattern between them are the string, in bytes and in units.
pub fn pieces_joined<'a, E: Platform + 'a>(
    string: OsStr<'a, E>,
    text: &'a str,
) -> Split<'a, E, &'a str>
    requires { 0 < length text.now }
    ensures bytes { join_by (λ piece. piece) text.now result ≡ bytes string.entry }
    ensures units { join_by (λ piece. piece) (E.units text.now) (map E.units result)
        ≡ E.units (bytes string.entry) }
{
    split(string, text)
}

/// The pieces of a string from the end, which in reverse with the pattern between them are the string,
/// in bytes and in units.
pub fn pieces_joined_from_the_end<'a, E: Platform + 'a>(
    string: OsStr<'a, E>,
    text: &'a str,
) -> RSplit<'a, E, &'a str>
    requires { 0 < length text.now }
    ensures bytes { join_by (λ piece. piece) text.now (reverse result) ≡ bytes string.entry }
    ensures units { join_by (λ piece. piece) (E.units text.now) (reverse (map E.units result))
        ≡ E.units (bytes string.entry) }
{
    rsplit(string, text)
}

/// Splits a string by a pattern. The pattern occurs in none of the pieces.
pub fn pieces_without_match<'a, E: Platform + 'a>(
    string: OsStr<'a, E>,
    text: &'a str,
) -> Split<'a, E, &'a str>
    requires { 0 < length text.now }
    ensures { All (OccursNowhere text.now) result }
{
    split(string, text)
}

/// Splits a string by a pattern from the end. The pattern occurs in none of the pieces.
pub fn pieces_without_match_from_the_end<'a, E: Platform + 'a>(
    string: OsStr<'a, E>,
    text: &'a str,
) -> RSplit<'a, E, &'a str>
    requires { 0 < length text.now }
    ensures { All (OccursNowhere text.now) result }
{
    rsplit(string, text)
}

/// The pieces of a string between the occurrences of a character, from the start and from the end:
/// the same ones, in reverse.
pub fn pieces_from_both_ends<'a, E: Platform + 'a>(
    string: OsStr<'a, E>,
    character: char,
) -> (Split<'a, E, char>, RSplit<'a, E, char>)
    ensures { result.1 ≡ reverse result.0 }
{
    wtf8_core::laws::characters();
    wtf8_core::laws::forms();
    (string.split(character), string.rsplit(character))
}

/// The pieces of a string: one more than the matches of the pattern.
pub fn pieces_and_matches<'a, E: Platform + 'a>(
    string: OsStr<'a, E>,
    text: &'a str,
) -> Split<'a, E, &'a str>
    requires { 0 < length text.now }
    ensures { (matches : List ℕ) × (AreMatches text.now (bytes string.entry) 0 matches
        × (length result ≡ length matches + 1)) }
{
    split(string, text)
}

/// Returns the next two pieces. The second is the second of those that are left.
pub fn next_two<'a, E: Platform + 'a>(
    pieces: &mut Split<'a, E, &'a str>,
) -> (Option<OsStr<'a, E>>, Option<OsStr<'a, E>>)
    ensures { (first : List ℕ) → (second : List ℕ) → (rest : List (List ℕ))
        → pieces.old ≡ first ∷ second ∷ rest → option_map bytes result.1 ≡ Some second }
{
    let first = pieces.next();
    let second = pieces.next();
    (first, second)
}
