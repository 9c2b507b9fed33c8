//! Laws of patterns, and of the parts before and after an occurrence of one.
//!
//! Each law is the contract of a function that does nothing. They are about lists, so each holds of
//! bytes and of units.
ghost use Rattle.std.specs.Prelude.{◌≡◌, ◌<◌, [], ◌∷◌, ℕ, List, length};
ghost use Rattle.std.specs.{Char.encode_utf8, String.string_bytes};
ghost use Rattle.wtf8_core.specs.CodePoint.{encode};
ghost use Rattle.os_str_ext.specs.Pieces.{SplitsAt};
ghost use Rattle.wtf8_core.specs.Occurrence.{OccursNowhere, IsFirstIndex, IsLastIndex};

use crate::pattern::Pattern;

/// A pattern that isn't empty doesn't occur in the part before its first occurrence, nor in the
/// part after its last one. So it doesn't occur in the first part that `split_once` returns, nor in
/// the last part that `rsplit_once` returns.
pub fn around_index()
    ensures before_first { (p : List ℕ) → (s : List ℕ) → (prefix : List ℕ) → (suffix : List ℕ)
        → 0 < length p
        → SplitsAt IsFirstIndex p s prefix suffix → OccursNowhere p prefix }
    ensures after_last { (p : List ℕ) → (s : List ℕ) → (prefix : List ℕ) → (suffix : List ℕ)
        → 0 < length p
        → SplitsAt IsLastIndex p s prefix suffix → OccursNowhere p suffix }
{}

/// What a search looks for: the form of a `char` (RFC 3629, section 3), the bytes of a `&str`, the
/// bytes of the text of a `&String`.
#[tactic(auto, using(wtf8_core::proofs::lemmas::forms::ByStd::form_encode))]
pub fn patterns<'a>(c: char, text: &'a str, string: &'a String)
    ensures of_char { ⟦<char as Pattern>⟧.text c ≡ encode c }
    ensures of_str { ⟦<&'a str as Pattern>⟧.text text.entry ≡ text.now }
    ensures of_string { ⟦<&'a String as Pattern>⟧.text string.entry ≡ string_bytes string.now }
{}

/// The text of an ASCII `char` is one byte, the character's number (RFC 3629, section 3).
pub fn ascii_text()
    ensures { (c : ℕ) → c < 0x80 → encode_utf8 c ≡ c ∷ [] }
{}
