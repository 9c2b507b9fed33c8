//! Laws of escapes. Each is the contract of a function that does nothing.
ghost use Rattle.std.specs.Prelude.{◌≡◌, ℕ, List, IsTrue, false};
ghost use Rattle.std.specs.{List.All, Str.IsUtf8, Str.chars};
ghost use Rattle.os_quote.specs.{Shown.stays_on_line, Ending.ends_in_space, Escape.IsEscape, Escape.IsLineEscape, Escape.IsBadEscape, Escape.IsBadLineEscape};

use os_str_bytes::Platform;

/// Each string has one escape, which is UTF-8, and strings with equal escapes are equal.
pub fn escapes<E: Platform>()
    ensures some { (s : List ℕ) → E.well_formed s → (text : List ℕ) × IsEscape E.units s text }
    ensures one_escape { (s : List ℕ) → (text : List ℕ) → (other : List ℕ) → IsEscape E.units s text
        → IsEscape E.units s other → text ≡ other }
    ensures utf8 { (s : List ℕ) → (text : List ℕ) → E.well_formed s → IsEscape E.units s text
        → IsUtf8 text }
    ensures one_string { (s : List ℕ) → (t : List ℕ) → (text : List ℕ) → E.well_formed s
        → E.well_formed t → IsEscape E.units s text → IsEscape E.units t text → s ≡ t }
{}

/// In the escape of a string each backslash is in a token; a text has at most one index of
/// the first backslash that begins none.
pub fn bad_escapes<E: Platform>()
    ensures never { (s : List ℕ) → (text : List ℕ) → (n : ℕ) → E.well_formed s
        → IsEscape E.units s text → ¬ (IsBadEscape text n) }
    ensures one_index { (text : List ℕ) → (n : ℕ) → (m : ℕ) → IsBadEscape text n
        → IsBadEscape text m → n ≡ m }
{}

/// Each string has one escape on one line, which is UTF-8, and strings with equal ones are equal.
/// Each character of it stays on the line, its last one is no space, and each backslash is in a token.
pub fn line_escapes<E: Platform>()
    ensures some { (s : List ℕ) → E.well_formed s → (text : List ℕ) × IsLineEscape E.units s text }
    ensures one_escape { (s : List ℕ) → (text : List ℕ) → (other : List ℕ)
        → IsLineEscape E.units s text → IsLineEscape E.units s other → text ≡ other }
    ensures utf8 { (s : List ℕ) → (text : List ℕ) → E.well_formed s → IsLineEscape E.units s text
        → IsUtf8 text }
    ensures one_string { (s : List ℕ) → (t : List ℕ) → (text : List ℕ) → E.well_formed s
        → E.well_formed t → IsLineEscape E.units s text → IsLineEscape E.units t text → s ≡ t }
    ensures one_line { (s : List ℕ) → (text : List ℕ) → E.well_formed s
        → IsLineEscape E.units s text → All (λ c. IsTrue (stays_on_line c)) (chars text) }
    ensures no_space { (s : List ℕ) → (text : List ℕ) → E.well_formed s
        → IsLineEscape E.units s text → ends_in_space text ≡ false }
    ensures never_bad { (s : List ℕ) → (text : List ℕ) → (n : ℕ) → E.well_formed s
        → IsLineEscape E.units s text → ¬ (IsBadLineEscape text n) }
    ensures one_index { (text : List ℕ) → (n : ℕ) → (m : ℕ) → IsBadLineEscape text n
        → IsBadLineEscape text m → n ≡ m }
{}
