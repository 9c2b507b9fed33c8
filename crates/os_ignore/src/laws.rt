//! Laws of ignore files. Each is the contract of a function that does nothing.
ghost use Rattle.std.specs.Prelude.{◌≡◌, ◌↔◌, ◌<◌, ◌∷◌, ◌++◌, Bool, ℕ, List, Option, length, true, false};
ghost use Rattle.std.specs.List.{AllZip};
ghost use Rattle.os_ignore.specs.declared.file.File.{File};
ghost use Rattle.os_ignore.specs.declared.line.Line.{Line};
ghost use Rattle.os_ignore.specs.declared.reason.NoPattern.{NoPattern};
ghost use Rattle.os_ignore.specs.declared.verdict.Verdict.{Verdict};
ghost use Rattle.os_ignore.specs.Components.{IsPlain, IsLastComponent};
ghost use Rattle.os_ignore.specs.Files.{HasReason};
ghost use Rattle.os_ignore.specs.Ignores.{IsFileAt, AreOfOneText, HasLineOf, IsBlanked};
ghost use Rattle.os_ignore.specs.Letters.{escaped};
ghost use Rattle.os_ignore.specs.Lines.{IsLine, SaysNothing};
ghost use Rattle.os_ignore.specs.Matching.{LineMatches};
ghost use Rattle.os_ignore.specs.Verdicts.{IsVerdict};

use std::alloc::Allocator;

/// Files have one verdict on a path.
pub fn one_verdict<A: Allocator>()
    ensures { (files : List (File A)) → (path : List ℕ) → (is_dir : Bool) → (v : Verdict)
        → (w : Verdict) → IsVerdict files path is_dir v → IsVerdict files path is_dir w → v ≡ w }
{}

/// A verdict that a walk returns is the one that [`Ignore::matched`](crate::Ignore::matched) returns.
pub fn walked_verdict<A: Allocator>()
    ensures { (files : List (File A)) → (path : List ℕ) → (is_dir : Bool) → (v : Verdict)
        → (w : Verdict) → ∥ IsVerdict files path is_dir v ∥₁ → IsVerdict files path is_dir w
        → v ≡ w }
{}

/// A text has one meaning, with regard to case or without: two lines that are read from it match the
/// same paths.
pub fn one_meaning<A: Allocator>()
    ensures { (folds : Bool) → (text : List ℕ) → (a : Line A) → (b : Line A)
        → IsLine folds text a → IsLine folds text b
        → (a.takes_in ≡ b.takes_in) × ((path : List ℕ) → (is_dir : Bool)
        → LineMatches a path is_dir → LineMatches b path is_dir) }
{}

/// A `!` before a line takes in again exactly what the line matches, with regard to case or without.
pub fn taken_in_again<A: Allocator>()
    ensures { (folds : Bool) → (text : List ℕ) → (line : Line A) → (again : Line A)
        → IsLine folds text line → IsLine folds (0x21 ∷ text) again → line.takes_in ≡ false
        → (again.takes_in ≡ true) × ((path : List ℕ) → (is_dir : Bool)
        → LineMatches line path is_dir ↔ LineMatches again path is_dir) }
{}

/// A text that is a line has no reason why it is none, with regard to case or without.
pub fn never_both<A: Allocator>()
    ensures { (folds : Bool) → (text : List ℕ) → (line : Line A) → (reason : NoPattern)
        → IsLine folds text line → SaysNothing folds A text reason → ⊥ }
{}

/// A line is a pattern, or is none for one reason: what [`no_pattern`](crate::no_pattern) returns.
pub fn one_reason<A: Allocator>()
    ensures { (line : List ℕ) → (a : Option NoPattern) → (b : Option NoPattern)
        → HasReason A line a → HasReason A line b → a ≡ b }
{}

/// A line that decides is a line of one of the files: [`Ignore::line`](crate::Ignore::line) returns a
/// text for the numbers of a verdict.
pub fn known_line<A: Allocator>()
    ensures { (files : List (File A)) → (path : List ℕ) → (is_dir : Bool) → (v : Verdict)
        → IsVerdict files path is_dir v → HasLineOf files v }
{}

/// The line of a name whose bytes are all quoted matches the paths with this last component, and no
/// other. It is read with regard to case: without, `\a` also matches `A`, and `\A` nothing.
pub fn escaped_alone<A: Allocator>()
    ensures { (name : List ℕ) → (line : Line A) → 0 < length name → IsPlain 0x2F name
        → IsLine false (escaped name) line → (line.takes_in ≡ false) × ((path : List ℕ)
        → (is_dir : Bool) → LineMatches line path is_dir ↔ IsLastComponent path name) }
{}

/// The verdict depends on the texts of the files alone, and on which of them regard case.
pub fn by_text<A: Allocator>()
    ensures { (files : List (File A)) → (others : List (File A)) → AllZip AreOfOneText files others
        → (path : List ℕ) → (is_dir : Bool) → (v : Verdict) → (w : Verdict)
        → IsVerdict files path is_dir v → IsVerdict others path is_dir w → v ≡ w }
{}

/// A line that is no pattern changes no verdict, with regard to case or without: it may as well be
/// empty.
pub fn silent_line<A: Allocator>()
    ensures { (folds : Bool) → (content : List ℕ) → (other : List ℕ)
        → IsBlanked folds A content other → (number : ℕ)
        → (directory : List ℕ) → (file : File A) → (blank : File A)
        → IsFileAt folds number directory content file
        → IsFileAt folds number directory other blank
        → (front : List (File A)) → (back : List (File A)) → (path : List ℕ) → (is_dir : Bool)
        → (v : Verdict) → (w : Verdict) → IsVerdict (front ++ file ∷ back) path is_dir v
        → IsVerdict (front ++ blank ∷ back) path is_dir w → v ≡ w }
{}
