//! Laws of the text of patterns. Each is the contract of a function that does nothing.
ghost use Rattle.std.specs.Prelude.{◌≡◌, ◌↔◌, ◌<◌, ◌∷◌, ◌++◌, false, List, ℕ};
ghost use Rattle.wildcards.specs.declared.options.Options.{Options};
ghost use Rattle.wildcards.specs.declared.pattern.Choice.{Choice};
ghost use Rattle.wildcards.specs.Sets.{MatchesChoice};
ghost use Rattle.glob_text.specs.declared.fault.PatternFault.{PatternFault};
ghost use Rattle.glob_text.specs.declared.syntax.Syntax.{Syntax};
ghost use Rattle.glob_text.specs.Alternatives.{AreChoices};
ghost use Rattle.glob_text.specs.Escape.{escaped, IsPatternOf};
ghost use Rattle.glob_text.specs.Marks.{Mark, is_quoting};
ghost use Rattle.glob_text.specs.Meaning.{MatchesWrittenOut};
ghost use Rattle.glob_text.specs.Texts.{IsMeaning, IsFault, AreWrittenOut};

use std::alloc::Allocator;
use wildcards::Letters;

/// What a text is compiled to matches a path exactly where one of the patterns that it is written out as does.
pub fn written_out<L: Letters, A: Allocator>()
    ensures { (o : Syntax) → (text : List ℕ) → (compiled : List (Choice A))
        → (written : List (List Mark)) → (p : Options) → (path : List ℕ)
        → IsMeaning L.formed L.letters o text compiled
        → AreWrittenOut L.formed L.letters o text written → p.separators ≡ o.separators
        → MatchesChoice p compiled path ↔ MatchesWrittenOut p written path }
{}

/// An escaped string is a string and a pattern without a fault. Where case matters, it matches the
/// string that was escaped and nothing else. The law holds where two strings with a byte of ASCII
/// between them are a string.
pub fn escaped_alone<L: Letters>()
    ensures { ((s : List ℕ) → (t : List ℕ) → (b : ℕ) → b < 0x80 → L.formed s → L.formed t
        → L.formed (s ++ b ∷ t)) → (o : Syntax) → (own : List ℕ) → L.formed own
        → L.formed (escaped (is_quoting o) own)
        × IsPatternOf L.formed L.letters o (escaped (is_quoting o) own) (L.letters own) }
{}

/// A pattern is written out as one list of choices. So each limit on them either holds or doesn't.
pub fn written_once()
    ensures { (marks : List Mark) → (choices : List (List Mark)) → (others : List (List Mark))
        → AreChoices marks choices → AreChoices marks others → choices ≡ others }
{}

/// A text has one meaning: two lists of choices that it is written out as match the same paths.
/// Where case matters, they are one list.
pub fn one_meaning<L: Letters>()
    ensures { (o : Syntax) → (text : List ℕ) → (choices : List (List Mark))
        → (others : List (List Mark)) → AreWrittenOut L.formed L.letters o text choices
        → AreWrittenOut L.formed L.letters o text others
        → ((p : Options) → (path : List ℕ) → MatchesWrittenOut p choices path
        ↔ MatchesWrittenOut p others path) × (o.case_insensitive ≡ false → choices ≡ others) }
{}

/// A text has at most one fault, the one that [`compile`](crate::compile) returns.
pub fn one_fault<L: Letters>()
    ensures { (o : Syntax) → (text : List ℕ) → (fault : PatternFault) → (other : PatternFault)
        → IsFault L.formed L.letters o text fault → IsFault L.formed L.letters o text other
        → fault ≡ other }
{}

/// A text with a meaning has no fault.
pub fn never_both<L: Letters, A: Allocator>()
    ensures { (o : Syntax) → (text : List ℕ) → (choices : List (Choice A))
        → (fault : PatternFault) → IsMeaning L.formed L.letters o text choices
        → IsFault L.formed L.letters o text fault → ⊥ }
{}
