//! Texts of patterns that stand for one name, and choices that are compiled.
ghost use Rattle.std.specs.Prelude.{◌≡◌, ◌↔◌, ◌<◌, ◌++◌, ◌∷◌, ℕ, List, false, IsTrue, IfOk, MatchResult};
ghost use Rattle.wildcards.specs.declared.options.Options.{Options};
ghost use Rattle.wildcards.specs.declared.pattern.Choice as compiled;
ghost use Rattle.glob_text.specs.declared.fault.PatternFault as declared;
ghost use Rattle.glob_text.specs.declared.syntax.Syntax.{Syntax};
ghost use Rattle.glob_text.specs.Alternatives.{AreChoices, AreTooMany, AreWithinLimits};
ghost use Rattle.glob_text.specs.Escape.{IsPatternOf};
ghost use Rattle.glob_text.specs.Marks.{Mark};
ghost use Rattle.glob_text.specs.Meaning.{MatchesWrittenOut};
ghost use Rattle.glob_text.specs.Texts.{IsMeaning, IsFault, AreWrittenOut};

use glob_text::{PatternFault, Syntax, compile, escape, laws};
use std::alloc::{AllocError, Allocator};
use wildcards::{Choice, Letters, Options, matches_choice};

/// The pattern that a name is escaped to, which matches this name alone.
pub fn pattern_of<L: Letters, A: Allocator>(
    alloc: A,
    syntax: Syntax,
    name: &[u8],
) -> Result<Vec<u8, A>, AllocError>
    ensures { IfOk result (λ pattern. ((s : List ℕ) → (t : List ℕ) → (b : ℕ) → b < 0x80
        → L.formed s → L.formed t → L.formed (s ++ b ∷ t)) → L.formed name.now
        → IsPatternOf L.formed L.letters syntax pattern.items (L.letters name.now)) }
{
    laws::escaped_alone::<L>();
    escape(alloc, syntax, name)
}

/// Whether a path has one of the choices that are compiled, by the patterns that their text is written out
/// as.
pub fn has_choice<L: Letters, A: Allocator>(
    options: Options,
    choices: &[Choice<A>],
    path: &[u8],
) -> bool
    requires { L.formed path.now }
    ensures { (o : Syntax) → (text : List ℕ) → (written : List (List Mark))
        → IsMeaning L.formed L.letters o text choices.entry.now
        → AreWrittenOut L.formed L.letters o text written
        → options.separators ≡ o.separators
        → IsTrue result ↔ MatchesWrittenOut options written (L.letters path.now) }
{
    laws::written_out::<L, A>();
    matches_choice::<L, A>(options, choices, path)
}

/// A pattern whose choices are within the limits is never rejected as too many.
pub fn within_limits()
    ensures { (marks : List Mark) → (choices : List (List Mark)) → AreChoices marks choices
        → AreWithinLimits choices → ¬ (AreTooMany marks) }
{
    laws::written_once();
}

/// The choices that a pattern is compiled to: it is written out as patterns that are within both limits.
pub fn compile_within_limits<L: Letters, A: Allocator + Copy>(
    alloc: A,
    syntax: Syntax,
    text: &[u8],
) -> Result<Result<Vec<Choice<A>, A>, PatternFault>, AllocError>
    requires { L.formed text.now }
    ensures { IfOk result (λ read. IfOk read (λ compiled. (written : List (List Mark))
        × (AreWrittenOut L.formed L.letters syntax text.now written
        × AreWithinLimits written))) }
{
    compile::<L, A>(alloc, syntax, text)
}

/// A path that one list of choices of a text matches is matched by each other list of this text. Where
/// case matters, there is one list.
pub fn one_meaning_of_text<L: Letters>()
    ensures matched { (o : Syntax) → (text : List ℕ) → (choices : List (List Mark))
        → (others : List (List Mark)) → (p : Options) → (path : List ℕ)
        → AreWrittenOut L.formed L.letters o text choices
        → AreWrittenOut L.formed L.letters o text others
        → MatchesWrittenOut p choices path → MatchesWrittenOut p others path }
    ensures once { (o : Syntax) → (text : List ℕ) → (choices : List (List Mark))
        → (others : List (List Mark)) → o.case_insensitive ≡ false
        → AreWrittenOut L.formed L.letters o text choices
        → AreWrittenOut L.formed L.letters o text others → choices ≡ others }
{
    laws::one_meaning::<L>();
}

/// The choices that a text is compiled to, or its fault: nothing else can be returned. A text that is
/// compiled has no fault, and one with a fault has no other and no meaning.
pub fn compile_or_fault<L: Letters, A: Allocator + Copy>(
    alloc: A,
    syntax: Syntax,
    text: &[u8],
) -> Result<Result<Vec<Choice<A>, A>, PatternFault>, AllocError>
    requires { L.formed text.now }
    ensures { IfOk result (λ read. MatchResult read
        (λ _. (fault : declared.PatternFault)
        → IsFault L.formed L.letters syntax text.now fault → ⊥)
        (λ fault. ((other : declared.PatternFault)
        → IsFault L.formed L.letters syntax text.now other → other ≡ fault)
        × ((choices : List (compiled.Choice A))
        → IsMeaning L.formed L.letters syntax text.now choices → ⊥))) }
{
    laws::one_fault::<L>();
    laws::never_both::<L, A>();
    compile::<L, A>(alloc, syntax, text)
}
