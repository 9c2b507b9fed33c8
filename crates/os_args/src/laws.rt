//! The laws of words and of the steps that take them. Each law is the contract of a function that
//! does nothing.
ghost use Rattle.std.specs.Prelude.{◌≡◌, ◌<◌, ◌≤◌, ℕ, Bool, List, Option, Result, Some, Ok};
ghost use Rattle.os_quote.specs.Escape.{IsLineEscape};
ghost use Rattle.os_args.specs.Word.{Kind, IsReadAs};
ghost use Rattle.os_args.specs.Reading.{Reading, Fault, TakesWord, TakesValue, TakesOptionalValue, TakesRest};
ghost use Rattle.os_args.specs.Joining.{Step, IsStep, AreSteps, IsJoinedAgain, all_left, weight};
ghost use Rattle.os_args.specs.ErrorText.{shown};

use os_str_ext::Platform;

/// A word is read in one way.
pub fn one_reading()
    ensures { (numbers : Bool) → (s : List ℕ) → (kind : Kind) → (other : Kind) → (rest : List ℕ)
        → (left : List ℕ) → IsReadAs numbers s kind rest → IsReadAs numbers s other left
        → (kind ≡ other) × (rest ≡ left) }
{}

/// A step has one outcome, and leaves the words in one state. Whatever its definition admits is
/// what the call returns.
pub fn one_outcome()
    ensures next { (before : Reading) → (one : Result (Option Kind) Fault)
        → (other : Result (Option Kind) Fault) → (after : Reading) → (left : Reading)
        → TakesWord before one after → TakesWord before other left
        → (one ≡ other) × (after ≡ left) }
    ensures value { (before : Reading) → (one : Result (List ℕ) Fault)
        → (other : Result (List ℕ) Fault) → (after : Reading) → (left : Reading)
        → TakesValue before one after → TakesValue before other left
        → (one ≡ other) × (after ≡ left) }
    ensures optional { (before : Reading) → (one : Option (List ℕ)) → (other : Option (List ℕ))
        → (after : Reading) → (left : Reading)
        → TakesOptionalValue before one after → TakesOptionalValue before other left
        → (one ≡ other) × (after ≡ left) }
    ensures rest { (before : Reading) → (one : Result (List (List ℕ)) Fault)
        → (other : Result (List (List ℕ)) Fault) → (after : Reading) → (left : Reading)
        → TakesRest before one after → TakesRest before other left
        → (one ≡ other) × (after ≡ left) }
{}

/// The texts that the steps returned, joined in order with what is left, are the words that were
/// given. Each text is joined with the mark before it in its word (`-`, `--`, `=` or nothing). So
/// nothing is lost, and nothing is returned twice.
pub fn nothing_lost()
    ensures { (before : Reading) → (steps : List Step) → (after : Reading)
        → AreSteps before steps after → IsJoinedAgain before steps after }
{}

/// An error prints a string as its one escape on one line (`os_quote::escape_line`).
pub fn errors<E: Platform>()
    ensures { (s : List ℕ) → IsLineEscape E.units s (shown E.units s) }
{}

/// Each option or operand leaves less, and no step leaves more. So a loop over
/// [`Arguments::next`](crate::Arguments::next) ends.
pub fn steps_end()
    ensures next { (before : Reading) → (kind : Kind) → (after : Reading)
        → TakesWord before (Ok (Some kind)) after
        → weight (all_left after) < weight (all_left before) }
    ensures each { (before : Reading) → (step : Step) → (after : Reading) → IsStep before step after
        → weight (all_left after) ≤ weight (all_left before) }
{}
