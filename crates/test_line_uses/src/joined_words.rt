//! Words that are read in one way only, without loss.
ghost use Rattle.std.specs.Prelude.{◌≡◌, ◌≢◌, ◌∷◌, [], ℕ, List, Some, Ok, false};
ghost use Rattle.std.specs.Option.{option_map};
ghost use Rattle.platform_str.specs.Strings.{bytes};
ghost use Rattle.os_args.specs.Joining.{Next, TookValue, IsJoinedAgain};
ghost use Rattle.os_args.specs.Kinds.{kind_of};
ghost use Rattle.os_args.specs.Reading.{words_left};
ghost use Rattle.os_args.specs.Views.{outcome_of, reading};
ghost use Rattle.os_args.specs.Word.{Kind, dashes, IsReadAs};

use crate::command_lines::{ErrorOf, WordOf};
use os_args::{Arguments, laws};
use platform_str::{OsStr, Platform};

/// Takes a word and then a value: both, joined again with what is left, are what was there.
pub fn word_and_value<'s, 'a, E: Platform + 'a>(
    arguments: &mut Arguments<'s, 'a, E>,
) -> (
    Result<Option<WordOf<'a, E>>, ErrorOf<'a, E>>,
    Result<OsStr<'a, E>, ErrorOf<'a, E>>,
)
    ensures { IsJoinedAgain (reading arguments.old)
        (Next (outcome_of (λ read. option_map kind_of read) result.0)
        ∷ TookValue (outcome_of bytes result.1) ∷ []) (reading arguments.new) }
{
    laws::nothing_lost();
    let word = arguments.next();
    let value = arguments.value();
    (word, value)
}

/// Takes a word when it is known how it is read. The word isn't `--`, and comes before it.
pub fn one_word<'s, 'a, E: Platform + 'a>(
    arguments: &mut Arguments<'s, 'a, E>,
) -> Result<Option<WordOf<'a, E>>, ErrorOf<'a, E>>
    ensures { (word : List ℕ) → (more : List (List ℕ)) → (kind : Kind) → (rest : List ℕ)
        → (reading arguments.old).pending ≡ [] → (reading arguments.old).ended ≡ false
        → words_left (reading arguments.old) ≡ word ∷ more → word ≢ dashes
        → IsReadAs (reading arguments.old).numbers word kind rest
        → outcome_of (λ read. option_map kind_of read) result ≡ Ok (Some kind) }
{
    laws::one_reading();
    arguments.next()
}
