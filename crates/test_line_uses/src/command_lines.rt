//! Command lines: what is read of words that are known.
ghost use Rattle.std.specs.Prelude.{◌≡◌, ◌≢◌, ◌++◌, ◌∷◌, [], ℕ, List, Result, Option, None, Some, Ok, Err, false, map};
ghost use Rattle.std.specs.Char.{encode_utf8, IsScalar};
ghost use Rattle.std.specs.Option.{option_map};
ghost use Rattle.std.specs.Str.{IsUtf8};
ghost use Rattle.wtf8_core.specs.Covered.{StartsWithNoCharacter};
ghost use Rattle.wtf8_core.specs.Occurrence.{IsPrefix, OccursNowhere};
ghost use Rattle.platform_str.specs.Strings.{bytes};
ghost use Rattle.os_args.specs.Kinds.{kind_of};
ghost use Rattle.os_args.specs.Word.{Kind, Long, LongBytes, Short, ShortBytes, Value, dash, dashes, equals, StartsAsNegative};
ghost use Rattle.os_args.specs.Reading.{Reading, words_left, Fault, UnexpectedValue, MissingValue, TakesWord, TakesValue, TakesOptionalValue, TakesRest};
ghost use Rattle.os_args.specs.Views.{outcome_of, reading};

use os_args::{ArgumentError, Arguments, Word, laws};
use platform_str::{OsStr, Platform};

/// An option or operand, of borrowed strings of a platform.
pub type WordOf<'a, E> = Word<'a, OsStr<'a, E>>;

/// Why there is none, or no value, of borrowed strings of a platform.
pub type ErrorOf<'a, E> = ArgumentError<'a, OsStr<'a, E>>;

/// Takes one option or operand, where it is known which.
pub fn known_word<'s, 'a, E: Platform + 'a>(
    arguments: &mut Arguments<'s, 'a, E>,
) -> Result<Option<WordOf<'a, E>>, ErrorOf<'a, E>>
    ensures { (known : Result (Option Kind) Fault) → (left : Reading)
        → TakesWord (reading arguments.old) known left
        → (outcome_of (λ read. option_map kind_of read) result ≡ known)
        × (reading arguments.new ≡ left) }
{
    laws::one_outcome();
    arguments.next()
}

/// Takes a value, where it is known which.
pub fn known_value<'s, 'a, E: Platform + 'a>(
    arguments: &mut Arguments<'s, 'a, E>,
) -> Result<OsStr<'a, E>, ErrorOf<'a, E>>
    ensures { (known : Result (List ℕ) Fault) → (left : Reading)
        → TakesValue (reading arguments.old) known left
        → (outcome_of bytes result ≡ known) × (reading arguments.new ≡ left) }
{
    laws::one_outcome();
    arguments.value()
}

/// Takes a value that may be left out, where it is known which.
pub fn known_optional_value<'s, 'a, E: Platform + 'a>(
    arguments: &mut Arguments<'s, 'a, E>,
) -> Option<OsStr<'a, E>>
    ensures { (known : Option (List ℕ)) → (left : Reading)
        → TakesOptionalValue (reading arguments.old) known left
        → (option_map bytes result ≡ known) × (reading arguments.new ≡ left) }
{
    laws::one_outcome();
    arguments.optional_value()
}

/// Takes all words that are left, where they are known.
pub fn known_rest<'s, 'a, E: Platform + 'a>(
    arguments: &mut Arguments<'s, 'a, E>,
) -> Result<&'s [OsStr<'a, E>], ErrorOf<'a, E>>
    ensures { (known : Result (List (List ℕ)) Fault) → (left : Reading)
        → TakesRest (reading arguments.old) known left
        → (outcome_of (λ words. map bytes words.now) result ≡ known)
        × (reading arguments.new ≡ left) }
{
    laws::one_outcome();
    arguments.rest()
}

/// The name and the value of a first word `--name=value`.
pub fn long_option<'a, E: Platform + 'a>(
    words: &[OsStr<'a, E>],
) -> (
    Result<Option<WordOf<'a, E>>, ErrorOf<'a, E>>,
    Result<OsStr<'a, E>, ErrorOf<'a, E>>,
)
    ensures text { (name : List ℕ) → (value : List ℕ) → (more : List (List ℕ)) → IsUtf8 name
        → OccursNowhere equals name
        → map bytes words.now ≡ (dashes ++ (name ++ (equals ++ value))) ∷ more
        → (outcome_of (λ read. option_map kind_of read) result.0 ≡ Ok (Some (Long name)))
        × (outcome_of bytes result.1 ≡ Ok value) }
    ensures no_text { (name : List ℕ) → (value : List ℕ) → (more : List (List ℕ)) → ¬ (IsUtf8 name)
        → OccursNowhere equals name
        → map bytes words.now ≡ (dashes ++ (name ++ (equals ++ value))) ∷ more
        → (outcome_of (λ read. option_map kind_of read) result.0 ≡ Ok (Some (LongBytes name)))
        × (outcome_of bytes result.1 ≡ Ok value) }
{
    laws::one_outcome();
    let mut arguments = Arguments::new(words);
    let word = arguments.next();
    let value = arguments.value();
    (word, value)
}

/// The flag and the value of a first word `-ovalue`.
pub fn short_option<'a, E: Platform + 'a>(
    words: &[OsStr<'a, E>],
) -> (
    Result<Option<WordOf<'a, E>>, ErrorOf<'a, E>>,
    Option<OsStr<'a, E>>,
)
    ensures { (flag : ℕ) → (value : List ℕ) → (more : List (List ℕ)) → IsScalar flag → value ≢ []
        → ¬ (IsPrefix equals value) → ¬ (IsPrefix dash (encode_utf8 flag ++ value))
        → map bytes words.now ≡ (dash ++ (encode_utf8 flag ++ value)) ∷ more
        → (outcome_of (λ read. option_map kind_of read) result.0 ≡ Ok (Some (Short flag)))
        × (option_map bytes result.1 ≡ Some value) }
{
    laws::one_outcome();
    let mut arguments = Arguments::new(words);
    let word = arguments.next();
    let value = arguments.optional_value();
    (word, value)
}

/// What is read of a first word `-rest` where no character is first, and of the word after it.
pub fn flags_of_no_text<'a, E: Platform + 'a>(
    words: &[OsStr<'a, E>],
) -> (
    Result<Option<WordOf<'a, E>>, ErrorOf<'a, E>>,
    Result<OsStr<'a, E>, ErrorOf<'a, E>>,
)
    ensures { (rest : List ℕ) → (word : List ℕ) → (more : List (List ℕ)) → rest ≢ []
        → StartsWithNoCharacter rest → ¬ (IsPrefix dash rest)
        → map bytes words.now ≡ (dash ++ rest) ∷ (word ∷ more)
        → (outcome_of (λ read. option_map kind_of read) result.0 ≡ Ok (Some (ShortBytes rest)))
        × (outcome_of bytes result.1 ≡ Ok word) }
{
    laws::one_outcome();
    let mut arguments = Arguments::new(words);
    let word = arguments.next();
    let value = arguments.value();
    (word, value)
}

/// The first word after a first word `--`.
pub fn after_dashes<'a, E: Platform + 'a>(
    words: &[OsStr<'a, E>],
) -> Result<Option<WordOf<'a, E>>, ErrorOf<'a, E>>
    ensures { (word : List ℕ) → (more : List (List ℕ))
        → map bytes words.now ≡ dashes ∷ (word ∷ more)
        → outcome_of (λ read. option_map kind_of read) result ≡ Ok (Some (Value word)) }
{
    laws::one_outcome();
    let mut arguments = Arguments::new(words);
    arguments.next()
}

/// A first word that starts as a negative number, where those are values.
pub fn negative_number<'a, E: Platform + 'a>(
    words: &[OsStr<'a, E>],
) -> Result<Option<WordOf<'a, E>>, ErrorOf<'a, E>>
    ensures { (word : List ℕ) → (more : List (List ℕ)) → StartsAsNegative word
        → map bytes words.now ≡ word ∷ more
        → outcome_of (λ read. option_map kind_of read) result ≡ Ok (Some (Value word)) }
{
    laws::one_outcome();
    let arguments = Arguments::new(words);
    let mut arguments = arguments.numbers_as_values();
    arguments.next()
}

/// What the next step returns for a value that nothing took.
pub fn value_too_many<'s, 'a, E: Platform + 'a>(
    arguments: &mut Arguments<'s, 'a, E>,
) -> Result<Option<WordOf<'a, E>>, ErrorOf<'a, E>>
    ensures { (value : List ℕ) → (reading arguments.old).pending ≡ equals ++ value
        → outcome_of (λ read. option_map kind_of read) result
        ≡ Err (UnexpectedValue (reading arguments.old).last value) }
{
    laws::one_outcome();
    arguments.next()
}

/// The last word, which is an operand, and what is said of a value after it: the option before it.
pub fn value_after_operand<'s, 'a, E: Platform + 'a>(
    arguments: &mut Arguments<'s, 'a, E>,
) -> (
    Result<Option<WordOf<'a, E>>, ErrorOf<'a, E>>,
    Result<OsStr<'a, E>, ErrorOf<'a, E>>,
)
    ensures { (word : List ℕ) → (reading arguments.old).pending ≡ []
        → (reading arguments.old).ended ≡ false → words_left (reading arguments.old) ≡ word ∷ []
        → ¬ (IsPrefix dash word)
        → (outcome_of (λ read. option_map kind_of read) result.0 ≡ Ok (Some (Value word)))
        × (outcome_of bytes result.1 ≡ Err (MissingValue (reading arguments.old).last)) }
{
    laws::one_outcome();
    let word = arguments.next();
    let value = arguments.value();
    (word, value)
}

/// What is read of no words: no option or operand, and no value.
pub fn no_words<'a, E: Platform + 'a>(
    words: &[OsStr<'a, E>],
) -> (
    Result<Option<WordOf<'a, E>>, ErrorOf<'a, E>>,
    Result<OsStr<'a, E>, ErrorOf<'a, E>>,
)
    ensures { map bytes words.now ≡ []
        → (outcome_of (λ read. option_map kind_of read) result.0 ≡ Ok None)
        × (outcome_of bytes result.1 ≡ Err (MissingValue None)) }
{
    laws::one_outcome();
    let mut arguments = Arguments::new(words);
    let word = arguments.next();
    let value = arguments.value();
    (word, value)
}
