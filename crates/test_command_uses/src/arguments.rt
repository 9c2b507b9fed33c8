//! Options and operands of a program, as they are read, and queries of them.
ghost use Rattle.std.specs.Prelude.{◌≡◌, ◌≢◌, ◌∷◌, [], ℕ, List, None, map, string_bytes, IfOk, IfErr, IsTrue, MatchOption, ◌↔◌};
ghost use Rattle.std.specs.Option.{option_map};
ghost use Rattle.list_programs.specs.Arguments.{AreGiven, AreValues, HasOption, IsReadFault, LastValue, operands_of, text_of};
ghost use Rattle.names_commands.specs.Options.{has_value, spelled};
ghost use Rattle.names_commands.specs.declared.option.NamesOption.TheVariants.{Glob, Help, Max};

use list_programs::arguments::{
    Given, ReadFault, has, last_value, next_operand, read_arguments, values,
};
use names_commands::option::NamesOption;
use std::alloc::{AllocError, Allocator};

/// The options and operands of the program for names.
pub fn options_of_names<'a, A: Allocator + Copy>(
    alloc: A,
    words: &'a [String],
) -> Result<Vec<Given<'a, NamesOption>, A>, ReadFault<'a>>
    ensures given { IfOk result
        (λ given. AreGiven spelled has_value (map string_bytes words.entry.now) given.items) }
    ensures fault { IfErr result
        (λ fault. IsReadFault spelled has_value (map string_bytes words.entry.now) fault) }
{
    read_arguments(alloc, words)
}

/// The one operand, where there is one and no other.
pub fn only_operand<'a>(given: &[Given<'a, NamesOption>]) -> Option<&'a str>
    ensures { MatchOption result ((word : List ℕ) → operands_of given.now ≢ word ∷ [])
        (λ word. operands_of given.now ≡ word.now ∷ []) }
{
    let Some((word, rest)) = next_operand(given) else {
        return None;
    };
    match next_operand(rest) {
        Some(_) => None,
        None => Some(word),
    }
}

/// Whether help is requested, wherever the option comes.
pub fn requests_help(given: &[Given<'_, NamesOption>]) -> bool
    ensures { IsTrue result ↔ HasOption Help given.now }
{
    has(given, NamesOption::Help)
}

/// The last limit.
pub fn last_limit<'a>(given: &[Given<'a, NamesOption>]) -> Option<&'a str>
    ensures { LastValue Max given.now None (option_map text_of result) }
{
    last_value(given, NamesOption::Max)
}

/// The patterns of options, in order.
pub fn patterns_of_options<'a, A: Allocator>(
    alloc: A,
    given: &[Given<'a, NamesOption>],
) -> Result<Vec<&'a str, A>, AllocError>
    ensures { IfOk result (λ patterns. AreValues Glob given.now (map text_of patterns.items)) }
{
    values(alloc, given, NamesOption::Glob)
}
