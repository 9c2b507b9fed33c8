//! Compiled patterns, and the texts that they are compiled from.
ghost use Rattle.std.specs.Prelude.{◌≡◌, ◌↔◌, ◌++◌, ℕ, IfOk, IsTrue, MatchResult, OnOk, OnErr};
ghost use Rattle.glob_text.specs.Texts.{IsFault, IsMeaning};
ghost use Rattle.wildcards.specs.ByteLetters.{AnyBytes, itself};
ghost use Rattle.wildcards.specs.Groups.{group};
ghost use Rattle.wildcards.specs.Match.{Matches};
ghost use Rattle.wildcards.specs.Sets.{AreHits, IsHit, MatchesChoice};

use glob_text::{PatternFault, Syntax};
use std::alloc::{AllocError, Allocator};
use wildcards::{Bytes, Choice, Letters, Options, Part, PatternSet, Piece};

/// The compiled form of a pattern's text.
pub fn compile<A: Allocator + Copy>(
    alloc: A,
    syntax: Syntax,
    text: &[u8],
) -> Result<Result<Vec<Choice<A>, A>, PatternFault>, AllocError>
    ensures { IfOk result (λ read. MatchResult read
        (λ compiled. IsMeaning AnyBytes itself syntax text.now compiled.items)
        (λ fault. IsFault AnyBytes itself syntax text.now fault)) }
{
    glob_text::compile::<Bytes, A>(alloc, syntax, text)
}

/// Appends a part to a pattern, which is unchanged if memory is short.
pub fn push_group<A: Allocator>(
    pattern: &mut Vec<Piece<Part<A>>, A>,
    part: Part<A>,
    deep: bool,
    joined: bool,
) -> Result<(), AllocError>
    ensures appended { OnOk result
        (pattern.new.items ≡ pattern.old.items ++ group deep joined part) }
    ensures unchanged { OnErr result (pattern.new.items ≡ pattern.old.items) }
{
    wildcards::push_group(pattern, part, deep, joined)
}

/// Whether a pattern matches a path.
pub fn matches<L: Letters, A: Allocator>(
    options: Options,
    pattern: &[Piece<Part<A>>],
    path: &[u8],
) -> bool
    requires { L.formed path.now }
    ensures { IsTrue result ↔ Matches options pattern.now (L.letters path.now) }
{
    wildcards::matches::<L, A>(options, pattern, path)
}

/// Whether one of the choices of a pattern matches a path.
pub fn matches_choice<L: Letters, A: Allocator>(
    options: Options,
    choices: &[Choice<A>],
    path: &[u8],
) -> bool
    requires { L.formed path.now }
    ensures { IsTrue result ↔ MatchesChoice options choices.now (L.letters path.now) }
{
    wildcards::matches_choice::<L, A>(options, choices, path)
}

/// Whether a pattern of a set matches a path.
pub fn is_match<L: Letters, A: Allocator>(set: &PatternSet<A>, path: &[u8]) -> bool
    requires { L.formed path.now }
    ensures { IsTrue result ↔ ((i : ℕ) × IsHit set.now.options set.now.patterns.items
        (L.letters path.now) i) }
{
    set.is_match::<L>(path)
}

/// The indices of the patterns of a set that match a path.
pub fn matching<L: Letters, A: Allocator, B: Allocator>(
    set: &PatternSet<A>,
    path: &[u8],
    found: &mut Vec<usize, B>,
) -> Result<(), AllocError>
    requires { L.formed path.now }
    ensures { OnOk result (AreHits set.now.options set.now.patterns.items (L.letters path.now)
        found.new.items) }
{
    set.matches::<L, B>(path, found)
}
