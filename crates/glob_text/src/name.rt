//! The names of classes in a text.
ghost use Rattle.std.specs.Prelude.{◌≡◌, ◌++◌, ◌≤◌, length, Some, None, MatchOption, IfOk, IfSome};
ghost use Rattle.wildcards.specs.ClassName.{all_names, name_ranges};
ghost use Rattle.glob_text.specs.ClassText.{after_text, known_name};

use crate::symbol::Symbol;
use std::alloc::{AllocError, Allocator};
use wildcards::{ClassName, Range};

/// Appends the letters of a named class.
pub(crate) fn push_named<A: Allocator>(
    name: ClassName,
    ranges: &mut Vec<Range, A>,
) -> Result<(), AllocError>
    ensures { IfOk result (λ _. ranges.new.items ≡ ranges.old.items ++ name_ranges name) }
{
    ranges.extend_from_slice(name.ranges())
}

/// What comes after a text that symbols begin with.
fn after_text<'a>(text: &[u8], symbols: &'a [Symbol]) -> Option<&'a [Symbol]>
    ensures rest { MatchOption result (after_text text.entry.now symbols.entry.now ≡ None)
        (λ rest. after_text text.entry.now symbols.entry.now ≡ Some rest.now) }
    ensures shorter { IfSome result (λ rest. length rest.now ≤ length symbols.entry.now) }
{
    let mut wanted = text;
    let mut left = symbols;
    while let Some((byte, more)) = wanted.split_first() {
        let (symbol, rest) = left.split_first()?;
        if symbol.letter != u32::from(*byte) {
            return None;
        }
        wanted = more;
        left = rest;
    }
    Some(left)
}

/// The first of the names that symbols begin with, and what comes after it.
fn first_known<'a>(names: &[ClassName], symbols: &'a [Symbol]) -> Option<(ClassName, &'a [Symbol])>
    ensures name { MatchOption result (known_name names.entry.now symbols.now ≡ None)
        (λ p. known_name names.entry.now symbols.now ≡ Some (p.0, p.1.now)) }
    ensures shorter { IfSome result (λ p. length p.1.now ≤ length symbols.now) }
{
    let mut left = names;
    while let Some((name, more)) = left.split_first() {
        if let Some(rest) = after_text(name.text(), symbols) {
            return Some((*name, rest));
        }
        left = more;
    }
    None
}

/// The name that symbols begin with, and what comes after it.
pub(crate) fn known_name(symbols: &[Symbol]) -> Option<(ClassName, &[Symbol])>
    ensures name { MatchOption result (known_name all_names symbols.now ≡ None)
        (λ p. known_name all_names symbols.now ≡ Some (p.0, p.1.now)) }
    ensures shorter { IfSome result (λ p. length p.1.now ≤ length symbols.now) }
{
    first_known(ClassName::all(), symbols)
}
