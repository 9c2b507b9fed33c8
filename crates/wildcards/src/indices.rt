//! Lists of numbers.
ghost use Rattle.std.specs.Prelude.{◌↔◌, ℕ, IsTrue};
ghost use Rattle.wildcards.specs.Sets.{Has, Ascends};

use std::alloc::Allocator;

/// Whether the list has a number.
pub(crate) fn has(list: &[usize], number: usize) -> bool
    ensures { IsTrue result ↔ Has list.entry.now number }
{
    let mut left = list;
    while let Some((first, rest)) = left.split_first() {
        if *first == number {
            return true;
        }
        left = rest;
    }
    false
}

/// Whether each number is below the next.
fn ascends(list: &[usize]) -> bool
    ensures { IsTrue result → Ascends list.entry.now }
{
    let mut left = list;
    while let Some((first, rest)) = left.split_first() {
        if let Some((next, _)) = rest.split_first() {
            if *first >= *next {
                return false;
            }
        }
        left = rest;
    }
    true
}

/// Sorts numbers and keeps each once. Where they ascend already, as where one key of a path found all of
/// them, they are only read.
pub(crate) fn make_ascending<A: Allocator>(numbers: &mut Vec<usize, A>)
    ensures same { (i : ℕ) → Has numbers.old.items i ↔ Has numbers.new.items i }
    ensures ascends { Ascends numbers.new.items }
{
    if ascends(numbers) {
        return;
    }
    numbers.sort_unstable();
    numbers.dedup();
}
