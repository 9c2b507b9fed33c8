//! Whether the braces of a pattern open and close alternatives.
ghost use Rattle.std.specs.Prelude.{◌≡◌, ◌+◌, ◌<◌, ◌^◌, true, map, MatchOption};
ghost use Rattle.glob_text.specs.Marks.{mark_of};
ghost use Rattle.glob_text.specs.Braces.{are_balanced, IsBraceFault};
ghost use Rattle.glob_text.specs.BraceSteps.{LookSays};

use crate::fault::{FaultKind, PatternFault};
use crate::mark::Mark;
use std::alloc::Allocator;

/// What one more mark does to the open alternatives.
#[derive(Clone, Copy)]
enum Scan {
    /// The number of alternatives that are open after it, and the index of the brace that opens the
    /// outermost.
    Open(usize, usize),
    /// It closes nothing. This is its index.
    Unopened(usize),
}

/// Looks at one more mark, where `depth` alternatives are open. The brace at `outermost` opens the
/// outermost.
fn look<A: Allocator>(mark: &Mark<A>, depth: usize, outermost: usize) -> Scan
    requires { depth + 1 < 2 ^ 64 }
    ensures { LookSays depth outermost (mark_of mark.now) result }
{
    match mark {
        Mark::Open(index) => {
            if depth == 0 {
                return Scan::Open(depth + 1, *index);
            }
            Scan::Open(depth + 1, outermost)
        }
        Mark::Close(index) => {
            if depth == 0 {
                return Scan::Unopened(*index);
            }
            Scan::Open(depth - 1, outermost)
        }
        Mark::Literal(_) => Scan::Open(depth, outermost),
        Mark::Any => Scan::Open(depth, outermost),
        Mark::Star(_) => Scan::Open(depth, outermost),
        Mark::OneOf(_) => Scan::Open(depth, outermost),
        Mark::Comma => Scan::Open(depth, outermost),
    }
}

/// The first brace that is at fault: one that closes nothing, or else the outermost that isn't
/// closed.
pub(crate) fn brace_fault<A: Allocator>(marks: &[Mark<A>]) -> Option<PatternFault>
    ensures { MatchOption result (are_balanced 0 (map mark_of marks.entry.now) ≡ true)
        (λ fault. IsBraceFault (map mark_of marks.entry.now) fault) }
{
    let mut left = marks;
    let mut depth: usize = 0;
    let mut outermost: usize = 0;
    while let Some((mark, rest)) = left.split_first() {
        match look(mark, depth, outermost) {
            Scan::Unopened(index) => {
                return Some(PatternFault {
                    kind: FaultKind::UnopenedAlternatives,
                    index,
                });
            }
            Scan::Open(inner, outer) => {
                depth = inner;
                outermost = outer;
                left = rest;
            }
        }
    }
    if depth == 0 {
        return None;
    }
    Some(PatternFault {
        kind: FaultKind::UnclosedAlternatives,
        index: outermost,
    })
}
