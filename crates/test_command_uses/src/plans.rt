//! Plans of failures, and runs under one after another.
ghost use Rattle.std.specs.Prelude.{◌≡◌, ◌↔◌, ◌^◌, ◌-◌, IfOk, IfErr, IsTrue, Result, true};
ghost use Rattle.test_allocator.specs.Turns.{RanUnder, each_request};
ghost use Rattle.test_allocator.specs.declared.plan.Plan.{Plan};

use std::alloc::{AllocError, Allocator};
use test_allocator::{Failing, Plan, for_each_failure};

/// Whether a request fails if the plan begins with a failure.
#[tactic(auto, unfolding(test_allocator::specs::Plan::Fails))]
pub fn fails_first(number: u64) -> bool
    ensures { IsTrue result ↔ 1 ≡ number }
{
    Plan::Nth(1).fails(number)
}

/// Whether a vector in memory that may be denied holds the bytes that it is made of.
pub fn kept<A: Allocator>(heap: &Failing<A>, bytes: &[u8]) -> Result<bool, AllocError>
    ensures { IfOk result (λ same. same ≡ true) }
{
    let copy = Vec::from_slice(heap, bytes)?;
    Ok(copy.as_slice() == bytes)
}

/// Runs a test under one plan after another. It has one run alone where the second can't end well,
/// and fails only after all of them where no run does.
pub fn turns<A, F>(alloc: A, test: F) -> Result<u64, AllocError>
where
    A: Allocator + Copy,
    F: FnMut(&Failing<A>, Plan) -> Result<(), AllocError>,
    requires { F.IsAlwaysCallable test }
    ensures one { ((before after : F) → (heap : _)
        → ¬ (F.step before heap (Plan.Nth 2) (Ok tt) after))
        → IfOk result (λ failed. failed ≡ 0) }
    ensures all { ((before after : F) → (heap : _) → (plan : Plan)
        → (answer : Result Unit AllocError) → F.step before heap plan answer after → answer ≡ Ok tt)
        → IfErr result (λ _. (last : F) × RanUnder F.step test (each_request (2 ^ 64 - 1)) last) }
{
    for_each_failure(alloc, test)
}
