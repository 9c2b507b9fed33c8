//! Each request of a call, failing in turn.
ghost use Rattle.std.specs.Prelude.{◌+◌, IfOk, IfErr};
ghost use Rattle.test_allocator.specs.Turns.{each_request, RanUnder, EndedIn};

use crate::{Failing, Plan};
use std::alloc::{AllocError, Allocator};

/// Calls `test` with the plan `Nth(1)`, then `Nth(2)`, and so on, until a run in which no request
/// failed. Each run has an allocator of its own with the plan `Never`. The result is the number of
/// runs in which one failed, which is the number of requests in the tested call.
///
/// `test` makes what it needs, calls [`Failing::restart`] with the plan, and makes the tested
/// call. Then it calls [`Failing::failed`] to choose the expected result:
///
/// ```text
/// let requests = for_each_failure(rt.alloc(), |heap, plan| {
///     let mut bytes = Vec::from_slice(heap, b"abc")?;
///     heap.restart(plan);
///     let answer = bytes.extend_from_slice(b"defghi");
///     if heap.failed() {
///         assert_eq!(rt; answer, Err(AllocError));
///         assert_eq!(rt; bytes.as_slice(), b"abc".as_slice());
///     } else {
///         assert_eq!(rt; answer, Ok(()));
///         assert_eq!(rt; bytes.as_slice(), b"abcdefghi".as_slice());
///     }
///     Ok(())
/// })?;
/// assert_eq!(rt; requests, 1);
/// ```
///
/// Compare the count: at 0 no request failed, as if `test` leaves out `restart`.
///
/// # Errors
///
/// The first `Err` of `test` ends the runs and is returned. Otherwise `Err` is returned only after
/// 2^64 - 1 runs, each with a failed request.
pub fn for_each_failure<A, F>(alloc: A, mut test: F) -> Result<u64, AllocError>
where
    A: Allocator + Copy,
    F: FnMut(&Failing<A>, Plan) -> Result<(), AllocError>,
    requires { F.IsAlwaysCallable test }
    ensures turns { IfOk result (λ failed. (last : F)
        × RanUnder F.step test (each_request (failed + 1)) last) }
    ensures ended { IfErr result (EndedIn F.step test) }
{
    for failed in 0..u64::MAX {
        let heap = Failing::new(alloc, Plan::Never);
        test(&heap, Plan::Nth(failed + 1))?;
        if !heap.failed() {
            return Ok(failed);
        }
    }
    Err(AllocError)
}
