//! The allocator whose requests fail as planned.
ghost use Rattle.std.specs.Prelude.{◌≡◌};
ghost use Rattle.test_allocator.specs.Failing.{allocator_of};

use crate::Plan;
use crate::requests::Requests;
use std::alloc::{AllocError, Allocator};

/// Wraps another allocator. The requests of a [`Plan`] fail with `AllocError`, and every other
/// request is passed on. It also counts the requests.
///
/// A collection takes it as `&heap`, and the test keeps `heap` to query whether a request failed:
///
/// ```text
/// let heap = Failing::new(rt.alloc(), Plan::Never);
/// let mut bytes = Vec::from_slice(&heap, b"abc")?;
/// heap.restart(Plan::Nth(1));
/// assert_eq!(rt; bytes.extend_from_slice(b"defghi"), Err(AllocError));
/// assert!(rt; heap.failed());
/// assert_eq!(rt; bytes.as_slice(), b"abc".as_slice());
/// ```
///
/// One request is a call of `allocate`, `grow` or `shrink`. The last two keep their bodies from the
/// trait, which call `allocate` once, for a new block of the whole new size. So a block never grows
/// in place, and if the new block can't be allocated the old one is unchanged. Giving a block back
/// is no request. std returns `AllocError` at a size of 2^63 bytes or more without a request.
#[derive(Drop)]
pub struct Failing<A: Allocator> {
    alloc: A,
    requests: Requests,
}

impl<A: Allocator> Failing<A> {
    /// Wraps `alloc`, with no request made yet.
    pub fn new(alloc: A, plan: Plan) -> Failing<A>
        ensures { allocator_of result ≡ alloc }
    {
        Failing {
            alloc,
            requests: Requests::new(plan),
        }
    }

    /// Follows this plan from now on, and counts from the start: the next request has number 1.
    pub fn restart(&self, plan: Plan) {
        self.requests.restart(plan);
    }

    /// Returns the number of requests that were made under this plan, whether they failed or not.
    pub fn requested(&self) -> u64 {
        self.requests.requested()
    }

    /// Returns whether a request failed under this plan.
    pub fn failed(&self) -> bool {
        self.requests.failed()
    }
}

unsafe impl<A: Allocator> Allocator for Failing<A> {
    ghost dealloc_token = { λ heap. A.dealloc_token (allocator_of heap) };

    fn allocate(&self, size: usize, align: usize) -> Result<*mut u8, AllocError> {
        if self.requests.fails_next() {
            return Err(AllocError);
        }
        self.alloc.allocate(size, align)
    }

    unsafe fn deallocate(&self, ptr: *mut u8, size: usize, align: usize) {
        self.alloc.deallocate(ptr, size, align);
    }
}
