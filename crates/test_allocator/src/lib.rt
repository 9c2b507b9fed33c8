//! For tests: an allocator whose requests fail as planned, so that each path on which memory runs
//! out is run.
//!
//! [`Failing`] wraps another allocator, and the requests that a [`Plan`] names fail.
//! [`for_each_failure`] lets each request of a call fail in turn.
//!
//! Memory safety is proved: a block that [`Failing`] returns is the inner allocator's own, a
//! failed request returns no block, and each block goes back to where it came from. It is also
//! proved which requests of a plan fail ([`Plan::fails`]). [`for_each_failure`] is proved to run under
//! one plan after another, at least as many as the number that it returns, and it is proved when it
//! returns `Err`.
//!
//! The counts are in cells, and no contract can state what a cell holds. So it is only tested that
//! requests are counted, that the request with the plan's number is the one that fails, and that
//! the runs end at the first in which none fails.
#![tactic(auto)]

mod allocator;
mod plan;
mod requests;
mod turns;

pub use allocator::Failing;
pub use plan::Plan;
pub use turns::for_each_failure;
