//! What calls that request memory return.
use std::alloc::AllocError;

/// What a call that appends returns: `AllocError` if the allocation fails.
pub(crate) type Pushed = Result<(), AllocError>;
