//! Why a search stops.

use std::alloc::AllocError;

/// Why a search stops before it has a verdict.
#[derive(Clone, Copy)]
pub enum Stop {
    /// Memory ran out.
    OutOfMemory,
    /// There are too many states, or too many templates to read.
    TooManyStates,
}

impl From<AllocError> for Stop {
    fn from(_e: AllocError) -> Stop {
        Stop::OutOfMemory
    }
}
