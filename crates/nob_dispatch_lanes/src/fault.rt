//! Why a lane isn't made, and why an errand isn't given.

use std::alloc::AllocError;
use thiserror::Error;

/// Why a lane isn't made.
#[derive(Clone, Copy, Debug, PartialEq, Eq, Error)]
pub enum LaneError {
    /// H2: the capacity isn't 1 to 1,024.
    #[error("H2: a lane holds 1 to 1,024 errands")]
    Capacity,
    /// A growth was refused.
    #[error("out of memory")]
    OutOfMemory,
}

impl From<AllocError> for LaneError {
    ghost use Rattle.std.specs.Prelude.{◌≡◌};
    ghost use Rattle.nob_dispatch_lanes.specs.declared.fault.LaneError.TheVariants.{OutOfMemory};

    ghost from_gives = { λ _ e. e ≡ OutOfMemory };

    fn from(_error: AllocError) -> LaneError {
        LaneError::OutOfMemory
    }
}

/// H1: nobody gets from the lane any more. The errand comes back.
#[derive(Drop)]
pub struct Gone<T> {
    /// The errand that wasn't given.
    pub errand: T,
}
