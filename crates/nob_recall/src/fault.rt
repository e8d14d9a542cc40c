//! What stops a checker that follows.

ghost use Rattle.std.specs.Prelude.{◌≡◌};
ghost use Rattle.nob_recall.specs.declared.fault.WatchError.TheVariants.{OutOfMemory};

use nob_ids::SpaceId;
use std::alloc::{AllocError, AllocFailed};
use thiserror::Error;

/// What is wrong with what is followed: the first in the order of the merged entries. Places count
/// from 1 over all segments of a chain.
#[derive(Clone, Copy, Debug, PartialEq, Eq, Error)]
pub enum WatchFault {
    /// C4: what is followed isn't one chain of each space, each of as many spaces as there are.
    #[error("C4: the chains aren't one of each space")]
    Set,
    /// C1: the entry at this place of this space isn't the right answer after those before it.
    #[error("C1: space {0}, place {1}: not the right answer")]
    NotARun(SpaceId, u64),
    /// C3: no entry transmitted earlier the frame that arrives there.
    #[error("C3: space {0}, place {1}: the frame was not transmitted earlier")]
    NoOrigin(SpaceId, u64),
    /// C6: the frame that arrives there could bring nothing more, and isn't remembered: whether it
    /// was transmitted can't be told any more.
    #[error("C6: space {0}, place {1}: the frame came too late to be judged")]
    Late(SpaceId, u64),
    /// C5: the seal of the segment of this number of this space isn't that of the entries up to it.
    #[error("C5: space {0}, segment {1}: not the seal of the entries up to it")]
    Seal(SpaceId, u64),
}

/// Why nothing more is passed.
#[derive(Clone, Copy, Debug, PartialEq, Eq, Error)]
pub enum WatchError {
    /// Something is wrong with what is followed.
    #[error(transparent)]
    Fault(WatchFault),
    /// A growth was refused.
    #[error("out of memory")]
    OutOfMemory,
}

impl From<AllocError> for WatchError {
    ghost from_gives = { λ _ e. e ≡ OutOfMemory };

    fn from(_e: AllocError) -> WatchError {
        WatchError::OutOfMemory
    }
}

impl<T: Drop> From<AllocFailed<T>> for WatchError {
    ghost from_gives = { λ _ e. e ≡ OutOfMemory };

    fn from(_e: AllocFailed<T>) -> WatchError {
        WatchError::OutOfMemory
    }
}
