//! What is wrong with a set of chains.

ghost use Rattle.std.specs.Prelude.{◌≡◌};
ghost use Rattle.nob_model_chains.specs.declared.fault.SetError.TheVariants.{Fault, OutOfMemory};

use nob_ids::SpaceId;
use nob_model_traces::CheckFault;
use std::alloc::{AllocError, AllocFailed};
use thiserror::Error;

/// What is wrong with a set of chains: the first of C4; C1 and C5, chain by chain in order of
/// space; C2 and C3. Places count from 1 over all segments of a chain.
#[derive(Clone, Copy, Debug, PartialEq, Eq, Error)]
pub enum SetFault {
    /// C4, C1, C2 or C3, of the traces that the chains are.
    #[error(transparent)]
    Traces(CheckFault),
    /// C5: the seal of the segment of this number of this space isn't that of the entries up to it.
    #[error("C5: space {0}, segment {1}: not the seal of the entries up to it")]
    Seal(SpaceId, usize),
}

/// What is wrong in a chain.
#[derive(Clone, Copy, Debug, PartialEq, Eq)]
pub enum WrongPart {
    /// The entry at this place, from 1 over all segments, isn't the right answer.
    Entry(usize),
    /// The seal of the segment of this number isn't that of the entries up to it.
    Seal(usize),
}

/// What is wrong in the chain of a space.
#[derive(Clone, Copy, Debug, PartialEq, Eq)]
pub struct WrongChain {
    /// The space.
    pub space: SpaceId,
    /// What is wrong.
    pub part: WrongPart,
}

/// Why chains aren't accepted.
#[derive(Clone, Copy, Debug, PartialEq, Eq, Error)]
pub enum SetError {
    /// Something is wrong with them.
    #[error(transparent)]
    Fault(SetFault),
    /// A growth was refused.
    #[error("out of memory")]
    OutOfMemory,
}

impl From<SetFault> for SetError {
    ghost from_gives = { λ fault e. e ≡ Fault fault };

    fn from(fault: SetFault) -> SetError {
        SetError::Fault(fault)
    }
}

impl From<AllocError> for SetError {
    ghost from_gives = { λ _ e. e ≡ OutOfMemory };

    fn from(_e: AllocError) -> SetError {
        SetError::OutOfMemory
    }
}

impl<T: Drop> From<AllocFailed<T>> for SetError {
    ghost from_gives = { λ _ e. e ≡ OutOfMemory };

    fn from(_e: AllocFailed<T>) -> SetError {
        SetError::OutOfMemory
    }
}
