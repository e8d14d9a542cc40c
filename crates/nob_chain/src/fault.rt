//! Why a chain isn't read or written.

ghost use Rattle.std.specs.Prelude.{◌≡◌};
ghost use Rattle.nob_chain.specs.declared.fault.ChainError.TheVariants.{Fault, OutOfMemory};

use std::alloc::{AllocError, AllocFailed};
use thiserror::Error;

/// What is wrong with the text of a chain, at the first line that isn't as it should be, or with a
/// chain that is to be written.
#[derive(Clone, Copy, Debug, PartialEq, Eq, Error)]
pub enum ChainFault {
    /// R1: a line that is due isn't there, or not whole.
    #[error("R1: the chain isn't all there")]
    Short,
    /// R2: a line is no spelling of what is due; or a chain that is to be written has a frame
    /// without a spelling, or a segment without a seal.
    #[error("R2: a line is no spelling")]
    Entry,
    /// R3: a stamp is 0 or not above the one before, over all segments.
    #[error("R3: a stamp doesn't rise")]
    Stamp,
    /// R4: bytes stand after the one chain.
    #[error("R4: bytes after the chain")]
    Trailing,
    /// R6: a segment's number is out of turn, or it has no entries.
    #[error("R6: a segment out of turn or without entries")]
    Segment,
}

/// Why a chain wasn't read or written.
#[derive(Clone, Copy, Debug, PartialEq, Eq, Error)]
pub enum ChainError {
    /// The text or the chain is refused.
    #[error(transparent)]
    Fault(ChainFault),
    /// A growth was refused.
    #[error("out of memory")]
    OutOfMemory,
}

impl From<ChainFault> for ChainError {
    ghost from_gives = { λ fault e. e ≡ Fault fault };

    fn from(fault: ChainFault) -> ChainError {
        ChainError::Fault(fault)
    }
}

impl From<AllocError> for ChainError {
    ghost from_gives = { λ _ e. e ≡ OutOfMemory };

    fn from(_e: AllocError) -> ChainError {
        ChainError::OutOfMemory
    }
}

impl<T: Drop> From<AllocFailed<T>> for ChainError {
    ghost from_gives = { λ _ e. e ≡ OutOfMemory };

    fn from(_e: AllocFailed<T>) -> ChainError {
        ChainError::OutOfMemory
    }
}
