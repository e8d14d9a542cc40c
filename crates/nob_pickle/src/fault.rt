//! Why there is no pickle, or no value.

ghost use Rattle.std.specs.Prelude.{◌≡◌};
ghost use Rattle.nob_pickle.specs.declared.fault.PickleError.TheVariants as errors;

use std::alloc::{AllocError, AllocFailed};
use thiserror::Error;

/// What is wrong with bytes that spell no value, or with a value that has no spelling.
#[derive(Clone, Copy, Debug, PartialEq, Eq, Error)]
pub enum PickleFault {
    /// The bytes end inside a value.
    #[error("P1: the input ends inside a value")]
    Short,
    /// A first byte that no value has.
    #[error("P2: no value begins so")]
    Tag,
    /// More than 8,192 bytes in one value.
    #[error("P3: more than 8192 bytes in one value")]
    Bytes,
    /// More than 256 elements in one list.
    #[error("P4: more than 256 elements in one list")]
    Count,
    /// More than 16 levels.
    #[error("P5: more than 16 levels")]
    Depth,
    /// Bytes stand after the value.
    #[error("P6: bytes after the value")]
    Trailing,
    /// A reference whose owner is no space.
    #[error("P7: the owner is no space")]
    Space,
    /// More than 16,000 bytes in all, or more than 32 references.
    #[error("P8: more than 16000 bytes or 32 references")]
    TooBig,
}

/// Why a pickle could not be made or read.
#[derive(Clone, Copy, Debug, PartialEq, Eq, Error)]
pub enum PickleError {
    /// The bytes or the value are at fault.
    #[error("{0}")]
    Fault(PickleFault),
    /// Memory ran out.
    #[error("out of memory")]
    OutOfMemory,
}

impl From<PickleFault> for PickleError {
    ghost from_gives = { λ fault e. e ≡ errors.Fault fault };

    fn from(fault: PickleFault) -> PickleError {
        PickleError::Fault(fault)
    }
}

impl From<AllocError> for PickleError {
    ghost from_gives = { λ _ e. e ≡ errors.OutOfMemory };

    fn from(_error: AllocError) -> PickleError {
        PickleError::OutOfMemory
    }
}

impl<T: Drop> From<AllocFailed<T>> for PickleError {
    ghost from_gives = { λ _ e. e ≡ errors.OutOfMemory };

    fn from(_error: AllocFailed<T>) -> PickleError {
        PickleError::OutOfMemory
    }
}
