//! Why a trace isn't read or written.

ghost use Rattle.std.specs.Prelude.{◌≡◌};
ghost use Rattle.nob_trace.specs.declared.fault.TraceError.TheVariants.{Fault, OutOfMemory};

use std::alloc::{AllocError, AllocFailed};
use thiserror::Error;

/// What is wrong with the text of a trace, at the first line that isn't as it should be, or with a
/// trace that is to be written.
#[derive(Clone, Copy, Debug, PartialEq, Eq, Error)]
pub enum TraceFault {
    /// R1: the first line isn't whole, or fewer whole lines follow than it says.
    #[error("R1: the trace isn't all there")]
    Short,
    /// R2: a line is no spelling, or a frame that is to be written has none.
    #[error("R2: a line is no spelling")]
    Entry,
    /// R3: a stamp is 0 or not above the one before.
    #[error("R3: a stamp doesn't rise")]
    Stamp,
    /// R4: bytes stand after the one trace.
    #[error("R4: bytes after the trace")]
    Trailing,
    /// R5: a trace of version 1 that is to be written speaks of a session after the first.
    #[error("R5: the trace's version has no spelling for it")]
    Version,
}

/// Why a trace wasn't read or written.
#[derive(Clone, Copy, Debug, PartialEq, Eq, Error)]
pub enum TraceError {
    /// The text or the trace is refused.
    #[error(transparent)]
    Fault(TraceFault),
    /// A growth was refused.
    #[error("out of memory")]
    OutOfMemory,
}

impl From<TraceFault> for TraceError {
    ghost from_gives = { λ fault e. e ≡ Fault fault };

    fn from(fault: TraceFault) -> TraceError {
        TraceError::Fault(fault)
    }
}

impl From<AllocError> for TraceError {
    ghost from_gives = { λ _ e. e ≡ OutOfMemory };

    fn from(_e: AllocError) -> TraceError {
        TraceError::OutOfMemory
    }
}

impl<T: Drop> From<AllocFailed<T>> for TraceError {
    ghost from_gives = { λ _ e. e ≡ OutOfMemory };

    fn from(_e: AllocFailed<T>) -> TraceError {
        TraceError::OutOfMemory
    }
}
