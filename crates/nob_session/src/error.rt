//! Why a call on a session gave no answer of its own.

ghost use Rattle.std.specs.Prelude.{◌≡◌};
ghost use Rattle.nob_session.specs.declared.error.SessionError.TheVariants.{Refused, OutOfMemory};

use nob_model_session::EndRefusal;
use std::alloc::{AllocError, AllocFailed};
use thiserror::Error;

/// A refusal, or want of memory. Both leave the session as it was.
#[derive(Clone, Copy, Debug, PartialEq, Eq, Error)]
pub enum SessionError {
    /// The session refuses the call.
    #[error("{0}")]
    Refused(EndRefusal),
    /// Memory ran out.
    #[error("out of memory")]
    OutOfMemory,
}

impl From<EndRefusal> for SessionError {
    ghost from_gives = { λ refusal e. e ≡ Refused refusal };

    fn from(refusal: EndRefusal) -> SessionError {
        SessionError::Refused(refusal)
    }
}

impl From<AllocError> for SessionError {
    ghost from_gives = { λ _ e. e ≡ OutOfMemory };

    fn from(_error: AllocError) -> SessionError {
        SessionError::OutOfMemory
    }
}

impl<T: Drop> From<AllocFailed<T>> for SessionError {
    ghost from_gives = { λ _ e. e ≡ OutOfMemory };

    fn from(_error: AllocFailed<T>) -> SessionError {
        SessionError::OutOfMemory
    }
}
