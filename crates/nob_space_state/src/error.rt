//! Why a space doesn't do what it is asked.

ghost use Rattle.std.specs.Prelude.{◌≡◌};
ghost use Rattle.nob_space_state.specs.declared.error.SpaceError.TheVariants as errors;

use nob_model::Refusal;
use std::alloc::AllocError;
use thiserror::Error;

/// Why a space doesn't do what it is asked. The space is then as it was.
#[derive(Clone, Copy, Debug, PartialEq, Eq, Drop, Error)]
pub enum SpaceError {
    /// The event is refused.
    #[error(transparent)]
    Refused(Refusal),
    /// S14: there is no memory. Nothing else refuses the event.
    #[error("S14: out of memory")]
    OutOfMemory,
}

impl From<Refusal> for SpaceError {
    ghost from_gives = { λ refusal e. e ≡ errors.Refused refusal };

    fn from(refusal: Refusal) -> SpaceError {
        SpaceError::Refused(refusal)
    }
}

impl From<AllocError> for SpaceError {
    ghost from_gives = { λ _ e. e ≡ errors.OutOfMemory };

    fn from(_: AllocError) -> SpaceError {
        SpaceError::OutOfMemory
    }
}
