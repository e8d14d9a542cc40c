//! Why a step of a world isn't done.

ghost use Rattle.std.specs.Prelude.{◌≡◌};
ghost use Rattle.nob_world.specs.declared.error.WorldError.TheVariants as errors;

use nob_model::Refusal;
use std::alloc::AllocError;
use thiserror::Error;

/// Why a step of a world isn't done. A refusal of its space makes an entry, as an answer does; of
/// all else the world is as it was.
#[derive(Clone, Copy, Debug, PartialEq, Eq, Drop, Error)]
pub enum WorldError {
    /// Its space refuses the event, for this reason.
    #[error(transparent)]
    Refused(Refusal),
    /// X1: there is no such space.
    #[error("X1: there is no such space")]
    NoSpace,
    /// X2: no such frame was transmitted, or a space is asked to let one arrive that isn't
    /// delivered.
    #[error("X2: no such frame was transmitted")]
    NoFrame,
    /// X3: there is no memory.
    #[error("X3: out of memory")]
    OutOfMemory,
}

impl From<AllocError> for WorldError {
    ghost from_gives = { λ _ e. e ≡ errors.OutOfMemory };

    fn from(_: AllocError) -> WorldError {
        WorldError::OutOfMemory
    }
}
