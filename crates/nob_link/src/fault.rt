//! Why a link wasn't made, and why a parcel wasn't put or taken.

ghost use Rattle.std.specs.Prelude.{◌≡◌};
ghost use Rattle.nob_link.specs.Ends.{parcel_back};
ghost use Rattle.nob_link.specs.declared.fault.LinkError.TheVariants.{OutOfMemory};

use crate::parcel::Parcel;
use std::alloc::AllocError;
use thiserror::Error;

/// Why a link wasn't made.
#[derive(Clone, Copy, Debug, PartialEq, Eq, Error)]
pub enum LinkError {
    /// L2: the capacity isn't 1 to 1,024.
    #[error("L2: the capacity isn't 1 to 1,024")]
    Capacity,
    /// Memory ran out.
    #[error("out of memory")]
    OutOfMemory,
}

impl From<AllocError> for LinkError {
    ghost from_gives = { λ _ e. e ≡ OutOfMemory };

    fn from(_error: AllocError) -> LinkError {
        LinkError::OutOfMemory
    }
}

/// L1: the other end is gone, so the parcel can't be taken any more. The parcel comes back.
#[derive(Debug, Drop, Error)]
#[error("L1: the other end is gone")]
pub struct Gone {
    /// The parcel that wasn't put.
    pub parcel: Parcel,
}

/// Why a parcel wasn't put without waiting. The parcel comes back.
#[derive(Debug, Drop, Error)]
pub enum TryPutError {
    /// The link holds as many parcels as it can.
    #[error("the link is full")]
    Full {
        /// The parcel that wasn't put.
        parcel: Parcel,
    },
    /// L1: the other end is gone.
    #[error(transparent)]
    Gone(Gone),
}

impl TryPutError {
    /// The parcel that wasn't put.
    pub fn into_parcel(self) -> Parcel
        ensures { result ≡ parcel_back self }
    {
        match self {
            TryPutError::Full { parcel } => parcel,
            TryPutError::Gone(gone) => gone.parcel,
        }
    }
}

/// Why no parcel was taken without waiting.
#[derive(Clone, Copy, Debug, PartialEq, Eq, Error)]
pub enum TryTakeError {
    /// There is nothing in the link now.
    #[error("there is no parcel now")]
    Empty,
    /// There is nothing in the link, and the other end is gone.
    #[error("the other end is gone")]
    Gone,
}
