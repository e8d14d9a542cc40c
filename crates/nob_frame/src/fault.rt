//! What bytes or a frame are refused for.

ghost use Rattle.std.specs.Prelude.{◌≡◌};
ghost use Rattle.nob_frame.specs.declared.fault.FrameError.TheVariants.{Fault, OutOfMemory};

use std::alloc::{AllocError, AllocFailed};
use thiserror::Error;

/// What is wrong with the bytes of a frame, or with a frame that is to be spelled.
#[derive(Clone, Copy, Debug, PartialEq, Eq, Error)]
pub enum FrameFault {
    /// F1: the header or the payload isn't all there.
    #[error("F1: the frame isn't all there")]
    Short,
    /// F2: the first byte isn't a frame's.
    #[error("F2: the first byte isn't 4e")]
    Magic,
    /// F3: the version isn't the one that is read.
    #[error("F3: an unknown version")]
    Version,
    /// F4: the kind is none of the three.
    #[error("F4: an unknown kind")]
    Kind,
    /// F5: a flag is set.
    #[error("F5: a flag is set")]
    Flags,
    /// F6: one of the two spaces is outside 1 to 32, or they are one.
    #[error("F6: not two spaces")]
    Spaces,
    /// F7: the number of the item is outside 1 to 2^40, or isn't 0 in a frame without an item.
    #[error("F7: the item's number is out of range")]
    Seq,
    /// F8: the acknowledgement is outside 1 to 2^40 + 1.
    #[error("F8: the acknowledgement is out of range")]
    Ack,
    /// F9: the payload is longer or shorter than the kind allows.
    #[error("F9: the payload's length is out of range")]
    Length,
    /// F10: the reason of a close is outside 1 to 6.
    #[error("F10: an unknown reason")]
    Reason,
    /// F11: bytes stand after the frame.
    #[error("F11: bytes after the frame")]
    Trailing,
    /// F12: the number of the session is one that the version has no spelling for: 0, and in
    /// version 1 every number but 1.
    #[error("F12: the session's number is out of range")]
    Session,
}

/// Why a frame wasn't spelled or read.
#[derive(Clone, Copy, Debug, PartialEq, Eq, Error)]
pub enum FrameError {
    /// The bytes or the frame are refused.
    #[error(transparent)]
    Fault(FrameFault),
    /// A growth was refused.
    #[error("out of memory")]
    OutOfMemory,
}

impl From<FrameFault> for FrameError {
    ghost from_gives = { λ fault e. e ≡ Fault fault };

    fn from(fault: FrameFault) -> FrameError {
        FrameError::Fault(fault)
    }
}

impl From<AllocError> for FrameError {
    ghost from_gives = { λ _ e. e ≡ OutOfMemory };

    fn from(_e: AllocError) -> FrameError {
        FrameError::OutOfMemory
    }
}

impl<T: Drop> From<AllocFailed<T>> for FrameError {
    ghost from_gives = { λ _ e. e ≡ OutOfMemory };

    fn from(_e: AllocFailed<T>) -> FrameError {
        FrameError::OutOfMemory
    }
}
