//! The numbers of what is refused.

ghost use Rattle.std.specs.Prelude.{◌≡◌};
ghost use Rattle.nob_host_space.specs.Numbers as spec;

use nob_frame::{FrameError, FrameFault};
use nob_model::{Refusal, Use};
use nob_pickle::{PickleError, PickleFault};
use nob_space::{BirthError, BirthFault, SpaceError};

/// The status of what was done.
pub const DONE: u32 = 0;

/// The status of a want of memory.
pub const WANTED: u32 = 14;

/// The status of a number outside its range.
pub const OUT_OF_RANGE: u32 = 60;

/// The status of a piece that comes while frames still wait.
pub const STILL_WAITING: u32 = 61;

/// The status of an empty queue of frames.
pub const NONE_WAITS: u32 = 62;

/// The status where no value is kept.
pub const NO_VALUE: u32 = 63;

/// The status of a piece with a frame of another space than the stream's peer, or for another.
pub const OF_OTHERS: u32 = 64;

/// The handle keeps no space.
pub const KEEPS_NONE: u32 = 65;

/// The handle keeps a space already.
pub const KEEPS_ONE: u32 = 67;

// The number of what still uses an object.
fn use_number(used: Use) -> u32
    ensures { result ≡ spec.use_number used }
{
    match used {
        Use::Held => 111,
        Use::InTransit => 112,
        Use::Listed => 113,
        Use::Agent => 114,
    }
}

// The number of a refusal of a space.
fn refusal_number(refusal: Refusal) -> u32
    ensures { result ≡ spec.refusal_number refusal }
{
    match refusal {
        Refusal::NoPeer => 1,
        Refusal::Closed => 2,
        Refusal::NoObject => 3,
        Refusal::NotHeld => 4,
        Refusal::QueueFull => 5,
        Refusal::SeqEnd => 6,
        Refusal::TooBig => 7,
        Refusal::NoCall => 8,
        Refusal::NotReady => 9,
        Refusal::Nothing => 10,
        Refusal::StillUsed(used) => use_number(used),
        Refusal::NoJob => 12,
        Refusal::Limit => 13,
        Refusal::StillOpen => 15,
        Refusal::StillHeld => 16,
    }
}

/// The status of what a space didn't do.
pub fn error_number(error: SpaceError) -> u32
    ensures { result ≡ spec.error_number error }
{
    match error {
        SpaceError::Refused(refusal) => refusal_number(refusal),
        SpaceError::OutOfMemory => WANTED,
    }
}

// The status of a fault of a birth.
fn birth_fault_number(fault: BirthFault) -> u32
    ensures { result ≡ spec.birth_fault_number fault }
{
    match fault {
        BirthFault::Indexes => 71,
        BirthFault::Calls => 72,
        BirthFault::Jobs => 73,
        BirthFault::Session(_) => 74,
        BirthFault::Earlier => 75,
    }
}

/// The status where no space begins.
pub fn birth_error_number(error: BirthError) -> u32
    ensures { result ≡ spec.birth_error_number error }
{
    match error {
        BirthError::Fault(fault) => birth_fault_number(fault),
        BirthError::OutOfMemory => WANTED,
    }
}

// The status of a fault of a pickle.
fn pickle_fault_number(fault: PickleFault) -> u32
    ensures { result ≡ spec.pickle_fault_number fault }
{
    match fault {
        PickleFault::Short => 21,
        PickleFault::Tag => 22,
        PickleFault::Bytes => 23,
        PickleFault::Count => 24,
        PickleFault::Depth => 25,
        PickleFault::Trailing => 26,
        PickleFault::Space => 27,
        PickleFault::TooBig => 28,
    }
}

/// The status where there is no value or no pickle.
pub fn pickle_number(error: PickleError) -> u32
    ensures { result ≡ spec.pickle_number error }
{
    match error {
        PickleError::Fault(fault) => pickle_fault_number(fault),
        PickleError::OutOfMemory => WANTED,
    }
}

// The status of a fault of a frame.
fn frame_fault_number(fault: FrameFault) -> u32
    ensures { result ≡ spec.frame_fault_number fault }
{
    match fault {
        FrameFault::Short => 41,
        FrameFault::Magic => 42,
        FrameFault::Version => 43,
        FrameFault::Kind => 44,
        FrameFault::Flags => 45,
        FrameFault::Spaces => 46,
        FrameFault::Seq => 47,
        FrameFault::Ack => 48,
        FrameFault::Length => 49,
        FrameFault::Reason => 50,
        FrameFault::Trailing => 51,
        FrameFault::Session => 52,
    }
}

/// The status where there is no frame.
pub fn frame_number(error: FrameError) -> u32
    ensures { result ≡ spec.frame_number error }
{
    match error {
        FrameError::Fault(fault) => frame_fault_number(fault),
        FrameError::OutOfMemory => WANTED,
    }
}
