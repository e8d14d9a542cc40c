//! Frames on their way: bytes alone.

ghost use Rattle.std.specs.Prelude.{◌≡◌, IfOk};
ghost use Rattle.nob_frame.specs.declared.version.Version.TheVariants.{Two};
ghost use Rattle.nob_frame.specs.declared.frame.Frame.{Frame as FrameOf};
ghost use Rattle.nob_frame.specs.Spelling.{Fits, Spelt};
ghost use Rattle.nob_session.specs.Wire.{IsSpelling};

use nob_frame::{Frame, FrameError, decode, encode};
use std::alloc::{AllocError, Global};

/// The bytes that spell a frame: what leaves a space. Only memory fails it.
pub fn to_bytes(alloc: Global, frame: &Frame) -> Result<Vec<u8>, AllocError>
    requires { Fits Two frame.now }
    ensures { IfOk result (λ bytes. Spelt Two bytes.items frame.now) }
{
    match encode(alloc, frame) {
        Ok(bytes) => Ok(bytes),
        Err(FrameError::Fault(_)) => unreachable!(),
        Err(FrameError::OutOfMemory) => Err(AllocError),
    }
}

/// The frame that these bytes spell: what arrives at a space, which sees the bytes alone. Only
/// memory fails it.
pub fn from_bytes(alloc: Global, bytes: &[u8]) -> Result<Frame, AllocError>
    requires { IsSpelling bytes.now }
    ensures { (frame : FrameOf) → Spelt Two bytes.now frame → IfOk result (λ arrived. arrived ≡ frame) }
{
    match decode(alloc, bytes) {
        Ok(frame) => Ok(frame),
        Err(FrameError::Fault(_)) => unreachable!(),
        Err(FrameError::OutOfMemory) => Err(AllocError),
    }
}
