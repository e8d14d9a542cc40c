//! Frames as bytes, and bytes that are copied out.

ghost use Rattle.std.specs.Prelude.{◌≡◌, ◌++◌, IfOk, OnOk, length, take, drop};
ghost use Rattle.std.specs.List.{AllByRecursion, flat_map};
ghost use Rattle.nob_frame.specs.declared.version.Version.TheVariants.{Two};
ghost use Rattle.nob_frame.specs.Spelling.{Fits, spelling};

use nob_frame::{Frame, FrameError, encode};
use std::alloc::{AllocError, Global};

/// The bytes of a frame that has a spelling. Only memory fails it.
pub fn spelled(alloc: Global, frame: &Frame) -> Result<Vec<u8>, AllocError>
    requires { Fits Two frame.now }
    ensures { IfOk result (λ bytes. bytes.items ≡ spelling Two frame.now) }
{
    match encode(alloc, frame) {
        Ok(bytes) => Ok(bytes),
        Err(FrameError::OutOfMemory) => Err(AllocError),
        Err(FrameError::Fault(_)) => unreachable!(),
    }
}

// Frames that have a spelling, put behind bytes. Only memory fails it. It recurses once for each.
fn put_all(alloc: Global, bytes: &mut Vec<u8>, frames: &[Frame]) -> Result<(), AllocError>
    requires { AllByRecursion (Fits Two) frames.now }
    ensures { OnOk result (bytes.new.items ≡ bytes.old.items
        ++ flat_map (spelling Two) frames.now) }
{
    match frames {
        [] => Ok(()),
        [frame, rest @ ..] => {
            let one = spelled(alloc, frame)?;
            bytes.extend_from_slice(one.as_slice())?;
            put_all(alloc, bytes, rest)
        }
    }
}

/// The bytes of frames that have a spelling, one after the other. Only memory fails it. It recurses
/// once for each.
pub fn spelled_all(alloc: Global, frames: &[Frame]) -> Result<Vec<u8>, AllocError>
    requires { AllByRecursion (Fits Two) frames.now }
    ensures { IfOk result (λ bytes. bytes.items ≡ flat_map (spelling Two) frames.now) }
{
    let mut bytes = Vec::new(alloc);
    put_all(alloc, &mut bytes, frames)?;
    Ok(bytes)
}

/// Copies as many of these bytes as there is room for, the first first: how many there are.
pub fn copy_out(bytes: &[u8], out: &mut [u8]) -> usize
    ensures length { result ≡ length bytes.now }
    ensures copied { out.new ≡ take (length out.old) bytes.now ++ drop (length bytes.now) out.old }
{
    let count = std::cmp::min(bytes.len(), out.len());
    out.split_at_mut(count)
        .0
        .copy_from_slice(bytes.split_at(count).0);
    bytes.len()
}
