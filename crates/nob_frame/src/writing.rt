//! From frames to bytes.

ghost use Rattle.std.specs.Prelude.{◌≡◌, IfOk, Ok};
ghost use Rattle.nob_frame.specs.declared.version.Version.TheVariants.{One, Two};
ghost use Rattle.nob_frame.specs.Spelling.{Fits, Spelt, spelling};
ghost use Rattle.nob_frame.specs.Reading.{Gives, bytes_of};

use crate::fault::{FrameError, FrameFault};
use crate::frame::Frame;
use crate::header::{Header, header_bytes};
use crate::reading::payload_fits;
use crate::version::Version;
use std::alloc::Global;

/// The spelling of a frame in this version, or the first of F6 to F9, F12 and F10.
#[tactic(auto, unfolding(crate::specs::Reading::bytes_of))]
fn spelling_of(alloc: Global, version: Version, frame: &Frame) -> Result<Vec<u8>, FrameError>
    ensures { Gives (λ bytes. bytes.items) result (bytes_of version frame.now) }
{
    let header = Header::of(frame).judged(version)?;
    if !payload_fits(frame.kind, frame.payload.as_slice()) {
        return Err(FrameError::Fault(FrameFault::Reason));
    }
    let mut bytes = header_bytes(alloc, version, header)?;
    bytes.extend_from_slice(frame.payload.as_slice())?;
    Ok(bytes)
}

/// The spelling of a frame in version 2, or the first of F6 to F9, F12 and F10 that it is refused
/// for. It costs time and memory in proportion to the payload. Want of memory comes last.
pub fn encode(alloc: Global, frame: &Frame) -> Result<Vec<u8>, FrameError>
    // What is written is the frame's spelling.
    ensures found { IfOk result (λ bytes. Spelt Two bytes.items frame.now) }
    // What has a spelling is written, unless memory runs out.
    ensures only { Fits Two frame.now
        → Gives (λ bytes. bytes.items) result (Ok (spelling Two frame.now)) }
    // Which fault it is.
    ensures exact { Gives (λ bytes. bytes.items) result (bytes_of Two frame.now) }
{
    spelling_of(alloc, Version::Two, frame)
}

/// The spelling of a frame of session 1 in version 1, or the first of F6 to F9, F12 and F10 that it
/// is refused for: of any other session, F12. It costs time and memory in proportion to the
/// payload. Want of memory comes last.
pub fn encode_v1(alloc: Global, frame: &Frame) -> Result<Vec<u8>, FrameError>
    // What is written is the frame's spelling.
    ensures found { IfOk result (λ bytes. Spelt One bytes.items frame.now) }
    // What has a spelling is written, unless memory runs out.
    ensures only { Fits One frame.now
        → Gives (λ bytes. bytes.items) result (Ok (spelling One frame.now)) }
    // Which fault it is.
    ensures exact { Gives (λ bytes. bytes.items) result (bytes_of One frame.now) }
{
    spelling_of(alloc, Version::One, frame)
}
