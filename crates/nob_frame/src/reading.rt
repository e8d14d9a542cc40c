//! From bytes to frames.

ghost use Rattle.std.specs.Prelude.{◌≡◌, ◌≤◌, ◌+◌, ◌<◌, length, take, drop, IfOk, IfErr, OnOk, OnErr, Ok};
ghost use Rattle.nob_frame.specs.declared.fault.FrameError.TheVariants.{OutOfMemory};
ghost use Rattle.nob_frame.specs.declared.frame.Frame.{Frame};
ghost use Rattle.nob_frame.specs.declared.version.Version.TheVariants.{One, Two};
ghost use Rattle.nob_frame.specs.Spelling.{Spelt};
ghost use Rattle.nob_frame.specs.Versions.{header_length};
ghost use Rattle.nob_frame.specs.Reading.{Gives, Sees, is_payload, payload_at, frame_of, front_of, front_at, frame_at};

use crate::fault::{FrameError, FrameFault};
use crate::frame::{Frame, FrameKind};
use crate::header::{Header, header_from};
use crate::version::Version;
use nob_bytes::Bytes;
use nob_ids::Reason;
use std::alloc::{AllocError, Global};

/// Whether a frame of this kind may carry this payload, as far as its bytes decide.
pub(crate) fn payload_fits(kind: FrameKind, payload: &[u8]) -> bool
    ensures { result ≡ is_payload kind payload.now }
{
    match kind {
        FrameKind::Data | FrameKind::Ack => true,
        FrameKind::Close => match payload {
            [number, ..] => Reason::from_number(*number).is_some(),
            [] => false,
        },
    }
}

/// Judges the payload of so many bytes at the front of the bytes after a header: the first of F1
/// and F10.
#[tactic(auto, unfolding(crate::specs::Reading::payload_at))]
fn judge_payload(kind: FrameKind, len: usize, rest: &[u8]) -> Result<(), FrameFault>
    ensures exact { Sees (λ _. (take len rest.now, drop len rest.now)) result
        (payload_at kind len rest.now) }
    ensures whole { OnOk result (len ≤ length rest.now) }
{
    if rest.len() < len {
        return Err(FrameFault::Short);
    }
    if !payload_fits(kind, rest.split_at(len).0) {
        return Err(FrameFault::Reason);
    }
    Ok(())
}

/// The header of the frame at the front of the bytes, or the first of F1 to F9, F12 and F10.
#[tactic(auto, unfolding(crate::specs::Reading::front_at))]
pub(crate) fn front_from(version: Version, bytes: &[u8]) -> Result<Header, FrameFault>
    ensures exact { Sees (λ header. front_of version header bytes.now) result
        (front_at version bytes.now) }
    ensures whole { IfOk result (λ header. header_length version + header.length
        ≤ length bytes.now) }
{
    let header = header_from(version, bytes)?;
    let rest = bytes.split_at(version.header_len()).1;
    judge_payload(header.kind, header.length, rest)?;
    Ok(header)
}

/// The frame of a header and a payload, which its copies share. Only memory fails it, and no payload takes none.
pub(crate) fn frame_of(alloc: Global, header: Header, payload: &[u8]) -> Result<Frame, AllocError>
    ensures frame { IfOk result (λ frame. frame ≡ frame_of header payload.now) }
    ensures memory { OnErr result (0 < length payload.now) }
{
    let mut payload = Bytes::from_slice(alloc, payload)?;
    payload.share()?;
    Ok(Frame {
        kind: header.kind,
        from: header.from,
        to: header.to,
        session: header.session,
        seq: header.seq,
        ack: header.ack,
        payload,
    })
}

/// The frame of this version that all of the bytes are, or the first of F1 to F9, F12, F10 and F11.
#[tactic(auto, unfolding(crate::specs::Reading::frame_at))]
fn frame_from(alloc: Global, version: Version, bytes: &[u8]) -> Result<Frame, FrameError>
    ensures exact { Gives (λ read. read) result (frame_at version bytes.now) }
    ensures memory { IfErr result (λ e. e ≡ OutOfMemory → header_length version
        < length bytes.now) }
{
    let header = front_from(version, bytes)?;
    let rest = bytes.split_at(version.header_len()).1;
    let (payload, after) = rest.split_at(header.length);
    if !after.is_empty() {
        return Err(FrameError::Fault(FrameFault::Trailing));
    }
    Ok(frame_of(alloc, header, payload)?)
}

/// The frame of version 2 that all of the bytes are, or the first of F1 to F9, F12, F10 and F11
/// that they are refused for: of version 1, F3. It costs time and memory in proportion to the
/// bytes. Want of memory comes last.
pub fn decode(alloc: Global, bytes: &[u8]) -> Result<Frame, FrameError>
    // What is read is spelled so.
    ensures found { IfOk result (λ frame. Spelt Two bytes.now frame) }
    // What is spelled so is read, unless memory runs out.
    ensures only { (frame : Frame) → Spelt Two bytes.now frame
        → Gives (λ read. read) result (Ok frame) }
    // Which fault it is.
    ensures exact { Gives (λ read. read) result (frame_at Two bytes.now) }
    // A frame that carries nothing takes no memory.
    ensures memory { IfErr result (λ e. e ≡ OutOfMemory → 32 < length bytes.now) }
{
    frame_from(alloc, Version::Two, bytes)
}

/// The frame of version 1 that all of the bytes are, which is of session 1, or the first of F1 to
/// F11 that they are refused for: of version 2, F3. It costs time and memory in proportion to the
/// bytes. Want of memory comes last.
pub fn decode_v1(alloc: Global, bytes: &[u8]) -> Result<Frame, FrameError>
    // What is read is spelled so.
    ensures found { IfOk result (λ frame. Spelt One bytes.now frame) }
    // What is spelled so is read, unless memory runs out.
    ensures only { (frame : Frame) → Spelt One bytes.now frame
        → Gives (λ read. read) result (Ok frame) }
    // Which fault it is.
    ensures exact { Gives (λ read. read) result (frame_at One bytes.now) }
    // A frame that carries nothing takes no memory.
    ensures memory { IfErr result (λ e. e ≡ OutOfMemory → 28 < length bytes.now) }
{
    frame_from(alloc, Version::One, bytes)
}
