//! Texts of traces to frames.

ghost use Rattle.std.specs.Prelude.{◌≡◌, ◌++◌, List, ℕ, IfOk, Ok};
ghost use Rattle.std.specs.List.{AllByRecursion};
ghost use Rattle.nob_frame.specs.declared.frame.Frame.{Frame as FrameOf};
ghost use Rattle.hex.specs.Hex.{IsBytes};
ghost use Rattle.nob_frame.specs.Spelling.{Spelt};
ghost use Rattle.nob_frame.specs.Reading.{Gives};
ghost use Rattle.nob_model_text.specs.Fronts.{Stops};
ghost use Rattle.nob_model_text.specs.Reading.{Reads};
ghost use Rattle.nob_trace.specs.Frames.{IsFramed, frame_text, frames_text, spaced_text};

use nob_frame::{Frame, FrameError, Version};
use nob_model_reading::{after, after_space};
use nob_model_session::Frames;
use nob_model_text::{Unread, bytes_at};
use std::alloc::Global;

// The frame that a text spells in a version.
pub fn whole_frame(alloc: Global, version: Version, text: &[u8]) -> Result<Frame, Unread>
    ensures found { IfOk result (λ frame. IsFramed version frame
        × (text.now ≡ frame_text version frame)) }
    ensures only { (frame : FrameOf) → IsFramed version frame
        → text.now ≡ frame_text version frame
        → Reads (λ f. f ≡ frame) result }
{
    let (frame, rest) = frame_at(alloc, version, text)?;
    if !rest.is_empty() {
        return Err(Unread::NoText);
    }
    Ok(frame)
}

// The frames of a transmit that a text spells in a version.
pub fn whole_frames(alloc: Global, version: Version, text: &[u8]) -> Result<Frames, Unread>
    ensures found { IfOk result (λ frames. AllByRecursion (IsFramed version) frames
        × (text.now ≡ frames_text version frames)) }
    ensures only { (frames : List FrameOf) → AllByRecursion (IsFramed version) frames
        → text.now ≡ frames_text version frames → Reads (λ fs. fs ≡ frames) result }
{
    if text == b"frames none".as_slice() {
        return Ok(Frames::from_vec(Vec::new(alloc)));
    }
    let frames = spaced_frames(alloc, version, after(text, b"frames".as_slice())?)?;
    if frames.as_slice().is_empty() {
        return Err(Unread::NoText);
    }
    Ok(frames)
}

// The frames, each behind a space, that a text spells.
fn spaced_frames(alloc: Global, version: Version, text: &[u8]) -> Result<Frames, Unread>
    ensures found { IfOk result (λ frames. AllByRecursion (IsFramed version) frames
        × (text.now ≡ spaced_text version frames)) }
    ensures only { (frames : List FrameOf) → AllByRecursion (IsFramed version) frames
        → text.now ≡ spaced_text version frames → Reads (λ fs. fs ≡ frames) result }
{
    let mut frames = Vec::new(alloc);
    let mut left = text;
    while !left.is_empty() {
        let (frame, rest) = frame_at(alloc, version, after_space(left)?)?;
        frames.push(frame)?;
        left = rest;
    }
    Ok(Frames::from_vec(frames))
}

// The frame at the front of a text, and what is left.
fn frame_at(alloc: Global, version: Version, text: &[u8]) -> Result<(Frame, &[u8]), Unread>
    ensures found { IfOk result (λ parts. IsFramed version parts.0
        × (text.now ≡ frame_text version parts.0 ++ parts.1.now)) }
    ensures only { (frame : FrameOf) (rest : List ℕ) → IsFramed version frame → Stops rest
        → text.now ≡ frame_text version frame ++ rest
        → Reads (λ parts. (parts.0 ≡ frame) × (parts.1.now ≡ rest)) result }
{
    let (bytes, rest) = bytes_at(alloc, text)?;
    let frame = frame_of_bytes(alloc, version, bytes.as_slice())?;
    Ok((frame, rest))
}

// The frame that bytes spell in a version.
fn frame_of_bytes(alloc: Global, version: Version, bytes: &[u8]) -> Result<Frame, Unread>
    ensures found { IfOk result (λ frame. Spelt version bytes.now frame × IsBytes frame.payload) }
    ensures only { (frame : FrameOf) → Spelt version bytes.now frame
        → Reads (λ f. f ≡ frame) result }
{
    match decoded(alloc, version, bytes) {
        Ok(frame) => Ok(frame),
        Err(FrameError::Fault(_)) => Err(Unread::NoText),
        Err(FrameError::OutOfMemory) => Err(Unread::OutOfMemory),
    }
}

// The frame that bytes spell in a version, or why they spell none.
fn decoded(alloc: Global, version: Version, bytes: &[u8]) -> Result<Frame, FrameError>
    ensures found { IfOk result (λ frame. Spelt version bytes.now frame) }
    ensures only { (frame : FrameOf) → Spelt version bytes.now frame
        → Gives (λ read. read) result (Ok frame) }
{
    match version {
        Version::One => nob_frame::decode_v1(alloc, bytes),
        Version::Two => nob_frame::decode(alloc, bytes),
    }
}
