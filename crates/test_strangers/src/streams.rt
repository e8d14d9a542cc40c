//! Streams of bytes, given to a Feed in pieces of 1 to 64: it must answer what `decode` says at
//! each place.

use crate::frames::{any_frame, change_one, random_bytes, spelling_of};
use nob_frame::{Feed, Frame, FrameError, FrameFault, decode};
use nob_model::same_frame;
use nob_rounds::Words;
use std::alloc::{AllocError, Global};

// The longest piece.
const LONGEST: u64 = 64;

/// What is said of a stream.
#[derive(Clone, Copy)]
pub struct Stream {
    /// Whether the Feed answered what `decode` says.
    pub agrees: bool,
    /// How many frames it gave.
    pub frames: usize,
    /// The fault that it met.
    pub fault: Option<FrameFault>,
}

// A stream read byte for byte: what stands there of a frame that isn't whole is asked of `decode`
// with each byte more.
struct SlowFeed {
    kept: Vec<u8>,
    fault: Option<FrameFault>,
}

impl Drop for SlowFeed {
    fn drop(self) {
        let SlowFeed { kept: _, fault: _ } = self;
    }
}

impl SlowFeed {
    // Nothing was read.
    fn new(alloc: Global) -> SlowFeed {
        SlowFeed {
            kept: Vec::new(alloc),
            fault: None,
        }
    }

    // The frame that is whole with one byte more, if there is one.
    fn take(&mut self, alloc: Global, byte: u8) -> Result<Option<Frame>, FrameError> {
        if let Some(fault) = self.fault {
            return Err(FrameError::Fault(fault));
        }
        self.kept.push(byte)?;
        match decode(alloc, self.kept.as_slice()) {
            Ok(frame) => {
                self.kept.clear();
                Ok(Some(frame))
            }
            Err(FrameError::Fault(FrameFault::Short)) => Ok(None),
            Err(FrameError::Fault(fault)) => {
                self.fault = Some(fault);
                Err(FrameError::Fault(fault))
            }
            Err(FrameError::OutOfMemory) => Err(FrameError::OutOfMemory),
        }
    }

    // The frames that are whole with a piece more.
    fn push(&mut self, alloc: Global, piece: &[u8]) -> Result<Vec<Frame>, FrameError> {
        let mut frames = Vec::new(alloc);
        for byte in piece {
            if let Some(frame) = self.take(alloc, *byte)? {
                frames.push(frame)?;
            }
        }
        Ok(frames)
    }
}

/// Gives a stream to a Feed in pieces. Only memory fails it.
pub fn try_stream(alloc: Global, stream: &[u8], words: &mut Words) -> Result<Stream, AllocError> {
    let mut feed = Feed::new(alloc);
    let mut slow = SlowFeed::new(alloc);
    let mut count = 0;
    let mut left = stream;
    for _ in 0..stream.len() {
        if left.is_empty() {
            break;
        }
        let length = words.below(LONGEST).saturating_add(1) as usize;
        let (piece, rest) = left.split_at(length.min(left.len()));
        left = rest;
        let found = feed.push(piece);
        let wanted = slow.push(alloc, piece);
        match agreed_frames(&found, &wanted)? {
            Some(more) => count = more.saturating_add(count),
            None => return Ok(said(false, count, slow.fault)),
        }
    }
    Ok(said(true, count, slow.fault))
}

// What is said of a stream.
fn said(agrees: bool, frames: usize, fault: Option<FrameFault>) -> Stream {
    Stream {
        agrees,
        frames,
        fault,
    }
}

// How many frames both gave, if both answered the same.
fn agreed_frames(
    found: &Result<Vec<Frame>, FrameError>,
    wanted: &Result<Vec<Frame>, FrameError>,
) -> Result<Option<usize>, AllocError> {
    match found {
        Ok(frames) => match wanted {
            Ok(others) => Ok(same_count(frames.as_slice(), others.as_slice())),
            Err(FrameError::Fault(_)) => Ok(None),
            Err(FrameError::OutOfMemory) => Err(AllocError),
        },
        Err(FrameError::Fault(fault)) => match wanted {
            Ok(_) => Ok(None),
            Err(FrameError::Fault(other)) => Ok(if *fault == *other { Some(0) } else { None }),
            Err(FrameError::OutOfMemory) => Err(AllocError),
        },
        Err(FrameError::OutOfMemory) => Err(AllocError),
    }
}

// How many frames there are, if they are the same.
fn same_count(frames: &[Frame], others: &[Frame]) -> Option<usize> {
    if frames.len() != others.len() {
        return None;
    }
    for (frame, other) in frames.iter().zip(others.iter()) {
        if !same_frame(frame, other) {
            return None;
        }
    }
    Some(frames.len())
}

/// `count` bytes of frames, one after the other; the last may be cut. Only memory fails it.
pub fn frames_of(alloc: Global, words: &mut Words, count: usize) -> Result<Vec<u8>, AllocError> {
    let mut bytes = Vec::new(alloc);
    for _ in 0..count {
        if bytes.len() >= count {
            break;
        }
        let Some(frame) = any_frame(alloc, words)? else {
            continue;
        };
        if let Some(spelling) = spelling_of(alloc, &frame)? {
            bytes.extend_from_slice(spelling.as_slice())?;
        }
    }
    bytes.truncate(count);
    Ok(bytes)
}

/// `count` bytes of frames, one of which is changed. Only memory fails it.
pub fn changed_frames(
    alloc: Global,
    words: &mut Words,
    count: usize,
) -> Result<Vec<u8>, AllocError> {
    let mut bytes = frames_of(alloc, words, count)?;
    change_one(&mut bytes, words);
    Ok(bytes)
}

/// `count` bytes of no meaning. Only memory fails it.
pub fn no_frames(alloc: Global, words: &mut Words, count: usize) -> Result<Vec<u8>, AllocError> {
    random_bytes(alloc, words, count as u64)
}
