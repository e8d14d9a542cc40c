//! A stream of frames of version 2 that comes in pieces.

ghost use Rattle.std.specs.Prelude.{◌≡◌, ◌≢◌, ◌≤◌, ◌<◌, ◌++◌, [], ℕ, List, length, drop, IfOk, IfErr, OnOk, Ok, Err};
ghost use Rattle.nob_frame.specs.declared.fault.FrameError.TheVariants.{Fault, OutOfMemory};
ghost use Rattle.nob_frame.specs.declared.fault.FrameFault.TheVariants.{Short, Trailing};
ghost use Rattle.nob_frame.specs.declared.frame.Frame.{Frame};
ghost use Rattle.nob_frame.specs.Streams.{Splits, Answers, Scanned};

use crate::fault::{FrameError, FrameFault};
use crate::frame::Frame;
use crate::header::wanted_from;
use crate::reading::{frame_of, front_from};
use crate::version::Version;
use bytes::BytesMut;
use std::alloc::Global;
use std::marker::Model;

/// Reads a stream of frames of version 2 that comes in pieces, however it was cut. Contracts see what it keeps:
/// the bytes of a frame that isn't whole yet, or the fault that it has met.
#[derive(Drop)]
pub struct Feed {
    /// The bytes of the frame that isn't whole yet.
    kept: BytesMut,
    /// How many bytes there have to be before anything can be said of that frame.
    wanted: usize,
    /// The fault that was met.
    fault: Option<FrameFault>,
}

impl Model for Feed {
    ghost use Rattle.nob_frame.specs.Streams.{Kept, kept_of, IsSound};

    ghost Value = { Kept };

    ghost view = { λ feed. kept_of feed.fault feed.kept.items };

    ghost invariant = { λ feed. IsSound feed.fault feed.kept.items feed.wanted };
}

impl Feed {
    /// A Feed that has seen nothing. It takes no memory.
    pub fn new(alloc: Global) -> Feed
        ensures { result ≡ Ok [] }
    {
        Feed {
            kept: BytesMut::new(alloc),
            wanted: Version::Two.header_len(),
            fault: None,
        }
    }

    /// Takes the next piece of the stream, and gives the frames that are whole now. A fault, one of
    /// F2 to F10 and F12, is answered from then on, to any piece, and no frame is given with it. Want of
    /// memory changes nothing, and an empty piece wants none.
    ///
    /// All pushes together cost time in proportion to the bytes of the stream, however it is cut: a
    /// byte is copied at most twice by pushes, and some more times where the buffer grows, and a
    /// header is judged at most twice. A Feed keeps fewer than 16,416 bytes between two pushes,
    /// none once it has met a fault, and the piece as well during one.
    pub fn push(&mut self, piece: &[u8]) -> Result<Vec<Frame>, FrameError>
        // It gives the frames that are whole now and keeps the rest, or meets the rest's fault, or
        // goes on answering the fault that it has met, or is as it was for want of memory.
        ensures answer { Answers (λ given. given.items) self.old piece.now result self.new }
        // What it gives are the only frames that the bytes kept before and the piece can be.
        ensures only { (kept : List ℕ) (frames : List Frame) (rest : List ℕ) → self.old ≡ Ok kept
            → Splits (kept ++ piece.now) frames rest → IfOk result (λ given. given.items ≡ frames) }
        ensures never { IfErr result (λ e. (e ≢ Fault Short) × (e ≢ Fault Trailing)) }
        // An empty piece takes no memory.
        ensures memory { IfErr result (λ e. e ≡ OutOfMemory → piece.now ≢ []) }
        ensures few { IfOk self.new (λ kept. length kept < 16416) }
    {
        if let Some(fault) = self.fault {
            return Err(FrameError::Fault(fault));
        }
        let alloc = *self.kept.allocator();
        if piece.is_empty() {
            return Ok(Vec::new(alloc));
        }
        let before = self.kept.len();
        self.kept.extend_from_slice(piece)?;
        if self.kept.len() < self.wanted {
            return Ok(Vec::new(alloc));
        }
        match scan(alloc, self.kept.as_slice()) {
            Ok((frames, used)) => {
                self.kept.advance(used);
                self.wanted = wanted_from(self.kept.as_slice());
                Ok(frames)
            }
            Err(FrameError::Fault(fault)) => {
                self.kept = BytesMut::new(alloc);
                self.fault = Some(fault);
                Err(FrameError::Fault(fault))
            }
            Err(FrameError::OutOfMemory) => {
                self.kept.truncate(before);
                Err(FrameError::OutOfMemory)
            }
        }
    }
}

/// The frames at the front of the bytes, one after the other, and how many bytes they have: or the
/// fault of what stands there in place of a frame.
fn scan(alloc: Global, bytes: &[u8]) -> Result<(Vec<Frame>, usize), FrameError>
    ensures within { IfOk result (λ found. found.1 ≤ length bytes.now) }
    ensures found { Scanned (λ found. (found.0.items, drop found.1 bytes.now)) result bytes.now }
{
    let mut frames = Vec::new(alloc);
    let mut rest = bytes;
    loop {
        match front_from(Version::Two, rest) {
            Ok(header) => {
                let behind = rest.split_at(Version::Two.header_len()).1;
                let (payload, after) = behind.split_at(header.length);
                frames.push(frame_of(alloc, header, payload)?)?;
                rest = after;
            }
            Err(fault) => match fault {
                FrameFault::Short => return Ok((frames, bytes.len() - rest.len())),
                _ => return Err(FrameError::Fault(fault)),
            },
        }
    }
}
