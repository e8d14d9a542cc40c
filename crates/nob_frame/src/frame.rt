//! Frames: what travels between the two ends of a session.

ghost use Rattle.std.specs.Prelude.{◌≡◌, ◌<◌, IfOk, OnErr, length};

use nob_bytes::Bytes;
use nob_ids::SpaceId;
use std::alloc::AllocError;

/// What a frame is for.
#[derive(Clone, Copy, Debug, PartialEq, Eq)]
pub enum FrameKind {
    /// Carries one item.
    Data,
    /// Carries an acknowledgement alone.
    Ack,
    /// Says that its sender's end has closed, and why.
    Close,
}

impl FrameKind {
    ghost use Rattle.nob_frame.specs.Kinds.{is_data, is_ack, is_close, kind_number, kind_of};

    /// Whether it is `Data`.
    pub fn is_data(self) -> bool
        ensures { result ≡ is_data self }
    {
        matches!(self, FrameKind::Data)
    }

    /// Whether it is `Ack`.
    pub fn is_ack(self) -> bool
        ensures { result ≡ is_ack self }
    {
        matches!(self, FrameKind::Ack)
    }

    /// Whether it is `Close`.
    pub fn is_close(self) -> bool
        ensures { result ≡ is_close self }
    {
        matches!(self, FrameKind::Close)
    }

    /// The byte that stands for the kind in a header: 1 to 3.
    pub fn number(self) -> u8
        ensures { result ≡ kind_number self }
    {
        match self {
            FrameKind::Data => 1,
            FrameKind::Ack => 2,
            FrameKind::Close => 3,
        }
    }

    /// The kind that a byte stands for: `None` where it stands for none.
    pub fn from_number(number: u8) -> Option<FrameKind>
        ensures { result ≡ kind_of number }
    {
        match number {
            1 => Some(FrameKind::Data),
            2 => Some(FrameKind::Ack),
            3 => Some(FrameKind::Close),
            _ => None,
        }
    }
}

/// A frame, whatever stands in its fields: `encode` says whether it has a spelling.
#[derive(Debug)]
pub struct Frame {
    /// What it is for.
    pub kind: FrameKind,
    /// The space that transmits it.
    pub from: SpaceId,
    /// The space at which it arrives.
    pub to: SpaceId,
    /// The number of the session that its sender's end was in.
    pub session: u32,
    /// The number of the item that a Data frame carries; 0 in the others.
    pub seq: u64,
    /// The number of the next item that its sender hasn't accepted yet.
    pub ack: u64,
    /// The bytes that it carries: an item in a Data frame, a reason's number in a Close frame.
    pub payload: Bytes,
}

impl Drop for Frame {
    fn drop(self) {
        let Frame {
            kind: _,
            from: _,
            to: _,
            session: _,
            seq: _,
            ack: _,
            payload,
        } = self;
        drop(payload);
    }
}

impl Frame {
    /// An equal frame, which shares the payload where that is shared. Only memory fails it, and a frame that carries nothing takes none.
    pub fn copy(&self) -> Result<Frame, AllocError>
        ensures same { IfOk result (λ frame. frame ≡ self.now) }
        ensures memory { OnErr result (0 < length self.now.payload) }
    {
        Ok(Frame {
            kind: self.kind,
            from: self.from,
            to: self.to,
            session: self.session,
            seq: self.seq,
            ack: self.ack,
            payload: self.payload.copy()?,
        })
    }
}
