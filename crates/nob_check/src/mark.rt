//! What a frame is looked up by: all that stands in it.

ghost use Rattle.std.specs.Prelude.{◌≡◌, IfOk};
ghost use Rattle.nob_check.specs.Marks.{sign_of, sign_in};

use nob_frame::Frame;
use nob_ids::SpaceId;
use std::alloc::{AllocError, Global};

/// All that stands in a frame, as something that has a hash.
#[derive(Debug, PartialEq, Eq, Hash, Drop)]
pub struct Mark {
    // The byte that stands for its kind.
    kind: u8,
    // The space that transmits it, and the space at which it arrives.
    from: SpaceId,
    to: SpaceId,
    // The number of the session that its sender's end was in.
    session: u32,
    // The numbers of the item that it carries, and of the next one that its sender waits for.
    seq: u64,
    ack: u64,
    // What it carries.
    payload: Vec<u8>,
}

impl Mark {
    /// The mark of a frame. Only memory fails it. It copies what the frame carries.
    pub fn of(alloc: Global, frame: &Frame) -> Result<Mark, AllocError>
        ensures { IfOk result (λ mark. sign_in mark ≡ sign_of frame.now) }
    {
        Ok(Mark {
            kind: frame.kind.number(),
            from: frame.from,
            to: frame.to,
            session: frame.session,
            seq: frame.seq,
            ack: frame.ack,
            payload: Vec::from_slice(alloc, frame.payload.as_slice())?,
        })
    }
}
