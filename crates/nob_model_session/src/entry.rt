//! The calls on one end of a session, with their answers, as plain data.

ghost use Rattle.std.specs.Prelude.{◌≡◌, IfOk, length};

use crate::refusal::EndRefusal;
use nob_frame::{Bytes, Frame};
use nob_ids::{ItemNo, Reason, SpaceId};
use std::alloc::AllocError;
use std::marker::Model;

/// How an item counts: whether `send` refuses it while too many are unacknowledged.
#[derive(Clone, Copy, Debug, PartialEq, Eq)]
pub enum Kind {
    /// A call or a reply: refused while 4,096 items are unacknowledged.
    Limited,
    /// A note: never refused for that.
    Note,
}

impl Kind {
    ghost use Rattle.nob_model_session.specs.Right.{is_limited};

    /// Whether `send` refuses it while too many are unacknowledged.
    pub fn is_limited(self) -> bool
        ensures { result ≡ is_limited self }
    {
        matches!(self, Kind::Limited)
    }
}

/// That an end closed, and why.
#[derive(Clone, Copy, Debug, PartialEq, Eq)]
pub struct Ending {
    /// The space at the other end.
    pub peer: SpaceId,
    /// Why this end closed.
    pub reason: Reason,
}

/// What an arriving frame did.
#[derive(Clone, Copy, Debug, PartialEq, Eq)]
pub enum Arrived {
    /// How many items were accepted by it.
    Took(u64),
    /// The end closed.
    Closed(Ending),
}

/// Frames in order. Contracts see the list.
#[derive(Debug)]
pub struct Frames {
    items: Vec<Frame>,
}

impl Model for Frames {
    ghost use Rattle.std.specs.Prelude.{List};
    ghost use Rattle.nob_frame.specs.declared.frame.Frame.{Frame};

    ghost Value = { List Frame };

    ghost view = { λ frames. frames.items.items };
}

impl Drop for Frames {
    fn drop(self) {
        let Frames { items } = self;
        drop(items);
    }
}

impl Frames {
    /// These frames. It takes no memory.
    pub fn from_vec(items: Vec<Frame>) -> Frames
        ensures { result ≡ items.items }
    {
        Frames { items }
    }

    /// The frames.
    pub fn as_slice(&self) -> &[Frame]
        ensures { result.now ≡ self.now }
    {
        self.items.as_slice()
    }

    /// Equal frames. Only memory fails it.
    pub fn copy(&self) -> Result<Frames, AllocError>
        ensures { IfOk result (λ frames. frames ≡ self.now) }
    {
        let mut items = Vec::with_capacity(*self.items.allocator(), self.items.len())?;
        for frame in &self.items {
            items.push(frame.copy()?)?;
        }
        Ok(Frames { items })
    }
}

/// One call on an end of a session, with its arguments and its answer. Only a call that was refused
/// for want of memory makes no entry.
#[derive(Debug, Drop)]
pub enum EndEntry {
    /// `send` of a payload: its number, or a refusal.
    Send(Bytes, Kind, Result<ItemNo, EndRefusal>),
    /// `transmit`: the frames that it gave.
    Transmit(Frames),
    /// `arrive` of a frame.
    Arrive(Frame, Result<Arrived, EndRefusal>),
    /// `front`: the first item that waits, if there is one.
    Front(Option<(ItemNo, Bytes)>),
    /// `take`: gives up the first item that waits.
    Take,
    /// `is_open`.
    IsOpen(bool),
    /// `tick`: that the end closed, if it did.
    Tick(Result<Option<Ending>, EndRefusal>),
    /// `close` for a reason.
    Close(Reason, Result<Ending, EndRefusal>),
    /// `reopen` under a number.
    Reopen(u32, Result<(), EndRefusal>),
}

/// One call on one of the two ends of a session.
#[derive(Debug, Drop)]
pub enum PairEntry {
    /// A call on the first end.
    First(EndEntry),
    /// A call on the second end.
    Second(EndEntry),
}
