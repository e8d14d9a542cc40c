//! What steps answer.

ghost use Rattle.std.specs.Prelude.{◌+◌, ◌<◌, ◌≤◌, ◌^◌};

use nob_bytes::Bytes;
use nob_ids::{ItemNo, Reason};
use nob_session::EndRefusal;

/// The frames that a `send` gave, one at least: those of so many numbers after the frames before.
#[derive(Clone, Copy, Debug)]
pub struct Sent {
    /// How many frames were transmitted before.
    pub before: u64,
    /// How many it gave.
    pub count: u64,
    ghost some: { 1 ≤ count },
    ghost in_range: { before + count < 2 ^ 64 },
}

/// What a step answers.
#[derive(Debug, Drop)]
pub enum Answer {
    /// A `put` item's number.
    Item(ItemNo),
    /// The frames that were transmitted.
    Sent(Sent),
    /// A `send` that had nothing to transmit.
    SentNothing,
    /// The number and the bytes of the item that was taken.
    Got(ItemNo, Bytes),
    /// No item waits.
    Nothing,
    /// A tick that closed nothing.
    Done,
    /// How many items were accepted.
    Took(u64),
    /// The end closed for this reason.
    Closed(Reason),
    /// The end opened in the session of this number.
    Opened(u32),
    /// The session refuses the call.
    Refused(EndRefusal),
    /// X2: no such frame was transmitted.
    NoFrame,
}
