//! The steps of a pair script.

use nob_bytes::Bytes;

/// One of the two ends.
#[derive(Clone, Copy, Debug)]
pub enum Side {
    /// Space 1's end.
    First,
    /// Space 2's end.
    Second,
}

/// What a step does at an end.
#[derive(Debug, Drop)]
pub enum Call {
    /// `put HEX`: hands an item.
    Put(Bytes),
    /// `send`: transmits.
    Send,
    /// `get`: takes the first item that waits.
    Get,
    /// `tick`
    Tick,
    /// `close`
    Close,
    /// `open`: opens the end again, in a new session.
    Open,
}

/// A step of a pair script.
#[derive(Debug, Drop)]
pub enum Step {
    /// A call at an end.
    At(Side, Call),
    /// `deliver K`: the frame that was transmitted as the K-th of all arrives at its `to`.
    Deliver(u64),
}
