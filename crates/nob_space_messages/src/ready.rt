//! What stands beside the ready jobs.

use crate::in_line::InLine;
use nob_slots::Numbers;

/// The most stamps that there can be.
pub const MOST: u64 = 1 << 60;

/// What stands beside the ready jobs.
///
/// Each ready job has a message and a link under a stamp that rises. The ready jobs of one target
/// stand in line; the first of them is marked while no job of the target runs, so the first that is
/// marked is the first that may start. The stamps stand by the spaces too that the messages came
/// from.
pub struct Ready {
    /// The jobs of each target.
    pub lines: InLine,
    /// The stamps of the messages from each space.
    pub froms: Numbers,
    /// The stamp of the next ready job, above all in use.
    pub next: u64,
    /// How many more ready jobs fit.
    pub room: usize,
}

// By hand, so that it is taken apart here alone and not at each end of each caller.
impl Drop for Ready {
    fn drop(self) {
        let Ready {
            lines: _,
            froms: _,
            next: _,
            room: _,
        } = self;
    }
}
