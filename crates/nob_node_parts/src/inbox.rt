//! What comes over one link.

use nob_agents::{Calls, KeeperError, Taker, Turn};
use nob_link::TakeEnd;
use std::sync::Wait;

/// What takes what comes over one link: nothing any more, where the trace was full.
#[derive(Drop)]
pub struct Inbox {
    pub taker: Option<Taker<TakeEnd>>,
}

/// What came of a turn of an inbox.
#[derive(Clone, Copy, Debug, PartialEq, Eq)]
pub(crate) enum Taken {
    /// Something was done.
    Some,
    /// There is nothing now.
    Nothing,
    /// There is no memory now.
    NoMemory,
    /// Nothing comes any more, or nothing more can be taken.
    End,
}

impl Inbox {
    // One turn: what is there now is taken and acted on. Where no entry can be made any more its
    // Taker is let go, with its end of the link.
    pub(crate) fn turn<C: Calls, R: Wait>(&mut self, rt: &R, calls: &C) -> Taken {
        let Some(taker) = &mut self.taker else {
            return Taken::End;
        };
        match taker.turn(rt, calls) {
            Ok(Turn::Did(_)) => Taken::Some,
            Ok(Turn::Idle) => Taken::Nothing,
            Ok(Turn::End) => Taken::End,
            Err(KeeperError::OutOfMemory) => Taken::NoMemory,
            Err(_) => {
                self.taker = None;
                Taken::End
            }
        }
    }

    // Waits for the next parcel. Whoever puts one at the link's other end wakes it, and who lets that
    // end go.
    pub(crate) fn wait<R: Wait>(&mut self, rt: &R) {
        if let Some(taker) = &mut self.taker {
            taker.wait(rt);
        }
    }
}
