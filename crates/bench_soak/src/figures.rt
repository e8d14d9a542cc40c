//! How often what happened.

use nob_nodes::{NodeError, Returned};

/// How often what happened to a player, or to several. It depends on the schedule.
#[derive(Clone, Copy)]
pub(crate) struct Figures {
    /// Steps.
    pub(crate) steps: u64,
    /// Objects that were made.
    pub(crate) exports: u64,
    /// Calls that were answered.
    pub(crate) answered: u64,
    /// Calls that ended in a fault, or found no method.
    pub(crate) faults: u64,
    /// Calls of which a reference was lost.
    pub(crate) lost: u64,
    /// Calls whose session closed before the reply.
    pub(crate) ended: u64,
    /// References that were got by an answer.
    pub(crate) got: u64,
    /// Sessions that were closed by a player, and that were opened.
    pub(crate) closes: u64,
    pub(crate) opens: u64,
    /// What a space refused.
    pub(crate) refused: u64,
    /// What a node refused for want of memory.
    pub(crate) lacked: u64,
}

impl Figures {
    // Nothing happened.
    pub(crate) fn new() -> Figures {
        Figures {
            steps: 0,
            exports: 0,
            answered: 0,
            faults: 0,
            lost: 0,
            ended: 0,
            got: 0,
            closes: 0,
            opens: 0,
            refused: 0,
            lacked: 0,
        }
    }

    // A node didn't do what it was asked.
    pub(crate) fn count_error(&mut self, error: NodeError) {
        match error {
            NodeError::Keeper(_) => add(&mut self.lacked),
            NodeError::Refused(_) => add(&mut self.refused),
        }
    }

    // A call returned.
    pub(crate) fn count_returned(&mut self, returned: &Returned) {
        match returned {
            Returned::Replied { status, .. } => match *status {
                0 => add(&mut self.answered),
                3 => add(&mut self.lost),
                _ => add(&mut self.faults),
            },
            Returned::Ended => add(&mut self.ended),
        }
    }

    // These and those of another player.
    pub(crate) fn with(self, other: Figures) -> Figures {
        Figures {
            steps: self.steps.saturating_add(other.steps),
            exports: self.exports.saturating_add(other.exports),
            answered: self.answered.saturating_add(other.answered),
            faults: self.faults.saturating_add(other.faults),
            lost: self.lost.saturating_add(other.lost),
            ended: self.ended.saturating_add(other.ended),
            got: self.got.saturating_add(other.got),
            closes: self.closes.saturating_add(other.closes),
            opens: self.opens.saturating_add(other.opens),
            refused: self.refused.saturating_add(other.refused),
            lacked: self.lacked.saturating_add(other.lacked),
        }
    }
}

// One more.
pub(crate) fn add(count: &mut u64) {
    *count = count.saturating_add(1);
}
