//! The evidence that a session has ended.

ghost use Rattle.std.specs.Prelude.{◌≡◌};

use nob_ids::{Reason, SpaceId};
use std::marker::Model;

/// Evidence that the session with a peer has ended at this end. Only a session that ends makes one:
/// it can be neither made nor copied elsewhere. Contracts see the peer and the reason.
#[derive(Debug, Drop)]
pub struct Closed {
    peer: SpaceId,
    reason: Reason,
}

impl Model for Closed {
    ghost use Rattle.nob_model_session.specs.declared.entry.Ending.{Ending};

    ghost Value = { Ending };

    ghost view = { λ closed. record { peer = closed.peer; reason = closed.reason } };
}

impl Closed {
    ghost use Rattle.nob_model_session.specs.declared.entry.Ending.{Ending};

    // Made here alone, where a session ends.
    pub(crate) fn new(peer: SpaceId, reason: Reason) -> Closed
        ensures peer { result.peer ≡ peer }
        ensures reason { result.reason ≡ reason }
    {
        Closed { peer, reason }
    }

    /// The space at the other end.
    pub fn peer(&self) -> SpaceId
        ensures { result ≡ self.now.peer }
    {
        self.peer
    }

    /// Why this end closed.
    pub fn reason(&self) -> Reason
        ensures { result ≡ self.now.reason }
    {
        self.reason
    }
}

/// What an arriving frame did.
#[derive(Debug, Drop)]
pub enum Arrival {
    /// How many items were accepted by it.
    Took(u64),
    /// The session ended at this end.
    Closed(Closed),
}
