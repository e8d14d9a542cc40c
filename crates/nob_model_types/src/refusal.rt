//! Why a space refuses an event.

use thiserror::Error;

/// What still uses an object that is to be withdrawn: the first of these that holds.
#[derive(Clone, Copy, Debug, PartialEq, Eq, Error)]
pub enum Use {
    /// S11(1): its owner holds it.
    #[error("S11(1): its owner holds it")]
    Held,
    /// S11(2): a reference to it is in transit from its owner.
    #[error("S11(2): a reference to it is in transit from its owner")]
    InTransit,
    /// S11(3): a client is listed for it.
    #[error("S11(3): a client is listed for it")]
    Listed,
    /// S11(4): it is the agent.
    #[error("S11(4): it is the agent")]
    Agent,
}

/// A refusal of a space. It changes nothing. Want of memory isn't among them: it makes no entry.
#[derive(Clone, Copy, Debug, PartialEq, Eq, Error)]
pub enum Refusal {
    /// S1: there is no such peer.
    #[error("S1: there is no such peer")]
    NoPeer,
    /// S2: the session is closed at this space.
    #[error("S2: the session is closed at this space")]
    Closed,
    /// S3: the object isn't live.
    #[error("S3: the object isn't live")]
    NoObject,
    /// S4: the reference isn't held.
    #[error("S4: the reference isn't held")]
    NotHeld,
    /// S5: too many items are unacknowledged.
    #[error("S5: too many items are unacknowledged")]
    QueueFull,
    /// S6: the numbers of items are used up.
    #[error("S6: the numbers of items are used up")]
    SeqEnd,
    /// S7: the value has no pickle.
    #[error("S7: the value has no pickle")]
    TooBig,
    /// S8: there is no such call, or its reply was taken.
    #[error("S8: there is no such call, or its reply was taken")]
    NoCall,
    /// S9: the reply isn't ready.
    #[error("S9: the reply isn't ready")]
    NotReady,
    /// S10: there is nothing to do.
    #[error("S10: there is nothing to do")]
    Nothing,
    /// S11: the object is still used.
    #[error(transparent)]
    StillUsed(Use),
    /// S12: the job isn't running.
    #[error("S12: the job isn't running")]
    NoJob,
    /// S13: a limit is reached.
    #[error("S13: a limit is reached")]
    Limit,
    /// S15: the session is open at this space.
    #[error("S15: the session is open at this space")]
    StillOpen,
    /// S16: a reference to an object of the peer is held, is pinned or waits at this space.
    #[error("S16: a reference to an object of the peer is held, is pinned or waits at this space")]
    StillHeld,
}
