//! What who runs a node sees of a space: what went each way on a session, and what isn't done yet.

use nob_ids::Reason;

/// What went each way on the present session with a peer, and how it ended.
#[derive(Clone, Copy, Debug, PartialEq, Eq)]
pub struct Tally {
    /// The session's number.
    pub session: u32,
    /// How many items were handed to the peer.
    pub sent: u64,
    /// How many of the peer's items were acted on here.
    pub acted: u64,
    /// Why this end closed, if it has.
    pub closed: Option<Reason>,
}

/// How much of a space's outstanding work is calls and jobs.
#[derive(Clone, Copy, Debug, PartialEq, Eq)]
pub struct Backlog {
    /// The space's own calls whose reply, or the word that there will be none, wasn't taken: be the
    /// reply on its way or ready.
    pub calls: u64,
    /// The jobs that are ready and weren't claimed, whether or not their object is running.
    pub ready: u64,
    /// The jobs that run.
    pub running: u64,
}
