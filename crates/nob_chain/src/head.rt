//! The first line of a chain.

use nob_ids::{Limits, SpaceId};

/// What the first line of a chain says.
#[derive(Clone, Copy, Debug)]
pub struct ChainHead {
    /// The space whose steps follow.
    pub space: SpaceId,
    /// How many spaces there are, named by the last of them.
    pub n: SpaceId,
    /// The limits of its sessions.
    pub limits: Limits,
    /// How many segments follow.
    pub count: u64,
}
