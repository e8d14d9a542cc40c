//! The first line of a trace.

use nob_frame::Version;
use nob_ids::{Limits, SpaceId};

/// What the first line of a trace says.
#[derive(Clone, Copy, Debug)]
pub struct Head {
    /// The version of the frames that follow.
    pub version: Version,
    /// The space whose steps follow.
    pub space: SpaceId,
    /// How many spaces there are, named by the last of them.
    pub n: SpaceId,
    /// The limits of its sessions.
    pub limits: Limits,
    /// How many entries follow.
    pub count: u64,
}
