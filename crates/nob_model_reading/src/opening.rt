//! The first line of a world script.

use nob_ids::{Limits, SpaceId};

/// What the first line of a world script says.
#[derive(Clone, Copy, Debug)]
pub struct Opening {
    /// How many spaces there are, named by the last of them.
    pub n: SpaceId,
    /// The limits of their sessions, where it states some.
    pub limits: Option<Limits>,
}
