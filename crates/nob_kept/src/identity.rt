//! Which space is kept.

ghost use Rattle.std.specs.Prelude.{◌≡◌, ◌↔◌, true};

use nob_ids::{Limits, SpaceId};

/// Which space it is that is kept. It stays the same from the first entry to the last.
#[derive(Clone, Copy, Debug, PartialEq, Eq)]
pub struct Identity {
    /// Its number.
    pub space: SpaceId,
    /// How many spaces there are, named by the last of them.
    pub n: SpaceId,
    /// The limits of its sessions.
    pub limits: Limits,
}

impl Identity {
    /// Whether it is the same space.
    pub fn is_same(self, other: Identity) -> bool
        ensures { (result ≡ true) ↔ (self ≡ other) }
    {
        self.space == other.space && self.n == other.n && are_same(self.limits, other.limits)
    }
}

// Whether two limits are the same.
fn are_same(one: Limits, other: Limits) -> bool
    ensures { (result ≡ true) ↔ (one ≡ other) }
{
    one.window == other.window && one.retry == other.retry
}
