//! Of which space the words are read.

use nob_ids::SpaceId;

/// A space among the spaces from 1 to `n`.
#[derive(Clone, Copy, Debug, PartialEq, Eq)]
pub struct Here {
    /// The space.
    pub space: SpaceId,
    /// How many spaces there are.
    pub n: u16,
}

impl Here {
    ghost use Rattle.std.specs.Prelude.{◌≡◌};
    ghost use Rattle.nob_model_types.specs.Sessions.{is_peer};

    /// Whether another space is a peer of this one.
    pub fn is_peer(self, other: SpaceId) -> bool
        ensures { result ≡ is_peer self.space self.n other }
    {
        other != self.space && 1 <= other.get() && other.get() <= self.n
    }
}
