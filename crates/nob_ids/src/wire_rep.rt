//! References on the wire.

use crate::space::SpaceId;

/// A reference as it travels: the space that owns the object, and the object's index there. Index 0
/// is the owner's agent.
#[derive(Clone, Copy, Debug, PartialEq, Eq, PartialOrd, Ord, Hash)]
pub struct WireRep {
    /// The space that has the object.
    pub owner: SpaceId,
    /// The object's index at its owner.
    pub index: u64,
}

impl WireRep {
    ghost use Rattle.std.specs.Prelude.{◌≡◌};
    ghost use Rattle.nob_ids.specs.Names.{is_counted};

    /// Whether the collector counts the reference: it doesn't count those to an agent.
    pub fn is_counted(&self) -> bool
        ensures { result ≡ is_counted self.now }
    {
        self.index != 0
    }
}
