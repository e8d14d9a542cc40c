//! What holds at a space for a while.

ghost use Rattle.std.specs.Prelude.{◌≡◌};
ghost use Rattle.nob_drawing_plan.specs.Marks as spec;

use nob_ids::{ItemNo, SpaceId, WireRep};

/// What holds at a space for a while, so that a bar shows it.
#[derive(Clone, Copy, Debug)]
pub enum Mark {
    /// An object of the space is live.
    Live(WireRep),
    /// A client is listed for an object of the space.
    Listed(WireRep, SpaceId),
    /// A reference that the space sent to a peer, in the session and in the item of these numbers, is
    /// pinned.
    Pinned(WireRep, SpaceId, u32, ItemNo),
}

impl Mark {
    /// Whether it is the same as another.
    pub fn is_same(self, other: Mark) -> bool
        ensures { result ≡ spec.same_mark self other }
    {
        match self {
            Mark::Live(rep) => match other {
                Mark::Live(twin) => rep == twin,
                _ => false,
            },
            Mark::Listed(rep, client) => match other {
                Mark::Listed(twin, peer) => rep == twin && client == peer,
                _ => false,
            },
            Mark::Pinned(rep, peer, session, item) => match other {
                Mark::Pinned(twin, other_peer, number, place) => {
                    rep == twin && peer == other_peer && session == number && item == place
                }
                _ => false,
            },
        }
    }
}
