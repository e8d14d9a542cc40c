//! Seals: what a space says of itself behind the last entry of a segment.

ghost use Rattle.std.specs.Prelude.{◌≡◌};

use nob_ids::{Reason, SpaceId};
use std::marker::Model;

/// What a seal says of the session with a peer.
#[derive(Clone, Copy, Debug)]
pub struct PeerSeal {
    /// The peer.
    pub peer: SpaceId,
    /// The present number of the session.
    pub session: u32,
    /// How many items were handed to the peer in it.
    pub sent: u64,
    /// How many items of the peer were acted on in it.
    pub acted: u64,
    /// Why this end was closed: `None` where it is open.
    pub closed: Option<Reason>,
}

/// What a seal says of peers. Contracts see the list.
#[derive(Debug, Drop)]
pub struct PeerSeals {
    peers: Vec<PeerSeal>,
}

impl Model for PeerSeals {
    ghost use Rattle.std.specs.Prelude.{List};
    ghost use Rattle.nob_chain.specs.declared.seal.PeerSeal.{PeerSeal};

    ghost Value = { List PeerSeal };

    ghost view = { λ peers. peers.peers.items };
}

impl PeerSeals {
    /// The list of a `Vec`. It takes no memory.
    pub fn from_vec(peers: Vec<PeerSeal>) -> PeerSeals
        ensures { result ≡ peers.items }
    {
        PeerSeals { peers }
    }

    /// The peers.
    pub fn as_slice(&self) -> &[PeerSeal]
        ensures { result.now ≡ self.now }
    {
        self.peers.as_slice()
    }

    /// The list as a `Vec`. It takes no memory.
    pub fn into_vec(self) -> Vec<PeerSeal>
        ensures { result.items ≡ self }
    {
        self.peers
    }
}

/// What a space says of its objects and its sessions behind an entry.
#[derive(Debug, Drop)]
pub struct Seal {
    /// The entry's stamp.
    pub stamp: u64,
    /// How many of its own objects are exported and not withdrawn.
    pub live: u64,
    /// Each peer, rising.
    pub peers: PeerSeals,
}
