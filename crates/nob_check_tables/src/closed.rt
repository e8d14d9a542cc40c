//! Which sessions have closed.

ghost use Rattle.std.specs.Prelude.{◌≡◌, [], IfOk};
ghost use Rattle.nob_check_tables.specs.Closed as words;

use nob_ids::SpaceId;
use std::alloc::{AllocError, Global};
use std::marker::Model;

/// The peers whose sessions have closed, each once, the last first. Contracts see the list.
#[derive(Debug, Drop)]
pub struct Closed {
    peers: Vec<SpaceId>,
}

impl Model for Closed {
    ghost use Rattle.std.specs.Prelude.{ℕ, List};

    ghost Value = { List ℕ };

    ghost view = { λ closed. closed.peers.items };
}

impl Closed {
    /// No session has.
    pub fn none(alloc: Global) -> Closed
        ensures { result ≡ [] }
    {
        Closed {
            peers: Vec::new(alloc),
        }
    }

    /// Whether the session with a peer has closed. Linear in the peers.
    pub fn has(&self, peer: SpaceId) -> bool
        ensures { result ≡ words.is_among peer self.now }
    {
        is_among(peer, self.peers.as_slice())
    }

    /// These with the session of a peer more. Only memory fails it. Linear in the peers.
    pub fn with_peer(self, peer: SpaceId) -> Result<Closed, AllocError>
        ensures { IfOk result (λ more. more ≡ words.with_peer peer self) }
    {
        let Closed { mut peers } = self;
        if is_among(peer, peers.as_slice()) {
            return Ok(Closed { peers });
        }
        peers.insert(0, peer)?;
        Ok(Closed { peers })
    }

    /// These without the session of a peer. It takes no memory. Linear in the peers.
    pub fn without_peer(self, peer: SpaceId) -> Closed
        ensures { result ≡ words.without_peer peer self }
    {
        let Closed { peers } = self;
        Closed {
            peers: others(peer, peers),
        }
    }
}

// The others of some peers.
fn others(peer: SpaceId, mut peers: Vec<SpaceId>) -> Vec<SpaceId>
    ensures { result.items ≡ words.without_peer peer peers.items }
{
    peers.retain(|other| peer != *other);
    peers
}

// Whether a peer is one of these.
fn is_among(peer: SpaceId, peers: &[SpaceId]) -> bool
    ensures { result ≡ words.is_among peer peers.now }
{
    peers.iter().any(|other| *other == peer)
}
