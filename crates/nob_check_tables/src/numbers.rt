//! The number of the session with each peer.

ghost use Rattle.std.specs.Prelude.{◌≡◌, [], IfOk};
ghost use Rattle.nob_check_tables.specs.Numbers as words;

use indexmap::IndexMap;
use nob_ids::SpaceId;
use std::alloc::{AllocError, Global};
use std::marker::Model;

/// The numbers of the sessions that aren't the first with their peers. Contracts see the pairs, in
/// the order in which the peers came.
pub struct SessionNumbers {
    map: IndexMap<SpaceId, u32>,
}

// By hand, so that the table is taken apart here alone and not at each end of each caller.
impl Drop for SessionNumbers {
    fn drop(self) {
        let SessionNumbers { map: _ } = self;
    }
}

impl Model for SessionNumbers {
    ghost use Rattle.std.specs.Prelude.{ℕ, List};

    ghost Value = { List (ℕ × ℕ) };

    ghost view = { λ numbers. numbers.map.entries };
}

impl SessionNumbers {
    /// Each session is the first.
    pub fn none(alloc: Global) -> SessionNumbers
        ensures { result ≡ [] }
    {
        SessionNumbers {
            map: IndexMap::new(alloc),
        }
    }

    /// The number of the session with a peer. Constant time on average.
    pub fn number(&self, peer: SpaceId) -> u32
        ensures { result ≡ words.number_in peer self.now }
    {
        match self.map.get(&peer) {
            Some(number) => *number,
            None => 1,
        }
    }

    /// These with another number of the session with a peer. Only memory fails it. Constant time on
    /// average.
    pub fn with_number(self, peer: SpaceId, number: u32) -> Result<SessionNumbers, AllocError>
        ensures { IfOk result (λ more. more ≡ words.with_number peer number self) }
    {
        let SessionNumbers { mut map } = self;
        map.insert(peer, number)?;
        Ok(SessionNumbers { map })
    }
}
