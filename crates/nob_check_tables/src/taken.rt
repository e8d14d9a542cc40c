//! How many items of each peer were accepted.

ghost use Rattle.std.specs.Prelude.{◌≡◌, [], IfOk};
ghost use Rattle.nob_check_tables.specs.Taken as words;

use crate::numbers::SessionNumbers;
use indexmap::IndexMap;
use nob_frame::Frame;
use nob_ids::SpaceId;
use std::alloc::{AllocError, Global};
use std::marker::Model;

/// Whether a frame is of the session with its sender. Constant time on average.
pub(crate) fn is_present(frame: &Frame, numbers: &SessionNumbers) -> bool
    ensures { result ≡ words.is_present frame.now numbers.now }
{
    frame.session == numbers.number(frame.from)
}

/// How many items of each peer were accepted. Contracts see the pairs, in the order in which the
/// peers came.
pub struct Taken {
    map: IndexMap<SpaceId, u128>,
}

// By hand, so that the table is taken apart here alone and not at each end of each caller.
impl Drop for Taken {
    fn drop(self) {
        let Taken { map: _ } = self;
    }
}

impl Model for Taken {
    ghost use Rattle.std.specs.Prelude.{ℕ, List};

    ghost Value = { List (ℕ × ℕ) };

    ghost view = { λ taken. taken.map.entries };
}

impl Taken {
    /// Nothing was accepted.
    pub fn none(alloc: Global) -> Taken
        ensures { result ≡ [] }
    {
        Taken {
            map: IndexMap::new(alloc),
        }
    }

    /// How many items of a peer were accepted. Constant time on average.
    pub fn count(&self, peer: SpaceId) -> u128
        ensures { result ≡ words.taken_from peer self.now }
    {
        match self.map.get(&peer) {
            Some(count) => *count,
            None => 0,
        }
    }

    /// The counts once a frame took so many items. Only memory fails it: no journal takes so many
    /// that they can't be counted.
    pub fn with_taken(self, frame: &Frame, count: u64) -> Result<Taken, AllocError>
        ensures { IfOk result (λ more. more ≡ words.with_taken frame.now count self) }
    {
        let Some(count) = u128::from(count).checked_add(self.count(frame.from)) else {
            return Err(AllocError);
        };
        let Taken { mut map } = self;
        map.insert(frame.from, count)?;
        Ok(Taken { map })
    }

    /// The counts without that of a peer. It takes no memory. Linear in the peers.
    pub fn without_count(self, peer: SpaceId) -> Taken
        ensures { result ≡ words.without_count peer self }
    {
        let Taken { map } = self;
        Taken {
            map: others(peer, map),
        }
    }
}

// The counts of the other peers.
fn others(peer: SpaceId, mut map: IndexMap<SpaceId, u128>) -> IndexMap<SpaceId, u128>
    ensures { result.entries ≡ words.without_count peer map.entries }
{
    map.retain(|other, _| peer != *other);
    map
}
