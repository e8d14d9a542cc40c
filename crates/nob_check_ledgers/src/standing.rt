//! Where each item that a space sent stands among them.

ghost use Rattle.std.specs.Prelude.{◌≡◌, [], IfOk};
ghost use Rattle.nob_check_ledgers.specs.Sent as words;

use indexmap::IndexMap;
use nob_ids::{ItemNo, SpaceId};
use std::alloc::{AllocError, Global};
use std::marker::Model;

/// What names an item that was sent: to whom, in which session, and its number.
#[derive(Clone, Copy, Debug, PartialEq, Eq, Hash)]
pub struct ItemName {
    /// The peer that it was sent to.
    pub to: SpaceId,
    /// The number of the session with the peer.
    pub session: u32,
    /// Its number.
    pub number: u64,
}

/// Where the item of each name stands, counted from 0. Contracts see the pairs, in the order in
/// which they were put in.
pub struct Standings {
    map: IndexMap<ItemName, usize>,
}

// By hand, so that the table is taken apart here alone and not at each end of each caller.
impl Drop for Standings {
    fn drop(self) {
        let Standings { map: _ } = self;
    }
}

impl Model for Standings {
    ghost use Rattle.std.specs.Prelude.{ℕ, List};
    ghost use Rattle.nob_check_ledgers.specs.declared.standing.ItemName.{ItemName};

    ghost Value = { List (ItemName × ℕ) };

    ghost view = { λ standings. standings.map.entries };
}

impl Standings {
    /// Nothing was sent.
    pub fn none(alloc: Global) -> Standings
        ensures { result ≡ [] }
    {
        Standings {
            map: IndexMap::new(alloc),
        }
    }

    /// Where the item of a number that went to a peer in a session stands. Constant time on average.
    pub fn place(&self, to: SpaceId, session: u32, number: ItemNo) -> Option<usize>
        ensures { result ≡ words.standing_in (words.name_of to session number) self.now }
    {
        let name = ItemName {
            to,
            session,
            number: number.get(),
        };
        match self.map.get(&name) {
            Some(place) => Some(*place),
            None => None,
        }
    }

    /// These with that of one name more, unless it has one. Only memory fails it. Constant time on
    /// average.
    pub fn with_standing(self, name: ItemName, place: usize) -> Result<Standings, AllocError>
        ensures { IfOk result (λ more. more ≡ words.with_standing name place self) }
    {
        let Standings { mut map } = self;
        if map.contains_key(&name) {
            return Ok(Standings { map });
        }
        map.insert(name, place)?;
        Ok(Standings { map })
    }
}
