//! The sets themselves.

ghost use Rattle.std.specs.Prelude.{◌≡◌, ◌↔◌, ℕ, true, false, IsOk, OnOk, OnErr, IfOk};
ghost use Rattle.std.specs.List.Sorted.{IsStrictlyIncreasing};
ghost use Rattle.nob_dirty.specs.Sets.{lists, ListsNothing, IsEmptyAt, ListsSame, Enters, Leaves, LeavesAll, AreClients, AreIndexes};

use crate::rows::{
    Row, begin, clients_at, empty_at, enter_at, has_clients, leave_at, lists, place_of,
};
use nob_ids::SpaceId;
use std::alloc::{AllocError, Global};
use std::collections::BTreeSet;
use std::marker::Model;

/// A client at an index: what contracts see of the sets is a list of these.
#[derive(Clone, Copy, Debug, PartialEq, Eq)]
pub struct Listing {
    /// The index.
    pub index: u64,
    /// The client.
    pub client: SpaceId,
}

/// The dirty sets of a space: a set of pairs of an index and a client, each kept once. Contracts
/// see which client is listed at which index, and no order. A client that is listed has a row of
/// its own, with its indexes in order; rows are at most as many as spaces, so that finding a row
/// costs no more than a constant.
#[derive(Debug, Drop)]
pub struct DirtySets {
    rows: Vec<Row>,
}

impl Model for DirtySets {
    ghost use Rattle.std.specs.Prelude.{List};
    ghost use Rattle.nob_dirty.specs.declared.sets.Listing.{Listing};
    ghost use Rattle.nob_dirty.specs.Rows.{AreApart, all_listings};

    ghost Value = { List Listing };

    ghost view = { λ sets. all_listings sets.rows.items };

    ghost invariant = { λ sets. AreApart sets.rows.items };
}

impl DirtySets {
    /// Sets that list nobody.
    pub fn new(alloc: Global) -> DirtySets
        ensures empty { ListsNothing result }
    {
        DirtySets {
            rows: Vec::new(alloc),
        }
    }

    /// Whether the client is listed at the index. One look-up among the client's indexes.
    pub fn lists(&self, index: u64, client: SpaceId) -> bool
        ensures { result ≡ lists self.now index client }
    {
        lists(&self.rows, Listing { index, client })
    }

    /// Whether nobody is listed at the index. One look-up for each client that has a row, until one
    /// is found.
    pub fn is_empty(&self, index: u64) -> bool
        ensures { (result ≡ true) ↔ IsEmptyAt self.now index }
    {
        !has_clients(&self.rows, index)
    }

    /// The clients that are listed at the index, rising, each once. Only memory fails it, and
    /// nobody takes none. Two look-ups for each client that has a row, and a sort of the clients
    /// found.
    pub fn clients(&self, index: u64) -> Result<Vec<SpaceId>, AllocError>
        ensures clients { IfOk result (λ found. AreClients self.now index found.items) }
        ensures rising { IfOk result (λ found. IsStrictlyIncreasing found.items) }
        ensures nobody { IsEmptyAt self.now index → IsOk result }
    {
        let alloc = *self.rows.allocator();
        if self.is_empty(index) {
            return Ok(Vec::new(alloc));
        }
        let mut found = clients_at(alloc, &self.rows, index)?;
        found.sort_unstable();
        Ok(found)
    }

    /// The indexes at which the client is listed, rising, each once. Only memory fails it, and a
    /// client that is listed nowhere takes none. Linear in the indexes found.
    pub fn indexes(&self, client: SpaceId) -> Result<Vec<u64>, AllocError>
        ensures indexes { IfOk result (λ found. AreIndexes self.now client found.items) }
        ensures rising { IfOk result (λ found. IsStrictlyIncreasing found.items) }
        ensures nobody { ((index : ℕ) → lists self.now index client ≡ false) → IsOk result }
    {
        let alloc = *self.rows.allocator();
        let Some(place) = place_of(&self.rows, client) else {
            return Ok(Vec::new(alloc));
        };
        self.rows[place].indexes.rising(alloc)
    }

    /// Lists the client at the index. A client that is listed there already stays so, and no memory
    /// is needed then. Only memory fails it, and the sets are then as they were. Two look-ups among
    /// the client's indexes.
    pub fn dirty(&mut self, index: u64, client: SpaceId) -> Result<(), AllocError>
        ensures enters { OnOk result (Enters self.old self.new index client) }
        ensures listed { lists self.old index client ≡ true → IsOk result }
        ensures err { OnErr result (ListsSame self.old self.new) }
    {
        if self.lists(index, client) {
            return Ok(());
        }
        let Some(place) = place_of(&self.rows, client) else {
            begin(&mut self.rows, index, client)?;
            return Ok(());
        };
        enter_at(&mut self.rows, place, index)?;
        Ok(())
    }

    /// Lists the client at the index no longer. One look-up among the client's indexes.
    pub fn clean(&mut self, index: u64, client: SpaceId)
        ensures leaves { Leaves self.old self.new index client }
    {
        if let Some(place) = place_of(&self.rows, client) {
            leave_at(&mut self.rows, place, index);
        }
    }

    /// Lists the client nowhere any longer: its session has closed. Linear in the indexes at which
    /// it was listed.
    pub fn close(&mut self, client: SpaceId)
        ensures leaves { LeavesAll self.old self.new client }
    {
        let _indexes = self.take_indexes(client);
    }

    /// Lists the client nowhere any longer, as `close`: the indexes at which it was listed. Constant
    /// time; to drop them is linear in them.
    pub fn take_indexes(&mut self, client: SpaceId) -> BTreeSet<u64>
        ensures leaves { LeavesAll self.old self.new client }
        ensures indexes { AreIndexes self.old client result.keys }
    {
        let alloc = *self.rows.allocator();
        let Some(place) = place_of(&self.rows, client) else {
            return BTreeSet::new(alloc);
        };
        empty_at(&mut self.rows, place)
    }
}
