//! The sets by client: a row for each client, with the indexes at which it is listed.

ghost use Rattle.std.specs.Prelude.{◌≡◌, ◌<◌, ◌==◌, ◌&&◌, ◌||◌, ℕ, false, not, [], length, map, filter, position, slice_get, Some, IsOk, IfOk, OnOk, OnErr};
ghost use Rattle.std.specs.List.{list_any};
ghost use Rattle.std.specs.List.Sorted.{IsStrictlyIncreasing};
ghost use Rattle.nob_dirty.specs.declared.rows.Row.{Row as RowOf};
ghost use Rattle.nob_dirty.specs.Rows.{has, is_row, is_at_row, is_listed, Changes, Begins};

use crate::sets::Listing;
use nob_ids::SpaceId;
use std::alloc::{AllocError, Global};
use std::collections::BTreeSet;
use std::marker::Model;
use std::mem;

// A set of indexes. Contracts see the indexes, rising.
#[derive(Debug, Drop)]
pub(crate) struct Indexes {
    keys: BTreeSet<u64>,
}

impl Model for Indexes {
    ghost use Rattle.std.specs.Prelude.{List, ℕ};

    ghost Value = { List ℕ };

    ghost view = { λ indexes. indexes.keys.keys };
}

impl Indexes {
    // No index.
    pub(crate) fn new(alloc: Global) -> Indexes
        ensures { result ≡ [] }
    {
        Indexes {
            keys: BTreeSet::new(alloc),
        }
    }

    // Whether the index is among these: one look-up.
    pub(crate) fn has(&self, index: u64) -> bool
        ensures { result ≡ has index self.now }
    {
        self.keys.contains(&index)
    }

    // Puts the index to these: one look-up.
    pub(crate) fn enter(&mut self, index: u64) -> Result<(), AllocError>
        ensures enters { OnOk result ((i : ℕ) → has i self.new ≡ (has i self.old || index == i)) }
        ensures err { OnErr result (self.new ≡ self.old) }
    {
        match self.keys.insert(index) {
            Ok(_) => Ok(()),
            Err(_) => Err(AllocError),
        }
    }

    // Takes the index from these: one look-up.
    pub(crate) fn leave(&mut self, index: u64)
        ensures leaves { (i : ℕ) → has i self.new ≡ (not (index == i) && has i self.old) }
    {
        self.keys.remove(&index);
    }

    // These, rising. Where there is none no memory is needed.
    pub(crate) fn rising(&self, alloc: Global) -> Result<Vec<u64>, AllocError>
        ensures indexes { IfOk result (λ found. found.items ≡ self.now) }
        ensures rising { IfOk result (λ found. IsStrictlyIncreasing found.items) }
        ensures none { self.now ≡ [] → IsOk result }
    {
        if self.keys.is_empty() {
            return Ok(Vec::new(alloc));
        }
        let found = self.copied(alloc)?;
        Ok(found)
    }

    // A copy of these.
    fn copied(&self, alloc: Global) -> Result<Vec<u64>, AllocError>
        ensures indexes { IfOk result (λ found. found.items ≡ self.now) }
        ensures rising { IsStrictlyIncreasing self.now }
    {
        self.keys.iter().copied().collect(alloc)
    }
}

// A client and the indexes at which it is listed.
#[derive(Debug, Drop)]
pub(crate) struct Row {
    pub(crate) client: SpaceId,
    pub(crate) indexes: Indexes,
}

impl Row {
    // Whether this is the listing's client, and is listed at its index.
    fn lists(&self, listing: Listing) -> bool
        ensures { result ≡ is_listed listing.index listing.client self.now }
    {
        self.client == listing.client && self.indexes.has(listing.index)
    }
}

// Whether the listing's client is listed at its index.
pub(crate) fn lists(rows: &[Row], listing: Listing) -> bool
    ensures { result ≡ list_any (is_listed listing.index listing.client) rows.now }
{
    rows.iter().any(|row| row.lists(listing))
}

// Whether anybody is listed at the index.
pub(crate) fn has_clients(rows: &[Row], index: u64) -> bool
    ensures { result ≡ list_any (is_at_row index) rows.now }
{
    rows.iter().any(|row| row.indexes.has(index))
}

// The clients at the index, in no order.
pub(crate) fn clients_at(
    alloc: Global,
    rows: &[Row],
    index: u64,
) -> Result<Vec<SpaceId>, AllocError>
    ensures { IfOk result (λ found. found.items
        ≡ map (λ row. row.client) (filter (is_at_row index) rows.now)) }
{
    rows.iter()
        .filter(|row| row.indexes.has(index))
        .map(|row| row.client)
        .collect(alloc)
}

// Where the client's row stands.
pub(crate) fn place_of(rows: &[Row], client: SpaceId) -> Option<usize>
    ensures { result ≡ position (is_row client) rows.now }
{
    rows.iter().position(|row| row.client == client)
}

// Puts the index to those of the row at the place.
pub(crate) fn enter_at(rows: &mut Vec<Row>, place: usize, index: u64) -> Result<(), AllocError>
    requires place { place < length rows.old.items }
    ensures enters { OnOk result
        (Changes (λ i had. had || index == i) rows.old.items rows.new.items place) }
    ensures err { OnErr result (rows.new.items ≡ rows.old.items) }
{
    rows[place].indexes.enter(index)
}

// Takes the index from those of the row at the place.
pub(crate) fn leave_at(rows: &mut Vec<Row>, place: usize, index: u64)
    requires place { place < length rows.old.items }
    ensures leaves { Changes (λ i had. not (index == i) && had) rows.old.items rows.new.items place }
{
    rows[place].indexes.leave(index);
}

// Takes all indexes from the row at the place.
pub(crate) fn empty_at(rows: &mut Vec<Row>, place: usize) -> BTreeSet<u64>
    requires place { place < length rows.old.items }
    ensures leaves { Changes (λ i had. false) rows.old.items rows.new.items place }
    ensures indexes { (row : RowOf) → slice_get rows.old.items place ≡ Some row
        → result.keys ≡ row.indexes }
{
    let none = Indexes::new(*rows.allocator());
    let Indexes { keys } = mem::replace(&mut rows[place].indexes, none);
    keys
}

// Puts a row behind the others, of the client with this one index.
pub(crate) fn begin(rows: &mut Vec<Row>, index: u64, client: SpaceId) -> Result<(), AllocError>
    ensures begins { OnOk result (Begins rows.old.items rows.new.items index client) }
    ensures err { OnErr result (rows.new.items ≡ rows.old.items) }
{
    let mut indexes = Indexes::new(*rows.allocator());
    indexes.enter(index)?;
    rows.push(Row { client, indexes })?;
    Ok(())
}
