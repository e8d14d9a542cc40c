//! The bundles of one peer, by item number.

ghost use Rattle.std.specs.Prelude.{◌≡◌, ◌+◌, ◌<◌, ◌≤◌, ◌++◌, ◌∷◌, [], false, length, IsOk, OnOk, MatchOption};
ghost use Rattle.nob_pins.specs.Bundles.{Adds};
ghost use Rattle.nob_pins.specs.Peers.{has_item, Pops};

use crate::bundle::Bundle;
use indexmap::IndexMap;
use nob_ids::ItemNo;
use std::alloc::{AllocError, Global};
use std::marker::Model;

// The bundles of one peer. Contracts see the bundles, in no order, and how many more of them take
// no memory.
pub(crate) struct PeerPins {
    bundles: IndexMap<ItemNo, Bundle>,
}

impl Model for PeerPins {
    ghost use Rattle.std.specs.Map.{values_of};
    ghost use Rattle.indexmap.specs.IndexMap.{spare};
    ghost use Rattle.nob_pins.specs.Peers.{Row, AreByItem};

    ghost Value = { Row };

    ghost view = { λ row. record {
      pinned = values_of row.bundles.entries;
      room = spare row.bundles;
    } };

    ghost invariant = { λ row. AreByItem row.bundles.entries };
}

impl PeerPins {
    // No bundle.
    pub(crate) fn new(alloc: Global) -> PeerPins
        ensures { result.pinned ≡ [] }
    {
        PeerPins {
            bundles: IndexMap::new(alloc),
        }
    }

    // How many bundles there are.
    pub(crate) fn len(&self) -> usize
        ensures { result ≡ length self.now.pinned }
    {
        self.bundles.len()
    }

    // Whether there is a bundle of the item: one look-up.
    pub(crate) fn has(&self, item: ItemNo) -> bool
        ensures { result ≡ has_item item self.now.pinned }
    {
        self.bundles.contains_key(&item)
    }

    // Makes room for one bundle.
    pub(crate) fn reserve(&mut self) -> Result<(), AllocError>
        ensures pinned { self.new.pinned ≡ self.old.pinned }
        ensures room { OnOk result (0 < self.new.room) }
        ensures there { 0 < self.old.room → IsOk result }
        ensures kept { self.old.room ≤ self.new.room }
    {
        self.bundles.reserve(1)
    }

    // Puts a bundle to the others: one look-up.
    pub(crate) fn put(&mut self, bundle: Bundle)
        requires room { 0 < self.old.room }
        requires new { has_item bundle.item self.old.pinned ≡ false }
        ensures { self.new.pinned ≡ self.old.pinned ++ bundle ∷ [] }
    {
        match self.bundles.insert(bundle.item(), bundle) {
            Ok(None) => {}
            Ok(Some(_other)) => unreachable!(),
            Err(_failed) => unreachable!(),
        }
    }

    // Takes out the bundle of the item: one look-up. The last one moves to where it stood.
    pub(crate) fn take(&mut self, item: ItemNo) -> Option<Bundle>
        ensures taken { MatchOption result
            ((has_item item self.old.pinned ≡ false) × (self.new.pinned ≡ self.old.pinned))
            (λ bundle. (bundle.item ≡ item) × Adds self.new.pinned self.old.pinned bundle
            × (has_item item self.new.pinned ≡ false)) }
        ensures kept { self.old.room ≤ self.new.room }
    {
        let at = self.bundles.get_index_of(&item)?;
        let (_item, bundle) = self.bundles.swap_remove_index(at)?;
        Some(bundle)
    }

    // Takes out the last bundle.
    pub(crate) fn pop(&mut self) -> Option<Bundle>
        ensures pops { Pops self.old.pinned result self.new.pinned }
        ensures kept { self.old.room ≤ self.new.room }
    {
        let (_item, bundle) = self.bundles.pop()?;
        Some(bundle)
    }

    // Ends them where there is none.
    pub(crate) fn end(self)
        requires { self.pinned ≡ [] }
    {
        let PeerPins { bundles } = self;
        bundles.destroy_empty();
    }
}
