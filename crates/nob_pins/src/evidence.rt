//! The evidence that a peer has dealt with the references of an item.

ghost use Rattle.std.specs.Prelude.{◌≡◌};
ghost use Rattle.nob_pins.specs.Evidence.{settled_by};

use nob_ids::{ItemNo, SpaceId};
use nob_item::Item;
use std::marker::Model;

/// Evidence that a peer has dealt with the references that came with an item. Only a Settle makes
/// one: it can be neither made nor copied elsewhere. Contracts see the peer and the item.
#[derive(Debug, Drop)]
pub struct Settled {
    peer: SpaceId,
    item: ItemNo,
}

impl Model for Settled {
    ghost use Rattle.nob_pins.specs.Evidence.{Settlement};

    ghost Value = { Settlement };

    ghost view = { λ settled. record { peer = settled.peer; item = settled.item } };
}

impl Settled {
    /// What an item that this peer sent shows: `None` if it is no Settle.
    pub fn of_note(peer: SpaceId, note: &Item) -> Option<Settled>
        ensures { result ≡ settled_by peer note.now }
    {
        match note {
            Item::Settle(item) => Some(Settled { peer, item: *item }),
            _ => None,
        }
    }

    /// The space that sent the Settle.
    pub fn peer(&self) -> SpaceId
        ensures { result ≡ self.now.peer }
    {
        self.peer
    }

    /// The item whose references it has dealt with.
    pub fn item(&self) -> ItemNo
        ensures { result ≡ self.now.item }
    {
        self.item
    }
}
