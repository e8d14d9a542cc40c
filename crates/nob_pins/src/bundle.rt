//! The pins of one peer and item.

ghost use Rattle.std.specs.Prelude.{◌≡◌};
ghost use Rattle.nob_pins.specs.Evidence.{AreOf, reps_of};
ghost use Rattle.nob_pins.specs.Bundles.{bundle_of};

use crate::pin::TransitPin;
use nob_ids::{ItemNo, SpaceId};
use std::marker::Model;

// The pins that are to a peer in an item.
pub(crate) struct Bundle {
    peer: SpaceId,
    item: ItemNo,
    pins: Vec<TransitPin>,
}

impl Model for Bundle {
    ghost use Rattle.nob_pins.specs.Bundles.{Pinned, bundle_of};
    ghost use Rattle.nob_pins.specs.Evidence.{AreOf, reps_of};

    ghost Value = { Pinned };

    ghost view = { λ b. bundle_of b.peer b.item (reps_of b.pins.items) };

    ghost invariant = { λ b. AreOf b.peer b.item b.pins.items };
}

impl Bundle {
    // The bundle of these pins.
    pub(crate) fn new(peer: SpaceId, item: ItemNo, pins: Vec<TransitPin>) -> Bundle
        requires { AreOf peer item pins.items }
        ensures { result ≡ bundle_of peer item (reps_of pins.items) }
    {
        Bundle { peer, item, pins }
    }

    // The item's number.
    pub(crate) fn item(&self) -> ItemNo
        ensures { result ≡ self.now.item }
    {
        self.item
    }

    // The pins.
    pub(crate) fn pins(&self) -> &[TransitPin]
        ensures { reps_of result.now ≡ self.now.reps }
    {
        &self.pins
    }

    // The pins, out of their bundle.
    pub(crate) fn into_pins(self) -> Vec<TransitPin>
        ensures pins { AreOf self.peer self.item result.items }
        ensures reps { reps_of result.items ≡ self.reps }
    {
        let Bundle {
            peer: _,
            item: _,
            pins,
        } = self;
        pins
    }
}
