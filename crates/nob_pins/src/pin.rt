//! Pins.

ghost use Rattle.std.specs.Prelude.{◌≡◌};
ghost use Rattle.nob_pins.specs.Evidence.{pin_of, AreOf, AreTo};

use crate::evidence::Settled;
use nob_ids::{ItemNo, SpaceId, WireRep};
use nob_session::Closed;
use std::marker::Model;

/// That a reference is in transit to a peer in an item. A pin can't be let go, copied or taken
/// apart: it ends by `spend` or `give_up`. Contracts see the reference, the peer and the item.
pub struct TransitPin {
    rep: WireRep,
    to: SpaceId,
    item: ItemNo,
}

impl Model for TransitPin {
    ghost use Rattle.nob_pins.specs.Evidence.{Pin};

    ghost Value = { Pin };

    ghost view = { λ pin. record { rep = pin.rep; peer = pin.to; item = pin.item } };
}

impl TransitPin {
    /// Pins a reference that goes to a space in an item.
    pub fn new(rep: WireRep, to: SpaceId, item: ItemNo) -> TransitPin
        ensures { result ≡ pin_of to item rep }
    {
        TransitPin { rep, to, item }
    }

    /// The reference.
    pub fn rep(&self) -> WireRep
        ensures { result ≡ self.now.rep }
    {
        self.rep
    }

    /// The space that it goes to.
    pub fn to(&self) -> SpaceId
        ensures { result ≡ self.now.peer }
    {
        self.to
    }

    /// The item that it goes in.
    pub fn item(&self) -> ItemNo
        ensures { result ≡ self.now.item }
    {
        self.item
    }

    /// Ends the pin: its peer has dealt with its item.
    pub fn spend(self, settled: &Settled)
        requires peer { settled.now.peer ≡ self.peer }
        requires item { settled.now.item ≡ self.item }
    {
        prove!(settled.peer() == self.to && settled.item() == self.item);
        let TransitPin {
            rep: _,
            to: _,
            item: _,
        } = self;
    }

    /// Ends the pin: the session with its peer has closed.
    pub fn give_up(self, closed: &Closed)
        requires { closed.now.peer ≡ self.peer }
    {
        prove!(closed.peer() == self.to);
        let TransitPin {
            rep: _,
            to: _,
            item: _,
        } = self;
    }
}

/// Ends these pins: their peer has dealt with their item. Linear in the pins.
pub fn spend_all(pins: Vec<TransitPin>, settled: &Settled)
    requires { AreOf settled.now.peer settled.now.item pins.items }
{
    let mut left = pins;
    while let Some(pin) = left.pop() {
        pin.spend(settled);
    }
    left.destroy_empty();
}

/// Ends these pins: the session with their peer has closed. Linear in the pins.
pub fn give_up_all(pins: Vec<TransitPin>, closed: &Closed)
    requires { AreTo closed.now.peer pins.items }
{
    let mut left = pins;
    while let Some(lost) = left.pop() {
        lost.give_up(closed);
    }
    left.destroy_empty();
}
