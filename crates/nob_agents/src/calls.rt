//! What an agent asks of a keeper.

ghost use Rattle.std.specs.Prelude.{◌≡◌, OnOk, OnErr};
ghost use Rattle.nob_keeper.specs.Seats.{Adds};

use nob_keeper::{Dues, Keeper, KeeperError, Look, Seat};
use nob_model_types::Event;
use std::sync::Wait;

/// A keeper, as an agent sees it.
pub trait Calls {
    /// One call: an event of the space, whose receipt is added to the seat.
    fn call<R: Wait>(
        &self,
        rt: &R,
        seat: &mut Seat,
        event: &Event,
        seen: u64,
    ) -> Result<(), KeeperError>
        ensures adds { OnOk result (Adds seat.old seat.new event.now seen) }
        ensures err { OnErr result (seat.new ≡ seat.old) };

    /// What the space could do next.
    fn look<R: Wait>(&self, rt: &R) -> Look;

    /// What the space would transmit to each peer.
    fn dues<R: Wait>(&self, rt: &R) -> Dues;
}

impl Calls for Keeper {
    fn call<R: Wait>(
        &self,
        rt: &R,
        seat: &mut Seat,
        event: &Event,
        seen: u64,
    ) -> Result<(), KeeperError> {
        Keeper::call(self, rt, seat, event, seen)
    }

    fn look<R: Wait>(&self, rt: &R) -> Look {
        Keeper::look(self, rt)
    }

    fn dues<R: Wait>(&self, rt: &R) -> Dues {
        Keeper::dues(self, rt)
    }
}
