//! What dispatchers and workers ask of a keeper.

ghost use Rattle.std.specs.Prelude.{◌≡◌, OnOk, OnErr, IfErr};
ghost use Rattle.nob_dispatch.specs.KeeperError.{KeeperError as KeeperErrorOf};
ghost use Rattle.nob_keeper.specs.Seats.{Adds};
ghost use Rattle.nob_model_types.specs.declared.event.Event.TheVariants as events;

use nob_ids::CallNo;
use nob_keeper::{Keeper, KeeperError, Seat};
use nob_model_types::Event;
use std::sync::Wait;

/// A keeper, as dispatchers and workers see it.
pub trait JobCalls {
    /// The errors that it answered calls by. Code for any keeper knows none but from a call; a
    /// keeper need not tell.
    ghost answered: { Self → KeeperErrorOf → Type 0 } = { λ _ _. Unit {0} };

    /// One call: an event of the space, whose receipt is added to the seat.
    fn call<R: Wait>(&self, rt: &R, seat: &mut Seat, event: &Event) -> Result<(), KeeperError>
        ensures adds { OnOk result (Adds seat.old seat.new event.now 0) }
        ensures error { IfErr result (λ error. answered self.now error) }
        ensures err { OnErr result (seat.new ≡ seat.old) };

    /// Takes the reply to a call, once it is ready or can't come any more. It may answer that the
    /// reply isn't ready: then it is asked again.
    fn wait_reply<R: Wait>(&self, rt: &R, seat: &mut Seat, call: CallNo) -> Result<(), KeeperError>
        ensures adds { OnOk result (Adds seat.old seat.new (events.TakeReply call) 0) }
        ensures error { IfErr result (λ error. answered self.now error) }
        ensures err { OnErr result (seat.new ≡ seat.old) };

    /// Whether there is a job to claim.
    fn has_job<R: Wait>(&self, rt: &R) -> bool;
}

impl JobCalls for Keeper {
    fn call<R: Wait>(&self, rt: &R, seat: &mut Seat, event: &Event) -> Result<(), KeeperError> {
        Keeper::call(self, rt, seat, event, 0)
    }

    fn wait_reply<R: Wait>(
        &self,
        rt: &R,
        seat: &mut Seat,
        call: CallNo,
    ) -> Result<(), KeeperError> {
        Keeper::wait_reply(self, rt, seat, call)
    }

    fn has_job<R: Wait>(&self, rt: &R) -> bool {
        Keeper::can_claim(self, rt)
    }
}
