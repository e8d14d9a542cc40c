//! One of two spaces: its keeper, its dispatcher, its workers, and who asks for the rest.

ghost use Rattle.std.specs.Prelude.{◌≡◌, OnOk, OnErr};

use crate::objects::Thing;
use nob_dispatch::{Dispatcher, Handing, JobCalls, OpenGate, Progress, Worker};
use nob_ids::{CallNo, Limits, SpaceId};
use nob_keeper::{Keeper, KeeperError, Seat, Space};
use nob_model_types::{Answer, Event};
use std::alloc::Global;
use std::sync::Wait;

/// A keeper whose replies are asked for, and not waited for: there is one thread.
pub(crate) struct Polled {
    pub(crate) keeper: Keeper,
}

impl JobCalls for Polled {
    fn call<R: Wait>(&self, rt: &R, seat: &mut Seat, event: &Event) -> Result<(), KeeperError> {
        self.keeper.call(rt, seat, event, 0)
    }

    fn wait_reply<R: Wait>(
        &self,
        rt: &R,
        seat: &mut Seat,
        call: CallNo,
    ) -> Result<(), KeeperError> {
        self.keeper.call(rt, seat, &Event::TakeReply(call), 0)
    }

    fn has_job<R: Wait>(&self, rt: &R) -> bool {
        self.keeper.work(rt).claim
    }
}

impl Polled {
    /// Ends the space.
    pub(crate) fn shut(self) {
        let Polled { keeper } = self;
        keeper.shut();
    }
}

/// A keeper of a new space, one of two.
pub(crate) fn keeper_of(alloc: Global, space: SpaceId) -> Option<Polled> {
    let Ok(space) = Space::new(alloc, space, 2, Limits::default()) else {
        return None;
    };
    match Keeper::new(alloc, space) {
        Ok(keeper) => Some(Polled { keeper }),
        Err(space) => {
            space.shut();
            None
        }
    }
}

/// Who does the work of one space.
#[derive(Drop)]
pub(crate) struct Staff {
    pub(crate) peer: SpaceId,
    pub(crate) seat: Seat,
    pub(crate) dispatcher: Dispatcher<Thing>,
    first: Worker<Thing>,
    second: Worker<Thing>,
}

impl Staff {
    /// The staff of a keeper.
    pub(crate) fn new(alloc: Global, polled: &Polled, peer: SpaceId) -> Staff {
        Staff {
            peer,
            seat: polled.keeper.seat(),
            dispatcher: Dispatcher::new(alloc, polled.keeper.seat()),
            first: Worker::new(polled.keeper.seat()),
            second: Worker::new(polled.keeper.seat()),
        }
    }

    /// One round: what the space could do is done once, a job is claimed, and each worker has a
    /// turn.
    pub(crate) fn round<R: Wait>(&mut self, rt: &R, polled: &Polled) -> Option<()> {
        let work = polled.keeper.work(rt);
        if work.act.iter().any(|act| *act) {
            polled
                .call(rt, &mut self.seat, &Event::Act(self.peer))
                .ok()?;
        }
        if work.settle {
            polled.call(rt, &mut self.seat, &Event::Settle).ok()?;
        }
        if work.clean {
            polled.call(rt, &mut self.seat, &Event::Clean).ok()?;
        }
        self.hand_on(rt, polled)?;
        let Staff {
            dispatcher,
            first,
            second,
            ..
        } = self;
        turn(rt, polled, dispatcher, first)?;
        turn(rt, polled, dispatcher, second)
    }

    // A turn of the dispatcher, where a worker is free.
    fn hand_on<R: Wait>(&mut self, rt: &R, polled: &Polled) -> Option<()> {
        if !self.first.is_free() && !self.second.is_free() {
            return Some(());
        }
        let Handing::Errand(errand) = self.dispatcher.turn(rt, polled).ok()? else {
            return Some(());
        };
        let Err(errand) = self.first.take(errand) else {
            return Some(());
        };
        match self.second.take(errand) {
            Ok(()) => Some(()),
            Err(_) => None,
        }
    }

    /// All its seats.
    pub(crate) fn end(self, seats: &mut Vec<Seat>) -> Option<()> {
        let Staff {
            seat,
            dispatcher,
            first,
            second,
            ..
        } = self;
        seats.push(seat).ok()?;
        seats.push(dispatcher.end().seat).ok()?;
        seats.push(first.end().0).ok()?;
        seats.push(second.end().0).ok()
    }
}

// A turn of a worker: an object that comes back is put back.
fn turn<R: Wait>(
    rt: &R,
    polled: &Polled,
    dispatcher: &mut Dispatcher<Thing>,
    worker: &mut Worker<Thing>,
) -> Option<()> {
    match worker.turn(rt, polled, &OpenGate).ok()? {
        Progress::Back(back) => match dispatcher.give_back(back) {
            Ok(()) => Some(()),
            Err(_) => None,
        },
        _ => Some(()),
    }
}

/// The frames that one space has for the other arrive there.
pub(crate) fn relay<R: Wait>(
    rt: &R,
    from: &Polled,
    giver: &mut Staff,
    to: &Polled,
    taker: &mut Staff,
) -> Option<()> {
    from.call(rt, &mut giver.seat, &Event::Transmit(giver.peer))
        .ok()?;
    let receipt = giver.seat.newest()?;
    let Ok(Answer::Frames(frames)) = &receipt.result else {
        return None;
    };
    for frame in frames.as_slice() {
        let event = Event::Arrive(frame.copy().ok()?);
        to.keeper
            .call(rt, &mut taker.seat, &event, receipt.stamp)
            .ok()?;
    }
    Some(())
}
