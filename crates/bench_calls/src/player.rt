//! What an application does.

use crate::caller::Called;
use crate::owner::{NAME, give_back, name_for, offer, offer_each};
use crate::task::{Kind, Task};
use crate::thing::Thing;
use crate::timer::{Timer, Waited};
use nob_ids::SpaceId;
use nob_nodes::{Company, Node};
use std::alloc::Global;
use std::sync::Wait;
use std::sync::atomic::AtomicU64;
use std::time::Clock;

/// What an application is there for.
#[derive(Clone, Copy, Debug)]
pub(crate) enum Part {
    /// It has an object for the others.
    Offers(Thing),
    /// It calls.
    Calls,
}

/// An application.
#[derive(Drop)]
pub(crate) struct Player<'c, 's, C: Clock> {
    alloc: Global,
    clock: &'c C,
    // How many timed calls of all callers were answered.
    served: &'s AtomicU64,
    part: Part,
    task: Task,
    server: SpaceId,
    relay: SpaceId,
    // How many of its calls were answered.
    pub(crate) answered: u64,
    // How it waited for each call that it timed.
    pub(crate) waits: Vec<Waited>,
}

impl<'c, 's, C: Clock> Player<'c, 's, C> {
    // One that is there for this. Only memory fails it.
    pub(crate) fn new(
        alloc: Global,
        clock: &'c C,
        served: &'s AtomicU64,
        part: Part,
        task: Task,
        server: SpaceId,
        relay: SpaceId,
    ) -> Option<Player<'c, 's, C>> {
        Some(Player {
            alloc,
            clock,
            served,
            part,
            task,
            server,
            relay,
            answered: 0,
            waits: Vec::with_capacity(alloc, task.timed()).ok()?,
        })
    }

    // Has an object for the others until they are done.
    fn offer<R: Wait>(&mut self, rt: &R, node: &mut Node<Thing>, company: &Company, thing: Thing) {
        let hold = offer(rt, node, thing, NAME);
        if self.task.kind == Kind::Apart {
            offer_each(rt, node, thing, company.spaces());
        }
        let _ = company.meet(rt);
        let _ = company.meet(rt);
        if let Some(hold) = hold {
            give_back(rt, node, hold);
        }
    }

    // Calls what the others have.
    fn call<R: Wait>(&mut self, rt: &R, node: &mut Node<Thing>, company: &Company) {
        let _ = company.meet(rt);
        let own = name_for(company.space().get());
        let name = if self.task.kind == Kind::Apart {
            &own
        } else {
            NAME
        };
        if let Some(called) = Called::find(rt, node, self.server, name, self.relay) {
            self.answered = if self.task.kind == Kind::Timed {
                let timer = Timer::new(self.clock, self.served);
                called.time_all(rt, &timer, node, self.task.calls, &mut self.waits)
            } else {
                called.call_all(rt, self.alloc, node, self.task.kind, self.task.calls)
            };
            called.give_back(rt, node);
        }
        let _ = company.meet(rt);
    }
}

impl<'c, 's, C: Clock> nob_nodes::Player<Thing> for Player<'c, 's, C> {
    fn run<R: Wait>(&mut self, rt: &R, node: &mut Node<Thing>, company: &Company) {
        match self.part {
            Part::Offers(thing) => self.offer(rt, node, company, thing),
            Part::Calls => self.call(rt, node, company),
        }
    }
}
