//! The jobs of a node: the desk, as the threads of a node share it.

ghost use Rattle.std.specs.Prelude.{◌≡◌, IfOk, IfErr};

use crate::putting::{Placed, put_own};
use crate::{Failure, Idlers, Keeper, KeeperError, Kept, lock_soon};
use nob_dispatch::{Assigned, Desk, Place};
use nob_dispatch_objects::Object;
use nob_offers::Retry;
use std::alloc::Global;
use std::sync::atomic::{AtomicU64, Ordering};
use std::sync::{Condvar, Mutex, Wait};
use std::thread;

/// The jobs of a node: its desk, and who waits for objects or workers.
pub struct NodeJobs<B: Object> {
    // `None` once the node's jobs have ended.
    desk: Mutex<Option<Desk<Kept<B>>>>,
    // Who waits for an object to come back, or to be withdrawn, waits here.
    returned: Condvar,
    // How many wait for an object to come back. While nobody does, what has come over the lane is put
    // down when the next job is claimed.
    awaited: AtomicU64,
    // How many threads carry out jobs.
    serving: AtomicU64,
    // Whether there is a job that can't be ended or handed on now.
    late: Retry,
}

impl<B: Object> NodeJobs<B> {
    /// The jobs of a desk, with nobody who waits.
    pub fn new(desk: Desk<Kept<B>>) -> NodeJobs<B> {
        NodeJobs {
            desk: Mutex::new(Some(desk)),
            returned: Condvar::new(),
            awaited: AtomicU64::new(0),
            serving: AtomicU64::new(0),
            late: Retry::new(),
        }
    }

    /// The desk, once all threads are done with it, if the jobs haven't ended.
    pub fn into_desk(self) -> Option<Desk<Kept<B>>> {
        let NodeJobs {
            desk,
            returned: _,
            awaited: _,
            serving: _,
            late: _,
        } = self;
        desk.into_inner()
    }

    /// Whether there is a job that couldn't be ended or handed on. Whoever makes room asks next, and
    /// assigns where it is so.
    pub fn is_late(&self) -> bool {
        self.late.is_late()
    }

    /// Whether somebody waits for an object to come back.
    pub fn is_awaited(&self) -> bool {
        self.awaited.load(Ordering::SeqCst) > 0
    }

    /// Claims what jobs there are, and hands each on with its object.
    pub fn assign<R: Wait>(&self, rt: &R, keeper: &Keeper, idlers: &Idlers) {
        let mut held = lock_soon(rt, &self.desk);
        if let Some(desk) = &mut *held {
            self.assign_all(rt, keeper, idlers, desk);
        }
        drop(held);
        self.returned.notify_all();
    }

    // Turns of a desk, until it has nothing to do, or nothing now.
    fn assign_all<R: Wait>(
        &self,
        rt: &R,
        keeper: &Keeper,
        idlers: &Idlers,
        desk: &mut Desk<Kept<B>>,
    ) {
        let mut tries = self.late.begin();
        for _ in rt.forever() {
            if !assign_some(rt, keeper, idlers, desk) {
                return tries.found_none();
            }
            let Some(again) = tries.refused() else {
                return;
            };
            tries = again;
        }
        unreachable!()
    }

    /// Claims no more, and waits until all objects have come back, or the node has failed; then
    /// nothing more is given to the workers.
    pub fn end<R: Wait>(
        &self,
        rt: &R,
        keeper: &Keeper,
        idlers: &Idlers,
        failure: &Failure,
    ) -> Option<Desk<Kept<B>>> {
        self.stop_claiming(rt);
        self.awaited.fetch_add(1, Ordering::SeqCst);
        self.assign(rt, keeper, idlers);
        let mut held = self
            .returned
            .wait_while(rt, self.desk.lock(rt), |held| awaits(held, failure));
        let desk = held.take();
        drop(held);
        self.awaited.fetch_sub(1, Ordering::SeqCst);
        desk
    }

    fn stop_claiming<R: Wait>(&self, rt: &R) {
        let mut held = self.desk.lock(rt);
        if let Some(desk) = &mut *held {
            desk.stop_claiming();
        }
    }

    /// One more thread carries out jobs.
    pub fn come(&self) {
        self.serving.fetch_add(1, Ordering::SeqCst);
    }

    /// One thread fewer carries out jobs.
    pub fn leave<R: Wait>(&self, rt: &R) {
        self.serving.fetch_sub(1, Ordering::SeqCst);
        self.wake(rt);
    }

    /// Waits until no thread carries out jobs any more: each ends once it is given none. The last
    /// that leaves wakes it.
    pub fn wait_left<R: Wait>(&self, rt: &R) {
        let held = self.returned.wait_while(rt, self.desk.lock(rt), |_| {
            self.serving.load(Ordering::SeqCst) > 0
        });
        drop(held);
    }

    /// Wakes all who wait for objects or workers: they look again.
    pub fn wake<R: Wait>(&self, rt: &R) {
        drop(self.desk.lock(rt));
        self.returned.notify_all();
    }

    /// An object more: it comes back where there is no memory for its place.
    pub fn add<R: Wait>(&self, rt: &R, alloc: Global, index: u64, object: B) -> Result<Placed, B>
        ensures placed { IfOk result (λ placed. placed.index ≡ index) }
        ensures back { IfErr result (λ back. back ≡ object) }
    {
        let mut held = self.desk.lock(rt);
        match &mut *held {
            Some(desk) => put_own(desk, alloc, index, object),
            None => Err(object),
        }
    }

    /// The node's agent, once it doesn't run: it is away from then on. Whoever brings it back wakes
    /// its caller.
    pub fn borrow_agent<R: Wait>(
        &self,
        rt: &R,
        keeper: &Keeper,
        idlers: &Idlers,
    ) -> Option<Kept<B>> {
        self.awaited.fetch_add(1, Ordering::SeqCst);
        self.assign(rt, keeper, idlers);
        let agent = self.wait_agent(rt);
        self.awaited.fetch_sub(1, Ordering::SeqCst);
        agent
    }

    // Waits for the node's agent, and takes it out.
    fn wait_agent<R: Wait>(&self, rt: &R) -> Option<Kept<B>> {
        let mut held = self
            .returned
            .wait_while(rt, self.desk.lock(rt), |held| is_agent_away(held));
        match &mut *held {
            Some(desk) => desk.lend(0),
            None => None,
        }
    }

    /// The agent comes back. What waited for it is to be assigned next.
    pub fn give_agent_back<R: Wait>(&self, rt: &R, agent: Kept<B>) {
        let mut held = self.desk.lock(rt);
        if let Some(desk) = &mut *held {
            let _ = desk.give_back_lent(0, agent);
        }
    }

    /// Lets go of an object that was withdrawn, which may still be on its way back.
    pub fn remove<R: Wait>(&self, rt: &R, index: u64) {
        let mut held = self.desk.lock(rt);
        if let Some(desk) = &mut *held {
            desk.take_back(rt);
            let _ = desk.remove(index);
        }
        drop(held);
        self.returned.notify_all();
    }

    /// Whether there is no object at an index, as far as can be seen without waiting.
    pub fn has_none_at(&self, index: u64) -> bool {
        match self.desk.try_lock() {
            Some(held) => !has_place(&held, index),
            None => false,
        }
    }

    /// Waits until there is no object at an index, or the node has failed.
    pub fn wait_withdrawn<R: Wait>(&self, rt: &R, index: u64, failure: &Failure) {
        let held = self.returned.wait_while(rt, self.desk.lock(rt), |held| {
            has_place(held, index) && !failure.has_come()
        });
        drop(held);
    }
}

// Turns of a desk, until it has nothing to do, or nothing now: whether something is to be tried
// again.
fn assign_some<B: Object, R: Wait>(
    rt: &R,
    keeper: &Keeper,
    idlers: &Idlers,
    desk: &mut Desk<Kept<B>>,
) -> bool {
    for _ in rt.forever() {
        match desk.turn(rt, keeper) {
            Ok(Assigned::Handed) => idlers.give(),
            Ok(Assigned::Did) => {}
            Ok(Assigned::Later) => return true,
            Ok(Assigned::Idle) => return false,
            Err(KeeperError::OutOfMemory) => thread::yield_now(),
            Err(_) => return false,
        }
    }
    unreachable!()
}

// Whether objects are still to come back.
fn awaits<B: Object>(held: &Option<Desk<Kept<B>>>, failure: &Failure) -> bool {
    match held {
        Some(desk) => !desk.is_at_rest() && !failure.has_come(),
        None => false,
    }
}

// Whether an index has a place.
fn has_place<B: Object>(held: &Option<Desk<Kept<B>>>, index: u64) -> bool {
    match held {
        Some(desk) => desk.shelf().place(index).is_some(),
        None => false,
    }
}

// Whether the agent runs.
fn is_agent_away<B: Object>(held: &Option<Desk<Kept<B>>>) -> bool {
    match held {
        Some(desk) => match desk.shelf().place(0) {
            Some(Place::Away) => true,
            _ => false,
        },
        None => false,
    }
}
