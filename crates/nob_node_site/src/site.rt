//! What the threads of a node share, and who tells whom.

ghost use Rattle.std.specs.Prelude.{◌≡◌, [], IfOk, IfErr};
ghost use Rattle.nob_keeper.specs.Summaries as summaries;

use nob_dispatch_objects::Object;
use nob_ids::{CallNo, SpaceId};
use nob_keeper::{Backlog, Dues, Keeper, KeeperError, Look, Prospects, Seat, Tally, wakes_of};
use nob_model_types::{Answer, Event};
use nob_node_parts::{
    Calls, Carer, Collecting, Collects, Desk, Failure, Idlers, Inbox, Inboxes, JobCalls, Kept,
    NodeJobs, Outbox, Replies, Start, Transmitting, has_accepted,
};
use std::sync::{Mutex, Wait};

/// The parts of a site that are left when its node has ended.
pub struct SiteParts<B: Object> {
    pub keeper: Keeper,
    pub outbox: Outbox,
    pub inboxes: Vec<Mutex<Inbox>>,
    pub carer: Carer,
    pub desk: Option<Desk<Kept<B>>>,
}

/// What the threads of a node share: small machines, each of which knows only itself. The site says
/// who tells whom. Locks are waited for in one order: an inbox's, the desk's, the keeper's. Those of
/// what collects and of what transmits are only tried.
pub struct Site<B: Object> {
    pub keeper: Keeper,
    /// Whether all threads are made.
    pub start: Start,
    /// Whether the trace is full, or a thread couldn't be made.
    pub failure: Failure,
    /// The desk with the objects.
    pub jobs: NodeJobs<B>,
    pub(crate) transmitting: Transmitting,
    pub(crate) collecting: Collecting,
    pub(crate) inboxes: Inboxes,
    pub(crate) replies: Replies,
    // Workers without a job.
    pub(crate) idlers: Idlers,
}

impl<B: Object> Site<B> {
    pub fn new(
        keeper: Keeper,
        outbox: Outbox,
        inboxes: Vec<Mutex<Inbox>>,
        carer: Carer,
        desk: Desk<Kept<B>>,
        processors: usize,
    ) -> Site<B> {
        Site {
            keeper,
            start: Start::new(),
            failure: Failure::new(),
            jobs: NodeJobs::new(desk),
            transmitting: Transmitting::new(outbox),
            collecting: Collecting::new(carer),
            inboxes: Inboxes::new(inboxes, processors),
            replies: Replies::new(),
            idlers: Idlers::new(),
        }
    }

    /// Its parts, once all threads are done with it.
    pub fn into_parts(self) -> SiteParts<B> {
        let Site {
            keeper,
            start: _,
            failure: _,
            jobs,
            transmitting,
            collecting,
            inboxes,
            replies: _,
            idlers: _,
        } = self;
        SiteParts {
            keeper,
            outbox: transmitting.into_outbox(),
            inboxes: inboxes.into_inboxes(),
            carer: collecting.into_carer(),
            desk: jobs.into_desk(),
        }
    }

    /// A seat for one more caller. It takes no memory.
    pub fn seat(&self) -> Seat
        ensures { result ≡ [] }
    {
        self.keeper.seat()
    }

    /// What went each way on the session with a peer, and how it ended: none where it is no peer.
    pub fn tally<R: Wait>(&self, rt: &R, peer: SpaceId) -> Option<Tally>
        ensures { summaries.IsTally peer result }
    {
        self.keeper.tally(rt, peer)
    }

    /// How many objects of the space are live.
    pub fn live<R: Wait>(&self, rt: &R) -> u64
        ensures { summaries.IsLive result }
    {
        self.keeper.live(rt)
    }

    /// How many own calls aren't taken, how many jobs are ready, and how many run.
    pub fn backlog<R: Wait>(&self, rt: &R) -> Backlog
        ensures { summaries.IsBacklog result }
    {
        self.keeper.backlog(rt)
    }

    /// Whoever waits for objects to come back waits no more, and the ends that put are given up, so
    /// that no peer waits for this node.
    pub fn fail<R: Wait>(&self, rt: &R) {
        self.failure.come();
        self.jobs.wake(rt);
        self.transmit(rt);
    }

    // Transmits what is new, or leaves it to the one who does.
    fn transmit<R: Wait>(&self, rt: &R) {
        self.transmitting.transmit(rt, &self.keeper, &self.failure);
    }

    // Claims what jobs there are, and hands each on with its object.
    fn assign<R: Wait>(&self, rt: &R) {
        self.jobs.assign(rt, &self.keeper, &self.idlers);
    }

    // Settles, cleans and withdraws what there is, or leaves it to the one who does.
    fn collect<R: Wait>(&self, rt: &R) {
        self.collecting.collect(rt, &self.keeper, self);
    }

    /// Ends all links: the end is put on each. Where the node has failed they are given up. The
    /// threads that collect and transmit end.
    pub fn end_links<R: Wait>(&self, rt: &R) {
        self.keeper.stop(rt);
        self.transmitting.end(rt, &self.keeper, &self.failure);
    }

    /// Claims no more, and waits until all objects have come back, or the node has failed; then
    /// nothing more is given to the workers.
    pub fn end_jobs<R: Wait>(&self, rt: &R) -> Option<Desk<Kept<B>>> {
        let desk = self.jobs.end(rt, &self.keeper, &self.idlers, &self.failure);
        self.idlers.end();
        desk
    }

    /// The node's agent, once it doesn't run.
    pub fn borrow_agent<R: Wait>(&self, rt: &R) -> Option<Kept<B>> {
        self.jobs.borrow_agent(rt, &self.keeper, &self.idlers)
    }

    /// The agent comes back. What waited for it goes on.
    pub fn give_agent_back<R: Wait>(&self, rt: &R, agent: Kept<B>) {
        self.jobs.give_agent_back(rt, agent);
        self.assign(rt);
    }

    /// Waits until there is no object at an index, or the node has failed.
    pub fn wait_withdrawn<R: Wait>(&self, rt: &R, index: u64) {
        self.inboxes
            .look_for(rt, self, || self.jobs.has_none_at(index));
        self.jobs.wait_withdrawn(rt, index, &self.failure);
    }

    // Looks for an errand for a moment, if no other worker does: whether there is one.
    pub(crate) fn look_for_errand<R: Wait>(&self, rt: &R) -> bool {
        if self.idlers.is_full() {
            return false;
        }
        self.idlers.come();
        let is_there = self.inboxes.look_for(rt, self, || {
            self.idlers.has_errand() || self.idlers.is_over()
        });
        self.idlers.leave();
        is_there || self.idlers.has_errand()
    }

    /// Claims jobs, settles, cleans and withdraws what others left. What had no room waits for it.
    pub(crate) fn attend_left<R: Wait>(&self, rt: &R) {
        let chores = self.keeper.chores(rt);
        if chores.claim && !self.jobs.is_late() {
            self.assign(rt);
        }
        if chores.care && !self.collecting.is_late() {
            self.collect(rt);
        }
    }

    // What the newest entry of a seat made possible for others is done at once.
    fn follow<R: Wait>(&self, rt: &R, seat: &Seat, prospects: Prospects) {
        let Some(receipt) = seat.newest() else {
            return;
        };
        let Ok(answer) = &receipt.result else {
            return;
        };
        self.replies.count(&receipt.event, answer);
        let makes_room = wakes_of(&receipt.event, answer).send;
        let may_send = makes_room && self.transmitting.is_late();
        let may_assign = makes_room && self.jobs.is_late();
        let may_collect = makes_room && self.collecting.is_late();
        if (prospects.send || may_send) && !has_accepted(answer) {
            self.transmit(rt);
        }
        if prospects.claim || may_assign || self.is_awaited_finish(&receipt.event) {
            self.assign(rt);
        }
        if prospects.care || may_collect {
            self.collect(rt);
        }
    }

    // Whether an event ended a job while somebody waits for objects: the job's came back before.
    fn is_awaited_finish(&self, event: &Event) -> bool {
        is_finish(event) && self.jobs.is_awaited()
    }

    // What came of a call of the keeper, noted: where the trace is full the node has failed.
    fn noted<R: Wait>(
        &self,
        rt: &R,
        called: Result<Prospects, KeeperError>,
    ) -> Result<Prospects, KeeperError>
        ensures { result ≡ called }
    {
        if let Err(error) = &called {
            self.note(rt, *error);
        }
        called
    }

    // Where the trace is full the node has failed.
    fn note<R: Wait>(&self, rt: &R, error: KeeperError) {
        if error == KeeperError::Stamp {
            self.fail(rt);
        }
    }
}

// Whether a job is ended.
fn is_finish(event: &Event) -> bool {
    match event {
        Event::Finish(..) => true,
        _ => false,
    }
}

impl<B: Object> Collects for Site<B> {
    fn is_over(&self) -> bool {
        self.transmitting.is_sealed()
    }

    fn collected<R: Wait>(&self, rt: &R, withdrawn: Option<u64>) {
        self.transmit(rt);
        if self.keeper.can_claim(rt) {
            self.assign(rt);
        }
        if let Some(index) = withdrawn {
            self.jobs.remove(rt, index);
        }
    }

    fn stopped<R: Wait>(&self, rt: &R, error: KeeperError) {
        self.note(rt, error);
    }
}

impl<B: Object> Calls for Site<B> {
    fn call<R: Wait>(
        &self,
        rt: &R,
        seat: &mut Seat,
        event: &Event,
        seen: u64,
    ) -> Result<(), KeeperError> {
        let called = self.keeper.call_and_look(rt, seat, event, seen);
        let prospects = self.noted(rt, called)?;
        self.follow(rt, seat, prospects);
        Ok(())
    }

    fn look<R: Wait>(&self, rt: &R) -> Look {
        self.keeper.look(rt)
    }

    fn dues<R: Wait>(&self, rt: &R) -> Dues {
        self.keeper.dues(rt)
    }
}

impl<B: Object> JobCalls for Site<B> {
    fn call<R: Wait>(&self, rt: &R, seat: &mut Seat, event: &Event) -> Result<(), KeeperError> {
        if !is_finish(event) {
            return Calls::call(self, rt, seat, event, 0);
        }
        // Whose job ends takes the next errand itself: no worker is woken for it.
        self.idlers.come();
        let called = Calls::call(self, rt, seat, event, 0);
        self.idlers.leave();
        called
    }

    fn wait_reply<R: Wait>(
        &self,
        rt: &R,
        seat: &mut Seat,
        call: CallNo,
    ) -> Result<(), KeeperError> {
        let asked = self.replies.asked();
        self.inboxes
            .look_for_reply(rt, self, || self.replies.is_beside(asked));
        let called = self.keeper.wait_reply_and_look(rt, seat, call);
        let prospects = self.noted(rt, called)?;
        self.follow(rt, seat, prospects);
        Ok(())
    }

    fn has_job<R: Wait>(&self, rt: &R) -> bool {
        self.keeper.can_claim(rt)
    }
}
