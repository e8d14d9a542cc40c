//! A keeper: a space and its trace under one lock.

ghost use Rattle.std.specs.Prelude.{◌≡◌, ◌⊎◌, ◌≤◌, [], OnOk, OnErr, IfOk, IfErr, IfSome, vec_len};
ghost use Rattle.nob_model_types.specs.declared.event.Event.TheVariants as events;
ghost use Rattle.nob_kept.specs.Spaces.{StandsFor};
ghost use Rattle.nob_chain.specs.Chains.{joined};
ghost use Rattle.nob_kept.specs.Accounts as accounts;
ghost use Rattle.nob_kept.specs.Closing as closing;
ghost use Rattle.nob_kept.specs.Kinds as kinds;
ghost use Rattle.nob_kept.specs.Seats as seats;
ghost use Rattle.nob_kept.specs.Segments as segments;
ghost use Rattle.nob_kept.specs.Summaries as summaries;
ghost use Rattle.nob_keeper.specs.Waking as waking;
ghost use Rattle.nob_kept.specs.declared.keep.Keep.TheVariants as keeps;

use crate::desk::{Desk, REPLY_PLACES, reply_place};
use crate::held::{Chores, Dues, Held, Look, Notice, Wake};
use crate::locking::lock_soon;
use crate::waking::Prospects;
use nob_chain::Chain;
use nob_ids::{CallNo, SpaceId};
use nob_kept::{
    AnswerKind, Backlog, Identity, Keep, KeeperError, Kept, Seat, Space, Summary, Tally, Work,
    is_size,
};
use nob_model_types::{Event, Refusal};
use std::alloc::Global;
use std::sync::{Condvar, Mutex, Wait};

/// A space and its trace under one lock, for many threads. Each has a seat of its own. It holds
/// pins, so it can't be let go: `close_with` or `shut` ends it.
pub struct Keeper {
    alloc: Global,
    /// What it keeps of the entries.
    pub keep: Keep,
    /// Which space it has.
    pub identity: Identity,
    held: Mutex<Held>,
    // Who waits for something to transmit waits here.
    to_send: Condvar,
    // Who waits for the reply to a call waits at the place of its number.
    replies: Vec<Condvar>,
    ghost places: { vec_len replies ≡ 32 },
}

impl Keeper {
    /// A keeper of a new space, which keeps all entries, in segments of 65,536. Only memory fails it, and then the space is
    /// handed back. The caller's conditions: the space has done nothing, and it is one of the spaces
    /// that there are.
    pub fn new(alloc: Global, space: Space) -> Result<Keeper, Space>
        requires new { StandsFor space [] }
        requires some { 1 ≤ space.n }
        ensures keep { IfOk result (λ keeper. keeper.keep ≡ keeps.All) }
        ensures identity { IfOk result (λ keeper.
            keeper.identity ≡ accounts.identity_in space) }
        ensures back { IfErr result (λ back. back ≡ space) }
    {
        Keeper::keeping(alloc, space, Keep::All)
    }

    /// The same, which keeps all entries or nothing.
    pub fn keeping(alloc: Global, space: Space, keep: Keep) -> Result<Keeper, Space>
        requires new { StandsFor space [] }
        requires some { 1 ≤ space.n }
        ensures keep { IfOk result (λ keeper. keeper.keep ≡ keep) }
        ensures identity { IfOk result (λ keeper.
            keeper.identity ≡ accounts.identity_in space) }
        ensures back { IfErr result (λ back. back ≡ space) }
    {
        let Some(replies) = reply_places(alloc) else {
            return Err(space);
        };
        let kept = Kept::keeping(alloc, space, keep)?;
        Ok(keeper_of(alloc, kept, replies))
    }

    /// The same as `new`, with segments of so many entries: K5 where that isn't 1 to 65,536, before
    /// memory is asked for, else K2, and then the space is handed back.
    pub fn with_segment(
        alloc: Global,
        space: Space,
        size: u32,
    ) -> Result<Keeper, (KeeperError, Space)>
        requires new { StandsFor space [] }
        requires some { 1 ≤ space.n }
        ensures keep { IfOk result (λ keeper. keeper.keep ≡ keeps.All) }
        ensures identity { IfOk result (λ keeper.
            keeper.identity ≡ accounts.identity_in space) }
        ensures size { OnOk result (segments.IsSize size) }
        ensures fault { IfErr result (λ back. segments.RefusesSize size back.0) }
        ensures back { IfErr result (λ back. back.1 ≡ space) }
    {
        if !is_size(size) {
            return Err((KeeperError::Size, space));
        }
        let Some(replies) = reply_places(alloc) else {
            return Err((KeeperError::OutOfMemory, space));
        };
        let kept = Kept::with_segment(alloc, space, size)?;
        Ok(keeper_of(alloc, kept, replies))
    }

    /// A seat for one more caller. It takes no memory.
    pub fn seat(&self) -> Seat
        ensures { result ≡ [] }
    {
        Seat::new(self.alloc)
    }

    /// One call: an event of the space, whose receipt is added to the seat, `newest` of it. The
    /// stamp is one more than the greater of the trace's last stamp and `seen`. A refusal of the
    /// space is a result too. K4 where the trace hasn't the seat's last receipt, else K3 where its
    /// last stamp is above 2^62 or `seen` is above 2^60, else K2; then nothing has changed. It waits for
    /// the lock alone, and under it costs what the event costs at its space, two copies of the
    /// event, one of what the answer owns, and a look at the seat's last receipt; an entry that fills
    /// a segment costs a look at each session more. Who may have work
    /// by it is woken once the lock is let go.
    pub fn call<R: Wait>(
        &self,
        rt: &R,
        seat: &mut Seat,
        event: &Event,
        seen: u64,
    ) -> Result<(), KeeperError>
        ensures adds { OnOk result (seats.Adds seat.old seat.new event.now seen) }
        ensures next { OnOk result (seats.AddsNext self.now.identity seat.old seat.new event.now seen) }
        ensures err { OnErr result (seat.new ≡ seat.old) }
    {
        self.call_and_look(rt, seat, event, seen)?;
        Ok(())
    }

    /// The same call, and what it made possible, read before another call could change it: so who
    /// goes on with that need not take the lock again to look. An event that may have made something
    /// possible costs a few look-ups more for it, under the lock.
    pub fn call_and_look<R: Wait>(
        &self,
        rt: &R,
        seat: &mut Seat,
        event: &Event,
        seen: u64,
    ) -> Result<Prospects, KeeperError>
        ensures opens { IfOk result (λ prospects.
            waking.AddsAndOpens self.now.identity seat.old seat.new event.now seen prospects) }
        ensures adds { OnOk result (seats.Adds seat.old seat.new event.now seen) }
        ensures next { OnOk result (seats.AddsNext self.now.identity seat.old seat.new event.now seen) }
        ensures err { OnErr result (seat.new ≡ seat.old) }
    {
        // Where there is none the call says so under the lock, once nothing else refuses it.
        let _room = seat.make_room();
        let mut held = lock_soon(rt, &self.held);
        let notice = held.call(&self.identity, seat, event, seen)?;
        drop(held);
        self.wake(&notice);
        Ok(notice.prospects)
    }

    /// The same call, answered by an answer of the kind that its event has, or by why the space
    /// refused it.
    pub fn ask<R: Wait, A: AnswerKind>(
        &self,
        rt: &R,
        seat: &mut Seat,
        event: &Event,
        seen: u64,
    ) -> Result<Result<A, Refusal>, KeeperError>
        requires kind { kinds.IsAnsweredBy A.is_one event.now }
        ensures answer { IfOk result (λ answer.
            kinds.IsNewest seat.new (kinds.result_as A.as_answer answer)) }
        ensures adds { OnOk result (seats.Adds seat.old seat.new event.now seen) }
        ensures next { OnOk result (seats.AddsNext self.now.identity seat.old seat.new event.now seen) }
        ensures err { OnErr result (seat.new ≡ seat.old) }
    {
        self.call(rt, seat, event, seen)?;
        Ok(seat.answer())
    }

    /// Waits until TakeReply of a call would say anything but that the reply isn't ready, or the
    /// trace is full, and then makes the call of that TakeReply, with `seen` 0. It doesn't wait
    /// where the reply is ready. Whoever makes an entry after which it is ready wakes it, and who
    /// fills the trace.
    pub fn wait_reply<R: Wait>(
        &self,
        rt: &R,
        seat: &mut Seat,
        call: CallNo,
    ) -> Result<(), KeeperError>
        ensures adds { OnOk result (seats.Adds seat.old seat.new (events.TakeReply call) 0) }
        ensures next { OnOk result (seats.AddsNext self.now.identity seat.old seat.new (events.TakeReply call) 0) }
        ensures err { OnErr result (seat.new ≡ seat.old) }
    {
        self.wait_reply_and_look(rt, seat, call)?;
        Ok(())
    }

    /// The same, and what the TakeReply made possible, read before another call could change it.
    pub fn wait_reply_and_look<R: Wait>(
        &self,
        rt: &R,
        seat: &mut Seat,
        call: CallNo,
    ) -> Result<Prospects, KeeperError>
        ensures opens { IfOk result (λ prospects. waking.AddsAndOpens self.now.identity seat.old
            seat.new (events.TakeReply call) 0 prospects) }
        ensures adds { OnOk result (seats.Adds seat.old seat.new (events.TakeReply call) 0) }
        ensures next { OnOk result (seats.AddsNext self.now.identity seat.old seat.new (events.TakeReply call) 0) }
        ensures err { OnErr result (seat.new ≡ seat.old) }
    {
        let _room = seat.make_room();
        let mut held = lock_soon(rt, &self.held);
        if held.awaits(call) {
            held.kept.check(seat)?;
            held.desk.wait_for(call)?;
            held = self.replies[reply_place(call)].wait_while(rt, held, |held| held.awaits(call));
            held.desk.leave(call);
        }
        let notice = held.call(&self.identity, seat, &Event::TakeReply(call), 0)?;
        drop(held);
        self.wake(&notice);
        Ok(notice.prospects)
    }

    /// What the space could do next. It costs what `Space::work` costs, under the lock.
    pub fn work<R: Wait>(&self, rt: &R) -> Work {
        lock_soon(rt, &self.held).kept.work()
    }

    /// Whether there is a job to claim. A few words of bits, under the lock.
    pub fn can_claim<R: Wait>(&self, rt: &R) -> bool {
        lock_soon(rt, &self.held).kept.can_claim()
    }

    /// Whether there is a job to claim, and something to settle, to clean or to withdraw. It costs
    /// a few look-ups under the lock, where `work` looks at each session.
    pub fn chores<R: Wait>(&self, rt: &R) -> Chores {
        lock_soon(rt, &self.held).chores()
    }

    /// What the space could do next, with the number of entries after which this was so: what
    /// `wait_past` is given by a thread that found nothing to do.
    pub fn look<R: Wait>(&self, rt: &R) -> Look {
        lock_soon(rt, &self.held).look()
    }

    /// What the space would transmit to each peer, with the number of entries after which this was
    /// so. It costs little, and the same whatever the space has, under the lock.
    pub fn dues<R: Wait>(&self, rt: &R) -> Dues {
        lock_soon(rt, &self.held).dues()
    }

    /// Waits until an entry behind this place may have made something to transmit, the trace is
    /// full, or those who wait for that are told to stop. It doesn't wait where one of these is so
    /// already.
    pub fn wait_past<R: Wait>(&self, rt: &R, place: u64) -> Wake {
        let mut held = lock_soon(rt, &self.held);
        held.desk.park();
        let mut held = self.to_send.wait_while(rt, held, |held| held.idles(place));
        held.desk.unpark();
        held.wake()
    }

    /// Tells all who wait for something to transmit to stop, now and later.
    pub fn stop<R: Wait>(&self, rt: &R) {
        let mut held = lock_soon(rt, &self.held);
        held.desk.stop();
        drop(held);
        self.to_send.notify_all();
    }

    /// What went each way on the session with a peer, and how it ended: none where it is no peer.
    /// Constant time, under the lock.
    pub fn tally<R: Wait>(&self, rt: &R, peer: SpaceId) -> Option<Tally>
        ensures { summaries.IsTallyOf self.now.identity peer result }
    {
        lock_soon(rt, &self.held).tally(&self.identity, peer)
    }

    /// How many objects of the space are live. Constant time, under the lock.
    pub fn live<R: Wait>(&self, rt: &R) -> u64
        ensures { summaries.IsLiveOf self.now.identity result }
    {
        lock_soon(rt, &self.held).live(&self.identity)
    }

    /// How many own calls aren't taken, how many jobs are ready, and how many run. Constant time,
    /// under the lock.
    pub fn backlog<R: Wait>(&self, rt: &R) -> Backlog
        ensures { summaries.IsBacklogOf self.now.identity result }
    {
        lock_soon(rt, &self.held).backlog(&self.identity)
    }

    /// Ends the keeper and gives the chain of all entries, where the seats' receipts are those of its
    /// entries, each once: else K4, or K2 where memory is wanted, and all is handed back; so it is
    /// where the entries or the receipts of a seat weren't kept. What isn't sealed yet is sealed.
    /// Linear in the entries and what they own.
    pub fn close_with(self, seats: Vec<Seat>) -> Result<Chain, (KeeperError, Keeper, Vec<Seat>)>
        ensures identity { IfOk result (λ chain.
            accounts.identity_on chain ≡ self.identity) }
        ensures receipts { IfOk result (λ chain.
            closing.AreOf (joined chain).entries (closing.receipts_of seats.items)) }
        ensures sealed { IfOk result (λ chain. segments.IsSealedChain chain) }
        ensures filled { IfOk result (λ chain. segments.AreSomeFilled chain.segments) }
        ensures unkept { self.keep ≡ keeps.Nothing → IfErr result (λ back.
            back.0 ≡ KeeperError.NoTrace) }
        ensures ended { OnOk result (self.keep ≡ keeps.All) }
        ensures back { IfErr result (λ back. back.2.items ≡ seats.items) }
        ensures only { IfErr result (λ back. (back.0 ≡ KeeperError.Seats)
            ⊎ ((back.0 ≡ KeeperError.OutOfMemory) ⊎ (back.0 ≡ KeeperError.NoTrace))) }
    {
        let Keep::All = self.keep else {
            return Err((KeeperError::NoTrace, self, seats));
        };
        let Keeper {
            alloc,
            keep,
            identity,
            held,
            to_send,
            replies,
        } = self;
        let Held { kept, desk } = held.into_inner();
        match kept.close_as(&identity, seats) {
            Ok(chain) => Ok(chain),
            Err((error, kept, seats)) => Err((
                error,
                Keeper {
                    alloc,
                    keep,
                    identity,
                    held: Mutex::new(Held { kept, desk }),
                    to_send,
                    replies,
                },
                seats,
            )),
        }
    }

    /// Ends the keeper and says what its entries come to, whether they were kept or not, where the
    /// newest receipt of each seat is told of them: else K4, or K2 where memory is wanted, and all is
    /// handed back.
    pub fn end_with(self, seats: Vec<Seat>) -> Result<Summary, (KeeperError, Keeper, Vec<Seat>)>
        ensures summary { IfOk result (λ summary. summaries.IsSummaryOf self.identity
            seats.items summary) }
        ensures back { IfErr result (λ back. back.2.items ≡ seats.items) }
        ensures only { IfErr result (λ back. (back.0 ≡ KeeperError.Seats)
            ⊎ (back.0 ≡ KeeperError.OutOfMemory)) }
    {
        let Keeper {
            alloc,
            keep,
            identity,
            held,
            to_send,
            replies,
        } = self;
        let Held { kept, desk } = held.into_inner();
        match kept.end_as(&identity, seats) {
            Ok(summary) => Ok(summary),
            Err((error, kept, seats)) => Err((
                error,
                Keeper {
                    alloc,
                    keep,
                    identity,
                    held: Mutex::new(Held { kept, desk }),
                    to_send,
                    replies,
                },
                seats,
            )),
        }
    }

    /// Ends the space: it closes all its sessions and tells nobody. The trace is gone.
    pub fn shut(self) {
        let Keeper {
            alloc: _,
            keep: _,
            identity: _,
            held,
            to_send: _,
            replies: _,
        } = self;
        let Held { kept, desk: _desk } = held.into_inner();
        kept.shut();
    }

    // Wakes those who may have something to do.
    fn wake(&self, notice: &Notice) {
        if notice.send {
            self.to_send.notify_all();
        }
        for (waiters, is_ready) in self.replies.iter().zip(notice.replies.iter()) {
            if *is_ready {
                waiters.notify_all();
            }
        }
    }
}

// The places at which one waits for replies.
fn reply_places(alloc: Global) -> Option<Vec<Condvar>>
    ensures { IfSome result (λ places. vec_len places ≡ 32) }
{
    let mut places = Vec::new(alloc);
    for _ in 0..REPLY_PLACES {
        let Ok(()) = places.push(Condvar::new()) else {
            return None;
        };
    }
    Some(places)
}

// A keeper of a space with its trace, with the places at which one waits for replies.
fn keeper_of(alloc: Global, kept: Kept, replies: Vec<Condvar>) -> Keeper
    requires places { vec_len replies ≡ 32 }
    ensures keep { result.keep ≡ kept.keep }
    ensures identity { result.identity ≡ accounts.identity_of kept }
{
    Keeper {
        alloc,
        keep: kept.keep(),
        identity: kept.identity(),
        held: Mutex::new(Held {
            kept,
            desk: Desk::new(alloc),
        }),
        to_send: Condvar::new(),
        replies,
    }
}
