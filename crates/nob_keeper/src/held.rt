//! What stands under a keeper's lock.

ghost use Rattle.std.specs.Prelude.{◌≡◌, ◌↔◌, ◌≤◌, ◌&&◌, true, false, replicate, OnOk, OnErr, IfOk};
ghost use Rattle.nob_model.specs.Next as next;
ghost use Rattle.nob_kept.specs.Accounts as accounts;
ghost use Rattle.nob_keeper.specs.Desks as desks;
ghost use Rattle.nob_kept.specs.Seats as seats;
ghost use Rattle.nob_kept.specs.Summaries as summaries;
ghost use Rattle.nob_keeper.specs.Waking as waking;

use crate::desk::{Desk, REPLY_PLACES, reply_place};
use crate::waking::{Prospects, Wakes, can_care, prospects_of, wakes_of};
use nob_ids::{CallNo, SpaceId};
use nob_kept::{Backlog, Due, Identity, KeeperError, Kept, Receipt, Seat, Tally, Work};
use nob_model_types::{Event, Here};

/// What stands under a keeper's lock: the space with its trace, and who waits.
pub(crate) struct Held {
    pub(crate) kept: Kept,
    pub(crate) desk: Desk,
}

/// Whom to wake once the lock is let go, and what the entry made possible.
#[derive(Clone, Copy, Debug)]
pub(crate) struct Notice {
    pub(crate) send: bool,
    // One for each place at which one waits for replies.
    pub(crate) replies: [bool; REPLY_PLACES],
    pub(crate) prospects: Prospects,
}

/// What a space could do next, read under the lock.
#[derive(Clone, Copy, Debug, PartialEq, Eq)]
pub struct Look {
    /// How many entries the trace had.
    pub place: u64,
    /// What the space could do.
    pub work: Work,
}

/// What a space could do but act and transmit, read under the lock.
#[derive(Clone, Copy, Debug, PartialEq, Eq)]
pub struct Chores {
    /// Whether there is a job to claim.
    pub claim: bool,
    /// Whether there is something to settle, to clean or to withdraw.
    pub care: bool,
}

/// The number of spaces in the largest world.
const MAX_SPACES: usize = 32;

/// What a space would transmit to each peer, read under the lock.
#[derive(Clone, Copy, Debug, PartialEq, Eq)]
pub struct Dues {
    /// How many entries the trace had.
    pub place: u64,
    /// At place p - 1: what a Transmit to space p would give.
    pub due: [Due; MAX_SPACES],
}

/// Why a wait for something to transmit ended.
#[derive(Clone, Copy, Debug, PartialEq, Eq)]
pub enum Wake {
    /// There may be something.
    Work,
    /// The trace is full.
    TraceFull,
    /// Those who wait for it are told to stop.
    Stopped,
}

impl Held {
    // One call of a seat of this space, and whom to wake after it. K4 where it is another space, which
    // it never is.
    pub(crate) fn call(
        &mut self,
        identity: &Identity,
        seat: &mut Seat,
        event: &Event,
        seen: u64,
    ) -> Result<Notice, KeeperError>
        ensures adds { OnOk result (seats.Adds seat.old seat.new event.now seen) }
        ensures next { OnOk result (seats.AddsNext identity.now seat.old seat.new event.now seen) }
        ensures opens { IfOk result (λ notice.
            waking.AddsAndOpens identity.now seat.old seat.new event.now seen notice.prospects) }
        ensures notice { IfOk result (λ notice.
            desks.IsNoticeOf self.new.kept self.old.desk self.new.desk seat.new notice) }
        ensures err { OnErr result (seat.new ≡ seat.old) }
        ensures same { OnErr result (self.new ≡ self.old) }
    {
        if !self.kept.is_of(identity) {
            return Err(KeeperError::Seats);
        }
        seat.ask(&mut self.kept, event, seen)?;
        let Some(receipt) = seat.newest() else {
            unreachable!();
        };
        let notice = notice_of(&self.kept, &self.desk, receipt);
        self.desk.note(wakes_by(receipt), receipt.place);
        Ok(notice)
    }

    // Whether the reply to a call isn't ready and may still come.
    pub(crate) fn awaits(&self, call: CallNo) -> bool
        ensures { (result ≡ true) ↔ ((accounts.is_full self.now.kept ≡ false)
            × (next.reply_ready call (accounts.history_in self.now.kept) ≡ false)) }
    {
        !self.kept.is_full() && !self.kept.reply_ready(call)
    }

    // Whether no entry may have made something to transmit since the trace had so many.
    pub(crate) fn idles(&self, place: u64) -> bool
        ensures { (result ≡ true) ↔ ((self.now.desk.send.last ≤ place)
            × (accounts.is_full self.now.kept ≡ false)
            × (self.now.desk.send.stopped ≡ false)) }
    {
        self.desk.is_idle(place) && !self.kept.is_full() && !self.desk.is_stopped()
    }

    // Why a wait for something to transmit ended.
    pub(crate) fn wake(&self) -> Wake {
        if self.desk.is_stopped() {
            return Wake::Stopped;
        }
        if self.kept.is_full() {
            return Wake::TraceFull;
        }
        Wake::Work
    }

    // What the space could do next.
    pub(crate) fn look(&self) -> Look {
        Look {
            place: self.kept.len(),
            work: self.kept.work(),
        }
    }

    // What went each way on the session of this space with a peer: none where it is no peer. Where it
    // is another space, which it never is, what is said of one that did nothing.
    pub(crate) fn tally(&self, identity: &Identity, peer: SpaceId) -> Option<Tally>
        ensures { summaries.IsTallyOf identity.now peer result }
    {
        if !self.kept.is_of(identity) {
            return first_tally(identity, peer);
        }
        self.kept.tally(peer)
    }

    // How many objects of this space are live.
    pub(crate) fn live(&self, identity: &Identity) -> u64
        ensures { summaries.IsLiveOf identity.now result }
    {
        if !self.kept.is_of(identity) {
            return 0;
        }
        self.kept.live()
    }

    // What isn't done yet at this space.
    pub(crate) fn backlog(&self, identity: &Identity) -> Backlog
        ensures { summaries.IsBacklogOf identity.now result }
    {
        if !self.kept.is_of(identity) {
            return Backlog {
                calls: 0,
                ready: 0,
                running: 0,
            };
        }
        self.kept.backlog()
    }

    // Whether there is a job to claim, and something to take care of.
    pub(crate) fn chores(&self) -> Chores {
        Chores {
            claim: self.kept.can_claim(),
            care: can_care(&self.kept),
        }
    }

    // What the space would transmit to each peer.
    pub(crate) fn dues(&self) -> Dues {
        let mut due = [Due::Nothing; MAX_SPACES];
        let spaces = usize::from(self.kept.n().get());
        for (place, due) in due.iter_mut().enumerate().take(spaces) {
            if let Some(peer) = SpaceId::new(place as u16 + 1) {
                *due = self.kept.due(peer);
            }
        }
        Dues {
            place: self.kept.len(),
            due,
        }
    }
}

// What the event of a receipt may have made possible. A refused one changed nothing.
fn wakes_by(receipt: &Receipt) -> Wakes
    ensures { result ≡ waking.wakes_by receipt.now.event receipt.now.result }
{
    match &receipt.result {
        Ok(answer) => wakes_of(&receipt.event, answer),
        Err(_) => Wakes {
            send: false,
            care: false,
            claim: false,
            reply: false,
        },
    }
}

// Whom to wake after the newest entry, of which a receipt tells.
fn notice_of(kept: &Kept, desk: &Desk, receipt: &Receipt) -> Notice
    ensures { desks.IsNotice kept.now desk.now receipt.now result }
{
    if kept.is_full() {
        return notice_to_all(kept);
    }
    let wakes = wakes_by(receipt);
    Notice {
        send: wakes_sender(desk, wakes.send),
        replies: replies_of(kept, desk.waiting(), wakes.reply),
        prospects: prospects_of(kept, wakes),
    }
}

// Whether who transmits is woken, where an entry may have made something to transmit.
fn wakes_sender(desk: &Desk, may: bool) -> bool
    ensures { result ≡ (may && desks.is_parked desk.now) }
{
    may && desk.is_parked()
}

// All are woken.
fn notice_to_all(kept: &Kept) -> Notice
    ensures prospects { waking.AreProspects kept.now (waking.all_wakes true) result.prospects }
    ensures send { result.send ≡ true }
    ensures replies { result.replies ≡ replicate 32 true }
{
    Notice {
        send: true,
        replies: [true; REPLY_PLACES],
        prospects: prospects_of(
            kept,
            Wakes {
                send: true,
                care: true,
                claim: true,
                reply: true,
            },
        ),
    }
}

// The places of those who wait for replies that are ready, where an entry may have made some so.
fn replies_of(kept: &Kept, waiting: &[CallNo], may: bool) -> [bool; REPLY_PLACES]
    ensures { desks.AreMarked (λ call. may
        && next.reply_ready call (accounts.history_in kept.now)) result waiting.now }
{
    if !may {
        return [false; REPLY_PLACES];
    }
    ready_places(kept, waiting)
}

// The places of those who wait for replies that are ready.
fn ready_places(kept: &Kept, waiting: &[CallNo]) -> [bool; REPLY_PLACES]
    ensures { desks.AreMarked (λ call. next.reply_ready call (accounts.history_in kept.now))
        result waiting.now }
{
    let mut places = [false; REPLY_PLACES];
    for call in waiting {
        if kept.reply_ready(*call) {
            places[reply_place(*call)] = true;
        }
    }
    places
}

// What is said of the session with a peer by a space that did nothing.
#[tactic(auto, using(crate::proofs::Blanks::blank_some, crate::proofs::Blanks::blank_none))]
fn first_tally(identity: &Identity, peer: SpaceId) -> Option<Tally>
    ensures { result ≡ summaries.tally_in (accounts.blank identity.now) peer }
{
    let here = Here {
        space: identity.space,
        n: identity.n.get(),
    };
    if !here.is_peer(peer) {
        return None;
    }
    Some(Tally {
        session: 1,
        sent: 0,
        acted: 0,
        closed: None,
    })
}
