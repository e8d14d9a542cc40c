//! What can be seen of a space, in numbers.

ghost use Rattle.std.specs.Prelude.{◌≡◌, ◌++◌, List, true, false, length, take, drop};
ghost use Rattle.nob_ids.specs.Names.{IsSpace};
ghost use Rattle.nob_model_types.specs.declared.entry.Entry.{Entry};
ghost use Rattle.nob_model_types.specs.Deeds.{deeds};
ghost use Rattle.nob_model_types.specs.Sessions.{is_peer};
ghost use Rattle.nob_model_history.specs.Histories.{history};
ghost use Rattle.nob_model_history.specs.Listing.{is_listed};
ghost use Rattle.nob_model.specs.Next as next;
ghost use Rattle.nob_model.specs.Tallies as tallies;
ghost use Rattle.nob_space_state.specs.Dues as dues;
ghost use Rattle.nob_space.specs.Spaces.{StandsFor};
ghost use Rattle.nob_host_space.specs.Looks as looks;

use crate::bits::bits_of;
use crate::bytes::copy_out;
use crate::host::Host;
use nob_ids::{CallNo, Reason, SpaceId};
use nob_model::Here;
use nob_session::Due;
use nob_space::Tally as SessionTally;

/// What a space could do next, limits, free numbers and want of memory aside.
#[repr(C)]
#[derive(Clone, Copy, Debug, PartialEq, Eq)]
pub struct Work {
    /// Bit p - 1: whether there is an item from space p to act on, also one whose fault closes the
    /// session.
    pub act: u32,
    /// Bit p - 1: whether a Transmit to space p would give a frame.
    pub send: u32,
    /// Whether there is a message to settle.
    pub settle: bool,
    /// Whether there is a surrogate to give up.
    pub clean: bool,
    /// Whether there is a job to claim.
    pub claim: bool,
    /// Whether an object could be withdrawn.
    pub withdraw: bool,
    /// The least index of such an object, or 0.
    pub index: u64,
}

impl Work {
    /// There is nothing that could be done.
    pub fn nothing() -> Work
        ensures { result ≡ looks.no_work }
    {
        Work {
            act: 0,
            send: 0,
            settle: false,
            clean: false,
            claim: false,
            withdraw: false,
            index: 0,
        }
    }
}

/// What went each way on the present session with a peer, and how it ended.
#[repr(C)]
#[derive(Clone, Copy, Debug, PartialEq, Eq)]
pub struct Tally {
    /// The session's number, from 1 on: 0 where there is no such peer, and then all is 0.
    pub session: u32,
    /// The number of the reason why this end closed, 1 to 6, or 0 where it is open.
    pub closed: u32,
    /// How many items were handed to the peer.
    pub sent: u64,
    /// How many of the peer's items were acted on here.
    pub acted: u64,
}

impl Tally {
    /// That of no session.
    pub fn of_none() -> Tally
        ensures { result ≡ looks.tally_of_none }
    {
        Tally {
            session: 0,
            closed: 0,
            sent: 0,
            acted: 0,
        }
    }

    // A session's, in numbers.
    fn of(tally: SessionTally) -> Tally
        ensures { result ≡ looks.tally_in_numbers tally }
    {
        Tally {
            session: tally.session,
            closed: ending_number(tally.closed),
            sent: tally.sent,
            acted: tally.acted,
        }
    }
}

// The number of the reason why an end closed, or 0 where it is open.
fn ending_number(closed: Option<Reason>) -> u32
    ensures { result ≡ looks.ending_number closed }
{
    match closed {
        Some(reason) => reason.number() as u32,
        None => 0,
    }
}

// A number, or 0 where there is none.
fn or_zero(number: Option<u64>) -> u64
    ensures { result ≡ looks.or_zero number }
{
    number.unwrap_or(0)
}

// The number of what a Transmit would give.
fn due_number(due: Due) -> u32
    ensures { result ≡ looks.due_number due }
{
    match due {
        Due::Nothing => 0,
        Due::Ack => 1,
        Due::Again => 2,
        Due::New => 3,
        Due::Close => 4,
    }
}

impl Host {
    /// The number of the space.
    pub fn id(&self) -> u16
        ensures { result ≡ self.now.space.id }
    {
        self.space.id().get()
    }

    /// How many spaces there are.
    pub fn n(&self) -> u16
        ensures { result ≡ self.now.space.n }
    {
        self.space.n()
    }

    /// Whether a client is listed for the object of an index; one outside 1 to 32 never is.
    pub fn lists(&self, index: u64, client: u16) -> bool
        ensures listed { IsSpace client → (L : List Entry) → StandsFor self.now.space L
            → result ≡ is_listed self.now.space.id index client (deeds L) }
        ensures range { (IsSpace client → ⊥) → result ≡ false }
    {
        let Some(client) = SpaceId::new(client) else {
            return false;
        };
        self.space.lists(index, client)
    }

    /// Whether TakeReply of a call would say anything but that the reply isn't ready.
    pub fn reply_ready(&self, call: u64) -> bool
        ensures { (L : List Entry) → StandsFor self.now.space L → result ≡ next.reply_ready call
            (history self.now.space.id self.now.space.n L) }
    {
        self.space.reply_ready(CallNo::new(call))
    }

    /// What the space could do next.
    pub fn work(&self) -> Work
        ensures { looks.ShowsWork self.now.space result }
    {
        let work = self.space.work();
        Work {
            act: bits_of(&work.act),
            send: bits_of(&work.send),
            settle: work.settle,
            clean: work.clean,
            claim: work.claim,
            withdraw: work.withdraw.is_some(),
            index: or_zero(work.withdraw),
        }
    }

    /// What a Transmit to a peer would give: 0 nothing, 1 an Ack alone, 2 items that were given
    /// before, 3 new ones, 4 the Close that is owed. 0 where the peer is outside 1 to 32.
    pub fn due(&self, peer: u16) -> u32
        ensures due { IsSpace peer → (L : List Entry) → StandsFor self.now.space L
            → result ≡ looks.due_number (dues.due self.now.space.id self.now.space.n peer
            self.now.space.limits.window (history self.now.space.id self.now.space.n L)) }
        ensures range { (IsSpace peer → ⊥) → result ≡ 0 }
    {
        let Some(peer) = SpaceId::new(peer) else {
            return 0;
        };
        due_number(self.space.due(peer))
    }

    /// What went each way on the session with a peer, and how it ended: all is 0 where the number
    /// is no peer's.
    pub fn tally(&self, peer: u16) -> Tally
        ensures tally { IsSpace peer → is_peer self.now.space.id self.now.space.n peer ≡ true
            → (L : List Entry) → StandsFor self.now.space L → result ≡ looks.tally_in_numbers
            (tallies.tally peer (looks.past_of self.now.space L)) }
        ensures none { is_peer self.now.space.id self.now.space.n peer ≡ false
            → result ≡ looks.tally_of_none }
        ensures range { (IsSpace peer → ⊥) → result ≡ looks.tally_of_none }
    {
        let Some(peer) = SpaceId::new(peer) else {
            return Tally::of_none();
        };
        let here = Here {
            space: self.space.id(),
            n: self.space.n(),
        };
        if !here.is_peer(peer) {
            return Tally::of_none();
        }
        Tally::of(self.space.tally(peer))
    }

    /// How many objects are live.
    pub fn live(&self) -> u64
        ensures { (L : List Entry) → StandsFor self.now.space L → result ≡ tallies.live_count
            self.now.space.id (looks.past_of self.now.space L) }
    {
        self.space.live()
    }

    /// Copies as many bytes of the answer as there is room for, the first first: how many it has.
    pub fn copy_answer(&self, out: &mut [u8]) -> usize
        ensures length { result ≡ length self.now.answer }
        ensures copied { out.new ≡ take (length out.old) self.now.answer
            ++ drop (length self.now.answer) out.old }
    {
        copy_out(self.answer.as_slice(), out)
    }
}
