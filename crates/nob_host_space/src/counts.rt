//! What a space has and what came from a peer, in numbers.

ghost use Rattle.std.specs.Prelude.{◌≡◌, List, true, false};
ghost use Rattle.nob_ids.specs.Names.{IsSpace};
ghost use Rattle.nob_model_types.specs.declared.entry.Entry.{Entry};
ghost use Rattle.nob_model_types.specs.Sessions.{is_peer};
ghost use Rattle.nob_space.specs.Counts as words;
ghost use Rattle.nob_space.specs.Spaces.{StandsFor};
ghost use Rattle.nob_host_space.specs.Counts as counts;
ghost use Rattle.nob_host_space.specs.Looks.{or_zero, past_of};

use crate::host::Host;
use nob_ids::{CallNo, ItemNo, SpaceId};
use nob_model::Here;
use nob_peek::{Seen, peek};
use nob_space::{PeerCounts, SpaceCounts};

/// What stands at the front of the inbox from a peer: what an Act would act on.
#[repr(C)]
#[derive(Clone, Copy, Debug, PartialEq, Eq)]
pub struct Front {
    /// What it is: 0 nothing, 1 a Call, 2 a Reply, 3 Settle, 4 Dirty, 5 DirtyOk, 6 DirtyNo, 7
    /// Clean, 8 bytes that are no item's. What a kind doesn't have is 0.
    pub kind: u32,
    /// How many references the value of a Call or a Reply has, repeats and agents' included.
    pub references: u32,
    /// The method of a Call, the status of a Reply.
    pub method: u32,
    /// Its number among the items of the session.
    pub item: u64,
    /// The number of a Call's or a Reply's call, or of the item that a Settle names.
    pub number: u64,
    /// The index of a Call's target, or of the object that another note names.
    pub index: u64,
}

impl Front {
    /// Nothing.
    pub fn nothing() -> Front
        ensures { result ≡ counts.no_front }
    {
        Front {
            kind: 0,
            references: 0,
            method: 0,
            item: 0,
            number: 0,
            index: 0,
        }
    }

    // A note of a kind, with its numbers.
    fn note(kind: u32, item: ItemNo, number: u64, index: u64) -> Front
        ensures { result ≡ counts.note_shown kind item number index }
    {
        Front {
            kind,
            references: 0,
            method: 0,
            item: item.get(),
            number,
            index,
        }
    }

    // An item by what is seen of it.
    fn of(item: ItemNo, seen: Option<Seen>) -> Front
        ensures { result ≡ counts.front_shown item seen }
    {
        let Some(seen) = seen else {
            return Front::note(8, item, 0, 0);
        };
        match seen {
            Seen::Call {
                call,
                target,
                method,
                references,
            } => Front {
                kind: 1,
                references,
                method: method as u32,
                item: item.get(),
                number: call.get(),
                index: target,
            },
            Seen::Reply {
                call,
                status,
                references,
            } => Front {
                kind: 2,
                references,
                method: status as u32,
                item: item.get(),
                number: call.get(),
                index: 0,
            },
            Seen::Settle(settled) => Front::note(3, item, settled.get(), 0),
            Seen::Dirty(index) => Front::note(4, item, 0, index),
            Seen::DirtyOk(index) => Front::note(5, item, 0, index),
            Seen::DirtyNo(index) => Front::note(6, item, 0, index),
            Seen::Clean(index) => Front::note(7, item, 0, index),
        }
    }
}

/// The counts of no space.
pub fn counts_of_no_space() -> SpaceCounts
    ensures { result ≡ counts.no_space_counts }
{
    SpaceCounts {
        live: 0,
        surrogates: 0,
        calls: 0,
        waiting: 0,
        ready: 0,
        running: 0,
        replies: 0,
    }
}

/// The counts of no peer.
pub fn counts_of_no_peer() -> PeerCounts
    ensures { result ≡ counts.no_counts }
{
    PeerCounts {
        pinned: 0,
        unacknowledged: 0,
        inbox: 0,
        waiting: 0,
        ready: 0,
        surrogates: 0,
    }
}

// The number of a call, or 0 where there is none.
fn call_or_zero(call: Option<CallNo>) -> u64
    ensures { result ≡ or_zero call }
{
    match call {
        Some(call) => call.get(),
        None => 0,
    }
}

impl Host {
    /// How much the space has: objects, surrogates, calls and messages.
    pub fn counts(&self) -> SpaceCounts
        ensures { (L : List Entry) → StandsFor self.now.space L → result ≡ words.counts
            self.now.space.id self.now.space.n (past_of self.now.space L) }
    {
        self.space.counts()
    }

    /// How much of what the space has is with a peer: all is 0 where the number is no peer's. It
    /// looks for each message of the peer that waits, for each of its ready jobs, and at each
    /// surrogate.
    pub fn peer_counts(&self, peer: u16) -> PeerCounts
        ensures counts { IsSpace peer → is_peer self.now.space.id self.now.space.n peer ≡ true
            → (L : List Entry) → StandsFor self.now.space L → result
            ≡ words.peer_counts self.now.space.id self.now.space.n peer
            (past_of self.now.space L) }
        ensures none { is_peer self.now.space.id self.now.space.n peer ≡ false
            → result ≡ counts.no_counts }
        ensures range { (IsSpace peer → ⊥) → result ≡ counts.no_counts }
    {
        let Some(peer) = SpaceId::new(peer) else {
            return counts_of_no_peer();
        };
        let here = Here {
            space: self.space.id(),
            n: self.space.n(),
        };
        if !here.is_peer(peer) {
            return counts_of_no_peer();
        }
        self.space.peer_counts(peer)
    }

    /// What an Act on a peer would act on: nothing where the number is no peer's, the session with
    /// it has closed here, or nothing waits. It takes no memory. Linear in the item's bytes.
    pub fn front(&self, peer: u16) -> Front
        ensures front { IsSpace peer → (L : List Entry) → StandsFor self.now.space L
            → result ≡ counts.shown (words.front self.now.space.id self.now.space.n peer
            (past_of self.now.space L)) }
        ensures range { (IsSpace peer → ⊥) → result ≡ counts.no_front }
    {
        let Some(peer) = SpaceId::new(peer) else {
            return Front::nothing();
        };
        let Some((item, bytes)) = self.space.front(peer) else {
            return Front::nothing();
        };
        Front::of(item, peek(bytes))
    }

    /// The number of the call whose reply became ready first, of those that weren't taken, or 0
    /// where none is ready: no call has this number. It says nothing of the calls that a close
    /// ended. It takes no memory.
    pub fn next_reply(&self) -> u64
        ensures { (L : List Entry) → StandsFor self.now.space L
            → result ≡ or_zero (words.next_reply (past_of self.now.space L)) }
    {
        call_or_zero(self.space.next_reply())
    }
}
