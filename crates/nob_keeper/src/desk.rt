//! Who waits at a keeper, and for what.

ghost use Rattle.std.specs.Prelude.{◌≡◌, ◌≢◌, ◌<◌, ◌≤◌, ◌+◌, ◌-◌, ◌^◌, ◌++◌, ◌∷◌, [], ◌↔◌, ℕ, true, Some, None, slice_get, IfSome, OnOk, OnErr};
ghost use Rattle.nob_keeper.specs.Desks as desks;
ghost use Rattle.nob_kept.specs.Staying.{IsAmong};

use crate::waking::Wakes;
use nob_ids::CallNo;
use std::alloc::{AllocError, Global};

/// The number of places to wait at for replies: calls whose numbers differ by less wait apart.
pub(crate) const REPLY_PLACES: usize = 32;

// The place at which one waits for the reply to a call.
pub(crate) fn reply_place(call: CallNo) -> usize
    ensures place { result ≡ desks.place_of call }
    ensures within { result < 32 }
{
    (call.get() % REPLY_PLACES as u64) as usize
}

// Who waits for something to transmit.
#[derive(Clone, Copy, Debug, PartialEq, Eq)]
struct Watch {
    // The place of the last entry that may have made something to transmit.
    last: u64,
    // Whether those who wait for it are told to stop.
    stopped: bool,
    // How many wait for it.
    parked: u64,
}

/// Who waits at a keeper, and for what.
#[derive(Debug, Drop)]
pub(crate) struct Desk {
    send: Watch,
    // The calls whose replies are waited for.
    waiting: Vec<CallNo>,
}

impl Desk {
    // Nobody waits. It takes no memory.
    pub(crate) fn new(alloc: Global) -> Desk
        ensures waiting { result.waiting.items ≡ [] }
        ensures send { result.send ≡ desks.first_watch }
    {
        Desk {
            send: Watch {
                last: 0,
                stopped: false,
                parked: 0,
            },
            waiting: Vec::new(alloc),
        }
    }

    // The entry at this place may have made this possible.
    pub(crate) fn note(&mut self, wakes: Wakes, place: u64)
        ensures { self.new ≡ desks.noted_at wakes place self.old }
    {
        if wakes.send {
            self.send.last = place;
        }
    }

    // Whether no entry behind a place may have made something to transmit.
    pub(crate) fn is_idle(&self, place: u64) -> bool
        ensures { (result ≡ true) ↔ (self.now.send.last ≤ place) }
    {
        self.send.last <= place
    }

    // Whether those who wait for something to transmit are told to stop.
    pub(crate) fn is_stopped(&self) -> bool
        ensures { result ≡ self.now.send.stopped }
    {
        self.send.stopped
    }

    // Tells those who wait for something to transmit to stop.
    pub(crate) fn stop(&mut self)
        ensures { self.new ≡ desks.with_watch (desks.with_stop self.old.send) self.old }
    {
        self.send.stopped = true;
    }

    // One more waits for something to transmit.
    pub(crate) fn park(&mut self)
        ensures { self.new ≡ desks.with_watch (desks.with_one_more self.old.send) self.old }
    {
        self.send.parked = self.send.parked.saturating_add(1);
    }

    // One fewer waits for something to transmit.
    pub(crate) fn unpark(&mut self)
        ensures { self.new ≡ desks.with_watch (desks.with_one_fewer self.old.send) self.old }
    {
        self.send.parked = self.send.parked.saturating_sub(1);
    }

    // Whether somebody waits for something to transmit.
    pub(crate) fn is_parked(&self) -> bool
        ensures { result ≡ desks.is_parked self.now }
    {
        self.send.parked > 0
    }

    // One more waits for the reply to a call. Only memory fails it.
    pub(crate) fn wait_for(&mut self, call: CallNo) -> Result<(), AllocError>
        ensures waiting { OnOk result
            (self.new.waiting.items ≡ self.old.waiting.items ++ call ∷ []) }
        ensures err { OnErr result (self.new.waiting.items ≡ self.old.waiting.items) }
        ensures send { self.new.send ≡ self.old.send }
    {
        self.waiting.push(call)?;
        Ok(())
    }

    // One fewer waits for the reply to a call.
    pub(crate) fn leave(&mut self, call: CallNo)
        ensures waiting { desks.IsLeft call self.old.waiting.items self.new.waiting.items }
        ensures send { self.new.send ≡ self.old.send }
    {
        if let Some(place) = place_among(self.waiting.as_slice(), call) {
            self.waiting.remove(place);
        }
    }

    // The calls whose replies are waited for.
    pub(crate) fn waiting(&self) -> &[CallNo]
        ensures { result.now ≡ self.now.waiting.items }
    {
        self.waiting.as_slice()
    }
}

// Where a call stands among these.
fn place_among(calls: &[CallNo], call: CallNo) -> Option<usize>
    ensures some { IfSome result (λ place. slice_get calls.now place ≡ Some call) }
    ensures none { result ≡ None → IsAmong calls.now call → ⊥ }
{
    for place in 0..calls.len() {
        if calls[place] == call {
            return Some(place);
        }
    }
    None
}
