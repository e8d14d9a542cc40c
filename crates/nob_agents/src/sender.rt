//! The agent that transmits and puts what that gives.

ghost use Rattle.std.specs.Prelude.{◌≡◌, []};
ghost use Rattle.std.specs.List.{AllByRecursion};
ghost use Rattle.nob_agents.specs.Ways.{IsTied};
ghost use Rattle.nob_agents.specs.Sending.{AreApart, AreTied};

use crate::calls::Calls;
use crate::parcels::PutParcel;
use crate::passing::{has_gone_on, is_about, kept_behind, next_of, pass_on};
use crate::timing::Timing;
use crate::turn::Turn;
use crate::way::{PutStep, Way};
use nob_ids::SpaceId;
use nob_keeper::{Due, Dues, KeeperError, Seat};
use nob_model_types::Event;
use std::marker::Model;
use std::sync::Wait;

/// The maximum number of steps in a turn: parcels that are put, or pass a shim.
const MAX_STEPS: u32 = 256;

/// The agent that transmits to the peers of a space, and puts what that gives at their links.
/// Contracts see its ways, its receipts, and how many frames of the newest receipt have gone on;
/// these are tied.
#[derive(Drop)]
pub struct Sender<P: PutParcel + Drop> {
    seat: Seat,
    ways: Vec<Way<P>>,
    handled: usize,
    timing: Timing,
    // The peer whose link's other end was found to be gone, and whose session isn't closed yet.
    gone: Option<SpaceId>,
    // At which peers that was found, and the session closed for it.
    told: [bool; 32],
}

// Whether an open session would transmit something.
fn is_of_open(due: Due) -> bool {
    match due {
        Due::Ack | Due::Again | Due::New => true,
        Due::Nothing | Due::Close => false,
    }
}

impl<P: PutParcel + Drop> Model for Sender<P> {
    ghost use Rattle.nob_agents.specs.Sending.{Sending};

    ghost Value = { Sending };

    ghost use Rattle.std.specs.Coded.{codes};
    ghost use Rattle.nob_pickle.specs.Marks.{trees_code};

    ghost coded = { Prim.hlevel (codes, trees_code) };

    ghost use Rattle.nob_agents.specs.Sending.{AreTied};

    ghost view = { λ sender. record {
      ways = sender.ways.items;
      receipts = sender.seat;
      handled = sender.handled;
    } };

    ghost invariant = { λ sender. AreTied (record {
      ways = sender.ways.items;
      receipts = sender.seat;
      handled = sender.handled;
    }) };
}

impl<P: PutParcel + Drop> Sender<P> {
    /// The agent for these ways. What is out is transmitted again after `pause` turns, and after
    /// twice as many each time sixteen repeats had nothing new beside them, 32 times as many at
    /// most; a tick is made after every `tick_every` such pauses, none where that is 0. The
    /// caller's condition: the seat and the ways are unused, and no two ways lead to one peer.
    pub fn new(seat: Seat, ways: Vec<Way<P>>, pause: u32, tick_every: u32) -> Sender<P>
        requires seat { seat ≡ [] }
        requires ways { AllByRecursion (IsTied []) ways.items }
        requires apart { AreApart ways.items }
        ensures { result ≡ record { ways = ways.items; receipts = []; handled = 0 } }
    {
        Sender {
            seat,
            ways,
            handled: 0,
            timing: Timing::new(pause, tick_every),
            gone: None,
            told: [false; 32],
        }
    }

    // Puts the next parcel that is kept behind a shim, if there is one.
    fn put_next<R: Wait>(&mut self, rt: &R) -> PutStep {
        let Some(at) = kept_behind(self.ways.as_slice()) else {
            return PutStep::Nothing;
        };
        let way = &mut self.ways[at];
        way.put_next(rt)
    }

    // Notes whose link's other end was just found to be gone.
    fn note_gone(&mut self) {
        for way in &self.ways {
            let place = way.peer().place();
            if way.has_gone() && !self.told[place] {
                self.told[place] = true;
                self.gone = Some(way.peer());
            }
        }
    }

    // Has the next frame of the newest receipt pass the shim of its way, behind which nothing is
    // kept: whether there was one. Only memory fails it.
    fn pass_next(&mut self) -> Result<bool, KeeperError> {
        let Some(receipt) = self.seat.newest() else {
            return Ok(false);
        };
        let next = next_of(receipt, self.handled)?;
        let Some(due) = next else {
            return Ok(false);
        };
        if !pass_on(&mut self.ways, due.0, due.1)? {
            return Ok(false);
        }
        self.handled += 1;
        Ok(true)
    }

    // Asks the keeper for what is about the peer of a way, once all that the newest receipt has is
    // on its way: whether it did.
    fn ask<R: Wait, C: Calls>(
        &mut self,
        rt: &R,
        keeper: &C,
        event: &Event,
    ) -> Result<bool, KeeperError> {
        if !has_gone_on(&self.seat, self.handled) {
            return Ok(false);
        }
        if !is_about(self.ways.as_slice(), event) {
            return Ok(false);
        }
        keeper.call(rt, &mut self.seat, event, 0)?;
        self.handled = 0;
        Ok(true)
    }

    // Puts what is on its way, as far as the links have room: how many parcels, or `None` beside
    // them where a link is full.
    fn put_all<R: Wait>(&mut self, rt: &R) -> Result<(u64, bool), KeeperError> {
        let mut count: u64 = 0;
        for _ in 0..MAX_STEPS {
            match self.put_next(rt) {
                PutStep::Put => count = count.saturating_add(1),
                PutStep::Full => return Ok((count, false)),
                PutStep::Gone => self.note_gone(),
                PutStep::Nothing => {
                    if !self.pass_next()? {
                        return Ok((count, true));
                    }
                }
            }
        }
        Ok((count, false))
    }

    // The peer of a way whose link's other end is gone, where a session with it was opened anew and
    // would transmit something.
    fn lost(&self, all: &Dues) -> Option<SpaceId> {
        for way in &self.ways {
            if way.has_gone() && is_of_open(all.due[way.peer().place()]) {
                return Some(way.peer());
            }
        }
        None
    }

    // What is to be closed next, since its link's other end is gone, if something is.
    fn next_close(&mut self, all: &Dues) -> Option<Event> {
        let peer = self.gone.take().or(self.lost(all))?;
        Some(Event::Close(peer))
    }

    // What a Transmit would give to each peer whose link's other end is there.
    fn known(&self, all: &Dues) -> [Due; 32] {
        let mut dues = [Due::Nothing; 32];
        for way in &self.ways {
            if !way.has_gone() {
                let place = way.peer().place();
                dues[place] = all.due[place];
            }
        }
        dues
    }

    // What is to be asked next, if something is.
    fn next<R: Wait, C: Calls>(&mut self, rt: &R, keeper: &C) -> Option<Event> {
        let all = keeper.dues(rt);
        if let Some(close) = self.next_close(&all) {
            return Some(close);
        }
        let dues = self.known(&all);
        self.timing.next(&dues)
    }

    // What is new and to be asked next, if something is, where a Transmit would give this. What is
    // out isn't.
    fn next_new(&mut self, dues: &mut [Due; 32]) -> Option<Event> {
        if let Some(peer) = self.gone.take() {
            return Some(Event::Close(peer));
        }
        let event = self.timing.next_new(dues)?;
        if let Event::Transmit(peer) = &event {
            dues[peer.place()] = Due::Nothing;
        }
        Some(event)
    }

    /// One turn: what is on its way is put, as far as the links have room; then something is
    /// transmitted, what is new at once, an Ack alone after a few turns, and what is out again
    /// after more, and put too. Where a link's other end is gone the session with its peer is
    /// closed, and one that is opened anew with it once it has something to transmit; nothing more
    /// is put there. It makes no entry that gives nothing. After K2, or another error of the
    /// keeper, the next turn goes on where this one stood: nothing is lost.
    pub fn turn<R: Wait, C: Calls>(&mut self, rt: &R, keeper: &C) -> Result<Turn, KeeperError> {
        let (count, is_clear) = self.put_all(rt)?;
        if count > 0 {
            return Ok(Turn::Did(count));
        }
        if !is_clear {
            return Ok(Turn::Idle);
        }
        let Some(event) = self.next(rt, keeper) else {
            return Ok(Turn::Idle);
        };
        self.ask(rt, keeper, &event)?;
        let (count, _) = self.put_all(rt)?;
        Ok(Turn::Did(count))
    }

    /// Puts what is on its way and transmits what is new, as far as the links have room: how many
    /// parcels. What there is to transmit is asked once. What is out isn't transmitted again, and
    /// the turns until it is aren't counted: so whoever has handed something on may ask for this as
    /// often as he likes. After K2, or another error of the keeper, the next turn goes on where
    /// this one stood.
    pub fn flush<R: Wait, C: Calls>(&mut self, rt: &R, keeper: &C) -> Result<u64, KeeperError> {
        let (mut count, mut is_clear) = self.put_all(rt)?;
        let all = keeper.dues(rt);
        self.gone = self.gone.take().or(self.lost(&all));
        let mut dues = self.known(&all);
        for _ in 0..MAX_STEPS {
            if !is_clear {
                break;
            }
            let Some(event) = self.next_new(&mut dues) else {
                break;
            };
            self.ask(rt, keeper, &event)?;
            let (more, is_clear_now) = self.put_all(rt)?;
            count = count.saturating_add(more);
            is_clear = is_clear_now;
        }
        Ok(count)
    }

    /// Whether nothing is left for it to do, by what the keeper says: all that it transmitted is
    /// put, and a Transmit would give a frame to no peer whose link's other end is there.
    pub fn is_done(&self, dues: &Dues) -> bool {
        self.is_clear()
            && self.gone.is_none()
            && self.lost(dues).is_none()
            && self.known(dues).iter().all(|due| *due == Due::Nothing)
    }

    /// Whether all that it transmitted is put: nothing waits for room in a link.
    pub fn is_clear(&self) -> bool {
        has_gone_on(&self.seat, self.handled) && kept_behind(self.ways.as_slice()).is_none()
    }

    /// Its parts, which are tied: what each way put, and then what it keeps behind its shim, is the
    /// shim's output on the frames of the Transmits to its peer, save the last ones of the newest.
    /// All that it asked is to transmit to a way's peer, a tick of the session with it, or its
    /// close.
    pub fn end(self) -> (Seat, Vec<Way<P>>)
        ensures parts { (self.ways ≡ result.1.items) × (self.receipts ≡ result.0) }
        ensures tied { AreTied self }
    {
        let Sender { seat, ways, .. } = self;
        (seat, ways)
    }
}
