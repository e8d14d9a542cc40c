//! What transmits for a node, and ends its links.

ghost use Rattle.std.specs.Prelude.{◌≡◌, [], true, Some, None};
ghost use Rattle.nob_node_parts.specs.Outboxes as outboxes;
ghost use Rattle.nob_node_parts.specs.declared.outbox.Pulse.TheVariants as pulses;

use nob_agents::{Dues, Keeper, KeeperError, PutStep, Seat, Sender, Turn, Way};
use nob_link::{Parcel, PutEnd};
use std::alloc::Global;
use std::sync::Wait;

/// What transmits for a node: its Sender, and once no more is transmitted the ways that are left to
/// be ended.
#[derive(Drop)]
pub struct Outbox {
    sender: Option<Sender<PutEnd>>,
    seat: Option<Seat>,
    ways: Vec<Way<PutEnd>>,
    // Whether the end has passed the shim of the last of the ways.
    has_passed: bool,
}

/// What came of a turn of what transmits.
#[derive(Clone, Copy, Debug, PartialEq, Eq)]
pub enum Pulse {
    /// Something was transmitted that nobody else did: again, most likely.
    Busy,
    /// Something is out.
    Quiet,
    /// Nothing is left to do.
    Done,
}

impl Outbox {
    /// What transmits by a Sender.
    pub fn new(alloc: Global, sender: Sender<PutEnd>) -> Outbox
        ensures sender { result.sender ≡ Some sender }
        ensures ways { result.ways.items ≡ [] }
    {
        Outbox {
            sender: Some(sender),
            seat: None,
            ways: Vec::new(alloc),
            has_passed: false,
        }
    }

    /// Transmits what is new: whether nothing was, so that nothing new is left. What fails is done
    /// by a later turn.
    pub fn flush<R: Wait>(&mut self, rt: &R, keeper: &Keeper) -> bool
        ensures sealed { self.old.sender ≡ None → (result ≡ true) × (self.new ≡ self.old) }
    {
        let Some(sender) = &mut self.sender else {
            return true;
        };
        match sender.flush(rt, keeper) {
            Ok(count) => count == 0,
            Err(KeeperError::OutOfMemory) => false,
            Err(_) => true,
        }
    }

    /// A turn of the Sender: what came of it, by what the keeper said before.
    pub fn turn<R: Wait>(&mut self, rt: &R, keeper: &Keeper, dues: &Dues) -> Pulse
        ensures sealed { self.old.sender ≡ None
            → (result ≡ pulses.Done) × (self.new ≡ self.old) }
    {
        let Some(sender) = &mut self.sender else {
            return Pulse::Done;
        };
        match sender.turn(rt, keeper) {
            Ok(Turn::Idle) if sender.is_done(dues) => Pulse::Done,
            Ok(Turn::Idle) => Pulse::Quiet,
            Ok(_) => Pulse::Busy,
            Err(KeeperError::OutOfMemory) => Pulse::Quiet,
            Err(_) => Pulse::Done,
        }
    }

    /// Whether all that was transmitted is put: nothing waits for room in a link.
    pub fn is_clear(&self) -> bool {
        match &self.sender {
            Some(sender) => sender.is_clear(),
            None => self.ways.is_empty(),
        }
    }

    /// Transmits no more: the Sender ends, and the ways are left.
    pub fn seal(&mut self)
        ensures closed { self.new.sender ≡ None }
        ensures seat { outboxes.seat_in self.new ≡ outboxes.seat_in self.old }
        ensures ways { outboxes.ways_in self.new ≡ outboxes.ways_in self.old }
    {
        if let Some(sender) = self.sender.take() {
            let (seat, ways) = sender.end();
            self.seat = Some(seat);
            self.ways = ways;
        }
    }

    /// Lets all ways go, with the ends of their links.
    pub fn give_up(&mut self)
        ensures closed { self.new.sender ≡ None }
        ensures seat { outboxes.seat_in self.new ≡ outboxes.seat_in self.old }
        ensures ways { outboxes.ways_in self.new ≡ [] }
    {
        self.seal();
        self.ways.clear();
    }

    /// Ends the ways, as far as the links have room: whether none is left.
    pub fn put_ends<R: Wait>(&mut self, rt: &R) -> bool
        ensures closed { self.new.sender ≡ None }
        ensures seat { outboxes.seat_in self.new ≡ outboxes.seat_in self.old }
        ensures ended { result ≡ true → outboxes.ways_in self.new ≡ [] }
    {
        self.seal();
        for _ in rt.forever() {
            let Some(mut way) = self.ways.pop() else {
                return true;
            };
            if !end_way(rt, &mut way, &mut self.has_passed) {
                self.keep(way);
                return false;
            }
            self.has_passed = false;
        }
        unreachable!()
    }

    // Puts a way back that was just taken out. There is room for it.
    fn keep(&mut self, way: Way<PutEnd>)
        ensures sender { self.new.sender ≡ self.old.sender }
        ensures seat { self.new.seat ≡ self.old.seat }
    {
        let _ = self.ways.push(way);
    }

    /// Its seat, once no more is transmitted.
    pub fn into_seat(self) -> Option<Seat>
        ensures { result ≡ outboxes.seat_in self }
    {
        let Outbox { sender, seat, .. } = self;
        match sender {
            Some(sender) => {
                let (seat, _ways) = sender.end();
                Some(seat)
            }
            None => seat,
        }
    }
}

// Puts what is behind a way's shim, and then the end: whether all is put, or the link's other end
// is gone.
fn end_way<R: Wait>(rt: &R, way: &mut Way<PutEnd>, has_passed: &mut bool) -> bool {
    for _ in rt.forever() {
        match way.put_next(rt) {
            PutStep::Put => {}
            PutStep::Full => return false,
            PutStep::Gone => return true,
            PutStep::Nothing => {
                if *has_passed || way.has_gone() {
                    return true;
                }
                if !way.is_clear() || way.pass(Parcel::End).is_err() {
                    return false;
                }
                *has_passed = true;
            }
        }
    }
    unreachable!()
}
