//! What transmits, as the threads of a node share it.

use crate::failure::Failure;
use crate::outbox::{Outbox, Pulse};
use nob_agents::{Dues, Keeper};
use nob_offers::{Offered, Retry, Tries};
use std::sync::Wait;
use std::sync::atomic::{AtomicBool, AtomicU64, Ordering};
use std::time::Duration;

/// For how long the thread sleeps that transmits again what is out.
#[derive(Clone, Copy, Debug, PartialEq, Eq)]
pub enum Sleep {
    /// What is out may be lost.
    Short,
    /// It is out for a moment.
    Usual,
    /// What is out is answered before the thread could look, since much happens.
    Long,
}

impl Sleep {
    // How many microseconds.
    fn micros(self) -> u64 {
        match self {
            Sleep::Short => 1,
            Sleep::Usual => 100,
            Sleep::Long => 1_000,
        }
    }
}

/// For how many microseconds it sleeps at most while nothing is out, and it probes.
const WATCH: u64 = 10_000;

/// What transmits for a node. Who hands something on offers a turn; one thread besides transmits
/// again what is out.
#[derive(Drop)]
pub struct Transmitting {
    outbox: Offered<Outbox>,
    // Whether something that was transmitted waits for room in a link.
    late: Retry,
    // The thread that transmits again what is out sleeps here between its turns. It counts how often
    // that was woken.
    pulse: AtomicU64,
    // Whether it sleeps for long, since nothing is out.
    is_watching: AtomicBool,
    // Whether no more is transmitted: the links are ended.
    is_sealed: AtomicBool,
    // Whether all links are ended.
    has_ended: AtomicBool,
}

impl Transmitting {
    /// Nothing was handed on.
    pub fn new(outbox: Outbox) -> Transmitting {
        Transmitting {
            outbox: Offered::new(outbox),
            late: Retry::new(),
            pulse: AtomicU64::new(0),
            is_watching: AtomicBool::new(false),
            is_sealed: AtomicBool::new(false),
            has_ended: AtomicBool::new(false),
        }
    }

    /// What transmitted, once all threads are done with it.
    pub fn into_outbox(self) -> Outbox {
        let Transmitting { outbox, .. } = self;
        outbox.into_inner()
    }

    /// Whether something waits for room in a link.
    pub fn is_late(&self) -> bool {
        self.late.is_late()
    }

    /// Whether the links are ended, or about to be.
    pub fn is_sealed(&self) -> bool {
        self.is_sealed.load(Ordering::SeqCst)
    }

    /// Runs a turn that transmits what is new, or leaves it to the one who has the turn. Where the
    /// node has failed the ends of the links are given up.
    pub fn transmit<R: Wait>(&self, rt: &R, keeper: &Keeper, failure: &Failure) {
        self.outbox.hand();
        self.outbox.offer(rt, |outbox: &mut Outbox| {
            self.send(rt, keeper, failure, outbox);
        });
        if self.is_watching.load(Ordering::SeqCst)
            && self.is_watching.swap(false, Ordering::SeqCst)
        {
            self.pulse.fetch_add(1, Ordering::SeqCst);
            self.pulse.wake_one();
        }
    }

    // What is transmitted in a turn. What was handed on before the links are ended goes first:
    // whether they are is read before it is looked for.
    fn send<R: Wait>(&self, rt: &R, keeper: &Keeper, failure: &Failure, outbox: &mut Outbox) {
        if failure.has_come() {
            outbox.give_up();
        }
        let is_sealed = self.is_sealed();
        let tries = self.late.begin();
        let is_whole = outbox.flush(rt, keeper);
        note(tries, outbox);
        if is_sealed && is_whole && outbox.put_ends(rt) {
            self.has_ended.store(true, Ordering::SeqCst);
        }
    }

    /// A turn that also repeats what is out: what came of it, by what the keeper said before.
    pub fn repeat<R: Wait>(&self, rt: &R, keeper: &Keeper, dues: &Dues) -> Pulse {
        let is_done = AtomicBool::new(false);
        let is_busy = AtomicBool::new(false);
        let (done, busy) = (&is_done, &is_busy);
        self.outbox.offer(rt, |outbox: &mut Outbox| {
            let tries = self.late.begin();
            let pulse = outbox.turn(rt, keeper, dues);
            note(tries, outbox);
            done.store(pulse == Pulse::Done, Ordering::SeqCst);
            busy.store(pulse == Pulse::Busy, Ordering::SeqCst);
        });
        if is_done.load(Ordering::SeqCst) {
            return Pulse::Done;
        }
        if is_busy.load(Ordering::SeqCst) {
            return Pulse::Busy;
        }
        Pulse::Quiet
    }

    /// Leaves the processor to others for a while. Nobody has to wake it.
    pub fn sleep<R: Wait>(&self, rt: &R, sleep: Sleep) {
        let pulse = self.pulse.load(Ordering::SeqCst);
        self.park(rt, pulse, sleep.micros());
    }

    /// Leaves the processor to others for some milliseconds, while nothing is out. Who hands something
    /// on wakes it.
    pub fn watch<R: Wait>(&self, rt: &R) {
        let pulse = self.pulse.load(Ordering::SeqCst);
        self.is_watching.store(true, Ordering::SeqCst);
        self.park(rt, pulse, WATCH);
        self.is_watching.store(false, Ordering::SeqCst);
    }

    // Sleeps for so many microseconds at most, where it wasn't woken since the pulse was read.
    fn park<R: Wait>(&self, rt: &R, pulse: u64, micros: u64) {
        self.pulse.park_timeout(
            rt,
            (pulse % (1 << 32)) as u32,
            Duration::from_micros(micros),
        );
    }

    /// Ends all links: what is new is transmitted, and then the end is put on each.
    pub fn end<R: Wait>(&self, rt: &R, keeper: &Keeper, failure: &Failure) {
        self.is_sealed.store(true, Ordering::SeqCst);
        for _ in rt.forever() {
            self.transmit(rt, keeper, failure);
            if self.has_ended.load(Ordering::SeqCst) {
                return;
            }
            self.sleep(rt, Sleep::Usual);
        }
    }
}

// Notes whether something waits for room in a link. Where something does, the turn in which it goes
// comes by the thread that transmits again, which sleeps only where nothing does.
fn note(tries: Tries<'_>, outbox: &Outbox) {
    if outbox.is_clear() {
        tries.found_none();
    } else {
        tries.leave();
    }
}
