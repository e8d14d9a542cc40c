//! Who carries and watches beside the nodes.

use crate::carriers::Carrier;
use crate::desk::Desks;
use crate::resting::doze;
use nob_nodes::{Beside, Meeting};
use std::sync::Wait;

/// For how many microseconds it rests at least where it carries and there was nothing, and where it
/// only watches.
const SHORT_REST: u64 = 100;

const REST: u64 = 5_000;

/// After how many microseconds of rest, by its own count, in which nobody said that he does
/// something, it says where each waits.
const PATIENCE: u64 = 10_000_000;

/// Who carries and watches beside the nodes, and says on standard error where each waits, if
/// nothing goes on.
#[derive(Drop)]
pub(crate) struct Watch<'p, 's, P: Print + Eprint> {
    out: &'p P,
    desks: &'s Desks,
    carriers: Vec<Carrier>,
    // What the players' counts came to when that changed last, and for how long it rested since.
    count: u64,
    rested: u64,
}

impl<'p, 's, P: Print + Eprint> Watch<'p, 's, P> {
    // Who watches these.
    pub(crate) fn new(out: &'p P, desks: &'s Desks, carriers: Vec<Carrier>) -> Watch<'p, 's, P> {
        Watch {
            out,
            desks,
            carriers,
            count: 0,
            rested: 0,
        }
    }

    // Carries what there is: whether there was something.
    fn carry<R: Wait>(&mut self, rt: &R) -> bool {
        let mut has_carried = false;
        for carrier in self.carriers.iter_mut() {
            if carrier.turn(rt) {
                has_carried = true;
            }
        }
        has_carried
    }

    // Whether it has ends of links.
    fn carries(&self) -> bool {
        self.carriers.iter().any(|carrier| carrier.is_there())
    }

    // Says that all have done what they do: no allocation is refused from here on, so the nodes may end.
    fn end(&self) {
        let _ = self.out.println("ended");
        self.desks.end();
    }

    // Rests for a while, and looks whether something went on meanwhile.
    fn rest<R: Wait>(&mut self, rt: &R) {
        let micros = if self.carries() { SHORT_REST } else { REST };
        doze(rt, micros);
        let count = self.desks.count(rt);
        if count != self.count {
            self.count = count;
            self.rested = 0;
            return;
        }
        self.rested = self.rested.saturating_add(micros);
        if self.rested >= PATIENCE {
            self.rested = 0;
            let _ = eprintln!(self.out; "nothing goes on");
            self.desks.tell(rt, self.out);
        }
    }
}

impl<'p, 's, P: Print + Eprint> Beside for Watch<'p, 's, P> {
    fn run<R: Wait>(&mut self, rt: &R, meeting: &Meeting) {
        meeting.wait_for(rt, 1);
        let _ = self.out.println("begin");
        for _ in rt.forever() {
            if meeting.is_over(rt) && !self.carries() {
                break;
            }
            if !self.desks.has_ended() && self.desks.are_done(rt) {
                self.end();
            }
            if !self.carry(rt) {
                self.rest(rt);
            }
        }
        if !self.desks.has_ended() {
            self.end();
        }
    }
}
