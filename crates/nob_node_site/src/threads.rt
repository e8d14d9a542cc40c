//! What each thread of a node does.

use crate::probing::Probing;
use crate::site::Site;
use nob_dispatch_objects::Object;
use nob_keeper::Wake;
use nob_node_parts::{Gate, Hand, Kept, Pace, Pulse, Sleep, carry_out};
use std::sync::Wait;

/// How many times running the thread that transmits again what is out sleeps shortly, while nothing
/// happens.
const SHORT_RESTS: u32 = 64;

/// If there are this many entries since the turn before (after a usual rest, after a longer one), what
/// is out is answered.
const MANY_ENTRIES: (u64, u64) = (24, 200);

/// Takes what comes over the link of a place, until nothing comes any more.
pub fn take<B: Object, R: Wait>(rt: &R, site: &Site<B>, place: usize) {
    site.inboxes.take(rt, site, place);
}

/// Gets errands and carries them out, until none comes any more. Without one it looks for a moment, if
/// no other worker does, and then sleeps.
pub fn serve<B: Object, R: Wait, G: Gate>(
    rt: &R,
    site: &Site<B>,
    gate: &G,
    hand: &mut Hand<Kept<B>>,
) {
    for _ in rt.forever() {
        let rings = site.idlers.rings();
        if hand.try_get(rt) {
            site.idlers.take();
            carry_out(rt, site, gate, hand);
        } else if site.idlers.is_over() {
            break;
        } else if !site.look_for_errand(rt) {
            site.idlers.sleep(rt, rings);
        }
    }
    nob_node_parts::serve(rt, site, gate, hand);
    site.jobs.leave(rt);
}

/// Says whether all threads are made, this one being the last; then transmits what is out again, and
/// does what others left to transmit, to claim, to settle, to clean and to withdraw, until the links are
/// ended. While nothing is out it probes where it has what does, and sleeps at the keeper where it
/// hasn't.
pub fn send<B: Object, R: Wait>(rt: &R, site: &Site<B>, probing: &mut Probing, is_whole: bool) {
    site.start.say(rt, is_whole);
    let mut standstill = Standstill::new();
    let mut pace = Pace::new(MANY_ENTRIES.0, MANY_ENTRIES.1);
    for _ in rt.forever() {
        if site.transmitting.is_sealed() || site.failure.has_come() {
            return;
        }
        let dues = site.keeper.dues(rt);
        let pulse = site.transmitting.repeat(rt, &site.keeper, &dues);
        site.attend_left(rt);
        let is_short = standstill.is_short_after(dues.place, pulse);
        let is_long = pace.is_much_at(dues.place);
        if pulse != Pulse::Done {
            site.transmitting.sleep(rt, sleep_of(is_short, is_long));
        } else if !probing.turn(rt, site) && !is_woken(rt, site, dues.place) {
            return;
        }
    }
}

// For how long the thread sleeps that transmits again.
fn sleep_of(is_short: bool, is_long: bool) -> Sleep {
    if is_long {
        Sleep::Long
    } else if is_short {
        Sleep::Short
    } else {
        Sleep::Usual
    }
}

/// For how long nothing has happened at a node but that it transmitted again.
#[derive(Clone, Copy, Debug, Drop)]
struct Standstill {
    // How many entries there were after the last turn.
    place: u64,
    // How many turns found nothing more.
    turns: u32,
}

impl Standstill {
    fn new() -> Standstill {
        Standstill { place: 0, turns: 0 }
    }

    // Whether the rest after a turn is short, before which there were so many entries: what is out may
    // be lost. A peer that answers nothing for long isn't asked as often.
    fn is_short_after(&mut self, place: u64, pulse: Pulse) -> bool {
        self.turns = if place == self.place {
            self.turns.saturating_add(1)
        } else {
            0
        };
        let more = if pulse == Pulse::Busy { 1 } else { 0 };
        self.place = place.saturating_add(more);
        self.turns > 0 && self.turns < SHORT_RESTS
    }
}

// Waits for something to transmit behind a place: whether there may be something. Where the trace is
// full the node has failed.
fn is_woken<B: Object, R: Wait>(rt: &R, site: &Site<B>, place: u64) -> bool {
    match site.keeper.wait_past(rt, place) {
        Wake::Work => true,
        Wake::TraceFull => {
            site.fail(rt);
            false
        }
        Wake::Stopped => false,
    }
}
