//! Two threads that hand things on and offer a turn after each.

use crate::meeting::meet;
use nob_offers::Offered;
use std::sync::Wait;
use std::sync::atomic::{AtomicU64, Ordering};
use std::thread::{self, Threads};

// What the threads share: how many things there are, how many of them the latest turn saw, how often
// the threads met, and what they offer turns of, which counts its turns.
#[derive(Drop)]
struct Shared {
    things: AtomicU64,
    seen: AtomicU64,
    met: AtomicU64,
    offered: Offered<u64>,
}

/// How many things the latest turn saw once all rounds are over, and in how many rounds it saw all
/// that there were once both threads rested. In each round each thread hands one thing.
pub fn seen<R: Threads + Wait + Sync>(rt: &R, rounds: u64) -> (u64, u64) {
    let shared = Shared {
        things: AtomicU64::new(0),
        seen: AtomicU64::new(0),
        met: AtomicU64::new(0),
        offered: Offered::new(0),
    };
    let (whole, _) = thread::join(
        rt,
        || hand_all(rt, &shared, rounds),
        || hand_all(rt, &shared, rounds),
    );
    (shared.seen.load(Ordering::SeqCst), whole)
}

// Hands a thing in each round: in how many rounds all was seen once both threads rested.
fn hand_all<R: Wait>(rt: &R, shared: &Shared, rounds: u64) -> u64 {
    let mut whole: u64 = 0;
    let mut meetings: u64 = 0;
    for _ in 0..rounds {
        meetings = meetings.saturating_add(2);
        meet(rt, &shared.met, meetings);
        hand_one(rt, shared);
        meetings = meetings.saturating_add(2);
        meet(rt, &shared.met, meetings);
        if shared.seen.load(Ordering::SeqCst) == meetings / 2 {
            whole = whole.saturating_add(1);
        }
    }
    whole
}

// Hands a thing and offers a turn, which sees how many there are.
fn hand_one<R: Wait>(rt: &R, shared: &Shared) {
    shared.things.fetch_add(1, Ordering::SeqCst);
    shared.offered.hand();
    shared.offered.offer(rt, |turns: &mut u64| {
        *turns = turns.saturating_add(1);
        let things = shared.things.load(Ordering::SeqCst);
        shared.seen.store(things, Ordering::SeqCst);
    });
}
