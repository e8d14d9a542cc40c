//! A thread that puts, one that comes to look, and one that sleeps while there is nothing.

use crate::meeting::{meet, wait};
use nob_offers::Bell;
use std::sync::Wait;
use std::sync::atomic::{AtomicU64, Ordering};
use std::thread::{self, Threads};

// What the threads share: what lies there, what was taken, how often two of them met, how many are
// done, and the bell.
#[derive(Drop)]
struct Shared {
    lying: AtomicU64,
    taken: AtomicU64,
    met: AtomicU64,
    done: AtomicU64,
    bell: Bell,
}

/// How many things were taken once all rounds are over. In each round one thing is put, while
/// another thread looks, and both wait until it is taken: by that one, or by the sleeper.
pub fn taken<R: Threads + Wait + Sync>(rt: &R, rounds: u64) -> u64 {
    let shared = Shared {
        lying: AtomicU64::new(0),
        taken: AtomicU64::new(0),
        met: AtomicU64::new(0),
        done: AtomicU64::new(0),
        bell: Bell::new(),
    };
    let (_, _) = thread::join(
        rt,
        || sleep_and_take(rt, &shared),
        || put_and_look(rt, &shared, rounds),
    );
    shared.taken.load(Ordering::SeqCst)
}

// Two threads, of which one puts and one looks.
fn put_and_look<R: Threads + Wait + Sync>(rt: &R, shared: &Shared, rounds: u64) {
    let (_, _) = thread::join(
        rt,
        || put_all(rt, shared, rounds),
        || look_often(rt, shared, rounds),
    );
}

// Puts a thing in each round, and rings.
fn put_all<R: Wait>(rt: &R, shared: &Shared, rounds: u64) {
    for round in 1..=rounds {
        meet(rt, &shared.met, round.saturating_mul(2));
        shared.lying.fetch_add(1, Ordering::SeqCst);
        shared.bell.ring();
        wait(rt, &shared.taken, round);
    }
    end(shared);
}

// Comes, looks and leaves in each round.
fn look_often<R: Wait>(rt: &R, shared: &Shared, rounds: u64) {
    for round in 1..=rounds {
        meet(rt, &shared.met, round.saturating_mul(2));
        let looks = shared.bell.come().read();
        take_all(shared);
        looks.found_none().leave();
        wait(rt, &shared.taken, round);
    }
    end(shared);
}

// Is done, and rings to say so.
fn end(shared: &Shared) {
    shared.done.fetch_add(1, Ordering::SeqCst);
    shared.bell.ring();
}

// Takes all that lies there.
fn take_all(shared: &Shared) {
    let took = shared.lying.swap(0, Ordering::SeqCst);
    shared.taken.fetch_add(took, Ordering::SeqCst);
}

// Takes what lies there, and sleeps while there is nothing, until both other threads are done.
fn sleep_and_take<R: Wait>(rt: &R, shared: &Shared) {
    let mut sleeper = shared.bell.sleeper();
    for _ in rt.forever() {
        let looks = sleeper.read();
        let done = shared.done.load(Ordering::SeqCst);
        take_all(shared);
        if done == 2 {
            return;
        }
        sleeper = looks.sleep(rt);
    }
}
