//! Threads that begin together.

use std::hint::spin_loop;
use std::sync::Wait;
use std::sync::atomic::{AtomicU64, Ordering};
use std::thread;

// How often a thread looks before it leaves its processor to others.
const LOOKS: u64 = 2000;

/// Waits until a count has come so far.
pub fn wait<R: Wait>(rt: &R, count: &AtomicU64, far: u64) {
    let mut looks = 0;
    for _ in rt.forever() {
        if count.load(Ordering::SeqCst) >= far {
            return;
        }
        if looks < LOOKS {
            looks += 1;
            spin_loop();
        } else {
            thread::yield_now();
        }
    }
}

/// Comes to a meeting, and waits until so many have come to it and to those before.
pub fn meet<R: Wait>(rt: &R, come: &AtomicU64, all: u64) {
    come.fetch_add(1, Ordering::SeqCst);
    wait(rt, come, all);
}
