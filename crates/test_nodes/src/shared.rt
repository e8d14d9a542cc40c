//! What the threads of a scene share.

use nob_ids::JobNo;
use nob_nodes::Gate;
use std::sync::Wait;
use std::sync::atomic::{AtomicBool, Ordering};
use std::thread;

/// How often a job that is held up looks whether it may go on: more than a run takes.
const MAX_LOOKS: u64 = 1_000_000_000_000;

/// What the threads of a scene share. As a gate it holds the next job up, once it is told to.
#[derive(Drop)]
pub(crate) struct Shared {
    holds_next: AtomicBool,
    is_held: AtomicBool,
    // Whether no job will be held up any more.
    is_over: AtomicBool,
    // Whether the application that has the objects has left.
    has_left: AtomicBool,
}

impl Shared {
    pub(crate) fn new() -> Shared {
        Shared {
            holds_next: AtomicBool::new(false),
            is_held: AtomicBool::new(false),
            is_over: AtomicBool::new(false),
            has_left: AtomicBool::new(false),
        }
    }

    // The next job is held up.
    pub(crate) fn hold_next(&self) {
        self.holds_next.store(true, Ordering::SeqCst);
    }

    // Waits until a job is held up, or none will be.
    pub(crate) fn wait_held<R: Wait>(&self, rt: &R) {
        wait_for(rt, &self.is_held, &self.is_over);
    }

    // Whether a job is held up, or none will be any more.
    pub(crate) fn is_held(&self) -> bool {
        self.is_held.load(Ordering::SeqCst) || self.is_over.load(Ordering::SeqCst)
    }

    // The job that is held up goes on.
    pub(crate) fn open(&self) {
        self.is_held.store(false, Ordering::SeqCst);
    }

    // No job will be held up any more.
    pub(crate) fn end_holding(&self) {
        self.is_over.store(true, Ordering::SeqCst);
        self.open();
    }

    // The application that has the objects has left.
    pub(crate) fn note_left(&self) {
        self.has_left.store(true, Ordering::SeqCst);
    }

    // Waits until the application that has the objects has left.
    pub(crate) fn wait_left<R: Wait>(&self, rt: &R) {
        wait_for(rt, &self.has_left, &self.has_left);
    }
}

// Waits until one of two is so.
fn wait_for<R: Wait>(rt: &R, one: &AtomicBool, other: &AtomicBool) {
    for _ in rt.forever() {
        if one.load(Ordering::SeqCst) || other.load(Ordering::SeqCst) {
            return;
        }
        thread::yield_now();
    }
}

impl Gate for Shared {
    fn enter(&self, _job: JobNo) {
        if !self.holds_next.swap(false, Ordering::SeqCst) {
            return;
        }
        self.is_held.store(true, Ordering::SeqCst);
        for _ in 0..MAX_LOOKS {
            if !self.is_held.load(Ordering::SeqCst) {
                return;
            }
            thread::yield_now();
        }
    }

    fn leave(&self, _job: JobNo) {}
}
