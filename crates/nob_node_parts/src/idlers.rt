//! Workers without a job.

use crossbeam_utils::CachePadded;
use std::sync::Wait;
use std::sync::atomic::{AtomicBool, AtomicU64, Ordering};

/// The maximum number of workers that look for an errand at a time; the others sleep.
const MAX_LOOKERS: u64 = 1;

/// Workers without a job: some look for an errand, and the others sleep. Who gives an errand wakes one
/// that sleeps, unless one looks; who took an errand, and leaves others, does so too.
#[derive(Drop)]
pub struct Idlers {
    // How many errands were given and not taken.
    errands: CachePadded<AtomicU64>,
    // How many workers look, or are about to.
    lookers: CachePadded<AtomicU64>,
    // How often an errand was given.
    rings: CachePadded<AtomicU64>,
    // Whether no errand comes any more.
    is_over: AtomicBool,
}

impl Idlers {
    /// None, and no errand.
    pub fn new() -> Idlers {
        Idlers {
            errands: CachePadded::new(AtomicU64::new(0)),
            lookers: CachePadded::new(AtomicU64::new(0)),
            rings: CachePadded::new(AtomicU64::new(0)),
            is_over: AtomicBool::new(false),
        }
    }

    /// An errand was given.
    pub fn give(&self) {
        self.errands.fetch_add(1, Ordering::SeqCst);
        self.rings.fetch_add(1, Ordering::SeqCst);
        if self.lookers.load(Ordering::SeqCst) == 0 {
            self.rings.wake_one();
        }
    }

    /// An errand was taken. If one is left, and nobody looks, one that sleeps is woken for it.
    pub fn take(&self) {
        let before = self.errands.fetch_sub(1, Ordering::SeqCst);
        if before > 1 && self.lookers.load(Ordering::SeqCst) == 0 {
            self.rings.wake_one();
        }
    }

    /// Whether there is an errand.
    pub fn has_errand(&self) -> bool {
        self.errands.load(Ordering::SeqCst) > 0
    }

    /// Comes to look, or says that it will. Who comes leaves, and then tries to take an errand.
    pub fn come(&self) {
        self.lookers.fetch_add(1, Ordering::SeqCst);
    }

    /// Looks no more.
    pub fn leave(&self) {
        self.lookers.fetch_sub(1, Ordering::SeqCst);
    }

    /// Whether as many look as may.
    pub fn is_full(&self) -> bool {
        self.lookers.load(Ordering::SeqCst) >= MAX_LOOKERS
    }

    /// How often an errand was given. It is read before a try to take one that fails.
    pub fn rings(&self) -> u64 {
        self.rings.load(Ordering::SeqCst)
    }

    /// Sleeps where no errand was given since so many rings were read, until it is woken, or for no
    /// reason.
    pub fn sleep<R: Wait>(&self, rt: &R, rings: u64) {
        self.rings.park(rt, (rings % (1 << 32)) as u32);
    }

    /// No errand comes any more: all wake.
    pub fn end(&self) {
        self.is_over.store(true, Ordering::SeqCst);
        self.rings.fetch_add(1, Ordering::SeqCst);
        self.rings.wake_all();
    }

    /// Whether no errand comes any more.
    pub fn is_over(&self) -> bool {
        self.is_over.load(Ordering::SeqCst)
    }
}
