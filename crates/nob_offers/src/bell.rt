//! A bell, by which one thread sleeps while there is nothing to take, and others may look in its
//! place.

mod steps;

use std::sync::atomic::{AtomicU64, Ordering};
use steps::{Came, Rang, Up};

/// A bell of one sleeper.
#[derive(Drop)]
pub struct Bell {
    rings: AtomicU64,
    driven: AtomicU64,
}

impl Bell {
    /// A bell that has not rung, and with nobody who looks.
    pub fn new() -> Bell {
        Bell {
            rings: AtomicU64::new(0),
            driven: AtomicU64::new(0),
        }
    }

    /// Rings after a put. Where nobody looks it wakes the sleeper.
    pub fn ring(&self) {
        let Some(calls) = Rang::ring(self).look() else {
            return;
        };
        calls.wake();
    }

    /// Comes to look in the sleeper's place.
    pub fn come(&self) -> Came<'_> {
        Came::come(self)
    }

    /// The sleeper, awake.
    pub fn sleeper(&self) -> Up<'_> {
        Up::new(self)
    }

    // How often it has rung.
    fn rings(&self) -> u64 {
        self.rings.load(Ordering::SeqCst)
    }
}
