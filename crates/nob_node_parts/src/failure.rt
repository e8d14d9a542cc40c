//! Whether a node has failed.

use std::sync::atomic::{AtomicBool, Ordering};

/// Whether a node has failed: its trace is full, or a thread couldn't be made. It doesn't recover.
#[derive(Drop)]
pub struct Failure {
    has_come: AtomicBool,
}

impl Failure {
    /// It hasn't.
    pub fn new() -> Failure {
        Failure {
            has_come: AtomicBool::new(false),
        }
    }

    /// It has failed.
    pub fn come(&self) {
        self.has_come.store(true, Ordering::SeqCst);
    }

    /// Whether it has failed.
    pub fn has_come(&self) -> bool {
        self.has_come.load(Ordering::SeqCst)
    }
}
