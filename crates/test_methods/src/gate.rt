//! A gate that counts.

use nob_ids::JobNo;
use nob_nodes::Gate;
use std::sync::atomic::{AtomicU64, Ordering};

/// A gate that counts how many jobs entered it, and how many left.
#[derive(Drop)]
pub(crate) struct Counts {
    entered: AtomicU64,
    left: AtomicU64,
}

impl Counts {
    // None yet.
    pub(crate) fn new() -> Counts {
        Counts {
            entered: AtomicU64::new(0),
            left: AtomicU64::new(0),
        }
    }

    // Whether each job that entered has left.
    pub(crate) fn are_even(&self) -> bool {
        self.entered.load(Ordering::SeqCst) == self.left.load(Ordering::SeqCst)
    }
}

impl Gate for Counts {
    fn enter(&self, _job: JobNo) {
        self.entered.fetch_add(1, Ordering::SeqCst);
    }

    fn leave(&self, _job: JobNo) {
        self.left.fetch_add(1, Ordering::SeqCst);
    }
}
