//! A turn that may be refused for want of room, and is tried again.

mod note;
mod steps;

use std::sync::atomic::{AtomicBool, Ordering};
pub use steps::Tries;

/// Whether the last turn was refused something, which is to be tried again. Only who has the turn
/// notes that; whoever makes room asks, and takes a turn where it is so.
#[derive(Drop)]
pub struct Retry {
    is_noted: AtomicBool,
}

impl Retry {
    /// Nothing was refused.
    pub fn new() -> Retry {
        Retry {
            is_noted: AtomicBool::new(false),
        }
    }

    /// Whether something was refused. Whoever makes room asks next, and takes a turn where it is so.
    pub fn is_late(&self) -> bool {
        self.is_noted.load(Ordering::SeqCst)
    }

    /// A turn begins. Its caller is the only one who has it.
    pub fn begin(&self) -> Tries<'_> {
        Tries::begin(self)
    }
}
