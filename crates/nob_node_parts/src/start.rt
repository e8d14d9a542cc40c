//! How a node starts.

use std::sync::{Condvar, Mutex, Wait};

/// Whether all threads of a node are made, once that is known.
#[derive(Drop)]
pub struct Start {
    is_whole: Mutex<Option<bool>>,
    said: Condvar,
}

impl Start {
    /// It isn't known yet.
    pub fn new() -> Start {
        Start {
            is_whole: Mutex::new(None),
            said: Condvar::new(),
        }
    }

    /// Says whether all threads are made.
    pub fn say<R: Wait>(&self, rt: &R, is_whole: bool) {
        let mut held = self.is_whole.lock(rt);
        *held = Some(is_whole);
        drop(held);
        self.said.notify_all();
    }

    /// Waits until it is said whether all threads are made. Who says it wakes it.
    pub fn wait<R: Wait>(&self, rt: &R) -> bool {
        let held = self
            .said
            .wait_while(rt, self.is_whole.lock(rt), |held| held.is_none());
        match *held {
            Some(is_whole) => is_whole,
            None => false,
        }
    }
}
