//! How a lock is taken that others hold for a moment.

use crossbeam_utils::Backoff;
use std::sync::{Mutex, MutexGuard, Wait};

/// How often a thread tries to take a lock before it sleeps.
const TRIES: u32 = 18;

/// Takes a lock that others hold for some microseconds at a time. It is tried for a while, some ten
/// microseconds, with growing pauses, before the thread sleeps: to sleep and to be woken takes
/// longer. Whoever lets the lock go wakes who sleeps.
pub fn lock_soon<'a, T, R: Wait>(rt: &R, mutex: &'a Mutex<T>) -> MutexGuard<'a, T> {
    let backoff = Backoff::new();
    for _ in 0..TRIES {
        if let Some(guard) = mutex.try_lock() {
            return guard;
        }
        backoff.spin();
    }
    mutex.lock(rt)
}
