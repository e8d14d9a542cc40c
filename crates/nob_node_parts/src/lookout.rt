//! Threads without work that look at the links.

use crossbeam_utils::CachePadded;
use std::sync::Wait;
use std::sync::atomic::{AtomicU64, Ordering};
use std::time::Duration;

/// For how many microseconds the thread of a link rests at most while others look at the links.
const REST: u64 = 100;

/// For how many it does where they come to look all the time.
const LONG_REST: u64 = 500;

/// Threads without work that look at the links while they wait. The thread of a link rests meanwhile: it
/// takes what comes over the link again once nobody looked for a rest, or the last one who looked goes to
/// sleep.
#[derive(Drop)]
pub struct Lookout {
    // How many look.
    present: CachePadded<AtomicU64>,
    // How many have begun to look.
    comes: CachePadded<AtomicU64>,
    // How often nobody looked any more.
    bell: CachePadded<AtomicU64>,
}

impl Lookout {
    /// Nobody looks, nor has looked.
    pub fn new() -> Lookout {
        Lookout {
            present: CachePadded::new(AtomicU64::new(0)),
            comes: CachePadded::new(AtomicU64::new(0)),
            bell: CachePadded::new(AtomicU64::new(0)),
        }
    }

    /// Comes to look. Who comes leaves.
    pub fn come(&self) {
        self.present.fetch_add(1, Ordering::SeqCst);
        self.comes.fetch_add(1, Ordering::SeqCst);
    }

    /// Leaves. Who goes on with work comes back soon; else, where nobody looks any more, the threads of
    /// the links are woken.
    pub fn leave(&self, has_work: bool) {
        let before = self.present.fetch_sub(1, Ordering::SeqCst);
        if before == 1 && !has_work {
            self.bell.fetch_add(1, Ordering::SeqCst);
            self.bell.wake_all();
        }
    }

    /// Whether somebody looks, or has begun to since so many had.
    pub fn is_kept(&self, comes: u64) -> bool {
        self.present.load(Ordering::SeqCst) > 0 || self.comes() != comes
    }

    /// How many have begun to look.
    pub fn comes(&self) -> u64 {
        self.comes.load(Ordering::SeqCst)
    }

    /// How often nobody looked any more.
    pub fn bell(&self) -> u64 {
        self.bell.load(Ordering::SeqCst)
    }

    /// Rests, for longer where that is said, where nobody who looked went to sleep since the bell was
    /// read. Nobody has to wake it.
    pub fn rest<R: Wait>(&self, rt: &R, bell: u64, is_long: bool) {
        let rest = if is_long { LONG_REST } else { REST };
        self.park(rt, bell, rest);
    }

    /// One who looks rests for so many microseconds. Nobody has to wake it.
    pub fn pause<R: Wait>(&self, rt: &R, micros: u64) {
        let bell = self.bell();
        self.park(rt, bell, micros);
    }

    // Rests for so many microseconds at most, where the bell didn't ring since it was read.
    fn park<R: Wait>(&self, rt: &R, bell: u64, micros: u64) {
        self.bell.park_timeout(rt, (bell % (1 << 32)) as u32, Duration::from_micros(micros));
    }
}
