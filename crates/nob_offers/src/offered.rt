//! A value whose turns any thread may run.

mod steps;

use std::sync::atomic::{AtomicU64, Ordering};
use std::sync::{Mutex, Wait};
use steps::Owes;

/// A value with the count of what was handed to it.
#[derive(Drop)]
pub struct Offered<T> {
    handed: AtomicU64,
    value: Mutex<T>,
}

impl<T> Offered<T> {
    /// The value, with nothing handed.
    pub fn new(value: T) -> Offered<T> {
        Offered {
            handed: AtomicU64::new(0),
            value: Mutex::new(value),
        }
    }

    /// Says that something was handed, which stands where a turn finds it. Who hands offers next.
    pub fn hand(&self) {
        self.handed.fetch_add(1, Ordering::SeqCst);
    }

    /// Runs turns until the counter stands where it stood when the last of them began, or leaves
    /// what was handed to the thread that has the turn.
    pub fn offer<R: Wait, F: FnMut(&mut T)>(&self, rt: &R, mut turn: F)
        requires { F.IsAlwaysCallable turn }
    {
        let mut owes = Owes::come(self);
        for _ in rt.forever() {
            let Some(took) = owes.take() else {
                return;
            };
            let mut held = took.begin();
            turn(held.value());
            let Some(more) = held.give_back().look() else {
                return;
            };
            owes = more;
        }
        unreachable!()
    }

    /// The value, once all threads are done with it.
    pub fn into_inner(self) -> T {
        let Offered { handed: _, value } = self;
        value.into_inner()
    }
}
