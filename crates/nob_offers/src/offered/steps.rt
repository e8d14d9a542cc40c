//! Where a thread stands that offers a turn: each is a type that must be spent, and each step takes
//! one and gives the next.

ghost use Rattle.std.specs.Prelude.{◌≡◌};

use crate::offered::Offered;
use std::sync::MutexGuard;
use std::sync::atomic::Ordering;

/// A thread that has yet to offer.
pub struct Owes<'a, T> {
    offered: &'a Offered<T>,
}

/// A thread that has taken the lock, and not read the counter yet.
pub struct Took<'a, T> {
    offered: &'a Offered<T>,
    value: MutexGuard<'a, T>,
}

/// A thread that holds the turn, which began when so much was handed.
pub struct Turn<'a, T> {
    offered: &'a Offered<T>,
    value: MutexGuard<'a, T>,
    began: u64,
}

/// A thread that has given the turn back, and not looked yet.
pub struct Gave<'a, T> {
    offered: &'a Offered<T>,
    began: u64,
}

impl<'a, T> Owes<'a, T> {
    /// Comes to offer a turn.
    pub fn come(offered: &'a Offered<T>) -> Owes<'a, T> {
        Owes { offered }
    }

    /// Takes the lock, or rests where it is held.
    pub fn take(self) -> Option<Took<'a, T>> {
        let Owes { offered } = self;
        let value = offered.value.try_lock()?;
        Some(Took { offered, value })
    }
}

impl<'a, T> Took<'a, T> {
    /// Reads the counter, and the turn begins.
    pub fn begin(self) -> Turn<'a, T> {
        let Took { offered, value } = self;
        let began = offered.handed.load(Ordering::SeqCst);
        Turn {
            offered,
            value,
            began,
        }
    }
}

impl<'a, T> Turn<'a, T> {
    /// The value, for the turn to work on.
    pub fn value(&mut self) -> &mut T {
        &mut self.value
    }

    /// Gives the turn back, and lets go of the lock.
    pub fn give_back(self) -> Gave<'a, T>
        ensures { result.began ≡ self.entry.began }
    {
        let Turn {
            offered,
            value,
            began,
        } = self;
        drop(value);
        Gave { offered, began }
    }
}

impl<'a, T> Gave<'a, T> {
    /// Looks at the counter, and rests where it hasn't moved since the turn began.
    pub fn look(self) -> Option<Owes<'a, T>> {
        let Gave { offered, began } = self;
        if offered.handed.load(Ordering::SeqCst) == began {
            return None;
        }
        Some(Owes { offered })
    }
}
