//! For how long calls are waited for, and how many others are served meanwhile.

use std::sync::atomic::{AtomicU64, Ordering};
use std::time::{Clock, Instant};

/// How a call was waited for.
#[derive(Clone, Copy, Debug)]
pub(crate) struct Waited {
    /// For how many nanoseconds.
    pub(crate) nanos: u64,
    /// How many other calls were answered meanwhile.
    pub(crate) others: u64,
}

/// When a call was begun, and how many calls were answered by then.
#[derive(Clone, Copy, Debug)]
pub(crate) struct Began {
    at: Option<Instant>,
    served: u64,
}

/// What times the calls of a caller, beside those of others.
#[derive(Drop)]
pub(crate) struct Timer<'c, 's, C: Clock> {
    clock: &'c C,
    // How many timed calls of all callers were answered.
    served: &'s AtomicU64,
}

impl<'c, 's, C: Clock> Timer<'c, 's, C> {
    // The one of a clock, and of a count that all callers share.
    pub(crate) fn new(clock: &'c C, served: &'s AtomicU64) -> Timer<'c, 's, C> {
        Timer { clock, served }
    }

    // A call begins.
    pub(crate) fn begin(&self) -> Began {
        Began {
            at: Instant::now(self.clock).ok(),
            served: self.served.load(Ordering::SeqCst),
        }
    }

    // A call is answered: how it was waited for, if the clock can be read.
    pub(crate) fn end(&self, began: Began) -> Option<Waited> {
        let served = self.served.fetch_add(1, Ordering::SeqCst);
        let waited = began.at?.elapsed(self.clock).ok()?;
        Some(Waited {
            nanos: u64::try_from(waited.as_nanos()).ok()?,
            others: served.saturating_sub(began.served),
        })
    }
}
