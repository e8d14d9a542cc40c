//! For how long the threads of a node look for what they wait for.

ghost use Rattle.std.specs.Prelude.{◌≡◌};
ghost use Rattle.nob_node_parts.specs.Searches as searches;
ghost use Rattle.nob_node_parts.specs.Wary as wary;

use crate::search::{Manner, Search};
use crossbeam_utils::CachePadded;
use std::sync::atomic::{AtomicU64, Ordering};

/// On so many processors, or fewer, who looks keeps from theirs those for whom he waits.
const FEW_PROCESSORS: usize = 2;

/// How a thread looks there: it yields after every second look.
const YIELDING: Manner = Manner {
    looks: 400,
    stretch: 2,
    rests: 0,
};

/// How a thread looks elsewhere.
const PATIENT: Manner = Manner {
    looks: 1_000,
    stretch: 200,
    rests: 3,
};

/// How one looks there that waits for a reply.
const BRISK: Manner = Manner {
    looks: 500,
    stretch: 200,
    rests: 3,
};

/// How one does that is wary: it leaves the processor to others almost at once.
const WARY: Manner = Manner {
    looks: 10,
    stretch: 200,
    rests: 8,
};

/// A reply took long that was looked for more often than this.
const QUICK_LOOKS: u32 = 350;

/// For twice as many replies, and two, callers are wary at most.
const MAX_LAST: u64 = 31;

/// For how many replies callers are wary, since replies took long lately.
#[derive(Clone, Copy, Debug, PartialEq, Eq)]
pub struct Wariness {
    /// For how many more.
    pub left: u64,
    /// For how many they were since one took long last; half as many after each that didn't.
    pub last: u64,
}

impl Wariness {
    /// Whether they are wary now.
    pub fn is_wary(&self) -> bool
        ensures { result ≡ wary.is_wary self.now }
    {
        self.left > 0
    }

    /// Whether a reply took long that was found by this search, or wasn't found.
    fn is_long(&self, found: &Option<Search>) -> bool
        ensures { result ≡ wary.is_long self.now found.now }
    {
        match found {
            None => true,
            Some(search) if self.is_wary() => search.has_rested_twice(),
            Some(search) => search.is_past(QUICK_LOOKS),
        }
    }

    /// After a reply that was found by this search, or wasn't found.
    pub fn after(&self, found: &Option<Search>) -> Wariness
        ensures { result ≡ wary.after self.now found.now }
    {
        match (self.is_wary(), self.is_long(found)) {
            (true, true) => *self,
            (true, false) => Wariness {
                left: self.left - 1,
                last: self.last,
            },
            (false, true) => {
                let more = self.last.min(MAX_LAST) * 2 + 2;
                Wariness {
                    left: more,
                    last: more,
                }
            }
            (false, false) => Wariness {
                left: 0,
                last: self.last / 2,
            },
        }
    }
}

/// For how long the threads of a node look for what they wait for, and how.
#[derive(Drop)]
pub struct Patience {
    // Whether there are so few processors that a thread that looks yields its all the time.
    yields: bool,
    // Of the callers' wariness: for how many more replies, and for how many it was last.
    left: CachePadded<AtomicU64>,
    last: CachePadded<AtomicU64>,
}

impl Patience {
    /// On so many processors.
    pub fn new(processors: usize) -> Patience
        ensures { result.yields ≡ searches.are_few processors }
    {
        Patience {
            yields: processors <= FEW_PROCESSORS,
            left: CachePadded::new(AtomicU64::new(0)),
            last: CachePadded::new(AtomicU64::new(0)),
        }
    }

    /// How wary callers are now.
    pub fn wariness(&self) -> Wariness {
        Wariness {
            left: self.left.load(Ordering::SeqCst),
            last: self.last.load(Ordering::SeqCst),
        }
    }

    /// A wait for a reply has ended, before which callers were so wary: it was found by this search,
    /// or wasn't found.
    pub fn note(&self, before: Wariness, found: &Option<Search>) {
        let after = before.after(found);
        if after != before {
            self.left.store(after.left, Ordering::SeqCst);
            self.last.store(after.last, Ordering::SeqCst);
        }
    }

    /// How a thread looks for what isn't a reply, or for a reply once something else has come.
    pub fn manner(&self) -> Manner
        ensures { result ≡ searches.manner_on self.now.yields }
    {
        if self.yields { YIELDING } else { PATIENT }
    }

    /// How a thread looks for a reply, where callers are so wary.
    pub fn manner_for_reply(&self, wariness: Wariness) -> Manner
        ensures { result ≡ wary.manner_on self.now.yields wariness }
    {
        if self.yields {
            YIELDING
        } else if wariness.is_wary() {
            WARY
        } else {
            BRISK
        }
    }
}
