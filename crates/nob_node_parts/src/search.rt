//! How a thread looks for what it waits for before it sleeps.

ghost use Rattle.std.specs.Prelude.{◌≡◌};
ghost use Rattle.nob_node_parts.specs.Searches as searches;

/// How often a thread looks between two rests.
const LOOKS_BETWEEN: u32 = 2;

/// For how many microseconds it rests first, and for how many more each time. The system adds some fifty.
const FIRST_REST: u64 = 8;

const MORE_REST: u64 = 12;

/// How a thread looks for what it waits for.
#[derive(Clone, Copy, Debug, PartialEq, Eq)]
pub struct Manner {
    /// How often it looks before it rests.
    pub looks: u32,
    /// After how many looks it yields the processor.
    pub stretch: u32,
    /// How often it rests before it sleeps.
    pub rests: u32,
}

/// What a thread does whose look found nothing.
#[derive(Clone, Copy, Debug, PartialEq, Eq)]
pub enum LookStep {
    /// It looks again at once.
    Look,
    /// It yields the processor, and looks again.
    Yield,
    /// It rests for so many microseconds, and looks again.
    Rest(u64),
    /// It sleeps. Who brings what it waits for wakes it.
    Sleep,
}

/// How often a thread has looked since anything came, and rested between its looks.
#[derive(Clone, Copy, Debug, PartialEq, Eq)]
pub struct Search {
    manner: Manner,
    looks: u32,
    rests: u32,
}

impl Search {
    /// It hasn't looked yet.
    pub fn new(manner: Manner) -> Search
        ensures { result ≡ searches.begun manner }
    {
        Search {
            manner,
            looks: 0,
            rests: 0,
        }
    }

    /// After a look that found nothing: what the thread does next.
    pub fn next(&mut self) -> LookStep
        ensures step { result ≡ searches.step_after self.old }
        ensures search { self.new ≡ searches.later self.old }
    {
        if self.looks < self.manner.looks {
            self.looks += 1;
            return match self.looks.checked_rem(self.manner.stretch) {
                Some(0) => LookStep::Yield,
                _ => LookStep::Look,
            };
        }
        if self.rests < self.manner.rests {
            let rest = FIRST_REST + MORE_REST * u64::from(self.rests);
            self.rests += 1;
            self.looks = self.looks.saturating_sub(LOOKS_BETWEEN);
            return LookStep::Rest(rest);
        }
        LookStep::Sleep
    }

    /// Whether it looked more often than this, or rested.
    pub fn is_past(&self, looks: u32) -> bool
        ensures { result ≡ searches.is_past self.now looks }
    {
        self.rests > 0 || self.looks > looks
    }

    /// Whether it rested more than once.
    pub fn has_rested_twice(&self) -> bool
        ensures { result ≡ searches.has_rested_twice self.now }
    {
        self.rests > 1
    }
}
