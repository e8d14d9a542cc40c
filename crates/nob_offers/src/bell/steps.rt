//! Where a thread stands that rings a bell, looks in the sleeper's place, or sleeps: each is a type,
//! and each step takes one and gives the next. Who rings or looks must spend what it has.

ghost use Rattle.std.specs.Prelude.{◌≡◌};

use crate::bell::Bell;
use std::sync::Wait;
use std::sync::atomic::Ordering;

/// A thread that has rung, and not asked yet whether anybody looks.
pub struct Rang<'a> {
    bell: &'a Bell,
}

/// A thread that has yet to wake the sleeper.
pub struct Calls<'a> {
    bell: &'a Bell,
}

/// A thread that is counted among those that look, and no look of its own counts.
pub struct Came<'a> {
    bell: &'a Bell,
}

/// A thread that is counted, and read the rings when there were so many.
pub struct Read<'a> {
    bell: &'a Bell,
    rings: u64,
}

/// A thread that is counted, and found nothing more after it read so many rings.
pub struct Took<'a> {
    bell: &'a Bell,
    rings: u64,
}

/// A thread that is no longer counted, and has yet to look whether there are more rings than these.
pub struct Left<'a> {
    bell: &'a Bell,
    rings: u64,
}

/// The sleeper, awake.
#[derive(Drop)]
pub struct Up<'a> {
    bell: &'a Bell,
}

/// The sleeper, which read the rings when there were so many.
#[derive(Drop)]
pub struct HasRead<'a> {
    bell: &'a Bell,
    rings: u64,
}

impl<'a> Rang<'a> {
    /// Rings.
    pub fn ring(bell: &'a Bell) -> Rang<'a> {
        bell.rings.fetch_add(1, Ordering::SeqCst);
        Rang { bell }
    }

    /// Rests where somebody looks.
    pub fn look(self) -> Option<Calls<'a>> {
        let Rang { bell } = self;
        if bell.driven.load(Ordering::SeqCst) != 0 {
            return None;
        }
        Some(Calls { bell })
    }
}

impl<'a> Calls<'a> {
    /// Wakes the sleeper.
    pub fn wake(self) {
        let Calls { bell } = self;
        bell.rings.wake_one();
    }
}

impl<'a> Came<'a> {
    /// Comes to look, and is counted.
    pub fn come(bell: &'a Bell) -> Came<'a> {
        bell.driven.fetch_add(1, Ordering::SeqCst);
        Came { bell }
    }

    /// Reads the rings, before it looks.
    pub fn read(self) -> Read<'a> {
        let Came { bell } = self;
        Read {
            bell,
            rings: bell.rings(),
        }
    }

    /// Leaves with no look that counts, and wakes the sleeper.
    pub fn leave(self) {
        let Came { bell } = self;
        bell.driven.fetch_sub(1, Ordering::SeqCst);
        Calls { bell }.wake();
    }
}

impl<'a> Read<'a> {
    /// What it looks at was another's, so what it read doesn't count.
    pub fn missed(self) -> Came<'a> {
        let Read { bell, rings: _ } = self;
        Came { bell }
    }

    /// It found nothing more there.
    pub fn found_none(self) -> Took<'a>
        ensures { result.rings ≡ self.entry.rings }
    {
        let Read { bell, rings } = self;
        Took { bell, rings }
    }
}

impl<'a> Took<'a> {
    /// Looks once more.
    pub fn look_again(self) -> Came<'a> {
        let Took { bell, rings: _ } = self;
        Came { bell }
    }

    /// Leaves, and wakes the sleeper where it has rung since the rings were read.
    pub fn leave(self) {
        let Some(calls) = self.go().look() else {
            return;
        };
        calls.wake();
    }

    // Is no longer counted.
    fn go(self) -> Left<'a>
        ensures { result.rings ≡ self.entry.rings }
    {
        let Took { bell, rings } = self;
        bell.driven.fetch_sub(1, Ordering::SeqCst);
        Left { bell, rings }
    }
}

impl<'a> Left<'a> {
    // Rests where it hasn't rung since the rings were read.
    fn look(self) -> Option<Calls<'a>> {
        let Left { bell, rings } = self;
        if bell.rings() == rings {
            return None;
        }
        Some(Calls { bell })
    }
}

impl<'a> Up<'a> {
    /// The sleeper of a bell, which has one.
    pub fn new(bell: &'a Bell) -> Up<'a> {
        Up { bell }
    }

    /// Reads the rings, before it looks.
    pub fn read(self) -> HasRead<'a> {
        let Up { bell } = self;
        HasRead {
            bell,
            rings: bell.rings(),
        }
    }
}

impl<'a> HasRead<'a> {
    /// It found nothing more there: it sleeps where the bell hasn't rung since the rings were read,
    /// until it is woken, or for no reason.
    pub fn sleep<R: Wait>(self, rt: &R) -> Up<'a> {
        let HasRead { bell, rings } = self;
        bell.rings.park(rt, (rings % (1 << 32)) as u32);
        Up { bell }
    }
}
