//! Numbers that look random, from a seed.

/// Numbers that look random, from a seed.
#[derive(Clone, Copy)]
pub(crate) struct Chance {
    state: u64,
}

impl Chance {
    // Those of a seed, and of one of the many that go by it.
    pub(crate) fn new(seed: u64, which: u64) -> Chance {
        Chance {
            state: mixed(seed.wrapping_add(mixed(which))),
        }
    }

    // The next one, below a bound: 0 where the bound is 0.
    pub(crate) fn below(&mut self, bound: u64) -> u64 {
        self.state = self.state.wrapping_add(0x9e37_79b9_7f4a_7c15);
        mixed(self.state).checked_rem(bound).unwrap_or(0)
    }

    // The next one, from one number to another.
    pub(crate) fn between(&mut self, least: u64, most: u64) -> u64 {
        let numbers = most.saturating_sub(least).saturating_add(1);
        least.saturating_add(self.below(numbers))
    }

    // The next one, from one small number to another.
    pub(crate) fn small_between(&mut self, least: u8, most: u8) -> u8 {
        let drawn = self.between(u64::from(least), u64::from(most));
        u8::try_from(drawn).unwrap_or(most)
    }

    // The next one, a place in a list that is so long.
    pub(crate) fn place_in(&mut self, length: usize) -> usize {
        let drawn = self.below(u64::try_from(length).unwrap_or(u64::MAX));
        usize::try_from(drawn).unwrap_or(0)
    }

    // Whether something is so that is so as often of a hundred times.
    pub(crate) fn is_so(&mut self, of_hundred: u64) -> bool {
        self.below(100) < of_hundred
    }
}

// The bits of a number, mixed.
fn mixed(number: u64) -> u64 {
    let one = (number ^ (number >> 30)).wrapping_mul(0xbf58_476d_1ce4_e5b9);
    let two = (one ^ (one >> 27)).wrapping_mul(0x94d0_49bb_1331_11eb);
    two ^ (two >> 31)
}
