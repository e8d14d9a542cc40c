//! Words that look random: x(0) is the seed, each x is made of the one before, and a word is x
//! divided by 2^33.

ghost use Rattle.std.specs.Prelude.{◌≡◌};
ghost use Rattle.nob_rounds.specs.Row as row;

// The factor and the summand of the step from one to the next.
const FACTOR: u64 = 6_364_136_223_846_793_005;

const SUMMAND: u64 = 1_442_695_040_888_963_407;

/// A row of words.
#[derive(Drop)]
pub struct Words {
    x: u64,
}

impl Words {
    /// The row of a seed.
    pub fn new(seed: u64) -> Words
        ensures { result.x ≡ seed }
    {
        Words { x: seed }
    }

    /// The next word, as a number below this one; 0 where that is 0.
    pub fn below(&mut self, count: u64) -> u64
        ensures row { self.new.x ≡ row.next self.old.x }
        ensures word { result ≡ row.below count (row.next self.old.x) }
    {
        self.x = self.x.wrapping_mul(FACTOR).wrapping_add(SUMMAND);
        if count == 0 {
            return 0;
        }
        (self.x >> 33) % count
    }
}
