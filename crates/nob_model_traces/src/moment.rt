//! When something happened.

ghost use Rattle.std.specs.Prelude.{◌≡◌};
ghost use Rattle.nob_model_traces.specs.Merged as words;

use nob_ids::SpaceId;

/// When an entry was made: entries stand in order of stamp, and those of one stamp in order of
/// space.
#[derive(Clone, Copy, Debug)]
pub struct Moment {
    /// The stamp.
    pub stamp: u64,
    /// The space.
    pub space: SpaceId,
}

impl Moment {
    /// Whether it is earlier than another.
    pub fn is_earlier(self, other: Moment) -> bool
        ensures { result ≡ words.is_earlier self other }
    {
        self.stamp < other.stamp
            || (self.stamp == other.stamp && self.space.get() < other.space.get())
    }
}
