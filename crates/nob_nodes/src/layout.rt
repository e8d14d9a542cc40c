//! How nodes run, and what the links between them do.

ghost use Rattle.std.specs.Prelude.{◌≡◌, IfSome};
ghost use Rattle.nob_nodes.specs.Layouts.{IsLaidOut};

use nob_ids::{Limits, SpaceId};
use nob_node::{Config, Keep};

/// How the nodes of a program run, each in the same way, and what the links between them do.
#[derive(Clone, Copy, Debug)]
pub struct Layout {
    /// The limits of all sessions.
    pub limits: Limits,
    /// The workers of a node: 1 to 16.
    pub workers: usize,
    /// What is out is transmitted again after a pause of so many turns, and less often where a peer
    /// answers nothing for long.
    pub pause: u32,
    /// The sessions' time ticks after so many of these pauses, and never where this is 0.
    pub tick_every: u32,
    /// What a node keeps of its entries.
    pub keep: Keep,
    /// How many parcels a link holds: 1 to 1,024.
    pub capacity: usize,
    /// About how many frames of ten a link loses, 0 to 9, of its first 10,000; others it repeats or
    /// keeps back. Where this is 0 all go on as they came.
    pub loss: u64,
    /// Where the chances of the links start.
    pub seed: u64,
}

impl Layout {
    /// Two workers a node, which keeps this of its entries; links of 64 parcels that lose nothing;
    /// no ticks.
    pub fn new(keep: Keep) -> Layout
        ensures keep { result.keep ≡ keep }
        ensures plain { (result.workers ≡ 2) × (result.tick_every ≡ 0) × (result.capacity ≡ 64)
            × (result.loss ≡ 0) }
    {
        Layout {
            limits: Limits::default(),
            workers: 2,
            pause: 8,
            tick_every: 0,
            keep,
            capacity: 64,
            loss: 0,
            seed: 1,
        }
    }

    // How the node of a space runs, one of so many. `None` where a number is out of its range.
    pub(crate) fn config(self, space: SpaceId, count: u16) -> Option<Config>
        ensures { IfSome result (λ config. IsLaidOut self space count config) }
    {
        let config = Config::new(
            space,
            count,
            self.limits,
            self.workers,
            self.pause,
            self.tick_every,
        )?;
        Some(config.keeping(self.keep))
    }
}
