//! What a node is made of.

ghost use Rattle.std.specs.Prelude.{◌≡◌, ◌↔◌, ◌≤◌, [], true, IfSome, is_some};
ghost use Rattle.nob_fault.specs.Shims.{opening};
ghost use Rattle.nob_keeper.specs.Keep.TheVariants as keeps;
ghost use Rattle.nob_node_site.specs.Configs as spec;

use nob_fault::Shim;
use nob_ids::{Limits, SpaceId};
use nob_keeper::Keep;
use nob_link::{PutEnd, TakeEnd};

/// The number of spaces in the largest world.
const MAX_SPACES: u16 = 32;

/// The maximum number of workers of a node.
const MAX_WORKERS: usize = 16;

/// How a node runs.
#[derive(Clone, Copy, Debug)]
pub struct Config {
    pub(crate) space: SpaceId,
    pub(crate) n: u16,
    pub(crate) limits: Limits,
    pub(crate) workers: usize,
    pub(crate) pause: u32,
    pub(crate) tick_every: u32,
    pub(crate) keep: Keep,
    pub ghost some: { 1 ≤ n },
    pub ghost few: { n ≤ 32 },
    pub ghost hands: { 1 ≤ workers },
}

impl Config {
    /// A space of so many, with these limits and 1 to 16 workers. What is out is transmitted again
    /// after a pause of `pause` turns of yielding, and less often where a peer answers nothing for
    /// long; the sessions' time ticks after every `tick_every` such pauses, never where that is 0.
    /// Where it ticks, a peer of whom nothing is heard is asked. All entries of its space are kept.
    /// `None` where a number is out of its range, or there is no such space.
    pub fn new(
        space: SpaceId,
        n: u16,
        limits: Limits,
        workers: usize,
        pause: u32,
        tick_every: u32,
    ) -> Option<Config>
        ensures some { is_some result ≡ spec.may_be space n workers }
        ensures config { IfSome result (λ config. (config.space ≡ space) × (config.n ≡ n)
            × (config.limits ≡ limits) × (config.workers ≡ workers)
            × (config.pause ≡ pause) × (config.tick_every ≡ tick_every)
            × (config.keep ≡ keeps.All)) }
    {
        if n == 0 || n > MAX_SPACES || space.get() > n {
            return None;
        }
        if workers == 0 || workers > MAX_WORKERS {
            return None;
        }
        Some(Config {
            space,
            n,
            limits,
            workers,
            pause,
            tick_every,
            keep: Keep::All,
        })
    }

    /// The same node, which keeps this of its entries: all of them, as long as there is memory for
    /// them, or nothing, and then it runs as long as it is let.
    pub fn keeping(self, keep: Keep) -> Config
        ensures { (result.space ≡ self.space) × (result.n ≡ self.n)
            × (result.limits ≡ self.limits) × (result.workers ≡ self.workers)
            × (result.pause ≡ self.pause) × (result.tick_every ≡ self.tick_every)
            × (result.keep ≡ keep) }
    {
        Config {
            space: self.space,
            n: self.n,
            limits: self.limits,
            workers: self.workers,
            pause: self.pause,
            tick_every: self.tick_every,
            keep,
        }
    }

    /// Whether its space is this one, of so many.
    pub fn is_of(&self, space: SpaceId, n: SpaceId) -> bool
        ensures { (result ≡ true) ↔ ((space ≡ self.now.space) × (n ≡ self.now.n)) }
    {
        space == self.space && n.get() == self.n
    }

    /// Whether its sessions have these limits.
    pub fn has_limits(&self, limits: Limits) -> bool
        ensures { (result ≡ true) ↔ (limits ≡ self.now.limits) }
    {
        limits.window == self.limits.window && limits.retry == self.limits.retry
    }

    /// Whether another node would run the same.
    pub fn is_same(&self, other: &Config) -> bool
        ensures { (result ≡ true) ↔ ((self.now.space ≡ other.now.space)
            × (self.now.n ≡ other.now.n) × (self.now.limits ≡ other.now.limits)
            × (self.now.workers ≡ other.now.workers) × (self.now.pause ≡ other.now.pause)
            × (self.now.tick_every ≡ other.now.tick_every)
            × (self.now.keep ≡ other.now.keep)) }
    {
        self.space == other.space
            && self.n == other.n
            && other.has_limits(self.limits)
            && self.workers == other.workers
            && self.pause == other.pause
            && self.tick_every == other.tick_every
            && self.keep == other.keep
    }

    /// What the node keeps of its entries.
    pub fn keep(&self) -> Keep
        ensures { result ≡ self.now.keep }
    {
        self.keep
    }
}

/// The ends of the links to one peer and from it, and the shim that parcels pass before they are put.
#[derive(Drop)]
pub struct Ends {
    pub(crate) peer: SpaceId,
    pub(crate) put: PutEnd,
    pub(crate) take: TakeEnd,
    pub(crate) shim: Shim,
    pub ghost new_put: { put.put ≡ [] },
    pub ghost new_take: { take.taken ≡ [] },
    pub ghost new_shim: { shim ≡ opening shim.words },
}

impl Ends {
    /// The ends of the links to a peer and from it. The caller's condition: they are unused, and so
    /// is the shim.
    pub fn new(peer: SpaceId, put: PutEnd, take: TakeEnd, shim: Shim) -> Ends
        requires put { put.put ≡ [] }
        requires take { take.taken ≡ [] }
        requires shim { shim ≡ opening shim.words }
        ensures { result.peer ≡ peer }
    {
        Ends {
            peer,
            put,
            take,
            shim,
        }
    }
}
