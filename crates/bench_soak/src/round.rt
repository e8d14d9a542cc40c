//! What a round is.

use crate::chance::Chance;
use nob_ids::{Limits, SpaceId};
use nob_nodes::{Keep, Layout};

/// What is asked for: so many rounds, one after the other, from a seed on, but none begins after so
/// many seconds, where these aren't 0. Where the spaces or the workers are 0 each round has some by
/// chance.
#[derive(Clone, Copy)]
pub(crate) struct Wish {
    pub(crate) seed: u64,
    pub(crate) rounds: u64,
    pub(crate) steps: u64,
    pub(crate) spaces: u64,
    pub(crate) workers: u64,
    pub(crate) seconds: u64,
}

/// A round: so many spaces, whose players take so many steps each, in phases.
#[derive(Clone, Copy)]
pub(crate) struct Round {
    /// Which one.
    pub(crate) number: u64,
    /// Where all its chances start.
    pub(crate) seed: u64,
    /// How many spaces there are, 2 to 8.
    pub(crate) spaces: u16,
    /// How many steps each player takes in all.
    pub(crate) steps: u64,
    /// Of a thousand steps so many close a session.
    pub(crate) closes: u64,
    /// Of a hundred pairs of nodes so many have links whose ends are let go in the middle.
    pub(crate) cuts: u64,
    /// How the nodes run, and what the links do.
    pub(crate) layout: Layout,
}

/// What a player is to do, one of so many.
#[derive(Clone, Copy)]
pub(crate) struct Plan {
    /// How many spaces there are.
    pub(crate) spaces: u16,
    /// How many steps it takes in all.
    pub(crate) steps: u64,
    /// Of a thousand steps so many close a session.
    pub(crate) closes: u64,
    /// Where all chances of the round start.
    pub(crate) seed: u64,
}

/// After how many turns a tick is made at least, and at most.
const MIN_TICK: u64 = 128;

const MAX_TICK: u64 = 1_024;

/// How many parcels are carried at least, and at most, before links are let go.
const MIN_CARRIED: u64 = 100;

const MAX_CARRIED: u64 = 4_000;

impl Round {
    // The one of a number.
    pub(crate) fn of(wish: Wish, number: u64) -> Round {
        let mut chance = Chance::new(wish.seed, number);
        let spaces = wished(wish.spaces, &mut chance, 2, 8);
        let keep = if chance.is_so(50) {
            Keep::All
        } else {
            Keep::Nothing
        };
        let mut layout = Layout::new(keep);
        layout.workers = usize::from(wished(wish.workers, &mut chance, 1, 16));
        layout.loss = if chance.is_so(25) {
            0
        } else {
            chance.between(1, 4)
        };
        layout.seed = chance.below(1 << 32);
        layout.pause = u32::from(chance.small_between(1, 8));
        layout.tick_every = ticks_by(&mut chance, layout.pause);
        layout.capacity = usize::from(chance.small_between(1, 64));
        layout.limits = limits_by(&mut chance);
        Round {
            number,
            seed: chance.below(1 << 32),
            spaces: u16::from(spaces),
            steps: wish.steps,
            closes: if chance.is_so(30) {
                0
            } else {
                chance.below(20)
            },
            cuts: if chance.is_so(60) {
                0
            } else {
                chance.below(40)
            },
            layout,
        }
    }

    // What each player is to do.
    pub(crate) fn plan(&self) -> Plan {
        Plan {
            spaces: self.spaces,
            steps: self.steps,
            closes: self.closes,
            seed: self.seed,
        }
    }

    // After how many parcels the links between two nodes are let go, if they are.
    pub(crate) fn cut_between(&self, one: SpaceId, other: SpaceId) -> Option<u64> {
        let first = u32::from(one.get().min(other.get()));
        let second = u32::from(one.get().max(other.get()));
        let which = first.wrapping_mul(100).wrapping_add(second);
        let mut chance = Chance::new(self.seed, u64::from(which));
        if !chance.is_so(self.cuts) {
            return None;
        }
        Some(chance.between(MIN_CARRIED, MAX_CARRIED))
    }
}

// A number that is wished, or one by chance, in a range.
fn wished(wish: u64, chance: &mut Chance, least: u8, most: u8) -> u8 {
    let drawn = chance.small_between(least, most);
    if wish == 0 {
        return drawn;
    }
    u8::try_from(wish).unwrap_or(most).max(least).min(most)
}

// After how many pauses of so many turns a tick is made.
fn ticks_by(chance: &mut Chance, pause: u32) -> u32 {
    let turns = chance.between(MIN_TICK, MAX_TICK);
    let pauses = turns.checked_div(u64::from(pause)).unwrap_or(turns);
    u32::try_from(pauses).unwrap_or(u32::MAX)
}

// The limits of all sessions.
fn limits_by(chance: &mut Chance) -> Limits {
    let limits = Limits::default();
    let window = chance.between(1, 64);
    Limits::new(window, limits.retry).unwrap_or(limits)
}
