//! One run: some moves of the way, a death, a new life, and what is seen of it.

use crate::births::journey::Journey;
use crate::births::returning::{are_bare, call_each, reconnect, withdraw_each};
use nob_exchange::with_three;
use nob_ids::{Limits, SpaceId};
use nob_space::{Birth, Space, SpaceError};
use std::alloc::Global;
use std::mem;

/// Which space dies, after how many moves, and how many numbers its bounds have to spare.
#[derive(Clone, Copy)]
pub struct Death {
    pub space: SpaceId,
    pub place: u32,
    pub spare: u64,
}

/// What is seen of a death.
#[derive(Clone, Copy)]
pub struct AfterDeath {
    /// Whether an object of the space was live.
    pub is_lost: bool,
    /// Whether the first index of the new life is the one behind the bounds.
    pub is_first: bool,
    /// Whether a call to each peer, and from it, was answered.
    pub is_called: bool,
    /// Whether no object was live at the end.
    pub is_withdrawn: bool,
}

/// Makes the way up to a death in new spaces, and sees what comes then.
pub fn outcome_of(alloc: Global, death: &Death) -> Result<AfterDeath, SpaceError> {
    with_three(alloc, Limits::default(), |one, two, three| {
        play(alloc, death, one, two, three)
    })
}

fn play(
    alloc: Global,
    death: &Death,
    one: &mut Space,
    two: &mut Space,
    three: &mut Space,
) -> Result<AfterDeath, SpaceError> {
    let mut way = Journey::new();
    for place in 0..death.place {
        way.make(place, one, two, three)?;
    }
    match death.space.get() {
        1 => come_back(alloc, death, &way, one, two, three),
        2 => come_back(alloc, death, &way, two, one, three),
        _ => come_back(alloc, death, &way, three, one, two),
    }
}

// The birth behind what a space showed on the way, with so many numbers to spare: each session was
// the first.
fn birth_of(way: &Journey, death: &Death) -> Birth {
    let (indexes, calls) = match death.space.get() {
        1 => (way.indexes[0], way.calls[0]),
        2 => (way.indexes[1], way.calls[1]),
        _ => (way.indexes[2], way.calls[2]),
    };
    Birth {
        indexes: indexes.saturating_add(death.spare),
        calls: calls.saturating_add(death.spare),
        jobs: 0,
        sessions: [3; 32],
    }
}

// A space dies and comes back.
fn die(alloc: Global, space: &mut Space, death: &Death, birth: &Birth) -> Result<(), SpaceError> {
    match Space::begin_at(alloc, death.space, 3, Limits::default(), birth) {
        Ok(next) => {
            mem::replace(space, next).shut();
            Ok(())
        }
        Err(_) => Err(SpaceError::OutOfMemory),
    }
}

// A space dies and comes back, opens its sessions again, and all that began is ended.
fn come_back(
    alloc: Global,
    death: &Death,
    way: &Journey,
    space: &mut Space,
    peer: &mut Space,
    other: &mut Space,
) -> Result<AfterDeath, SpaceError> {
    let is_lost = space.live() > 0;
    let birth = birth_of(way, death);
    die(alloc, space, death, &birth)?;
    let first = space.export()?;
    reconnect(space, peer, other, way)?;
    let is_called = call_each(space, peer, other)?;
    space.release(&first)?;
    withdraw_each(space, peer, other)?;
    Ok(AfterDeath {
        is_lost,
        is_first: first.index == birth.indexes.saturating_add(1),
        is_called,
        is_withdrawn: are_bare(space, peer, other),
    })
}
