//! Calls of one keeper by several threads.

use nob_ids::{Limits, SpaceId, WireRep};
use nob_keeper::{ExportAnswer, Keeper, Seat};
use nob_model::Event;
use nob_space::Space;
use std::alloc::Global;
use std::sync::Wait;
use std::thread::{self, Threads};

/// Some threads, 1, 2 or 4, each hold one object once more and give that back, over and over: how
/// many of these calls were answered. `None` where there is no memory.
pub(crate) fn run_on<R: Threads + Wait + Sync>(
    rt: &R,
    alloc: Global,
    threads: u64,
    pairs: u64,
) -> Option<u64> {
    let Ok(space) = Space::new(alloc, SpaceId::new(1)?, 2, Limits::default()) else {
        return None;
    };
    let keeper = match Keeper::new(alloc, space) {
        Ok(keeper) => keeper,
        Err(space) => {
            space.shut();
            return None;
        }
    };
    let count = by_threads(rt, &keeper, threads, pairs);
    keeper.shut();
    count
}

// The calls of all threads.
fn by_threads<R: Threads + Wait + Sync>(
    rt: &R,
    keeper: &Keeper,
    threads: u64,
    pairs: u64,
) -> Option<u64> {
    let index = exported(rt, keeper)?;
    match threads {
        1 => Some(by_one(rt, keeper, index, pairs)),
        2 => Some(by_two(rt, keeper, index, pairs)),
        4 => Some(by_four(rt, keeper, index, pairs)),
        _ => None,
    }
}

// The calls of four threads.
fn by_four<R: Threads + Wait + Sync>(rt: &R, keeper: &Keeper, index: u64, pairs: u64) -> u64 {
    let counts = thread::join(
        rt,
        move || by_two(rt, keeper, index, pairs),
        move || by_two(rt, keeper, index, pairs),
    );
    counts.0.saturating_add(counts.1)
}

// The calls of two threads.
fn by_two<R: Threads + Wait + Sync>(rt: &R, keeper: &Keeper, index: u64, pairs: u64) -> u64 {
    let counts = thread::join(
        rt,
        move || by_one(rt, keeper, index, pairs),
        move || by_one(rt, keeper, index, pairs),
    );
    counts.0.saturating_add(counts.1)
}

// The calls of one thread, with a seat of its own.
fn by_one<R: Wait>(rt: &R, keeper: &Keeper, index: u64, pairs: u64) -> u64 {
    let Some(owner) = SpaceId::new(1) else {
        return 0;
    };
    let dup = Event::Dup(WireRep { owner, index });
    let release = Event::Release(WireRep { owner, index });
    let mut seat = keeper.seat();
    let mut count: u64 = 0;
    for _ in 0..pairs {
        if is_answered(rt, keeper, &mut seat, &dup) {
            count = count.saturating_add(1);
        }
        if is_answered(rt, keeper, &mut seat, &release) {
            count = count.saturating_add(1);
        }
    }
    count
}

// Whether the space does this.
fn is_answered<R: Wait>(rt: &R, keeper: &Keeper, seat: &mut Seat, event: &Event) -> bool {
    keeper.call(rt, seat, event, 0).is_ok()
        && match seat.newest() {
            Some(receipt) => receipt.result.is_ok(),
            None => false,
        }
}

// The index of a new object.
fn exported<R: Wait>(rt: &R, keeper: &Keeper) -> Option<u64> {
    let mut seat = keeper.seat();
    let ExportAnswer(rep) = keeper.ask(rt, &mut seat, &Event::Export, 0).ok()?.ok()?;
    Some(rep.index)
}
