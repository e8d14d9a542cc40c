//! Threads at one keeper, each with a seat of its own.

use crate::short::{ends, entries_of, exported};
use crate::spaces::{first, new_keeper, second};
use nob_chain::Chain;
use nob_ids::{CallNo, Reason, WireRep};
use nob_keeper::{CloseAnswer, Keeper, Seat};
use nob_model_types::Event;
use nob_pickle::Value;
use std::alloc::Global;
use std::sync::Wait;
use std::thread::{self, Threads};

// How often each of two threads holds an object once more and gives that back.
const TIMES: usize = 1000;

// The number of looks at the space before a session is closed that another thread waits for.
const LOOKS: usize = 1000;

/// What one thread leaves: its seat, and whether all its calls were answered as they must be.
#[derive(Drop)]
pub(crate) struct Left {
    seat: Seat,
    is_right: bool,
}

/// Two threads hold one exported object once more and give that back, again and again: the number
/// of entries, each of which one receipt tells.
pub(crate) fn pairs<R: Threads + Wait + Sync>(rt: &R, alloc: Global) -> Option<usize> {
    let keeper = new_keeper(alloc, first())?;
    let mut seat = keeper.seat();
    let index = match exported(rt, &keeper, &mut seat) {
        Some(rep) => rep.index,
        None => 0,
    };
    let (one, other) = by_two(rt, &keeper, index);
    let chain = end_all(alloc, keeper, seat, one, other)?;
    Some(entries_of(&chain))
}

/// A thread waits for the reply to a call until another closes the session: the number of entries.
pub(crate) fn woken<R: Threads + Wait + Sync>(rt: &R, alloc: Global) -> Option<usize> {
    let keeper = new_keeper(alloc, first())?;
    let mut seat = keeper.seat();
    let called = calls(rt, &keeper, &mut seat);
    let (one, other) = wait_and_close(rt, &keeper);
    let chain = end_all(alloc, keeper, seat, one, other)?;
    if called {
        Some(entries_of(&chain))
    } else {
        None
    }
}

/// Ends a keeper with all seats: its chain, if all went well before.
pub(crate) fn end_all(
    alloc: Global,
    keeper: Keeper,
    seat: Seat,
    one: Left,
    other: Left,
) -> Option<Chain> {
    let is_right = one.is_right && other.is_right;
    let Some(seats) = seats_of(alloc, seat, one, other) else {
        keeper.shut();
        return None;
    };
    let chain = ends(keeper, seats);
    if is_right { chain } else { None }
}

// All seats.
fn seats_of(alloc: Global, seat: Seat, one: Left, other: Left) -> Option<Vec<Seat>> {
    let mut seats = Vec::new(alloc);
    seats.push(seat).ok()?;
    let Left { seat, is_right: _ } = one;
    seats.push(seat).ok()?;
    let Left { seat, is_right: _ } = other;
    seats.push(seat).ok()?;
    Some(seats)
}

/// What the two threads leave that hold the object of an index once more.
pub(crate) fn by_two<R: Threads + Wait + Sync>(
    rt: &R,
    keeper: &Keeper,
    index: u64,
) -> (Left, Left) {
    thread::join(
        rt,
        move || hold_and_release(rt, keeper, index),
        move || hold_and_release(rt, keeper, index),
    )
}

// Holds the object of an index once more and gives that back, again and again.
fn hold_and_release<R: Wait>(rt: &R, keeper: &Keeper, index: u64) -> Left {
    let mut seat = keeper.seat();
    let mut is_right = true;
    let dup = Event::Dup(object(index));
    let release = Event::Release(object(index));
    for _ in 0..TIMES {
        is_right = is_right && is_answered(rt, keeper, &mut seat, &dup);
        is_right = is_right && is_answered(rt, keeper, &mut seat, &release);
    }
    Left { seat, is_right }
}

// The first space's object of an index.
fn object(index: u64) -> WireRep {
    WireRep {
        owner: first(),
        index,
    }
}

/// Whether the space does this.
pub(crate) fn is_answered<R: Wait>(
    rt: &R,
    keeper: &Keeper,
    seat: &mut Seat,
    event: &Event,
) -> bool {
    keeper.call(rt, seat, event, 0).is_ok()
        && match seat.newest() {
            Some(receipt) => receipt.result.is_ok(),
            None => false,
        }
}

// Whether the second space's agent is called.
fn calls<R: Wait>(rt: &R, keeper: &Keeper, seat: &mut Seat) -> bool {
    let call = Event::Call {
        target: WireRep {
            owner: second(),
            index: 0,
        },
        method: 1,
        value: Value::Unit,
    };
    is_answered(rt, keeper, seat, &call)
}

// What two threads leave, of which one waits for the reply and the other closes the session.
fn wait_and_close<R: Threads + Wait + Sync>(rt: &R, keeper: &Keeper) -> (Left, Left) {
    thread::join(
        rt,
        move || wait_for_end(rt, keeper),
        move || close(rt, keeper),
    )
}

// Waits for the reply to the first call, which must be told to have ended.
fn wait_for_end<R: Wait>(rt: &R, keeper: &Keeper) -> Left {
    let mut seat = keeper.seat();
    let is_right = match keeper.wait_reply(rt, &mut seat, CallNo::new(1)) {
        Ok(()) => matches!(seat.reply(), Ok(None)),
        Err(_) => false,
    };
    Left { seat, is_right }
}

// Closes the session with the second space, after some looks.
fn close<R: Wait>(rt: &R, keeper: &Keeper) -> Left {
    let mut seat = keeper.seat();
    for _ in 0..LOOKS {
        let _work = keeper.work(rt);
    }
    let closed = keeper.ask(rt, &mut seat, &Event::Close(second()), 0);
    let is_right = matches!(closed, Ok(Ok(CloseAnswer(Reason::Asked))));
    Left { seat, is_right }
}
