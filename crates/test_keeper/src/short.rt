//! A short run of a keeper by one thread, for which memory may be wanted at any call.

use crate::spaces::{first, new_keeper, second, with_segments};
use nob_chain::Chain;
use nob_ids::{CallNo, WireRep};
use nob_keeper::{Keeper, KeeperError, Seat};
use nob_model_types::{Answer, Event};
use nob_pickle::Value;
use std::alloc::Global;
use std::sync::Wait;

/// An object is exported, held once more, sent in a call, and released; the session is closed and
/// the call's end is told. A call that wants memory is made once more, and must have added nothing:
/// the number of entries.
pub(crate) fn run<R: Wait>(rt: &R, alloc: Global) -> Option<usize> {
    let keeper = match new_keeper(alloc, first()) {
        Some(keeper) => keeper,
        None => new_keeper(alloc, first())?,
    };
    Some(entries_of(&after_calls(rt, alloc, keeper)?))
}

/// The same, with segments of so many entries: the number of segments, each of which must be sealed
/// and have just so many entries, or be the last and have fewer, but some.
pub(crate) fn sealed<R: Wait>(rt: &R, alloc: Global, size: u32) -> Option<usize> {
    let keeper = match with_segments(alloc, first(), size) {
        Some(keeper) => keeper,
        None => with_segments(alloc, first(), size)?,
    };
    segments_of(&after_calls(rt, alloc, keeper)?, size)
}

// The chain of a keeper, once all calls were made.
fn after_calls<R: Wait>(rt: &R, alloc: Global, keeper: Keeper) -> Option<Chain> {
    let mut seat = keeper.seat();
    let done = calls(rt, &keeper, &mut seat);
    let mut seats = Vec::new(alloc);
    if seats.reserve(1).is_err() && seats.reserve(1).is_err() {
        keeper.shut();
        return None;
    }
    let Ok(()) = seats.push(seat) else {
        keeper.shut();
        return None;
    };
    let chain = ends(keeper, seats);
    if done { chain } else { None }
}

/// Ends a keeper, once more where memory was wanted.
pub(crate) fn ends(keeper: Keeper, seats: Vec<Seat>) -> Option<Chain> {
    match keeper.close_with(seats) {
        Ok(chain) => Some(chain),
        Err((KeeperError::OutOfMemory, keeper, seats)) => ends_at_last(keeper, seats),
        Err((_, keeper, _)) => {
            keeper.shut();
            None
        }
    }
}

// Ends a keeper.
fn ends_at_last(keeper: Keeper, seats: Vec<Seat>) -> Option<Chain> {
    match keeper.close_with(seats) {
        Ok(chain) => Some(chain),
        Err((_, keeper, _)) => {
            keeper.shut();
            None
        }
    }
}

/// The number of entries of a chain.
pub(crate) fn entries_of(chain: &Chain) -> usize {
    let mut count = 0usize;
    for segment in chain.parts().segments.as_slice() {
        count = count.saturating_add(segment.entries.len());
    }
    count
}

/// The number of segments of a chain, where each is sealed and has so many entries, but the last,
/// which has some and no more than so many.
pub(crate) fn segments_of(chain: &Chain, size: u32) -> Option<usize> {
    let segments = chain.parts().segments.as_slice();
    for (place, segment) in segments.iter().enumerate() {
        let len = segment.entries.len();
        let is_filled = len == size as usize;
        let is_end = place + 1 == segments.len() && 1 <= len && len <= size as usize;
        if segment.seal.is_none() || !(is_filled || is_end) {
            return None;
        }
    }
    Some(segments.len())
}

// Whether all calls are answered as they must be.
fn calls<R: Wait>(rt: &R, keeper: &Keeper, seat: &mut Seat) -> bool {
    match exported(rt, keeper, seat) {
        Some(rep) => calls_with(rt, keeper, seat, &rep),
        None => false,
    }
}

/// A new object. Where memory is wanted, it is asked for once more.
pub(crate) fn exported<R: Wait>(rt: &R, keeper: &Keeper, seat: &mut Seat) -> Option<WireRep> {
    if !asks(rt, keeper, seat, &Event::Export) {
        return None;
    }
    match &seat.newest()?.result {
        Ok(Answer::Exported(rep)) => Some(*rep),
        _ => None,
    }
}

// Whether the calls with a reference are.
fn calls_with<R: Wait>(rt: &R, keeper: &Keeper, seat: &mut Seat, rep: &WireRep) -> bool {
    let call = Event::Call {
        target: WireRep {
            owner: second(),
            index: 0,
        },
        method: 1,
        value: Value::Ref(*rep),
    };
    asks(rt, keeper, seat, &Event::Dup(*rep))
        && asks(rt, keeper, seat, &call)
        && asks(rt, keeper, seat, &Event::Transmit(second()))
        && asks(rt, keeper, seat, &Event::Release(*rep))
        && asks(rt, keeper, seat, &Event::Close(second()))
        && waits(rt, keeper, seat)
}

// Whether a call is accepted; where it wants memory, it is made once more.
fn asks<R: Wait>(rt: &R, keeper: &Keeper, seat: &mut Seat, event: &Event) -> bool {
    let before = seat.receipts().len();
    let mut result = keeper.call(rt, seat, event, 0);
    if let Err(KeeperError::OutOfMemory) = result {
        if seat.receipts().len() != before {
            return false;
        }
        result = keeper.call(rt, seat, event, 0);
    }
    result.is_ok() && seat.receipts().len() == before + 1 && is_accepted(seat, before as u64 + 1)
}

// Whether the newest receipt is an answer at this place.
fn is_accepted(seat: &Seat, place: u64) -> bool {
    match seat.newest() {
        Some(receipt) => receipt.place == place && receipt.stamp == place && receipt.result.is_ok(),
        None => false,
    }
}

// Whether the first call is told to have ended.
fn waits<R: Wait>(rt: &R, keeper: &Keeper, seat: &mut Seat) -> bool {
    let call = CallNo::new(1);
    let mut result = keeper.wait_reply(rt, seat, call);
    if let Err(KeeperError::OutOfMemory) = result {
        result = keeper.wait_reply(rt, seat, call);
    }
    result.is_ok()
        && match seat.newest() {
            Some(receipt) => matches!(&receipt.result, Ok(Answer::Ended)),
            None => false,
        }
}
