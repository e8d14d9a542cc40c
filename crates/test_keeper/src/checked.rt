//! Two keepers with short segments, whose chains are accepted together.

use crate::short::{ends, exported, segments_of};
use crate::spaces::{first, second, with_segments};
use crate::threads::{by_two, end_all, is_answered};
use nob_chain::Chain;
use nob_chain_check::check;
use nob_ids::WireRep;
use nob_keeper::{Keeper, Seat};
use nob_model_types::{Answer, Event};
use nob_pickle::Value;
use std::alloc::Global;
use std::sync::Wait;
use std::thread::Threads;

/// The number of entries in a segment.
const SIZE: u32 = 4;

/// The first space exports an object, and is called by the second; two threads hold the object once
/// more and give that back, again and again: the number of entries of both chains, which must be
/// accepted, and of whose segments each must be sealed.
pub(crate) fn run<R: Threads + Wait + Sync>(rt: &R, alloc: Global) -> Option<usize> {
    let keeper = with_segments(alloc, first(), SIZE)?;
    let Some(peer) = with_segments(alloc, second(), SIZE) else {
        keeper.shut();
        return None;
    };
    let mut seat = keeper.seat();
    let mut other = peer.seat();
    let index = match exported(rt, &keeper, &mut seat) {
        Some(rep) => rep.index,
        None => 0,
    };
    let called = calls(rt, &peer, &mut other) && brings(rt, &other, &keeper, &mut seat);
    let (one, two) = by_two(rt, &keeper, index);
    let chain = end_all(alloc, keeper, seat, one, two);
    let twin = end_one(alloc, peer, other);
    if !called {
        return None;
    }
    accepted(alloc, chain?, twin?)
}

// The second space calls the first one's agent, and transmits that.
fn calls<R: Wait>(rt: &R, peer: &Keeper, seat: &mut Seat) -> bool {
    let call = Event::Call {
        target: WireRep {
            owner: first(),
            index: 0,
        },
        method: 1,
        value: Value::Unit,
    };
    is_answered(rt, peer, seat, &call) && is_answered(rt, peer, seat, &Event::Transmit(first()))
}

// Brings what the newest receipt of a seat says was transmitted to the first space, which acts on it.
fn brings<R: Wait>(rt: &R, from: &Seat, keeper: &Keeper, seat: &mut Seat) -> bool {
    let Some(receipt) = from.newest() else {
        return false;
    };
    let Ok(Answer::Frames(frames)) = &receipt.result else {
        return false;
    };
    for frame in frames.as_slice() {
        let Ok(frame) = frame.copy() else {
            return false;
        };
        let arrived = keeper.call(rt, seat, &Event::Arrive(frame), receipt.stamp);
        if arrived.is_err() {
            return false;
        }
    }
    is_answered(rt, keeper, seat, &Event::Act(second()))
}

// Ends a keeper with one seat.
fn end_one(alloc: Global, keeper: Keeper, seat: Seat) -> Option<Chain> {
    let mut seats = Vec::new(alloc);
    let Ok(()) = seats.push(seat) else {
        keeper.shut();
        return None;
    };
    ends(keeper, seats)
}

// The number of merged entries of two chains that are accepted.
fn accepted(alloc: Global, one: Chain, other: Chain) -> Option<usize> {
    segments_of(&one, SIZE)?;
    segments_of(&other, SIZE)?;
    let mut chains = Vec::new(alloc);
    chains.push(one).ok()?;
    chains.push(other).ok()?;
    match check(alloc, chains) {
        Ok(merged) => Some(merged.len()),
        Err(_) => None,
    }
}
