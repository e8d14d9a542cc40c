//! What follows a birth: sessions open again, calls go to and fro, and all that began is ended.

ghost use Rattle.std.specs.Prelude.{◌≡◌, ◌&&◌, List};
ghost use Rattle.nob_model_types.specs.declared.entry.Entry.{Entry};
ghost use Rattle.nob_space.specs.Spaces.{StandsFor};
ghost use Rattle.test_worlds.specs.Ends.{has_none};

use crate::births::journey::{Journey, end_jobs};
use nob_exchange::{agent_of, carry};
use nob_ids::CallNo;
use nob_pickle::Value;
use nob_space::{CallResult, Space, SpaceError};
use std::alloc::AllocError;

// How often two spaces carry to and fro, and how often sessions are tried.
const TIMES: u32 = 4;

// The maximum number of objects that a space withdraws.
const MOST: u32 = 16;

// Carries between two spaces, to and fro.
fn talk(one: &mut Space, other: &mut Space) -> Result<(), AllocError> {
    for _ in 0..TIMES {
        carry(one, other)?;
        carry(other, one)?;
    }
    Ok(())
}

// Carries between each two of three spaces.
fn talk_all(space: &mut Space, peer: &mut Space, other: &mut Space) -> Result<(), AllocError> {
    talk(space, peer)?;
    talk(space, other)?;
    talk(peer, other)
}

// Two spaces open their session, each where it has closed.
fn open_both(one: &mut Space, other: &mut Space) -> bool {
    let here = one.open(other.id()).is_ok();
    let there = other.open(one.id()).is_ok();
    here || there
}

// What was begun at a space is ended.
fn end_all(space: &mut Space, way: &Journey) -> Result<(), AllocError> {
    way.end(space)?;
    end_jobs(space)
}

// One time: all carry, end what they began, and open what has closed.
fn try_again(
    space: &mut Space,
    peer: &mut Space,
    other: &mut Space,
    way: &Journey,
) -> Result<(), AllocError> {
    talk_all(space, peer, other)?;
    end_all(space, way)?;
    end_all(peer, way)?;
    end_all(other, way)?;
    open_both(space, peer);
    open_both(space, other);
    open_both(peer, other);
    Ok(())
}

/// A space that came back calls both others, which so learn of it; what was begun before is ended,
/// and what has closed opens again.
pub fn reconnect(
    space: &mut Space,
    peer: &mut Space,
    other: &mut Space,
    way: &Journey,
) -> Result<(), SpaceError> {
    let first = space.call(&agent_of(peer), 1, &Value::Unit)?;
    let second = space.call(&agent_of(other), 1, &Value::Unit)?;
    for _ in 0..TIMES {
        try_again(space, peer, other, way)?;
    }
    talk_all(space, peer, other)?;
    is_answered(space, first);
    is_answered(space, second);
    Ok(())
}

// Whether the reply to a call is there, of status 0. It is taken.
fn is_answered(space: &mut Space, call: CallNo) -> bool {
    match space.take_reply(call) {
        Ok(CallResult::Replied { status, value }) => {
            drop(value);
            status == 0
        }
        Ok(CallResult::Ended) => false,
        Err(_) => false,
    }
}

// Whether a call of one space to the agent of another is answered.
fn call_one(from: &mut Space, to: &mut Space) -> Result<bool, SpaceError> {
    let call = from.call(&agent_of(to), 1, &Value::Unit)?;
    talk(from, to)?;
    end_jobs(to)?;
    talk(from, to)?;
    Ok(is_answered(from, call))
}

/// Whether a call of a space to each of its two peers, and of each to it, is answered.
pub fn call_each(
    space: &mut Space,
    peer: &mut Space,
    other: &mut Space,
) -> Result<bool, SpaceError> {
    let one = call_one(space, peer)?;
    let two = call_one(peer, space)?;
    let three = call_one(space, other)?;
    let four = call_one(other, space)?;
    Ok(one && two && three && four)
}

// A space withdraws what it can.
fn withdraw_all(space: &mut Space) -> Result<(), SpaceError> {
    for _ in 0..MOST {
        match space.to_withdraw() {
            Some(index) => space.withdraw(index)?,
            None => return Ok(()),
        }
    }
    Ok(())
}

/// All carry once more, and each withdraws what it can.
pub fn withdraw_each(
    space: &mut Space,
    peer: &mut Space,
    other: &mut Space,
) -> Result<(), SpaceError> {
    talk_all(space, peer, other)?;
    talk_all(space, peer, other)?;
    withdraw_all(space)?;
    withdraw_all(peer)?;
    withdraw_all(other)
}

/// Whether no object is live at any of three spaces.
pub fn are_bare(space: &Space, peer: &Space, other: &Space) -> bool
    ensures { (K L M : List Entry) → StandsFor space.now K → StandsFor peer.now L
        → StandsFor other.now M → result
        ≡ (has_none space.now K && has_none peer.now L && has_none other.now M) }
{
    space.live() == 0 && peer.live() == 0 && other.live() == 0
}
