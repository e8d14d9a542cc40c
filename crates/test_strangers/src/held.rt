//! What two ends of a session hold while many items go from one to the other. A round: items are
//! sent, delivered, acknowledged and taken.

use nob_frame::Frame;
use nob_ids::{Limits, SpaceId};
use nob_model_session::Kind;
use nob_session::{Session, SessionError};
use std::alloc::Global;
use std::io;

// The number of rounds, and of items in each.
const ROUNDS: u32 = 1250;

const ITEMS: u32 = 8;

/// Makes all rounds, and writes how many items were taken, and after how many rounds both ends held
/// nothing.
pub fn try_held(rt: &HostRuntime) -> io::Result<()> {
    match held_between(rt.alloc()) {
        Ok((taken, empty)) => println!(rt;
            "{taken} items taken, nothing held after {empty} of {ROUNDS} rounds"
        ),
        Err(error) => println!(rt; "it failed: {error}"),
    }
}

// How many items were taken, and after how many rounds both ends held nothing.
fn held_between(alloc: Global) -> Result<(u32, u32), SessionError> {
    let (Some(one), Some(two)) = (SpaceId::new(1), SpaceId::new(2)) else {
        unreachable!();
    };
    let mut giver = Session::open(alloc, one, two, Limits::default())?;
    let mut taker = Session::open(alloc, two, one, Limits::default())?;
    let mut taken: u32 = 0;
    let mut empty: u32 = 0;
    for _ in 0..ROUNDS {
        taken = taken.saturating_add(round(alloc, ITEMS, &mut giver, &mut taker)?);
        if giver.held() == (0, 0) && taker.held() == (0, 0) {
            empty = empty.saturating_add(1);
        }
    }
    Ok((taken, empty))
}

// `items` items of one byte go from an end to the other: how many were taken there.
fn round(
    alloc: Global,
    items: u32,
    giver: &mut Session,
    taker: &mut Session,
) -> Result<u32, SessionError> {
    for _ in 0..items {
        giver.send(vec![in alloc; 170]?, Kind::Limited)?;
    }
    bring(giver.transmit()?.as_slice(), taker)?;
    bring(taker.transmit()?.as_slice(), giver)?;
    Ok(take_all(items, taker))
}

// Frames arrive at an end.
fn bring(frames: &[Frame], end: &mut Session) -> Result<(), SessionError> {
    for frame in frames {
        end.arrive(frame)?;
    }
    Ok(())
}

// Takes what waits at an end, so many items at most: how many there were.
fn take_all(most: u32, end: &mut Session) -> u32 {
    for taken in 0..most {
        if end.front().is_none() {
            return taken;
        }
        end.take();
    }
    most
}
