//! Rounds: what each space has to send is brought to the others, and then each settles and gives up
//! what it can.

ghost use Rattle.std.specs.Prelude.{◌≡◌, ◌≤◌, ◌<◌, ◌+◌, ◌^◌, OnOk};
ghost use Rattle.nob_rounds.specs.Rounds as spec;

use crate::asking::{MOST_REPEATS, ask, repeat};
use nob_ids::SpaceId;
use nob_model_types::{Event, WorldStep};
use nob_world::{World, WorldError};
use std::alloc::AllocError;

/// The frame of this number arrives, counted from 1 over all that were transmitted; where there is
/// none, nothing happens. Only memory fails it.
pub fn deliver(world: &mut World, number: u64) -> Result<(), AllocError>
    ensures entries { OnOk result (spec.Delivered number world.old.entries world.new.entries) }
    ensures n { world.new.n ≡ world.old.n }
{
    let _frames = world.frames();
    match world.step(&WorldStep::Deliver(number)) {
        Ok(_) | Err(WorldError::Refused(_)) => Ok(()),
        Err(WorldError::OutOfMemory) => Err(AllocError),
        Err(WorldError::NoSpace) => unreachable!(),
        Err(WorldError::NoFrame) => Ok(()),
    }
}

/// `count` frames arrive in order, the first of which stands behind `behind` others. Only memory
/// fails it. The caller's condition: the number of the last one is one of 64 bits. It recurses once
/// for each.
pub fn deliver_each(world: &mut World, behind: u64, count: u64) -> Result<(), AllocError>
    requires { behind + count < 2 ^ 64 }
    ensures entries { OnOk result (spec.DeliveredEach behind count
        world.old.entries world.new.entries) }
    ensures n { world.new.n ≡ world.old.n }
{
    if count == 0 {
        return Ok(());
    }
    deliver_each(world, behind, count - 1)?;
    deliver(world, behind + count)
}

// How many frames were transmitted.
fn frames_in(world: &World) -> usize
    ensures { result ≡ spec.frames_in world.now.entries }
{
    world.frames().len()
}

/// Brings what a space has to send to another, each frame once and in order, which then acts on
/// what came as long as it has something to act on. Only memory fails it. The caller's condition:
/// there are such spaces.
pub fn bring(world: &mut World, from: SpaceId, to: SpaceId) -> Result<(), AllocError>
    requires sender { from ≤ world.old.n }
    requires receiver { to ≤ world.old.n }
    ensures entries { OnOk result (spec.Brought from to world.old.entries world.new.entries) }
    ensures n { world.new.n ≡ world.old.n }
{
    let before = frames_in(world);
    ask(world, from, Event::Transmit(to))?;
    let count = frames_in(world).saturating_sub(before);
    deliver_each(world, before as u64, count as u64)?;
    repeat(world, to, &Event::Act(from), MOST_REPEATS)
}

/// One round: each space brings the others what it has to send, and then settles and gives up all
/// that it can. Only memory fails it.
pub fn round(world: &mut World) -> Result<(), AllocError>
    ensures entries { OnOk result (spec.WentRound world.old.n
        world.old.entries world.new.entries) }
    ensures n { world.new.n ≡ world.old.n }
{
    let count = spaces_in(world);
    turns_up_to(world, count)
}

// How many spaces a world of n has.
pub(crate) fn spaces_among(n: u16) -> u16
    ensures count { result ≡ spec.spaces_in n }
    ensures there { result ≤ n }
    ensures few { result ≤ 32 }
{
    if n > SpaceId::MOST {
        return SpaceId::MOST;
    }
    n
}

/// How many spaces a world has.
pub fn spaces_in(world: &World) -> u16
    ensures count { result ≡ spec.spaces_in world.now.n }
    ensures there { result ≤ world.now.n }
    ensures few { result ≤ 32 }
{
    spaces_among(world.n())
}

// The turns of the spaces up to this number.
fn turns_up_to(world: &mut World, last: u16) -> Result<(), AllocError>
    requires there { last ≤ world.old.n }
    requires few { last ≤ 32 }
    ensures entries { OnOk result (spec.TookTurnsUpTo world.old.n last
        world.old.entries world.new.entries) }
    ensures n { world.new.n ≡ world.old.n }
{
    if last == 0 {
        return Ok(());
    }
    let Some(space) = SpaceId::new(last) else {
        unreachable!();
    };
    turns_up_to(world, last - 1)?;
    take_turn(world, space)
}

// The turn of a space.
fn take_turn(world: &mut World, space: SpaceId) -> Result<(), AllocError>
    requires { space ≤ world.old.n }
    ensures entries { OnOk result (spec.TookTurn world.old.n space
        world.old.entries world.new.entries) }
    ensures n { world.new.n ≡ world.old.n }
{
    let count = spaces_in(world);
    bring_up_to(world, space, count)?;
    repeat(world, space, &Event::Settle, MOST_REPEATS)?;
    repeat(world, space, &Event::Clean, MOST_REPEATS)
}

// Brings the spaces up to this number what a space has to send.
fn bring_up_to(world: &mut World, from: SpaceId, last: u16) -> Result<(), AllocError>
    requires sender { from ≤ world.old.n }
    requires receivers { last ≤ world.old.n }
    requires few { last ≤ 32 }
    ensures entries { OnOk result (spec.BroughtUpTo from last
        world.old.entries world.new.entries) }
    ensures n { world.new.n ≡ world.old.n }
{
    if last == 0 {
        return Ok(());
    }
    let Some(to) = SpaceId::new(last) else {
        unreachable!();
    };
    bring_up_to(world, from, last - 1)?;
    bring(world, from, to)
}
