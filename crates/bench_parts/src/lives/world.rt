//! Whole lives of references in a world.

use crate::bringing::{MAX_ITEMS, METHOD};
use nob_ids::{CallNo, JobNo, SpaceId, WireRep};
use nob_model::{Answer, Event, Outcome, WorldStep};
use nob_pickle::Value;
use nob_world::{World, WorldError};

/// The number of spaces in the world.
pub(crate) const SPACES: u64 = 4;

/// Lets objects of each space in turn live and end, `lives` in all: whether each came to its end.
pub(crate) fn live(world: &mut World, lives: u64) -> Result<bool, WorldError> {
    for life in 0..lives {
        let place = life % SPACES;
        let owner = space_at(place);
        let client = space_at((place + 1 + life / SPACES % (SPACES - 1)) % SPACES);
        if !one_life(world, owner, client)? {
            return Ok(false);
        }
    }
    Ok(true)
}

/// The space at a place, counted from 0.
pub(crate) fn space_at(place: u64) -> SpaceId {
    match SpaceId::new((place % 32) as u16 + 1) {
        Some(space) => space,
        None => unreachable!(),
    }
}

// The whole life of a reference: exported, sent in a call, asked for and granted, settled, given up
// and withdrawn. Whether it came to its end.
fn one_life(world: &mut World, owner: SpaceId, client: SpaceId) -> Result<bool, WorldError> {
    let Some(rep) = export(world, owner)? else {
        return Ok(false);
    };
    let Some(call) = call_with(world, owner, client, &rep)? else {
        return Ok(false);
    };
    carry(world, owner, client)?;
    carry(world, client, owner)?;
    carry(world, owner, client)?;
    ask(world, client, Event::Settle)?;
    let Some(job) = claim(world, client)? else {
        return Ok(false);
    };
    ask(world, client, Event::Finish(job, Outcome::NoMethod))?;
    ask(world, client, Event::Clean)?;
    carry(world, client, owner)?;
    ask(world, owner, Event::TakeReply(call))?;
    ask(world, owner, Event::Release(rep))?;
    let end = ask(world, owner, Event::Withdraw(rep.index))?;
    carry(world, owner, client)?;
    Ok(end.is_some())
}

// Asks a space something: its answer, where it doesn't refuse.
fn ask(world: &mut World, space: SpaceId, event: Event) -> Result<Option<Answer>, WorldError> {
    make(world, &WorldStep::Do(space, event))
}

// Makes a step: its answer, where its space doesn't refuse.
fn make(world: &mut World, step: &WorldStep) -> Result<Option<Answer>, WorldError> {
    match world.step(step) {
        Ok(answer) => Ok(Some(answer)),
        Err(WorldError::Refused(_)) => Ok(None),
        Err(error) => Err(error),
    }
}

// Exports an object.
fn export(world: &mut World, space: SpaceId) -> Result<Option<WireRep>, WorldError> {
    let answer = ask(world, space, Event::Export)?;
    match &answer {
        Some(Answer::Exported(rep)) => Ok(Some(*rep)),
        _ => Ok(None),
    }
}

// Claims a job.
fn claim(world: &mut World, space: SpaceId) -> Result<Option<JobNo>, WorldError> {
    let answer = ask(world, space, Event::Claim)?;
    match &answer {
        Some(Answer::Job(job)) => Ok(Some(job.job)),
        _ => Ok(None),
    }
}

// Calls the agent of another space with a reference.
fn call_with(
    world: &mut World,
    space: SpaceId,
    other: SpaceId,
    rep: &WireRep,
) -> Result<Option<CallNo>, WorldError> {
    let event = Event::Call {
        target: WireRep {
            owner: other,
            index: 0,
        },
        method: METHOD,
        value: Value::Ref(*rep),
    };
    let answer = ask(world, space, event)?;
    match &answer {
        Some(Answer::Called(call)) => Ok(Some(*call)),
        _ => Ok(None),
    }
}

// What a space has to send is brought to another, which acts on it.
fn carry(world: &mut World, from: SpaceId, to: SpaceId) -> Result<(), WorldError> {
    let before = world.frames().len();
    ask(world, from, Event::Transmit(to))?;
    let after = world.frames().len();
    for place in before..after {
        make(world, &WorldStep::Deliver(place as u64 + 1))?;
    }
    for _ in 0..MAX_ITEMS {
        if ask(world, to, Event::Act(from))?.is_none() {
            return Ok(());
        }
    }
    Ok(())
}
