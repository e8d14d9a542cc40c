//! Rounds of two spaces.

use crate::node::{Agents, agents_of, ends_of_both, keeper_of};
use nob_ids::{SpaceId, WireRep};
use nob_keeper::Keeper;
use nob_model_types::Event;
use nob_pickle::Value;
use std::alloc::Global;
use std::sync::Wait;

/// The maximum number of rounds where nothing is lost.
const MAX_ROUNDS: u32 = 200;

/// What came of a run.
#[derive(Clone, Copy, Debug, PartialEq, Eq)]
pub(crate) struct Outcome {
    pub(crate) is_withdrawn: bool,
    pub(crate) carers_idle_rightly: bool,
    pub(crate) senders_idle_rightly: bool,
}

/// Two spaces take turns until the first has withdrawn its object, or for so many rounds. Of ten
/// frames so many are lost, and others repeated or kept back.
pub(crate) fn run<R: Wait>(rt: &R, alloc: Global, loss: u64) -> Option<Outcome> {
    let first = SpaceId::new(1)?;
    let second = SpaceId::new(2)?;
    let one = keeper_of(alloc, first)?;
    let Some(other) = keeper_of(alloc, second) else {
        one.shut();
        return None;
    };
    let outcome = between(rt, alloc, &one, &other, loss);
    one.shut();
    other.shut();
    outcome
}

/// The first space's object is on its way to the second, when the second's agents go away: whether
/// the first closes the session and withdraws the object.
pub(crate) fn run_alone<R: Wait>(rt: &R, alloc: Global) -> Option<bool> {
    let first = SpaceId::new(1)?;
    let second = SpaceId::new(2)?;
    let one = keeper_of(alloc, first)?;
    let Some(other) = keeper_of(alloc, second) else {
        one.shut();
        return None;
    };
    let is_withdrawn = left_alone(rt, alloc, &one, &other);
    one.shut();
    other.shut();
    is_withdrawn
}

// The same of two keepers.
fn left_alone<R: Wait>(rt: &R, alloc: Global, one: &Keeper, other: &Keeper) -> Option<bool> {
    let (mut ours, mut theirs) = agents_of_both(alloc, one, other, 0)?;
    begin(rt, one, &mut ours)?;
    for _ in 0..3 {
        ours.round(rt, one)?;
        theirs.round(rt, other)?;
    }
    if ours.has_withdrawn() {
        return Some(false);
    }
    drop(theirs);
    for _ in 0..MAX_ROUNDS {
        ours.round(rt, one)?;
        if ours.has_withdrawn() {
            return Some(true);
        }
    }
    Some(false)
}

// The run of two keepers.
fn between<R: Wait>(
    rt: &R,
    alloc: Global,
    one: &Keeper,
    other: &Keeper,
    loss: u64,
) -> Option<Outcome> {
    let (mut ours, mut theirs) = agents_of_both(alloc, one, other, loss)?;
    begin(rt, one, &mut ours)?;
    let most = if loss == 0 {
        MAX_ROUNDS
    } else {
        50 * MAX_ROUNDS
    };
    for _ in 0..most {
        ours.round(rt, one)?;
        theirs.round(rt, other)?;
        theirs.work(rt, other)?;
        if ours.has_withdrawn() {
            break;
        }
    }
    Some(Outcome {
        is_withdrawn: ours.has_withdrawn(),
        carers_idle_rightly: ours.carer_idled_rightly && theirs.carer_idled_rightly,
        senders_idle_rightly: ours.sender_idled_rightly && theirs.sender_idled_rightly,
    })
}

// The agents of the first space and of the second, with a link each way.
fn agents_of_both(
    alloc: Global,
    one: &Keeper,
    other: &Keeper,
    loss: u64,
) -> Option<(Agents, Agents)> {
    let (ends, other_ends) = ends_of_both(alloc, loss)?;
    let ours = agents_of(one, SpaceId::new(2)?, ends)?;
    let theirs = agents_of(other, SpaceId::new(1)?, other_ends)?;
    Some((ours, theirs))
}

/// The first space exports an object, sends it in a call of the second's agent, and releases it.
pub(crate) fn begin<R: Wait>(rt: &R, keeper: &Keeper, agents: &mut Agents) -> Option<()> {
    agents.ask(rt, keeper, &Event::Export)?;
    let object = WireRep {
        owner: SpaceId::new(1)?,
        index: 1,
    };
    let call = Event::Call {
        target: WireRep {
            owner: SpaceId::new(2)?,
            index: 0,
        },
        method: 1,
        value: Value::Ref(object),
    };
    agents.ask(rt, keeper, &call)?;
    agents.ask(rt, keeper, &Event::Release(object))
}
