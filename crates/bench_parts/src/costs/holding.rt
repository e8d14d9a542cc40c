//! What the spaces hold before rounds are made.

use crate::bringing::{METHOD, bring};
use crate::costs::task::{CostTask, Load, Round};
use nob_exchange::{agent_of, exchange};
use nob_ids::WireRep;
use nob_model::Outcome;
use nob_pickle::{Bytes, Value, Values};
use nob_space::{Space, SpaceError};
use std::alloc::{AllocError, Global};

// How many bytes the argument of a call has.
const SMALL: usize = 8;

const LARGE: usize = 8_000;

// How many references a call carries at most.
const REFS: usize = 32;

/// Has the spaces hold what a task says: the references that the second has in the hand then.
pub(crate) fn hold(
    alloc: Global,
    one: &mut Space,
    two: &mut Space,
    three: &mut Space,
    task: CostTask,
) -> Result<Vec<WireRep>, SpaceError> {
    let mut reps = Vec::new(alloc);
    for _ in 0..task.held {
        match task.load {
            Load::Held => keep(&mut reps, pass(one, two)?)?,
            Load::Listed => {
                let rep = pass(one, two)?;
                one.release(&rep)?;
                keep(&mut reps, rep)?;
            }
            Load::Waiting => pass_on(one, two, three)?,
            Load::Sent => keep(&mut reps, one.export()?)?,
            Load::Pinned => {
                let rep = pass(one, two)?;
                one.release(&rep)?;
                keep(&mut reps, rep)?;
            }
            Load::Ready => ask(one, two)?,
            Load::Running => run(one, two)?,
            Load::Answered => {
                ask(one, two)?;
                answer(one, two)?;
            }
            Load::Small => send(alloc, one, two, SMALL)?,
            Load::Large => send(alloc, one, two, LARGE)?,
        }
    }
    match task.load {
        Load::Sent => send_all(alloc, one, two, reps.as_slice())?,
        Load::Pinned => send_all(alloc, two, three, reps.as_slice())?,
        _ => {}
    }
    Ok(reps)
}

// A space passes references on to another, some in a call, and holds them no more. It doesn't
// transmit that.
fn send_all(
    alloc: Global,
    from: &mut Space,
    to: &Space,
    reps: &[WireRep],
) -> Result<(), SpaceError> {
    for some in reps.chunks(REFS) {
        let values = Values::from_vec(values_of(alloc, some)?);
        from.call(&agent_of(to), METHOD, &Value::List(values))?;
        for rep in some {
            from.release(rep)?;
        }
    }
    Ok(())
}

// The references as values.
fn values_of(alloc: Global, reps: &[WireRep]) -> Result<Vec<Value>, AllocError> {
    let mut values = Vec::with_capacity(alloc, reps.len())?;
    for rep in reps {
        values.push(Value::Ref(*rep))?;
    }
    Ok(values)
}

// Puts a reference to the others.
fn keep(reps: &mut Vec<WireRep>, rep: WireRep) -> Result<(), AllocError> {
    reps.push(rep)?;
    Ok(())
}

/// The reference that a round is about: the first or the last that none was about before.
pub(crate) fn rep_of(reps: &[WireRep], task: CostTask, number: u64) -> Option<WireRep> {
    let place = match task.round {
        Round::First => number,
        Round::Last => (reps.len() as u64).checked_sub(number)?.checked_sub(1)?,
        _ => 0,
    };
    reps.get(usize::try_from(place).ok()?).copied()
}

/// A reference to a new object of a space, which another has in the hand then.
pub(crate) fn pass(from: &mut Space, to: &mut Space) -> Result<WireRep, SpaceError> {
    let rep = from.export()?;
    let call = from.call(&agent_of(to), METHOD, &Value::Ref(rep))?;
    exchange(from, to)?;
    to.dup(&rep)?;
    let job = to.claim()?;
    to.finish(job.job, &Outcome::NoMethod)?;
    exchange(to, from)?;
    from.take_reply(call)?;
    Ok(rep)
}

// A reference to a new object of the third space goes through the first to the second, which the
// third isn't told of.
fn pass_on(one: &mut Space, two: &mut Space, three: &mut Space) -> Result<(), SpaceError> {
    let rep = pass(three, one)?;
    one.call(&agent_of(two), METHOD, &Value::Ref(rep))?;
    bring(one, two)?;
    bring(two, one)
}

// The first space calls the agent of the second with so many bytes, and doesn't transmit that.
fn send(alloc: Global, one: &mut Space, two: &Space, len: usize) -> Result<(), SpaceError> {
    let mut bytes = Vec::with_capacity(alloc, len)?;
    bytes.resize(len, 0)?;
    one.call(
        &agent_of(two),
        METHOD,
        &Value::Bytes(Bytes::from_vec(bytes)),
    )?;
    Ok(())
}

// The second space calls the agent of the first, which is told of it.
fn ask(one: &mut Space, two: &mut Space) -> Result<(), SpaceError> {
    two.call(&agent_of(one), METHOD, &Value::Unit)?;
    exchange(two, one)?;
    Ok(())
}

// The second space calls a new object of the first, and the job runs.
fn run(one: &mut Space, two: &mut Space) -> Result<(), SpaceError> {
    let rep = pass(one, two)?;
    two.call(&rep, METHOD, &Value::Unit)?;
    exchange(two, one)?;
    let _job = one.claim()?;
    Ok(())
}

// The first space answers a call, and the second is told of it.
fn answer(one: &mut Space, two: &mut Space) -> Result<(), SpaceError> {
    let job = one.claim()?;
    one.finish(job.job, &Outcome::NoMethod)?;
    exchange(one, two)?;
    Ok(())
}
