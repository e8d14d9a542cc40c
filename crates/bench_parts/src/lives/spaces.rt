//! Whole lives of references between two spaces, and calls from one to the other.

use crate::bringing::{METHOD, bring};
use crate::lives::task::SpacesTask;
use nob_exchange::{agent_of, with_three};
use nob_ids::Limits;
use nob_model::{Outcome, Refusal};
use nob_pickle::Value;
use nob_space::{Space, SpaceError};
use std::alloc::Global;

/// The objects that are held, and then the lives and the calls, at two of three new spaces.
pub(crate) fn live_all(alloc: Global, task: SpacesTask) -> Result<(), SpaceError> {
    with_three(alloc, Limits::default(), |owner, client, _other| {
        live(owner, client, task)?;
        if is_quiet(owner) && is_quiet(client) {
            Ok(())
        } else {
            Err(SpaceError::Refused(Refusal::Nothing))
        }
    })
}

// Whether a space has nothing to act on, to settle, to give up, to carry out or to withdraw.
fn is_quiet(space: &Space) -> bool {
    let work = space.work();
    let acts = work.act.iter().any(|act| *act);
    !acts && !work.settle && !work.clean && !work.claim && work.withdraw.is_none()
}

// The objects that are held, and then the lives and the calls.
fn live(owner: &mut Space, client: &mut Space, task: SpacesTask) -> Result<(), SpaceError> {
    for _ in 0..task.held {
        owner.export()?;
    }
    for _ in 0..task.lives {
        one_life(owner, client)?;
    }
    for _ in 0..task.calls {
        one_call(owner, client)?;
    }
    Ok(())
}

// A call of a space's agent by the other, whose reply is taken.
fn one_call(owner: &mut Space, client: &mut Space) -> Result<(), SpaceError> {
    let call = client.call(&agent_of(owner), METHOD, &Value::Unit)?;
    bring(client, owner)?;
    let job = owner.claim()?;
    owner.finish(job.job, &Outcome::NoMethod)?;
    bring(owner, client)?;
    client.take_reply(call)?;
    Ok(())
}

// The whole life of a reference: exported, sent in a call, asked for and granted, settled, given up
// and withdrawn.
fn one_life(owner: &mut Space, client: &mut Space) -> Result<(), SpaceError> {
    let rep = owner.export()?;
    let call = owner.call(&agent_of(client), METHOD, &Value::Ref(rep))?;
    bring(owner, client)?;
    bring(client, owner)?;
    if !owner.lists(rep.index, client.id()) {
        return Err(SpaceError::Refused(Refusal::NotHeld));
    }
    bring(owner, client)?;
    client.settle()?;
    let job = client.claim()?;
    client.finish(job.job, &Outcome::NoMethod)?;
    client.clean()?;
    bring(client, owner)?;
    if !owner.reply_ready(call) {
        return Err(SpaceError::Refused(Refusal::NotReady));
    }
    owner.take_reply(call)?;
    owner.release(&rep)?;
    owner.withdraw(rep.index)?;
    bring(owner, client)
}
