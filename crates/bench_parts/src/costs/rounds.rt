//! The rounds.

use crate::bringing::METHOD;
use crate::costs::holding::pass;
use crate::costs::task::Round;
use nob_exchange::{agent_of, exchange};
use nob_ids::WireRep;
use nob_model::{Outcome, Refusal};
use nob_pickle::Value;
use nob_space::{Space, SpaceError};

/// One round; some are about a reference that the second space has in the hand.
pub(crate) fn make_round(
    one: &mut Space,
    two: &mut Space,
    round: Round,
    rep: Option<WireRep>,
) -> Result<(), SpaceError> {
    match round {
        Round::Dup => hold_twice(two, rep),
        Round::Export => make_object(one),
        Round::Call => make_call(one, two),
        Round::Life => live(one, two),
        Round::Work => look(one, two),
        Round::First => give_up(one, two, rep),
        Round::Last => give_up(one, two, rep),
        Round::Close => close(one, two),
        Round::Transmit => transmit(one, two),
    }
}

// A reference is taken into the hand once more, and given back.
fn hold_twice(two: &mut Space, rep: Option<WireRep>) -> Result<(), SpaceError> {
    let Some(rep) = rep else {
        return Err(SpaceError::Refused(Refusal::NotHeld));
    };
    two.dup(&rep)?;
    two.release(&rep)?;
    Ok(())
}

// An object is exported, released and withdrawn.
fn make_object(one: &mut Space) -> Result<(), SpaceError> {
    let rep = one.export()?;
    one.release(&rep)?;
    one.withdraw(rep.index)?;
    Ok(())
}

// The second space calls the agent of the first, and takes the reply to the oldest call that is
// answered then.
fn make_call(one: &mut Space, two: &mut Space) -> Result<(), SpaceError> {
    two.call(&agent_of(one), METHOD, &Value::Unit)?;
    exchange(two, one)?;
    let job = one.claim()?;
    one.finish(job.job, &Outcome::NoMethod)?;
    exchange(one, two)?;
    two.take_reply(job.call)?;
    Ok(())
}

// The whole life of a reference to a new object.
fn live(one: &mut Space, two: &mut Space) -> Result<(), SpaceError> {
    let rep = pass(one, two)?;
    one.release(&rep)?;
    two.release(&rep)?;
    clean(one, two)?;
    one.withdraw(rep.index)?;
    Ok(())
}

// The second space gives up what it can, and the first hears of it.
fn clean(one: &mut Space, two: &mut Space) -> Result<(), SpaceError> {
    two.clean()?;
    exchange(two, one)?;
    Ok(())
}

// Both are asked what they could do next.
fn look(one: &mut Space, two: &mut Space) -> Result<(), SpaceError> {
    let here = one.work();
    let there = two.work();
    if here.settle || there.settle {
        return Err(SpaceError::Refused(Refusal::Nothing));
    }
    Ok(())
}

// The second space gives a reference up, and the first hears of it.
fn give_up(one: &mut Space, two: &mut Space, rep: Option<WireRep>) -> Result<(), SpaceError> {
    let Some(rep) = rep else {
        return Err(SpaceError::Refused(Refusal::NotHeld));
    };
    two.release(&rep)?;
    clean(one, two)
}

// The first space closes the session with the second, which hears of it.
fn close(one: &mut Space, two: &mut Space) -> Result<(), SpaceError> {
    one.close(two.id())?;
    exchange(one, two)?;
    Ok(())
}

// The first space transmits what it has sent, and the frames are lost.
fn transmit(one: &mut Space, two: &Space) -> Result<(), SpaceError> {
    let _lost = one.transmit(two.id())?;
    Ok(())
}
