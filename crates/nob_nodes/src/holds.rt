//! What players do with holds.

ghost use Rattle.std.specs.Prelude.{◌≢◌, Ok, IfSome, IfOk, IfErr, OnOk};
ghost use Rattle.nob_model_types.specs.declared.event.Event.TheVariants as events;
ghost use Rattle.nob_model_types.specs.declared.answer.Answer.TheVariants as answers;
ghost use Rattle.nob_nodes.specs.Calls as calls;
ghost use Rattle.nob_nodes.specs.Asked as asked;

use crate::{Hold, KeeperError, Node, NodeError, Returned};
use nob_dispatch_objects::Object;
use nob_ids::SpaceId;
use nob_pickle::Value;
use std::sync::Wait;
use std::thread;

/// Makes an object known by a name at this node's own agent: a hold on it. `None` where that fails:
/// then the object is gone.
pub fn offer<O: Object, R: Wait>(
    rt: &R,
    node: &mut Node<O>,
    name: &[u8],
    object: O,
) -> Option<Hold> {
    let Ok(hold) = node.export(rt, object) else {
        return None;
    };
    if node.bind(rt, name, &hold).is_err() {
        let _ = give_back(rt, node, hold);
        return None;
    }
    Some(hold)
}

/// Removes the name of an object of this node, gives the hold on it back, and waits until nobody
/// refers to it any more. Whoever withdraws it wakes this one. Where name or hold can't be given
/// back nobody waits: that object is in the node's report.
pub fn retire<O: Object, R: Wait>(rt: &R, node: &mut Node<O>, name: &[u8], hold: Hold) {
    let index = hold.rep().index;
    let is_unnamed = node.unbind(rt, name).is_ok();
    let is_back = give_back(rt, node, hold).is_ok();
    if is_unnamed && is_back {
        node.wait_withdrawn(rt, index);
    }
}

/// The object that a name stands for at a space's agent: a hold on it. `None` where there is no
/// such name, or it can't be asked.
pub fn look_up<O: Object, R: Wait>(
    rt: &R,
    node: &mut Node<O>,
    space: SpaceId,
    name: &[u8],
) -> Option<Hold>
    ensures { IfSome result (λ hold.
        asked.IsLookedUp node.old node.new space name.now hold) }
{
    let Ok(returned) = node.lookup(rt, space, name) else {
        return None;
    };
    match returned.into_hold() {
        Ok(hold) => Some(hold),
        Err(returned) => {
            give_back_all(rt, node, returned);
            None
        }
    }
}

/// Calls a method of the object that a hold is on: what it answers. `None` where the call fails,
/// ends in a fault or without a reply, or answers with counted references, which are given back.
pub fn answer_to<O: Object, R: Wait>(
    rt: &R,
    node: &mut Node<O>,
    hold: &Hold,
    method: u16,
    value: Value,
) -> Option<Value>
    ensures { IfSome result (λ answer.
        asked.IsAnswered node.old node.new hold.now.rep method value answer) }
{
    let Ok(returned) = node.call(rt, hold, method, value) else {
        return None;
    };
    match plain_value(returned) {
        Ok(answer) => Some(answer),
        Err(returned) => {
            give_back_all(rt, node, returned);
            None
        }
    }
}

// The value of an answer without counted references: else what was returned comes back.
fn plain_value(returned: Returned) -> Result<Value, Returned>
    ensures { IfOk result (λ answer. asked.IsValue returned answer) }
{
    match returned {
        Returned::Replied {
            status,
            value,
            holds,
        } => {
            if status == 0 && holds.is_empty() {
                holds.destroy_empty();
                return Ok(value);
            }
            Err(Returned::Replied {
                status,
                value,
                holds,
            })
        }
        Returned::Ended => Err(Returned::Ended),
    }
}

/// Gives back each hold of what a call returned.
pub fn give_back_all<O: Object, R: Wait>(rt: &R, node: &mut Node<O>, returned: Returned) {
    match returned {
        Returned::Replied {
            status: _,
            value: _,
            holds,
        } => give_back_each(rt, node, holds),
        Returned::Ended => {}
    }
}

// Gives back these holds.
fn give_back_each<O: Object, R: Wait>(rt: &R, node: &mut Node<O>, mut holds: Vec<Hold>) {
    while let Some(hold) = holds.pop() {
        let _ = give_back(rt, node, hold);
    }
    holds.destroy_empty();
}

/// Gives a hold back. Where memory is wanted it waits for some. Where that is refused, as the hold of
/// another node is, or where the trace is full, the hold is forgotten. A session that has closed
/// refuses no release.
pub fn give_back<O: Object, R: Wait>(
    rt: &R,
    node: &mut Node<O>,
    hold: Hold,
) -> Result<(), NodeError>
    ensures made { OnOk result
        (calls.Answered node.old node.new (events.Release hold.rep) (Ok answers.Done)) }
    ensures refused { IfErr result (λ error.
        calls.IsRefusal node.old node.new (events.Release hold.rep) error) }
    ensures only { IfErr result (λ error. error ≢ calls.want) }
{
    let mut held = hold;
    for _ in rt.forever() {
        match node.release(rt, held) {
            Ok(()) => return Ok(()),
            Err((NodeError::Keeper(KeeperError::OutOfMemory), back)) => held = back,
            Err((error, back)) => {
                back.forget();
                return Err(error);
            }
        }
        thread::yield_now();
    }
    unreachable!()
}
