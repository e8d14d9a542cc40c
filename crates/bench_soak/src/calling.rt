//! The calls that a player makes by chance.

use crate::desk::Doing;
use crate::kind::{Kind, Reference, owner_of};
use crate::player::Soaker;
use crate::pocket::{Held, Pocket, give_back};
use crate::steps::made;
use crate::thing::Thing;
use nob_ids::WireRep;
use nob_nodes::{Hold, Node, NodeError, Returned};
use nob_pickle::Value;
use std::sync::Wait;

// Calls an object of another space by chance.
pub(crate) fn call_any<R: Wait>(
    soaker: &mut Soaker,
    rt: &R,
    node: &mut Node<Thing>,
    pocket: &mut Pocket,
) {
    let Some((rep, kind)) = target_by(soaker, pocket) else {
        return;
    };
    let method = method_of(soaker, kind);
    let fresh = made_for_call(soaker, rt, node);
    let value = value_by(soaker, rep, kind, pocket, reference_in(&fresh));
    soaker.say(rt, Doing::Calls(owner_of(&rep)));
    let called = call_held(rt, node, pocket, rep, method, value);
    take_returned(soaker, rt, node, pocket, called);
    if let Some(held) = fresh {
        keep_or_give_back(soaker, rt, node, pocket, held);
    }
}

// A new object that is to be passed, for one call of four.
fn made_for_call<R: Wait>(soaker: &mut Soaker, rt: &R, node: &mut Node<Thing>) -> Option<Held> {
    if soaker.chance.is_so(25) {
        made(soaker, rt, node)
    } else {
        None
    }
}

// The reference of a hold, if there is one.
fn reference_in(held: &Option<Held>) -> Option<Reference> {
    match held {
        Some(held) => Some(held.reference()),
        None => None,
    }
}

// The reference to call by, which is held, and the kind of its object.
fn target_by(soaker: &mut Soaker, pocket: &Pocket) -> Option<(WireRep, Kind)> {
    let held = pocket.any_of_others(&mut soaker.chance, soaker.space)?;
    Some((held.hold.rep(), held.kind))
}

// A method of an object of a kind.
fn method_of(soaker: &mut Soaker, kind: Kind) -> u16 {
    let drawn = soaker.chance.below(20);
    match kind {
        Kind::Table => match drawn {
            0..10 => 0,
            10..15 => 1,
            15..18 => 2,
            18 => 3,
            _ => 4,
        },
        _ => { if drawn == 0 { 1 } else { 0 } }
    }
}

// What passes a reference: unit, where there is no memory for it.
fn value_of(soaker: &mut Soaker, reference: Reference) -> Value {
    reference.value(soaker.alloc).unwrap_or(Value::Unit)
}

// An argument for an object of a kind: a reference to a new object, if there is one; else often one
// that is held, be it of this space, of the object's or of a third one; for a caller one that it
// calls, if there is one.
fn value_by(
    soaker: &mut Soaker,
    target: WireRep,
    kind: Kind,
    pocket: &Pocket,
    fresh: Option<Reference>,
) -> Value {
    if let Some(reference) = fresh {
        return value_of(soaker, reference);
    }
    let found = if kind == Kind::Caller {
        pocket.any_above(&mut soaker.chance, target.owner)
    } else {
        None
    };
    let passed = match found {
        Some(held) => Some(held.reference()),
        None if soaker.chance.is_so(60) => match pocket.any(&mut soaker.chance) {
            Some(held) => Some(held.reference()),
            None => None,
        },
        None => None,
    };
    match passed {
        Some(reference) => value_of(soaker, reference),
        None if soaker.chance.is_so(50) => Value::Int(i64::from(
            soaker.chance.small_between(0, 255),
        )),
        None => Value::Unit,
    }
}

// Calls a method of the object of a reference that is held.
fn call_held<R: Wait>(
    rt: &R,
    node: &mut Node<Thing>,
    pocket: &Pocket,
    rep: WireRep,
    method: u16,
    value: Value,
) -> Result<Returned, NodeError> {
    let Some(held) = pocket.of(rep) else {
        return Ok(Returned::Ended);
    };
    match node.call(rt, &held.hold, method, value) {
        Ok(returned) => Ok(returned),
        Err((error, _value)) => Err(error),
    }
}

// Counts what a call came to, and keeps the reference that it returned.
fn take_returned<R: Wait>(
    soaker: &mut Soaker,
    rt: &R,
    node: &mut Node<Thing>,
    pocket: &mut Pocket,
    called: Result<Returned, NodeError>,
) {
    let returned = match called {
        Ok(returned) => returned,
        Err(error) => return soaker.figures.count_error(error),
    };
    soaker.figures.count_returned(&returned);
    match returned {
        Returned::Replied {
            status: _,
            value,
            holds,
        } => keep_each(soaker, rt, node, pocket, Reference::of_value(&value), holds),
        Returned::Ended => {}
    }
}

// Keeps holds on what a value passed; where that isn't known, they are given back.
fn keep_each<R: Wait>(
    soaker: &mut Soaker,
    rt: &R,
    node: &mut Node<Thing>,
    pocket: &mut Pocket,
    passed: Option<Reference>,
    holds: Vec<Hold>,
) {
    match passed {
        Some(reference) => {
            let got = u64::try_from(holds.len()).unwrap_or(0);
            soaker.figures.got = soaker.figures.got.saturating_add(got);
            put_each(rt, node, pocket, reference.kind, holds);
        }
        None => give_each_back(rt, node, holds),
    }
}

// Puts holds on objects of a kind into a pocket.
fn put_each<R: Wait>(
    rt: &R,
    node: &mut Node<Thing>,
    pocket: &mut Pocket,
    kind: Kind,
    mut holds: Vec<Hold>,
) {
    while let Some(hold) = holds.pop() {
        pocket.put(rt, node, Held { hold, kind });
    }
    holds.destroy_empty();
}

// Gives holds back.
fn give_each_back<R: Wait>(rt: &R, node: &mut Node<Thing>, mut holds: Vec<Hold>) {
    while let Some(hold) = holds.pop() {
        give_back(rt, node, hold);
    }
    holds.destroy_empty();
}

// Keeps a hold, or gives it back.
fn keep_or_give_back<R: Wait>(
    soaker: &mut Soaker,
    rt: &R,
    node: &mut Node<Thing>,
    pocket: &mut Pocket,
    held: Held,
) {
    if soaker.chance.is_so(30) {
        pocket.put(rt, node, held);
    } else {
        let Held { hold, kind: _ } = held;
        give_back(rt, node, hold);
    }
}

// Calls a method without an argument: whether it was answered.
pub(crate) fn call_plain<R: Wait>(
    soaker: &mut Soaker,
    rt: &R,
    node: &mut Node<Thing>,
    hold: &Hold,
    method: u16,
) -> bool {
    match node.call(rt, hold, method, Value::Unit) {
        Ok(returned) => {
            soaker.figures.count_returned(&returned);
            let is_answered = is_answer(&returned);
            returned.forget();
            is_answered
        }
        Err((error, _value)) => {
            soaker.figures.count_error(error);
            false
        }
    }
}

// Whether a call was answered.
fn is_answer(returned: &Returned) -> bool {
    match returned {
        Returned::Replied { status, .. } => *status == 0,
        Returned::Ended => false,
    }
}
