//! An object that calls others.

use crate::kind::{Kind, Reference, owner_of};
use nob_dispatch_objects::{Done, Outcome};
use nob_ids::WireRep;
use nob_pickle::Value;

/// An object whose method 0 calls the object that its argument passes, and answers the status of
/// what that answers. A method that waits for a reply has a worker; so that workers don't wait for
/// one another in a ring, it calls an object of a space with a higher number alone, and none that
/// calls.
#[derive(Clone, Copy, Drop)]
pub(crate) struct Caller {
    // The number of its space.
    space: u16,
    // The status of the reply, while a reference in it is given back.
    status: i64,
}

impl Caller {
    // One of the space of a number.
    pub(crate) fn new(space: u16) -> Caller {
        Caller { space, status: 0 }
    }

    // Begins a method.
    pub(crate) fn invoke(&mut self, args: &Value) -> Outcome {
        let Some(reference) = Reference::of_value(args) else {
            return Outcome::NoMethod;
        };
        let Reference { rep: target, kind } = reference;
        if owner_of(&target) <= self.space || !kind.is_leaf() {
            return Outcome::Fault(Value::Int(6));
        }
        Outcome::Call {
            target,
            method: method_for(kind),
            value: Value::Unit,
        }
    }

    // Goes on with it.
    pub(crate) fn resume(&mut self, done: &Done) -> Outcome {
        match done {
            Done::Replied { status, value } => {
                self.status = i64::from(*status);
                match counted_in(value) {
                    Some(rep) => Outcome::Release(rep),
                    None => Outcome::Answer(Value::Int(self.status)),
                }
            }
            Done::Made => Outcome::Answer(Value::Int(self.status)),
            Done::Ended => Outcome::Fault(Value::Int(7)),
            Done::Refused(_) => Outcome::Fault(Value::Int(8)),
        }
    }
}

// The method that is called of an object of a kind: a table is asked for what it keeps.
fn method_for(kind: Kind) -> u16 {
    match kind {
        Kind::Table => 1,
        _ => 0,
    }
}

// The reference that a reply has, where a table gave one.
fn counted_in(value: &Value) -> Option<WireRep> {
    match Reference::of_value(value) {
        Some(reference) => Some(reference.rep),
        None => None,
    }
}
