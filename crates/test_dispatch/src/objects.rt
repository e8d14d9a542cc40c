//! The objects of the run.

use nob_dispatch_objects::{Agent, Done, Object, Outcome};
use nob_ids::{SpaceId, WireRep};
use nob_pickle::{Bytes, Value, Values};
use std::alloc::Global;

/// An object of the run.
#[derive(Drop)]
pub(crate) enum Thing {
    /// A node's agent.
    Agent(Agent),
    /// Counts its calls, and answers how many there were.
    Counter(i64),
    /// Calls the object that its argument refers to, and answers what that answered.
    Caller(Global),
    /// Its methods end as no method should: 0 by a fault, and 1 to 3 by what can't be sent.
    Odd(Global, SpaceId),
}

impl Object for Thing {
    fn invoke(&mut self, method: u16, args: &Value) -> Outcome {
        match self {
            Thing::Agent(agent) => agent.invoke(method, args),
            Thing::Counter(calls) => {
                *calls = calls.saturating_add(1);
                Outcome::Answer(Value::Int(*calls))
            }
            Thing::Caller(_) => match args {
                Value::Ref(target) => Outcome::Call {
                    target: *target,
                    method: 0,
                    value: Value::Unit,
                },
                _ => Outcome::NoMethod,
            },
            Thing::Odd(alloc, owner) => odd(*alloc, *owner, method),
        }
    }

    fn resume(&mut self, done: &Done) -> Outcome {
        match self {
            Thing::Agent(agent) => agent.resume(done),
            Thing::Caller(alloc) => answered(*alloc, done),
            _ => Outcome::NoMethod,
        }
    }
}

// A method that ends as none should.
fn odd(alloc: Global, owner: SpaceId, method: u16) -> Outcome {
    match method {
        0 => Outcome::Fault(Value::Int(7)),
        // No such object: S3.
        1 => Outcome::Answer(Value::Ref(WireRep { owner, index: 99 })),
        // Not held: S4.
        2 => Outcome::Answer(Value::Ref(other(owner))),
        // No pickle: S7.
        3 => match vec![in alloc; 0; 8193] {
            Ok(bytes) => Outcome::Answer(Value::Bytes(Bytes::from_vec(bytes))),
            Err(_) => Outcome::NoMethod,
        },
        _ => Outcome::NoMethod,
    }
}

// A reference that nobody sent here.
fn other(owner: SpaceId) -> WireRep {
    let other = if owner.get() == 1 { 2 } else { 1 };
    match SpaceId::new(other) {
        Some(owner) => WireRep { owner, index: 77 },
        None => WireRep { owner, index: 77 },
    }
}

// A list of what the object that was called answered.
fn answered(alloc: Global, done: &Done) -> Outcome {
    match done {
        Done::Replied { status, value } => match pair(alloc, *status, value) {
            Some(values) => Outcome::Answer(values),
            None => Outcome::Fault(Value::Int(1)),
        },
        Done::Ended => Outcome::Fault(Value::Int(2)),
        Done::Made => Outcome::Fault(Value::Int(3)),
        Done::Refused(_) => Outcome::Fault(Value::Int(4)),
    }
}

// A list of a status and a value.
fn pair(alloc: Global, status: u8, value: &Value) -> Option<Value> {
    let copy = value.copy().ok()?;
    let mut values = Vec::new(alloc);
    values.push(Value::Int(status as i64)).ok()?;
    values.push(copy).ok()?;
    Some(Value::List(Values::from_vec(values)))
}
