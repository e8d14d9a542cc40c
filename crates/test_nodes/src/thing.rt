//! The objects.

use nob_dispatch_objects::{Agent, Done, Object, Outcome};
use nob_pickle::Value;

/// An object.
#[derive(Clone, Copy, Debug, Drop)]
pub(crate) enum Thing {
    /// Counts its calls, and answers how many there were.
    Counter(i64),
    /// Calls the object that its argument refers to, and answers what that answered.
    Caller,
}

impl Object for Thing {
    fn invoke(&mut self, _method: u16, args: &Value) -> Outcome {
        match self {
            Thing::Counter(calls) => {
                *calls = calls.saturating_add(1);
                Outcome::Answer(Value::Int(*calls))
            }
            Thing::Caller => call_of(args),
        }
    }

    fn resume(&mut self, done: &Done) -> Outcome {
        match done {
            Done::Replied { value, .. } => match value {
                Value::Int(number) => Outcome::Answer(Value::Int(*number)),
                _ => Outcome::NoMethod,
            },
            _ => Outcome::NoMethod,
        }
    }
}

// A call of the object that an argument refers to.
fn call_of(args: &Value) -> Outcome {
    match args {
        Value::Ref(target) => Outcome::Call {
            target: *target,
            method: 0,
            value: Value::Unit,
        },
        _ => Outcome::NoMethod,
    }
}

/// Answers twice the number of its argument, whatever the method.
#[derive(Clone, Copy, Debug, Drop)]
pub(crate) struct Doubler;

impl Object for Doubler {
    fn invoke(&mut self, _method: u16, args: &Value) -> Outcome {
        match args {
            Value::Int(number) => Outcome::Answer(Value::Int(number.saturating_add(*number))),
            _ => Outcome::NoMethod,
        }
    }

    fn resume(&mut self, _done: &Done) -> Outcome {
        Outcome::NoMethod
    }
}

/// The objects of a node with three kinds of them, as one type.
#[derive(Drop)]
pub(crate) enum Mixed {
    /// A counter, or who calls.
    Thing(Thing),
    /// What doubles a number.
    Doubler(Doubler),
    /// A table of names.
    Names(Agent),
}

impl Object for Mixed {
    fn invoke(&mut self, method: u16, args: &Value) -> Outcome {
        match self {
            Mixed::Thing(thing) => thing.invoke(method, args),
            Mixed::Doubler(doubler) => doubler.invoke(method, args),
            Mixed::Names(names) => names.invoke(method, args),
        }
    }

    fn resume(&mut self, done: &Done) -> Outcome {
        match self {
            Mixed::Thing(thing) => thing.resume(done),
            Mixed::Doubler(doubler) => doubler.resume(done),
            Mixed::Names(names) => names.resume(done),
        }
    }
}
