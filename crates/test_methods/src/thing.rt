//! The objects.

use crate::values::{long_bytes, reference_in};
use nob_dispatch_objects::{Done, Object, Outcome};
use nob_ids::WireRep;
use nob_pickle::Value;
use std::alloc::Global;

/// An object.
#[derive(Drop)]
pub(crate) enum Thing {
    /// Counts its calls, and answers how many there were.
    Counter(u64),
    /// Has an agent do what it is asked to do itself.
    Relay(Relay),
    /// Its methods end as none should.
    Odd(Odd),
    /// Keeps a reference.
    Holder(Holder),
}

/// Each of its methods calls the same method of an agent with the same argument, and ends as that
/// did. A reference that the agent answers is given back first.
#[derive(Debug, Drop)]
pub(crate) struct Relay {
    pub(crate) agent: WireRep,
    /// The reference that the agent answered.
    pub(crate) answered: Option<WireRep>,
}

impl Relay {
    // Begins a method.
    fn invoke(&self, method: u16, args: &Value) -> Outcome {
        match args.copy() {
            Ok(value) => Outcome::Call {
                target: self.agent,
                method,
                value,
            },
            Err(_) => Outcome::Fault(Value::Unit),
        }
    }

    // Goes on with it.
    fn resume(&mut self, done: &Done) -> Outcome {
        match done {
            Done::Replied { status, value } => self.end_as(*status, value),
            Done::Made => match self.answered.take() {
                Some(rep) => Outcome::Answer(Value::Ref(rep)),
                None => Outcome::Fault(Value::Unit),
            },
            _ => Outcome::Fault(Value::Unit),
        }
    }

    // Ends as the agent's method did.
    fn end_as(&mut self, status: u8, value: &Value) -> Outcome {
        self.answered = reference_in(value);
        if let Some(rep) = self.answered {
            return Outcome::Release(rep);
        }
        let Ok(value) = value.copy() else {
            return Outcome::Fault(Value::Unit);
        };
        match status {
            0 => Outcome::Answer(value),
            1 => Outcome::Fault(value),
            _ => Outcome::NoMethod,
        }
    }
}

/// Its methods end as none should: 0 by a fault, and 1 to 3 by what can't be sent.
#[derive(Debug, Drop)]
pub(crate) struct Odd {
    pub(crate) alloc: Global,
    /// An object that was withdrawn.
    pub(crate) withdrawn: WireRep,
    /// A reference that nobody sent here.
    pub(crate) unknown: WireRep,
}

impl Odd {
    // What its methods come to.
    fn invoke(&self, method: u16) -> Outcome {
        match method {
            0 => Outcome::Fault(Value::Int(7)),
            1 => Outcome::Answer(Value::Ref(self.withdrawn)),
            2 => Outcome::Answer(Value::Ref(self.unknown)),
            3 => match long_bytes(self.alloc, 8193) {
                Some(value) => Outcome::Answer(value),
                None => Outcome::NoMethod,
            },
            _ => Outcome::NoMethod,
        }
    }
}

/// Keeps a reference: method 0 keeps its argument, 1 calls what it keeps, 2 gives it back, and 3
/// gives its argument back, which it doesn't keep.
#[derive(Debug, Drop)]
pub(crate) struct Holder {
    pub(crate) kept: Option<WireRep>,
}

impl Holder {
    // Begins a method.
    fn invoke(&mut self, method: u16, args: &Value) -> Outcome {
        match method {
            0 => self.keep(reference_in(args)),
            1 => call_of(self.kept),
            2 => release_of(self.kept.take()),
            3 => release_of(reference_in(args)),
            _ => Outcome::NoMethod,
        }
    }

    // Keeps a reference, if there is one, by a hold more.
    fn keep(&mut self, rep: Option<WireRep>) -> Outcome {
        self.kept = rep;
        match self.kept {
            Some(rep) => Outcome::Dup(rep),
            None => Outcome::NoMethod,
        }
    }

    // Goes on with it.
    fn resume(&self, done: &Done) -> Outcome {
        match done {
            Done::Replied { value, .. } => match value {
                Value::Int(number) => Outcome::Answer(Value::Int(*number)),
                _ => Outcome::Fault(Value::Int(1)),
            },
            Done::Ended => Outcome::Fault(Value::Int(2)),
            Done::Made => Outcome::Answer(Value::Unit),
            Done::Refused(_) => Outcome::Fault(Value::Int(4)),
        }
    }
}

// A call of method 0 of an object, if there is one.
fn call_of(target: Option<WireRep>) -> Outcome {
    match target {
        Some(target) => Outcome::Call {
            target,
            method: 0,
            value: Value::Unit,
        },
        None => Outcome::Fault(Value::Int(3)),
    }
}

// What gives a reference back, if there is one.
fn release_of(rep: Option<WireRep>) -> Outcome {
    match rep {
        Some(rep) => Outcome::Release(rep),
        None => Outcome::Fault(Value::Int(3)),
    }
}

impl Object for Thing {
    fn invoke(&mut self, method: u16, args: &Value) -> Outcome {
        match self {
            Thing::Counter(calls) => {
                *calls = calls.saturating_add(1);
                Outcome::Answer(Value::Int(i64::try_from(*calls).unwrap_or(0)))
            }
            Thing::Relay(relay) => relay.invoke(method, args),
            Thing::Odd(odd) => odd.invoke(method),
            Thing::Holder(holder) => holder.invoke(method, args),
        }
    }

    fn resume(&mut self, done: &Done) -> Outcome {
        match self {
            Thing::Relay(relay) => relay.resume(done),
            Thing::Holder(holder) => holder.resume(done),
            _ => Outcome::NoMethod,
        }
    }
}
