//! The objects.

use crate::caller::Caller;
use crate::kind::Kind;
use crate::table::Table;
use nob_dispatch_objects::{Done, Object, Outcome};
use nob_pickle::Value;
use std::alloc::Global;
use std::thread;

/// How often a slow object leaves its processor to others before it answers.
const SLOWNESS: u32 = 2_000;

/// An object.
#[derive(Drop)]
pub(crate) enum Thing {
    /// It counts its calls, and answers how many there were.
    Counter(i64),
    /// It keeps references.
    Table(Table),
    /// It calls the object that a reference is to.
    Caller(Caller),
    /// Its method 0 ends in a fault, and it has no other.
    Faulty,
    /// It takes long before it answers.
    Slow,
}

impl Thing {
    // A new one of a kind, at the space of a number.
    pub(crate) fn new(alloc: Global, kind: Kind, space: u16) -> Thing {
        match kind {
            Kind::Counter => Thing::Counter(0),
            Kind::Table => Thing::Table(Table::new(alloc, space)),
            Kind::Caller => Thing::Caller(Caller::new(space)),
            Kind::Faulty => Thing::Faulty,
            Kind::Slow => Thing::Slow,
        }
    }
}

impl Object for Thing {
    fn invoke(&mut self, method: u16, args: &Value) -> Outcome {
        match self {
            Thing::Counter(calls) => {
                *calls = calls.saturating_add(1);
                Outcome::Answer(Value::Int(*calls))
            }
            Thing::Table(table) => table.invoke(method, args),
            Thing::Caller(caller) => caller.invoke(args),
            Thing::Faulty if method == 0 => Outcome::Fault(Value::Int(1)),
            Thing::Faulty => Outcome::NoMethod,
            Thing::Slow => {
                for _ in 0..SLOWNESS {
                    thread::yield_now();
                }
                Outcome::Answer(Value::Unit)
            }
        }
    }

    fn resume(&mut self, done: &Done) -> Outcome {
        match self {
            Thing::Table(table) => table.resume(done),
            Thing::Caller(caller) => caller.resume(done),
            _ => Outcome::NoMethod,
        }
    }
}
