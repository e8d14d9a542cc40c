//! An object that keeps references.

use crate::kind::{Reference, owner_of};
use nob_dispatch_objects::{Done, Outcome};
use nob_pickle::Value;
use std::alloc::Global;
use std::mem;

/// How many references a table keeps at most.
const MAX_KEPT: usize = 8;

/// What a table does while a method runs.
#[derive(Clone, Copy)]
enum Doing {
    /// Nothing.
    Nothing,
    /// It asked for a hold on a reference that it is to keep.
    Keeps(Reference),
    /// It gives back a reference that it kept.
    Drops,
    /// It gives back one that there is no memory for.
    Refuses,
    /// It gives back all that it kept.
    Clears,
}

/// An object that keeps references to objects of other spaces. Method 0 keeps the one that its
/// argument passes, method 1 answers the first, method 2 gives the last back, method 3 all.
#[derive(Drop)]
pub(crate) struct Table {
    alloc: Global,
    // The number of the space that it is an object of: none of its references is kept, since nobody
    // could have them given back once all sessions are closed.
    space: u16,
    kept: Vec<Reference>,
    doing: Doing,
}

impl Table {
    // One of the space of a number, which keeps nothing yet.
    pub(crate) fn new(alloc: Global, space: u16) -> Table {
        Table {
            alloc,
            space,
            kept: Vec::new(alloc),
            doing: Doing::Nothing,
        }
    }

    // Begins to keep the reference that an argument passes.
    fn keep(&mut self, args: &Value) -> Outcome {
        let Some(reference) = Reference::of_value(args) else {
            return Outcome::NoMethod;
        };
        if owner_of(&reference.rep) == self.space || self.kept.len() >= MAX_KEPT {
            return Outcome::Fault(Value::Int(2));
        }
        self.doing = Doing::Keeps(reference);
        Outcome::Dup(reference.rep)
    }

    // The first that is kept.
    fn give(&self) -> Outcome {
        let Some(reference) = self.kept.first() else {
            return Outcome::Fault(Value::Int(3));
        };
        match reference.value(self.alloc) {
            Ok(value) => Outcome::Answer(value),
            Err(_) => Outcome::Fault(Value::Int(4)),
        }
    }

    // Gives the last one back, while something is done; then it ends.
    fn give_back(&mut self, doing: Doing) -> Outcome {
        match self.kept.pop() {
            Some(reference) => {
                self.doing = doing;
                Outcome::Release(reference.rep)
            }
            None => Outcome::Answer(Value::Unit),
        }
    }

    // Keeps a reference that it has a hold on.
    fn kept(&mut self, reference: Reference) -> Outcome {
        let rep = reference.rep;
        if add(&mut self.kept, reference) {
            return Outcome::Answer(Value::Unit);
        }
        self.doing = Doing::Refuses;
        Outcome::Release(rep)
    }

    // Begins a method.
    pub(crate) fn invoke(&mut self, method: u16, args: &Value) -> Outcome {
        match method {
            0 => self.keep(args),
            1 => self.give(),
            2 => self.give_back(Doing::Drops),
            3 => self.give_back(Doing::Clears),
            _ => Outcome::NoMethod,
        }
    }

    // Goes on with it.
    pub(crate) fn resume(&mut self, done: &Done) -> Outcome {
        match mem::replace(&mut self.doing, Doing::Nothing) {
            Doing::Nothing => Outcome::NoMethod,
            Doing::Keeps(reference) => match done {
                Done::Made => self.kept(reference),
                _ => Outcome::Fault(Value::Int(5)),
            },
            Doing::Drops => Outcome::Answer(Value::Unit),
            Doing::Refuses => Outcome::Fault(Value::Int(4)),
            Doing::Clears => self.give_back(Doing::Clears),
        }
    }
}

// One reference more, if there is memory for it: whether there was.
fn add(kept: &mut Vec<Reference>, reference: Reference) -> bool {
    kept.push(reference).is_ok()
}
