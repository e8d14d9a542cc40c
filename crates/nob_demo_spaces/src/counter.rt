//! The object that is called.

ghost use Rattle.std.specs.Prelude.{◌≡◌, pos};
ghost use Rattle.nob_demo_spaces.specs.Counters as spec;

use nob_dispatch_objects::{Done, Object, Outcome};
use nob_pickle::Value;

/// A counter. Its method 0 adds a whole number to the total, and answers the total.
#[derive(Debug, Drop)]
pub struct Counter {
    total: i64,
}

impl Counter {
    /// A counter at 0.
    pub fn new() -> Counter
        ensures { result.total ≡ pos 0 }
    {
        Counter { total: 0 }
    }
}

impl Object for Counter {
    fn invoke(&mut self, method: u16, args: &Value) -> Outcome
        ensures total { self.new.total ≡ spec.total_after method args.now self.old.total }
        ensures outcome { result ≡ spec.outcome_of method args.now self.old.total }
    {
        if method != 0 {
            return Outcome::NoMethod;
        }
        match args {
            Value::Int(number) => {
                self.total = self.total.wrapping_add(*number);
                Outcome::Answer(Value::Int(self.total))
            }
            _ => Outcome::Fault(Value::Unit),
        }
    }

    fn resume(&mut self, _done: &Done) -> Outcome
        ensures total { self.new.total ≡ self.old.total }
    {
        Outcome::NoMethod
    }
}
