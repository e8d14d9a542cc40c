//! The object.

use nob_dispatch_objects::{Done, Object, Outcome};
use nob_pickle::Value;

/// A counter. Its method 0 adds a whole number to the total, and answers the total.
#[derive(Drop)]
pub(crate) struct Counter {
    pub(crate) total: i64,
}

impl Object for Counter {
    fn invoke(&mut self, method: u16, args: &Value) -> Outcome {
        match args {
            Value::Int(number) if method == 0 => {
                self.total = self.total.wrapping_add(*number);
                Outcome::Answer(Value::Int(self.total))
            }
            _ => Outcome::NoMethod,
        }
    }

    fn resume(&mut self, _done: &Done) -> Outcome {
        Outcome::NoMethod
    }
}
