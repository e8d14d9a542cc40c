//! The objects.

use nob_dispatch_objects::{Done, Object, Outcome};
use nob_ids::WireRep;
use nob_pickle::Value;

/// An object.
#[derive(Clone, Copy, Debug, Drop)]
pub(crate) enum Thing {
    /// Its method 0 answers unit.
    Answers,
    /// Its method 0 takes a list of two references, calls method 0 of the first with the second, and
    /// then answers unit.
    PassesOn,
}

impl Object for Thing {
    fn invoke(&mut self, _method: u16, args: &Value) -> Outcome {
        match self {
            Thing::Answers => Outcome::Answer(Value::Unit),
            Thing::PassesOn => match pair_in(args) {
                Some((target, passed)) => Outcome::Call {
                    target,
                    method: 0,
                    value: Value::Ref(passed),
                },
                None => Outcome::NoMethod,
            },
        }
    }

    fn resume(&mut self, _done: &Done) -> Outcome {
        Outcome::Answer(Value::Unit)
    }
}

// The two references in a list.
fn pair_in(args: &Value) -> Option<(WireRep, WireRep)> {
    let Value::List(values) = args else {
        return None;
    };
    let values = values.as_slice();
    Some((
        reference_in(values.first()?)?,
        reference_in(values.get(1)?)?,
    ))
}

// The reference that a value is.
fn reference_in(value: &Value) -> Option<WireRep> {
    match value {
        Value::Ref(rep) => Some(*rep),
        _ => None,
    }
}
