//! What objects are, and references that say so.

use nob_ids::WireRep;
use nob_pickle::{Value, Values};
use std::alloc::{AllocError, Global};

/// What an object is.
#[derive(Clone, Copy, PartialEq, Eq)]
pub(crate) enum Kind {
    /// It counts its calls.
    Counter,
    /// It keeps references.
    Table,
    /// It calls the object that a reference is to.
    Caller,
    /// Its methods end in faults.
    Faulty,
    /// Its methods take long.
    Slow,
}

/// All kinds.
pub(crate) const KINDS: [Kind; 5] = [
    Kind::Counter,
    Kind::Table,
    Kind::Caller,
    Kind::Faulty,
    Kind::Slow,
];

impl Kind {
    // Its number, by which it is named on the way.
    pub(crate) fn number(self) -> u8 {
        match self {
            Kind::Counter => 0,
            Kind::Table => 1,
            Kind::Caller => 2,
            Kind::Faulty => 3,
            Kind::Slow => 4,
        }
    }

    // The kind of a number.
    fn of_number(number: i64) -> Option<Kind> {
        let place = usize::try_from(number).ok()?;
        KINDS.get(place).copied()
    }

    // Whether its methods call nobody.
    pub(crate) fn is_leaf(self) -> bool {
        self != Kind::Caller
    }
}

/// A reference to an object of a kind.
#[derive(Clone, Copy)]
pub(crate) struct Reference {
    pub(crate) rep: WireRep,
    pub(crate) kind: Kind,
}

impl Reference {
    // The value by which it is passed: a list of the reference and the number of its kind.
    pub(crate) fn value(self, alloc: Global) -> Result<Value, AllocError> {
        let mut values = Vec::with_capacity(alloc, 2)?;
        values.push(Value::Ref(self.rep))?;
        values.push(Value::Int(i64::from(self.kind.number())))?;
        Ok(Value::List(Values::from_vec(values)))
    }

    // The one that a value passes.
    pub(crate) fn of_value(value: &Value) -> Option<Reference> {
        let Value::List(values) = value else {
            return None;
        };
        match values.as_slice() {
            [Value::Ref(rep), Value::Int(number)] => Some(Reference {
                rep: *rep,
                kind: Kind::of_number(*number)?,
            }),
            _ => None,
        }
    }
}

// The number of the space that has the object of a reference.
pub(crate) fn owner_of(rep: &WireRep) -> u16 {
    rep.owner.get()
}
