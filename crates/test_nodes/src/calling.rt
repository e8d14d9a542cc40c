//! Calls of a node, of which those that are refused are counted.

use nob_dispatch_objects::Object;
use nob_ids::SpaceId;
use nob_nodes::{Hold, Node, Returned};
use nob_pickle::Value;
use std::sync::Wait;

/// What a call came to.
#[derive(Clone, Copy, Debug, PartialEq, Eq)]
pub(crate) enum Said {
    /// It answered a number.
    Number(i64),
    /// It ended in a fault with a number.
    Fault(i64),
    /// It ended without an answer.
    Ended,
    /// It came to something else.
    Other,
}

/// How many calls nodes refused, or couldn't make.
#[derive(Clone, Copy, Debug)]
pub(crate) struct Refusals {
    count: u64,
}

impl Refusals {
    /// None yet.
    pub(crate) fn new() -> Refusals {
        Refusals { count: 0 }
    }

    /// How many there are.
    pub(crate) fn count(self) -> u64 {
        self.count
    }

    /// These and those of another application.
    pub(crate) fn with(self, other: Refusals) -> Refusals {
        Refusals {
            count: self.count.saturating_add(other.count),
        }
    }

    // One more.
    fn add(&mut self) {
        self.count = self.count.saturating_add(1);
    }

    /// What a node answered. Where it refused, that is counted.
    pub(crate) fn answered<T, E: Drop>(&mut self, answer: Result<T, E>) -> Option<T> {
        match answer {
            Ok(value) => Some(value),
            Err(_) => {
                self.add();
                None
            }
        }
    }
}

/// Exports an object, and has a name stand for it.
pub(crate) fn offer<B: Object, R: Wait>(
    rt: &R,
    node: &mut Node<B>,
    refusals: &mut Refusals,
    name: &[u8],
    object: B,
) -> Option<Hold> {
    let hold = refusals.answered(node.export(rt, object))?;
    let _ = refusals.answered(node.bind(rt, name, &hold));
    Some(hold)
}

/// The object that a name of a space stands for: else what the lookup came to.
pub(crate) fn found<B: Object, R: Wait>(
    rt: &R,
    node: &mut Node<B>,
    refusals: &mut Refusals,
    space: SpaceId,
    name: &[u8],
) -> Result<Hold, Said> {
    let Some(returned) = refusals.answered(node.lookup(rt, space, name)) else {
        return Err(Said::Other);
    };
    match returned.into_hold() {
        Ok(hold) => Ok(hold),
        Err(returned) => {
            let said = said_of(&returned);
            returned.forget();
            Err(said)
        }
    }
}

/// Calls a method of an object: what that came to. Nothing is called where there is no hold.
pub(crate) fn said_by<B: Object, R: Wait>(
    rt: &R,
    node: &mut Node<B>,
    refusals: &mut Refusals,
    hold: &Option<Hold>,
    method: u16,
    value: Value,
) -> Said {
    let Some(hold) = hold else {
        return Said::Other;
    };
    let Some(returned) = refusals.answered(node.call(rt, hold, method, value)) else {
        return Said::Other;
    };
    let said = said_of(&returned);
    returned.forget();
    said
}

// What was returned.
fn said_of(returned: &Returned) -> Said {
    match returned {
        Returned::Replied { status, value, .. } => match value {
            Value::Int(number) => said_with(*status, *number),
            _ => Said::Other,
        },
        Returned::Ended => Said::Ended,
    }
}

// What a reply of this status says with a number.
fn said_with(status: u8, number: i64) -> Said {
    match status {
        0 => Said::Number(number),
        1 => Said::Fault(number),
        _ => Said::Other,
    }
}

/// Gives a hold back, if there is one.
pub(crate) fn give_back<B: Object, R: Wait>(
    rt: &R,
    node: &mut Node<B>,
    refusals: &mut Refusals,
    hold: Option<Hold>,
) {
    let Some(hold) = hold else {
        return;
    };
    if let Err((_error, hold)) = node.release(rt, hold) {
        refusals.add();
        hold.forget();
    }
}
