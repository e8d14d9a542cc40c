//! Calls, and what they say.

use crate::rows::Said;
use crate::thing::Thing;
use nob_nodes::{Hold, Node, Returned, give_back, give_back_all};
use nob_pickle::Value;
use std::sync::Wait;

// Calls a method of an object, where there is one to call and an argument for it: what that says.
// The references in the reply are given back.
pub(crate) fn told<R: Wait>(
    rt: &R,
    node: &mut Node<Thing>,
    hold: &Option<Hold>,
    method: u16,
    value: Option<Value>,
) -> Said {
    let (Some(hold), Some(value)) = (hold, value) else {
        return Said::Nothing;
    };
    match node.call(rt, hold, method, value) {
        Ok(returned) => {
            let said = match &returned {
                Returned::Replied { status, value, .. } => Said::of(*status, value),
                Returned::Ended => Said::Nothing,
            };
            give_back_all(rt, node, returned);
            said
        }
        Err((_error, _value)) => Said::Nothing,
    }
}

// Gives a hold back, if there is one.
pub(crate) fn end<R: Wait>(rt: &R, node: &mut Node<Thing>, hold: Option<Hold>) {
    if let Some(hold) = hold {
        let _ = give_back(rt, node, hold);
    }
}
