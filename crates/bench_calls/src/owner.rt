//! What an application does that has an object for the others.

use crate::thing::Thing;
use nob_nodes::{Hold, Node};
use std::sync::Wait;

/// The name of an object that a node has for the others.
pub(crate) const NAME: &[u8] = b"thing";

// The name of the object that a node has for one of the others alone.
pub(crate) fn name_for(space: u16) -> [u8; 2] {
    space.to_be_bytes()
}

// Exports an object, and has a name stand for it.
pub(crate) fn offer<R: Wait>(
    rt: &R,
    node: &mut Node<Thing>,
    thing: Thing,
    name: &[u8],
) -> Option<Hold> {
    let Ok(hold) = node.export(rt, thing) else {
        return None;
    };
    let _ = node.bind(rt, name, &hold);
    Some(hold)
}

// Has an object for each of the other spaces alone. It stays as long as its name stands for it.
pub(crate) fn offer_each<R: Wait>(rt: &R, node: &mut Node<Thing>, thing: Thing, spaces: u16) {
    for space in 2..=spaces {
        let name = name_for(space);
        if let Some(hold) = offer(rt, node, thing, &name) {
            give_back(rt, node, hold);
        }
    }
}

// Gives a hold back.
pub(crate) fn give_back<R: Wait>(rt: &R, node: &mut Node<Thing>, hold: Hold) {
    if let Err((_error, hold)) = node.release(rt, hold) {
        hold.forget();
    }
}
