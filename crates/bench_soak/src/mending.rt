//! What a player does between two phases: what was closed is opened anew.

use crate::desk::Doing;
use crate::figures::add;
use crate::kind::KINDS;
use crate::player::{LAST_NAME, Soaker, name_of};
use crate::resting::{doze, hear};
use crate::thing::Thing;
use nob_ids::SpaceId;
use nob_model_types::Refusal;
use nob_nodes::{Node, NodeError};
use std::sync::Wait;

/// How often it tries to open a session, while something of the peer's is still under way here.
const TRIES: u32 = 20;

// Opens each session anew that is closed, once no name stands for a reference of another space.
pub(crate) fn open_all<R: Wait>(soaker: &mut Soaker, rt: &R, node: &mut Node<Thing>) {
    for number in 1..=soaker.plan.spaces {
        if let Some(peer) = SpaceId::new(number)
            && is_closed(rt, node, peer)
        {
            open_anew(soaker, rt, node, peer);
        }
    }
}

// Closes the session with a peer.
pub(crate) fn close<R: Wait>(soaker: &mut Soaker, rt: &R, node: &mut Node<Thing>, peer: SpaceId) {
    soaker.say(rt, Doing::Closes(peer.get()));
    match node.close(rt, peer) {
        Ok(()) => add(&mut soaker.figures.closes),
        Err(error) => soaker.figures.count_error(error),
    }
}

// Whether the session with a space is closed: not, where it is no peer.
pub(crate) fn is_closed<R: Wait>(rt: &R, node: &mut Node<Thing>, peer: SpaceId) -> bool {
    match node.tally(rt, peer) {
        Some(tally) => tally.closed.is_some(),
        None => false,
    }
}

// Opens a session anew, once no name stands for a reference of another space; and half of the times
// sends something at once: else the peer hears of it by what comes later, or by what it asks
// itself. Where the links to the peer are let go what is sent closes the session again.
pub(crate) fn open_anew<R: Wait>(
    soaker: &mut Soaker,
    rt: &R,
    node: &mut Node<Thing>,
    peer: SpaceId,
) {
    unbind_from(soaker, rt, node, 1);
    soaker.say(rt, Doing::Opens(peer.get()));
    for _ in 0..TRIES {
        match node.open(rt, peer) {
            Ok(_number) => {
                add(&mut soaker.figures.opens);
                return hear_by_chance(soaker, rt, node, peer);
            }
            Err(NodeError::Refused(Refusal::StillHeld)) => doze(rt, 100),
            Err(error) => return soaker.figures.count_error(error),
        }
    }
    add(&mut soaker.figures.refused);
}

// Asks a peer, half of the times, whether it is there.
fn hear_by_chance<R: Wait>(soaker: &mut Soaker, rt: &R, node: &mut Node<Thing>, peer: SpaceId) {
    if soaker.chance.is_so(50) {
        hear(soaker, rt, node, peer);
    }
}

// Removes all names, those of its own objects too.
pub(crate) fn give_up_all<R: Wait>(soaker: &mut Soaker, rt: &R, node: &mut Node<Thing>) {
    unbind_from(soaker, rt, node, 0);
}

// Removes each name from a place on.
fn unbind_from<R: Wait>(soaker: &mut Soaker, rt: &R, node: &mut Node<Thing>, first: u8) {
    soaker.say(rt, Doing::GivesBack);
    for kind in KINDS {
        for place in first..=LAST_NAME {
            if let Err(error) = node.unbind(rt, &name_of(kind, place)) {
                soaker.figures.count_error(error);
            }
        }
    }
}
